ghost use Rattle.std.specs.Prelude.{◌≡◌, ◌++◌, ◌∷◌, [], IfOk, OnOk};
ghost use Rattle.csv.specs.Records.{fields_of};
ghost use Rattle.row_formats.specs.CsvRows.{record_text};

use csv::{StringRecord, Terminator, WriterBuilder};
use std::alloc::{AllocError, Global};

// A writer to memory fails only if memory is refused.
pub(crate) fn text_of_record(alloc: Global, fields: &StringRecord) -> Result<Vec<u8>, AllocError>
    ensures { IfOk result (λ text. text.items ≡ record_text (fields_of fields.now)) }
{
    let mut writer = WriterBuilder::new()
        .terminator(Terminator::CRLF)
        .from_writer(Vec::new(alloc));
    let Ok(()) = writer.write_byte_record(fields.as_byte_record()) else {
        return Err(AllocError);
    };
    match writer.into_inner() {
        Ok(text) => Ok(text),
        Err(_) => Err(AllocError),
    }
}

pub(crate) fn push_three(
    fields: &mut StringRecord,
    first: &str,
    second: &str,
    third: &str,
) -> Result<(), AllocError>
    ensures { OnOk result (fields_of fields.new ≡ fields_of fields.old ++ first.now ∷ second.now ∷ third.now ∷ []) }
{
    fields.push_field(first)?;
    fields.push_field(second)?;
    fields.push_field(third)
}
