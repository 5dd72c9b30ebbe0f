ghost use Rattle.std.specs.Prelude.{◌≡◌, map};
ghost use Rattle.std.specs.Option.{option_copied};
ghost use Rattle.row_formats.specs.SourceRows.{file_of};

use crate::cells::Cells;
use crate::row_csv::{csv_source, source_header};
use crate::row_format::{RowFormat, with_mark};
use crate::row_json::json_source;
use oim_merge::{IndexedMention, SourceFormat};
use std::alloc::{AllocError, Global};

/// Sources for other programs (own). Each JSON object or CSV record has the number of a report (from
/// 1), its file, the identifier of a fact in the report, and the fact's identifier in the canonical
/// text.
#[derive(Clone, Copy, Debug)]
pub struct SourceRows<'n> {
    pub format: RowFormat,
    /// The files, in the order of the reports. A report behind the last file has none: null in JSON,
    /// an empty cell in CSV.
    pub files: &'n [&'n str],
}

pub(crate) fn file_of<'n>(files: &[&'n str], report: u64) -> Option<&'n str>
    ensures { option_copied result ≡ file_of (map (λ f. f.now) files.now) report }
{
    files.get(report.saturating_sub(1) as usize).copied()
}

impl SourceFormat for SourceRows<'_> {
    ghost use Rattle.std.specs.Prelude.{map};
    ghost use Rattle.row_formats.specs.SourceRows.{source_header, source_text};

    ghost header = { λ rows. source_header rows.format };

    ghost source_text = { λ rows. source_text rows.format (map (λ f. f.now) rows.files.now) };

    fn header(&self, alloc: Global) -> Result<Vec<u8>, AllocError> {
        match self.format {
            RowFormat::Json => Ok(Vec::new(alloc)),
            RowFormat::Csv => source_header(alloc),
            RowFormat::SpreadsheetCsv => with_mark(alloc, source_header(alloc)?),
        }
    }

    fn source(
        &self,
        alloc: Global,
        fact: &str,
        mention: &IndexedMention,
    ) -> Result<Vec<u8>, AllocError> {
        let file = file_of(self.files, mention.report);
        let spreadsheet = match self.format {
            RowFormat::Json => return json_source(alloc, file, fact, mention),
            RowFormat::Csv => false,
            RowFormat::SpreadsheetCsv => true,
        };
        csv_source(Cells { alloc, spreadsheet }, file, fact, mention)
    }
}
