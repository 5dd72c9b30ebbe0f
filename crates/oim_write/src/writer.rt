ghost use Rattle.std.specs.Prelude.{◌≡◌, ◌+◌, ◌-◌, ◌^◌, ◌<◌, false, length, IfOk, IfErr, OnOk};
ghost use Rattle.std.specs.Io.KnownBytes.{Appends};
ghost use Rattle.fact_base.specs.Entries.{facts_with};
ghost use Rattle.oim_write.specs.Bytes.{canonical};
ghost use Rattle.oim_write.specs.code.TextPieces.{facts_text, numbered_text, text_parts};
ghost use Rattle.oim_write.specs.SinkBuffer.{Breaks, Passes};
ghost use Rattle.oim_write.specs.Sink.{AppendsFront, failures_after_write, written_of};
ghost use Rattle.oim_write.specs.Tree.{name_text};

use crate::concept_texts::ConceptTexts;
use crate::labels::width_of;
use crate::parts::{Labels, append_fact, append_reference, head};
use crate::prefix_table::PrefixTable;
use crate::scratch::Scratch;
use crate::sink::{Sink, StdSink};
use crate::sink_buffer::SinkBuffer;
use crate::write_fault::WriteFault;
use fact_base::{Base, Row};
use oim_names::{Encoded, Text};
use std::alloc::{AllocError, Global};

/// Returns the canonical text of a base (xBRL-JSON 1.0; the choice of prefixes and identifiers is
/// our own). The text declares the strictest level of duplicates that the facts satisfy (OIM Common
/// 1.0, `xbrl:allowedDuplicates`).
///
/// Errors: out of memory.
pub fn text(alloc: Global, base: &Base<'_>) -> Result<Encoded, AllocError>
    ensures { IfOk result (λ text. text ≡ canonical base.now.body) }
{
    let mut sink = StdSink::new(Vec::new(alloc));
    match write_to(alloc, base, &mut sink) {
        Ok(()) => Ok(Encoded::from_vec(sink.into_inner())),
        // the sink is a list in memory, which fails only if memory is refused
        Err(WriteFault::OutOfMemory(_) | WriteFault::Device(_)) => Err(AllocError),
    }
}

/// Appends the canonical text of the base to the sink. After a fault, the sink has a first part of
/// the text. The fault contains the length of this part.
///
/// The text is passed to the sink in chunks of at least 65,536 bytes, except the last. If the sink
/// takes only part of a chunk, the rest is passed to it in further calls.
///
/// Errors: `Device` if the sink failed; `OutOfMemory`.
pub fn write_to<S: Sink>(alloc: Global, base: &Base<'_>, out: &mut S) -> Result<(), WriteFault>
    requires { S.failures out.old < 2 ^ 64 - 1 }
    ensures ok { OnOk result (Appends (S.told out.old) (S.told out.new) (canonical base.now.body)) }
    ensures err { IfErr result (λ fault. AppendsFront (S.told out.old) (S.told out.new)
        (canonical base.now.body) (written_of fault)) }
    ensures failures { S.failures out.new ≡ failures_after_write result (S.failures out.old) }
{
    // the contract of `sheet` states that the facts fit the sheet, which the proof needs
    let _sheet = base.sheet();
    let table = PrefixTable::of(alloc, base)?;
    let head = head(alloc, base.level(), &table)?;
    let mut buffer = SinkBuffer::new(alloc)?;
    buffer.push(out, &head)?;
    write_references(alloc, &mut buffer, out, base.taxonomy())?;
    buffer.push(out, b"]},\"facts\":{")?;
    write_facts(alloc, &mut buffer, out, &table, base)?;
    buffer.push(out, b"}}")?;
    buffer.flush(out)
}

// Writes the references one by one, since each may be long.
fn write_references<S: Sink>(
    alloc: Global,
    buffer: &mut SinkBuffer,
    out: &mut S,
    references: &[Text],
) -> Result<(), WriteFault>
    requires { S.failures out.old < 2 ^ 64 - 1 }
    ensures ok { OnOk result (Passes (S.told out.old) (S.told out.new) buffer.old buffer.new
        (text_parts false references.now)) }
    ensures err { IfErr result (λ fault. Breaks (S.told out.old) (S.told out.new) buffer.old
        (text_parts false references.now) (written_of fault)) }
    ensures failures { S.failures out.new ≡ failures_after_write result (S.failures out.old) }
{
    let mut part = Vec::new(alloc);
    let mut later = false;
    for reference in references {
        part.clear();
        match append_reference(alloc, &mut part, later, reference) {
            Ok(()) => {}
            Err(refused) => return Err(buffer.stop(out, refused)),
        }
        buffer.push(out, &part)?;
        later = true;
    }
    Ok(())
}

fn write_facts<S: Sink>(
    alloc: Global,
    buffer: &mut SinkBuffer,
    out: &mut S,
    table: &PrefixTable,
    base: &Base<'_>,
) -> Result<(), WriteFault>
    requires { S.failures out.old < 2 ^ 64 - 1 }
    ensures ok { OnOk result (Passes (S.told out.old) (S.told out.new) buffer.old buffer.new
        (facts_text table.now base.now.body.facts)) }
    ensures err { IfErr result (λ fault. Breaks (S.told out.old) (S.told out.new) buffer.old
        (facts_text table.now base.now.body.facts) (written_of fault)) }
    ensures failures { S.failures out.new ≡ failures_after_write result (S.failures out.old) }
{
    let digits = width_of(base.fact_count());
    let mut concepts = ConceptTexts::new(alloc);
    let mut part = Vec::new(alloc);
    let mut scratch = Scratch::new(alloc);
    let mut before = 0;
    let mut rows = base.rows();
    while let Some(row) = rows.next() {
        match concepts.spell(table, row, &rows) {
            Ok(()) => {}
            Err(refused) => return Err(buffer.stop(out, refused)),
        }
        let concept = concepts.text.as_str();
        let labels = Labels {
            table,
            digits,
            concept,
        };
        write_row(buffer, out, &labels, before, row, &mut part, &mut scratch)?;
        before += row.values.len() as u128;
    }
    Ok(())
}

// `before` is the number of facts before the row. All rows reuse `part` and `scratch`.
fn write_row<S: Sink>(
    buffer: &mut SinkBuffer,
    out: &mut S,
    labels: &Labels<'_>,
    before: u128,
    row: Row<'_>,
    part: &mut Vec<u8>,
    scratch: &mut Scratch,
) -> Result<(), WriteFault>
    requires failures { S.failures out.old < 2 ^ 64 - 1 }
    requires room { before + length row.values.now < 2 ^ 128 }
    requires concept { labels.now.concept.now ≡ name_text labels.now.table.now row.dimensions.now.concept }
    ensures ok { OnOk result (Passes (S.told out.old) (S.told out.new) buffer.old buffer.new
        (numbered_text labels.now.table.now labels.now.digits before (facts_with row.entry.dimensions.now row.entry.values.now))) }
    ensures err { IfErr result (λ fault. Breaks (S.told out.old) (S.told out.new) buffer.old
        (numbered_text labels.now.table.now labels.now.digits before (facts_with row.entry.dimensions.now row.entry.values.now)) (written_of fault)) }
    ensures failures { S.failures out.new ≡ failures_after_write result (S.failures out.old) }
{
    for (i, value) in row.values.iter().enumerate() {
        part.clear();
        let before = before + i as u128;
        match append_fact(part, scratch, labels, before, row.dimensions, value) {
            Ok(()) => {}
            Err(refused) => return Err(buffer.stop(out, refused)),
        }
        buffer.push(out, part)?;
    }
    Ok(())
}
