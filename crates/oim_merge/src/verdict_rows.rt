ghost use Rattle.std.specs.Prelude.{◌≡◌, ◌-◌, ◌^◌, ◌<◌, IfOk, IfErr, OnOk, string_bytes};
ghost use Rattle.fact_base.specs.Rows.{rows_of};
ghost use Rattle.oim_write.specs.Sink.{failures_after_write, written_of};
ghost use Rattle.oim_merge.specs.Judged.{IsJudged, names_of};
ghost use Rattle.oim_merge.specs.Lines.{evidence_text};
ghost use Rattle.oim_merge.specs.VerdictCalls.{RowsStop, ListsRows};
ghost use Rattle.oim_merge.specs.code.BufferedRows.{BreaksRows, PassesRows};
ghost use Rattle.oim_merge.specs.Run.{failures_after_run};

use crate::fault::Fault;
use crate::refusals::Refusals;
use crate::verdict_format::{Identifiers, JudgedRow, VerdictFormat};
use fact_base::{Base, Evidence};
use oim_value::write_units;
use oim_write::{Scratch, Sink, SinkBuffer, WriteFault};
use std::alloc::{AllocError, Global};

/// The format of the lines that `verdict_lines` writes.
#[derive(Clone, Copy, Debug)]
pub struct VerdictLines;

impl VerdictFormat for VerdictLines {
    ghost use Rattle.std.specs.Prelude.{[]};
    ghost use Rattle.oim_merge.specs.Lines.{line_text};
    ghost use Rattle.oim_merge.specs.code.SameLine.{same_line};

    ghost header = { λ format. [] };

    ghost row_text = { λ format. line_text };

    ghost names = { λ format. same_line };

    fn header(&self, alloc: Global) -> Result<Vec<u8>, AllocError> {
        Ok(Vec::new(alloc))
    }

    fn row(&self, _scratch: &mut Scratch, judged: &JudgedRow<'_>) -> Result<Vec<u8>, AllocError> {
        let first = judged.identifiers.at(0)?;
        let last = judged.identifiers.at(judged.row.values.len() - 1)?;
        let told = evidence_in_words(judged)?;
        let number = judged.number;
        let first = first.as_str();
        let last = last.as_str();
        let line = format!(in judged.identifiers.alloc; "{number} {first} {last} {told}\n")?;
        Ok(line.into_bytes())
    }
}

fn evidence_in_words(judged: &JudgedRow<'_>) -> Result<String, AllocError>
    requires { IsJudged judged.now }
    ensures { IfOk result (λ text. string_bytes text ≡ evidence_text (names_of judged.now) judged.now.evidence) }
{
    let alloc = judged.identifiers.alloc;
    match judged.evidence {
        Evidence::Alike => String::from_str(alloc, "complete"),
        Evidence::Common(common) => {
            let low = write_units(alloc, common.low)?;
            let high = write_units(alloc, common.high)?;
            let low = low.as_str();
            let high = high.as_str();
            format!(in alloc; "consistent common {low} {high}")
        }
        Evidence::Apart(first, second) => {
            let first = judged.identifiers.at(first)?;
            let second = judged.identifiers.at(second)?;
            let first = first.as_str();
            let second = second.as_str();
            format!(in alloc; "inconsistent apart {first} {second}")
        }
    }
}

/// Appends the header and the rows of a base to the sink in this format, and returns `refusals`
/// unchanged.
///
/// Errors: `Device` if the sink failed; `OutOfMemory`.
pub fn write_verdicts<S: Sink, F: VerdictFormat>(
    alloc: Global,
    base: &Base<'_>,
    refusals: Refusals,
    format: &F,
    out: &mut S,
) -> Result<Refusals, Fault>
    requires { S.failures out.old < 2 ^ 64 - 1 }
    ensures ok { IfOk result (ListsRows (F.header format.now) (F.row_text format.now) base.now.body refusals (S.told out.old) (S.told out.new)) }
    ensures err { IfErr result (RowsStop (F.header format.now) (F.row_text format.now) base.now.body (S.told out.old) (S.told out.new)) }
    ensures failures { S.failures out.new ≡ failures_after_run result (S.failures out.old) }
{
    // the contract of `sheet` states that the facts fit the sheet, so each row has evidence
    let _sheet = base.sheet();
    let mut buffer = SinkBuffer::new(alloc)?;
    let header = format.header(alloc)?;
    buffer.push(out, header.as_slice())?;
    push_rows(alloc, &mut buffer, out, base, format)?;
    buffer.flush(out)?;
    Ok(refusals)
}

fn push_rows<S: Sink, F: VerdictFormat>(
    alloc: Global,
    buffer: &mut SinkBuffer,
    out: &mut S,
    base: &Base<'_>,
    format: &F,
) -> Result<(), WriteFault>
    requires { S.failures out.old < 2 ^ 64 - 1 }
    ensures ok { OnOk result (PassesRows (F.row_text format.now) base.now.body.facts (rows_of base.now.body.facts) (S.told out.old) (S.told out.new) buffer.old buffer.new) }
    ensures err { IfErr result (λ fault. BreaksRows (F.row_text format.now) base.now.body.facts (rows_of base.now.body.facts) (S.told out.old) (S.told out.new) buffer.old (written_of fault)) }
    ensures failures { S.failures out.new ≡ failures_after_write result (S.failures out.old) }
{
    // the contract of `sheet` states that the facts ascend and fit the sheet
    let _sheet = base.sheet();
    let mut scratch = Scratch::new(alloc);
    let mut identifiers = Identifiers {
        alloc,
        before: 0,
        count: base.fact_count(),
    };
    // the contract of `row_count` states that the number of rows fits in a `u64`, so `number` does
    // not overflow
    let _most = base.row_count();
    let mut number = 0;
    for row in base.rows() {
        number += 1;
        let judged = JudgedRow {
            number,
            identifiers,
            row,
            evidence: row.evidence(),
        };
        let text = match format.row(&mut scratch, &judged) {
            Ok(text) => text,
            Err(refused) => return Err(buffer.stop(out, refused)),
        };
        buffer.push(out, text.as_slice())?;
        identifiers.before += row.values.len() as u128;
    }
    Ok(())
}
