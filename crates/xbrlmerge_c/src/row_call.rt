ghost use Rattle.std.specs.Prelude.{◌≡◌, ◌-◌, ◌^◌, ◌<◌, None, IfErr, IfOk, IfSome, true, false};
ghost use Rattle.xbrlmerge_c.specs.Answers.{NoRow, StopsBy};
ghost use Rattle.xbrlmerge_c.specs.Calls.{AnswersRowCall, IsBeyond, IsSheetRefused, IsTooMuch, IsWithin, Lists, bound_of};
ghost use Rattle.xbrlmerge_c.specs.CallerMemory.{memory};
ghost use Rattle.xbrlmerge_c.specs.code.Reports.{HasValidEnds, texts_of};
ghost use Rattle.xbrlmerge_c.specs.code.RowCall.{AreLong, ListsRowCall, WritesRowCall};
ghost use Rattle.xbrlmerge_c.specs.declared.row_call.RowCall.TheVariants.{Sources, SourcesJson, Verdicts, VerdictsJson};

use crate::output::{BAD_ENDS, Made, RefusedReport, TOO_MUCH, answer};
use crate::reports::{Reports, add_reports, merge_reports, read_sheet, trace_reports};
use fact_base::Base;
use oim_merge::{Fault, Merged, Refusals, SourceLines, write_verdicts};
use oim_report::Sheet;
use oim_write::{BoundedSink, Sink, StdSink, default_bound};
use row_formats::{RowFormat, SourceRows, has_long_row};
use std::alloc::{AllocError, Global};

/// What a call lists, and in which format: lines, or JSON objects.
#[derive(Clone, Copy, Debug)]
pub(crate) enum RowCall {
    Verdicts,
    Sources,
    VerdictsJson,
    SourcesJson,
}

impl RowCall {
    /// Implements the exported calls that list verdicts or sources. Its contract is the contract of
    /// the call.
    pub(crate) fn list(
        self,
        bound: Option<u64>,
        alloc: Global,
        sheet: &[u8],
        reports: &Reports<'_>,
        out: &mut [u8],
        needed: &mut usize,
        refusals: &mut [RefusedReport],
        refused: &mut usize,
    ) -> u32
        ensures { AnswersRowCall self bound sheet.now reports.now.bytes.now reports.now.ends.now result
            (memory out.old needed.old refusals.old refused.old) (memory out.new needed.new refusals.new refused.new) }
    {
        if !reports.has_valid_ends() {
            return BAD_ENDS;
        }
        match listed(alloc, self, bound, sheet, reports) {
            Some(made) => answer(made, out, needed, refusals, refused),
            None => TOO_MUCH,
        }
    }
}

/// Returns the bound of a call with the argument `most`.
pub(crate) fn bound_of(most: usize, sheet: &[u8], reports: &[u8]) -> u64
    ensures { result ≡ bound_of most sheet.now reports.now }
{
    if most == 0 {
        default_bound((sheet.len() as u64).saturating_add(reports.len() as u64))
    } else {
        most as u64
    }
}

/// Returns the listing and the refusals, or None if the listing is longer than the bound.
///
/// A sink in memory fails only if memory is refused or the bound is reached. Within the bound,
/// `Device` means the same as `OutOfMemory`.
fn listed(
    alloc: Global,
    call: RowCall,
    bound: Option<u64>,
    sheet: &[u8],
    reports: &Reports<'_>,
) -> Option<Result<Made, Fault>>
    requires { HasValidEnds reports.now }
    ensures ok { IfSome result (λ made. IfOk made (λ made. Lists call bound sheet.now (texts_of reports.now) made.text.items made.refusals)) }
    ensures err { IfSome result (λ made. IfErr made (StopsBy NoRow (IsSheetRefused sheet.now))) }
    ensures beyond { result ≡ None → IsTooMuch call bound sheet.now (texts_of reports.now) }
{
    let sheet = match read_sheet(alloc, sheet) {
        Ok(sheet) => sheet,
        Err(fault) => return Some(Err(fault)),
    };
    // One byte above the bound shows that the listing is longer than the bound.
    let most = bound.unwrap_or(u64::MAX).saturating_add(1);
    let mut sink = BoundedSink::new(StdSink::new(Vec::new(alloc)), most);
    let written = write(alloc, call, bound, &sheet, reports, &mut sink);
    let text = sink.into_inner().into_inner();
    if is_beyond(bound, &text) {
        return None;
    }
    match written {
        Some(Ok(refusals)) => Some(Ok(Made { text, refusals })),
        Some(Err(fault)) => Some(Err(fault)),
        None => None,
    }
}

fn is_beyond(bound: Option<u64>, text: &[u8]) -> bool
    ensures beyond { result ≡ true → IsBeyond bound text.now }
    ensures within { result ≡ false → IsWithin bound text.now }
{
    match bound {
        Some(bound) => text.len() as u64 > bound,
        None => false,
    }
}

/// Writes the listing, or returns None without writing if one of its rows is longer than the bound.
fn write<S: Sink>(
    alloc: Global,
    call: RowCall,
    bound: Option<u64>,
    sheet: &Sheet,
    reports: &Reports<'_>,
    out: &mut S,
) -> Option<Result<Refusals, Fault>>
    requires sink { S.failures out.old < 2 ^ 64 - 1 }
    requires ends { HasValidEnds reports.now }
    ensures { WritesRowCall call bound sheet.now (texts_of reports.now) (S.told out.old) (S.told out.new) result }
{
    match call {
        RowCall::Verdicts => Some(write_verdict_lines(alloc, sheet, reports, out)),
        RowCall::Sources => Some(write_source_lines(alloc, sheet, reports, out)),
        RowCall::VerdictsJson => write_json_verdicts(alloc, bound, sheet, reports, out),
        RowCall::SourcesJson => Some(write_json_sources(alloc, sheet, reports, out)),
    }
}

fn write_verdict_lines<S: Sink>(
    alloc: Global,
    sheet: &Sheet,
    reports: &Reports<'_>,
    out: &mut S,
) -> Result<Refusals, Fault>
    requires sink { S.failures out.old < 2 ^ 64 - 1 }
    requires ends { HasValidEnds reports.now }
    ensures { ListsRowCall Verdicts sheet.now (texts_of reports.now) (S.told out.old) (S.told out.new) result }
{
    add_reports(alloc, sheet, reports)?.finish_lines(out)
}

fn write_source_lines<S: Sink>(
    alloc: Global,
    sheet: &Sheet,
    reports: &Reports<'_>,
    out: &mut S,
) -> Result<Refusals, Fault>
    requires sink { S.failures out.old < 2 ^ 64 - 1 }
    requires ends { HasValidEnds reports.now }
    ensures { ListsRowCall Sources sheet.now (texts_of reports.now) (S.told out.old) (S.told out.new) result }
{
    trace_reports(alloc, sheet, reports)?.finish(&SourceLines, out)
}

fn write_json_sources<S: Sink>(
    alloc: Global,
    sheet: &Sheet,
    reports: &Reports<'_>,
    out: &mut S,
) -> Result<Refusals, Fault>
    requires sink { S.failures out.old < 2 ^ 64 - 1 }
    requires ends { HasValidEnds reports.now }
    ensures { ListsRowCall SourcesJson sheet.now (texts_of reports.now) (S.told out.old) (S.told out.new) result }
{
    // the caller passes bytes without names
    let rows = SourceRows {
        format: RowFormat::Json,
        files: &[],
    };
    trace_reports(alloc, sheet, reports)?.finish(&rows, out)
}

fn write_json_verdicts<S: Sink>(
    alloc: Global,
    bound: Option<u64>,
    sheet: &Sheet,
    reports: &Reports<'_>,
    out: &mut S,
) -> Option<Result<Refusals, Fault>>
    requires sink { S.failures out.old < 2 ^ 64 - 1 }
    requires ends { HasValidEnds reports.now }
    ensures { WritesRowCall VerdictsJson bound sheet.now (texts_of reports.now) (S.told out.old) (S.told out.new) result }
{
    let merged = match merge_reports(alloc, sheet, reports) {
        Ok(merged) => merged,
        Err(AllocError) => return Some(Err(Fault::OutOfMemory(0))),
    };
    let Merged { base, refusals } = merged;
    if is_long(bound, &base) {
        return None;
    }
    Some(write_verdicts(alloc, &base, refusals, &RowFormat::Json, out))
}

fn is_long(bound: Option<u64>, base: &Base<'_>) -> bool
    ensures { result ≡ true → AreLong bound base.now.body }
{
    match bound {
        Some(bound) => has_long_row(RowFormat::Json, base, bound),
        None => false,
    }
}
