ghost use Rattle.std.specs.Prelude.{◌≡◌, slice_get, ◌⊎◌, ◌↔◌, ◌<◌, ◌≤◌, None, Some, IfErr, IfOk};
ghost use Rattle.oim_value.specs.Level.{levels};
ghost use Rattle.oim_value.specs.declared.level.Level.{Level as Allowed};
ghost use Rattle.xbrlmerge_c.specs.Answers.{StopsBy};
ghost use Rattle.xbrlmerge_c.specs.Calls.{AnswersRowCall, IsLoose, IsSheetRefused, Merges, bound_of};
ghost use Rattle.xbrlmerge_c.specs.Ends.{AreEnds, reports_at};
ghost use Rattle.xbrlmerge_c.specs.CallerMemory.{Asks, Hands, HasNoText, Rejects, TellsFirst, memory};
ghost use Rattle.xbrlmerge_c.specs.Statuses.{bad_ends, bad_level, done, no_memory, refused_some, sheet_refused, too_loose, too_short};
ghost use Rattle.xbrlmerge_c.specs.code.Reports.{HasValidEnds, texts_of};
ghost use Rattle.xbrlmerge_c.specs.declared.row_call.RowCall.TheVariants.{Sources, SourcesJson, Verdicts, VerdictsJson};

use crate::output::{BAD_ENDS, BAD_LEVEL, Made, RefusedReport, answer};
use crate::reports::{Reports, add_reports, read_sheet};
use crate::row_call::{RowCall, bound_of};
use oim_merge::Fault;
use oim_value::Level;
use oim_write::StdSink;
use std::alloc::Global;

// In C, each slice is two parameters, a pointer and a length, and `alloc` is not a parameter.

fn level_numbered(number: u32) -> Option<Level>
    ensures { result ≡ slice_get levels number }
{
    match number {
        0 => Some(Level::Unique),
        1 => Some(Level::Complete),
        2 => Some(Level::Consistent),
        3 => Some(Level::All),
        _ => None,
    }
}

/// Merges reports, as `oim_merge::consolidate` does. The reports are concatenated in `reports` and
/// end at `ends`. `allow` is the number of a level, from 0 for the strictest to 3. The canonical
/// text is written to the start of `out` and the refused reports to the start of `refusals`;
/// `needed` and `refused` get their lengths. Returns `DONE`, or `REFUSED` if a report was refused.
///
/// Errors, by the status: `TOO_LOOSE`, with the refused reports, without a text, and with `needed`
/// set to the number of the first row above the level; `TOO_SHORT`, with only the lengths (0 for
/// the text if a row is above the level); `SHEET_REFUSED`, with `needed` set to the number of the
/// refusal and `refused` to 0; `NO_MEMORY`, `BAD_ENDS` and `BAD_LEVEL`, with nothing changed.
#[unsafe(no_mangle)]
pub extern "C" fn xbrlmerge_merge(
    alloc: Global,
    sheet: &[u8],
    reports: &[u8],
    ends: &[usize],
    allow: u32,
    out: &mut [u8],
    needed: &mut usize,
    refusals: &mut [RefusedReport],
    refused: &mut usize,
) -> u32
    ensures statuses { result ≤ bad_level }
    ensures ends { result ≤ no_memory → AreEnds reports.now ends.now }
    ensures done { (level : Allowed) → slice_get levels allow ≡ Some level → result ≤ refused_some →
        Hands (Merges sheet.now (reports_at reports.now ends.now) level)
        (memory out.old needed.old refusals.old refused.old) (memory out.new needed.new refusals.new refused.new) }
    ensures none_refused { result ≡ done → refused.new ≡ 0 }
    ensures some_refused { result ≡ refused_some → 0 < refused.new }
    ensures loose { (level : Allowed) → slice_get levels allow ≡ Some level → result ≡ too_loose →
        TellsFirst (IsLoose sheet.now (reports_at reports.now ends.now) level)
        (memory out.old needed.old refusals.old refused.old) (memory out.new needed.new refusals.new refused.new) }
    ensures short { (level : Allowed) → slice_get levels allow ≡ Some level → result ≡ too_short →
        Asks (λ text returned. Merges sheet.now (reports_at reports.now ends.now) level text returned
        ⊎ HasNoText (IsLoose sheet.now (reports_at reports.now ends.now) level) text returned)
        (memory out.old needed.old refusals.old refused.old) (memory out.new needed.new refusals.new refused.new) }
    ensures sheet { result ≡ sheet_refused → Rejects (IsSheetRefused sheet.now)
        (memory out.old needed.old refusals.old refused.old) (memory out.new needed.new refusals.new refused.new) }
    ensures bad_ends { result ≡ bad_ends → AreEnds reports.now ends.now → ⊥ }
    ensures bad_level { result ≡ bad_level ↔ slice_get levels allow ≡ None }
    ensures kept { no_memory ≤ result → memory out.new needed.new refusals.new refused.new
        ≡ memory out.old needed.old refusals.old refused.old }
{
    let Some(level) = level_numbered(allow) else {
        return BAD_LEVEL;
    };
    let reports = Reports::new(reports, ends);
    if !reports.has_valid_ends() {
        return BAD_ENDS;
    }
    let made = merged(alloc, sheet, &reports, level);
    answer(made, out, needed, refusals, refused)
}

/// A sink in memory fails only if memory is refused, so `Device` means the same as `OutOfMemory`.
fn merged(alloc: Global, sheet: &[u8], reports: &Reports<'_>, level: Level) -> Result<Made, Fault>
    requires { HasValidEnds reports.now }
    ensures ok { IfOk result (λ made. Merges sheet.now (texts_of reports.now) level made.text.items made.refusals) }
    ensures err { IfErr result (StopsBy (IsLoose sheet.now (texts_of reports.now) level) (IsSheetRefused sheet.now)) }
{
    let sheet = read_sheet(alloc, sheet)?;
    let consolidation = add_reports(alloc, &sheet, reports)?;
    let mut sink = StdSink::new(Vec::new(alloc));
    let refusals = consolidation.finish(level, &mut sink)?;
    Ok(Made {
        text: sink.into_inner(),
        refusals,
    })
}

/// Writes one line for each row, with its verdict, as `oim_merge::verdict_lines` does. Otherwise
/// the call is like `xbrlmerge_merge`, but without a level.
///
/// Errors, by the status: as for `xbrlmerge_merge`, but never `TOO_LOOSE` or `BAD_LEVEL`.
#[unsafe(no_mangle)]
pub extern "C" fn xbrlmerge_verdicts(
    alloc: Global,
    sheet: &[u8],
    reports: &[u8],
    ends: &[usize],
    out: &mut [u8],
    needed: &mut usize,
    refusals: &mut [RefusedReport],
    refused: &mut usize,
) -> u32
    ensures { AnswersRowCall Verdicts None sheet.now reports.now ends.now result
        (memory out.old needed.old refusals.old refused.old) (memory out.new needed.new refusals.new refused.new) }
{
    let reports = Reports::new(reports, ends);
    RowCall::Verdicts.list(None, alloc, sheet, &reports, out, needed, refusals, refused)
}

/// Writes a line for each source of a fact, as `oim_merge::source_lines` does. Otherwise the call
/// is like `xbrlmerge_verdicts`.
#[unsafe(no_mangle)]
pub extern "C" fn xbrlmerge_sources(
    alloc: Global,
    sheet: &[u8],
    reports: &[u8],
    ends: &[usize],
    out: &mut [u8],
    needed: &mut usize,
    refusals: &mut [RefusedReport],
    refused: &mut usize,
) -> u32
    ensures { AnswersRowCall Sources None sheet.now reports.now ends.now result
        (memory out.old needed.old refusals.old refused.old) (memory out.new needed.new refusals.new refused.new) }
{
    let reports = Reports::new(reports, ends);
    RowCall::Sources.list(None, alloc, sheet, &reports, out, needed, refusals, refused)
}

/// Writes one JSON object for each row, one per line, as `verdicts --format json` does. The text has
/// at most `most` bytes; 0 stands for 1 MiB and 16 bytes for each byte of the sheet and the reports.
/// Otherwise the call is like `xbrlmerge_verdicts`.
///
/// Errors, by the status: as for `xbrlmerge_verdicts`; also `TOO_MUCH` if the text is longer than
/// the bound, with nothing changed.
#[unsafe(no_mangle)]
pub extern "C" fn xbrlmerge_verdicts_json(
    alloc: Global,
    sheet: &[u8],
    reports: &[u8],
    ends: &[usize],
    most: usize,
    out: &mut [u8],
    needed: &mut usize,
    refusals: &mut [RefusedReport],
    refused: &mut usize,
) -> u32
    ensures { AnswersRowCall VerdictsJson (Some (bound_of most sheet.now reports.now)) sheet.now reports.now ends.now result
        (memory out.old needed.old refusals.old refused.old) (memory out.new needed.new refusals.new refused.new) }
{
    let bound = Some(bound_of(most, sheet, reports));
    let reports = Reports::new(reports, ends);
    RowCall::VerdictsJson.list(
        bound, alloc, sheet, &reports, out, needed, refusals, refused,
    )
}

/// Writes a JSON object for each source of a fact, one per line, as `sources --format json` does.
/// Otherwise the call is like `xbrlmerge_verdicts_json`.
#[unsafe(no_mangle)]
pub extern "C" fn xbrlmerge_sources_json(
    alloc: Global,
    sheet: &[u8],
    reports: &[u8],
    ends: &[usize],
    most: usize,
    out: &mut [u8],
    needed: &mut usize,
    refusals: &mut [RefusedReport],
    refused: &mut usize,
) -> u32
    ensures { AnswersRowCall SourcesJson (Some (bound_of most sheet.now reports.now)) sheet.now reports.now ends.now result
        (memory out.old needed.old refusals.old refused.old) (memory out.new needed.new refusals.new refused.new) }
{
    let bound = Some(bound_of(most, sheet, reports));
    let reports = Reports::new(reports, ends);
    RowCall::SourcesJson.list(
        bound, alloc, sheet, &reports, out, needed, refusals, refused,
    )
}
