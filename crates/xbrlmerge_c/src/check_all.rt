ghost use Rattle.std.specs.Prelude.{◌≡◌, ◌≢◌, ◌≤◌, ◌<◌, ◌++◌, IfOk, drop, length};
ghost use Rattle.std.specs.List.{list_any};
ghost use Rattle.xbrlmerge_c.specs.Checks.{AreResults, HandsResults, RefusesSheet, is_refused, status_of};
ghost use Rattle.xbrlmerge_c.specs.Ends.{AreEnds, reports_at};
ghost use Rattle.xbrlmerge_c.specs.Statuses.{bad_ends, no_memory, refused_some, sheet_refused, too_loose, too_short};
ghost use Rattle.xbrlmerge_c.specs.code.Reports.{HasValidEnds, texts_of};

use crate::check::{ReportResult, result_of, sheet_or_status};
use crate::output::{BAD_ENDS, DONE, NO_MEMORY, REFUSED, RefusedReport, TOO_SHORT};
use crate::reports::Reports;
use oim_report::Sheet;
use std::alloc::{AllocError, Global};

/// Checks each report, as `xbrlmerge_check` does, and reads the sheet once. The reports are passed
/// as for `xbrlmerge_merge`. Their results are written to the start of `results`, in their order.
/// Returns `DONE`, or `REFUSED` if a report was refused.
///
/// Errors, by the status: `SHEET_REFUSED`, with only `refusal` changed, as by `xbrlmerge_check`;
/// `TOO_SHORT` if there are fewer results than reports, `NO_MEMORY` and `BAD_ENDS`, with nothing
/// changed.
#[unsafe(no_mangle)]
pub extern "C" fn xbrlmerge_check_all(
    alloc: Global,
    sheet: &[u8],
    reports: &[u8],
    ends: &[usize],
    results: &mut [ReportResult],
    refusal: &mut RefusedReport,
) -> u32
    ensures statuses { result ≤ bad_ends }
    ensures never { result ≢ too_loose }
    ensures ends { result ≤ no_memory → AreEnds reports.now ends.now }
    ensures done { result ≤ refused_some → HandsResults sheet.now (reports_at reports.now ends.now) result results.old results.new }
    ensures short { result ≡ too_short → length results.old < length ends.now }
    ensures sheet { result ≡ sheet_refused → RefusesSheet sheet.now refusal.new }
    ensures bad_ends { result ≡ bad_ends → AreEnds reports.now ends.now → ⊥ }
    ensures results_kept { refused_some < result → results.new ≡ results.old }
    ensures refusal_kept { result ≢ sheet_refused → refusal.new ≡ refusal.old }
{
    let reports = Reports::new(reports, ends);
    if !reports.has_valid_ends() {
        return BAD_ENDS;
    }
    if results.len() < ends.len() {
        return TOO_SHORT;
    }
    let sheet = match sheet_or_status(alloc, sheet, refusal) {
        Ok(sheet) => sheet,
        Err(status) => return status,
    };
    match results_of(alloc, &sheet, &reports) {
        Ok(found) => put_results(found.as_slice(), results),
        Err(AllocError) => NO_MEMORY,
    }
}

fn results_of(
    alloc: Global,
    sheet: &Sheet,
    reports: &Reports<'_>,
) -> Result<Vec<ReportResult>, AllocError>
    requires { HasValidEnds reports.now }
    ensures are { IfOk result (λ found. AreResults sheet.now 1 (texts_of reports.now) found.items) }
    ensures count { IfOk result (λ found. length found.items ≡ length reports.now.ends.now) }
{
    let mut found = Vec::new(alloc);
    let mut from = 0;
    for (index, end) in reports.ends.iter().enumerate() {
        let report = &reports.bytes[from..*end];
        found.push(result_of(alloc, sheet, index as u64 + 1, report)?)?;
        from = *end;
    }
    Ok(found)
}

fn put_results(found: &[ReportResult], results: &mut [ReportResult]) -> u32
    requires { length found.now ≤ length results.old }
    ensures put { results.new ≡ found.now ++ drop (length found.now) results.old }
    ensures status { result ≡ status_of found.now }
{
    results[..found.len()].copy_from_slice(found);
    if is_any_refused(found) { REFUSED } else { DONE }
}

fn is_any_refused(found: &[ReportResult]) -> bool
    ensures { result ≡ list_any is_refused found.now }
{
    found.iter().any(|it| it.status == REFUSED)
}
