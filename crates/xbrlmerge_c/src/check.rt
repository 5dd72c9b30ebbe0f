ghost use Rattle.std.specs.Prelude.{◌≡◌, ◌≢◌, ◌≤◌, ◌⊎◌, Ok, IfOk, IfErr, OnOk};
ghost use Rattle.oim_report.specs.Sheet.{sheet_outcome};
ghost use Rattle.xbrlmerge_c.specs.Checks.{Accepts, IsResult, Refuses, RefusesSheet, UnderSheet};
ghost use Rattle.xbrlmerge_c.specs.Statuses.{done, no_memory, refused_some, sheet_refused, too_loose, too_short};

use crate::output::{DONE, NO_MEMORY, REFUSED, RefusedReport, SHEET_REFUSED};
use crate::reports::read_sheet;
use oim_merge::{Fault, check_report};
use oim_names::Reason;
use oim_report::{Refusal, Sheet};
use std::alloc::{AllocError, Global};

/// The result for an accepted report, as numbers.
#[repr(C)]
#[derive(Clone, Copy, Debug, PartialEq, Eq)]
pub struct CheckedReport {
    /// The number of the report's facts, repeats included.
    pub facts: u64,
    /// The strictest level that the facts satisfy, from 0 for `none` to 3 for `all`.
    pub level: u32,
    /// 1 if the report's bytes are the canonical text of its facts and references, otherwise 0.
    pub canonical: u32,
}

/// The result for one of several reports.
#[repr(C)]
#[derive(Clone, Copy, Debug, PartialEq, Eq)]
pub struct ReportResult {
    /// The result for an accepted report; all zeros for a refused one.
    pub checked: CheckedReport,
    /// The refusal of a refused report; all zeros for an accepted one.
    pub refusal: RefusedReport,
    /// `DONE` for an accepted report, `REFUSED` for a refused one.
    pub status: u32,
}

/// Checks one report, as `oim_merge::check_report` does. `checked` gets the result for an accepted
/// report. `refusal` gets the refusal of the report (with the report number 1) or of the sheet (0).
///
/// Errors, by the status: `REFUSED`; `SHEET_REFUSED`; `NO_MEMORY`, with nothing changed.
#[unsafe(no_mangle)]
pub extern "C" fn xbrlmerge_check(
    alloc: Global,
    sheet: &[u8],
    report: &[u8],
    checked: &mut CheckedReport,
    refusal: &mut RefusedReport,
) -> u32
    ensures statuses { result ≤ no_memory }
    ensures never { (result ≢ too_loose) × (result ≢ too_short) }
    ensures done { result ≡ done → UnderSheet sheet.now (λ listed. Accepts listed report.now checked.new) }
    ensures refused { result ≡ refused_some → UnderSheet sheet.now (λ listed. Refuses listed 1 report.now refusal.new) }
    ensures sheet { result ≡ sheet_refused → RefusesSheet sheet.now refusal.new }
    ensures checked_kept { result ≢ done → checked.new ≡ checked.old }
    ensures done_kept { result ≡ done → refusal.new ≡ refusal.old }
    ensures kept { result ≡ no_memory → refusal.new ≡ refusal.old }
{
    let sheet = match sheet_or_status(alloc, sheet, refusal) {
        Ok(sheet) => sheet,
        Err(status) => return status,
    };
    match result_of(alloc, &sheet, 1, report) {
        Ok(found) if found.status == DONE => {
            *checked = found.checked;
            DONE
        }
        Ok(found) => {
            *refusal = found.refusal;
            REFUSED
        }
        Err(AllocError) => NO_MEMORY,
    }
}

/// Reads a sheet. If it is refused, `refusal` gets its refusal, with the report number 0.
///
/// Errors: the status.
pub(crate) fn sheet_or_status(
    alloc: Global,
    sheet: &[u8],
    refusal: &mut RefusedReport,
) -> Result<Sheet, u32>
    ensures ok { IfOk result (λ listed. sheet_outcome sheet.now ≡ Ok listed) }
    ensures kept { OnOk result (refusal.new ≡ refusal.old) }
    ensures err { IfErr result (λ status. ((status ≡ sheet_refused) × RefusesSheet sheet.now refusal.new)
        ⊎ ((status ≡ no_memory) × (refusal.new ≡ refusal.old))) }
{
    match read_sheet(alloc, sheet) {
        Ok(sheet) => Ok(sheet),
        Err(Fault::Sheet(reason)) => {
            *refusal = RefusedReport::new(0, &Refusal::from(reason));
            Err(SHEET_REFUSED)
        }
        Err(_) => Err(NO_MEMORY),
    }
}

/// Returns the result for the report with this number.
pub(crate) fn result_of(
    alloc: Global,
    sheet: &Sheet,
    number: u64,
    report: &[u8],
) -> Result<ReportResult, AllocError>
    ensures { IfOk result (IsResult sheet.now number report.now) }
{
    match check_report(alloc, sheet, report) {
        Ok(found) => Ok(ReportResult {
            checked: CheckedReport {
                facts: found.facts,
                level: found.level as u32,
                canonical: u32::from(found.canonical),
            },
            refusal: RefusedReport {
                report: 0,
                fact: 0,
                number: 0,
            },
            status: DONE,
        }),
        Err(refused) if refused.reason == Reason::OutOfMemory => Err(AllocError),
        Err(refused) => Ok(ReportResult {
            checked: CheckedReport {
                facts: 0,
                level: 0,
                canonical: 0,
            },
            refusal: RefusedReport::new(number, &refused),
            status: REFUSED,
        }),
    }
}
