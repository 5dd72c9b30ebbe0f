ghost use Rattle.std.specs.Prelude.{◌↔◌, IsTrue, ◌≡◌, IfOk, Ok, IfErr};
ghost use Rattle.oim_merge.specs.Added.{added};
ghost use Rattle.oim_merge.specs.Reports.{merged, refused};
ghost use Rattle.oim_merge.specs.Traced.{traced};
ghost use Rattle.oim_report.specs.Sheet.{sheet_outcome};
ghost use Rattle.xbrlmerge_c.specs.Answers.{NoRow, StopsBy};
ghost use Rattle.xbrlmerge_c.specs.Calls.{IsSheetRefused};
ghost use Rattle.xbrlmerge_c.specs.code.Reports.{HasValidEnds, texts_of};

use oim_merge::{Consolidation, Fault, Merged, TracedMerge};
use oim_names::Reason;
use oim_report::Sheet;
use std::alloc::{AllocError, Global};

/// The reports as C passes them: their bytes one after another, and the index after each report.
#[derive(Clone, Copy)]
pub(crate) struct Reports<'r> {
    pub bytes: &'r [u8],
    pub ends: &'r [usize],
}

impl<'r> Reports<'r> {
    pub(crate) fn new(bytes: &'r [u8], ends: &'r [usize]) -> Reports<'r>
        ensures bytes { result.bytes.now ≡ bytes.now }
        ensures ends { result.ends.now ≡ ends.now }
    {
        Reports { bytes, ends }
    }

    pub(crate) fn has_valid_ends(&self) -> bool
        ensures { IsTrue result ↔ HasValidEnds self.now }
    {
        let mut from = 0;
        for end in self.ends {
            if *end < from || *end > self.bytes.len() {
                return false;
            }
            from = *end;
        }
        true
    }
}

pub(crate) fn add_reports<'s>(
    alloc: Global,
    sheet: &'s Sheet,
    reports: &Reports<'_>,
) -> Result<Consolidation<'s>, AllocError>
    requires { HasValidEnds reports.now }
    ensures { IfOk result (λ consolidation. consolidation ≡ added sheet.now (texts_of reports.now)) }
{
    let mut consolidation = Consolidation::new(alloc, sheet);
    let mut from = 0;
    for end in reports.ends {
        consolidation.add(&reports.bytes[from..*end])?;
        from = *end;
    }
    Ok(consolidation)
}

pub(crate) fn merge_reports<'s>(
    alloc: Global,
    sheet: &'s Sheet,
    reports: &Reports<'_>,
) -> Result<Merged<'s>, AllocError>
    requires { HasValidEnds reports.now }
    ensures base { IfOk result (λ made. made.base.body ≡ merged sheet.now (texts_of reports.now)) }
    ensures refusals { IfOk result (λ made. made.refusals ≡ refused sheet.now (texts_of reports.now)) }
{
    add_reports(alloc, sheet, reports)?.into_merged()
}

pub(crate) fn trace_reports<'s>(
    alloc: Global,
    sheet: &'s Sheet,
    reports: &Reports<'_>,
) -> Result<TracedMerge<'s>, AllocError>
    requires { HasValidEnds reports.now }
    ensures { IfOk result (λ merge. merge ≡ traced sheet.now (texts_of reports.now)) }
{
    let mut merge = TracedMerge::new(alloc, sheet);
    let mut from = 0;
    for end in reports.ends {
        merge.add(&reports.bytes[from..*end])?;
        from = *end;
    }
    Ok(merge)
}

pub(crate) fn read_sheet(alloc: Global, bytes: &[u8]) -> Result<Sheet, Fault>
    ensures ok { IfOk result (λ sheet. sheet_outcome bytes.now ≡ Ok sheet) }
    ensures err { IfErr result (StopsBy NoRow (IsSheetRefused bytes.now)) }
{
    match Sheet::read(alloc, bytes) {
        Ok(sheet) => Ok(sheet),
        Err(Reason::OutOfMemory) => Err(Fault::OutOfMemory(0)),
        Err(reason) => Err(Fault::Sheet(reason)),
    }
}
