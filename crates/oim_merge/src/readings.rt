ghost use Rattle.std.specs.Prelude.{◌≡◌, ◌<◌, None, [], ◌∷◌, length, replicate, IfOk, OnOk};
ghost use Rattle.std.specs.List.{slice_index_or};
ghost use Rattle.std.specs.Result.{result_err};
ghost use Rattle.oim_report.specs.Outcome.{outcome};
ghost use Rattle.oim_merge.specs.Bases.{base_of};
ghost use Rattle.oim_merge.specs.code.Readings.{AreReadings, read_as, with_read};
ghost use Rattle.oim_merge.specs.Replicas.{with_outcome};

use crate::consolidation::read;
use fact_base::{Base, BaseBuilder};
use oim_names::Encoded;
use oim_report::{Refusal, Report, ReportReader, Sheet};
use std::alloc::{AllocError, Global};

/// The cached result of reading a text under a sheet: none yet, a base, or a refusal. A base is
/// cached instead of a report, because joining a base can copy fewer facts than taking a report,
/// which copies all.
pub(crate) type Reading<'s> = Option<Result<Base<'s>, Refusal>>;

pub(crate) fn none_read<'s>(alloc: Global, texts: usize) -> Result<Vec<Reading<'s>>, AllocError>
    ensures { IfOk result (λ made. made.items ≡ replicate texts None) }
{
    let mut kept = Vec::with_capacity(alloc, texts)?;
    for _made in 0..texts {
        kept.push(None)?;
    }
    Ok(kept)
}

/// Adds the facts and references of the text at `index` to a base. The text is read only
/// the first time, and the result is cached. If the text is refused, the base does not change, and
/// the refusal is returned.
///
/// Errors: out of memory.
pub(crate) fn take_at<'s>(
    alloc: Global,
    sheet: &'s Sheet,
    texts: &[Encoded],
    kept: &mut [Reading<'s>],
    index: usize,
    base: &mut BaseBuilder<'s>,
) -> Result<Option<Refusal>, AllocError>
    requires index { index < length texts.now }
    requires kept { AreReadings sheet.now texts.now kept.old }
    requires sheet { base.old.sheet ≡ sheet.now }
    ensures kept { OnOk result (AreReadings sheet.now texts.now kept.new) }
    ensures base { OnOk result
        (base.new ≡ with_outcome (outcome sheet.now (slice_index_or texts.now index [])) base.old) }
    ensures refusal { IfOk result
        (λ told. told ≡ result_err (outcome sheet.now (slice_index_or texts.now index []))) }
{
    if let Some(read) = &kept[index] {
        return take_read(base, read);
    }
    let read = read_base(alloc, sheet, texts[index].as_bytes())?;
    let told = take_read(base, &read)?;
    kept[index] = Some(read);
    Ok(told)
}

fn read_base<'s>(
    alloc: Global,
    sheet: &'s Sheet,
    bytes: &[u8],
) -> Result<Result<Base<'s>, Refusal>, AllocError>
    ensures { IfOk result (λ read. read ≡ read_as sheet.now (outcome sheet.now bytes.now)) }
{
    match read(&mut ReportReader::new(alloc, sheet), bytes)? {
        Ok(report) => Ok(Ok(base_of(alloc, sheet, report)?)),
        Err(refusal) => Ok(Err(refusal)),
    }
}

fn base_of<'s>(alloc: Global, sheet: &'s Sheet, report: Report<'_>) -> Result<Base<'s>, AllocError>
    requires { report.sheet ≡ sheet.now }
    ensures { IfOk result (λ base. base ≡ base_of sheet.now (report.entry.document ∷ [])) }
{
    let mut base = Base::new(alloc, sheet);
    base.absorb_report(report)?;
    Ok(base)
}

fn take_read(
    base: &mut BaseBuilder<'_>,
    read: &Result<Base<'_>, Refusal>,
) -> Result<Option<Refusal>, AllocError>
    requires { IfOk read.now (λ other. other.sheet ≡ base.old.sheet) }
    ensures base { OnOk result (base.new ≡ with_read read.now base.old) }
    ensures refusal { IfOk result (λ told. told ≡ result_err read.now) }
{
    match read {
        Ok(other) => {
            base.join(other)?;
            Ok(None)
        }
        Err(refusal) => Ok(Some(*refusal)),
    }
}
