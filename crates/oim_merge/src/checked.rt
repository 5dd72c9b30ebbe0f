ghost use Rattle.std.specs.Prelude.{◌≡◌, ◌⊎◌, ◌↔◌, Err, Ok, IfOk, IfErr, IsTrue, EachIndex, not, slice_index};
ghost use Rattle.std.specs.Ordering.{is_eq};
ghost use Rattle.merge_laws.specs.Sorted.{IsSet};
ghost use Rattle.oim_dims.specs.FactOrder.{fact_cmp};
ghost use Rattle.oim_report.specs.Outcome.{at, outcome};
ghost use Rattle.oim_merge.specs.Checked.{IsCanonicalOf, IsChecked};

use fact_base::Base;
use oim_dims::Fact;
use oim_names::Reason;
use oim_report::{Place, Refusal, Report, Sheet, read_report};
use oim_value::Level;
use oim_write::{is_text, text};
use std::alloc::{AllocError, Global};

/// The result of checking an accepted report.
#[derive(Clone, Copy, Debug, PartialEq, Eq)]
pub struct Checked {
    /// The number of facts in the report. A repeated fact counts each time.
    pub facts: u64,
    /// The strictest level of duplicates that the facts satisfy.
    pub level: Level,
    /// True if the report's bytes are the canonical text of its facts and references.
    pub canonical: bool,
}

/// Reads a report under a sheet. Returns the number of its facts, their level, and whether the
/// bytes are canonical (xBRL-JSON 1.0; levels: OIM Common 1.0; the canonical text is our own).
///
/// Errors: the report's first refusal, with its place; `OutOfMemory`, at the document.
pub fn check_report(alloc: Global, sheet: &Sheet, bytes: &[u8]) -> Result<Checked, Refusal>
    ensures ok { IfOk result (IsChecked sheet.now bytes.now) }
    ensures err { IfErr result
        (λ r. (r ≡ at Place.Document Reason.OutOfMemory) ⊎ (outcome sheet.now bytes.now ≡ Err r)) }
{
    let report = read_report(alloc, sheet, bytes)?;
    Ok(Checked {
        facts: report.facts().len() as u64,
        level: report.level(),
        canonical: is_canonical(alloc, sheet, report, bytes)?,
    })
}

// The facts of a canonical text ascend strictly. If the report's facts do not, the report is not
// canonical, and no text is made.
fn is_canonical(
    alloc: Global,
    sheet: &Sheet,
    report: Report<'_>,
    bytes: &[u8],
) -> Result<bool, AllocError>
    requires sheet { report.sheet ≡ sheet.now }
    requires read { outcome sheet.now bytes.now ≡ Ok report.document }
    ensures { IfOk result (λ canonical. IsTrue canonical ↔ IsCanonicalOf report.entry.document bytes.now) }
{
    if !rise(&report) {
        return Ok(false);
    }
    let mut base = Base::new(alloc, sheet);
    base.absorb_report(report)?;
    is_text(alloc, &base, bytes)
}

// Returns true if the facts ascend strictly: each is at its place in the order, and no fact equals
// the next. Compares no facts by order, because an order compares URIs first, which may be long.
fn rise(report: &Report<'_>) -> bool
    ensures { IsTrue result ↔ IsSet fact_cmp report.now.document.facts }
{
    // the contract of `known` states that `order` sorts the facts
    report.known();
    count_up(report.order()) && report.facts().is_sorted_by(differ)
}

// Returns true if the numbers are 0, 1, 2 and so on.
fn count_up(numbers: &[usize]) -> bool
    ensures { IsTrue result ↔ EachIndex numbers.now (λ k. slice_index numbers.now k ≡ k) }
{
    numbers.iter().enumerate().all(|(i, number)| *number == i)
}

fn differ(fact: &Fact, next: &Fact) -> bool
    ensures { result ≡ not (is_eq (fact_cmp fact.now next.now)) }
{
    fact != next
}

/// Makes the canonical text of a base, reads it under the base's sheet, takes the report into a new
/// base, and returns the new base. The two bases are equal (own).
///
/// Errors: out of memory.
pub fn read_back<'s>(alloc: Global, base: &Base<'s>) -> Result<Base<'s>, AllocError>
    ensures { IfOk result (λ back. back ≡ base.now) }
{
    let sheet = base.sheet();
    let text = text(alloc, base)?;
    let report = match read_report(alloc, sheet, text.as_bytes()) {
        Ok(report) => report,
        Err(refusal) if refusal.reason == Reason::OutOfMemory => return Err(AllocError),
        // a canonical text is accepted
        Err(_) => unreachable!(),
    };
    let mut back = Base::new(alloc, sheet);
    back.take(&report)?;
    Ok(back)
}
