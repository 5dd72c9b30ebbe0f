use crate::tests::sinks::sheet;
use oim_merge::{Fault, Refusals, consolidate};
use oim_names::Reason;
use oim_report::{Place, Refusal, Sheet};
use oim_value::Level;
use oim_write::{Encoded, StdSink};
use std::alloc::{AllocError, Global};
use test_helpers::asked_again::{INFO, holds};
use test_helpers::canonical_parts::END;
use test_helpers::expecting::Expecting;

// Tests `consolidate` with a level. After a refused request for memory, the call is repeated.

pub(crate) const HUNDRED: &str =
    r#""a":{"value":"100","decimals":0,"dimensions":{"concept":"eg:A"}}"#;

pub(crate) const ABOVE: &str =
    r#""a":{"value":"102","decimals":0,"dimensions":{"concept":"eg:A"}}"#;

pub(crate) const UNBOUND: &str = r#""a":{"value":"1","dimensions":{"concept":"q:A"}}"#;

pub(crate) const AT_FIRST_FACT: Refusal = Refusal {
    reason: Reason::UnboundPrefix,
    place: Place::Fact(1),
};

/// A report with these facts.
pub(crate) fn report(alloc: Global, facts: &str) -> Result<Encoded, AllocError> {
    let text = format!(in alloc; "{INFO}{facts}{END}")?;
    Encoded::new(alloc, text.as_bytes())
}

pub(crate) fn reports(alloc: Global, each: &[&str]) -> Result<Vec<Encoded>, AllocError> {
    let mut reports = Vec::with_capacity(alloc, each.len())?;
    for facts in each {
        reports.push(report(alloc, facts)?)?;
    }
    Ok(reports)
}

/// True if only the second report is refused, for the unbound prefix of its first fact.
pub(crate) fn is_only_second(refused: &Refusals) -> bool {
    match refused.as_slice() {
        [(report, refusal)] => *report == 2 && *refusal == AT_FIRST_FACT,
        _ => false,
    }
}

/// True if row 1 is too loose, nothing is written, and only the second report is refused.
fn are_too_loose(alloc: Global, sheet: &Sheet, reports: &[Encoded]) -> Result<bool, AllocError> {
    let mut sink = StdSink::new(Expecting::just(b""));
    match consolidate(alloc, sheet, reports, Level::Consistent, &mut sink) {
        Err(Fault::OutOfMemory(_)) => Err(AllocError),
        Err(Fault::TooLoose { row, refused }) => Ok(
            row == 1 && is_only_second(&refused) && sink.taken() == 0,
        ),
        _ => Ok(false),
    }
}

fn is_too_loose(alloc: Global) -> Result<bool, AllocError> {
    let sheet = sheet(alloc)?;
    let reports = reports(alloc, [HUNDRED, UNBOUND, ABOVE].as_slice())?;
    are_too_loose(alloc, &sheet, &reports)
}

#[test]
fn a_merge_is_held_to_a_level(rt: HostRuntime) {
    assert!(rt; holds(&rt, is_too_loose));
}
