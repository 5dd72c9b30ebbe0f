use super::{FACT, OF_A, base_between, base_of};
use crate::tests::reports::are_spelled;
use fact_base::Base;
use oim_report::Sheet;
use oim_value::Level;
use test_helpers::asked_again::{holds_under_sheet, joined, may_repeat, read};

const ONE: &str = r#""value":"1","decimals":0"#;

const TWO: &str = r#""value":"2","decimals":0"#;

const NINE: &str = r#""value":"9","decimals":0"#;

fn is_new_base_empty(rt: &HostRuntime, sheet: &Sheet) -> bool {
    let base = Base::new(rt.alloc(), sheet);
    base.row_count() == 0
        && base.fact_count() == 0
        && base.taxonomy().is_empty()
        && base.level() == Level::Unique
        && base.rows().next().is_none()
}

pub(super) fn join_once(base: &mut Base<'_>, other: &Base<'_>) -> bool {
    base.same_sheet(other.sheet()) && base.join(other).is_ok()
}

// Joins a base. If memory is refused, the first base must keep its number of facts, and the call
// is repeated.
pub(super) fn join(rt: &HostRuntime, base: &mut Base<'_>, other: &Base<'_>) -> bool {
    let count = base.fact_count();
    join_once(base, other) || base.fact_count() == count && may_repeat(rt) && join_once(base, other)
}

fn joins_two(rt: &HostRuntime, base: &mut Base<'_>) -> bool {
    match base_of(rt, base.sheet(), &[TWO, ONE]) {
        Some(other) => join(rt, base, &other),
        None => false,
    }
}

fn absorb_once<'s>(base: &mut Base<'s>, other: Base<'s>) -> Option<bool> {
    if !base.same_sheet(other.sheet()) {
        return None;
    }
    Some(base.absorb(other).is_ok())
}

// Returns `Some(false)` if memory for `absorb` is refused; the other base is then lost.
fn absorb_two(rt: &HostRuntime, base: &mut Base<'_>) -> Option<bool> {
    let other = base_of(rt, base.sheet(), &[TWO, ONE])?;
    absorb_once(base, other)
}

// Returns `Some(false)` if memory for `absorb_report` is refused; the report is then lost.
fn absorb_report(rt: &HostRuntime, base: &mut Base<'_>) -> Option<bool> {
    let text = joined(rt, &[FACT, TWO, OF_A]).ok()?;
    let report = read(rt, base.sheet(), &text).ok()?;
    if !base.same_sheet(report.sheet()) {
        return None;
    }
    Some(base.absorb_report(report).is_ok())
}

#[derive(Clone, Copy)]
enum Call {
    Join,
    Absorb,
    AbsorbReport,
}

fn calls_once(rt: &HostRuntime, base: &mut Base<'_>, call: Call) -> Option<bool> {
    match call {
        Call::Join => Some(joins_two(rt, base)),
        Call::Absorb => absorb_two(rt, base),
        Call::AbsorbReport => absorb_report(rt, base),
    }
}

fn calls(rt: &HostRuntime, base: &mut Base<'_>, call: Call) -> bool {
    match calls_once(rt, base, call) {
        Some(false) if may_repeat(rt) => calls_once(rt, base, call) == Some(true),
        done => done == Some(true),
    }
}

// A base with two values must have all values after the call, and after the same call again.
fn reaches(rt: &HostRuntime, all: &Base<'_>, call: Call) -> bool {
    match base_of(rt, all.sheet(), &[NINE, ONE]) {
        Some(mut base) => {
            !base.same_as(all)
                && calls(rt, &mut base, call)
                && base.same_as(all)
                && calls(rt, &mut base, call)
                && base.same_as(all)
        }
        None => false,
    }
}

fn all_reach(rt: &HostRuntime, all: &Base<'_>) -> bool {
    for call in [Call::Join, Call::Absorb, Call::AbsorbReport] {
        if !reaches(rt, all, call) {
            return false;
        }
    }
    all.row_count() == 1 && all.fact_count() == 3
}

fn all_reach_under(rt: &HostRuntime, sheet: &Sheet) -> bool {
    match base_of(rt, sheet, &[TWO, ONE, NINE]) {
        Some(all) => all_reach(rt, &all),
        None => false,
    }
}

#[test]
fn a_base_gets_what_it_lacks(rt: HostRuntime) {
    assert!(rt; holds_under_sheet(&rt, is_new_base_empty));
    assert!(rt; holds_under_sheet(&rt, all_reach_under));
}

// The text of a report with one reference and no facts, up to the reference.
const TAXONOMY: &str =
    r#"{"documentInfo":{"documentType":"https://xbrl.org/2021/xbrl-json","taxonomy":[""#;

const NO_FACTS: &str = r#""]},"facts":{}}"#;

const SPELLED: [&str; 4] = [
    "HTTP://X.org/b.xsd",
    "urn:x:Y",
    "http://x.org/b.xsd",
    "a.xsd",
];

fn joins_references(rt: &HostRuntime, base: &mut Base<'_>) -> bool {
    match base_between(rt, base.sheet(), TAXONOMY, &["c.xsd", "a.xsd"], NO_FACTS) {
        Some(other) => !base.same_as(&other) && join(rt, base, &other),
        None => false,
    }
}

fn are_references_joined(rt: &HostRuntime, sheet: &Sheet) -> bool {
    match base_between(rt, sheet, TAXONOMY, &SPELLED, NO_FACTS) {
        Some(mut base) => {
            are_spelled(base.taxonomy(), &["a.xsd", "http://x.org/b.xsd", "urn:x:Y"])
                && joins_references(rt, &mut base)
                && are_spelled(
                    base.taxonomy(),
                    &["a.xsd", "c.xsd", "http://x.org/b.xsd", "urn:x:Y"],
                )
        }
        None => false,
    }
}

#[test]
fn references_are_kept_once(rt: HostRuntime) {
    assert!(rt; holds_under_sheet(&rt, are_references_joined));
}
