// Adds small reports after a large one. The facts and references of the small reports are collected
// in two lists. Before a report is added, a list is sorted if half its length, rounded down,
// exceeds its length after the last sort.

use super::{OF_A, base_between};
use fact_base::{Base, BaseBuilder};
use oim_report::{Report, Sheet};
use std::alloc::AllocError;
use test_helpers::asked_again::{holds_under_sheet, joined, may_repeat, read};

// The text of a report, up to its reference.
const START: &str =
    r#"{"documentInfo":{"documentType":"https://xbrl.org/2021/xbrl-json","namespaces":{"eg":"http://example.org/t"},"taxonomy":[""#;

// The rest of a report, with one more fact. The small reports then have more dimension sets than the
// large report has by itself.
const TWO_FACTS: &str =
    r#","dimensions":{"concept":"eg:A"}},"z":{"value":"1","decimals":0,"dimensions":{"concept":"eg:B"}}}}"#;

// The middle of a report with ten numbers, and of one small report for each number that follows. The
// numbers rise and fall, the large report has one of them, and two are repeated. The list of
// references is sorted before the third and before the seventh small report.
const PARTS: [&str; 9] = [
    r#"0.xsd"]},"facts":{"a":{"value":"0","decimals":0,"dimensions":{"concept":"eg:A"}},"b":{"value":"1","decimals":0,"dimensions":{"concept":"eg:A"}},"c":{"value":"2","decimals":0,"dimensions":{"concept":"eg:A"}},"d":{"value":"3","decimals":0,"dimensions":{"concept":"eg:A"}},"e":{"value":"4","decimals":0,"dimensions":{"concept":"eg:A"}},"f":{"value":"5","decimals":0,"dimensions":{"concept":"eg:A"}},"g":{"value":"6","decimals":0,"dimensions":{"concept":"eg:A"}},"h":{"value":"7","decimals":0,"dimensions":{"concept":"eg:A"}},"i":{"value":"8","decimals":0,"dimensions":{"concept":"eg:A"}},"j":{"value":"9","decimals":0"#,
    r#"16.xsd"]},"facts":{"a":{"value":"16","decimals":0"#,
    r#"12.xsd"]},"facts":{"a":{"value":"12","decimals":0"#,
    r#"14.xsd"]},"facts":{"a":{"value":"14","decimals":0"#,
    r#"12.xsd"]},"facts":{"a":{"value":"12","decimals":0"#,
    r#"9.xsd"]},"facts":{"a":{"value":"9","decimals":0"#,
    r#"11.xsd"]},"facts":{"a":{"value":"11","decimals":0"#,
    r#"16.xsd"]},"facts":{"a":{"value":"16","decimals":0"#,
    r#"10.xsd"]},"facts":{"a":{"value":"10","decimals":0"#,
];

pub(super) fn add_once<'s>(builder: &mut BaseBuilder<'s>, report: Report<'s>) -> Option<bool> {
    if !builder.sheet().same_as(report.sheet()) {
        return None;
    }
    Some(builder.add(report).is_ok())
}

// Returns `Some(false)` if memory for `add` is refused; the report is then lost.
fn add(rt: &HostRuntime, builder: &mut BaseBuilder<'_>, part: &str, end: &str) -> Option<bool> {
    let text = joined(rt, &[START, part, end]).ok()?;
    let report = read(rt, builder.sheet(), &text).ok()?;
    add_once(builder, report)
}

fn adds(rt: &HostRuntime, builder: &mut BaseBuilder<'_>, part: &str, end: &str) -> bool {
    match add(rt, builder, part, end) {
        Some(false) if may_repeat(rt) => add(rt, builder, part, end) == Some(true),
        added => added == Some(true),
    }
}

fn gather<'s>(
    rt: &HostRuntime,
    sheet: &'s Sheet,
    end: &str,
) -> Option<Result<Base<'s>, AllocError>> {
    let mut builder = BaseBuilder::new(rt.alloc(), sheet);
    for part in &PARTS {
        if !adds(rt, &mut builder, part, end) {
            return None;
        }
    }
    Some(builder.into_base())
}

// If memory for the base is refused, all reports are added again.
fn gathered_of<'s>(rt: &HostRuntime, sheet: &'s Sheet, end: &str) -> Option<Base<'s>> {
    match gather(rt, sheet, end)? {
        Err(_) if may_repeat(rt) => gather(rt, sheet, end)?.ok(),
        base => base.ok(),
    }
}

fn is_gathered(rt: &HostRuntime, all: &Base<'_>, end: &str) -> bool {
    match gathered_of(rt, all.sheet(), end) {
        Some(base) => base.same_as(all) && base.row_count() == all.row_count(),
        None => false,
    }
}

// Returns whether collecting the reports gives the same base as taking them one by one.
fn are_gathered(rt: &HostRuntime, sheet: &Sheet, end: &str) -> bool {
    match base_between(rt, sheet, START, &PARTS, end) {
        Some(all) => is_gathered(rt, &all, end),
        None => false,
    }
}

fn are_all_gathered(rt: &HostRuntime, sheet: &Sheet) -> bool {
    are_gathered(rt, sheet, OF_A) && are_gathered(rt, sheet, TWO_FACTS)
}

#[test]
fn small_reports_are_put_in_order_twice(rt: HostRuntime) {
    assert!(rt; holds_under_sheet(&rt, are_all_gathered));
}
