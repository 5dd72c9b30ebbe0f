use super::bases::{join, join_once};
use super::small_reports::add_once;
use super::verdicts::judged;
use super::{take_once, take_text};
use fact_base::{Base, BaseBuilder, Evidence, Verdict};
use oim_report::{Report, Sheet};
use std::alloc::AllocError;
use test_helpers::asked_again::{INFO, holds_under_sheet, may_repeat, read, space_for};

// The facts have the numbers from 1 on, and one dimension set.

// The number of facts that a base gets at once.
const MANY: usize = 400;

// The number of reports with one fact each.
const SMALL: usize = 32;

// More bytes than a report with all facts has.
const LENGTH: usize = 40_000;

const DIGITS: [&str; 10] = ["0", "1", "2", "3", "4", "5", "6", "7", "8", "9"];

const VALUE: &str = r#"":{"value":""#;

const OF_FACT: &str = r#"","decimals":0,"dimensions":{"concept":"eg:A"}}"#;

// Appends the fact with this number, which has at most three digits, after a mark.
fn push_fact(text: &mut Vec<u8>, mark: &str, number: usize) -> Result<(), AllocError> {
    let hundreds = DIGITS[number / 100 % 10];
    let tens = DIGITS[number / 10 % 10];
    let ones = DIGITS[number % 10];
    for part in [
        mark, hundreds, tens, ones, VALUE, hundreds, tens, ones, OF_FACT,
    ] {
        text.extend_from_slice(part.as_bytes())?;
    }
    Ok(())
}

// Returns the text of a report with `count` facts, which have the numbers from `first` on.
fn report_of(rt: &HostRuntime, first: usize, count: usize) -> Result<Vec<u8>, AllocError> {
    let mut text = space_for(rt, LENGTH)?;
    text.extend_from_slice(INFO.as_bytes())?;
    for number in 0..count {
        let mark = if number == 0 { "\"" } else { ",\"" };
        push_fact(&mut text, mark, first.saturating_add(number))?;
    }
    text.extend_from_slice(b"}}")?;
    Ok(text)
}

fn take_report(rt: &HostRuntime, base: &mut Base<'_>, first: usize, count: usize) -> bool {
    match report_of(rt, first, count) {
        Ok(text) => take_text(rt, base, &text),
        Err(_) => false,
    }
}

// Returns the base of one report.
fn base_of<'s>(rt: &HostRuntime, sheet: &'s Sheet, first: usize, count: usize) -> Option<Base<'s>> {
    let mut base = Base::new(rt.alloc(), sheet);
    take_report(rt, &mut base, first, count).then_some(base)
}

fn joined<'s>(rt: &HostRuntime, mut base: Base<'s>, other: &Base<'_>) -> Option<Base<'s>> {
    join(rt, &mut base, other).then_some(base)
}

// Joins bases with one fact each: in pairs, then pairs of pairs, and so on.
fn joined_in_pairs<'s>(
    rt: &HostRuntime,
    sheet: &'s Sheet,
    first: usize,
    count: usize,
) -> Option<Base<'s>> {
    if count < 2 {
        return base_of(rt, sheet, first, 1);
    }
    let half = count / 2;
    let base = joined_in_pairs(rt, sheet, first, half)?;
    let other = joined_in_pairs(rt, sheet, first.saturating_add(half), count - half)?;
    joined(rt, base, &other)
}

fn are_all_apart(base: &Base<'_>) -> bool {
    base.row_count() == 1
        && base.fact_count() == 32
        && judged(base) == Some((Verdict::Inconsistent, Evidence::Apart(0, 31)))
}

fn is_taken_singly(rt: &HostRuntime, all: &Base<'_>) -> bool {
    let mut each = Base::new(rt.alloc(), all.sheet());
    for taken in 0..SMALL {
        if !take_report(rt, &mut each, SMALL - taken, 1) {
            return false;
        }
    }
    each.same_as(all)
}

fn is_joined(rt: &HostRuntime, all: &Base<'_>) -> bool {
    match joined_in_pairs(rt, all.sheet(), 1, SMALL) {
        Some(joined) => joined.same_as(all),
        None => false,
    }
}

fn are_all_one_base(rt: &HostRuntime, sheet: &Sheet) -> bool {
    match base_of(rt, sheet, 1, SMALL) {
        Some(all) => are_all_apart(&all) && is_taken_singly(rt, &all) && is_joined(rt, &all),
        None => false,
    }
}

#[test]
fn facts_of_one_dimension_set_are_one_base(rt: HostRuntime) {
    assert!(rt; holds_under_sheet(&rt, are_all_one_base));
}

// Adds a report. Returns `Some(false)` if memory for `add` is refused; the report is then lost.
fn adds_once(
    rt: &HostRuntime,
    builder: &mut BaseBuilder<'_>,
    first: usize,
    count: usize,
) -> Option<bool> {
    let text = report_of(rt, first, count).ok()?;
    let report = read(rt, builder.sheet(), &text).ok()?;
    add_once(builder, report)
}

fn adds(rt: &HostRuntime, builder: &mut BaseBuilder<'_>, first: usize, count: usize) -> bool {
    match adds_once(rt, builder, first, count) {
        Some(false) if may_repeat(rt) => adds_once(rt, builder, first, count) == Some(true),
        added => added == Some(true),
    }
}

// Adds each fact after the first `MANY` in its own report.
fn adds_small(rt: &HostRuntime, builder: &mut BaseBuilder<'_>) -> bool {
    for added in 0..SMALL {
        if !adds(rt, builder, MANY + SMALL - added, 1) {
            return false;
        }
    }
    true
}

fn gather<'s>(rt: &HostRuntime, sheet: &'s Sheet) -> Option<Result<Base<'s>, AllocError>> {
    let mut builder = BaseBuilder::new(rt.alloc(), sheet);
    if !adds(rt, &mut builder, 1, MANY) || !adds_small(rt, &mut builder) {
        return None;
    }
    Some(builder.into_base())
}

// If memory for the base is refused, all reports are added again.
fn gathered<'s>(rt: &HostRuntime, sheet: &'s Sheet) -> Option<Base<'s>> {
    match gather(rt, sheet)? {
        Err(_) if may_repeat(rt) => gather(rt, sheet)?.ok(),
        base => base.ok(),
    }
}

fn are_small_reports_added(rt: &HostRuntime, sheet: &Sheet) -> bool {
    match (gathered(rt, sheet), base_of(rt, sheet, 1, MANY + SMALL)) {
        (Some(base), Some(all)) => base.same_as(&all),
        _ => false,
    }
}

#[test]
fn many_small_reports_are_added_to_a_large_base(rt: HostRuntime) {
    assert!(rt; holds_under_sheet(&rt, are_small_reports_added));
}

// How a base gets many facts at once.
#[derive(Clone, Copy)]
enum Many<'a, 's> {
    Report(&'a Report<'s>),
    Base(&'a Base<'s>),
}

fn gets_once(base: &mut Base<'_>, many: Many<'_, '_>) -> bool {
    match many {
        Many::Report(report) => take_once(base, report),
        Many::Base(other) => join_once(base, other),
    }
}

// Gives a base with two facts many. If memory is refused, the base must be unchanged, and the call
// is repeated.
fn gets(rt: &HostRuntime, two: &Base<'_>, many: Many<'_, '_>) -> bool {
    let Some(mut base) = base_of(rt, two.sheet(), 100, 2) else {
        return false;
    };
    if !gets_once(&mut base, many)
        && (!base.same_as(two) || !may_repeat(rt) || !gets_once(&mut base, many))
    {
        return false;
    }
    base.fact_count() == 400
}

fn takes_report(rt: &HostRuntime, two: &Base<'_>) -> Option<bool> {
    let text = report_of(rt, 1, MANY).ok()?;
    let many = read(rt, two.sheet(), &text).ok()?;
    Some(gets(rt, two, Many::Report(&many)))
}

fn joins_base(rt: &HostRuntime, two: &Base<'_>) -> bool {
    match base_of(rt, two.sheet(), 1, MANY) {
        Some(many) => gets(rt, two, Many::Base(&many)),
        None => false,
    }
}

fn gets_many(rt: &HostRuntime, sheet: &Sheet) -> bool {
    match base_of(rt, sheet, 100, 2) {
        Some(two) => takes_report(rt, &two) == Some(true) && joins_base(rt, &two),
        None => false,
    }
}

#[test]
fn two_facts_are_left_if_many_are_refused(rt: HostRuntime) {
    assert!(rt; holds_under_sheet(&rt, gets_many));
}
