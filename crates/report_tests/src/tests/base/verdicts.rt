use super::{FACT, OF_A, OF_Q, OF_T, base_between};
use crate::tests::reports::told;
use fact_base::{Base, Evidence, Verdict};
use oim_report::Sheet;
use oim_value::{Interval, Level};
use test_helpers::asked_again::holds_under_sheet;

pub(super) type Said = (Verdict, Evidence);

// Numbers of one dimension set, in any order, that are consistent, and the ends of their common
// interval.
const COMMON: [(&[&str], i128, i128); 6] = [
    // values that meet are consistent
    // half a unit in the eighteenth decimal place is five steps of 10^-19
    (
        &[
            r#""value":"0.000000000000000001","decimals":18"#,
            r#""value":"0.000000000000000002","decimals":18"#,
        ],
        15,
        15,
    ),
    (
        &[
            r#""value":"-500000000000000000","decimals":-18"#,
            r#""value":"500000000000000000","decimals":-18"#,
        ],
        0,
        0,
    ),
    (
        &[
            r#""value":"101","decimals":0"#,
            r#""value":"100","decimals":0"#,
        ],
        1_005_000_000_000_000_000_000,
        1_005_000_000_000_000_000_000,
    ),
    (
        &[r#""value":"1234567","decimals":-3"#, r#""value":"1234067""#],
        12_340_670_000_000_000_000_000_000,
        12_340_670_000_000_000_000_000_000,
    ),
    (
        &[r#""value":"1","decimals":0"#, r#""value":"1""#],
        10_000_000_000_000_000_000,
        10_000_000_000_000_000_000,
    ),
    (
        &[
            r#""value":"100","decimals":0"#,
            r#""value":"100","decimals":-1"#,
            r#""value":"101","decimals":-2"#,
        ],
        995_000_000_000_000_000_000,
        1_005_000_000_000_000_000_000,
    ),
];

// How a report ends, and values of one dimension set, in any order, that are inconsistent. The value
// that ends first and the value that begins last are apart.
const APART: [(&str, &[&str], usize, usize); 13] = [
    // the value that ends first and the value that begins last are apart
    (
        OF_A,
        &[
            r#""value":"0.000000000000000001","decimals":18"#,
            r#""value":"0.000000000000000003","decimals":18"#,
        ],
        0,
        1,
    ),
    (
        OF_A,
        &[
            r#""value":"-500000000000000000","decimals":-18"#,
            r#""value":"500000000000000001","decimals":-18"#,
        ],
        0,
        1,
    ),
    (
        OF_A,
        &[
            r#""value":"102","decimals":0"#,
            r#""value":"100","decimals":0"#,
            r#""value":"101","decimals":0"#,
        ],
        0,
        2,
    ),
    (
        OF_A,
        &[
            r#""value":"1234567","decimals":-3"#,
            r#""value":"1234066.9""#,
        ],
        0,
        1,
    ),
    (
        OF_A,
        &[
            r#""value":"104","decimals":-2"#,
            r#""value":"103","decimals":0"#,
            r#""value":"100","decimals":0"#,
        ],
        0,
        1,
    ),
    (
        OF_A,
        &[
            r#""value":"100","decimals":0"#,
            r#""value":"102""#,
            r#""value":"100.5""#,
        ],
        0,
        2,
    ),
    // nil is apart from numbers
    (OF_A, &[r#""value":"5""#, r#""value":null"#], 0, 1),
    (
        OF_A,
        &[r#""value":"9""#, r#""value":"5""#, r#""value":null"#],
        0,
        1,
    ),
    (
        OF_A,
        &[r#""value":"1","decimals":0"#, r#""value":"3""#],
        0,
        1,
    ),
    // texts and names meet if they are equal
    (
        OF_T,
        &[r#""value":"b""#, r#""value":"a""#, r#""value":null"#],
        0,
        1,
    ),
    (OF_T, &[r#""value":"b""#, r#""value":"b ""#], 0, 1),
    (OF_Q, &[r#""value":"eg:B""#, r#""value":null"#], 0, 1),
    (OF_Q, &[r#""value":"eg:B""#, r#""value":"eg:A""#], 0, 1),
];

// How a report ends, and equal values.
const ALIKE: [(&str, &[&str]); 5] = [
    (OF_A, &[r#""value":null"#, r#""value":null"#]),
    // equal facts are one
    (
        OF_A,
        &[
            r#""value":"-0""#,
            r#""value":"+0.00""#,
            r#""value":".0""#,
            r#""value":"0""#,
        ],
    ),
    (OF_A, &[r#""value":"999999999999999999","decimals":-12"#]),
    (
        OF_A,
        &[r#""value":"1","decimals":0"#, r#""value":"1","decimals":0"#],
    ),
    (OF_T, &[r#""value":"b""#, r#""value":"b""#]),
];

// The level of the facts if none is repeated.
fn level_of(verdict: Verdict) -> Level {
    match verdict {
        Verdict::Complete => Level::Unique,
        Verdict::Consistent => Level::Consistent,
        Verdict::Inconsistent => Level::All,
    }
}

// Returns the verdict and the evidence on the first row.
pub(super) fn judged(base: &Base<'_>) -> Option<Said> {
    let row = base.rows().next()?;
    let judged = (row.verdict(), row.evidence());
    let found = (
        base.verdict(row.dimensions)?,
        base.evidence(row.dimensions)?,
    );
    (judged == found && base.level() == level_of(judged.0)).then_some(judged)
}

fn is_said(rt: &HostRuntime, sheet: &Sheet, end: &str, values: &[&str], said: Said) -> bool {
    match base_between(rt, sheet, FACT, values, end) {
        Some(base) => told(
            rt,
            judged(&base) == Some(said),
            values.last().unwrap_or(&""),
        ),
        None => false,
    }
}

fn are_common(rt: &HostRuntime, sheet: &Sheet) -> bool {
    for (values, low, high) in &COMMON {
        let common = Interval {
            low: *low,
            high: *high,
        };
        let said = (Verdict::Consistent, Evidence::Common(common));
        if !is_said(rt, sheet, OF_A, values, said) {
            return false;
        }
    }
    true
}

fn are_apart(rt: &HostRuntime, sheet: &Sheet) -> bool {
    for (end, values, first, second) in &APART {
        let said = (Verdict::Inconsistent, Evidence::Apart(*first, *second));
        if !is_said(rt, sheet, end, values, said) {
            return false;
        }
    }
    true
}

fn are_alike(rt: &HostRuntime, sheet: &Sheet) -> bool {
    for (end, values) in &ALIKE {
        if !is_said(rt, sheet, end, values, (Verdict::Complete, Evidence::Alike)) {
            return false;
        }
    }
    true
}

// Returns whether a base has neither a verdict nor evidence on the dimensions of the other base.
fn lacks_row(base: &Base<'_>, other: &Base<'_>) -> bool {
    match other.rows().next() {
        Some(row) => base.verdict(row.dimensions) == None && base.evidence(row.dimensions) == None,
        None => false,
    }
}

fn text_lacks_row(rt: &HostRuntime, number: &Base<'_>) -> bool {
    match base_between(rt, number.sheet(), FACT, &[r#""value":"5""#], OF_T) {
        Some(text) => lacks_row(&text, number) && lacks_row(number, &text),
        None => false,
    }
}

fn is_only_own_row_judged(rt: &HostRuntime, sheet: &Sheet) -> bool {
    match base_between(rt, sheet, FACT, &[r#""value":"5""#], OF_A) {
        Some(number) => text_lacks_row(rt, &number),
        None => false,
    }
}

fn are_rows_judged(rt: &HostRuntime, sheet: &Sheet) -> bool {
    are_common(rt, sheet)
        && are_apart(rt, sheet)
        && are_alike(rt, sheet)
        && is_only_own_row_judged(rt, sheet)
}

#[test]
fn rows_have_verdicts_and_evidence(rt: HostRuntime) {
    assert!(rt; holds_under_sheet(&rt, are_rows_judged));
}
