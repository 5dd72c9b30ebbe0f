use super::verdicts::{Said, judged};
use super::{FACT, OF_A, OF_T, base_between};
use fact_base::{Base, Evidence, Verdict};
use oim_report::Sheet;
use oim_value::{Interval, Value, interval_of, value_meets};
use std::test::Fail;
use test_helpers::asked_again::{SHEET, read_sheet};

// Returns the index of the first value that this value does not meet.
fn first_not_met(value: &Value, values: &[Value]) -> Option<usize> {
    for (index, other) in values.iter().enumerate() {
        if !value_meets(value, other) {
            return Some(index);
        }
    }
    None
}

// Returns the indices of the first two values that do not meet.
fn first_apart(values: &[Value]) -> Option<(usize, usize)> {
    for (index, value) in values.iter().enumerate() {
        if let Some(other) = first_not_met(value, values) {
            return Some((index, other));
        }
    }
    None
}

// Returns the common part of the intervals of numbers.
fn common_of(values: &[Value]) -> Interval {
    let mut common = Interval {
        low: i128::MIN,
        high: i128::MAX,
    };
    for value in values {
        if let Value::Number(number, decimals) = value {
            let interval = interval_of(*number, *decimals);
            common.low = common.low.max(interval.low);
            common.high = common.high.min(interval.high);
        }
    }
    common
}

// Returns the verdict and the evidence on values, found by a loop over all pairs. The first two
// values that do not meet are the evidence in each of the rows below.
fn said_by_pairs(values: &[Value]) -> Said {
    match first_apart(values) {
        Some((first, second)) => (Verdict::Inconsistent, Evidence::Apart(first, second)),
        None if values.len() == 1 => (Verdict::Complete, Evidence::Alike),
        None => (Verdict::Consistent, Evidence::Common(common_of(values))),
    }
}

fn is_judged_by_pairs(base: &Base<'_>) -> bool {
    match base.rows().next() {
        Some(row) => judged(base) == Some(said_by_pairs(row.values)),
        None => false,
    }
}

fn is_base_judged(rt: &HostRuntime, sheet: &Sheet, values: &[&str], end: &str) -> bool {
    match base_between(rt, sheet, FACT, values, end) {
        Some(base) => is_judged_by_pairs(&base),
        None => false,
    }
}

// Three values of one dimension set, which may be equal, and how a report ends.
type Row = [&'static str; 4];

const ROWS: [Row; 8] = [
    [
        r#""value":"100","decimals":0"#,
        r#""value":"101","decimals":0"#,
        r#""value":"101","decimals":0"#,
        OF_A,
    ],
    [
        r#""value":"100","decimals":0"#,
        r#""value":"101","decimals":0"#,
        r#""value":"102","decimals":0"#,
        OF_A,
    ],
    [
        r#""value":"100","decimals":0"#,
        r#""value":"103","decimals":0"#,
        r#""value":"104","decimals":-2"#,
        OF_A,
    ],
    [r#""value":null"#, r#""value":"5""#, r#""value":null"#, OF_A],
    [r#""value":null"#, r#""value":"5""#, r#""value":"9""#, OF_A],
    [
        r#""value":"-0""#,
        r#""value":"+0.00""#,
        r#""value":".0""#,
        OF_A,
    ],
    [r#""value":"a""#, r#""value":"b""#, r#""value":"b""#, OF_T],
    [r#""value":"a""#, r#""value":"b""#, r#""value":null"#, OF_T],
];

// Returns whether each rotation of the three values is judged by pairs.
fn is_each_rotation_judged(rt: &HostRuntime, sheet: &Sheet, row: &Row) -> bool {
    let [first, second, third, end] = *row;
    let mut values = [first, second, third];
    for _ in 0..3 {
        values.swap(0, 1);
        values.swap(1, 2);
        if !is_base_judged(rt, sheet, &values, end) {
            return false;
        }
    }
    true
}

#[test]
fn values_are_judged_by_pairs(rt: HostRuntime) -> Result<(), Fail> {
    let sheet = read_sheet(&rt, SHEET)?;
    for (index, row) in ROWS.iter().enumerate() {
        assert!(rt; is_each_rotation_judged(&rt, &sheet, row), "row {index}");
    }
    Ok(())
}
