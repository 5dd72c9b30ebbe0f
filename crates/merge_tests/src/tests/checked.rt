use oim_merge::{Checked, check_report};
use oim_report::{Refusal, Sheet};
use oim_value::Level;
use std::alloc::AllocError;
use std::test::Fail;
use test_helpers::asked_again::{INFO, SHEET, is_want_of_memory, joined, may_repeat, read_sheet};
use test_helpers::canonical_parts::{
    CONSISTENT_HEAD, CONTRADICTING_HEAD, EARLIER_HEAD, EARLIER_MIDDLE, END, HEAD, MIDDLE,
    MIDDLE_ALONE, ONE_URI, WRITTEN_BOTH, WRITTEN_HUNDRED,
};

// Tests the results of `check_report`. After a refused request for memory, the call is repeated.

/// A report in parts, the number of its facts, their level, and whether the report is canonical.
type Row = (&'static [&'static str], u64, Level, bool);

/// The canonical text of one fact.
const CANONICAL: Row = (
    &[HEAD, ONE_URI, MIDDLE, WRITTEN_HUNDRED, END],
    1,
    Level::Unique,
    true,
);

/// Canonical texts, texts in the earlier form, and texts that differ from a canonical text only
/// outside the facts.
const ROWS: [Row; 10] = [
    // two equal facts
    (
        &[
            INFO,
            r#""a":{"value":"1","decimals":0,"dimensions":{"concept":"eg:A"}},"b":{"value":"1","decimals":0,"dimensions":{"concept":"eg:A"}}"#,
            END,
        ],
        2,
        Level::Complete,
        false,
    ),
    (&[HEAD, MIDDLE_ALONE, END], 0, Level::Unique, true),
    (
        &[CONTRADICTING_HEAD, MIDDLE_ALONE, END],
        0,
        Level::Unique,
        false,
    ),
    (&[HEAD, MIDDLE_ALONE, END, "\n"], 0, Level::Unique, false),
    (
        &["\u{feff}", HEAD, MIDDLE_ALONE, END],
        0,
        Level::Unique,
        false,
    ),
    (
        &[EARLIER_HEAD, EARLIER_MIDDLE, END],
        0,
        Level::Unique,
        false,
    ),
    (
        &[EARLIER_HEAD, ONE_URI, EARLIER_MIDDLE, WRITTEN_HUNDRED, END],
        1,
        Level::Unique,
        false,
    ),
    (
        &[EARLIER_HEAD, ONE_URI, EARLIER_MIDDLE, WRITTEN_BOTH, END],
        2,
        Level::Consistent,
        false,
    ),
    (
        &[CONSISTENT_HEAD, ONE_URI, MIDDLE, WRITTEN_BOTH, END],
        2,
        Level::Consistent,
        true,
    ),
    CANONICAL,
];

/// Reports of one fact, with the value 100. Each is not canonical for a different reason.
const SPELLED: [&[&str]; 9] = [
    // members in another order
    &[
        r#"{"facts":{"#,
        WRITTEN_HUNDRED,
        r#"},"documentInfo":{"documentType":"https://xbrl.org/2021/xbrl-json","features":{"xbrl:allowedDuplicates":"none"},"namespaces":{"n1":"http://example.org/t","xbrl":"https://xbrl.org/2021"},"taxonomy":[]}}"#,
    ],
    // a space
    &[HEAD, " ", ONE_URI, MIDDLE, WRITTEN_HUNDRED, END],
    // an escape
    &[
        HEAD,
        ONE_URI,
        MIDDLE,
        r#""f1":{"decimals":0,"dimensions":{"concept":"n1:\u0041"},"value":"100"}"#,
        END,
    ],
    // an insignificant zero
    &[
        HEAD,
        ONE_URI,
        MIDDLE,
        r#""f1":{"decimals":0,"dimensions":{"concept":"n1:A"},"value":"100.0"}"#,
        END,
    ],
    // another prefix
    &[
        HEAD,
        r#""m1":"http://example.org/t""#,
        MIDDLE,
        r#""f1":{"decimals":0,"dimensions":{"concept":"m1:A"},"value":"100"}"#,
        END,
    ],
    // an identifier with more digits
    &[
        HEAD,
        ONE_URI,
        MIDDLE,
        r#""f01":{"decimals":0,"dimensions":{"concept":"n1:A"},"value":"100"}"#,
        END,
    ],
    // the prefix of the feature is not bound
    &[HEAD, ONE_URI, EARLIER_MIDDLE, WRITTEN_HUNDRED, END],
    // a reference in another spelling
    &[
        HEAD,
        ONE_URI,
        r#","xbrl":"https://xbrl.org/2021"},"taxonomy":["HTTP://X.org/b.xsd"]},"facts":{"#,
        WRITTEN_HUNDRED,
        END,
    ],
    // a report as another program writes it
    &[
        INFO,
        r#""a":{"value":"100","decimals":0,"dimensions":{"concept":"eg:A"}}"#,
        END,
    ],
];

/// A sheet with other prefixes than `SHEET` and the report. It lists the concept of
/// `WRITTEN_HUNDRED` and three other concepts.
const MORE: &str =
    r#"{"namespaces":{"q":"http://example.org/t","z":"http://example.org/z"},"concepts":{"q:A":"numeric","q:B":"numeric","z:C":"text","q:Q":"name"}}"#;

// A separate function, because the long contract of the call makes each call slow to prove.
fn check_once(rt: &HostRuntime, sheet: &Sheet, report: &[u8]) -> Result<Checked, Refusal> {
    check_report(rt.alloc(), sheet, report)
}

fn check(rt: &HostRuntime, sheet: &Sheet, report: &[u8]) -> Result<Checked, Refusal> {
    match check_once(rt, sheet, report) {
        Err(refusal) if is_want_of_memory(refusal) && may_repeat(rt) => check_once(
            rt, sheet, report,
        ),
        answer => answer,
    }
}

fn comes_to(rt: &HostRuntime, sheet: &Sheet, row: &Row) -> Result<bool, AllocError> {
    let (parts, facts, level, canonical) = *row;
    let report = joined(rt, parts)?;
    let expected = Checked {
        facts,
        level,
        canonical,
    };
    Ok(check(rt, sheet, &report) == Ok(expected))
}

fn rows_come_to(rt: &HostRuntime, sheet: &Sheet) -> Result<bool, AllocError> {
    let mut all = true;
    for row in &ROWS {
        all = comes_to(rt, sheet, row)? && all;
    }
    Ok(all)
}

fn spelled_come_to(rt: &HostRuntime, sheet: &Sheet) -> Result<bool, AllocError> {
    let mut all = true;
    for parts in &SPELLED {
        all = comes_to(rt, sheet, &(*parts, 1, Level::Unique, false))? && all;
    }
    Ok(all)
}

#[test]
fn texts_of_today_are_canonical(rt: HostRuntime) -> Result<(), Fail> {
    let sheet = read_sheet(&rt, SHEET)?;
    assert!(rt; rows_come_to(&rt, &sheet)? && spelled_come_to(&rt, &sheet)?);
    Ok(())
}

#[test]
fn a_text_is_canonical_under_any_sheet_that_lists_it(rt: HostRuntime) -> Result<(), Fail> {
    let sheet = read_sheet(&rt, MORE)?;
    assert!(rt; comes_to(&rt, &sheet, &CANONICAL)?);
    Ok(())
}
