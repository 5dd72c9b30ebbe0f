use super::{END, Outcome, SHEET, is_outcome, joined, may_repeat, read_sheet, told};
use oim_report::{Refusal, Sheet, faults, is_accepted_in_pieces};
use std::alloc::AllocError;
use std::test::Fail;

// Texts with their faults.
type Rows<'t> = &'t [(&'t str, &'t [Outcome])];

const DOCUMENTS: Rows<'static> = &[
    ("", &[(1, 0)]),
    ("[]", &[(2, 0)]),
    ("{}", &[(2, 0)]),
    (
        r#"{"x":1,"documentInfo":{"y":1,"documentType":"z"},"facts":[]}"#,
        &[(2, 0), (3, 0), (4, 0)],
    ),
    // a missing `documentType` is not reported if `documentInfo` is missing
    (r#"{"x":1,"facts":{"a":7}}"#, &[(2, 0), (3, 0)]),
    // if the base URL is refused, references are tested as if there were no base URL
    (
        r#"{"documentInfo":{"documentType":"https://xbrl.org/2021/xbrl-json","baseURL":"x","taxonomy":["y"]},"facts":{"a":7}}"#,
        &[(6, 0)],
    ),
    (
        r#"{"documentInfo":{"documentType":"https://xbrl.org/2021/xbrl-json","baseURL":"x","taxonomy":[1]}}"#,
        &[(6, 0), (7, 0)],
    ),
    // if an entry of `namespaces` is refused, the declared level is not tested
    (
        r#"{"documentInfo":{"documentType":"https://xbrl.org/2021/xbrl-json","namespaces":{"a":"","xbrl":"https://xbrl.org/2021"},"features":{"xbrl:allowedDuplicates":1}}}"#,
        &[(5, 0)],
    ),
    (
        r#"{"documentInfo":{"documentType":"https://xbrl.org/2021/xbrl-json","namespaces":{"xbrl":"https://xbrl.org/2021"},"taxonomy":[1],"features":{"xbrl:allowedDuplicates":1}}}"#,
        &[(7, 0), (8, 0)],
    ),
];

const START: &str =
    r#"{"documentInfo":{"documentType":"https://xbrl.org/2021/xbrl-json","namespaces":{"eg":"http://example.org/t","zz":"http://example.org/t","x":"http://example.org/u","xbrl":"https://xbrl.org/2021"},"features":{"xbrl:allowedDuplicates":"none"}},"facts":{"#;

const FACTS: Rows<'static> = &[
    ("", &[]),
    (r#""a":{"value":"1","dimensions":{"concept":"eg:A"}}"#, &[]),
    // several conditions on a fact's form
    (
        r#""a":{"x":1,"dimensions":[],"links":{"y":1}},"b":7,"c":{"links":[]}"#,
        &[(2, 1), (3, 1), (9, 1), (2, 2), (2, 3), (11, 3)],
    ),
    // conditions on the value and the decimals of facts without dimensions
    (
        r#""a":{"value":1,"decimals":"x"},"b":{"value":null,"decimals":19},"c":{"value":"x","decimals":1}"#,
        &[(11, 1), (25, 1), (28, 1), (11, 2), (29, 2), (11, 3)],
    ),
    // conditions on content and on form
    (
        r#""a":{"dimensions":{"concept":"q:A","noteId":1}},"b":{"value":"1","dimensions":{"concept":1}}"#,
        &[(2, 1), (10, 1), (13, 1), (2, 2)],
    ),
    // the three conditions on names, each in a different name
    (
        r#""a":{"value":"1","dimensions":{"concept":"A","eg:Reg":"xbrl:b","entity":"q:a"}}"#,
        &[(12, 1), (13, 1), (14, 1)],
    ),
    // the three conditions on names, in one unit
    (
        r#""a":{"value":"1","dimensions":{"concept":"eg:A","unit":"xbrl:a*a/q:a"}}"#,
        &[(12, 1), (13, 1), (14, 1)],
    ),
    // a name with an unbound prefix is not reported as unknown; an unknown concept has no kind, so
    // no condition on kinds is tested
    (
        r#""a":{"value":"x","decimals":1,"dimensions":{"concept":"eg:Z","eg:Z":1,"q:Z":1,"unit":"x:a","language":"en"}}"#,
        &[(13, 1), (16, 1), (17, 1)],
    ),
    (
        r#""a":{"value":"1","dimensions":{"eg:Z":1,"eg:Reg":null,"zz:Z":"x"}}"#,
        &[(15, 1), (17, 1), (18, 1)],
    ),
    (
        r#""a":{"value":"1","dimensions":{"concept":"eg:A","eg:Sku":"x","zz:Sku":"x"}}"#,
        &[(18, 1)],
    ),
    // conditions on values, decimals and core dimensions
    (
        r#""a":{"value":"x","decimals":19,"dimensions":{"concept":"eg:T","period":"2020","unit":"a/","language":"e n"}}"#,
        &[(19, 1), (21, 1), (22, 1), (23, 1), (29, 1), (30, 1)],
    ),
    (
        r#""a":{"value":1,"decimals":"1","dimensions":{"concept":"eg:A","period":"2020-01-02T00:00:00/2020-01-01T00:00:00","language":"en"}}"#,
        &[(20, 1), (24, 1), (25, 1), (28, 1)],
    ),
    (
        r#""a":{"value":"x","dimensions":{"concept":"eg:A"}},"b":{"value":"1","dimensions":{"concept":"eg:A"}},"c":{"value":"1234567890123456789","dimensions":{"concept":"eg:A"}}"#,
        &[(26, 1), (27, 3)],
    ),
    // duplicates are reported only if there are no other faults
    (
        r#""a":{"value":"1","dimensions":{"concept":"eg:A"}},"b":{"value":"1","dimensions":{"concept":"eg:A"}}"#,
        &[(31, 0)],
    ),
    (
        r#""a":{"value":"1","dimensions":{"concept":"eg:A"}},"b":{"value":"1","dimensions":{"concept":"eg:A"}},"c":7"#,
        &[(2, 3)],
    ),
];

fn faults_of(rt: &HostRuntime, sheet: &Sheet, bytes: &[u8]) -> Result<Vec<Refusal>, AllocError> {
    match faults(rt.alloc(), sheet, bytes) {
        Err(_) if may_repeat(rt) => faults(rt.alloc(), sheet, bytes),
        found => found,
    }
}

fn are_so(found: &[Refusal], wanted: &[Outcome]) -> bool {
    for (refusal, outcome) in found.iter().zip(wanted) {
        if !is_outcome(*refusal, *outcome) {
            return false;
        }
    }
    found.len() == wanted.len()
}

fn is_told(
    rt: &HostRuntime,
    sheet: &Sheet,
    parts: &[&str],
    wanted: &[Outcome],
) -> Result<bool, AllocError> {
    let report = joined(rt, parts)?;
    let found = faults_of(rt, sheet, &report)?;
    Ok(are_so(found.as_slice(), wanted))
}

fn hold(
    rt: &HostRuntime,
    sheet: &Sheet,
    start: &str,
    rows: Rows<'_>,
    end: &str,
) -> Result<bool, AllocError> {
    let mut all = true;
    for (text, wanted) in rows {
        let holds = is_told(rt, sheet, &[start, text, end], wanted)?;
        all = told(rt, holds, text) && all;
    }
    Ok(all)
}

#[test]
fn each_fault_of_a_document_is_told(rt: HostRuntime) -> Result<(), Fail> {
    let sheet = read_sheet(&rt, SHEET)?;
    assert!(rt; hold(&rt, &sheet, "", DOCUMENTS, "")?);
    Ok(())
}

#[test]
fn each_fault_of_a_fact_is_told(rt: HostRuntime) -> Result<(), Fail> {
    let sheet = read_sheet(&rt, SHEET)?;
    assert!(rt; hold(&rt, &sheet, START, FACTS, END)?);
    Ok(())
}

fn is_accepted(rt: &HostRuntime, sheet: &Sheet, fact: &str) -> Result<bool, AllocError> {
    let report = joined(rt, &[START, fact, END])?;
    match is_accepted_in_pieces(rt.alloc(), sheet, &report) {
        Err(_) if may_repeat(rt) => is_accepted_in_pieces(rt.alloc(), sheet, &report),
        found => found,
    }
}

#[test]
fn reports_are_accepted_in_pieces(rt: HostRuntime) -> Result<(), Fail> {
    let sheet = read_sheet(&rt, SHEET)?;
    let fact = r#""a":{"value":"1","dimensions":{"concept":"eg:A"}}"#;
    assert!(rt; is_accepted(&rt, &sheet, fact)?);
    assert!(rt; !is_accepted(&rt, &sheet, r#""a":7"#)?);
    Ok(())
}
