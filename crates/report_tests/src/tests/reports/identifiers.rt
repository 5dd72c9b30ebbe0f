use super::{are_spelled, may_repeat};
use oim_names::{Reason, Text};
use oim_report::{Refusal, Report, ReportReader, Sheet, fact_identifiers};
use oim_value::Value;
use test_helpers::asked_again::{holds_under_sheet, is_want_of_memory};

fn identifiers(rt: &HostRuntime, text: &str) -> Result<Vec<Text>, Reason> {
    match fact_identifiers(rt.alloc(), text.as_bytes()) {
        Err(Reason::OutOfMemory) if may_repeat(rt) => fact_identifiers(rt.alloc(), text.as_bytes()),
        answer => answer,
    }
}

// Texts with the identifiers in byte order, or None if the text is not JSON.
const TEXTS: [(&str, Option<&[&str]>); 4] = [
    (
        r#"{"facts":{"f10":{},"é\n":1,"f9":{}},"a":{}}"#,
        Some(&["f10", "f9", "é\n"]),
    ),
    (r#"{"facts":[{"f1":1}]}"#, Some(&[])),
    ("7", Some(&[])),
    (r#"{"facts":{"f1":{}}"#, None),
];

fn gives(rt: &HostRuntime, text: &str, wanted: Option<&[&str]>) -> bool {
    match (identifiers(rt, text), wanted) {
        (Ok(found), Some(spelled)) => are_spelled(found.as_slice(), spelled),
        (Err(reason), None) => reason == Reason::NotJson,
        _ => false,
    }
}

#[test]
fn identifiers_stand_in_byte_order(rt: HostRuntime) {
    for (text, wanted) in &TEXTS {
        assert!(rt; gives(&rt, text, *wanted), "{text}");
    }
}

const TWO: &str =
    r#"{"documentInfo":{"documentType":"https://xbrl.org/2021/xbrl-json","namespaces":{"eg":"http://example.org/t"}},"facts":{"b":{"value":"last","dimensions":{"concept":"eg:T"}},"a":{"value":"first","dimensions":{"concept":"eg:T"}}}}"#;

type Identified<'s> = (Report<'s>, Vec<Text>);

fn identified_once<'s>(
    reader: &mut ReportReader<'s>,
    text: &str,
) -> Result<Identified<'s>, Refusal> {
    reader.read_identified(text.as_bytes())
}

/// If memory is refused, the call is repeated once.
fn identified<'s>(
    rt: &HostRuntime,
    reader: &mut ReportReader<'s>,
    text: &str,
) -> Result<Identified<'s>, Refusal> {
    match identified_once(reader, text) {
        Err(refusal) if is_want_of_memory(refusal) && may_repeat(rt) => identified_once(
            reader, text,
        ),
        answer => answer,
    }
}

fn says(read: &Identified<'_>, index: usize, identifier: &str, text: &str) -> bool {
    let (report, identifiers) = read;
    match (report.facts().get(index), identifiers.get(index)) {
        (Some(fact), Some(found)) => {
            found.as_str() == identifier
                && matches!(&fact.value, Value::Text(said) if said.as_str() == text)
        }
        _ => false,
    }
}

fn are_identified(rt: &HostRuntime, sheet: &Sheet) -> bool {
    let mut reader = ReportReader::new(rt.alloc(), sheet);
    match identified(rt, &mut reader, TWO) {
        Ok(read) => says(&read, 0, "a", "first") && says(&read, 1, "b", "last"),
        Err(_) => false,
    }
}

fn is_refused(rt: &HostRuntime, sheet: &Sheet) -> bool {
    let mut reader = ReportReader::new(rt.alloc(), sheet);
    match identified(rt, &mut reader, "{}") {
        Ok(_) => false,
        Err(refusal) => refusal == Refusal::from(Reason::MemberForm),
    }
}

#[test]
fn a_report_is_read_with_its_identifiers(rt: HostRuntime) {
    assert!(rt; holds_under_sheet(&rt, are_identified) && holds_under_sheet(&rt, is_refused));
}
