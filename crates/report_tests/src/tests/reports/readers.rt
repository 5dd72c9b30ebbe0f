//! Reads several reports with one reader.

use oim_names::Name;
use oim_report::{Refusal, Report, ReportReader, Sheet};
use test_helpers::asked_again::{holds_under_sheet, is_want_of_memory, joined, may_repeat};

// The parts of a report with one fact, before and after the URI that `x` is bound to.
const START: &str =
    r#"{"documentInfo":{"documentType":"https://xbrl.org/2021/xbrl-json","namespaces":{"eg":"http://example.org/t","x":""#;

const REST: &str =
    r#""}},"facts":{"a":{"value":"1","dimensions":{"concept":"eg:A","entity":"x:1"}}}}"#;

fn read_once<'s>(reader: &mut ReportReader<'s>, bytes: &[u8]) -> Result<Report<'s>, Refusal> {
    reader.read(bytes)
}

// Reads a report. If memory is refused, the call is repeated once.
fn read<'s>(
    rt: &HostRuntime,
    reader: &mut ReportReader<'s>,
    bytes: &[u8],
) -> Result<Report<'s>, Refusal> {
    match read_once(reader, bytes) {
        Err(refusal) if is_want_of_memory(refusal) && may_repeat(rt) => read_once(reader, bytes),
        answer => answer,
    }
}

fn entity_of<'r>(report: &'r Report<'_>) -> Option<&'r Name> {
    report.facts().first()?.dimensions.entity()
}

// Reads a report that binds `x` to the URI, and returns whether the entity of its fact has the URI.
fn has_own_entity(rt: &HostRuntime, reader: &mut ReportReader<'_>, uri: &str) -> bool {
    let Ok(text) = joined(rt, &[START, uri, REST]) else {
        return false;
    };
    match read(rt, reader, &text) {
        Ok(report) => matches!(entity_of(&report), Some(entity) if entity.uri() == uri),
        Err(_) => false,
    }
}

fn have_own_entities(rt: &HostRuntime, sheet: &Sheet) -> bool {
    let mut reader = ReportReader::new(rt.alloc(), sheet);
    has_own_entity(rt, &mut reader, "http://example.org/u")
        && has_own_entity(rt, &mut reader, "http://example.org/u")
        && has_own_entity(rt, &mut reader, "http://example.org/v")
        && has_own_entity(rt, &mut reader, "http://example.org/u")
}

#[test]
fn a_prefix_has_the_uri_that_its_report_binds(rt: HostRuntime) {
    assert!(rt; holds_under_sheet(&rt, have_own_entities));
}
