use super::{BOTH, wanted_memory};
use crate::tests::sinks::TOUCHING;
use oim_merge::{Fault, Refusals, consolidate, consolidate_bundle, source_lines, verdict_lines};
use oim_names::Reason;
use oim_report::Sheet;
use oim_value::Level;
use oim_write::{Encoded, StdSink};
use std::alloc::AllocError;
use std::test::Fail;
use test_helpers::asked_again::{SHEET, joined, may_repeat, may_repeat_here, read_sheet};
use test_helpers::expecting::Expecting;

// Tests `consolidate`, `verdict_lines`, `source_lines` and `consolidate_bundle`. After a refused
// request for memory, the call is repeated.

fn encoded(rt: &HostRuntime, bytes: &[u8]) -> Result<Encoded, AllocError> {
    match Encoded::new(rt.alloc(), bytes) {
        Err(_) if may_repeat(rt) => Encoded::new(rt.alloc(), bytes),
        made => made,
    }
}

fn room_for_reports(rt: &HostRuntime) -> Result<Vec<Encoded>, AllocError> {
    match Vec::with_capacity(rt.alloc(), 4) {
        Err(_) if may_repeat_here(rt) => Vec::with_capacity(rt.alloc(), 4),
        room => room,
    }
}

/// Returns an empty file, which is refused, and the report twice.
fn reports(rt: &HostRuntime, report: &str) -> Result<Vec<Encoded>, AllocError> {
    let mut reports = room_for_reports(rt)?;
    for report in ["", report, report] {
        reports.push(encoded(rt, report.as_bytes())?)?;
    }
    Ok(reports)
}

fn tells_first(refused: &Refusals) -> bool {
    match refused.as_slice() {
        [(report, refusal)] => *report == 1 && refusal.reason == Reason::NotJson,
        _ => false,
    }
}

/// True if the whole text was written and only the first report was refused, as not JSON. None if
/// memory was refused and the sink took exactly as many bytes of the text as the fault reports.
pub(crate) fn came_to(
    rt: &HostRuntime,
    answer: Result<Refusals, Fault>,
    sink: StdSink<Expecting<'_>>,
    text: &[u8],
) -> Option<bool> {
    match answer {
        Err(Fault::OutOfMemory(written)) => wanted_memory(rt, sink, text, written),
        Ok(refused) => Some(tells_first(&refused) && sink.into_inner().is_met()),
        Err(_fault) => Some(false),
    }
}

/// Two numbers whose rounding intervals touch, two whose intervals are disjoint, and a text.
pub(crate) const THREE_SETS: &str =
    r#"{"documentInfo":{"documentType":"https://xbrl.org/2021/xbrl-json","namespaces":{"eg":"http://example.org/t"}},"facts":{"a":{"value":"100","decimals":0,"dimensions":{"concept":"eg:A"}},"b":{"value":"101","decimals":0,"dimensions":{"concept":"eg:A"}},"c":{"value":"1","decimals":0,"dimensions":{"concept":"eg:B"}},"d":{"value":"3","decimals":0,"dimensions":{"concept":"eg:B"}},"e":{"value":"Blue","dimensions":{"concept":"eg:T"}}}}"#;

// Memory is requested for each line. If the request for a line is refused, the sink must contain
// the earlier lines.
pub(crate) const THREE_LINES: &[u8] =
    b"1 f1 f2 consistent common 100.5 100.5\n2 f3 f4 inconsistent apart f3 f4\n3 f5 f5 complete\n";

/// The source lines if `THREE_SETS` is the second and the third report.
const TEN_SOURCES: &[u8] =
    b"f1 2 \"a\"\nf1 3 \"a\"\nf2 2 \"b\"\nf2 3 \"b\"\nf3 2 \"c\"\nf3 3 \"c\"\nf4 2 \"d\"\nf4 3 \"d\"\nf5 2 \"e\"\nf5 3 \"e\"\n";

#[derive(Clone, Copy)]
enum Call {
    Merge,
    Verdicts,
    Sources,
}

fn called_once(
    rt: &HostRuntime,
    sheet: &Sheet,
    reports: &[Encoded],
    call: Call,
    text: &[u8],
) -> Option<bool> {
    let mut sink = StdSink::new(Expecting::just(text));
    let answer = match call {
        Call::Merge => consolidate(rt.alloc(), sheet, reports, Level::Consistent, &mut sink),
        Call::Verdicts => verdict_lines(rt.alloc(), sheet, reports, &mut sink),
        Call::Sources => source_lines(rt.alloc(), sheet, reports, &mut sink),
    };
    came_to(rt, answer, sink, text)
}

fn called(rt: &HostRuntime, sheet: &Sheet, reports: &[Encoded], call: Call, text: &[u8]) -> bool {
    match called_once(rt, sheet, reports, call, text) {
        None => called_once(rt, sheet, reports, call, text) == Some(true),
        Some(met) => met,
    }
}

fn gives(rt: &HostRuntime, sheet: &Sheet, call: Call, report: &str, text: &[u8]) -> bool {
    match reports(rt, report) {
        Ok(reports) => called(rt, sheet, reports.as_slice(), call, text),
        Err(_) => false,
    }
}

fn merges(rt: &HostRuntime, sheet: &Sheet) -> bool {
    match joined(rt, &BOTH) {
        Ok(text) => gives(rt, sheet, Call::Merge, TOUCHING, &text),
        Err(_) => false,
    }
}

#[test]
fn a_refused_call_has_its_front_in_the_sink(rt: HostRuntime) -> Result<(), Fail> {
    let sheet = read_sheet(&rt, SHEET)?;
    assert!(rt; merges(&rt, &sheet));
    assert!(rt; gives(&rt, &sheet, Call::Verdicts, THREE_SETS, THREE_LINES));
    assert!(rt; gives(&rt, &sheet, Call::Sources, THREE_SETS, TEN_SOURCES));
    Ok(())
}

/// A bundle: a sheet, bytes that are not a report, and one report twice.
const BUNDLE: [&str; 7] = [SHEET, "\n", "{\n\n", TOUCHING, "\n", TOUCHING, "\n"];

fn consolidates_bundle_once(rt: &HostRuntime, bundle: &[u8], text: &[u8]) -> Option<bool> {
    let mut sink = StdSink::new(Expecting::just(text));
    let answer = consolidate_bundle(rt.alloc(), bundle, &mut sink);
    came_to(rt, answer, sink, text)
}

fn consolidates_bundle(rt: &HostRuntime, bundle: &[u8], text: &[u8]) -> bool {
    match consolidates_bundle_once(rt, bundle, text) {
        None => consolidates_bundle_once(rt, bundle, text) == Some(true),
        Some(met) => met,
    }
}

#[test]
fn a_refused_bundle_has_its_front_in_the_sink(rt: HostRuntime) -> Result<(), Fail> {
    let bundle = joined(&rt, &BUNDLE)?;
    let text = joined(&rt, &BOTH)?;
    assert!(rt; consolidates_bundle(&rt, &bundle, &text));
    Ok(())
}
