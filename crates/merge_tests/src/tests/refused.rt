mod adding;
mod merges;

use crate::tests::sinks::TOUCHING;
use fact_base::Base;
use oim_merge::read_back;
use oim_report::{Report, Sheet};
use oim_write::{Encoded, Sink, StdSink, WriteFault, text, write_to};
use std::alloc::AllocError;
use std::test::Fail;
use test_helpers::asked_again::{INFO, SHEET, joined, may_repeat, read, read_sheet, repeated};
use test_helpers::canonical_parts::{CONSISTENT_HEAD, END, MIDDLE, ONE_URI, WRITTEN_BOTH};
use test_helpers::expecting::Expecting;

// Each call is repeated after a refused request for memory. If the call writes to a sink, the sink
// must contain as many bytes of the text as the fault reports.

fn take(rt: &HostRuntime, base: &mut Base<'_>, report: &Report<'_>) -> bool {
    if !base.same_sheet(report.sheet()) {
        return false;
    }
    base.take(report).is_ok()
        || base.fact_count() == 0 && may_repeat(rt) && base.take(report).is_ok()
}

fn take_first<'s>(rt: &HostRuntime, report: &Report<'s>) -> Option<Base<'s>> {
    let mut base = Base::new(rt.alloc(), report.sheet());
    if !take(rt, &mut base, report) {
        return None;
    }
    Some(base)
}

fn base_of<'s>(rt: &HostRuntime, sheet: &'s Sheet, report: &[u8]) -> Option<Base<'s>> {
    let report = read(rt, sheet, report).ok()?;
    take_first(rt, &report)
}

/// True if the sink took exactly `written` bytes without a failure, and the text is at least that
/// long.
fn holds(sink: &StdSink<Expecting<'_>>, text: &[u8], written: u64) -> bool {
    sink.taken() == written && sink.failures() == 0 && written <= text.len() as u64
}

/// Returns None if the sink took exactly the first `written` bytes of the text without a failure
/// and the call may be repeated. Otherwise returns `Some(false)`.
fn wanted_memory(
    rt: &HostRuntime,
    sink: StdSink<Expecting<'_>>,
    text: &[u8],
    written: u64,
) -> Option<bool> {
    let is_told = holds(&sink, text, written);
    let out = sink.into_inner();
    if !is_told
        || !out.is_front()
        || (out.left() as u64).saturating_add(written) != text.len() as u64
        || !may_repeat(rt)
    {
        return Some(false);
    }
    let _ = eprintln!(rt; "written {written}");
    None
}

/// True if the base is written as the text; None if memory was refused and the sink took exactly as
/// many bytes of the text as the fault reports.
fn writes_once(rt: &HostRuntime, base: &Base<'_>, text: &[u8]) -> Option<bool> {
    let mut sink = StdSink::new(Expecting::just(text));
    match write_to(rt.alloc(), base, &mut sink) {
        Err(WriteFault::OutOfMemory(written)) => wanted_memory(rt, sink, text, written),
        answer => Some(answer.is_ok() && sink.into_inner().is_met()),
    }
}

fn writes(rt: &HostRuntime, base: &Base<'_>, text: &[u8]) -> bool {
    match writes_once(rt, base, text) {
        None => writes_once(rt, base, text) == Some(true),
        Some(met) => met,
    }
}

fn text_of(rt: &HostRuntime, base: &Base<'_>) -> Result<Encoded, AllocError> {
    match text(rt.alloc(), base) {
        Err(_) if may_repeat(rt) => text(rt.alloc(), base),
        answer => answer,
    }
}

fn has_text(rt: &HostRuntime, base: &Base<'_>, bytes: &[u8]) -> bool {
    match text_of(rt, base) {
        Ok(text) => text.as_bytes() == bytes,
        Err(_) => false,
    }
}

fn back_of<'s>(rt: &HostRuntime, base: &Base<'s>) -> Result<Base<'s>, AllocError> {
    match read_back(rt.alloc(), base) {
        Err(_) if may_repeat(rt) => read_back(rt.alloc(), base),
        answer => answer,
    }
}

fn comes_back(rt: &HostRuntime, base: &Base<'_>) -> bool {
    match back_of(rt, base) {
        Ok(back) => back.same_as(base),
        Err(_) => false,
    }
}

/// The merged text of two facts, with the values 100 and 101.
const BOTH: [&str; 5] = [CONSISTENT_HEAD, ONE_URI, MIDDLE, WRITTEN_BOTH, END];

fn base_holds(rt: &HostRuntime, sheet: &Sheet, report: &[u8], text: &[u8]) -> bool {
    match base_of(rt, sheet, report) {
        Some(base) => {
            writes(rt, &base, text) && has_text(rt, &base, text) && comes_back(rt, &base)
        }
        None => false,
    }
}

#[test]
fn a_refused_text_has_its_front_in_the_sink(rt: HostRuntime) -> Result<(), Fail> {
    let sheet = read_sheet(&rt, SHEET)?;
    let text = joined(&rt, &BOTH)?;
    assert!(rt; base_holds(&rt, &sheet, TOUCHING.as_bytes(), &text));
    Ok(())
}

/// Fifty letters.
const LETTERS: &str = "abcdefghijklmnopqrstuvwxyzabcdefghijklmnopqrstuvwx";

// The last value contains `LETTERS` 1,200 times (`MORE`), each other value 400 times (`MANY`).
// Memory for the last value is requested after the sink took a chunk.

const MANY: usize = 400;

const MORE: usize = 1_200;

/// The text of each fact up to its value, and after its value.
const OPEN: [&str; 5] = [
    r#""1":{"value":"1"#,
    r#","2":{"value":"2"#,
    r#","3":{"value":"3"#,
    r#","4":{"value":"4"#,
    r#","5":{"value":"5"#,
];

const CLOSE: &str = r#"","dimensions":{"concept":"eg:T"}}"#;

fn long_of(rt: &HostRuntime, many: &str) -> Result<Vec<u8>, AllocError> {
    let more = repeated(rt, LETTERS, MORE)?;
    let parts = [
        INFO, OPEN[0], many, CLOSE, OPEN[1], many, CLOSE, OPEN[2], many, CLOSE, OPEN[3], many,
        CLOSE, OPEN[4], &more, CLOSE, END,
    ];
    joined(rt, &parts)
}

fn long_report(rt: &HostRuntime) -> Result<Vec<u8>, AllocError> {
    let many = repeated(rt, LETTERS, MANY)?;
    long_of(rt, &many)
}

/// True if `write_to` writes the same bytes as `text` returns, and the text is longer than a chunk.
fn writes_long(rt: &HostRuntime, base: &Base<'_>) -> bool {
    match text_of(rt, base) {
        Ok(text) => text.as_bytes().len() > 100_000 && writes(rt, base, text.as_bytes()),
        Err(_) => false,
    }
}

fn long_is_written(rt: &HostRuntime, sheet: &Sheet, report: &[u8]) -> bool {
    match base_of(rt, sheet, report) {
        Some(base) => base.fact_count() == 5 && writes_long(rt, &base),
        None => false,
    }
}

#[test]
fn a_refused_long_text_has_its_front_in_the_sink(rt: HostRuntime) -> Result<(), Fail> {
    let sheet = read_sheet(&rt, SHEET)?;
    let report = long_report(&rt)?;
    assert!(rt; long_is_written(&rt, &sheet, &report));
    Ok(())
}
