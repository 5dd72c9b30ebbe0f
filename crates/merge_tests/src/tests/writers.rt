use crate::tests::calls::HUNDRED;
use crate::tests::sinks::{base_of, sheet_of};
use fact_base::Base;
use oim_merge::{Fault, Refusals, consolidate, consolidate_bundle, verdict_lines};
use oim_report::Sheet;
use oim_value::Level;
use oim_write::{Encoded, Sink, StdSink, write_to};
use std::alloc::{AllocError, Global};
use std::test::Fail;
use test_helpers::asked_again::{OPEN_INFO, joined, may_repeat};
use test_helpers::canonical_parts::{
    CONSISTENT_HEAD, END, HEAD, MIDDLE, ONE_URI, WRITTEN_BOTH, WRITTEN_HUNDRED,
};
use test_helpers::devices::{ComparingWriter, STEPS, Step, Then};

// Tests calls that write a merged text or verdict lines. Writers stop before, in and after the
// output. After a refused request for memory, the row is tested again.

/// A call that writes a merged text or verdict lines, with its input.
#[derive(Clone, Copy)]
enum Call<'a, 's> {
    Base(&'a Base<'s>),
    Reports(&'a Sheet, &'a [Encoded]),
    Bundle(&'a [u8]),
    Verdicts(&'a Sheet, &'a [Encoded]),
}

#[derive(Clone, Copy, PartialEq, Eq)]
enum Outcome {
    /// The whole text was written, and no report was refused.
    Whole,
    /// The writer failed after this many bytes.
    Device(u64),
    Otherwise,
}

fn outcome_of(answer: Result<Refusals, Fault>) -> Result<Outcome, AllocError> {
    match answer {
        Err(Fault::OutOfMemory(_)) => Err(AllocError),
        Err(Fault::Device(written)) => Ok(Outcome::Device(written)),
        Ok(refusals) => Ok(whole(&refusals)),
        Err(_) => Ok(Outcome::Otherwise),
    }
}

fn whole(refusals: &Refusals) -> Outcome {
    if refusals.as_slice().is_empty() {
        Outcome::Whole
    } else {
        Outcome::Otherwise
    }
}

/// Makes the call on a new sink over the writer. Returns the result of the call, the number of the
/// sink's failures, and whether the writer took exactly the bytes that it expects.
fn called(
    alloc: Global,
    call: Call<'_, '_>,
    writer: ComparingWriter<'_>,
) -> Result<(Outcome, u64, bool), AllocError> {
    let mut sink = StdSink::new(writer);
    let answer = match call {
        Call::Base(base) => match write_to(alloc, base, &mut sink) {
            Ok(()) => Ok(Refusals::new(alloc)),
            Err(fault) => Err(Fault::from(fault)),
        },
        Call::Reports(sheet, reports) => {
            consolidate(alloc, sheet, reports, Level::All, &mut sink)
        }
        Call::Bundle(bundle) => consolidate_bundle(alloc, bundle, &mut sink),
        Call::Verdicts(sheet, reports) => verdict_lines(alloc, sheet, reports, &mut sink),
    };
    let outcome = outcome_of(answer)?;
    let failures = sink.failures();
    Ok((outcome, failures, sink.into_inner().is_met()))
}

/// True if a writer with room for this many bytes takes the first bytes of the text. If the room is
/// too small for the whole text, the call must report how many bytes were taken.
fn holds_the_front(
    alloc: Global,
    call: Call<'_, '_>,
    text: &[u8],
    room: usize,
    step: Step,
    then: Then,
) -> Result<bool, AllocError> {
    let front = text.get(..room).unwrap_or(text);
    let left = called(alloc, call, ComparingWriter::new(front, step, room, then))?;
    if room < text.len() {
        return Ok(left == (Outcome::Device(room as u64), 1, true));
    }
    Ok(left == (Outcome::Whole, 0, true))
}

// The contracts of the calls state what a writer took before it stopped, for each place. So a few
// places show that `StdSink` passes on what the writer returned.
fn holds_fronts(alloc: Global, call: Call<'_, '_>, text: &[u8]) -> Result<bool, AllocError> {
    let last = text.len().saturating_sub(1);
    for room in [0, 1, last / 2, last, text.len()] {
        for step in STEPS {
            for then in [Then::Ends, Then::Fails, Then::IsInterrupted] {
                if !holds_the_front(alloc, call, text, room, step, then)? {
                    return Ok(false);
                }
            }
        }
    }
    Ok(true)
}

// The sheet and the report are short, because three calls read the report again for each writer.
// `consolidate_bundle` also reads the sheet again.

const SHORT_SHEET: &str =
    r#"{"namespaces":{"eg":"http://example.org/t"},"concepts":{"eg:A":"numeric"}}"#;

fn report(alloc: Global, facts: &str) -> Result<String, AllocError> {
    format!(in alloc;
        "{OPEN_INFO},\"namespaces\":{{\"eg\":\"http://example.org/t\"}}}},\"facts\":{{{facts}{END}"
    )
}

fn base_holds(alloc: Global, facts: &str, text: &[u8]) -> Result<bool, AllocError> {
    let sheet = sheet_of(alloc, SHORT_SHEET)?;
    let report = report(alloc, facts)?;
    let base = base_of(alloc, &sheet, report.as_str())?;
    holds_fronts(alloc, Call::Base(&base), text)
}

fn bundle_holds(alloc: Global, facts: &str, text: &[u8]) -> Result<bool, AllocError> {
    let report = report(alloc, facts)?;
    let bundle = format!(in alloc; "{SHORT_SHEET}\n{report}")?;
    holds_fronts(alloc, Call::Bundle(bundle.as_bytes()), text)
}

fn reports_hold(
    alloc: Global,
    facts: &str,
    text: &[u8],
    verdicts: bool,
) -> Result<bool, AllocError> {
    let sheet = sheet_of(alloc, SHORT_SHEET)?;
    let report = report(alloc, facts)?;
    let reports = [Encoded::new(alloc, report.as_bytes())?];
    let call = if verdicts {
        Call::Verdicts(&sheet, reports.as_slice())
    } else {
        Call::Reports(&sheet, reports.as_slice())
    };
    holds_fronts(alloc, call, text)
}

/// A kind of `Call`. The row supplies the input.
#[derive(Clone, Copy)]
enum Kind {
    Base,
    Reports,
    Bundle,
    Verdicts,
}

fn kind_holds(alloc: Global, kind: Kind, facts: &str, text: &[u8]) -> Result<bool, AllocError> {
    match kind {
        Kind::Base => base_holds(alloc, facts, text),
        Kind::Reports => reports_hold(alloc, facts, text, false),
        Kind::Bundle => bundle_holds(alloc, facts, text),
        Kind::Verdicts => reports_hold(alloc, facts, text, true),
    }
}

/// The facts of a report, the parts of the expected output, and the length of the output.
type Row = (&'static str, &'static [&'static str], usize);

const NUMBER: Row = (HUNDRED, &[HEAD, ONE_URI, MIDDLE, WRITTEN_HUNDRED, END], 276);

const TOUCHING: Row = (
    r#""a":{"value":"100","decimals":0,"dimensions":{"concept":"eg:A"}},"b":{"value":"101","decimals":0,"dimensions":{"concept":"eg:A"}}"#,
    &[CONSISTENT_HEAD, ONE_URI, MIDDLE, WRITTEN_BOTH, END],
    348,
);

const APART: Row = (
    r#""a":{"value":"100","decimals":0,"dimensions":{"concept":"eg:A"}},"b":{"value":"101","decimals":0,"dimensions":{"concept":"eg:A"}},"c":{"value":"102","decimals":0,"dimensions":{"concept":"eg:A"}}"#,
    &["1 f1 f3 inconsistent apart f1 f3\n"],
    33,
);

fn holds(rt: &HostRuntime, kind: Kind, row: &Row) -> Result<bool, Fail> {
    let (facts, parts, length) = row;
    let text = joined(rt, parts)?;
    let mut answer = kind_holds(rt.alloc(), kind, facts, &text);
    if answer.is_err() && may_repeat(rt) {
        answer = kind_holds(rt.alloc(), kind, facts, &text);
    }
    Ok(answer? && text.len() == *length)
}

#[test]
fn a_base_is_written_up_to_a_place(rt: HostRuntime) -> Result<(), Fail> {
    assert!(rt; holds(&rt, Kind::Base, &NUMBER)?);
    assert!(rt; holds(&rt, Kind::Base, &TOUCHING)?);
    Ok(())
}

#[test]
fn numbers_are_merged_up_to_a_place(rt: HostRuntime) -> Result<(), Fail> {
    assert!(rt; holds(&rt, Kind::Reports, &TOUCHING)?);
    Ok(())
}

#[test]
fn a_bundle_is_merged_up_to_a_place(rt: HostRuntime) -> Result<(), Fail> {
    assert!(rt; holds(&rt, Kind::Bundle, &TOUCHING)?);
    Ok(())
}

#[test]
fn a_verdict_is_written_up_to_a_place(rt: HostRuntime) -> Result<(), Fail> {
    assert!(rt; holds(&rt, Kind::Verdicts, &APART)?);
    Ok(())
}
