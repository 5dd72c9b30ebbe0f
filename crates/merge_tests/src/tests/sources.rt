use crate::tests::calls::{HUNDRED, UNBOUND, is_only_second, reports};
use crate::tests::sinks::sheet;
use oim_merge::{Fault, source_lines};
use oim_report::Sheet;
use oim_write::{Encoded, StdSink};
use std::alloc::{AllocError, Global};
use std::test::Fail;
use test_helpers::asked_again::{holds, may_repeat};
use test_helpers::devices::{Step, TestWriter, Then};
use test_helpers::expecting::Expecting;

// After a refused request for memory, the call is repeated.

/// Two facts whose identifiers are not in the order of the facts. One identifier needs an escape.
const TWO: &str =
    r#""\n":{"value":"102","decimals":0,"dimensions":{"concept":"eg:A"}},"b":{"value":"100","decimals":0,"dimensions":{"concept":"eg:A"}}"#;

const LINES: &[u8] = b"f1 1 \"b\"\nf1 3 \"a\"\nf2 1 \"\\n\"\n";

/// True if exactly `LINES` is written, and only the second report is refused.
fn are_told(alloc: Global, sheet: &Sheet, reports: &[Encoded]) -> Result<bool, AllocError> {
    let mut sink = StdSink::new(Expecting::just(LINES));
    match source_lines(alloc, sheet, reports, &mut sink) {
        Err(Fault::OutOfMemory(_)) => Err(AllocError),
        Ok(refused) => Ok(is_only_second(&refused) && sink.into_inner().is_met()),
        Err(_) => Ok(false),
    }
}

fn tells_each_source(alloc: Global) -> Result<bool, AllocError> {
    let sheet = sheet(alloc)?;
    let reports = reports(alloc, [TWO, UNBOUND, HUNDRED].as_slice())?;
    are_told(alloc, &sheet, &reports)
}

/// True if a sink with room for this many bytes contains the first bytes of `LINES`, and the fault
/// reports their number.
fn holds_front(
    alloc: Global,
    sheet: &Sheet,
    reports: &[Encoded],
    room: usize,
) -> Result<bool, AllocError> {
    let mut sink = StdSink::new(TestWriter::new(alloc, Step::Few(1), room, Then::Fails)?);
    match source_lines(alloc, sheet, reports, &mut sink) {
        Err(Fault::OutOfMemory(_)) => Err(AllocError),
        Err(Fault::Device(written)) => Ok(
            written == room as u64 && Some(sink.into_inner().held()) == LINES.get(..room),
        ),
        _ => Ok(false),
    }
}

fn is_written_up_to(alloc: Global, room: usize) -> Result<bool, AllocError> {
    let sheet = sheet(alloc)?;
    let reports = reports(alloc, [TWO, UNBOUND, HUNDRED].as_slice())?;
    holds_front(alloc, &sheet, &reports, room)
}

#[test]
fn each_fact_object_has_its_line(rt: HostRuntime) {
    assert!(rt; holds(&rt, tells_each_source));
}

#[test]
fn sources_are_written_up_to_a_place(rt: HostRuntime) -> Result<(), Fail> {
    for room in [0, 9, 26] {
        let mut answer = is_written_up_to(rt.alloc(), room);
        if answer.is_err() && may_repeat(&rt) {
            answer = is_written_up_to(rt.alloc(), room);
        }
        assert!(rt; answer == Ok(true));
    }
    Ok(())
}
