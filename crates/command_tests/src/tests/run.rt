use crate::tests::ran::{NO_WORDS, piped};
use command_line::run;
use std::alloc::AllocError;
use std::io::Write;
use std::test::Fail;
use test_helpers::asked_again::{INFO, SHEET, joined, may_repeat};
use test_helpers::canonical_parts::{END, HEAD, MIDDLE, MIDDLE_ALONE, ONE_URI, WRITTEN_HUNDRED};
use test_helpers::devices::{FullAfter, NeverFlushed, STEPS, Step, TestReader, TestWriter, Then};
use test_helpers::expecting::{Either, Expecting};

// If memory is refused, the program must report the refusal; the test then runs the program again.

const ROOM: usize = 1 << 16;

const HUNDRED: &str = r#""a":{"value":"100","decimals":0,"dimensions":{"concept":"eg:A"}}"#;

fn writer(rt: &HostRuntime, room: usize) -> Result<TestWriter, AllocError> {
    match TestWriter::new(rt.alloc(), Step::All, room, Then::Fails) {
        Err(_) if may_repeat(rt) => TestWriter::new(rt.alloc(), Step::All, room, Then::Fails),
        made => made,
    }
}

#[derive(Drop)]
struct Ran {
    status: u8,
    out: TestWriter,
    err: TestWriter,
}

fn run_once(rt: &HostRuntime, input: TestReader<'_>, room: usize) -> Result<Ran, AllocError> {
    let mut out = writer(rt, room)?;
    let mut err = writer(rt, ROOM)?;
    let status = run(rt.alloc(), rt, NO_WORDS, piped(input, &mut out, &mut err)).status;
    Ok(Ran { status, out, err })
}

/// Runs the program on this standard input, with room for this many bytes on standard output.
fn run_in(rt: &HostRuntime, input: TestReader<'_>, room: usize) -> Result<Ran, AllocError> {
    let ran = run_once(rt, input, room)?;
    if ran.status == 3 && ran.err.held() == b"out of memory\n".as_slice() && may_repeat(rt) {
        return run_once(rt, input, room);
    }
    Ok(ran)
}

/// Returns whether the program gives these results for a bundle. If not, prints the actual status.
fn gives(
    rt: &HostRuntime,
    parts: &[&str],
    status: u8,
    out: &[&str],
    err: &str,
) -> Result<bool, Fail> {
    let bundle = joined(rt, parts)?;
    let text = joined(rt, out)?;
    let ran = run_in(rt, TestReader::new(&bundle, Step::All, Then::Ends), ROOM)?;
    let same = ran.status == status
        && ran.err.held() == err.as_bytes()
        && ran.out.held() == text.as_slice();
    if !same {
        let _ = eprintln!(rt; "status {}", ran.status);
    }
    Ok(same)
}

#[test]
fn no_report_gives_the_empty_text(rt: HostRuntime) -> Result<(), Fail> {
    let text = [HEAD, MIDDLE_ALONE, END];
    assert_eq!(rt; joined(&rt, &text)?.len(), 183);
    for ends in ["", "\n", "\n\n\n"] {
        assert!(rt; gives(&rt, &[SHEET, ends], 0, &text, "")?);
    }
    Ok(())
}

/// The merged text of one fact, with the value 100.
const HUNDRED_TEXT: &[&str] = &[HEAD, ONE_URI, MIDDLE, WRITTEN_HUNDRED, END];

/// Three facts. The prefix of the second fact's concept is not bound.
const SECOND_UNBOUND: &str =
    r#""a":{"value":"1","dimensions":{"concept":"eg:A"}},"b":{"value":"1","dimensions":{"concept":"q:A"}},"c":{"value":"2","dimensions":{"concept":"eg:A"}}"#;

/// A bundle with an accepted report between two refused ones.
const BETWEEN_REFUSED: &[&str] = &[
    SHEET,
    "\n\n",
    INFO,
    SECOND_UNBOUND,
    END,
    "\n\n",
    INFO,
    HUNDRED,
    END,
    "\n{}",
];

#[test]
fn a_refused_report_changes_nothing(rt: HostRuntime) -> Result<(), Fail> {
    let refused = [SHEET, "\n", INFO, SECOND_UNBOUND, END];
    let line = "report 1: 13 UnboundPrefix at fact 2\n";
    assert!(rt; gives(&rt, &refused, 1, &[HEAD, MIDDLE_ALONE, END], line)?);
    let lines = "report 1: 13 UnboundPrefix at fact 2\nreport 3: 2 MemberForm at document\n";
    assert!(rt; gives(&rt, BETWEEN_REFUSED, 1, HUNDRED_TEXT, lines)?);
    Ok(())
}

/// Bundles with a refused sheet, each with the line that reports the refusal.
const REFUSED_SHEETS: [(&str, &str); 5] = [
    ("", "sheet: 1 NotJson\n"),
    ("\n{}", "sheet: 1 NotJson\n"),
    ("[]", "sheet: 2 MemberForm\n"),
    (
        r#"{"concepts":{"eg:A":"numeric"}}"#,
        "sheet: 13 UnboundPrefix\n",
    ),
    (
        r#"{"namespaces":{"eg":"http://example.org/t"},"concepts":{"eg:A":"number"}}"#,
        "sheet: 32 SheetKind\n",
    ),
];

fn all_end(rt: &HostRuntime, rows: &[(&str, &str)]) -> Result<bool, Fail> {
    let mut all = true;
    for (bundle, line) in rows {
        all = gives(rt, &[bundle], 3, &[], line)? && all;
    }
    Ok(all)
}

#[test]
fn a_refused_sheet_ends_the_run(rt: HostRuntime) -> Result<(), Fail> {
    assert!(rt; all_end(&rt, REFUSED_SHEETS.as_slice())?);
    assert!(rt; gives(&rt, &["{}"], 0, &[HEAD, MIDDLE_ALONE, END], "")?);
    Ok(())
}

/// Runs the program with room for this many bytes on standard output. Returns whether the run ends
/// with status 3, exactly this text on standard output, and this line on standard error.
fn stops(
    rt: &HostRuntime,
    input: TestReader<'_>,
    room: usize,
    text: &[u8],
    line: &str,
) -> Result<bool, Fail> {
    let ran = run_in(rt, input, room)?;
    Ok(ran.status == 3 && ran.err.held() == line.as_bytes() && ran.out.held() == text)
}

#[test]
fn a_full_device_ends_the_run(rt: HostRuntime) -> Result<(), Fail> {
    let bundle = joined(&rt, &[SHEET, "\n", INFO, HUNDRED, END])?;
    let text = joined(&rt, HUNDRED_TEXT)?;
    let input = TestReader::new(&bundle, Step::Few(1), Then::Ends);
    assert!(rt; stops(&rt, input, 0, b"", "device: 0 bytes written\n")?);
    let front = text.get(..275).unwrap_or_default();
    assert!(rt; stops(&rt, input, 275, front, "device: 275 bytes written\n")?);
    Ok(())
}

/// Returns whether the run ends with status 3 and prints only that its input cannot be read; None
/// if memory was refused.
fn is_unread(rt: &HostRuntime, input: TestReader<'_>) -> Option<bool> {
    let mut out = Expecting::just(b"");
    let mut err = Either(
        Expecting::just(b"file -: cannot be read\n"),
        Expecting::just(b"out of memory\n"),
    );
    let status = run(rt.alloc(), rt, NO_WORDS, piped(input, &mut out, &mut err)).status;
    if status == 3 && err.1.is_met() {
        return None;
    }
    Some(status == 3 && out.is_met() && err.0.is_met())
}

/// Returns whether the program reports an input that fails or is interrupted after these bytes, for
/// each of `STEPS`.
fn are_unread(rt: &HostRuntime, front: &[u8]) -> bool {
    for step in STEPS {
        for then in [Then::Fails, Then::IsInterrupted] {
            let input = TestReader::new(front, step, then);
            let mut answer = is_unread(rt, input);
            if answer.is_none() && may_repeat(rt) {
                answer = is_unread(rt, input);
            }
            if answer != Some(true) {
                return false;
            }
        }
    }
    true
}

#[test]
fn an_input_that_stops_at_any_place_ends_the_run(rt: HostRuntime) -> Result<(), Fail> {
    let bundle = joined(&rt, &[SHEET, "\n", INFO, HUNDRED, END])?;
    for length in 0..=bundle.len() {
        let front = bundle.get(..length).unwrap_or_default();
        assert!(rt; are_unread(&rt, front), "at {length}");
    }
    Ok(())
}

fn status_of<O: Write + Drop>(rt: &HostRuntime, bundle: &[u8], out: O, err: &mut TestWriter) -> u8 {
    let input = TestReader::new(bundle, Step::All, Then::Ends);
    run(rt.alloc(), rt, NO_WORDS, piped(input, out, err)).status
}

#[test]
fn a_text_that_is_not_flushed_is_a_fault(rt: HostRuntime) -> Result<(), Fail> {
    let refused = [SHEET, "\n{}\n", INFO, HUNDRED, END];
    let bundle = joined(&rt, &refused)?;
    let mut err = writer(&rt, ROOM)?;
    let mut status = status_of(&rt, &bundle, NeverFlushed, &mut err);
    if err.held() == b"out of memory\n".as_slice() && may_repeat(&rt) {
        err = writer(&rt, ROOM)?;
        status = status_of(&rt, &bundle, NeverFlushed, &mut err);
    }
    assert_eq!(rt; status, 3);
    assert_eq!(rt; err.held(), b"device: 276 bytes written\n".as_slice());
    Ok(())
}

/// Returns the status and the number of flushes when standard output has room for this many bytes;
/// None if memory was refused.
fn flushed(rt: &HostRuntime, bundle: &[u8], room: usize) -> Option<(u8, u64)> {
    let mut out = FullAfter::new(room);
    let mut err = Expecting::just(b"out of memory\n");
    let input = TestReader::new(bundle, Step::All, Then::Ends);
    let status = run(rt.alloc(), rt, NO_WORDS, piped(input, &mut out, &mut err)).status;
    if status == 3 && err.is_met() {
        return None;
    }
    Some((status, out.flushes))
}

#[test]
fn an_output_that_failed_is_not_flushed(rt: HostRuntime) -> Result<(), Fail> {
    let bundle = joined(&rt, &[SHEET, "\n", INFO, HUNDRED, END])?;
    for (room, expected) in [(0, (3, 0)), (275, (3, 0)), (276, (0, 1))] {
        let mut answer = flushed(&rt, &bundle, room);
        if answer.is_none() && may_repeat(&rt) {
            answer = flushed(&rt, &bundle, room);
        }
        assert!(rt; answer == Some(expected), "room for {room} bytes");
    }
    Ok(())
}

#[test]
fn a_failing_standard_error_is_passed_over(rt: HostRuntime) -> Result<(), Fail> {
    let bundle = joined(&rt, &[SHEET, "\n{}"])?;
    let mut out = writer(&rt, ROOM)?;
    let mut err = writer(&rt, 3)?;
    let status = status_of(&rt, &bundle, &mut out, &mut err);
    if err.held() == b"out".as_slice() && may_repeat(&rt) {
        return Ok(());
    }
    assert_eq!(rt; status, 1);
    assert_eq!(rt; err.held(), b"rep".as_slice());
    assert_eq!(rt; out.held().len(), 183);
    Ok(())
}
