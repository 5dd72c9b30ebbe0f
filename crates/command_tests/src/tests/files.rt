mod explained;
mod made;
mod replayed;
mod rows;

use crate::tests::memory::Memory;
use crate::tests::ran::{Place, Real, ends, piped, stops, words_of};
use explained::{EXPLAINED, SAID};
use made::{made, made_real, removed};
use replayed::REPLAYED;
use rows::{
    BOUNDED, CHECKED, FULL, Full, JUDGED, LISTED, MERGED, ONE, Row, SHOWN, STOPPED, UNFLUSHED,
    UNHEARD, VERBOSE, WRITTEN,
};
use std::fs;
use std::test::Fail;
use test_helpers::asked_again::{joined, may_repeat, may_repeat_here};
use test_helpers::devices::{FullAfter, NeverFlushed, Step, TestReader, Then};
use test_helpers::expecting::Expecting;

// The program is run again after a refused request for memory.

fn are_met<P: Place>(rt: &HostRuntime, place: &mut P, rows: &[Row]) -> Result<bool, Fail> {
    let mut all = true;
    for (line, status, out, err) in rows {
        let words = words_of(rt, line)?;
        let text = joined(rt, out)?;
        let err = Expecting::just(err.as_bytes());
        all = ends(rt, place, &words, *status, Expecting::just(&text), err) && all;
    }
    Ok(all)
}

fn stop_when_full(rt: &HostRuntime, memory: &mut Memory, rows: &[Full]) -> Result<bool, Fail> {
    let mut all = true;
    for (line, room, err) in rows {
        let words = words_of(rt, line)?;
        all = stops(rt, memory, &words, FullAfter::new(*room), err) && all;
    }
    Ok(all)
}

fn stop_unflushed(
    rt: &HostRuntime,
    memory: &mut Memory,
    rows: &[(&str, &str)],
) -> Result<bool, Fail> {
    let mut all = true;
    for (line, err) in rows {
        let words = words_of(rt, line)?;
        all = stops(rt, memory, &words, NeverFlushed, err) && all;
    }
    Ok(all)
}

/// Returns whether the program ends with this status and this standard output when standard error
/// takes only three bytes.
fn ends_unheard(
    rt: &HostRuntime,
    memory: &mut Memory,
    words: &[&str],
    status: u8,
    out: &[u8],
) -> bool {
    let input = TestReader::new(b"", Step::All, Then::Fails);
    let mut out = Expecting::just(out);
    let ended = memory.run(rt, words, piped(input, &mut out, FullAfter::new(3)));
    ended == status && out.is_met()
}

fn are_unheard(rt: &HostRuntime, memory: &mut Memory, rows: &[Row]) -> Result<bool, Fail> {
    let mut all = true;
    for (line, status, out, _) in rows {
        let words = words_of(rt, line)?;
        let text = joined(rt, out)?;
        all = (ends_unheard(rt, memory, &words, *status, &text)
            || may_repeat(rt) && ends_unheard(rt, memory, &words, *status, &text))
            && all;
    }
    Ok(all)
}

/// Reads the file again after a failure, because memory may have been refused once.
fn content(rt: &HostRuntime, name: &str) -> Result<Vec<u8>, Fail> {
    match fs::read(rt, name) {
        Err(_) if may_repeat_here(rt) => Ok(fs::read(rt, name)?),
        held => Ok(held?),
    }
}

fn holds(rt: &HostRuntime, memory: &Memory, name: &str, parts: &[&str]) -> Result<bool, Fail> {
    let text = joined(rt, parts)?;
    Ok(memory.bytes(name) == Some(text.as_slice()))
}

/// Returns whether the program ends with status 0 and prints exactly this on standard error, which
/// is a terminal.
fn shows_once(rt: &HostRuntime, memory: &mut Memory, words: &[&str], shown: &str) -> bool {
    let mut err = Expecting::just(shown.as_bytes());
    let mut streams = piped(
        TestReader::new(b"", Step::All, Then::Fails),
        FullAfter::new(1_000),
        &mut err,
    );
    streams.is_err_terminal = true;
    let status = memory.run(rt, words, streams);
    status == 0 && err.is_met()
}

fn show(rt: &HostRuntime, memory: &mut Memory, rows: &[(&str, &str)]) -> Result<bool, Fail> {
    let mut all = true;
    for (line, shown) in rows {
        let words = words_of(rt, line)?;
        all = (shows_once(rt, memory, &words, shown)
            || may_repeat(rt) && shows_once(rt, memory, &words, shown))
            && all;
    }
    Ok(all)
}

#[test]
fn files_are_merged(rt: HostRuntime) -> Result<(), Fail> {
    assert!(rt; are_met(&rt, &mut made(&rt)?, MERGED.as_slice())?);
    Ok(())
}

#[test]
fn files_are_judged(rt: HostRuntime) -> Result<(), Fail> {
    let mut memory = made(&rt)?;
    assert!(rt; are_met(&rt, &mut memory, JUDGED.as_slice())?);
    assert!(rt; show(&rt, &mut memory, SHOWN.as_slice())?);
    Ok(())
}

#[test]
fn files_are_checked_and_listed(rt: HostRuntime) -> Result<(), Fail> {
    let mut memory = made(&rt)?;
    assert!(rt; are_met(&rt, &mut memory, CHECKED.as_slice())?);
    assert!(rt; are_met(&rt, &mut memory, LISTED.as_slice())?);
    assert!(rt; are_met(&rt, &mut memory, VERBOSE.as_slice())?);
    Ok(())
}

#[test]
fn files_are_explained(rt: HostRuntime) -> Result<(), Fail> {
    let mut memory = made(&rt)?;
    assert!(rt; are_met(&rt, &mut memory, EXPLAINED.as_slice())?);
    assert!(rt; holds(&rt, &memory, "said", SAID)?);
    assert!(rt; stop_when_full(&rt, &mut memory, explained::FULL.as_slice())?);
    Ok(())
}

#[test]
fn files_are_replayed(rt: HostRuntime) -> Result<(), Fail> {
    let mut memory = made(&rt)?;
    assert!(rt; are_met(&rt, &mut memory, REPLAYED.as_slice())?);
    assert!(rt; are_met(&rt, &mut memory, replayed::STOPPED.as_slice())?);
    Ok(())
}

#[test]
fn files_are_written(rt: HostRuntime) -> Result<(), Fail> {
    let mut memory = made(&rt)?;
    assert!(rt; are_met(&rt, &mut memory, WRITTEN.as_slice())?);
    assert!(rt; are_met(&rt, &mut memory, BOUNDED.as_slice())?);
    assert!(rt; holds(&rt, &memory, "out", ONE)?);
    assert!(rt; are_met(&rt, &mut memory, STOPPED.as_slice())?);
    Ok(())
}

#[test]
fn failing_streams_are_told(rt: HostRuntime) -> Result<(), Fail> {
    let mut memory = made(&rt)?;
    assert!(rt; stop_when_full(&rt, &mut memory, FULL.as_slice())?);
    assert!(rt; stop_unflushed(&rt, &mut memory, UNFLUSHED.as_slice())?);
    assert!(rt; are_unheard(&rt, &mut memory, UNHEARD.as_slice())?);
    Ok(())
}

#[test]
fn failing_streams_of_a_replay_are_told(rt: HostRuntime) -> Result<(), Fail> {
    let mut memory = made(&rt)?;
    assert!(rt; stop_when_full(&rt, &mut memory, replayed::FULL.as_slice())?);
    assert!(rt; stop_unflushed(&rt, &mut memory, replayed::UNFLUSHED.as_slice())?);
    assert!(rt; are_unheard(&rt, &mut memory, replayed::UNHEARD.as_slice())?);
    Ok(())
}

/// A second line has the cause of a failed read or write.
const CAUSES: [Row; 5] = [
    (
        "merge --sheet sheet --verbose 100 none",
        3,
        &[],
        "file none: cannot be read\nThere is no such file.\n",
    ),
    (
        "check --sheet sheet --verbose -",
        3,
        &[],
        "file -: cannot be read\nThere is no such file; for standard input, use /dev/stdin.\n",
    ),
    (
        "merge --sheet https://example.org/sheet.json --verbose",
        3,
        &[],
        "file https://example.org/sheet.json: cannot be read\nURLs are not downloaded.\n",
    ),
    (
        "merge --sheet sheet --verbose -o .",
        3,
        &[],
        "file .: cannot be written\nIt is a folder.\n",
    ),
    (
        "merge --sheet sheet --verbose -o none/out",
        3,
        &[],
        "file none/out: cannot be written\nThere is no such folder.\n",
    ),
];

#[test]
fn real_files_are_read_and_written(rt: HostRuntime) -> Result<(), Fail> {
    made_real(&rt, "out/real")?;
    assert!(rt; are_met(&rt, &mut Real, CAUSES.as_slice())?);
    assert!(rt; are_met(&rt, &mut Real, WRITTEN.as_slice())?);
    let text = joined(&rt, ONE)?;
    assert!(rt; content(&rt, "out")?.as_slice() == text.as_slice());
    removed(&rt, "out/real")
}
