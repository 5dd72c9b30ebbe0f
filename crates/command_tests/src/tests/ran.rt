use command_line::{Streams, run};
use std::alloc::AllocError;
use std::io::{Read, Write};
use test_helpers::asked_again::{may_repeat, may_repeat_here};
use test_helpers::devices::{Step, TestReader, Then};
use test_helpers::expecting::{Either, Expecting};

// Runs the program on arguments. If memory is refused, the program must report the refusal; the
// test then runs the program again.

/// No arguments, for a bundle on standard input.
pub(crate) const NO_WORDS: &[&str] = &[];

const MOST_WORDS: usize = 16;

/// Where the program finds its files.
pub(crate) trait Place {
    /// Runs the program, and returns its status.
    fn run<R: Read + Drop, O: Write + Drop, E: Write + Drop>(
        &mut self,
        rt: &HostRuntime,
        words: &[&str],
        streams: Streams<R, O, E>,
    ) -> u8;
}

/// The files of the system.
#[derive(Clone, Copy)]
pub(crate) struct Real;

impl Place for Real {
    fn run<R: Read + Drop, O: Write + Drop, E: Write + Drop>(
        &mut self,
        rt: &HostRuntime,
        words: &[&str],
        streams: Streams<R, O, E>,
    ) -> u8 {
        run(rt.alloc(), rt, words, streams).status
    }
}

pub(crate) fn piped<R, O, E>(input: R, out: O, err: E) -> Streams<R, O, E> {
    Streams {
        input,
        out,
        err,
        is_input_terminal: false,
        is_err_terminal: false,
    }
}

/// Splits a line into arguments at each space.
pub(crate) fn words_of<'t>(rt: &HostRuntime, line: &'t str) -> Result<Vec<&'t str>, AllocError> {
    let mut words = match Vec::with_capacity(rt.alloc(), MOST_WORDS) {
        Err(_) if may_repeat_here(rt) => Vec::with_capacity(rt.alloc(), MOST_WORDS)?,
        made => made?,
    };
    for word in line.split(' ') {
        words.push(word)?;
    }
    Ok(words)
}

/// Returns whether the program, with a standard input that fails, ends with this status and prints
/// these texts. If not, prints the status and the numbers of missing bytes.
pub(crate) fn ends<P: Place>(
    rt: &HostRuntime,
    place: &mut P,
    words: &[&str],
    status: u8,
    out: Expecting<'_>,
    err: Expecting<'_>,
) -> bool {
    match ends_once(rt, place, words, status, out, err) {
        None if may_repeat(rt) => ends_once(rt, place, words, status, out, err) == Some(true),
        same => same == Some(true),
    }
}

/// Does the same as `ends`, but returns None if memory was refused.
fn ends_once<P: Place>(
    rt: &HostRuntime,
    place: &mut P,
    words: &[&str],
    status: u8,
    mut out: Expecting<'_>,
    err: Expecting<'_>,
) -> Option<bool> {
    let (ended, heard) = heard(rt, place, words, &mut out, err);
    if ended == 3 && heard.1.is_met() {
        return None;
    }
    let same = ended == status && out.is_met() && heard.0.is_met();
    if !same {
        let (of_out, of_err) = (out.left(), heard.0.left());
        let _ = eprintln!(rt;
            "{words:?}: status {ended}, still expected {of_out} and {of_err} bytes"
        );
    }
    Some(same)
}

/// Returns whether the program, with this standard output, ends with status 3 and prints only this
/// line on standard error.
pub(crate) fn stops<P: Place, O: Write + Copy + Drop>(
    rt: &HostRuntime,
    place: &mut P,
    words: &[&str],
    out: O,
    line: &str,
) -> bool {
    match stops_once(rt, place, words, out, line) {
        None if may_repeat(rt) => stops_once(rt, place, words, out, line) == Some(true),
        same => same == Some(true),
    }
}

/// Does the same as `stops`, but returns None if memory was refused.
fn stops_once<P: Place, O: Write + Drop>(
    rt: &HostRuntime,
    place: &mut P,
    words: &[&str],
    out: O,
    line: &str,
) -> Option<bool> {
    let (ended, heard) = heard(rt, place, words, out, Expecting::just(line.as_bytes()));
    if ended == 3 && heard.1.is_met() {
        return None;
    }
    let same = ended == 3 && heard.0.is_met();
    if !same {
        let left = heard.0.left();
        let _ = eprintln!(rt; "{words:?}: status {ended}, still expected {left} bytes");
    }
    Some(same)
}

/// Runs the program with a standard input that fails. Returns the status, and standard error as
/// compared with the expected text and with the line for refused memory.
fn heard<'a, P: Place, O: Write + Drop>(
    rt: &HostRuntime,
    place: &mut P,
    words: &[&str],
    out: O,
    err: Expecting<'a>,
) -> (u8, Either<'a>) {
    let mut heard = Either(err, Expecting::just(b"out of memory\n"));
    let input = TestReader::new(b"", Step::All, Then::Fails);
    let status = place.run(rt, words, piped(input, out, &mut heard));
    (status, heard)
}
