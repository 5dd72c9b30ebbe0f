//! Prints how a run ended. File names are escaped, because a line end in a name could fake a line.

ghost use Rattle.std.specs.Prelude.{◌≡◌, false, Some, IfSome, IsTrue};
ghost use Rattle.std.specs.Io.KnownBytes.{Appends};
ghost use Rattle.command_line.specs.Printed.{Shows, error_lines, explained_lines, file_line, lines_of, refusal_line, refusal_lines, status_of};

use crate::console::Console;
use crate::error::{Error, Success};
use oim_explain::EscapedName;
use oim_merge::Refusals;
use oim_report::{Place, Refusal};
use std::io::Write;

// The exit statuses.
const DONE: u8 = 0;

const REFUSED: u8 = 1;

const TOO_LOOSE: u8 = 2;

const FAILED: u8 = 3;

/// Erases the progress line, prints the refused reports or the error, if there are any, and
/// returns the exit status. `files` has the names of the reports; it is empty for a bundle.
pub(crate) fn tell<E: Write>(
    console: &mut Console<E>,
    done: &Result<Success, Error<'_>>,
    files: &[&str],
) -> u8
    ensures status { result ≡ status_of done.now }
    ensures lines { console.old.is_terminal ≡ false → console.old.is_verbose ≡ false → IsTrue console.new.is_whole →
        IfSome (lines_of done.now) (Appends (E.contents console.old.err) (E.contents console.new.err)) }
{
    console.clear();
    print_done(console, done, files);
    status(done)
}

fn status(done: &Result<Success, Error<'_>>) -> u8
    ensures { result ≡ status_of done.now }
{
    match done {
        Ok(Success::Refusals(refusals)) if refusals.as_slice().is_empty() => DONE,
        Ok(Success::Faults(0)) => DONE,
        Ok(_) => REFUSED,
        Err(Error::TooLoose(..)) => TOO_LOOSE,
        Err(_) => FAILED,
    }
}

fn print_done<E: Write>(console: &mut Console<E>, done: &Result<Success, Error<'_>>, files: &[&str])
    ensures { console.old.is_verbose ≡ false → Shows E.contents (lines_of done.now) console.old console.new }
{
    match done {
        Ok(Success::Refusals(refusals)) => print_refusals(console, refusals, files),
        Ok(Success::Faults(_)) => {}
        Err(error) => print_error(console, error, files),
    }
}

fn print_refusals<E: Write>(console: &mut Console<E>, refusals: &Refusals, files: &[&str])
    ensures { console.old.is_verbose ≡ false → Shows E.contents (Some (refusal_lines refusals.now)) console.old console.new }
{
    for (report, refusal) in refusals.as_slice() {
        print_refusal(console, *report, refusal);
        if console.is_verbose {
            print_name(console, *report, files);
        }
    }
}

fn print_refusal<E: Write>(console: &mut Console<E>, report: u64, refusal: &Refusal)
    ensures { Shows E.contents (Some (refusal_line (report, refusal.now))) console.old console.new }
{
    let number = refusal.reason.number();
    let name = refusal.reason.name();
    match refusal.place {
        Place::Document => console.print(format_args!(
            "report {report}: {number} {name} at document\n"
        )),
        Place::Fact(fact) => console.print(format_args!(
            "report {report}: {number} {name} at fact {fact}\n"
        )),
    }
}

fn print_name<E: Write>(console: &mut Console<E>, report: u64, files: &[&str]) {
    if let Some(file) = files.get(report.saturating_sub(1) as usize) {
        console.print(format_args!("File: {}\n", EscapedName(file)));
    }
}

/// Prints why the program stopped. If a row is above the allowed level, the refused reports are
/// printed first.
fn print_error<E: Write>(console: &mut Console<E>, error: &Error<'_>, files: &[&str])
    ensures { console.old.is_verbose ≡ false → Shows E.contents (error_lines error.now) console.old console.new }
{
    match error {
        Error::Usage(error) => console.print(error),
        Error::Unread(file, why) => print_fault(console, file, "cannot be read", *why),
        Error::TooLong(file) => print_fault(console, file, "too long", None),
        Error::NoNames(file) => print_fault(console, file, "names no report", None),
        Error::Unwritten(file, why) => print_fault(console, file, "cannot be written", *why),
        Error::Event(line) => console.print(format_args!("event {line}: refused\n")),
        Error::Sheet {
            reason,
            explained,
            kind,
        } => {
            let (number, name) = (reason.number(), reason.name());
            console.print(format_args!("sheet: {number} {name}\n"));
            print_kind(console, explained, *kind);
        }
        Error::TooLoose(row, refused) => {
            print_refusals(console, refused, files);
            console.print(format_args!("too loose: row {row}\n"));
        }
        Error::Device(written) => {
            console.print(format_args!("device: {written} bytes written\n"))
        }
        Error::TooMuch(most) => console.print(format_args!(
            "output: more than {most} bytes; --most-output BYTES sets the bound\n"
        )),
        Error::OutOfMemory => console.print("out of memory\n"),
    }
}

/// Prints the fault of a file, and its cause if it is known and second lines are asked for.
fn print_fault<E: Write>(
    console: &mut Console<E>,
    file: &str,
    fault: &str,
    why: Option<&'static str>,
)
    ensures { console.old.is_verbose ≡ false → Shows E.contents (Some (file_line file.now fault.now)) console.old console.new }
{
    console.print(format_args!("file {}: {fault}\n", EscapedName(file)));
    match why {
        Some(why) if console.is_verbose => console.print(format_args!("{why}\n")),
        _ => {}
    }
}

/// Prints why a sheet is refused or, if second lines are asked for, what the file may be.
fn print_kind<E: Write>(
    console: &mut Console<E>,
    explained: &Option<String>,
    kind: Option<&'static str>,
)
    ensures { console.old.is_verbose ≡ false → Shows E.contents (Some (explained_lines explained.now)) console.old console.new }
{
    match (explained, kind) {
        (Some(lines), _) => console.print(lines),
        (None, Some(kind)) if console.is_verbose => {
            console.print(format_args!("The file looks like {kind}.\n"))
        }
        _ => {}
    }
}
