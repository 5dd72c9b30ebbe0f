ghost use Rattle.std.specs.Prelude.{◌≡◌, IfSome, None, map, ⊤};
ghost use Rattle.std.specs.Io.KnownBytes.{Appends};
ghost use Rattle.command_line.specs.Page.{InputEnd, IsPlain, IsPlainRun, IsRun, NamesEnd, TaskEnds, WordsEnd, world};
ghost use Rattle.command_line.specs.Printed.{lines_of, status_of};
ghost use Rattle.command_line.specs.Words.{asked_of, name_texts};

use crate::console::Console;
use crate::disk::{Disk, System};
use crate::ending::tell;
use crate::error::{Error, Success};
use crate::folder::Folder;
use crate::inputs::Inputs;
use crate::output::write;
use crate::request::Args;
use crate::words::read_words;
use std::alloc::Global;
use std::convert::AsStr;
use std::io::{Read, Write};
use std::rt::Files;

/// The standard streams, and whether standard input and standard error are terminals.
#[derive(Drop)]
pub struct Streams<R, O, E> {
    pub input: R,
    pub out: O,
    pub err: E,
    pub is_input_terminal: bool,
    pub is_err_terminal: bool,
}

/// The exit status, and the streams after the run.
#[derive(Drop)]
pub struct Ran<O, E> {
    pub status: u8,
    pub out: O,
    console: Console<E>,
}

/// Runs the program with the arguments after its name. Without arguments, it merges the bundle on
/// standard input. On standard error it prints a line for each refusal (`explain` prints none), or
/// why it stopped; if a row is above the allowed level, it prints both. If standard input is a
/// terminal and there are no arguments, it prints that a bundle is expected. With `--verbose`, or if
/// standard error is a terminal, a second line has the file of a refused report, or why a file
/// failed, if the cause is known. If standard error is a terminal and `--quiet` is not given,
/// commands for several reports also show how many reports were read. Returns the highest exit
/// status that applies: 0 by default; 1 if a report was refused or `explain` found a fault; 2 if a
/// row is above the allowed level; 3 if the program stopped for another reason.
pub fn run<F, W, R, O, E>(
    alloc: Global,
    files: &F,
    words: &[W],
    streams: Streams<R, O, E>,
) -> Ran<O, E>
where
    F: Files,
    W: AsStr,
    R: Read + Drop,
    O: Write + Drop,
    E: Write + Drop,
    ensures { let texts = map W.text words.entry.now in
        let ends = WordsEnd None (λ name. ⊤) (world (O.contents streams.out) (λ name. None)) (world (O.contents result.out) (λ name. None)) (λ name bytes. ⊤) (λ name. ⊤) in
        IsRun (ends (R.remaining streams.input) texts) (IsPlainRun texts streams.is_input_terminal streams.is_err_terminal result.console.is_whole) (E.contents streams.err) (E.contents result.console.err) result.status }
{
    run_words(alloc, files, &mut System(files), words, streams)
}

// The work is split into five functions. Each owns few values and borrows the rest, so some have
// many parameters. One function that owns all values would be slow to prove, because each value may
// be alive at each exit.

/// Does the same as `run`, but reads the files of `folder`, and `--output` writes to `disk`.
///
/// Errors: none. The status and standard error show why a run stopped, as for `run`.
pub fn run_words<F: Folder, D: Disk, W: AsStr, R: Read + Drop, O: Write + Drop, E: Write + Drop>(
    alloc: Global,
    folder: &F,
    disk: &mut D,
    words: &[W],
    streams: Streams<R, O, E>,
) -> Ran<O, E>
    ensures { let texts = map W.text words.entry.now in
        let ends = WordsEnd (D.empty disk.old) (D.free disk.old) (world (O.contents streams.out) (D.file disk.old)) (world (O.contents result.out) (D.file disk.new)) (F.gives folder.now) (F.fails folder.now) in
        IsRun (ends (R.remaining streams.input) texts) (IsPlainRun texts streams.is_input_terminal streams.is_err_terminal result.console.is_whole) (E.contents streams.err) (E.contents result.console.err) result.status }
{
    let (input, out) = (streams.input, streams.out);
    let mut console = Console::new(streams.err, streams.is_err_terminal);
    console.tell_awaited(words.is_empty(), streams.is_input_terminal);
    match read_words(alloc, words) {
        Ok(args) => {
            console.is_quiet = args.is_quiet;
            console.is_verbose |= args.is_verbose;
            run_args(alloc, folder, disk, &args, input, out, console)
        }
        Err(error) => ended(&Err(error), &[], out, console),
    }
}

/// Prints how the run ended.
fn ended<O, E: Write>(
    done: &Result<Success, Error<'_>>,
    names: &[&str],
    out: O,
    mut console: Console<E>,
) -> Ran<O, E>
    ensures out { result.out ≡ out }
    ensures status { result.status ≡ status_of done.now }
    ensures lines { IsPlain console.is_terminal console.is_verbose result.console.is_whole → IfSome (lines_of done.now) (Appends (E.contents console.err) (E.contents result.console.err)) }
{
    Ran {
        status: tell(&mut console, done, names),
        out,
        console,
    }
}

// The streams are separate parameters, because each step consumes another one.
fn run_args<F: Folder, D: Disk, R: Read + Drop, O: Write + Drop, E: Write + Drop>(
    alloc: Global,
    folder: &F,
    disk: &mut D,
    args: &Args<'_>,
    input: R,
    out: O,
    console: Console<E>,
) -> Ran<O, E>
    ensures { let ends = InputEnd (D.empty disk.old) (D.free disk.old) (world (O.contents out) (D.file disk.old)) (world (O.contents result.out) (D.file disk.new)) (F.gives folder.now) (F.fails folder.now) in
        IsRun (ends (R.remaining input) (asked_of args.now)) (IsPlain console.is_terminal console.is_verbose result.console.is_whole) (E.contents console.err) (E.contents result.console.err) result.status }
{
    match args.read_input(alloc, folder, input) {
        Ok(bytes) => run_named(alloc, folder, disk, args, bytes.as_bytes(), out, console),
        Err(error) => ended(&Err(error), &[], out, console),
    }
}

// `bytes` outlives the inputs, which borrow the names of the reports from it.
fn run_named<'n, F: Folder, D: Disk, O: Write + Drop, E: Write + Drop>(
    alloc: Global,
    folder: &'n F,
    disk: &mut D,
    args: &'n Args<'n>,
    bytes: &'n [u8],
    out: O,
    console: Console<E>,
) -> Ran<O, E>
    ensures { let ends = NamesEnd (D.empty disk.old) (D.free disk.old) (world (O.contents out) (D.file disk.old)) (world (O.contents result.out) (D.file disk.new)) (F.gives folder.now) (F.fails folder.now) in
        IsRun (ends (asked_of args.now) bytes.now) (IsPlain console.is_terminal console.is_verbose result.console.is_whole) (E.contents console.err) (E.contents result.console.err) result.status }
{
    match args.names(alloc, bytes) {
        Ok(names) => {
            let output_per_byte = args.output_per_byte();
            let inputs = Inputs {
                alloc,
                files: folder,
                bundle: bytes,
                names: names.as_slice(),
                output_per_byte,
                allowance: (bytes.len() as u64).saturating_mul(output_per_byte),
                reports_read: 0,
                bytes: 0,
                console,
            };
            run_request(args, inputs, disk, out)
        }
        Err(error) => ended(&Err(error), &[], out, console),
    }
}

/// Runs the request, writes its output, and prints how it ended.
fn run_request<'n, F: Folder, D: Disk, O: Write + Drop, E: Write + Drop>(
    args: &Args<'n>,
    mut inputs: Inputs<'n, F, E>,
    disk: &mut D,
    out: O,
) -> Ran<O, E>
    ensures { let ends = TaskEnds (D.empty disk.old) (D.free disk.old) (world (O.contents out) (D.file disk.old)) (world (O.contents result.out) (D.file disk.new)) (F.gives inputs.entry.files.now) (F.fails inputs.entry.files.now) in
        IsRun (ends (asked_of args.now) inputs.entry.bundle.now (name_texts inputs.entry.names.now))
        (IsPlain inputs.entry.console.is_terminal inputs.entry.console.is_verbose result.console.is_whole) (E.contents inputs.entry.console.err) (E.contents result.console.err) result.status }
{
    let names = inputs.names;
    let (done, out) = write(args, &mut inputs, disk, out);
    ended(&done, names, out, inputs.console)
}
