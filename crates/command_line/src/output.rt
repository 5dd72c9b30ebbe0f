ghost use Rattle.std.specs.Prelude.{◌≡◌, ◌≢◌, ℕ, List, false, true, None, Ok, Some, IfOk, MatchResult};
ghost use Rattle.std.specs.Io.KnownBytes.{Keeps};
ghost use Rattle.std.specs.List.{list_any};
ghost use Rattle.command_line.specs.Endings.{Prints};
ghost use Rattle.command_line.specs.Faults.{IsDoneOrFault, IsDoneOrUnwritten};
ghost use Rattle.command_line.specs.Page.{EndsWith, IsPlaced, SparesOthers, TaskEnds, world};
ghost use Rattle.command_line.specs.Refused.{SparesRefused, is_of, refuses};
ghost use Rattle.command_line.specs.Words.{asked_of, name_texts, task_of};

use crate::commands::execute;
use crate::disk::{Disk, Named};
use crate::error::{Error, Success};
use crate::folder::Folder;
use crate::inputs::Inputs;
use crate::request::Args;
use oim_report::Refusal;
use oim_write::{BoundedSink, StdSink};
use std::io::Write;

/// Runs the request and writes its output to the file that the arguments name, or to standard output,
/// which is returned.
pub(crate) fn write<'n, F: Folder, D: Disk, E: Write, O: Write + Drop>(
    args: &Args<'n>,
    inputs: &mut Inputs<'n, F, E>,
    disk: &mut D,
    out: O,
) -> (Result<Success, Error<'n>>, O)
    ensures ends { (part : List ℕ) × TaskEnds (D.empty disk.old) (D.free disk.old) (world (O.contents out) (D.file disk.old)) (world (O.contents result.1) (D.file disk.new))
        (F.gives inputs.old.files.now) (F.fails inputs.old.files.now) (asked_of args.now) inputs.old.bundle.now (name_texts inputs.old.names.now) part result.0 }
    ensures console { inputs.old.console.is_terminal ≡ false → inputs.new.console ≡ inputs.old.console }
{
    match args.output {
        Some(name) => (write_file(args, inputs, disk, name), out),
        None => write_out(args, inputs, out),
    }
}

/// Runs the request and writes its output to standard output, which is returned. If standard output
/// fails, the error contains the number of bytes that standard output took in this run.
fn write_out<'n, F: Folder, E: Write, O: Write + Drop>(
    args: &Args<'n>,
    inputs: &mut Inputs<'n, F, E>,
    out: O,
) -> (Result<Success, Error<'n>>, O)
    ensures ends { Prints (EndsWith (F.gives inputs.old.files.now) (F.fails inputs.old.files.now) inputs.old.bundle.now (name_texts inputs.old.names.now) None (task_of args.now.request))
        (O.contents out) (O.contents result.1) result.0 }
    ensures console { inputs.old.console.is_terminal ≡ false → inputs.new.console ≡ inputs.old.console }
{
    let mut sink = BoundedSink::new(StdSink::new(out), args.first_bound());
    let done = execute(&args.request, inputs, &mut sink);
    let is_too_much = sink.overruns() > 0;
    let sink = sink.into_inner();
    let written = sink.taken();
    flushed(
        stopped_by(done, is_too_much, written),
        written,
        sink.into_inner(),
    )
}

/// Flushes standard output if the command ran to its end, a row was above the allowed level, or the
/// output was too long. If standard output failed, now or before, the error gets `written`, the
/// number of bytes that standard output took in this run.
fn flushed<'n, O: Write>(
    done: Result<Success, Error<'n>>,
    written: u64,
    mut out: O,
) -> (Result<Success, Error<'n>>, O)
    ensures done { IsDoneOrFault done.entry result.0 }
    ensures out { Keeps (O.contents out) (O.contents result.1) }
{
    match done {
        Err(Error::Device(_)) => (Err(Error::Device(written)), out),
        done @ (Ok(_) | Err(Error::TooLoose(..) | Error::TooMuch(_))) => match out.flush() {
            Ok(()) => (done, out),
            Err(_) => (Err(Error::Device(written)), out),
        },
        done => (done, out),
    }
}

/// Distinguishes an output that is longer than the bound from a failed device.
fn stopped_by<'n>(
    done: Result<Success, Error<'n>>,
    is_too_much: bool,
    written: u64,
) -> Result<Success, Error<'n>>
    ensures { IsDoneOrFault done.entry result }
{
    match done {
        Err(Error::Device(_)) if is_too_much => Err(Error::TooMuch(written)),
        done => done,
    }
}

/// Runs the request and writes its output to the file with this name, completely or not at all.
fn write_file<'n, F: Folder, D: Disk, E: Write>(
    args: &Args<'n>,
    inputs: &mut Inputs<'n, F, E>,
    disk: &mut D,
    name: &'n str,
) -> Result<Success, Error<'n>>
    ensures ends { (part : List ℕ) × EndsWith (F.gives inputs.old.files.now) (F.fails inputs.old.files.now) inputs.old.bundle.now (name_texts inputs.old.names.now)
        (Some name.now) (task_of args.now.request) part result
        × IsPlaced (D.empty disk.old) (D.free disk.old) (world None (D.file disk.old)) (world None (D.file disk.new)) name.now part result }
    ensures others { SparesOthers (D.empty disk.old) (D.free disk.old) (world None (D.file disk.old)) (world None (D.file disk.new)) name.now }
    ensures console { inputs.old.console.is_terminal ≡ false → inputs.new.console ≡ inputs.old.console }
{
    let Named { name: beside, file } = disk.create_beside(inputs.alloc, name)?;
    let mut sink = BoundedSink::new(StdSink::new(file), args.first_bound());
    let done = execute(&args.request, inputs, &mut sink);
    let is_too_much = sink.overruns() > 0;
    let sink = sink.into_inner();
    let done = stopped_by(done, is_too_much, sink.taken());
    let target = Target {
        reports: inputs.names,
        beside: beside.as_str(),
        name,
    };
    let done = settle(disk, target, done, sink.into_inner());
    if done.is_err() {
        disk.remove(beside.as_str());
    }
    done
}

/// Where the new file goes.
#[derive(Clone, Copy)]
struct Target<'a, 'n> {
    /// The reports of the run. A refused one is not replaced.
    reports: &'a [&'a str],
    /// The name of the new file until it is put in place.
    beside: &'a str,
    name: &'n str,
}

/// Why a refused report is not replaced.
const IS_REFUSED: &str = "It is a refused report; use another name for the output.";

/// Puts the new file in place after a success. A failed write of it is returned as `Unwritten`, and
/// so is a refused report with this name, since the output would replace it.
fn settle<'n, D: Disk>(
    disk: &mut D,
    target: Target<'_, 'n>,
    done: Result<Success, Error<'n>>,
    file: D::New,
) -> Result<Success, Error<'n>>
    ensures done { IsDoneOrUnwritten target.entry.name.now done.entry result }
    ensures others { (other : List ℕ) → other ≢ target.entry.name.now → other ≢ target.entry.beside.now → D.file disk.new other ≡ D.file disk.old other }
    ensures placed { MatchResult result (λ success. Keeps (D.New.contents file) (D.file disk.new target.entry.name.now)) (λ error. D.file disk.new target.entry.name.now ≡ D.file disk.old target.entry.name.now) }
    ensures spares { IfOk result (SparesRefused target.entry.reports.now target.entry.name.now) }
{
    match done {
        Err(Error::Device(_)) => Err(Error::Unwritten(target.name, None)),
        Ok(success) => place(disk, target, success, file),
        stopped => stopped,
    }
}

/// Puts the new file in place, but not in the place of a refused report.
fn place<'n, D: Disk>(
    disk: &mut D,
    target: Target<'_, 'n>,
    success: Success,
    file: D::New,
) -> Result<Success, Error<'n>>
    ensures done { IsDoneOrUnwritten target.entry.name.now (Ok success) result }
    ensures others { (other : List ℕ) → other ≢ target.entry.name.now → other ≢ target.entry.beside.now → D.file disk.new other ≡ D.file disk.old other }
    ensures placed { MatchResult result (λ success. Keeps (D.New.contents file) (D.file disk.new target.entry.name.now)) (λ error. D.file disk.new target.entry.name.now ≡ D.file disk.old target.entry.name.now) }
    ensures spares { IfOk result (SparesRefused target.entry.reports.now target.entry.name.now) }
{
    if is_refused(disk, target.reports, &success, target.name) {
        return Err(Error::Unwritten(target.name, Some(IS_REFUSED)));
    }
    match disk.put_in_place(file, target.beside, target.name) {
        Ok(()) => Ok(success),
        Err(_) => Err(Error::Unwritten(target.name, None)),
    }
}

/// Returns whether the file with this name is a report that was refused in the run.
fn is_refused<D: Disk>(disk: &D, reports: &[&str], success: &Success, name: &str) -> bool
    ensures { result ≡ false → SparesRefused reports.now name.now success.now }
{
    for index in 0..reports.len() {
        let number = (index as u64).saturating_add(1);
        if disk.is_same(reports[index], name) && refuses(success, number) {
            return true;
        }
    }
    false
}

/// `explain` returns only how many faults there are, so after a fault each report counts as refused.
fn refuses(success: &Success, number: u64) -> bool
    ensures { result ≡ refuses success.now number }
{
    match success {
        Success::Refusals(refusals) => is_listed(refusals.as_slice(), number),
        Success::Faults(faults) => *faults > 0,
    }
}

fn is_listed(refusals: &[(u64, Refusal)], number: u64) -> bool
    ensures { result ≡ list_any (is_of number) refusals.now }
{
    for (report, _) in refusals {
        if *report == number {
            return true;
        }
    }
    false
}
