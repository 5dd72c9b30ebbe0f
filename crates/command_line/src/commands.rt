//! Runs the commands. The files of the folder `commands` have their help and their own parts.

ghost use Rattle.std.specs.Prelude.{◌≡◌, ◌-◌, ◌^◌, ◌<◌, false, None, OnOk};
ghost use Rattle.oim_write.specs.BoundedSink.{bounded_failures};
ghost use Rattle.command_line.specs.Endings.{Prints, Puts, PutsText};
ghost use Rattle.command_line.specs.Faults.{IsOutputError};
ghost use Rattle.command_line.specs.Page.{CommandEnds, EndsWith, Helps};
ghost use Rattle.command_line.specs.Words.{merge, name_texts, sources, task_of, verdicts, work_of};

pub(crate) mod check;
pub(crate) mod explain;
pub(crate) mod merge;
pub(crate) mod replay;
pub(crate) mod rows;

use crate::error::{Error, Success};
use crate::folder::Folder;
use crate::inputs::Inputs;
use crate::print_format::PrintFormat;
use crate::request::{Request, Subcommand};
use oim_merge::{Merged, Refusals, consolidate_bundle, write_within};
use oim_report::Sheet;
use oim_value::Level;
use oim_write::{BoundedSink, Sink, put_all};
use std::alloc::Global;
use std::io::Write;
use std::mem;

/// Runs the request and writes its output to `out`. After an error, the output may be incomplete.
pub(crate) fn execute<'n, F: Folder, E: Write, S: Sink>(
    request: &Request<'n>,
    inputs: &mut Inputs<'n, F, E>,
    out: &mut BoundedSink<S>,
) -> Result<Success, Error<'n>>
    requires { bounded_failures (S.failures out.old.sink) out.old.overruns < 2 ^ 64 - 1 }
    ensures ends { Prints (EndsWith (F.gives inputs.old.files.now) (F.fails inputs.old.files.now) inputs.old.bundle.now (name_texts inputs.old.names.now) None (task_of request.now))
        (S.told out.old.sink) (S.told out.new.sink) result }
    ensures console { inputs.old.console.is_terminal ≡ false → inputs.new.console ≡ inputs.old.console }
{
    match request {
        Request::Bundle => {
            Ok(Success::Refusals(consolidate_bundle(inputs.alloc, inputs.bundle, out)?))
        }
        Request::Help(text) => Ok(Success::Refusals(put_help(inputs.alloc, text, out)?)),
        Request::Explain(sheet, format) => explain::run(sheet, *format, inputs, out),
        Request::Under(sheet, subcommand) => {
            let sheet = inputs.read_sheet(sheet)?;
            Ok(Success::Refusals(execute_under(&sheet, *subcommand, inputs, out)?))
        }
    }
}

fn put_help<'n, S: Sink>(
    alloc: Global,
    text: &clap::Error,
    out: &mut S,
) -> Result<Refusals, Error<'n>>
    requires { S.failures out.old < 2 ^ 64 - 1 }
    ensures { Prints (Puts Helps IsOutputError) (S.told out.old) (S.told out.new) result }
{
    let text = format!(in alloc; "{text}")?;
    put_text(out, text.as_str())?;
    Ok(Refusals::new(alloc))
}

/// Reads the reports and writes the output of the subcommand to `out`. Returns the refusals (for
/// `replay`, of takes) with the numbers of their reports, from 1.
fn execute_under<'n, F: Folder, E: Write, S: Sink>(
    sheet: &Sheet,
    subcommand: Subcommand<'n>,
    inputs: &mut Inputs<'n, F, E>,
    out: &mut BoundedSink<S>,
) -> Result<Refusals, Error<'n>>
    requires { bounded_failures (S.failures out.old.sink) out.old.overruns < 2 ^ 64 - 1 }
    ensures ends { Prints (CommandEnds (F.gives inputs.old.files.now) (F.fails inputs.old.files.now) (name_texts inputs.old.names.now) sheet.now (work_of subcommand.entry)) (S.told out.old.sink) (S.told out.new.sink) result }
    ensures console { inputs.old.console.is_terminal ≡ false → inputs.new.console ≡ inputs.old.console }
{
    match subcommand {
        Subcommand::Merge(allow) => run_merge(allow, sheet, inputs, out),
        Subcommand::Verdicts(format) => run_verdicts(format, sheet, inputs, out),
        Subcommand::Sources(format) => run_sources(format, sheet, inputs, out),
        Subcommand::Check(format) => check::run(format, sheet, inputs, out),
        Subcommand::Replay(replicas, events) => replay::run(replicas, events, sheet, inputs, out),
    }
}

/// Reads the reports, in order, and writes the merge of the accepted ones to `out`.
fn run_merge<'n, F: Folder, E: Write, S: Sink>(
    allow: Level,
    sheet: &Sheet,
    inputs: &mut Inputs<'n, F, E>,
    out: &mut S,
) -> Result<Refusals, Error<'n>>
    requires { S.failures out.old < 2 ^ 64 - 1 }
    ensures ends { Prints (CommandEnds (F.gives inputs.old.files.now) (F.fails inputs.old.files.now) (name_texts inputs.old.names.now) sheet.now (merge allow)) (S.told out.old) (S.told out.new) result }
    ensures console { inputs.old.console.is_terminal ≡ false → inputs.new.console ≡ inputs.old.console }
{
    let Merged { base, refusals } = inputs.consolidate(sheet)?.into_merged()?;
    let written = write_within(inputs.alloc, &base, refusals, allow, out);
    // The program ends after its command, so freeing the facts would only take time.
    mem::forget(base);
    Ok(written?)
}

/// Reads the reports, in order, and writes the verdicts on the facts of the accepted ones to `out`.
fn run_verdicts<'n, F: Folder, E: Write, S: Sink>(
    format: PrintFormat,
    sheet: &Sheet,
    inputs: &mut Inputs<'n, F, E>,
    out: &mut BoundedSink<S>,
) -> Result<Refusals, Error<'n>>
    requires { bounded_failures (S.failures out.old.sink) out.old.overruns < 2 ^ 64 - 1 }
    ensures ends { Prints (CommandEnds (F.gives inputs.old.files.now) (F.fails inputs.old.files.now) (name_texts inputs.old.names.now) sheet.now (verdicts format)) (S.told out.old.sink) (S.told out.new.sink) result }
    ensures console { inputs.old.console.is_terminal ≡ false → inputs.new.console ≡ inputs.old.console }
{
    let consolidation = inputs.consolidate(sheet)?;
    out.raise(inputs.take_allowance());
    rows::put_verdicts(inputs.alloc, consolidation, format, out)
}

/// Reads the reports, in order, and writes the sources of the facts of the accepted ones to `out`.
fn run_sources<'n, F: Folder, E: Write, S: Sink>(
    format: PrintFormat,
    sheet: &Sheet,
    inputs: &mut Inputs<'n, F, E>,
    out: &mut BoundedSink<S>,
) -> Result<Refusals, Error<'n>>
    requires { bounded_failures (S.failures out.old.sink) out.old.overruns < 2 ^ 64 - 1 }
    ensures ends { Prints (CommandEnds (F.gives inputs.old.files.now) (F.fails inputs.old.files.now) (name_texts inputs.old.names.now) sheet.now (sources format)) (S.told out.old.sink) (S.told out.new.sink) result }
    ensures console { inputs.old.console.is_terminal ≡ false → inputs.new.console ≡ inputs.old.console }
{
    let names = inputs.names;
    let merge = inputs.trace(sheet)?;
    out.raise(inputs.take_allowance());
    rows::put_sources(merge, format, names, out)
}

fn put_text<'n, S: Sink>(out: &mut S, text: &str) -> Result<(), Error<'n>>
    requires { S.failures out.old < 2 ^ 64 - 1 }
    ensures put { Prints (PutsText text.now) (S.told out.old) (S.told out.new) result }
    ensures failures { OnOk result (S.failures out.new ≡ S.failures out.old) }
{
    put_bytes(out, text.as_bytes())
}

fn put_bytes<'n, S: Sink>(out: &mut S, bytes: &[u8]) -> Result<(), Error<'n>>
    requires { S.failures out.old < 2 ^ 64 - 1 }
    ensures put { Prints (PutsText bytes.now) (S.told out.old) (S.told out.new) result }
    ensures failures { OnOk result (S.failures out.new ≡ S.failures out.old) }
{
    match put_all(out, bytes) {
        Ok(()) => Ok(()),
        Err(taken) => Err(Error::Device(taken as u64)),
    }
}
