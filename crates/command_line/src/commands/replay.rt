ghost use Rattle.std.specs.Prelude.{◌≡◌, ◌-◌, ◌^◌, ◌<◌, false};
ghost use Rattle.command_line.specs.Endings.{Prints, Puts, PutsText};
ghost use Rattle.command_line.specs.Faults.{IsOutputError};
ghost use Rattle.command_line.specs.Outputs.{PrintsReplay, replica_lines};
ghost use Rattle.command_line.specs.Page.{CommandEnds};
ghost use Rattle.command_line.specs.Words.{name_texts, replay};

use crate::commands::put_text;
use crate::error::Error;
use crate::folder::Folder;
use crate::inputs::Inputs;
use fact_base::Base;
use oim_merge::{Refusals, Replayed, read_events, replay};
use oim_report::Sheet;
use oim_write::{Sink, write_to};
use std::alloc::Global;
use std::io::Write;

pub(crate) const ABOUT: &str = "Runs a schedule on replicas that exchange merged reports";

pub(crate) const MORE: &str =
    "A replica is like an office: it merges the reports that reach it, and sends its merged report to
others. Each of the N replicas begins empty. EVENTS contains one event per line. Replicas, reports
and messages are counted from 1.

  take I R      replica I takes report R
  join I J      replica I takes all facts and taxonomy references of replica J
  send I        replica I sends its merged report, which is the next message
  receive I K   replica I takes message K, which may be late, repeated or reordered
  restart I     replica I becomes empty

At the end, the merged report of each replica is written, one per line. For every schedule, it
equals one merge of the reports that reached the replica since its start or last restart, directly
or through others.

Example:
  xbrlmerge replay --sheet examples/sheet.json --replicas 2 \\
      --events examples/offices/events.txt examples/issuer.json \\
      examples/ledgerline.json examples/statfeed.json

Status:
  0  every event was run
  1  every event was run, but a `take` named a refused report and changed nothing; standard error
     shows why, in one line for each such `take`
  3  not done, or not completed: invalid arguments, a refused sheet, a line of EVENTS that is not
     an event or names something that does not exist, a file or device that failed, output
     above a limit, or out of memory";

/// Reads the schedule and the reports, runs the schedule on the replicas and writes the text of
/// each replica to `out`. Returns the refused takes with the numbers of their reports, from 1.
///
/// Errors: `Unread`; `TooLong`; `Event` if a line is not an event or names a report, replica or
/// message that does not exist; out of memory; `Device`. A line that is not an event is found
/// before any report is read.
pub(crate) fn run<'n, F: Folder, E: Write, S: Sink>(
    replicas: usize,
    schedule: &'n str,
    sheet: &Sheet,
    inputs: &mut Inputs<'n, F, E>,
    out: &mut S,
) -> Result<Refusals, Error<'n>>
    requires { S.failures out.old < 2 ^ 64 - 1 }
    ensures ends { Prints (CommandEnds (F.gives inputs.old.files.now) (F.fails inputs.old.files.now) (name_texts inputs.old.names.now) sheet.now (replay replicas schedule.now)) (S.told out.old) (S.told out.new) result }
    ensures console { inputs.old.console.is_terminal ≡ false → inputs.new.console ≡ inputs.old.console }
{
    let lines = inputs.read(schedule)?;
    let events = read_events(inputs.alloc, lines.as_bytes())?;
    let reports = inputs.read_reports()?;
    let replayed = replay(inputs.alloc, sheet, replicas, reports.as_slice(), &events)?;
    put_replayed(inputs.alloc, out, replayed)
}

fn put_replayed<'n, S: Sink>(
    alloc: Global,
    out: &mut S,
    replayed: Replayed<'_>,
) -> Result<Refusals, Error<'n>>
    requires { S.failures out.old < 2 ^ 64 - 1 }
    ensures { Prints (Puts (PrintsReplay replayed.entry) IsOutputError) (S.told out.old) (S.told out.new) result }
{
    let put = put_replicas(alloc, out, replayed.replicas());
    let refused = replayed.into_refused();
    put?;
    Ok(refused)
}

/// Errors: out of memory, and `Device` with the number of bytes that `out` took of the text or line
/// end that failed. `write_out` replaces this number with the number of bytes taken of all texts.
fn put_replicas<'n, S: Sink>(
    alloc: Global,
    out: &mut S,
    replicas: &[Base<'_>],
) -> Result<(), Error<'n>>
    requires { S.failures out.old < 2 ^ 64 - 1 }
    ensures { Prints (PutsText (replica_lines replicas.now)) (S.told out.old) (S.told out.new) result }
{
    for base in replicas {
        write_to(alloc, base, out)?;
        put_text(out, "\n")?;
    }
    Ok(())
}
