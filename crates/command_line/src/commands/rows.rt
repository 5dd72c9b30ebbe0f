//! The commands `verdicts` and `sources`.

ghost use Rattle.std.specs.Prelude.{◌-◌, ◌^◌, ◌<◌};
ghost use Rattle.oim_write.specs.BoundedSink.{bounded_failures};
ghost use Rattle.command_line.specs.Endings.{Prints, Puts};
ghost use Rattle.command_line.specs.Faults.{IsOutputError};
ghost use Rattle.command_line.specs.Outputs.{AreSources, AreVerdicts};
ghost use Rattle.command_line.specs.Words.{name_texts};
ghost use Rattle.command_line.specs.declared.print_format.PrintFormat.TheVariants.{Lines, Rows};

use crate::error::Error;
use crate::print_format::PrintFormat;
use oim_merge::{
    Consolidation, Merged, Refusals, SourceLines, TracedMerge, VerdictLines, write_verdicts,
};
use oim_write::{BoundedSink, Sink};
use row_formats::{RowFormat, SourceRows, has_long_row};
use std::alloc::Global;
use std::mem;

pub(crate) const VERDICTS_ABOUT: &str =
    "Prints a verdict for each set of facts with the same dimensions";

pub(crate) const VERDICTS_MORE: &str =
    "Each line describes a row: all facts with the same dimensions in the output of `merge`. It shows
whether they agree exactly, agree within rounding, or contradict each other, with the evidence.

  ROW FIRST LAST complete
  ROW FIRST LAST consistent common LOW HIGH
  ROW FIRST LAST inconsistent apart I J

  ROW           the number of the row, from 1
  FIRST LAST    its first and last fact, by their identifiers in that output
  complete      the row has one fact: all providers that report it agree exactly
  consistent    the row has several numbers, which agree within rounding
  LOW HIGH      the lowest and the highest number that fit all of them
  inconsistent  the row has facts that contradict each other
  I J           two of these facts

FORMAT is one of:
  lines  as above
  json   a JSON object per line, with the dimensions and the facts of the row
  csv    a header and a record for each fact, quoted as in RFC 4180
json and csv repeat the URI of each name. Their output may have 1 MiB and 16 bytes for each byte of
the files that were read. --most-output sets another limit.

Example:
  xbrlmerge verdicts --sheet examples/sheet.json examples/issuer.json examples/statfeed.json

Status:
  0  every report was judged, whatever the verdicts are
  1  a report was refused, and standard error has its line, as for `merge`; the others were judged
  3  not done, or not completed: invalid arguments, a refused sheet, a file or device that
     failed, output above a limit, or out of memory";

pub(crate) const SOURCES_ABOUT: &str =
    "Lists the reports that contain each fact, and its identifiers there";

pub(crate) const SOURCES_MORE: &str =
    "A merged report contains each fact once, under a new identifier, even if several reports contain
it. Each line names one report that contains a fact:

  FACT REPORT IDENTIFIER

  FACT        the fact, by its identifier in the output of `merge`
  REPORT      the number of the report, from 1, in the order of the arguments
  IDENTIFIER  the fact's identifier in that report, as a JSON string

Lines are sorted by fact, report and identifier. Each fact object of each accepted report has one
line. If several lines have the same FACT, several reports agree exactly, or one report repeats the
fact.

FORMAT is one of:
  lines  as above
  json   a JSON object per line
  csv    a header and a record for each line, quoted as in RFC 4180
json and csv have report, file, identifier and fact: the number and the file of the report, the
fact's identifier there, and FACT. Their output may have 1 MiB and 16 bytes for each byte of the
files that were read. --most-output sets another limit.

Example:
  xbrlmerge sources --sheet examples/sheet.json examples/issuer.json examples/statfeed.json

Status:
  0  every report was read
  1  a report was refused, and standard error has its line, as for `merge`; the others were read
  3  not done, or not completed: invalid arguments, a refused sheet, a file or device that
     failed, output above a limit, or out of memory";

/// Writes the verdicts to `out`, and returns the refusals.
pub(crate) fn put_verdicts<'n, S: Sink>(
    alloc: Global,
    consolidation: Consolidation<'_>,
    format: PrintFormat,
    out: &mut BoundedSink<S>,
) -> Result<Refusals, Error<'n>>
    requires { bounded_failures (S.failures out.old.sink) out.old.overruns < 2 ^ 64 - 1 }
    ensures { Prints (Puts (AreVerdicts format consolidation.entry.body consolidation.entry.refusals) IsOutputError) (S.told out.old.sink) (S.told out.new.sink) result }
{
    let merged = consolidation.into_merged()?;
    match format {
        PrintFormat::Lines => put_lines(alloc, merged, out),
        PrintFormat::Rows(format) => put_rows(alloc, merged, format, out),
    }
}

// The facts are not freed, because the program ends after its command.
fn put_lines<'n, S: Sink>(
    alloc: Global,
    merged: Merged<'_>,
    out: &mut S,
) -> Result<Refusals, Error<'n>>
    requires { S.failures out.old < 2 ^ 64 - 1 }
    ensures { Prints (Puts (AreVerdicts Lines merged.entry.base.body merged.entry.refusals) IsOutputError) (S.told out.old) (S.told out.new) result }
{
    let Merged { base, refusals } = merged;
    let written = write_verdicts(alloc, &base, refusals, &VerdictLines, out);
    mem::forget(base);
    Ok(written?)
}

/// A row is made in memory before it is written, so a row above the bound is not made.
fn put_rows<'n, S: Sink>(
    alloc: Global,
    merged: Merged<'_>,
    format: RowFormat,
    out: &mut BoundedSink<S>,
) -> Result<Refusals, Error<'n>>
    requires { bounded_failures (S.failures out.old.sink) out.old.overruns < 2 ^ 64 - 1 }
    ensures { Prints (Puts (AreVerdicts (Rows format) merged.entry.base.body merged.entry.refusals) IsOutputError) (S.told out.old.sink) (S.told out.new.sink) result }
{
    let Merged { base, refusals } = merged;
    if has_long_row(format, &base, out.left()) {
        return Err(Error::TooMuch(out.left()));
    }
    let written = write_verdicts(alloc, &base, refusals, &format, out);
    mem::forget(base);
    Ok(written?)
}

/// Writes where each fact was reported to `out`, and returns the refusals. `files` has the names of
/// the reports.
pub(crate) fn put_sources<'n, S: Sink>(
    merge: TracedMerge<'_>,
    format: PrintFormat,
    files: &[&str],
    out: &mut S,
) -> Result<Refusals, Error<'n>>
    requires { S.failures out.old < 2 ^ 64 - 1 }
    ensures { Prints (Puts (AreSources format (name_texts files.now) merge.entry) IsOutputError) (S.told out.old) (S.told out.new) result }
{
    match format {
        PrintFormat::Lines => Ok(merge.finish(&SourceLines, out)?),
        PrintFormat::Rows(format) => Ok(merge.finish(&SourceRows { format, files }, out)?),
    }
}
