ghost use Rattle.std.specs.Prelude.{◌≡◌, ◌+◌, ◌-◌, ◌^◌, ◌<◌, false, length, nat_lt, if◌then◌else◌, IfErr, IfOk, None, Ok, OnOk};
ghost use Rattle.oim_report.specs.Sheet.{sheet_outcome};
ghost use Rattle.oim_write.specs.BoundedSink.{bounded_failures};
ghost use Rattle.oim_explain.specs.Explained.{counted};
ghost use Rattle.command_line.specs.Endings.{Prints, PutsText};
ghost use Rattle.command_line.specs.Explained.{counts_line};
ghost use Rattle.command_line.specs.Page.{EachEnds, EndsWith};
ghost use Rattle.command_line.specs.Why.{IsNoSheet};
ghost use Rattle.command_line.specs.Words.{explain, name_texts, under};

use crate::commands::put_text;
use crate::error::{Error, Success};
use crate::folder::Folder;
use crate::inputs::{Inputs, sheet_of};
use oim_explain::{Explained, Format, Input, SheetNames, explain, explain_repeated, explain_sheet};
use oim_report::Sheet;
use oim_write::{BoundedSink, Sink};
use std::alloc::Global;
use std::io::Write;

pub(crate) const ABOUT: &str = "Explains what is wrong with reports, in plain words";

pub(crate) const MORE: &str =
    "Each line for a fault contains the file, the fact if the fault is in a fact, the number and the
name of the refusal, and what is wrong, usually with the text at fault. At most 80 characters of an
identifier or a text are shown.

The other commands name only the first fault of a report. `explain` lists all faults of the
document. If the document has none, it lists the faults of every fact. If the facts have none, it
lists the fault of the duplicates. If several names or members in one place share a fault, only the
first is shown. Some faults appear only after others are corrected.

Accepted does not mean valid: a report without a fault may still break rules of its taxonomy.

It also lists repeated members of a report or of the sheet, such as two facts with the same
identifier. Only the last one is read. A line for a repeated member has no number or name of a
refusal. The other commands do not refuse a file for such members, so run `explain` first on files
from untrusted sources.

The last line contains the numbers of reports, of reports with a fault, and of faults. Repeated
members count as faults.

With --format json each fault is a JSON object on one line, and the line with the numbers is not
printed. The members of an object:
  report      the number of the report, from 1; null for the sheet
  file        the name of the file
  place       the location of the fault: \"document\" or \"fact N\"
  number      the number of the refusal
  name        its name
  identifier  the whole identifier of the fact; null for the document
  part        the whole part at fault: a text, another value, an object of one member, or an array
              of two texts; null if the sentence shows none. Numbers in it may be spelled
              differently from the file
  sentence    what is wrong, as in the text
For a repeated member, place, number, name and identifier are null.

The output may have 1 MiB and 16 bytes for each byte of the files that were read. --most-output sets
another limit.

Example:
  xbrlmerge explain --sheet examples/sheet.json examples/issuer.json examples/statfeed.json

Status:
  0  there is no fault
  1  a report has a fault, or the sheet has a repeated member
  3  not completed: invalid arguments, a refused sheet, a file or device that failed, output above
     a limit, or out of memory";

/// Reads the sheet and the reports, one after another, and writes a line for each fault to `out`.
/// Repeated members count as faults. In the format `Text`, a line with the counts follows. Returns
/// the number of faults.
///
/// Errors: `Unread`, `TooLong`, `Sheet`, out of memory, and `Device`.
pub(crate) fn run<'n, F: Folder, E: Write, S: Sink>(
    name: &'n str,
    format: Format,
    inputs: &mut Inputs<'n, F, E>,
    out: &mut BoundedSink<S>,
) -> Result<Success, Error<'n>>
    requires { bounded_failures (S.failures out.old.sink) out.old.overruns < 2 ^ 64 - 1 }
    ensures ends { Prints (EndsWith (F.gives inputs.old.files.now) (F.fails inputs.old.files.now) inputs.old.bundle.now (name_texts inputs.old.names.now) None (under name.now (explain format)))
        (S.told out.old.sink) (S.told out.new.sink) result }
    ensures console { inputs.old.console.is_terminal ≡ false → inputs.new.console ≡ inputs.old.console }
{
    let file = inputs.read(name)?;
    let bytes = file.as_bytes();
    let sheet = read_sheet(inputs.alloc, name, bytes)?;
    let input = Input {
        report: None,
        name,
        format,
    };
    let repeated = explain_repeated(inputs.alloc, input, bytes)?;
    let names = SheetNames::read(inputs.alloc, &sheet, bytes)?;
    let known = KnownSheet {
        names: &names,
        repeated: &repeated,
        format,
    };
    let counts = put_each(known, inputs, out)?;
    put_counts(format, counts, inputs, out)?;
    Ok(Success::Faults(counts.faults))
}

/// Writes the line with the counts, in the format `Text`.
fn put_counts<'n, F, E, S: Sink>(
    format: Format,
    counts: Counts,
    inputs: &Inputs<'n, F, E>,
    out: &mut S,
) -> Result<(), Error<'n>>
    requires { S.failures out.old < 2 ^ 64 - 1 }
    ensures { Prints (PutsText (counts_line format (length inputs.now.names.now) counts.faulty counts.faults)) (S.told out.old) (S.told out.new) result }
{
    match format {
        Format::Text => {
            let reports = inputs.names.len();
            let Counts { faulty, faults } = counts;
            let line = format!(in inputs.alloc;
                "reports: {reports}, with faults: {faulty}, faults: {faults}\n"
            )?;
            put_text(out, line.as_str())
        }
        Format::Json => Ok(()),
    }
}

/// Errors: `Sheet` with the line that describes the fault of the sheet; out of memory.
fn read_sheet<'n>(alloc: Global, name: &str, bytes: &[u8]) -> Result<Sheet, Error<'n>>
    ensures ok { IfOk result (λ sheet. sheet_outcome bytes.now ≡ Ok sheet) }
    ensures why { IfErr result (IsNoSheet bytes.now) }
{
    match sheet_of(alloc, bytes) {
        Err(Error::Sheet { reason, .. }) => Err(Error::Sheet {
            reason,
            explained: Some(explain_sheet(alloc, name, bytes)?),
            kind: None,
        }),
        read => read,
    }
}

/// The number of reports with faults, and the number of all faults.
#[derive(Clone, Copy)]
struct Counts {
    faulty: u64,
    faults: u64,
}

impl Counts {
    fn with(self, faults: u64) -> Counts
        ensures faulty { result.faulty ≡ counted (self.faulty + (if nat_lt 0 faults then 1 else 0)) }
        ensures faults { result.faults ≡ counted (self.faults + faults) }
    {
        Counts {
            faulty: self.faulty.saturating_add(u64::from(faults > 0)),
            faults: self.faults.saturating_add(faults),
        }
    }
}

/// The names of an accepted sheet, the lines about its repeated members, and their format.
#[derive(Clone, Copy)]
struct KnownSheet<'s> {
    names: &'s SheetNames<'s>,
    repeated: &'s Explained,
    format: Format,
}

/// Writes the lines about the sheet's repeated members and about each report.
fn put_each<'n, F: Folder, E: Write, S: Sink>(
    known: KnownSheet<'_>,
    inputs: &mut Inputs<'n, F, E>,
    out: &mut BoundedSink<S>,
) -> Result<Counts, Error<'n>>
    requires { bounded_failures (S.failures out.old.sink) out.old.overruns < 2 ^ 64 - 1 }
    ensures ends { Prints (EachEnds (F.gives inputs.old.files.now) known.entry.format known.entry.names.now.sheet.now known.entry.repeated.now (F.fails inputs.old.files.now) (name_texts inputs.old.names.now))
        (S.told out.old.sink) (S.told out.new.sink) result }
    ensures failures { OnOk result (bounded_failures (S.failures out.new.sink) out.new.overruns ≡ bounded_failures (S.failures out.old.sink) out.old.overruns) }
    ensures names { inputs.new.names ≡ inputs.old.names }
    ensures console { inputs.old.console.is_terminal ≡ false → inputs.new.console ≡ inputs.old.console }
{
    let (alloc, names) = (inputs.alloc, inputs.names);
    out.raise(inputs.take_allowance());
    put_text(out, known.repeated.text.as_str())?;
    let mut counts = Counts {
        faulty: 0,
        faults: known.repeated.faults,
    };
    for index in 0..names.len() {
        let report = inputs.read_report(names[index])?;
        out.raise(inputs.take_allowance());
        inputs.console.clear();
        let input = Input {
            report: Some((index as u64).saturating_add(1)),
            name: names[index],
            format: known.format,
        };
        let explained = explain(alloc, known.names, input, report.as_bytes())?;
        put_text(out, explained.text.as_str())?;
        counts = counts.with(explained.faults);
    }
    Ok(counts)
}
