ghost use Rattle.std.specs.Prelude.{◌≡◌, ◌++◌, ◌-◌, ◌^◌, ◌<◌, false, codes, IfErr, IfOk, OnOk, string_bytes};
ghost use Rattle.std.specs.Fmt.{decimal};
ghost use Rattle.command_line.specs.Checks.{AddsResult, Checks, IsResult, accepted_line, result_written, results_header};
ghost use Rattle.command_line.specs.Endings.{Prints};
ghost use Rattle.command_line.specs.Page.{CommandEnds};
ghost use Rattle.command_line.specs.Why.{IsFirstLost, IsUnread, WithRead};
ghost use Rattle.command_line.specs.Words.{check, name_texts};

use crate::commands::put_bytes;
use crate::error::Error;
use crate::folder::Folder;
use crate::inputs::Inputs;
use crate::print_format::PrintFormat;
use oim_merge::{Checked, Refusals, check_report};
use oim_names::Reason;
use oim_report::{Refusal, Sheet};
use oim_write::Sink;
use row_formats::CheckedRows;
use std::alloc::{AllocError, Global};
use std::io::Write;

pub(crate) const ABOUT: &str = "Counts the facts of reports and classifies their duplicates";

pub(crate) const MORE: &str = "One report alone has one of the lines

  accepted FACTS LEVEL canonical
  accepted FACTS LEVEL other

With several reports, --reports-from or --format, each accepted report N has a line, in the order of
the reports:

  report N: accepted FACTS LEVEL canonical

  FACTS       the number of its facts, repeats included
  LEVEL       the level of its duplicates, which are facts with the same dimensions:
  none        there are none
  complete    duplicates are equal
  consistent  duplicates are equal, or numbers that agree within rounding
  all         some duplicates contradict each other
  canonical   the file is, byte for byte, what `merge` would write for it
  other       it is not, for example because an older version wrote it, without a level

FORMAT is one of:
  lines  as above
  json   a JSON object per line
  csv    a header and a record for each line, quoted as in RFC 4180
json and csv have report, file, facts, level and canonical, which is true or false.

The sheet is read once. Nothing is printed before every report is read. To compare a file with the
output of `merge`, `check` may keep both in memory.

Example:
  xbrlmerge check --sheet examples/sheet.json examples/ledgerline.json examples/statfeed.json

Status:
  0  every report is accepted
  1  a report is refused, and standard error shows why and where; `explain` describes its faults
  3  not checked: invalid arguments, a refused sheet, a file or device that failed, output
     above a limit, or out of memory";

/// How reports are checked, and how the results are printed.
#[derive(Clone, Copy)]
struct Checking<'a> {
    alloc: Global,
    sheet: &'a Sheet,
    /// None for a report alone, whose line has no number.
    format: Option<PrintFormat>,
    names: &'a [&'a str],
}

/// The text for the accepted reports so far, and the refusals of the others.
#[derive(Drop)]
struct Batch {
    text: Vec<u8>,
    refusals: Refusals,
}

/// Reads and checks the reports, in order, and then writes the results of the accepted ones to
/// `out`. Returns the refusals of the others with their numbers, from 1.
///
/// Errors: `Unread`, `TooLong`, out of memory, and `Device`.
pub(crate) fn run<'n, F: Folder, E: Write, S: Sink>(
    format: Option<PrintFormat>,
    sheet: &Sheet,
    inputs: &mut Inputs<'n, F, E>,
    out: &mut S,
) -> Result<Refusals, Error<'n>>
    requires { S.failures out.old < 2 ^ 64 - 1 }
    ensures ends { Prints (CommandEnds (F.gives inputs.old.files.now) (F.fails inputs.old.files.now) (name_texts inputs.old.names.now) sheet.now (check format)) (S.told out.old) (S.told out.new) result }
    ensures console { inputs.old.console.is_terminal ≡ false → inputs.new.console ≡ inputs.old.console }
{
    let Batch { text, refusals } = check_each(format, sheet, inputs)?;
    put_bytes(out, text.as_slice())?;
    Ok(refusals)
}

fn check_each<'n, F: Folder, E: Write>(
    format: Option<PrintFormat>,
    sheet: &Sheet,
    inputs: &mut Inputs<'n, F, E>,
) -> Result<Batch, Error<'n>>
    ensures ok { IfOk result (λ batch. WithRead (F.gives inputs.old.files.now) (name_texts inputs.old.names.now)
        (λ reports. Checks format (name_texts inputs.old.names.now) sheet.now reports batch.text.items batch.refusals)) }
    ensures why { IfErr result (IsUnread (IsFirstLost (F.gives inputs.old.files.now) (F.fails inputs.old.files.now) (name_texts inputs.old.names.now))) }
    ensures console { inputs.old.console.is_terminal ≡ false → inputs.new.console ≡ inputs.old.console }
{
    let (alloc, names) = (inputs.alloc, inputs.names);
    let checking = Checking {
        alloc,
        sheet,
        format,
        names,
    };
    let mut batch = Batch {
        text: checking.header()?,
        refusals: Refusals::new(alloc),
    };
    for index in 0..names.len() {
        let report = inputs.read_report(names[index])?;
        let number = (index as u64).saturating_add(1);
        batch.add(&checking, number, report.as_bytes())?;
    }
    inputs.console.clear();
    Ok(batch)
}

impl Batch {
    /// Checks the report with this number, and adds its result.
    fn add(&mut self, checking: &Checking<'_>, number: u64, bytes: &[u8]) -> Result<(), AllocError>
        ensures { OnOk result (AddsResult (result_written checking.now.format (name_texts checking.now.names.now)) checking.now.sheet.now number bytes.now
            self.old.text.items self.new.text.items self.old.refusals self.new.refusals) }
    {
        match check(checking.alloc, checking.sheet, bytes)? {
            Ok(checked) => {
                let text = checking.text_of(number, &checked)?;
                self.text.extend_from_slice(text.as_slice())?;
                Ok(())
            }
            Err(refusal) => {
                self.refusals.push(number, refusal)?;
                Ok(())
            }
        }
    }
}

impl Checking<'_> {
    /// Returns the text before the first result.
    fn header(&self) -> Result<Vec<u8>, AllocError>
        ensures { IfOk result (λ text. text.items ≡ results_header self.now.format) }
    {
        match self.format {
            Some(PrintFormat::Rows(format)) => CheckedRows {
                format,
                files: self.names,
            }
            .header(self.alloc),
            None | Some(PrintFormat::Lines) => Ok(Vec::new(self.alloc)),
        }
    }

    /// Returns the text for the accepted report with this number.
    fn text_of(&self, number: u64, checked: &Checked) -> Result<Vec<u8>, AllocError>
        ensures { IfOk result (λ text. text.items ≡ result_written self.now.format (name_texts self.now.names.now) number checked.now) }
    {
        match self.format {
            None => Ok(accepted_line(self.alloc, checked)?.into_bytes()),
            Some(PrintFormat::Lines) => numbered_line(self.alloc, number, checked),
            Some(PrintFormat::Rows(format)) => CheckedRows {
                format,
                files: self.names,
            }
            .row(self.alloc, number, checked),
        }
    }
}

fn check(alloc: Global, sheet: &Sheet, bytes: &[u8]) -> Result<Result<Checked, Refusal>, AllocError>
    ensures { IfOk result (IsResult sheet.now bytes.now) }
{
    match check_report(alloc, sheet, bytes) {
        Ok(checked) => Ok(Ok(checked)),
        Err(refusal) if refusal.reason == Reason::OutOfMemory => Err(AllocError),
        Err(refusal) => Ok(Err(refusal)),
    }
}

fn numbered_line(alloc: Global, number: u64, checked: &Checked) -> Result<Vec<u8>, AllocError>
    ensures { IfOk result (λ line. line.items ≡ codes "report " ++ (decimal number ++ (codes ": " ++ accepted_line checked.now))) }
{
    let line = accepted_line(alloc, checked)?;
    let line = line.as_str();
    Ok(format!(in alloc; "report {number}: {line}")?.into_bytes())
}

fn accepted_line(alloc: Global, checked: &Checked) -> Result<String, AllocError>
    ensures { IfOk result (λ line. string_bytes line ≡ accepted_line checked.now) }
{
    let (facts, level) = (checked.facts, checked.level.text());
    let canonical = if checked.canonical {
        "canonical"
    } else {
        "other"
    };
    format!(in alloc; "accepted {facts} {level} {canonical}\n")
}
