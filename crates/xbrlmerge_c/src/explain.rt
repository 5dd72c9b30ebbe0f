ghost use Rattle.std.specs.Prelude.{◌≡◌, [], IfErr, IfOk, string_bytes};
ghost use Rattle.oim_explain.specs.declared.lines.Format.TheVariants.{Json, Text};
ghost use Rattle.xbrlmerge_c.specs.Answers.{NoRow, StopsBy};
ghost use Rattle.xbrlmerge_c.specs.CallerMemory.{memory};
ghost use Rattle.xbrlmerge_c.specs.Calls.{IsSheetRefused};
ghost use Rattle.xbrlmerge_c.specs.Explained.{AnswersExplain, IsExplained};

use crate::output::{DONE, NO_MEMORY, REFUSED, SHEET_REFUSED, TOO_SHORT};
use crate::refusal_name::put_text;
use crate::reports::read_sheet;
use oim_explain::{Format, Input, SheetNames, explain};
use oim_merge::Fault;
use std::alloc::Global;

/// The caller passes bytes without a name, so this is the name of the file in the lines.
const NAME: &str = "report";

/// Writes a line for each fault of a report and for each repeated member, as `oim_explain::explain`
/// does for a report with the number 1 and the file name `report`. The lines are written to the
/// start of `out`, and `needed` gets their length. Returns `DONE` if there is no line, otherwise
/// `REFUSED`.
///
/// Errors, by the status: `TOO_SHORT`, with only the length; `SHEET_REFUSED`, with `needed` set to
/// the number of the refusal; `NO_MEMORY`, with nothing changed.
#[unsafe(no_mangle)]
pub extern "C" fn xbrlmerge_explain(
    alloc: Global,
    sheet: &[u8],
    report: &[u8],
    out: &mut [u8],
    needed: &mut usize,
) -> u32
    ensures { AnswersExplain Text sheet.now report.now result (memory out.old needed.old [] 0) (memory out.new needed.new [] 0) }
{
    put_explained(alloc, Format::Text, sheet, report, out, needed)
}

/// Writes the lines as JSON objects, as `explain --format json` does. Otherwise the call is like
/// `xbrlmerge_explain`.
#[unsafe(no_mangle)]
pub extern "C" fn xbrlmerge_explain_json(
    alloc: Global,
    sheet: &[u8],
    report: &[u8],
    out: &mut [u8],
    needed: &mut usize,
) -> u32
    ensures { AnswersExplain Json sheet.now report.now result (memory out.old needed.old [] 0) (memory out.new needed.new [] 0) }
{
    put_explained(alloc, Format::Json, sheet, report, out, needed)
}

fn put_explained(
    alloc: Global,
    format: Format,
    sheet: &[u8],
    report: &[u8],
    out: &mut [u8],
    needed: &mut usize,
) -> u32
    ensures { AnswersExplain format sheet.now report.now result (memory out.old needed.old [] 0) (memory out.new needed.new [] 0) }
{
    match explained(alloc, format, sheet, report) {
        Ok(text) => {
            let length = put_text(text.as_str(), out);
            *needed = length;
            if length > out.len() {
                TOO_SHORT
            } else if length == 0 {
                DONE
            } else {
                REFUSED
            }
        }
        Err(Fault::Sheet(reason)) => {
            *needed = usize::from(reason.number());
            SHEET_REFUSED
        }
        Err(_) => NO_MEMORY,
    }
}

fn explained(alloc: Global, format: Format, sheet: &[u8], report: &[u8]) -> Result<String, Fault>
    ensures ok { IfOk result (λ text. IsExplained format sheet.now report.now (string_bytes text) []) }
    ensures err { IfErr result (StopsBy NoRow (IsSheetRefused sheet.now)) }
{
    let listed = read_sheet(alloc, sheet)?;
    let names = SheetNames::read(alloc, &listed, sheet)?;
    let input = Input {
        report: Some(1),
        name: NAME,
        format,
    };
    Ok(explain(alloc, &names, input, report)?.text)
}
