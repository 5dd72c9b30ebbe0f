ghost use Rattle.std.specs.Prelude.{◌≡◌, ◌-◌, ◌^◌, ◌<◌, ◌==◌, length, position, IfOk, IfErr, IfSome};
ghost use Rattle.std.specs.List.{before_first, after_first};
ghost use Rattle.oim_merge.specs.Added.{added};
ghost use Rattle.oim_merge.specs.Bundle.{filled_pieces, is_line_end};
ghost use Rattle.oim_merge.specs.Run.{BundleStops, ConsolidatesBundle, failures_after_run};

use crate::consolidation::Consolidation;
use crate::fault::Fault;
use crate::refusals::Refusals;
use oim_names::Reason;
use oim_report::Sheet;
use oim_value::Level;
use oim_write::Sink;
use std::alloc::{AllocError, Global};

/// Merges a bundle: its first line is a sheet, and each later line that is not empty is a report.
/// Writes the canonical text of the accepted reports to the sink and allows all duplicates. Returns
/// the refusals with the numbers of their reports, from 1.
///
/// Errors: `Sheet` if the sheet is refused, with nothing written; `Device` if the sink failed;
/// `OutOfMemory`.
pub fn consolidate_bundle<S: Sink>(
    alloc: Global,
    bytes: &[u8],
    out: &mut S,
) -> Result<Refusals, Fault>
    requires { S.failures out.old < 2 ^ 64 - 1 }
    ensures ok { IfOk result (ConsolidatesBundle bytes.now (S.told out.old) (S.told out.new)) }
    ensures err { IfErr result (BundleStops bytes.now (S.told out.old) (S.told out.new)) }
    ensures failures { S.failures out.new ≡ failures_after_run result (S.failures out.old) }
{
    let (first, rest) = cut_line(bytes);
    let sheet = match Sheet::read(alloc, first) {
        Ok(sheet) => sheet,
        Err(Reason::OutOfMemory) => return Err(Fault::OutOfMemory(0)),
        Err(reason) => return Err(Fault::Sheet(reason)),
    };
    merge_lines(alloc, &sheet, rest)?.finish(Level::All, out)
}

fn merge_lines<'s>(
    alloc: Global,
    sheet: &'s Sheet,
    lines: &[u8],
) -> Result<Consolidation<'s>, AllocError>
    ensures { IfOk result (λ consolidation. consolidation ≡ added sheet.now (filled_pieces lines.now)) }
{
    let mut consolidation = Consolidation::new(alloc, sheet);
    let mut rest = lines;
    while !rest.is_empty() {
        let (line, behind) = cut_line(rest);
        if !line.is_empty() {
            consolidation.add(line)?;
        }
        rest = behind;
    }
    Ok(consolidation)
}

/// Returns the first line, and the bytes behind its end.
pub(crate) fn cut_line(bytes: &[u8]) -> (&[u8], &[u8])
    ensures line { result.0.now ≡ before_first is_line_end bytes.now }
    ensures rest { result.1.now ≡ after_first is_line_end bytes.now }
{
    match position_of(b'\n', bytes) {
        Some(end) => (&bytes[..end], &bytes[end + 1..]),
        None => (bytes, &[]),
    }
}

pub(crate) fn position_of(byte: u8, bytes: &[u8]) -> Option<usize>
    ensures index { result ≡ position (λ c. c == byte) bytes.now }
    ensures within { IfSome result (λ index. index < length bytes.now) }
{
    bytes.iter().position(|one| *one == byte)
}
