ghost use Rattle.std.specs.Prelude.{◌≡◌, ◌≤◌, ◌++◌, drop, length, true, false};
ghost use Rattle.xbrlmerge_c.specs.code.Answers.{Answers};
ghost use Rattle.xbrlmerge_c.specs.CallerMemory.{IsHanded, IsTooShort, memory};
ghost use Rattle.xbrlmerge_c.specs.Refusals.{refused_report, refused_reports};

use oim_merge::{Fault, Refusals};
use oim_report::{Place, Refusal};

// The statuses, as include/xbrlmerge.h lists them.

pub(crate) const DONE: u32 = 0;

pub(crate) const REFUSED: u32 = 1;

pub(crate) const TOO_LOOSE: u32 = 2;

pub(crate) const TOO_SHORT: u32 = 3;

pub(crate) const SHEET_REFUSED: u32 = 4;

pub(crate) const NO_MEMORY: u32 = 5;

pub(crate) const BAD_ENDS: u32 = 6;

pub(crate) const BAD_LEVEL: u32 = 7;

pub(crate) const TOO_MUCH: u32 = 8;

/// The refusal of a report or of the sheet, as numbers.
#[repr(C)]
#[derive(Clone, Copy, Debug, PartialEq, Eq)]
pub struct RefusedReport {
    /// The number of the report, from 1; 0 for the sheet.
    pub report: u64,
    /// The number of the fact, from 1; 0 for the document.
    pub fact: u64,
    /// The number of the refusal, which `xbrlmerge_refusal_name` turns into a name.
    pub number: u32,
}

impl RefusedReport {
    pub(crate) fn new(report: u64, refusal: &Refusal) -> RefusedReport
        ensures { result ≡ refused_report report refusal.now }
    {
        RefusedReport {
            report,
            fact: match refusal.place {
                Place::Document => 0,
                Place::Fact(number) => number,
            },
            number: u32::from(refusal.reason.number()),
        }
    }
}

fn put_refusals(found: &[(u64, Refusal)], refusals: &mut [RefusedReport])
    requires { length found.now ≤ length refusals.old }
    ensures { refusals.new ≡ refused_reports found.now ++ drop (length found.now) refusals.old }
{
    for (index, (report, refusal)) in found.iter().enumerate() {
        refusals[index] = RefusedReport::new(*report, refusal);
    }
}

#[derive(Drop)]
pub(crate) struct Made {
    pub text: Vec<u8>,
    pub refusals: Refusals,
}

// In these functions, `out`, `needed`, `refusals` and `refused` are the caller's memory, which C
// passes separately.

fn hand_over(
    text: &[u8],
    found: &[(u64, Refusal)],
    out: &mut [u8],
    needed: &mut usize,
    refusals: &mut [RefusedReport],
    refused: &mut usize,
) -> bool
    ensures fits { result ≡ true → IsHanded text.now found.now
        (memory out.old needed.old refusals.old refused.old) (memory out.new needed.new refusals.new refused.new) }
    ensures short { result ≡ false → IsTooShort text.now found.now
        (memory out.old needed.old refusals.old refused.old) (memory out.new needed.new refusals.new refused.new) }
{
    *needed = text.len();
    *refused = found.len();
    if out.len() < text.len() || refusals.len() < found.len() {
        return false;
    }
    out[..text.len()].copy_from_slice(text);
    put_refusals(found, refusals);
    true
}

pub(crate) fn answer(
    made: Result<Made, Fault>,
    out: &mut [u8],
    needed: &mut usize,
    refusals: &mut [RefusedReport],
    refused: &mut usize,
) -> u32
    ensures { Answers made (memory out.old needed.old refusals.old refused.old)
        (memory out.new needed.new refusals.new refused.new) result }
{
    match made {
        Ok(made) => {
            let found = made.refusals.as_slice();
            if !hand_over(made.text.as_slice(), found, out, needed, refusals, refused) {
                return TOO_SHORT;
            }
            if found.is_empty() { DONE } else { REFUSED }
        }
        Err(Fault::TooLoose { row, refused: all }) => {
            if !hand_over(b"", all.as_slice(), out, needed, refusals, refused) {
                return TOO_SHORT;
            }
            *needed = row as usize;
            TOO_LOOSE
        }
        Err(Fault::Sheet(reason)) => {
            *needed = usize::from(reason.number());
            *refused = 0;
            SHEET_REFUSED
        }
        Err(Fault::OutOfMemory(_) | Fault::Device(_)) => NO_MEMORY,
    }
}
