ghost use Rattle.std.specs.Prelude.{◌≡◌, ◌-◌, ◌^◌, ◌<◌, IfOk, IfErr, MatchOption};
ghost use Rattle.oim_merge.specs.Above.{IsFirstAbove, StaysWithin, is_above};
ghost use Rattle.oim_merge.specs.Run.{Stops, Writes, failures_after_run};

use crate::fault::Fault;
use crate::refusals::Refusals;
use fact_base::{Base, Verdict};
use oim_value::Level;
use oim_write::{Sink, write_to};
use std::alloc::Global;

/// Writes the canonical text of a base to the sink, and returns `refusals` unchanged.
///
/// Errors: `TooLoose` if a dimension set has duplicates above `allow`, with nothing written;
/// `Device` if the sink failed; `OutOfMemory`.
pub fn write_within<S: Sink>(
    alloc: Global,
    base: &Base<'_>,
    refusals: Refusals,
    allow: Level,
    out: &mut S,
) -> Result<Refusals, Fault>
    requires { S.failures out.old < 2 ^ 64 - 1 }
    ensures ok { IfOk result (Writes allow base.now.body refusals (S.told out.old) (S.told out.new)) }
    ensures err { IfErr result (Stops allow base.now.body refusals (S.told out.old) (S.told out.new)) }
    ensures failures { S.failures out.new ≡ failures_after_run result (S.failures out.old) }
{
    if let Some(row) = first_above(base, allow) {
        return Err(Fault::TooLoose {
            row,
            refused: refusals,
        });
    }
    write_to(alloc, base, out)?;
    Ok(refusals)
}

fn first_above(base: &Base<'_>, allow: Level) -> Option<u64>
    ensures { MatchOption result (StaysWithin allow base.now.body) (IsFirstAbove allow base.now.body) }
{
    if allow == Level::All {
        return None;
    }
    // the contract of `row_count` states that the number of rows fits in a `u64`, so `number` does
    // not overflow
    let _most = base.row_count();
    let mut number = 0;
    for row in base.rows() {
        number += 1;
        if is_above(allow, row.verdict()) {
            return Some(number);
        }
    }
    None
}

fn is_above(allow: Level, verdict: Verdict) -> bool
    ensures { result ≡ is_above allow verdict }
{
    match allow {
        Level::All => false,
        Level::Consistent => verdict == Verdict::Inconsistent,
        Level::Complete | Level::Unique => verdict != Verdict::Complete,
    }
}
