ghost use Rattle.std.specs.Prelude.{◌≡◌, IfOk, IfErr, MatchOption, None, Some};
ghost use Rattle.oim_merge.specs.Replay.{IsReplayOf, ReplayStops};
ghost use Rattle.oim_merge.specs.Schedule.{numbered};

use crate::events::{Events, ReplayFault};
use crate::messages::Messages;
use crate::refusals::Refusals;
use crate::replicas::Replicas;
use fact_base::{Base, BaseBuilder};
use oim_names::Encoded;
use oim_report::Sheet;
use std::alloc::{AllocError, Global};
use std::marker::Model;

/// Runs a schedule on `n` replicas that begin empty. Replicas, reports and sent texts have numbers
/// from 1. The line of an event is its number among the events, from 1. Each taken report is read
/// under the sheet once, and each received text at least once. A refused report or text does not
/// change the replica. So each replica has the facts and references of the accepted reports that
/// reached it since its last restart, directly or through other replicas. The result lists refused
/// takes.
///
/// A received text is parsed although its sender's facts are in memory: real replicas have only the
/// text.
///
/// Errors: `BadEvent` with the line of the first event that names a replica, a report or a sent
/// text that does not exist; `OutOfMemory`.
pub fn replay<'s>(
    alloc: Global,
    sheet: &'s Sheet,
    n: usize,
    reports: &[Encoded],
    events: &Events,
) -> Result<Replayed<'s>, ReplayFault>
    ensures ok { IfOk result (IsReplayOf sheet.now n reports.now events.now) }
    ensures err { IfErr result (ReplayStops n reports.now events.now) }
{
    let mut replicas = Replicas::new(alloc, sheet, n, reports)?;
    let mut line = 0u64;
    for event in events.as_slice() {
        line += 1;
        if !replicas.has_named(*event, reports.len()) {
            return Err(ReplayFault::BadEvent(line));
        }
        replicas.step(alloc, sheet, reports, *event)?;
    }
    let Replicas {
        bases,
        messages,
        refused,
        ..
    } = replicas;
    let Messages { texts, sent, .. } = messages;
    Ok(Replayed {
        bases: bases_of(alloc, bases)?,
        texts,
        sent,
        refused,
    })
}

fn bases_of<'s>(alloc: Global, builders: Vec<BaseBuilder<'s>>) -> Result<Vec<Base<'s>>, AllocError>
    ensures { IfOk result (λ bases. bases.items ≡ builders.entry.items) }
{
    let mut bases = Vec::new(alloc);
    for builder in builders {
        bases.push(builder.into_base()?)?;
    }
    Ok(bases)
}

/// Replicas after a schedule, with the texts that they sent and the takes that were refused.
#[derive(Drop)]
pub struct Replayed<'s> {
    bases: Vec<Base<'s>>,
    texts: Vec<Encoded>,
    sent: Vec<usize>,
    refused: Refusals,
}

impl<'s> Model for Replayed<'s> {
    ghost use Rattle.std.specs.Coded.{codes};
    ghost use Rattle.oim_report.specs.code.SheetCode.{sheet_code};
    ghost use Rattle.oim_merge.specs.code.Held.{AreWithin};
    ghost use Rattle.oim_merge.specs.Replay.{texts_at, Replay, world_of};

    ghost Value = { Replay };

    ghost coded = { Prim.hlevel (codes, sheet_code) };

    ghost view = { λ r. record { world = world_of r.bases.items (texts_at r.texts.items r.sent.items); refused = r.refused } };

    ghost invariant = { λ r. AreWithin r.texts.items r.sent.items };
}

impl<'s> Replayed<'s> {
    /// The replicas in the order of their numbers, which begin at 1.
    pub fn replicas(&self) -> &[Base<'s>]
        ensures { result.now ≡ self.now.world.replicas }
    {
        self.bases.as_slice()
    }

    /// The replica with this number, from 1, or None if no replica has it.
    pub fn replica(&self, number: usize) -> Option<&Base<'s>>
        ensures { MatchOption result (numbered self.now.world.replicas number ≡ None)
            (λ base. numbered self.now.world.replicas number ≡ Some base.now) }
    {
        self.bases.get(number.checked_sub(1)?)
    }

    /// The sent text with this number, from 1, or None if no text has it.
    pub fn sent(&self, number: usize) -> Option<&Encoded>
        ensures { MatchOption result (numbered self.now.world.sent number ≡ None)
            (λ text. numbered self.now.world.sent number ≡ Some text.now) }
    {
        let index = number.checked_sub(1)?;
        let held = self.sent.get(index)?;
        self.texts.get(*held)
    }

    /// The refusals of `take` events, in order, each with the number of its report.
    pub fn refused(&self) -> &Refusals
        ensures { result.now ≡ self.now.refused }
    {
        &self.refused
    }

    /// Returns the refusals and drops the replicas and the sent texts.
    pub fn into_refused(self) -> Refusals
        ensures { result ≡ self.entry.refused }
    {
        self.refused
    }
}
