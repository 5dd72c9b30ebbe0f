ghost use Rattle.std.specs.Prelude.{◌≡◌, ◌<◌, None, false, IsTrue, ◌↔◌, ◌++◌, [], length, slice_set, IfOk, OnOk};
ghost use Rattle.std.specs.List.{All, slice_index_or};
ghost use Rattle.oim_merge.specs.Bases.{base_of};
ghost use Rattle.oim_merge.specs.code.Held.{KeepReadings, sent_texts, world_in};
ghost use Rattle.oim_merge.specs.Replay.{refused_by};
ghost use Rattle.oim_merge.specs.Replicas.{joined_with, wire};
ghost use Rattle.oim_merge.specs.Schedule.{happens, is_outside, names_none, start};

use crate::event::Event;
use crate::messages::Messages;
use crate::readings::{Reading, none_read, take_at};
use crate::refusals::Refusals;
use fact_base::BaseBuilder;
use oim_names::Encoded;
use oim_report::Sheet;
use std::alloc::{AllocError, Global};
use std::mem::replace;

/// Replicas while a schedule runs, with the texts that they sent, the refused takes, and the
/// reports read so far.
#[derive(Drop)]
pub(crate) struct Replicas<'s> {
    pub bases: Vec<BaseBuilder<'s>>,
    /// For each replica, the index in `messages.texts` of its base's text, or None if the index is
    /// not known.
    pub current: Vec<Option<usize>>,
    pub messages: Messages<'s>,
    pub refused: Refusals,
    pub reports: Vec<Reading<'s>>,
}

impl<'s> Replicas<'s> {
    pub(crate) fn new(
        alloc: Global,
        sheet: &'s Sheet,
        n: usize,
        reports: &[Encoded],
    ) -> Result<Replicas<'s>, AllocError>
        ensures world { IfOk result (λ made. world_in made ≡ start (wire sheet.now [] []) n) }
        ensures refused { IfOk result (λ made. made.refused ≡ []) }
        ensures kept { IfOk result (KeepReadings sheet.now reports.now) }
    {
        let mut bases = Vec::new(alloc);
        let mut current = Vec::new(alloc);
        for _made in 0..n {
            bases.push(BaseBuilder::new(alloc, sheet))?;
            current.push(None)?;
        }
        Ok(Replicas {
            bases,
            current,
            messages: Messages::new(alloc),
            refused: Refusals::new(alloc),
            reports: none_read(alloc, reports.len())?,
        })
    }

    /// Returns whether the replicas, the report and the sent text that the event names exist.
    pub(crate) fn has_named(&self, event: Event, reports: usize) -> bool
        ensures { IsTrue result ↔ (names_none (length self.now.bases.items) reports
            (length (sent_texts self.now.messages)) event ≡ false) }
    {
        let (replicas, sent) = (self.bases.len(), self.messages.sent.len());
        match event {
            Event::Take(i, r) => is_there(i, replicas) && is_there(r, reports),
            Event::Join(i, j) => is_there(i, replicas) && is_there(j, replicas),
            Event::Send(i) | Event::Restart(i) => is_there(i, replicas),
            Event::Receive(i, k) => is_there(i, replicas) && is_there(k, sent),
        }
    }

    pub(crate) fn step(
        &mut self,
        alloc: Global,
        sheet: &'s Sheet,
        reports: &[Encoded],
        event: Event,
    ) -> Result<(), AllocError>
        requires there { names_none (length self.old.bases.items) (length reports.now)
            (length (sent_texts self.old.messages)) event ≡ false }
        requires sheets { All (λ base. base.sheet ≡ sheet.now) self.old.bases.items }
        requires kept { KeepReadings sheet.now reports.now self.old }
        ensures world { OnOk result
            (world_in self.new ≡ happens (wire sheet.now [] reports.now) (world_in self.old) event) }
        ensures refused { OnOk result
            (self.new.refused ≡ self.old.refused ++ refused_by sheet.now reports.now event) }
        ensures kept { OnOk result (KeepReadings sheet.now reports.now self.new) }
    {
        match event {
            Event::Take(i, r) => {
                let (index, report) = (i as usize - 1, r as usize - 1);
                forget(&mut self.current, index);
                let kept = self.reports.as_mut_slice();
                let base = &mut self.bases[index];
                if let Some(refusal) = take_at(alloc, sheet, reports, kept, report, base)? {
                    self.refused.push(u64::from(r), refusal)?;
                }
            }
            Event::Join(i, j) => {
                let (index, other) = (i as usize - 1, j as usize - 1);
                forget(&mut self.current, index);
                join_at(alloc, sheet, &mut self.bases, index, other)?
            }
            Event::Send(i) => {
                let index = i as usize - 1;
                let current = &mut self.current[index];
                self.messages.send(alloc, &mut self.bases[index], current)?;
            }
            Event::Receive(i, k) => {
                let index = i as usize - 1;
                let base = &mut self.bases[index];
                self.messages.give(alloc, sheet, k as usize - 1, base)?;
                // a replica that has only facts of the text does not write the text again
                let base = &self.bases[index];
                let known = self.messages.index_if_of(k as usize - 1, base);
                set_current(&mut self.current, index, known);
            }
            Event::Restart(i) => {
                let index = i as usize - 1;
                forget(&mut self.current, index);
                self.bases[index] = BaseBuilder::new(alloc, sheet);
            }
        }
        Ok(())
    }
}

fn is_there(number: u32, greatest: usize) -> bool
    ensures { IsTrue result ↔ (is_outside greatest number ≡ false) }
{
    number >= 1 && number as usize <= greatest
}

// Forgets the replica's current text, because the replica's base may change.
fn forget(current: &mut Vec<Option<usize>>, index: usize)
    ensures { current.new.items ≡ slice_set current.old.items index None }
{
    set_current(current, index, None);
}

fn set_current(current: &mut Vec<Option<usize>>, index: usize, text: Option<usize>)
    ensures { current.new.items ≡ slice_set current.old.items index text }
{
    if let Some(known) = current.get_mut(index) {
        *known = text;
    }
}

fn join_at<'s>(
    alloc: Global,
    sheet: &'s Sheet,
    bases: &mut Vec<BaseBuilder<'s>>,
    index: usize,
    other: usize,
) -> Result<(), AllocError>
    requires index_within { index < length bases.old.items }
    requires other_within { other < length bases.old.items }
    requires sheets { All (λ base. base.sheet ≡ sheet.now) bases.old.items }
    ensures { OnOk result (bases.new.items ≡ slice_set bases.old.items index
        (joined_with (slice_index_or bases.old.items index (base_of sheet.now []))
        (slice_index_or bases.old.items other (base_of sheet.now [])))) }
{
    if index == other {
        // a base that joins itself does not change; the proof needs the contract of `sheet`
        let _sheet = bases[index].sheet();
        return Ok(());
    }
    let whole = replace(&mut bases[other], BaseBuilder::new(alloc, sheet)).into_base()?;
    bases[index].join(&whole)?;
    bases[other] = BaseBuilder::of(alloc, whole);
    Ok(())
}
