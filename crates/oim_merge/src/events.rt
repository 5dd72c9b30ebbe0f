ghost use Rattle.std.specs.Prelude.{◌≡◌, [], ◌++◌, ◌∷◌, IfOk, IfErr, OnOk, OnErr};
ghost use Rattle.oim_merge.specs.EventLines.{ReadingEventsStops, SaysEvents};
ghost use Rattle.oim_merge.specs.declared.events.ReplayFault.TheVariants.{OutOfMemory};

use crate::bundle::cut_line;
use crate::event::{Event, read_event};
use std::alloc::{AllocError, Global};
use std::marker::Model;
use thiserror::Error;

/// The events of a schedule, in order.
#[derive(Debug, Drop)]
pub struct Events {
    events: Vec<Event>,
}

impl Model for Events {
    ghost use Rattle.std.specs.Prelude.{List};
    ghost use Rattle.oim_merge.specs.declared.event.Event.{Event as Happening};

    ghost Value = { List Happening };

    ghost view = { λ e. e.events.items };
}

impl Events {
    fn push(&mut self, event: Event) -> Result<(), AllocError>
        ensures ok { OnOk result (self.new ≡ self.old ++ event ∷ []) }
        ensures err { OnErr result (self.new ≡ self.old) }
    {
        self.events.push(event)?;
        Ok(())
    }

    /// Returns the events in the order of their lines.
    pub fn as_slice(&self) -> &[Event]
        ensures { result.now ≡ self.now }
    {
        self.events.as_slice()
    }
}

/// Why a schedule was not read, or was not run to its end.
#[derive(Clone, Copy, Debug, PartialEq, Eq, Error)]
pub enum ReplayFault {
    /// Memory was refused. The result so far is lost.
    #[error("out of memory")]
    OutOfMemory,
    /// `read_events` returns the number, from 1, of the first line that is not an event. `replay`
    /// returns the number of the first event that names a replica, a report or a sent text that
    /// does not exist.
    #[error("line {0} is refused")]
    BadEvent(u64),
}

impl From<AllocError> for ReplayFault {
    ghost from_gives = { λ _ made. made ≡ OutOfMemory };

    fn from(_error: AllocError) -> ReplayFault {
        ReplayFault::OutOfMemory
    }
}

/// Reads a schedule. Each line is an event: `take I R`, `join I J`, `send I`, `receive I K` or
/// `restart I`. Words and numbers are separated by single spaces. Numbers are whole, from 1 to
/// 4294967295, without leading zeros. The last line end may be missing. An empty file has no lines.
///
/// Errors: `BadEvent` with the number, from 1, of the first line without this form; `OutOfMemory`.
pub fn read_events(alloc: Global, bytes: &[u8]) -> Result<Events, ReplayFault>
    ensures ok { IfOk result (SaysEvents bytes.now) }
    ensures err { IfErr result (ReadingEventsStops bytes.now) }
{
    let mut events = Events {
        events: Vec::new(alloc),
    };
    let mut rest = bytes;
    while !rest.is_empty() {
        let (line, behind) = cut_line(rest);
        let Some(event) = read_event(line) else {
            // each earlier line is an event, so this line has the next number
            return Err(ReplayFault::BadEvent(events.as_slice().len() as u64 + 1));
        };
        events.push(event)?;
        rest = behind;
    }
    Ok(events)
}
