ghost use Rattle.std.specs.Prelude.{◌≡◌, ◌≢◌, Err, IfOk};
ghost use Rattle.std.specs.Result.{result_ok};
ghost use Rattle.oim_report.specs.Outcome.{at};
ghost use Rattle.oim_report.specs.declared.place.Place.TheVariants.{Document, Fact};
ghost use Rattle.oim_names.specs.declared.reason.Reason.TheVariants.{OutOfMemory};

use crate::place::Place;
use oim_names::Reason;
use std::alloc::{AllocError, AllocFailed};

/// A reason to refuse a report, with its place.
#[derive(Clone, Copy, Debug, PartialEq, Eq)]
pub struct Refusal {
    /// Why the report is refused.
    pub reason: Reason,
    /// Where the reason applies.
    pub place: Place,
}

impl Refusal {
    pub(crate) fn of_fact(reason: Reason, number: u64) -> Refusal
        ensures fact { reason ≢ OutOfMemory → result ≡ at (Fact number) reason }
        ensures memory { reason ≡ OutOfMemory → result ≡ at Document OutOfMemory }
    {
        match reason {
            Reason::OutOfMemory => Refusal::from(reason),
            _ => Refusal {
                reason,
                place: Place::Fact(number),
            },
        }
    }
}

/// Converts a reason into a refusal that has the document as its place.
impl From<Reason> for Refusal {
    ghost from_gives = { λ reason refusal. refusal ≡ at Document reason };

    fn from(reason: Reason) -> Refusal {
        Refusal {
            reason,
            place: Place::Document,
        }
    }
}

impl From<AllocError> for Refusal {
    ghost from_gives = { λ _ refusal. refusal ≡ at Document OutOfMemory };

    fn from(_: AllocError) -> Refusal {
        Refusal::from(Reason::OutOfMemory)
    }
}

impl<T: Drop> From<AllocFailed<T>> for Refusal {
    ghost from_gives = { λ _ refusal. refusal ≡ at Document OutOfMemory };

    fn from(_: AllocFailed<T>) -> Refusal {
        Refusal::from(Reason::OutOfMemory)
    }
}

pub(crate) fn unless_memory<T: Drop>(read: Result<T, Reason>) -> Result<Option<T>, AllocError>
    ensures { IfOk result (λ found. (found ≡ result_ok read) × (read ≢ Err Reason.OutOfMemory)) }
{
    match read {
        Ok(value) => Ok(Some(value)),
        Err(Reason::OutOfMemory) => Err(AllocError),
        Err(_) => Ok(None),
    }
}
