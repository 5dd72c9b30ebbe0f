ghost use Rattle.std.specs.Prelude.{◌≡◌};
ghost use Rattle.oim_names.specs.declared.reason.Reason.TheVariants as reasons;
ghost use Rattle.oim_report.specs.declared.unread.Unread.TheVariants.{OutOfMemory};

use oim_names::Reason;
use std::alloc::{AllocError, AllocFailed};

/// Why the fast readers do not read a report, a fact or a part of a fact.
#[derive(Clone, Copy)]
pub(crate) enum Unread {
    /// A request for memory is refused.
    OutOfMemory,
    /// The text cannot be read in pieces or from a tape, or a condition refuses it. The tree of the
    /// piece or of the whole text shows which.
    NeedsTree,
}

impl From<AllocError> for Unread {
    ghost from_gives = { λ _ unread. unread ≡ OutOfMemory };

    fn from(_: AllocError) -> Unread {
        Unread::OutOfMemory
    }
}

impl<T: Drop> From<AllocFailed<T>> for Unread {
    ghost from_gives = { λ _ unread. unread ≡ OutOfMemory };

    fn from(_: AllocFailed<T>) -> Unread {
        Unread::OutOfMemory
    }
}

impl From<Reason> for Unread {
    ghost from_gives = { λ reason unread. reason ≡ reasons.OutOfMemory → unread ≡ OutOfMemory };

    fn from(reason: Reason) -> Unread {
        match reason {
            Reason::OutOfMemory => Unread::OutOfMemory,
            _ => Unread::NeedsTree,
        }
    }
}

impl From<json::Error> for Unread {
    fn from(error: json::Error) -> Unread {
        match error {
            json::Error::OutOfMemory => Unread::OutOfMemory,
            _ => Unread::NeedsTree,
        }
    }
}
