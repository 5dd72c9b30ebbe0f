ghost use Rattle.std.specs.Prelude.{◌≡◌};
ghost use Rattle.oim_merge.specs.Run.{fault_of};
ghost use Rattle.command_line.specs.Faults.{IsUsageError, error_of, error_of_events};

use clap::error::ErrorKind;
use oim_merge::{Fault, Refusals, ReplayFault};
use oim_names::Reason;
use oim_write::WriteFault;
use std::alloc::{AllocError, AllocFailed};

/// The name of standard input after `--reports-from` and in printed lines.
pub(crate) const STANDARD_INPUT: &str = "-";

/// The result of a command that ran to its end.
#[derive(Drop)]
pub(crate) enum Success {
    /// The refused reports, or the refused takes of `replay`. The list is empty for help and the
    /// version.
    Refusals(Refusals),
    /// The number of faults; a line was written for each.
    Faults(u64),
}

/// Why the program stops early (own). A `Folder` and a `Disk` return only the errors that their
/// methods name.
#[derive(Drop)]
pub enum Error<'n> {
    /// The arguments are not valid. The error has clap's message.
    Usage(clap::Error),
    /// The file with this name cannot be read, or is a list of names that is not UTF-8. Standard
    /// input has the name `-`. The text is the cause, if it is known.
    Unread(&'n str, Option<&'static str>),
    /// The file with this name has more than `MOST_BYTES` bytes.
    TooLong(&'n str),
    /// The file with this name should list reports, but neither the file nor the arguments name
    /// one.
    NoNames(&'n str),
    /// The file with this name cannot be written. The text is the cause, if it is known.
    Unwritten(&'n str, Option<&'static str>),
    /// The line with this number, from 1, of the schedule is not an event, or names a report,
    /// replica or message that does not exist.
    Event(u64),
    /// The sheet is refused.
    Sheet {
        reason: Reason,
        /// A line that describes the fault, which only `explain` adds.
        explained: Option<String>,
        /// The guessed kind of the file and the command to run, if the file is part of a taxonomy.
        kind: Option<&'static str>,
    },
    /// The row with this number is the first above the allowed level. The list contains the refused
    /// reports, if any.
    TooLoose(u64, Refusals),
    /// The output failed after this many bytes.
    Device(u64),
    /// The output is longer than this bound, in bytes. Standard output may have a beginning of it.
    TooMuch(u64),
    OutOfMemory,
}

impl From<clap::Error> for Error<'_> {
    ghost from_gives = { λ _ made. IsUsageError made };

    fn from(error: clap::Error) -> Self {
        match error.kind() {
            ErrorKind::OutOfMemory => Error::OutOfMemory,
            _ => Error::Usage(error),
        }
    }
}

impl From<Fault> for Error<'_> {
    ghost from_gives = { λ fault made. made ≡ error_of fault };

    fn from(fault: Fault) -> Self {
        match fault {
            Fault::OutOfMemory(_) => Error::OutOfMemory,
            Fault::Device(written) => Error::Device(written),
            Fault::TooLoose { row, refused } => Error::TooLoose(row, refused),
            Fault::Sheet(reason) => Error::Sheet {
                reason,
                explained: None,
                kind: None,
            },
        }
    }
}

impl From<WriteFault> for Error<'_> {
    ghost from_gives = { λ fault made. made ≡ error_of (fault_of fault) };

    fn from(fault: WriteFault) -> Self {
        Error::from(Fault::from(fault))
    }
}

impl From<ReplayFault> for Error<'_> {
    ghost from_gives = { λ fault made. made ≡ error_of_events fault };

    fn from(fault: ReplayFault) -> Self {
        match fault {
            ReplayFault::OutOfMemory => Error::OutOfMemory,
            ReplayFault::BadEvent(line) => Error::Event(line),
        }
    }
}

impl From<AllocError> for Error<'_> {
    ghost use Rattle.command_line.specs.declared.error.Error.TheVariants as error;

    ghost from_gives = { λ _ made. made ≡ error.OutOfMemory };

    fn from(_: AllocError) -> Self {
        Error::OutOfMemory
    }
}

impl<T: Drop> From<AllocFailed<T>> for Error<'_> {
    ghost use Rattle.command_line.specs.declared.error.Error.TheVariants as error;

    ghost from_gives = { λ _ made. made ≡ error.OutOfMemory };

    fn from(_: AllocFailed<T>) -> Self {
        Error::OutOfMemory
    }
}
