ghost use Rattle.std.specs.Prelude.{◌≡◌};
ghost use Rattle.oim_merge.specs.declared.fault.Fault.TheVariants.{OutOfMemory};

use crate::refusals::Refusals;
use oim_names::Reason;
use oim_write::WriteFault;
use std::alloc::AllocError;

/// Why a merged text, verdicts or sources were not written completely. The number of written bytes
/// saturates at the greatest `u64`.
#[derive(Debug, Drop)]
pub enum Fault {
    /// Memory was refused after this many bytes were written.
    OutOfMemory(u64),
    /// The sink failed after this many bytes were written.
    Device(u64),
    /// A dimension set has duplicates above the allowed level, so nothing is written.
    TooLoose {
        /// The number of the first such dimension set, from 1.
        row: u64,
        /// The refusals, with the numbers of their reports, from 1.
        refused: Refusals,
    },
    /// The sheet of a bundle is refused, so nothing is written.
    Sheet(Reason),
}

impl From<WriteFault> for Fault {
    ghost use Rattle.oim_merge.specs.Run.{fault_of};

    ghost from_gives = { λ fault made. made ≡ fault_of fault };

    fn from(fault: WriteFault) -> Fault {
        match fault {
            WriteFault::OutOfMemory(written) => Fault::OutOfMemory(written),
            WriteFault::Device(written) => Fault::Device(written),
        }
    }
}

/// Memory was refused before anything was written.
impl From<AllocError> for Fault {
    ghost from_gives = { λ _ made. made ≡ OutOfMemory 0 };

    fn from(_error: AllocError) -> Fault {
        Fault::OutOfMemory(0)
    }
}
