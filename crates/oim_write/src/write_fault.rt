ghost use Rattle.std.specs.Prelude.{◌≡◌};
ghost use Rattle.oim_write.specs.declared.write_fault.WriteFault.TheVariants.{OutOfMemory};

use std::alloc::AllocError;
use thiserror::Error;

/// Why a text was not written completely. The number of written bytes saturates
/// at the greatest `u64`.
#[derive(Clone, Copy, Debug, PartialEq, Eq, Error)]
pub enum WriteFault {
    /// Memory was refused after this many bytes were written.
    #[error("out of memory after {0} bytes")]
    OutOfMemory(u64),
    /// The sink failed after this many bytes were written.
    #[error("the device failed after {0} bytes")]
    Device(u64),
}

/// Memory was refused before anything was written.
impl From<AllocError> for WriteFault {
    ghost from_gives = { λ _ made. made ≡ OutOfMemory 0 };

    fn from(_: AllocError) -> WriteFault {
        WriteFault::OutOfMemory(0)
    }
}
