ghost use Rattle.std.specs.Prelude.{◌≡◌, ℕ, List, IfOk, IfErr, IfSome, ⊤};
ghost use Rattle.command_line.specs.Why.{IsCutInput, IsLost, IsUnread};

use crate::causes::why_unread;
use crate::error::Error;
use oim_merge::{ReadFault, StdSource, read_all};
use oim_names::Encoded;
use std::alloc::Global;
use std::fs::File;
use std::io::Read;
use std::rt::Files;

/// The most bytes that a file may have.
const MOST_BYTES: u32 = 2_147_483_648;

/// Files that are read by name: those of the system, or an embedder's own (own).
pub trait Folder {
    /// Whether a read of the file with this name may give these bytes.
    ghost gives: { Self → List ℕ → List ℕ → Type 0 };

    /// Whether a read of the file with this name may fail, also because the file is too long.
    ghost fails: { Self → List ℕ → Type 0 };

    /// Reads the file with this name to its end.
    ///
    /// Errors: `Unread`, `TooLong`, and out of memory.
    fn read_named<'n>(&self, alloc: Global, name: &'n str) -> Result<Encoded, Error<'n>>
        ensures ok { IfOk result (gives self.now name.now) }
        ensures why { IfErr result (IsUnread (IsLost (fails self.now) name.now)) };
}

// The contracts of std do not describe the bytes of a file.
impl<F: Files> Folder for F {
    ghost gives = { λ _ _ _. ⊤ };

    ghost fails = { λ _ _. ⊤ };

    fn read_named<'n>(&self, alloc: Global, name: &'n str) -> Result<Encoded, Error<'n>> {
        read_file(alloc, self, name)
    }
}

fn read_file<'n, F: Files>(alloc: Global, files: &F, name: &'n str) -> Result<Encoded, Error<'n>>
    ensures { IfErr result (IsUnread (IsLost (λ _. ⊤) name.now)) }
{
    let read = match File::open(files, name) {
        Ok(file) => read_bytes(alloc, file, name),
        Err(_) => Err(Error::Unread(name, None)),
    };
    match read {
        Err(Error::Unread(..)) => Err(Error::Unread(name, why_unread(files, name))),
        read => read,
    }
}

/// Reads to the end. Errors name the file `name`.
pub(crate) fn read_bytes<'n, R: Read + Drop>(
    alloc: Global,
    reader: R,
    name: &'n str,
) -> Result<Encoded, Error<'n>>
    ensures ok { IfOk result (λ bytes. IfSome (R.remaining reader) (λ all. bytes ≡ all)) }
    ensures why { IfErr result (IsCutInput (R.remaining reader) name.now) }
{
    match read_all(alloc, &mut StdSource::new(reader), MOST_BYTES) {
        Ok(bytes) => Ok(bytes),
        Err(ReadFault::OutOfMemory) => Err(Error::OutOfMemory),
        Err(ReadFault::TooLong) => Err(Error::TooLong(name)),
        Err(ReadFault::Device(_)) => Err(Error::Unread(name, None)),
    }
}
