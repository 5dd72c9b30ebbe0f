ghost use Rattle.std.specs.Prelude.{◌≡◌, None, ⊤};

use crate::tests::ran::Place;
use command_line::{Disk, Error, Folder, Named, Streams, run_words};
use oim_names::Encoded;
use std::alloc::{AllocError, Global};
use std::io::{self, Read, Write};
use test_helpers::asked_again::{joined, may_repeat_here, repeated};

/// How many files there may be, so that adding one requests no memory.
const MOST_FILES: usize = 40;

const ROOM: usize = 1 << 12;

/// Files in memory, by name. If several have one name, the last is read.
#[derive(Drop)]
pub(crate) struct Memory {
    files: Vec<(String, Vec<u8>)>,
}

impl Memory {
    pub(crate) fn new(rt: &HostRuntime) -> Result<Memory, AllocError> {
        let files = match Vec::with_capacity(rt.alloc(), MOST_FILES) {
            Err(_) if may_repeat_here(rt) => Vec::with_capacity(rt.alloc(), MOST_FILES)?,
            made => made?,
        };
        Ok(Memory { files })
    }

    pub(crate) fn add(
        &mut self,
        rt: &HostRuntime,
        name: &str,
        parts: &[&str],
    ) -> Result<(), AllocError> {
        let bytes = joined(rt, parts)?;
        self.files.push((repeated(rt, name, 1)?, bytes))?;
        Ok(())
    }

    pub(crate) fn bytes(&self, name: &str) -> Option<&[u8]> {
        for (known, bytes) in self.files.iter().rev() {
            if known.as_str() == here(name) {
                return Some(bytes.as_slice());
            }
        }
        None
    }
}

impl Folder for Memory {
    ghost gives = { λ _ _ _. ⊤ };

    ghost fails = { λ _ _. ⊤ };

    fn read_named<'n>(&self, alloc: Global, name: &'n str) -> Result<Encoded, Error<'n>> {
        match self.bytes(name) {
            Some(bytes) => Ok(Encoded::from_vec(Vec::from_slice(alloc, bytes)?)),
            None => Err(Error::Unread(name, None)),
        }
    }
}

impl Place for Memory {
    fn run<R: Read + Drop, O: Write + Drop, E: Write + Drop>(
        &mut self,
        rt: &HostRuntime,
        words: &[&str],
        streams: Streams<R, O, E>,
    ) -> u8 {
        let mut disk = MemoryDisk {
            name: None,
            placed: None,
        };
        let status = run_words(rt.alloc(), self, &mut disk, words, streams).status;
        if let (Some(name), Some(NewFile(bytes))) = (disk.name, disk.placed) {
            let _ = self.files.push((name, bytes));
        }
        status
    }
}

/// The name in the only folder.
fn here(name: &str) -> &str {
    name.strip_prefix("./").unwrap_or(name)
}

/// A new file. Writing up to `ROOM` bytes requests no memory.
#[derive(Drop)]
struct NewFile(Vec<u8>);

impl Write for NewFile {
    fn write(&mut self, bytes: &[u8]) -> io::Result<usize> {
        self.0.extend_from_slice(bytes)?;
        Ok(bytes.len())
    }

    fn flush(&mut self) -> io::Result<()> {
        Ok(())
    }
}

/// A disk without folders that takes one file.
#[derive(Drop)]
struct MemoryDisk {
    name: Option<String>,
    placed: Option<NewFile>,
}

impl Disk for MemoryDisk {
    type New = NewFile;

    ghost file = { λ _ _. None };

    ghost free = { λ _ _. ⊤ };

    ghost empty = { λ _. None };

    fn create_beside<'n>(
        &mut self,
        alloc: Global,
        name: &'n str,
    ) -> Result<Named<Self::New>, Error<'n>> {
        if name == "." || here(name).contains('/') {
            return Err(Error::Unwritten(name, None));
        }
        self.name = Some(String::from_str(alloc, here(name))?);
        let file = NewFile(Vec::with_capacity(alloc, ROOM)?);
        let beside = String::from_str(alloc, ".new")?;
        if beside.as_str() == name {
            return Err(Error::Unwritten(name, None));
        }
        Ok(Named { name: beside, file })
    }

    fn put_in_place(&mut self, new: Self::New, _beside: &str, _name: &str) -> io::Result<()> {
        self.placed = Some(new);
        Ok(())
    }

    fn remove(&mut self, _beside: &str) {}

    fn is_same(&self, one: &str, other: &str) -> bool {
        one == other || here(one) == here(other)
    }
}
