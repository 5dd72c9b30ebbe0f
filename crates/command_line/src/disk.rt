ghost use Rattle.std.specs.Prelude.{◌≡◌, ◌≢◌, ℕ, List, Option, None, IfOk, IfErr, OnOk, OnErr, false, string_bytes, ⊤};
ghost use Rattle.std.specs.Io.KnownBytes.{Keeps};
ghost use Rattle.command_line.specs.Faults.{IsWriteError};

use crate::causes::{why_kept, why_uncreated};
use crate::error::Error;
use std::alloc::{AllocError, Global};
use std::fs::{self, OpenFile, OpenOptions, Permissions};
use std::io::{self, ErrorKind, Write};
use std::os::unix::fs::{MetadataExt, OpenOptionsExt, PermissionsExt};
use std::rt::Files;

/// The mode bits that the new file gets from the old one. The new file may have another owner, so
/// setuid, setgid and sticky are not among them.
const KEPT_BITS: u32 = 0o777;

/// The mode of a new file until it gets the old one's, so that no other user can open it before.
const PRIVATE: u32 = 0o600;

/// A new file, and its name (own).
#[derive(Drop)]
pub struct Named<W> {
    pub name: String,
    pub file: W,
}

/// Files that a new file can replace: those of the system, or an embedder's own (own).
pub trait Disk {
    /// A new file that takes the output.
    type New: Write + Drop;

    /// The bytes of the file with this name, if contracts can see them.
    ghost file: { Self → List ℕ → Option (List ℕ) };

    /// Whether no file has this name.
    ghost free: { Self → List ℕ → Type 0 };

    /// The bytes of a new file.
    ghost empty: { Self → Option (List ℕ) };

    /// Creates a file beside the file with this name.
    ///
    /// Errors: `Unwritten` and out of memory.
    fn create_beside<'n>(
        &mut self,
        alloc: Global,
        name: &'n str,
    ) -> Result<Named<Self::New>, Error<'n>>
        ensures empty { IfOk result (λ new. Self.New.contents new.file ≡ empty self.old) }
        ensures beside { IfOk result (λ new. string_bytes new.name ≢ name.now) }
        ensures err { IfErr result (IsWriteError name.now) }
        ensures free { IfOk result (λ new. free self.old (string_bytes new.name)) }
        ensures others { IfOk result (λ new. (other : List ℕ) → other ≢ string_bytes new.name → file self.new other ≡ file self.old other) }
        ensures none { OnErr result ((other : List ℕ) → file self.new other ≡ file self.old other) }
        ensures old { file self.new name.now ≡ file self.old name.now };

    /// Renames the new file, which has the name `beside`, to `name`.
    ///
    /// Errors: those of the device.
    fn put_in_place(&mut self, new: Self::New, beside: &str, name: &str) -> io::Result<()>
        ensures ok { OnOk result (Keeps (Self.New.contents new) (file self.new name.now)) }
        ensures err { OnErr result (file self.new name.now ≡ file self.old name.now) }
        ensures others { (other : List ℕ) → other ≢ name.now → other ≢ beside.now → file self.new other ≡ file self.old other };

    /// Removes the file with this name, if that is possible.
    fn remove(&mut self, beside: &str)
        ensures { (name : List ℕ) → name ≢ beside.now → file self.new name ≡ file self.old name };

    /// Returns whether both names are those of one file.
    fn is_same(&self, one: &str, other: &str) -> bool
        ensures { result ≡ false → one.now ≢ other.now };
}

/// A file whose bytes contracts cannot see.
#[derive(Drop)]
pub(crate) struct Unseen<W>(W);

impl<W: Write> Write for Unseen<W> {
    fn write(&mut self, bytes: &[u8]) -> io::Result<usize> {
        self.0.write(bytes)
    }

    fn flush(&mut self) -> io::Result<()> {
        self.0.flush()
    }
}

/// The files of the system.
#[derive(Clone, Copy)]
pub(crate) struct System<'f, F>(pub &'f F);

// The contracts of std do not describe the bytes of a file.
impl<F: Files> Disk for System<'_, F> {
    type New = Unseen<F::File>;

    ghost file = { λ _ _. None };

    ghost free = { λ _ _. ⊤ };

    ghost empty = { λ _. None };

    /// If there is an old file, the new one gets the old mode bits within `KEPT_BITS`.
    fn create_beside<'n>(
        &mut self,
        alloc: Global,
        name: &'n str,
    ) -> Result<Named<Self::New>, Error<'n>> {
        let Named { name, file } = new_beside(alloc, self.0, name)?;
        Ok(Named {
            name,
            file: Unseen(file),
        })
    }

    // The new file stays open until it is renamed.
    fn put_in_place(&mut self, new: Self::New, beside: &str, name: &str) -> io::Result<()> {
        let Unseen(mut file) = new;
        file.flush()?;
        file.sync_all()?;
        fs::rename(self.0, beside, name)
    }

    fn remove(&mut self, beside: &str) {
        let _ = fs::remove_file(self.0, beside);
    }

    /// Follows links, and compares devices and inodes.
    fn is_same(&self, one: &str, other: &str) -> bool {
        if one == other {
            return true;
        }
        is_one_file(self.0, one, other)
    }
}

fn is_one_file<F: Files>(files: &F, one: &str, other: &str) -> bool {
    match (fs::metadata(files, one), fs::metadata(files, other)) {
        (Ok(one), Ok(other)) => one.dev() == other.dev() && one.ino() == other.ino(),
        _ => false,
    }
}

/// Errors: `Unwritten` if `old_mode` returns it, or if the new file cannot be created or its mode
/// cannot be set; out of memory.
fn new_beside<'w, F: Files>(
    alloc: Global,
    files: &F,
    name: &'w str,
) -> Result<Named<F::File>, Error<'w>>
    ensures beside { IfOk result (λ new. string_bytes new.name ≢ name.now) }
    ensures err { IfErr result (IsWriteError name.now) }
{
    let kept = old_mode(files, name)?;
    let mut how = OpenOptions::new();
    how.write(true).create_new(true);
    if kept.is_some() {
        how.mode(PRIVATE);
    }
    let new = first_new(alloc, files, &how, name)?;
    if let Some(mode) = kept {
        if new.file.set_permissions(mode).is_err() {
            let _ = fs::remove_file(files, new.name.as_str());
            return Err(Error::Unwritten(name, None));
        }
    }
    Ok(new)
}

/// Returns the bits of the file's mode within `KEPT_BITS`; None if no file has this name.
///
/// Errors: `Unwritten` if the name is empty, cannot be looked up, or belongs to a symbolic link or
/// anything else that is not a regular file.
fn old_mode<'w, F: Files>(files: &F, name: &'w str) -> Result<Option<Permissions>, Error<'w>>
    ensures { IfErr result (IsWriteError name.now) }
{
    match fs::symlink_metadata(files, name) {
        Ok(old) if old.is_file() => {
            let mode = old.permissions().mode() & KEPT_BITS;
            Ok(Some(Permissions::from_mode(mode)))
        }
        Err(fault) if fault.kind() == ErrorKind::NotFound && !name.is_empty() => Ok(None),
        Ok(found) => Err(Error::Unwritten(name, Some(why_kept(&found)))),
        Err(_) => Err(Error::Unwritten(name, None)),
    }
}

/// Creates a file whose name has the first free number. Files with lower numbers belong to programs
/// that still run, or that were interrupted.
///
/// Errors: `Unwritten` if the file cannot be created; out of memory.
fn first_new<'w, F: Files>(
    alloc: Global,
    files: &F,
    how: &OpenOptions,
    name: &'w str,
) -> Result<Named<F::File>, Error<'w>>
    ensures beside { IfOk result (λ new. string_bytes new.name ≢ name.now) }
    ensures err { IfErr result (IsWriteError name.now) }
{
    for number in 0..u32::MAX {
        let beside = name_beside(alloc, name, number)?;
        if beside.as_str() == name {
            continue;
        }
        match how.open(files, beside.as_str()) {
            Ok(file) => return Ok(Named { name: beside, file }),
            Err(fault) if fault.kind() == ErrorKind::AlreadyExists => {}
            Err(fault) => return Err(Error::Unwritten(name, why_uncreated(&fault))),
        }
    }
    Err(Error::Unwritten(name, None))
}

fn name_beside(alloc: Global, name: &str, number: u32) -> Result<String, AllocError> {
    match name.rsplit_once('/') {
        Some((folder, _)) => format!(in alloc; "{folder}/.xbrlmerge-{number}"),
        None => format!(in alloc; ".xbrlmerge-{number}"),
    }
}
