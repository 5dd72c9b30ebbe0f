//! Why a file cannot be read or written.

use crate::error::STANDARD_INPUT;
use std::fs::{self, File, Metadata};
use std::io::{Error, ErrorKind};
use std::os::unix::fs::FileTypeExt;
use std::rt::Files;

/// Returns why the file with this name cannot be read, if the cause is known.
pub(crate) fn why_unread<F: Files>(files: &F, name: &str) -> Option<&'static str> {
    match fs::metadata(files, name) {
        Err(fault) if fault.kind() == ErrorKind::NotFound => Some(why_missing(files, name)),
        Ok(found) if found.is_dir() => Some("It is a folder."),
        Ok(found) if found.file_type().is_socket() => Some("It is a socket."),
        // a pipe is not opened again: that would wait for its writer
        Ok(found) if !found.is_file() => None,
        _ => why_unopened(files, name),
    }
}

fn why_unopened<F: Files>(files: &F, name: &str) -> Option<&'static str> {
    match File::open(files, name) {
        Err(fault) if fault.kind() == ErrorKind::PermissionDenied => {
            Some("You may not read it: permission denied.")
        }
        _ => None,
    }
}

fn why_missing<F: Files>(files: &F, name: &str) -> &'static str {
    if name == STANDARD_INPUT {
        "There is no such file; for standard input, use /dev/stdin."
    } else if name.contains("://") {
        "URLs are not downloaded."
    } else if fs::symlink_metadata(files, name).is_ok() {
        "It is a link to a file that does not exist."
    } else {
        "There is no such file."
    }
}

/// Returns why the output does not replace what has its name.
pub(crate) fn why_kept(found: &Metadata) -> &'static str {
    if found.is_symlink() {
        "It is a link; only a regular file is replaced."
    } else if found.is_dir() {
        "It is a folder."
    } else {
        "It is a device, pipe or socket; only a regular file is replaced."
    }
}

/// Returns why no file can be created beside the output, if the cause is known.
pub(crate) fn why_uncreated(fault: &Error) -> Option<&'static str> {
    match fault.kind() {
        ErrorKind::NotFound => Some("There is no such folder."),
        ErrorKind::PermissionDenied => Some("You may not write to its folder: permission denied."),
        _ => None,
    }
}
