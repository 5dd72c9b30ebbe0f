use oim_names::Reason;
use oim_report::{Place, Refusal, Report, Sheet, read_report};
use std::alloc::{AllocError, Global};
use std::env::Env;

// Functions that repeat a call if a request for memory was refused. Each test that repeats a call
// asks `may_repeat` first.

/// A sheet with every kind of concept and dimension.
pub const SHEET: &str =
    r#"{"namespaces":{"eg":"http://example.org/t"},"concepts":{"eg:A":"numeric","eg:B":"numeric","eg:T":"text","eg:Q":"name"},"dimensions":{"eg:Reg":"explicit","eg:Sku":"typed"}}"#;

pub const INFO: &str =
    r#"{"documentInfo":{"documentType":"https://xbrl.org/2021/xbrl-json","namespaces":{"eg":"http://example.org/t","x":"http://example.org/u","xbrli":"http://www.xbrl.org/2003/instance","xbrl":"https://xbrl.org/2021"}},"facts":{"#;

/// The beginning of a report, up to and including its document type.
pub const OPEN_INFO: &str = r#"{"documentInfo":{"documentType":"https://xbrl.org/2021/xbrl-json""#;

/// Returns whether a call that returned want of memory may be repeated, and prints `refused` on
/// standard error.
///
/// Only `tests/program/refused_memory` refuses requests for memory. It sets the environment variable
/// `REFUSE` to the number of the request that it refuses, or to 0. In any other run, no request is
/// refused. Then a call that returns want of memory has no reason, and its test must fail.
pub fn may_repeat(rt: &HostRuntime) -> bool {
    let _ = eprintln!(rt; "refused");
    is_request_refused(rt)
}

/// Does the same as `may_repeat` for a request for the test's own data, and prints `refused here`.
pub fn may_repeat_here(rt: &HostRuntime) -> bool {
    let _ = eprintln!(rt; "refused here");
    is_request_refused(rt)
}

// A buffer on the stack, because reading the variable must not request memory.
fn is_request_refused(rt: &HostRuntime) -> bool {
    let mut number = [0; 20];
    match rt.var("REFUSE", &mut number) {
        Ok(length) => number.get(..length) != Some(b"0".as_slice()),
        Err(_) => false,
    }
}

pub fn read_sheet(rt: &HostRuntime, text: &str) -> Result<Sheet, Reason> {
    match Sheet::read(rt.alloc(), text.as_bytes()) {
        Err(Reason::OutOfMemory) if may_repeat(rt) => Sheet::read(rt.alloc(), text.as_bytes()),
        answer => answer,
    }
}

/// Reads a report. If memory is refused, the call is repeated once.
pub fn read<'s>(rt: &HostRuntime, sheet: &'s Sheet, bytes: &[u8]) -> Result<Report<'s>, Refusal> {
    match read_once(rt.alloc(), sheet, bytes) {
        Err(refusal) if is_want_of_memory(refusal) && may_repeat(rt) => read_once(
            rt.alloc(),
            sheet,
            bytes,
        ),
        answer => answer,
    }
}

/// Reads a report. Tests call this function instead of `read_report`, whose long contract makes
/// each call slow to prove.
pub fn read_once<'s>(alloc: Global, sheet: &'s Sheet, bytes: &[u8]) -> Result<Report<'s>, Refusal> {
    read_report(alloc, sheet, bytes)
}

pub fn is_want_of_memory(refusal: Refusal) -> bool {
    refusal
        == Refusal {
            reason: Reason::OutOfMemory,
            place: Place::Document,
        }
}

/// Returns whether the call returns true. If memory is refused, the call is repeated once; if
/// memory is refused again, returns false.
pub fn holds<F: Fn(Global) -> Result<bool, AllocError>>(rt: &HostRuntime, call: F) -> bool
    requires { F.IsAlwaysCallable call }
{
    let mut answer = call(rt.alloc());
    if answer.is_err() && may_repeat(rt) {
        answer = call(rt.alloc());
    }
    answer == Ok(true)
}

/// Returns whether the call returns true under `SHEET`.
pub fn holds_under_sheet<F: Fn(&HostRuntime, &Sheet) -> bool>(rt: &HostRuntime, call: F) -> bool
    requires { F.IsAlwaysCallable call }
{
    match read_sheet(rt, SHEET) {
        Ok(sheet) => call(rt, &sheet),
        Err(_) => false,
    }
}

pub fn joined(rt: &HostRuntime, parts: &[&str]) -> Result<Vec<u8>, AllocError> {
    let mut all = space_for(rt, length_of(parts))?;
    for part in parts {
        all.extend_from_slice(part.as_bytes())?;
    }
    Ok(all)
}

/// Returns a text that repeats the piece `count` times. If memory is refused, asks
/// `may_repeat_here` and tries once more.
pub fn repeated(rt: &HostRuntime, piece: &str, count: usize) -> Result<String, AllocError> {
    match piece.repeat(rt.alloc(), count) {
        Err(_) if may_repeat_here(rt) => piece.repeat(rt.alloc(), count),
        made => made,
    }
}

fn length_of(parts: &[&str]) -> usize {
    let mut length = 0usize;
    for part in parts {
        length = length.saturating_add(part.len());
    }
    length
}

/// Returns an empty list with space for this many bytes. If memory is refused, asks
/// `may_repeat_here` and tries once more.
pub fn space_for(rt: &HostRuntime, bytes: usize) -> Result<Vec<u8>, AllocError> {
    match Vec::with_capacity(rt.alloc(), bytes) {
        Err(_) if may_repeat_here(rt) => Vec::with_capacity(rt.alloc(), bytes),
        made => made,
    }
}
