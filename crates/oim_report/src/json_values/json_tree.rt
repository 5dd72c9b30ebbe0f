ghost use Rattle.std.specs.Prelude.{◌≡◌, ◌⊎◌, Some, None, IfOk, IfErr, map, is_some, option_map, bytes_eq};
ghost use Rattle.std.specs.List.{list_any};
ghost use Rattle.serde_json.specs.Data.{null};
ghost use Rattle.serde_json.specs.View.{view, members_view};
ghost use Rattle.oim_report.specs.Json.{without_mark, json, object_at, within, any_in, has_member, has_colon, is_unknown, is_no_object, is_no_array};
ghost use Rattle.oim_report.specs.Shown.{unknown_in};

use oim_names::Reason;
use serde_json::{Map, Value};
use std::alloc::Global;

/// Parses a JSON value in UTF-8 (RFC 8259) with at most `MOST_LEVELS` levels. A byte order mark
/// before the value is skipped.
pub(crate) fn read_json(alloc: Global, bytes: &[u8]) -> Result<Value, Reason>
    ensures value { IfOk result (λ v. json bytes.now ≡ Some (view v)) }
    ensures refused { IfErr result
        (λ r. (r ≡ Reason.OutOfMemory) ⊎ ((r ≡ Reason.NotJson) × (json bytes.now ≡ None))) }
{
    match Value::from_slice(alloc, after_mark(bytes)) {
        Ok(value) => Ok(value),
        Err(error) if error.is_memory() => Err(Reason::OutOfMemory),
        Err(_) => Err(Reason::NotJson),
    }
}

/// Returns the bytes after the UTF-8 byte order mark at the start, or all bytes if there is no
/// mark.
pub fn after_mark(bytes: &[u8]) -> &[u8]
    ensures { result.now ≡ without_mark bytes.now }
{
    match bytes.strip_prefix(b"\xef\xbb\xbf") {
        Some(rest) => rest,
        None => bytes,
    }
}

pub(crate) fn object_at<'a>(value: &'a Value, key: &str) -> Option<&'a Map<String, Value>>
    ensures { option_map (λ m. members_view m.now.entries) result
        ≡ object_at key.now (view value.now) }
{
    value.get(key).and_then(Value::as_object)
}

pub(crate) fn within<'a>(value: &'a Value, outer: &str, key: &str) -> Option<&'a Value>
    ensures { option_map (λ v. view v.now) result ≡ within outer.now key.now (view value.now) }
{
    value.get(outer)?.get(key)
}

#[tactic(auto, using(crate::proofs::Filled::filled_members))]
pub(crate) fn has_member(object: Option<&Map<String, Value>>) -> bool
    ensures { result ≡ has_member (option_map (λ m. members_view m.now.entries) object.entry) }
{
    match object {
        Some(members) => !members.is_empty(),
        None => false,
    }
}

/// In `dimensions`, a key with a colon names a taxonomy-defined dimension. In the root of a report
/// or a sheet, in `documentInfo` and in a fact, a key with a colon belongs to an extension.
pub(crate) fn has_colon(key: &str) -> bool
    ensures { result ≡ has_colon key.now }
{
    key.as_bytes().iter().any(|byte| *byte == b':')
}

pub(crate) fn unknown_in<'a>(
    object: Option<&'a Map<String, Value>>,
    known: &[&str],
) -> Option<&'a str>
    ensures any { let members = option_map (λ m. members_view m.now.entries) object.entry in
        is_some result ≡ any_in (is_unknown (map (λ s. s.now) known.now)) members }
    ensures first { let members = option_map (λ m. members_view m.now.entries) object.entry in
        let found = unknown_in (map (λ s. s.now) known.now) members in
        option_map (λ k. k.now) result ≡ option_map (λ m. m.0) found }
{
    for (key, _value) in object?.iter() {
        if is_unknown_key(key.as_str(), known) {
            return Some(key.as_str());
        }
    }
    None
}

fn is_unknown_key(key: &str, known: &[&str]) -> bool
    ensures { result ≡ is_unknown (map (λ s. s.now) known.now) key.now null }
{
    !has_colon(key) && !is_one_of(key, known)
}

pub(crate) fn is_one_of(key: &str, known: &[&str]) -> bool
    ensures { result ≡ list_any (λ k. bytes_eq k key.now) (map (λ s. s.now) known.now) }
{
    for name in known {
        if *name == key {
            return true;
        }
    }
    false
}

pub(crate) fn is_no_object(member: Option<&Value>) -> bool
    ensures { result ≡ is_no_object (option_map (λ v. view v.now) member.entry) }
{
    member.is_some_and(|value| !value.is_object())
}

pub(crate) fn is_no_array(member: Option<&Value>) -> bool
    ensures { result ≡ is_no_array (option_map (λ v. view v.now) member.entry) }
{
    member.is_some_and(|value| !value.is_array())
}
