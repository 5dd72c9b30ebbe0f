ghost use Rattle.std.specs.Prelude.{◌≡◌, ◌⊎◌, [], true, false, if◌then◌else◌, Some, None, IfOk, IfErr, option_map};
ghost use Rattle.std.specs.List.{find};
ghost use Rattle.oim_names.specs.Bindings.{is_refused_binding};
ghost use Rattle.oim_names.specs.Expansion.{a_name, refuses};
ghost use Rattle.serde_json.specs.View.{view, members_view};
ghost use Rattle.oim_report.specs.Info.{bindings_of, namespaces_of};
ghost use Rattle.oim_report.specs.Json.{any_in, entries, members};
ghost use Rattle.oim_report.specs.Namespaces.{binds_nothing, bindings_in};
ghost use Rattle.oim_report.specs.Shown.{entry, seen};

use crate::json_values::json_member::JsonMember;
use crate::json_values::json_tree::within;
use crate::part::Part;
use crate::refusal::unless_memory;
use oim_names::{Aliases, Reason};
use serde_json::{Map, Value};
use std::alloc::{AllocError, Global};

pub(crate) fn read_namespaces(
    alloc: Global,
    namespaces: Option<&Map<String, Value>>,
) -> Result<Aliases, Reason>
    ensures bound { let ms = option_map (λ m. members_view m.now.entries) namespaces.entry in
        IfOk result (λ a. (a ≡ bindings_in (members ms)) × (any_in binds_nothing ms ≡ false)) }
    ensures refused { let ms = option_map (λ m. members_view m.now.entries) namespaces.entry in
        IfErr result (λ r. (r ≡ Reason.OutOfMemory)
        ⊎ ((r ≡ Reason.Namespace) × (any_in binds_nothing ms ≡ true))) }
{
    let mut aliases = Aliases::new(alloc);
    let Some(entries) = namespaces else {
        return Ok(aliases);
    };
    for (prefix, uri) in entries.iter() {
        let Some(uri) = JsonMember::of_value(uri).text() else {
            return Err(Reason::Namespace);
        };
        aliases.add(prefix.as_str(), uri)?;
    }
    Ok(aliases)
}

/// Returns the prefixes that a report binds, or `None` if an entry of `namespaces` does not bind a
/// prefix to a URI.
///
/// Errors: out of memory.
pub(crate) fn report_aliases(alloc: Global, tree: &Value) -> Result<Option<Aliases>, AllocError>
    ensures { let refused = any_in binds_nothing (namespaces_of (view tree.now)) in
        IfOk result (λ aliases. aliases ≡ (if refused then None else Some (bindings_of (view tree.now)))) }
{
    let namespaces = within(tree, "documentInfo", "namespaces").and_then(Value::as_object);
    bound_aliases(alloc, namespaces)
}

pub(crate) fn bound_aliases(
    alloc: Global,
    namespaces: Option<&Map<String, Value>>,
) -> Result<Option<Aliases>, AllocError>
    ensures { let ms = option_map (λ m. members_view m.now.entries) namespaces.entry in
        let bound = bindings_in (members ms) in
        IfOk result (λ aliases. aliases ≡ (if any_in binds_nothing ms then None else Some bound)) }
{
    unless_memory(read_namespaces(alloc, namespaces))
}

/// Returns the first entry of `namespaces` that does not bind a prefix to a URI.
pub(crate) fn unbound<'a>(
    alloc: Global,
    namespaces: Option<&'a Map<String, Value>>,
) -> Result<Option<Part<'a>>, AllocError>
    ensures { let ms = option_map (λ m. members_view m.now.entries) namespaces.entry in
        let found = find (λ m. binds_nothing m.0 m.1) (entries (members ms)) in
        IfOk result (λ part. option_map seen part ≡ option_map entry found) }
{
    let Some(entries) = namespaces else {
        return Ok(None);
    };
    for (prefix, uri) in entries.iter() {
        if binds_nothing(alloc, prefix.as_str(), uri)? {
            return Ok(Some(Part::Member(prefix.as_str(), uri)));
        }
    }
    Ok(None)
}

fn binds_nothing(alloc: Global, prefix: &str, uri: &Value) -> Result<bool, AllocError>
    ensures { IfOk result (λ nothing. nothing ≡ binds_nothing prefix.now (view uri.now)) }
{
    match JsonMember::of_value(uri).text() {
        Some(uri) => is_no_binding(alloc, prefix, uri),
        None => Ok(true),
    }
}

fn is_no_binding(alloc: Global, prefix: &str, uri: &str) -> Result<bool, AllocError>
    ensures { IfOk result (λ nothing. nothing ≡ is_refused_binding [] prefix.now uri.now) }
{
    let mut alone = Aliases::new(alloc);
    let bound = unless_memory(alone.add(prefix, uri))?;
    Ok(bound.is_none())
}

#[tactic(auto, using(oim_names::proofs::NameTests::told))]
pub(crate) fn is_refused(aliases: &Aliases, text: &str, reason: Reason) -> bool
    ensures { result ≡ refuses reason aliases.now (a_name text.now) }
{
    aliases.name_refusal(text) == Some(reason)
}
