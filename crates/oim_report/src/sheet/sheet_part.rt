ghost use Rattle.std.specs.Prelude.{◌≡◌, ◌≢◌, Some, IfOk, option_map};
ghost use Rattle.std.specs.List.{find};
ghost use Rattle.std.specs.Option.{option_map_or};
ghost use Rattle.oim_names.specs.Expansion.{refuses};
ghost use Rattle.serde_json.specs.View.{view, members_view};
ghost use Rattle.oim_report.specs.Json.{members};
ghost use Rattle.oim_report.specs.Least.{least};
ghost use Rattle.oim_report.specs.Sheet.{sheet_bindings, sheet_holds, sheet_names};
ghost use Rattle.oim_report.specs.Shown.{name, nothing, seen, sheet_part, sheet_shown, two_kinds};

use crate::concept_kind::ConceptKind;
use crate::dimension_kind::DimensionKind;
use crate::document::namespaces::{bound_aliases, unbound};
use crate::json_values::json_tree::object_at;
use crate::part::Part;
use crate::sheet::Sheet;
use crate::sheet::kind::Kind;
use crate::sheet::name_table::{first_of_other_kind, first_without_kind, read_table};
use crate::sheet::same_names::beside_first;
use crate::sheet::sheet_form::{misshapen, refused_key, unknown};
use oim_names::{Aliases, Reason};
use serde_json::{Map, Value};
use std::alloc::{AllocError, Global};

/// Returns the condition for which a sheet is refused, with the part to which it applies, or `None`
/// exactly if the sheet is accepted (own). If the condition applies to several parts, the first is
/// returned.
///
/// Errors: out of memory.
pub fn sheet_part(alloc: Global, tree: &Value) -> Result<Option<(Reason, Part<'_>)>, AllocError>
    ensures { IfOk result (λ found. option_map (λ f. (f.0, seen f.1)) found ≡ sheet_part (view tree.now)) }
{
    match Sheet::from_tree(alloc, tree) {
        Ok(_) => Ok(None),
        Err(Reason::OutOfMemory) => Err(AllocError),
        Err(reason) => {
            let part = part_at_fault(alloc, tree, reason)?;
            Ok(Some((reason, part)))
        }
    }
}

#[tactic(auto, using(crate::proofs::ShownFaults::seen_or))]
fn part_at_fault(alloc: Global, tree: &Value, reason: Reason) -> Result<Part<'_>, AllocError>
    requires { least (sheet_holds (view tree.now)) ≡ Some reason }
    ensures { IfOk result (λ part. seen part ≡ sheet_shown (view tree.now) reason) }
{
    match reason {
        Reason::MemberForm => Ok(misshapen(tree).unwrap_or(Part::Nothing)),
        Reason::UnknownMember => Ok(unknown(tree).unwrap_or(Part::Nothing)),
        Reason::Namespace => {
            let entry = unbound(alloc, object_at(tree, "namespaces"))?;
            Ok(entry.unwrap_or(Part::Nothing))
        }
        _ => match bound_aliases(alloc, object_at(tree, "namespaces"))? {
            Some(aliases) => entry_at_fault(alloc, tree, &aliases, reason),
            None => Ok(Part::Nothing),
        },
    }
}

#[tactic(auto, unfolding(crate::specs::Shown::sheet_shown))]
fn entry_at_fault<'a>(
    alloc: Global,
    tree: &'a Value,
    aliases: &Aliases,
    reason: Reason,
) -> Result<Part<'a>, AllocError>
    requires form { reason ≢ Reason.MemberForm }
    requires known { reason ≢ Reason.UnknownMember }
    requires bound { reason ≢ Reason.Namespace }
    requires aliases { aliases.now ≡ sheet_bindings (view tree.now) }
    ensures { IfOk result (λ part. seen part ≡ sheet_shown (view tree.now) reason) }
{
    match reason {
        Reason::NameForm => Ok(name_at_fault(tree, aliases, Reason::NameForm)),
        Reason::UnboundPrefix => Ok(name_at_fault(tree, aliases, Reason::UnboundPrefix)),
        Reason::ReservedNamespace => Ok(name_at_fault(tree, aliases, Reason::ReservedNamespace)),
        Reason::SheetKind => kind_at_fault(alloc, tree, aliases),
        _ => Ok(Part::Nothing),
    }
}

#[tactic(auto, using(crate::proofs::ShownFaults::first_name))]
fn name_at_fault<'a>(tree: &'a Value, aliases: &Aliases, reason: Reason) -> Part<'a>
    ensures { let all = sheet_names (view tree.now) in
        seen result ≡ option_map_or name (find (refuses reason aliases.now) all) nothing }
{
    if let Some(part) = refused_key(aliases, object_at(tree, "concepts"), reason) {
        return part;
    }
    refused_key(aliases, object_at(tree, "dimensions"), reason).unwrap_or(Part::Nothing)
}

#[tactic(auto, unfolding(crate::specs::Shown::sheet_shown))]
fn kind_at_fault<'a>(
    alloc: Global,
    tree: &'a Value,
    aliases: &Aliases,
) -> Result<Part<'a>, AllocError>
    requires { aliases.now ≡ sheet_bindings (view tree.now) }
    ensures { IfOk result (λ part. seen part ≡ sheet_shown (view tree.now) Reason.SheetKind) }
{
    let (concepts, dimensions) = (object_at(tree, "concepts"), object_at(tree, "dimensions"));
    if let Some(part) = first_without_kind::<ConceptKind>(concepts) {
        return Ok(part);
    }
    if let Some(part) = first_without_kind::<DimensionKind>(dimensions) {
        return Ok(part);
    }
    if let Some(part) = two_kinds::<ConceptKind>(alloc, aliases, concepts)? {
        return Ok(part);
    }
    let part = two_kinds::<DimensionKind>(alloc, aliases, dimensions)?;
    Ok(part.unwrap_or(Part::Nothing))
}

fn two_kinds<'a, K: Kind>(
    alloc: Global,
    aliases: &Aliases,
    entries: Option<&'a Map<String, Value>>,
) -> Result<Option<Part<'a>>, AllocError>
    ensures { let ms = members (option_map (λ m. members_view m.now.entries) entries.entry) in
        IfOk result (λ part. option_map seen part ≡ two_kinds K.kind_named K.same_kind aliases.now ms) }
{
    let Some(members) = entries else {
        return Ok(None);
    };
    let names = read_table::<K>(alloc, aliases, entries)?;
    match first_of_other_kind(&names, aliases, entries) {
        Some(key) => Ok(Some(beside_first(aliases, members, key))),
        None => Ok(None),
    }
}
