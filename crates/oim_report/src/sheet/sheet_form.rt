ghost use Rattle.std.specs.Prelude.{◌≡◌, ◌++◌, ◌∷◌, [], is_some, option_map, find};
ghost use Rattle.std.specs.Option.{option_map_or};
ghost use Rattle.std.specs.Result.{result_err};
ghost use Rattle.oim_names.specs.Expansion.{refuses};
ghost use Rattle.serde_json.specs.View.{view, members_view};
ghost use Rattle.oim_report.specs.Json.{members};
ghost use Rattle.oim_report.specs.Names.{names_refusal, refuses_some};
ghost use Rattle.oim_report.specs.Sheet.{key_names, sheet_holds};
ghost use Rattle.oim_report.specs.Shown.{name, nothing, seen, sheet_shown};

use crate::document::namespaces::is_refused;
use crate::json_values::json_tree::{is_no_object, object_at, unknown_in};
use crate::part::Part;
use oim_names::{Aliases, Reason};
use serde_json::{Map, Value};

pub(crate) fn check_form(tree: &Value) -> Result<(), Reason>
    ensures { let form = Reason.MemberForm ∷ Reason.UnknownMember ∷ [] in
        result_err result ≡ find (sheet_holds (view tree.now)) form }
{
    if misshapen(tree).is_some() {
        return Err(Reason::MemberForm);
    }
    if unknown(tree).is_some() {
        return Err(Reason::UnknownMember);
    }
    Ok(())
}

#[tactic(auto, unfolding(crate::specs::Sheet::sheet_holds, crate::specs::Shown::sheet_shown))]
pub(crate) fn misshapen(tree: &Value) -> Option<Part<'_>>
    ensures any { is_some result ≡ sheet_holds (view tree.now) Reason.MemberForm }
    ensures part { option_map_or seen result nothing ≡ sheet_shown (view tree.now) Reason.MemberForm }
{
    if !tree.is_object() {
        return Some(Part::Whole);
    }
    if is_no_object(tree.get("namespaces")) {
        return Some(Part::NoObject("namespaces"));
    }
    if is_no_object(tree.get("concepts")) {
        return Some(Part::NoObject("concepts"));
    }
    if is_no_object(tree.get("dimensions")) {
        return Some(Part::NoObject("dimensions"));
    }
    None
}

#[tactic(auto, unfolding(crate::specs::Sheet::sheet_holds, crate::specs::Shown::sheet_shown), using(crate::proofs::ShownFaults::any_found_in))]
pub(crate) fn unknown(tree: &Value) -> Option<Part<'_>>
    ensures any { is_some result ≡ sheet_holds (view tree.now) Reason.UnknownMember }
    ensures part { option_map_or seen result nothing ≡ sheet_shown (view tree.now) Reason.UnknownMember }
{
    let key = unknown_in(tree.as_object(), &["namespaces", "concepts", "dimensions"])?;
    Some(Part::Key(key))
}

pub(crate) fn check_names(
    aliases: &Aliases,
    concepts: Option<&Map<String, Value>>,
    dimensions: Option<&Map<String, Value>>,
) -> Result<(), Reason>
    ensures { let listed = members (option_map (λ m. members_view m.now.entries) concepts.entry) in
        let defined = members (option_map (λ m. members_view m.now.entries) dimensions.entry) in
        result_err result ≡ names_refusal aliases.now (key_names listed ++ key_names defined) }
{
    if refuses_either(aliases, concepts, dimensions, Reason::NameForm) {
        return Err(Reason::NameForm);
    }
    if refuses_either(aliases, concepts, dimensions, Reason::UnboundPrefix) {
        return Err(Reason::UnboundPrefix);
    }
    if refuses_either(aliases, concepts, dimensions, Reason::ReservedNamespace) {
        return Err(Reason::ReservedNamespace);
    }
    Ok(())
}

fn refuses_either(
    aliases: &Aliases,
    concepts: Option<&Map<String, Value>>,
    dimensions: Option<&Map<String, Value>>,
    reason: Reason,
) -> bool
    ensures { let listed = members (option_map (λ m. members_view m.now.entries) concepts.entry) in
        let defined = members (option_map (λ m. members_view m.now.entries) dimensions.entry) in
        result ≡ refuses_some reason aliases.now (key_names listed ++ key_names defined) }
{
    refuses_key(aliases, concepts, reason) || refuses_key(aliases, dimensions, reason)
}

#[tactic(auto, using(crate::proofs::ShownFaults::shown_some))]
fn refuses_key(aliases: &Aliases, listed: Option<&Map<String, Value>>, reason: Reason) -> bool
    ensures { let ms = members (option_map (λ m. members_view m.now.entries) listed.entry) in
        result ≡ refuses_some reason aliases.now (key_names ms) }
{
    refused_key(aliases, listed, reason).is_some()
}

pub(crate) fn refused_key<'a>(
    aliases: &Aliases,
    entries: Option<&'a Map<String, Value>>,
    reason: Reason,
) -> Option<Part<'a>>
    ensures { let all = key_names (members (option_map (λ m. members_view m.now.entries) entries.entry)) in
        option_map seen result ≡ option_map name (find (refuses reason aliases.now) all) }
{
    for (key, _kind) in entries?.iter() {
        if is_refused(aliases, key.as_str(), reason) {
            return Some(Part::Name(key.as_str()));
        }
    }
    None
}
