//! Finds the first name in a fact object to which a condition on names applies. The search does not
//! allocate.

ghost use Rattle.std.specs.Prelude.{◌≡◌, [], codes, if◌then◌else◌, map, option_map, option_and_then};
ghost use Rattle.std.specs.List.{find};
ghost use Rattle.std.specs.Option.{option_map_or, option_to_list};
ghost use Rattle.serde_json.specs.View.{view};
ghost use Rattle.oim_report.specs.Holds.{as_text, is_kind, names, pieces, value_text};
ghost use Rattle.oim_report.specs.Json.{members, object_at};
ghost use Rattle.oim_names.specs.Expansion.{a_name, an_entity, refuses};
ghost use Rattle.oim_report.specs.Shown.{name, seen};
ghost use Rattle.oim_report.specs.FactMembers.{is_defined};
ghost use Rattle.oim_report.specs.code.MemberTests.{names_at, names_in};

use crate::concept_kind::ConceptKind;
use crate::dimension_kind::DimensionKind;
use crate::document::namespaces::is_refused;
use crate::fact::dimension_part::is_defined;
use crate::fact::fact_part::FactInScope;
use crate::json_values::fact_values::{dimension, text};
use crate::json_values::json_tree::object_at;
use crate::part::Part;
use crate::sheet::find_dimension;
use oim_dims::{is_unit_text, refused_piece};
use oim_names::{Aliases, Reason};
use serde_json::Value;

impl<'a> FactInScope<'_, 'a> {
    #[tactic(auto, using(crate::proofs::ShownFaults::shown_parts))]
    pub(crate) fn refused_name(&self, reason: Reason) -> Option<Part<'a>>
        ensures { let dimensions = members (object_at (codes "dimensions") (view self.now.object.now)) in
            let all = names self.now.sheet.now self.now.aliases.now (view self.now.object.now) dimensions in
            option_map seen result ≡ option_map name (find (refuses reason self.now.aliases.now) all) }
    {
        if let Some(part) = refused_text(self.aliases, dimension(self.object, "concept"), reason) {
            return Some(part);
        }
        if let Some(part) = refused_entity(self.aliases, dimension(self.object, "entity"), reason) {
            return Some(part);
        }
        if let Some(part) = self.refused_dimension(reason) {
            return Some(part);
        }
        if let Some(part) = refused_unit(self.aliases, dimension(self.object, "unit"), reason) {
            return Some(part);
        }
        self.refused_value(reason)
    }

    #[tactic(auto, using(crate::proofs::ShownFaults::none_before))]
    fn refused_dimension(&self, reason: Reason) -> Option<Part<'a>>
        ensures { let dimensions = members (object_at (codes "dimensions") (view self.now.object.now)) in
            let all = names_in self.now.sheet.now self.now.aliases.now dimensions in
            option_map seen result ≡ option_map name (find (refuses reason self.now.aliases.now) all) }
    {
        for (key, value) in object_at(self.object, "dimensions")?.iter() {
            if let Some(part) = self.refused_member(key.as_str(), value, reason) {
                return Some(part);
            }
        }
        None
    }

    fn refused_member(&self, key: &'a str, value: &'a Value, reason: Reason) -> Option<Part<'a>>
        ensures { let all = names_at self.now.sheet.now self.now.aliases.now (key.now, view value.now) in
            option_map seen result ≡ option_map name (find (refuses reason self.now.aliases.now) all) }
    {
        if !is_defined(key) {
            return None;
        }
        if is_refused(self.aliases, key, reason) {
            return Some(Part::Name(key));
        }
        match find_dimension(self.sheet, self.aliases, key) {
            Some((_name, DimensionKind::Explicit)) => {
                refused_text(self.aliases, Some(value), reason)
            }
            _ => None,
        }
    }

    fn refused_value(&self, reason: Reason) -> Option<Part<'a>>
        ensures { let dimensions = members (object_at (codes "dimensions") (view self.now.object.now)) in
            let named = is_kind self.now.sheet.now self.now.aliases.now (view self.now.object.now) dimensions ConceptKind.Name in
            let text = value_text self.now.sheet.now self.now.aliases.now (view self.now.object.now) dimensions in
            let all = map a_name (if named then option_to_list text else []) in
            option_map seen result ≡ option_map name (find (refuses reason self.now.aliases.now) all) }
    {
        match self.kind {
            Some(ConceptKind::Name) => {
                refused_text(self.aliases, self.object.get("value"), reason)
            }
            _ => None,
        }
    }
}

fn refused_text<'a>(aliases: &Aliases, value: Option<&'a Value>, reason: Reason) -> Option<Part<'a>>
    ensures { let found = option_and_then as_text (option_map (λ v. view v.now) value.entry) in
        let all = map a_name (option_to_list found) in
        option_map seen result ≡ option_map name (find (refuses reason aliases.now) all) }
{
    match text(value) {
        Some(text) if is_refused(aliases, text, reason) => Some(Part::Name(text)),
        _ => None,
    }
}

fn refused_entity<'a>(
    aliases: &Aliases,
    value: Option<&'a Value>,
    reason: Reason,
) -> Option<Part<'a>>
    ensures { let found = option_and_then as_text (option_map (λ v. view v.now) value.entry) in
        let all = map an_entity (option_to_list found) in
        option_map seen result ≡ option_map name (find (refuses reason aliases.now) all) }
{
    match text(value) {
        Some(text) if is_refused_entity(aliases, text, reason) => Some(Part::Entity(text)),
        _ => None,
    }
}

#[tactic(auto, using(oim_names::proofs::NameTests::told))]
fn is_refused_entity(aliases: &Aliases, text: &str, reason: Reason) -> bool
    ensures { result ≡ refuses reason aliases.now (an_entity text.now) }
{
    aliases.entity_refusal(text) == Some(reason)
}

fn refused_unit<'a>(aliases: &Aliases, unit: Option<&'a Value>, reason: Reason) -> Option<Part<'a>>
    ensures { let found = option_and_then as_text (option_map (λ v. view v.now) unit.entry) in
        let all = map a_name (option_map_or pieces found []) in
        option_map seen result ≡ option_map name (find (refuses reason aliases.now) all) }
{
    let text = text(unit)?;
    if !is_unit_text(text) {
        return None;
    }
    match refused_piece(aliases, reason, text) {
        Some(piece) => Some(Part::Name(piece)),
        None => None,
    }
}
