//! Finds the first taxonomy-defined dimension in a fact object to which a condition applies.

ghost use Rattle.std.specs.Prelude.{◌≡◌, ◌&&◌, [], codes, option_map, IfOk, OnOk};
ghost use Rattle.oim_names.specs.Expansion.{a_name};
ghost use Rattle.serde_json.specs.View.{view, members_view};
ghost use Rattle.oim_report.specs.Json.{entries, members, object_at};
ghost use Rattle.oim_report.specs.Shown.{beside_first, entry, fact_part, name, repeated, seen};
ghost use Rattle.std.specs.FinMap as map;
ghost use Rattle.oim_report.specs.Holds.{is_misfit, is_some_and, is_unlisted};
ghost use Rattle.oim_report.specs.FactMembers.{defined_members, is_defined};
ghost use Rattle.oim_report.specs.code.MemberTests.{defined_name, first_defined, names_with};

use crate::dimension_kind::DimensionKind;
use crate::fact::fact_part::FactInScope;
use crate::json_values::fact_values::text;
use crate::json_values::json_tree::{has_colon, object_at};
use crate::part::Part;
use crate::sheet::name_table::NameTable;
use crate::sheet::same_names::{beside_first, name_of};
use crate::sheet::{Sheet, find_dimension};
use oim_names::{Aliases, Name, Reason};
use serde_json::{Map, Value};
use std::alloc::{AllocError, Global};

impl<'a> FactInScope<'_, 'a> {
    pub(crate) fn unlisted_dimension(&self) -> Option<Part<'a>>
        ensures { let dimensions = members (object_at (codes "dimensions") (view self.now.object.now)) in
            let found = first_defined (λ k d. is_unlisted self.now.sheet.now self.now.aliases.now k) dimensions in
            option_map seen result ≡ option_map (λ m. name (a_name m.0)) found }
    {
        for (key, _value) in object_at(self.object, "dimensions")?.iter() {
            if is_unlisted_dimension(self.sheet, self.aliases, key.as_str()) {
                return Some(Part::Name(key.as_str()));
            }
        }
        None
    }

    #[tactic(auto, unfolding(crate::specs::Holds::holds, crate::specs::Shown::fact_shown))]
    pub(crate) fn misfit(&self, alloc: Global) -> Result<Option<Part<'a>>, AllocError>
        ensures { IfOk result (λ part. option_map seen part
            ≡ fact_part self.now.sheet.now self.now.aliases.now (view self.now.object.now) Reason.DimensionValue) }
    {
        let Some(dimensions) = object_at(self.object, "dimensions") else {
            return Ok(None);
        };
        if let Some(part) = self.misfit_in(dimensions) {
            return Ok(Some(part));
        }
        two_keys(alloc, self.aliases, dimensions)
    }

    fn misfit_in(&self, dimensions: &'a Map<String, Value>) -> Option<Part<'a>>
        ensures { let found = first_defined (is_misfit self.now.sheet.now self.now.aliases.now) (members_view dimensions.now.entries) in
            option_map seen result ≡ option_map entry found }
    {
        for (key, value) in dimensions.iter() {
            if self.is_misfit(key.as_str(), value) {
                return Some(Part::Member(key.as_str(), value));
            }
        }
        None
    }

    fn is_misfit(&self, key: &str, value: &Value) -> bool
        ensures { result
            ≡ (is_defined key.now && is_misfit self.now.sheet.now self.now.aliases.now key.now (view value.now)) }
    {
        if !is_defined(key) {
            return false;
        }
        match find_dimension(self.sheet, self.aliases, key) {
            Some((_name, DimensionKind::Explicit)) => text(Some(value)).is_none(),
            Some((_name, DimensionKind::Typed)) => text(Some(value)).is_none() && !value.is_null(),
            None => false,
        }
    }
}

fn is_unlisted_dimension(sheet: &Sheet, aliases: &Aliases, key: &str) -> bool
    ensures { result ≡ (is_defined key.now && is_unlisted sheet.now aliases.now key.now) }
{
    is_defined(key)
        && aliases.name_refusal(key).is_none()
        && find_dimension(sheet, aliases, key).is_none()
}

#[tactic(auto, using(crate::proofs::ShownFaults::colon_utf8))]
pub(crate) fn is_defined(key: &str) -> bool
    ensures { result ≡ is_defined key.now }
{
    has_colon(key)
}

fn two_keys<'a>(
    alloc: Global,
    aliases: &Aliases,
    dimensions: &'a Map<String, Value>,
) -> Result<Option<Part<'a>>, AllocError>
    ensures { let ms = members_view dimensions.now.entries in
        IfOk result (λ part. option_map seen part ≡ option_map (λ m. beside_first aliases.now (entries ms) m.0)
        (repeated aliases.now [] (defined_members ms))) }
{
    let mut before: NameTable<DimensionKind> = NameTable::new(alloc);
    for (key, _value) in dimensions.iter() {
        if repeats_name(alloc, aliases, &mut before, key.as_str())? {
            return Ok(Some(beside_first(aliases, dimensions, key.as_str())));
        }
    }
    Ok(None)
}

// Returns whether the key spells a name in `before`. If it spells another name, adds this name.
fn repeats_name(
    alloc: Global,
    aliases: &Aliases,
    before: &mut NameTable<DimensionKind>,
    key: &str,
) -> Result<bool, AllocError>
    ensures again { let name = defined_name aliases.now key.now in
        IfOk result (λ again. again ≡ is_some_and (map.contains_key before.old) name) }
    ensures names { let name = defined_name aliases.now key.now in
        OnOk result (before.new ≡ names_with before.old name) }
{
    let Some(name) = dimension_name(aliases, key)? else {
        return Ok(false);
    };
    // only the names in `before` are looked up, so any kind will do
    before.add(alloc, name, DimensionKind::Explicit)
}

fn dimension_name(aliases: &Aliases, key: &str) -> Result<Option<Name>, AllocError>
    ensures { IfOk result (λ name. name ≡ defined_name aliases.now key.now) }
{
    if is_defined(key) {
        name_of(aliases, key)
    } else {
        Ok(None)
    }
}
