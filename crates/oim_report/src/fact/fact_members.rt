//! Reads the members of a fact, from a JSON value or from a tape. Both lend the texts, so they are
//! not copied.

ghost use Rattle.std.specs.Prelude.{◌≡◌, ◌≤◌, ◌||◌, length, true, false, IfNone, IfOk, IfSome, OnOk, insert, option_map, option_and_then};
ghost use Rattle.json.specs.Find.{BeginsWith};
ghost use Rattle.json.specs.Json.{Json, object};
ghost use Rattle.json.specs.Json as spec;
ghost use Rattle.serde_json.specs.Data.{Data, Members, no_members, put};
ghost use Rattle.serde_json.specs.Find.{as_object};
ghost use Rattle.serde_json.specs.View.{view, members_view};
ghost use Rattle.oim_report.specs.Json.{Given, given, is_no_object};
ghost use Rattle.oim_report.specs.FactMembers.{DimensionMembers as FormMembers, HasForm, defined_in, dimension_parts, fact_parts, parts_of};
ghost use Rattle.oim_report.specs.ReadBack.{with_given};
ghost use Rattle.oim_report.specs.code.JsonMember.{seen};
ghost use Rattle.oim_report.specs.code.SeenMembers.{seen_defined, seen_dimensions, seen_parts};
ghost use Rattle.oim_report.specs.code.TapeValues.{Ascends, AreDimensions, IsFactObject, IsPut};

use crate::json_values::json_member::JsonMember;
use crate::json_values::json_tree::{has_colon, has_member, is_no_object, unknown_in};
use crate::json_values::skipped::skip_value;
use crate::limits::{MOST_INSERTED, MOST_MEMBER_LEVELS};
use crate::unread::Unread;
use json::Element;
use serde_json::{Map, Value};
use std::alloc::{AllocError, Global};
use std::cmp::Ordering;

// The members that the format defines for a fact object, and for its dimensions
// (xBRL-JSON 1.0, section 3.1).
pub(crate) const FACT_KEYS: [&str; 4] = ["value", "decimals", "dimensions", "links"];

pub(crate) const CORE_KEYS: [&str; 6] = [
    "concept", "entity", "period", "unit", "language", "noteId",
];

/// The members of a fact's `dimensions`.
#[derive(Drop)]
pub(crate) struct DimensionMembers<'a> {
    pub(crate) concept: JsonMember<'a>,
    pub(crate) entity: JsonMember<'a>,
    pub(crate) period: JsonMember<'a>,
    pub(crate) unit: JsonMember<'a>,
    pub(crate) language: JsonMember<'a>,
    pub(crate) note: JsonMember<'a>,
    /// The members whose keys have a colon, in byte order of the keys.
    pub(crate) defined: Vec<(&'a str, JsonMember<'a>)>,
    /// Whether some key has no colon and names no core dimension.
    pub(crate) unknown: bool,
}

impl<'a> DimensionMembers<'a> {
    // Separates the core dimensions (OIM 1.0) from the other members.
    fn of(alloc: Global, object: &'a Value) -> Result<Option<DimensionMembers<'a>>, AllocError>
        ensures { IfOk result
            (λ parts. option_map seen_dimensions parts ≡ option_map dimension_parts (as_object (view object.now))) }
    {
        let Some(members) = object.as_object() else {
            return Ok(None);
        };
        Ok(Some(DimensionMembers {
            concept: JsonMember::of(object.get("concept")),
            entity: JsonMember::of(object.get("entity")),
            period: JsonMember::of(object.get("period")),
            unit: JsonMember::of(object.get("unit")),
            language: JsonMember::of(object.get("language")),
            note: JsonMember::of(object.get("noteId")),
            defined: defined_in(alloc, members)?,
            unknown: unknown_in(Some(members), &CORE_KEYS).is_some(),
        }))
    }
}

fn defined_in<'a>(
    alloc: Global,
    members: &'a Map<String, Value>,
) -> Result<Vec<(&'a str, JsonMember<'a>)>, AllocError>
    ensures { IfOk result
        (λ defined. seen_defined defined.items ≡ defined_in (members_view members.now.entries)) }
{
    let mut defined = Vec::new(alloc);
    for (key, value) in members.iter() {
        let key = key.as_str();
        if has_colon(key) {
            defined.push((key, JsonMember::of_value(value)))?;
        }
    }
    Ok(defined)
}

/// The members of a fact object.
#[derive(Drop)]
pub(crate) struct FactMembers<'a> {
    pub(crate) value: JsonMember<'a>,
    pub(crate) decimals: JsonMember<'a>,
    /// The parts of `dimensions`, if it is an object.
    pub(crate) dimensions: Option<DimensionMembers<'a>>,
    /// Whether `links` has a member.
    pub(crate) linked: bool,
    /// Whether `dimensions` or `links` exists and is not an object.
    pub(crate) misshapen: bool,
    /// Whether a key other than `value`, `decimals`, `dimensions` and `links` has no colon.
    pub(crate) unknown: bool,
}

impl<'a> FactMembers<'a> {
    // Ignores the members of extensions (xBRL-JSON 1.0, section 3.1).
    pub(crate) fn of(
        alloc: Global,
        object: &'a Value,
    ) -> Result<Option<FactMembers<'a>>, AllocError>
        ensures { IfOk result (λ parts. option_map seen_parts parts ≡ fact_parts (view object.now)) }
    {
        let dimensions = object.get("dimensions");
        let links = object.get("links");
        let Some(members) = object.as_object() else {
            return Ok(None);
        };
        Ok(Some(FactMembers {
            value: JsonMember::of(object.get("value")),
            decimals: JsonMember::of(object.get("decimals")),
            dimensions: dimensions_of(alloc, dimensions)?,
            linked: has_member(links.and_then(Value::as_object)),
            misshapen: is_misshapen(dimensions, links),
            unknown: unknown_in(Some(members), &FACT_KEYS).is_some(),
        }))
    }
}

fn dimensions_of<'a>(
    alloc: Global,
    dimensions: Option<&'a Value>,
) -> Result<Option<DimensionMembers<'a>>, AllocError>
    ensures { let found = option_map (λ v. view v.now) dimensions.entry in
        IfOk result (λ parts. option_map seen_dimensions parts
        ≡ option_map dimension_parts (option_and_then as_object found)) }
{
    match dimensions {
        Some(object) => DimensionMembers::of(alloc, object),
        None => Ok(None),
    }
}

fn is_misshapen(dimensions: Option<&Value>, links: Option<&Value>) -> bool
    ensures { let found = option_map (λ v. view v.now) dimensions.entry in
        result ≡ (is_no_object found || is_no_object (option_map (λ v. view v.now) links.entry)) }
{
    is_no_object(dimensions) || is_no_object(links)
}

pub(crate) fn well_formed<'p, 'a>(parts: &'p FactMembers<'a>) -> Option<&'p DimensionMembers<'a>>
    ensures form { let p = seen_parts parts.now in
        IfSome result (λ found. HasForm p (seen_dimensions found.now)) }
    ensures none { let p = seen_parts parts.now in
        IfNone result ((ds : FormMembers) → ¬ (HasForm p ds)) }
{
    let dimensions = parts.dimensions.as_ref()?;
    let is_unknown = parts.unknown || dimensions.unknown;
    if parts.misshapen || is_unknown || parts.linked || !dimensions.note.is_absent() {
        return None;
    }
    Some(dimensions)
}

impl<'a> DimensionMembers<'a> {
    fn new(alloc: Global) -> DimensionMembers<'a>
        ensures { seen_dimensions result ≡ dimension_parts no_members }
    {
        DimensionMembers {
            concept: JsonMember::Absent,
            entity: JsonMember::Absent,
            period: JsonMember::Absent,
            unit: JsonMember::Absent,
            language: JsonMember::Absent,
            note: JsonMember::Absent,
            defined: Vec::new(alloc),
            unknown: false,
        }
    }

    fn of_element(alloc: Global, object: &Element<'_, 'a>) -> Result<DimensionMembers<'a>, Unread>
        ensures { (v : Json) → BeginsWith object.now v
            → IfOk result (λ parts. AreDimensions v (seen_dimensions parts)) }
    {
        let Some(mut members) = object.members() else {
            return Err(Unread::NeedsTree);
        };
        let mut parts = DimensionMembers::new(alloc);
        while let Some((key, member)) = members.next() {
            parts.put(key, JsonMember::of_element(&member)?)?;
        }
        Ok(parts)
    }

    fn put(&mut self, key: &'a str, member: JsonMember<'a>) -> Result<(), Unread>
        ensures { OnOk result ((d : Data) (ms : Members) → given d ≡ seen member.entry → Ascends ms
            → dimension_parts ms ≡ seen_dimensions self.old
            → dimension_parts (put key.now d ms) ≡ seen_dimensions self.new) }
    {
        match key {
            "concept" => self.concept = member,
            "entity" => self.entity = member,
            "period" => self.period = member,
            "unit" => self.unit = member,
            "language" => self.language = member,
            "noteId" => self.note = member,
            key if has_colon(key) => return self.put_defined(key, member),
            _ => return Err(Unread::NeedsTree),
        }
        Ok(())
    }

    // Inserts a taxonomy-defined dimension in byte order of the keys.
    fn put_defined(&mut self, key: &'a str, member: JsonMember<'a>) -> Result<(), Unread>
        ensures others { self.new ≡ record self.old { defined = self.new.defined } }
        ensures defined { OnOk result (seen_defined self.new.defined.items
            ≡ with_given key.now (seen member.entry) (seen_defined self.old.defined.items)) }
    {
        match insertion_index(self.defined.as_slice(), key) {
            Some(at) if self.defined.len() < MOST_INSERTED => {
                self.defined.insert(at, (key, member))?;
                Ok(())
            }
            _ => Err(Unread::NeedsTree),
        }
    }
}

// Returns the index at which `key` is inserted in a list that is in byte order of the keys, or
// `None` if the list has the key.
fn insertion_index(defined: &[(&str, JsonMember<'_>)], key: &str) -> Option<usize>
    ensures within { IfSome result (λ at. at ≤ length defined.now) }
    ensures index { IfSome result (λ at. (g : Given)
        → with_given key.now g (seen_defined defined.now) ≡ insert (seen_defined defined.now) at (key.now, g)) }
{
    let mut at: usize = 0;
    for (other, _member) in defined {
        match key.cmp(other) {
            Ordering::Less => return Some(at),
            Ordering::Equal => return None,
            Ordering::Greater => at += 1,
        }
    }
    Some(at)
}

impl<'a> FactMembers<'a> {
    fn new() -> FactMembers<'a>
        ensures are { seen_parts result ≡ parts_of no_members }
        ensures shaped { result.misshapen ≡ false }
        ensures unlinked { result.linked ≡ false }
    {
        FactMembers {
            value: JsonMember::Absent,
            decimals: JsonMember::Absent,
            dimensions: None,
            linked: false,
            misshapen: false,
            unknown: false,
        }
    }

    /// Returns the parts of the fact object at this place of a tape. The result is `NeedsTree` if
    /// the value is not an object, or if `put` does not accept a member.
    pub(crate) fn of_element(
        alloc: Global,
        object: &Element<'_, 'a>,
    ) -> Result<FactMembers<'a>, Unread>
        ensures { (v : Json) → BeginsWith object.now v
            → IfOk result (λ parts. IsFactObject v (seen_parts parts)) }
    {
        let Some(mut members) = object.members() else {
            return Err(Unread::NeedsTree);
        };
        let mut parts = FactMembers::new();
        while let Some((key, member)) = members.next() {
            parts.put(alloc, key, &member)?;
        }
        Ok(parts)
    }

    fn put(&mut self, alloc: Global, key: &str, member: &Element<'_, 'a>) -> Result<(), Unread>
        ensures { (v : Json) → BeginsWith member.now v
            → OnOk result (IsPut key.now v (seen_parts self.old) (seen_parts self.new)) }
    {
        match key {
            "value" => self.value = JsonMember::of_element(member)?,
            "decimals" => self.decimals = JsonMember::of_element(member)?,
            "dimensions" => self.dimensions = Some(DimensionMembers::of_element(alloc, member)?),
            "links" if is_empty_object(member) => {}
            key if has_colon(key) => skip_value(member, MOST_MEMBER_LEVELS - 1)?,
            _ => return Err(Unread::NeedsTree),
        }
        Ok(())
    }
}

fn is_empty_object(element: &Element<'_, '_>) -> bool
    ensures { (v : Json) → BeginsWith element.now v → result ≡ true → v ≡ object spec.no_members }
{
    match element.members() {
        Some(mut members) => members.next().is_none(),
        None => false,
    }
}
