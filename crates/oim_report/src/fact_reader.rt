//! Reads facts under a sheet and the prefixes of a report.

ghost use Rattle.std.specs.Prelude.{◌≡◌, ◌≢◌, ◌+◌, ◌≤◌, ◌⊎◌, [], length, vec_len, vec_capacity, Ok, Err, Some, None, IfOk, IfErr, IfSome, OnOk, option_map};
ghost use Rattle.oim_dims.specs.declared.fact.Fact.{Fact as AFact};
ghost use Rattle.serde_json.specs.Data.{Data};
ghost use Rattle.serde_json.specs.View.{view, members_view};
ghost use Rattle.oim_report.specs.code.JsonMember.{seen};
ghost use Rattle.oim_report.specs.code.TextCache.{concept_with};
ghost use Rattle.oim_report.specs.code.Ranks.{IsRank};
ghost use Rattle.oim_report.specs.code.SeenMembers.{seen_defined, seen_dimensions, seen_parts};
ghost use Rattle.oim_report.specs.Holds.{holds};
ghost use Rattle.oim_report.specs.Info.{facts_of};
ghost use Rattle.oim_report.specs.Least.{least};
ghost use Rattle.oim_report.specs.Outcome.{at, fact_outcome, facts_said};
ghost use Rattle.oim_report.specs.Said.{concept_kind, fact_of, said_concept, said_dimensions, said_member, said_members};
ghost use Rattle.oim_report.specs.Names.{named};
ghost use Rattle.oim_report.specs.FactMembers.{fact_parts};
ghost use Rattle.oim_report.specs.Sheet.{dimension_kind};

mod fact_content;
mod text_cache;

use crate::concept_kind::ConceptKind;
use crate::dimension_kind::DimensionKind;
use crate::fact::fact_faults::least_of_fact;
use crate::fact::fact_members::{DimensionMembers, FactMembers, well_formed};
use crate::fact::fact_part::FactInScope;
use crate::fact_reader::fact_content::{
    cached_entity, cached_language, cached_name, cached_period, cached_unit, read_value,
};
use crate::fact_reader::text_cache::TextCaches;
use crate::json_values::json_member::JsonMember;
use crate::json_values::json_tree::object_at;
use crate::place::Place;
use crate::refusal::Refusal;
use crate::sheet::Sheet;
use crate::unread::Unread;
use oim_dims::{Dimensions, Fact, Member};
use oim_names::{Aliases, Copied, Name, Reason, Text};
use serde_json::{Map, Value};
use std::alloc::{AllocError, Global};
use std::marker::Model;

/// Reads facts under a sheet and the prefixes of a report. Reports often bind the same prefixes to
/// the same URIs, and then a text means the same in all these reports. So the reader caches the
/// meanings of texts; `turn_to` decides when the caches are emptied. Contracts represent a reader
/// by its sheet and its prefixes.
pub(crate) struct FactReader<'s> {
    alloc: Global,
    sheet: &'s Sheet,
    aliases: Aliases,
    caches: TextCaches<'s>,
    // Whether no fact is read after a refused one. It only saves time, so no contract mentions it.
    stops_at_refused: bool,
}

// By hand, so that a drop is one call, which is faster to prove than a derived one.
impl Drop for FactReader<'_> {
    fn drop(self) {
        let FactReader {
            alloc: _,
            sheet: _,
            aliases: _,
            caches: _,
            stops_at_refused: _,
        } = self;
    }
}

impl<'s> Model for FactReader<'s> {
    ghost use Rattle.oim_report.specs.code.Scope.{Scope, scope_code};
    ghost use Rattle.oim_report.specs.code.TextCache.{AreTextCaches};

    ghost Value = { Scope };

    ghost coded = { scope_code };

    ghost view = { λ r. record { sheet = r.sheet.now; aliases = r.aliases } };

    ghost invariant = { λ r. AreTextCaches r.sheet.now r.aliases r.caches };
}

impl<'s> FactReader<'s> {
    /// Returns a reader that binds no prefixes yet. Later calls allocate from `alloc`.
    pub(crate) fn new(alloc: Global, sheet: &'s Sheet) -> Self
        ensures { result.sheet ≡ sheet.now }
    {
        FactReader {
            alloc,
            sheet,
            aliases: Aliases::new(alloc),
            caches: TextCaches::new(alloc),
            stops_at_refused: false,
        }
    }

    /// Lets `FactsSoFar` end at the first refused fact, for callers that do not ask which it is.
    pub(crate) fn stop_at_refused(&mut self)
        ensures { self.new ≡ self.old }
    {
        self.stops_at_refused = true;
    }

    pub(crate) fn stops_at_refused(&self) -> bool {
        self.stops_at_refused
    }

    pub(crate) fn alloc(&self) -> Global {
        self.alloc
    }

    pub(crate) fn sheet(&self) -> &'s Sheet
        ensures { result.now ≡ self.now.sheet }
    {
        self.sheet
    }

    /// Prepares for the prefixes of the next report. The caches are emptied if the report binds
    /// prefixes differently than the reader. They are also emptied if one of them is full, because
    /// a full cache takes no new texts.
    pub(crate) fn turn_to(&mut self, aliases: Aliases)
        ensures { self.new ≡ record self.old { aliases = aliases } }
    {
        if self.aliases.same_as(&aliases) && !self.caches.is_full() {
            return;
        }
        self.aliases = aliases;
        self.caches = TextCaches::new(self.alloc);
    }

    /// Reads the JSON value of a fact. Returns the fact with the rank of its concept in the sheet. An
    /// error is the lowest-numbered condition that applies, or `OutOfMemory`. Most facts are
    /// accepted, so each part is visited once, and the lowest-numbered condition is searched for
    /// only after an error.
    pub(crate) fn read(&mut self, object: &Value) -> Result<(Fact, usize), Reason>
        ensures same { self.new ≡ self.old }
        ensures ok { IfOk result
            (λ f. fact_outcome self.old.sheet self.old.aliases (view object.now) ≡ Ok f.0) }
        ensures rank { IfOk result (λ f. IsRank self.old.sheet.concepts f.0.dimensions.concept f.1) }
        ensures errors { IfErr result
            (λ r. (r ≡ Reason.OutOfMemory)
            ⊎ (fact_outcome self.old.sheet self.old.aliases (view object.now) ≡ Err r)) }
    {
        let Some(parts) = FactMembers::of(self.alloc, object)? else {
            return Err(self.refusal_of(object)?);
        };
        match self.read_parts(&parts) {
            Ok(found) => Ok(found),
            Err(Unread::OutOfMemory) => Err(Reason::OutOfMemory),
            Err(Unread::NeedsTree) => Err(self.refusal_of(object)?),
        }
    }

    fn refusal_of(&self, object: &Value) -> Result<Reason, AllocError>
        requires { (f : AFact) → fact_outcome self.now.sheet self.now.aliases (view object.now) ≢ Ok f }
        ensures { IfOk result (λ r. fact_outcome self.now.sheet self.now.aliases (view object.now) ≡ Err r) }
    {
        match self.least_fault(object)? {
            Some(reason) => Ok(reason),
            // the object is not that of a fact, so a condition applies
            None => unreachable!(),
        }
    }

    /// Returns the lowest-numbered condition that applies to the JSON value of a fact, or `None` if
    /// no condition applies.
    pub(crate) fn least_fault(&self, object: &Value) -> Result<Option<Reason>, AllocError>
        ensures { IfOk result (λ found. found ≡ least (holds self.now.sheet self.now.aliases (view object.now))) }
    {
        let fact = FactInScope::new(self.alloc, self.sheet, &self.aliases, object);
        least_of_fact(self.alloc, &fact)
    }

    /// Reads a fact from the parts of its object. Returns the fact with the rank of its concept in
    /// the sheet. If the parts are those of no fact, the result is `NeedsTree`, which does not show
    /// why.
    pub(crate) fn read_parts(&mut self, parts: &FactMembers<'_>) -> Result<(Fact, usize), Unread>
        ensures same { self.new ≡ self.old }
        ensures ok { IfOk result (λ f. (d : Data) → fact_parts d ≡ Some (seen_parts parts.now)
            → fact_outcome self.old.sheet self.old.aliases d ≡ Ok f.0) }
        ensures rank { IfOk result (λ f. IsRank self.old.sheet.concepts f.0.dimensions.concept f.1) }
        ensures errors { IfErr result (λ e. (e ≡ Unread.OutOfMemory)
            ⊎ ((d : Data) → fact_parts d ≡ Some (seen_parts parts.now)
            → (f : AFact) → fact_outcome self.old.sheet self.old.aliases d ≢ Ok f)) }
    {
        let Some(dimensions) = well_formed(parts) else {
            return Err(Unread::NeedsTree);
        };
        self.read_content(parts, dimensions)
    }

    fn read_content(
        &mut self,
        parts: &FactMembers<'_>,
        dimensions: &DimensionMembers<'_>,
    ) -> Result<(Fact, usize), Unread>
        ensures same { self.new ≡ self.old }
        ensures said { let p = seen_parts parts.now in
            let ds = seen_dimensions dimensions.now in
            IfOk result (λ f. fact_of self.old.sheet self.old.aliases p ds ≡ Some f.0) }
        ensures rank { IfOk result (λ f. IsRank self.old.sheet.concepts f.0.dimensions.concept f.1) }
        ensures errors { let p = seen_parts parts.now in
            let ds = seen_dimensions dimensions.now in
            IfErr result (λ e. (e ≡ Unread.OutOfMemory) ⊎ (fact_of self.old.sheet self.old.aliases p ds ≡ None)) }
    {
        let Some((name, kind, rank)) = self.find_concept(dimensions.concept)? else {
            return Err(Unread::NeedsTree);
        };
        let dimensions = self.read_dimension_set(name, kind, dimensions)?;
        let value = read_value(self.alloc, &self.aliases, kind, parts.value, parts.decimals)?;
        Ok((Fact { dimensions, value }, rank))
    }

    // Owns the unfinished dimensions, so `read_content` owns only finished ones.
    fn read_dimension_set(
        &mut self,
        concept: &Name,
        kind: ConceptKind,
        parts: &DimensionMembers<'_>,
    ) -> Result<Dimensions, Unread>
        requires { said_concept self.old.aliases (seen parts.now.concept) ≡ Some concept.now }
        ensures same { self.new ≡ self.old }
        ensures said { let ds = seen_dimensions parts.now in
            IfOk result (λ d. said_dimensions self.old.sheet self.old.aliases kind ds ≡ Some d) }
        ensures errors { let ds = seen_dimensions parts.now in
            IfErr result (λ e. (e ≡ Unread.OutOfMemory) ⊎ (said_dimensions self.old.sheet self.old.aliases kind ds ≡ None)) }
    {
        let mut read = Dimensions::new(self.alloc, concept.copied(self.alloc)?);
        self.read_dimensions(kind, parts, &mut read)?;
        Ok(read)
    }

    fn find_concept(
        &mut self,
        concept: JsonMember<'_>,
    ) -> Result<Option<(&'s Name, ConceptKind, usize)>, AllocError>
        ensures same { self.new ≡ self.old }
        ensures kind { IfOk result (λ found. option_map (λ c. c.1) found
            ≡ concept_kind self.old.sheet self.old.aliases (seen concept.entry)) }
        ensures name { IfOk result (λ found. IfSome found
            (λ c. said_concept self.old.aliases (seen concept.entry) ≡ Some c.0.now)) }
        ensures rank { IfOk result
            (λ found. IfSome found (λ c. IsRank self.old.sheet.concepts c.0.now c.2)) }
    {
        let Some(text) = concept.text() else {
            return Ok(None);
        };
        let concepts = self.sheet.concepts();
        self.caches.concepts.find(concepts, &self.aliases, text)
    }

    // `read` is lent, so an error has nothing to drop here.
    fn read_dimensions(
        &mut self,
        kind: ConceptKind,
        parts: &DimensionMembers<'_>,
        read: &mut Dimensions,
    ) -> Result<(), Unread>
        requires concept { said_concept self.old.aliases (seen parts.now.concept) ≡ Some read.old.concept }
        requires others { read.old ≡ concept_with read.old.concept [] }
        ensures same { self.new ≡ self.old }
        ensures said { OnOk result
            (said_dimensions self.old.sheet self.old.aliases kind (seen_dimensions parts.now) ≡ Some read.new) }
        ensures errors { let ds = seen_dimensions parts.now in
            IfErr result (λ e. (e ≡ Unread.OutOfMemory) ⊎ (said_dimensions self.old.sheet self.old.aliases kind ds ≡ None)) }
    {
        self.read_members(parts.defined.as_slice(), read)?;
        let (alloc, aliases, caches) = (self.alloc, &self.aliases, &mut self.caches);
        read.set_period(cached_period(alloc, &mut caches.periods, parts.period)?);
        read.set_unit(cached_unit(alloc, aliases, &mut caches.units, kind, parts.unit)?);
        let language = cached_language(alloc, &mut caches.languages, kind, parts.language)?;
        set_language(read, language);
        let entity = cached_entity(alloc, aliases, &mut caches.entities, parts.entity)?;
        set_entity(read, entity);
        Ok(())
    }

    // The keys in `defined` are in byte order of their spelling, not in the order of names. So the
    // members are sorted once, at the end.
    fn read_members(
        &mut self,
        defined: &[(&str, JsonMember<'_>)],
        read: &mut Dimensions,
    ) -> Result<(), Unread>
        ensures same { self.new ≡ self.old }
        ensures said { let all = seen_defined defined.now in
            OnOk result (said_members self.old.sheet self.old.aliases all ≡ Some read.new.members) }
        ensures errors { let all = seen_defined defined.now in
            IfErr result (λ e. (e ≡ Unread.OutOfMemory) ⊎ (said_members self.old.sheet self.old.aliases all ≡ None)) }
        ensures others { OnOk result (read.new ≡ record read.old { members = read.new.members }) }
    {
        let mut found = Vec::with_capacity(self.alloc, defined.len())?;
        for (key, member) in defined {
            let entry = self.read_defined(*key, *member)?;
            found.push_reserved(entry);
        }
        read.set_members(found)?;
        Ok(())
    }

    fn read_defined(&mut self, key: &str, member: JsonMember<'_>) -> Result<(Name, Member), Unread>
        ensures same { self.new ≡ self.old }
        ensures name { IfOk result (λ d. named self.old.aliases key.now ≡ Some d.0) }
        ensures said { let kind = dimension_kind self.old.sheet self.old.aliases key.now in
            IfOk result (λ d. said_member self.old.aliases kind (seen member.entry) ≡ Some d.1) }
        ensures errors { let kind = dimension_kind self.old.sheet self.old.aliases key.now in
            IfErr result (λ e. (e ≡ Unread.OutOfMemory) ⊎ (said_member self.old.aliases kind (seen member.entry) ≡ None)) }
    {
        let dimensions = self.sheet.dimensions();
        let found = self.caches.dimensions.find(dimensions, &self.aliases, key)?;
        let Some((name, kind, _rank)) = found else {
            return Err(Unread::NeedsTree);
        };
        let member = self.read_member(kind, member)?;
        Ok((name.copied(self.alloc)?, member))
    }

    fn read_member(&mut self, kind: DimensionKind, member: JsonMember<'_>) -> Result<Member, Unread>
        ensures same { self.new ≡ self.old }
        ensures said { IfOk result
            (λ m. said_member self.old.aliases (Some kind) (seen member.entry) ≡ Some m) }
        ensures errors { IfErr result (λ e. (e ≡ Unread.OutOfMemory) ⊎ (said_member self.old.aliases (Some kind) (seen member.entry) ≡ None)) }
    {
        match (kind, member) {
            (DimensionKind::Explicit, JsonMember::Text(text)) => {
                let members = &mut self.caches.members;
                Ok(Member::Name(cached_name(self.alloc, &self.aliases, members, text)?))
            }
            (DimensionKind::Typed, JsonMember::Text(text)) => {
                Ok(Member::Text(Text::new(self.alloc, text)?))
            }
            (DimensionKind::Typed, JsonMember::Nil) => Ok(Member::Nil),
            _ => Err(Unread::NeedsTree),
        }
    }
}

fn set_language(dimensions: &mut Dimensions, language: Option<Text>)
    requires { dimensions.old.language ≡ None }
    ensures { dimensions.new ≡ record dimensions.old { language = language } }
{
    if let Some(language) = language {
        dimensions.set_language(language);
    }
}

fn set_entity(dimensions: &mut Dimensions, entity: Option<Name>)
    requires { dimensions.old.entity ≡ None }
    ensures { dimensions.new ≡ record dimensions.old { entity = entity } }
{
    if let Some(entity) = entity {
        dimensions.set_entity(entity);
    }
}

pub(crate) fn read_facts(reader: &mut FactReader<'_>, tree: &Value) -> Result<Vec<Fact>, Refusal>
    ensures same { reader.new ≡ reader.old }
    ensures ok { let said = facts_said reader.old.sheet reader.old.aliases (facts_of (view tree.now)) in
        IfOk result (λ facts. said ≡ Ok facts.items) }
    ensures errors { let said = facts_said reader.old.sheet reader.old.aliases (facts_of (view tree.now)) in
        IfErr result (λ r. (r ≡ at Place.Document Reason.OutOfMemory) ⊎ (said ≡ Err r)) }
{
    let alloc = reader.alloc();
    let Some(objects) = object_at(tree, "facts") else {
        return Ok(Vec::new(alloc));
    };
    let mut facts = Vec::with_capacity(alloc, objects.len())?;
    read_each(reader, objects, &mut facts)?;
    Ok(facts)
}

// `facts` is lent and has room for each fact, so an error has nothing to drop here.
fn read_each(
    reader: &mut FactReader<'_>,
    objects: &Map<String, Value>,
    facts: &mut Vec<Fact>,
) -> Result<(), Refusal>
    requires empty { facts.old.items ≡ [] }
    requires room { vec_len facts.old + length objects.now.entries ≤ vec_capacity facts.old }
    ensures same { reader.new ≡ reader.old }
    ensures ok { let said = facts_said reader.old.sheet reader.old.aliases (members_view objects.now.entries) in
        OnOk result (said ≡ Ok facts.new.items) }
    ensures errors { let said = facts_said reader.old.sheet reader.old.aliases (members_view objects.now.entries) in
        IfErr result (λ r. (r ≡ at Place.Document Reason.OutOfMemory) ⊎ (said ≡ Err r)) }
{
    let mut number: u64 = 1;
    for (_identifier, object) in objects.iter() {
        match reader.read(object) {
            Ok((fact, _rank)) => facts.push_reserved(fact),
            Err(reason) => return Err(Refusal::of_fact(reason, number)),
        }
        number += 1;
    }
    Ok(())
}
