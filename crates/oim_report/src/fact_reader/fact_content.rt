//! Reads the value, entity, period, unit and language of a fact. If a part is refused, the result is
//! `NeedsTree`, which does not show why.
//!
//! A text that a cache lacks is read and, if it is accepted, passed to `TextCache::add`. A condition
//! that needs more than the text, such as `UnitOnOther`, is tested for each fact.

ghost use Rattle.std.specs.Prelude.{◌≡◌, ◌⊎◌, None, Some, IfOk, IfErr};
ghost use Rattle.std.specs.Result.{result_ok};
ghost use Rattle.oim_names.specs.Expansion.{Expands, ExpandsEntity};
ghost use Rattle.oim_report.specs.Json.{whole};
ghost use Rattle.oim_report.specs.Names.{named};
ghost use Rattle.oim_report.specs.Said.{said_decimals, said_entity, said_language, said_period, said_unit, said_value, text_said};
ghost use Rattle.oim_report.specs.code.JsonMember.{seen};
ghost use Rattle.oim_report.specs.code.TextCache.{IsTextCache, TextSaysLanguage, TextSaysPeriod, TextSaysUnit};

use crate::concept_kind::ConceptKind;
use crate::fact_reader::text_cache::TextCache;
use crate::json_values::json_member::JsonMember;
use crate::unread::Unread;
use oim_dims::{Period, Unit, read_language, read_period, read_unit};
use oim_names::{Aliases, Copied, Name, Text};
use oim_value::{Decimals, Value, read_fixed};
use std::alloc::Global;

#[tactic(auto, using(crate::proofs::Unsaid::unnamed))]
pub(crate) fn cached_name(
    alloc: Global,
    aliases: &Aliases,
    names: &mut TextCache<Name>,
    text: &str,
) -> Result<Name, Unread>
    requires known { IsTextCache (Expands aliases.now) names.old }
    ensures ok { IfOk result (Expands aliases.now text.now) }
    ensures errors { IfErr result (λ e. (e ≡ Unread.OutOfMemory) ⊎ (named aliases.now text.now ≡ None)) }
    ensures known { IsTextCache (Expands aliases.now) names.new }
{
    if let Some(known) = names.find(text) {
        return Ok(known.copied(alloc)?);
    }
    let name = aliases.expand(text)?;
    names.add(text, name.copied(alloc)?)?;
    Ok(name)
}

#[tactic(auto, using(crate::proofs::Unsaid::entity_unsaid))]
pub(crate) fn cached_entity(
    alloc: Global,
    aliases: &Aliases,
    entities: &mut TextCache<Name>,
    entity: JsonMember<'_>,
) -> Result<Option<Name>, Unread>
    requires known { IsTextCache (ExpandsEntity aliases.now) entities.old }
    ensures said { IfOk result (λ read. said_entity aliases.now (seen entity.entry) ≡ Some read) }
    ensures errors { IfErr result (λ e. (e ≡ Unread.OutOfMemory) ⊎ (said_entity aliases.now (seen entity.entry) ≡ None)) }
    ensures known { IsTextCache (ExpandsEntity aliases.now) entities.new }
{
    match entity {
        JsonMember::Absent => Ok(None),
        JsonMember::Text(text) => {
            if let Some(known) = entities.find(text) {
                return Ok(Some(known.copied(alloc)?));
            }
            let read = aliases.expand_entity(text)?;
            entities.add(text, read.copied(alloc)?)?;
            Ok(Some(read))
        }
        _ => Err(Unread::NeedsTree),
    }
}

pub(crate) fn cached_period(
    alloc: Global,
    periods: &mut TextCache<Period>,
    period: JsonMember<'_>,
) -> Result<Period, Unread>
    requires known { IsTextCache TextSaysPeriod periods.old }
    ensures said { IfOk result (λ read. said_period (seen period.entry) ≡ Some read) }
    ensures errors { IfErr result (λ e. (e ≡ Unread.OutOfMemory) ⊎ (said_period (seen period.entry) ≡ None)) }
    ensures known { IsTextCache TextSaysPeriod periods.new }
{
    match period {
        JsonMember::Absent => Ok(Period::Forever),
        JsonMember::Text(text) => {
            if let Some(known) = periods.find(text) {
                return Ok(*known);
            }
            let read = read_period(alloc, text);
            let Ok(period) = &read else {
                return Err(Unread::NeedsTree);
            };
            periods.add(text, *period)?;
            Ok(*period)
        }
        _ => Err(Unread::NeedsTree),
    }
}

#[tactic(auto, using(crate::proofs::Unsaid::unit_unsaid))]
pub(crate) fn cached_unit(
    alloc: Global,
    aliases: &Aliases,
    units: &mut TextCache<Option<Unit>>,
    kind: ConceptKind,
    unit: JsonMember<'_>,
) -> Result<Option<Unit>, Unread>
    requires known { IsTextCache (TextSaysUnit aliases.now) units.old }
    ensures said { IfOk result (λ read. said_unit aliases.now kind (seen unit.entry) ≡ Some read) }
    ensures errors { IfErr result (λ e. (e ≡ Unread.OutOfMemory) ⊎ (said_unit aliases.now kind (seen unit.entry) ≡ None)) }
    ensures known { IsTextCache (TextSaysUnit aliases.now) units.new }
{
    match (kind, unit) {
        (_, JsonMember::Absent) => Ok(None),
        (ConceptKind::Numeric, JsonMember::Text(text)) => {
            if let Some(known) = units.find(text) {
                return Ok(Copied::copied(known, alloc)?);
            }
            let read = read_unit(alloc, aliases, text)?;
            units.add(text, Copied::copied(&read, alloc)?)?;
            Ok(read)
        }
        _ => Err(Unread::NeedsTree),
    }
}

#[tactic(auto, using(crate::proofs::TextCacheAdds::still, crate::proofs::Unsaid::language_unsaid))]
pub(crate) fn cached_language(
    alloc: Global,
    languages: &mut TextCache<Text>,
    kind: ConceptKind,
    language: JsonMember<'_>,
) -> Result<Option<Text>, Unread>
    requires known { IsTextCache TextSaysLanguage languages.old }
    ensures said { IfOk result (λ read. said_language kind (seen language.entry) ≡ Some read) }
    ensures errors { IfErr result (λ e. (e ≡ Unread.OutOfMemory) ⊎ (said_language kind (seen language.entry) ≡ None)) }
    ensures known { IsTextCache TextSaysLanguage languages.new }
{
    match (kind, language) {
        (_, JsonMember::Absent) => Ok(None),
        (ConceptKind::Text | ConceptKind::Name, JsonMember::Text(text)) => {
            if let Some(known) = languages.find(text) {
                return Ok(Some(known.copied(alloc)?));
            }
            let read = read_language(alloc, text)?;
            languages.add(text, read.copied(alloc)?)?;
            Ok(Some(read))
        }
        _ => Err(Unread::NeedsTree),
    }
}

pub(crate) fn read_value(
    alloc: Global,
    aliases: &Aliases,
    kind: ConceptKind,
    value: JsonMember<'_>,
    decimals: JsonMember<'_>,
) -> Result<Value, Unread>
    ensures said { IfOk result
        (λ v. said_value aliases.now kind (seen value.entry) (seen decimals.entry) ≡ Some v) }
    ensures errors { IfErr result (λ e. (e ≡ Unread.OutOfMemory) ⊎ (said_value aliases.now kind (seen value.entry) (seen decimals.entry) ≡ None)) }
{
    let places = read_decimals(kind, decimals)?;
    match value {
        JsonMember::Nil => Ok(Value::Nil),
        JsonMember::Text(text) => read_text(alloc, aliases, kind, places, text),
        _ => Err(Unread::NeedsTree),
    }
}

#[tactic(auto, using(crate::proofs::Unsaid::number_unsaid, crate::proofs::Unsaid::unnamed))]
fn read_text(
    alloc: Global,
    aliases: &Aliases,
    kind: ConceptKind,
    places: Decimals,
    text: &str,
) -> Result<Value, Unread>
    ensures said { IfOk result (λ v. text_said aliases.now kind places text.now ≡ Some v) }
    ensures errors { IfErr result (λ e. (e ≡ Unread.OutOfMemory) ⊎ (text_said aliases.now kind places text.now ≡ None)) }
{
    match kind {
        ConceptKind::Numeric => Ok(Value::Number(read_fixed(text)?, places)),
        ConceptKind::Text => Ok(Value::Text(Text::new(alloc, text)?)),
        ConceptKind::Name => Ok(Value::Name(aliases.expand(text)?)),
    }
}

// A number without decimals is exact.
fn read_decimals(kind: ConceptKind, decimals: JsonMember<'_>) -> Result<Decimals, Unread>
    ensures { result_ok result ≡ said_decimals kind (seen decimals.entry) }
{
    match (kind, decimals) {
        (_, JsonMember::Absent) => Ok(Decimals::INFINITE),
        (ConceptKind::Numeric, JsonMember::Whole(number)) => read_whole(number),
        _ => Err(Unread::NeedsTree),
    }
}

fn read_whole(number: i128) -> Result<Decimals, Unread>
    ensures { result_ok result ≡ said_decimals ConceptKind.Numeric (whole number) }
{
    match i64::try_from(number) {
        Ok(number) => Ok(Decimals::finite(number)?),
        Err(_) => Err(Unread::NeedsTree),
    }
}
