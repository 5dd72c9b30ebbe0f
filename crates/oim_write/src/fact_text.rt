ghost use Rattle.std.specs.Prelude.{◌≡◌, OnOk, codes};
ghost use Rattle.std.specs.Option.{option_copied};
ghost use Rattle.serde_json.specs.Data.{object, no_members, string};
ghost use Rattle.fact_base.specs.Passed.{member_data, option_spelled, option_unit_text, value_data};
ghost use Rattle.oim_write.specs.Ordered.{decimals_member, defined_members, ordered_dimensions, ordered_fact, other_dimensions, text_member};
ghost use Rattle.oim_write.specs.Tokens.{AddsMembers, AddsValue};

use crate::fixed_text::spell_units;
use crate::scratch::Scratch;
use json::Writer;
use oim_dims::{Dimensions, Member, Spelling, Unit, spell, spell_unit};
use oim_names::{Name, Text};
use oim_value::Value;
use std::alloc::AllocError;

/// Writes a fact as an object (xBRL-JSON 1.0, section 3). `concept` is the text of its concept, which
/// facts with the same concept share. Dimensions and value are separate, so that nothing is copied.
pub(crate) fn write_fact<S: Spelling>(
    json: &mut Writer,
    spelling: &S,
    scratch: &mut Scratch,
    concept: &str,
    dimensions: &Dimensions,
    value: &Value,
) -> Result<(), AllocError>
    requires { concept.now ≡ S.spelled spelling.now dimensions.now.concept }
    ensures { OnOk result (AddsValue json.old json.new (ordered_fact (S.spelled spelling.now) (record { dimensions = dimensions.now; value = value.now }))) }
{
    json.begin_object()?;
    write_decimals(json, value)?;
    json.key("dimensions")?;
    json.begin_object()?;
    json.key("concept")?;
    json.string(concept)?;
    write_others(json, spelling, scratch, dimensions)?;
    json.end_object()?;
    json.key("value")?;
    write_value(json, spelling, scratch, value)?;
    json.end_object()
}

/// Writes the member `decimals` if the value is a number with finite decimals.
///
/// Errors: out of memory.
pub fn write_decimals(json: &mut Writer, value: &Value) -> Result<(), AllocError>
    ensures { OnOk result (AddsMembers json.old json.new (decimals_member value.now no_members)) }
{
    let Value::Number(_, decimals) = value else {
        return Ok(());
    };
    let Some(places) = decimals.get() else {
        return Ok(());
    };
    json.key("decimals")?;
    json.i64(i64::from(places))
}

/// Writes dimensions as an object, with its members in the order of a canonical text.
///
/// Errors: out of memory.
pub fn write_dimensions<S: Spelling>(
    json: &mut Writer,
    spelling: &S,
    scratch: &mut Scratch,
    dimensions: &Dimensions,
) -> Result<(), AllocError>
    ensures { OnOk result (AddsValue json.old json.new (object (ordered_dimensions (S.spelled spelling.now) dimensions.now))) }
{
    json.begin_object()?;
    json.key("concept")?;
    write_name(json, spelling, &mut scratch.text, dimensions.concept())?;
    write_others(json, spelling, scratch, dimensions)?;
    json.end_object()
}

// Writes all dimensions except the concept as members.
fn write_others<S: Spelling>(
    json: &mut Writer,
    spelling: &S,
    scratch: &mut Scratch,
    dimensions: &Dimensions,
) -> Result<(), AllocError>
    ensures { OnOk result (AddsMembers json.old json.new (other_dimensions (S.spelled spelling.now) dimensions.now)) }
{
    let Scratch {
        alloc,
        text,
        periods,
    } = scratch;
    write_entity(json, spelling, text, dimensions.entity())?;
    write_text(json, "language", dimensions.language())?;
    write_defined(json, spelling, text, dimensions.members())?;
    write_text(json, "period", periods.text(*alloc, dimensions.period())?)?;
    write_unit_member(json, spelling, text, dimensions.unit())
}

fn write_entity<S: Spelling>(
    json: &mut Writer,
    spelling: &S,
    text: &mut String,
    entity: Option<&Name>,
) -> Result<(), AllocError>
    ensures { OnOk result (AddsMembers json.old json.new (text_member (codes "entity") (option_spelled (S.spelled spelling.now) (option_copied entity.entry)) no_members)) }
{
    let Some(entity) = entity else {
        return Ok(());
    };
    json.key("entity")?;
    write_name(json, spelling, text, entity)
}

fn write_text(json: &mut Writer, key: &str, text: Option<&Text>) -> Result<(), AllocError>
    ensures { OnOk result (AddsMembers json.old json.new (text_member key.now (option_copied text.entry) no_members)) }
{
    let Some(text) = text else {
        return Ok(());
    };
    json.key(key)?;
    json.string(text.as_str())
}

/// Writes taxonomy-defined dimensions as members. `text` is a reused buffer.
///
/// Errors: out of memory.
pub fn write_defined<S: Spelling>(
    json: &mut Writer,
    spelling: &S,
    text: &mut String,
    members: &[(Name, Member)],
) -> Result<(), AllocError>
    ensures { OnOk result (AddsMembers json.old json.new (defined_members (S.spelled spelling.now) members.now no_members)) }
{
    for (name, member) in members {
        spell(text, spelling, name)?;
        json.key(text.as_str())?;
        write_member(json, spelling, text, member)?;
    }
    Ok(())
}

fn write_member<S: Spelling>(
    json: &mut Writer,
    spelling: &S,
    text: &mut String,
    member: &Member,
) -> Result<(), AllocError>
    ensures { OnOk result (AddsValue json.old json.new (member_data (S.spelled spelling.now) member.now)) }
{
    match member {
        Member::Nil => json.null(),
        Member::Text(text) => json.string(text.as_str()),
        Member::Name(name) => write_name(json, spelling, text, name),
    }
}

fn write_name<S: Spelling>(
    json: &mut Writer,
    spelling: &S,
    text: &mut String,
    name: &Name,
) -> Result<(), AllocError>
    ensures { OnOk result (AddsValue json.old json.new (string (S.spelled spelling.now name.now))) }
{
    spell(text, spelling, name)?;
    json.string(text.as_str())
}

fn write_unit_member<S: Spelling>(
    json: &mut Writer,
    spelling: &S,
    text: &mut String,
    unit: Option<&Unit>,
) -> Result<(), AllocError>
    ensures { OnOk result (AddsMembers json.old json.new (text_member (codes "unit") (option_unit_text (S.spelled spelling.now) (option_copied unit.entry)) no_members)) }
{
    let Some(unit) = unit else {
        return Ok(());
    };
    json.key("unit")?;
    spell_unit(text, spelling, unit)?;
    json.string(text.as_str())
}

/// Writes a value: null for nil, otherwise a string (xBRL-JSON 1.0).
///
/// Errors: out of memory.
pub fn write_value<S: Spelling>(
    json: &mut Writer,
    spelling: &S,
    scratch: &mut Scratch,
    value: &Value,
) -> Result<(), AllocError>
    ensures { OnOk result (AddsValue json.old json.new (value_data (S.spelled spelling.now) value.now)) }
{
    match value {
        Value::Nil => json.null(),
        Value::Number(number, _) => {
            spell_units(&mut scratch.text, number.units())?;
            json.string(scratch.text.as_str())
        }
        Value::Text(text) => json.string(text.as_str()),
        Value::Name(name) => write_name(json, spelling, &mut scratch.text, name),
    }
}
