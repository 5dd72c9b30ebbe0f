ghost use Rattle.std.specs.Prelude.{◌≡◌, ◌≤◌, length, true};
ghost use Rattle.std.specs.Option.{option_copied};
ghost use Rattle.fact_base.specs.Shown.{shown};
ghost use Rattle.row_formats.specs.Rows.{AreBeyond};
ghost use Rattle.row_formats.specs.code.RowLength.{dimensions_bytes, entity_bytes, facts_bytes, member_bytes, members_bytes, names_bytes, row_bytes, unit_bytes, value_bytes};

use crate::row_format::RowFormat;
use fact_base::{Base, Row};
use oim_dims::{Dimensions, Member, Unit};
use oim_names::Name;
use oim_value::Value;

/// Returns true if the URIs in one row have more bytes than the bound. Then the text of all rows
/// has, too. A row is made in memory, so it is tested first.
pub fn has_long_row(format: RowFormat, base: &Base<'_>, bound: u64) -> bool
    ensures { result ≡ true → AreBeyond format base.now.body bound }
{
    // the contract of `sheet` states that the facts fit the sheet, so the rows have a text
    let _sheet = base.sheet();
    for row in base.rows() {
        if row_bytes(format, row) > bound {
            return true;
        }
    }
    false
}

// Each function returns at most the number of bytes that its definition states; sums saturate.

fn row_bytes(format: RowFormat, row: Row<'_>) -> u64
    ensures { result ≤ row_bytes format (shown row.entry) }
{
    let dimensions = dimensions_bytes(row.dimensions);
    match format {
        RowFormat::Json => dimensions.saturating_add(facts_bytes(0, row.values)),
        RowFormat::Csv | RowFormat::SpreadsheetCsv => facts_bytes(dimensions, row.values),
    }
}

fn dimensions_bytes(dimensions: &Dimensions) -> u64
    ensures { result ≤ dimensions_bytes dimensions.now }
{
    uri_bytes(dimensions.concept())
        .saturating_add(entity_bytes(dimensions.entity()))
        .saturating_add(unit_bytes(dimensions.unit()))
        .saturating_add(members_bytes(dimensions.members()))
}

fn uri_bytes(name: &Name) -> u64
    ensures { result ≤ length name.now.uri }
{
    name.uri().len() as u64
}

fn entity_bytes(entity: Option<&Name>) -> u64
    ensures { result ≤ entity_bytes (option_copied entity.entry) }
{
    match entity {
        Some(entity) => uri_bytes(entity),
        None => 0,
    }
}

fn unit_bytes(unit: Option<&Unit>) -> u64
    ensures { result ≤ unit_bytes (option_copied unit.entry) }
{
    match unit {
        Some(unit) => names_bytes(unit.numerators()).saturating_add(names_bytes(
            unit.denominators(),
        )),
        None => 0,
    }
}

fn names_bytes(names: &[Name]) -> u64
    ensures { result ≤ names_bytes names.now }
{
    let mut bytes: u64 = 0;
    for name in names {
        bytes = bytes.saturating_add(uri_bytes(name));
    }
    bytes
}

fn members_bytes(members: &[(Name, Member)]) -> u64
    ensures { result ≤ members_bytes members.now }
{
    let mut bytes: u64 = 0;
    for (axis, member) in members {
        bytes = bytes
            .saturating_add(uri_bytes(axis))
            .saturating_add(member_bytes(member));
    }
    bytes
}

fn member_bytes(member: &Member) -> u64
    ensures { result ≤ member_bytes member.now }
{
    match member {
        Member::Name(name) => uri_bytes(name),
        Member::Nil | Member::Text(_) => 0,
    }
}

fn facts_bytes(each: u64, values: &[Value]) -> u64
    ensures { result ≤ facts_bytes each values.now }
{
    let mut bytes: u64 = 0;
    for value in values {
        bytes = bytes
            .saturating_add(each)
            .saturating_add(value_bytes(value));
    }
    bytes
}

fn value_bytes(value: &Value) -> u64
    ensures { result ≤ value_bytes value.now }
{
    match value {
        Value::Name(name) => uri_bytes(name),
        Value::Nil | Value::Number(..) | Value::Text(_) => 0,
    }
}
