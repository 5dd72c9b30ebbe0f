ghost use Rattle.std.specs.Prelude.{◌≡◌, ◌+◌, ◌<◌, ◌++◌, ◌∷◌, [], length, IfOk, OnOk, string_bytes};
ghost use Rattle.std.specs.Option.{option_copied};
ghost use Rattle.csv.specs.Records.{fields_of};
ghost use Rattle.oim_dims.specs.Period.{period_text};
ghost use Rattle.fact_base.specs.Passed.{option_spelled, option_unit_text};
ghost use Rattle.std.specs.Fmt.{decimal};
ghost use Rattle.serde_json.specs.Data.{no_members, object};
ghost use Rattle.serde_json.specs.Written.{compact_text};
ghost use Rattle.oim_value.specs.Plain.{plain};
ghost use Rattle.oim_write.specs.Ordered.{defined_members};
ghost use Rattle.oim_merge.specs.Lines.{verdict_shown, verdict_word};
ghost use Rattle.oim_merge.specs.Judged.{IsJudged, judged_text, names_of};
ghost use Rattle.row_formats.specs.CsvCells.{cell};
ghost use Rattle.row_formats.specs.CsvRows.{columns, csv_row, decimals_text, defined_text, dimension_fields, evidence_fields, fact_fields, or_empty, record_text, value_fields};
ghost use Rattle.row_formats.specs.SourceRows.{csv_source, source_columns};
ghost use Rattle.row_formats.specs.Spelled.{braced};

use crate::cells::Cells;
use crate::csv_record::{push_three, text_of_record};
use crate::row_json::{Braced, word_of};
use csv::StringRecord;
use fact_base::Evidence;
use json::Writer;
use oim_dims::{Dimensions, Member, Period, Unit, spell, spell_unit, write_period};
use oim_merge::{IndexedMention, JudgedRow};
use oim_names::{Name, Text};
use oim_value::{Decimals, Fixed, Value, write_fixed, write_units};
use oim_write::write_defined;
use std::alloc::{AllocError, Global};
use std::str;

/// The initial capacity of a record, in bytes. Few records are longer.
const RECORD: usize = 1 << 9;

/// The number of fields in a record of verdicts.
const FIELDS: usize = 16;

pub(crate) fn csv_header(alloc: Global) -> Result<Vec<u8>, AllocError>
    ensures { IfOk result (λ text. text.items ≡ record_text columns) }
{
    let mut record = StringRecord::new(alloc);
    push_four(&mut record, "row", "verdict", "fact", "concept")?;
    push_four(&mut record, "entity", "period", "unit", "language")?;
    push_four(&mut record, "dimensions", "value", "nil", "decimals")?;
    push_four(
        &mut record,
        "common_low",
        "common_high",
        "apart_first",
        "apart_second",
    )?;
    text_of_record(alloc, &record)
}

pub(crate) fn csv_row(spreadsheet: bool, judged: &JudgedRow<'_>) -> Result<Vec<u8>, AllocError>
    requires { IsJudged judged.now }
    ensures { IfOk result (λ text. text.items ≡ judged_text (csv_row spreadsheet) judged.now) }
{
    let alloc = judged.identifiers.alloc;
    let cells = Cells { alloc, spreadsheet };
    let mut text = Vec::new(alloc);
    for (index, value) in judged.row.values.iter().enumerate() {
        let record = csv_fact(cells, judged, index, value)?;
        text.extend_from_slice(record.as_slice())?;
    }
    Ok(text)
}

fn csv_fact(
    cells: Cells,
    judged: &JudgedRow<'_>,
    index: usize,
    value: &Value,
) -> Result<Vec<u8>, AllocError>
    requires judged { IsJudged judged.now }
    requires index { index < length judged.now.row.values.now }
    ensures { IfOk result (λ text. text.items ≡ record_text
        (fact_fields cells.spreadsheet judged.now.number judged.now.row.dimensions.now judged.now.evidence
        (evidence_fields (names_of judged.now) judged.now.evidence)
        (names_of judged.now index) value.now)) }
{
    let mut record = StringRecord::with_capacity(cells.alloc, RECORD, FIELDS)?;
    push_front(&mut record, judged, index)?;
    push_fact(cells, &mut record, judged.row.dimensions, value)?;
    push_evidence(&mut record, judged)?;
    text_of_record(cells.alloc, &record)
}

fn push_front(
    fields: &mut StringRecord,
    judged: &JudgedRow<'_>,
    index: usize,
) -> Result<(), AllocError>
    requires { judged.now.identifiers.before + index < judged.now.identifiers.count }
    ensures { OnOk result (fields_of fields.new ≡ fields_of fields.old ++ decimal judged.now.number
        ∷ verdict_word (verdict_shown judged.now.evidence)
        ∷ names_of judged.now index ∷ []) }
{
    let number = judged.number;
    let number = format!(in judged.identifiers.alloc; "{number}")?;
    let identifier = judged.identifiers.at(index)?;
    let word = word_of(&judged.evidence);
    push_three(fields, number.as_str(), word, identifier.as_str())
}

fn push_fact(
    cells: Cells,
    fields: &mut StringRecord,
    dimensions: &Dimensions,
    value: &Value,
) -> Result<(), AllocError>
    ensures { OnOk result (fields_of fields.new ≡ fields_of fields.old
        ++ (dimension_fields cells.spreadsheet dimensions.now ++ value_fields cells.spreadsheet value.now)) }
{
    let mut scratch = String::new(cells.alloc);
    push_name(cells, fields, &mut scratch, dimensions.concept())?;
    push_entity(cells, fields, &mut scratch, dimensions.entity())?;
    push_period(cells, fields, dimensions.period())?;
    push_unit(cells, fields, &mut scratch, dimensions.unit())?;
    push_text(cells, fields, dimensions.language())?;
    push_defined(cells, fields, &mut scratch, dimensions.members())?;
    push_value(cells, fields, &mut scratch, value)
}

fn push_name(
    cells: Cells,
    fields: &mut StringRecord,
    scratch: &mut String,
    name: &Name,
) -> Result<(), AllocError>
    ensures { OnOk result (fields_of fields.new ≡ fields_of fields.old ++ cell cells.spreadsheet (braced name.now) ∷ []) }
{
    spell(scratch, &Braced, name)?;
    cells.push(fields, scratch.as_str())
}

fn push_entity(
    cells: Cells,
    fields: &mut StringRecord,
    scratch: &mut String,
    entity: Option<&Name>,
) -> Result<(), AllocError>
    ensures { OnOk result (fields_of fields.new ≡ fields_of fields.old ++ cell cells.spreadsheet (or_empty (option_spelled braced (option_copied entity.entry))) ∷ []) }
{
    match entity {
        Some(entity) => push_name(cells, fields, scratch, entity),
        None => cells.push(fields, ""),
    }
}

fn push_text(cells: Cells, fields: &mut StringRecord, text: Option<&Text>) -> Result<(), AllocError>
    ensures { OnOk result (fields_of fields.new ≡ fields_of fields.old ++ cell cells.spreadsheet (or_empty (option_copied text.entry)) ∷ []) }
{
    match text {
        Some(text) => cells.push(fields, text.as_str()),
        None => cells.push(fields, ""),
    }
}

fn push_period(cells: Cells, fields: &mut StringRecord, period: Period) -> Result<(), AllocError>
    ensures { OnOk result (fields_of fields.new ≡ fields_of fields.old ++ cell cells.spreadsheet (or_empty (period_text period)) ∷ []) }
{
    let text = write_period(cells.alloc, &period)?;
    push_text(cells, fields, text.as_ref())
}

fn push_unit(
    cells: Cells,
    fields: &mut StringRecord,
    scratch: &mut String,
    unit: Option<&Unit>,
) -> Result<(), AllocError>
    ensures { OnOk result (fields_of fields.new ≡ fields_of fields.old ++ cell cells.spreadsheet (or_empty (option_unit_text braced (option_copied unit.entry))) ∷ []) }
{
    let Some(unit) = unit else {
        return cells.push(fields, "");
    };
    spell_unit(scratch, &Braced, unit)?;
    cells.push(fields, scratch.as_str())
}

fn push_defined(
    cells: Cells,
    fields: &mut StringRecord,
    scratch: &mut String,
    members: &[(Name, Member)],
) -> Result<(), AllocError>
    ensures { OnOk result (fields_of fields.new ≡ fields_of fields.old ++ cell cells.spreadsheet (defined_text members.now) ∷ []) }
{
    if members.is_empty() {
        return cells.push(fields, "");
    }
    let text = members_json(cells.alloc, scratch, members)?;
    // JSON is UTF-8, so this does not fail
    match str::from_utf8(text.as_slice()) {
        Ok(text) => cells.push(fields, text),
        Err(_) => Err(AllocError),
    }
}

fn push_value(
    cells: Cells,
    fields: &mut StringRecord,
    scratch: &mut String,
    value: &Value,
) -> Result<(), AllocError>
    ensures { OnOk result (fields_of fields.new ≡ fields_of fields.old ++ value_fields cells.spreadsheet value.now) }
{
    match value {
        Value::Nil => push_three(fields, "", "true", ""),
        Value::Number(number, decimals) => push_number(cells.alloc, fields, *number, *decimals),
        Value::Text(text) => push_alone(cells, fields, text.as_str()),
        Value::Name(name) => {
            spell(scratch, &Braced, name)?;
            push_alone(cells, fields, scratch.as_str())
        }
    }
}

// A value that is neither nil nor a number.
fn push_alone(cells: Cells, fields: &mut StringRecord, text: &str) -> Result<(), AllocError>
    ensures { OnOk result (fields_of fields.new ≡ fields_of fields.old ++ cell cells.spreadsheet text.now ∷ [] ∷ [] ∷ []) }
{
    cells.push(fields, text)?;
    fields.push_field("")?;
    fields.push_field("")
}

fn push_number(
    alloc: Global,
    fields: &mut StringRecord,
    number: Fixed,
    decimals: Decimals,
) -> Result<(), AllocError>
    ensures { OnOk result (fields_of fields.new ≡ fields_of fields.old ++ plain number ∷ [] ∷ decimals_text decimals ∷ []) }
{
    let number = write_fixed(alloc, number)?;
    let decimals = decimals_text(alloc, decimals)?;
    push_three(fields, number.as_str(), "", decimals.as_str())
}

fn decimals_text(alloc: Global, decimals: Decimals) -> Result<String, AllocError>
    ensures { IfOk result (λ text. string_bytes text ≡ decimals_text decimals) }
{
    match decimals.get() {
        Some(places) => format!(in alloc; "{places}"),
        None => Ok(String::new(alloc)),
    }
}

fn push_evidence(fields: &mut StringRecord, judged: &JudgedRow<'_>) -> Result<(), AllocError>
    requires { IsJudged judged.now }
    ensures { OnOk result (fields_of fields.new ≡ fields_of fields.old
        ++ evidence_fields (names_of judged.now) judged.now.evidence) }
{
    let identifiers = &judged.identifiers;
    match judged.evidence {
        Evidence::Alike => push_four(fields, "", "", "", ""),
        Evidence::Common(common) => {
            let low = write_units(identifiers.alloc, common.low)?;
            let high = write_units(identifiers.alloc, common.high)?;
            push_four(fields, low.as_str(), high.as_str(), "", "")
        }
        Evidence::Apart(first, second) => {
            let first = identifiers.at(first)?;
            let second = identifiers.at(second)?;
            push_four(fields, "", "", first.as_str(), second.as_str())
        }
    }
}

fn push_four(
    fields: &mut StringRecord,
    first: &str,
    second: &str,
    third: &str,
    fourth: &str,
) -> Result<(), AllocError>
    ensures { OnOk result (fields_of fields.new ≡ fields_of fields.old ++ first.now ∷ second.now ∷ third.now ∷ fourth.now ∷ []) }
{
    push_three(fields, first, second, third)?;
    fields.push_field(fourth)
}

fn members_json(
    alloc: Global,
    scratch: &mut String,
    members: &[(Name, Member)],
) -> Result<Vec<u8>, AllocError>
    ensures { IfOk result (λ text. text.items ≡ compact_text (object (defined_members braced members.now no_members))) }
{
    let mut json = Writer::new(Vec::new(alloc));
    json.begin_object()?;
    write_defined(&mut json, &Braced, scratch, members)?;
    json.end_object()?;
    Ok(json.into_inner())
}

pub(crate) fn source_header(alloc: Global) -> Result<Vec<u8>, AllocError>
    ensures { IfOk result (λ text. text.items ≡ record_text source_columns) }
{
    let mut record = StringRecord::new(alloc);
    push_four(&mut record, "report", "file", "identifier", "fact")?;
    text_of_record(alloc, &record)
}

pub(crate) fn csv_source(
    cells: Cells,
    file: Option<&str>,
    fact: &str,
    mention: &IndexedMention,
) -> Result<Vec<u8>, AllocError>
    ensures { IfOk result (λ text. text.items
        ≡ csv_source cells.spreadsheet mention.now.report (option_copied file.entry) mention.now.identifier fact.now) }
{
    let report = mention.report;
    let report = format!(in cells.alloc; "{report}")?;
    let mut record = StringRecord::new(cells.alloc);
    record.push_field(report.as_str())?;
    cells.push(&mut record, file.unwrap_or(""))?;
    cells.push(&mut record, mention.identifier.as_str())?;
    record.push_field(fact)?;
    text_of_record(cells.alloc, &record)
}
