ghost use Rattle.std.specs.Prelude.{◌≡◌, ◌+◌, ◌<◌, ◌≤◌, length, IfOk, OnOk};
ghost use Rattle.std.specs.Option.{option_copied};
ghost use Rattle.serde_json.specs.Data.{array};
ghost use Rattle.fact_base.specs.Shown.{shown};
ghost use Rattle.oim_write.specs.Tokens.{AddsMembers, AddsValue};
ghost use Rattle.oim_merge.specs.Lines.{verdict_shown, verdict_word};
ghost use Rattle.oim_merge.specs.Judged.{IsJudged, judged_text, names_of};
ghost use Rattle.oim_merge.specs.Identifiers.{named};
ghost use Rattle.row_formats.specs.JsonRows.{apart_data, common_data, evidence_members, fact_data, fact_items, json_row, row_data};
ghost use Rattle.row_formats.specs.SourceRows.{file_data, json_source, source_data};

use fact_base::Evidence;
use json::Writer;
use oim_dims::Spelling;
use oim_merge::{Identifiers, IndexedMention, JudgedRow};
use oim_names::Name;
use oim_value::{Interval, Value, write_units};
use oim_write::{Scratch, write_decimals, write_dimensions, write_value};
use std::alloc::{AllocError, Global};

/// The initial capacity of a line, in bytes. Most lines fit into this capacity.
const LINE: usize = 1 << 9;

/// Spells a name as `{URI}local`, which needs no prefix.
#[derive(Clone, Copy, Debug)]
pub(crate) struct Braced;

impl Spelling for Braced {
    ghost use Rattle.row_formats.specs.Spelled.{braced};

    ghost spelled = { λ spelling. braced };

    fn push_name(&self, text: &mut String, name: &Name) -> Result<(), AllocError> {
        text.push_str("{")?;
        text.push_str(name.uri())?;
        text.push_str("}")?;
        text.push_str(name.local())
    }
}

pub(crate) fn json_row(scratch: &mut Scratch, judged: &JudgedRow<'_>) -> Result<Vec<u8>, AllocError>
    requires { IsJudged judged.now }
    ensures { IfOk result (λ line. line.items ≡ judged_text json_row judged.now) }
{
    let mut json = Writer::new(Vec::with_capacity(judged.identifiers.alloc, LINE)?);
    write_row(&mut json, scratch, judged)?;
    let mut line = json.into_inner();
    line.push(b'\n')?;
    Ok(line)
}

fn write_row(
    json: &mut Writer,
    scratch: &mut Scratch,
    judged: &JudgedRow<'_>,
) -> Result<(), AllocError>
    requires { IsJudged judged.now }
    ensures { OnOk result (AddsValue json.old json.new
        (row_data (names_of judged.now) judged.now.number (shown judged.now.row) judged.now.evidence)) }
{
    json.begin_object()?;
    json.key("row")?;
    json.u64(judged.number)?;
    json.key("verdict")?;
    json.string(word_of(&judged.evidence))?;
    json.key("dimensions")?;
    write_dimensions(json, &Braced, scratch, judged.row.dimensions)?;
    json.key("facts")?;
    write_facts(json, scratch, &judged.identifiers, judged.row.values)?;
    write_evidence(json, judged)?;
    json.end_object()
}

pub(crate) fn word_of(evidence: &Evidence) -> &'static str
    ensures { result.now ≡ verdict_word (verdict_shown evidence.now) }
{
    match evidence {
        Evidence::Alike => "complete",
        Evidence::Common(_) => "consistent",
        Evidence::Apart(_, _) => "inconsistent",
    }
}

fn write_facts(
    json: &mut Writer,
    scratch: &mut Scratch,
    identifiers: &Identifiers,
    values: &[Value],
) -> Result<(), AllocError>
    requires { identifiers.now.before + length values.now ≤ identifiers.now.count }
    ensures { OnOk result (AddsValue json.old json.new
        (array (fact_items (named identifiers.now.before identifiers.now.count) 0 values.now))) }
{
    json.begin_array()?;
    for (index, value) in values.iter().enumerate() {
        let identifier = identifiers.at(index)?;
        write_fact(json, scratch, identifier.as_str(), value)?;
    }
    json.end_array()
}

fn write_fact(
    json: &mut Writer,
    scratch: &mut Scratch,
    identifier: &str,
    value: &Value,
) -> Result<(), AllocError>
    ensures { OnOk result (AddsValue json.old json.new (fact_data identifier.now value.now)) }
{
    json.begin_object()?;
    json.key("fact")?;
    json.string(identifier)?;
    json.key("value")?;
    write_value(json, &Braced, scratch, value)?;
    write_decimals(json, value)?;
    json.end_object()
}

// A row with a single fact has no member `evidence`.
fn write_evidence(json: &mut Writer, judged: &JudgedRow<'_>) -> Result<(), AllocError>
    requires { IsJudged judged.now }
    ensures { OnOk result (AddsMembers json.old json.new
        (evidence_members (names_of judged.now) judged.now.evidence)) }
{
    let identifiers = &judged.identifiers;
    match judged.evidence {
        Evidence::Alike => Ok(()),
        Evidence::Common(common) => {
            json.key("evidence")?;
            json.begin_object()?;
            json.key("common")?;
            write_interval(identifiers.alloc, json, &common)?;
            json.end_object()
        }
        Evidence::Apart(first, second) => {
            json.key("evidence")?;
            json.begin_object()?;
            json.key("apart")?;
            write_pair(json, identifiers, first, second)?;
            json.end_object()
        }
    }
}

fn write_interval(alloc: Global, json: &mut Writer, common: &Interval) -> Result<(), AllocError>
    ensures { OnOk result (AddsValue json.old json.new (common_data common.now)) }
{
    let low = write_units(alloc, common.low)?;
    let high = write_units(alloc, common.high)?;
    json.begin_object()?;
    json.key("low")?;
    json.string(low.as_str())?;
    json.key("high")?;
    json.string(high.as_str())?;
    json.end_object()
}

fn write_pair(
    json: &mut Writer,
    identifiers: &Identifiers,
    first: usize,
    second: usize,
) -> Result<(), AllocError>
    requires first { identifiers.now.before + first < identifiers.now.count }
    requires second { identifiers.now.before + second < identifiers.now.count }
    ensures { OnOk result (AddsValue json.old json.new (apart_data
        (named identifiers.now.before identifiers.now.count first)
        (named identifiers.now.before identifiers.now.count second))) }
{
    let first = identifiers.at(first)?;
    let second = identifiers.at(second)?;
    json.begin_array()?;
    json.string(first.as_str())?;
    json.string(second.as_str())?;
    json.end_array()
}

pub(crate) fn json_source(
    alloc: Global,
    file: Option<&str>,
    fact: &str,
    mention: &IndexedMention,
) -> Result<Vec<u8>, AllocError>
    ensures { IfOk result (λ line. line.items
        ≡ json_source mention.now.report (option_copied file.entry) mention.now.identifier fact.now) }
{
    let mut json = Writer::new(Vec::new(alloc));
    write_source(&mut json, file, fact, mention)?;
    let mut line = json.into_inner();
    line.push(b'\n')?;
    Ok(line)
}

fn write_source(
    json: &mut Writer,
    file: Option<&str>,
    fact: &str,
    mention: &IndexedMention,
) -> Result<(), AllocError>
    ensures { OnOk result (AddsValue json.old json.new
        (source_data mention.now.report (option_copied file.entry) mention.now.identifier fact.now)) }
{
    json.begin_object()?;
    json.key("report")?;
    json.u64(mention.report)?;
    json.key("file")?;
    write_file(json, file)?;
    json.key("identifier")?;
    json.string(mention.identifier.as_str())?;
    json.key("fact")?;
    json.string(fact)?;
    json.end_object()
}

pub(crate) fn write_file(json: &mut Writer, file: Option<&str>) -> Result<(), AllocError>
    ensures { OnOk result (AddsValue json.old json.new (file_data (option_copied file.entry))) }
{
    match file {
        Some(file) => json.string(file),
        None => json.null(),
    }
}
