ghost use Rattle.std.specs.Prelude.{◌≡◌, ◌+◌, ◌^◌, ◌<◌, ◌∷◌, ◌++◌, false, nat_lt, IfOk, OnOk};
ghost use Rattle.serde_json.specs.Data.{string};
ghost use Rattle.serde_json.specs.Written.{comma_if};
ghost use Rattle.json.specs.Print.{quoted};
ghost use Rattle.oim_write.specs.Ordered.{ordered_fact};
ghost use Rattle.oim_write.specs.code.TextPieces.{head_text, namespace_members, part, parts};
ghost use Rattle.oim_write.specs.Rank.{padded};
ghost use Rattle.oim_write.specs.Tree.{name_text, prefix};

use crate::fact_text::write_fact;
use crate::labels::push_label;
use crate::prefix_table::PrefixTable;
use crate::scratch::Scratch;
use json::Writer;
use oim_dims::Dimensions;
use oim_names::Text;
use oim_value::{Level, Value};
use std::alloc::{AllocError, Global};
use std::mem;

// These functions write parts of the canonical text. If memory is refused, `text` may lose bytes.

/// The prefixes of the names in a text, the number of digits in each identifier, and the text of a
/// row's concept.
#[derive(Clone, Copy)]
pub(crate) struct Labels<'t> {
    pub table: &'t PrefixTable,
    pub digits: usize,
    pub concept: &'t str,
}

/// The text before the declared level.
const TYPE_AND_FEATURE: &[u8] =
    b"{\"documentInfo\":{\"documentType\":\"https://xbrl.org/2021/xbrl-json\",\"features\":{\"xbrl:allowedDuplicates\":\"";

pub(crate) fn head(alloc: Global, level: Level, table: &PrefixTable) -> Result<Vec<u8>, AllocError>
    ensures { IfOk result (λ text. text.items ≡ head_text level table.now) }
{
    let mut text = Vec::new(alloc);
    text.extend_from_slice(TYPE_AND_FEATURE)?;
    text.extend_from_slice(level.text().as_bytes())?;
    text.extend_from_slice(b"\"},\"namespaces\":{")?;
    append_namespaces(alloc, &mut text, table)?;
    append_comma(&mut text, !table.uris().is_empty())?;
    text.extend_from_slice(b"\"xbrl\":\"https://xbrl.org/2021\"},\"taxonomy\":[")?;
    Ok(text)
}

fn append_namespaces(
    alloc: Global,
    text: &mut Vec<u8>,
    table: &PrefixTable,
) -> Result<(), AllocError>
    ensures { OnOk result (text.new.items
        ≡ text.old.items ++ parts false (namespace_members table.now table.now)) }
{
    let mut later = false;
    for uri in table.uris() {
        append_namespace(alloc, text, table, later, uri.as_str())?;
        later = true;
    }
    Ok(())
}

fn append_namespace(
    alloc: Global,
    text: &mut Vec<u8>,
    table: &PrefixTable,
    later: bool,
    uri: &str,
) -> Result<(), AllocError>
    ensures { OnOk result
        (text.new.items ≡ text.old.items ++ part later (prefix table.now uri.now) (string uri.now)) }
{
    append_comma(text, later)?;
    let mut json = Writer::new(mem::replace(text, Vec::new(alloc)));
    json.key(&table.prefix(alloc, uri)?)?;
    json.string(uri)?;
    *text = json.into_inner();
    Ok(())
}

pub(crate) fn append_reference(
    alloc: Global,
    text: &mut Vec<u8>,
    later: bool,
    reference: &Text,
) -> Result<(), AllocError>
    ensures { OnOk result
        (text.new.items ≡ text.old.items ++ (comma_if later ++ quoted reference.now)) }
{
    append_comma(text, later)?;
    let mut json = Writer::new(mem::replace(text, Vec::new(alloc)));
    json.string(reference.as_str())?;
    *text = json.into_inner();
    Ok(())
}

/// Appends a fact as a member of `facts`. `before` is the number of facts before this fact.
/// Dimensions and value are separate parameters, so that the fact need not be copied.
pub(crate) fn append_fact(
    text: &mut Vec<u8>,
    scratch: &mut Scratch,
    labels: &Labels<'_>,
    before: u128,
    dimensions: &Dimensions,
    value: &Value,
) -> Result<(), AllocError>
    requires room { before + 1 < 2 ^ 128 }
    requires concept { labels.now.concept.now ≡ name_text labels.now.table.now dimensions.now.concept }
    ensures { OnOk result (text.new.items ≡ text.old.items
        ++ part (nat_lt 0 before) (102 ∷ padded labels.now.digits (before + 1))
        (ordered_fact (name_text labels.now.table.now) (record { dimensions = dimensions.now; value = value.now }))) }
{
    append_comma(text, before > 0)?;
    let mut json = Writer::new(mem::replace(text, Vec::new(scratch.alloc)));
    scratch.text.clear();
    push_label(&mut scratch.text, "f", labels.digits, before + 1)?;
    json.key(scratch.text.as_str())?;
    write_fact(
        &mut json,
        labels.table,
        scratch,
        labels.concept,
        dimensions,
        value,
    )?;
    *text = json.into_inner();
    Ok(())
}

fn append_comma(text: &mut Vec<u8>, later: bool) -> Result<(), AllocError>
    ensures { OnOk result (text.new.items ≡ text.old.items ++ comma_if later) }
{
    if later {
        text.push(b',')?;
    }
    Ok(())
}
