ghost use Rattle.std.specs.Prelude.{◌≡◌, ◌⊎◌, Some, None, false, IfOk, IfErr, IsTrue, OnOk};
ghost use Rattle.std.specs.Option.{option_copied};
ghost use Rattle.serde_json.specs.View.{view};
ghost use Rattle.url.specs.Parser.{parse_url};
ghost use Rattle.oim_report.specs.Info.{said_reference, said_references, taxonomy_of};
ghost use Rattle.oim_report.specs.References.{is_reference_refused, is_within_limit, is_text_within_limit, is_web, kept, web_text, web_url};

use crate::document::base_url::{BaseUrl, is_web};
use crate::json_values::json_member::JsonMember;
use crate::json_values::json_tree::within;
use crate::limits::MOST_REFERENCE_BYTES;
use oim_names::{Reason, Text};
use serde_json::Value;
use std::alloc::Global;
use url::{ParseError, Url};

pub(crate) fn read_taxonomy(
    alloc: Global,
    base: Option<&BaseUrl>,
    tree: &Value,
) -> Result<Vec<Text>, Reason>
    ensures ok { let said = said_references (option_copied base.entry) (taxonomy_of (view tree.now)) in
        IfOk result (λ references. said ≡ Some references.items) }
    ensures errors { let said = said_references (option_copied base.entry) (taxonomy_of (view tree.now)) in
        IfErr result (λ r. (r ≡ Reason.OutOfMemory) ⊎ ((r ≡ Reason.TaxonomyUrl) × (said ≡ None))) }
{
    let mut references = Vec::new(alloc);
    let Some(items) = within(tree, "documentInfo", "taxonomy").and_then(Value::as_array) else {
        return Ok(references);
    };
    for item in items {
        let kept = keep_item(alloc, base, item)?;
        references.push(kept)?;
    }
    Ok(references)
}

pub(crate) fn keep_item(alloc: Global, base: Option<&BaseUrl>, item: &Value) -> Result<Text, Reason>
    ensures ok { IfOk result (λ kept. said_reference (option_copied base.entry) (view item.now) ≡ Some kept) }
    ensures errors { let said = said_reference (option_copied base.entry) (view item.now) in
        IfErr result (λ r. (r ≡ Reason.OutOfMemory) ⊎ ((r ≡ Reason.TaxonomyUrl) × (said ≡ None))) }
{
    match JsonMember::of_value(item).text() {
        Some(reference) => keep(alloc, base, reference),
        None => Err(Reason::TaxonomyUrl),
    }
}

/// Returns the text under which a taxonomy reference is kept. An http or https URL is kept as its
/// serialization (URL Standard, section 4.5), and another URL as it is spelled. A reference
/// that is not a URL is kept as it is spelled if there is no base URL. If there is a base URL, the
/// reference is resolved, and the serialization of the resulting http or https URL is kept.
///
/// Errors: `TaxonomyUrl` if the reference or its kept text has more than `MOST_REFERENCE_BYTES`
/// bytes, or if resolving the reference does not give an http or https URL; `OutOfMemory`.
fn keep(alloc: Global, base: Option<&BaseUrl>, reference: &str) -> Result<Text, Reason>
    ensures ok { IfOk result (λ text. kept (option_copied base.entry) reference.now ≡ Some text) }
    ensures accepted { OnOk result (is_reference_refused (option_copied base.entry) reference.now ≡ false) }
    ensures errors { IfErr result
        (λ r. (r ≡ Reason.OutOfMemory)
        ⊎ ((r ≡ Reason.TaxonomyUrl) × IsTrue (is_reference_refused (option_copied base.entry) reference.now))) }
{
    if reference.len() > MOST_REFERENCE_BYTES {
        return Err(Reason::TaxonomyUrl);
    }
    match Url::parse(alloc, reference) {
        Ok(url) if is_web(&url) => text_of(alloc, url),
        Ok(_) => Ok(Text::new(alloc, reference)?),
        Err(ParseError::OutOfMemory | ParseError::Overflow) => Err(Reason::OutOfMemory),
        Err(_) => match base {
            Some(base) => resolved(alloc, base, reference),
            None => Ok(Text::new(alloc, reference)?),
        },
    }
}

fn text_of(alloc: Global, url: Url) -> Result<Text, Reason>
    requires { IsTrue (is_web url) }
    ensures ok { IfOk result (λ text. web_text (Some url) ≡ Some text) }
    ensures limit { IfOk result (λ text. IsTrue (is_within_limit text)) }
    ensures errors { IfErr result
        (λ r. (r ≡ Reason.OutOfMemory)
        ⊎ ((r ≡ Reason.TaxonomyUrl) × (is_text_within_limit (web_text (Some url)) ≡ false))) }
{
    if url.as_str().len() > MOST_REFERENCE_BYTES {
        return Err(Reason::TaxonomyUrl);
    }
    Ok(Text::from_string(alloc, String::from(url))?)
}

fn resolved(alloc: Global, base: &BaseUrl, reference: &str) -> Result<Text, Reason>
    ensures ok { IfOk result (λ text. web_text (web_url (parse_url (Some base.now) reference.now)) ≡ Some text) }
    ensures limit { IfOk result (λ text. IsTrue (is_within_limit text)) }
    ensures errors { IfErr result
        (λ r. (r ≡ Reason.OutOfMemory)
        ⊎ ((r ≡ Reason.TaxonomyUrl)
        × (is_text_within_limit (web_text (web_url (parse_url (Some base.now) reference.now))) ≡ false))) }
{
    match base.join(reference) {
        Ok(found) if is_web(&found) => text_of(alloc, found),
        Err(ParseError::OutOfMemory | ParseError::Overflow) => Err(Reason::OutOfMemory),
        Ok(_) | Err(_) => Err(Reason::TaxonomyUrl),
    }
}
