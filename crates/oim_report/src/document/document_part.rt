//! Finds the part of a document to which a condition applies.

ghost use Rattle.std.specs.Prelude.{◌≡◌, option_and_then, option_map, IfOk};
ghost use Rattle.std.specs.List.{find};
ghost use Rattle.std.specs.Option.{option_copied};
ghost use Rattle.serde_json.specs.View.{view};
ghost use Rattle.oim_report.specs.Holds.{is_no_reference};
ghost use Rattle.oim_report.specs.Info.{base_url_said, taxonomy_of};
ghost use Rattle.oim_report.specs.Shown.{document_part, first_item, seen, value};
ghost use Rattle.oim_report.specs.code.MemberTests.{is_misdeclared, misdeclared, misdeclared_part};

use crate::document::base_url::{BaseUrl, read_base_url};
use crate::document::features::{is_allowed_duplicates, read_level};
use crate::document::info::{has_other_type, misshapen, unknown};
use crate::document::namespaces::{report_aliases, unbound};
use crate::document::references::keep_item;
use crate::json_values::fact_values::text;
use crate::json_values::json_tree::within;
use crate::part::{Part, value_if};
use crate::refusal::unless_memory;
use oim_names::{Aliases, Reason};
use oim_value::Level;
use serde_json::Value;
use std::alloc::{AllocError, Global};

/// Returns the part at fault if the condition `reason` applies to a document, for the conditions
/// from `MemberForm` to `Feature` (own). If several parts are at fault, the first in the order of
/// `document_shown` is returned. If `xbrl:allowedDuplicates` is declared under several prefixes,
/// each time with a valid level, the part is the object `features`. The result is `None` exactly if
/// `reason` is not one of these conditions, does not apply, or is `Feature` while `Namespace`
/// applies too.
///
/// Errors: out of memory.
#[tactic(auto, unfolding(crate::specs::Holds::document_holds, crate::specs::Shown::document_shown))]
pub(crate) fn document_part(
    alloc: Global,
    tree: &Value,
    reason: Reason,
) -> Result<Option<Part<'_>>, AllocError>
    ensures { IfOk result (λ part. option_map seen part ≡ document_part (view tree.now) reason) }
{
    match reason {
        Reason::MemberForm => Ok(misshapen(tree)),
        Reason::UnknownMember => Ok(unknown(tree)),
        Reason::DocumentType => Ok(other_type(tree)),
        Reason::Namespace => refused_entry(alloc, tree),
        Reason::BaseUrl => refused_base(alloc, tree),
        Reason::TaxonomyUrl => refused_reference(alloc, tree),
        Reason::Feature => refused_feature(alloc, tree),
        _ => Ok(None),
    }
}

#[tactic(auto, unfolding(crate::specs::Holds::document_holds, crate::specs::Shown::document_shown))]
fn other_type(tree: &Value) -> Option<Part<'_>>
    ensures { option_map seen result ≡ document_part (view tree.now) Reason.DocumentType }
{
    value_if(
        has_other_type(tree),
        within(tree, "documentInfo", "documentType"),
    )
}

#[tactic(auto, unfolding(crate::specs::Holds::document_holds, crate::specs::Shown::document_shown), using(crate::proofs::ShownFaults::entry_shown))]
fn refused_entry(alloc: Global, tree: &Value) -> Result<Option<Part<'_>>, AllocError>
    ensures { IfOk result (λ part. option_map seen part ≡ document_part (view tree.now) Reason.Namespace) }
{
    let namespaces = within(tree, "documentInfo", "namespaces").and_then(Value::as_object);
    unbound(alloc, namespaces)
}

fn refused_base(alloc: Global, tree: &Value) -> Result<Option<Part<'_>>, AllocError>
    ensures { IfOk result (λ part. option_map seen part ≡ document_part (view tree.now) Reason.BaseUrl) }
{
    let base = said_base_url(alloc, tree)?;
    Ok(value_if(base.is_none(), within(tree, "documentInfo", "baseURL")))
}

// Returns `None` if the base URL is refused, and `Some(None)` if the report has no `baseURL`.
#[tactic(auto, using(crate::proofs::DocumentHolds::found_is))]
fn said_base_url(alloc: Global, tree: &Value) -> Result<Option<Option<BaseUrl>>, AllocError>
    ensures { IfOk result (λ base. base ≡ base_url_said (view tree.now)) }
{
    unless_memory(read_base_url(alloc, tree))
}

/// If the base URL is refused, references are tested without it.
fn refused_reference(alloc: Global, tree: &Value) -> Result<Option<Part<'_>>, AllocError>
    ensures { IfOk result (λ part. option_map seen part ≡ document_part (view tree.now) Reason.TaxonomyUrl) }
{
    let said = said_base_url(alloc, tree)?;
    let base = said.flatten();
    reference_under(alloc, base.as_ref(), tree)
}

fn reference_under<'a>(
    alloc: Global,
    base: Option<&BaseUrl>,
    tree: &'a Value,
) -> Result<Option<Part<'a>>, AllocError>
    ensures { let all = taxonomy_of (view tree.now) in
        let first = first_item (is_no_reference (option_copied base.entry)) all in
        IfOk result (λ part. option_map seen part ≡ option_map value first) }
{
    let taxonomy = within(tree, "documentInfo", "taxonomy");
    let Some(references) = taxonomy.and_then(Value::as_array) else {
        return Ok(None);
    };
    for reference in references {
        if is_refused(alloc, base, reference)? {
            return Ok(Some(Part::Value(reference)));
        }
    }
    Ok(None)
}

fn is_refused(alloc: Global, base: Option<&BaseUrl>, reference: &Value) -> Result<bool, AllocError>
    ensures { IfOk result
        (λ found. found ≡ is_no_reference (option_copied base.entry) (view reference.now)) }
{
    let kept = unless_memory(keep_item(alloc, base, reference))?;
    Ok(kept.is_none())
}

/// Returns the first declaration of the feature whose value is not a level, or all features if the
/// feature is repeated and each value is a level. If the prefixes are refused, the features are not
/// tested.
fn refused_feature(alloc: Global, tree: &Value) -> Result<Option<Part<'_>>, AllocError>
    ensures { IfOk result (λ part. option_map seen part ≡ document_part (view tree.now) Reason.Feature) }
{
    match report_aliases(alloc, tree)? {
        Some(aliases) => Ok(feature_with(&aliases, tree)),
        None => Ok(None),
    }
}

fn feature_with<'a>(aliases: &Aliases, tree: &'a Value) -> Option<Part<'a>>
    ensures { option_map seen result ≡ misdeclared aliases.now (view tree.now) }
{
    if read_level(aliases, tree).is_ok() {
        return None;
    }
    Some(misdeclared(aliases, tree))
}

fn misdeclared<'a>(aliases: &Aliases, tree: &'a Value) -> Part<'a>
    ensures { seen result ≡ misdeclared_part aliases.now (view tree.now) }
{
    let Some(features) = within(tree, "documentInfo", "features") else {
        return Part::Nothing;
    };
    let Some(members) = features.as_object() else {
        return Part::Value(features);
    };
    for (key, value) in members.iter() {
        if is_misdeclared(aliases, key.as_str(), value) {
            return Part::Member(key.as_str(), value);
        }
    }
    Part::Value(features)
}

fn is_misdeclared(aliases: &Aliases, key: &str, value: &Value) -> bool
    ensures { result ≡ is_misdeclared aliases.now (key.now, view value.now) }
{
    is_allowed_duplicates(aliases, key) && text(Some(value)).and_then(Level::read).is_none()
}
