ghost use Rattle.std.specs.Prelude.{◌≡◌, ◌⊎◌, ◌∷◌, [], Some, None, IfOk, IfErr, option_map};
ghost use Rattle.std.specs.List.{find};
ghost use Rattle.std.specs.Result.{result_err};
ghost use Rattle.serde_json.specs.View.{view};
ghost use Rattle.oim_report.specs.Holds.{document_holds, document_refusal};
ghost use Rattle.oim_report.specs.Info.{bindings_of, document_type, level_said, references_said};
ghost use Rattle.oim_report.specs.Json.{given_of};
ghost use Rattle.oim_report.specs.Shown.{document_part, seen};
ghost use Rattle.oim_report.specs.code.Findings.{is_text};

use crate::document::base_url::read_base_url;
use crate::document::features::read_level;
use crate::document::namespaces::read_namespaces;
use crate::document::references::read_taxonomy;
use crate::json_values::json_member::JsonMember;
use crate::json_values::json_tree::{is_no_array, is_no_object, object_at, unknown_in, within};
use crate::part::Part;
use oim_names::{Aliases, Reason, Text};
use oim_value::Level;
use serde_json::Value;
use std::alloc::Global;

const DOCUMENT_TYPE: &str = "https://xbrl.org/2021/xbrl-json";

/// The contents of a report outside its facts.
#[derive(Drop)]
pub(crate) struct Info {
    pub(crate) aliases: Aliases,
    /// The kept texts of the references in `taxonomy`.
    pub(crate) references: Vec<Text>,
    /// The declared level of duplicates, or `All` if none is declared.
    pub(crate) level: Level,
}

#[tactic(auto, using(crate::proofs::DocumentHolds::document_least, crate::proofs::DocumentHolds::shape_same))]
pub(crate) fn read_info(alloc: Global, tree: &Value) -> Result<Info, Reason>
    ensures aliases { IfOk result (λ info. info.aliases ≡ bindings_of (view tree.now)) }
    ensures references { IfOk result (λ info. references_said (view tree.now) ≡ Some info.references.items) }
    ensures level { IfOk result (λ info. level_said (view tree.now) ≡ Some info.level) }
    ensures accepted { IfOk result (λ _. document_refusal (view tree.now) ≡ None) }
    ensures refused { IfErr result
        (λ r. (r ≡ Reason.OutOfMemory) ⊎ (document_refusal (view tree.now) ≡ Some r)) }
{
    check_shape(tree)?;
    let namespaces = within(tree, "documentInfo", "namespaces").and_then(Value::as_object);
    let aliases = read_namespaces(alloc, namespaces)?;
    let base = read_base_url(alloc, tree)?;
    let references = read_taxonomy(alloc, base.as_ref(), tree)?;
    let level = read_level(&aliases, tree)?;
    Ok(Info {
        aliases,
        references,
        level,
    })
}

fn check_shape(tree: &Value) -> Result<(), Reason>
    ensures { let form = Reason.MemberForm ∷ Reason.UnknownMember ∷ Reason.DocumentType ∷ [] in
        result_err result ≡ find (document_holds (view tree.now)) form }
{
    if misshapen(tree).is_some() {
        return Err(Reason::MemberForm);
    }
    if unknown(tree).is_some() {
        return Err(Reason::UnknownMember);
    }
    if has_other_type(tree) {
        return Err(Reason::DocumentType);
    }
    Ok(())
}

#[tactic(auto, unfolding(crate::specs::Holds::document_holds, crate::specs::Shown::document_shown))]
pub(crate) fn misshapen(tree: &Value) -> Option<Part<'_>>
    ensures { option_map seen result ≡ document_part (view tree.now) Reason.MemberForm }
{
    if !tree.is_object() {
        return Some(Part::Whole);
    }
    if tree.get("documentInfo").is_none() {
        return Some(Part::Missing("documentInfo"));
    }
    if is_no_object(tree.get("documentInfo")) {
        return Some(Part::NoObject("documentInfo"));
    }
    if is_no_object(within(tree, "documentInfo", "namespaces")) {
        return Some(Part::NoObject("namespaces"));
    }
    if is_no_object(within(tree, "documentInfo", "features")) {
        return Some(Part::NoObject("features"));
    }
    if is_no_object(tree.get("facts")) {
        return Some(Part::NoObject("facts"));
    }
    if is_no_array(within(tree, "documentInfo", "taxonomy")) {
        return Some(Part::NoArray("taxonomy"));
    }
    None
}

#[tactic(auto, unfolding(crate::specs::Holds::document_holds, crate::specs::Shown::document_shown))]
pub(crate) fn unknown(tree: &Value) -> Option<Part<'_>>
    ensures { option_map seen result ≡ document_part (view tree.now) Reason.UnknownMember }
{
    if let Some(key) = unknown_in(tree.as_object(), &["documentInfo", "facts"]) {
        return Some(Part::Key(key));
    }
    let known = &[
        "documentType",
        "namespaces",
        "taxonomy",
        "baseURL",
        "features",
        "linkTypes",
        "linkGroups",
    ];
    let key = unknown_in(object_at(tree, "documentInfo"), known)?;
    Some(Part::KeyIn(key, "documentInfo"))
}

#[tactic(auto, unfolding(crate::specs::Holds::document_holds))]
pub(crate) fn has_other_type(tree: &Value) -> bool
    ensures { result ≡ document_holds (view tree.now) Reason.DocumentType }
{
    object_at(tree, "documentInfo").is_some()
        && !is_document_type(within(tree, "documentInfo", "documentType"))
}

fn is_document_type(value: Option<&Value>) -> bool
    ensures { result ≡ is_text document_type (given_of (option_map (λ v. view v.now) value.entry)) }
{
    JsonMember::of(value).text() == Some(DOCUMENT_TYPE)
}
