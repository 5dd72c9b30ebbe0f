pub(crate) mod kind;
pub(crate) mod name_table;
pub(crate) mod ranked_names;
pub(crate) mod same_names;
pub(crate) mod sheet_form;
pub(crate) mod sheet_part;

ghost use Rattle.std.specs.Prelude.{◌≡◌, ◌⊎◌, ◌↔◌, ◌∷◌, [], Some, Ok, Err, IsTrue, IfOk, IfErr, IfSome, option_map, find};
ghost use Rattle.std.specs.FinMap as map;
ghost use Rattle.std.specs.Result.{result_err};
ghost use Rattle.serde_json.specs.View.{view};
ghost use Rattle.oim_report.specs.Json.{text as a_text};
ghost use Rattle.oim_report.specs.Names.{named};
ghost use Rattle.oim_report.specs.Said.{concept_kind};
ghost use Rattle.oim_report.specs.Sheet.{dimension_kind, said_sheet, sheet_bindings, sheet_holds, sheet_of, sheet_outcome};

use crate::concept_kind::ConceptKind;
use crate::dimension_kind::DimensionKind;
use crate::document::namespaces::read_namespaces;
use crate::json_values::json_tree::{object_at, read_json};
use crate::sheet::name_table::{has_bad_kind, has_each, read_table};
use crate::sheet::ranked_names::RankedNames;
use crate::sheet::sheet_form::{check_form, check_names};
use oim_names::{Aliases, Name, Reason};
use serde_json::Value;
use std::alloc::Global;
use std::marker::Model;

/// The concepts and taxonomy-defined dimensions that reports may use, each with its kind.
#[derive(Debug, Drop)]
pub struct Sheet {
    concepts: RankedNames<ConceptKind>,
    dimensions: RankedNames<DimensionKind>,
}

impl Model for Sheet {
    ghost use Rattle.oim_report.specs.Sheet.{Sheet as Listed};
    ghost use Rattle.oim_report.specs.code.SheetCode.{sheet_code};

    ghost Value = { Listed };

    ghost coded = { sheet_code };

    ghost view = { λ s. record { concepts = s.concepts; dimensions = s.dimensions } };
}

impl Sheet {
    /// Reads a sheet: a JSON object with the optional members `namespaces`, `concepts` and
    /// `dimensions`, which are objects (own).
    ///
    /// Errors, the first that applies: `NotJson`; `MemberForm` if the root or one of these members
    /// is not an object; `UnknownMember` if the root has any other key without a colon;
    /// `Namespace` if an entry of `namespaces` does not bind a prefix to a URI; the first of
    /// `NameForm`, `UnboundPrefix` and `ReservedNamespace` that applies to any key of `concepts` or
    /// `dimensions`; `SheetKind` if a kind is invalid, or if two keys of one member give a name two
    /// kinds. `OutOfMemory` may replace any result.
    #[tactic(auto, unfolding(crate::specs::Sheet::sheet_outcome))]
    pub fn read(alloc: Global, bytes: &[u8]) -> Result<Sheet, Reason>
        ensures ok { IfOk result (λ s. sheet_outcome bytes.now ≡ Ok s) }
        ensures errors { IfErr result
            (λ r. (r ≡ Reason.OutOfMemory) ⊎ (sheet_outcome bytes.now ≡ Err r)) }
    {
        let tree = read_json(alloc, bytes)?;
        Sheet::from_tree(alloc, &tree)
    }

    pub(crate) fn from_tree(alloc: Global, tree: &Value) -> Result<Sheet, Reason>
        ensures ok { IfOk result (λ s. sheet_of (Some (view tree.now)) ≡ Ok s) }
        ensures errors { IfErr result
            (λ r. (r ≡ Reason.OutOfMemory) ⊎ (sheet_of (Some (view tree.now)) ≡ Err r)) }
    {
        check_form(tree)?;
        let aliases = read_namespaces(alloc, object_at(tree, "namespaces"))?;
        let listed = object_at(tree, "concepts");
        let defined = object_at(tree, "dimensions");
        let concepts = read_table(alloc, &aliases, listed)?;
        let dimensions = read_table(alloc, &aliases, defined)?;
        let sheet = Sheet {
            concepts,
            dimensions,
        };
        check_entries(&sheet, &aliases, tree)?;
        Ok(sheet)
    }

    /// Returns the kind of a concept's values, or `None` if the sheet does not list the concept.
    pub fn concept(&self, name: &Name) -> Option<ConceptKind>
        ensures { result ≡ map.get self.now.concepts name.now }
    {
        Some(self.concepts.find(name.uri(), name.local())?.1)
    }

    /// Returns the kind of a dimension's members, or `None` if the sheet does not list the
    /// dimension.
    pub fn dimension(&self, name: &Name) -> Option<DimensionKind>
        ensures { result ≡ map.get self.now.dimensions name.now }
    {
        Some(self.dimensions.find(name.uri(), name.local())?.1)
    }

    pub(crate) fn concepts(&self) -> &RankedNames<ConceptKind>
        ensures { result.now ≡ self.now.concepts }
    {
        &self.concepts
    }

    pub(crate) fn dimensions(&self) -> &RankedNames<DimensionKind>
        ensures { result.now ≡ self.now.dimensions }
    {
        &self.dimensions
    }

    /// Returns whether both sheets list the same names with the same kinds.
    pub fn same_as(&self, other: &Sheet) -> bool
        ensures { IsTrue result ↔ (self.now ≡ other.now) }
    {
        self.concepts.same_as(&other.concepts) && self.dimensions.same_as(&other.dimensions)
    }
}

// Each entry that is refused, or repeats a name, leaves the sheet with fewer names than entries. So
// most sheets need no further test.
#[tactic(auto, unfolding(crate::specs::Sheet::sheet_holds))]
fn check_entries(sheet: &Sheet, aliases: &Aliases, tree: &Value) -> Result<(), Reason>
    requires bindings { aliases.now ≡ sheet_bindings (view tree.now) }
    requires listed { sheet.now ≡ said_sheet (view tree.now) }
    ensures { let entries = Reason.NameForm ∷ Reason.UnboundPrefix ∷ Reason.ReservedNamespace ∷ Reason.SheetKind ∷ [] in
        result_err result ≡ find (sheet_holds (view tree.now)) entries }
{
    let listed = object_at(tree, "concepts");
    let defined = object_at(tree, "dimensions");
    if has_each(sheet.concepts(), listed) && has_each(sheet.dimensions(), defined) {
        return Ok(());
    }
    check_names(aliases, listed, defined)?;
    if has_bad_kind(sheet.concepts(), aliases, listed)
        || has_bad_kind(sheet.dimensions(), aliases, defined)
    {
        return Err(Reason::SheetKind);
    }
    Ok(())
}

pub(crate) fn find_named_concept<'s>(
    sheet: &'s Sheet,
    aliases: &Aliases,
    text: &str,
) -> Option<(&'s Name, ConceptKind)>
    ensures kind { option_map (λ c. c.1) result
        ≡ concept_kind sheet.now aliases.now (a_text text.now) }
    ensures name { IfSome result (λ c. named aliases.now text.now ≡ Some c.0.now) }
{
    let (uri, local) = aliases.resolve(text).ok()?;
    let (name, kind, _rank) = sheet.concepts().find(uri, local)?;
    Some((name, kind))
}

pub(crate) fn find_dimension<'s>(
    sheet: &'s Sheet,
    aliases: &Aliases,
    text: &str,
) -> Option<(&'s Name, DimensionKind)>
    ensures kind { option_map (λ d. d.1) result ≡ dimension_kind sheet.now aliases.now text.now }
    ensures name { IfSome result (λ d. named aliases.now text.now ≡ Some d.0.now) }
{
    let (uri, local) = aliases.resolve(text).ok()?;
    let (name, kind, _rank) = sheet.dimensions().find(uri, local)?;
    Some((name, kind))
}
