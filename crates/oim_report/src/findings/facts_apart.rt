ghost use Rattle.std.specs.Prelude.{◌≡◌, List, [], false, get_or, is_some, None, Ok, Some, IfNone, IfOk, IfSome, IsTrue};
ghost use Rattle.std.specs.List.{list_any};
ghost use Rattle.std.specs.Ordering.{is_lt};
ghost use Rattle.oim_value.specs.Level.{level_cmp};
ghost use Rattle.oim_dims.specs.declared.fact.Fact.{Fact as AFact};
ghost use Rattle.serde_json.specs.View.{view};
ghost use Rattle.oim_report.specs.Apart.{are_apart};
ghost use Rattle.oim_report.specs.Duplicates.{allows, allows_values, level_of};
ghost use Rattle.oim_report.specs.Faults.{IsOfDuplicates, shown_fault};
ghost use Rattle.oim_report.specs.Holds.{document_refusal};
ghost use Rattle.oim_report.specs.Identifiers.{tree_identifiers};
ghost use Rattle.oim_report.specs.Info.{bindings_of, facts_of, level_said};
ghost use Rattle.oim_report.specs.Outcome.{at, facts_said};
ghost use Rattle.oim_report.specs.Report.{IsOrderOf};
ghost use Rattle.oim_report.specs.Shown.{seen, two};

use crate::document::duplicates::{is_above, level_within};
use crate::document::info::Info;
use crate::fact_reader::{FactReader, read_facts};
use crate::fault::Fault;
use crate::json_values::json_tree::object_at;
use crate::order::order_of;
use crate::part::Part;
use crate::place::Place;
use crate::refusal::Refusal;
use crate::sheet::Sheet;
use oim_dims::Fact;
use oim_names::Reason;
use oim_value::{Level, Value as Said, value_meets};
use serde_json::Value;
use std::alloc::{AllocError, Global};

/// Returns the refusal of a report's duplicates with the identifiers of two facts that the declared
/// level does not allow together. The result is `None` if the level allows the facts, or if one of
/// them is refused. `info` is the content of the report's `documentInfo`.
///
/// Errors: out of memory.
pub(crate) fn refused_duplicates<'t>(
    alloc: Global,
    sheet: &Sheet,
    info: Info,
    tree: &'t Value,
) -> Result<Option<Fault<'t>>, AllocError>
    requires aliases { info.aliases ≡ bindings_of (view tree.now) }
    requires level { level_said (view tree.now) ≡ Some info.level }
    requires accepted { document_refusal (view tree.now) ≡ None }
    ensures above { let said = facts_said sheet.now info.aliases (facts_of (view tree.now)) in
        IfOk result (λ found. (facts : List AFact) → said ≡ Ok facts
        → is_some found ≡ is_lt (level_cmp info.level (level_of facts))) }
    ensures apart { IfOk result
        (λ found. IfSome found (λ f. IsOfDuplicates sheet.now (view tree.now) (shown_fault f))) }
{
    let mut reader = FactReader::new(alloc, sheet);
    reader.turn_to(info.aliases);
    let facts = match read_facts(&mut reader, tree) {
        Ok(facts) => facts,
        Err(refusal) if refusal.reason == Reason::OutOfMemory => return Err(AllocError),
        Err(_) => return Ok(None),
    };
    let order = order_of(alloc, facts.as_slice(), &[])?;
    match first_apart(facts.as_slice(), order.as_slice(), info.level) {
        Some((one, other)) => Ok(Some(fault_of_two(tree, one, other))),
        None => Ok(None),
    }
}

fn fault_of_two(tree: &Value, one: usize, other: usize) -> Fault<'_>
    ensures refusal { result.refusal ≡ at Place.Document Reason.DisallowedDuplicates }
    ensures part { let is = tree_identifiers (view tree.now) in
        seen result.part ≡ two (get_or is one []) (get_or is other []) }
{
    Fault {
        refusal: Refusal::from(Reason::DisallowedDuplicates),
        part: Part::Two(identifier_at(tree, one), identifier_at(tree, other)),
    }
}

fn identifier_at(tree: &Value, index: usize) -> &str
    ensures { result.now ≡ get_or (tree_identifiers (view tree.now)) index [] }
{
    let Some(objects) = object_at(tree, "facts") else {
        return "";
    };
    let mut left = index;
    for (identifier, _object) in objects.iter() {
        if left == 0 {
            return identifier.as_str();
        }
        left -= 1;
    }
    ""
}

// If the level is exceeded, one walk finds the later fact of the pair in sorted order, and another
// one finds the earlier fact.
fn first_apart(facts: &[Fact], order: &[usize], level: Level) -> Option<(usize, usize)>
    requires { IsOrderOf facts.now order.now }
    ensures above { is_some result ≡ is_lt (level_cmp level (level_of facts.now)) }
    ensures apart { IfSome result (λ t. IsTrue (are_apart level facts.now t.0 t.1)) }
{
    if !is_above(level, facts, order) {
        return None;
    }
    let last = level_within(level, facts, order).err()?;
    let one = first_beside(facts, order, last, level)?;
    Some((one, last))
}

fn first_beside(facts: &[Fact], order: &[usize], last: usize, level: Level) -> Option<usize>
    ensures apart { IfSome result (λ one. IsTrue (are_apart level facts.now one last)) }
    ensures found { IfNone result
        (list_any (λ one. are_apart level facts.now one last) order.now ≡ false) }
{
    for one in order {
        if are_apart(facts, *one, last, level) {
            return Some(*one);
        }
    }
    None
}

fn are_apart(facts: &[Fact], one: usize, other: usize, level: Level) -> bool
    ensures { result ≡ are_apart level facts.now one other }
{
    match (facts.get(one), facts.get(other)) {
        (Some(fact), Some(beside)) => one != other && !allows(level, fact, beside),
        _ => false,
    }
}

#[tactic(auto, using(crate::proofs::Ties::equal_dimensions_tie))]
fn allows(level: Level, fact: &Fact, other: &Fact) -> bool
    ensures { result ≡ allows level fact.now other.now }
{
    fact.dimensions != other.dimensions || allows_values(level, &fact.value, &other.value)
}

fn allows_values(level: Level, value: &Said, other: &Said) -> bool
    ensures { result ≡ allows_values level value.now other.now }
{
    match level {
        Level::Unique => false,
        Level::Complete => value == other,
        Level::Consistent => value_meets(value, other),
        Level::All => true,
    }
}
