ghost use Rattle.std.specs.Prelude.{◌≡◌, ◌++◌, [], IfOk, IsTrue, OnOk};
ghost use Rattle.std.specs.List.{AllByRecursion};
ghost use Rattle.serde_json.specs.View.{view};
ghost use Rattle.oim_report.specs.Faults.{HasPart, faults, listed, refusals_of, tree_faults};
ghost use Rattle.oim_report.specs.Info.{facts_of};
ghost use Rattle.oim_report.specs.Json.{values};
ghost use Rattle.oim_report.specs.code.ListedFaults.{facts_faults};

use super::facts_apart::refused_duplicates;
use crate::document::info::read_info;
use crate::fact::fact_part::FactInScope;
use crate::fault_list::Faults;
use crate::json_values::json_tree::{object_at, read_json};
use crate::place::Place;
use crate::refusal::{Refusal, unless_memory};
use crate::report_reader::ReportReader;
use crate::sheet::Sheet;
use oim_names::{Aliases, Reason};
use serde_json::Value;
use std::alloc::{AllocError, Global};

/// Returns the faults of a report's bytes under a sheet (own). `read_report` returns only the first
/// fault. If the bytes are not JSON, `NotJson` is the only fault. Otherwise the faults are all
/// conditions that apply to the document. If no condition applies to the document, the faults are
/// all conditions that apply to its facts, each with its place. If no condition applies to a fact
/// either, the only possible fault is `DisallowedDuplicates`. `Feature` is omitted if `Namespace`
/// applies. An accepted report has no faults.
///
/// Errors: out of memory.
#[tactic(auto, unfolding(crate::specs::Faults::faults, crate::specs::Outcome::outcome))]
pub fn faults(alloc: Global, sheet: &Sheet, bytes: &[u8]) -> Result<Vec<Refusal>, AllocError>
    ensures { IfOk result (λ found. found.items ≡ faults sheet.now bytes.now) }
{
    match unless_memory(read_json(alloc, bytes))? {
        Some(tree) => tree_faults(alloc, sheet, &tree)?.refusals(),
        None => {
            let mut refusals = Vec::new(alloc);
            refusals.push(Refusal::from(Reason::NotJson))?;
            Ok(refusals)
        }
    }
}

/// Does the same as `faults` for a JSON value, and returns each fault with the part at fault. If
/// several parts are at fault for the same reason, it returns the first in the order of
/// `document_shown` or `fact_shown`. If `xbrl:allowedDuplicates` is declared under several prefixes,
/// each time with a valid level, the part is the object `features`. For `DisallowedDuplicates`, the
/// part is `Part::Two` with the identifiers of two facts that the declared level does not allow
/// together.
///
/// Errors: out of memory.
pub fn tree_faults<'t>(
    alloc: Global,
    sheet: &Sheet,
    tree: &'t Value,
) -> Result<Faults<'t>, AllocError>
    ensures refusals { IfOk result (λ found. refusals_of (listed found) ≡ tree_faults sheet.now (view tree.now)) }
    ensures parts { IfOk result (λ found. AllByRecursion (HasPart sheet.now (view tree.now)) (listed found)) }
{
    let mut faults = Faults::new(alloc);
    if is_accepted(alloc, sheet, tree)? {
        return Ok(faults);
    }
    faults.add_document(tree)?;
    if !faults.is_empty() {
        return Ok(faults);
    }
    let info = match read_info(alloc, tree) {
        Ok(info) => info,
        Err(Reason::OutOfMemory) => return Err(AllocError),
        // no condition of the document applies
        Err(_) => unreachable!(),
    };
    faults.add_facts(sheet, &info.aliases, tree)?;
    if !faults.is_empty() {
        return Ok(faults);
    }
    if let Some(fault) = refused_duplicates(alloc, sheet, info, tree)? {
        faults.push(fault)?;
    }
    Ok(faults)
}

// Returns whether a report is accepted. To read a report is faster than to search for its faults.
fn is_accepted(alloc: Global, sheet: &Sheet, tree: &Value) -> Result<bool, AllocError>
    ensures { IfOk result
        (λ accepted. IsTrue accepted → tree_faults sheet.now (view tree.now) ≡ []) }
{
    match ReportReader::new(alloc, sheet).read_tree(tree) {
        Ok(_report) => Ok(true),
        Err(refusal) if refusal.reason == Reason::OutOfMemory => Err(AllocError),
        Err(_) => Ok(false),
    }
}

impl<'t> Faults<'t> {
    // Adds each condition that applies to a fact object. Facts are numbered from 1.
    fn add_facts(
        &mut self,
        sheet: &Sheet,
        aliases: &Aliases,
        tree: &'t Value,
    ) -> Result<(), AllocError>
        ensures { let objects = values (facts_of (view tree.now)) in
            OnOk result (listed self.new ≡ listed self.old ++ facts_faults sheet.now aliases.now 1 objects) }
    {
        let Some(objects) = object_at(tree, "facts") else {
            return Ok(());
        };
        let mut number: u64 = 1;
        for (_identifier, object) in objects.iter() {
            let fact = FactInScope::new(self.alloc(), sheet, aliases, object);
            self.add_fact(&fact, Place::Fact(number))?;
            number += 1;
        }
        Ok(())
    }
}
