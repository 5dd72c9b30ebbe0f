//! Finds the conditions that apply to a fact object.

ghost use Rattle.std.specs.Prelude.{◌≡◌, ◌++◌, map, IfOk, OnOk};
ghost use Rattle.std.specs.List.{filter, find};
ghost use Rattle.serde_json.specs.View.{view};
ghost use Rattle.oim_report.specs.Faults.{listed};
ghost use Rattle.oim_report.specs.Holds.{holds};
ghost use Rattle.oim_report.specs.Least.{least};
ghost use Rattle.oim_report.specs.code.ListedFaults.{fact_fault, fact_faults};

use crate::fact::fact_part::FactInScope;
use crate::fault::Fault;
use crate::fault_list::Faults;
use crate::place::Place;
use crate::refusal::Refusal;
use oim_names::Reason;
use std::alloc::{AllocError, Global};

// The conditions on a fact object, in the order of their numbers.
const FACT_REASONS: [Reason; 24] = [
    Reason::MemberForm,
    Reason::UnknownMember,
    Reason::Links,
    Reason::Notes,
    Reason::DimensionsMissing,
    Reason::NameForm,
    Reason::UnboundPrefix,
    Reason::ReservedNamespace,
    Reason::MissingConcept,
    Reason::UnknownConcept,
    Reason::UnknownDimension,
    Reason::DimensionValue,
    Reason::PeriodForm,
    Reason::PeriodOrder,
    Reason::UnitForm,
    Reason::UnitOnOther,
    Reason::LanguageForm,
    Reason::LanguageOnNumeric,
    Reason::ValueForm,
    Reason::NumberForm,
    Reason::NumberDigits,
    Reason::DecimalsForm,
    Reason::DecimalsRange,
    Reason::DecimalsOnOther,
];

/// Returns the lowest-numbered condition that applies to the fact object, or `None` if no condition
/// applies.
///
/// Errors: out of memory.
pub(crate) fn least_of_fact(
    alloc: Global,
    fact: &FactInScope<'_, '_>,
) -> Result<Option<Reason>, AllocError>
    ensures { let object = view fact.now.object.now in
        IfOk result (λ found. found ≡ least (holds fact.now.sheet.now fact.now.aliases.now object)) }
{
    first_of_fact(alloc, fact, &FACT_REASONS)
}

// Does the same as `least_of_fact`, but only for the conditions in `reasons`.
fn first_of_fact(
    alloc: Global,
    fact: &FactInScope<'_, '_>,
    reasons: &[Reason],
) -> Result<Option<Reason>, AllocError>
    ensures { let object = view fact.now.object.now in
        IfOk result (λ found. found ≡ find (holds fact.now.sheet.now fact.now.aliases.now object) reasons.now) }
{
    for reason in reasons {
        if let Some(_part) = fact.part(alloc, *reason)? {
            return Ok(Some(*reason));
        }
    }
    Ok(None)
}

impl<'t> Faults<'t> {
    /// Adds each condition that applies to the fact object, with `place` as its place.
    pub(crate) fn add_fact(
        &mut self,
        fact: &FactInScope<'_, 't>,
        place: Place,
    ) -> Result<(), AllocError>
        ensures { let sheet = fact.now.sheet.now in
            let object = view fact.now.object.now in
            OnOk result (listed self.new ≡ listed self.old ++ fact_faults sheet fact.now.aliases.now object place) }
    {
        self.add_each_of_fact(fact, place, &FACT_REASONS)
    }

    // Does the same as `add_fact`, but only for the conditions in `reasons`.
    fn add_each_of_fact(
        &mut self,
        fact: &FactInScope<'_, 't>,
        place: Place,
        reasons: &[Reason],
    ) -> Result<(), AllocError>
        ensures { let sheet = fact.now.sheet.now in
            let bs = fact.now.aliases.now in
            let object = view fact.now.object.now in
            let found = filter (holds sheet bs object) reasons.now in
            OnOk result (listed self.new ≡ listed self.old ++ map (fact_fault sheet bs object place) found) }
    {
        for reason in reasons {
            if let Some(part) = fact.part(self.alloc(), *reason)? {
                let refusal = Refusal {
                    reason: *reason,
                    place,
                };
                self.push(Fault { refusal, part })?;
            }
        }
        Ok(())
    }
}
