//! Tests single values of a fact object.

ghost use Rattle.std.specs.Prelude.{◌≡◌, ◌&&◌, ◌||◌, IsTrue, codes, false, is_none, is_some, not, option_and_then, option_map};
ghost use Rattle.std.specs.FinMap as map;
ghost use Rattle.oim_value.specs.Decimals.{is_finite_decimals};
ghost use Rattle.serde_json.specs.Find.{get, get_member};
ghost use Rattle.serde_json.specs.View.{view};
ghost use Rattle.oim_report.specs.Holds.{holds, is_kind, is_some_and};
ghost use Rattle.oim_report.specs.Json.{is_object, members, object_at};
ghost use Rattle.oim_report.specs.Names.{named};
ghost use Rattle.oim_report.specs.Shown.{subject};
ghost use Rattle.oim_report.specs.code.MemberTests.{listed_kind, refused_number, refused_period};

use crate::concept_kind::ConceptKind;
use crate::fact::fact_part::FactInScope;
use crate::json_values::fact_values::{dimension, text};
use crate::json_values::json_tree::object_at;
use crate::sheet::{Sheet, find_named_concept};
use oim_dims::read_period;
use oim_names::{Aliases, Reason};
use oim_value::{Decimals, read_fixed};
use serde_json::Value;
use std::alloc::Global;

impl<'a> FactInScope<'_, 'a> {
    /// Returns `true` only if a condition does not apply. For most facts this is known before the
    /// value that the condition is about is looked up.
    #[tactic(auto, unfolding(crate::specs::Holds::holds), using(crate::proofs::ReasonTests::period_form, crate::proofs::ReasonTests::period_order, crate::proofs::ReasonTests::number_form, crate::proofs::ReasonTests::number_digits))]
    pub(crate) fn is_free_of(&self, reason: Reason) -> bool
        ensures { IsTrue result → holds self.now.sheet.now self.now.aliases.now (view self.now.object.now) reason ≡ false }
    {
        match reason {
            Reason::UnknownConcept => self.kind.is_some(),
            Reason::PeriodForm => self.period_refusal.is_none(),
            Reason::PeriodOrder => self.period_refusal.is_none(),
            Reason::UnitOnOther => !self.is_other(),
            Reason::LanguageOnNumeric => !self.is_numeric(),
            Reason::NumberForm => self.number_refusal.is_none(),
            Reason::NumberDigits => self.number_refusal.is_none(),
            Reason::DecimalsOnOther => !self.is_other(),
            _ => false,
        }
    }

    // Returns the value that a condition is about, if there is one.
    pub(crate) fn subject(&self, reason: Reason) -> Option<&'a Value>
        ensures { let dimensions = members (object_at (codes "dimensions") (view self.now.object.now)) in
            option_map (λ v. view v.now) result
            ≡ subject self.now.sheet.now self.now.aliases.now (view self.now.object.now) dimensions reason }
    {
        match reason {
            Reason::Links => self.object.get("links"),
            Reason::Notes => dimension(self.object, "noteId"),
            Reason::UnknownConcept => dimension(self.object, "concept"),
            Reason::PeriodForm | Reason::PeriodOrder => dimension(self.object, "period"),
            Reason::UnitForm | Reason::UnitOnOther => dimension(self.object, "unit"),
            Reason::LanguageForm | Reason::LanguageOnNumeric => dimension(self.object, "language"),
            Reason::ValueForm | Reason::NumberForm | Reason::NumberDigits => {
                self.object.get("value")
            }
            Reason::DecimalsForm | Reason::DecimalsRange | Reason::DecimalsOnOther => {
                self.object.get("decimals")
            }
            _ => None,
        }
    }

    pub(crate) fn lacks_dimensions(&self) -> bool
        ensures { result ≡ (is_object (view self.now.object.now) && is_none (get (codes "dimensions") (view self.now.object.now))) }
    {
        self.object.is_object() && self.object.get("dimensions").is_none()
    }

    pub(crate) fn lacks_concept(&self) -> bool
        ensures { let dimensions = object_at (codes "dimensions") (view self.now.object.now) in
            result ≡ (is_some dimensions && is_none (get_member (codes "concept") (members dimensions))) }
    {
        object_at(self.object, "dimensions").is_some()
            && dimension(self.object, "concept").is_none()
    }

    pub(crate) fn is_numeric(&self) -> bool
        ensures { let dimensions = members (object_at (codes "dimensions") (view self.now.object.now)) in
            result ≡ is_kind self.now.sheet.now self.now.aliases.now (view self.now.object.now) dimensions ConceptKind.Numeric }
    {
        matches!(self.kind, Some(ConceptKind::Numeric))
    }

    pub(crate) fn is_other(&self) -> bool
        ensures { let dimensions = members (object_at (codes "dimensions") (view self.now.object.now)) in
            let is_kind = is_kind self.now.sheet.now self.now.aliases.now (view self.now.object.now) dimensions in
            result ≡ (is_kind ConceptKind.Text || is_kind ConceptKind.Name) }
    {
        matches!(self.kind, Some(ConceptKind::Text | ConceptKind::Name))
    }
}

/// Returns whether a text expands to a concept that the sheet does not list.
pub(crate) fn is_unlisted_concept(sheet: &Sheet, aliases: &Aliases, name: Option<&str>) -> bool
    ensures { let named = option_and_then (named aliases.now) (option_map (λ n. n.now) name.entry) in
        result ≡ is_some_and (λ n. is_none (map.get sheet.now.concepts n)) named }
{
    match name {
        Some(name) => {
            aliases.name_refusal(name).is_none()
                && find_named_concept(sheet, aliases, name).is_none()
        }
        None => false,
    }
}

/// Returns the kind of a fact object's concept, if the sheet lists the concept.
pub(crate) fn listed_kind(sheet: &Sheet, aliases: &Aliases, object: &Value) -> Option<ConceptKind>
    ensures { result ≡ listed_kind sheet.now aliases.now (view object.now) }
{
    let concept = text(dimension(object, "concept"))?;
    let (_name, kind) = find_named_concept(sheet, aliases, concept)?;
    Some(kind)
}

/// Returns why the period of a fact object is refused, if it is a text.
pub(crate) fn refused_period(alloc: Global, object: &Value) -> Option<Reason>
    ensures { result ≡ refused_period (view object.now) }
{
    let period = text(dimension(object, "period"))?;
    read_period(alloc, period).err()
}

/// Returns why the value of a fact object is refused as a number, if it is a text and the concept
/// is numeric.
pub(crate) fn refused_number(kind: Option<ConceptKind>, object: &Value) -> Option<Reason>
    ensures { result ≡ refused_number kind (view object.now) }
{
    match kind {
        Some(ConceptKind::Numeric) => read_fixed(text(object.get("value"))?).err(),
        _ => None,
    }
}

pub(crate) fn is_out_of_range(number: i128) -> bool
    ensures { result ≡ not (is_finite_decimals number) }
{
    match i64::try_from(number) {
        Ok(number) => Decimals::finite(number).is_err(),
        Err(_) => true,
    }
}
