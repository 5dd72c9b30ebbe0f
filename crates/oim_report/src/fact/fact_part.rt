//! Finds the part of a fact object to which a condition applies.

ghost use Rattle.std.proofs.Props.{props};
ghost use Rattle.std.specs.Prelude.{◌≡◌, ◌||◌, codes, option_map, IfOk};
ghost use Rattle.serde_json.specs.View.{view};
ghost use Rattle.oim_report.specs.Json.{members, object_at};
ghost use Rattle.oim_report.specs.Shown.{fact_part, seen, textless, when};
ghost use Rattle.oim_report.specs.code.MemberTests.{lacks_text, listed_kind, refused_number, refused_period};

use crate::concept_kind::ConceptKind;
use crate::fact::fact_members::{CORE_KEYS, FACT_KEYS};
use crate::fact::value_part::{
    is_out_of_range, is_unlisted_concept, listed_kind, refused_number, refused_period,
};
use crate::json_values::fact_values::{dimension, is_no_text, is_no_text_or_null, text, whole};
use crate::json_values::json_tree::{has_member, is_no_object, object_at, unknown_in};
use crate::part::{Part, value_if};
use crate::sheet::Sheet;
use oim_dims::{is_language, is_unit_text};
use oim_names::{Aliases, Reason};
use serde_json::Value;
use std::alloc::{AllocError, Global};

/// A fact object, with the sheet and the prefixes under which it is read, and with what several
/// conditions test. This is found once.
#[derive(Clone, Copy)]
pub(crate) struct FactInScope<'s, 'a> {
    pub(crate) sheet: &'s Sheet,
    pub(crate) aliases: &'s Aliases,
    pub(crate) object: &'a Value,
    /// The kind of the concept, if the sheet lists the concept.
    pub(crate) kind: Option<ConceptKind>,
    /// Why the period is refused, if it is a text.
    pub(crate) period_refusal: Option<Reason>,
    /// Why the value is refused as a number, if it is a text and the concept is numeric.
    pub(crate) number_refusal: Option<Reason>,
    ghost listed: { kind ≡ listed_kind sheet.now aliases.now (view object.now) } by { Prim.hlevel props },
    ghost dated: { period_refusal ≡ refused_period (view object.now) } by { Prim.hlevel props },
    ghost counted: { number_refusal ≡ refused_number kind (view object.now) } by { Prim.hlevel props },
}

impl<'s, 'a> FactInScope<'s, 'a> {
    pub(crate) fn new(
        alloc: Global,
        sheet: &'s Sheet,
        aliases: &'s Aliases,
        object: &'a Value,
    ) -> FactInScope<'s, 'a>
        ensures sheet { result.sheet.now ≡ sheet.now }
        ensures aliases { result.aliases.now ≡ aliases.now }
        ensures object { result.object.now ≡ object.now }
    {
        let kind = listed_kind(sheet, aliases, object);
        FactInScope {
            sheet,
            aliases,
            object,
            kind,
            period_refusal: refused_period(alloc, object),
            number_refusal: refused_number(kind, object),
        }
    }
}

impl<'a> FactInScope<'_, 'a> {
    /// Returns the part at fault if the condition `reason` applies to the fact object, otherwise
    /// `None` (own). If several parts are at fault, the first in the order of `fact_shown` is
    /// returned. If the condition is not about a part, no part can be shown.
    ///
    /// Errors: out of memory.
    #[tactic(auto, unfolding(crate::specs::Holds::holds, crate::specs::Shown::fact_shown), using(crate::proofs::ShownFaults::name_shown, crate::proofs::ShownFaults::unlisted_shown, crate::proofs::ReasonTests::period_form, crate::proofs::ReasonTests::period_order, crate::proofs::ReasonTests::number_form, crate::proofs::ReasonTests::number_digits))]
    pub(crate) fn part(&self, alloc: Global, reason: Reason) -> Result<Option<Part<'a>>, AllocError>
        ensures { IfOk result (λ part. option_map seen part
            ≡ fact_part self.now.sheet.now self.now.aliases.now (view self.now.object.now) reason) }
    {
        if self.is_free_of(reason) {
            return Ok(None);
        }
        let value = self.subject(reason);
        let text = text(value);
        let period = self.period_refusal;
        let number = self.number_refusal;
        match reason {
            Reason::MemberForm => Ok(self.misshapen()),
            Reason::UnknownMember => Ok(self.unknown()),
            Reason::Links => Ok(value_if(has_member(object_at(self.object, "links")), value)),
            Reason::Notes => Ok(value_if(value.is_some(), value)),
            Reason::DimensionsMissing => Ok(value_if(self.lacks_dimensions(), None)),
            Reason::NameForm => Ok(self.refused_name(Reason::NameForm)),
            Reason::UnboundPrefix => Ok(self.refused_name(Reason::UnboundPrefix)),
            Reason::ReservedNamespace => Ok(self.refused_name(Reason::ReservedNamespace)),
            Reason::MissingConcept => Ok(value_if(self.lacks_concept(), None)),
            Reason::UnknownConcept => {
                let is_unlisted = is_unlisted_concept(self.sheet, self.aliases, text);
                Ok(value_if(is_unlisted, value))
            }
            Reason::UnknownDimension => Ok(self.unlisted_dimension()),
            Reason::DimensionValue => self.misfit(alloc),
            Reason::PeriodForm => Ok(value_if(period == Some(Reason::PeriodForm), value)),
            Reason::PeriodOrder => Ok(value_if(period == Some(Reason::PeriodOrder), value)),
            Reason::UnitForm => Ok(value_if(text.is_some_and(|t| !is_unit_text(t)), value)),
            Reason::UnitOnOther => Ok(value_if(value.is_some() && self.is_other(), value)),
            Reason::LanguageForm => Ok(value_if(text.is_some_and(|t| !is_language(t)), value)),
            Reason::LanguageOnNumeric => Ok(value_if(value.is_some() && self.is_numeric(), value)),
            Reason::ValueForm => Ok(value_if(is_no_text_or_null(value), value)),
            Reason::NumberForm => Ok(value_if(number == Some(Reason::NumberForm), value)),
            Reason::NumberDigits => Ok(value_if(number == Some(Reason::NumberDigits), value)),
            Reason::DecimalsForm => Ok(value_if(value.is_some() && whole(value).is_none(), value)),
            Reason::DecimalsRange => Ok(value_if(whole(value).is_some_and(is_out_of_range), value)),
            Reason::DecimalsOnOther => Ok(value_if(value.is_some() && self.is_other(), value)),
            _ => Ok(None),
        }
    }

    #[tactic(auto, unfolding(crate::specs::Holds::holds, crate::specs::Shown::fact_shown))]
    fn misshapen(&self) -> Option<Part<'a>>
        ensures { option_map seen result ≡ fact_part self.now.sheet.now self.now.aliases.now (view self.now.object.now) Reason.MemberForm }
    {
        if !self.object.is_object() {
            return Some(Part::Whole);
        }
        if self.object.get("value").is_none() {
            return Some(Part::Missing("value"));
        }
        if is_no_object(self.object.get("dimensions")) {
            return Some(Part::NoObject("dimensions"));
        }
        if is_no_object(self.object.get("links")) {
            return Some(Part::NoObject("links"));
        }
        misshapen_dimension(self.object)
    }

    #[tactic(auto, unfolding(crate::specs::Holds::holds, crate::specs::Shown::fact_shown), using(crate::proofs::DimensionAt::any_members))]
    fn unknown(&self) -> Option<Part<'a>>
        ensures { option_map seen result ≡ fact_part self.now.sheet.now self.now.aliases.now (view self.now.object.now) Reason.UnknownMember }
    {
        if let Some(key) = unknown_in(self.object.as_object(), &FACT_KEYS) {
            return Some(Part::Key(key));
        }
        let key = unknown_in(object_at(self.object, "dimensions"), &CORE_KEYS)?;
        Some(Part::KeyIn(key, "dimensions"))
    }
}

fn misshapen_dimension(object: &Value) -> Option<Part<'_>>
    ensures { let found = members (object_at (codes "dimensions") (view object.now)) in
        option_map seen result ≡ when (lacks_text (codes "concept") found || lacks_text (codes "entity") found
        || lacks_text (codes "period") found || lacks_text (codes "unit") found
        || lacks_text (codes "language") found) (textless found) }
{
    if is_no_text(dimension(object, "concept")) {
        return Some(Part::NoText("concept"));
    }
    if is_no_text(dimension(object, "entity")) {
        return Some(Part::NoText("entity"));
    }
    if is_no_text(dimension(object, "period")) {
        return Some(Part::NoText("period"));
    }
    if is_no_text(dimension(object, "unit")) {
        return Some(Part::NoText("unit"));
    }
    if is_no_text(dimension(object, "language")) {
        return Some(Part::NoText("language"));
    }
    None
}
