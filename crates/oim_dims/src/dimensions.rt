ghost use Rattle.std.specs.Prelude.{◌≡◌, ◌≤◌, ◌⊎◌, ◌↔◌, [], true, None, Some, length, IsTrue, IsPermutation, IfErr, IfSome, OnOk, OnErr};
ghost use Rattle.std.specs.List.{insert};
ghost use Rattle.std.specs.Option.{option_copied};
ghost use Rattle.oim_dims.specs.declared.period.Period.TheVariants.{Forever};
ghost use Rattle.oim_dims.specs.declared.member.Member.{Member as AMember};
ghost use Rattle.oim_dims.specs.DimensionSet.{rises, repeats, has_name, with_member, IsDimensionSet};

use crate::member::Member;
use crate::period::Period;
use crate::sequence::Sequence;
use crate::unit::Unit;
use oim_names::{Copied, Key, Name, Reason, Text};
use std::alloc::{AllocError, Global};
use std::cmp::Ordering;
use std::marker::Model;

/// A dimension set (OIM 1.0): the core dimensions, and the taxonomy-defined dimensions in
/// the order of names, each name once. Sets are compared by concept, entity, period, unit,
/// language, then members. An absent part is less than a present one.
#[derive(Debug, PartialEq, Eq, PartialOrd, Ord)]
pub struct Dimensions {
    concept: Name,
    entity: Option<Name>,
    period: Period,
    unit: Option<Unit>,
    language: Option<Text>,
    members: Sequence<(Name, Member)>,
}

// By hand, so that a drop is one call, which is faster to prove than a derived one.
impl Drop for Dimensions {
    fn drop(self) {
        let Dimensions {
            concept: _,
            entity: _,
            period: _,
            unit: _,
            language: _,
            members: _,
        } = self;
    }
}

impl Model for Dimensions {
    ghost use Rattle.std.specs.Prelude.{◌≡◌, true};
    ghost use Rattle.oim_dims.specs.DimensionSet.{DimensionSet, rises};

    ghost Value = { DimensionSet };

    ghost view = { λ a. record { concept = a.concept; entity = a.entity; period = a.period; unit = a.unit; language = a.language; members = a.members } };

    ghost invariant = { λ a. rises a.members ≡ true };

    ghost inverse = { λ d. record { concept = d.concept; entity = d.entity; period = d.period; unit = d.unit; language = d.language; members = d.members } };
}

impl Dimensions {
    /// Returns a dimension set with only a concept, so the period is `Forever`. Later calls
    /// allocate from `alloc`.
    pub fn new(alloc: Global, concept: Name) -> Dimensions
        ensures { result ≡ record { concept = concept; entity = None; period = Forever; unit = None; language = None; members = [] } }
    {
        Dimensions {
            concept,
            entity: None,
            period: Period::Forever,
            unit: None,
            language: None,
            members: Sequence::new(Vec::new(alloc)),
        }
    }

    /// Does nothing. The contract states the conditions that each dimension set satisfies.
    pub fn known(&self)
        ensures { IsDimensionSet self.now }
    {
        let _members = &self.members;
        self.period.known();
        if let Some(unit) = &self.unit {
            unit.known();
        }
    }

    // Copies all but the concept. Each copy is stored at once, so that an error has one value to
    // drop.
    fn copy_rest(&mut self, other: &Dimensions, alloc: Global) -> Result<(), AllocError>
        ensures { OnOk result (self.new ≡ record other.now { concept = self.old.concept }) }
    {
        self.entity = Copied::copied(&other.entity, alloc)?;
        self.period = other.period;
        self.unit = Copied::copied(&other.unit, alloc)?;
        self.language = Copied::copied(&other.language, alloc)?;
        self.members = other.members.copied(alloc)?;
        Ok(())
    }

    /// Returns the concept that the fact reports.
    pub fn concept(&self) -> &Name
        ensures { result.now ≡ self.now.concept }
    {
        &self.concept
    }

    /// Returns the entity that the fact is about (the URI of a scheme and an identifier), or None.
    pub fn entity(&self) -> Option<&Name>
        ensures { option_copied result ≡ self.now.entity }
    {
        self.entity.as_ref()
    }

    /// Returns the period in which the fact holds.
    pub fn period(&self) -> Period
        ensures { result ≡ self.now.period }
    {
        self.period
    }

    /// Returns the unit of a number, or None.
    pub fn unit(&self) -> Option<&Unit>
        ensures { option_copied result ≡ self.now.unit }
    {
        self.unit.as_ref()
    }

    /// Returns the language that was set, or None.
    pub fn language(&self) -> Option<&Text>
        ensures { option_copied result ≡ self.now.language }
    {
        self.language.as_ref()
    }

    /// Returns the taxonomy-defined dimensions with their members, in the order of names.
    pub fn members(&self) -> &[(Name, Member)]
        ensures members { result.now ≡ self.now.members }
        ensures sorted { IsTrue (rises self.now.members) }
    {
        self.members.as_slice()
    }

    /// Sets or replaces the entity.
    pub fn set_entity(&mut self, entity: Name)
        ensures { self.new ≡ record self.old { entity = Some entity } }
    {
        self.entity = Some(entity);
    }

    /// Sets the period. `Forever` is the same as no period.
    pub fn set_period(&mut self, period: Period)
        ensures { self.new ≡ record self.old { period = period } }
    {
        self.period = period;
    }

    /// Sets or removes the unit.
    pub fn set_unit(&mut self, unit: Option<Unit>)
        ensures { self.new ≡ record self.old { unit = unit } }
    {
        self.unit = unit;
    }

    /// Sets the language to this text, which is not checked. `read_language` checks a language and
    /// returns it in lower case.
    pub fn set_language(&mut self, language: Text)
        ensures { self.new ≡ record self.old { language = Some language } }
    {
        self.language = Some(language);
    }

    /// Adds a taxonomy-defined dimension with its member. An error changes nothing.
    ///
    /// Errors: `DimensionValue` exactly if the set already has the dimension; `OutOfMemory`.
    pub fn add(&mut self, name: Name, member: Member) -> Result<(), Reason>
        ensures ok { OnOk result (self.new ≡ record self.old { members = with_member name member self.old.members }) }
        ensures refused { (result ≡ Err Reason.DimensionValue) ↔ IsTrue (has_name name self.old.members) }
        ensures errors { IfErr result (λ e. (e ≡ Reason.DimensionValue) ⊎ (e ≡ Reason.OutOfMemory)) }
        ensures err { OnErr result (self.new ≡ self.old) }
    {
        match insertion_index(self.members.as_slice(), &name) {
            Some(index) => Ok(self.members.insert(index, (name, member))?),
            None => Err(Reason::DimensionValue),
        }
    }

    /// Replaces the taxonomy-defined dimensions and their members. The new dimensions may be in any
    /// order. An error changes nothing.
    ///
    /// The call does not allocate.
    ///
    /// Errors: `DimensionValue` exactly if a dimension is repeated.
    pub fn set_members(&mut self, mut members: Vec<(Name, Member)>) -> Result<(), Reason>
        ensures members { OnOk result (IsPermutation members.items self.new.members) }
        ensures sorted { OnOk result (IsTrue (rises self.new.members)) }
        ensures others { self.new ≡ record self.old { members = self.new.members } }
        ensures refused { (result ≡ Err Reason.DimensionValue) ↔ IsTrue (repeats members.items) }
        ensures errors { IfErr result (λ e. e ≡ Reason.DimensionValue) }
        ensures err { OnErr result (self.new ≡ self.old) }
    {
        members.sort_unstable();
        if !do_names_rise(members.as_slice()) {
            return Err(Reason::DimensionValue);
        }
        self.members = Sequence::new(members);
        Ok(())
    }
}

fn do_names_rise(members: &[(Name, Member)]) -> bool
    ensures { result ≡ rises members.now }
{
    let Some((first, rest)) = members.split_first() else {
        return true;
    };
    let mut last = first;
    for member in rest {
        if !last.0.cmp(&member.0).is_lt() {
            return false;
        }
        last = member;
    }
    true
}

// Returns the index at which `name` is inserted, or `None` if a member has the name.
fn insertion_index(members: &[(Name, Member)], name: &Name) -> Option<usize>
    requires { rises members.now ≡ true }
    ensures there { (result ≡ None) ↔ IsTrue (has_name name.now members.now) }
    ensures bound { IfSome result (λ index. index ≤ length members.now) }
    ensures index { IfSome result (λ index. (m : AMember) → insert members.now index (name.now, m) ≡ with_member name.now m members.now) }
{
    for (i, known) in members.iter().enumerate() {
        match name.cmp(&known.0) {
            Ordering::Less => return Some(i),
            Ordering::Equal => return None,
            Ordering::Greater => {}
        }
    }
    Some(members.len())
}

impl Copied for Dimensions {
    fn copied(&self, alloc: Global) -> Result<Self, AllocError> {
        let mut copy = Dimensions::new(alloc, self.concept.copied(alloc)?);
        copy.copy_rest(self, alloc)?;
        Ok(copy)
    }
}

impl Key for Dimensions {
    ghost use Rattle.std.specs.FinMap.{slice_cmp-IsAntisymmetric};
    ghost use Rattle.std.proofs.lemmas.Map.Lookups.{exact_pairs, exact_bytes};
    ghost use Rattle.oim_names.specs.code.Exact.{exact_option};
    ghost use Rattle.oim_names.specs.QName.{exact_name};
    ghost use Rattle.oim_value.specs.code.Ties.{both_tie};
    ghost use Rattle.oim_dims.specs.code.Ties.{exact_measures};
    ghost use Rattle.oim_dims.specs.contracts.period.PeriodKey.TheImpl.Laws.{exact-law as exact_period};
    ghost use Rattle.oim_dims.specs.contracts.member.MemberKey.TheImpl.Laws.{exact-law as exact_member};

    ghost exact = { λ x y h.
        let concept = both_tie _ _ h in
        let entity = both_tie _ _ concept.1 in
        let period = both_tie _ _ entity.1 in
        let unit = both_tie _ _ period.1 in
        let language = both_tie _ _ unit.1 in
        λ i. record {
          concept = exact_name x.concept y.concept concept.0 i;
          entity = exact_option exact_name x.entity y.entity entity.0 i;
          period = exact_period x.period y.period period.0 i;
          unit = exact_option exact_measures x.unit y.unit unit.0 i;
          language = exact_option exact_bytes x.language y.language language.0 i;
          members = slice_cmp-IsAntisymmetric (exact_pairs _ _ exact_name exact_member) x.members y.members language.1 i;
        } };
}
