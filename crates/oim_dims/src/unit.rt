ghost use Rattle.std.specs.Prelude.{◌≡◌, ◌≢◌, [], ◌∷◌, All, IfOk};
ghost use Rattle.std.specs.List.Sorted.{IsSorted};
ghost use Rattle.oim_value.specs.ValueOrder.{name_cmp};
ghost use Rattle.oim_dims.specs.Unit.{IsMeasure, IsUnit, pure_name};

use crate::sequence::Sequence;
use oim_names::{Copied, Key, Name};
use std::alloc::{AllocError, Global};
use std::cmp::Ordering;
use std::marker::Model;
use std::rc::Rc;

/// The unit of a number (OIM 1.0, the core dimension unit): numerators, which are
/// multiplied, and denominators, which divide the product. Both lists are in the order of names and
/// may contain repeats. There is at least one numerator, no local part contains `*`, `/`, `(` or
/// `)`, and `pure` alone is not a unit. Copies of a unit share its memory.
#[derive(Debug, Drop, PartialEq, Eq, PartialOrd, Ord)]
pub struct Unit {
    // The numerators, then the denominators.
    sides: Shared<(Sequence<Name>, Sequence<Name>)>,
}

impl Model for Unit {
    ghost use Rattle.oim_dims.specs.Unit.{Measures, IsUnit};

    ghost Value = { Measures };

    ghost view = { λ a. record { numerators = a.sides.0; denominators = a.sides.1 } };

    ghost invariant = { λ a. IsUnit (record { numerators = a.sides.0; denominators = a.sides.1 }) };

    ghost inverse = { λ m. record { sides = (m.numerators, m.denominators) } };
}

impl Unit {
    pub(crate) fn new(
        alloc: Global,
        numerators: Sequence<Name>,
        denominators: Sequence<Name>,
    ) -> Result<Unit, AllocError>
        requires numerators { IsSorted name_cmp numerators }
        requires denominators { IsSorted name_cmp denominators }
        requires measures { All IsMeasure numerators × All IsMeasure denominators }
        requires some { numerators ≢ [] }
        requires unit { ¬ ((numerators ≡ pure_name ∷ []) × (denominators ≡ [])) }
        ensures numerators { IfOk result (λ unit. unit.numerators ≡ numerators) }
        ensures denominators { IfOk result (λ unit. unit.denominators ≡ denominators) }
    {
        Ok(Unit {
            sides: Shared::new(alloc, (numerators, denominators))?,
        })
    }

    /// Does nothing. The contract states the conditions that each unit satisfies.
    pub fn known(&self)
        ensures { IsUnit self.now }
    {
        let _sides = &self.sides;
    }

    /// Returns the measures of the numerator, at least one, in the order of names.
    pub fn numerators(&self) -> &[Name]
        ensures { result.now ≡ self.now.numerators }
    {
        self.sides.get().0.as_slice()
    }

    /// Returns the measures of the denominator, possibly none, in the order of names.
    pub fn denominators(&self) -> &[Name]
        ensures { result.now ≡ self.now.denominators }
    {
        self.sides.get().1.as_slice()
    }
}

impl Copied for Unit {
    fn copied(&self, alloc: Global) -> Result<Self, AllocError> {
        Ok(Unit {
            sides: self.sides.copied(alloc)?,
        })
    }
}

impl Key for Unit {
    ghost use Rattle.oim_dims.specs.code.Ties.{exact_measures};

    ghost exact = { exact_measures };
}

/// A value whose copies share its memory. Contracts see the value.
#[derive(Debug, Drop)]
pub struct Shared<T: Ord + Drop> {
    value: Rc<T>,
}

impl<T: Ord + Drop> Model for Shared<T> {
    ghost Value = { T };

    ghost view = { λ a. a.value.value };
}

impl<T: Ord + Drop> Shared<T> {
    fn new(alloc: Global, value: T) -> Result<Self, AllocError>
        ensures { IfOk result (λ made. made ≡ value) }
    {
        let value = Rc::new(alloc, value)?;
        Ok(Shared { value })
    }

    fn get(&self) -> &T
        ensures { result.now ≡ self.now }
    {
        &self.value
    }
}

impl<T: Ord + Drop> PartialEq for Shared<T> {
    ghost eq = { T.eq };

    ghost laws = { T.PartialEq.laws };

    fn eq(&self, other: &Self) -> bool {
        self.get() == other.get()
    }
}

impl<T: Ord + Drop> Eq for Shared<T> {
    ghost laws = { T.Eq.laws };
}

impl<T: Ord + Drop> PartialOrd for Shared<T> {
    ghost partial_cmp = { T.partial_cmp };

    ghost laws = { T.PartialOrd.laws };

    fn partial_cmp(&self, other: &Self) -> Option<Ordering> {
        self.get().partial_cmp(other.get())
    }
}

impl<T: Ord + Drop> Ord for Shared<T> {
    ghost cmp = { T.cmp };

    ghost total = { T.total };

    ghost matches_partial_cmp = { T.matches_partial_cmp };

    ghost matches_eq = { T.matches_eq };

    fn cmp(&self, other: &Self) -> Ordering {
        self.get().cmp(other.get())
    }
}

impl<T: Ord + Drop> Copied for Shared<T> {
    fn copied(&self, _alloc: Global) -> Result<Self, AllocError> {
        let value = self.value.clone()?;
        Ok(Shared { value })
    }
}
