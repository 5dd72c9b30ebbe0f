ghost use Rattle.std.specs.Prelude.{◌≡◌};

use crate::dimensions::Dimensions;
use oim_names::{Copied, Key};
use oim_value::Value;
use std::alloc::{AllocError, Global};

/// A fact: its dimensions and its value. Facts are ordered by dimensions, then by value.
#[derive(Debug, Drop, PartialEq, Eq, PartialOrd, Ord)]
pub struct Fact {
    /// The core dimensions and the taxonomy-defined dimensions.
    pub dimensions: Dimensions,
    /// The value, with its decimals if it is a number.
    pub value: Value,
}

impl Copied for Fact {
    fn copied(&self, alloc: Global) -> Result<Self, AllocError> {
        Ok(Fact {
            dimensions: self.dimensions.copied(alloc)?,
            value: self.value.copied(alloc)?,
        })
    }
}

impl Key for Fact {
    ghost use Rattle.oim_value.specs.code.Ties.{both_tie};
    ghost use Rattle.oim_value.specs.contracts.value.ValueKey.TheImpl.Laws.{exact-law as exact_value};
    ghost use Rattle.oim_dims.specs.contracts.dimensions.DimensionsKey.TheImpl.Laws.{exact-law as exact_dimensions};

    ghost exact = { λ x y h. let e = both_tie _ _ h in λ i. record { dimensions = exact_dimensions x.dimensions y.dimensions e.0 i; value = exact_value x.value y.value e.1 i } };
}
