ghost use Rattle.std.specs.Prelude.{◌≡◌, IsTrue, IfErr, Some};
ghost use Rattle.std.specs.Result.{OkIff};
ghost use Rattle.oim_value.specs.Decimals.{AreDecimals, is_finite_decimals};

use crate::limits::MOST_DECIMALS;
use oim_names::{Copied, Key, Reason};
use std::alloc::{AllocError, Global};
use std::marker::Model;

// The derived order depends on the order of the variants.
#[derive(Clone, Copy, Debug, PartialEq, Eq, PartialOrd, Ord)]
enum Places {
    Finite(i8),
    Infinite,
}

/// The precision of a number (Open Information Model, `decimals`): rounded to a number of places
/// after the point, or exact. Negative decimals count places before the point. Contracts see the
/// number of places, or None for an exact number. Finite decimals are ordered by number; infinite
/// decimals are last.
#[derive(Clone, Copy, Debug, PartialEq, Eq, PartialOrd, Ord)]
pub struct Decimals {
    places: Places,
}

impl Model for Decimals {
    ghost use Rattle.std.specs.Prelude.{ℤ, Option};
    ghost use Rattle.oim_value.specs.Decimals.{AreDecimals, finite_of, places_of, places_of-finite_of};

    ghost Value = { Option ℤ };

    ghost view = { λ a. finite_of a.places };

    ghost invariant = { λ a. AreDecimals (finite_of a.places) };

    ghost inverse = { λ d. record { places = places_of d } };

    ghost inverse_ok = { λ a h. λ i. record { places = places_of-finite_of a.places i } };
}

impl Decimals {
    /// The decimals of an exact number. In a report, a number without `decimals` is exact.
    pub const INFINITE: Decimals = Decimals {
        places: Places::Infinite,
    };

    /// Returns finite decimals with this number of places.
    ///
    /// Errors: `DecimalsRange` if the number is less than `-MOST_DECIMALS` or more than
    /// `MOST_DECIMALS`.
    pub fn finite(number: i64) -> Result<Decimals, Reason>
        ensures made { OkIff result (IsTrue (is_finite_decimals number)) (Some number) }
        ensures refused { IfErr result (λ e. e ≡ Reason.DecimalsRange) }
    {
        match i8::try_from(number) {
            Ok(places) if -MOST_DECIMALS <= places && places <= MOST_DECIMALS => Ok(Decimals {
                places: Places::Finite(places),
            }),
            _ => Err(Reason::DecimalsRange),
        }
    }

    /// Returns the number of places, or None if the decimals are infinite.
    pub fn get(&self) -> Option<i8>
        ensures value { result ≡ self.now }
        ensures range { AreDecimals self.now }
    {
        match self.places {
            Places::Finite(places) => Some(places),
            Places::Infinite => None,
        }
    }
}

impl Copied for Decimals {
    fn copied(&self, _alloc: Global) -> Result<Self, AllocError> {
        Ok(*self)
    }
}

impl Key for Decimals {
    ghost use Rattle.std.specs.Prelude.{Some, None, refl};
    ghost use Rattle.std.proofs.Common.{ap};
    ghost use Rattle.std.proofs.lemmas.Map.Lookups.{exact_signed};

    ghost exact = { elim [
      | Some d ↦ elim [ Some e ↦ λ h. ap Some (exact_signed d e h) | None ↦ λ h. Prim.cc ]
      | None ↦ elim [ Some e ↦ λ h. Prim.cc | None ↦ λ h. refl ]
    ] };
}
