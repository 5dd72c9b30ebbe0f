ghost use Rattle.std.specs.Prelude.{◌↔◌, IsTrue};
ghost use Rattle.oim_value.specs.Meets.{Meets};

use crate::decimals::Decimals;
use crate::fixed::Fixed;
use crate::interval::{interval_of, meets};
use oim_names::{Copied, Key, Name, Text};
use std::alloc::{AllocError, Global};

/// A fact's value. Values are ordered by kind, in the order of the variants. Numbers are ordered by
/// units and then decimals, texts by bytes, and names by URI and then local part.
#[derive(Debug, Drop, PartialEq, Eq, PartialOrd, Ord)]
pub enum Value {
    /// The value is null.
    Nil,
    /// A number and its decimals.
    Number(Fixed, Decimals),
    /// A text: the characters that the JSON string denotes.
    Text(Text),
    /// An expanded name.
    Name(Name),
}

impl Copied for Value {
    fn copied(&self, alloc: Global) -> Result<Self, AllocError> {
        Ok(match self {
            Value::Nil => Value::Nil,
            Value::Number(number, decimals) => Value::Number(*number, *decimals),
            Value::Text(text) => Value::Text(text.copied(alloc)?),
            Value::Name(name) => Value::Name(name.copied(alloc)?),
        })
    }
}

impl Key for Value {
    ghost use Rattle.std.specs.Prelude.{refl};
    ghost use Rattle.std.proofs.Common.{ap};
    ghost use Rattle.std.proofs.lemmas.Map.Lookups.{exact_signed, exact_bytes};
    ghost use Rattle.oim_names.specs.QName.{exact_name};
    ghost use Rattle.oim_value.specs.code.Ties.{both_tie};
    ghost use Rattle.oim_value.specs.contracts.decimals.DecimalsKey.TheImpl.Laws.{exact-law as exact_decimals};
    ghost use Rattle.oim_value.specs.declared.value.Value.TheVariants.{Nil, Number, Text as AText, Name as AName};

    ghost exact = { elim [
      | Nil ↦ elim [ Nil ↦ λ h. refl | Number m q ↦ λ h. Prim.cc | AText t ↦ λ h. Prim.cc | AName n ↦ λ h. Prim.cc ]
      | Number n p ↦ elim [ Nil ↦ λ h. Prim.cc | Number m q ↦ λ h. let e = both_tie _ _ h in λ i. Number (exact_signed n m e.0 i) (exact_decimals p q e.1 i) | AText t ↦ λ h. Prim.cc | AName n ↦ λ h. Prim.cc ]
      | AText s ↦ elim [ Nil ↦ λ h. Prim.cc | Number m q ↦ λ h. Prim.cc | AText t ↦ λ h. ap AText (exact_bytes s t h) | AName n ↦ λ h. Prim.cc ]
      | AName m ↦ elim [ Nil ↦ λ h. Prim.cc | Number m q ↦ λ h. Prim.cc | AText t ↦ λ h. Prim.cc | AName n ↦ λ h. ap AName (exact_name m n h) ]
    ] };
}

/// Returns whether two values meet: both are nil, they are numbers whose rounding intervals meet,
/// or they are equal texts or equal names.
pub fn value_meets(a: &Value, b: &Value) -> bool
    ensures { IsTrue result ↔ Meets a.now b.now }
{
    match (a, b) {
        (Value::Nil, Value::Nil) => true,
        (Value::Number(m, d), Value::Number(n, e)) => {
            meets(interval_of(*m, *d), interval_of(*n, *e))
        }
        (Value::Text(s), Value::Text(t)) => s == t,
        (Value::Name(m), Value::Name(n)) => m == n,
        _ => false,
    }
}
