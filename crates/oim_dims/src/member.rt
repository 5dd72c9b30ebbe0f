ghost use Rattle.std.specs.Prelude.{◌≡◌, IfOk};

use oim_names::{Copied, Key, Name, Text};
use std::alloc::{AllocError, Global};

/// The member of a taxonomy-defined dimension. Members are ordered by kind, in the order of the
/// variants. Texts are ordered by bytes, and names by URI and then local part.
#[derive(Debug, Drop, PartialEq, Eq, PartialOrd, Ord)]
pub enum Member {
    /// The value null of a typed dimension.
    Nil,
    /// The value of a typed dimension: the characters that the JSON string denotes.
    Text(Text),
    /// The member of an explicit dimension.
    Name(Name),
}

impl Copied for Member {
    fn copied(&self, alloc: Global) -> Result<Self, AllocError> {
        Ok(match self {
            Member::Nil => Member::Nil,
            Member::Text(text) => Member::Text(text.copied(alloc)?),
            Member::Name(name) => Member::Name(name.copied(alloc)?),
        })
    }
}

impl Key for Member {
    ghost use Rattle.std.specs.Prelude.{refl};
    ghost use Rattle.std.proofs.Common.{ap};
    ghost use Rattle.std.proofs.lemmas.Map.Lookups.{exact_bytes};
    ghost use Rattle.oim_names.specs.QName.{exact_name};
    ghost use Rattle.oim_dims.specs.declared.member.Member.TheVariants.{Nil, Text as AText, Name as AName};

    ghost exact = { elim [
      | Nil ↦ elim [ Nil ↦ λ h. refl | AText t ↦ λ h. Prim.cc | AName n ↦ λ h. Prim.cc ]
      | AText s ↦ elim [ Nil ↦ λ h. Prim.cc | AText t ↦ λ h. ap AText (exact_bytes s t h) | AName n ↦ λ h. Prim.cc ]
      | AName m ↦ elim [ Nil ↦ λ h. Prim.cc | AText t ↦ λ h. Prim.cc | AName n ↦ λ h. ap AName (exact_name m n h) ]
    ] };
}
