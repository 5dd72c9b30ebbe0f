ghost use Rattle.std.specs.Prelude.{◌≡◌};

use crate::concept_kind::ConceptKind;
use crate::dimension_kind::DimensionKind;
use std::fmt::Debug;

/// A kind that a sheet gives to a name.
pub(crate) trait Kind: Copy + Debug + Drop {
    ghost use Rattle.std.specs.Prelude.{ℕ, List, Bool, true, Option};

    ghost kind_named: { List ℕ → Option Self };

    ghost same_kind: { Self → Self → Bool };

    fn named(text: &str) -> Option<Self>
        ensures { result ≡ kind_named text.now };

    fn is(self, other: Self) -> bool
        ensures { result ≡ same_kind self other };

    ghost exact: { (k l : Self) → same_kind k l ≡ true → k ≡ l };

    ghost itself: { (k : Self) → same_kind k k ≡ true };
}

impl Kind for ConceptKind {
    ghost use Rattle.oim_report.specs.Sheet.{concept_kind_named, same_concept_kind};
    ghost use Rattle.oim_report.specs.code.KindLaws.{same_concept_kind_is, same_concept_kind-itself};

    ghost kind_named = { concept_kind_named };

    ghost same_kind = { same_concept_kind };

    ghost exact = { same_concept_kind_is };

    ghost itself = { same_concept_kind-itself };

    fn named(text: &str) -> Option<ConceptKind> {
        match text {
            "numeric" => Some(ConceptKind::Numeric),
            "text" => Some(ConceptKind::Text),
            "name" => Some(ConceptKind::Name),
            _ => None,
        }
    }

    fn is(self, other: ConceptKind) -> bool {
        self == other
    }
}

impl Kind for DimensionKind {
    ghost use Rattle.oim_report.specs.Sheet.{dimension_kind_named, same_dimension_kind};
    ghost use Rattle.oim_report.specs.code.KindLaws.{same_dimension_kind_is, same_dimension_kind-itself};

    ghost kind_named = { dimension_kind_named };

    ghost same_kind = { same_dimension_kind };

    ghost exact = { same_dimension_kind_is };

    ghost itself = { same_dimension_kind-itself };

    fn named(text: &str) -> Option<DimensionKind> {
        match text {
            "explicit" => Some(DimensionKind::Explicit),
            "typed" => Some(DimensionKind::Typed),
            _ => None,
        }
    }

    fn is(self, other: DimensionKind) -> bool {
        self == other
    }
}
