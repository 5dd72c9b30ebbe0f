ghost use Rattle.std.specs.Prelude.{◌≡◌};
ghost use Rattle.std.specs.Cmp.{IsTotalOrder};
ghost use Rattle.std.specs.declared.cmp.Ordering.TheVariants.{Equal};
ghost use Rattle.oim_dims.specs.declared.fact.Fact.{Fact as AFact};
ghost use Rattle.oim_dims.specs.Language.{LanguagesAreKept};
ghost use Rattle.oim_dims.specs.Limits.{LimitsAre};
ghost use Rattle.oim_dims.specs.Period.{PeriodsReadBack, ReadPeriodsArePeriods};
ghost use Rattle.oim_dims.specs.Unit.{BindingsSpell, OthersAreRefused, TextsDenoteOneUnit, UnitsAreNotRefused, UnitsReadBack};
ghost use Rattle.oim_dims.specs.DimensionSet.{DimensionSet, MembersGrow, NamesAreThere};
ghost use Rattle.oim_dims.specs.FactOrder.{dimensions_cmp, fact_cmp};

use crate::dimensions::Dimensions;
use crate::fact::Fact;

/// A day has 86,400 seconds. Moments range from the first second of the year 0001 to the last
/// second of the year 9999.
pub fn limits_are()
    ensures { LimitsAre }
{}

/// The text of an instant, or of a duration that ends after its start, denotes that period.
pub fn periods_read_back()
    ensures { PeriodsReadBack }
{}

/// The moments of a period that was read are in range, and a duration ends after its start.
pub fn read_periods_are_periods()
    ensures { ReadPeriodsArePeriods }
{}

/// The lower case of a language is a language, and reading it changes nothing.
pub fn languages_are_kept()
    ensures { LanguagesAreKept }
{}

/// If each measure's text expands to the measure and contains none of `*`, `/`, `(` and `)`, the
/// unit's text denotes only that unit. If bindings can write a unit, the texts that `measure_text`
/// returns expand to its measures and contain none of these four characters.
pub fn units_read_back()
    ensures back { UnitsReadBack }
    ensures spelled { BindingsSpell }
{}

/// A text denotes at most one unit, and `pure` alone denotes none. A text is refused exactly if it
/// denotes no unit and is not `pure` alone.
pub fn texts_denote_one_unit()
    ensures one { TextsDenoteOneUnit }
    ensures accepted { UnitsAreNotRefused }
    ensures refused { OthersAreRefused }
{}

/// `has_name` finds a name exactly if the list has a member with that name. If the names ascend,
/// adding a member with a new name adds exactly that member and keeps the order.
pub fn members_grow()
    ensures there { NamesAreThere }
    ensures more { MembersGrow }
{}

/// Dimension sets are totally ordered, part by part. Only equal sets compare as equal.
pub fn dimensions_are_ordered()
    ensures derived { (x y : DimensionSet) → ⟦<Dimensions as Ord>⟧.cmp x y ≡ dimensions_cmp x y }
    ensures total { IsTotalOrder dimensions_cmp }
    ensures exact { (x y : DimensionSet) → dimensions_cmp x y ≡ Equal → x ≡ y }
{}

/// Facts are totally ordered by dimensions, then by value. Only equal facts compare as equal.
pub fn facts_are_ordered()
    ensures derived { (x y : AFact) → ⟦<Fact as Ord>⟧.cmp x y ≡ fact_cmp x y }
    ensures total { IsTotalOrder fact_cmp }
    ensures exact { (x y : AFact) → fact_cmp x y ≡ Equal → x ≡ y }
{}
