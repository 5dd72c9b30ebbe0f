ghost use Rattle.std.specs.Prelude.{◌≡◌, None};
ghost use Rattle.oim_value.specs.declared.value.Value.{Value as Seen};
ghost use Rattle.oim_value.specs.Bounds.{IntervalEndsAreBounded};
ghost use Rattle.oim_value.specs.Ends.{EndsAreCommonInterval, EndsAreOne, EndsExist, WithinEndsIsWithinEach};
ghost use Rattle.oim_value.specs.Interval.{CommonIsAssociative, CommonIsBoth, CommonIsCommutative, CommonIsIdempotent, HalfAfterPoint, HalfBeforePoint, IntervalHasNumber, IntervalHasPoints, MeetsByCommonPart, MeetsByCommonPoint, WithinIsNear};
ghost use Rattle.oim_value.specs.declared.level.Level.{Level as SeenLevel};
ghost use Rattle.oim_value.specs.Level.{LevelsStandApart, level_cmp};
ghost use Rattle.oim_value.specs.Limits.{DecimalsAreInRange, DigitsAreFew, LimitsAre, OneIsUnits};
ghost use Rattle.oim_value.specs.Meets.{MeetsIsReflexive, MeetsIsSymmetric};
ghost use Rattle.oim_value.specs.Number.{DenotesOne, ShortIsKept};
ghost use Rattle.oim_value.specs.Plain.{FittingIsWritable, PlainIsAscii, PlainIsOne, PlainIsPlain, PlainReadsBack, PlainTellsApart, ShortIsWritable};
ghost use Rattle.oim_value.specs.SeveralMeet.{CrossedEndsAreApart, DifferentMeetAsNumbers, DifferentMeetBetweenEnds, EachTwoMeetByMembers};
ghost use Rattle.oim_value.specs.Units.{ShortNumbersDenote};
ghost use Rattle.oim_value.specs.ValueOrder.{value_cmp};

use crate::decimals::Decimals;
use crate::level::Level;
use crate::value::Value;

/// A number has at most 18 significant digits, the number 1 is 10^19 units, and finite decimals
/// range from -18 to 18.
pub fn limits_are()
    ensures constants { LimitsAre }
    ensures digits { DigitsAreFew }
    ensures units { OneIsUnits }
    ensures decimals { DecimalsAreInRange }
{}

/// A text denotes at most one number.
pub fn denotes_one()
    ensures { DenotesOne }
{}

/// A text that is accepted as a number denotes exactly the units that `units_of` returns.
pub fn short_numbers_denote()
    ensures { ShortNumbersDenote }
{}

/// If a text has at most `MOST_DIGITS` significant digits, so has the number that it denotes.
pub fn short_is_kept()
    ensures { ShortIsKept }
{}

/// A number of units is writable if it has at most 64 digits. Every number that fits an `i128` is
/// writable, and so is every number with at most `MOST_DIGITS` significant digits.
pub fn units_are_writable()
    ensures fitting { FittingIsWritable }
    ensures short { ShortIsWritable }
{}

/// `plain` returns the only plain text of a writable number. The text is ASCII.
pub fn plain_is_the_text()
    ensures plain { PlainIsPlain }
    ensures one { PlainIsOne }
    ensures ascii { PlainIsAscii }
{}

/// Reading the plain text of a number with at most `MOST_DIGITS` significant digits returns the
/// number.
pub fn plain_reads_back()
    ensures { PlainReadsBack }
{}

/// Writable numbers with the same plain text are equal.
pub fn plain_tells_apart()
    ensures { PlainTellsApart }
{}

/// Values are ordered by kind, then within each kind, as `value_cmp` defines.
pub fn values_are_ordered()
    ensures { (x y : Seen) → ⟦<Value as Ord>⟧.cmp x y ≡ value_cmp x y }
{}

/// Levels are ordered by rank, the strictest first. No two levels share a rank.
pub fn levels_are_ordered()
    ensures order { (x y : SeenLevel) → ⟦<Level as Ord>⟧.cmp x y ≡ level_cmp x y }
    ensures places { LevelsStandApart }
{}

/// Returns `INFINITE`, which contracts see as None.
pub fn infinite_is_no_number() -> Decimals
    ensures { result ≡ None }
{
    Decimals::INFINITE
}

/// For finite decimals d, twice the half width of an interval is 10^-d, which is a whole number of
/// units.
pub fn interval_is_half_a_place()
    ensures after_point { HalfAfterPoint }
    ensures before_point { HalfBeforePoint }
{}

/// The interval of a number contains exactly the numbers that differ from that number by at most
/// the half width. So the interval contains the number itself, and is not empty.
pub fn interval_has_what_is_near()
    ensures near { WithinIsNear }
    ensures number { IntervalHasNumber }
    ensures points { IntervalHasPoints }
{}

/// Both ends of a number's interval are smaller in size than 10^(`MOST_DIGITS` + `UNIT_PLACES`)
/// plus the half width for decimals of `-MOST_DECIMALS`. This sum is 1.5 * 10^37 units, which fits
/// an `i128`.
pub fn interval_ends_are_bounded()
    ensures { IntervalEndsAreBounded }
{}

/// The common part of several intervals does not depend on their grouping, order or repetition.
pub fn common_ignores_order()
    ensures associative { CommonIsAssociative }
    ensures commutative { CommonIsCommutative }
    ensures idempotent { CommonIsIdempotent }
{}

/// The common part of two intervals contains exactly the numbers that lie in both.
pub fn common_has_both()
    ensures { CommonIsBoth }
{}

/// Two non-empty intervals meet exactly if some number lies in both, and exactly if their common
/// part is not empty.
pub fn meets_by_common_point()
    ensures point { MeetsByCommonPoint }
    ensures part { MeetsByCommonPart }
{}

/// Each value meets itself. If one value meets another, the other meets the first.
pub fn values_meet_both_ways()
    ensures reflexive { MeetsIsReflexive }
    ensures symmetric { MeetsIsSymmetric }
{}

/// Each value of a list meets each later value exactly if every two members meet. So the order and
/// the repeats of a list do not matter.
pub fn each_two_meet_by_members()
    ensures { EachTwoMeetByMembers }
{}

/// One or more intervals have one greatest low end and one least high end. The numbers between
/// these ends are exactly the numbers that lie in all intervals. No other non-empty interval
/// contains exactly these numbers.
pub fn ends_are_common_interval()
    ensures exist { EndsExist }
    ensures one { EndsAreOne }
    ensures within { WithinEndsIsWithinEach }
    ensures common { EndsAreCommonInterval }
{}

/// Take two or more different values: one may be nil, and all others are of one kind. They meet
/// each other exactly if all are numbers and the greatest low end of their intervals is at most the
/// least high end. If the greatest low end is above the least high end, two numbers do not meet:
/// the first number whose interval has this high end, and the first whose interval has this low
/// end.
pub fn different_meet_between_ends()
    ensures numbers { DifferentMeetAsNumbers }
    ensures between { DifferentMeetBetweenEnds }
    ensures apart { CrossedEndsAreApart }
{}
