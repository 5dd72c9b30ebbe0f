ghost use Rattle.std.specs.Prelude.{◌≡◌, ◌≤◌, pos, neg_ℤ, IsTrue};
ghost use Rattle.oim_value.specs.Decimals.{is_finite_decimals};
ghost use Rattle.oim_value.specs.Interval.{common_part, half_width, half_zeros, interval, intervals_meet};

use crate::decimals::Decimals;
use crate::fixed::Fixed;
use crate::limits::{MOST_DECIMALS, UNIT_PLACES};

/// The numbers from `low` to `high`, both included, in units of 10^-`UNIT_PLACES`. The interval is
/// empty if `low` is above `high`.
#[derive(Clone, Copy, Debug, PartialEq, Eq)]
pub struct Interval {
    /// The least of the numbers, unless the interval is empty.
    pub low: i128,
    /// The greatest of the numbers, unless the interval is empty.
    pub high: i128,
}

/// Returns the numbers that may have been rounded to this value with these decimals. The interval
/// extends half of the last decimal place to each side. For infinite decimals, it contains only the
/// value.
pub fn interval_of(value: Fixed, decimals: Decimals) -> Interval
    ensures { result ≡ interval value decimals }
{
    let units = value.units();
    let half = half_of(decimals);
    Interval {
        low: units - half,
        high: units + half,
    }
}

fn half_of(decimals: Decimals) -> i128
    ensures value { result ≡ pos (half_width decimals) }
    ensures bound { half_width decimals ≤ half_width (Some (neg_ℤ MOST_DECIMALS)) }
{
    match decimals.get() {
        Some(places) => half_place(places),
        None => 0,
    }
}

fn half_place(places: i8) -> i128
    requires { IsTrue (is_finite_decimals places) }
    ensures value { result ≡ pos (half_width (Some places)) }
    ensures bound { half_width (Some places) ≤ half_width (Some (neg_ℤ MOST_DECIMALS)) }
{
    (5 * 10u128.pow(zeros_of(places))) as i128
}

fn zeros_of(places: i8) -> u32
    requires { IsTrue (is_finite_decimals places) }
    ensures value { result ≡ half_zeros places }
    ensures bound { result ≤ half_zeros (neg_ℤ MOST_DECIMALS) }
{
    (i64::from(UNIT_PLACES) - 1 - i64::from(places)) as u32
}

/// Returns whether neither interval ends before the other begins. Two non-empty intervals meet
/// exactly if some number lies in both.
pub fn meets(a: Interval, b: Interval) -> bool
    ensures { result ≡ intervals_meet a b }
{
    a.low <= b.high && b.low <= a.high
}

/// Returns the common part of two intervals, from the greater low end to the lesser high end. The
/// common part is empty if the intervals do not meet.
pub fn common(a: Interval, b: Interval) -> Interval
    ensures { result ≡ common_part a b }
{
    Interval {
        low: a.low.max(b.low),
        high: a.high.min(b.high),
    }
}
