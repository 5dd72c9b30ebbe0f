ghost use Rattle.std.specs.Prelude.{◌≡◌};
ghost use Rattle.merge_laws.specs.Ends.{summary_of};
ghost use Rattle.merge_laws.specs.Union.{either_or_both};
ghost use Rattle.oim_value.specs.Interval.{common_part};

use crate::merge::Merge;
use oim_names::Copied;
use oim_value::{Interval, Value, common, interval_of};
use std::alloc::{AllocError, Global};
use std::marker::Model;

/// A summary of one or more values. It records whether any value is nil and, if some are numbers,
/// the greatest low end and the least high end of the numbers' rounding intervals. The ends decide
/// whether every two of the numbers meet. Texts and names are not recorded.
#[derive(Clone, Copy, Debug, PartialEq, Eq)]
pub struct Summary {
    nil: bool,
    ends: Option<Interval>,
}

impl Model for Summary {
    ghost use Rattle.merge_laws.specs.Ends.{Summarised};

    ghost Value = { Summarised };

    ghost view = { λ a. record { nil = a.nil; ends = a.ends } };

    ghost inverse = { λ s. record { nil = s.nil; ends = s.ends } };
}

impl Summary {
    /// Returns the summary of one value. `merge` combines two summaries.
    pub fn of(value: &Value) -> Self
        ensures { result ≡ summary_of value.now }
    {
        Summary {
            nil: matches!(value, Value::Nil),
            ends: match value {
                Value::Number(number, decimals) => Some(interval_of(*number, *decimals)),
                _ => None,
            },
        }
    }

    /// Returns the interval from the greatest low end to the least high end, in units of
    /// 10^-`UNIT_PLACES`, or None if there is no number. The low end is above the high end exactly
    /// if two of the numbers do not meet.
    pub fn ends(&self) -> Option<Interval>
        ensures { result ≡ self.now.ends }
    {
        self.ends
    }

    /// Returns whether one of the values is nil.
    pub fn nil(&self) -> bool
        ensures { result ≡ self.now.nil }
    {
        self.nil
    }
}

impl Copied for Summary {
    fn copied(&self, _alloc: Global) -> Result<Self, AllocError> {
        Ok(*self)
    }
}

/// Merging summaries always succeeds.
impl Merge for Summary {
    ghost use Rattle.std.specs.Prelude.{◌≡◌, IsOk};
    ghost use Rattle.merge_laws.specs.Ends.{both_summaries};
    ghost use Rattle.merge_laws.specs.code.SummaryLaws.{summary_associates, summary_commutes, summary_idempotent};

    ghost is_known = { λ _. Unit {0} };

    ghost merged = { both_summaries };

    ghost closed = { λ _ _ _ _. tt };

    ghost associative = { λ a b c _ _ _. summary_associates a b c };

    ghost commutative = { λ a b _ _. summary_commutes a b };

    ghost idempotent = { λ a _. summary_idempotent a };

    fn merge(&mut self, _alloc: Global, other: &Self) -> Result<(), AllocError>
        ensures succeeds { IsOk result }
        ensures merged { self.new ≡ both_summaries self.old other.now }
    {
        self.nil = self.nil || other.nil;
        self.ends = ends_of_both(self.ends, other.ends);
        Ok(())
    }

    fn known(&self) {}
}

fn ends_of_both(first: Option<Interval>, second: Option<Interval>) -> Option<Interval>
    ensures { result ≡ either_or_both common_part first second }
{
    match (first, second) {
        (Some(first), Some(second)) => Some(common(first, second)),
        (ends, None) | (None, ends) => ends,
    }
}
