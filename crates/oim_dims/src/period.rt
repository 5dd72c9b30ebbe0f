ghost use Rattle.std.specs.Prelude.{◌≡◌, Ok, IfOk, IfSome};
ghost use Rattle.std.specs.Option.{option_map};
ghost use Rattle.oim_dims.specs.Period.{from_to, period_of, period_text, HasMoments, EndsAfterStart};

use crate::moment::{Moment, read_moment};
use oim_names::{Copied, Key, Reason, Text};
use std::alloc::{AllocError, Global};
use std::cmp::Ordering;

/// The time for which a fact holds (OIM 1.0, the core dimension period). Periods are ordered
/// by kind, in the order of the variants, and then by their moments. A duration that was read ends
/// after its start.
#[derive(Clone, Copy, Debug, PartialEq, Eq, PartialOrd, Ord)]
pub enum Period {
    /// The fact has no period: it always holds.
    Forever,
    /// The fact holds at one moment.
    Instant(Moment),
    /// The fact holds from the first moment to the second moment.
    Duration(Moment, Moment),
}

impl Period {
    /// Does nothing. The contract states that the moments are in range.
    pub fn known(&self)
        ensures { HasMoments self.now }
    {
        match self {
            Period::Forever => {}
            Period::Instant(moment) => {
                let _second = moment.seconds();
            }
            Period::Duration(start, end) => {
                let _seconds = (start.seconds(), end.seconds());
            }
        }
    }
}

/// Reads a period: one date-time, or two with `/` between them. Two equal date-times denote an
/// instant.
///
/// The call does not allocate.
///
/// Errors: `PeriodForm` if the text has another form, or if a date-time does not exist or is after
/// the year 9999; `PeriodOrder` if the end is before the start.
pub fn read_period(_alloc: Global, text: &str) -> Result<Period, Reason>
    ensures { result ≡ period_of text.now }
{
    match text.split_once('/') {
        Some((start, end)) => from_to(read_moment(start.as_bytes()), read_moment(end.as_bytes())),
        None => match read_moment(text.as_bytes()) {
            Some(moment) => Ok(Period::Instant(moment)),
            None => Err(Reason::PeriodForm),
        },
    }
}

fn from_to(start: Option<Moment>, end: Option<Moment>) -> Result<Period, Reason>
    ensures { result ≡ from_to start end }
{
    let start = start.ok_or(Reason::PeriodForm)?;
    let end = end.ok_or(Reason::PeriodForm)?;
    match start.cmp(&end) {
        Ordering::Less => Ok(Period::Duration(start, end)),
        Ordering::Equal => Ok(Period::Instant(start)),
        Ordering::Greater => Err(Reason::PeriodOrder),
    }
}

/// Returns the text of a period, with hours from 00 to 23, or `None` for `Forever`. Reading the
/// text of an instant, or of a duration that ends after its start, returns the period.
///
/// Errors: out of memory.
pub fn write_period(alloc: Global, period: &Period) -> Result<Option<Text>, AllocError>
    ensures text { IfOk result (λ written. written ≡ period_text period.now) }
    ensures reads_back { EndsAfterStart period.now → IfOk result (λ written. IfSome written (λ text. period_of text ≡ Ok period.now)) }
{
    period.known();
    match period {
        Period::Forever => Ok(None),
        Period::Instant(moment) => {
            let text = format!(in alloc; "{moment}")?;
            Ok(Some(Text::from_string(alloc, text)?))
        }
        Period::Duration(start, end) => {
            let text = format!(in alloc; "{start}/{end}")?;
            Ok(Some(Text::from_string(alloc, text)?))
        }
    }
}

impl Copied for Period {
    fn copied(&self, _alloc: Global) -> Result<Self, AllocError> {
        Ok(*self)
    }
}

impl Key for Period {
    ghost use Rattle.std.specs.Prelude.{refl};
    ghost use Rattle.std.proofs.Common.{ap};
    ghost use Rattle.std.proofs.lemmas.Map.Lookups.{exact_signed};
    ghost use Rattle.oim_value.specs.code.Ties.{both_tie};
    ghost use Rattle.oim_dims.specs.declared.period.Period.TheVariants.{Forever, Instant, Duration};

    ghost exact = { elim [
      | Forever ↦ elim [ Forever ↦ λ h. refl | Instant n ↦ λ h. Prim.cc | Duration s e ↦ λ h. Prim.cc ]
      | Instant m ↦ elim [ Forever ↦ λ h. Prim.cc | Instant n ↦ λ h. ap Instant (exact_signed m n h) | Duration s e ↦ λ h. Prim.cc ]
      | Duration s e ↦ elim [ Forever ↦ λ h. Prim.cc | Instant n ↦ λ h. Prim.cc | Duration t f ↦ λ h. let b = both_tie _ _ h in λ i. Duration (exact_signed s t b.0 i) (exact_signed e f b.1 i) ]
    ] };
}
