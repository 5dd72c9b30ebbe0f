ghost use Rattle.std.specs.Prelude.{◌≡◌, ◌≤◌, length, None, Some};
ghost use Rattle.fact_base.specs.code.Judged.{AreSummarised, shared_by};
ghost use Rattle.fact_base.specs.Verdict.{IsEvidence, verdict_of};
ghost use Rattle.oim_value.specs.SeveralMeet.{has_high, has_low, index_of_greatest_low, index_of_least_high};

use crate::evidence::Evidence;
use merge_laws::Summary;
use oim_value::{Interval, Value, interval_of};

/// Whether the facts of a dimension set contradict each other (XBRL working group note on duplicate
/// facts).
#[derive(Clone, Copy, Debug, PartialEq, Eq)]
pub enum Verdict {
    /// All facts are equal, so there is only one distinct fact.
    Complete,
    /// There are several distinct facts, and every two meet: their intervals share a number.
    Consistent,
    /// Two of the facts do not meet.
    Inconsistent,
}

/// Returns the verdict on the values. Their count and their summary suffice, because different
/// values meet only if both are numbers, and all values that are not nil are of one kind.
pub(crate) fn verdict_of(values: &[Value], summary: &Summary) -> Verdict
    requires { AreSummarised values.now summary.now }
    ensures { verdict_of values.now ≡ Some result }
{
    if values.len() == 1 {
        Verdict::Complete
    } else if shared_by(summary).is_some() {
        Verdict::Consistent
    } else {
        Verdict::Inconsistent
    }
}

/// Returns the evidence for the verdict. Walks the values only to find two that do not meet.
pub(crate) fn evidence_of(values: &[Value], summary: &Summary) -> Evidence
    requires { AreSummarised values.now summary.now }
    ensures { IsEvidence values.now result }
{
    if values.len() == 1 {
        return Evidence::Alike;
    }
    match shared_by(summary) {
        Some(common) => Evidence::Common(common),
        None => apart(values, summary),
    }
}

// Nil is the first value if it is present. With nil, or without numbers, the first two values do
// not meet. Otherwise the interval that ends first and the interval that begins last are disjoint.
fn apart(values: &[Value], summary: &Summary) -> Evidence
    requires summed { AreSummarised values.now summary.now }
    requires apart { shared_by summary.now ≡ None }
    requires several { 2 ≤ length values.now }
    ensures { IsEvidence values.now result }
{
    match summary.ends() {
        Some(ends) if !summary.nil() => {
            Evidence::Apart(first_high(values, &ends), first_low(values, &ends))
        }
        _ => Evidence::Apart(0, 1),
    }
}

fn shared_by(summary: &Summary) -> Option<Interval>
    ensures { result ≡ shared_by summary.now }
{
    let ends = summary.ends()?;
    if summary.nil() || ends.high < ends.low {
        return None;
    }
    Some(ends)
}

fn first_high(values: &[Value], ends: &Interval) -> usize
    ensures { result ≡ index_of_least_high ends.now values.now }
{
    for (index, value) in values.iter().enumerate() {
        if has_high(value, ends.high) {
            return index;
        }
    }
    values.len()
}

fn first_low(values: &[Value], ends: &Interval) -> usize
    ensures { result ≡ index_of_greatest_low ends.now values.now }
{
    for (index, value) in values.iter().enumerate() {
        if has_low(value, ends.low) {
            return index;
        }
    }
    values.len()
}

fn has_high(value: &Value, high: i128) -> bool
    ensures { result ≡ has_high high value.now }
{
    match value {
        Value::Number(number, decimals) => interval_of(*number, *decimals).high == high,
        Value::Nil | Value::Text(_) | Value::Name(_) => false,
    }
}

fn has_low(value: &Value, low: i128) -> bool
    ensures { result ≡ has_low low value.now }
{
    match value {
        Value::Number(number, decimals) => interval_of(*number, *decimals).low == low,
        Value::Nil | Value::Text(_) | Value::Name(_) => false,
    }
}
