ghost use Rattle.std.specs.Prelude.{◌≡◌, false, IfErr, IfOk, IsTrue};
ghost use Rattle.std.specs.List.{list_any};
ghost use Rattle.std.specs.Ordering.{is_lt};
ghost use Rattle.oim_value.specs.Level.{level_cmp};
ghost use Rattle.oim_report.specs.Apart.{are_apart};
ghost use Rattle.oim_report.specs.code.Beside.{both_common, both_meet, interval_at, level_beside};
ghost use Rattle.oim_report.specs.Duplicates.{level_of};
ghost use Rattle.oim_report.specs.Report.{IsOrderOf};

use oim_dims::Fact;
use oim_value::{Interval, Level, Value, common, interval_of, meets};

/// Returns whether the level of the facts is above the declared level. `All` allows any facts, so
/// facts are not compared if `All` is declared.
pub(crate) fn is_above(declared: Level, facts: &[Fact], order: &[usize]) -> bool
    requires { IsOrderOf facts.now order.now }
    ensures { result ≡ is_lt (level_cmp declared (level_of facts.now)) }
{
    declared != Level::All && declared < level_of(facts, order)
}

/// Returns the strictest level that allows the facts (`xbrl:allowedDuplicates` of OIM Common 1.0).
pub(crate) fn level_of(facts: &[Fact], order: &[usize]) -> Level
    requires { IsOrderOf facts.now order.now }
    ensures { result ≡ level_of facts.now }
{
    match level_within(Level::All, facts, order) {
        Ok(level) => level,
        Err(_) => Level::All,
    }
}

/// Returns the level of the facts. If the level is above `limit`, the error is the index of the
/// first fact, in sorted order, that `limit` does not allow beside an earlier fact. One visit to
/// each fact suffices: each pair of values meets exactly if all values are equal, or if all are
/// numbers whose intervals have a common part.
pub(crate) fn level_within(limit: Level, facts: &[Fact], order: &[usize]) -> Result<Level, usize>
    requires { IsOrderOf facts.now order.now }
    ensures level { IfOk result (λ level. level ≡ level_of facts.now) }
    ensures within { IfOk result (λ level. is_lt (level_cmp limit level) ≡ false) }
    ensures above { IfErr result
        (λ last. IsTrue (list_any (λ one. are_apart limit facts.now one last) order.now)) }
{
    let Some((first, rest)) = order.split_first() else {
        return Ok(Level::Unique);
    };
    let mut level = Level::Unique;
    let mut last = &facts[*first];
    let mut shared = interval_at(&last.value);
    for index in rest {
        let fact = &facts[*index];
        let interval = interval_at(&fact.value);
        if last.dimensions == fact.dimensions {
            level = level.max(level_beside(&last.value, shared, &fact.value));
            shared = both_common(shared, interval);
        } else {
            shared = interval;
        }
        last = fact;
        if limit < level {
            return Err(*index);
        }
    }
    Ok(level)
}

// Returns the level that `value` requires beside earlier values with the same dimensions. `last` is
// the last earlier value. `shared` is the common part of the intervals of all earlier values, or
// `None` if one of them is not a number. The level of all these values is the greater of the result
// and the level of the earlier values.
#[tactic(auto, using(crate::proofs::Ties::equal_values_tie))]
fn level_beside(last: &Value, shared: Option<Interval>, value: &Value) -> Level
    ensures { result ≡ level_beside last.now shared value.now }
{
    if last == value {
        Level::Complete
    } else if both_meet(shared, interval_at(value)) {
        Level::Consistent
    } else {
        Level::All
    }
}

fn interval_at(value: &Value) -> Option<Interval>
    ensures { result ≡ interval_at value.now }
{
    match value {
        Value::Number(number, decimals) => Some(interval_of(*number, *decimals)),
        Value::Nil | Value::Text(_) | Value::Name(_) => None,
    }
}

fn both_common(a: Option<Interval>, b: Option<Interval>) -> Option<Interval>
    ensures { result ≡ both_common a b }
{
    Some(common(a?, b?))
}

fn both_meet(a: Option<Interval>, b: Option<Interval>) -> bool
    ensures { result ≡ both_meet a b }
{
    match (a, b) {
        (Some(a), Some(b)) => meets(a, b),
        _ => false,
    }
}
