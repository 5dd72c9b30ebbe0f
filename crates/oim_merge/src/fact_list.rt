ghost use Rattle.std.specs.Prelude.{◌≡◌, ◌<◌, ◌++◌, length, map, count_by, IfOk, OnOk};
ghost use Rattle.std.specs.Bool.{OnTrue};
ghost use Rattle.std.specs.List.{HoldsAt};
ghost use Rattle.std.specs.Ordering.{is_lt};
ghost use Rattle.fact_base.specs.Entries.{facts_with};
ghost use Rattle.merge_laws.specs.Sorted.{IsSet};
ghost use Rattle.oim_dims.specs.FactOrder.{fact_cmp};
ghost use Rattle.oim_merge.specs.code.BufferedRows.{lent};

use fact_base::{Base, Row};
use oim_dims::{Dimensions, Fact, likely_order};
use oim_value::Value;
use std::alloc::{AllocError, Global};

/// A borrowed fact of a base.
#[derive(Clone, Copy, Debug)]
pub(crate) struct LentFact<'b> {
    pub dimensions: &'b Dimensions,
    pub value: &'b Value,
}

pub(crate) fn facts_of<'b>(
    alloc: Global,
    base: &'b Base<'_>,
) -> Result<Vec<LentFact<'b>>, AllocError>
    ensures { IfOk result (λ facts. map lent facts.items ≡ base.now.body.facts) }
{
    let mut facts = Vec::new(alloc);
    for row in base.rows() {
        add_row(&mut facts, row)?;
    }
    Ok(facts)
}

fn add_row<'b>(facts: &mut Vec<LentFact<'b>>, row: Row<'b>) -> Result<(), AllocError>
    ensures { OnOk result (map lent facts.new.items
        ≡ map lent facts.old.items ++ facts_with row.entry.dimensions.now row.entry.values.now) }
{
    for value in row.values {
        facts.push(LentFact {
            dimensions: row.dimensions,
            value,
        })?;
    }
    Ok(())
}

/// Returns the number of facts that are less than this one. If the fact at the index `guess` equals
/// it, this is the number.
///
/// A URI may be long, and most facts of a report share it. So the fact is first looked for by an
/// order that reads no long URI. If the fact at the index that is found equals it, this is the
/// number, and each URI was read once.
pub(crate) fn index_of(facts: &[LentFact<'_>], guess: usize, fact: &Fact) -> usize
    requires { IsSet fact_cmp (map lent facts.now) }
    ensures { result ≡ count_by (λ f. is_lt (fact_cmp f fact.now)) (map lent facts.now) }
{
    if is_at(facts, guess, fact) {
        return guess;
    }
    let likely = facts.partition_point(|one| is_likely_less(one, fact));
    if is_at(facts, likely, fact) {
        return likely;
    }
    facts.partition_point(|one| is_less(one, fact))
}

fn is_likely_less(one: &LentFact<'_>, fact: &Fact) -> bool {
    likely_order(one.dimensions, &fact.dimensions, &[])
        .then_with(|| one.value.cmp(&fact.value))
        .is_lt()
}

fn is_at(facts: &[LentFact<'_>], index: usize, fact: &Fact) -> bool
    ensures within { OnTrue result (index < length facts.now) }
    ensures same { OnTrue result (HoldsAt (λ one. lent one ≡ fact.now) facts.now index) }
{
    match facts.get(index) {
        Some(one) => *one.dimensions == fact.dimensions && *one.value == fact.value,
        None => false,
    }
}

fn is_less(one: &LentFact<'_>, fact: &Fact) -> bool
    ensures { result ≡ is_lt (fact_cmp (lent one.now) fact.now) }
{
    let of_fact = (&fact.dimensions, &fact.value);
    (one.dimensions, one.value).cmp(&of_fact).is_lt()
}
