ghost use Rattle.std.specs.Prelude.{map, ◌≡◌, ◌↔◌, ◌++◌, length, Contains, IsTrue, IfOk, IfSome, OnOk, slice_get};
ghost use Rattle.std.specs.List.{All};
ghost use Rattle.std.specs.List.Sorted.{IsSorted};
ghost use Rattle.std.specs.Option.{option_map};
ghost use Rattle.fact_base.specs.Entries.{facts_of_entries, facts_of_entry, facts_with};
ghost use Rattle.fact_base.specs.code.Entries.{AreEntriesOf, NoneAbove, with_fact, with_value};
ghost use Rattle.fact_base.specs.code.Judged.{AreSummarised, level_at};
ghost use Rattle.fact_base.specs.Shown.{row_of};
ghost use Rattle.merge_laws.specs.Sorted.{IsRising, entry_key};
ghost use Rattle.oim_dims.specs.FactOrder.{dimensions_cmp, fact_cmp};
ghost use Rattle.oim_report.specs.Duplicates.{level_of};

use crate::ordering::has_all;
use crate::verdict::{Verdict, verdict_of};
use merge_laws::{Merge, SortedMap, SortedSet, Summary};
use oim_dims::{Dimensions, Fact};
use oim_names::Copied;
use oim_value::{Level, Value};
use std::alloc::{AllocError, Global};

/// The facts of a base: its dimension sets in order, each with its values and their summary.
pub(crate) type Entries = SortedMap<Dimensions, (SortedSet<Value>, Summary)>;

type Entry = (Dimensions, (SortedSet<Value>, Summary));

// The number of facts whose memory is given back at once.
const FREED_AT_ONCE: usize = 4096;

/// Returns the entries of the facts, which must be in order. The list of facts is freed piece by
/// piece while the reserved list of entries is filled, so that the two are never in memory as a whole
/// together.
pub(crate) fn entries_in_order(alloc: Global, facts: Vec<Fact>) -> Result<Entries, AllocError>
    requires { IsSorted fact_cmp facts.items }
    ensures { IfOk result (AreEntriesOf facts.items) }
{
    let mut entries = Vec::with_capacity(alloc, facts.len())?;
    let mut left = facts;
    // A list gives memory back at its end only.
    left.reverse();
    while let Some(fact) = left.pop() {
        push_given(alloc, &mut entries, fact)?;
        free_spare(&mut left);
    }
    Ok(SortedMap::of_rising(entries))
}

fn free_spare(facts: &mut Vec<Fact>)
    ensures { facts.new.items ≡ facts.old.items }
{
    if facts.len() % FREED_AT_ONCE == 0 {
        facts.shrink_to_fit();
    }
}

// Adds the value to the last entry if that has the fact's dimensions. Otherwise adds an entry.
fn push_given(alloc: Global, entries: &mut Vec<Entry>, fact: Fact) -> Result<(), AllocError>
    requires rise { IsRising dimensions_cmp entry_key entries.old.items }
    requires below { NoneAbove fact.dimensions entries.old.items }
    ensures { OnOk result (entries.new.items ≡ with_fact fact entries.old.items) }
{
    let Fact { dimensions, value } = fact;
    match entries.len().checked_sub(1) {
        Some(last) if entries[last].0 == dimensions => add(alloc, &mut entries[last].1, &value),
        _ => {
            let summary = Summary::of(&value);
            entries.push((dimensions, (SortedSet::of_one(alloc, value), summary)))?;
            Ok(())
        }
    }
}

fn add(
    alloc: Global,
    kept: &mut (SortedSet<Value>, Summary),
    value: &Value,
) -> Result<(), AllocError>
    ensures { OnOk result (kept.new ≡ with_value value.now kept.old) }
{
    kept.0.insert(value)?;
    kept.1.merge(alloc, &Summary::of(value))
}

/// Returns copies of all facts, in order.
pub(crate) fn copied_facts(alloc: Global, entries: &Entries) -> Result<Vec<Fact>, AllocError>
    ensures { IfOk result (λ facts. facts.items ≡ facts_of_entries entries.now) }
{
    let mut facts = Vec::new(alloc);
    for index in 0..entries.len() {
        if let Some((dimensions, (values, _summary))) = entries.at(index) {
            push_facts(alloc, &mut facts, dimensions, values.as_slice())?;
        }
    }
    Ok(facts)
}

fn push_facts(
    alloc: Global,
    facts: &mut Vec<Fact>,
    dimensions: &Dimensions,
    values: &[Value],
) -> Result<(), AllocError>
    ensures { OnOk result (facts.new.items ≡ facts.old.items ++ facts_with dimensions.now values.now) }
{
    for value in values {
        facts.push(fact_of(alloc, dimensions, value)?)?;
    }
    Ok(())
}

fn fact_of(alloc: Global, dimensions: &Dimensions, value: &Value) -> Result<Fact, AllocError>
    ensures { IfOk result (λ fact. fact ≡ record { dimensions = dimensions.now; value = value.now }) }
{
    Ok(Fact {
        dimensions: dimensions.copied(alloc)?,
        value: value.copied(alloc)?,
    })
}

pub(crate) fn count_of(entries: &Entries) -> u128
    ensures { result ≡ length (facts_of_entries entries.now) }
{
    let mut count: u128 = 0;
    for index in 0..entries.len() {
        if let Some((_dimensions, (values, _summary))) = entries.at(index) {
            count += values.as_slice().len() as u128;
        }
    }
    count
}

pub(crate) fn same_rows(one: &Entries, other: &Entries) -> bool
    ensures { IsTrue result ↔ (map row_of one.now ≡ map row_of other.now) }
{
    if one.len() != other.len() {
        return false;
    }
    for index in 0..one.len() {
        if !same_at(one, other, index) {
            return false;
        }
    }
    true
}

/// Returns true only if the entries have each fact of the others. Stops at the first row with a fact
/// that they lack.
pub(crate) fn has_all_rows(entries: &Entries, others: &Entries) -> bool
    requires { IsRising dimensions_cmp entry_key entries.now }
    ensures { IsTrue result → All (Contains (facts_of_entries entries.now)) (facts_of_entries others.now) }
{
    let mut near = 0;
    for index in 0..others.len() {
        if !has_row_at(entries, others, index, &mut near) {
            return false;
        }
    }
    true
}

// The rows ascend, so each look-up begins at the last row found.
fn has_row_at(entries: &Entries, others: &Entries, index: usize, near: &mut usize) -> bool
    requires { IsRising dimensions_cmp entry_key entries.now }
    ensures { IsTrue result → IfSome (slice_get others.now index)
        (λ row. All (Contains (facts_of_entries entries.now)) (facts_of_entry row)) }
{
    let Some((dimensions, (values, _summary))) = others.at(index) else {
        return true;
    };
    match entries.get_near(dimensions, near) {
        Some((known, _summary)) => has_all(known.as_slice(), values.as_slice()),
        None => false,
    }
}

fn same_at(one: &Entries, other: &Entries, index: usize) -> bool
    ensures { IsTrue result ↔ (option_map row_of (slice_get one.now index) ≡ option_map row_of (slice_get other.now index)) }
{
    match (one.at(index), other.at(index)) {
        (Some((dimensions, (values, _))), Some((others, (more, _)))) => {
            dimensions == others && values.as_slice() == more.as_slice()
        }
        (None, None) => true,
        _ => false,
    }
}

/// Returns the strictest level that allows the facts. Reads the number of values and the summary of
/// every dimension set, but not the values.
pub(crate) fn level_of(entries: &Entries) -> Level
    requires rise { IsRising dimensions_cmp entry_key entries.now }
    requires summed { All (λ e. AreSummarised e.1.0 e.1.1) entries.now }
    ensures { result ≡ level_of (facts_of_entries entries.now) }
{
    let mut level = Level::Unique;
    for index in 0..entries.len() {
        if let Some((_dimensions, (values, summary))) = entries.at(index) {
            level = level.max(level_at(verdict_of(values.as_slice(), summary)));
        }
    }
    level
}

fn level_at(verdict: Verdict) -> Level
    ensures { result ≡ level_at verdict }
{
    match verdict {
        Verdict::Complete => Level::Unique,
        Verdict::Consistent => Level::Consistent,
        Verdict::Inconsistent => Level::All,
    }
}
