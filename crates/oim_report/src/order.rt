ghost use Rattle.std.specs.Prelude.{◌≡◌, ℕ, Some, IfOk, IfSome, IsTrue, length, slice_get};
ghost use Rattle.std.specs.Ordering.{nat_cmp};
ghost use Rattle.std.specs.List.{range_with_len};
ghost use Rattle.std.specs.List.Sorted.{IsPermutation};
ghost use Rattle.oim_dims.specs.FactOrder.{fact_cmp};
ghost use Rattle.oim_report.specs.Report.{IsOrderOf, index_cmp};
ghost use Rattle.oim_report.specs.code.DimensionRuns.{HaveDimensionsOf};
ghost use Rattle.oim_report.specs.code.Ranks.{OrderConcepts};

use oim_dims::{Fact, RankedUri, likely_order, rank_long_uris};
use std::alloc::{AllocError, Global};
use std::cmp::Ordering;

/// Returns the indices of the facts, in ascending order of the facts. `ranks` is empty, or it has
/// the rank of each fact's concept. Then ranks are compared instead of concepts.
pub(crate) fn order_of(
    alloc: Global,
    facts: &[Fact],
    ranks: &[usize],
) -> Result<Vec<usize>, AllocError>
    requires { OrderConcepts ranks.now facts.now }
    ensures { IfOk result (λ order. IsOrderOf facts.now order.items) }
{
    let mut order = indices_of(alloc, facts)?;
    let starts = run_starts(alloc, facts)?;
    let starts = starts.as_slice();
    order.sort_unstable_by(|i, j| compared(facts, starts, ranks, *i, *j));
    Ok(order)
}

// Returns the index of each fact once. If a URI is long, the facts at these indices likely ascend, so
// a sort compares adjacent facts only.
fn indices_of(alloc: Global, facts: &[Fact]) -> Result<Vec<usize>, AllocError>
    ensures { IfOk result (λ all. IsPermutation (range_with_len 0 (length facts.now)) all.items) }
{
    // `collect` is not used: if its request for memory is refused, it requests a smaller amount
    let mut all: Vec<usize> = Vec::with_capacity(alloc, facts.len())?;
    all.extend(0..facts.len())?;
    let uris = rank_long_uris(alloc, facts)?;
    let uris = uris.as_slice();
    if !uris.is_empty() {
        all.sort_unstable_by(|i, j| likely_compared(facts, uris, *i, *j));
    }
    Ok(all)
}

fn likely_compared(facts: &[Fact], uris: &[RankedUri<'_>], i: usize, j: usize) -> Ordering {
    match (facts.get(i), facts.get(j)) {
        (Some(one), Some(other)) => likely_order(
            &one.dimensions,
            &other.dimensions,
            uris,
        ).then_with(|| one.value.cmp(&other.value)),
        _ => i.cmp(&j),
    }
}

// Returns, for each fact, the index of the first fact in its run of adjacent facts with equal
// dimensions.
fn run_starts(alloc: Global, facts: &[Fact]) -> Result<Vec<usize>, AllocError>
    ensures { IfOk result (λ starts. HaveDimensionsOf facts.now starts.items) }
{
    let mut starts = Vec::with_capacity(alloc, facts.len())?;
    let mut first = 0;
    for (i, fact) in facts.iter().enumerate() {
        let is_alike = i > 0 && facts[first].dimensions == fact.dimensions;
        first = if is_alike { first } else { i };
        starts.push(first)?;
    }
    Ok(starts)
}

// Compares ranks instead of concepts, and only the values of facts in one run.
fn compared(facts: &[Fact], starts: &[usize], ranks: &[usize], i: usize, j: usize) -> Ordering
    requires starts { HaveDimensionsOf facts.now starts.now }
    requires ranks { OrderConcepts ranks.now facts.now }
    ensures { result ≡ index_cmp facts.now i j }
{
    match (facts.get(i), facts.get(j)) {
        (Some(one), Some(other)) => match rank_order(ranks, i, j) {
            Some(Ordering::Equal) if same_at(starts, i, j) => one.value.cmp(&other.value),
            Some(Ordering::Equal) => compared_in_concept(one, other),
            Some(Ordering::Less) => Ordering::Less,
            Some(Ordering::Greater) => Ordering::Greater,
            None if same_at(starts, i, j) => one.value.cmp(&other.value),
            None => one.cmp(other),
        },
        _ => facts.get(i).cmp(&facts.get(j)),
    }
}

fn rank_order(ranks: &[usize], i: usize, j: usize) -> Option<Ordering>
    ensures { IfSome result (λ o. (r s : ℕ) × (slice_get ranks.now i ≡ Some r) × (slice_get ranks.now j ≡ Some s) × (o ≡ nat_cmp r s)) }
{
    Some(ranks.get(i)?.cmp(ranks.get(j)?))
}

fn compared_in_concept(one: &Fact, other: &Fact) -> Ordering
    requires { one.now.dimensions.concept ≡ other.now.dimensions.concept }
    ensures { result ≡ fact_cmp one.now other.now }
{
    match one.dimensions.entity().cmp(&other.dimensions.entity()) {
        Ordering::Equal => {}
        unequal => return unequal,
    }
    match one.dimensions.period().cmp(&other.dimensions.period()) {
        Ordering::Equal => {}
        unequal => return unequal,
    }
    match one.dimensions.unit().cmp(&other.dimensions.unit()) {
        Ordering::Equal => {}
        unequal => return unequal,
    }
    match one.dimensions.language().cmp(&other.dimensions.language()) {
        Ordering::Equal => {}
        unequal => return unequal,
    }
    match one.dimensions.members().cmp(other.dimensions.members()) {
        Ordering::Equal => one.value.cmp(&other.value),
        unequal => unequal,
    }
}

fn same_at(starts: &[usize], i: usize, j: usize) -> bool
    ensures { IsTrue result → slice_get starts.now i ≡ slice_get starts.now j }
{
    match (starts.get(i), starts.get(j)) {
        (Some(one), Some(other)) => one == other,
        _ => false,
    }
}
