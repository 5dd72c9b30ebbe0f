ghost use Rattle.std.specs.Prelude.{◌≡◌, ◌++◌, All, Contains, IfOk, IsTrue, OnOk, OnErr, length, slice_get};
ghost use Rattle.std.specs.List.{range_with_len};
ghost use Rattle.std.specs.List.Sorted.{IsPermutation, IsSorted};
ghost use Rattle.std.specs.Option.{option_cmp, unwrap_or};
ghost use Rattle.oim_dims.specs.FactOrder.{fact_cmp};
ghost use Rattle.oim_report.specs.Report.{IsOrderOf};
ghost use Rattle.fact_base.specs.Body.{text_cmp};
ghost use Rattle.fact_base.specs.Sets.{set_of};

use merge_laws::{Merge, SortedSet, place};
use oim_dims::Fact;
use oim_names::{Copied, Key, Text, copies_of};
use std::alloc::{AllocError, Global};
use std::cmp::Ordering;

/// Returns the facts in order. Swaps move them without copying or comparing them.
pub(crate) fn in_order(mut facts: Vec<Fact>, order: Vec<usize>) -> Vec<Fact>
    requires { IsOrderOf facts.items order.items }
    ensures moved { IsPermutation facts.items result.items }
    ensures sorted { IsSorted fact_cmp result.items }
{
    place(&mut facts, 0, order);
    facts
}

/// If half the number of items, rounded down, exceeds `settled`, sorts them, removes repeats and
/// stores their new number in `settled`. The set of items does not change.
///
/// Errors: out of memory; the items are then unchanged.
pub(crate) fn settle<T: Key>(items: &mut Vec<T>, settled: &mut usize) -> Result<(), AllocError>
    ensures { set_of T.cmp items.new.items ≡ set_of T.cmp items.old.items }
{
    if items.len() / 2 > *settled {
        put_in_order(items)?;
        *settled = items.len();
    }
    Ok(())
}

/// Sorts the items and removes repeats.
///
/// Errors: out of memory; the items are then unchanged.
pub(crate) fn put_in_order<T: Key>(items: &mut Vec<T>) -> Result<(), AllocError>
    ensures ok { OnOk result (items.new.items ≡ set_of T.cmp items.old.items) }
    ensures err { OnErr result (items.new.items ≡ items.old.items) }
{
    sort(items)?;
    items.dedup();
    Ok(())
}

/// Sorts a list of the items' indices, which needs less memory than sorting the items. Then moves
/// the items by swaps.
///
/// Errors: out of memory; the items are then unchanged.
pub(crate) fn sort<T: Ord>(items: &mut Vec<T>) -> Result<(), AllocError>
    ensures permutation { IsPermutation items.old.items items.new.items }
    ensures sorted { OnOk result (IsSorted T.cmp items.new.items) }
    ensures err { OnErr result (items.new.items ≡ items.old.items) }
{
    let order = order_of(*items.allocator(), items.as_slice())?;
    place(items, 0, order);
    Ok(())
}

// Returns the indices of the items, in ascending order of the items.
fn order_of<T: Ord>(alloc: Global, items: &[T]) -> Result<Vec<usize>, AllocError>
    ensures each_once { IfOk result (λ order. IsPermutation (range_with_len 0 (length items.now)) order.items) }
    ensures rising { IfOk result (λ order. IsSorted (λ i j. option_cmp T.cmp (slice_get items.now i) (slice_get items.now j)) order.items) }
{
    // `collect` is not used: if its request for memory is refused, it requests a smaller amount
    let mut order: Vec<usize> = Vec::with_capacity(alloc, items.len())?;
    order.extend(0..items.len())?;
    // A stable sort needs few comparisons for runs of items that ascend.
    order.sort_by(|i, j| compared(items, *i, *j))?;
    Ok(order)
}

fn compared<T: Ord>(items: &[T], i: usize, j: usize) -> Ordering
    ensures { result ≡ option_cmp T.cmp (slice_get items.now i) (slice_get items.now j) }
{
    items.get(i).cmp(&items.get(j))
}

/// Returns None if `references` include all of `others`, which saves a copy. Otherwise returns the
/// union of both lists. `others` may be in any order.
pub(crate) fn with_all(
    alloc: Global,
    references: &SortedSet<Text>,
    others: &[Text],
) -> Result<Option<SortedSet<Text>>, AllocError>
    ensures { IfOk result (λ wider. unwrap_or wider references.now ≡ set_of text_cmp (references.now ++ others.now)) }
{
    references.known();
    if has_all(references.as_slice(), others) {
        return Ok(None);
    }
    let mut wider = references.copied(alloc)?;
    let mut added = copies_of(alloc, others, 0)?;
    put_in_order(&mut added)?;
    wider.absorb(SortedSet::of_rising(added))?;
    Ok(Some(wider))
}

/// Returns true only if the items, which should be in order, include all of the others.
pub(crate) fn has_all<T: Key>(items: &[T], others: &[T]) -> bool
    ensures { IsTrue result → All (Contains items.now) others.now }
{
    for other in others {
        if items.binary_search(other).is_err() {
            return false;
        }
    }
    true
}

pub(crate) fn replace(references: &mut SortedSet<Text>, wider: Option<SortedSet<Text>>)
    ensures { references.new ≡ unwrap_or wider references.old }
{
    if let Some(wider) = wider {
        *references = wider;
    }
}
