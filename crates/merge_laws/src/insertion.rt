ghost use Rattle.std.specs.Prelude.{◌≡◌, ◌+◌, ◌-◌, ◌<◌, ◌≤◌, [], ◌++◌, length, min, reverse, take, vec_len, vec_capacity, IfOk, OnOk, OnErr};
ghost use Rattle.std.specs.List.{range_with_len};
ghost use Rattle.std.specs.List.Sorted.{IsPermutation};
ghost use Rattle.merge_laws.specs.Picked.{picked};
ghost use Rattle.merge_laws.specs.code.Insertions.{IsFirstLeast, first_index, inserted};

use crate::placing::place;
use std::alloc::AllocError;

// Each new item has the index in the old list at which it is inserted. The first new item has the
// least index.

pub(crate) fn insert_new<E: Drop>(
    items: &mut Vec<E>,
    news: Vec<(usize, E)>,
) -> Result<(), AllocError>
    requires { IsFirstLeast (vec_len items.old) news.items }
    ensures ok { OnOk result (items.new.items ≡ inserted items.old.items (reverse news.items)) }
    ensures err { OnErr result (items.new.items ≡ items.old.items) }
{
    let order = room_for(items, news.as_slice())?;
    insert_all(items, news, order);
    Ok(())
}

/// Reserves all memory that `insert_all` needs, so that an insertion cannot fail halfway.
pub(crate) fn room_for<E: Drop>(
    items: &mut Vec<E>,
    news: &[(usize, E)],
) -> Result<Vec<usize>, AllocError>
    ensures kept { items.new.items ≡ items.old.items }
    ensures among { IfOk result (λ order. vec_len items.new + length news.now ≤ vec_capacity items.new) }
    ensures order { IfOk result (λ order. vec_len items.new - first_index (vec_len items.new) news.now + length news.now ≤ vec_capacity order) }
    ensures empty { IfOk result (λ order. order.items ≡ []) }
{
    items.reserve(news.len())?;
    let moved = items.len() - first_of(items.len(), news);
    Vec::with_capacity(*items.allocator(), moved + news.len())
}

// The index of the first item that an insertion moves.
fn first_of<E>(len: usize, news: &[(usize, E)]) -> usize
    ensures { result ≡ min len (first_index len news.now) }
{
    match news.first() {
        Some((index, _)) => len.min(*index),
        None => len,
    }
}

/// Inserts the new items, and moves only the items that follow the first new one. The new items are
/// moved to the end of the list, then swaps bring all items to their indices. A list of indices
/// takes less memory than a second list of items.
pub(crate) fn insert_all<E: Drop>(items: &mut Vec<E>, news: Vec<(usize, E)>, mut order: Vec<usize>)
    requires first { IsFirstLeast (vec_len items.old) news.items }
    requires empty { order.items ≡ [] }
    requires among { vec_len items.old + vec_len news ≤ vec_capacity items.old }
    requires order { vec_len items.old - first_index (vec_len items.old) news.items + vec_len news ≤ vec_capacity order }
    ensures { items.new.items ≡ inserted items.old.items (reverse news.items) }
{
    let first = first_of(items.len(), news.as_slice());
    append(items, news, first, &mut order);
    order.reverse();
    place(items, first, order);
}

// Appends the new items to the list, the last one first. Appends to `order` the indices at which the
// items from index `first` on then are, in the final order of these items, but from the end. Each of
// these indices is reduced by `first`.
fn append<E: Drop>(
    items: &mut Vec<E>,
    mut news: Vec<(usize, E)>,
    first: usize,
    order: &mut Vec<usize>,
)
    requires first { first ≡ min (vec_len items.old) (first_index (vec_len items.old) news.items) }
    requires least { IsFirstLeast (vec_len items.old) news.items }
    requires empty { order.old.items ≡ [] }
    requires among { vec_len items.old + vec_len news ≤ vec_capacity items.old }
    requires order { vec_len items.old - first + vec_len news ≤ vec_capacity order.old }
    ensures items { (d : E) → picked first d items.new.items (reverse order.new.items) ≡ inserted items.old.items (reverse news.items) }
    ensures each_once { IsPermutation (range_with_len 0 (length items.new.items - first)) (reverse order.new.items) }
    ensures within { first ≤ length items.new.items }
{
    let mut top = items.len();
    while let Some((index, item)) = news.pop() {
        top = count_down(top, index, first, order);
        order.push_reserved(items.len() - first);
        items.push_reserved(item);
    }
    let _first = count_down(top, first, first, order);
}

// Appends the numbers from `top - 1` down to `index` to `order`, each reduced by `first`. Returns the
// lesser of `top` and `index`.
fn count_down(top: usize, index: usize, first: usize, order: &mut Vec<usize>) -> usize
    requires index { first ≤ index }
    requires top { first ≤ top }
    requires order { vec_len order.old + (top - index) ≤ vec_capacity order.old }
    ensures result { result ≡ min top index }
    ensures order { reverse order.new.items ≡ range_with_len (result - first) (top - result) ++ reverse order.old.items }
    ensures len { vec_len order.new ≡ vec_len order.old + (top - index) }
    ensures storage { vec_capacity order.new ≡ vec_capacity order.old }
{
    let mut low = top;
    while low > index {
        low -= 1;
        order.push_reserved(low - first);
    }
    low
}
