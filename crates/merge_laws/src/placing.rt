ghost use Rattle.std.specs.Prelude.{◌≡◌, ◌+◌, length};
ghost use Rattle.std.specs.List.{range_with_len};
ghost use Rattle.std.specs.List.Sorted.{IsPermutation};
ghost use Rattle.merge_laws.specs.Picked.{picked};

/// Brings the items from index `first` on into an order: the item at index `first + order[k]` goes
/// to index `first + k`. Swaps move them, so none is copied and no memory is needed.
pub fn place<E>(items: &mut Vec<E>, first: usize, order: Vec<usize>)
    requires len { first + length order.items ≡ length items.old.items }
    requires each_once { IsPermutation (range_with_len 0 (length order.items)) order.items }
    ensures { (d : E) → items.new.items ≡ picked first d items.old.items order.items }
{
    // The item that belongs at index `first + k` is at index `first + indices[k]`.
    let mut indices = order;
    let mut i = 0;
    while i < indices.len() {
        let index = indices[i];
        if index == i {
            i += 1;
        } else {
            // The item that belongs at `index` goes there. The one that leaves belongs at `i`.
            items.swap(first + index, first + indices[index]);
            indices.swap(i, index);
        }
    }
}
