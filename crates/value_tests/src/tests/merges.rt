mod maps;
mod summaries;

ghost use Rattle.std.specs.Prelude.{◌≡◌, ◌≤◌, [], vec_capacity, IfOk};

use super::asked_again::{copied, text};
use merge_laws::{Merge, SortedSet, laws};
use oim_names::{Copied, Text};
use std::alloc::AllocError;
use std::test::Fail;
use test_helpers::asked_again::{may_repeat, may_repeat_here};

// A call is repeated only if the refused call did not change the number of items.

type Items = SortedSet<Text>;

trait Counted {
    fn item_count(&self) -> usize;
}

impl Counted for Items {
    fn item_count(&self) -> usize {
        self.as_slice().len()
    }
}

fn merge<M: Merge + Counted>(rt: &HostRuntime, value: &mut M, other: &M) -> Result<(), AllocError> {
    other.known();
    let count = value.item_count();
    match value.merge(rt.alloc(), other) {
        Err(_) if value.item_count() == count && may_repeat(rt) => value.merge(rt.alloc(), other),
        merged => merged,
    }
}

fn insert(rt: &HostRuntime, set: &mut Items, item: &str) -> Result<bool, AllocError> {
    let item = text(rt, item)?;
    let count = set.item_count();
    match set.insert(&item) {
        Err(_) if set.item_count() == count && may_repeat(rt) => set.insert(&item),
        new => new,
    }
}

fn set_of(rt: &HostRuntime, items: &[&str]) -> Result<Items, AllocError> {
    let mut set = SortedSet::new(rt.alloc());
    for item in items {
        insert(rt, &mut set, item)?;
    }
    Ok(set)
}

fn has_just(set: &Items, items: &[&str]) -> bool {
    let found = set.as_slice();
    if found.len() != items.len() {
        return false;
    }
    for i in 0..found.len() {
        if found[i].as_str() != items[i] {
            return false;
        }
    }
    true
}

fn room<T: Drop>(rt: &HostRuntime) -> Result<Vec<T>, AllocError>
    ensures items { IfOk result (λ room. room.items ≡ []) }
    ensures room { IfOk result (λ room. 2 ≤ vec_capacity room) }
{
    match Vec::with_capacity(rt.alloc(), 2) {
        Err(_) if may_repeat_here(rt) => Vec::with_capacity(rt.alloc(), 2),
        room => room,
    }
}

fn merge_items(rt: &HostRuntime, set: &mut Items, items: &[&str]) -> Result<(), AllocError> {
    let other = set_of(rt, items)?;
    merge(rt, set, &other)
}

fn absorb_items(rt: &HostRuntime, set: &mut Items, items: &[&str]) -> Result<(), AllocError> {
    match set.absorb(set_of(rt, items)?) {
        Err(_) if may_repeat(rt) => set.absorb(set_of(rt, items)?),
        absorbed => absorbed,
    }
}

// Two lists of items, and the items of their union.
type Union = (
    &'static [&'static str],
    &'static [&'static str],
    &'static [&'static str],
);

const UNIONS: [Union; 6] = [
    (&["c", "a"], &["b", "c"], &["a", "b", "c"]),
    (&["b", "c"], &["c", "a"], &["a", "b", "c"]),
    (&["a", "b", "c"], &["c", "b", "a"], &["a", "b", "c"]),
    (&[], &["a", "c"], &["a", "c"]),
    (&["a", "c"], &[], &["a", "c"]),
    (&["b"], &["b"], &["b"]),
];

fn merges_to(rt: &HostRuntime, row: &Union) -> Result<bool, AllocError> {
    let mut items = set_of(rt, row.0)?;
    merge_items(rt, &mut items, row.1)?;
    Ok(has_just(&items, row.2))
}

fn absorbs_to(rt: &HostRuntime, row: &Union) -> Result<bool, AllocError> {
    let mut items = set_of(rt, row.0)?;
    absorb_items(rt, &mut items, row.1)?;
    Ok(has_just(&items, row.2))
}

#[test]
fn a_union_has_the_items_of_both(rt: HostRuntime) -> Result<(), Fail> {
    for row in &UNIONS {
        assert!(rt; merges_to(&rt, row)? && absorbs_to(&rt, row)?);
    }
    Ok(())
}

fn copy_has_just(rt: &HostRuntime, set: &Items, items: &[&str]) -> Result<bool, AllocError> {
    Ok(has_just(&copied(rt, set)?, items))
}

fn is_new_once(rt: &HostRuntime, set: &mut Items) -> Result<bool, AllocError> {
    Ok(insert(rt, set, "a")? && !insert(rt, set, "a")? && copy_has_just(rt, set, &["a", "b"])?)
}

// Returns the set of two items if the first is less than the second, and otherwise the empty set.
fn set_of_two(rt: &HostRuntime, first: Text, second: Text) -> Result<Items, AllocError> {
    let mut items = room(rt)?;
    if first.cmp(&second).is_ge() {
        return Ok(SortedSet::of_rising(items));
    }
    items.push_reserved(first);
    items.push_reserved(second);
    Ok(SortedSet::of_rising(items))
}

fn two_items(rt: &HostRuntime, first: &str, second: &str) -> Result<Items, AllocError> {
    let low = text(rt, first)?;
    let high = text(rt, second)?;
    set_of_two(rt, low, high)
}

#[test]
fn an_item_is_new_once(rt: HostRuntime) -> Result<(), Fail> {
    let mut one = SortedSet::of_one(rt.alloc(), text(&rt, "b")?);
    assert!(rt; is_new_once(&rt, &mut one)?);
    assert!(rt; has_just(&two_items(&rt, "a", "c")?, &["a", "c"]));
    Ok(())
}

// The function of a law does nothing. The test calls each function of a law once, so that generic
// laws are compiled for concrete types.
#[test]
fn laws_hold() {
    laws::set_has_both::<Text>();
    laws::map_has_both::<Text, Items>();
    laws::all_meet_iff_ends_meet();
    laws::summary_tells_all();
    laws::set_is_its_members::<Text>();
    laws::map_is_its_values::<Text, Items>();
    laws::map_keeps_what_merging_keeps::<Text, Items>();
    laws::summary_is_of_members();
}
