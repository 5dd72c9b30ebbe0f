use super::{Counted, Items, copied, has_just, merge, room, set_of, text};
use merge_laws::SortedMap;
use oim_names::Text;
use std::alloc::AllocError;
use std::test::Fail;
use test_helpers::asked_again::may_repeat;

type ItemsAt = SortedMap<Text, Items>;

impl Counted for ItemsAt {
    fn item_count(&self) -> usize {
        let mut count = 0usize;
        for index in 0..self.len() {
            if let Some((_, items)) = self.at(index) {
                count = count.saturating_add(items.item_count());
            }
        }
        count
    }
}

fn put(rt: &HostRuntime, map: &mut ItemsAt, key: &Text, items: &Items) -> Result<(), AllocError> {
    let count = map.item_count();
    match map.put(key, items) {
        Err(_) if map.item_count() == count && may_repeat(rt) => map.put(key, items),
        done => done,
    }
}

fn put_item(rt: &HostRuntime, map: &mut ItemsAt, key: &str, item: &str) -> Result<(), AllocError> {
    let key = text(rt, key)?;
    put(rt, map, &key, &set_of(rt, &[item])?)
}

type Row = (&'static str, &'static str);

fn map_of(rt: &HostRuntime, rows: &[Row]) -> Result<ItemsAt, AllocError> {
    let mut map = SortedMap::new(rt.alloc());
    for (key, item) in rows {
        put_item(rt, &mut map, key, item)?;
    }
    Ok(map)
}

fn has_items(map: &ItemsAt, key: &Text, items: &[&str]) -> bool {
    match map.get(key) {
        Some(set) => has_just(set, items),
        None => items.is_empty(),
    }
}

// Returns whether a map has exactly these items at a key. If `items` is empty, the key may be
// missing.
fn has_at(rt: &HostRuntime, map: &ItemsAt, key: &str, items: &[&str]) -> Result<bool, AllocError> {
    let key = text(rt, key)?;
    Ok(has_items(map, &key, items))
}

fn is_entry(map: &ItemsAt, index: usize, key: &str, items: &[&str]) -> bool {
    match map.at(index) {
        Some((found, set)) => found.as_str() == key && has_just(set, items),
        None => false,
    }
}

// Returns whether a map has the items a and b at the key k, the item c at m, and no other key.
fn is_merged(rt: &HostRuntime, map: &ItemsAt) -> Result<bool, AllocError> {
    if map.len() != 2 || !is_entry(map, 0, "k", &["a", "b"]) || !is_entry(map, 1, "m", &["c"]) {
        return Ok(false);
    }
    Ok(map.at(2).is_none() && has_at(rt, map, "k", &["a", "b"])? && has_at(rt, map, "l", &[])?)
}

fn merge_rows(rt: &HostRuntime, map: &mut ItemsAt, rows: &[Row]) -> Result<(), AllocError> {
    let other = map_of(rt, rows)?;
    merge(rt, map, &other)
}

fn absorb_rows(rt: &HostRuntime, map: &mut ItemsAt, rows: &[Row]) -> Result<(), AllocError> {
    match map.absorb(map_of(rt, rows)?) {
        Err(_) if may_repeat(rt) => map.absorb(map_of(rt, rows)?),
        absorbed => absorbed,
    }
}

fn merges_rows(rt: &HostRuntime, rows: &[Row], others: &[Row]) -> Result<bool, AllocError> {
    let mut map = map_of(rt, rows)?;
    merge_rows(rt, &mut map, others)?;
    is_merged(rt, &map)
}

fn absorbs_rows(rt: &HostRuntime, rows: &[Row], others: &[Row]) -> Result<bool, AllocError> {
    let mut map = map_of(rt, rows)?;
    absorb_rows(rt, &mut map, others)?;
    copy_is_merged(rt, &map)
}

fn copy_is_merged(rt: &HostRuntime, map: &ItemsAt) -> Result<bool, AllocError> {
    is_merged(rt, &copied(rt, map)?)
}

const MAPS: [(&[Row], &[Row]); 4] = [
    (&[("k", "a")], &[("m", "c"), ("k", "b")]),
    (&[("m", "c"), ("k", "b")], &[("k", "a")]),
    (&[], &[("k", "b"), ("m", "c"), ("k", "a"), ("k", "b")]),
    (&[("k", "a"), ("k", "b"), ("m", "c")], &[]),
];

#[test]
fn maps_merge_key_by_key(rt: HostRuntime) -> Result<(), Fail> {
    for (rows, others) in &MAPS {
        assert!(rt; merges_rows(&rt, rows, others)? && absorbs_rows(&rt, rows, others)?);
    }
    Ok(())
}

fn keyed_items(rt: &HostRuntime) -> Result<(Text, Items), AllocError> {
    let key = text(rt, "k")?;
    Ok((key, set_of(rt, &["a"])?))
}

fn map_of_one(rt: &HostRuntime) -> Result<ItemsAt, AllocError> {
    let mut entries = room(rt)?;
    entries.push_reserved(keyed_items(rt)?);
    Ok(SortedMap::of_rising(entries))
}

#[test]
fn one_entry_makes_a_map(rt: HostRuntime) -> Result<(), Fail> {
    assert!(rt; is_entry(&map_of_one(&rt)?, 0, "k", &["a"]));
    Ok(())
}

type Pair = (Items, Items);

impl Counted for Pair {
    fn item_count(&self) -> usize {
        self.0.item_count().saturating_add(self.1.item_count())
    }
}

fn pair(rt: &HostRuntime, left: &str, right: &str) -> Result<Pair, AllocError> {
    let first = set_of(rt, &[left])?;
    Ok((first, set_of(rt, &[right])?))
}

fn merge_pair(rt: &HostRuntime, value: &mut Pair) -> Result<(), AllocError> {
    let other = pair(rt, "b", "w")?;
    merge(rt, value, &other)
}

#[test]
fn pairs_merge_part_by_part(rt: HostRuntime) -> Result<(), Fail> {
    let mut value = pair(&rt, "a", "x")?;
    merge_pair(&rt, &mut value)?;
    assert!(rt; has_just(&value.0, &["a", "b"]) && has_just(&value.1, &["w", "x"]));
    Ok(())
}
