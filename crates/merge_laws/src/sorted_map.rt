ghost use Rattle.std.specs.Prelude.{◌≡◌, ◌<◌, ◌≤◌, ◌++◌, [], length, reverse, slice_get, vec_len, vec_capacity, IfOk, OnOk, OnErr};
ghost use Rattle.std.specs.Option.{option_copied, option_map};
ghost use Rattle.std.specs.List.{AllByRecursion, AllWithin};
ghost use Rattle.std.specs.declared.cmp.Ordering.TheVariants.{Less as Below};
ghost use Rattle.merge_laws.specs.code.Insertions.{IsFirstLeast, inserted, new_items, new_values, with_values};
ghost use Rattle.merge_laws.specs.Sorted.{IsMap, IsRising, entry_key, value_at};
ghost use Rattle.merge_laws.specs.Union.{map_union, map_with};

use crate::insertion::{insert_all, room_for};
use crate::merge::Merge;
use crate::search::{find, find_from};
use oim_names::{Copied, Key, copies_of};
use std::alloc::{AllocError, Global};
use std::marker::Model;

/// A map whose values merge. Contracts see its entries in the order of their keys, each key once.
#[derive(Drop)]
pub struct SortedMap<K: Key, V: Merge> {
    entries: Vec<(K, V)>,
}

impl<K: Key, V: Merge> Model for SortedMap<K, V> {
    ghost use Rattle.std.specs.Prelude.{List};
    ghost use Rattle.merge_laws.specs.Sorted.{IsMap};

    ghost Value = { List (K × V) };

    ghost view = { λ a. a.entries.items };

    ghost invariant = { λ a. IsMap K.cmp V.is_known a.entries.items };
}

impl<K: Key, V: Merge> SortedMap<K, V> {
    /// Returns an empty map. Later calls allocate from `alloc`.
    pub fn new(alloc: Global) -> Self
        ensures { result ≡ [] }
    {
        SortedMap::of_rising(Vec::new(alloc))
    }

    /// Returns the map of the entries, which must be in the order of their keys, each key once.
    pub fn of_rising(entries: Vec<(K, V)>) -> Self
        requires { IsRising K.cmp entry_key entries.items }
        ensures { result ≡ entries.items }
    {
        know_values(entries.as_slice());
        SortedMap { entries }
    }

    /// Merges `value` into the value at `key`. If the key is new, adds copies of `key` and `value`.
    ///
    /// Errors: out of memory; the map is then unchanged.
    pub fn put(&mut self, key: &K, value: &V) -> Result<(), AllocError>
        ensures ok { OnOk result (self.new ≡ map_with K.cmp V.merged key.now value.now self.old) }
        ensures err { OnErr result (self.new ≡ self.old) }
    {
        value.known();
        let alloc = *self.entries.allocator();
        match find(self.entries.as_slice(), key) {
            Ok(index) => self.entries[index].1.merge(alloc, value),
            Err(index) => {
                let entry = (key.copied(alloc)?, value.copied(alloc)?);
                self.entries.insert(index, entry)?;
                Ok(())
            }
        }
    }

    /// Merges the other map into this one, as `merge` does, but consumes the other map. Its new
    /// keys and all its values are moved, not copied.
    ///
    /// Errors: out of memory; the map is then unchanged, and the other map is lost.
    pub fn absorb(&mut self, other: Self) -> Result<(), AllocError>
        ensures ok { OnOk result (self.new ≡ map_union K.cmp V.merged self.old other) }
        ensures err { OnErr result (self.new ≡ self.old) }
    {
        if self.entries.is_empty() {
            self.entries = other.entries;
            return Ok(());
        }
        let alloc = *self.entries.allocator();
        let moved = changes_of(alloc, self.entries.as_slice(), other.entries)?;
        moved.make(&mut self.entries)
    }

    /// Returns the value at a key, or None.
    ///
    /// Among n keys, this takes about log n comparisons.
    pub fn get(&self, key: &K) -> Option<&V>
        ensures { option_copied result ≡ value_at K.cmp key.now self.now }
    {
        match find(self.entries.as_slice(), key) {
            Ok(index) => Some(&self.entries[index].1),
            Err(_) => None,
        }
    }

    /// Does the same as `get`, but searches from `near`, and sets `near` to the index after the key. So
    /// each of several ascending keys is found in few steps. Any value of `near` is right.
    pub fn get_near(&self, key: &K, near: &mut usize) -> Option<&V>
        ensures { option_copied result ≡ value_at K.cmp key.now self.now }
    {
        let from = start_of(self.entries.as_slice(), key, *near);
        match find_from(self.entries.as_slice(), key, from) {
            Ok(index) => {
                *near = index + 1;
                Some(&self.entries[index].1)
            }
            Err(index) => {
                *near = index;
                None
            }
        }
    }

    /// Returns the entry at an index, or None. Indices start at 0, in the order of the keys.
    pub fn at(&self, index: usize) -> Option<(&K, &V)>
        ensures { option_map (λ e. (e.0.now, e.1.now)) result ≡ slice_get self.now index }
    {
        match self.entries.get(index) {
            Some((key, value)) => Some((key, value)),
            None => None,
        }
    }

    /// Returns the number of keys. The contract also states that the keys ascend and that each
    /// value has the property `is_known`.
    pub fn len(&self) -> usize
        ensures count { result ≡ length self.now }
        ensures map { IsMap K.cmp V.is_known self.now }
    {
        self.entries.len()
    }
}

impl<K: Key, V: Merge> Copied for SortedMap<K, V> {
    fn copied(&self, alloc: Global) -> Result<Self, AllocError> {
        Ok(SortedMap {
            entries: copies_of(alloc, self.entries.as_slice(), 0)?,
        })
    }
}

// Returns an index near `near` with only lesser keys before it, or 0.
fn start_of<K: Key, V: Merge>(entries: &[(K, V)], key: &K, near: usize) -> usize
    requires { IsRising K.cmp entry_key entries.now }
    ensures within { result ≤ length entries.now }
    ensures below { AllWithin (λ e. K.cmp e.0 key.now ≡ Below) entries.now 0 result }
{
    let before = near.saturating_sub(1);
    match entries.get(before) {
        Some(entry) if entry.0.cmp(key).is_lt() => before + 1,
        _ => 0,
    }
}

// Does nothing. The contract states that each value has the property `is_known`.
fn know_values<K, V: Merge>(entries: &[(K, V)])
    ensures { AllByRecursion (λ e. V.is_known e.1) entries.now }
{
    for entry in entries {
        entry.1.known();
    }
}

/// A merged map has the keys of both maps.
impl<K: Key, V: Merge> Merge for SortedMap<K, V> {
    ghost use Rattle.merge_laws.specs.Sorted.{IsMap};
    ghost use Rattle.merge_laws.specs.Union.{map_union};
    ghost use Rattle.merge_laws.specs.code.UnionLaws.{map_closed, map_associates, map_commutes, map_idempotent};

    ghost is_known = { IsMap K.cmp V.is_known };

    ghost merged = { map_union K.cmp V.merged };

    ghost closed = { map_closed K.total V.is_known V.merged V.closed };

    ghost associative = { map_associates K.total V.is_known V.merged V.associative };

    ghost commutative = { map_commutes K.total V.is_known V.merged K.exact V.commutative };

    ghost idempotent = { map_idempotent K.total V.is_known V.merged V.idempotent };

    fn merge(&mut self, alloc: Global, other: &Self) -> Result<(), AllocError> {
        let changes = changes_by(alloc, self.entries.as_slice(), other.entries.as_slice())?;
        changes.make(&mut self.entries)
    }

    fn known(&self) {
        let _entries = &self.entries;
    }
}

/// The changes to a map when another map is merged into it.
#[derive(Drop)]
struct Changes<K: Drop, V: Drop> {
    /// The merged values of the keys that both maps have, each with the index of its key.
    values: Vec<(usize, V)>,
    /// The entries with new keys, each with the index in the old entries at which it is inserted.
    new_entries: Vec<(usize, (K, V))>,
}

// Copies the own values at common keys, and the other entries with new keys.
fn changes_by<K: Key, V: Merge>(
    alloc: Global,
    entries: &[(K, V)],
    others: &[(K, V)],
) -> Result<Changes<K, V>, AllocError>
    requires entries { IsRising K.cmp entry_key entries.now }
    requires others { IsRising K.cmp entry_key others.now }
    ensures values { IfOk result (λ changes. changes.values.items ≡ new_values K.cmp V.merged entries.now others.now) }
    ensures new_entries { IfOk result (λ changes. changes.new_entries.items ≡ new_items K.cmp entry_key entries.now others.now) }
{
    let mut changes = Changes {
        values: Vec::new(alloc),
        new_entries: Vec::new(alloc),
    };
    let mut from = 0;
    for other in others {
        match find_from(entries, &other.0, from) {
            Ok(index) => {
                let mut value = entries[index].1.copied(alloc)?;
                value.merge(alloc, &other.1)?;
                changes.values.push((index, value))?;
                from = index + 1;
            }
            Err(index) => {
                changes.new_entries.push((index, other.copied(alloc)?))?;
                from = index;
            }
        }
    }
    Ok(changes)
}

// Does the same as `changes_by`, but consumes the other entries, so that none of them is copied.
fn changes_of<K: Key, V: Merge>(
    alloc: Global,
    entries: &[(K, V)],
    others: Vec<(K, V)>,
) -> Result<Changes<K, V>, AllocError>
    requires entries { IsRising K.cmp entry_key entries.now }
    requires others { IsRising K.cmp entry_key others.items }
    ensures values { IfOk result (λ changes. changes.values.items ≡ new_values K.cmp V.merged entries.now others.items) }
    ensures new_entries { IfOk result (λ changes. changes.new_entries.items ≡ new_items K.cmp entry_key entries.now others.items) }
{
    // A list that grows holds its items twice for a moment.
    let mut changes = Changes {
        values: Vec::new(alloc),
        new_entries: Vec::with_capacity(alloc, others.len())?,
    };
    let mut from = 0;
    for other in others {
        let (key, mut value) = other;
        match find_from(entries, &key, from) {
            Ok(index) => {
                let own = &entries[index].1;
                own.known();
                value.known();
                value.merge(alloc, own)?;
                changes.values.push((index, value))?;
                from = index + 1;
            }
            Err(index) => {
                changes.new_entries.push((index, (key, value)))?;
                from = index;
            }
        }
    }
    Ok(changes)
}

impl<K: Drop, V: Drop> Changes<K, V> {
    fn make(self, entries: &mut Vec<(K, V)>) -> Result<(), AllocError>
        requires values { AllByRecursion (λ c. c.0 < vec_len entries.old) self.values.items }
        requires new_entries { IsFirstLeast (vec_len entries.old) self.new_entries.items }
        ensures ok { OnOk result (entries.new.items ≡ inserted (with_values entries.old.items self.values.items) (reverse self.new_entries.items)) }
        ensures err { OnErr result (entries.new.items ≡ entries.old.items) }
    {
        let order = room_for(entries, self.new_entries.as_slice())?;
        set_values(entries, self.values);
        insert_all(entries, self.new_entries, order);
        Ok(())
    }
}

fn set_values<K: Drop, V: Drop>(entries: &mut Vec<(K, V)>, values: Vec<(usize, V)>)
    requires { AllByRecursion (λ c. c.0 < vec_len entries.old) values.items }
    ensures items { entries.new.items ≡ with_values entries.old.items values.items }
    ensures len { vec_len entries.new ≡ vec_len entries.old }
    ensures storage { vec_capacity entries.new ≡ vec_capacity entries.old }
{
    for (index, value) in values {
        entries[index].1 = value;
    }
}
