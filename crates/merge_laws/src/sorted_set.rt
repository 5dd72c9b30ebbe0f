ghost use Rattle.std.specs.Prelude.{◌≡◌, ◌≤◌, [], ◌∷◌, length, not, reverse, IfOk, OnOk, OnErr};
ghost use Rattle.std.specs.List.{insert};
ghost use Rattle.merge_laws.specs.code.Insertions.{IsFirstLeast, inserted, new_items};
ghost use Rattle.merge_laws.specs.Sorted.{IsSet, has_key, itself};
ghost use Rattle.merge_laws.specs.Union.{set_union, set_with};

use crate::insertion::insert_new;
use crate::merge::Merge;
use crate::search::{find, find_from};
use oim_names::{Copied, Key, copies_of};
use std::alloc::{AllocError, Global};
use std::marker::Model;

/// A set. Contracts see its items in order, each once.
#[derive(Drop)]
pub struct SortedSet<T: Key> {
    items: Few<T>,
}

impl<T: Key> Model for SortedSet<T> {
    ghost use Rattle.std.specs.Prelude.{List};
    ghost use Rattle.merge_laws.specs.Sorted.{IsSet};

    ghost Value = { List T };

    ghost view = { λ a. a.items };

    ghost invariant = { λ a. IsSet T.cmp a.items };
}

impl<T: Key> SortedSet<T> {
    /// Returns an empty set. Later calls allocate from `alloc`.
    pub fn new(alloc: Global) -> Self
        ensures { result ≡ [] }
    {
        SortedSet {
            items: Few::many(Vec::new(alloc)),
        }
    }

    /// Returns the set of one item.
    ///
    /// The call does not allocate.
    pub fn of_one(alloc: Global, item: T) -> Self
        ensures { result ≡ item ∷ [] }
    {
        SortedSet {
            items: Few::one(alloc, item),
        }
    }

    /// Returns the set of the items, which must be in order, each once.
    pub fn of_rising(items: Vec<T>) -> Self
        requires { IsSet T.cmp items.items }
        ensures { result ≡ items.items }
    {
        SortedSet {
            items: Few::many(items),
        }
    }

    /// Inserts a copy of the item if the item is new, and returns whether it is new.
    ///
    /// Errors: out of memory; the set is then unchanged.
    pub fn insert(&mut self, item: &T) -> Result<bool, AllocError>
        ensures ok { OnOk result (self.new ≡ set_with T.cmp item.now self.old) }
        ensures new { IfOk result (λ new. new ≡ not (has_key T.cmp itself item.now self.old)) }
        ensures err { OnErr result (self.new ≡ self.old) }
    {
        match find(self.items.as_slice(), item) {
            Ok(_) => Ok(false),
            Err(index) => {
                let copy = item.copied(self.items.allocator())?;
                self.items.insert(index, copy)?;
                Ok(true)
            }
        }
    }

    /// Merges the other set into this one, as `merge` does, and drops the other set.
    ///
    /// Errors: out of memory; the set is then unchanged, and the other set is lost.
    pub fn absorb(&mut self, other: Self) -> Result<(), AllocError>
        ensures ok { OnOk result (self.new ≡ set_union T.cmp self.old other) }
        ensures err { OnErr result (self.new ≡ self.old) }
    {
        let alloc = self.items.allocator();
        self.merge(alloc, &other)
    }

    /// Returns the items in order, each once.
    pub fn as_slice(&self) -> &[T]
        ensures items { result.now ≡ self.now }
        ensures set { IsSet T.cmp self.now }
    {
        self.items.as_slice()
    }
}

impl<T: Key> Copied for SortedSet<T> {
    fn copied(&self, alloc: Global) -> Result<Self, AllocError> {
        Ok(SortedSet {
            items: self.items.copied(alloc)?,
        })
    }
}

fn new_among<T: Key>(
    alloc: Global,
    items: &[T],
    others: &[T],
) -> Result<Vec<(usize, T)>, AllocError>
    requires items { IsSet T.cmp items.now }
    requires others { IsSet T.cmp others.now }
    ensures { IfOk result (λ news. news.items ≡ new_items T.cmp itself items.now others.now) }
{
    let mut news = Vec::new(alloc);
    let mut from = 0;
    for other in others {
        match find_from(items, other, from) {
            Ok(index) => from = index + 1,
            Err(index) => {
                news.push((index, other.copied(alloc)?))?;
                from = index;
            }
        }
    }
    Ok(news)
}

/// Merging two sets gives their union.
impl<T: Key> Merge for SortedSet<T> {
    ghost use Rattle.merge_laws.specs.Sorted.{IsSet};
    ghost use Rattle.merge_laws.specs.Union.{set_union};
    ghost use Rattle.merge_laws.specs.code.UnionLaws.{set_closed, set_associates, set_commutes, set_idempotent};

    ghost is_known = { IsSet T.cmp };

    ghost merged = { set_union T.cmp };

    ghost closed = { set_closed T.total };

    ghost associative = { set_associates T.total };

    ghost commutative = { set_commutes T.total T.exact };

    ghost idempotent = { set_idempotent T.total };

    fn merge(&mut self, alloc: Global, other: &Self) -> Result<(), AllocError> {
        let news = new_among(alloc, self.items.as_slice(), other.items.as_slice())?;
        self.items.insert_new(news)
    }

    fn known(&self) {
        let _items = &self.items;
    }
}

/// A list that can store a single item without heap memory. Contracts see only the items.
#[derive(Drop)]
struct Few<T: Key> {
    storage: Storage<T>,
}

#[derive(Drop)]
enum Storage<T: Key> {
    One(Global, [T; 1]),
    Many(Vec<T>),
}

impl<T: Key> Model for Few<T> {
    ghost use Rattle.std.specs.Prelude.{List};
    ghost use Rattle.merge_laws.specs.code.Few.{items_of};

    ghost Value = { List T };

    ghost view = { λ a. items_of a.storage };
}

impl<T: Key> Few<T> {
    fn one(alloc: Global, item: T) -> Self
        ensures { result ≡ item ∷ [] }
    {
        Few {
            storage: Storage::One(alloc, [item]),
        }
    }

    fn many(items: Vec<T>) -> Self
        ensures { result ≡ items.items }
    {
        Few {
            storage: Storage::Many(items),
        }
    }

    fn as_slice(&self) -> &[T]
        ensures { result.now ≡ self.now }
    {
        match &self.storage {
            Storage::One(_alloc, item) => &item[..],
            Storage::Many(items) => items.as_slice(),
        }
    }

    fn allocator(&self) -> Global {
        match &self.storage {
            Storage::One(alloc, _item) => *alloc,
            Storage::Many(items) => *items.allocator(),
        }
    }

    fn insert(&mut self, index: usize, item: T) -> Result<(), AllocError>
        requires { index ≤ length self.old }
        ensures ok { OnOk result (self.new ≡ insert self.old index item) }
        ensures err { OnErr result (self.new ≡ self.old) }
    {
        if let Storage::Many(items) = &mut self.storage {
            items.insert(index, item)?;
            return Ok(());
        }
        let mut items = copies_of(self.allocator(), self.as_slice(), 1)?;
        items.insert(index, item)?;
        self.storage = Storage::Many(items);
        Ok(())
    }

    fn insert_new(&mut self, news: Vec<(usize, T)>) -> Result<(), AllocError>
        requires { IsFirstLeast (length self.old) news.items }
        ensures ok { OnOk result (self.new ≡ inserted self.old (reverse news.items)) }
        ensures err { OnErr result (self.new ≡ self.old) }
    {
        if news.is_empty() {
            return Ok(());
        }
        if let Storage::Many(items) = &mut self.storage {
            return insert_new(items, news);
        }
        let mut items = copies_of(self.allocator(), self.as_slice(), news.len())?;
        insert_new(&mut items, news)?;
        self.storage = Storage::Many(items);
        Ok(())
    }
}

impl<T: Key> Copied for Few<T> {
    fn copied(&self, alloc: Global) -> Result<Self, AllocError> {
        Ok(match &self.storage {
            Storage::One(_alloc, [item]) => Few::one(alloc, item.copied(alloc)?),
            Storage::Many(items) => Few::many(copies_of(alloc, items.as_slice(), 0)?),
        })
    }
}
