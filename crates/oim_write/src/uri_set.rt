ghost use Rattle.std.specs.Prelude.{◌≡◌, [], ◌∷◌, ◌++◌, Contains, flat_map, IfOk, IfSome, OnOk};
ghost use Rattle.std.specs.Bool.{OnTrue};
ghost use Rattle.std.specs.List.Sorted.{IsSorted};
ghost use Rattle.oim_value.specs.ValueOrder.{name_cmp};
ghost use Rattle.fact_base.specs.Body.{text_cmp};
ghost use Rattle.fact_base.specs.Passed.{IsSet};
ghost use Rattle.fact_base.specs.Sets.{set_of};
ghost use Rattle.fact_base.specs.Shown.{HoldForUris, rows_left, shown};
ghost use Rattle.oim_write.specs.Uris.{defined_names, entity_names, unit_names, value_names};
ghost use Rattle.oim_write.specs.code.Table.{Gains, ShareUri, row_names};

use fact_base::{Row, Rows};
use oim_dims::{Dimensions, Member};
use oim_names::{Name, PositionCache, Text};
use oim_value::Value;
use std::alloc::{AllocError, Global};
use std::marker::Model;

/// The URIs of names. Contracts see the distinct URIs in byte order. In memory, the list begins
/// with a sorted part. Later URIs follow in order of arrival and may be repeated. A URI is appended
/// unless the cache or a search of the sorted part finds it. Once the list is slightly more than
/// twice as long as its sorted part, the list is sorted and its repeats are removed.
#[derive(Drop)]
pub(crate) struct UriSet {
    uris: Vec<Text>,
    ordered: usize,
    cache: PositionCache,
}

impl Model for UriSet {
    ghost use Rattle.std.specs.Prelude.{◌≤◌, ℕ, List, vec_len};
    ghost use Rattle.fact_base.specs.Body.{text_cmp};
    ghost use Rattle.fact_base.specs.Sets.{set_of};

    ghost Value = { List (List ℕ) };

    ghost view = { λ s. set_of text_cmp s.uris.items };

    ghost invariant = { λ s. s.ordered ≤ vec_len s.uris };
}

impl UriSet {
    pub(crate) fn new(alloc: Global) -> UriSet
        ensures { result ≡ [] }
    {
        UriSet {
            uris: Vec::new(alloc),
            ordered: 0,
            cache: PositionCache::new(),
        }
    }

    pub(crate) fn into_uris(self) -> Vec<Text>
        ensures uris { result.items ≡ self }
        ensures rises { IsSet text_cmp result.items }
    {
        let mut uris = self.uris;
        put_in_order(&mut uris);
        uris
    }

    /// Adds the URIs of all names in a row. `rows` has the rows after it. URIs of concepts may be
    /// long, so `known` counts the next rows, from this row on, whose concepts' URIs the set contains
    /// already. If it is at least 1, this row's concept is skipped. Returns that number for `rows`.
    pub(crate) fn add_row(
        &mut self,
        alloc: Global,
        row: Row<'_>,
        rows: &Rows<'_>,
        known: usize,
    ) -> Result<usize, AllocError>
        requires { HoldForUris (Contains self.old) known (shown row ∷ rows_left rows.now) }
        ensures gains { OnOk result (Gains self.old (row_names (shown row.entry)) self.new) }
        ensures known { IfOk result (λ known. HoldForUris (Contains self.new) known (rows_left rows.now)) }
    {
        self.add_others(alloc, row.dimensions, row.values)?;
        if known > 0 {
            return Ok(known - 1);
        }
        let concept = row.dimensions.concept();
        self.add(alloc, concept)?;
        Ok(rows.uri_run(concept.uri()))
    }

    // Adds the URIs of all names except the concept.
    fn add_others(
        &mut self,
        alloc: Global,
        dimensions: &Dimensions,
        values: &[Value],
    ) -> Result<(), AllocError>
        ensures { let d = dimensions.now in
            let others = entity_names d.entity ++ (unit_names d.unit ++ flat_map defined_names d.members) in
            OnOk result (Gains self.old (others ++ flat_map value_names values.now) self.new) }
    {
        self.add_entity(alloc, dimensions)?;
        self.add_unit(alloc, dimensions)?;
        self.add_members(alloc, dimensions.members())?;
        self.add_values(alloc, values)
    }

    fn add_entity(&mut self, alloc: Global, dimensions: &Dimensions) -> Result<(), AllocError>
        ensures { OnOk result (Gains self.old (entity_names dimensions.now.entity) self.new) }
    {
        match dimensions.entity() {
            Some(entity) => self.add(alloc, entity),
            None => Ok(()),
        }
    }

    fn add_unit(&mut self, alloc: Global, dimensions: &Dimensions) -> Result<(), AllocError>
        ensures { OnOk result (Gains self.old (unit_names dimensions.now.unit) self.new) }
    {
        match dimensions.unit() {
            Some(unit) => {
                unit.known();
                self.add_measures(alloc, unit.numerators())?;
                self.add_measures(alloc, unit.denominators())
            }
            None => Ok(()),
        }
    }

    // If all measures have one URI, which may be long, it is looked up once.
    fn add_measures(&mut self, alloc: Global, names: &[Name]) -> Result<(), AllocError>
        requires { IsSorted name_cmp names.now }
        ensures { OnOk result (Gains self.old names.now self.new) }
    {
        match sharing_uri(names) {
            Some(name) => self.add(alloc, name),
            None => self.add_each(alloc, names),
        }
    }

    fn add_each(&mut self, alloc: Global, names: &[Name]) -> Result<(), AllocError>
        ensures { OnOk result (Gains self.old names.now self.new) }
    {
        for name in names {
            self.add(alloc, name)?;
        }
        Ok(())
    }

    fn add_members(&mut self, alloc: Global, members: &[(Name, Member)]) -> Result<(), AllocError>
        ensures { OnOk result (Gains self.old (flat_map defined_names members.now) self.new) }
    {
        for (name, member) in members {
            self.add(alloc, name)?;
            if let Member::Name(name) = member {
                self.add(alloc, name)?;
            }
        }
        Ok(())
    }

    fn add_values(&mut self, alloc: Global, values: &[Value]) -> Result<(), AllocError>
        ensures { OnOk result (Gains self.old (flat_map value_names values.now) self.new) }
    {
        for value in values {
            if let Value::Name(name) = value {
                self.add(alloc, name)?;
            }
        }
        Ok(())
    }

    // For most names, the cache has the index of the URI, so no memory is requested.
    fn add(&mut self, alloc: Global, name: &Name) -> Result<(), AllocError>
        ensures { OnOk result (Gains self.old (name.now ∷ []) self.new) }
    {
        let uri = name.uri();
        if self.is_at(self.cache.index_of(uri), uri) {
            return Ok(());
        }
        let index = self.put(alloc, name)?;
        self.cache.set(uri, index);
        Ok(())
    }

    fn is_at(&self, index: usize, uri: &str) -> bool
        ensures { OnTrue result (Contains self.now uri.now) }
    {
        match self.uris.get(index) {
            Some(known) => known.as_str() == uri,
            None => false,
        }
    }

    // Adds the URI unless the sorted part contains it, and returns its index. The index may be
    // wrong if the list is sorted afterwards, so `is_at` checks each cached index.
    fn put(&mut self, alloc: Global, name: &Name) -> Result<usize, AllocError>
        ensures { OnOk result (Gains self.old (name.now ∷ []) self.new) }
    {
        let uri = name.uri();
        let index = self.search(uri);
        if self.is_at(index, uri) {
            return Ok(index);
        }
        self.append(alloc, name)
    }

    // Returns where the URI is in the sorted part, or where it could be inserted.
    fn search(&self, uri: &str) -> usize {
        self.uris[..self.ordered].partition_point(|known| known.as_str() < uri)
    }

    fn append(&mut self, alloc: Global, name: &Name) -> Result<usize, AllocError>
        ensures { OnOk result (Gains self.old (name.now ∷ []) self.new) }
    {
        let index = self.uris.len();
        self.uris.push(Text::new(alloc, name.uri())?)?;
        if index / 2 > self.ordered {
            put_in_order(&mut self.uris);
            self.ordered = self.uris.len();
        }
        Ok(index)
    }
}

fn put_in_order(texts: &mut Vec<Text>)
    ensures { texts.new.items ≡ set_of text_cmp texts.old.items }
{
    texts.sort_unstable();
    texts.dedup();
}

// Returns the first name if all have its URI. The names ascend, so only the last is compared.
fn sharing_uri(names: &[Name]) -> Option<&Name>
    requires { IsSorted name_cmp names.now }
    ensures { IfSome result (λ name. ShareUri name.now names.now) }
{
    let last = names.len().checked_sub(1)?;
    let first = &names[0];
    if first.uri() == names[last].uri() {
        return Some(first);
    }
    None
}
