ghost use Rattle.std.specs.Prelude.{◌≡◌, ◌↔◌, ℕ, List, IfOk, OnOk, IsTrue};
ghost use Rattle.std.specs.FinMap as map;
ghost use Rattle.oim_report.specs.code.NameLists.{AreLists, IsInOrder, SharesUri, names_in};
ghost use Rattle.oim_report.specs.code.Ranks.{IsFound, IsSpan};

use crate::sheet::kind::Kind;
use oim_names::Name;
use std::alloc::{AllocError, Global};
use std::cmp::Ordering;
use std::collections::BTreeMap;
use std::marker::Model;

/// The concepts or the dimensions of a sheet with their kinds, in ascending order of names. The
/// rank of a name is its index, so ranks are ordered as names are. The names of one namespace are
/// adjacent: their indices are a span. A search for a span compares URIs of namespaces, not of
/// names: many names can share a long URI.
#[derive(Debug, Drop)]
pub(crate) struct RankedNames<K: Kind> {
    names: Vec<(Name, K)>,
    /// For each namespace, the index of its first name and the index after its last.
    spans: BTreeMap<String, (usize, usize)>,
}

impl<K: Kind> Model for RankedNames<K> {
    ghost use Rattle.std.specs.FinMap as map;
    ghost use Rattle.std.specs.FinMap.{FinMap};
    ghost use Rattle.std.specs.List.Sorted.{IsStrictlySortedBy};
    ghost use Rattle.std.specs.Map.{keys_of};
    ghost use Rattle.oim_value.specs.ValueOrder.{name_cmp};
    ghost use Rattle.oim_report.specs.code.Ranks.{AreSpans};
    ghost use Rattle.oim_report.specs.code.SheetCode.{name_table_code};

    ghost Value = { FinMap name_cmp K };

    ghost coded = { name_table_code K.code };

    ghost view = { λ a. map.from_entries a.names.items };

    ghost invariant = { λ a. IsStrictlySortedBy name_cmp (keys_of a.names.items) × AreSpans a.names.items a.spans };
}

impl<K: Kind> RankedNames<K> {
    pub(crate) fn new(alloc: Global) -> Self
        ensures { result ≡ map.empty }
    {
        RankedNames {
            names: Vec::new(alloc),
            spans: BTreeMap::new(alloc),
        }
    }

    /// Returns the names of the lists, of which each has the names of one namespace in any order. Of
    /// equal names the first is kept.
    pub(crate) fn of_lists(
        alloc: Global,
        lists: BTreeMap<String, Vec<(Name, K)>>,
    ) -> Result<Self, AllocError>
        requires { AreLists lists }
        ensures { IfOk result (λ names. names ≡ map.from_entries (names_in lists.entries)) }
    {
        let mut names = Vec::new(alloc);
        let mut spans = BTreeMap::new(alloc);
        for (uri, mut list) in lists {
            put_in_order(&mut list)?;
            let first = names.len();
            names.append(&mut list)?;
            spans.insert(uri, (first, names.len()))?;
        }
        Ok(RankedNames { names, spans })
    }

    pub(crate) fn len(&self) -> usize
        ensures { result ≡ map.len self.now }
    {
        self.names.len()
    }

    /// Returns the span of a namespace's names, empty if there are none.
    pub(crate) fn span(&self, uri: &str) -> (usize, usize)
        ensures { IsSpan (map.entries self.now) uri.now result }
    {
        match self.spans.get(uri) {
            Some(span) => *span,
            None => (0, 0),
        }
    }

    /// Finds a name of the namespace with this span. Returns the name with its kind and its rank.
    pub(crate) fn find_in(
        &self,
        _uri: &str,
        span: (usize, usize),
        local: &str,
    ) -> Option<(&Name, K, usize)>
        requires { IsSpan (map.entries self.now) _uri.now span }
        ensures { IsFound self.now (record { uri = _uri.now; local_part = local.now }) result }
    {
        let names = self.names.as_slice();
        let (mut low, mut high) = span;
        while low < high {
            let middle = low + (high - low) / 2;
            let entry = &names[middle];
            match entry.0.local().cmp(local) {
                Ordering::Less => low = middle + 1,
                Ordering::Equal => return Some((&entry.0, entry.1, middle)),
                Ordering::Greater => high = middle,
            }
        }
        None
    }

    pub(crate) fn find(&self, uri: &str, local: &str) -> Option<(&Name, K, usize)>
        ensures { IsFound self.now (record { uri = uri.now; local_part = local.now }) result }
    {
        self.find_in(uri, self.span(uri), local)
    }

    pub(crate) fn same_as(&self, other: &Self) -> bool
        ensures { IsTrue result ↔ (self.now ≡ other.now) }
    {
        let names = self.names.as_slice();
        let others = other.names.as_slice();
        if names.len() != others.len() {
            return false;
        }
        for (i, entry) in names.iter().enumerate() {
            if !is_same(entry, &others[i]) {
                return false;
            }
        }
        true
    }
}

fn is_same<K: Kind>(one: &(Name, K), other: &(Name, K)) -> bool
    ensures { IsTrue result ↔ (one.now ≡ other.now) }
{
    one.0 == other.0 && one.1.is(other.1)
}

// Names of one namespace are compared by their local parts, because a URI may be long. A stable sort
// needs few comparisons for runs of names that ascend.
fn put_in_order<K: Kind>(names: &mut Vec<(Name, K)>) -> Result<(), AllocError>
    ensures { OnOk result ((u : List ℕ) → SharesUri u names.old.items → IsInOrder u names.old.items names.new.items) }
{
    names.sort_by(|one, other| one.0.local().cmp(other.0.local()))?;
    names.dedup_by(|one, other| one.0.local() == other.0.local());
    Ok(())
}
