ghost use Rattle.std.specs.Prelude.{◌≡◌, ℕ, List, Some, None, IfOk, IfSome, option_map, option_copied};
ghost use Rattle.std.specs.FinMap as map;
ghost use Rattle.std.specs.FinMap.{FinMap};
ghost use Rattle.oim_names.specs.Bindings.{Binding, uri_of};
ghost use Rattle.oim_value.specs.ValueOrder.{name_cmp};
ghost use Rattle.oim_report.specs.Names.{named};
ghost use Rattle.oim_report.specs.Sheet.{Sheet};
ghost use Rattle.oim_report.specs.code.Ranks.{IsRank, IsSpan};
ghost use Rattle.oim_report.specs.code.TextCache.{Adds, AreTextCaches, IsNameCache, kind_of, meaning};

use crate::concept_kind::ConceptKind;
use crate::dimension_kind::DimensionKind;
use crate::limits::{MOST_MEANING_BYTES, MOST_MEANINGS};
use crate::sheet::kind::Kind;
use crate::sheet::ranked_names::RankedNames;
use oim_dims::{Period, Unit};
use oim_names::{Aliases, Name, Text, split_name};
use std::alloc::{AllocError, Global};
use std::collections::{BTreeMap, HashMap};

/// A cache of texts and their meanings, so that a repeated text is not read again. The cache
/// contains copies of the texts, so it can outlive a piece of a report.
#[derive(Drop)]
pub(crate) struct TextCache<T> {
    alloc: Global,
    meanings: HashMap<String, T>,
}

impl<T> TextCache<T> {
    pub(crate) fn new(alloc: Global) -> Self
        ensures { (t : List ℕ) → meaning result t ≡ None }
    {
        let meanings = HashMap::new(alloc);
        TextCache { alloc, meanings }
    }

    pub(crate) fn is_full(&self) -> bool {
        self.meanings.len() >= MOST_MEANINGS
    }

    pub(crate) fn find(&self, text: &str) -> Option<&T>
        ensures { option_copied result ≡ meaning self.now text.now }
    {
        self.meanings.get(text)
    }
}

impl<T: Drop> TextCache<T> {
    /// Adds a text with its meaning. Nothing changes if the cache is full, if the text has more than
    /// `MOST_MEANING_BYTES` bytes, or after an error.
    #[tactic(auto, using(crate::proofs::TextCacheAdds::after_insert))]
    pub(crate) fn add(&mut self, text: &str, value: T) -> Result<(), AllocError>
        ensures { Adds self.old text.now value self.new }
    {
        if self.is_full() || text.len() > MOST_MEANING_BYTES {
            return Ok(());
        }
        let key = String::from_str(self.alloc, text)?;
        self.meanings.insert(key, value)?;
        Ok(())
    }
}

/// Finds which name of a sheet a text spells, under one set of prefixes. Spans are cached by prefix,
/// so that later names with the same prefix are found without a search by URI.
#[derive(Drop)]
pub(crate) struct NameCache<'s, K: Kind> {
    alloc: Global,
    /// The texts that spell a name of the sheet, each with the name, its kind and its rank.
    pub(crate) texts: TextCache<(&'s Name, K, usize)>,
    /// The bound prefixes that were looked up, each with the span of its namespace.
    pub(crate) spans: BTreeMap<String, (usize, usize)>,
}

impl<'s, K: Kind> NameCache<'s, K> {
    pub(crate) fn new(alloc: Global) -> Self
        ensures { (m : FinMap name_cmp K) (bs : List Binding) → IsNameCache m bs result }
    {
        NameCache {
            alloc,
            texts: TextCache::new(alloc),
            spans: BTreeMap::new(alloc),
        }
    }

    pub(crate) fn find(
        &mut self,
        names: &'s RankedNames<K>,
        aliases: &Aliases,
        text: &str,
    ) -> Result<Option<(&'s Name, K, usize)>, AllocError>
        requires known { IsNameCache names.now aliases.now self.old }
        ensures kind { IfOk result
            (λ found. option_map (λ e. e.1) found ≡ kind_of names.now aliases.now text.now) }
        ensures name { IfOk result
            (λ found. IfSome found (λ e. named aliases.now text.now ≡ Some e.0.now)) }
        ensures rank { IfOk result (λ found. IfSome found (λ e. IsRank names.now e.0.now e.2)) }
        ensures known { IsNameCache names.now aliases.now self.new }
    {
        if let Some(known) = self.texts.find(text) {
            return Ok(Some((known.0, known.1, known.2)));
        }
        let Ok((uri, local)) = aliases.resolve(text) else {
            return Ok(None);
        };
        let (prefix, _local) = split_name(text);
        let span = self.span(names, aliases, prefix, uri)?;
        let found = names.find_in(uri, span, local);
        if let Some((name, kind, rank)) = &found {
            self.texts.add(text, (*name, *kind, *rank))?;
        }
        Ok(found)
    }

    fn span(
        &mut self,
        names: &RankedNames<K>,
        aliases: &Aliases,
        prefix: &str,
        uri: &str,
    ) -> Result<(usize, usize), AllocError>
        requires known { IsNameCache names.now aliases.now self.old }
        requires bound { uri_of aliases.now prefix.now ≡ Some uri.now }
        ensures span { IfOk result (IsSpan (map.entries names.now) uri.now) }
        ensures known { IsNameCache names.now aliases.now self.new }
    {
        if let Some(known) = self.spans.get(prefix) {
            return Ok(*known);
        }
        let span = names.span(uri);
        let key = String::from_str(self.alloc, prefix)?;
        self.spans.insert(key, span)?;
        Ok(span)
    }
}

/// Caches of the meanings of texts, under one sheet and one set of prefixes.
pub(crate) struct TextCaches<'s> {
    pub(crate) concepts: NameCache<'s, ConceptKind>,
    pub(crate) dimensions: NameCache<'s, DimensionKind>,
    pub(crate) entities: TextCache<Name>,
    pub(crate) periods: TextCache<Period>,
    pub(crate) units: TextCache<Option<Unit>>,
    pub(crate) languages: TextCache<Text>,
    /// The members of explicit dimensions.
    pub(crate) members: TextCache<Name>,
}

// By hand, so that a drop is one call, which is faster to prove than a derived one.
impl Drop for TextCaches<'_> {
    fn drop(self) {
        let TextCaches {
            concepts: _,
            dimensions: _,
            entities: _,
            periods: _,
            units: _,
            languages: _,
            members: _,
        } = self;
    }
}

impl<'s> TextCaches<'s> {
    pub(crate) fn new(alloc: Global) -> Self
        ensures { (sheet : Sheet) (bs : List Binding) → AreTextCaches sheet bs result }
    {
        TextCaches {
            concepts: NameCache::new(alloc),
            dimensions: NameCache::new(alloc),
            entities: TextCache::new(alloc),
            periods: TextCache::new(alloc),
            units: TextCache::new(alloc),
            languages: TextCache::new(alloc),
            members: TextCache::new(alloc),
        }
    }

    /// Returns whether any cache of texts is full. If so, `FactReader::turn_to` replaces all
    /// caches.
    pub(crate) fn is_full(&self) -> bool {
        self.concepts.texts.is_full()
            || self.dimensions.texts.is_full()
            || self.entities.is_full()
            || self.periods.is_full()
            || self.units.is_full()
            || self.languages.is_full()
            || self.members.is_full()
    }
}
