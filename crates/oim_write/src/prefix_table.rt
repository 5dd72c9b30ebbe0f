ghost use Rattle.std.specs.Prelude.{◌≡◌, ◌++◌, false, length, map, IfOk, OnOk, string_bytes};
ghost use Rattle.oim_names.specs.Bindings.{bound, is_refused_binding};
ghost use Rattle.fact_base.specs.Body.{text_cmp};
ghost use Rattle.fact_base.specs.Passed.{IsSet};
ghost use Rattle.oim_write.specs.Prefixes.{bindings_of};
ghost use Rattle.oim_write.specs.Rank.{rank, width};
ghost use Rattle.oim_write.specs.Tree.{prefix};
ghost use Rattle.oim_write.specs.Uris.{uris};

use crate::labels::{LABEL_CAPACITY, push_label, width_of};
use crate::uri_set::UriSet;
use fact_base::Base;
use oim_dims::Spelling;
use oim_names::{Aliases, Name, PositionCache, Reason, Text};
use std::alloc::{AllocError, Global};
use std::marker::Model;

/// The URIs of a base's names, in byte order. Each URI gets one prefix.
#[derive(Drop)]
pub(crate) struct PrefixTable {
    uris: Vec<Text>,
    // the prefixes, in the order of the URIs
    prefixes: Vec<String>,
    digits: usize,
    cache: PositionCache,
}

impl Model for PrefixTable {
    ghost use Rattle.std.specs.Prelude.{ℕ, List};
    ghost use Rattle.oim_write.specs.code.Table.{IsTable};

    ghost Value = { List (List ℕ) };

    ghost view = { λ t. t.uris.items };

    ghost invariant = { λ t. IsTable t.uris.items t.prefixes.items t.digits };
}

impl PrefixTable {
    pub(crate) fn of(alloc: Global, base: &Base<'_>) -> Result<PrefixTable, AllocError>
        ensures { IfOk result (λ table. table ≡ uris base.now.body.facts) }
    {
        let mut set = UriSet::new(alloc);
        let mut rows = base.rows();
        let mut known = 0;
        while let Some(row) = rows.next() {
            known = set.add_row(alloc, row, &rows, known)?;
        }
        let uris = set.into_uris();
        let digits = width_of(uris.len() as u128);
        let prefixes = prefixes_of(alloc, uris.as_slice(), digits)?;
        let cache = indices_of(uris.as_slice());
        Ok(PrefixTable {
            uris,
            prefixes,
            digits,
            cache,
        })
    }

    pub(crate) fn uris(&self) -> &[Text]
        ensures { result.now ≡ self.now }
    {
        self.uris.as_slice()
    }

    pub(crate) fn prefix(&self, alloc: Global, uri: &str) -> Result<String, AllocError>
        ensures { IfOk result (λ text. string_bytes text ≡ prefix self.now uri.now) }
    {
        let mut text = String::new(alloc);
        self.push_prefix(&mut text, uri)?;
        Ok(text)
    }

    // Few URIs share a class of the cache, so the cache usually has the index.
    pub(crate) fn push_prefix(&self, text: &mut String, uri: &str) -> Result<(), AllocError>
        ensures { OnOk result (string_bytes text.new ≡ string_bytes text.old ++ prefix self.now uri.now) }
    {
        let index = self.cache.index_of(uri);
        match self.uris.get(index) {
            Some(known) if known.as_str() == uri => text.push_str(self.prefixes[index].as_str()),
            _ => push_label(text, "n", self.digits, self.rank(uri)),
        }
    }

    fn rank(&self, uri: &str) -> u128
        ensures { result ≡ rank text_cmp uri.now self.now }
    {
        1 + self.uris.partition_point(|known| known.as_str() < uri) as u128
    }
}

impl Spelling for PrefixTable {
    ghost use Rattle.oim_write.specs.Tree.{name_text};

    ghost spelled = { name_text };

    fn push_name(&self, text: &mut String, name: &Name) -> Result<(), AllocError> {
        self.push_prefix(text, name.uri())?;
        text.push_str(":")?;
        text.push_str(name.local())
    }
}

fn prefixes_of(alloc: Global, uris: &[Text], digits: usize) -> Result<Vec<String>, AllocError>
    requires rises { IsSet text_cmp uris.now }
    requires digits { digits ≡ width (length uris.now) }
    ensures { IfOk result (λ prefixes. map string_bytes prefixes.items ≡ map (prefix uris.now) uris.now) }
{
    let mut prefixes = Vec::with_capacity(alloc, uris.len())?;
    for index in 0..uris.len() {
        let mut prefix = String::with_capacity(alloc, LABEL_CAPACITY)?;
        push_label(&mut prefix, "n", digits, 1 + index as u128)?;
        prefixes.push(prefix)?;
    }
    Ok(prefixes)
}

// Caches the indices of the URIs, except indices above 65,535. If several URIs share a class of the
// cache, only the last cached index remains.
fn indices_of(uris: &[Text]) -> PositionCache {
    let mut cache = PositionCache::new();
    for (index, uri) in uris.iter().enumerate() {
        cache.set(uri.as_str(), index);
    }
    cache
}

/// Returns the prefixes of the names in a base's text: `n1`, `n2` and so on, in the byte order of
/// their URIs. All numbers are padded with zeros to the same width (own). The prefix `xbrl`, which
/// the text also binds, is left out.
///
/// Errors: out of memory.
pub fn prefixes(alloc: Global, base: &Base<'_>) -> Result<Aliases, AllocError>
    ensures { IfOk result (λ aliases. aliases ≡ bindings_of (uris base.now.body.facts)) }
{
    // the contract of `sheet` states that the facts fit the sheet, so no URI is empty
    let _sheet = base.sheet();
    let table = PrefixTable::of(alloc, base)?;
    let mut aliases = Aliases::new(alloc);
    for uri in table.uris() {
        bind(alloc, &mut aliases, &table, uri.as_str())?;
    }
    Ok(aliases)
}

fn bind(
    alloc: Global,
    aliases: &mut Aliases,
    table: &PrefixTable,
    uri: &str,
) -> Result<(), AllocError>
    requires { is_refused_binding aliases.old (prefix table.now uri.now) uri.now ≡ false }
    ensures { OnOk result (aliases.new ≡ bound aliases.old (prefix table.now uri.now) uri.now) }
{
    let prefix = table.prefix(alloc, uri)?;
    match aliases.add(&prefix, uri) {
        Ok(()) => Ok(()),
        Err(Reason::OutOfMemory) => Err(AllocError),
        // the binding is not refused
        Err(_) => unreachable!(),
    }
}
