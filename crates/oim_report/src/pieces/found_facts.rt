ghost use Rattle.std.specs.Prelude.{◌≡◌, ◌++◌, ◌∷◌, [], List, None, map, option_map, string_bytes, IfOk, OnOk};
ghost use Rattle.std.specs.BTreeMap.{insert_entry};
ghost use Rattle.std.specs.String.{string_cmp};
ghost use Rattle.oim_names.specs.Bindings.{Binding};
ghost use Rattle.serde_json.specs.Data.{Members, no_members};
ghost use Rattle.oim_report.specs.code.FoundFacts.{AreFound, is_above, rise_after};
ghost use Rattle.oim_report.specs.code.Ranks.{AreRanks};
ghost use Rattle.oim_report.specs.Pieces.{put_all};
ghost use Rattle.oim_report.specs.Sheet.{Sheet as ASheet};

use crate::pieces::texts::Texts;
use crate::unread::Unread;
use oim_dims::Fact;
use std::alloc::{AllocError, Global};
use std::collections::BTreeMap;

/// The facts of one or more pieces, with their identifiers: piece by piece, and within a piece in the
/// order of the text or of the identifiers. Identifiers may be repeated. For each fact, `ranks` has
/// the rank of its concept in the sheet.
#[derive(Drop)]
pub(crate) struct FoundFacts {
    pub(crate) identifiers: Texts,
    pub(crate) facts: Vec<Fact>,
    pub(crate) ranks: Vec<usize>,
}

// A fact with the rank of its concept.
type RankedFact = (Fact, usize);

impl FoundFacts {
    pub(crate) fn new(alloc: Global) -> FoundFacts
        ensures identifiers { result.identifiers ≡ [] }
        ensures facts { result.facts.items ≡ [] }
        ensures ranks { result.ranks.items ≡ [] }
    {
        FoundFacts {
            identifiers: Texts::new(alloc),
            facts: Vec::new(alloc),
            ranks: Vec::new(alloc),
        }
    }

    fn reserve(&mut self, count: usize) -> Result<(), AllocError>
        ensures identifiers { OnOk result (self.new.identifiers ≡ self.old.identifiers) }
        ensures facts { OnOk result (self.new.facts.items ≡ self.old.facts.items) }
        ensures ranks { OnOk result (self.new.ranks.items ≡ self.old.ranks.items) }
    {
        self.identifiers.reserve(count)?;
        self.facts.reserve(count)?;
        self.ranks.reserve(count)
    }

    /// Adds a fact at the end.
    pub(crate) fn push(
        &mut self,
        identifier: &str,
        fact: Fact,
        rank: usize,
    ) -> Result<(), AllocError>
        ensures identifiers { OnOk result (self.new.identifiers ≡ self.old.identifiers ++ identifier.now ∷ []) }
        ensures facts { OnOk result (self.new.facts.items ≡ self.old.facts.items ++ fact ∷ []) }
        ensures ranks { OnOk result (self.new.ranks.items ≡ self.old.ranks.items ++ rank ∷ []) }
    {
        self.facts.push(fact)?;
        self.identifiers.push(identifier)?;
        self.ranks.push(rank)?;
        Ok(())
    }

    /// Sorts the facts by their identifiers in byte order. If an identifier is repeated, only its
    /// last fact is kept.
    pub(crate) fn in_order(self, alloc: Global) -> Result<FoundFacts, Unread>
        ensures found { IfOk result (λ f. (sheet : ASheet) (bs : List Binding) (ms : Members) →
            AreFound sheet bs ms self.identifiers self.facts.items →
            AreFound sheet bs (put_all ms no_members) f.identifiers f.facts.items) }
        ensures ranks { IfOk result (λ f. (sheet : ASheet) →
            AreRanks sheet.concepts self.facts.items self.ranks.items → AreRanks sheet.concepts f.facts.items f.ranks.items) }
    {
        if rise(&self.identifiers) {
            return Ok(self);
        }
        let found = by_identifier(alloc, self)?;
        Ok(found_in(alloc, found)?)
    }
}

fn rise(identifiers: &Texts) -> bool
    ensures { result ≡ rise_after None identifiers.now }
{
    let mut last = None;
    for index in 0..identifiers.len() {
        let Some(identifier) = identifiers.get(index) else {
            return false;
        };
        if !is_above(last, identifier) {
            return false;
        }
        last = Some(identifier);
    }
    true
}

fn is_above(last: Option<&str>, identifier: &str) -> bool
    ensures { result ≡ is_above (option_map (λ l. l.now) last.entry) identifier.now }
{
    match last {
        Some(last) => last < identifier,
        None => true,
    }
}

fn by_identifier(alloc: Global, read: FoundFacts) -> Result<BTreeMap<String, RankedFact>, Unread>
    ensures found { IfOk result (λ m. (sheet : ASheet) (bs : List Binding) (ms : Members) →
        AreFound sheet bs ms read.identifiers read.facts.items →
        AreFound sheet bs (put_all ms no_members) (map (λ e. string_bytes e.0) m.entries) (map (λ e. e.1.0) m.entries)) }
    ensures ranks { IfOk result (λ m. (sheet : ASheet) →
        AreRanks sheet.concepts read.facts.items read.ranks.items →
        AreRanks sheet.concepts (map (λ e. e.1.0) m.entries) (map (λ e. e.1.1) m.entries)) }
{
    let mut found = BTreeMap::new(alloc);
    let mut facts = read.facts.into_iter();
    let mut ranks = read.ranks.into_iter();
    for index in 0..read.identifiers.len() {
        let Some(identifier) = read.identifiers.get(index) else {
            return Err(Unread::NeedsTree);
        };
        let identifier = String::from_str(alloc, identifier)?;
        let Some(fact) = facts.next() else {
            return Err(Unread::NeedsTree);
        };
        let Some(rank) = ranks.next() else {
            return Err(Unread::NeedsTree);
        };
        put(&mut found, identifier, (fact, rank))?;
    }
    Ok(found)
}

// The function is generic because its proof takes long for a fact, which has many parts to drop.
fn put<T: Drop>(
    found: &mut BTreeMap<String, T>,
    identifier: String,
    item: T,
) -> Result<(), AllocError>
    ensures { OnOk result (found.new.entries ≡ insert_entry string_cmp found.old.entries identifier item) }
{
    found.insert(identifier, item)?;
    Ok(())
}

fn found_in(alloc: Global, found: BTreeMap<String, RankedFact>) -> Result<FoundFacts, AllocError>
    ensures { IfOk result (λ f. (f.identifiers ≡ map (λ e. string_bytes e.0) found.entries)
        × (f.facts.items ≡ map (λ e. e.1.0) found.entries)
        × (f.ranks.items ≡ map (λ e. e.1.1) found.entries)) }
{
    let mut all = FoundFacts::new(alloc);
    all.reserve(found.len())?;
    for (identifier, (fact, rank)) in found {
        all.push(identifier.as_str(), fact, rank)?;
    }
    Ok(all)
}
