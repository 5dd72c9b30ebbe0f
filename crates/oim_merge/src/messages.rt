ghost use Rattle.std.specs.Prelude.{◌≡◌, ◌<◌, ◌≤◌, [], ◌∷◌, ◌++◌, length, MatchResult, IfOk, OnOk};
ghost use Rattle.std.specs.List.{slice_index_or};
ghost use Rattle.oim_report.specs.Outcome.{outcome};
ghost use Rattle.oim_report.specs.Sheet.{Sheet as SheetSeen};
ghost use Rattle.oim_merge.specs.code.Held.{AreHeld, IsCurrent, IsTextAt, Stay, sent_texts};
ghost use Rattle.oim_merge.specs.Replicas.{with_outcome};
ghost use Rattle.oim_write.specs.Bytes.{canonical};

use crate::readings::{Reading, none_read, take_at};
use fact_base::BaseBuilder;
use oim_names::Encoded;
use oim_report::Sheet;
use oim_write::text;
use std::alloc::{AllocError, Global};
use std::cmp::Ordering;

/// The sent texts in order. Equal texts are stored once. Contracts guarantee that a text
/// found by `find` is equal, but not that `find` finds each equal text. If `find` misses a text,
/// this costs only memory and time.
#[derive(Drop)]
pub(crate) struct Messages<'s> {
    /// The distinct texts, in the order of first sending.
    pub texts: Vec<Encoded>,
    /// For each distinct text, the cached result of reading it.
    pub kept: Vec<Reading<'s>>,
    /// The indices in `texts`, ordered by the length of the texts, then by their bytes.
    pub order: Vec<usize>,
    /// For each sent text, its index among the distinct texts.
    pub sent: Vec<usize>,
    /// The length of all texts that `kept` has a result for, in bytes.
    pub kept_bytes: usize,
}

// The greatest length of several texts whose readings are cached together, in bytes. A longer text
// is cached alone. A base takes a few times as much memory as its text.
const MOST_KEPT_BYTES: usize = 8_000_000;

impl<'s> Messages<'s> {
    pub(crate) fn new(alloc: Global) -> Messages<'s>
        ensures sent { sent_texts result ≡ [] }
        ensures held { (sheet : SheetSeen) → AreHeld sheet result }
    {
        Messages {
            texts: Vec::new(alloc),
            kept: Vec::new(alloc),
            order: Vec::new(alloc),
            sent: Vec::new(alloc),
            kept_bytes: 0,
        }
    }

    /// Sends the text of a base and stores its index in `current`. If `current` already has an
    /// index, the text is not written again.
    ///
    /// Errors: out of memory.
    pub(crate) fn send(
        &mut self,
        alloc: Global,
        base: &mut BaseBuilder<'_>,
        current: &mut Option<usize>,
    ) -> Result<(), AllocError>
        requires held { AreHeld base.old.sheet self.old }
        requires current { IsCurrent self.old.texts.items base.old current.old }
        ensures base { OnOk result (base.new ≡ base.old) }
        ensures sent { OnOk result (sent_texts self.new ≡ sent_texts self.old ++ canonical base.old.body ∷ []) }
        ensures held { OnOk result (AreHeld base.old.sheet self.new) }
        ensures current { OnOk result (IsCurrent self.new.texts.items base.old current.new) }
        ensures stay { OnOk result (Stay self.old.texts.items self.new.texts.items) }
    {
        let index = self.intern(alloc, base, *current)?;
        self.sent.push(index)?;
        *current = Some(index);
        Ok(())
    }

    // Returns the index of the base's text among the distinct texts, and adds the text if it is new.
    fn intern(
        &mut self,
        alloc: Global,
        base: &mut BaseBuilder<'_>,
        current: Option<usize>,
    ) -> Result<usize, AllocError>
        requires held { AreHeld base.old.sheet self.old }
        requires current { IsCurrent self.old.texts.items base.old current }
        ensures base { OnOk result (base.new ≡ base.old) }
        ensures index { IfOk result (IsTextAt self.new.texts.items (canonical base.old.body)) }
        ensures sent { OnOk result (sent_texts self.new ≡ sent_texts self.old) }
        ensures held { OnOk result (AreHeld base.old.sheet self.new) }
        ensures stay { OnOk result (Stay self.old.texts.items self.new.texts.items) }
    {
        if let Some(index) = current {
            return Ok(index);
        }
        let text = text_of(alloc, base)?;
        // the contract of `sheet` states that the base fits the sheet, as `AreHeld` requires of a new
        // text
        let _sheet = base.sheet();
        match self.find(&text) {
            Ok(index) => Ok(index),
            Err(at) => {
                let index = self.texts.len();
                self.order.insert(at, index)?;
                self.texts.push(text)?;
                self.kept.push(None)?;
                Ok(index)
            }
        }
    }

    /// The index in `texts` of an equal text, or the index in `order` at which to insert the index
    /// of a new text.
    fn find(&self, text: &Encoded) -> Result<usize, usize>
        ensures { MatchResult result
            (IsTextAt self.now.texts.items text.now)
            (λ at. at ≤ length self.now.order.items) }
    {
        let at = self
            .order
            .binary_search_by(|index| self.compare(*index, text))?;
        let index = self.order[at];
        match self.texts.get(index) {
            Some(known) if known.as_bytes() == text.as_bytes() => Ok(index),
            _ => Err(at),
        }
    }

    fn compare(&self, index: usize, text: &Encoded) -> Ordering {
        match self.texts.get(index) {
            Some(known) => {
                let (known, text) = (known.as_bytes(), text.as_bytes());
                known.len().cmp(&text.len()).then_with(|| known.cmp(text))
            }
            None => Ordering::Less,
        }
    }

    // Counts the text at `index` among those with cached readings. If these texts are too long
    // together, all cached readings are dropped.
    fn count_reading(&mut self, alloc: Global, index: usize) -> Result<(), AllocError>
        requires { index < length self.old.texts.items }
        ensures texts { self.new.texts ≡ self.old.texts }
        ensures sent { self.new.sent ≡ self.old.sent }
        ensures held { (sheet : SheetSeen) → AreHeld sheet self.old → OnOk result (AreHeld sheet self.new) }
    {
        if let Some(Some(_read)) = self.kept.get(index) {
            return Ok(());
        }
        let length = self.texts[index].as_bytes().len();
        self.kept_bytes = self.kept_bytes.saturating_add(length);
        if self.kept_bytes > MOST_KEPT_BYTES {
            self.kept_bytes = length;
            return self.drop_readings(alloc);
        }
        Ok(())
    }

    fn drop_readings(&mut self, alloc: Global) -> Result<(), AllocError>
        ensures texts { self.new.texts ≡ self.old.texts }
        ensures sent { self.new.sent ≡ self.old.sent }
        ensures held { (sheet : SheetSeen) → AreHeld sheet self.old → OnOk result (AreHeld sheet self.new) }
    {
        self.kept = none_read(alloc, self.texts.len())?;
        Ok(())
    }

    /// Adds the facts and references of the text at `sent_index` in `sent` to a base. The result of
    /// reading a text is cached as long as there is room. If the text is refused, the base does not
    /// change.
    ///
    /// Errors: out of memory.
    pub(crate) fn give(
        &mut self,
        alloc: Global,
        sheet: &'s Sheet,
        sent_index: usize,
        base: &mut BaseBuilder<'s>,
    ) -> Result<(), AllocError>
        requires index { sent_index < length self.old.sent.items }
        requires held { AreHeld sheet.now self.old }
        requires sheet { base.old.sheet ≡ sheet.now }
        ensures texts { self.new.texts ≡ self.old.texts }
        ensures sent { sent_texts self.new ≡ sent_texts self.old }
        ensures held { OnOk result (AreHeld sheet.now self.new) }
        ensures base { OnOk result (base.new
            ≡ with_outcome (outcome sheet.now (slice_index_or (sent_texts self.old) sent_index [])) base.old) }
    {
        let index = self.sent[sent_index];
        self.count_reading(alloc, index)?;
        take_at(
            alloc,
            sheet,
            self.texts.as_slice(),
            self.kept.as_mut_slice(),
            index,
            base,
        )?;
        Ok(())
    }

    /// Returns the index of the text at `sent_index` in `sent` if it is the text of this base, as far
    /// as its cached reading shows.
    pub(crate) fn index_if_of(&self, sent_index: usize, base: &BaseBuilder<'_>) -> Option<usize>
        requires index { sent_index < length self.now.sent.items }
        requires held { AreHeld base.now.sheet self.now }
        ensures { IsCurrent self.now.texts.items base.now result }
    {
        let index = self.sent[sent_index];
        match self.kept.get(index) {
            Some(Some(Ok(read))) if base.surely_same_as(read) => Some(index),
            _ => None,
        }
    }
}

// Returns the canonical text of a replica's base in no more memory than its bytes take. `text` may
// reserve twice as much.
fn text_of(alloc: Global, base: &mut BaseBuilder<'_>) -> Result<Encoded, AllocError>
    ensures base { OnOk result (base.new ≡ base.old) }
    ensures text { IfOk result (λ text. text ≡ canonical base.old.body) }
{
    let whole = base.take_base()?;
    let written = text(alloc, &whole)?;
    *base = BaseBuilder::of(alloc, whole);
    Encoded::new(alloc, written.as_bytes())
}
