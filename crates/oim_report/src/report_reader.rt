ghost use Rattle.std.specs.Prelude.{◌≡◌, ◌⊎◌, Some, Ok, Err, IfOk, IfErr, IsTrue};
ghost use Rattle.serde_json.specs.View.{view};
ghost use Rattle.oim_report.specs.Document.{Document as ADocument, SaysDocument};
ghost use Rattle.oim_report.specs.Identifiers.{identifiers};
ghost use Rattle.oim_report.specs.Outcome.{at, outcome, tree_outcome};

use crate::document::duplicates::is_above;
use crate::document::identifiers::identifiers_of;
use crate::document::info::read_info;
use crate::fact_reader::{FactReader, read_facts};
use crate::json_values::json_tree::read_json;
use crate::order::order_of;
use crate::pieces::facts_in_pieces::read_facts_in_pieces;
use crate::pieces::found_facts::FoundFacts;
use crate::pieces::outline::read_json_outline;
use crate::pieces::piece_tape::PieceBuffers;
use crate::pieces::texts::Texts;
use crate::place::Place;
use crate::refusal::Refusal;
use crate::report::Report;
use crate::sheet::Sheet;
use crate::unread::Unread;
use oim_names::{Reason, Text};
use serde_json::Value;
use std::alloc::{AllocError, Global};
use std::marker::Model;

/// Reads a report under a sheet (xBRL-JSON 1.0; further conditions are our own).
///
/// Errors, the first that applies: `NotJson`; the lowest-numbered condition that applies to the
/// document; the lowest-numbered condition that applies to the first refused fact, in byte order of
/// the identifiers; `DisallowedDuplicates`. `OutOfMemory` may replace any result. The place of a
/// fact's condition is that fact. The place of all other errors is the document.
pub fn read_report<'s>(alloc: Global, sheet: &'s Sheet, bytes: &[u8]) -> Result<Report<'s>, Refusal>
    ensures ok { IfOk result (λ r. outcome sheet.now bytes.now ≡ Ok r.document) }
    ensures sheet { IfOk result (λ r. r.sheet ≡ sheet.now) }
    ensures said { IfOk result (λ r. SaysDocument sheet.now bytes.now r.document) }
    ensures errors { IfErr result
        (λ r. (r ≡ at Place.Document Reason.OutOfMemory) ⊎ (outcome sheet.now bytes.now ≡ Err r)) }
{
    ReportReader::new(alloc, sheet).read(bytes)
}

/// Returns `true` only if a report is accepted under a sheet (own). The result is `false` if the
/// report is refused, or if it cannot be read in pieces.
///
/// Unlike `read_report`, this parses at most one fact at a time as a tree.
///
/// Errors: out of memory.
pub fn is_accepted_in_pieces(alloc: Global, sheet: &Sheet, bytes: &[u8]) -> Result<bool, AllocError>
    ensures { IfOk result
        (λ accepted. IsTrue accepted → (d : ADocument) × (outcome sheet.now bytes.now ≡ Ok d)) }
{
    match ReportReader::stopping(alloc, sheet).read_in_pieces(bytes) {
        Ok(Ok(_read)) => Ok(true),
        Ok(Err(_)) | Err(Unread::NeedsTree) => Ok(false),
        Err(Unread::OutOfMemory) => Err(AllocError),
    }
}

/// Reads reports under one sheet, one after another. Reports often bind the same prefixes to the
/// same URIs, and then a text means the same in all these reports. So the reader caches the
/// meanings of texts, and facts of many reports share the memory of names. Before the facts of a
/// report are read, the caches are emptied if a cache is full, or if the report binds prefixes
/// differently than the last report whose facts were read. The reader also keeps buffers of at most
/// 3 MB for later reports. Contracts represent a reader by its sheet.
pub struct ReportReader<'s> {
    alloc: Global,
    facts: FactReader<'s>,
    buffers: PieceBuffers,
}

// By hand, so that a drop is one call, which is faster to prove than a derived one.
impl Drop for ReportReader<'_> {
    fn drop(self) {
        let ReportReader {
            alloc: _,
            facts: _,
            buffers: _,
        } = self;
    }
}

impl<'s> Model for ReportReader<'s> {
    ghost use Rattle.oim_report.specs.code.SheetCode.{sheet_code};
    ghost use Rattle.oim_report.specs.Sheet.{Sheet as ASheet};

    ghost Value = { ASheet };

    ghost coded = { sheet_code };

    ghost view = { λ r. r.facts.sheet };
}

impl<'s> ReportReader<'s> {
    /// Returns a reader for reports under this sheet. Later calls allocate from `alloc`.
    pub fn new(alloc: Global, sheet: &'s Sheet) -> ReportReader<'s>
        ensures { result ≡ sheet.now }
    {
        ReportReader {
            alloc,
            facts: FactReader::new(alloc, sheet),
            buffers: PieceBuffers::new(alloc),
        }
    }

    // Returns a reader that reads no fact after a refused one.
    fn stopping(alloc: Global, sheet: &'s Sheet) -> ReportReader<'s>
        ensures { result ≡ sheet.now }
    {
        let mut facts = FactReader::new(alloc, sheet);
        facts.stop_at_refused();
        ReportReader {
            alloc,
            facts,
            buffers: PieceBuffers::new(alloc),
        }
    }

    /// Returns the sheet under which reports are read.
    pub fn sheet(&self) -> &'s Sheet
        ensures { result.now ≡ self.now }
    {
        self.facts.sheet()
    }

    /// Reads a report as `read_report` does.
    ///
    /// Errors: as for `read_report`.
    #[tactic(auto, unfolding(crate::specs::Outcome::outcome))]
    pub fn read(&mut self, bytes: &[u8]) -> Result<Report<'s>, Refusal>
        ensures same { self.new ≡ self.old }
        ensures ok { IfOk result (λ r. outcome self.old bytes.now ≡ Ok r.document) }
        ensures sheet { IfOk result (λ r. r.sheet ≡ self.old) }
        ensures said { IfOk result (λ r. SaysDocument self.old bytes.now r.document) }
        ensures errors { IfErr result
            (λ r. (r ≡ at Place.Document Reason.OutOfMemory) ⊎ (outcome self.old bytes.now ≡ Err r)) }
    {
        match self.read_in_pieces(bytes) {
            Ok(Ok((report, _identifiers))) => return Ok(report),
            Ok(Err(refusal)) => return Err(refusal),
            Err(Unread::OutOfMemory) => return Err(Refusal::from(Reason::OutOfMemory)),
            Err(Unread::NeedsTree) => {}
        }
        let tree = read_json(self.alloc, bytes)?;
        self.read_tree(&tree)
    }

    /// Reads a report as `read` does, and its identifiers as `fact_identifiers` does (xBRL-JSON
    /// 1.0; further conditions are our own).
    ///
    /// Errors: as for `read`.
    #[tactic(auto, unfolding(crate::specs::Outcome::outcome))]
    pub fn read_identified(&mut self, bytes: &[u8]) -> Result<(Report<'s>, Vec<Text>), Refusal>
        ensures same { self.new ≡ self.old }
        ensures ok { IfOk result (λ read. outcome self.old bytes.now ≡ Ok read.0.document) }
        ensures sheet { IfOk result (λ read. read.0.sheet ≡ self.old) }
        ensures identifiers { IfOk result (λ read. identifiers bytes.now ≡ Some read.1.items) }
        ensures errors { IfErr result
            (λ r. (r ≡ at Place.Document Reason.OutOfMemory) ⊎ (outcome self.old bytes.now ≡ Err r)) }
    {
        match self.read_in_pieces(bytes) {
            Ok(Ok((report, identifiers))) => return Ok((report, identifiers.to_vec(self.alloc)?)),
            Ok(Err(refusal)) => return Err(refusal),
            Err(Unread::OutOfMemory) => return Err(Refusal::from(Reason::OutOfMemory)),
            Err(Unread::NeedsTree) => {}
        }
        let tree = read_json(self.alloc, bytes)?;
        let report = self.read_tree(&tree)?;
        let identifiers = identifiers_of(self.alloc, &tree)?;
        Ok((report, identifiers))
    }

    /// Does the same as `read` for a JSON value.
    pub(crate) fn read_tree(&mut self, tree: &Value) -> Result<Report<'s>, Refusal>
        ensures same { self.new ≡ self.old }
        ensures ok { IfOk result (λ r. tree_outcome self.old (Some (view tree.now)) ≡ Ok r.document) }
        ensures sheet { IfOk result (λ r. r.sheet ≡ self.old) }
        ensures errors { let said = tree_outcome self.old (Some (view tree.now)) in
            IfErr result (λ r. (r ≡ at Place.Document Reason.OutOfMemory) ⊎ (said ≡ Err r)) }
    {
        let alloc = self.alloc;
        let sheet = self.facts.sheet();
        let info = read_info(alloc, tree)?;
        self.facts.turn_to(info.aliases);
        let facts = read_facts(&mut self.facts, tree)?;
        let order = order_of(alloc, facts.as_slice(), &[])?;
        if is_above(info.level, facts.as_slice(), order.as_slice()) {
            return Err(Refusal::from(Reason::DisallowedDuplicates));
        }
        Ok(Report::new(sheet, facts, info.references, info.level, order))
    }

    /// Does the same as `read_identified`, but parses the facts in pieces. Only one piece at a time
    /// is held as a tape, and one fact as a tree. The result is `NeedsTree` if the text cannot be
    /// read in pieces, or if a condition applies to the document.
    fn read_in_pieces(
        &mut self,
        bytes: &[u8],
    ) -> Result<Result<(Report<'s>, Texts), Refusal>, Unread>
        ensures same { self.new ≡ self.old }
        ensures ok { IfOk result
            (λ o. IfOk o (λ read. outcome self.old bytes.now ≡ Ok read.0.document)) }
        ensures sheet { IfOk result (λ o. IfOk o (λ read. read.0.sheet ≡ self.old)) }
        ensures identifiers { IfOk result
            (λ o. IfOk o (λ read. identifiers bytes.now ≡ Some read.1)) }
        ensures refused { IfOk result (λ o. IfErr o (λ r. outcome self.old bytes.now ≡ Err r)) }
    {
        let alloc = self.alloc;
        let sheet = self.facts.sheet();
        let outline = read_json_outline(alloc, bytes)?;
        let info = read_info(alloc, &outline.tree)?;
        self.facts.turn_to(info.aliases);
        let found = read_facts_in_pieces(&mut self.facts, &mut self.buffers, outline.facts);
        self.buffers.free_if_large(alloc);
        let FoundFacts {
            identifiers,
            facts,
            ranks,
        } = match found? {
            Ok(found) => found,
            Err(refusal) => return Ok(Err(refusal)),
        };
        let order = order_of(alloc, facts.as_slice(), ranks.as_slice())?;
        if is_above(info.level, facts.as_slice(), order.as_slice()) {
            return Ok(Err(Refusal::from(Reason::DisallowedDuplicates)));
        }
        let report = Report::new(sheet, facts, info.references, info.level, order);
        Ok(Ok((report, identifiers)))
    }
}
