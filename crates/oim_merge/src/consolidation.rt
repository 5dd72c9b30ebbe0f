ghost use Rattle.std.specs.Prelude.{◌≡◌, ℕ, List, [], ◌+◌, ◌-◌, ◌^◌, ◌<◌, IfOk, IfErr, OnOk, OnErr, MatchResult, Ok, Err};
ghost use Rattle.oim_report.specs.Identifiers.{identifiers};
ghost use Rattle.oim_report.specs.Outcome.{outcome};
ghost use Rattle.oim_merge.specs.Added.{added, begun, with_report};
ghost use Rattle.oim_merge.specs.Lines.{line_text};
ghost use Rattle.oim_merge.specs.VerdictCalls.{RowsStop, VerdictsStop, ListsRows, ListsVerdicts};
ghost use Rattle.oim_merge.specs.Run.{Consolidates, ConsolidationStops, Stops, Writes, failures_after_run};
ghost use Rattle.oim_merge.specs.Sources.{mentions_of};
ghost use Rattle.oim_merge.specs.code.Outcomes.{IsOutcome};

use crate::allowed_level::write_within;
use crate::fault::Fault;
use crate::mentions::{Mention, mentions_in};
use crate::refusals::Refusals;
use crate::verdict_format::VerdictFormat;
use crate::verdict_rows::{VerdictLines, write_verdicts};
use fact_base::{Base, BaseBuilder};
use oim_names::{Encoded, Reason};
use oim_report::{Refusal, Report, ReportReader, Sheet};
use oim_value::Level;
use oim_write::Sink;
use std::alloc::{AllocError, Global};
use std::marker::Model;

/// Merges reports under a sheet. Writes the canonical text of the accepted reports to the sink
/// (xBRL-JSON 1.0; the choice of prefixes and identifiers is our own). Returns the refusals with
/// the numbers of their reports, from 1.
///
/// Errors: `TooLoose` if a dimension set has duplicates above `allow`, with nothing written;
/// `Device` if the sink failed; `OutOfMemory`.
pub fn consolidate<S: Sink>(
    alloc: Global,
    sheet: &Sheet,
    reports: &[Encoded],
    allow: Level,
    out: &mut S,
) -> Result<Refusals, Fault>
    requires { S.failures out.old < 2 ^ 64 - 1 }
    ensures ok { IfOk result (Consolidates sheet.now reports.now allow (S.told out.old) (S.told out.new)) }
    ensures err { IfErr result (ConsolidationStops sheet.now reports.now allow (S.told out.old) (S.told out.new)) }
    ensures failures { S.failures out.new ≡ failures_after_run result (S.failures out.old) }
{
    Consolidation::of(alloc, sheet, reports)?.finish(allow, out)
}

/// Merges reports under a sheet and appends one line to the sink for each dimension set, in the
/// order of the sets (own). A line contains the number of the set (from 1), the identifiers of the
/// set's first and last facts, and the verdict with its evidence. Returns the refusals with the
/// numbers of their reports, from 1.
///
/// Errors: `Device` if the sink failed; `OutOfMemory`.
pub fn verdict_lines<S: Sink>(
    alloc: Global,
    sheet: &Sheet,
    reports: &[Encoded],
    out: &mut S,
) -> Result<Refusals, Fault>
    requires { S.failures out.old < 2 ^ 64 - 1 }
    ensures ok { IfOk result (ListsVerdicts sheet.now reports.now (S.told out.old) (S.told out.new)) }
    ensures err { IfErr result (VerdictsStop sheet.now reports.now (S.told out.old) (S.told out.new)) }
    ensures failures { S.failures out.new ≡ failures_after_run result (S.failures out.old) }
{
    Consolidation::of(alloc, sheet, reports)?.finish_lines(out)
}

/// Merges reports one at a time. A consolidation stores the facts and references of the accepted
/// reports, the refusals, and the number of all reports. The reader of a consolidation caches the
/// prefixes of one report and a limited number of short texts. A consolidation borrows the sheet
/// under which it reads reports.
pub struct Consolidation<'s> {
    alloc: Global,
    reader: ReportReader<'s>,
    gathered: BaseBuilder<'s>,
    refusals: Refusals,
    reports: u64,
}

// By hand, so that dropping a consolidation is one call: each place where a derived `drop` runs is
// proved with all its parts.
impl Drop for Consolidation<'_> {
    fn drop(self) {
        let Consolidation {
            alloc: _,
            reader: _,
            gathered: _,
            refusals: _,
            reports: _,
        } = self;
    }
}

impl<'s> Model for Consolidation<'s> {
    ghost use Rattle.std.specs.Prelude.{◌≡◌};
    ghost use Rattle.std.specs.Coded.{codes};
    ghost use Rattle.oim_report.specs.code.SheetCode.{sheet_code};
    ghost use Rattle.oim_merge.specs.Added.{Added};

    ghost Value = { Added };

    ghost coded = { Prim.hlevel (codes, sheet_code) };

    ghost view = { λ c. record { sheet = c.gathered.sheet; body = c.gathered.body; refusals = c.refusals; reports = c.reports } };

    ghost invariant = { λ c. c.reader ≡ c.gathered.sheet };
}

impl<'s> Consolidation<'s> {
    /// Starts a merge without reports. Reports are read under the sheet. Later calls request memory
    /// from `alloc`.
    pub fn new(alloc: Global, sheet: &'s Sheet) -> Consolidation<'s>
        ensures { result ≡ begun sheet.now }
    {
        Consolidation {
            alloc,
            reader: ReportReader::new(alloc, sheet),
            gathered: BaseBuilder::new(alloc, sheet),
            refusals: Refusals::new(alloc),
            reports: 0,
        }
    }

    pub(crate) fn of(
        alloc: Global,
        sheet: &'s Sheet,
        reports: &[Encoded],
    ) -> Result<Consolidation<'s>, AllocError>
        ensures { IfOk result (λ consolidation. consolidation ≡ added sheet.now reports.now) }
    {
        let mut consolidation = Consolidation::new(alloc, sheet);
        for report in reports {
            consolidation.add(report.as_bytes())?;
        }
        Ok(consolidation)
    }

    /// Reads one more report under the sheet and adds its facts and references, or stores its
    /// refusal with the number of the report, from 1.
    ///
    /// Errors: out of memory; then nothing changes, and the report can be added again.
    pub fn add(&mut self, bytes: &[u8]) -> Result<(), AllocError>
        requires { self.old.reports + 1 < 2 ^ 64 }
        ensures ok { OnOk result (self.new ≡ with_report self.old bytes.now) }
        ensures err { OnErr result (self.new ≡ self.old) }
    {
        let read = read(&mut self.reader, bytes)?;
        self.add_read(read)
    }

    /// Does the same as `add`, but consumes the bytes.
    ///
    /// The bytes are freed before the report's facts are merged, so a long report needs less
    /// memory.
    ///
    /// Errors: out of memory; then nothing changes, but the bytes are lost.
    pub fn add_owned(&mut self, report: Encoded) -> Result<(), AllocError>
        requires { self.old.reports + 1 < 2 ^ 64 }
        ensures ok { OnOk result (self.new ≡ with_report self.old report) }
        ensures err { OnErr result (self.new ≡ self.old) }
    {
        let read = read(&mut self.reader, report.as_bytes())?;
        drop(report);
        self.add_read(read)
    }

    /// Reads a report, or returns its refusal, with the mentions in it. Nothing is added.
    ///
    /// Errors: out of memory.
    pub(crate) fn read_with_mentions(
        &mut self,
        bytes: &[u8],
    ) -> Result<(Result<Report<'s>, Refusal>, Vec<Mention>), AllocError>
        requires { self.old.reports + 1 < 2 ^ 64 }
        ensures same { self.new ≡ self.old }
        ensures outcome { IfOk result (λ read. IsOutcome self.old.sheet bytes.now read.0) }
        ensures sheet { IfOk result (λ read. IfOk read.0 (λ report. report.sheet ≡ self.old.sheet)) }
        ensures mentions { IfOk result (λ read. read.1.items
            ≡ mentions_of (self.old.reports + 1) (identifiers bytes.now) (outcome self.old.sheet bytes.now)) }
    {
        match self.reader.read_identified(bytes) {
            Ok((report, identifiers)) => {
                let number = self.reports + 1;
                let identifiers = identifiers.as_slice();
                let mentions = mentions_in(self.alloc, number, identifiers, report.facts())?;
                Ok((Ok(report), mentions))
            }
            Err(refusal) if refusal.reason == Reason::OutOfMemory => Err(AllocError),
            Err(refusal) => Ok((Err(refusal), Vec::new(self.alloc))),
        }
    }

    /// Adds a report that was read, or stores its refusal, and counts it.
    pub(crate) fn add_read(&mut self, read: Result<Report<'_>, Refusal>) -> Result<(), AllocError>
        requires room { self.old.reports + 1 < 2 ^ 64 }
        requires sheet { IfOk read (λ report. report.sheet ≡ self.old.sheet) }
        ensures ok { OnOk result ((bytes : List ℕ) → IsOutcome self.old.sheet bytes read.entry → self.new ≡ with_report self.old bytes) }
        ensures err { OnErr result (self.new ≡ self.old) }
    {
        // The contract of `sheet` states that the facts so far fit the sheet.
        let _sheet = self.gathered.sheet();
        let number = self.reports + 1;
        match read {
            Ok(report) => self.gathered.add(report)?,
            Err(refusal) => self.refusals.push(number, refusal)?,
        }
        self.reports = number;
        Ok(())
    }

    /// Writes the canonical text of the accepted reports to the sink, as `consolidate` does, and
    /// returns the refusals.
    ///
    /// Errors: `TooLoose` if a dimension set has duplicates above `allow`, with nothing written;
    /// `Device` if the sink failed; `OutOfMemory`.
    pub fn finish<S: Sink>(self, allow: Level, out: &mut S) -> Result<Refusals, Fault>
        requires { S.failures out.old < 2 ^ 64 - 1 }
        ensures ok { IfOk result (Writes allow self.entry.body self.entry.refusals (S.told out.old) (S.told out.new)) }
        ensures err { IfErr result (Stops allow self.entry.body self.entry.refusals (S.told out.old) (S.told out.new)) }
        ensures failures { S.failures out.new ≡ failures_after_run result (S.failures out.old) }
    {
        let alloc = self.alloc;
        let Merged { base, refusals } = self.into_merged()?;
        write_within(alloc, &base, refusals, allow, out)
    }

    /// Appends one line for each dimension set of the accepted reports to the sink, as
    /// `verdict_lines` does, and returns the refusals.
    ///
    /// Errors: `Device` if the sink failed; `OutOfMemory`.
    pub fn finish_lines<S: Sink>(self, out: &mut S) -> Result<Refusals, Fault>
        requires { S.failures out.old < 2 ^ 64 - 1 }
        ensures ok { IfOk result (ListsRows [] line_text self.entry.body self.entry.refusals (S.told out.old) (S.told out.new)) }
        ensures err { IfErr result (RowsStop [] line_text self.entry.body (S.told out.old) (S.told out.new)) }
        ensures failures { S.failures out.new ≡ failures_after_run result (S.failures out.old) }
    {
        self.finish_verdicts(&VerdictLines, out)
    }

    /// Does the same as `finish_lines` in another format, which may begin with a header.
    ///
    /// Errors: the same as `finish_lines`.
    pub fn finish_verdicts<S: Sink, F: VerdictFormat>(
        self,
        format: &F,
        out: &mut S,
    ) -> Result<Refusals, Fault>
        requires { S.failures out.old < 2 ^ 64 - 1 }
        ensures ok { IfOk result (ListsRows (F.header format.now) (F.row_text format.now) self.entry.body self.entry.refusals (S.told out.old) (S.told out.new)) }
        ensures err { IfErr result (RowsStop (F.header format.now) (F.row_text format.now) self.entry.body (S.told out.old) (S.told out.new)) }
        ensures failures { S.failures out.new ≡ failures_after_run result (S.failures out.old) }
    {
        let alloc = self.alloc;
        let Merged { base, refusals } = self.into_merged()?;
        write_verdicts(alloc, &base, refusals, format, out)
    }

    /// Returns the base of the accepted reports, and the refusals.
    ///
    /// Errors: out of memory.
    pub fn into_merged(self) -> Result<Merged<'s>, AllocError>
        ensures base { IfOk result
            (λ merged. merged.base ≡ record { sheet = self.entry.sheet; body = self.entry.body }) }
        ensures refusals { IfOk result (λ merged. merged.refusals ≡ self.entry.refusals) }
    {
        let Consolidation {
            alloc: _,
            reader: _,
            gathered,
            refusals,
            reports: _,
        } = self;
        let base = gathered.into_base()?;
        Ok(Merged { base, refusals })
    }
}

/// Merged reports: the accepted reports as one base, and the refusals of the other reports.
#[derive(Drop)]
pub struct Merged<'s> {
    /// The base of the accepted reports.
    pub base: Base<'s>,
    /// The refusals, with the numbers of their reports, from 1.
    pub refusals: Refusals,
}

/// Reads a report under the reader's sheet, or returns the report's refusal.
///
/// Errors: out of memory, which is not a refusal here.
pub(crate) fn read<'s>(
    reader: &mut ReportReader<'s>,
    bytes: &[u8],
) -> Result<Result<Report<'s>, Refusal>, AllocError>
    ensures same { reader.new ≡ reader.old }
    ensures read { IfOk result (λ read. MatchResult read
        (λ report. (outcome reader.old bytes.now ≡ Ok report.document) × (report.sheet ≡ reader.old))
        (λ refusal. outcome reader.old bytes.now ≡ Err refusal)) }
{
    match reader.read(bytes) {
        Ok(report) => Ok(Ok(report)),
        Err(refusal) if refusal.reason == Reason::OutOfMemory => Err(AllocError),
        Err(refusal) => Ok(Err(refusal)),
    }
}
