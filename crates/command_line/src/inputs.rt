ghost use Rattle.std.specs.Prelude.{◌≡◌, false, Ok, IfOk, IfErr, ℕ, List};
ghost use Rattle.std.specs.List.{AllZip};
ghost use Rattle.oim_report.specs.Sheet.{sheet_outcome};
ghost use Rattle.oim_merge.specs.Added.{added};
ghost use Rattle.oim_merge.specs.Traced.{traced};
ghost use Rattle.command_line.specs.Why.{IsFirstLost, IsLost, IsNoSheet, IsUnread, LacksSheet, WithRead};
ghost use Rattle.command_line.specs.Words.{name_texts};

use crate::console::{Console, Progress};
use crate::error::Error;
use crate::folder::Folder;
use oim_explain::kind_of_taxonomy;
use oim_merge::{Consolidation, TracedMerge};
use oim_names::{Encoded, Reason};
use oim_report::Sheet;
use std::alloc::Global;
use std::io::Write;
use std::mem;

/// The inputs of a command, and its progress. The sink is not a field: if it were, the contract of
/// each method would have to state that the sink is unchanged.
#[derive(Drop)]
pub(crate) struct Inputs<'n, F, E> {
    pub alloc: Global,
    pub files: &'n F,
    /// The bundle if there are no arguments; otherwise not used.
    pub bundle: &'n [u8],
    pub names: &'n [&'n str],
    /// How many bytes of output each byte that is read allows.
    pub output_per_byte: u64,
    /// The bytes of output that the bytes read since the last call of `take_allowance` allow.
    pub allowance: u64,
    /// The number of reports that were read so far.
    pub reports_read: usize,
    /// The number of bytes of these reports.
    pub bytes: u64,
    pub console: Console<E>,
}

impl<'n, F: Folder, E: Write> Inputs<'n, F, E> {
    /// Reads the file with this name, and allows output for its bytes.
    pub(crate) fn read(&mut self, name: &'n str) -> Result<Encoded, Error<'n>>
        ensures ok { IfOk result (F.gives self.old.files.now name.now) }
        ensures why { IfErr result (IsUnread (IsLost (F.fails self.old.files.now) name.now)) }
        ensures files { self.new.files ≡ self.old.files }
        ensures names { self.new.names ≡ self.old.names }
        ensures console { self.old.console.is_terminal ≡ false → self.new.console ≡ self.old.console }
    {
        let bytes = self.files.read_named(self.alloc, name)?;
        let read = bytes.as_bytes().len() as u64;
        let allowed = read.saturating_mul(self.output_per_byte);
        self.allowance = self.allowance.saturating_add(allowed);
        Ok(bytes)
    }

    /// Returns the bytes of output that the bytes read since the last call allow.
    pub(crate) fn take_allowance(&mut self) -> u64
        ensures files { self.new.files ≡ self.old.files }
        ensures names { self.new.names ≡ self.old.names }
        ensures console { self.new.console ≡ self.old.console }
    {
        mem::take(&mut self.allowance)
    }

    /// Errors: `Unread`; `TooLong`; `Sheet` if the sheet is refused; out of memory.
    pub(crate) fn read_sheet(&mut self, name: &'n str) -> Result<Sheet, Error<'n>>
        ensures ok { IfOk result (λ sheet. (bytes : List ℕ)
            × F.gives self.old.files.now name.now bytes × (sheet_outcome bytes ≡ Ok sheet)) }
        ensures why { IfErr result (LacksSheet (F.gives self.old.files.now) (F.fails self.old.files.now) name.now) }
        ensures files { self.new.files ≡ self.old.files }
        ensures names { self.new.names ≡ self.old.names }
        ensures console { self.old.console.is_terminal ≡ false → self.new.console ≡ self.old.console }
    {
        let bytes = self.read(name)?;
        sheet_of(self.alloc, bytes.as_bytes())
    }

    /// Updates the progress line, if the console shows one. Then reads the report with this name
    /// and counts it.
    pub(crate) fn read_report(&mut self, name: &'n str) -> Result<Encoded, Error<'n>>
        ensures ok { IfOk result (F.gives self.old.files.now name.now) }
        ensures why { IfErr result (IsUnread (IsLost (F.fails self.old.files.now) name.now)) }
        ensures files { self.new.files ≡ self.old.files }
        ensures names { self.new.names ≡ self.old.names }
        ensures console { self.old.console.is_terminal ≡ false → self.new.console ≡ self.old.console }
    {
        self.console.show(Progress {
            read: self.reports_read,
            all: self.names.len(),
            bytes: self.bytes,
        });
        let report = self.read(name)?;
        self.reports_read = self.reports_read.saturating_add(1);
        self.bytes = self.bytes.saturating_add(report.as_bytes().len() as u64);
        Ok(report)
    }

    /// Returns the bytes of all reports, in order. Stops at the first report that cannot be read.
    pub(crate) fn read_reports(&mut self) -> Result<Vec<Encoded>, Error<'n>>
        ensures ok { IfOk result (λ all. AllZip (F.gives self.old.files.now) (name_texts self.old.names.now) all.items) }
        ensures why { IfErr result (IsUnread (IsFirstLost (F.gives self.old.files.now) (F.fails self.old.files.now) (name_texts self.old.names.now))) }
        ensures console { self.old.console.is_terminal ≡ false → self.new.console ≡ self.old.console }
    {
        let names = self.names;
        let mut all = Vec::new(self.alloc);
        for name in names {
            all.push(self.read_report(name)?)?;
        }
        self.console.clear();
        Ok(all)
    }

    /// Reads and adds all reports, in order. Stops at the first report that cannot be read. The
    /// bytes of a report are dropped once the report is added.
    pub(crate) fn consolidate<'s>(
        &mut self,
        sheet: &'s Sheet,
    ) -> Result<Consolidation<'s>, Error<'n>>
        ensures ok { IfOk result (λ consolidation. WithRead (F.gives self.old.files.now) (name_texts self.old.names.now)
            (λ reports. consolidation ≡ added sheet.now reports)) }
        ensures why { IfErr result (IsUnread (IsFirstLost (F.gives self.old.files.now) (F.fails self.old.files.now) (name_texts self.old.names.now))) }
        ensures console { self.old.console.is_terminal ≡ false → self.new.console ≡ self.old.console }
    {
        let mut consolidation = Consolidation::new(self.alloc, sheet);
        let names = self.names;
        for index in 0..names.len() {
            consolidation.add_owned(self.read_report(names[index])?)?;
        }
        self.console.clear();
        Ok(consolidation)
    }

    /// Does the same as `consolidate`, and stores where each fact was reported.
    pub(crate) fn trace<'s>(&mut self, sheet: &'s Sheet) -> Result<TracedMerge<'s>, Error<'n>>
        ensures ok { IfOk result (λ merge. WithRead (F.gives self.old.files.now) (name_texts self.old.names.now)
            (λ reports. merge ≡ traced sheet.now reports)) }
        ensures why { IfErr result (IsUnread (IsFirstLost (F.gives self.old.files.now) (F.fails self.old.files.now) (name_texts self.old.names.now))) }
        ensures console { self.old.console.is_terminal ≡ false → self.new.console ≡ self.old.console }
    {
        let mut merge = TracedMerge::new(self.alloc, sheet);
        let names = self.names;
        for index in 0..names.len() {
            merge.add(self.read_report(names[index])?.as_bytes())?;
        }
        self.console.clear();
        Ok(merge)
    }
}

pub(crate) fn sheet_of<'n>(alloc: Global, bytes: &[u8]) -> Result<Sheet, Error<'n>>
    ensures ok { IfOk result (λ sheet. sheet_outcome bytes.now ≡ Ok sheet) }
    ensures why { IfErr result (IsNoSheet bytes.now) }
{
    match Sheet::read(alloc, bytes) {
        Ok(sheet) => Ok(sheet),
        Err(Reason::OutOfMemory) => Err(Error::OutOfMemory),
        Err(reason) => Err(Error::Sheet {
            reason,
            explained: None,
            kind: kind_of_taxonomy(bytes),
        }),
    }
}
