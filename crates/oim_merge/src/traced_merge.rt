ghost use Rattle.std.specs.Prelude.{◌≡◌, ◌+◌, ◌-◌, ◌^◌, ◌<◌, flat_map, IfOk, IfErr, OnOk, OnErr};
ghost use Rattle.oim_write.specs.Sink.{failures_after_write, written_of};
ghost use Rattle.oim_write.specs.SinkBuffer.{Breaks, Passes};
ghost use Rattle.oim_merge.specs.Run.{failures_after_run};
ghost use Rattle.oim_merge.specs.SourceCalls.{AppendsMentions, ListsSources, MentionsStop, SourcesStop};
ghost use Rattle.oim_merge.specs.Traced.{traced, untraced, with_traced};
ghost use Rattle.oim_merge.specs.code.BufferedRows.{indexed_text};

use crate::consolidation::{Consolidation, Merged};
use crate::fault::Fault;
use crate::mentions::{IndexedMention, Mention, indexed_by_fact};
use crate::refusals::Refusals;
use crate::source_format::{SourceFormat, SourceLines};
use oim_names::Encoded;
use oim_report::Sheet;
use oim_write::{Sink, SinkBuffer, WriteFault, identifier};
use std::alloc::{AllocError, Global};
use std::marker::Model;

/// Merges reports under a sheet and appends one line to the sink for each fact object in an
/// accepted report (own). A line has the identifier of the fact in the canonical text, the number
/// of the report (from 1), and the object's own identifier as a JSON string. Lines are sorted by
/// fact, report and object identifier. Returns the refusals with the numbers of their reports.
///
/// Memory holds a copy of each object's fact until all reports are merged, even if another object
/// reports the same fact, and each object's identifier until all lines are written.
///
/// Errors: `Device` if the sink failed; `OutOfMemory`.
pub fn source_lines<S: Sink>(
    alloc: Global,
    sheet: &Sheet,
    reports: &[Encoded],
    out: &mut S,
) -> Result<Refusals, Fault>
    requires { S.failures out.old < 2 ^ 64 - 1 }
    ensures ok { IfOk result (ListsSources sheet.now reports.now (S.told out.old) (S.told out.new)) }
    ensures err { IfErr result (SourcesStop sheet.now reports.now (S.told out.old) (S.told out.new)) }
    ensures failures { S.failures out.new ≡ failures_after_run result (S.failures out.old) }
{
    TracedMerge::of(alloc, sheet, reports)?.finish(&SourceLines, out)
}

/// Merges reports one at a time, as a `Consolidation` does, and stores a mention for each fact
/// object of the accepted reports. The reports themselves are not stored.
#[derive(Drop)]
pub struct TracedMerge<'s> {
    consolidation: Consolidation<'s>,
    mentions: Vec<Mention>,
}

impl<'s> Model for TracedMerge<'s> {
    ghost use Rattle.std.specs.Coded.{codes};
    ghost use Rattle.oim_report.specs.code.SheetCode.{sheet_code};
    ghost use Rattle.oim_merge.specs.Traced.{Traced};
    ghost use Rattle.oim_merge.specs.code.Traces.{AreTraced};

    ghost Value = { Traced };

    ghost coded = { Prim.hlevel (codes, sheet_code) };

    ghost view = { λ m. record { added = m.consolidation; mentions = m.mentions.items } };

    ghost invariant = { λ m. AreTraced m.consolidation m.mentions.items };
}

impl<'s> TracedMerge<'s> {
    /// Starts a merge without reports. Reports are read under the sheet. Later calls request memory
    /// from `alloc`.
    pub fn new(alloc: Global, sheet: &'s Sheet) -> TracedMerge<'s>
        ensures { result ≡ untraced sheet.now }
    {
        TracedMerge {
            consolidation: Consolidation::new(alloc, sheet),
            mentions: Vec::new(alloc),
        }
    }

    /// Reads and adds the reports, in order.
    ///
    /// Errors: out of memory.
    pub fn of(
        alloc: Global,
        sheet: &'s Sheet,
        reports: &[Encoded],
    ) -> Result<TracedMerge<'s>, AllocError>
        ensures { IfOk result (λ merge. merge ≡ traced sheet.now reports.now) }
    {
        let mut merge = TracedMerge::new(alloc, sheet);
        for report in reports {
            merge.add(report.as_bytes())?;
        }
        Ok(merge)
    }

    /// Reads one more report under the sheet and adds its facts, references and mentions, or stores
    /// its refusal with the number of the report, from 1.
    ///
    /// Errors: out of memory; then nothing changes, and the report can be added again.
    pub fn add(&mut self, bytes: &[u8]) -> Result<(), AllocError>
        requires { self.old.added.reports + 1 < 2 ^ 64 }
        ensures ok { OnOk result (self.new ≡ with_traced self.old bytes.now) }
        ensures err { OnErr result (self.new ≡ self.old) }
    {
        let (read, mut mentions) = self.consolidation.read_with_mentions(bytes)?;
        self.mentions.reserve(mentions.len())?;
        self.consolidation.add_read(read)?;
        // The capacity is reserved, so appending cannot fail once the report is added.
        self.mentions.append(&mut mentions)
    }

    /// Appends one text for each mention to the sink, in this format and after its header. The
    /// texts are sorted by fact, report and identifier. Returns the refusals.
    ///
    /// Errors: `Device` if the sink failed; `OutOfMemory`.
    pub fn finish<S: Sink, F: SourceFormat>(
        self,
        format: &F,
        out: &mut S,
    ) -> Result<Refusals, Fault>
        requires { S.failures out.old < 2 ^ 64 - 1 }
        ensures ok { IfOk result (AppendsMentions (F.header format.now) (F.source_text format.now) self.entry (S.told out.old) (S.told out.new)) }
        ensures err { IfErr result (MentionsStop (F.header format.now) (F.source_text format.now) self.entry (S.told out.old) (S.told out.new)) }
        ensures failures { S.failures out.new ≡ failures_after_run result (S.failures out.old) }
    {
        let TracedMerge {
            consolidation,
            mentions,
        } = self;
        let alloc = *mentions.allocator();
        let Merged { base, refusals } = consolidation.into_merged()?;
        let mentions = indexed_by_fact(alloc, &base, mentions)?;
        let count = base.fact_count();
        let mut buffer = SinkBuffer::new(alloc)?;
        let header = format.header(alloc)?;
        buffer.push(out, header.as_slice())?;
        push_mentions(alloc, &mut buffer, out, count, mentions.as_slice(), format)?;
        buffer.flush(out)?;
        Ok(refusals)
    }
}

// The buffer is passed with its sink, since it does not own the sink.
fn push_mentions<S: Sink, F: SourceFormat>(
    alloc: Global,
    buffer: &mut SinkBuffer,
    out: &mut S,
    count: u128,
    mentions: &[IndexedMention],
    format: &F,
) -> Result<(), WriteFault>
    requires { S.failures out.old < 2 ^ 64 - 1 }
    ensures ok { OnOk result (Passes (S.told out.old) (S.told out.new) buffer.old buffer.new
        (flat_map (indexed_text (F.source_text format.now) count) mentions.now)) }
    ensures err { IfErr result (λ fault. Breaks (S.told out.old) (S.told out.new) buffer.old
        (flat_map (indexed_text (F.source_text format.now) count) mentions.now) (written_of fault)) }
    ensures failures { S.failures out.new ≡ failures_after_write result (S.failures out.old) }
{
    for mention in mentions {
        let text = match text_of(alloc, count, mention, format) {
            Ok(text) => text,
            Err(refused) => return Err(buffer.stop(out, refused)),
        };
        buffer.push(out, text.as_slice())?;
    }
    Ok(())
}

fn text_of<F: SourceFormat>(
    alloc: Global,
    count: u128,
    mention: &IndexedMention,
    format: &F,
) -> Result<Vec<u8>, AllocError>
    ensures { IfOk result (λ text. text.items ≡ indexed_text (F.source_text format.now) count mention.now) }
{
    let fact = identifier(alloc, mention.index as u128 + 1, count)?;
    format.source(alloc, fact.as_str(), mention)
}
