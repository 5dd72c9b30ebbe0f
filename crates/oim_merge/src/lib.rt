//! Merges xBRL-JSON reports, from bytes to bytes. Reports are read under a sheet. Functions write
//! canonical texts, list verdicts or sources, check reports, or run replicas that exchange texts.
#![tactic(auto)]

mod allowed_level;
mod bundle;
mod checked;
mod consolidation;
mod event;
mod events;
mod fact_list;
mod fault;
pub mod laws;
mod mentions;
mod messages;
mod readings;
mod refusals;
mod replayed;
mod replicas;
mod source;
mod source_format;
mod source_reader;
mod successors;
mod traced_merge;
mod verdict_format;
mod verdict_rows;

// merging
pub use allowed_level::write_within;
pub use bundle::consolidate_bundle;
pub use consolidation::{Consolidation, Merged, consolidate, verdict_lines};
pub use fault::Fault;
pub use refusals::Refusals;
// verdicts, sources of facts, checks, and round trips
pub use checked::{Checked, check_report, read_back};
pub use mentions::IndexedMention;
pub use source_format::{SourceFormat, SourceLines};
pub use traced_merge::{TracedMerge, source_lines};
pub use verdict_format::{Identifiers, JudgedRow, VerdictFormat};
pub use verdict_rows::{VerdictLines, write_verdicts};
// replicas
pub use event::Event;
pub use events::{Events, ReplayFault, read_events};
pub use replayed::{Replayed, replay};
// inputs
pub use source::{Source, SourceError, StdSource};
pub use source_reader::{ReadFault, read_all};
