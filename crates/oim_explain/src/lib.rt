//! Explains the faults of a report, or the refusal of a sheet, in sentences that show the text at
//! fault. `oim_report` finds the faults; this crate finds only repeated members.
//!
//! Sentences may change between versions, but the numbers and names of refusals and their order do
//! not. A sentence shows at most 80 characters of a key or value. Characters of a text are counted
//! before escaping, so none of its escapes is cut. In lines of text, identifiers are cut too: each
//! line for a fact repeats its identifier, which may be long. The JSON object of a refusal contains
//! the whole identifier.
#![tactic(auto)]

mod escaped;
mod explained;
mod file_kind;
mod finding;
mod format_keys;
pub mod laws;
mod lines;
mod nesting;
mod prefixes;
mod quoted;
mod repeated;
mod sentence;
mod sheet_names;
mod subject;

pub use escaped::{Escaped, EscapedName};
pub use explained::{explain, explain_repeated, explain_sheet};
pub use file_kind::kind_of_taxonomy;
pub use lines::{Explained, Format, Input};
pub use sheet_names::SheetNames;
