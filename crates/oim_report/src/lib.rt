//! Reads xBRL-JSON reports under a sheet of concepts and dimensions.
#![tactic(auto)]

mod concept_kind;
mod dimension_kind;
mod document;
mod fact;
mod fact_reader;
mod fault;
mod fault_list;
mod findings;
mod json_values;
pub mod laws;
mod limits;
mod order;
mod part;
mod pieces;
mod place;
mod refusal;
mod report;
mod report_reader;
mod sheet;
mod unread;

pub use concept_kind::ConceptKind;
pub use dimension_kind::DimensionKind;
pub use document::identifiers::fact_identifiers;
pub use fault::Fault;
pub use fault_list::Faults;
pub use findings::faults_reader::{faults, tree_faults};
pub use json_values::json_tree::after_mark;
pub use limits::{MOST_LEVELS, MOST_REFERENCE_BYTES};
pub use part::Part;
pub use place::Place;
pub use refusal::Refusal;
pub use report::Report;
pub use report_reader::{ReportReader, is_accepted_in_pieces, read_report};
pub use sheet::Sheet;
pub use sheet::sheet_part::sheet_part;
