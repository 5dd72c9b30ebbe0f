//! Writes the canonical text of a base: one xBRL-JSON report with all facts of the base.
#![tactic(auto)]

mod bounded_sink;
mod compared_sink;
mod concept_texts;
mod fact_text;
mod fixed_text;
mod labels;
pub mod laws;
mod parts;
mod prefix_table;
mod scratch;
mod sink;
mod sink_buffer;
mod uri_set;
mod write_fault;
mod writer;

pub use bounded_sink::{BOUND_PER_BYTE, BoundedSink, default_bound};
pub use compared_sink::is_text;
pub use fact_text::{write_decimals, write_defined, write_dimensions, write_value};
pub use labels::identifier;
pub use prefix_table::prefixes;
pub use scratch::Scratch;
pub use sink::{Sink, SinkError, StdSink, put_all};
pub use sink_buffer::SinkBuffer;
pub use write_fault::WriteFault;
pub use writer::{text, write_to};

// `text` returns it
pub use oim_names::Encoded;
