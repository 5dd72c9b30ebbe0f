//! Reads the parts of a report outside its facts, and finds the parts at fault there, the
//! identifiers, and the level of duplicates of the facts.

pub(crate) mod base_url;
pub(crate) mod document_faults;
pub(crate) mod document_part;
pub(crate) mod duplicates;
pub(crate) mod features;
pub(crate) mod identifiers;
pub(crate) mod info;
pub(crate) mod namespaces;
pub(crate) mod references;
