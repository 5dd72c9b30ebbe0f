//! Finds all faults of a report, and facts that contradict each other.

pub(crate) mod facts_apart;
pub(crate) mod faults_reader;
