//! Merges whose results do not depend on the order, grouping or repetition of the values.
#![tactic(auto)]

mod insertion;
pub mod laws;
mod merge;
mod placing;
mod search;
mod sorted_map;
mod sorted_set;
mod summary;

pub use merge::Merge;
pub use placing::place;
pub use sorted_map::SortedMap;
pub use sorted_set::SortedSet;
pub use summary::Summary;
