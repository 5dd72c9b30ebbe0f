//! The facts of several reports as one base, and the verdict on each dimension set.
#![tactic(auto)]

mod base;
mod base_builder;
mod entries;
mod evidence;
pub mod laws;
mod ordering;
mod rows;
mod verdict;

pub use base::Base;
pub use base_builder::BaseBuilder;
pub use evidence::Evidence;
pub use rows::{Row, Rows};
pub use verdict::Verdict;
