//! Tests public calls of `oim_write`, `oim_merge` and `row_formats`.
//!
//! The tests have their own crate because a crate that contains tests is proved twice.
#![tactic(auto)]

#[cfg(test)]
mod tests;
