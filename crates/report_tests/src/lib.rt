//! Tests the public calls of `oim_report`, `oim_explain` and `fact_base`.
//!
//! The tests have their own crate because a crate that contains tests is proved twice.
#![tactic(auto)]

#[cfg(test)]
mod tests;
