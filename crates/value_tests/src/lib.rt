//! Tests the public calls of `oim_names`, `oim_value`, `merge_laws` and `oim_dims`.
//!
//! A crate that contains tests is proved twice, so these libraries contain none.
#![tactic(auto)]

#[cfg(test)]
mod tests;
