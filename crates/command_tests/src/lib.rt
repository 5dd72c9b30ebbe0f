//! Tests `run` of `command_line`.
//!
//! The tests have their own crate because a crate that contains tests is proved twice.
#![tactic(auto)]

#[cfg(test)]
mod tests;
