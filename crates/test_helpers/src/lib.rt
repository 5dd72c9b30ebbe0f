//! Devices, texts and calls that the tests of several crates share.
#![tactic(auto)]

pub mod asked_again;
pub mod canonical_parts;
pub mod devices;
pub mod expecting;
