//! Reads JSON values, from trees and from tapes.

pub(crate) mod fact_values;
pub(crate) mod json_member;
pub(crate) mod json_tree;
pub(crate) mod skipped;
