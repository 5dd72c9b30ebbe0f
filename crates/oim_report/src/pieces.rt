//! Reads a report in pieces.

pub(crate) mod beside;
pub(crate) mod cuts;
pub(crate) mod facts_in_pieces;
pub(crate) mod facts_so_far;
pub(crate) mod found_facts;
pub(crate) mod judgement;
pub(crate) mod judgements;
pub(crate) mod outline;
pub(crate) mod piece_tape;
pub(crate) mod taped_tree;
pub(crate) mod texts;
