//! Periods, units, languages, dimension sets and facts.
#![tactic(auto)]

mod dimensions;
mod fact;
mod language;
pub mod laws;
mod limits;
mod long_uris;
mod member;
mod moment;
mod period;
mod sequence;
mod spelling;
mod unit;
mod unit_text;

pub use dimensions::Dimensions;
pub use fact::Fact;
pub use language::{is_language, read_language};
pub use long_uris::{RankedUri, likely_order, rank_long_uris};
pub use member::Member;
pub use moment::Moment;
pub use period::{Period, read_period, write_period};
pub use spelling::{Spelling, spell, spell_unit};
pub use unit::Unit;
pub use unit_text::{
    can_write_unit, is_unit_text, read_unit, refused_piece, unit_refusal, write_unit,
};
