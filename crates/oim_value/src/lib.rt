//! Numbers, decimals, rounding intervals, levels and the values of facts.
#![tactic(auto)]

mod decimals;
mod digits;
mod fixed;
mod interval;
pub mod laws;
mod level;
mod limits;
mod value;

pub use decimals::Decimals;
pub use fixed::{Fixed, read_fixed, write_fixed, write_units};
pub use interval::{Interval, common, interval_of, meets};
pub use level::Level;
pub use limits::{MOST_DECIMALS, MOST_DIGITS, UNIT_PLACES};
pub use value::{Value, value_meets};
