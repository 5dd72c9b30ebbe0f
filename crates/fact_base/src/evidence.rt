use oim_value::Interval;

/// Evidence with which a reader can check a verdict by hand (own).
#[derive(Clone, Copy, Debug, PartialEq, Eq)]
pub enum Evidence {
    /// There is only one distinct fact.
    Alike,
    /// The common part of the rounding intervals of several values. Every two of these values meet.
    Common(Interval),
    /// The indices, from 0, of two values that do not meet.
    Apart(usize, usize),
}
