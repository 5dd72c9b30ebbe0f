/// A number has at most this many significant digits, as `read_fixed` counts them.
pub const MOST_DIGITS: usize = 18;

/// Numbers are stored in units of 10^-`UNIT_PLACES`. The constant is greater than `MOST_DECIMALS`,
/// so that half of the last decimal place is always a whole number of units. It is at least
/// `MOST_DIGITS`, so that no significant digit is lost.
pub const UNIT_PLACES: u32 = 19;

/// Finite decimals range from `-MOST_DECIMALS` to `MOST_DECIMALS`. So the half widths of their
/// intervals range from 5 units to 5 * 10^36 units. Every end of a number's interval is below
/// 1.5 * 10^37 units in size, which fits an `i128`.
pub const MOST_DECIMALS: i8 = 18;
