ghost use Rattle.std.specs.Prelude.{◌≡◌, ◌+◌, ◌-◌, ◌*◌, ◌^◌, ◌<◌, ◌≤◌, ◌++◌, pos, unsigned_abs, true, length, IfOk};
ghost use Rattle.std.specs.Result.{result_err};
ghost use Rattle.std.specs.List.{list_all};
ghost use Rattle.std.specs.Char.{is_ascii_digit};
ghost use Rattle.std.specs.Str.Parse.{digits_value_after};
ghost use Rattle.oim_value.specs.Number.{Denotes, IsShort, number_refusal, signed};
ghost use Rattle.oim_value.specs.Plain.{plain, sign_text};

use crate::digits::{
    append_digits, are_digits, skip_leading_zeros, skip_trailing_zeros, split_point, split_sign,
};
use crate::limits::{MOST_DIGITS, UNIT_PLACES};
use oim_names::{Reason, Text};
use std::alloc::{AllocError, Global};
use std::marker::Model;

/// A decimal number with at most `MOST_DIGITS` significant digits. Contracts see it in units of
/// 10^-`UNIT_PLACES`.
#[derive(Clone, Copy, Debug, PartialEq, Eq, PartialOrd, Ord)]
pub struct Fixed {
    units: i128,
}

impl Model for Fixed {
    ghost use Rattle.std.specs.Prelude.{ℤ};
    ghost use Rattle.oim_value.specs.Number.{IsShort};

    ghost Value = { ℤ };

    ghost view = { λ a. a.units };

    ghost invariant = { λ a. IsShort a.units };

    ghost inverse = { λ z. record { units = z } };
}

impl Fixed {
    /// Returns the number in units of 10^-`UNIT_PLACES`.
    pub fn units(&self) -> i128
        ensures value { result ≡ self.now }
        ensures short { IsShort self.now }
        ensures bound { unsigned_abs self.now ≤ 10 ^ (MOST_DIGITS + UNIT_PLACES) }
    {
        self.units
    }
}

/// Reads a decimal number: an optional sign and one or more digits, with at most one point (XML
/// Schema Part 2, section 3.2.3). Leading zeros of the integer digits and trailing zeros of the
/// fraction digits are not significant.
///
/// Errors: `NumberForm` if the text is not a number; `NumberDigits` if it has more than
/// `MOST_DIGITS` significant digits.
pub fn read_fixed(text: &str) -> Result<Fixed, Reason>
    ensures denoted { IfOk result (Denotes text.now) }
    ensures refused { result_err result ≡ number_refusal text.now }
{
    let (negative, body) = split_sign(text.as_bytes());
    let (integer, fraction) = split_point(body);
    if !are_digits(integer, fraction) {
        return Err(Reason::NumberForm);
    }
    let integer = skip_leading_zeros(integer);
    let fraction = skip_trailing_zeros(fraction);
    if integer.len() + fraction.len() > MOST_DIGITS {
        return Err(Reason::NumberDigits);
    }
    let number = number_of(integer, fraction);
    Ok(scaled(number, fraction.len() as u32, negative))
}

fn number_of(integer: &[u8], fraction: &[u8]) -> u64
    requires integer { list_all is_ascii_digit integer.now ≡ true }
    requires fraction { list_all is_ascii_digit fraction.now ≡ true }
    requires few { length integer.now + length fraction.now ≤ MOST_DIGITS }
    ensures value { result ≡ digits_value_after 10 0 (integer.now ++ fraction.now) }
    ensures bound { result < 10 ^ MOST_DIGITS }
{
    append_digits(append_digits(0, integer), fraction)
}

fn scaled(number: u64, places: u32, negative: bool) -> Fixed
    requires few { number < 10 ^ MOST_DIGITS }
    requires places { places ≤ MOST_DIGITS }
    ensures { result ≡ signed negative (number * 10 ^ (UNIT_PLACES - places)) }
{
    let size = size_of(number, UNIT_PLACES - places);
    if negative {
        Fixed { units: -size }
    } else {
        Fixed { units: size }
    }
}

fn size_of(number: u64, zeros: u32) -> i128
    requires few { number < 10 ^ MOST_DIGITS }
    requires zeros { zeros ≤ UNIT_PLACES }
    ensures value { result ≡ pos (number * 10 ^ zeros) }
    ensures bound { number * 10 ^ zeros ≤ 10 ^ (MOST_DIGITS + UNIT_PLACES) }
{
    (u128::from(number) * 10u128.pow(zeros)) as i128
}

/// Returns the plain text of a number, as `write_units` does.
///
/// Errors: out of memory.
pub fn write_fixed(alloc: Global, value: Fixed) -> Result<Text, AllocError>
    ensures { IfOk result (λ text. text ≡ plain value) }
{
    write_units(alloc, value.units())
}

/// Returns the only plain text of a number in units of 10^-`UNIT_PLACES`. The text has `-` for a
/// negative number, then the integer digits without leading zeros (`0` if the integer part is
/// zero). If the number is not whole, a point and the fraction digits without trailing zeros
/// follow.
///
/// Errors: out of memory.
pub fn write_units(alloc: Global, units: i128) -> Result<Text, AllocError>
    ensures { IfOk result (λ text. text ≡ plain units) }
{
    let size = units.unsigned_abs();
    let sign = sign_of(units);
    let integer = size / 10u128.pow(UNIT_PLACES);
    let rest = size % 10u128.pow(UNIT_PLACES);
    if rest == 0 {
        let whole = Text::from_string(alloc, format!(in alloc; "{sign}{integer}")?)?;
        return Ok(whole);
    }
    let width = UNIT_PLACES as usize;
    let mut text = format!(in alloc; "{sign}{integer}.{rest:0width$}")?;
    let kept = skip_trailing_zeros(text.as_bytes()).len();
    text.truncate(kept);
    let cut = Text::from_string(alloc, text)?;
    Ok(cut)
}

fn sign_of(units: i128) -> &'static str
    ensures { result.now ≡ sign_text units }
{
    if units < 0 { "-" } else { "" }
}
