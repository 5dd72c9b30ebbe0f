ghost use Rattle.std.specs.Prelude.{◌≡◌, ◌<◌, ◌==◌, true, false, Some, IfOk, IfSome, IsTrue, length, slice_index, option_map};
ghost use Rattle.json.specs.Find.{BeginsWith};
ghost use Rattle.json.specs.Json.{Json};
ghost use Rattle.serde_json.specs.Data.{Num, string};
ghost use Rattle.serde_json.specs.Find.{as_integer};
ghost use Rattle.serde_json.specs.Read.{float_of, number_from, number_of};
ghost use Rattle.serde_json.specs.View.{number_view, view};
ghost use Rattle.oim_report.specs.code.JsonMember.{seen};
ghost use Rattle.oim_report.specs.code.TapeValues.{IsLeaf};
ghost use Rattle.oim_report.specs.Json.{given, given_of, is_absent, is_no_text, text_of};

use crate::unread::Unread;
use fast_float::Numeral;
use json::Element;
use serde_json::{Number, Value};

/// A JSON value that may be absent. The variants are the cases that readers of sheets and reports
/// distinguish.
#[derive(Clone, Copy, Debug)]
pub(crate) enum JsonMember<'a> {
    Absent,
    /// JSON `null`.
    Nil,
    Text(&'a str),
    /// A number that `serde_json` reads as an integer.
    Whole(i128),
    Other,
}

impl<'a> JsonMember<'a> {
    pub(crate) fn of(member: Option<&'a Value>) -> JsonMember<'a>
        ensures { seen result ≡ given_of (option_map (λ v. view v.now) member.entry) }
    {
        match member {
            Some(value) => JsonMember::of_value(value),
            None => JsonMember::Absent,
        }
    }

    pub(crate) fn of_value(value: &'a Value) -> JsonMember<'a>
        ensures { seen result ≡ given (view value.now) }
    {
        match value {
            Value::Null => JsonMember::Nil,
            Value::String(text) => JsonMember::Text(text.as_str()),
            Value::Number(number) => match number.as_i128() {
                Some(whole) => JsonMember::Whole(whole),
                None => JsonMember::Other,
            },
            _ => JsonMember::Other,
        }
    }

    /// Returns the value at this place of a tape. The result is `NeedsTree` if the value is not a
    /// text, `null` or an integer that `whole_number` reads.
    pub(crate) fn of_element(element: &Element<'_, 'a>) -> Result<JsonMember<'a>, Unread>
        ensures { (v : Json) → BeginsWith element.now v → IfOk result (λ m. IsLeaf v (seen m)) }
    {
        if let Some(text) = element.as_str() {
            return Ok(JsonMember::of_text(text));
        }
        if element.is_null() {
            return Ok(JsonMember::Nil);
        }
        let Some(digits) = element.as_number() else {
            return Err(Unread::NeedsTree);
        };
        match whole_number(digits) {
            Some(whole) => Ok(JsonMember::Whole(whole)),
            None => Err(Unread::NeedsTree),
        }
    }

    fn of_text(text: &'a str) -> JsonMember<'a>
        ensures { given (string text.now) ≡ seen result }
    {
        JsonMember::Text(text)
    }

    pub(crate) fn text(self) -> Option<&'a str>
        ensures { option_map (λ t. t.now) result ≡ text_of (seen self.entry) }
    {
        match self {
            JsonMember::Text(text) => Some(text),
            _ => None,
        }
    }

    pub(crate) fn is_absent(self) -> bool
        ensures { result ≡ is_absent (seen self.entry) }
    {
        matches!(self, JsonMember::Absent)
    }

    pub(crate) fn is_no_text(self) -> bool
        ensures { result ≡ is_no_text (seen self.entry) }
    {
        !matches!(self, JsonMember::Absent | JsonMember::Text(_))
    }
}

// Returns the integer that `serde_json` reads. The result is `None` for `-0`, for a number
// with a point or an exponent, and for an integer that does not fit in 64 bits.
fn whole_number(digits: &str) -> Option<i128>
    ensures { IfSome result
        (λ n. (found : Num) × (number_of digits.now ≡ Some found) × (as_integer found ≡ Some n)) }
{
    let number = read_number(digits)?;
    number.as_i128()
}

/// Returns the number that `serde_json` reads, or `None` if it is too large for a float.
pub(crate) fn read_number(digits: &str) -> Option<Number>
    ensures { option_map number_view result ≡ number_of digits.now }
{
    let bytes = digits.as_bytes();
    if has_minus(bytes) {
        negative(&Numeral::scan(&bytes[1..]))
    } else {
        unsigned(&Numeral::scan(bytes))
    }
}

fn has_minus(bytes: &[u8]) -> bool
    ensures value { result ≡ (slice_index bytes.now 0 == 45) }
    ensures len { IsTrue result → 0 < length bytes.now }
{
    !bytes.is_empty() && bytes[0] == b'-'
}

fn negative(numeral: &Numeral<'_>) -> Option<Number>
    ensures { option_map number_view result ≡ number_from true numeral.now }
{
    if let Some(whole) = numeral.to_i64(true) {
        if whole < 0 {
            return Some(Number::from(whole));
        }
    }
    nearest(true, numeral)
}

fn unsigned(numeral: &Numeral<'_>) -> Option<Number>
    ensures { option_map number_view result ≡ number_from false numeral.now }
{
    match numeral.to_u64() {
        Some(whole) => Some(Number::from(whole)),
        None => nearest(false, numeral),
    }
}

fn nearest(is_negative: bool, numeral: &Numeral<'_>) -> Option<Number>
    ensures { option_map number_view result ≡ float_of is_negative numeral.now }
{
    Number::from_f64(numeral.to_float::<f64>(is_negative))
}
