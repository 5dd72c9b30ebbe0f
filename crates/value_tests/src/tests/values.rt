mod intervals;

use super::asked_again::{aliases_of, equals_its_copy, expand, is_text, text as text_of};
use oim_names::{Name, Reason, Text};
use oim_value::{Decimals, Fixed, Level, Value, read_fixed, value_meets, write_fixed, write_units};
use std::alloc::AllocError;
use test_helpers::asked_again::may_repeat;

pub(crate) const UNIT: i128 = 10_000_000_000_000_000_000;

/// The greatest number, eighteen nines, in units of 10^-19.
const GREATEST: i128 = 999_999_999_999_999_999 * UNIT;

fn written(rt: &HostRuntime, number: Fixed) -> Result<Text, AllocError> {
    match write_fixed(rt.alloc(), number) {
        Err(_) if may_repeat(rt) => write_fixed(rt.alloc(), number),
        text => text,
    }
}

fn are_written(rt: &HostRuntime, units: i128, plain: &str) -> bool {
    match write_units(rt.alloc(), units) {
        Err(_) if may_repeat(rt) => is_text(write_units(rt.alloc(), units), plain),
        text => is_text(text, plain),
    }
}

// Texts of numbers, their numbers in units of 10^-19, and the texts that these are written as.
const NUMBERS: [(&str, i128, &str); 16] = [
    ("0", 0, "0"),
    ("-0", 0, "0"),
    ("+0.00", 0, "0"),
    (".0", 0, "0"),
    ("1.", UNIT, "1"),
    ("-1", -UNIT, "-1"),
    ("+12.50", 12 * UNIT + UNIT / 2, "12.5"),
    ("-.50", -UNIT / 2, "-0.5"),
    ("100.25", 100 * UNIT + UNIT / 4, "100.25"),
    ("0.10000000000000000000", UNIT / 10, "0.1"),
    ("-0.000000000000000001", -10, "-0.000000000000000001"),
    ("0.000000000000000001", 10, "0.000000000000000001"),
    ("0.999999999999999999", UNIT - 10, "0.999999999999999999"),
    ("000999999999999999999", GREATEST, "999999999999999999"),
    ("-999999999999999999.000", -GREATEST, "-999999999999999999"),
    (
        "123456789.012345678",
        123456789012345678 * (UNIT / 1_000_000_000),
        "123456789.012345678",
    ),
];

const NO_NUMBERS: [(Reason, &[&str]); 2] = [
    (
        Reason::NumberForm,
        &[
            "", ".", "+", "-", "+.", "--1", "+-1", "1e2", "1E2", "INF", "-INF", "NaN", " 1", "1 ",
            "1\n", "1 000", "1,5", "1.2.3", "1-", "0x1", "١",
        ],
    ),
    (
        Reason::NumberDigits,
        &[
            "1000000000000000000",
            "-1000000000000000000.0",
            "0.0000000000000000001",
            "0.1234567890123456789",
            "1234567890.123456789",
        ],
    ),
];

const UNITS: [(i128, &str); 6] = [
    (0, "0"),
    (1, "0.0000000000000000001"),
    (-1, "-0.0000000000000000001"),
    (10 * UNIT + UNIT / 10, "10.1"),
    (i128::MAX, "17014118346046923173.1687303715884105727"),
    (i128::MIN, "-17014118346046923173.1687303715884105728"),
];

fn is_number(rt: &HostRuntime, row: &(&str, i128, &str)) -> bool {
    match read_fixed(row.0) {
        Ok(number) => number.units() == row.1 && is_text(written(rt, number), row.2),
        Err(_) => false,
    }
}

fn are_refused(reason: Reason, texts: &[&str]) -> bool {
    for text in texts {
        if read_fixed(text) != Err(reason) {
            return false;
        }
    }
    true
}

#[test]
fn numbers_are_read_and_written(rt: HostRuntime) {
    for row in &NUMBERS {
        assert!(rt; is_number(&rt, row), "{}", row.0);
    }
    for (reason, texts) in &NO_NUMBERS {
        assert!(rt; are_refused(*reason, texts));
    }
    for (units, plain) in &UNITS {
        assert!(rt; are_written(&rt, *units, plain), "{plain}");
    }
}

const DECIMALS: [(i64, Option<i8>); 15] = [
    (i64::MIN, None),
    (-256, None),
    (-129, None),
    (-19, None),
    (-18, Some(-18)),
    (-13, Some(-13)),
    (-1, Some(-1)),
    (0, Some(0)),
    (13, Some(13)),
    (18, Some(18)),
    (19, None),
    (128, None),
    (244, None),
    (256, None),
    (i64::MAX, None),
];

fn has_places(number: i64, places: Option<i8>) -> bool {
    match Decimals::finite(number) {
        Ok(decimals) => decimals.get() == places,
        Err(reason) => places == None && reason == Reason::DecimalsRange,
    }
}

#[test]
fn decimals_have_a_range(rt: HostRuntime) {
    for (number, places) in &DECIMALS {
        assert!(rt; has_places(*number, *places), "{number}");
    }
    assert!(rt; Decimals::INFINITE.get() == None && equals_its_copy(&rt, &finite(2)));
}

const LEVELS: [(&str, Level); 4] = [
    ("none", Level::Unique),
    ("complete", Level::Complete),
    ("consistent", Level::Consistent),
    ("all", Level::All),
];

#[test]
fn levels_have_their_texts(rt: HostRuntime) {
    for (text, level) in &LEVELS {
        assert!(rt;
            Level::read(text) == Some(*level) && level.text() == *text,
            "{text}"
        );
    }
    assert!(rt; Level::read("None") == None && Level::read("all ") == None);
    assert!(rt; Level::Unique < Level::Complete && Level::Consistent < Level::All);
}

/// Returns the decimals with this number, or infinite decimals if the number is out of range.
pub(crate) fn finite(number: i64) -> Decimals {
    match Decimals::finite(number) {
        Ok(decimals) => decimals,
        Err(_) => Decimals::INFINITE,
    }
}

// A number of decimals that is out of range, for infinite decimals.
pub(crate) const EXACT: i64 = i64::MAX;

enum Kind {
    Nil,
    Number,
    Text,
    Name,
}

// The kind of a value, its text, and the decimals of a number.
type Spelled = (Kind, &'static str, i64);

fn number(text: &str, places: i64) -> Value {
    match read_fixed(text) {
        Ok(number) => Value::Number(number, finite(places)),
        Err(_) => Value::Nil,
    }
}

fn text(rt: &HostRuntime, text: &str) -> Value {
    match text_of(rt, text) {
        Ok(text) => Value::Text(text),
        Err(_) => Value::Nil,
    }
}

fn name_of(rt: &HostRuntime, text: &str) -> Result<Name, Reason> {
    let aliases = aliases_of(rt, &[("b", "http://a.org"), ("a", "http://b.org")])?;
    expand(rt, &aliases, text)
}

fn name(rt: &HostRuntime, text: &str) -> Value {
    match name_of(rt, text) {
        Ok(name) => Value::Name(name),
        Err(_) => Value::Nil,
    }
}

fn value(rt: &HostRuntime, spelled: &Spelled) -> Value {
    match spelled.0 {
        Kind::Nil => Value::Nil,
        Kind::Number => number(spelled.1, spelled.2),
        Kind::Text => text(rt, spelled.1),
        Kind::Name => name(rt, spelled.1),
    }
}

// Values in ascending order. Two values meet if they have the same number here.
const RISING: [(u8, Spelled); 13] = [
    (0, (Kind::Nil, "", 0)),
    (1, (Kind::Number, "-2", EXACT)),
    (2, (Kind::Number, "-1.5", 12)),
    (3, (Kind::Number, "0", 0)),
    (3, (Kind::Number, "0", 12)),
    (3, (Kind::Number, "0", EXACT)),
    (3, (Kind::Number, "0.000000000000000001", 0)),
    (4, (Kind::Text, "", 0)),
    (5, (Kind::Text, "10", 0)),
    (6, (Kind::Text, "9", 0)),
    (7, (Kind::Text, "é", 0)),
    (8, (Kind::Name, "b:y", 0)),
    (9, (Kind::Name, "a:x", 0)),
];

/// Returns whether the first value is at most the second, and whether the values meet.
fn compared(rt: &HostRuntime, first: &Value, second: &Spelled) -> (bool, bool) {
    let second = value(rt, second);
    (*first <= second, value_meets(first, &second))
}

fn compares(rt: &HostRuntime, index: usize, group: u8, value: &Value) -> bool {
    for (other, (other_group, spelled)) in RISING.iter().enumerate() {
        if compared(rt, value, spelled) != (index <= other, group == *other_group) {
            return false;
        }
    }
    equals_its_copy(rt, value)
}

#[test]
fn values_are_in_order(rt: HostRuntime) {
    for (index, (group, spelled)) in RISING.iter().enumerate() {
        assert!(rt;
            compares(&rt, index, *group, &value(&rt, spelled)),
            "{index}"
        );
    }
}
