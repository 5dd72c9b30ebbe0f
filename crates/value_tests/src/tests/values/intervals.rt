use super::{EXACT, UNIT, are_written, finite};
use oim_value::{Interval, common, interval_of, meets, read_fixed};

const HALF: i128 = UNIT / 2;

// A number and its decimals.
type Rounded = (&'static str, i64);

fn interval(number: &Rounded) -> Interval {
    match read_fixed(number.0) {
        Ok(fixed) => interval_of(fixed, finite(number.1)),
        Err(_) => Interval { low: 1, high: 0 },
    }
}

// Numbers, and the ends of their intervals as units of 10^-19 and as texts.
const INTERVALS: [(Rounded, i128, i128, &str, &str); 11] = [
    (
        ("100", 0),
        100 * UNIT - HALF,
        100 * UNIT + HALF,
        "99.5",
        "100.5",
    ),
    (
        ("1234567", -3),
        1234067 * UNIT,
        1235067 * UNIT,
        "1234067",
        "1235067",
    ),
    (
        ("1234067", EXACT),
        1234067 * UNIT,
        1234067 * UNIT,
        "1234067",
        "1234067",
    ),
    (
        ("-1.5", 1),
        -15500000000000000000,
        -14500000000000000000,
        "-1.55",
        "-1.45",
    ),
    (
        ("1", 12),
        9999999999995000000,
        10000000000005000000,
        "0.9999999999995",
        "1.0000000000005",
    ),
    (
        ("1", 18),
        UNIT - 5,
        UNIT + 5,
        "0.9999999999999999995",
        "1.0000000000000000005",
    ),
    (
        ("1", -18),
        -499999999999999999 * UNIT,
        500000000000000001 * UNIT,
        "-499999999999999999",
        "500000000000000001",
    ),
    (
        ("999999999999999999", -18),
        499999999999999999 * UNIT,
        1499999999999999999 * UNIT,
        "499999999999999999",
        "1499999999999999999",
    ),
    (
        ("0.123456789012345678", 12),
        1234567890118456780,
        1234567890128456780,
        "0.123456789011845678",
        "0.123456789012845678",
    ),
    (
        ("0.123456789012345678", -12),
        -4999999999998765432109876543220,
        5000000000001234567890123456780,
        "-499999999999.876543210987654322",
        "500000000000.123456789012345678",
    ),
    (
        ("999999999999999999", -12),
        999999499999999999 * UNIT,
        1000000499999999999 * UNIT,
        "999999499999999999",
        "1000000499999999999",
    ),
];

fn is_interval(rt: &HostRuntime, row: &(Rounded, i128, i128, &str, &str)) -> bool {
    let (number, low, high, low_text, high_text) = row;
    interval(number)
        == Interval {
            low: *low,
            high: *high,
        }
        && are_written(rt, *low, low_text)
        && are_written(rt, *high, high_text)
}

#[test]
fn intervals_go_half_a_place_to_each_side(rt: HostRuntime) {
    for row in &INTERVALS {
        assert!(rt; is_interval(&rt, row), "{}", row.3);
    }
}

// Two numbers, and whether their intervals meet.
const PAIRS: [(Rounded, Rounded, bool); 15] = [
    (("100", 0), ("101", 0), true),
    (("101", 0), ("102", 0), true),
    (("100", 0), ("102", 0), false),
    (("100", 0), ("100.5", EXACT), true),
    (("100", 0), ("100.500000000000001", EXACT), false),
    (("1234567", -3), ("1234067", EXACT), true),
    (("1234567", -3), ("1234066.9", EXACT), false),
    (("100", 0), ("104", -2), true),
    (("103", 0), ("104", -2), true),
    (("100", 0), ("103", 0), false),
    (("7", EXACT), ("7.0", EXACT), true),
    (("7", EXACT), ("7.000000000000001", EXACT), false),
    (("999999999999999999", -12), ("1", 12), false),
    (
        ("0.000000000000000001", 18),
        ("0.000000000000000002", 18),
        true,
    ),
    (
        ("0.000000000000000001", 18),
        ("0.000000000000000003", 18),
        false,
    ),
];

fn meet_so(row: &(Rounded, Rounded, bool)) -> bool {
    meets(interval(&row.0), interval(&row.1)) == row.2
}

#[test]
fn touching_intervals_meet(rt: HostRuntime) {
    for row in &PAIRS {
        assert!(rt; meet_so(row), "{}", row.1.0);
    }
}

// Two numbers, and the ends of the common part of their intervals. The part may be empty.
const COMMON: [(Rounded, Rounded, i128, i128); 4] = [
    (("100", 0), ("101", 0), 100 * UNIT + HALF, 100 * UNIT + HALF),
    (("100", 0), ("102", 0), 101 * UNIT + HALF, 100 * UNIT + HALF),
    (("100", 0), ("104", -2), 99 * UNIT + HALF, 100 * UNIT + HALF),
    (("1", 0), ("1", EXACT), UNIT, UNIT),
];

fn have_common(row: &(Rounded, Rounded, i128, i128)) -> bool {
    let both = common(interval(&row.0), interval(&row.1));
    both.low == row.2 && both.high == row.3
}

#[test]
fn common_part_may_be_empty(rt: HostRuntime) {
    for row in &COMMON {
        assert!(rt; have_common(row), "{}", row.1.0);
    }
}
