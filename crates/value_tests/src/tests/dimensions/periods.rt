use oim_dims::{Period, read_language, read_period, write_period};
use oim_names::{Reason, Text};
use std::alloc::AllocError;
use test_helpers::asked_again::may_repeat;

// The call is repeated if memory is refused.
pub(super) fn period(rt: &HostRuntime, spelled: &str) -> Result<Period, Reason> {
    match read_period(rt.alloc(), spelled) {
        Err(Reason::OutOfMemory) if may_repeat(rt) => read_period(rt.alloc(), spelled),
        answer => answer,
    }
}

fn period_text(rt: &HostRuntime, period: &Period) -> Result<Option<Text>, AllocError> {
    match write_period(rt.alloc(), period) {
        Err(_) if may_repeat(rt) => write_period(rt.alloc(), period),
        answer => answer,
    }
}

pub(super) fn language(rt: &HostRuntime, spelled: &str) -> Result<Text, Reason> {
    match read_language(rt.alloc(), spelled) {
        Err(Reason::OutOfMemory) if may_repeat(rt) => read_language(rt.alloc(), spelled),
        answer => answer,
    }
}

// Texts of instants, their seconds, and the texts that they are written as.
const INSTANTS: [(&str, i64, &str); 29] = [
    ("1970-01-01T00:00:00", 0, "1970-01-01T00:00:00"),
    ("1969-12-31T23:59:59", -1, "1969-12-31T23:59:59"),
    ("0001-01-01T00:00:00", -62135596800, "0001-01-01T00:00:00"),
    ("9999-12-31T23:59:59", 253402300799, "9999-12-31T23:59:59"),
    ("9999-12-30T24:00:00", 253402214400, "9999-12-31T00:00:00"),
    ("2020-12-31T24:00:00", 1609459200, "2021-01-01T00:00:00"),
    ("2021-01-01T00:00:00", 1609459200, "2021-01-01T00:00:00"),
    // a duration without length is an instant
    (
        "2021-01-01T00:00:00/2021-01-01T00:00:00",
        1609459200,
        "2021-01-01T00:00:00",
    ),
    (
        "2020-12-31T24:00:00/2021-01-01T00:00:00",
        1609459200,
        "2021-01-01T00:00:00",
    ),
    ("0099-12-31T24:00:00", -59011459200, "0100-01-01T00:00:00"),
    ("2000-02-28T24:00:00", 951782400, "2000-02-29T00:00:00"),
    ("1969-07-20T20:17:40", -14182940, "1969-07-20T20:17:40"),
    ("2000-02-29T12:34:56", 951827696, "2000-02-29T12:34:56"),
    ("1900-02-28T24:00:00", -2203891200, "1900-03-01T00:00:00"),
    ("1900-03-01T00:00:00", -2203891200, "1900-03-01T00:00:00"),
    ("2020-02-29T24:00:00", 1583020800, "2020-03-01T00:00:00"),
    ("2020-03-01T00:00:00", 1583020800, "2020-03-01T00:00:00"),
    ("2021-01-31T00:00:00", 1612051200, "2021-01-31T00:00:00"),
    ("2021-02-28T24:00:00", 1614556800, "2021-03-01T00:00:00"),
    ("2021-03-31T00:00:00", 1617148800, "2021-03-31T00:00:00"),
    ("2021-04-30T00:00:00", 1619740800, "2021-04-30T00:00:00"),
    ("2021-05-31T00:00:00", 1622419200, "2021-05-31T00:00:00"),
    ("2021-06-30T00:00:00", 1625011200, "2021-06-30T00:00:00"),
    ("2021-07-31T00:00:00", 1627689600, "2021-07-31T00:00:00"),
    ("2021-08-31T00:00:00", 1630368000, "2021-08-31T00:00:00"),
    ("2021-09-30T00:00:00", 1632960000, "2021-09-30T00:00:00"),
    ("2021-10-31T00:00:00", 1635638400, "2021-10-31T00:00:00"),
    ("2021-11-30T00:00:00", 1638230400, "2021-11-30T00:00:00"),
    ("2021-12-31T00:00:00", 1640908800, "2021-12-31T00:00:00"),
];

const YEAR: &str = "2020-01-01T00:00:00/2020-12-31T24:00:00";

const YEAR_TEXT: &str = "2020-01-01T00:00:00/2021-01-01T00:00:00";

const NO_PERIODS: [&str; 37] = [
    "",
    "/",
    "2020-12-31",
    "2021-01-01T00:00",
    "2021-01-01T00:00:00Z",
    "2021-01-01T00:00:00+01:00",
    "2021-01-01T00:00:00.0",
    "2021-01-01t00:00:00",
    "2021-01-01 00:00:00",
    "2021-1-01T00:00:00",
    "+2021-01-01T00:00:00",
    "-021-01-01T00:00:00",
    "12021-01-01T00:00:00",
    "0000-01-01T00:00:00",
    "0000-12-31T24:00:00",
    "9999-12-31T24:00:00",
    "2021-00-01T00:00:00",
    "2021-13-01T00:00:00",
    "2021-01-00T00:00:00",
    "2021-01-32T00:00:00",
    "2021-02-29T00:00:00",
    "1900-02-29T00:00:00",
    "2021-04-31T00:00:00",
    "2021-06-31T00:00:00",
    "2021-09-31T00:00:00",
    "2021-11-31T00:00:00",
    "2020-12-31T24:00:01",
    "2020-12-31T24:01:00",
    "2020-12-31T25:00:00",
    "2020-12-31T23:60:00",
    "2020-12-31T23:59:60",
    "2021-01-01T00:00:0٠",
    "/2021-01-01T00:00:00",
    "2021-01-01T00:00:00/",
    "2021-01-01T00:00:00/2021-01-01T00:00:00/2021-01-01T00:00:00",
    "2021-01-01T00:00:00/2020-12-31",
    "2021-01-01T00:00:00//2022-01-01T00:00:00",
];

const BACKWARD: [&str; 2] = [
    "2021-01-01T00:00:00/2020-01-01T00:00:00",
    "2021-01-01T00:00:01/2021-01-01T00:00:00",
];

// Returns the start in seconds, and the end in seconds if there is one.
fn bounds(period: &Period) -> Option<(i64, Option<i64>)> {
    match period {
        Period::Instant(moment) => Some((moment.seconds(), None)),
        Period::Duration(start, end) => Some((start.seconds(), Some(end.seconds()))),
        Period::Forever => None,
    }
}

fn has_text(rt: &HostRuntime, period: &Period, plain: &str) -> bool {
    match period_text(rt, period) {
        Ok(Some(written)) => written.as_str() == plain,
        _ => false,
    }
}

fn is_period(rt: &HostRuntime, spelled: &str, wanted: (i64, Option<i64>), plain: &str) -> bool {
    match period(rt, spelled) {
        Ok(period) => bounds(&period) == Some(wanted) && has_text(rt, &period, plain),
        Err(_) => false,
    }
}

fn is_refused(rt: &HostRuntime, spelled: &str, reason: Reason) -> bool {
    period(rt, spelled) == Err(reason)
}

#[test]
fn periods_are_read_and_written(rt: HostRuntime) {
    for (spelled, seconds, plain) in &INSTANTS {
        assert!(rt;
            is_period(&rt, spelled, (*seconds, None), plain),
            "{spelled}"
        );
    }
    assert!(rt; is_period(&rt, YEAR, (1577836800, Some(1609459200)), YEAR_TEXT));
    for spelled in &NO_PERIODS {
        assert!(rt; is_refused(&rt, spelled, Reason::PeriodForm), "{spelled}");
    }
    for spelled in &BACKWARD {
        assert!(rt; is_refused(&rt, spelled, Reason::PeriodOrder), "{spelled}");
    }
    assert!(rt; period_text(&rt, &Period::Forever) == Ok(None));
}

// Languages, and the texts that they are kept as.
const LANGUAGES: [(&str, &str); 4] = [
    ("EN-gb", "en-gb"),
    ("x", "x"),
    ("ABCDEFGH-12345678", "abcdefgh-12345678"),
    ("de-1996-CH", "de-1996-ch"),
];

const NO_LANGUAGES: [&str; 12] = [
    "",
    "-",
    "en_GB",
    "en-",
    "-en",
    "en--gb",
    "abcdefghi",
    "en-123456789",
    "e1",
    "1",
    "en gb",
    "én",
];

fn is_kept(rt: &HostRuntime, spelled: &str, kept: &str) -> bool {
    match language(rt, spelled) {
        Ok(found) => found.as_str() == kept,
        Err(_) => false,
    }
}

fn is_no_language(rt: &HostRuntime, spelled: &str) -> bool {
    language(rt, spelled) == Err(Reason::LanguageForm)
}

#[test]
fn languages_are_kept_in_lower_case(rt: HostRuntime) {
    for (spelled, kept) in &LANGUAGES {
        assert!(rt; is_kept(&rt, spelled, kept), "{spelled}");
    }
    for spelled in &NO_LANGUAGES {
        assert!(rt; is_no_language(&rt, spelled), "{spelled}");
    }
}
