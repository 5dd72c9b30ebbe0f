ghost use Rattle.std.specs.Prelude.{◌≡◌, ◌-◌, ◌^◌, ◌<◌, ◌≤◌, ◌==◌, ◌&&◌, nat_le, true, pos, neg_ℤ, length, slice_range, IsTrue, Some, None, if◌then◌else◌, IfSome};
ghost use Rattle.std.specs.List.{list_all};
ghost use Rattle.std.specs.Char.{is_ascii_digit};
ghost use Rattle.std.specs.Str.Parse.{digits_value};
ghost use Rattle.oim_dims.specs.declared.limits.TheConstants.{DAY_SECONDS};
ghost use Rattle.oim_dims.specs.DateTime.{matches_picture, has_picture, has_date, has_time, day_number, second_of_day, moment_of, moment_text, date_text, time_text, number, picture, IsMoment};
ghost use Rattle.jiff.specs.Words.{IsBetween, date_text as jiff_date_text, time_text as jiff_time_text, iso_datetime_text};

use crate::limits::{DAY_SECONDS, LAST_MOMENT};
use jiff::ToSpan;
use jiff::civil::{Date, DateTime, Time, date};
use std::fmt;
use std::marker::Model;

/// The form of a date-time; `0` means any digit.
const PICTURE: [u8; 19] = *b"0000-00-00T00:00:00";

/// A whole second of the years 0001 to 9999, without a time zone.
#[derive(Clone, Copy, Debug, PartialEq, Eq, PartialOrd, Ord)]
pub struct Moment {
    seconds: i64,
}

impl Model for Moment {
    ghost use Rattle.std.specs.Prelude.{ℤ};

    ghost Value = { ℤ };

    ghost view = { λ a. a.seconds };

    ghost use Rattle.oim_dims.specs.DateTime.{IsMoment};

    ghost invariant = { λ a. IsMoment a.seconds };

    ghost inverse = { λ z. record { seconds = z } };
}

impl Moment {
    /// Returns the seconds since 1970-01-01T00:00:00. Each day has 86,400 seconds.
    pub fn seconds(&self) -> i64
        ensures value { result ≡ self.now }
        ensures range { IsMoment self.now }
    {
        self.seconds
    }

    #[tactic(auto, unfolding(crate::specs::DateTime::moment_text))]
    fn date_time(&self) -> DateTime
        ensures { iso_datetime_text result ≡ moment_text self.now }
    {
        let day = self.seconds.div_euclid(DAY_SECONDS as i64);
        let second = self.seconds.rem_euclid(DAY_SECONDS as i64) as u32;
        date_of(day).to_datetime(time_of(second))
    }
}

impl fmt::Display for Moment {
    ghost output = { λ x. Some (moment_text x) };

    fn fmt<W: fmt::Write>(&self, f: &mut fmt::Formatter<W>) -> fmt::Result {
        fmt::Display::fmt(&self.date_time(), f)
    }
}

fn date_of(day: i64) -> Date
    requires { IsBetween (neg_ℤ (pos 719_162)) (pos 2_932_896) day }
    ensures { jiff_date_text result ≡ date_text day }
{
    date(1970, 1, 1).checked_add(day.days()).unwrap()
}

#[tactic(auto, unfolding(crate::specs::DateTime::time_text))]
fn time_of(second: u32) -> Time
    requires { second < DAY_SECONDS }
    ensures { jiff_time_text None result ≡ time_text second }
{
    let hour = (second / 3600) as i8;
    let minute = (second / 60 % 60) as i8;
    Time::new(hour, minute, (second % 60) as i8, 0).unwrap()
}

pub(crate) fn read_moment(text: &[u8]) -> Option<Moment>
    ensures { result ≡ moment_of text.now }
{
    if !has_picture(text) {
        return None;
    }
    let day = read_day(text)?;
    let second = read_second_of_day(text)?;
    let seconds = day * DAY_SECONDS as i64 + second;
    if seconds > LAST_MOMENT {
        return None;
    }
    Some(Moment { seconds })
}

#[tactic(auto, unfolding(crate::specs::DateTime::has_picture))]
fn has_picture(text: &[u8]) -> bool
    ensures { result ≡ has_picture text.now }
{
    if text.len() != PICTURE.len() {
        return false;
    }
    for (i, c) in text.iter().enumerate() {
        if !matches_picture(PICTURE[i], *c) {
            return false;
        }
    }
    true
}

fn matches_picture(sign: u8, c: u8) -> bool
    ensures { result ≡ matches_picture (sign, c) }
{
    if sign == b'0' {
        c.is_ascii_digit()
    } else {
        c == sign
    }
}

#[tactic(auto, unfolding(crate::specs::DateTime::has_date, crate::specs::DateTime::day_number))]
fn read_day(text: &[u8]) -> Option<i64>
    requires { has_picture text.now ≡ true }
    ensures day { result ≡ (if has_date text.now then Some (day_number text.now) else None) }
    ensures range { IfSome result (IsBetween (neg_ℤ (pos 719_162)) (pos 2_932_896)) }
{
    let year = number(text, 0, 4);
    let month = number(text, 5, 7);
    let day = number(text, 8, 10);
    if year == 0 {
        return None;
    }
    match Date::new(year as i16, month as i8, day as i8) {
        Ok(date) => Some(i64::from(date.to_plain().to_unix_epoch_day())),
        Err(_) => None,
    }
}

#[tactic(auto, unfolding(crate::specs::DateTime::has_time, crate::specs::DateTime::second_of_day))]
fn read_second_of_day(text: &[u8]) -> Option<i64>
    requires { has_picture text.now ≡ true }
    ensures second { result ≡ (if has_time text.now then Some (pos (second_of_day text.now)) else None) }
    ensures range { IfSome result (IsBetween (pos 0) (pos DAY_SECONDS)) }
{
    let minute = number(text, 14, 16);
    let second = number(text, 17, 19);
    let total = 3600 * number(text, 11, 13) + 60 * minute + second;
    if minute <= 59 && second <= 59 && total <= DAY_SECONDS {
        Some(i64::from(total))
    } else {
        None
    }
}

fn number(text: &[u8], from: usize, to: usize) -> u32
    requires picture { has_picture text.now ≡ true }
    requires indices { IsTrue (nat_le from to && nat_le to 19 && nat_le (to - from) 4) }
    requires digits { IsTrue (list_all (λ sign. sign == 48) (slice_range picture from to)) }
    ensures value { result ≡ number text.now from to }
    ensures bound { result < 10 ^ (to - from) }
{
    number_of(&text[from..to])
}

fn number_of(digits: &[u8]) -> u32
    requires digits { list_all is_ascii_digit digits.now ≡ true }
    requires few { length digits.now ≤ 4 }
    ensures value { result ≡ digits_value 10 digits.now }
    ensures bound { result < 10 ^ length digits.now }
{
    let mut number = 0;
    for c in digits {
        number = number * 10 + u32::from(*c - b'0');
    }
    number
}
