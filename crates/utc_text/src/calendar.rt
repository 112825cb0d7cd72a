//! Civil times of the Gregorian calendar and their counts.

ghost use Rattle.std.specs.Prelude.{◌≡◌, ◌↔◌, pos, IsTrue, MatchOption};
ghost use Rattle.std.specs.Int.{IsInRange};
ghost use Rattle.jiff_core.specs.Calendar.{days_in_month};
ghost use Rattle.utc_text.specs.Civil.{IsCivil, IsInYears, IsWrittenDay, IsWrittenYear, civil_count, day_number, midnight_count};

use crate::units::SECOND;
use jiff::ToSpan;
use jiff::civil::{Date, date};

// The first year that is written.
pub(crate) const FIRST_YEAR: u16 = 1582;

// The last year that is written.
const LAST_YEAR: u16 = 9999;

// Units of 100 ns in a day.
const DAY: i128 = 864_000_000_000;

// Days from 1582-10-15 to 1970-01-01.
const DAYS_TO_1970: i64 = 141_427;

// The day number of 1582-01-01, from 1582-10-15.
const FIRST_DAY: i128 = -287;

// The day number of 10000-01-01, from 1582-10-15.
const END_DAY: i128 = 3_074_324;

// The count of 1970-01-01 00:00:00.
const COUNT_OF_1970: i128 = 122_192_928_000_000_000;

/// A date of the Gregorian calendar and a time of day.
#[derive(Clone, Copy, Debug, PartialEq, Eq)]
pub struct Civil {
    /// The year, 1582 to 9999.
    pub year: i16,
    /// The month, 1 to 12.
    pub month: u8,
    /// The day of the month, from 1.
    pub day: u8,
    /// The hour, 0 to 23.
    pub hour: u8,
    /// The minute, 0 to 59.
    pub minute: u8,
    /// The second, 0 to 59.
    pub second: u8,
    /// Units of 100 ns after the second, 0 to 9,999,999.
    pub units: u32,
}

// The days of a month.
pub(crate) fn month_days(year: u16, month: u8) -> u8
    requires year { IsWrittenYear (pos year) }
    requires month { IsInRange 1 12 month }
    ensures { result ≡ days_in_month (pos year) month }
{
    date(year as i16, month as i8, 1).days_in_month() as u8
}

// The count of a date's first midnight.
fn count_of_midnight(day: Date) -> i128
    ensures { result ≡ midnight_count day.year day.month day.day }
{
    day.duration_since(date(1970, 1, 1)).as_nanos() / 100 + COUNT_OF_1970
}

// The count of a civil time, taken as UTC.
pub(crate) fn count_of(c: Civil) -> i128
    requires { IsCivil c }
    ensures { result ≡ civil_count c }
{
    let midnight = count_of_midnight(date(c.year, c.month as i8, c.day as i8));
    let minutes = i128::from(c.hour) * 60 + i128::from(c.minute);
    let seconds = minutes * 60 + i128::from(c.second);
    midnight + (seconds * 10_000_000 + i128::from(c.units))
}

// The date that many days after 1582-10-15.
fn date_of_day(day: i64) -> Date
    requires { IsWrittenDay day }
    ensures year { IsWrittenYear result.year }
    ensures day { day_number result.year result.month result.day ≡ day }
{
    date(1970, 1, 1)
        .checked_add((day - DAYS_TO_1970).days())
        .unwrap()
}

// The civil time with that count, where it lies in the years 1582 to 9999.
pub(crate) fn civil_of(count: i128) -> Option<Civil>
    ensures { MatchOption result (¬ IsInYears count) (λ c. IsCivil c × (civil_count c ≡ count)) }
{
    let day = count.div_euclid(DAY);
    if day < FIRST_DAY || END_DAY <= day {
        return None;
    }
    let date = date_of_day(day as i64);
    let units = count.rem_euclid(DAY) as u64;
    let seconds = units / SECOND;
    Some(Civil {
        year: date.year(),
        month: date.month() as u8,
        day: date.day() as u8,
        hour: (seconds / 3600) as u8,
        minute: (seconds / 60 % 60) as u8,
        second: (seconds % 60) as u8,
        units: (units % SECOND) as u32,
    })
}

// Whether it is a date of the years 1582 to 9999 and a time of day.
pub(crate) fn is_civil(c: Civil) -> bool
    ensures { IsTrue result ↔ IsCivil c }
{
    is_date(c.year, c.month, c.day)
        && c.hour < 24
        && c.minute < 60
        && c.second < 60
        && c.units < 10_000_000
}

// Whether it is a date of the years 1582 to 9999.
fn is_date(year: i16, month: u8, day: u8) -> bool
    ensures { IsTrue result ↔ (IsWrittenYear year × IsInRange 1 12 month × IsInRange 1 (days_in_month year month) day) }
{
    if year < FIRST_YEAR as i16 || (LAST_YEAR as i16) < year || month < 1 || 12 < month {
        return false;
    }
    1 <= day && day <= month_days(year as u16, month)
}
