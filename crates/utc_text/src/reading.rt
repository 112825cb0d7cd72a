//! Reads texts of times, field by field.

ghost use Rattle.std.specs.Prelude.{◌≡◌, ◌≤◌, ◌<◌, ◌^◌, ◌+◌, ◌-◌, ◌*◌, if◌then◌else◌, ◌↔◌, Ok, Err, pos, neg_ℤ, ◌≤ℤ◌, FitsSigned, IfOk, IfErr, IfSome};
ghost use Rattle.std.specs.Int.{w64, IsInRange};
ghost use Rattle.jiff_core.specs.Calendar.{days_in_month};
ghost use Rattle.utc_value.specs.Stamp.{Stamp, IsTdf, IsInaccuracy};
ghost use Rattle.utc_text.specs.Civil.{clock_units, IsCivil, IsWrittenYear};
ghost use Rattle.utc_text.specs.declared.fields.TheConstants.{MAX_DAYS};
ghost use Rattle.utc_text.specs.Fields.{GivesField};
ghost use Rattle.utc_text.specs.FirstWrong.{IsAbsoluteFault, IsRelativeFault, fault_at};
ghost use Rattle.utc_text.specs.Grammar.{signed, YearMonthDay};
ghost use Rattle.utc_text.specs.Texts.{SpellsAbsolute, SpellsRelative};
ghost use Rattle.utc_text.specs.Reading.{absolute_of, relative_of, GivesText, fits_time, Clock as ClockText, Moment as MomentText, Length as LengthText, right_at, date_of, clock_of, tdf_minute_of, tdf_of, end_of, moment_of, sign_at, time_of, length_of};

use crate::calendar::{Civil, month_days};
use crate::dates::count_in_utc;
use crate::fault::{TextFault, TextField};
use crate::fields;
use crate::units::{DAY, SECOND};
use utc_value::Utc;

// A date of the years 1582 to 9999.
#[derive(Clone, Copy)]
struct YearMonthDay {
    year: u16,
    month: u8,
    day: u8,
}

// A time of day.
#[derive(Clone, Copy)]
struct Clock {
    hour: u8,
    minute: u8,
    second: u8,
    units: u32,
}

// The fault of a field that is not right where `left` is left of the text.
#[tactic(auto, unfolding(crate::specs::FirstWrong::fault_at))]
fn fault(text: &[u8], field: TextField, left: &[u8]) -> TextFault
    ensures { result ≡ fault_at text.now field left.now }
{
    let offset = text.len().saturating_sub(left.len()).min(u32::MAX as usize) as u32;
    TextFault { field, offset }
}

#[tactic(auto, unfolding(crate::specs::Reading::date_of, crate::specs::Reading::right_at))]
fn read_date<'a>(text: &[u8], left: &'a [u8]) -> Result<(YearMonthDay, &'a [u8]), TextFault>
    ensures value { GivesText (λ x. (record { year = x.0.year; month = x.0.month; day = x.0.day }, x.1.now)) result (date_of text.now left.now) }
    ensures year { IfOk result (λ x. IsWrittenYear (pos x.0.year)) }
    ensures month { IfOk result (λ x. IsInRange 1 12 x.0.month) }
    ensures day { IfOk result (λ x. IsInRange 1 (days_in_month (pos x.0.year) x.0.month) x.0.day) }
{
    let (year, left) = fields::year(left).ok_or(fault(text, TextField::Year, left))?;
    let (month, left) = fields::part(left, b'-', 1, 12).ok_or(fault(text, TextField::Month, left))?;
    let last = month_days(year, month);
    let (day, left) = fields::part(left, b'-', 1, last).ok_or(fault(text, TextField::Day, left))?;
    Ok((YearMonthDay { year, month, day }, left))
}

#[tactic(auto, unfolding(crate::specs::Reading::clock_of, crate::specs::Reading::right_at))]
fn read_clock<'a>(text: &[u8], left: &'a [u8]) -> Result<(Clock, &'a [u8]), TextFault>
    ensures value { GivesText (λ x. (record { hour = x.0.hour; minute = x.0.minute; second = x.0.second; units = x.0.units }, x.1.now)) result (clock_of text.now left.now) }
    ensures hour { IfOk result (λ x. x.0.hour < 24) }
    ensures minute { IfOk result (λ x. x.0.minute < 60) }
    ensures second { IfOk result (λ x. x.0.second < 60) }
    ensures units { IfOk result (λ x. x.0.units < SECOND) }
{
    let (hour, left) = fields::part(left, b'-', 0, 23).ok_or(fault(text, TextField::Hour, left))?;
    let (minute, left) = fields::part(left, b':', 0, 59).ok_or(fault(
        text,
        TextField::Minute,
        left,
    ))?;
    let (second, left) = fields::part(left, b':', 0, 59).ok_or(fault(
        text,
        TextField::Second,
        left,
    ))?;
    let (units, left) = fields::fraction(left).ok_or(fault(text, TextField::Fraction, left))?;
    Ok((
        Clock {
            hour,
            minute,
            second,
            units,
        },
        left,
    ))
}

// The minutes of a sign, hours and minutes.
fn signed_minutes(west: bool, hours: u8, minutes: u8) -> i16
    requires hours { hours ≤ 23 }
    requires minutes { minutes ≤ 59 }
    ensures value { result ≡ signed west (hours * 60 + minutes) }
    ensures bound { IsTdf result }
{
    let minutes = i16::from(hours) * 60 + i16::from(minutes);
    if west { -minutes } else { minutes }
}

// The minutes of a time differential factor, behind its sign and hours where those stand there.
#[tactic(auto, unfolding(crate::specs::Reading::tdf_minute_of, crate::specs::Reading::right_at))]
fn read_tdf_minute<'a>(
    text: &[u8],
    left: &'a [u8],
    hour: Option<(bool, u8)>,
) -> Result<(i16, &'a [u8]), TextFault>
    requires { IfSome hour (λ h. h.1 ≤ 23) }
    ensures value { GivesText (λ x. (x.0, x.1.now)) result (tdf_minute_of text.now left.now hour) }
    ensures bound { IfOk result (λ x. IsTdf x.0) }
{
    let Some((west, hours)) = hour else {
        return Ok((0, left));
    };
    let (minutes, left) = fields::part(left, b':', 0, 59).ok_or(fault(
        text,
        TextField::TdfMinute,
        left,
    ))?;
    Ok((signed_minutes(west, hours, minutes), left))
}

#[tactic(auto, unfolding(crate::specs::Reading::tdf_of, crate::specs::Reading::right_at))]
fn read_tdf<'a>(text: &[u8], left: &'a [u8]) -> Result<(i16, &'a [u8]), TextFault>
    ensures value { GivesText (λ x. (x.0, x.1.now)) result (tdf_of text.now left.now) }
    ensures bound { IfOk result (λ x. IsTdf x.0) }
{
    let (hour, left) = fields::tdf_hour(left).ok_or(fault(text, TextField::TdfHour, left))?;
    read_tdf_minute(text, left, hour)
}

// The inaccuracy, which ends a text.
#[tactic(auto, unfolding(crate::specs::Reading::end_of, crate::specs::Reading::right_at))]
fn read_end(text: &[u8], left: &[u8]) -> Result<Option<u64>, TextFault>
    ensures value { GivesText (λ x. x) result (end_of text.now left.now) }
    ensures bound { IfOk result IsInaccuracy }
{
    let (inaccuracy, left) = fields::inaccuracy(left).ok_or(fault(
        text,
        TextField::Inaccuracy,
        left,
    ))?;
    if !left.is_empty() {
        return Err(fault(text, TextField::Tail, left));
    }
    Ok(inaccuracy)
}

// What an absolute text says.
#[derive(Clone, Copy)]
struct Moment {
    civil: Civil,
    tdf: i16,
    inaccuracy: Option<u64>,
}

#[tactic(auto, unfolding(crate::specs::Reading::moment_of))]
fn read_moment(text: &[u8]) -> Result<Moment, TextFault>
    ensures value { GivesText (λ m. record { civil = m.civil; tdf = m.tdf; inaccuracy = m.inaccuracy }) result (moment_of text.now) }
    ensures civil { IfOk result (λ m. IsCivil m.civil) }
    ensures tdf { IfOk result (λ m. IsTdf m.tdf) }
    ensures inaccuracy { IfOk result (λ m. IsInaccuracy m.inaccuracy) }
{
    let (date, left) = read_date(text, text)?;
    let (clock, left) = read_clock(text, left)?;
    let (tdf, left) = read_tdf(text, left)?;
    let inaccuracy = read_end(text, left)?;
    let civil = Civil {
        year: date.year as i16,
        month: date.month,
        day: date.day,
        hour: clock.hour,
        minute: clock.minute,
        second: clock.second,
        units: clock.units,
    };
    Ok(Moment {
        civil,
        tdf,
        inaccuracy,
    })
}

// Whether a `-` stands there, and what is left behind it.
#[tactic(auto, unfolding(crate::specs::Reading::sign_at))]
fn read_sign(left: &[u8]) -> (bool, &[u8])
    ensures { (result.0, result.1.now) ≡ sign_at left.now }
{
    match left {
        [b'-', rest @ ..] => (true, rest),
        _ => (false, left),
    }
}

// The units of 100 ns in days and a time of day.
fn units_of(days: u32, clock: Clock) -> u64
    requires days { days ≤ MAX_DAYS }
    requires hour { clock.hour < 24 }
    requires minute { clock.minute < 60 }
    requires second { clock.second < 60 }
    requires units { clock.units < SECOND }
    ensures { result ≡ days * DAY + clock_units clock.hour clock.minute clock.second clock.units }
{
    let minutes = u64::from(clock.hour) * 60 + u64::from(clock.minute);
    let seconds = minutes * 60 + u64::from(clock.second);
    u64::from(days) * DAY + (seconds * SECOND + u64::from(clock.units))
}

// That many units with a sign, where they fit the time of a timestamp.
fn signed_time(negative: bool, units: u64) -> Option<i64>
    ensures { GivesField (λ x. x) result (if fits_time negative units then Some (signed negative units) else None) }
{
    let units = i128::from(units);
    i64::try_from(if negative { -units } else { units }).ok()
}

// The time of a relative text, from its days to its fraction, where `left` begins with the days.
#[tactic(auto, unfolding(crate::specs::Reading::time_of, crate::specs::Reading::right_at))]
fn read_time<'a>(text: &[u8], negative: bool, left: &'a [u8]) -> Result<(i64, &'a [u8]), TextFault>
    ensures { GivesText (λ x. (x.0, x.1.now)) result (time_of text.now negative left.now) }
{
    let too_long = fault(text, TextField::Days, left);
    let (days, left) = fields::days(left).ok_or(too_long)?;
    let (clock, left) = read_clock(text, left)?;
    let time = signed_time(negative, units_of(days, clock)).ok_or(too_long)?;
    Ok((time, left))
}

// What a relative text says.
#[derive(Clone, Copy)]
struct Length {
    time: i64,
    inaccuracy: Option<u64>,
}

#[tactic(auto, unfolding(crate::specs::Reading::length_of))]
fn read_length(text: &[u8]) -> Result<Length, TextFault>
    ensures value { GivesText (λ l. record { time = l.time; inaccuracy = l.inaccuracy }) result (length_of text.now) }
    ensures inaccuracy { IfOk result (λ l. IsInaccuracy l.inaccuracy) }
{
    let (negative, left) = read_sign(text);
    let (time, left) = read_time(text, negative, left)?;
    let inaccuracy = read_end(text, left)?;
    Ok(Length { time, inaccuracy })
}

/// Reads the text of an absolute time, as `1970-01-01-00:00:00.0000000+00:00I0.0000000`. It takes
/// no memory. The fault names the first field that is not right.
///
/// The civil time is local: the time is its count minus the time differential factor. Without that
/// factor it is 0, and without an inaccuracy that is unspecified.
pub fn parse_abs(text: &[u8]) -> Result<Utc, TextFault>
    ensures spelled { (u : Stamp) → (result ≡ Ok u) ↔ SpellsAbsolute text.now u }
    ensures first_wrong { (fault : TextFault) → (result ≡ Err fault) ↔ IsAbsoluteFault text.now fault }
{
    read_absolute(text)
}

#[tactic(auto, unfolding(crate::specs::Reading::absolute_of))]
fn read_absolute(text: &[u8]) -> Result<Utc, TextFault>
    ensures { result ≡ absolute_of text.now }
{
    let moment = read_moment(text)?;
    let time = count_in_utc(moment.civil, moment.tdf);
    Ok(Utc::absolute(time, moment.inaccuracy, moment.tdf).unwrap())
}

/// Reads the text of a relative time, as `-00-00:00:01.0000000I-----`. It takes no memory.
/// The fault names the first field that is not right, and Days where the time needs more than 64
/// bits with its sign.
pub fn parse_rel(text: &[u8]) -> Result<Utc, TextFault>
    ensures spelled { (u : Stamp) → (result ≡ Ok u) ↔ SpellsRelative text.now u }
    ensures first_wrong { (fault : TextFault) → (result ≡ Err fault) ↔ IsRelativeFault text.now fault }
{
    read_relative(text)
}

#[tactic(auto, unfolding(crate::specs::Reading::relative_of))]
fn read_relative(text: &[u8]) -> Result<Utc, TextFault>
    ensures { result ≡ relative_of text.now }
{
    let length = read_length(text)?;
    Ok(Utc::relative(length.time, length.inaccuracy).unwrap())
}
