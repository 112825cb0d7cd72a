//! Readers of single fields. Each answers the field's value and the octets behind it, or `None`
//! where the octets do not begin with a right text of the field.

ghost use Rattle.std.specs.Prelude.{◌≡◌, ◌≤◌, ◌<◌, ◌^◌, ◌*◌, ◌-◌, length, IfSome};
ghost use Rattle.std.specs.Char.{is_ascii_digit};
ghost use Rattle.std.specs.List.{take_while};
ghost use Rattle.std.specs.Str.Parse.{AllDigits, digits_value};
ghost use Rattle.utc_value.specs.Stamp.{IsInaccuracy};
ghost use Rattle.utc_text.specs.declared.calendar.TheConstants.{LAST_YEAR};
ghost use Rattle.utc_text.specs.Fields.{GivesField, behind, days_at, digits_at, fraction_at, inaccuracy_at, part_at, seconds_at, stated_at, tdf_hour_at, two_digits, year_at};
ghost use Rattle.utc_text.specs.Grammar.{units_of};

use crate::calendar::FIRST_YEAR;
use crate::units::SECOND;
use utc_value::MAX_INACCURACY;

// The most days of a relative time.
pub(crate) const MAX_DAYS: u64 = 10_675_199;

// What stands behind an octet.
#[tactic(auto, unfolding(crate::specs::Fields::behind))]
fn behind(here: &[u8], octet: u8) -> Option<&[u8]>
    ensures { GivesField (λ x. x.now) result (behind octet here.now) }
{
    match here {
        [first, rest @ ..] if *first == octet => Some(rest),
        _ => None,
    }
}

// Two digits.
#[tactic(auto, unfolding(crate::specs::Fields::two_digits))]
fn two_digits(here: &[u8]) -> Option<(u8, &[u8])>
    ensures value { GivesField (λ x. (x.0, x.1.now)) result (two_digits here.now) }
    ensures bound { IfSome result (λ x. x.0 < 100) }
{
    match here {
        [tens, ones, rest @ ..] if tens.is_ascii_digit() && ones.is_ascii_digit() => {
            Some(((tens - b'0') * 10 + (ones - b'0'), rest))
        }
        _ => None,
    }
}

// A separator and two digits, from `low` to `high`.
#[tactic(auto, unfolding(crate::specs::Fields::part_at))]
pub(crate) fn part(here: &[u8], separator: u8, low: u8, high: u8) -> Option<(u8, &[u8])>
    ensures value { GivesField (λ x. (x.0, x.1.now)) result (part_at separator low high here.now) }
    ensures bound { IfSome result (λ x. (low ≤ x.0) × (x.0 ≤ high)) }
{
    let rest = behind(here, separator)?;
    let (number, rest) = two_digits(rest)?;
    if number < low || high < number {
        return None;
    }
    Some((number, rest))
}

// The year: four digits, from 1582 to 9999.
#[tactic(auto, unfolding(crate::specs::Fields::year_at))]
pub(crate) fn year(here: &[u8]) -> Option<(u16, &[u8])>
    ensures value { GivesField (λ x. (x.0, x.1.now)) result (year_at here.now) }
    ensures bound { IfSome result (λ x. (FIRST_YEAR ≤ x.0) × (x.0 ≤ LAST_YEAR)) }
{
    let (century, rest) = two_digits(here)?;
    let (year, rest) = two_digits(rest)?;
    let year = u16::from(century) * 100 + u16::from(year);
    if year < FIRST_YEAR {
        return None;
    }
    Some((year, rest))
}

// How many digits stand there.
fn digit_count(here: &[u8]) -> usize
    ensures { result ≡ length (take_while is_ascii_digit here.now) }
{
    here.iter()
        .take_while(|octet| octet.is_ascii_digit())
        .count()
}

// All the digits that stand there, at most `most` of them.
#[tactic(auto, unfolding(crate::specs::Fields::digits_at))]
fn digits(here: &[u8], most: usize) -> Option<(&[u8], &[u8])>
    ensures value { GivesField (λ x. (x.0.now, x.1.now)) result (digits_at most here.now) }
    ensures digits { IfSome result (λ x. AllDigits 10 x.0.now × (length x.0.now ≤ most)) }
{
    let len = digit_count(here);
    if most < len {
        return None;
    }
    Some(here.split_at(len))
}

// The number that digits write.
fn number(digits: &[u8]) -> u64
    requires all { AllDigits 10 digits.now }
    requires few { length digits.now ≤ 9 }
    ensures value { result ≡ digits_value 10 digits.now }
    ensures bound { result < 10 ^ length digits.now }
{
    let mut number: u64 = 0;
    for digit in digits {
        number = number * 10 + u64::from(digit - b'0');
    }
    number
}

// The units of 100 ns that the digits behind a point write.
fn units(digits: &[u8]) -> u32
    requires all { AllDigits 10 digits.now }
    requires few { length digits.now ≤ 7 }
    ensures value { result ≡ units_of digits.now }
    ensures bound { result < SECOND }
{
    number(digits) as u32 * 10u32.pow(7 - digits.len() as u32)
}

// A fraction of a second, in units of 100 ns: nothing, or a point and at most seven digits.
#[tactic(auto, unfolding(crate::specs::Fields::fraction_at))]
pub(crate) fn fraction(here: &[u8]) -> Option<(u32, &[u8])>
    ensures value { GivesField (λ x. (x.0, x.1.now)) result (fraction_at here.now) }
    ensures bound { IfSome result (λ x. x.0 < SECOND) }
{
    let [b'.', rest @ ..] = here else {
        return Some((0, here));
    };
    let (digits, rest) = digits(rest, 7)?;
    Some((units(digits), rest))
}

// The sign and hours of a time differential factor, where one stands there: whether it is
// negative, and 0 to 23.
#[tactic(auto, unfolding(crate::specs::Fields::tdf_hour_at))]
pub(crate) fn tdf_hour(here: &[u8]) -> Option<(Option<(bool, u8)>, &[u8])>
    ensures value { GivesField (λ x. (x.0, x.1.now)) result (tdf_hour_at here.now) }
    ensures bound { IfSome result (λ x. IfSome x.0 (λ shift. shift.1 ≤ 23)) }
{
    let [sign @ (b'+' | b'-'), rest @ ..] = here else {
        return Some((None, here));
    };
    let (hours, rest) = two_digits(rest)?;
    if 23 < hours {
        return None;
    }
    Some((Some((*sign == b'-', hours)), rest))
}

// One to nine digits and a fraction: seconds, in units of 100 ns.
#[tactic(auto, unfolding(crate::specs::Fields::seconds_at))]
fn seconds(here: &[u8]) -> Option<(Option<u64>, &[u8])>
    ensures value { GivesField (λ x. (x.0, x.1.now)) result (seconds_at here.now) }
    ensures bound { IfSome result (λ x. IsInaccuracy x.0) }
{
    let (seconds, rest) = digits(here, 9)?;
    let (fraction, rest) = fraction(rest)?;
    let units = number(seconds) * SECOND + u64::from(fraction);
    if seconds.is_empty() || MAX_INACCURACY < units {
        return None;
    }
    Some((Some(units), rest))
}

// What stands behind the `I` of an inaccuracy.
#[tactic(auto, unfolding(crate::specs::Fields::stated_at))]
fn stated(here: &[u8]) -> Option<(Option<u64>, &[u8])>
    ensures value { GivesField (λ x. (x.0, x.1.now)) result (stated_at here.now) }
    ensures bound { IfSome result (λ x. IsInaccuracy x.0) }
{
    if here.starts_with(b"-----") {
        return Some((None, &here[5..]));
    }
    if here.starts_with(b"inf") {
        return Some((None, &here[3..]));
    }
    seconds(here)
}

// An inaccuracy in units of 100 ns, or `None` inside where it is unspecified.
#[tactic(auto, unfolding(crate::specs::Fields::inaccuracy_at))]
pub(crate) fn inaccuracy(here: &[u8]) -> Option<(Option<u64>, &[u8])>
    ensures value { GivesField (λ x. (x.0, x.1.now)) result (inaccuracy_at here.now) }
    ensures bound { IfSome result (λ x. IsInaccuracy x.0) }
{
    match here {
        [b'I', rest @ ..] => stated(rest),
        _ => Some((None, here)),
    }
}

// The days of a relative time: one to eight digits, at most 10,675,199.
#[tactic(auto, unfolding(crate::specs::Fields::days_at))]
pub(crate) fn days(here: &[u8]) -> Option<(u32, &[u8])>
    ensures value { GivesField (λ x. (x.0, x.1.now)) result (days_at here.now) }
    ensures bound { IfSome result (λ x. x.0 ≤ MAX_DAYS) }
{
    let (digits, rest) = digits(here, 8)?;
    let days = number(digits);
    if digits.is_empty() || MAX_DAYS < days {
        return None;
    }
    Some((days as u32, rest))
}
