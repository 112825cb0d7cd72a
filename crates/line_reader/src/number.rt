ghost use Rattle.std.specs.Prelude.{◌≡◌, ◌↔◌, ℤ, List, ℕ, IsTrue, IfOk, IfErr, MatchOption, FitsSigned, slice_index};
ghost use Rattle.std.specs.Int.{w128};
ghost use Rattle.std.specs.Str.{all_ascii_digits};
ghost use Rattle.std.specs.Str.Parse.{digits_value};
ghost use Rattle.line_reader.specs.Numbers.{IsDecimal, IsWhole, IsWithin, IsNumberFault};

use thiserror::Error;

/// Why a field is no number of a range.
#[derive(Clone, Copy, Debug, PartialEq, Eq, Error)]
pub enum NumberFault {
    /// It writes no whole number in decimal.
    #[error("no decimal number")]
    Form,
    /// It writes a number out of the range.
    #[error("a number out of range")]
    Range,
}

/// The number from `from` to `to` that a field writes in decimal, with `-` before a negative one. A number has no plus
/// and no zero in front, and 0 no minus; one that is out of the range may have any length.
pub fn number_in(field: &[u8], from: i128, to: i128) -> Result<i128, NumberFault>
    ensures number { IfOk result (λ z. IsWhole field.now z × IsWithin from to z) }
    ensures fault { IfErr result (IsNumberFault from to field.now) }
{
    if !is_whole(field) {
        return Err(NumberFault::Form);
    }
    match value_of(field) {
        Some(number) if from <= number && number <= to => Ok(number),
        _ => Err(NumberFault::Range),
    }
}

// The field writes a whole number.
fn is_whole(field: &[u8]) -> bool
    ensures { IsTrue result ↔ ((z : ℤ) × IsWhole field.now z) }
{
    if first(field) != b'-' {
        return is_decimal(field);
    }
    let digits = &field[1..];
    first(digits) != b'0' && is_decimal(digits)
}

// The octets write a number.
fn is_decimal(digits: &[u8]) -> bool
    ensures { IsTrue result ↔ IsDecimal digits.now (digits_value 10 digits.now) }
{
    if first(digits) == b'0' {
        return digits.len() == 1;
    }
    !digits.is_empty() && are_digits(digits)
}

// Each octet is a digit.
fn are_digits(octets: &[u8]) -> bool
    ensures { result ≡ all_ascii_digits octets.now }
{
    octets.iter().all(|octet| octet.is_ascii_digit())
}

// The first octet, or 0 where there is none.
fn first(octets: &[u8]) -> u8
    ensures { result ≡ slice_index octets.now 0 }
{
    octets.first().copied().unwrap_or(0)
}

// The number of 128 bits that a field writes.
fn value_of(field: &[u8]) -> Option<i128>
    requires { (z : ℤ) × IsWhole field.now z }
    ensures { MatchOption result ((z : ℤ) → IsWhole field.now z → FitsSigned w128 z → ⊥) (IsWhole field.now) }
{
    str::from_utf8(field).ok()?.parse().ok()
}
