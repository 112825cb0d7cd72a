//! Computes operations and writes what they result in.

ghost use Rattle.std.specs.Prelude.{◌≡◌, ◌++◌, ◌∷◌, [], List, ℕ, IfOk, IfErr, OnOk};
ghost use Rattle.std.specs.Bool.{MatchBool};
ghost use Rattle.hex.specs.Hex.{encode_lower};
ghost use Rattle.utc_calculator.specs.declared.results.Unwritten.TheVariants.{NoMemory as NoMemoryIs};
ghost use Rattle.utc_calculator.specs.Writing.{IsUnwritten};
ghost use Rattle.utc_calculator.specs.Results.{Yields, RefusesRoutine, Shows, RefusesShowing, IsTextOf, AreTextsOf, HasNoText, order_word};

use crate::{Operation, Outcome};
use std::alloc::{AllocError, Global};
use utc_routines::{
    Order4, UtcFault, abs, add, bound, cmp_interval, cmp_mid, mul, point, span, sub, with_tdf,
};
use utc_text::{PrintFault, civil, print_any, print_rel};
use utc_value::{Kind, Utc};

/// What an operation results in, or why its routine refuses it.
pub fn compute(operation: Operation) -> Result<Outcome, UtcFault>
    ensures ok { IfOk result (Yields operation) }
    ensures err { IfErr result (RefusesRoutine operation) }
{
    match operation {
        Operation::Add(a, b) => add(a, b).map(Outcome::Time),
        Operation::Sub(a, b) => sub(a, b).map(Outcome::Time),
        Operation::Abs(a) => abs(a).map(Outcome::Time),
        Operation::Mul(a, k) => mul(a, k).map(Outcome::Time),
        Operation::Span(a, b) => span(a, b).map(Outcome::Time),
        Operation::Bound(a, b) => bound(a, b).map(Outcome::Time),
        Operation::Tdf(a, t) => with_tdf(a, t).map(Outcome::Time),
        Operation::Interval(a, b) => cmp_interval(a, b).map(Outcome::Order),
        Operation::Mid(a, b) => cmp_mid(a, b).map(Outcome::Order),
        Operation::Point(a) => {
            let (first, middle, last) = point(a)?;
            Ok(Outcome::Points(first, middle, last))
        }
        Operation::Bytes(a) => Ok(Outcome::Octets(a.to_bytes())),
        Operation::Text(a) => Ok(Outcome::Time(a)),
    }
}

// Why an outcome is not written.
#[derive(Clone, Copy, Debug, PartialEq, Eq)]
pub(crate) enum Unwritten {
    // A year is not one of 1582 to 9999.
    Year,
    // No memory was found.
    NoMemory,
}

impl From<AllocError> for Unwritten {
    ghost from_gives = { λ _ e. e ≡ NoMemoryIs };

    fn from(_: AllocError) -> Unwritten {
        Unwritten::NoMemory
    }
}

// The text of a timestamp.
fn time_text(alloc: Global, time: Utc) -> Result<Vec<u8>, Unwritten>
    ensures ok { IfOk result (λ text. IsTextOf time text.items) }
    ensures err { IfErr result (IsUnwritten (HasNoText time)) }
{
    let printed = match time.kind() {
        Kind::Absolute => print_any(alloc, time, time.tdf()),
        Kind::Relative => print_rel(alloc, time),
    };
    match printed {
        Ok(text) => Ok(text.into_vec()),
        Err(PrintFault::NoMemory) => Err(Unwritten::NoMemory),
        Err(_) => Err(Unwritten::Year),
    }
}

// The word of an order.
fn word(order: Order4) -> &'static [u8]
    ensures { result.now ≡ order_word order }
{
    match order {
        Order4::EqualTo => b"equalTo",
        Order4::LessThan => b"lessThan",
        Order4::GreaterThan => b"greaterThan",
        Order4::Indeterminate => b"indeterminate",
    }
}

// The texts of three timestamps, joined by single spaces.
fn points_text(alloc: Global, first: Utc, middle: Utc, last: Utc) -> Result<Vec<u8>, Unwritten>
    ensures ok { IfOk result (λ text. AreTextsOf first middle last text.items) }
    ensures err { IfErr result (IsUnwritten (RefusesShowing (Outcome.Points first middle last))) }
{
    let mut text = time_text(alloc, first)?;
    text.extend_from_slice(b" ")?;
    text.extend_from_slice(time_text(alloc, middle)?.as_slice())?;
    text.extend_from_slice(b" ")?;
    text.extend_from_slice(time_text(alloc, last)?.as_slice())?;
    Ok(text)
}

// The text of an outcome.
fn outcome_text(alloc: Global, outcome: Outcome) -> Result<Vec<u8>, Unwritten>
    ensures ok { IfOk result (λ text. Shows outcome text.items) }
    ensures err { IfErr result (IsUnwritten (RefusesShowing outcome)) }
{
    match outcome {
        Outcome::Time(time) => time_text(alloc, time),
        Outcome::Points(first, middle, last) => points_text(alloc, first, middle, last),
        Outcome::Order(order) => Ok(word(order).to_vec(alloc)?),
        Outcome::Octets(octets) => Ok(hex::encode(alloc, octets)?.into_bytes()),
    }
}

// A timestamp has a text: a moment where its year is written, and each length.
fn is_time_written(time: Utc) -> bool
    ensures { MatchBool result ((text : List ℕ) × IsTextOf time text) (HasNoText time) }
{
    match time.kind() {
        Kind::Absolute => civil(time, time.tdf()).is_ok(),
        Kind::Relative => true,
    }
}

// Three timestamps have a text.
fn are_written(first: Utc, middle: Utc, last: Utc) -> bool
    ensures { MatchBool result ((text : List ℕ) × AreTextsOf first middle last text) (RefusesShowing (Outcome.Points first middle last)) }
{
    let x = is_time_written(first);
    let y = is_time_written(middle);
    let z = is_time_written(last);
    if !x {
        return false;
    }
    if !y {
        return false;
    }
    z
}

// An outcome has a text.
pub(crate) fn is_written(outcome: Outcome) -> bool
    ensures { MatchBool result ((text : List ℕ) × Shows outcome text) (RefusesShowing outcome) }
{
    match outcome {
        Outcome::Time(time) => is_time_written(time),
        Outcome::Points(first, middle, last) => are_written(first, middle, last),
        Outcome::Order(_) => true,
        Outcome::Octets(_) => true,
    }
}

// The text of an outcome, and a line feed.
pub(crate) fn line_of(alloc: Global, outcome: Outcome) -> Result<Vec<u8>, Unwritten>
    ensures ok { IfOk result (λ line. (text : List ℕ) × Shows outcome text × (line.items ≡ text ++ 10 ∷ [])) }
    ensures err { IfErr result (IsUnwritten (RefusesShowing outcome)) }
{
    let mut line = outcome_text(alloc, outcome)?;
    line.extend_from_slice(b"\n")?;
    Ok(line)
}
