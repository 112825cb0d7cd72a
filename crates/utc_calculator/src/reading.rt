//! Reads the lines of the calculator.

ghost use Rattle.std.specs.Prelude.{◌≡◌, ◌≢◌, ◌⊎◌, List, ℕ, [], ◌∷◌, ℤ, FitsSigned, IfOk, IfErr, MatchOption, MatchResult, IsTrue, ◌↔◌, codes};
ghost use Rattle.utc_value.specs.Octets.{octets_of};
ghost use Rattle.utc_value.specs.Stamp.{IsInRange};
ghost use Rattle.line_reader.specs.Fields.{fields_of, column_of};
ghost use Rattle.utc_calculator.specs.Places.{refused_at, refused_here};
ghost use Rattle.utc_calculator.specs.Operations.{Time, Number, Minutes, Octets, TimeKind, NumberKind, MinutesKind, OctetsKind, Reads, ReadEach, Spells, IsOfTimestamp, IsNextWrong, IsLeftOver, IsFirstWrong, HasOperand, HasWrongOctets, RefusesFields, RefusesReading, operands_of, IsNoTime, is_relative_form, word_of};

use crate::{Operation, UtcCause, UtcRefusal};
use hex::FromHex;
use line_reader::{Fields, number_in};
use utc_text::{TextFault, parse_abs, parse_rel};
use utc_value::Utc;

/// The operation that a line asks for. The refusal is that of the first field that is not right, from left to
/// right; octets that are no timestamp come last.
pub fn parse(line: &[u8]) -> Result<Operation, UtcRefusal>
    ensures ok { IfOk result (Spells line.now) }
    ensures err { IfErr result (RefusesReading line.now) }
{
    let mut fields = Fields::new(line);
    match fields.next() {
        Some(word) => after_word(word, fields),
        None => Err(UtcRefusal::whole(UtcCause::Word)),
    }
}

// Takes the operands of the operation that has this word.
fn after_word(word: &[u8], fields: Fields) -> Result<Operation, UtcRefusal>
    ensures ok { IfOk result (λ o. (word.now ≡ word_of o) × ReadEach fields.entry.left (operands_of o) × IsOfTimestamp o) }
    ensures err { IfErr result (RefusesFields word.now fields.entry.line fields.entry.left) }
{
    if word == b"add".as_slice() {
        two_times(fields).map(|(a, b)| Operation::Add(a, b))
    } else if word == b"sub".as_slice() {
        two_times(fields).map(|(a, b)| Operation::Sub(a, b))
    } else if word == b"abs".as_slice() {
        one_time(fields).map(Operation::Abs)
    } else if word == b"mul".as_slice() {
        time_and_number(fields).map(|(a, k)| Operation::Mul(a, k))
    } else if word == b"span".as_slice() {
        two_times(fields).map(|(a, b)| Operation::Span(a, b))
    } else if word == b"bound".as_slice() {
        two_times(fields).map(|(a, b)| Operation::Bound(a, b))
    } else if word == b"tdf".as_slice() {
        time_and_minutes(fields).map(|(a, t)| Operation::Tdf(a, t))
    } else if word == b"interval".as_slice() {
        two_times(fields).map(|(a, b)| Operation::Interval(a, b))
    } else if word == b"mid".as_slice() {
        two_times(fields).map(|(a, b)| Operation::Mid(a, b))
    } else if word == b"point".as_slice() {
        one_time(fields).map(Operation::Point)
    } else if word == b"bytes".as_slice() {
        one_time(fields).map(Operation::Bytes)
    } else if word == b"text".as_slice() {
        octets_of_time(fields).map(Operation::Text)
    } else {
        Err(UtcRefusal::whole(UtcCause::Word))
    }
}

// A refusal of the field that was asked for last.
fn refused_here(fields: &Fields, cause: UtcCause) -> UtcRefusal
    ensures { result ≡ refused_at fields.now.column cause }
{
    UtcRefusal::at(fields.column(), cause)
}

// The next field, where it has octets.
fn next_field<'a>(fields: &mut Fields<'a>) -> Result<&'a [u8], UtcRefusal>
    ensures line { fields.new.line ≡ fields.old.line }
    ensures column { fields.new.column ≡ column_of fields.old.line fields.old.left }
    ensures ok { IfOk result (λ field. (fields.old.left ≡ field.now ∷ fields.new.left) × (field.now ≢ [])) }
    ensures err { IfErr result (λ r. (r ≡ refused_here fields.old.line fields.old.left UtcCause.Missing) × ((fields.old.left ≡ []) ⊎ (fields.old.left ≡ [] ∷ fields.new.left))) }
{
    match fields.next() {
        Some([]) | None => Err(refused_here(fields, UtcCause::Missing)),
        Some(field) => Ok(field),
    }
}

// No field is left over.
fn end(fields: &mut Fields) -> Result<(), UtcRefusal>
    ensures ok { IfOk result (λ _. fields.old.left ≡ []) }
    ensures err { IfErr result (IsLeftOver fields.old.line fields.old.left) }
{
    match fields.next() {
        None => Ok(()),
        Some([]) => Err(refused_here(fields, UtcCause::Missing)),
        Some(_) => Err(refused_here(fields, UtcCause::Extra)),
    }
}

// A text that is no time is told of as a relative one.
fn is_relative_form(text: &[u8]) -> bool
    ensures { result ≡ is_relative_form text.now }
{
    !matches!(text, [first, _, _, _, b'-', ..] if *first != b'-')
}

// The time that a text is.
fn time_of(text: &[u8]) -> Result<Utc, TextFault>
    ensures ok { IfOk result (λ u. Reads text.now (Time u)) }
    ensures err { IfErr result (IsNoTime text.now) }
{
    let absolute = match parse_abs(text) {
        Ok(time) => return Ok(time),
        Err(fault) => fault,
    };
    let relative = match parse_rel(text) {
        Ok(time) => return Ok(time),
        Err(fault) => fault,
    };
    if is_relative_form(text) {
        Err(relative)
    } else {
        Err(absolute)
    }
}

// Takes the next field, where it is a time.
fn time(fields: &mut Fields) -> Result<Utc, UtcRefusal>
    ensures line { fields.new.line ≡ fields.old.line }
    ensures ok { IfOk result (λ u. HasOperand fields.old.left (Time u) fields.new.left) }
    ensures err { IfErr result (IsNextWrong TimeKind fields.old.line fields.old.left) }
{
    match time_of(next_field(fields)?) {
        Ok(time) => Ok(time),
        Err(fault) => Err(refused_here(fields, UtcCause::Text(fault))),
    }
}

// The number of 32 bits that a field is, in decimal without leading zeros.
fn number_of(field: &[u8]) -> Option<i32>
    ensures { MatchOption result ((k : ℤ) → Reads field.now (Number k) → ⊥) (λ k. Reads field.now (Number k)) }
{
    match number_in(field, i128::from(i32::MIN), i128::from(i32::MAX)) {
        Ok(number) => Some(number as i32),
        Err(_) => None,
    }
}

// The number of minutes of 16 bits that a field is.
fn minutes_of(field: &[u8]) -> Option<i16>
    ensures { MatchOption result ((t : ℤ) → Reads field.now (Minutes t) → ⊥) (λ t. Reads field.now (Minutes t)) }
{
    match number_in(field, i128::from(i16::MIN), i128::from(i16::MAX)) {
        Ok(number) => Some(number as i16),
        Err(_) => None,
    }
}

// Takes the next field, where it is a number of 32 bits.
fn number(fields: &mut Fields) -> Result<i32, UtcRefusal>
    ensures line { fields.new.line ≡ fields.old.line }
    ensures ok { IfOk result (λ k. HasOperand fields.old.left (Number k) fields.new.left) }
    ensures err { IfErr result (IsNextWrong NumberKind fields.old.line fields.old.left) }
{
    match number_of(next_field(fields)?) {
        Some(number) => Ok(number),
        None => Err(refused_here(fields, UtcCause::Number)),
    }
}

// Takes the next field, where it is a number of minutes.
fn minutes(fields: &mut Fields) -> Result<i16, UtcRefusal>
    ensures line { fields.new.line ≡ fields.old.line }
    ensures ok { IfOk result (λ t. HasOperand fields.old.left (Minutes t) fields.new.left) }
    ensures err { IfErr result (IsNextWrong MinutesKind fields.old.line fields.old.left) }
{
    match minutes_of(next_field(fields)?) {
        Some(minutes) => Ok(minutes),
        None => Err(refused_here(fields, UtcCause::Number)),
    }
}

// Takes the next field, where it is 32 hex digits.
fn octets(fields: &mut Fields) -> Result<[u8; 16], UtcRefusal>
    ensures line { fields.new.line ≡ fields.old.line }
    ensures column { fields.new.column ≡ column_of fields.old.line fields.old.left }
    ensures ok { IfOk result (λ octets. HasOperand fields.old.left (Octets octets) fields.new.left) }
    ensures err { IfErr result (IsNextWrong OctetsKind fields.old.line fields.old.left) }
{
    match <[u8; 16] as FromHex>::from_hex(next_field(fields)?) {
        Ok(octets) => Ok(octets),
        Err(_) => Err(refused_here(fields, UtcCause::Hex)),
    }
}

// A time, and no more.
fn one_time(mut fields: Fields) -> Result<Utc, UtcRefusal>
    ensures ok { IfOk result (λ a. ReadEach fields.entry.left (Time a ∷ [])) }
    ensures err { IfErr result (IsFirstWrong (TimeKind ∷ []) fields.entry.line fields.entry.left) }
{
    let a = time(&mut fields)?;
    end(&mut fields)?;
    Ok(a)
}

// Two times, and no more.
fn two_times(mut fields: Fields) -> Result<(Utc, Utc), UtcRefusal>
    ensures ok { IfOk result (λ both. ReadEach fields.entry.left (Time both.0 ∷ Time both.1 ∷ [])) }
    ensures err { IfErr result (IsFirstWrong (TimeKind ∷ TimeKind ∷ []) fields.entry.line fields.entry.left) }
{
    let a = time(&mut fields)?;
    let b = time(&mut fields)?;
    end(&mut fields)?;
    Ok((a, b))
}

// A time and a number, and no more.
fn time_and_number(mut fields: Fields) -> Result<(Utc, i32), UtcRefusal>
    ensures ok { IfOk result (λ both. ReadEach fields.entry.left (Time both.0 ∷ Number both.1 ∷ [])) }
    ensures err { IfErr result (IsFirstWrong (TimeKind ∷ NumberKind ∷ []) fields.entry.line fields.entry.left) }
{
    let a = time(&mut fields)?;
    let k = number(&mut fields)?;
    end(&mut fields)?;
    Ok((a, k))
}

// A time and a number of minutes, and no more.
fn time_and_minutes(mut fields: Fields) -> Result<(Utc, i16), UtcRefusal>
    ensures ok { IfOk result (λ both. ReadEach fields.entry.left (Time both.0 ∷ Minutes both.1 ∷ [])) }
    ensures err { IfErr result (IsFirstWrong (TimeKind ∷ MinutesKind ∷ []) fields.entry.line fields.entry.left) }
{
    let a = time(&mut fields)?;
    let t = minutes(&mut fields)?;
    end(&mut fields)?;
    Ok((a, t))
}

// Sixteen octets that are a timestamp, and no more.
fn octets_of_time(mut fields: Fields) -> Result<Utc, UtcRefusal>
    ensures ok { IfOk result (λ a. ReadEach fields.entry.left (Octets (octets_of a) ∷ []) × IsInRange a) }
    ensures err { IfErr result (λ r. IsFirstWrong (OctetsKind ∷ []) fields.entry.line fields.entry.left r ⊎ HasWrongOctets (codes "text") fields.entry.line fields.entry.left r) }
{
    let octets = octets(&mut fields)?;
    let column = fields.column();
    end(&mut fields)?;
    match Utc::from_bytes(octets) {
        Ok(time) => Ok(time),
        Err(fault) => Err(UtcRefusal::at(column, UtcCause::Bytes(fault))),
    }
}
