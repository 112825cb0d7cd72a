//! Writes texts of times.

ghost use Rattle.std.specs.Prelude.{◌≡◌, ◌+◌, ◌*◌, ◌/◌, ◌<◌, ◌≤◌, ◌^◌, ◌%◌, ◌∷◌, ◌++◌, [], pos, Some, unsigned_abs, if◌then◌else◌, int_lt, Ok, Err, IfOk, IfErr, IsErrOf, OnOk, ◌≢◌, ◌↔◌};
ghost use Rattle.std.specs.Fmt.{decimal};
ghost use Rattle.utc_value.specs.Stamp.{IsTdf, absolute_stamp};
ghost use Rattle.utc_value.specs.declared.Kind.TheVariants.{Absolute, Relative};
ghost use Rattle.utc_text.specs.declared.fault.PrintFault.TheVariants.{NoMemory as NoMemoryFault};
ghost use Rattle.utc_text.specs.Civil.{IsCivil, IsInYears, local_count};
ghost use Rattle.utc_text.specs.Texts.{IsPrintable, SpellsAbsolute, SpellsRelative};
ghost use Rattle.utc_text.specs.Grammar.{digits, inaccuracy_text};
ghost use Rattle.utc_text.specs.Written.{clock_text, tdf_text, absolute_text, relative_text, sign_text, relative_divided};
ghost use Rattle.utc_text.specs.Printing.{IsShown, IsLengthShown, clock_shown, tdf_shown, inaccuracy_shown, absolute_shown, days_shown};

use crate::calendar::Civil;
use crate::dates::civil;
use crate::fault::PrintFault;
use crate::units::{DAY, HOUR, MINUTE, SECOND};
use dts_base::Text;
use std::alloc::{AllocError, Global};
use utc_value::{Kind, Utc};

// Each text is shorter than this, and has room for a line feed.
const ROOM: usize = 64;

// Writes the last `width` digits of a number.
#[tactic(auto, unfolding(crate::specs::Grammar::digits))]
fn push_digits(out: &mut Vec<u8>, number: u64, width: u32) -> Result<(), AllocError>
    ensures { OnOk result (out.new.items ≡ out.old.items ++ digits width number) }
{
    if width == 0 {
        return Ok(());
    }
    push_digits(out, number / 10, width - 1)?;
    out.push(b'0' + (number % 10) as u8)?;
    Ok(())
}

// Writes a number with no leading zero.
fn push_decimal(out: &mut Vec<u8>, number: u64) -> Result<(), AllocError>
    ensures { OnOk result (out.new.items ≡ out.old.items ++ decimal number) }
{
    if 10 <= number {
        push_decimal(out, number / 10)?;
    }
    out.push(b'0' + (number % 10) as u8)?;
    Ok(())
}

// Writes an octet and two digits.
fn push_part(out: &mut Vec<u8>, separator: u8, number: u8) -> Result<(), AllocError>
    ensures { OnOk result (out.new.items ≡ out.old.items ++ separator ∷ digits 2 number) }
{
    out.push(separator)?;
    push_digits(out, u64::from(number), 2)
}

// Writes a point and seven digits.
fn push_fraction(out: &mut Vec<u8>, units: u64) -> Result<(), AllocError>
    ensures { OnOk result (out.new.items ≡ out.old.items ++ 46 ∷ digits 7 units) }
{
    out.push(b'.')?;
    push_digits(out, units, 7)
}

// Writes a time of day.
fn push_clock(
    out: &mut Vec<u8>,
    hour: u8,
    minute: u8,
    second: u8,
    units: u32,
) -> Result<(), AllocError>
    ensures { OnOk result (out.new.items ≡ out.old.items ++ clock_text (clock_shown hour minute second units)) }
{
    push_part(out, b'-', hour)?;
    push_part(out, b':', minute)?;
    push_part(out, b':', second)?;
    push_fraction(out, u64::from(units))
}

// Writes a time differential factor.
fn push_tdf(out: &mut Vec<u8>, tdf: i16) -> Result<(), AllocError>
    requires { IsTdf tdf }
    ensures { OnOk result (out.new.items ≡ out.old.items ++ tdf_text (Some (tdf_shown tdf))) }
{
    let minutes = tdf.unsigned_abs();
    push_part(out, if tdf < 0 { b'-' } else { b'+' }, (minutes / 60) as u8)?;
    push_part(out, b':', (minutes % 60) as u8)
}

// Writes an inaccuracy.
fn push_inaccuracy(out: &mut Vec<u8>, inaccuracy: Option<u64>) -> Result<(), AllocError>
    ensures { OnOk result (out.new.items ≡ out.old.items ++ inaccuracy_text (inaccuracy_shown inaccuracy)) }
{
    let Some(units) = inaccuracy else {
        return out.extend_from_slice(b"I-----");
    };
    out.push(b'I')?;
    push_decimal(out, units / SECOND)?;
    push_fraction(out, units % SECOND)
}

// The text of an absolute time that clocks show as this civil time.
fn absolute(
    alloc: Global,
    c: Civil,
    tdf: i16,
    inaccuracy: Option<u64>,
) -> Result<Vec<u8>, AllocError>
    requires civil { IsCivil c }
    requires tdf { IsTdf tdf }
    ensures { IfOk result (λ out. out.items ≡ absolute_text (absolute_shown c tdf inaccuracy)) }
{
    let mut out = Vec::with_capacity(alloc, ROOM)?;
    push_digits(&mut out, c.year as u64, 4)?;
    push_part(&mut out, b'-', c.month)?;
    push_part(&mut out, b'-', c.day)?;
    push_clock(&mut out, c.hour, c.minute, c.second, c.units)?;
    push_tdf(&mut out, tdf)?;
    push_inaccuracy(&mut out, inaccuracy)?;
    Ok(out)
}

// Writes days with at least two digits.
fn push_days(out: &mut Vec<u8>, days: u64) -> Result<(), AllocError>
    ensures { OnOk result (out.new.items ≡ out.old.items ++ days_shown days) }
{
    if days < 10 {
        out.push(b'0')?;
    }
    push_decimal(out, days)
}

// The text of a length of time.
fn relative(alloc: Global, time: i64, inaccuracy: Option<u64>) -> Result<Vec<u8>, AllocError>
    ensures { IfOk result (λ out. out.items ≡ relative_text (relative_divided time inaccuracy)) }
{
    let mut out = Vec::with_capacity(alloc, ROOM)?;
    if time < 0 {
        out.push(b'-')?;
    }
    let units = time.unsigned_abs();
    push_days(&mut out, units / DAY)?;
    let hour = (units / HOUR % 24) as u8;
    let minute = (units / MINUTE % 60) as u8;
    let second = (units / SECOND % 60) as u8;
    push_clock(&mut out, hour, minute, second, (units % SECOND) as u32)?;
    push_inaccuracy(&mut out, inaccuracy)?;
    Ok(out)
}

impl From<AllocError> for PrintFault {
    ghost from_gives = { λ _ e. e ≡ NoMemoryFault };

    fn from(_: AllocError) -> PrintFault {
        PrintFault::NoMemory
    }
}

// Prints a civil time.
fn print_civil(
    alloc: Global,
    c: Civil,
    tdf: i16,
    inaccuracy: Option<u64>,
) -> Result<Text, PrintFault>
    requires civil { IsCivil c }
    requires tdf { IsTdf tdf }
    ensures text { IfOk result (λ t. t ≡ absolute_text (absolute_shown c tdf inaccuracy)) }
    ensures err { IfErr result (λ fault. fault ≡ PrintFault.NoMemory) }
{
    Ok(Text::from_vec(absolute(alloc, c, tdf, inaccuracy)?))
}

// Prints a length of time.
fn print_length(alloc: Global, time: i64, inaccuracy: Option<u64>) -> Result<Text, PrintFault>
    ensures text { IfOk result (λ t. t ≡ relative_text (relative_divided time inaccuracy)) }
    ensures err { IfErr result (λ fault. fault ≡ PrintFault.NoMemory) }
{
    Ok(Text::from_vec(relative(alloc, time, inaccuracy)?))
}

/// The text of an absolute time as clocks show it that are `tdf` minutes ahead of UTC, as
/// `1970-01-01-01:00:00.0000000+01:00I0.0000000`. Every field is written.
///
/// `Kinds` comes for a relative time, then `TdfRange` for a time differential factor of a day or
/// more, then `YearRange` where the year that would be printed is not one of 1582 to 9999.
pub fn print_any(alloc: Global, u: Utc, tdf: i16) -> Result<Text, PrintFault>
    ensures text { IfOk result (λ t. IsShown u.time tdf u.inaccuracy t) }
    ensures reads_back { IfOk result (λ t. SpellsAbsolute t (absolute_stamp u.time u.inaccuracy tdf)) }

    ensures kinds { IsErrOf result PrintFault.Kinds ↔ (u.kind ≡ Relative) }
    ensures tdf { IsErrOf result PrintFault.TdfRange ↔ ((u.kind ≡ Absolute) × (¬ IsTdf tdf)) }
    ensures year { IsErrOf result PrintFault.YearRange ↔ ((u.kind ≡ Absolute) × IsTdf tdf × (¬ IsInYears (local_count u.time tdf))) }
    ensures memory { IsErrOf result PrintFault.NoMemory → IsPrintable u tdf }
{
    let c = civil(u, tdf)?;
    print_civil(alloc, c, tdf, u.inaccuracy())
}

/// The text of an absolute time in UTC, as `1970-01-01-00:00:00.0000000+00:00I0.0000000`.
///
/// `Kinds` comes for a relative time, then `YearRange` where its year is not one of 1582 to 9999.
pub fn print_gmt(alloc: Global, u: Utc) -> Result<Text, PrintFault>
    ensures text { IfOk result (λ t. IsShown u.time (pos 0) u.inaccuracy t) }
    ensures reads_back { IfOk result (λ t. SpellsAbsolute t (absolute_stamp u.time u.inaccuracy (pos 0))) }

    ensures kinds { IsErrOf result PrintFault.Kinds ↔ (u.kind ≡ Relative) }
    ensures tdf { result ≢ Err PrintFault.TdfRange }
    ensures year { IsErrOf result PrintFault.YearRange ↔ ((u.kind ≡ Absolute) × (¬ IsInYears u.time)) }
    ensures memory { IsErrOf result PrintFault.NoMemory → IsPrintable u (pos 0) }
{
    print_any(alloc, u, 0)
}

/// The text of a relative time, as `-00-00:00:01.0000000I-----`. Every field but the sign is
/// written, and the sign where the time is below 0.
///
/// `Kinds` comes for an absolute time.
pub fn print_rel(alloc: Global, u: Utc) -> Result<Text, PrintFault>
    ensures text { IfOk result (λ t. IsLengthShown u.time u.inaccuracy t) }
    ensures reads_back { IfOk result (λ t. SpellsRelative t u) }

    ensures kinds { IsErrOf result PrintFault.Kinds ↔ (u.kind ≡ Absolute) }
    ensures tdf { result ≢ Err PrintFault.TdfRange }
    ensures year { result ≢ Err PrintFault.YearRange }
    ensures memory { IsErrOf result PrintFault.NoMemory → u.kind ≡ Relative }
{
    match u.kind() {
        Kind::Absolute => Err(PrintFault::Kinds),
        Kind::Relative => print_length(alloc, u.time(), u.inaccuracy()),
    }
}
