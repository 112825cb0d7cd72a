//! Civil times of timestamps.

ghost use Rattle.std.specs.Prelude.{◌≡◌, ◌≢◌, ◌↔◌, ◌⊎◌, IsOk, IfOk, IfErr, IsErrOf, Ok, Err, IsTrue};
ghost use Rattle.std.specs.Result.{OkIff};
ghost use Rattle.utc_value.specs.Stamp.{IsTdf, IsInaccuracy, absolute_stamp};
ghost use Rattle.utc_value.specs.declared.Kind.TheVariants.{Absolute, Relative};
ghost use Rattle.utc_text.specs.Civil.{IsCivil, IsInYears, civil_count, local_count};
ghost use Rattle.utc_text.specs.Texts.{IsPrintable, utc_count};

use crate::calendar::{Civil, civil_of, count_of, is_civil};
use crate::fault::{CivilFault, PrintFault};
use utc_value::{Kind, MAX_TDF, Utc, ValueFault};

// Units of 100 ns in a minute.
const MINUTE: i128 = 600_000_000;

// The count in UTC of a civil time that is `tdf` minutes ahead of UTC.
pub(crate) fn count_in_utc(c: Civil, tdf: i16) -> i64
    requires { IsCivil c }
    ensures { result ≡ utc_count c tdf }
{
    (count_of(c) - i128::from(tdf) * MINUTE) as i64
}

// The count that clocks show which are `tdf` minutes ahead of UTC.
fn count_at(time: i64, tdf: i16) -> i128
    ensures { result ≡ local_count time tdf }
{
    i128::from(time) + i128::from(tdf) * MINUTE
}

/// The civil time of an absolute time, as clocks show it that are `tdf` minutes ahead of UTC.
///
/// `Kinds` comes for a relative time, then `TdfRange` for a time differential factor of a day or
/// more, then `YearRange` where the civil time is not of the years 1582 to 9999. `NoMemory` never
/// comes.
pub fn civil(u: Utc, tdf: i16) -> Result<Civil, PrintFault>
    ensures succeeds { IsOk result ↔ IsPrintable u tdf }
    ensures value { IfOk result (λ c. IsCivil c × (civil_count c ≡ local_count u.time tdf)) }
    ensures only { (c : Civil) → IsCivil c → u.kind ≡ Absolute → IsTdf tdf → civil_count c ≡ local_count u.time tdf → result ≡ Ok c }

    ensures memory { result ≢ Err PrintFault.NoMemory }
    ensures kinds { IsErrOf result PrintFault.Kinds ↔ (u.kind ≡ Relative) }
    ensures tdf { IsErrOf result PrintFault.TdfRange ↔ ((u.kind ≡ Absolute) × (¬ IsTdf tdf)) }
    ensures year { IsErrOf result PrintFault.YearRange ↔ ((u.kind ≡ Absolute) × IsTdf tdf × (¬ IsInYears (local_count u.time tdf))) }
{
    match u.kind() {
        Kind::Relative => Err(PrintFault::Kinds),
        Kind::Absolute => civil_at(u.time(), tdf),
    }
}

// Whether a time differential factor is less than a day either way.
fn is_tdf(tdf: i16) -> bool
    ensures { IsTrue result ↔ IsTdf tdf }
{
    -MAX_TDF <= tdf && tdf <= MAX_TDF
}

// The civil time of a count in UTC.
fn civil_at(time: i64, tdf: i16) -> Result<Civil, PrintFault>
    ensures value { IfOk result (λ c. IsTdf tdf × IsCivil c × (civil_count c ≡ local_count time tdf)) }
    ensures err { IfErr result (λ fault. ((fault ≡ PrintFault.TdfRange) × (¬ IsTdf tdf)) ⊎ ((fault ≡ PrintFault.YearRange) × IsTdf tdf × (¬ IsInYears (local_count time tdf)))) }
{
    if !is_tdf(tdf) {
        return Err(PrintFault::TdfRange);
    }
    match civil_of(count_at(time, tdf)) {
        Some(c) => Ok(c),
        None => Err(PrintFault::YearRange),
    }
}

/// The absolute time of a civil time that clocks show which are `tdf` minutes ahead of UTC.
///
/// `Date` comes where it is no date of the years 1582 to 9999 or no time of day, then
/// `InaccuracyRange` for an inaccuracy above 2^48 − 2, then `TdfRange` for a time differential
/// factor of a day or more.
pub fn from_civil(c: Civil, inacc: Option<u64>, tdf: i16) -> Result<Utc, CivilFault>
    ensures value { OkIff result (IsCivil c × IsInaccuracy inacc × IsTdf tdf) (absolute_stamp (utc_count c tdf) inacc tdf) }

    ensures date { IsErrOf result CivilFault.Date ↔ (¬ IsCivil c) }
    ensures inaccuracy { IsErrOf result CivilFault.InaccuracyRange ↔ (IsCivil c × (¬ IsInaccuracy inacc)) }
    ensures tdf { IsErrOf result CivilFault.TdfRange ↔ (IsCivil c × IsInaccuracy inacc × (¬ IsTdf tdf)) }
{
    if !is_civil(c) {
        return Err(CivilFault::Date);
    }
    match Utc::absolute(count_in_utc(c, tdf), inacc, tdf) {
        Ok(u) => Ok(u),
        Err(ValueFault::InaccuracyRange) => Err(CivilFault::InaccuracyRange),
        Err(ValueFault::TdfRange) => Err(CivilFault::TdfRange),
    }
}
