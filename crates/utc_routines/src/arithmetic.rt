//! Sums, differences, multiples and absolute values.

ghost use Rattle.std.specs.Prelude.{◌≡◌, ◌≢◌, ◌+◌, ◌*◌, ◌-◌, ◌^◌, ◌<◌, ◌≤◌, ◌↔◌, ℕ, ℤ, pos, ◌+ℤ◌, ◌*ℤ◌, ◌≤ℤ◌, Ok, Err, IfOk, IfErr};
ghost use Rattle.utc_value.specs.Stamp.{Stamp, IsInRange, IsTdfOf};
ghost use Rattle.utc_routines.specs.Arithmetic.{sum_kind, difference_kind, sum_tdf, kept_tdf, Adds, RefusesSum, Subtracts, RefusesDifference, Multiplies, RefusesProduct, TakesAbsolute, RefusesAbsolute, ChangesTdf, RefusesTdf};

use crate::UtcFault;
use crate::parts::{added, made, multiplied, whole_time};
use utc_value::{Kind, MAX_TDF, Utc};

/// `a` and `b` together: times and inaccuracies are added. A moment and a length, in either order,
/// are a moment with the time differential factor of that moment; two lengths are a length.
///
/// `Kinds` exactly for two moments; else `Overflow` exactly where the sum of the times is no `i64`.
pub fn add(a: Utc, b: Utc) -> Result<Utc, UtcFault>
    ensures sum { (r : Stamp) → (result ≡ Ok r) ↔ (Adds a b r × IsInRange r) }
    ensures refused { (fault : UtcFault) → (result ≡ Err fault) ↔ RefusesSum a b fault }
{
    sum_of(a, b)
}

// The sum, kinds first.
fn sum_of(a: Utc, b: Utc) -> Result<Utc, UtcFault>
    ensures ok { IfOk result (Adds a b) }
    ensures in_range { IfOk result IsInRange }
    ensures err { IfErr result (RefusesSum a b) }
{
    let Some(kind) = sum_kind(a.kind(), b.kind()) else {
        return Err(UtcFault::Kinds);
    };
    let time = whole_time(i128::from(a.time()) + i128::from(b.time()))?;
    let inaccuracy = added(a.inaccuracy(), b.inaccuracy());
    Ok(made(kind, time, inaccuracy, sum_tdf(a, b)))
}

/// `a` less `b`: times are subtracted and inaccuracies added. Two moments make a length, a moment
/// less a length is a moment with the time differential factor of `a`, and two lengths make a length.
///
/// `Kinds` exactly for a length less a moment; else `Overflow` exactly where the difference of the
/// times is no `i64`.
pub fn sub(a: Utc, b: Utc) -> Result<Utc, UtcFault>
    ensures difference { (r : Stamp) → (result ≡ Ok r) ↔ (Subtracts a b r × IsInRange r) }
    ensures refused { (fault : UtcFault) → (result ≡ Err fault) ↔ RefusesDifference a b fault }
{
    difference_of(a, b)
}

// The difference, kinds first.
fn difference_of(a: Utc, b: Utc) -> Result<Utc, UtcFault>
    ensures ok { IfOk result (Subtracts a b) }
    ensures in_range { IfOk result IsInRange }
    ensures err { IfErr result (RefusesDifference a b) }
{
    let Some(kind) = difference_kind(a.kind(), b.kind()) else {
        return Err(UtcFault::Kinds);
    };
    let time = whole_time(i128::from(a.time()) - i128::from(b.time()))?;
    let inaccuracy = added(a.inaccuracy(), b.inaccuracy());
    Ok(made(kind, time, inaccuracy, kept_tdf(kind, a.tdf())))
}

/// The length `a` without its sign, as inaccurate as `a`.
///
/// `Kinds` exactly for a moment; else `Overflow` exactly where the time is the least `i64`.
pub fn abs(a: Utc) -> Result<Utc, UtcFault>
    ensures absolute { (r : Stamp) → (result ≡ Ok r) ↔ (TakesAbsolute a r × IsInRange r) }
    ensures refused { (fault : UtcFault) → (result ≡ Err fault) ↔ RefusesAbsolute a fault }
{
    absolute_of(a)
}

// The absolute value, kinds first.
fn absolute_of(a: Utc) -> Result<Utc, UtcFault>
    ensures ok { IfOk result (TakesAbsolute a) }
    ensures in_range { IfOk result IsInRange }
    ensures err { IfErr result (RefusesAbsolute a) }
{
    if a.kind() == Kind::Absolute {
        return Err(UtcFault::Kinds);
    }
    let time = whole_time(i128::from(a.time().unsigned_abs()))?;
    Ok(made(Kind::Relative, time, a.inaccuracy(), 0))
}

/// The length `a`, `k` times: the time times `k`, and the inaccuracy times `k` without its sign.
///
/// `Kinds` exactly for a moment; else `Overflow` exactly where the product is no `i64`.
pub fn mul(a: Utc, k: i32) -> Result<Utc, UtcFault>
    ensures multiple { (r : Stamp) → (result ≡ Ok r) ↔ (Multiplies a k r × IsInRange r) }
    ensures refused { (fault : UtcFault) → (result ≡ Err fault) ↔ RefusesProduct a k fault }
{
    multiple_of(a, k)
}

// The multiple, kinds first.
fn multiple_of(a: Utc, k: i32) -> Result<Utc, UtcFault>
    ensures ok { IfOk result (Multiplies a k) }
    ensures in_range { IfOk result IsInRange }
    ensures err { IfErr result (RefusesProduct a k) }
{
    if a.kind() == Kind::Absolute {
        return Err(UtcFault::Kinds);
    }
    let time = whole_time(i128::from(a.time()) * i128::from(k))?;
    Ok(made(Kind::Relative, time, multiplied(a.inaccuracy(), k), 0))
}

/// The moment `a` with another time differential factor, in minutes.
///
/// `Kinds` exactly for a length; else `TdfRange` exactly where `tdf` is a day or more, either way.
pub fn with_tdf(a: Utc, tdf: i16) -> Result<Utc, UtcFault>
    ensures moment { (r : Stamp) → (result ≡ Ok r) ↔ (ChangesTdf a tdf r × IsInRange r) }
    ensures refused { (fault : UtcFault) → (result ≡ Err fault) ↔ RefusesTdf a tdf fault }
{
    moved_to(a, tdf)
}

// The same moment elsewhere, kinds first.
fn moved_to(a: Utc, tdf: i16) -> Result<Utc, UtcFault>
    ensures ok { IfOk result (ChangesTdf a tdf) }
    ensures in_range { IfOk result IsInRange }
    ensures err { IfErr result (RefusesTdf a tdf) }
{
    if a.kind() == Kind::Relative {
        return Err(UtcFault::Kinds);
    }
    if tdf < -MAX_TDF || MAX_TDF < tdf {
        return Err(UtcFault::TdfRange);
    }
    Ok(made(Kind::Absolute, a.time(), a.inaccuracy(), tdf))
}

// The kind of a sum; two moments have none.
fn sum_kind(a: Kind, b: Kind) -> Option<Kind>
    ensures { result ≡ sum_kind a b }
{
    match (a, b) {
        (Kind::Absolute, Kind::Absolute) => None,
        (Kind::Relative, Kind::Relative) => Some(Kind::Relative),
        _ => Some(Kind::Absolute),
    }
}

// The kind of a difference; a moment cannot be taken from a length.
fn difference_kind(a: Kind, b: Kind) -> Option<Kind>
    ensures { result ≡ difference_kind a b }
{
    match (a, b) {
        (Kind::Relative, Kind::Absolute) => None,
        (Kind::Absolute, Kind::Relative) => Some(Kind::Absolute),
        _ => Some(Kind::Relative),
    }
}

// The time differential factor of a sum.
fn sum_tdf(a: Utc, b: Utc) -> i16
    ensures { result ≡ sum_tdf a.kind b.kind a.tdf b.tdf }
{
    match a.kind() {
        Kind::Absolute => a.tdf(),
        Kind::Relative => b.tdf(),
    }
}

// The time differential factor that a result of that kind keeps.
fn kept_tdf(kind: Kind, tdf: i16) -> i16
    ensures { result ≡ kept_tdf kind tdf }
{
    match kind {
        Kind::Absolute => tdf,
        Kind::Relative => 0,
    }
}
