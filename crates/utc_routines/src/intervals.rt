//! Points, spans and bounds.

ghost use Rattle.std.specs.Prelude.{◌≡◌, ℕ, ℤ, pos, ◌+ℤ◌, ◌-ℤ◌, ◌≤ℤ◌, FitsSigned, ◌↔◌, Ok, Err, IfOk, IfErr, IfSome, MatchOption};
ghost use Rattle.std.specs.Int.{w64};
ghost use Rattle.utc_value.specs.Stamp.{Stamp, IsInRange, IsInaccuracy};
ghost use Rattle.utc_routines.specs.Comparison.{RefusesUnlike};
ghost use Rattle.utc_routines.specs.Formula.{IsSmall};
ghost use Rattle.utc_routines.specs.Interval.{IsHalf};
ghost use Rattle.utc_routines.specs.Interval.{stated};
ghost use Rattle.utc_routines.specs.Tightest.{IsSpan, IsBound, Spans, Bounds, IsOutOfOrder, RefusesBound, exact_at, ArePoints, RefusesPoints};

use crate::UtcFault;
use crate::parts::{are_alike, both_ends, ends_of, half, made, stated, whole_time};
use utc_value::Utc;

/// The earliest, the middle and the latest of a timestamp, each known exactly and with the kind and
/// the time differential factor of `a`.
///
/// `Unspecified` exactly where the inaccuracy is; else `Overflow` exactly where one of the three is
/// no `i64`.
pub fn point(a: Utc) -> Result<(Utc, Utc, Utc), UtcFault>
    ensures points { (x y z : Stamp) → (result ≡ Ok (x, y, z)) ↔ (ArePoints a x y z × IsInRange x × IsInRange y × IsInRange z) }
    ensures refused { (fault : UtcFault) → (result ≡ Err fault) ↔ RefusesPoints a fault }
{
    points_of(a)
}

// The three points, where the inaccuracy is specified.
fn points_of(a: Utc) -> Result<(Utc, Utc, Utc), UtcFault>
    ensures ok { IfOk result (λ points. ArePoints a points.0 points.1 points.2) }
    ensures in_range { IfOk result (λ points. IsInRange points.0 × IsInRange points.1 × IsInRange points.2) }
    ensures err { IfErr result (RefusesPoints a) }
{
    let Some(ends) = ends_of(a) else {
        return Err(UtcFault::Unspecified);
    };
    let first = whole_time(ends.low)?;
    let last = whole_time(ends.high)?;
    Ok((exact_at(a, first), exact_at(a, a.time()), exact_at(a, last)))
}

/// The timestamp of least inaccuracy, and of these the one of least time, whose interval holds both
/// intervals, with the time differential factor of `a`. Where an operand is unspecified the result
/// is, and its time is half the sum of the times, rounded toward the lesser.
///
/// `Kinds` exactly where the kinds differ. It never overflows.
pub fn span(a: Utc, b: Utc) -> Result<Utc, UtcFault>
    ensures span { (r : Stamp) → (result ≡ Ok r) ↔ (Spans a b r × IsInRange r) }
    ensures refused { (fault : UtcFault) → (result ≡ Err fault) ↔ RefusesUnlike a b fault }
{
    spanned(a, b)
}

// The span, kinds first.
fn spanned(a: Utc, b: Utc) -> Result<Utc, UtcFault>
    ensures ok { IfOk result (Spans a b) }
    ensures in_range { IfOk result IsInRange }
    ensures err { IfErr result (RefusesUnlike a b) }
{
    if !are_alike(a, b) {
        return Err(UtcFault::Kinds);
    }
    let found = span_of(a, b);
    Ok(made(a.kind(), found.time as i64, found.inaccuracy, a.tdf()))
}

/// As [`span`], from the earliest of `a` to the latest of `b`.
///
/// `Kinds` exactly where the kinds differ; else `OutOfOrder` exactly where both are specified and the
/// earliest of `a` is after the latest of `b`; else `Overflow` exactly where the time is no `i64`.
pub fn bound(a: Utc, b: Utc) -> Result<Utc, UtcFault>
    ensures bound { (r : Stamp) → (result ≡ Ok r) ↔ (Bounds a b r × IsInRange r) }
    ensures refused { (fault : UtcFault) → (result ≡ Err fault) ↔ RefusesBound a b fault }
{
    bounded(a, b)
}

// The bound, kinds first and then the order.
fn bounded(a: Utc, b: Utc) -> Result<Utc, UtcFault>
    ensures ok { IfOk result (Bounds a b) }
    ensures in_range { IfOk result IsInRange }
    ensures err { IfErr result (RefusesBound a b) }
{
    if !are_alike(a, b) {
        return Err(UtcFault::Kinds);
    }
    let Some(found) = bound_of(a, b) else {
        return Err(UtcFault::OutOfOrder);
    };
    let time = whole_time(found.time)?;
    Ok(made(a.kind(), time, found.inaccuracy, a.tdf()))
}

// A time, known exactly, in place of that of `a`.
fn exact_at(a: Utc, time: i64) -> Utc
    ensures value { result ≡ exact_at a time }
    ensures in_range { IsInRange result }
{
    made(a.kind(), time, Some(0), a.tdf())
}

// The time and the inaccuracy of a result.
#[derive(Clone, Copy, Debug)]
struct Found {
    time: i128,
    inaccuracy: Option<u64>,
}

// The tightest interval that holds both.
fn span_of(a: Utc, b: Utc) -> Found
    ensures interval { IsSpan a b result.time result.inaccuracy }
    ensures in_range { IsInaccuracy result.inaccuracy }
    ensures time_fits { FitsSigned w64 result.time }
{
    let Some(ends) = both_ends(a, b) else {
        return halfway(a, b);
    };
    tightest(
        ends.first.low.min(ends.second.low),
        ends.first.high.max(ends.second.high),
    )
}

// The tightest interval from the earliest of `a` to the latest of `b`; `None` where they are out of
// order.
fn bound_of(a: Utc, b: Utc) -> Option<Found>
    ensures order { MatchOption result (IsOutOfOrder a b) (λ _. ¬ IsOutOfOrder a b) }
    ensures interval { IfSome result (λ found. IsBound a b found.time found.inaccuracy) }
    ensures in_range { IfSome result (λ found. IsInaccuracy found.inaccuracy) }
{
    let Some(ends) = both_ends(a, b) else {
        return Some(halfway(a, b));
    };
    if ends.second.high < ends.first.low {
        return None;
    }
    Some(tightest(ends.first.low, ends.second.high))
}

// The interval from `low` to `high`, its middle rounded toward the lesser.
fn tightest(low: i128, high: i128) -> Found
    requires order { low ≤ℤ high }
    requires low_small { IsSmall low }
    requires high_small { IsSmall high }
    ensures time { IsHalf (low +ℤ high) result.time }
    ensures inaccuracy { (i : ℕ) × (high ≡ result.time +ℤ pos i) × (result.inaccuracy ≡ stated i) }
    ensures in_range { IsInaccuracy result.inaccuracy }
{
    let time = half(low + high);
    Found {
        time,
        inaccuracy: stated((high - time) as u128),
    }
}

// The middle of two times, with no inaccuracy that could be stated.
fn halfway(a: Utc, b: Utc) -> Found
    ensures time { IsHalf (a.time +ℤ b.time) result.time }
    ensures inaccuracy { result.inaccuracy ≡ None }
    ensures time_fits { FitsSigned w64 result.time }
{
    Found {
        time: half(i128::from(a.time()) + i128::from(b.time())),
        inaccuracy: None,
    }
}
