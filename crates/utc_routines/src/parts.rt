//! The parts that results are made of.

ghost use Rattle.std.specs.Prelude.{◌≡◌, ◌≢◌, ◌+◌, ◌*◌, ◌-◌, ◌^◌, ◌<◌, ◌≤◌, ◌↔◌, ℕ, ℤ, pos, ◌+ℤ◌, ◌*ℤ◌, ◌≤ℤ◌, FitsSigned, ◌-ℤ◌, IfOk, IfErr, IfSome, OkIff, IsTrue, MatchOption};
ghost use Rattle.std.specs.Int.{w64};
ghost use Rattle.utc_value.specs.Stamp.{IsInRange, IsInaccuracy, IsTdfOf};
ghost use Rattle.utc_routines.specs.Formula.{added, multiplied, AreEnds, IsSmall};
ghost use Rattle.utc_routines.specs.Interval.{IsHalf};
ghost use Rattle.utc_routines.specs.Interval.{stated, is_either_unspecified};

use crate::UtcFault;
use utc_value::{Kind, MAX_INACCURACY, Utc};

// A result's time, where it is an `i64`.
pub fn whole_time(units: i128) -> Result<i64, UtcFault>
    ensures ok { OkIff result (FitsSigned w64 units) units }
    ensures err { IfErr result (λ fault. fault ≡ UtcFault.Overflow) }
{
    match i64::try_from(units) {
        Ok(time) => Ok(time),
        Err(_) => Err(UtcFault::Overflow),
    }
}

// A result's inaccuracy, unspecified where it is too large to be stated.
pub fn stated(units: u128) -> Option<u64>
    ensures value { result ≡ stated units }
    ensures in_range { IsInaccuracy result }
{
    if units <= u128::from(MAX_INACCURACY) {
        Some(units as u64)
    } else {
        None
    }
}

// The inaccuracies of two operands together.
pub fn added(a: Option<u64>, b: Option<u64>) -> Option<u64>
    ensures value { result ≡ added a b }
    ensures in_range { IsInaccuracy result }
{
    match (a, b) {
        (Some(a), Some(b)) => stated(u128::from(a) + u128::from(b)),
        _ => None,
    }
}

// An inaccuracy as many times as `k` says, whichever its sign.
pub fn multiplied(inaccuracy: Option<u64>, k: i32) -> Option<u64>
    ensures value { result ≡ multiplied inaccuracy k }
    ensures in_range { IsInaccuracy result }
{
    match inaccuracy {
        Some(units) => stated(u128::from(units) * u128::from(k.unsigned_abs())),
        None => None,
    }
}

// The timestamp of these parts.
pub fn made(kind: Kind, time: i64, inaccuracy: Option<u64>, tdf: i16) -> Utc
    requires inaccuracy { IsInaccuracy inaccuracy }
    requires tdf { IsTdfOf kind tdf }
    ensures { result ≡ record { time = time; inaccuracy = inaccuracy; tdf = tdf; kind = kind } }
{
    match kind {
        Kind::Absolute => Utc::absolute(time, inaccuracy, tdf).unwrap(),
        Kind::Relative => Utc::relative(time, inaccuracy).unwrap(),
    }
}

// Whether both are moments or both are lengths.
pub fn are_alike(a: Utc, b: Utc) -> bool
    ensures { IsTrue result ↔ (a.kind ≡ b.kind) }
{
    a.kind() == b.kind()
}

// The ends of a timestamp's interval, in units of 100 ns.
#[derive(Clone, Copy, Debug)]
pub struct Ends {
    pub low: i128,
    pub high: i128,
}

// The earliest and the latest of a timestamp, where its inaccuracy is specified.
pub fn ends_of(a: Utc) -> Option<Ends>
    ensures value { MatchOption result (a.inaccuracy ≡ None) (λ ends. AreEnds a ends.low ends.high) }
    ensures small { IfSome result (λ ends. IsSmall ends.low × IsSmall ends.high) }
    ensures in_range { IsInRange a }
{
    match a.inaccuracy() {
        Some(inaccuracy) => {
            let time = i128::from(a.time());
            let half = i128::from(inaccuracy);
            Some(Ends {
                low: time - half,
                high: time + half,
            })
        }
        None => None,
    }
}

// The ends of two intervals.
#[derive(Clone, Copy, Debug)]
pub struct BothEnds {
    pub first: Ends,
    pub second: Ends,
}

// The ends of two intervals, where both are specified.
pub fn both_ends(a: Utc, b: Utc) -> Option<BothEnds>
    ensures value { MatchOption result (IsTrue (is_either_unspecified a b))
        (λ ends. AreEnds a ends.first.low ends.first.high × AreEnds b ends.second.low ends.second.high) }
    ensures small { IfSome result (λ ends. IsSmall ends.first.low × IsSmall ends.first.high × IsSmall ends.second.low × IsSmall ends.second.high) }
    ensures in_range { IfSome result (λ _. IsInRange a × IsInRange b) }
{
    let first = ends_of(a)?;
    let second = ends_of(b)?;
    Some(BothEnds { first, second })
}

// Half of a sum, rounded toward the lesser.
pub fn half(sum: i128) -> i128
    ensures { IsHalf sum result }
{
    sum.div_euclid(2)
}
