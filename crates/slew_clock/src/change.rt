ghost use Rattle.std.specs.Prelude.{◌≡◌, ◌^◌, ◌+◌, ◌<◌, ◌≤◌, ◌↔◌, pos, neg_ℤ, ◌≤ℤ◌, IfOk, IfSome, IsNone, MatchResult};
ghost use Rattle.slew_clock.specs.declared.rates.Rates.{Rates};
ghost use Rattle.slew_clock.specs.Record.{end_of, IsSound};
ghost use Rattle.slew_clock.specs.Line.{line};
ghost use Rattle.slew_clock.specs.Elapsed.{carried};
ghost use Rattle.slew_clock.specs.Change.{IsInRange, anchored_record, middle_of, stepped_record, is_far, changed_record, slew_to_middle, prolonged_record, resumed_record, renewed_record};
ghost use Rattle.slew_clock.specs.Clock.{IsNext};

use crate::clock::{interval_ahead, line_at};
use crate::{
    Anchor, ClockRecord, GREATEST_ANCHOR, GREATEST_LEASE, GREATEST_OSC, GREATEST_TIME, PartA,
    PartB, Rates,
};
use dts_base::Interval;
use thiserror::Error;

/// A record cannot be anchored to this interval: an end is below 0 or above `GREATEST_ANCHOR`.
#[derive(Clone, Copy, Debug, PartialEq, Eq, Error)]
#[error("an end of the interval from {lo} to {hi} is out of range")]
pub struct Range {
    /// The low end of the interval.
    pub lo: i64,
    /// Its high end.
    pub hi: i64,
}

// The anchor of an interval.
fn anchor_at(osc: u64, i: Interval) -> Result<Anchor, Range>
    ensures anchor { IfOk result (λ a. a ≡ record { osc = osc; lo = i.lo; hi = i.hi }) }
    ensures range { MatchResult result
        (λ _. IsInRange (i.lo, i.hi))
        (λ e. (e ≡ record { lo = i.lo; hi = i.hi }) × (IsInRange (i.lo, i.hi) → ⊥)) }
{
    if i.lo < 0 || i.hi > GREATEST_ANCHOR {
        return Err(Range { lo: i.lo, hi: i.hi });
    }
    Ok(Anchor {
        osc,
        lo: i.lo,
        hi: i.hi,
    })
}

/// The next record with this interval, which holds true time at this oscillator reading, as its anchor.
/// The line goes on as it was, until it is renewed. Refused exactly where an end of the interval is below
/// 0 or above `GREATEST_ANCHOR`.
pub fn anchored(r: &Rates, rec: &ClockRecord, osc: u64, i: Interval) -> Result<ClockRecord, Range>
    requires sound { IsSound r.now rec.now }
    requires born { rec.now.born ≤ osc }
    requires osc { osc ≤ GREATEST_OSC }
    requires number { rec.now.number < u64.MAX }
    ensures anchored { IfOk result (λ next. next ≡ anchored_record rec.now osc (i.lo, i.hi)) }
    ensures next { IfOk result (IsNext r.now rec.now) }
    ensures sound { IfOk result (IsSound r.now) }
    ensures range { MatchResult result
        (λ _. IsInRange (i.lo, i.hi))
        (λ e. (e ≡ record { lo = i.lo; hi = i.hi }) × (IsInRange (i.lo, i.hi) → ⊥)) }
{
    let anchor = anchor_at(osc, i)?;
    Ok(ClockRecord {
        number: rec.number + 1,
        step: rec.step,
        born: osc,
        anchor: Some(anchor),
        a: rec.a,
        b: rec.b,
    })
}

// The middle of an interval, rounded down.
fn middle(lo: i128, hi: i128) -> i128
    requires lo { (neg_ℤ (pos (2 ^ 63)) ≤ℤ lo) × (lo ≤ℤ pos (2 ^ 63)) }
    requires hi { (neg_ℤ (pos (2 ^ 63)) ≤ℤ hi) × (hi ≤ℤ pos (2 ^ 63)) }
    ensures { result ≡ middle_of (lo, hi) }
{
    (lo + hi).div_euclid(2)
}

// Whether the middle of an interval differs from the line by more than the tolerance.
fn is_far(r: &Rates, rec: &ClockRecord, osc: u64, i: Interval) -> bool
    requires sound { IsSound r.now rec.now }
    requires born { rec.now.born ≤ osc }
    requires osc { osc ≤ GREATEST_OSC }
    ensures { result ≡ is_far r.now rec.now osc (i.lo, i.hi) }
{
    let line = line_at(r, rec, osc);
    middle(i128::from(i.lo), i128::from(i.hi)).abs_diff(line) > u128::from(r.tolerance)
}

/// The next record with a step to this interval, which holds true time at this oscillator reading: it is
/// the anchor, and the line begins at its middle, rounded down, with no slew. Refused exactly where an end
/// of the interval is below 0 or above `GREATEST_ANCHOR`.
pub fn stepped(r: &Rates, rec: &ClockRecord, osc: u64, i: Interval) -> Result<ClockRecord, Range>
    requires sound { IsSound r.now rec.now }
    requires born { rec.now.born ≤ osc }
    requires osc { osc ≤ GREATEST_OSC }
    requires number { rec.now.number < u64.MAX }
    ensures stepped { IfOk result (λ next. next ≡ stepped_record rec.now osc (i.lo, i.hi)) }
    ensures next { IfOk result (IsNext r.now rec.now) }
    ensures sound { IfOk result (IsSound r.now) }
    ensures range { MatchResult result
        (λ _. IsInRange (i.lo, i.hi))
        (λ e. (e ≡ record { lo = i.lo; hi = i.hi }) × (IsInRange (i.lo, i.hi) → ⊥)) }
{
    let anchor = anchor_at(osc, i)?;
    let value = middle(i128::from(i.lo), i128::from(i.hi)) as i64;
    Ok(ClockRecord {
        number: rec.number + 1,
        step: rec.step + 1,
        born: osc,
        anchor: Some(anchor),
        a: PartA {
            from: osc,
            value,
            x: 0,
        },
        b: PartB { from: osc, x: 0 },
    })
}

/// The next record with this interval, which holds true time at this oscillator reading: a step where the
/// record has no anchor yet or the interval's middle differs from the line by more than the tolerance,
/// and else another anchor. Refused exactly where an end of the interval is below 0 or above
/// `GREATEST_ANCHOR`.
pub fn changed(r: &Rates, rec: &ClockRecord, osc: u64, i: Interval) -> Result<ClockRecord, Range>
    requires sound { IsSound r.now rec.now }
    requires born { rec.now.born ≤ osc }
    requires osc { osc ≤ GREATEST_OSC }
    requires number { rec.now.number < u64.MAX }
    ensures changed { IfOk result (λ next. next ≡ changed_record r.now rec.now osc (i.lo, i.hi)) }
    ensures next { IfOk result (IsNext r.now rec.now) }
    ensures sound { IfOk result (IsSound r.now) }
    ensures range { MatchResult result
        (λ _. IsInRange (i.lo, i.hi))
        (λ e. (e ≡ record { lo = i.lo; hi = i.hi }) × (IsInRange (i.lo, i.hi) → ⊥)) }
{
    if rec.anchor.is_none() || is_far(r, rec, osc, i) {
        stepped(r, rec, osc, i)
    } else {
        anchored(r, rec, osc, i)
    }
}

// The slew that leads this value to the middle of the interval at an oscillator reading, as far as the
// rates allow.
fn slew_to_middle(r: &Rates, rec: &ClockRecord, osc: u64, value: i128) -> i64
    requires sound { IsSound r.now rec.now }
    requires born { rec.now.born ≤ osc }
    requires osc { osc ≤ GREATEST_OSC + GREATEST_LEASE }
    requires value { (pos 0 ≤ℤ value) × (value ≤ℤ pos (2 ^ 63)) }
    ensures { result ≡ slew_to_middle r.now rec.now osc value }
{
    match interval_ahead(r, rec, osc) {
        Some((lo, hi)) => {
            let greatest = i128::from(r.greatest_slew());
            (middle(lo, hi) - value).clamp(-greatest, greatest) as i64
        }
        None => 0,
    }
}

// The record renewed before its end.
fn prolonged(r: &Rates, rec: &ClockRecord, osc: u64) -> ClockRecord
    requires sound { IsSound r.now rec.now }
    requires born { rec.now.born ≤ osc }
    requires osc { osc ≤ GREATEST_OSC }
    requires begun { rec.now.b.from ≤ osc }
    requires number { rec.now.number < u64.MAX }
    requires before { osc < end_of r.now rec.now }
    ensures { result ≡ prolonged_record r.now rec.now osc }
{
    let end = rec.b.from + r.lease;
    let value = line_at(r, rec, end);
    ClockRecord {
        number: rec.number + 1,
        step: rec.step,
        born: osc,
        anchor: rec.anchor,
        a: PartA {
            from: rec.b.from,
            value: line_at(r, rec, rec.b.from) as i64,
            x: rec.b.x,
        },
        b: PartB {
            from: end,
            x: slew_to_middle(r, rec, end, value),
        },
    }
}

// The record renewed at its end or past it.
fn resumed(r: &Rates, rec: &ClockRecord, osc: u64) -> ClockRecord
    requires sound { IsSound r.now rec.now }
    requires born { rec.now.born ≤ osc }
    requires osc { osc ≤ GREATEST_OSC }
    requires number { rec.now.number < u64.MAX }
    requires past { end_of r.now rec.now ≤ osc }
    ensures { result ≡ resumed_record r.now rec.now osc }
{
    let value = line_at(r, rec, rec.b.from + r.lease);
    ClockRecord {
        number: rec.number + 1,
        step: rec.step,
        born: osc,
        anchor: rec.anchor,
        a: PartA {
            from: osc,
            value: value as i64,
            x: 0,
        },
        b: PartB {
            from: osc,
            x: slew_to_middle(r, rec, osc, value),
        },
    }
}

/// The next record with its line renewed for another lease. Before the end of the line its second part
/// becomes the first one, and a new one begins at that end; at the end or past it both parts begin at
/// this oscillator reading, with the value that the line has at its end. The new second part leads to the
/// middle of the interval there, as far as the greatest slew allows. None exactly before the second part
/// begins.
pub fn renewed(r: &Rates, rec: &ClockRecord, osc: u64) -> Option<ClockRecord>
    requires sound { IsSound r.now rec.now }
    requires born { rec.now.born ≤ osc }
    requires osc { osc ≤ GREATEST_OSC }
    requires number { rec.now.number < u64.MAX }
    ensures renewed { result ≡ renewed_record r.now rec.now osc }
    ensures next { IfSome result (IsNext r.now rec.now) }
    ensures sound { IfSome result (IsSound r.now) }
    ensures early { IsNone result ↔ (osc < rec.now.b.from) }
{
    if osc < rec.b.from {
        return None;
    }
    if osc < rec.b.from + r.lease {
        Some(prolonged(r, rec, osc))
    } else {
        Some(resumed(r, rec, osc))
    }
}

/// An answer that was asked for at one oscillator reading and came at another, carried on to a third:
/// where it held true time at some moment between asking and coming, this interval holds it now. The ends
/// are times up to `GREATEST_TIME`.
pub fn carried(r: &Rates, i: Interval, asked: u64, got: u64, now: u64) -> Interval
    requires from { pos 0 ≤ℤ i.lo }
    requires to { i.hi ≤ℤ GREATEST_TIME }
    requires asked { asked ≤ got }
    requires got { got ≤ now }
    requires now { now ≤ GREATEST_OSC }
    ensures { (result.lo, result.hi) ≡ carried r.now i.lo i.hi asked got now }
{
    let lo = i128::from(i.lo) + r.least(now - got);
    let hi = i128::from(i.hi) + r.most(now - asked);
    Interval {
        lo: lo as i64,
        hi: hi as i64,
    }
}
