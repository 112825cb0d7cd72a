ghost use Rattle.std.specs.Prelude.{◌≡◌, ◌^◌, ◌+◌, ◌*◌, ◌<◌, ◌≤◌, ◌↔◌, ℤ, pos, ◌+ℤ◌, ◌≤ℤ◌, IfSome, IfOk, IfErr, IsErr, IsSome};
ghost use Rattle.slew_clock.specs.declared.rates.Rates.{Rates};
ghost use Rattle.slew_clock.specs.declared.rates.TheConstants.{USUAL_LEASE};
ghost use Rattle.slew_clock.specs.Record.{IsSlew, IsSound};
ghost use Rattle.slew_clock.specs.Started.{started, StartsWithin};
ghost use Rattle.slew_clock.specs.Line.{advance, first_part, line};
ghost use Rattle.slew_clock.specs.Reading.{interval_of, inaccuracy_of, or_zero, reach, specified, IsReading};

use crate::rates::USUAL_LEASE;
use crate::{
    Anchor, ClockRecord, GREATEST_INACCURACY, GREATEST_LEASE, GREATEST_OSC, GREATEST_TIME, PartA,
    PartB, Rates, Reading, Regressed,
};
use dts_base::Interval;

/// The record that a clock starts with at an oscillator reading: its value there, no slew, and the first
/// interval as its anchor where one is known. It is sound for all rates.
pub fn start(osc: u64, value: i64, first: Option<Interval>) -> ClockRecord
    requires osc { osc ≤ GREATEST_OSC }
    requires from { pos 0 ≤ℤ value }
    requires to { value ≤ℤ GREATEST_TIME }
    requires first { StartsWithin first }
    ensures made { result ≡ started osc value first }
    ensures sound { (r : Rates) → IsSound r result }
{
    let anchor = first.map(|i| Anchor {
        osc,
        lo: i.lo,
        hi: i.hi,
    });
    ClockRecord {
        number: 0,
        step: 0,
        born: osc,
        anchor,
        a: PartA {
            from: osc,
            value,
            x: 0,
        },
        b: PartB { from: osc, x: 0 },
    }
}

// How far the clock goes, at a slew of x over a lease, where the oscillator goes on by so many units.
#[inline]
fn advance_by(r: &Rates, x: i64, elapsed: u64) -> i128
    requires slew { IsSlew r.now x }
    requires elapsed { elapsed ≤ r.now.lease }
    ensures advance { result ≡ advance r.now x elapsed }
    ensures from { pos 0 ≤ℤ result }
    ensures to { result ≤ℤ pos (2 * elapsed) }
{
    if r.lease == USUAL_LEASE {
        i128::from(usual_advance(r, x, elapsed))
    } else {
        wide_advance(r, x, elapsed)
    }
}

// The same at the usual lease: in 64 bits, and over a divisor that is known, which takes less time.
#[inline]
fn usual_advance(r: &Rates, x: i64, elapsed: u64) -> u64
    requires slew { IsSlew r.now x }
    requires elapsed { elapsed ≤ r.now.lease }
    requires lease { r.now.lease ≡ USUAL_LEASE }
    ensures { pos result ≡ advance r.now x elapsed }
{
    let pace = (USUAL_LEASE as i64 + x) as u64;
    pace * elapsed / USUAL_LEASE
}

// The same at any lease.
#[cold]
fn wide_advance(r: &Rates, x: i64, elapsed: u64) -> i128
    requires { IsSlew r.now x }
    ensures { result ≡ advance r.now x elapsed }
{
    let slew = i128::from(x) * i128::from(elapsed);
    i128::from(elapsed) + slew.div_euclid(i128::from(r.lease))
}

// The value of a record's line where its second part begins: at once, or after a whole lease.
fn joint_of(r: &Rates, rec: &ClockRecord) -> i128
    requires { IsSound r.now rec.now }
    ensures { result ≡ first_part r.now rec.now rec.now.b.from }
{
    let value = i128::from(rec.a.value);
    if rec.b.from == rec.a.from {
        return value;
    }
    value + i128::from(r.lease) + i128::from(rec.a.x)
}

// The line of a record.
#[inline]
pub(crate) fn line_at(r: &Rates, rec: &ClockRecord, osc: u64) -> i128
    requires sound { IsSound r.now rec.now }
    requires begun { rec.now.a.from ≤ osc }
    requires osc { osc ≤ GREATEST_OSC + GREATEST_LEASE }
    ensures { result ≡ line r.now rec.now osc }
{
    if osc < rec.b.from {
        return i128::from(rec.a.value) + advance_by(r, rec.a.x, osc - rec.a.from);
    }
    let elapsed = r.lease.min(osc - rec.b.from);
    joint_of(r, rec) + advance_by(r, rec.b.x, elapsed)
}

// The interval of a record, also a lease ahead.
#[inline]
pub(crate) fn interval_ahead(r: &Rates, rec: &ClockRecord, osc: u64) -> Option<(i128, i128)>
    requires sound { IsSound r.now rec.now }
    requires born { rec.now.born ≤ osc }
    requires osc { osc ≤ GREATEST_OSC + GREATEST_LEASE }
    ensures interval { result ≡ interval_of r.now rec.now osc }
    ensures anchored { IsSome result ↔ IsSome rec.now.anchor }
{
    let anchor = rec.anchor?;
    let elapsed = osc - anchor.osc;
    let lo = i128::from(anchor.lo) + r.least(elapsed);
    let hi = i128::from(anchor.hi) + r.most(elapsed);
    Some((lo, hi))
}

/// The interval that holds true time at an oscillator reading, in units of 100 ns: its ends are those of
/// the record's anchor with the least and the most that can have passed since. None exactly without an
/// anchor.
#[inline]
pub fn interval_at(r: &Rates, rec: &ClockRecord, osc: u64) -> Option<(i128, i128)>
    requires sound { IsSound r.now rec.now }
    requires born { rec.now.born ≤ osc }
    requires osc { osc ≤ GREATEST_OSC }
    ensures interval { result ≡ interval_of r.now rec.now osc }
    ensures anchored { IsSome result ↔ IsSome rec.now.anchor }
{
    interval_ahead(r, rec, osc)
}

// How far a value is from the farther end of an interval, and 0 at the least.
fn reach_in(value: i128, lo: i128, hi: i128) -> i128
    requires value { (pos 0 ≤ℤ value) × (value ≤ℤ pos (2 ^ 63)) }
    requires lo { (pos 0 ≤ℤ lo) × (lo ≤ℤ pos (2 ^ 63)) }
    requires hi { (pos 0 ≤ℤ hi) × (hi ≤ℤ pos (2 ^ 63)) }
    ensures { result ≡ pos (reach value (lo, hi)) }
{
    (value - lo).max(hi - value).max(0)
}

// An inaccuracy, where it is specified.
fn specified_at(reach: i128) -> Option<u64>
    requires { pos 0 ≤ℤ reach }
    ensures { result ≡ specified (or_zero reach) }
{
    if reach <= i128::from(GREATEST_INACCURACY) {
        Some(reach as u64)
    } else {
        None
    }
}

/// The reading of a record at an oscillator reading. Its value is the line of the record, its inaccuracy
/// how far that is from the farther end of the interval that holds true time, in units of 100 ns; it is
/// unspecified exactly without an anchor or above `GREATEST_INACCURACY`. Refused exactly where the oscillator reading
/// is below that at which the record was made.
#[inline(always)]
pub fn read_at(r: &Rates, rec: &ClockRecord, osc: u64) -> Result<Reading, Regressed>
    requires sound { IsSound r.now rec.now }
    requires osc { osc ≤ GREATEST_OSC }
    ensures reading { IfOk result (IsReading r.now rec.now osc) }
    ensures regressed { IsErr result ↔ (osc < rec.now.born) }
    ensures floor { IfErr result (λ e. e ≡ record { floor = rec.now.born; osc = osc; number = rec.now.number }) }
{
    if osc < rec.born {
        return Err(Regressed {
            floor: rec.born,
            osc,
            number: rec.number,
        });
    }
    let value = line_at(r, rec, osc);
    let inaccuracy = match interval_at(r, rec, osc) {
        Some((lo, hi)) => specified_at(reach_in(value, lo, hi)),
        None => None,
    };
    Ok(Reading {
        value: value as i64,
        inaccuracy,
        step: rec.step,
        number: rec.number,
        osc,
    })
}
