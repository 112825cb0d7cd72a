ghost use Rattle.std.specs.Prelude.{◌≡◌, ◌^◌, pos, neg_ℤ, ◌≤ℤ◌};
ghost use Rattle.ntp_packet.specs.Fractions.{floor_of, ceiling_of};
ghost use Rattle.ntp_packet.specs.Intervals.{IsIntervalOf, count_of, error_of};
ghost use Rattle.ntp_packet.specs.Eras.{era_of, interval_of};

use crate::{Packet, held};

// How many parts of a timestamp a second has, and an era.
const PARTS_PER_SECOND: i128 = 4_294_967_296;

const PARTS_PER_ERA: i128 = PARTS_PER_SECOND * PARTS_PER_SECOND;

// How many units a second has, and an era.
const UNITS_PER_SECOND: i128 = 10_000_000;

const UNITS_PER_ERA: i128 = PARTS_PER_SECOND * UNITS_PER_SECOND;

// The count of 1900-01-01 00:00:00 UTC, where the first era begins.
const NTP_EPOCH: i128 = 100_103_040_000_000_000;

// How many parts a second has in the root delay plus twice the root dispersion, half of which is the error.
const ERROR_PARTS_PER_SECOND: i128 = 131_072;

// The count of a moment, in parts of a unit, of which a unit has as many as a second has of a timestamp.
fn parts_of_count(moment: i128) -> i128
    requires from { neg_ℤ (pos (2 ^ 80)) ≤ℤ moment }
    requires to { moment ≤ℤ pos (2 ^ 80) }
    ensures { result ≡ (count_of moment).over }
{
    NTP_EPOCH * PARTS_PER_SECOND + moment * UNITS_PER_SECOND
}

// The count of a moment, rounded down.
fn count_before(moment: i128) -> i128
    requires from { neg_ℤ (pos (2 ^ 80)) ≤ℤ moment }
    requires to { moment ≤ℤ pos (2 ^ 80) }
    ensures value { result ≡ floor_of (count_of moment) }
    ensures from { neg_ℤ (pos (2 ^ 80)) ≤ℤ result }
    ensures to { result ≤ℤ pos (2 ^ 80) }
{
    parts_of_count(moment).div_euclid(PARTS_PER_SECOND)
}

// The count of a moment, rounded up.
fn count_after(moment: i128) -> i128
    requires from { neg_ℤ (pos (2 ^ 80)) ≤ℤ moment }
    requires to { moment ≤ℤ pos (2 ^ 80) }
    ensures value { result ≡ ceiling_of (count_of moment) }
    ensures from { neg_ℤ (pos (2 ^ 80)) ≤ℤ result }
    ensures to { result ≤ℤ pos (2 ^ 80) }
{
    -(-parts_of_count(moment)).div_euclid(PARTS_PER_SECOND)
}

// The era in which a timestamp is nearest to a count, and the lesser of two in which it is as near.
fn era_near(stamp: u64, near: i64) -> i128
    ensures era { result ≡ era_of stamp near }
    ensures from { neg_ℤ (pos (2 ^ 10)) ≤ℤ result }
    ensures to { result ≤ℤ pos (2 ^ 10) }
{
    let ahead = i128::from(near) - count_before(i128::from(stamp));
    -(UNITS_PER_ERA - 2 * ahead).div_euclid(2 * UNITS_PER_ERA)
}

// Half the root delay plus the root dispersion in units, rounded up.
fn error(p: &Packet) -> i128
    ensures value { result ≡ ceiling_of (error_of p.now) }
    ensures from { pos 0 ≤ℤ result }
    ensures to { result ≤ℤ pos (2 ^ 80) }
{
    let parts = i128::from(p.delay) + 2 * i128::from(p.dispersion);
    -(-parts * UNITS_PER_SECOND).div_euclid(ERROR_PARTS_PER_SECOND)
}

/// The interval that holds true time by a reply, low end and high end, in units of 100 ns since 1582-10-15 00:00:00
/// UTC: from the moment that it was sent to the moment that its query came, by the server's clock, widened by half
/// the root delay plus the root dispersion, each rounded outwards. The low end may be above the high end. The era
/// is the one in which the moment of sending is nearest to the count `near`, and the lesser of two in which it is
/// as near.
pub fn interval(p: &Packet, near: i64) -> (i128, i128)
    ensures ends { IsIntervalOf p.now near result }
    ensures value { result ≡ interval_of p.now near }
{
    let sent = era_near(p.transmit, near) * PARTS_PER_ERA + i128::from(p.transmit);
    let received = sent - i128::from(held(p));
    let error = error(p);
    (count_before(sent) - error, count_after(received) + error)
}
