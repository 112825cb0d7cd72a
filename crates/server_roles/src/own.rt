ghost use Rattle.std.specs.Prelude.{◌≡◌, ◌≤◌, int_le, option_map};
ghost use Rattle.slew_clock.specs.declared.limits.TheConstants.{GREATEST_ANCHOR, GREATEST_OSC};
ghost use Rattle.slew_clock.specs.Record.{IsSound};
ghost use Rattle.roster.specs.Rates.{rates_of};
ghost use Rattle.server_roles.specs.Own.{own_interval};

use dts_base::Interval;
use roster::{Role, Roster};
use slew_clock::{ClockRecord, GREATEST_ANCHOR, interval_at};

/// The interval that a server's own clock brings into a round: that of its record at an oscillator reading, in units of
/// 100 ns. None exactly for a clerk, without an anchor, or where the high end is above `GREATEST_ANCHOR`.
pub fn own_source(r: &Roster, rec: &ClockRecord, osc: u64) -> Option<Interval>
    requires sound { IsSound (rates_of r.now.settings) rec.now }
    requires born { rec.now.born ≤ osc }
    requires osc { osc ≤ GREATEST_OSC }
    ensures own { option_map (λ i. (i.lo, i.hi)) result ≡ own_interval r.now rec.now osc }
{
    match r.settings().role {
        Role::Clerk => None,
        Role::Server => {
            let (lo, hi) = interval_at(&r.rates(), rec, osc)?;
            if !can_be_anchored(hi) {
                return None;
            }
            Some(Interval {
                lo: lo as i64,
                hi: hi as i64,
            })
        }
    }
}

// Whether a record can be anchored to an interval with this high end.
fn can_be_anchored(hi: i128) -> bool
    ensures { result ≡ int_le hi GREATEST_ANCHOR }
{
    hi <= i128::from(GREATEST_ANCHOR)
}
