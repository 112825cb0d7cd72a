//! The slewed clock: its rates, the records that describe it, and readings of a record with their
//! inaccuracy. All times are counts of units of 100 ns since 1582-10-15 00:00:00 UTC, all oscillator
//! readings counts of such units from an open beginning, at most `GREATEST_OSC`. The rates, the records
//! with their lines and changes, and the rule of the inaccuracy are our own choice.
#![tactic(auto)]

mod change;
mod clock;
mod laws;
mod limits;
mod rates;
mod reading;
mod record;

pub use change::{Range, anchored, carried, changed, renewed, stepped};
pub use clock::{interval_at, read_at, start};
pub use laws::{
    changes_keep_the_line, elapsed_time_has_bounds, inaccuracies_are_tightest,
    next_records_count_up, readings_hold_true_time, readings_never_fall, right_answers_stay_right,
    slew_has_a_bound,
};
pub use limits::{GREATEST_ANCHOR, GREATEST_INACCURACY, GREATEST_OSC, GREATEST_TIME};
pub use rates::{
    GREATEST_DRIFT_PPM, GREATEST_LEASE, GREATEST_RESOLUTION, GREATEST_SLEW_PPM, GREATEST_TOLERANCE,
    LEAST_LEASE, LEAST_SLEW_PPM, LEAST_TOLERANCE, MILLION, RateRange, Rates,
};
pub use reading::{Reading, Regressed};
pub use record::{Anchor, ClockRecord, PartA, PartB};
