//! The intersection of intervals of which fewer than half may be false, after Marzullo: from the least to
//! the greatest point that more than half of them hold. Points are time counts in units of 100 ns, and
//! both ends belong to an interval.
#![tactic(auto)]

mod adopting;
mod laws;

pub use adopting::{Sweep, adopt, is_false};
pub use laws::{
    false_intervals_lack_true_time, one_interval_is_adopted, points_are_agreed_by_more_than_half,
    true_time_is_adopted,
};
