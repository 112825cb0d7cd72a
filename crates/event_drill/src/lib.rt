//! The drill: makes a large capture from a number, runs it through a node, and writes one line that counts what its
//! log says. Our own choice.
#![tactic(auto)]

mod command;
mod counts;
mod kind;
mod laws;
mod limits;
mod maker;
mod running;

pub use command::{DrillStop, drill};
pub use counts::Counts;
pub use kind::{KINDS, Kind};
pub use laws::{a_drill_is_a_replay, a_seed_makes_one_list};
pub use limits::{
    DIVISOR, ERRORS, FALSE_BY, FALSE_ONE_OF, INCREMENT, LEAST_ANSWERED, LEAST_ERROR, MAX_EVENTS,
    MOST_ASKED, MULTIPLIER, OSC_STEPS, START_ERROR, START_VALUE,
};
pub use maker::Maker;
