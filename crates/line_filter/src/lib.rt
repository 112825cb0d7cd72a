//! Filters of lines: what the commands share that take the lines of an input one after the other and write a text
//! for each. Our own choice.
#![tactic(auto)]

mod filter;
mod laws;
mod stop;

pub use filter::{LineFilter, Unfit, filter_lines};
pub use laws::{
    each_input_is_settled, one_way_to_end, too_many_comes_first, valid_input_is_not_refused,
};
pub use stop::Stop;
