//! Orders the lines of several hosts, each with a moment and its inaccuracy, so that no line stands before one that is
//! certainly earlier, and marks those of which it is not certain that they are later than all before them. The form of
//! the lines, the order and the marks are our own choice; what is certain is said after C310.
#![tactic(auto)]

mod cause;
mod heading;
mod input;
mod laws;
mod limits;
mod lines;
mod log;
mod place;
mod points;
mod printing;
mod reach;

pub use cause::{OrderCause, OrderStatus};
pub use input::order;
pub use laws::{
    a_line_or_one_cause, certainly_earlier_is_below_as_an_interval, each_line_stands_once,
    lines_of_a_host_keep_their_order, no_input_is_ordered_and_refused,
    no_line_stands_before_a_certainly_earlier_one, one_order_and_one_text, one_refused_line,
};
pub use limits::{MAX_HOST, MAX_LINES, MAX_OCTETS};
