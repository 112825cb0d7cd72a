//! A calculator of timestamps: a line asks for an operation on operands, and is answered by a line. Its operations
//! and texts are our own choice, after C310's routines.
#![tactic(auto)]

mod cause;
mod input;
mod laws;
mod line;
mod operation;
mod reading;
mod results;

pub use cause::{UtcCause, UtcRefusal};
pub use input::{Calculator, calculate};
pub use laws::{
    every_line_is_answered_or_refused, no_line_is_both, one_answer, one_cause,
    the_rules_are_exclusive,
};
pub use line::answer;
pub use operation::{Operation, Outcome};
pub use reading::parse;
pub use results::compute;
