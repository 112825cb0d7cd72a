//! Replays a capture: takes its lines one after the other, and writes the log of the history that they make. The rules
//! are those of `sync_rules`. Our own choice, after C310.
#![tactic(auto)]

mod fault;
mod filter;
mod input;
mod laws;
mod node;
mod notes;
mod round;
mod taker;

pub use fault::CaptureFault;
pub use filter::Replay;
pub use input::replay;
pub use laws::{
    every_history_has_a_capture, every_line_is_taken_or_refused, every_log_is_safe,
    one_log_of_a_capture,
};
pub use node::Node;
pub use taker::ActionTaker;
