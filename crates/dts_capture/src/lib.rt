//! What a capture and a log are made of: events, actions, and their texts. All of it is our own choice.
#![tactic(auto)]

mod action;
mod cursor;
mod event;
mod laws;
mod limits;
mod line;
mod log;
mod parse;
mod print;
mod writer;

pub use action::{Action, FalseSource, Note, NoteKind};
pub use event::Event;
pub use laws::{lines_can_be_spelled, lines_have_one_reading};
pub use limits::{FIRST_CONNECTION, GREATEST_COUNT, MAX_TAGS};
pub use line::{Line, LineCause, LineFault};
pub use log::{append_action, print_action};
pub use parse::{is_blank, parse_line, parse_line_at};
pub use print::print_line;
