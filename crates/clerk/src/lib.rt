//! A round of queries, the decision core of a clerk: which peers are asked, what they answer, and at any moment what comes
//! of it. It has no clock and no socket. After C310, our own choice.
#![tactic(auto)]

mod laws;
mod query;
mod round;

pub use laws::{a_round_at_its_deadline_ends, own_interval_is_no_answer};
pub use query::{Query, QueryState};
pub use round::{MAX_QUERIES, Outcome, Round};
