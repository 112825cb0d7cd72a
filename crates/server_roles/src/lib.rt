//! What a node's role makes of its roster: whom a round asks, the interval that its own clock brings into the round, and
//! what a server answers to a call. The choice of sources and the texts of commands are our own.
#![tactic(auto)]

mod answering;
mod answers;
mod asked;
mod counts;
mod laws;
mod own;
mod texts;
mod words;

pub use answering::answer;
pub use answers::{
    Answer, COMMAND, GET_INFO, GET_TIME, OTHER_EPOCH_STATUS, RIGHT_STATUS, UNKNOWN_STATUS,
};
pub use asked::sources;
pub use counts::Counts;
pub use laws::{
    answers_tell_the_reading, calls_are_refused_as_their_stubs, globals_are_asked_where_needed,
    ntp_servers_are_asked_alone, own_intervals_are_those_of_servers, rosters_name_their_node,
    sources_are_servers,
};
pub use own::own_source;
