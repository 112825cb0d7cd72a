//! The two ends of a connection-oriented remote call (C706, chapters 9 and 12): what a client sends, what its server answers,
//! and what each PDU that comes is for the one or the other.
//!
//! A session is what was sent and what came, one behind the other. Its size limits, what is refused and the numbers of the
//! faults are our own choice. Each call that may need memory is passed the allocator.
#![tactic(auto)]

mod client;
mod contexts;
mod fault;
mod fragments;
mod laws;
mod server;
mod stub;

pub use client::{ClientOut, ClientSession};
pub use contexts::{ndr_syntax, time_interface};
pub use fault::{RequestFault, SessionFault};
pub use laws::{
    a_message_is_cut_at_its_limit, the_dead_stay_dead, what_is_answered_is_one_reply,
    what_is_asked_is_one_call,
};
pub use server::{Out, ServerSession};
