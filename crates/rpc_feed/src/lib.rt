//! The PDUs of a stream of octets (C706, chapter 12), in whatever pieces the octets come.
//!
//! Which fragments are refused, and that a feed takes no octets behind a wrong one, are our own choice. Each call that may
//! need memory is passed the allocator.
#![tactic(auto)]

mod feed;
mod held;
mod laws;

pub use feed::Feed;
pub use laws::{cuts_do_not_matter, pieces_follow_their_front};
