//! A provider of times from servers of NTP (RFC 5905): what it asks in a poll, and which replies it takes. Each poll
//! asks every peer once, and of each peer one reply is taken: one that answers this query. Times are counts of units
//! of 100 ns since 1582-10-15 00:00:00 UTC, oscillator readings counts of such units from an open beginning. The
//! bound of the peers and what becomes of a refused reply are our own choice. No call takes memory.
#![tactic(auto)]

mod fault;
mod laws;
mod limits;
mod lists;
mod matching;
mod provider;

pub use fault::ProviderFault;
pub use laws::{refused_replies_change_nothing, replies_are_taken_once};
pub use limits::{GREATEST_TIME, MAX_PEERS};
pub use lists::{Queries, Query, TimeMessage, Triple};
pub use provider::Provider;
