//! Tests of remote calls: stubs, PDUs, their stream, and the messages of the time operations. They stand apart from the
//! crates, which are so proved without them.
#![tactic(auto)]

#[cfg(test)]
mod messages;
#[cfg(test)]
mod pdus;
#[cfg(test)]
mod streams;
#[cfg(test)]
mod stubs;
