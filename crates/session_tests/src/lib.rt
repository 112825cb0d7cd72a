//! Tests of the sessions of remote calls: what each PDU is to a client and to a server, and both ends together. They stand
//! apart from the crates, which are so proved without them.
#![tactic(auto)]

#[cfg(test)]
mod both;
#[cfg(test)]
mod clients;
#[cfg(test)]
mod pdus;
#[cfg(test)]
mod servers;
