//! Tests of packets of NTP and of the provider of times. They stand apart from the crates, which are so proved without
//! them.
#![tactic(auto)]

#[cfg(test)]
mod faults;
#[cfg(test)]
mod packets;
#[cfg(test)]
mod polls;
