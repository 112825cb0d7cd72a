//! Tests of the outside: its traits over memory and over the system, and lines read from a source and filtered. They
//! stand apart from the crates, which are so proved without them.
#![tactic(auto)]

#[cfg(test)]
mod edge;
#[cfg(test)]
mod filters;
#[cfg(test)]
mod lines;
#[cfg(test)]
mod memory;
