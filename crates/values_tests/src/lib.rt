//! Tests of timestamps: their octets, routines and texts, and the calculator over them. They stand apart from the crates, which are so proved
//! without them.
#![tactic(auto)]

#[cfg(test)]
mod calculator;
#[cfg(test)]
mod order;
#[cfg(test)]
mod routines;
#[cfg(test)]
mod texts;
#[cfg(test)]
mod values;
