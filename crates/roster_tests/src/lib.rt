//! Tests of the roster, of whom a round asks, of a node's own interval, and of what a server answers. They stand apart from
//! the crates, which are so proved without them.
#![tactic(auto)]

#[cfg(test)]
mod answers;
#[cfg(test)]
mod asked;
#[cfg(test)]
mod examples;
#[cfg(test)]
mod forms;
#[cfg(test)]
mod kinds;
#[cfg(test)]
mod order;
#[cfg(test)]
mod own;
#[cfg(test)]
mod ranges;
#[cfg(test)]
mod rosters;
#[cfg(test)]
mod rounds;
#[cfg(test)]
mod settings;
#[cfg(test)]
mod verdicts;
