//! Tests of the slewed clock, of adopted intervals and rounds of queries, of the lines of captures and logs, and of the
//! rules over histories and the replay of captures. They stand apart from the crates, which are so proved without them.
#![tactic(auto)]

#[cfg(test)]
mod adoption;
#[cfg(test)]
mod captures;
#[cfg(test)]
mod clock;
#[cfg(test)]
mod drills;
#[cfg(test)]
mod replay;
#[cfg(test)]
mod rounds;
#[cfg(test)]
mod rules;
