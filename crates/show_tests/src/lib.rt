//! Tests of what is shown field by field: PDUs, timestamps and the inputs that spell them. They stand apart from the crate, which is so
//! proved without them.
#![tactic(auto)]

#[cfg(test)]
mod examples;
#[cfg(test)]
mod shown;
