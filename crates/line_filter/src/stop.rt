use std::fmt::Display;
use thiserror::Error;

/// Why a filter stops before the end of its input. What was written stands.
#[derive(Clone, Copy, Debug, PartialEq, Eq, Error)]
#[error_bound(C: Display)]
pub enum Stop<C> {
    /// A line is refused, or the end of the input, as the line behind the last; lines count from 1.
    #[error("line {line}: {cause}")]
    Refused {
        /// Its number.
        line: u64,
        /// What is wrong with it.
        cause: C,
    },
    /// The input failed.
    #[error("the input can't be read")]
    Read,
    /// The output failed.
    #[error("the output can't be written")]
    Write,
    /// No memory was found.
    #[error("out of memory")]
    NoMemory,
}
