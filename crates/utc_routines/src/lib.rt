//! What may be done with timestamps: sums, differences, multiples, comparisons, points, spans and
//! bounds, each with the exact interval of its result. The exact rules, and what is refused, are our own choice,
//! after C310's utc routines.
//!
//! Times and inaccuracies are in units of 100 ns. The members of a timestamp are the whole times from
//! its earliest to its latest. No routine takes memory, and none wraps at any operands.
#![tactic(auto)]

use thiserror::Error;

mod arithmetic;
mod comparison;
mod intervals;
mod laws;
mod parts;

pub use arithmetic::{abs, add, mul, sub, with_tdf};
pub use comparison::{cmp_interval, cmp_mid};
pub use intervals::{bound, point, span};
pub use laws::{no_operands_are_both, one_refusal, one_result};

/// Why a routine has no result.
#[derive(Clone, Copy, Debug, PartialEq, Eq, Error)]
pub enum UtcFault {
    /// The kinds of the operands do not allow it.
    #[error("the kinds of the operands do not allow it")]
    Kinds,
    /// The time of the result is no `i64`.
    #[error("the time of the result is out of range")]
    Overflow,
    /// The earliest of the first is after the latest of the second.
    #[error("the first operand begins after the second ends")]
    OutOfOrder,
    /// The inaccuracy of the operand is unspecified.
    #[error("the inaccuracy of the operand is unspecified")]
    Unspecified,
    /// The time differential factor is a day or more, either way.
    #[error("the time differential factor is a day or more")]
    TdfRange,
}

/// How a timestamp compares with another.
#[derive(Clone, Copy, Debug, PartialEq, Eq)]
pub enum Order4 {
    /// Both are the same.
    EqualTo,
    /// The first is before the second.
    LessThan,
    /// The first is after the second.
    GreaterThan,
    /// Neither can be said.
    Indeterminate,
}
