use crate::Event;
use dts_base::{Interval, NoMemory};
use thiserror::Error;

/// What a line of a capture says.
#[derive(Debug, PartialEq, Eq, Drop)]
pub enum Line {
    /// Nothing: an empty line or a comment.
    Blank,
    /// The node starts: the oscillator reading, the clock's value and the first interval, where one is known.
    Start {
        osc: u64,
        value: i64,
        first: Option<Interval>,
    },
    /// An event, in a serve capture with the number of the record that it was served from.
    Event {
        at: Option<u64>,
        event: Event,
    },
}

/// Why a line is refused.
#[derive(Clone, Copy, Debug, PartialEq, Eq, Error)]
pub enum LineCause {
    /// The first word is none of those that begin a line.
    #[error("a line begins with start, tick, data, gram, lost, unsent, read, ask, query, source, adopt or at")]
    Word,
    /// A field is missing.
    #[error("a field is missing here; fields are joined by single spaces")]
    Missing,
    /// A field is left over.
    #[error("the line should end before this field")]
    Extra,
    /// A field is no number.
    #[error("a decimal number without leading zeros should stand here")]
    Number,
    /// A number is out of its range.
    #[error("this number is out of its range: OSC is 0 to 2^60, VALUE, LO and HI 0 to 2^61, PEER and TAG 0 to 2^32 - 1, \
         CONN 1000 to 2^32 - 1, REQUIRED 1 to 64, K 0 to 2^64 - 1")]
    Range,
    /// A field is no hex text.
    #[error("hex digits should stand here: 16 of them for a word, two an octet for octets")]
    Hex,
    /// The high end of an interval is below the low end.
    #[error("the high end is below the low end")]
    Order,
    /// What follows the number of a record is no serve event, or the record is not the current one.
    #[error("at K should name the current record, and read, ask, or lost or unsent of a peer from 1000 should follow it")]
    At,
    /// The first line that is not blank is no start line, or a later one is.
    #[error("a capture begins with one start line, and has no other")]
    Start,
    /// The line is too long.
    #[error("a line has at most 16384 octets")]
    Long,
    /// There are too many lines.
    #[error("an input has at most 4294967295 lines")]
    Lines,
}

/// Why a line is not read: its first wrong field, or want of memory.
#[derive(Clone, Copy, Debug, PartialEq, Eq, Error)]
pub enum LineFault {
    /// The first wrong field.
    #[error("column {column}: {cause}")]
    Wrong {
        /// The column of the field's first octet, from 1, or one past the line's end for a missing field.
        column: u32,
        /// What is wrong with it.
        cause: LineCause,
    },
    /// No memory was found.
    #[error("out of memory")]
    NoMemory,
}

impl From<NoMemory> for LineFault {
    fn from(_: NoMemory) -> Self {
        LineFault::NoMemory
    }
}
