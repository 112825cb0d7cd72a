use utc_routines::Order4;
use utc_value::Utc;

/// An operation with its operands, after C310's routines.
#[derive(Clone, Copy, Debug, PartialEq, Eq)]
pub enum Operation {
    /// `add A A`: the sum.
    Add(Utc, Utc),
    /// `sub A A`: the difference.
    Sub(Utc, Utc),
    /// `abs A`: the length without its sign.
    Abs(Utc),
    /// `mul A K`: the length, that many times.
    Mul(Utc, i32),
    /// `span A A`: the tightest timestamp round both.
    Span(Utc, Utc),
    /// `bound A A`: the tightest from the earliest of the first to the latest of the second.
    Bound(Utc, Utc),
    /// `tdf A T`: the same moment with another time differential factor, in minutes.
    Tdf(Utc, i16),
    /// `interval A A`: how the intervals lie.
    Interval(Utc, Utc),
    /// `mid A A`: how the times lie.
    Mid(Utc, Utc),
    /// `point A`: the earliest, the middle and the latest.
    Point(Utc),
    /// `bytes A`: the sixteen octets.
    Bytes(Utc),
    /// `text HEX`: the text of sixteen octets.
    Text(Utc),
}

/// What an operation results in.
#[derive(Clone, Copy, Debug, PartialEq, Eq)]
pub enum Outcome {
    /// A timestamp.
    Time(Utc),
    /// The earliest, the middle and the latest of a timestamp.
    Points(Utc, Utc, Utc),
    /// How two timestamps lie to each other.
    Order(Order4),
    /// The sixteen octets of a timestamp.
    Octets([u8; 16]),
}
