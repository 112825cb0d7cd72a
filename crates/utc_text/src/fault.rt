//! Why a text is not right, and why a time is not printed.

use thiserror::Error;

/// A field of a text of a time, in the order in which they stand. A separator belongs to the field
/// behind it.
#[derive(Clone, Copy, Debug, PartialEq, Eq)]
pub enum TextField {
    /// The sign of a relative time.
    Sign,
    /// The days of a relative time.
    Days,
    /// The year of an absolute time, 1582 to 9999.
    Year,
    /// The month, 01 to 12.
    Month,
    /// The day of the month.
    Day,
    /// The hour, 00 to 23.
    Hour,
    /// The minute, 00 to 59.
    Minute,
    /// The second, 00 to 59.
    Second,
    /// The fraction of the second, at most seven digits.
    Fraction,
    /// The sign and hours of the time differential factor.
    TdfHour,
    /// The minutes of the time differential factor.
    TdfMinute,
    /// The inaccuracy.
    Inaccuracy,
    /// What stands behind the last field.
    Tail,
}

/// The first field of a text that is not right.
#[derive(Clone, Copy, Debug, PartialEq, Eq, Error)]
#[error("wrong {field:?} at octet {offset}")]
pub struct TextFault {
    /// The field.
    pub field: TextField,
    /// The octet at which the field begins or should begin, its separator included, counted from
    /// 0. An offset that would pass 2^32 − 1 is given as 2^32 − 1.
    pub offset: u32,
}

/// Why a time is not printed.
#[derive(Clone, Copy, Debug, PartialEq, Eq, Error)]
pub enum PrintFault {
    /// The time is of the other kind.
    #[error("a time of the other kind")]
    Kinds,
    /// The time differential factor is a day or more.
    #[error("a time differential factor of a day or more")]
    TdfRange,
    /// The year is not one of 1582 to 9999.
    #[error("a year outside 1582 to 9999")]
    YearRange,
    /// No memory was found.
    #[error("out of memory")]
    NoMemory,
}

/// Why a civil time is no time.
#[derive(Clone, Copy, Debug, PartialEq, Eq, Error)]
pub enum CivilFault {
    /// It is no date of the years 1582 to 9999, or no time of day.
    #[error("no date of the years 1582 to 9999, or no time of day")]
    Date,
    /// The inaccuracy is above 2^48 − 2.
    #[error("an inaccuracy above 281474976710654")]
    InaccuracyRange,
    /// The time differential factor is a day or more.
    #[error("a time differential factor of a day or more")]
    TdfRange,
}
