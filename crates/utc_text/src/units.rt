//! Times of 100 ns units.

// The units of a second.
pub(crate) const SECOND: u64 = 10_000_000;

// The units of a minute.
pub(crate) const MINUTE: u64 = 600_000_000;

// The units of an hour.
pub(crate) const HOUR: u64 = 36_000_000_000;

// The units of a day.
pub(crate) const DAY: u64 = 864_000_000_000;
