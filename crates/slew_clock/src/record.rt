/// The interval that a clock adopted last, and when.
#[derive(Clone, Copy, Debug, PartialEq, Eq)]
pub struct Anchor {
    /// The oscillator reading at which the interval held true time.
    pub osc: u64,
    /// The low end, in units of 100 ns.
    pub lo: i64,
    /// The high end, in units of 100 ns.
    pub hi: i64,
}

/// The first part of a clock's line.
#[derive(Clone, Copy, Debug, PartialEq, Eq)]
pub struct PartA {
    /// The oscillator reading at which it begins.
    pub from: u64,
    /// The clock's value there.
    pub value: i64,
    /// How far it slews beyond the oscillator over a whole lease.
    pub x: i64,
}

/// The second part of a clock's line, which begins where the first one ends.
#[derive(Clone, Copy, Debug, PartialEq, Eq)]
pub struct PartB {
    /// The oscillator reading at which it begins.
    pub from: u64,
    /// How far it slews beyond the oscillator over a whole lease.
    pub x: i64,
}

/// A record of the clock: all that a reading needs beside an oscillator reading.
#[derive(Clone, Copy, Debug, PartialEq, Eq)]
pub struct ClockRecord {
    /// Its number, from 0.
    pub number: u64,
    /// How often the clock stepped before it.
    pub step: u64,
    /// The oscillator reading at which it was made.
    pub born: u64,
    /// The interval that was adopted last, if there is one.
    pub anchor: Option<Anchor>,
    /// The first part of the line.
    pub a: PartA,
    /// The second part of the line.
    pub b: PartB,
}
