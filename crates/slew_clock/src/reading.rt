ghost use Rattle.std.specs.Prelude.{◌≤◌};
ghost use Rattle.std.specs.Option.{ForSome};
ghost use Rattle.slew_clock.specs.declared.limits.TheConstants.{GREATEST_INACCURACY};

use thiserror::Error;

/// A reading of the clock. Where the inaccuracy is specified, true time is within it of the value.
#[derive(Clone, Copy, Debug, PartialEq, Eq)]
pub struct Reading {
    /// The clock's value, a time count.
    pub value: i64,
    /// The inaccuracy in units of 100 ns, at most `GREATEST_INACCURACY`, or none where it is unspecified.
    pub inaccuracy: Option<u64>,
    /// The step number of the record.
    pub step: u64,
    /// The number of the record.
    pub number: u64,
    /// The oscillator reading.
    pub osc: u64,
    pub ghost in_range: { ForSome inaccuracy (λ i. i ≤ GREATEST_INACCURACY) },
}

/// The oscillator reading is below that at which the record was made.
#[derive(Clone, Copy, Debug, PartialEq, Eq, Error)]
#[error("the oscillator reads {osc}, below {floor}, at record {number}")]
pub struct Regressed {
    /// The oscillator reading at which the record was made.
    pub floor: u64,
    /// The oscillator reading.
    pub osc: u64,
    /// The number of the record.
    pub number: u64,
}
