ghost use Rattle.std.specs.Prelude.{◌≤ℤ◌};

/// A closed interval of time counts, in units of 100 ns since 1582-10-15 00:00:00 UTC.
#[derive(Clone, Copy, Debug, PartialEq, Eq)]
pub struct Interval {
    /// The low end, which belongs to the interval.
    pub lo: i64,
    /// The high end, which belongs to the interval and is not below the low one.
    pub hi: i64,
    pub ghost ordered: { lo ≤ℤ hi },
}
