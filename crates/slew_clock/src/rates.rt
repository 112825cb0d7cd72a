ghost use Rattle.std.specs.Prelude.{◌≡◌, ◌^◌, ◌<◌, ◌≤◌};
ghost use Rattle.std.specs.Int.{div_ceil};
ghost use Rattle.slew_clock.specs.declared.rates.TheConstants.{GREATEST_DRIFT_PPM, GREATEST_RESOLUTION, LEAST_LEASE, GREATEST_LEASE, LEAST_SLEW_PPM, GREATEST_SLEW_PPM, LEAST_TOLERANCE, GREATEST_TOLERANCE, MILLION};

use thiserror::Error;

/// The greatest drift of an oscillator, in parts per million.
pub const GREATEST_DRIFT_PPM: u32 = 10_000;

/// The greatest resolution of an oscillator, in units of 100 ns.
pub const GREATEST_RESOLUTION: u32 = 10_000_000;

/// The shortest lease, in units of 100 ns.
pub const LEAST_LEASE: u64 = 1_000_000;

/// The longest lease, in units of 100 ns.
pub const GREATEST_LEASE: u64 = 36_000_000_000;

// The lease that a clock has by default, in units of 100 ns.
pub(crate) const USUAL_LEASE: u64 = 40_000_000;

/// The least limit of the slew, in parts per million.
pub const LEAST_SLEW_PPM: u32 = 1;

/// The greatest limit of the slew, in parts per million.
pub const GREATEST_SLEW_PPM: u32 = 100_000;

/// The least tolerance, in units of 100 ns.
pub const LEAST_TOLERANCE: u64 = 1;

/// The greatest tolerance, in units of 100 ns.
pub const GREATEST_TOLERANCE: u64 = 1_000_000_000_000_000;

/// Drift and slew are counted in parts per million.
pub const MILLION: u64 = 1_000_000;

// Up to so many units, the product with the drift in parts per million fits 63 bits.
const ONE_PRODUCT: u64 = 562_949_953_421_312;

// So many millionths in whole units, rounded up.
fn millionths(parts: u64) -> u64
    requires { parts < 2 ^ 63 }
    ensures { result ≡ div_ceil parts MILLION }
{
    (parts + (MILLION - 1)) / MILLION
}

/// The rates of a clock: how far its oscillator may drift, and how fast it is slewed. The ranges of the
/// fields include both ends.
#[derive(Clone, Copy, Debug, PartialEq, Eq)]
pub struct Rates {
    /// The greatest drift of the oscillator, in parts per million: at most `GREATEST_DRIFT_PPM`.
    pub drift_ppm: u32,
    /// The resolution of the oscillator, in units of 100 ns: at most `GREATEST_RESOLUTION`.
    pub resolution: u32,
    /// How long a part of the line holds, in units of 100 ns: `LEAST_LEASE` to `GREATEST_LEASE`.
    pub lease: u64,
    /// The greatest slew, in parts per million: `LEAST_SLEW_PPM` to `GREATEST_SLEW_PPM`.
    pub slew_ppm: u32,
    /// How far the line may be from an adopted middle before the clock steps, in units of 100 ns:
    /// `LEAST_TOLERANCE` to `GREATEST_TOLERANCE`.
    pub tolerance: u64,
    pub ghost drift_in_range: { drift_ppm ≤ GREATEST_DRIFT_PPM },
    pub ghost resolution_in_range: { resolution ≤ GREATEST_RESOLUTION },
    pub ghost lease_from: { LEAST_LEASE ≤ lease },
    pub ghost lease_to: { lease ≤ GREATEST_LEASE },
    pub ghost slew_from: { LEAST_SLEW_PPM ≤ slew_ppm },
    pub ghost slew_to: { slew_ppm ≤ GREATEST_SLEW_PPM },
    pub ghost tolerance_from: { LEAST_TOLERANCE ≤ tolerance },
    pub ghost tolerance_to: { tolerance ≤ GREATEST_TOLERANCE },
}

/// An argument of `Rates::new` is out of its range.
#[derive(Clone, Copy, Debug, PartialEq, Eq, Error)]
#[error("rate {which} is out of its range")]
pub struct RateRange {
    /// The position of the first such argument, from 0.
    pub which: u8,
}

impl Rates {
    ghost use Rattle.std.specs.Prelude.{◌≡◌, pos, Some, None, IfOk, MatchResult};
    ghost use Rattle.slew_clock.specs.UsualRates.{usual_rates};
    ghost use Rattle.slew_clock.specs.Ranges.{first_out};
    ghost use Rattle.slew_clock.specs.Elapsed.{drift_of, most, least};
    ghost use Rattle.slew_clock.specs.Record.{greatest_slew};

    /// These rates, or the position of the first argument that is out of the range of its field.
    pub fn new(
        drift_ppm: u32,
        resolution: u32,
        lease: u64,
        slew_ppm: u32,
        tolerance: u64,
    ) -> Result<Rates, RateRange>
        ensures drift { IfOk result (λ r. (r.drift_ppm ≡ drift_ppm) × (r.resolution ≡ resolution)) }
        ensures slew { IfOk result (λ r. (r.lease ≡ lease) × (r.slew_ppm ≡ slew_ppm)) }
        ensures tolerance { IfOk result (λ r. r.tolerance ≡ tolerance) }

        // Refused is exactly the first argument that is out of its range.
        ensures refused { MatchResult result
            (λ _. first_out drift_ppm resolution lease slew_ppm tolerance ≡ None)
            (λ e. first_out drift_ppm resolution lease slew_ppm tolerance ≡ Some e.which) }
    {
        if drift_ppm > GREATEST_DRIFT_PPM {
            return Err(RateRange { which: 0 });
        }
        if resolution > GREATEST_RESOLUTION {
            return Err(RateRange { which: 1 });
        }
        if lease < LEAST_LEASE || lease > GREATEST_LEASE {
            return Err(RateRange { which: 2 });
        }
        if slew_ppm < LEAST_SLEW_PPM || slew_ppm > GREATEST_SLEW_PPM {
            return Err(RateRange { which: 3 });
        }
        if tolerance < LEAST_TOLERANCE || tolerance > GREATEST_TOLERANCE {
            return Err(RateRange { which: 4 });
        }
        Ok(Rates {
            drift_ppm,
            resolution,
            lease,
            slew_ppm,
            tolerance,
        })
    }

    /// The rates that a clock has by default: a drift of 100 parts per million, a resolution of one unit
    /// of 100 ns, a lease of 4 s, a slew of 10,000 parts per million, a tolerance of 10 minutes.
    pub fn usual() -> Rates
        ensures usual { result ≡ usual_rates }
    {
        Rates {
            drift_ppm: 100,
            resolution: 1,
            lease: USUAL_LEASE,
            slew_ppm: 10_000,
            tolerance: 6_000_000_000,
        }
    }

    // The drift over so many units, rounded up.
    fn drift(&self, elapsed: u64) -> u64
        ensures drift { result ≡ drift_of self.now elapsed }
        ensures within { result ≤ elapsed }
    {
        if elapsed <= ONE_PRODUCT {
            millionths(elapsed * u64::from(self.drift_ppm))
        } else {
            self.long_drift(elapsed)
        }
    }

    // The same, also where one product does not fit: that over the whole millions, and that over the rest.
    #[cold]
    fn long_drift(&self, elapsed: u64) -> u64
        ensures { result ≡ drift_of self.now elapsed }
    {
        let ppm = u64::from(self.drift_ppm);
        elapsed / MILLION * ppm + millionths(elapsed % MILLION * ppm)
    }

    // The most that passed where the oscillator went on by so many units.
    pub(crate) fn most(&self, elapsed: u64) -> i128
        ensures { result ≡ pos (most self.now elapsed) }
    {
        i128::from(elapsed) + i128::from(self.drift(elapsed)) + i128::from(self.resolution)
    }

    // The greatest slew over a whole lease.
    pub(crate) fn greatest_slew(&self) -> u64
        ensures slew { result ≡ greatest_slew self.now }
        ensures within { result ≤ self.now.lease }
    {
        self.lease * u64::from(self.slew_ppm) / MILLION
    }

    // The least that passed.
    pub(crate) fn least(&self, elapsed: u64) -> i128
        ensures { result ≡ pos (least self.now elapsed) }
    {
        let least = (elapsed - self.drift(elapsed)).saturating_sub(u64::from(self.resolution));
        i128::from(least)
    }
}
