ghost use Rattle.std.specs.Prelude.{◌≡◌, ◌≤◌, IsTrue};
ghost use Rattle.slew_clock.specs.declared.rates.TheConstants.{GREATEST_DRIFT_PPM, GREATEST_RESOLUTION, LEAST_LEASE, GREATEST_LEASE, LEAST_SLEW_PPM, GREATEST_SLEW_PPM, LEAST_TOLERANCE, GREATEST_TOLERANCE};
ghost use Rattle.roster.specs.declared.limits.TheConstants.{LEAST_REQUIRED, GREATEST_REQUIRED, LEAST_PERIOD, GREATEST_PERIOD, LEAST_HOLD, GREATEST_HOLD, LEAST_TIMEOUT, GREATEST_TIMEOUT, LEAST_MAX_INACCURACY, GREATEST_MAX_INACCURACY, GREATEST_LISTEN_PORT};

use dts_base::{Address, Text};

/// What a node is.
#[derive(Clone, Copy, Debug, PartialEq, Eq)]
pub enum Role {
    /// It keeps a clock of its own by asking servers.
    Clerk,
    /// It answers others too, and its own clock counts in its rounds.
    Server,
}

/// The settings of a node: the keys of the table `node`, each in its range, both ends included.
#[derive(Debug, Drop)]
pub struct Settings {
    /// Its name: 1 to 32 of `a` to `z`, `0` to `9` and `-`.
    pub name: Text,
    /// What it is.
    pub role: Role,
    /// A server that is a courier asks one global server in each round.
    pub courier: bool,
    /// Where a server listens; each further worker takes the next port. The port is at most
    /// `GREATEST_LISTEN_PORT`.
    pub listen: Address,
    /// The epoch of its servers: an answer of another epoch is not used.
    pub epoch: u8,
    /// The answers that a round needs: `LEAST_REQUIRED` to `GREATEST_REQUIRED`.
    pub required: u32,
    /// From one round to the next, in units of 100 ns: `LEAST_PERIOD` to `GREATEST_PERIOD`.
    pub period: u64,
    /// The least from one round to the next where the clock is not accurate enough, in units of 100 ns:
    /// `LEAST_HOLD` to `GREATEST_HOLD`.
    pub hold: u64,
    /// How long a round waits for answers, in units of 100 ns: `LEAST_TIMEOUT` to `GREATEST_TIMEOUT`.
    pub timeout: u64,
    /// The inaccuracy above which a round is due after the hold, in units of 100 ns: `LEAST_MAX_INACCURACY` to
    /// `GREATEST_MAX_INACCURACY`.
    pub max_inaccuracy: u64,
    /// The greatest drift of the oscillator, in parts per million: at most `GREATEST_DRIFT_PPM` of `slew_clock`, as all
    /// that follow are in the range of `Rates`.
    pub drift_ppm: u32,
    /// The resolution of the oscillator, in units of 100 ns.
    pub resolution: u32,
    /// How long a part of the clock's line holds, in units of 100 ns.
    pub lease: u64,
    /// The greatest slew, in parts per million.
    pub slew_ppm: u32,
    /// How far the line may be from an adopted middle before the clock steps, in units of 100 ns.
    pub tolerance: u64,
    pub ghost listen_to: { listen.port ≤ GREATEST_LISTEN_PORT },
    pub ghost required_from: { LEAST_REQUIRED ≤ required },
    pub ghost required_to: { required ≤ GREATEST_REQUIRED },
    pub ghost period_from: { LEAST_PERIOD ≤ period },
    pub ghost period_to: { period ≤ GREATEST_PERIOD },
    pub ghost hold_from: { LEAST_HOLD ≤ hold },
    pub ghost hold_to: { hold ≤ GREATEST_HOLD },
    pub ghost timeout_from: { LEAST_TIMEOUT ≤ timeout },
    pub ghost timeout_to: { timeout ≤ GREATEST_TIMEOUT },
    pub ghost max_inaccuracy_from: { LEAST_MAX_INACCURACY ≤ max_inaccuracy },
    pub ghost max_inaccuracy_to: { max_inaccuracy ≤ GREATEST_MAX_INACCURACY },
    pub ghost drift_in_range: { drift_ppm ≤ GREATEST_DRIFT_PPM },
    pub ghost resolution_in_range: { resolution ≤ GREATEST_RESOLUTION },
    pub ghost lease_from: { LEAST_LEASE ≤ lease },
    pub ghost lease_to: { lease ≤ GREATEST_LEASE },
    pub ghost slew_from: { LEAST_SLEW_PPM ≤ slew_ppm },
    pub ghost slew_to: { slew_ppm ≤ GREATEST_SLEW_PPM },
    pub ghost tolerance_from: { LEAST_TOLERANCE ≤ tolerance },
    pub ghost tolerance_to: { tolerance ≤ GREATEST_TOLERANCE },
}
