/// The most events that a drill makes.
pub const MAX_EVENTS: u32 = 1_000_000;

/// A draw multiplies its word by this, modulo 2^64. This and the next number are those of Knuth's generator MMIX.
pub const MULTIPLIER: u64 = 6_364_136_223_846_793_005;

/// And then adds this to it.
pub const INCREMENT: u64 = 1_442_695_040_888_963_407;

/// What a draw gives is the word divided by this, rounded down: its upper 31 bits.
pub const DIVISOR: u64 = 8_589_934_592;

/// From event to event the oscillator goes on by a draw below this, in units of 100 ns.
pub const OSC_STEPS: u64 = 2_000_000;

/// The most tags that are asked in a round.
pub const MOST_ASKED: u32 = 32;

/// A round ends with at least so many answers, and requires so many.
pub const LEAST_ANSWERED: u32 = 3;

/// The value of the clock at the start, in units of 100 ns. A right source tells this value and then the oscillator
/// reading.
pub const START_VALUE: u64 = 1_000_000_000;

/// How far the first interval reaches from it, either way, in units of 100 ns.
pub const START_ERROR: u64 = 1_000_000;

/// The least that an answer reaches from the time that it tells, in units of 100 ns.
pub const LEAST_ERROR: u64 = 1_000;

/// It reaches further by a draw below this, in units of 100 ns.
pub const ERRORS: u64 = 100_000;

/// An answer is false where a draw below this gives 0.
pub const FALSE_ONE_OF: u64 = 8;

/// How far a false answer is too late, in units of 100 ns.
pub const FALSE_BY: u64 = 10_000_000_000;
