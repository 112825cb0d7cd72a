/// The first connection that a client made; peers below are servers.
pub const FIRST_CONNECTION: u32 = 1_000;
/// The most tags of a direct round.
pub const MAX_TAGS: u32 = 64;
/// The greatest time count of a capture, in units of 100 ns.
pub const GREATEST_COUNT: u64 = 1 << 61;
