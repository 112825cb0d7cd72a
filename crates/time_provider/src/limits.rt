/// How many peers a provider has at most.
pub const MAX_PEERS: usize = 6;

/// The greatest end of an interval that is taken, 2^61 units.
pub const GREATEST_TIME: i64 = 2_305_843_009_213_693_952;
