/// The greatest oscillator reading, in units of 100 ns.
pub const GREATEST_OSC: u64 = 1_152_921_504_606_846_976;

/// The greatest time count that a clock is started with or an answer gives, in units of 100 ns.
pub const GREATEST_TIME: i64 = 2_305_843_009_213_693_952;

/// The greatest end of an interval that a record is anchored to, in units of 100 ns.
pub const GREATEST_ANCHOR: i64 = 4_611_686_018_427_387_904;

/// The greatest inaccuracy that is specified, in units of 100 ns.
pub const GREATEST_INACCURACY: u64 = 281_474_976_710_654;
