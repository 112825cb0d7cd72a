/// The most octets that a roster file has.
pub const MAX_OCTETS: usize = 65_536;

/// The most servers of a roster.
pub const MAX_SERVERS: usize = 32;

/// The most servers of the kind `ntp`.
pub const MAX_NTP: usize = 6;

/// The most octets of a name.
pub const MAX_NAME: usize = 32;

/// The greatest port of a server.
pub const GREATEST_PORT: u16 = 65_535;

/// The greatest port that a node listens at, since each worker takes the next one.
pub const GREATEST_LISTEN_PORT: u16 = 65_532;

/// The greatest epoch.
pub const GREATEST_EPOCH: u64 = 255;

/// The epoch by default.
pub const DEFAULT_EPOCH: u64 = 0;

/// The fewest answers that a round may need.
pub const LEAST_REQUIRED: u64 = 1;

/// The most answers that a round may need.
pub const GREATEST_REQUIRED: u64 = 32;

/// The answers that a round needs by default.
pub const DEFAULT_REQUIRED: u64 = 1;

/// The shortest period of rounds, in units of 100 ns.
pub const LEAST_PERIOD: u64 = 10_000_000;

/// The longest period of rounds, in units of 100 ns.
pub const GREATEST_PERIOD: u64 = 10_000_000_000_000;

/// The period of rounds by default, in units of 100 ns: ten minutes.
pub const DEFAULT_PERIOD: u64 = 6_000_000_000;

/// The shortest hold between rounds, in units of 100 ns.
pub const LEAST_HOLD: u64 = 10_000_000;

/// The longest hold between rounds, in units of 100 ns.
pub const GREATEST_HOLD: u64 = 10_000_000_000_000;

/// The hold between rounds by default, in units of 100 ns: a minute.
pub const DEFAULT_HOLD: u64 = 600_000_000;

/// The shortest timeout of a round, in units of 100 ns.
pub const LEAST_TIMEOUT: u64 = 10_000;

/// The longest timeout of a round, in units of 100 ns.
pub const GREATEST_TIMEOUT: u64 = 10_000_000_000;

/// The timeout of a round by default, in units of 100 ns: five seconds.
pub const DEFAULT_TIMEOUT: u64 = 50_000_000;

/// The least inaccuracy that may be asked for, in units of 100 ns.
pub const LEAST_MAX_INACCURACY: u64 = 1;

/// The greatest inaccuracy that may be asked for, in units of 100 ns: the greatest that a timestamp holds.
pub const GREATEST_MAX_INACCURACY: u64 = 281_474_976_710_654;

/// The inaccuracy that is asked for by default, in units of 100 ns: a second.
pub const DEFAULT_MAX_INACCURACY: u64 = 10_000_000;

/// The drift of an oscillator by default, in parts per million.
pub const DEFAULT_DRIFT_PPM: u64 = 100;

/// The resolution of an oscillator by default, in units of 100 ns.
pub const DEFAULT_RESOLUTION: u64 = 1;

/// The lease by default, in units of 100 ns: four seconds.
pub const DEFAULT_LEASE: u64 = 40_000_000;

/// The greatest slew by default, in parts per million.
pub const DEFAULT_SLEW_PPM: u64 = 10_000;

/// The tolerance by default, in units of 100 ns: ten minutes.
pub const DEFAULT_TOLERANCE: u64 = 6_000_000_000;

/// The IPv4 address at which a node listens by default, first octet first: the host's own.
pub const DEFAULT_LISTEN_IP: [u8; 4] = [127, 0, 0, 1];

/// The port at which a node listens by default.
pub const DEFAULT_LISTEN_PORT: u16 = 7_000;
