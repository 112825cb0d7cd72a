/// The greatest number of a host.
pub const MAX_HOST: u8 = 63;

/// The most octets of a line, without its line feed.
pub const MAX_OCTETS: usize = 1_024;

/// The most lines of an input.
pub const MAX_LINES: usize = 100_000;

/// How many hosts there are.
pub(crate) const HOSTS: usize = 64;

/// The mark of a line that every line before it is certainly earlier than.
pub(crate) const CERTAIN: u8 = b'<';

/// The mark of any other line.
pub(crate) const UNCERTAIN: u8 = b'~';

/// The octets that are written as one piece, but for the last line in it.
pub(crate) const PIECE: usize = 65_536;
