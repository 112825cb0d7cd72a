/// The most octets of a line, without its line feed.
pub const MAX_LINE: usize = 16_384;

/// The most lines of an input.
pub const MAX_LINES: u64 = 4_294_967_295;

/// The octets of a reader's one buffer.
pub(crate) const ROOM: usize = 65_536;
