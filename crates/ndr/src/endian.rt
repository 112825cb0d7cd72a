ghost use Rattle.std.specs.Prelude.{◌≡◌, ◌+◌, ◌^◌, ◌<◌, ◌≤◌, ◌++◌, take, drop, length};
ghost use Rattle.ndr.specs.Numbers.{IsSize, number_in, number_octets};

use byteorder::{BigEndian, ByteOrder, LittleEndian};

/// The most octets of a stub.
pub const MAX_STUB: usize = 65_536;

/// The most octets of a string, its last 0 included.
pub const MAX_STRING: usize = 1024;

/// The least octet of a string beside its last 0: a space.
pub const FIRST_PRINTED: u8 = 0x20;

/// The greatest octet of a string: `~`.
pub const LAST_PRINTED: u8 = 0x7e;

/// The order of the octets of a number.
#[derive(Clone, Copy, Debug, PartialEq, Eq)]
pub enum Endian {
    /// The highest octet first.
    Big,
    /// The lowest octet first.
    Little,
}

impl Endian {
    /// The number that the first octets are, of the size 1, 2, 4 or 8.
    pub fn number(self, octets: &[u8], size: usize) -> u64
        requires size { IsSize size }
        requires room { size ≤ length octets.now }
        ensures value { result ≡ number_in self size octets.now }
        ensures fits { result < 256 ^ size }
    {
        match self {
            Endian::Big => BigEndian::read_uint(octets, size),
            Endian::Little => LittleEndian::read_uint(octets, size),
        }
    }

    /// Writes the octets of a number of this size, 1, 2, 4 or 8, at a place.
    pub fn put(self, out: &mut [u8], place: usize, number: u64, size: usize)
        requires size { IsSize size }
        requires room { place + size ≤ length out.old }
        requires fits { number < 256 ^ size }
        ensures written { out.new ≡ take place out.old ++ number_octets self size number ++ drop (place + size) out.old }
    {
        let rest = &mut out[place..];
        match self {
            Endian::Big => BigEndian::write_uint(rest, number, size),
            Endian::Little => LittleEndian::write_uint(rest, number, size),
        }
    }
}
