ghost use Rattle.std.specs.Prelude.{◌≡◌, ◌≤◌, ◌↔◌, Some, length, take, drop};
ghost use Rattle.dts_base.specs.declared.wire.Refused.{Refused};
ghost use Rattle.ntp_packet.specs.declared.field.PacketField.{PacketField};
ghost use Rattle.ntp_packet.specs.Packets.{Fits, Spells, first_wrong, is_version, number_at, octets_in, octets_of, reading, value_of};

use crate::FIELDS;
use byteorder::{BigEndian, ByteOrder};
use dts_base::{Field, Refused, WireCause};

/// How many octets of a packet are looked at.
pub const PACKET_LENGTH: usize = 48;

/// The least version that is read.
pub const LEAST_VERSION: u8 = 1;

/// The greatest version that is read.
pub const MOST_VERSION: u8 = 4;

/// The header of a packet (RFC 5905, section 7.3).
#[derive(Clone, Copy, Debug, PartialEq, Eq)]
pub struct Packet {
    /// The leap indicator, at most 3.
    pub li: u8,
    /// The version, at most 7.
    pub version: u8,
    /// The mode, at most 7.
    pub mode: u8,
    /// The stratum.
    pub stratum: u8,
    /// The poll exponent, as its octet stands.
    pub poll: u8,
    /// The precision, as its octet stands.
    pub precision: u8,
    /// The root delay, in 2^-16 s.
    pub delay: u32,
    /// The root dispersion, in 2^-16 s.
    pub dispersion: u32,
    /// The reference identifier; in a reply of stratum 0 the code of a kiss.
    pub refid: u32,
    /// When the server's clock was set last, in 2^-32 s since 1900-01-01 modulo 2^64, as the times that follow.
    pub reference: u64,
    /// When the query was sent, by the client.
    pub origin: u64,
    /// When the query came, by the server.
    pub receive: u64,
    /// When this packet was sent, by its sender.
    pub transmit: u64,
}

/// A packet in which each field is 0.
pub const ZERO_PACKET: Packet = Packet {
    li: 0,
    version: 0,
    mode: 0,
    stratum: 0,
    poll: 0,
    precision: 0,
    delay: 0,
    dispersion: 0,
    refid: 0,
    reference: 0,
    origin: 0,
    receive: 0,
    transmit: 0,
};

// How many octets stand before the timestamps, and how many those have.
const STAMPS_OFFSET: usize = 16;

const STAMPS_LENGTH: usize = 32;

/// The 48 octets of a packet. The leap indicator is at most 3, the version and the mode at most 7.
#[tactic(auto, unfolding(crate::specs::Packets::octets_of))]
pub fn encode(p: &Packet) -> [u8; PACKET_LENGTH]
    requires { Fits p.now }
    ensures { result ≡ octets_of p.now }
{
    let mut octets = [0; PACKET_LENGTH];
    octets[..STAMPS_OFFSET].copy_from_slice(&head_of(p));
    octets[STAMPS_OFFSET..].copy_from_slice(&stamps_of(p));
    octets
}

// The octets of the fields before the timestamps.
fn head_of(p: &Packet) -> [u8; STAMPS_OFFSET]
    requires { Fits p.now }
    ensures { result ≡ octets_in p.now (take 7 FIELDS) }
{
    let mut octets = [0; STAMPS_OFFSET];
    octets[0] = p.li * 64 + p.version * 8 + p.mode;
    octets[1] = p.stratum;
    octets[2] = p.poll;
    octets[3] = p.precision;
    BigEndian::write_u32(&mut octets[4..], p.delay);
    BigEndian::write_u32(&mut octets[8..], p.dispersion);
    BigEndian::write_u32(&mut octets[12..], p.refid);
    octets
}

// The octets of the timestamps.
fn stamps_of(p: &Packet) -> [u8; STAMPS_LENGTH]
    ensures { result ≡ octets_in p.now (drop 7 FIELDS) }
{
    let mut octets = [0; STAMPS_LENGTH];
    BigEndian::write_u64(&mut octets, p.reference);
    BigEndian::write_u64(&mut octets[8..], p.origin);
    BigEndian::write_u64(&mut octets[16..], p.receive);
    BigEndian::write_u64(&mut octets[24..], p.transmit);
    octets
}

/// The packet that the first 48 octets spell; those behind them are passed over.
///
/// `NtpLength` is refused as `Short`, with the length as its offset, exactly below 48 octets; then `NtpVersion` as
/// `Value`, at offset 0, exactly where the version is outside 1 to 4.
pub fn decode(b: &[u8]) -> Result<Packet, Refused>
    ensures spelled { (p : Packet) → (result ≡ Ok p) ↔ Spells p b.now }
    ensures value { result ≡ reading b.now }
    ensures refused { (refused : Refused) → (result ≡ Err refused) ↔ (first_wrong b.now ≡ Some refused) }
{
    if b.len() < PACKET_LENGTH {
        return Err(Refused {
            field: Field::NtpLength,
            offset: b.len() as u32,
            cause: WireCause::Short,
        });
    }
    let packet = read(b);
    if !is_version(packet.version) {
        return Err(Refused {
            field: Field::NtpVersion,
            offset: 0,
            cause: WireCause::Value,
        });
    }
    Ok(packet)
}

// Whether packets of this version are read.
fn is_version(version: u8) -> bool
    ensures { result ≡ is_version version }
{
    LEAST_VERSION <= version && version <= MOST_VERSION
}

// The packet of these octets, whatever its version.
fn read(b: &[u8]) -> Packet
    requires { PACKET_LENGTH ≤ length b.now }
    ensures fields { (f : PacketField) → value_of result f ≡ number_at b.now f }
    ensures fits { Fits result }
{
    let first = b[0];
    Packet {
        li: first / 64,
        version: first / 8 % 8,
        mode: first % 8,
        stratum: b[1],
        poll: b[2],
        precision: b[3],
        delay: BigEndian::read_u32(&b[4..]),
        dispersion: BigEndian::read_u32(&b[8..]),
        refid: BigEndian::read_u32(&b[12..]),
        reference: BigEndian::read_u64(&b[16..]),
        origin: BigEndian::read_u64(&b[24..]),
        receive: BigEndian::read_u64(&b[32..]),
        transmit: BigEndian::read_u64(&b[40..]),
    }
}
