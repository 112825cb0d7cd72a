//! Packets of NTP (RFC 5905): written, read, a server's reply judged, and the interval that holds true time by a
//! reply. The 48 octets of the header alone are looked at, and octets behind them are passed over. Times are counts
//! of units of 100 ns since 1582-10-15 00:00:00 UTC. The tests of a reply, their order, the bound of the last and the
//! choice of the era are our own choice. No call takes memory.
#![tactic(auto)]

mod codec;
mod field;
mod judging;
mod laws;
mod timing;

pub use codec::{LEAST_VERSION, MOST_VERSION, PACKET_LENGTH, Packet, ZERO_PACKET, decode, encode};
pub use field::{FIELDS, PacketField};
pub use judging::{Judged, MAX_DISTANCE, MAX_STRATUM, SERVER_MODE, UNSYNCHRONISED, held, judge};
pub use laws::{
    fields_fill_the_packet, fractions_are_rounded, one_era_is_nearest, one_packet_of_octets,
    packets_read_back, true_time_is_between,
};
pub use timing::interval;
