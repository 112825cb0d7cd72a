ghost use Rattle.std.specs.Prelude.{◌≡◌, ◌≤ℤ◌, pos, IsTrue, ◌↔◌, ◌<◌};
ghost use Rattle.std.specs.Int.{int_max};
ghost use Rattle.ntp_packet.specs.Packets.{octets_of};
ghost use Rattle.time_provider.specs.Past.{Waiting, is_time, is_used, origin_of, query_packet, read_by, told_by};
ghost use Rattle.time_provider.specs.State.{answer_told};
ghost use Rattle.ntp_packet.specs.Packets.{reading};

use crate::limits::GREATEST_TIME;
use crate::{ProviderFault, Triple};
use dts_base::Interval;
use ntp_packet::{PACKET_LENGTH, Packet, ZERO_PACKET, decode, encode, interval, judge};

// The version and the mode of a query.
const CLIENT_VERSION: u8 = 4;

const CLIENT_MODE: u8 = 3;

// An open query: the peer, when it was asked, and the transmit timestamp of its packet.
#[derive(Clone, Copy)]
pub(crate) struct OpenQuery {
    pub(crate) peer: u32,
    pub(crate) asked: u64,
    pub(crate) origin: u64,
}

// The transmit timestamp of the query with this place in a poll.
pub(crate) fn origin_at(word: u64, place: usize) -> u64
    ensures { result ≡ origin_of word place }
{
    let origin = word.wrapping_add(place as u64);
    if origin == 0 { 1 } else { origin }
}

// The octets of a query with this transmit timestamp.
pub(crate) fn query_octets(origin: u64) -> [u8; PACKET_LENGTH]
    ensures { result ≡ octets_of (query_packet origin) }
{
    encode(&Packet {
        version: CLIENT_VERSION,
        mode: CLIENT_MODE,
        transmit: origin,
        ..ZERO_PACKET
    })
}

// Whether an end of an interval is taken.
fn is_time(end: i128) -> bool
    ensures { result ≡ is_time end }
{
    0 <= end && end <= i128::from(GREATEST_TIME)
}

// What the ends of an interval give.
fn tell(query: OpenQuery, osc: u64, lo: i128, hi: i128) -> Result<Triple, ProviderFault>
    ensures { answer_told result ≡ told_by (record { peer = query.peer; asked = query.asked; origin = query.origin }) osc (lo, hi) }
{
    if !(is_time(lo) && is_time(hi)) {
        return Err(ProviderFault::Range { lo, hi });
    }
    let time = Interval {
        lo: lo as i64,
        hi: lo.max(hi) as i64,
    };
    Ok(Triple {
        peer: query.peer,
        before: query.asked,
        time,
        after: osc,
    })
}

// What octets give for an open query.
pub(crate) fn answer(
    query: OpenQuery,
    osc: u64,
    b: &[u8],
    near: i64,
) -> Result<Triple, ProviderFault>
    ensures { answer_told result ≡ read_by (record { peer = query.peer; asked = query.asked; origin = query.origin }) osc near (reading b.now) }
{
    let packet = match decode(b) {
        Ok(packet) => packet,
        Err(refused) => return Err(ProviderFault::Wrong(refused)),
    };
    if let Err(failed) = judge(&packet, query.origin) {
        return Err(ProviderFault::Judged(failed));
    }
    let (lo, hi) = interval(&packet, near);
    tell(query, osc, lo, hi)
}

// Whether an answer uses up the query.
pub(crate) fn uses_up(answer: &Result<Triple, ProviderFault>) -> bool
    ensures { result ≡ is_used (answer_told answer.now) }
{
    matches!(answer, Ok(_) | Err(ProviderFault::Range { .. }))
}
