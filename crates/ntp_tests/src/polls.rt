use assertions::assert_equal;
use dts_base::{Field, Refused, WireCause};
use ntp_packet::{Judged, PACKET_LENGTH};
use std::io::Eprint;
use std::process::Abort;
use time_provider::*;

// The count of 2020-01-02.
const DAY: i64 = 137_972_160_000_000_000;

// The middle of the 48 octets of a reply of stratum 1, between its header and its origin.
const HEAD: [u8; 8] = [0x24, 1, 0, 0, 0, 0, 0, 1];

// That day and the least fraction of a second, as a timestamp.
const STAMP: [u8; 8] = [0xe1, 0xb7, 0xb1, 0, 0, 0, 0, 1];

// The octets of a reply that was sent when the query with this transmit timestamp came, at this moment.
fn reply_at(origin: u64, stamp: [u8; 8]) -> [u8; PACKET_LENGTH] {
    let mut octets = [0; PACKET_LENGTH];
    octets[..8].copy_from_slice(&HEAD);
    octets[24..32].copy_from_slice(&origin.to_be_bytes());
    octets[32..40].copy_from_slice(&stamp);
    octets[40..].copy_from_slice(&stamp);
    octets
}

fn reply(origin: u64) -> [u8; PACKET_LENGTH] {
    reply_at(origin, STAMP)
}

// The parts of a time: the peer, the reading of the poll, both ends, the reading of the reply.
type Parts = (u32, u64, i64, i64, u64);

fn parts(t: &Triple) -> Parts {
    (t.peer, t.before, t.time.lo, t.time.hi, t.after)
}

// Expects what a packet near the day gives.
fn expect(
    rt: &(impl Abort + Eprint),
    p: &mut Provider,
    from: (u32, u64),
    octets: &[u8],
    expected: Result<Parts, ProviderFault>,
) {
    let taken = p.take(from.0, from.1, octets, DAY);
    assert_equal!(rt; taken.map(|t| parts(&t)), expected);
}

// Expects the times of a message.
fn expect_times(rt: &(impl Abort + Eprint), p: &Provider, expected: &[Parts]) {
    let message = p.message();
    let times = message.as_slice();
    assert_equal!(rt; times.len(), expected.len());
    for (t, e) in times.iter().zip(expected.iter()) {
        assert_equal!(rt; parts(t), *e);
    }
}

// The ends that a reply of that moment gives.
const LO: i64 = 137_972_159_999_999_923;

const HI: i64 = 137_972_160_000_000_078;

#[test]
fn a_poll_asks_each_peer_once(rt: HostRuntime) {
    let mut p = Provider::new(&[0]);
    let queries = p.poll(0, 1);
    let mut octets = [0; PACKET_LENGTH];
    octets[0] = 0x23;
    octets[47] = 1;
    assert_equal!(rt; queries.as_slice(),
        [Query {
            peer: 0,
            packet: octets,
        }]
        .as_slice(),
    );
    // The word wraps, and 1 stands for 0.
    let mut p = Provider::new(&[9, 8, 7, 6, 5, 4]);
    let queries = p.poll(0, u64::MAX - 1);
    let origins = [u64::MAX - 1, u64::MAX, 1, 1, 2, 3];
    assert_equal!(rt; queries.as_slice().len(), 6);
    for (j, query) in queries.as_slice().iter().enumerate() {
        assert_equal!(rt; query.peer as usize + j, 9);
        let origin = origins.get(j).copied().unwrap_or(0);
        assert_equal!(rt; query.packet.get(40..),
            Some(origin.to_be_bytes().as_slice()),
        );
    }
    let mut none = Provider::new(&[]);
    assert_equal!(rt; none.poll(0, 1).as_slice().len(), 0);
}

// A packet of a peer at an oscillator reading, and what it gives.
type Row = (u32, u64, [u8; PACKET_LENGTH], Result<Parts, ProviderFault>);

// A reply whose octet at an offset is another.
fn altered(origin: u64, offset: usize, octet: u8) -> [u8; PACKET_LENGTH] {
    let mut octets = reply(origin);
    if let Some(there) = octets.get_mut(offset) {
        *there = octet;
    }
    octets
}

#[test]
fn a_query_is_answered_once_and_by_its_own_reply(rt: HostRuntime) {
    let version = Refused {
        field: Field::NtpVersion,
        offset: 0,
        cause: WireCause::Value,
    };
    let kiss = Err(ProviderFault::Judged(Judged::Kiss { code: 0x5200_0000 }));
    let origin = Err(ProviderFault::Judged(Judged::Origin));
    let mut kissed = altered(1, 1, 0);
    kissed[12] = 0x52;
    let mut p = Provider::new(&[3, 5]);
    expect(&rt, &mut p, (3, 0), &reply(1), Err(ProviderFault::NoQuery));
    p.poll(40, 1);
    let rows: [Row; 10] = [
        // Refused replies leave the query open, each for its first cause.
        (
            3,
            50,
            altered(7, 0, 0x2c),
            Err(ProviderFault::Wrong(version)),
        ),
        (3, 50, reply(2), origin),
        (5, 50, reply(1), origin),
        (3, 50, reply(3), origin),
        (3, 50, kissed, kiss),
        // The second peer is first.
        (5, 60, reply(2), Ok((5, 40, LO, HI, 60))),
        (5, 61, reply(2), Err(ProviderFault::NoQuery)),
        (3, 70, reply(1), Ok((3, 40, LO, HI, 70))),
        (3, 71, reply(1), Err(ProviderFault::NoQuery)),
        (4, 71, reply(1), Err(ProviderFault::NoQuery)),
    ];
    for (peer, osc, octets, expected) in rows {
        expect(&rt, &mut p, (peer, osc), &octets, expected);
    }
    expect_times(&rt, &p, &[(5, 40, LO, HI, 60), (3, 40, LO, HI, 70)]);
    // A further poll forgets the times, and takes no reply to the one before.
    p.poll(80, 10);
    expect_times(&rt, &p, &[]);
    for (word, expected) in [(1, origin), (10, Ok((3, 80, LO, HI, 90)))] {
        expect(&rt, &mut p, (3, 90), &reply(word), expected);
    }
}

#[test]
fn octets_behind_a_packet_are_passed_over_and_too_few_refused(rt: HostRuntime) {
    let mut p = Provider::new(&[3]);
    p.poll(40, 1);
    let mut long = [7; 68];
    long[..PACKET_LENGTH].copy_from_slice(&reply(1));
    let short = Refused {
        field: Field::NtpLength,
        offset: 47,
        cause: WireCause::Short,
    };
    for (length, expected) in [
        (47, Err(ProviderFault::Wrong(short))),
        (68, Ok((3, 40, LO, HI, 50))),
    ] {
        expect(
            &rt,
            &mut p,
            (3, 50),
            long.get(..length).unwrap_or(&[]),
            expected,
        );
    }
}

#[test]
fn a_query_ends_where_its_peer_goes_or_all_stop(rt: HostRuntime) {
    let mut p = Provider::new(&[3, 5, 7]);
    p.poll(0, 1);
    p.gone(5);
    p.gone(4);
    expect(&rt, &mut p, (5, 1), &reply(2), Err(ProviderFault::NoQuery));
    expect(&rt, &mut p, (3, 1), &reply(1), Ok((3, 0, LO, HI, 1)));
    p.stop();
    expect(&rt, &mut p, (7, 2), &reply(3), Err(ProviderFault::NoQuery));
    expect_times(&rt, &p, &[(3, 0, LO, HI, 1)]);
    p.poll(10, 1);
    expect(&rt, &mut p, (7, 11), &reply(3), Ok((7, 10, LO, HI, 11)));
}

#[test]
fn an_interval_out_of_range_closes_the_query(rt: HostRuntime) {
    const GREATEST: i64 = 2_305_843_009_213_693_952;
    // The root delay, the moment, the count near it, and what the reply gives.
    let rows: [(u8, u64, i64, Result<Parts, ProviderFault>); 5] = [
        (0, 0xab56_e200_0000_0000, 0, Ok((3, 0, 0, 0, 1))),
        (
            1,
            0xab56_e200_0000_0000,
            0,
            Err(ProviderFault::Range { lo: -77, hi: 77 }),
        ),
        (
            1,
            0xab56_e1ff_0000_0000,
            0,
            Err(ProviderFault::Range {
                lo: -10_000_077,
                hi: -9_999_923,
            }),
        ),
        (
            0,
            0x5b3c_1779_5e90_af0f,
            GREATEST,
            Ok((3, 0, GREATEST - 1, GREATEST, 1)),
        ),
        (
            1,
            0x5b3c_1779_5e90_af0f,
            GREATEST,
            Err(ProviderFault::Range {
                lo: 2_305_843_009_213_693_874,
                hi: 2_305_843_009_213_694_029,
            }),
        ),
    ];
    for (delay, stamp, near, expected) in rows {
        let mut p = Provider::new(&[3]);
        p.poll(0, 1);
        let mut octets = reply_at(1, stamp.to_be_bytes());
        octets[7] = delay;
        assert_equal!(rt; p.take(3, 1, &octets, near).map(|t| parts(&t)),
            expected,
        );
        expect(&rt, &mut p, (3, 2), &reply(1), Err(ProviderFault::NoQuery));
        assert_equal!(rt; p.message().as_slice().len(),
            usize::from(expected.is_ok()),
        );
    }
}

#[test]
fn a_low_end_above_the_high_end_stands_twice(rt: HostRuntime) {
    let mut p = Provider::new(&[3]);
    p.poll(0, 1);
    let mut octets = reply(1);
    // It was sent a second after its query came, with no error.
    octets[7] = 0;
    octets[47] = 0;
    octets[39] = 0;
    octets[43] = 1;
    expect(
        &rt,
        &mut p,
        (3, 1),
        &octets,
        Ok((3, 0, DAY + 10_000_000, DAY + 10_000_000, 1)),
    );
}

#[test]
fn laws_are_called(_rt: HostRuntime) {
    replies_are_taken_once();
    refused_replies_change_nothing();
}
