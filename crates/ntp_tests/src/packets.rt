use assertions::{assert_equal, assert_equal_at};
use dts_base::{Field, Refused, WireCause};
use ntp_packet::*;

// A packet of version 1 in which all else is 0.
const LEAST: Packet = Packet {
    li: 0,
    version: 1,
    mode: 0,
    stratum: 0,
    poll: 0,
    precision: 0,
    delay: 0,
    dispersion: 0,
    refid: 0,
    reference: 0,
    origin: 0,
    receive: 0,
    transmit: 0,
};

// 2020-01-01 and the least fraction of a second.
const STAMP: u64 = 0xe1b6_5f80_0000_0001;

// The count of that day.
const DAY: i64 = 137_971_296_000_000_000;

// A reply to the query 1, of a server of stratum 1.
const REPLY: Packet = Packet {
    li: 0,
    version: 4,
    mode: 4,
    stratum: 1,
    poll: 0,
    precision: 0,
    delay: 1,
    dispersion: 0,
    refid: 0,
    reference: 0,
    origin: 1,
    receive: STAMP,
    transmit: STAMP,
};

// The octets of `LEAST`, in which these stand from an offset on.
fn octets_with(offset: usize, changed: &[u8]) -> [u8; PACKET_LENGTH] {
    let mut octets = [0; PACKET_LENGTH];
    octets[0] = 0x08;
    for (place, octet) in octets.iter_mut().enumerate() {
        if place >= offset && place - offset < changed.len() {
            *octet = changed.get(place - offset).copied().unwrap_or(0);
        }
    }
    octets
}

// The octets of the packet that these spell.
fn written_again(octets: &[u8]) -> Option<[u8; PACKET_LENGTH]> {
    match decode(octets) {
        Ok(read) => Some(encode(&read)),
        Err(_) => None,
    }
}

#[test]
fn each_field_stands_in_its_octets(rt: HostRuntime) {
    let rows: [(Packet, usize, &[u8]); 16] = [
        (LEAST, 0, &[0x08]),
        (Packet { li: 3, ..LEAST }, 0, &[0xc8]),
        (
            Packet {
                version: 4,
                ..LEAST
            },
            0,
            &[0x20],
        ),
        (Packet { mode: 7, ..LEAST }, 0, &[0x0f]),
        (
            Packet {
                stratum: 255,
                ..LEAST
            },
            1,
            &[255],
        ),
        (Packet { poll: 255, ..LEAST }, 2, &[255]),
        (
            Packet {
                precision: 255,
                ..LEAST
            },
            3,
            &[255],
        ),
        (
            Packet {
                delay: u32::MAX,
                ..LEAST
            },
            4,
            &[255; 4],
        ),
        (
            Packet {
                dispersion: u32::MAX,
                ..LEAST
            },
            8,
            &[255; 4],
        ),
        (
            Packet {
                refid: u32::MAX,
                ..LEAST
            },
            12,
            &[255; 4],
        ),
        (
            Packet {
                reference: u64::MAX,
                ..LEAST
            },
            16,
            &[255; 8],
        ),
        (
            Packet {
                origin: u64::MAX,
                ..LEAST
            },
            24,
            &[255; 8],
        ),
        (
            Packet {
                receive: u64::MAX,
                ..LEAST
            },
            32,
            &[255; 8],
        ),
        (
            Packet {
                transmit: u64::MAX,
                ..LEAST
            },
            40,
            &[255; 8],
        ),
        (
            Packet {
                delay: 0x0102_0304,
                ..LEAST
            },
            4,
            &[1, 2, 3, 4],
        ),
        (
            Packet {
                transmit: 0x0102_0304_0506_0708,
                ..LEAST
            },
            40,
            &[1, 2, 3, 4, 5, 6, 7, 8],
        ),
    ];
    for (packet, offset, changed) in rows {
        let octets = octets_with(offset, changed);
        assert_equal!(rt; decode(&octets), Ok(packet));
        assert_equal!(rt; written_again(&octets), Some(octets));
    }
}

#[test]
fn octets_are_read_or_refused_at_the_first_wrong_field(rt: HostRuntime) {
    let octets = [0x24; 68];
    for (length, whole) in [(0, false), (1, false), (47, false), (48, true), (68, true)] {
        let read = decode(octets.get(..length).unwrap_or(&[]));
        let short = Refused {
            field: Field::NtpLength,
            offset: length as u32,
            cause: WireCause::Short,
        };
        assert_equal!(rt; read.err(), if whole { None } else { Some(short) });
    }
    let wrong = Refused {
        field: Field::NtpVersion,
        offset: 0,
        cause: WireCause::Value,
    };
    for version in 0..8u8 {
        let mut octets = [0; PACKET_LENGTH];
        octets[0] = version * 8 + 0xc7;
        let right = version >= 1 && version <= 4;
        assert_equal!(rt; decode(&octets).err(),
            if right { None } else { Some(wrong) },
        );
    }
}

#[test]
fn fields_have_names_offsets_and_sizes(rt: HostRuntime) {
    let expected = [
        ("first", 0, 1),
        ("stratum", 1, 1),
        ("poll", 2, 1),
        ("precision", 3, 1),
        ("root_delay", 4, 4),
        ("root_dispersion", 8, 4),
        ("reference_id", 12, 4),
        ("reference", 16, 8),
        ("origin", 24, 8),
        ("receive", 32, 8),
        ("transmit", 40, 8),
    ];
    for (field, line) in FIELDS.iter().zip(expected.iter()) {
        assert_equal!(rt; (field.name(), field.offset(), field.size()), *line);
    }
}

#[test]
fn a_reply_is_judged_by_the_first_test_that_fails(rt: HostRuntime) {
    let rows: [(Packet, Option<Judged>); 28] = [
        (REPLY, None),
        (Packet { mode: 3, ..LEAST }, Some(Judged::Mode { found: 3 })),
        (Packet { mode: 5, ..REPLY }, Some(Judged::Mode { found: 5 })),
        (
            Packet {
                mode: 4,
                li: 3,
                refid: 0x5241_5445,
                ..LEAST
            },
            Some(Judged::Kiss { code: 0x5241_5445 }),
        ),
        (
            Packet {
                stratum: 0,
                refid: u32::MAX,
                ..REPLY
            },
            Some(Judged::Kiss { code: u32::MAX }),
        ),
        (
            Packet {
                mode: 4,
                stratum: 16,
                li: 3,
                ..LEAST
            },
            Some(Judged::Stratum { found: 16 }),
        ),
        (
            Packet {
                stratum: 255,
                ..REPLY
            },
            Some(Judged::Stratum { found: 255 }),
        ),
        (
            Packet {
                stratum: 15,
                ..REPLY
            },
            None,
        ),
        (
            Packet {
                mode: 4,
                stratum: 15,
                li: 3,
                ..LEAST
            },
            Some(Judged::Unsynchronised),
        ),
        (Packet { li: 3, ..REPLY }, Some(Judged::Unsynchronised)),
        (Packet { li: 2, ..REPLY }, None),
        (
            Packet {
                mode: 4,
                stratum: 1,
                ..LEAST
            },
            Some(Judged::Origin),
        ),
        (Packet { origin: 2, ..REPLY }, Some(Judged::Origin)),
        (Packet { origin: 0, ..REPLY }, Some(Judged::Origin)),
        (
            Packet {
                receive: 0,
                transmit: u64::MAX,
                delay: u32::MAX,
                ..REPLY
            },
            Some(Judged::ZeroStamp),
        ),
        (
            Packet {
                transmit: 0,
                ..REPLY
            },
            Some(Judged::ZeroStamp),
        ),
        (
            Packet {
                receive: 1,
                transmit: 1,
                ..REPLY
            },
            None,
        ),
        (
            Packet {
                transmit: STAMP - 1,
                delay: u32::MAX,
                ..REPLY
            },
            Some(Judged::Order),
        ),
        (
            Packet {
                transmit: STAMP + 1,
                ..REPLY
            },
            None,
        ),
        // The timestamps wrap: a reply that was sent 2 units of them behind is in order.
        (
            Packet {
                receive: u64::MAX,
                transmit: 1,
                ..REPLY
            },
            None,
        ),
        (
            Packet {
                receive: 1,
                transmit: 0x8000_0000_0000_0000,
                ..REPLY
            },
            None,
        ),
        (
            Packet {
                receive: 1,
                transmit: 0x8000_0000_0000_0001,
                ..REPLY
            },
            Some(Judged::Order),
        ),
        (
            Packet {
                delay: 131_072,
                ..REPLY
            },
            None,
        ),
        (
            Packet {
                delay: 131_073,
                ..REPLY
            },
            Some(Judged::Distance),
        ),
        (
            Packet {
                delay: 0,
                dispersion: 65_536,
                ..REPLY
            },
            None,
        ),
        (
            Packet {
                delay: 1,
                dispersion: 65_536,
                ..REPLY
            },
            Some(Judged::Distance),
        ),
        (
            Packet {
                delay: 0,
                dispersion: 65_537,
                ..REPLY
            },
            Some(Judged::Distance),
        ),
        (
            Packet {
                delay: u32::MAX,
                dispersion: u32::MAX,
                ..REPLY
            },
            Some(Judged::Distance),
        ),
    ];
    for (packet, failed) in rows {
        assert_equal_at!(rt; packet, judge(&packet, 1).err(), failed);
    }
}

// A reply with these parts of the interval.
fn timed(delay: u32, dispersion: u32, receive: u64, transmit: u64) -> Packet {
    Packet {
        delay,
        dispersion,
        receive,
        transmit,
        ..REPLY
    }
}

#[test]
fn an_interval_is_rounded_outwards(rt: HostRuntime) {
    const SECOND: u64 = 0x1_0000_0000;
    let rows = [
        (
            timed(1, 0, STAMP, STAMP),
            (137_971_295_999_999_923, 137_971_296_000_000_078),
        ),
        (
            timed(3, 5, STAMP + 0xffff_fffe, STAMP + 0xffff_fffe),
            (137_971_296_009_999_007, 137_971_296_010_000_992),
        ),
        (
            timed(131_072, 0, STAMP, STAMP + SECOND),
            (DAY.into(), 137_971_296_010_000_001),
        ),
        (
            timed(0, 65_536, STAMP, STAMP + SECOND / 2),
            (137_971_295_995_000_000, 137_971_296_010_000_001),
        ),
        (
            timed(u32::MAX, u32::MAX, STAMP, STAMP),
            (137_970_312_960_000_228, 137_972_279_039_999_773),
        ),
        // Sent before its query came: what no reply that is used is.
        (
            timed(0, 0, STAMP + SECOND, STAMP),
            (DAY.into(), 137_971_296_010_000_001),
        ),
        (
            timed(0, 7, 0xe1b7_b100_0000_0000, 0xe1b7_b100_0000_0000),
            (137_972_159_999_998_931, 137_972_160_000_001_069),
        ),
        // Held for 2^19 units of a timestamp, a little over 0.12 ms.
        (
            timed(0, 16, 0xe1b7_b100_0010_0000, 0xe1b7_b100_0018_0000),
            (137_972_160_000_001_220, 137_972_160_000_004_884),
        ),
    ];
    for (packet, ends) in rows {
        assert_equal_at!(rt; packet, interval(&packet, DAY), ends);
    }
}

#[test]
fn the_era_is_the_nearest_and_the_lesser_of_two(rt: HostRuntime) {
    // A timestamp, a count near it, and the ends without an error.
    let rows: [(u64, i64, (i128, i128)); 19] = [
        // Half an era from 1900-01-01 and from 2036-02-07.
        (
            0,
            121_577_876_479_999_999,
            (100_103_040_000_000_000, 100_103_040_000_000_000),
        ),
        (
            0,
            121_577_876_480_000_000,
            (100_103_040_000_000_000, 100_103_040_000_000_000),
        ),
        (
            0,
            121_577_876_480_000_001,
            (143_052_712_960_000_000, 143_052_712_960_000_000),
        ),
        // At the start of an era: its first timestamp, and the last one before it.
        (
            0,
            100_103_040_000_000_000,
            (100_103_040_000_000_000, 100_103_040_000_000_000),
        ),
        (
            u64::MAX,
            100_103_040_000_000_000,
            (100_103_039_999_999_999, 100_103_040_000_000_000),
        ),
        (
            0,
            143_052_712_960_000_000,
            (143_052_712_960_000_000, 143_052_712_960_000_000),
        ),
        (
            u64::MAX,
            143_052_712_960_000_000,
            (143_052_712_959_999_999, 143_052_712_960_000_000),
        ),
        (
            u64::MAX,
            143_052_712_959_999_999,
            (143_052_712_959_999_999, 143_052_712_960_000_000),
        ),
        (
            0,
            143_052_712_959_999_999,
            (143_052_712_960_000_000, 143_052_712_960_000_000),
        ),
        (
            0,
            186_002_385_920_000_000,
            (186_002_385_920_000_000, 186_002_385_920_000_000),
        ),
        (
            u64::MAX,
            186_002_385_920_000_000,
            (186_002_385_919_999_999, 186_002_385_920_000_000),
        ),
        (
            0,
            2_290_536_360_960_000_000,
            (2_290_536_360_960_000_000, 2_290_536_360_960_000_000),
        ),
        (
            u64::MAX,
            2_290_536_360_960_000_000,
            (2_290_536_360_959_999_999, 2_290_536_360_960_000_000),
        ),
        // Both ends of the counts that a clock has, and of their type.
        (0, 0, (14_203_694_080_000_000, 14_203_694_080_000_000)),
        (
            u64::MAX,
            0,
            (14_203_694_079_999_999, 14_203_694_080_000_000),
        ),
        (
            0,
            2_305_843_009_213_693_952,
            (2_290_536_360_960_000_000, 2_290_536_360_960_000_000),
        ),
        (
            u64::MAX,
            2_305_843_009_213_693_952,
            (2_290_536_360_959_999_999, 2_290_536_360_960_000_000),
        ),
        (
            1,
            i64::MIN,
            (-9_219_975_992_320_000_000, -9_219_975_992_319_999_999),
        ),
        (
            1,
            i64::MAX,
            (9_205_433_707_520_000_000, 9_205_433_707_520_000_001),
        ),
    ];
    for (stamp, near, ends) in rows {
        assert_equal_at!(rt; (stamp, near),
            interval(&timed(0, 0, stamp, stamp), near),
            ends,
        );
    }
    // Between receiving and sending an era ended.
    let across = timed(0, 0, 0xffff_ffff_0000_0000, 0x1_0000_0000);
    assert_equal!(rt; interval(&across, 143_052_712_960_000_000),
        (143_052_712_970_000_000, 143_052_712_950_000_000),
    );
}

#[test]
fn laws_are_called(_rt: HostRuntime) {
    fields_fill_the_packet();
    one_packet_of_octets();
    packets_read_back();
    fractions_are_rounded();
    one_era_is_nearest();
    true_time_is_between();
}
