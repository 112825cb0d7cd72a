use assertions::{assert_at, assert_equal};
use utc_value::*;

// 1970-01-01 00:00:00 UTC, which is 141427 days after 1582-10-15.
const UNIX_EPOCH: i64 = 122_192_928_000_000_000;

const UNIX_EPOCH_OCTETS: [u8; 16] = [
    0x00, 0x40, 0x81, 0x13, 0xd2, 0x1d, 0xb2, 0x01, 0, 0, 0, 0, 0, 0, 0, 0x10,
];

#[test]
fn octets_of_1970_read_back(rt: HostRuntime) {
    let moment = Utc::absolute(UNIX_EPOCH, Some(0), 0).expect(&rt, "in range");
    assert_equal!(rt; moment.to_bytes(), UNIX_EPOCH_OCTETS);
    assert!(rt; Utc::from_bytes(UNIX_EPOCH_OCTETS) == Ok(moment));
}

#[test]
fn octets_of_negative_parts(rt: HostRuntime) {
    let moment = Utc::absolute(-1, None, -1439).expect(&rt, "in range");
    // −1439 is a61 in twelve bits.
    let octets = [
        255, 255, 255, 255, 255, 255, 255, 255, 255, 255, 255, 255, 255, 255, 0x61, 0x1a,
    ];
    assert_equal!(rt; moment.to_bytes(), octets);
    assert!(rt; Utc::from_bytes(octets) == Ok(moment));
    let length = Utc::relative(-2, Some(MAX_INACCURACY)).expect(&rt, "in range");
    let octets = [
        254, 255, 255, 255, 255, 255, 255, 255, 254, 255, 255, 255, 255, 255, 0, 0x20,
    ];
    assert_equal!(rt; length.to_bytes(), octets);
    assert!(rt; Utc::from_bytes(octets) == Ok(length));
}

#[test]
fn octets_refuse_versions_and_factors(rt: HostRuntime) {
    let mut octets = UNIX_EPOCH_OCTETS;
    let cases: [(u8, u8, BytesFault); 7] = [
        (0x00, 0x30, BytesFault::Version { found: 3 }),
        (0x00, 0x00, BytesFault::Version { found: 0 }),
        (0xa0, 0xf5, BytesFault::Version { found: 15 }),
        (0xa0, 0x15, BytesFault::Tdf { found: 1440 }),
        (0x60, 0x1a, BytesFault::Tdf { found: -1440 }),
        (0x00, 0x18, BytesFault::Tdf { found: -2048 }),
        (0x01, 0x20, BytesFault::Tdf { found: 1 }),
    ];
    for (low, high, fault) in cases {
        octets[14] = low;
        octets[15] = high;
        assert_at!(rt; (low, high), Utc::from_bytes(octets) == Err(fault));
    }
    for (low, high, tdf) in [(0x9f, 0x15, 1439), (0x61, 0x1a, -1439)] {
        octets[14] = low;
        octets[15] = high;
        assert!(rt;
            Utc::from_bytes(octets)
                == Utc::absolute(UNIX_EPOCH, Some(0), tdf).map_err(|_| BytesFault::Version {
                    found: 0
                })
        );
    }
}

#[test]
fn ranges_at_their_ends(rt: HostRuntime) {
    let above = Some(MAX_INACCURACY + 1);
    assert!(rt; Utc::absolute(0, Some(MAX_INACCURACY), 1439).is_ok());
    assert!(rt; Utc::absolute(0, None, -1439).is_ok());
    assert!(rt; Utc::absolute(0, above, 1440) == Err(ValueFault::InaccuracyRange));
    assert!(rt; Utc::absolute(0, None, 1440) == Err(ValueFault::TdfRange));
    assert!(rt; Utc::absolute(0, None, -1440) == Err(ValueFault::TdfRange));
    assert!(rt; Utc::relative(0, above) == Err(ValueFault::InaccuracyRange));
    assert!(rt; Utc::relative(0, Some(MAX_INACCURACY)).is_ok());
}

#[test]
fn ends_of_an_interval(rt: HostRuntime) {
    let widest = Utc::absolute(i64::MAX, Some(MAX_INACCURACY), 60).expect(&rt, "in range");
    assert_equal!(rt; widest.time(), i64::MAX);
    assert_equal!(rt; widest.inaccuracy(), Some(MAX_INACCURACY));
    assert_equal!(rt; widest.tdf(), 60);
    assert!(rt; widest.kind() == Kind::Absolute);
    assert_equal!(rt; widest.latest(), Some(9_223_653_511_831_486_461));
    assert_equal!(rt; widest.earliest(), Some(9_223_090_561_878_065_153));
    let unknown = Utc::relative(i64::MIN, None).expect(&rt, "in range");
    assert!(rt; unknown.kind() == Kind::Relative);
    assert_equal!(rt; unknown.earliest(), None);
    assert_equal!(rt; unknown.latest(), None);
}

#[test]
fn faults_say_what_was_found(rt: HostRuntime) -> Result<(), std::test::Fail> {
    let version = format!(in rt.alloc(); "{}", BytesFault::Version { found: 3 })?;
    assert_equal!(rt; version.as_str(), "version 3 is neither 1 nor 2");
    let tdf = format!(in rt.alloc(); "{}", BytesFault::Tdf { found: -1440 })?;
    assert_equal!(rt; tdf.as_str(),
        "a time differential factor of -1440 minutes",
    );
    let range = format!(in rt.alloc(); "{}", ValueFault::InaccuracyRange)?;
    assert_equal!(rt; range.as_str(),
        "the inaccuracy is above 281474976710654",
    );
    Ok(())
}

#[test]
fn the_laws_have_no_effect() {
    one_timestamp_of_octets();
    members_are_from_the_earliest_to_the_latest();
}
