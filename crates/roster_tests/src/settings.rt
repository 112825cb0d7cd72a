//! What is read of a roster's keys.

use assertions::assert_equal;
use roster::*;
use std::io::Eprint;
use std::process::Abort;
use std::test::Fail;

const EACH_KEY: &str =
    "[node]\nname = \"far-9\"\nrole = \"server\"\ncourier = true\nlisten = \"10.20.30.40:5000\"\nepoch = 7\n\
required = 3\nperiod = 10000001\nhold = 10000002\ntimeout = 10003\nmax_inaccuracy = 4\ndrift_ppm = 5\nresolution = 6\n\
lease = 1000007\nslew_ppm = 8\ntolerance = 9\n\
[[server]]\nname = \"s\"\nkind = \"ntp\"\naddress = \"1.2.3.4:65535\"\n\
[[server]]\nname = \"t\"\nkind = \"local\"\naddress = \"5.6.7.8:1\"\n\
[[server]]\nname = \"u\"\nkind = \"global\"\naddress = \"9.10.11.12:2\"\n";

fn expect_node(rt: &(impl Abort + Eprint), s: &Settings) {
    assert_equal!(rt; s.name.as_slice(), b"far-9".as_slice());
    assert_equal!(rt; s.role, Role::Server);
    assert_equal!(rt; (s.courier, s.epoch, s.required), (true, 7, 3));
    assert_equal!(rt; (s.listen.ip, s.listen.port), ([10, 20, 30, 40], 5000));
    assert_equal!(rt; (s.period, s.hold, s.timeout),
        (10_000_001, 10_000_002, 10_003),
    );
    assert_equal!(rt; s.max_inaccuracy, 4);
}

fn expect_rates(rt: &(impl Abort + Eprint), s: &Settings) {
    assert_equal!(rt; (s.drift_ppm, s.resolution, s.lease), (5, 6, 1_000_007));
    assert_equal!(rt; (s.slew_ppm, s.tolerance), (8, 9));
}

fn expect_server(
    rt: &(impl Abort + Eprint),
    roster: &Roster,
    peer: u32,
    name: &[u8],
    kind: ServerKind,
    ip: [u8; 4],
    port: u16,
) {
    match roster.server(peer) {
        Some(entry) => {
            assert_equal!(rt; entry.name.as_slice(), name);
            assert_equal!(rt; entry.kind, kind);
            assert_equal!(rt; (entry.address.ip, entry.address.port), (ip, port));
        }
        None => assert!(rt; false),
    }
}

#[test]
fn each_key_is_read(rt: HostRuntime) -> Result<(), Fail> {
    let roster = Roster::read(rt.alloc(), EACH_KEY.as_bytes())?;
    expect_node(&rt, roster.settings());
    expect_rates(&rt, roster.settings());
    let copy = roster.copy(rt.alloc())?;
    expect_node(&rt, copy.settings());
    expect_rates(&rt, copy.settings());
    assert_equal!(rt; copy.rates(), roster.rates());
    Ok(())
}

#[test]
fn each_server_is_read(rt: HostRuntime) -> Result<(), Fail> {
    let roster = Roster::read(rt.alloc(), EACH_KEY.as_bytes())?;
    let copy = roster.copy(rt.alloc())?;
    for r in [&roster, &copy] {
        assert_equal!(rt; r.servers(), 3);
        expect_server(&rt, r, 0, b"s", ServerKind::Ntp, [1, 2, 3, 4], 65_535);
        expect_server(&rt, r, 1, b"t", ServerKind::Local, [5, 6, 7, 8], 1);
        expect_server(&rt, r, 2, b"u", ServerKind::Global, [9, 10, 11, 12], 2);
        assert_equal!(rt; r.server(3), None);
        assert_equal!(rt; r.server(u32::MAX), None);
    }
    Ok(())
}
