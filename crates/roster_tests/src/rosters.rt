use crate::verdicts::{expect, expect_of_line};
use assertions::assert_equal;
use roster::*;
use std::alloc::Global;
use std::io::Eprint;
use std::process::Abort;
use std::test::Fail;

// A line of the node behind its name, and what is wrong.
const LINES: [(&str, &str); 74] = [
    ("role = 1", "node.role: Kind"),
    ("role = \"boss\"", "node.role: Range"),
    ("role = \"server\"", "accepted"),
    ("courier = \"yes\"", "node.courier: Kind"),
    ("courier = true", "accepted"),
    ("listen = 7000", "node.listen: Kind"),
    ("listen = \"localhost:7000\"", "node.listen: Range"),
    ("listen = \"1.2.3.4:0\"", "node.listen: Range"),
    ("listen = \"1.2.3.4:1\"", "accepted"),
    ("listen = \"1.2.3.4:65532\"", "accepted"),
    ("listen = \"1.2.3.4:65533\"", "node.listen: Range"),
    ("epoch = 1.0", "node.epoch: Kind"),
    ("epoch = -1", "node.epoch: Range"),
    ("epoch = 0", "accepted"),
    ("epoch = 255", "accepted"),
    ("epoch = 256", "node.epoch: Range"),
    ("required = true", "node.required: Kind"),
    ("required = 0", "node.required: Range"),
    ("required = 1", "accepted"),
    ("required = 32", "accepted"),
    ("required = 33", "node.required: Range"),
    ("period = \"1\"", "node.period: Kind"),
    ("period = 9999999", "node.period: Range"),
    ("period = 10000000", "accepted"),
    ("period = 10000000000000", "accepted"),
    ("period = 10000000000001", "node.period: Range"),
    ("hold = []", "node.hold: Kind"),
    ("hold = 9999999", "node.hold: Range"),
    ("hold = 10000000", "accepted"),
    ("hold = 10000000000000", "accepted"),
    ("hold = 10000000000001", "node.hold: Range"),
    ("timeout = {}", "node.timeout: Kind"),
    ("timeout = 9999", "node.timeout: Range"),
    ("timeout = 10000", "accepted"),
    ("timeout = 10000000000", "accepted"),
    ("timeout = 10000000001", "node.timeout: Range"),
    ("max_inaccuracy = 1979-05-27", "node.max_inaccuracy: Kind"),
    ("max_inaccuracy = 0", "node.max_inaccuracy: Range"),
    ("max_inaccuracy = 1", "accepted"),
    ("max_inaccuracy = 281474976710654", "accepted"),
    (
        "max_inaccuracy = 281474976710655",
        "node.max_inaccuracy: Range",
    ),
    ("drift_ppm = \"\"", "node.drift_ppm: Kind"),
    ("drift_ppm = -1", "node.drift_ppm: Range"),
    ("drift_ppm = 0", "accepted"),
    ("drift_ppm = 10000", "accepted"),
    ("drift_ppm = 10001", "node.drift_ppm: Range"),
    ("resolution = \"\"", "node.resolution: Kind"),
    ("resolution = -1", "node.resolution: Range"),
    ("resolution = 0", "accepted"),
    ("resolution = 10000000", "accepted"),
    ("resolution = 10000001", "node.resolution: Range"),
    ("lease = \"\"", "node.lease: Kind"),
    ("lease = 999999", "node.lease: Range"),
    ("lease = 1000000", "accepted"),
    ("lease = 36000000000", "accepted"),
    ("lease = 36000000001", "node.lease: Range"),
    ("slew_ppm = \"\"", "node.slew_ppm: Kind"),
    ("slew_ppm = 0", "node.slew_ppm: Range"),
    ("slew_ppm = 1", "accepted"),
    ("slew_ppm = 100000", "accepted"),
    ("slew_ppm = 100001", "node.slew_ppm: Range"),
    ("tolerance = \"\"", "node.tolerance: Kind"),
    ("tolerance = 0", "node.tolerance: Range"),
    ("tolerance = 1", "accepted"),
    ("tolerance = 1000000000000000", "accepted"),
    ("tolerance = 1000000000000001", "node.tolerance: Range"),
    ("color = 1", "node.color: Unknown"),
    ("color = 1\nrole = 1", "node.role: Kind"),
    ("hold = 0\nperiod = 0", "node.period: Range"),
    ("epoch = 9223372036854775808", ": Document"),
    ("epoch = 0x10", "accepted"),
    ("\"epoch\" = 256", "node.epoch: Range"),
    ("\"a.b\" = 1", "node.a.b: Unknown"),
    ("name = \"b\"", ": Document"),
];

#[test]
fn each_key_of_the_node_is_tested(rt: HostRuntime) -> Result<(), Fail> {
    for (line, wanted) in LINES {
        expect_of_line(&rt, rt.alloc(), line, wanted)?;
    }
    Ok(())
}

// A text, and what is wrong.
const TEXTS: [(&str, &str); 27] = [
    ("", "node: Missing"),
    ("a = 1\n", "a: Unknown"),
    ("z = 1\n", "node: Missing"),
    ("node = 1\n", "node: Kind"),
    ("node.name = \"a\"\nz = 1\n", "z: Unknown"),
    ("node.name = \"a\"\n", "accepted"),
    ("node = { name = \"a\" }\n", "accepted"),
    ("\"node\".'name' = \"a\"\r\n", "accepted"),
    ("[node]\r\nname = \"a\"\r\n", "accepted"),
    ("[node]\n", "node.name: Missing"),
    ("[node]\nname = 1\n", "node.name: Kind"),
    ("[node]\nname = \"\"\n", "node.name: Range"),
    ("[node]\nname = \"A\"\n", "node.name: Range"),
    (
        "[node]\nname = \"abcdefghijklmnopqrstuvwxyz-01234\"\n",
        "accepted",
    ),
    (
        "[node]\nname = \"abcdefghijklmnopqrstuvwxyz-012345\"\n",
        "node.name: Range",
    ),
    ("server = []\n[node]\nname = \"a\"\n", "accepted"),
    ("server = 1\n[node]\nname = \"a\"\n", "server: Kind"),
    ("server = [1]\n[node]\nname = \"a\"\n", "server: Kind"),
    ("[server]\n[node]\nname = \"a\"\n", "server: Kind"),
    (
        "[node]\nname = \"a\"\n[[server]]\n",
        "server.0.name: Missing",
    ),
    (
        "[node]\nname = \"a\"\n[[server]]\nname = \"s\"\n",
        "server.0.kind: Missing",
    ),
    (
        "[node]\nname = \"a\"\n[[server]]\nname = \"s\"\nkind = \"far\"\n",
        "server.0.kind: Range",
    ),
    (
        "[node]\nname = \"a\"\n[[server]]\nname = \"s\"\nkind = \"local\"\n",
        "server.0.address: Missing",
    ),
    (
        "[node]\nname = \"a\"\n[[server]]\nname = \"s\"\nkind = \"local\"\naddress = \"1.2.3.4:65535\"\ncolor = 1\n",
        "server.0.color: Unknown",
    ),
    (
        "[node]\nname = \"a\"\n[[server]]\nname = \"s\"\nkind = \"local\"\naddress = \"1.2.3.4:65536\"\n",
        "server.0.address: Range",
    ),
    (
        "[node]\nname = \"a\"\n[[server]]\nname = \"s\"\nkind = \"local\"\naddress = \"1.2.3.4:5\"\n[[server]]\nname = \"s\"\nkind = \"ntp\"\naddress = \"1.2.3.4:5\"\n",
        "server.1.name: Duplicate",
    ),
    ("no toml", ": Document"),
];

#[test]
fn the_top_and_the_servers_are_tested_in_order(rt: HostRuntime) -> Result<(), Fail> {
    for (text, wanted) in TEXTS {
        expect(&rt, rt.alloc(), text.as_bytes(), wanted)?;
    }
    expect(&rt, rt.alloc(), &[0xff], ": Document")
}

// A node with so many servers of a kind.
fn with_servers(alloc: Global, count: u32, kind: &str) -> Result<String, Fail> {
    let mut text = String::from_str(alloc, "[node]\nname = \"a\"\n")?;
    for i in 0..count {
        text.push_str(server(alloc, i, kind)?.as_str())?;
    }
    Ok(text)
}

fn server(alloc: Global, i: u32, kind: &str) -> Result<String, Fail> {
    Ok(format!(in alloc;
        "[[server]]\nname = \"s{i}\"\nkind = \"{kind}\"\naddress = \"1.2.3.4:5\"\n"
    )?)
}

// A node's name and a comment, of so many octets as a whole.
fn long(alloc: Global, octets: usize) -> Result<Vec<u8>, Fail> {
    let mut text = Vec::from_array(alloc, *b"node.name=\"a\"#")?;
    text.resize(octets, b'x')?;
    Ok(text)
}

#[test]
fn the_limits_are_exact(rt: HostRuntime) -> Result<(), Fail> {
    let rows = [
        (32, "local", "accepted"),
        (33, "local", "server: TooMany"),
        (6, "ntp", "accepted"),
        (7, "ntp", "server.6.kind: TooMany"),
    ];
    for (count, kind, wanted) in rows {
        let text = with_servers(rt.alloc(), count, kind)?;
        expect(&rt, rt.alloc(), text.as_bytes(), wanted)?;
    }
    let text = long(rt.alloc(), MAX_OCTETS)?;
    expect(&rt, rt.alloc(), text.as_slice(), "accepted")?;
    let text = long(rt.alloc(), MAX_OCTETS + 1)?;
    expect(&rt, rt.alloc(), text.as_slice(), ": Long")
}

fn expect_defaults(rt: &(impl Abort + Eprint), roster: &Roster) {
    let s = roster.settings();
    assert_equal!(rt; s.name.as_slice(), b"node".as_slice());
    assert_equal!(rt; s.role, Role::Clerk);
    assert_equal!(rt; (s.courier, s.epoch, s.required), (false, 0, 1));
    assert_equal!(rt; (s.listen.ip, s.listen.port), ([127, 0, 0, 1], 7000));
    assert_equal!(rt; s.period, 6_000_000_000);
    assert_equal!(rt; s.hold, 600_000_000);
    assert_equal!(rt; s.timeout, 50_000_000);
    assert_equal!(rt; s.max_inaccuracy, 10_000_000);
}

fn expect_alone(rt: &(impl Abort + Eprint), roster: &Roster) {
    assert_equal!(rt; roster.rates(), slew_clock::Rates::usual());
    assert_equal!(rt; roster.servers(), 0);
    assert_equal!(rt; roster.server(0), None);
}

#[test]
fn an_empty_roster_is_a_node_with_every_default(rt: HostRuntime) -> Result<(), Fail> {
    let empty = Roster::empty(rt.alloc())?;
    expect_defaults(&rt, &empty);
    expect_alone(&rt, &empty);
    let read = Roster::read(rt.alloc(), b"[node]\nname = \"node\"\n")?;
    expect_defaults(&rt, &read);
    expect_alone(&rt, &read);
    let copy = read.copy(rt.alloc())?;
    expect_defaults(&rt, &copy);
    expect_alone(&rt, &copy);
    Ok(())
}
