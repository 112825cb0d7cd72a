//! Of two wrong keys the first by the order of the tests is named.

use crate::verdicts::{expect, expect_of_line};
use std::alloc::Global;
use std::test::Fail;

// The keys of three servers, two of one name.
const S: &str = "name = \"s\"\nkind = \"local\"\naddress = \"1.2.3.4:5\"\n";

const T: &str = "name = \"t\"\nkind = \"global\"\naddress = \"1.2.3.4:6\"\n";

const S_AGAIN: &str = "name = \"s\"\nkind = \"ntp\"\naddress = \"1.2.3.4:7\"\n";

// A node with servers of these keys.
fn with_servers(alloc: Global, servers: &[&str]) -> Result<String, Fail> {
    let mut text = String::from_str(alloc, "[node]\nname = \"a\"\n")?;
    for keys in servers {
        text.push_str("[[server]]\n")?;
        text.push_str(*keys)?;
    }
    Ok(text)
}

// A line of the node behind its name, and what is wrong.
const LINES: [(&str, &str); 16] = [
    ("courier = 1\nrole = 1", "node.role: Kind"),
    ("listen = 1\ncourier = 1", "node.courier: Kind"),
    ("epoch = 256\nlisten = \"\"", "node.listen: Range"),
    ("required = 0\nepoch = 256", "node.epoch: Range"),
    ("period = 0\nrequired = 0", "node.required: Range"),
    ("hold = 0\nperiod = 0", "node.period: Range"),
    ("timeout = 0\nhold = 0", "node.hold: Range"),
    ("max_inaccuracy = 0\ntimeout = 0", "node.timeout: Range"),
    (
        "drift_ppm = -1\nmax_inaccuracy = 0",
        "node.max_inaccuracy: Range",
    ),
    ("resolution = -1\ndrift_ppm = -1", "node.drift_ppm: Range"),
    ("lease = 0\nresolution = -1", "node.resolution: Range"),
    ("slew_ppm = 0\nlease = 0", "node.lease: Range"),
    ("tolerance = 0\nslew_ppm = 0", "node.slew_ppm: Range"),
    ("a = 1\ntolerance = 0", "node.tolerance: Range"),
    ("z = 1\nb = 1", "node.b: Unknown"),
    ("courier = 1\nrole = \"boss\"", "node.role: Range"),
];

#[test]
fn the_first_wrong_key_of_the_node_is_named(rt: HostRuntime) -> Result<(), Fail> {
    for (lines, wanted) in LINES {
        expect_of_line(&rt, rt.alloc(), lines, wanted)?;
    }
    expect(
        &rt,
        rt.alloc(),
        b"[node]\nrole = 1\nname = 1\n",
        "node.name: Kind",
    )?;
    expect(&rt, rt.alloc(), b"[node]\nrole = 1\n", "node.name: Missing")
}

// A text, and what is wrong.
const TEXTS: [(&str, &str); 7] = [
    ("z = 1\na = 1\n[node]\n", "a: Unknown"),
    ("z = 1\nserver = 1\nnode = 1\n", "node: Kind"),
    ("z = 1\nserver = 1\n[node]\n", "server: Kind"),
    ("z = 1\nserver = 1\n", "node: Missing"),
    ("z = 1\n[node]\n", "z: Unknown"),
    ("[node]\n[[server]]\n", "node.name: Missing"),
    (
        "[node]\nname = \"a\"\ncolor = 1\n[[server]]\n",
        "node.color: Unknown",
    ),
];

#[test]
fn the_first_wrong_table_is_named(rt: HostRuntime) -> Result<(), Fail> {
    for (text, wanted) in TEXTS {
        expect(&rt, rt.alloc(), text.as_bytes(), wanted)?;
    }
    Ok(())
}

// The keys of the first server, and what is wrong.
const SERVER_KEYS: [(&str, &str); 5] = [
    (
        "color = 1\nkind = \"far\"\nname = \"S\"\n",
        "server.0.name: Range",
    ),
    (
        "color = 1\naddress = 1\nkind = \"far\"\nname = \"s\"\n",
        "server.0.kind: Range",
    ),
    (
        "color = 1\naddress = \"\"\nkind = \"ntp\"\nname = \"s\"\n",
        "server.0.address: Range",
    ),
    (
        "color = 1\nb = 1\naddress = \"1.2.3.4:5\"\nkind = \"ntp\"\nname = \"s\"\n",
        "server.0.b: Unknown",
    ),
    ("color = 1\n", "server.0.name: Missing"),
];

#[test]
fn the_first_wrong_key_of_a_server_is_named(rt: HostRuntime) -> Result<(), Fail> {
    for (keys, wanted) in SERVER_KEYS {
        let text = with_servers(rt.alloc(), &[keys, ""])?;
        expect(&rt, rt.alloc(), text.as_bytes(), wanted)?;
    }
    Ok(())
}

// The keys of each server, and what is wrong.
const SERVERS: [(&[&str], &str); 9] = [
    (&[S, T], "accepted"),
    (&[S, "name = \"t\"\n", ""], "server.1.kind: Missing"),
    (&[S, S_AGAIN, ""], "server.1.name: Duplicate"),
    (&[S, S_AGAIN, S], "server.1.name: Duplicate"),
    (&[S, T, S_AGAIN], "server.2.name: Duplicate"),
    (&[S, T, T, S], "server.2.name: Duplicate"),
    (&[T, S, S, T], "server.2.name: Duplicate"),
    (&[S, "color = 1\nname = \"s\"\n"], "server.1.kind: Missing"),
    (
        &["name = \"a\"\nkind = \"local\"\naddress = \"1.2.3.4:5\"\n"],
        "accepted",
    ),
];

#[test]
fn the_first_wrong_server_is_named(rt: HostRuntime) -> Result<(), Fail> {
    for (servers, wanted) in SERVERS {
        let text = with_servers(rt.alloc(), servers)?;
        expect(&rt, rt.alloc(), text.as_bytes(), wanted)?;
    }
    Ok(())
}

#[test]
fn a_server_is_a_duplicate_behind_its_keys(rt: HostRuntime) -> Result<(), Fail> {
    let mut text = with_servers(rt.alloc(), &[S, S_AGAIN])?;
    text.push_str("color = 1\n")?;
    expect(&rt, rt.alloc(), text.as_bytes(), "server.1.color: Unknown")
}

#[test]
fn servers_are_counted_in_front_of_their_keys(rt: HostRuntime) -> Result<(), Fail> {
    let rows = [(32, "server.0.name: Missing"), (33, "server: TooMany")];
    for (count, wanted) in rows {
        let mut text = String::from_str(rt.alloc(), "[node]\nname = \"a\"\n")?;
        for _ in 0..count {
            text.push_str("[[server]]\n")?;
        }
        expect(&rt, rt.alloc(), text.as_bytes(), wanted)?;
    }
    Ok(())
}

#[test]
fn servers_of_ntp_are_counted_behind_all_keys(rt: HostRuntime) -> Result<(), Fail> {
    // Seven servers of NTP behind a local one, and then this one.
    let rows = [
        (T, "server.7.kind: TooMany"),
        (S_AGAIN, "server.8.name: Duplicate"),
        ("name = \"t\"\nkind = \"far\"\n", "server.8.kind: Range"),
    ];
    for (last, wanted) in rows {
        let mut text = with_servers(rt.alloc(), &[S])?;
        for i in 1..8 {
            let server = format!(in rt.alloc();
                "[[server]]\nname = \"n{i}\"\nkind = \"ntp\"\naddress = \"1.2.3.4:123\"\n"
            )?;
            text.push_str(server.as_str())?;
        }
        text.push_str("[[server]]\n")?;
        text.push_str(last)?;
        expect(&rt, rt.alloc(), text.as_bytes(), wanted)?;
    }
    Ok(())
}
