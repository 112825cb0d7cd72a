//! Names, addresses and numbers at the ends of what is right, and beside them.

use crate::verdicts::{expect, expect_of_line};
use std::test::Fail;

// A name, and whether it is right.
const NAMES: [(&str, bool); 18] = [
    ("a", true),
    ("z", true),
    ("0", true),
    ("9", true),
    ("-", true),
    ("--a0z9--", true),
    ("`", false),
    ("{", false),
    ("/", false),
    (":", false),
    (",", false),
    (".", false),
    ("_", false),
    ("A", false),
    ("Z", false),
    ("a b", false),
    ("é", false),
    ("a\\n", false),
];

#[test]
fn names_are_of_some_characters(rt: HostRuntime) -> Result<(), Fail> {
    for (name, is_right) in NAMES {
        let node = format!(in rt.alloc(); "[node]\nname = \"{name}\"\n")?;
        let wanted = if is_right {
            "accepted"
        } else {
            "node.name: Range"
        };
        expect(&rt, rt.alloc(), node.as_bytes(), wanted)?;
        let server = format!(in rt.alloc();
            "node.name = \"a\"\n[[server]]\nname = \"{name}\"\nkind = \"local\"\naddress = \"1.2.3.4:5\"\n"
        )?;
        let wanted = if is_right {
            "accepted"
        } else {
            "server.0.name: Range"
        };
        expect(&rt, rt.alloc(), server.as_bytes(), wanted)?;
    }
    Ok(())
}

#[test]
fn servers_have_names_of_1_to_32_characters(rt: HostRuntime) -> Result<(), Fail> {
    let rows = [
        ("", "server.0.name: Range"),
        ("abcdefghijklmnopqrstuvwxyz-01234", "accepted"),
        ("abcdefghijklmnopqrstuvwxyz-012345", "server.0.name: Range"),
    ];
    for (name, wanted) in rows {
        let text = format!(in rt.alloc();
            "node.name = \"a\"\n[[server]]\nname = \"{name}\"\nkind = \"local\"\naddress = \"1.2.3.4:5\"\n"
        )?;
        expect(&rt, rt.alloc(), text.as_bytes(), wanted)?;
    }
    Ok(())
}

// A line of the node behind its name, and what is wrong.
const WORDS: [(&str, &str); 5] = [
    ("role = \"clerk\"", "accepted"),
    ("role = \"Clerk\"", "node.role: Range"),
    ("role = \"\"", "node.role: Range"),
    ("role = \"servers\"", "node.role: Range"),
    ("courier = false", "accepted"),
];

// A kind of server, and what is wrong.
const KINDS: [(&str, &str); 6] = [
    ("local", "accepted"),
    ("global", "accepted"),
    ("ntp", "accepted"),
    ("NTP", "server.0.kind: Range"),
    ("", "server.0.kind: Range"),
    ("locals", "server.0.kind: Range"),
];

#[test]
fn roles_and_kinds_are_words(rt: HostRuntime) -> Result<(), Fail> {
    for (line, wanted) in WORDS {
        expect_of_line(&rt, rt.alloc(), line, wanted)?;
    }
    for (kind, wanted) in KINDS {
        let text = format!(in rt.alloc();
            "node.name = \"a\"\n[[server]]\nname = \"s\"\nkind = \"{kind}\"\naddress = \"1.2.3.4:5\"\n"
        )?;
        expect(&rt, rt.alloc(), text.as_bytes(), wanted)?;
    }
    Ok(())
}

// An address, whether a node may listen there, and whether a server may be there.
const ADDRESSES: [(&str, bool, bool); 19] = [
    ("0.0.0.0:1", true, true),
    ("255.255.255.255:65532", true, true),
    ("1.2.3.4:65533", false, true),
    ("1.2.3.4:65535", false, true),
    ("1.2.3.4:65536", false, false),
    ("1.2.3.4:0", false, false),
    ("256.2.3.4:5", false, false),
    ("1.2.3.256:5", false, false),
    ("1.2.3:5", false, false),
    ("1.2.3.4.5:6", false, false),
    ("1.2.3.4", false, false),
    ("1.2.3.4:", false, false),
    ("01.2.3.4:5", false, false),
    ("1.2.3.4:05", false, false),
    ("1.2.3.4:+5", false, false),
    (" 1.2.3.4:5", false, false),
    ("1.2.3.4:5 ", false, false),
    ("[::1]:5", false, false),
    ("", false, false),
];

#[test]
fn addresses_are_four_numbers_and_a_port(rt: HostRuntime) -> Result<(), Fail> {
    for (address, listens, serves) in ADDRESSES {
        let line = format!(in rt.alloc(); "listen = \"{address}\"")?;
        let wanted = if listens {
            "accepted"
        } else {
            "node.listen: Range"
        };
        expect_of_line(&rt, rt.alloc(), line.as_str(), wanted)?;
        let text = format!(in rt.alloc();
            "node.name = \"a\"\n[[server]]\nname = \"s\"\nkind = \"local\"\naddress = \"{address}\"\n"
        )?;
        let wanted = if serves {
            "accepted"
        } else {
            "server.0.address: Range"
        };
        expect(&rt, rt.alloc(), text.as_bytes(), wanted)?;
    }
    Ok(())
}

// The keys of the node that are numbers.
const NUMBERS: [&str; 11] = [
    "epoch",
    "required",
    "period",
    "hold",
    "timeout",
    "max_inaccuracy",
    "drift_ppm",
    "resolution",
    "lease",
    "slew_ppm",
    "tolerance",
];

// Integers of 64 bits that are in no range.
const INSIDE: [&str; 3] = ["9223372036854775807", "-9223372036854775808", "-1"];

// Integers of more bits.
const OUTSIDE: [&str; 4] = [
    "9223372036854775808",
    "-9223372036854775809",
    "18446744073709551617",
    "0x8000000000000000",
];

#[test]
fn integers_have_64_bits(rt: HostRuntime) -> Result<(), Fail> {
    for key in NUMBERS {
        let wanted = format!(in rt.alloc(); "node.{key}: Range")?;
        for value in INSIDE {
            let line = format!(in rt.alloc(); "{key} = {value}")?;
            expect_of_line(&rt, rt.alloc(), line.as_str(), wanted.as_str())?;
        }
        for value in OUTSIDE {
            let line = format!(in rt.alloc(); "{key} = {value}")?;
            expect_of_line(&rt, rt.alloc(), line.as_str(), ": Document")?;
        }
    }
    Ok(())
}
