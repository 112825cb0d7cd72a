//! The forms of TOML that a roster may be written in.

use crate::verdicts::{expect, expect_of_line};
use std::test::Fail;

// A document, and what is wrong.
const DOCUMENTS: [(&str, &str); 26] = [
    // Lines that end in CR LF, or the last in nothing.
    (
        "[node]\r\nname = \"a\"\r\n\r\n[[server]]\r\nname = \"s\"\r\nkind = \"local\"\r\naddress = \"1.2.3.4:5\"\r\n",
        "accepted",
    ),
    (
        "[node]\r\nname = \"a\"\r\nepoch = 256\r\n",
        "node.epoch: Range",
    ),
    ("[node]\rname = \"a\"\r", ": Document"),
    ("[node]\nname = \"a\"", "accepted"),
    // Dotted keys.
    (
        "node.name = \"a\"\nnode.role = \"server\"\nnode.epoch = 255\n",
        "accepted",
    ),
    ("node.name = \"a\"\nnode.epoch = 256\n", "node.epoch: Range"),
    ("node.name = \"a\"\n[node]\nepoch = 1\n", ": Document"),
    ("node.name.a = \"a\"\n", "node.name: Kind"),
    ("server.name = \"s\"\nnode.name = \"a\"\n", "server: Kind"),
    // Inline tables.
    (
        "node = { name = \"a\", courier = true }\nserver = [{ name = \"s\", kind = \"ntp\", address = \"1.2.3.4:5\" }]\n",
        "accepted",
    ),
    (
        "node = { name = \"a\" }\nserver = [{ name = \"s\", kind = \"ntp\" }]\n",
        "server.0.address: Missing",
    ),
    (
        "node = { name = \"a\" }\nserver = [{}]\n",
        "server.0.name: Missing",
    ),
    ("node = {}\n", "node.name: Missing"),
    ("node = { name = \"a\" }\n[node]\n", ": Document"),
    // Quoted keys.
    (
        "[\"node\"]\n\"name\" = 'a'\n[['server']]\n'name' = 's'\n'kind' = 'ntp'\n\"address\" = '1.2.3.4:5'\n",
        "accepted",
    ),
    ("[\"node\"]\n\"na\\u006de\" = \"\\u0061\"\n", "accepted"),
    ("[node]\nname = \"a\"\n\"\" = 1\n", "node.: Unknown"),
    ("\"\" = 1\n", ": Unknown"),
    ("\"a b\" = 1\n", "a b: Unknown"),
    ("\"Node\" = 1\n", "Node: Unknown"),
    ("[node]\nname = \"a\"\n\"Name\" = 1\n", "node.Name: Unknown"),
    (
        "[node]\nname = \"a\"\n[[server]]\nname = \"s\"\nkind = \"ntp\"\naddress = \"1.2.3.4:5\"\n\"a.b\" = 1\n",
        "server.0.a.b: Unknown",
    ),
    // Tables of tables, in whatever order.
    (
        "[[server]]\nname = \"s\"\nkind = \"ntp\"\naddress = \"1.2.3.4:5\"\n[node]\nname = \"a\"\n",
        "accepted",
    ),
    ("[node.name]\n", "node.name: Kind"),
    ("[node]\nname = \"a\"\n[node.more]\n", "node.more: Unknown"),
    ("[more]\n[node]\nname = \"a\"\n", "more: Unknown"),
];

#[test]
fn each_form_of_a_document_is_read(rt: HostRuntime) -> Result<(), Fail> {
    for (text, wanted) in DOCUMENTS {
        expect(&rt, rt.alloc(), text.as_bytes(), wanted)?;
    }
    Ok(())
}

// A line of the node behind its name, and what is wrong.
const VALUES: [(&str, &str); 19] = [
    ("epoch = 0xff", "accepted"),
    ("epoch = 0x100", "node.epoch: Range"),
    ("epoch = 0o377", "accepted"),
    ("epoch = 0b11111111", "accepted"),
    ("epoch = +255", "accepted"),
    ("epoch = -0", "accepted"),
    ("period = 10_000_000", "accepted"),
    ("epoch = 1e1", "node.epoch: Kind"),
    ("epoch = inf", "node.epoch: Kind"),
    ("epoch = 07:32:00", "node.epoch: Kind"),
    ("epoch = 1979-05-27", "node.epoch: Kind"),
    ("role = 'server'", "accepted"),
    ("role = \"\"\"server\"\"\"", "accepted"),
    ("courier = True", ": Document"),
    ("epoch = 01", ": Document"),
    ("epoch = 0xFG", ": Document"),
    ("epoch =", ": Document"),
    ("epoch = 1\nepoch = 1", ": Document"),
    ("# a comment", "accepted"),
];

#[test]
fn each_form_of_a_value_is_read(rt: HostRuntime) -> Result<(), Fail> {
    for (line, wanted) in VALUES {
        expect_of_line(&rt, rt.alloc(), line, wanted)?;
    }
    Ok(())
}

#[test]
fn what_is_no_document_is_refused_as_a_whole(rt: HostRuntime) -> Result<(), Fail> {
    let rows: [&[u8]; 5] = [
        b"no toml",
        b"[node",
        b"[node]\nname = \"a\n",
        b"[node]\nname = \"\xff\"\n",
        b"\xfe\xff",
    ];
    for text in rows {
        expect(&rt, rt.alloc(), text, ": Document")?;
    }
    Ok(())
}
