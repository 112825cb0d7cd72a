//! Each key with a value of each kind but its own.

use crate::verdicts::expect;
use std::alloc::Global;
use std::io::Eprint;
use std::process::Abort;
use std::test::Fail;

// Each kind of TOML, with a value of it.
const VALUES: [(&str, &str); 7] = [
    ("string", "\"x\""),
    ("integer", "1"),
    ("float", "1.0"),
    ("boolean", "true"),
    ("date", "1979-05-27T07:32:00Z"),
    ("array", "[1]"),
    ("table", "{ x = 1 }"),
];

// The keys of a node behind its name, with their kinds.
const NODE_KEYS: [(&str, &str); 14] = [
    ("role", "string"),
    ("courier", "boolean"),
    ("listen", "string"),
    ("epoch", "integer"),
    ("required", "integer"),
    ("period", "integer"),
    ("hold", "integer"),
    ("timeout", "integer"),
    ("max_inaccuracy", "integer"),
    ("drift_ppm", "integer"),
    ("resolution", "integer"),
    ("lease", "integer"),
    ("slew_ppm", "integer"),
    ("tolerance", "integer"),
];

// A text with a value at its place `@`, which is of another kind than the key's.
fn expect_kind(
    rt: &(impl Abort + Eprint),
    alloc: Global,
    front: &str,
    key: &str,
    value: &str,
    path: &str,
) -> Result<(), Fail> {
    let text = format!(in alloc; "{front}{key} = {value}\n")?;
    let wanted = format!(in alloc; "{path}{key}: Kind")?;
    expect(rt, alloc, text.as_bytes(), wanted.as_str())
}

// A key with a value of each kind but its own.
fn expect_one_kind(
    rt: &(impl Abort + Eprint),
    alloc: Global,
    front: &str,
    key: &str,
    kind: &str,
    path: &str,
) -> Result<(), Fail> {
    for (other, value) in VALUES {
        if other != kind {
            expect_kind(rt, alloc, front, key, value, path)?;
        }
    }
    Ok(())
}

#[test]
fn each_key_of_the_node_has_its_kind(rt: HostRuntime) -> Result<(), Fail> {
    expect_one_kind(&rt, rt.alloc(), "[node]\n", "name", "string", "node.")?;
    for (key, kind) in NODE_KEYS {
        expect_one_kind(
            &rt,
            rt.alloc(),
            "[node]\nname = \"a\"\n",
            key,
            kind,
            "node.",
        )?;
    }
    Ok(())
}

#[test]
fn each_key_of_a_server_has_its_kind(rt: HostRuntime) -> Result<(), Fail> {
    let rows = [
        ("", "name"),
        ("name = \"s\"\n", "kind"),
        ("name = \"s\"\nkind = \"local\"\n", "address"),
    ];
    for (keys, key) in rows {
        let front = format!(in rt.alloc(); "[node]\nname = \"a\"\n[[server]]\n{keys}")?;
        expect_one_kind(&rt, rt.alloc(), front.as_str(), key, "string", "server.0.")?;
    }
    Ok(())
}

#[test]
fn the_node_is_a_table_and_the_servers_are_tables(rt: HostRuntime) -> Result<(), Fail> {
    expect_one_kind(&rt, rt.alloc(), "", "node", "table", "")?;
    let named = "node.name = \"a\"\n";
    for (_, value) in VALUES {
        expect_kind(&rt, rt.alloc(), named, "server", value, "")?;
        let second = format!(in rt.alloc();
            "[{{ name = \"s\", kind = \"local\", address = \"1.2.3.4:5\" }}, {value}]"
        )?;
        let wanted = match value {
            "{ x = 1 }" => "server.1.name: Missing",
            _ => "server: Kind",
        };
        let text = format!(in rt.alloc(); "{named}server = {second}\n")?;
        expect(&rt, rt.alloc(), text.as_bytes(), wanted)?;
    }
    expect(&rt, rt.alloc(), b"[[node]]\nname = \"a\"\n", "node: Kind")
}
