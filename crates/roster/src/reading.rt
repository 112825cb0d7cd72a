//! The settings and the servers of a document of which no key is wrong.

ghost use Rattle.std.specs.Prelude.{◌≡◌, ◌≤◌, true, false, codes, pos, map, drop, Some, None, IfOk, option_map, option_and_then};
ghost use Rattle.std.specs.List.{AllZip, AllByRecursion};
ghost use Rattle.toml.specs.Data.{as_bool, as_integer, as_str, as_table, get_member, boolean, integer, string};
ghost use Rattle.toml.specs.View.{view, table_view};
ghost use Rattle.dts_base.specs.Addresses.{address_text};
ghost use Rattle.roster.specs.declared.keys.Right.TheVariants as right;
ghost use Rattle.roster.specs.Keys.{asked_of, node_keys, server_keys};
ghost use Rattle.roster.specs.Values.{role_of, address_up_to};
ghost use Rattle.roster.specs.Rosters.{given, GivesEntry, GivesOthers};
ghost use Rattle.roster.specs.Seen.{IsRight, HoldsRight, AreRight};

use crate::addresses::address;
use crate::document::{member, text_at};
use crate::values::{role, server_kind};
use crate::*;
use dts_base::{Address, NoMemory, Text};
use slew_clock::{
    GREATEST_DRIFT_PPM, GREATEST_LEASE, GREATEST_RESOLUTION, GREATEST_SLEW_PPM, GREATEST_TOLERANCE,
    LEAST_LEASE, LEAST_SLEW_PPM, LEAST_TOLERANCE,
};
use std::alloc::Global;
use toml::{Table, Value};

/// The settings of a node's table, with a name.
pub(crate) fn settings(name: Text, node: &Table) -> Settings
    requires { AreRight (drop 1 (asked_of node_keys)) (table_view node.now) }
    ensures name { result.name ≡ name }
    ensures others { GivesOthers (table_view node.now) result }
{
    Settings {
        name,
        role: role_in(node),
        courier: flag(node, "courier"),
        listen: listen_in(node),
        epoch: number(node, "epoch", 0, GREATEST_EPOCH, DEFAULT_EPOCH) as u8,
        required: number(
            node,
            "required",
            LEAST_REQUIRED,
            GREATEST_REQUIRED,
            DEFAULT_REQUIRED,
        ) as u32,
        period: number(
            node,
            "period",
            LEAST_PERIOD,
            GREATEST_PERIOD,
            DEFAULT_PERIOD,
        ),
        hold: number(node, "hold", LEAST_HOLD, GREATEST_HOLD, DEFAULT_HOLD),
        timeout: number(
            node,
            "timeout",
            LEAST_TIMEOUT,
            GREATEST_TIMEOUT,
            DEFAULT_TIMEOUT,
        ),
        max_inaccuracy: number(
            node,
            "max_inaccuracy",
            LEAST_MAX_INACCURACY,
            GREATEST_MAX_INACCURACY,
            DEFAULT_MAX_INACCURACY,
        ),
        drift_ppm: number(
            node,
            "drift_ppm",
            0,
            u64::from(GREATEST_DRIFT_PPM),
            DEFAULT_DRIFT_PPM,
        ) as u32,
        resolution: number(
            node,
            "resolution",
            0,
            u64::from(GREATEST_RESOLUTION),
            DEFAULT_RESOLUTION,
        ) as u32,
        lease: number(node, "lease", LEAST_LEASE, GREATEST_LEASE, DEFAULT_LEASE),
        slew_ppm: number(
            node,
            "slew_ppm",
            u64::from(LEAST_SLEW_PPM),
            u64::from(GREATEST_SLEW_PPM),
            DEFAULT_SLEW_PPM,
        ) as u32,
        tolerance: number(
            node,
            "tolerance",
            LEAST_TOLERANCE,
            GREATEST_TOLERANCE,
            DEFAULT_TOLERANCE,
        ),
    }
}

/// The role, or a clerk's.
fn role_in(node: &Table) -> Role
    requires { HoldsRight (codes "role") right.Role false (table_view node.now) }
    ensures { option_and_then role_of (option_and_then as_str (given (get_member (codes "role") (table_view node.now)) (Some (string (codes "clerk"))))) ≡ Some result }
{
    match member(node, "role") {
        Some(value) => role(value.as_str().unwrap()).unwrap(),
        None => Role::Clerk,
    }
}

/// Where the node listens, or the default.
fn listen_in(node: &Table) -> Address
    requires { HoldsRight (codes "listen") (right.Address GREATEST_LISTEN_PORT) false (table_view node.now) }
    ensures address { option_and_then (address_up_to GREATEST_LISTEN_PORT) (option_and_then as_str (given (get_member (codes "listen") (table_view node.now)) (Some (string (address_text (record { ip = DEFAULT_LISTEN_IP; port = DEFAULT_LISTEN_PORT })))))) ≡ Some result }
    ensures port { result.port ≤ GREATEST_LISTEN_PORT }
{
    match member(node, "listen") {
        Some(value) => address(value.as_str().unwrap(), GREATEST_LISTEN_PORT).unwrap(),
        None => Address {
            ip: DEFAULT_LISTEN_IP,
            port: DEFAULT_LISTEN_PORT,
        },
    }
}

/// A boolean, or false.
fn flag(node: &Table, name: &str) -> bool
    requires { HoldsRight name.now right.Flag false (table_view node.now) }
    ensures { option_and_then as_bool (given (get_member name.now (table_view node.now)) (Some (boolean false))) ≡ Some result }
{
    match member(node, name) {
        Some(value) => value.as_bool().unwrap(),
        None => false,
    }
}

/// An integer in its range, or the default.
fn number(node: &Table, name: &str, least: u64, greatest: u64, default: u64) -> u64
    requires right { HoldsRight name.now (right.Number least greatest) false (table_view node.now) }
    requires default_from { least ≤ default }
    requires default_to { default ≤ greatest }
    ensures number { option_and_then as_integer (given (get_member name.now (table_view node.now)) (Some (integer (pos default)))) ≡ Some (pos result) }
    ensures least { least ≤ result }
    ensures greatest { result ≤ greatest }
{
    match member(node, name) {
        Some(value) => value.as_integer().unwrap() as u64,
        None => default,
    }
}

/// The server that a table gives.
fn entry(alloc: Global, server: &Value) -> Result<Entry, NoMemory>
    requires { IsRight (asked_of server_keys) (view server.now) }
    ensures { IfOk result (GivesEntry (view server.now)) }
{
    let name = text_at(server, "name").unwrap();
    let kind = text_at(server, "kind").unwrap();
    let place = text_at(server, "address").unwrap();
    Ok(Entry {
        name: Text::from_slice(alloc, name.as_bytes())?,
        kind: server_kind(kind).unwrap(),
        address: address(place, GREATEST_PORT).unwrap(),
    })
}

/// The servers that tables give, in order.
pub(crate) fn entries(alloc: Global, servers: &[Value]) -> Result<Vec<Entry>, NoMemory>
    requires { AllByRecursion (IsRight (asked_of server_keys)) (map view servers.now) }
    ensures { IfOk result (λ entries. AllZip GivesEntry (map view servers.now) entries.items) }
{
    let mut entries = Vec::with_capacity(alloc, servers.len())?;
    for server in servers {
        entries.push(entry(alloc, server)?)?;
    }
    Ok(entries)
}
