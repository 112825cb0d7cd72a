//! The first key of a document that is wrong.

ghost use Rattle.std.specs.Prelude.{◌≡◌, Some, [], map, option_map, is_some, bytes_eq, codes};
ghost use Rattle.std.specs.List.{list_all, list_any};
ghost use Rattle.toml.specs.Data.{as_table};
ghost use Rattle.toml.specs.View.{view, table_view};
ghost use Rattle.roster.specs.Wrong.{wrong, first, found_fault, has_text, keys_wrong, unknown_key, top_fault, top_wrong, node_wrong, server_wrong, each_wrong, ntp_wrong, servers_wrong, document_wrong, is_duplicate, is_tables, servers_in};
ghost use Rattle.roster.specs.Seen.{asked, seen};

use crate::document::{NODE, SERVER, has_text, member, text_at};
use crate::keys::{Key, NODE_KEYS, SERVER_KEYS};
use crate::values::fault;
use crate::{MAX_NTP, MAX_SERVERS, RosterCause};
use std::cmp::Ordering;
use toml::{Table, Value};

/// The table that a wrong key is in, or is missing in.
#[derive(Clone, Copy)]
pub(crate) enum Section {
    /// The whole file, of which no key is named.
    File,
    /// The top of the document.
    Top,
    /// The table `node`.
    Node,
    /// The server at this position, from 0.
    Server(usize),
}

/// A wrong key.
#[derive(Clone, Copy)]
pub(crate) struct Found<'a> {
    /// The table that it is in.
    pub(crate) within: Section,
    /// Its name.
    pub(crate) key: &'a str,
    /// What is wrong with it.
    pub(crate) cause: RosterCause,
}

/// The first wrong key of a document.
pub(crate) fn document_wrong(document: &Table) -> Option<Found<'_>>
    ensures { option_map seen result ≡ document_wrong (table_view document.now) }
{
    if let Some(found) = top_wrong(document) {
        return Some(found);
    }
    if let Some(found) = node_wrong(document) {
        return Some(found);
    }
    servers_wrong(servers(document))
}

/// The servers of a document, none where the key is absent.
pub(crate) fn servers(document: &Table) -> &[Value]
    ensures { map view result.now ≡ servers_in (table_view document.now) }
{
    match member(document, SERVER) {
        Some(value) => match value.as_array() {
            Some(servers) => servers.as_slice(),
            None => &[],
        },
        None => &[],
    }
}

/// The first wrong key of the top: the keys in order, and `node` at its place also where it is missing.
fn top_wrong(document: &Table) -> Option<Found<'_>>
    ensures { option_map seen result ≡ top_wrong (table_view document.now) }
{
    let mut node_is_passed = false;
    for (key, value) in document {
        let key = key.as_str();
        if !node_is_passed {
            match key.cmp(NODE) {
                Ordering::Less => {}
                Ordering::Equal => node_is_passed = true,
                Ordering::Greater => return Some(top(NODE, RosterCause::Missing)),
            }
        }
        if let Some(cause) = top_fault(key, value) {
            return Some(top(key, cause));
        }
    }
    if node_is_passed {
        None
    } else {
        Some(top(NODE, RosterCause::Missing))
    }
}

/// A wrong key of the top.
fn top(key: &str, cause: RosterCause) -> Found<'_>
    ensures { seen result ≡ wrong Section.Top key.now cause }
{
    Found {
        within: Section::Top,
        key,
        cause,
    }
}

/// What is wrong with a key of the top.
fn top_fault(key: &str, value: &Value) -> Option<RosterCause>
    ensures { result ≡ top_fault key.now (Some (view value.now)) }
{
    let is_right = match key {
        NODE => value.is_table(),
        SERVER => is_tables(value),
        _ => return Some(RosterCause::Unknown),
    };
    if is_right {
        None
    } else {
        Some(RosterCause::Kind)
    }
}

/// Whether a value is an array of tables.
fn is_tables(value: &Value) -> bool
    ensures { result ≡ is_tables (view value.now) }
{
    match value.as_array() {
        Some(items) => are_tables(items),
        None => false,
    }
}

/// Whether each value is a table.
fn are_tables(values: &[Value]) -> bool
    ensures { result ≡ list_all (λ v. is_some (as_table (view v))) values.now }
{
    values.iter().all(|value| value.is_table())
}

/// The first wrong key of the table `node`.
fn node_wrong(document: &Table) -> Option<Found<'_>>
    ensures { option_map seen result ≡ node_wrong (table_view document.now) }
{
    let node = member(document, NODE)?.as_table()?;
    keys_wrong(Section::Node, &NODE_KEYS, node)
}

/// The first wrong key of a table: its known keys in order, then any other.
fn keys_wrong<'a>(within: Section, keys: &[Key], table: &'a Table) -> Option<Found<'a>>
    ensures { option_map seen result ≡ first (keys_wrong within (map asked keys.now) (table_view table.now)) }
{
    for key in keys {
        if let Some(cause) = found_fault(key, member(table, key.name)) {
            return Some(Found {
                within,
                key: key.name,
                cause,
            });
        }
    }
    unknown_key(within, keys, table)
}

/// What is wrong with what a key holds.
fn found_fault(key: &Key, value: Option<&Value>) -> Option<RosterCause>
    ensures { result ≡ found_fault (asked key.now) (option_map (λ v. view v.now) value.entry) }
{
    match value {
        Some(value) => fault(key.right, value),
        None if key.required => Some(RosterCause::Missing),
        None => None,
    }
}

/// The first key of a table that is none of these.
fn unknown_key<'a>(within: Section, keys: &[Key], table: &'a Table) -> Option<Found<'a>>
    ensures { option_map seen result ≡ unknown_key within (map asked keys.now) (table_view table.now) }
{
    for key in table.keys() {
        let key = key.as_str();
        if !is_known(keys, key) {
            return Some(Found {
                within,
                key,
                cause: RosterCause::Unknown,
            });
        }
    }
    None
}

/// Whether a name is one of these keys'.
fn is_known(keys: &[Key], name: &str) -> bool
    ensures { result ≡ list_any (λ key. bytes_eq key.name.now name.now) keys.now }
{
    keys.iter().any(|key| key.name == name)
}

/// The first wrong key of the servers.
fn servers_wrong(servers: &[Value]) -> Option<Found<'_>>
    ensures { option_map seen result ≡ servers_wrong (map view servers.now) }
{
    if servers.len() > MAX_SERVERS {
        return Some(top(SERVER, RosterCause::TooMany));
    }
    if let Some(found) = each_wrong(servers) {
        return Some(found);
    }
    ntp_wrong(servers)
}

/// The first wrong key of a server, each with those before it.
fn each_wrong(servers: &[Value]) -> Option<Found<'_>>
    ensures { option_map seen result ≡ each_wrong [] (map view servers.now) }
{
    for (i, server) in servers.iter().enumerate() {
        if let Some(found) = server_wrong(&servers[..i], server) {
            return Some(found);
        }
    }
    None
}

/// The first wrong key of a server behind others.
fn server_wrong<'a>(earlier: &[Value], server: &'a Value) -> Option<Found<'a>>
    ensures { option_map seen result ≡ server_wrong (map view earlier.now) (view server.now) }
{
    let table = server.as_table()?;
    let within = Section::Server(earlier.len());
    if let Some(found) = keys_wrong(within, &SERVER_KEYS, table) {
        return Some(found);
    }
    if is_duplicate(earlier, server) {
        return Some(Found {
            within,
            key: "name",
            cause: RosterCause::Duplicate,
        });
    }
    None
}

/// Whether an earlier server has the name.
fn is_duplicate(earlier: &[Value], server: &Value) -> bool
    ensures { result ≡ is_duplicate (map view earlier.now) (view server.now) }
{
    match text_at(server, "name") {
        Some(name) => one_has_name(earlier, name),
        None => false,
    }
}

/// Whether one of the servers has this name.
fn one_has_name(servers: &[Value], name: &str) -> bool
    ensures { result ≡ list_any (λ v. has_text (codes "name") name.now (view v)) servers.now }
{
    servers.iter().any(|server| has_text(server, "name", name))
}

/// The first server of the kind `ntp` past the most.
fn ntp_wrong(servers: &[Value]) -> Option<Found<'_>>
    ensures { option_map seen result ≡ ntp_wrong (map view servers.now) }
{
    let mut left = MAX_NTP;
    for (i, server) in servers.iter().enumerate() {
        if has_text(server, "kind", "ntp") {
            if left == 0 {
                return Some(Found {
                    within: Section::Server(i),
                    key: "kind",
                    cause: RosterCause::TooMany,
                });
            }
            left -= 1;
        }
    }
    None
}
