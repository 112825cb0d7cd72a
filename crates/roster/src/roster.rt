ghost use Rattle.std.specs.Prelude.{◌≡◌, ◌≤◌, length, [], None, Some, true, codes, option_and_then, IfOk};
ghost use Rattle.toml.specs.Data.{as_table, get_member};
ghost use Rattle.roster.specs.declared.keys.Right.TheVariants as right;
ghost use Rattle.roster.specs.Keys.{asked_of, node_keys};
ghost use Rattle.toml.specs.View.{table_view};
ghost use Rattle.roster.specs.Wrong as doc;
ghost use Rattle.roster.specs.Wrong.{wrong, positions_from};
ghost use Rattle.roster.specs.Seen.{seen, AreRight, HoldsRight};
ghost use Rattle.roster.specs.Rosters.{GivesRoster, IsFaultOf, is_other, string_at};

use crate::document::{NODE, member};
use crate::first_wrong::{Found, Section, document_wrong, servers};
use crate::path::path;
use crate::reading::{entries, settings};
use crate::*;
use dts_base::{NoMemory, Text};
use slew_clock::Rates;
use std::alloc::Global;
use std::marker::Model;
use toml::Table;

/// A roster: the settings of a node and its servers, in the order of the file. Clauses see the two.
#[derive(Debug, Drop)]
pub struct Roster {
    settings: Settings,
    entries: Vec<Entry>,
}

impl Model for Roster {
    ghost use Rattle.std.specs.Prelude.{◌≤◌, length};
    ghost use Rattle.roster.specs.declared.limits.TheConstants.{MAX_SERVERS};
    ghost use Rattle.roster.specs.RosterData.{RosterData};

    ghost Value = { RosterData };

    ghost view = { λ r. record { settings = r.settings; entries = r.entries.items } };

    ghost invariant = { λ r. length r.entries.items ≤ MAX_SERVERS };
}

impl Roster {
    ghost use Rattle.std.specs.Prelude.{[], IfErr};
    ghost use Rattle.std.specs.Option.{option_copied};
    ghost use Rattle.std.specs.List.{slice_get};
    ghost use Rattle.roster.specs.declared.entry.ServerKind.TheVariants as kind;
    ghost use Rattle.roster.specs.Rosters.{IsRoster, Refuses, GivesSettings, alone, others};
    ghost use Rattle.roster.specs.Rates.{rates_of};
    ghost use Rattle.slew_clock.specs.UsualRates.{usual_rates};

    /// The roster that the octets of a file are, or their first wrong key: the path of it, as `node.period` or
    /// `server.0.name`, and the reason. The file as a whole is tested first, then the keys of the top in ascending order,
    /// then those of the node and of each server in the order of their table, each table's unknown keys last.
    pub fn read(alloc: Global, b: &[u8]) -> Result<Roster, RosterFault>
        // Ok is exactly where no key is wrong, and gives the settings and the servers of the document.
        ensures roster { IfOk result (IsRoster b.now) }

        // Wrong is exactly the first wrong key.
        ensures refused { IfErr result (Refuses b.now) }
    {
        if b.len() > MAX_OCTETS {
            return Err(whole(alloc, RosterCause::Long));
        }
        let document = match toml::table_from_slice(alloc, b) {
            Ok(document) => document,
            Err(e) if e.is_memory() => return Err(RosterFault::NoMemory),
            Err(_) => return Err(whole(alloc, RosterCause::Document)),
        };
        match document_wrong(&document) {
            Some(found) => Err(refusal(alloc, &found)),
            None => Ok(roster_in(alloc, &document)?),
        }
    }

    /// The roster of a node alone: the name `node`, the role of a clerk, every default, and no server.
    pub fn empty(alloc: Global) -> Result<Roster, NoMemory>
        ensures settings { IfOk result (λ r. GivesSettings alone r.settings) }
        ensures servers { IfOk result (λ r. r.entries ≡ []) }
        ensures rates { IfOk result (λ r. rates_of r.settings ≡ usual_rates) }
    {
        Ok(Roster {
            settings: settings(Text::from_slice(alloc, b"node")?, &Table::new(alloc)),
            entries: Vec::new(alloc),
        })
    }

    /// An equal roster.
    pub fn copy(&self, alloc: Global) -> Result<Roster, NoMemory>
        ensures copy { IfOk result (λ r. r ≡ self.now) }
    {
        Ok(Roster {
            settings: copy_settings(alloc, &self.settings)?,
            entries: copy_entries(alloc, &self.entries)?,
        })
    }

    /// How many servers there are.
    pub fn servers(&self) -> usize
        ensures servers { result ≡ length self.now.entries }
        ensures most { result ≤ MAX_SERVERS }
    {
        self.entries.len()
    }

    /// The server of a peer number, which is its position from 0.
    pub fn server(&self, peer: u32) -> Option<&Entry>
        ensures server { option_copied result ≡ slice_get self.now.entries peer }
    {
        self.entries.get(peer as usize)
    }

    /// The settings of the node.
    pub fn settings(&self) -> &Settings
        ensures settings { result.now ≡ self.now.settings }
    {
        &self.settings
    }

    /// The rates of the node's clock.
    pub fn rates(&self) -> Rates
        ensures rates { result ≡ rates_of self.now.settings }
    {
        let s = &self.settings;
        Rates {
            drift_ppm: s.drift_ppm,
            resolution: s.resolution,
            lease: s.lease,
            slew_ppm: s.slew_ppm,
            tolerance: s.tolerance,
        }
    }

    /// The peer numbers of the local servers, in order, without the entry of the node's own name.
    pub fn locals(&self, alloc: Global) -> Result<Vec<u32>, NoMemory>
        ensures locals { IfOk result (λ peers. peers.items ≡ others kind.Local self.now) }
    {
        others(alloc, &self.entries, &self.settings.name, ServerKind::Local)
    }

    /// The peer numbers of the global servers, in order, without the entry of the node's own name.
    pub fn globals(&self, alloc: Global) -> Result<Vec<u32>, NoMemory>
        ensures globals { IfOk result (λ peers. peers.items ≡ others kind.Global self.now) }
    {
        others(
            alloc,
            &self.entries,
            &self.settings.name,
            ServerKind::Global,
        )
    }
}

// The peer numbers of the servers of a kind, without the entry of the node's own name.
fn others(
    alloc: Global,
    entries: &[Entry],
    own: &Text,
    kind: ServerKind,
) -> Result<Vec<u32>, NoMemory>
    requires { length entries.now ≤ MAX_SERVERS }
    ensures { IfOk result (λ peers. peers.items ≡ positions_from 0 (is_other kind own.now) entries.now) }
{
    let mut peers = Vec::new(alloc);
    for (i, entry) in entries.iter().enumerate() {
        if is_other(entry, own, kind) {
            peers.push(i as u32)?;
        }
    }
    Ok(peers)
}

// Whether a server is of a kind and has another name than the node.
fn is_other(entry: &Entry, own: &Text, kind: ServerKind) -> bool
    ensures { result ≡ is_other kind own.now entry.now }
{
    let is_kind = match (kind, entry.kind) {
        (ServerKind::Local, ServerKind::Local)
        | (ServerKind::Global, ServerKind::Global)
        | (ServerKind::Ntp, ServerKind::Ntp) => true,
        _ => false,
    };
    is_kind && entry.name != *own
}

// Equal servers.
fn copy_entries(alloc: Global, entries: &[Entry]) -> Result<Vec<Entry>, NoMemory>
    ensures copy { IfOk result (λ copies. copies.items ≡ entries.now) }
{
    let mut copies = Vec::with_capacity(alloc, entries.len())?;
    for entry in entries {
        copies.push(copy_entry(alloc, entry)?)?;
    }
    Ok(copies)
}

// An equal server.
fn copy_entry(alloc: Global, entry: &Entry) -> Result<Entry, NoMemory>
    ensures copy { IfOk result (λ e. e ≡ entry.now) }
{
    Ok(Entry {
        name: Text::from_slice(alloc, entry.name.as_slice())?,
        kind: entry.kind,
        address: entry.address,
    })
}

// Equal settings.
fn copy_settings(alloc: Global, s: &Settings) -> Result<Settings, NoMemory>
    ensures copy { IfOk result (λ t. t ≡ s.now) }
{
    Ok(Settings {
        name: Text::from_slice(alloc, s.name.as_slice())?,
        role: s.role,
        courier: s.courier,
        listen: s.listen,
        epoch: s.epoch,
        required: s.required,
        period: s.period,
        hold: s.hold,
        timeout: s.timeout,
        max_inaccuracy: s.max_inaccuracy,
        drift_ppm: s.drift_ppm,
        resolution: s.resolution,
        lease: s.lease,
        slew_ppm: s.slew_ppm,
        tolerance: s.tolerance,
    })
}

// The roster of a document of which no key is wrong.
fn roster_in(alloc: Global, document: &Table) -> Result<Roster, NoMemory>
    requires { doc.document_wrong (table_view document.now) ≡ None }
    ensures { IfOk result (GivesRoster (table_view document.now)) }
{
    let node = node_table(document);
    let name = Text::from_slice(alloc, name_in(node).as_bytes())?;
    Ok(Roster {
        settings: settings(name, node),
        entries: entries(alloc, servers(document))?,
    })
}

// The table of the node in a document of which no key is wrong.
fn node_table(document: &Table) -> &Table
    requires { doc.document_wrong (table_view document.now) ≡ None }
    ensures node { option_and_then as_table (get_member (codes "node") (table_view document.now)) ≡ Some (table_view result.now) }
    ensures right { AreRight (asked_of node_keys) (table_view result.now) }
{
    member(document, NODE).unwrap().as_table().unwrap()
}

// The name of a node.
fn name_in(node: &Table) -> &str
    requires { HoldsRight (codes "name") right.Name true (table_view node.now) }
    ensures { string_at (table_view node.now) (codes "name") ≡ Some result.now }
{
    member(node, "name").unwrap().as_str().unwrap()
}

// The refusal of the whole file.
fn whole(alloc: Global, cause: RosterCause) -> RosterFault
    ensures { IsFaultOf (wrong Section.File [] cause) result }
{
    refusal(
        alloc,
        &Found {
            within: Section::File,
            key: "",
            cause,
        },
    )
}

// The refusal of a wrong key.
fn refusal(alloc: Global, found: &Found) -> RosterFault
    ensures { IsFaultOf (seen found.now) result }
{
    match path(alloc, found) {
        Ok(path) => RosterFault::Wrong {
            path,
            cause: found.cause,
        },
        Err(fault) => fault.into(),
    }
}
