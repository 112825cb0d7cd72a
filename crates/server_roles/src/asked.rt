ghost use Rattle.std.specs.Prelude.{◌≡◌, ◌≤◌, ◌<◌, length, IfOk};
ghost use Rattle.roster.specs.Rosters.{is_kind};
ghost use Rattle.roster.specs.declared.entry.ServerKind.TheVariants as kind;
ghost use Rattle.server_roles.specs.Sources.{sources, ntp_servers, needs_globals, is_courier, in_turn};

use dts_base::NoMemory;
use roster::{Entry, Role, Roster, ServerKind, Settings};
use std::alloc::Global;

/// The peers that a round asks, in order. Where the roster has NTP servers, they are asked. Else the local servers come
/// first. All global ones follow where the locals are fewer than the round needs, or where the round before used fewer
/// answers than it needs: `last` are the answers that it used. Else a server that is a courier asks one global server,
/// which are taken in turn by the number of the round. A node never asks the entry of its own name, but an NTP server.
pub fn sources(alloc: Global, r: &Roster, round: u64, last: u32) -> Result<Vec<u32>, NoMemory>
    requires round { 1 ≤ round }
    ensures sources { IfOk result (λ peers. peers.items ≡ sources r.now round last) }
{
    let ntp = ntp_servers(alloc, r)?;
    if !ntp.is_empty() {
        return Ok(ntp);
    }
    let mut peers = r.locals(alloc)?;
    let globals = r.globals(alloc)?;
    let settings = r.settings();
    if needs_globals(settings, round, last, peers.len()) {
        peers.extend_from_slice(&globals)?;
    } else if is_courier(settings) {
        peers.extend_from_slice(in_turn(round, &globals))?;
    }
    Ok(peers)
}

// The peer numbers of the NTP servers.
fn ntp_servers(alloc: Global, r: &Roster) -> Result<Vec<u32>, NoMemory>
    ensures { IfOk result (λ peers. peers.items ≡ ntp_servers r.now) }
{
    let mut peers = Vec::new(alloc);
    for peer in 0..r.servers() as u32 {
        if let Some(entry) = r.server(peer) {
            if is_ntp(entry) {
                peers.push(peer)?;
            }
        }
    }
    Ok(peers)
}

// Whether a server is an NTP server.
fn is_ntp(entry: &Entry) -> bool
    ensures { result ≡ is_kind kind.Ntp entry.now.kind }
{
    matches!(entry.kind, ServerKind::Ntp)
}

// Whether a round with so many local servers needs the global ones too.
fn needs_globals(settings: &Settings, round: u64, last: u32, locals: usize) -> bool
    ensures { result ≡ needs_globals settings.now round last locals }
{
    locals < settings.required as usize || (round > 1 && last < settings.required)
}

// Whether a node is a server that is a courier.
fn is_courier(settings: &Settings) -> bool
    ensures { result ≡ is_courier settings.now }
{
    matches!(settings.role, Role::Server) && settings.courier
}

// The global server whose turn it is, where there is one.
fn in_turn(round: u64, globals: &[u32]) -> &[u32]
    requires { 1 ≤ round }
    ensures { result.now ≡ in_turn round globals.now }
{
    if globals.is_empty() {
        return globals;
    }
    let turn = ((round - 1) % globals.len() as u64) as usize;
    &globals[turn..turn + 1]
}
