//! Whom a round asks, over every combination of settings, rounds and rosters, against a plain statement over the servers'
//! names.

use assertions::{assert_equal, assert_equal_at};
use roster::Roster;
use server_roles::sources;
use std::alloc::Global;
use std::test::Fail;

// A server of a roster: its name and its kind.
type Server = (&'static str, &'static str);

// The name of the node.
const OWN: &str = "me";

static ROSTERS: [&[Server]; 8] = [
    &[],
    &[("l1", "local"), ("l2", "local")],
    &[("l1", "local"), ("me", "local"), ("l2", "local")],
    &[
        ("l1", "local"),
        ("l2", "local"),
        ("g1", "global"),
        ("g2", "global"),
    ],
    &[
        ("g1", "global"),
        ("l1", "local"),
        ("me", "local"),
        ("g2", "global"),
        ("l2", "local"),
    ],
    &[
        ("me", "global"),
        ("g1", "global"),
        ("l1", "local"),
        ("l2", "local"),
        ("g2", "global"),
        ("g3", "global"),
    ],
    &[("me", "global"), ("l1", "local"), ("l2", "local")],
    &[
        ("l1", "local"),
        ("me", "ntp"),
        ("g1", "global"),
        ("l2", "local"),
        ("n1", "ntp"),
    ],
];

// A node: its role, whether it is a courier, and the answers that its rounds need.
#[derive(Clone, Copy)]
struct Node {
    role: &'static str,
    courier: bool,
    required: u32,
}

fn roster_of(alloc: Global, node: Node, servers: &[Server]) -> Result<Roster, Fail> {
    let (role, courier, required) = (node.role, node.courier, node.required);
    let mut text = format!(in alloc;
        "[node]\nname = \"{OWN}\"\nrole = \"{role}\"\ncourier = {courier}\nrequired = {required}\n"
    )?;
    for (port, (name, kind)) in servers.iter().enumerate() {
        let server = format!(in alloc;
            "[[server]]\nname = \"{name}\"\nkind = \"{kind}\"\naddress = \"10.0.0.1:7{port}\"\n"
        )?;
        text.push_str(server.as_str())?;
    }
    Ok(Roster::read(alloc, text.as_bytes())?)
}

// The places of the servers of a kind, without the node itself.
fn of_kind(alloc: Global, servers: &[Server], kind: &str) -> Result<Vec<u64>, Fail> {
    let mut places = Vec::new(alloc);
    for (place, (name, its_kind)) in servers.iter().enumerate() {
        if *its_kind == kind && (kind == "ntp" || *name != OWN) {
            places.push(place as u64)?;
        }
    }
    Ok(places)
}

// Who is to be asked. A courier goes round the global servers, one step for each round.
fn wanted(
    alloc: Global,
    node: Node,
    servers: &[Server],
    round: u64,
    last: u32,
) -> Result<Vec<u64>, Fail> {
    let mut asked = of_kind(alloc, servers, "ntp")?;
    if !asked.is_empty() {
        return Ok(asked);
    }
    asked = of_kind(alloc, servers, "local")?;
    let globals = of_kind(alloc, servers, "global")?;
    let few = (asked.len() as u64) < u64::from(node.required);
    let used_few = round != 1 && last < node.required;
    if few || used_few {
        asked.extend_from_slice(&globals)?;
    } else if node.role == "server" && node.courier {
        let mut turn = 0_usize;
        for _ in 1..round {
            turn = turn.saturating_add(1);
            if turn == globals.len() {
                turn = 0;
            }
        }
        if let Some(global) = globals.get(turn) {
            asked.push(*global)?;
        }
    }
    Ok(asked)
}

fn found(
    alloc: Global,
    node: Node,
    servers: &[Server],
    round: u64,
    last: u32,
) -> Result<Vec<u64>, Fail> {
    let roster = roster_of(alloc, node, servers)?;
    let peers = sources(alloc, &roster, round.max(1), last)?;
    let mut places = Vec::new(alloc);
    for peer in &peers {
        places.push(u64::from(*peer))?;
    }
    Ok(places)
}

#[test]
fn every_round_asks_whom_the_settings_say(rt: HostRuntime) -> Result<(), Fail> {
    let alloc = rt.alloc();
    let mut tried = 0_u32;
    for servers in ROSTERS {
        for role in ["clerk", "server"] {
            for courier in [false, true] {
                for required in [1, 2, 3] {
                    let node = Node {
                        role,
                        courier,
                        required,
                    };
                    for round in [1, 2, 3] {
                        for last in [required - 1, required, required + 1] {
                            let asked = found(alloc, node, servers, round, last)?;
                            let right = wanted(alloc, node, servers, round, last)?;
                            assert_equal!(rt; asked.as_slice(), right.as_slice());
                            tried = tried.saturating_add(1);
                        }
                    }
                }
            }
        }
    }
    assert_equal!(rt; tried, 864);
    Ok(())
}

#[test]
fn the_worked_rounds_of_a_courier(rt: HostRuntime) -> Result<(), Fail> {
    let courier = Node {
        role: "server",
        courier: true,
        required: 2,
    };
    // The round, the answers that the round before used, and who is asked.
    let rows: [(u64, u32, &[u64]); 6] = [
        (1, 0, &[0, 1, 2]),
        (2, 2, &[0, 1, 3]),
        (3, 2, &[0, 1, 2]),
        (2, 1, &[0, 1, 2, 3]),
        (3, 0, &[0, 1, 2, 3]),
        (u64::MAX, 2, &[0, 1, 2]),
    ];
    for (round, last, right) in rows {
        let asked = found(rt.alloc(), courier, ROSTERS[3], round, last)?;
        assert_equal_at!(rt; (round, last), asked.as_slice(), right);
    }
    Ok(())
}
