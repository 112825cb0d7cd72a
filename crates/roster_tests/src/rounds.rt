use assertions::assert_equal;
use roster::*;
use server_roles::sources;
use std::alloc::Global;
use std::io::Eprint;
use std::process::Abort;
use std::test::Fail;

// Whom a node with these keys and servers asks in a round.
fn expect(
    rt: &(impl Abort + Eprint),
    alloc: Global,
    text: &str,
    round: u64,
    last: u32,
    wanted: &[u32],
) -> Result<(), Fail> {
    let roster = Roster::read(alloc, text.as_bytes())?;
    let asked = sources(alloc, &roster, round.max(1), last)?;
    assert_equal!(rt; asked.as_slice(), wanted);
    Ok(())
}

const SERVERS: &str = "[[server]]\nname = \"l1\"\nkind = \"local\"\naddress = \"1.2.3.4:1\"\n\
[[server]]\nname = \"l2\"\nkind = \"local\"\naddress = \"1.2.3.4:2\"\n\
[[server]]\nname = \"g1\"\nkind = \"global\"\naddress = \"1.2.3.4:3\"\n\
[[server]]\nname = \"g2\"\nkind = \"global\"\naddress = \"1.2.3.4:4\"\n";

#[test]
fn a_courier_asks_a_global_server_in_turn(rt: HostRuntime) -> Result<(), Fail> {
    // The node's keys, the round, the answers that the round before used, and who is asked.
    let rows: [(&str, u64, u32, &[u32]); 15] = [
        (
            "role = \"server\"\ncourier = true\nrequired = 2",
            1,
            0,
            &[0, 1, 2],
        ),
        (
            "role = \"server\"\ncourier = true\nrequired = 2",
            2,
            2,
            &[0, 1, 3],
        ),
        (
            "role = \"server\"\ncourier = true\nrequired = 2",
            2,
            1,
            &[0, 1, 2, 3],
        ),
        (
            "role = \"server\"\ncourier = true\nrequired = 2",
            3,
            2,
            &[0, 1, 2],
        ),
        (
            "role = \"server\"\ncourier = true\nrequired = 3",
            1,
            0,
            &[0, 1, 2, 3],
        ),
        (
            "role = \"server\"\ncourier = false\nrequired = 2",
            1,
            0,
            &[0, 1],
        ),
        (
            "role = \"server\"\ncourier = false\nrequired = 2",
            2,
            2,
            &[0, 1],
        ),
        (
            "role = \"server\"\ncourier = false\nrequired = 2",
            2,
            1,
            &[0, 1, 2, 3],
        ),
        (
            "role = \"clerk\"\ncourier = true\nrequired = 2",
            1,
            0,
            &[0, 1],
        ),
        (
            "role = \"clerk\"\ncourier = true\nrequired = 2",
            2,
            2,
            &[0, 1],
        ),
        (
            "role = \"clerk\"\ncourier = true\nrequired = 2",
            2,
            1,
            &[0, 1, 2, 3],
        ),
        (
            "role = \"clerk\"\ncourier = false\nrequired = 2",
            2,
            2,
            &[0, 1],
        ),
        (
            "role = \"clerk\"\ncourier = false\nrequired = 2",
            2,
            1,
            &[0, 1, 2, 3],
        ),
        (
            "role = \"clerk\"\ncourier = false\nrequired = 3",
            1,
            0,
            &[0, 1, 2, 3],
        ),
        (
            "role = \"clerk\"\ncourier = false\nrequired = 3",
            2,
            3,
            &[0, 1, 2, 3],
        ),
    ];
    for (keys, round, last, wanted) in rows {
        let text = format!(in rt.alloc(); "[node]\nname = \"a\"\n{keys}\n{SERVERS}")?;
        expect(&rt, rt.alloc(), text.as_str(), round, last, wanted)?;
    }
    Ok(())
}

#[test]
fn the_own_name_is_not_asked_and_ntp_servers_are_asked_alone(rt: HostRuntime) -> Result<(), Fail> {
    let own = format!(in rt.alloc(); "[node]\nname = \"l1\"\nrole = \"server\"\n{SERVERS}")?;
    expect(&rt, rt.alloc(), own.as_str(), 1, 0, &[1])?;
    let ntp = format!(in rt.alloc();
        "[node]\nname = \"a\"\n{SERVERS}[[server]]\nname = \"n\"\nkind = \"ntp\"\naddress = \"1.2.3.4:123\"\n"
    )?;
    expect(&rt, rt.alloc(), ntp.as_str(), 1, 0, &[4])
}

#[test]
fn the_locals_and_the_globals_are_listed(rt: HostRuntime) -> Result<(), Fail> {
    let text = format!(in rt.alloc(); "[node]\nname = \"a\"\n{SERVERS}")?;
    let roster = Roster::read(rt.alloc(), text.as_bytes())?;
    assert_equal!(rt; roster.locals(rt.alloc())?.as_slice(),
        [0, 1].as_slice(),
    );
    assert_equal!(rt; roster.globals(rt.alloc())?.as_slice(),
        [2, 3].as_slice(),
    );
    Ok(())
}
