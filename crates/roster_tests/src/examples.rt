//! The rosters of `examples/rosters`, word for word.

use assertions::assert_equal;
use roster::*;
use server_roles::sources;
use std::alloc::Global;
use std::io::Eprint;
use std::process::Abort;
use std::test::Fail;

const CLERK: &str =
    "# A clerk that asks three servers of its own network, and needs answers of two.\n[node]\nname = \"desk-7\"\nrole = \"clerk\"\nrequired = 2\n\n[[server]]\nname = \"time-1\"\nkind = \"local\"\naddress = \"10.0.0.1:7000\"\n\n[[server]]\nname = \"time-2\"\nkind = \"local\"\naddress = \"10.0.0.2:7000\"\n\n[[server]]\nname = \"time-3\"\nkind = \"local\"\naddress = \"10.0.0.3:7000\"\n";

const SERVER: &str =
    "# A server that is its network's courier: it asks the other local server in each round, and the global ones in turn.\n[node]\nname = \"time-1\"\nrole = \"server\"\ncourier = true\nlisten = \"10.0.0.1:7000\"\n\n[[server]]\nname = \"time-1\"\nkind = \"local\"\naddress = \"10.0.0.1:7000\"\n\n[[server]]\nname = \"time-2\"\nkind = \"local\"\naddress = \"10.0.0.2:7000\"\n\n[[server]]\nname = \"far-1\"\nkind = \"global\"\naddress = \"10.1.0.1:7000\"\n\n[[server]]\nname = \"far-2\"\nkind = \"global\"\naddress = \"10.2.0.1:7000\"\n";

const NTP: &str =
    "# A clerk that asks NTP servers. Where a roster has one of these, it asks them alone.\n[node]\nname = \"gate\"\nrequired = 2\n\n[[server]]\nname = \"ntp-1\"\nkind = \"ntp\"\naddress = \"192.0.2.1:123\"\n\n[[server]]\nname = \"ntp-2\"\nkind = \"ntp\"\naddress = \"192.0.2.2:123\"\n\n[[server]]\nname = \"ntp-3\"\nkind = \"ntp\"\naddress = \"192.0.2.3:123\"\n";

// Whom the first round of a roster asks.
fn expect(
    rt: &(impl Abort + Eprint),
    alloc: Global,
    text: &str,
    asked: &[u32],
) -> Result<(), Fail> {
    let roster = Roster::read(alloc, text.as_bytes())?;
    let peers = sources(alloc, &roster, 1, 0)?;
    assert_equal!(rt; peers.as_slice(), asked);
    Ok(())
}

#[test]
fn the_examples_are_read(rt: HostRuntime) -> Result<(), Fail> {
    expect(&rt, rt.alloc(), CLERK, &[0, 1, 2])?;
    expect(&rt, rt.alloc(), SERVER, &[1, 2])?;
    expect(&rt, rt.alloc(), NTP, &[0, 1, 2])
}
