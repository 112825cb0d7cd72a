//! What refuses a roster's text, in words.

use assertions::assert_equal;
use roster::*;
use std::alloc::Global;
use std::io::Eprint;
use std::process::Abort;
use std::test::Fail;

// What refuses a text, as `PATH: CAUSE`, or `accepted`.
fn verdict(alloc: Global, text: &[u8]) -> Result<String, Fail> {
    match Roster::read(alloc, text) {
        Ok(_) => Ok(String::from_str(alloc, "accepted")?),
        Err(RosterFault::Wrong { path, cause }) => refusal(alloc, path.as_slice(), cause),
        Err(RosterFault::NoMemory) => Ok(String::from_str(alloc, "no memory")?),
    }
}

fn refusal(alloc: Global, path: &[u8], cause: RosterCause) -> Result<String, Fail> {
    let path = std::str::from_utf8(path).unwrap_or("?");
    Ok(format!(in alloc; "{path}: {cause:?}")?)
}

pub(crate) fn expect(
    rt: &(impl Abort + Eprint),
    alloc: Global,
    text: &[u8],
    wanted: &str,
) -> Result<(), Fail> {
    let found = verdict(alloc, text)?;
    assert_equal!(rt; found.as_str(), wanted);
    Ok(())
}

// A node's line behind its name.
pub(crate) fn expect_of_line(
    rt: &(impl Abort + Eprint),
    alloc: Global,
    line: &str,
    wanted: &str,
) -> Result<(), Fail> {
    let text = format!(in alloc; "[node]\nname = \"a\"\n{line}\n")?;
    expect(rt, alloc, text.as_bytes(), wanted)
}
