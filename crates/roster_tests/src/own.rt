//! The interval that a node's own clock brings into a round.

use assertions::assert_equal;
use dts_base::Interval;
use roster::Roster;
use server_roles::own_source;
use slew_clock::{GREATEST_ANCHOR, start, stepped};
use std::alloc::Global;
use std::test::Fail;

// The own interval at once, of a node of this role whose clock was anchored to an interval, where it can be.
fn brought(alloc: Global, role: &str, anchor: Option<Interval>) -> Result<Option<Interval>, Fail> {
    let text = format!(in alloc; "[node]\nname = \"me\"\nrole = \"{role}\"\n")?;
    let roster = Roster::read(alloc, text.as_bytes())?;
    let rates = roster.rates();
    let first = start(0, 1_000_000, None);
    let Some(interval) = anchor else {
        return Ok(own_source(&roster, &first, 0));
    };
    match stepped(&rates, &first, 0, interval) {
        Ok(rec) => Ok(own_source(&roster, &rec, 0)),
        Err(_) => Ok(None),
    }
}

#[test]
fn a_server_brings_the_interval_of_its_clock(rt: HostRuntime) -> Result<(), Fail> {
    let alloc = rt.alloc();
    let anchor = Interval {
        lo: 999_000,
        hi: 1_001_000,
    };
    // The high end is one unit later at once: the oscillator may have just counted.
    let own = Interval {
        lo: 999_000,
        hi: 1_001_001,
    };
    assert_equal!(rt; brought(alloc, "server", Some(anchor))?, Some(own));
    assert_equal!(rt; brought(alloc, "clerk", Some(anchor))?, None);
    assert_equal!(rt; brought(alloc, "server", None)?, None);
    assert_equal!(rt; brought(alloc, "clerk", None)?, None);
    Ok(())
}

#[test]
fn its_high_end_is_at_most_the_greatest_anchor(rt: HostRuntime) -> Result<(), Fail> {
    let alloc = rt.alloc();
    let below = Interval {
        lo: 0,
        hi: GREATEST_ANCHOR - 1,
    };
    let at = Interval {
        lo: 0,
        hi: GREATEST_ANCHOR,
    };
    assert_equal!(rt; brought(alloc, "server", Some(below))?, Some(at));
    assert_equal!(rt; brought(alloc, "server", Some(at))?, None);
    Ok(())
}
