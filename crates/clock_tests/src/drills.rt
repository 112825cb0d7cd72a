use assertions::{assert_equal, assert_equal_at};
use dts_base::MemorySink;
use event_drill::{DrillStop, MAX_EVENTS, drill};
use std::alloc::Global;
use std::io::Eprint;
use std::process::Abort;
use std::test::Fail;

// Drills into memory, with a sink that fails at the calls of these numbers, and compares the end and the line.
fn judge(
    rt: &(impl Abort + Eprint),
    alloc: Global,
    seed: u32,
    events: u16,
    fail: &[u64],
    ended: Result<(), DrillStop>,
    line: &str,
) -> Result<(), Fail> {
    let mut output = MemorySink::new(alloc, fail)?;
    let got = drill(alloc, seed, u32::from(events), &mut output);
    assert_equal_at!(rt; (seed, events), got, ended);
    assert_equal_at!(rt; (seed, events), output.written(), line.as_bytes());
    Ok(())
}

// The lines are those of the plain program bench/peer/drill.rs.
#[test]
fn drills_give_their_summaries(rt: HostRuntime) -> Result<(), Fail> {
    for (seed, events, line) in [
        (
            1,
            0,
            "drill seed 1 events 0 records 1 steps 0 readings 0 unspecified 0 adopted 0 split 0 short 0 false 0\n",
        ),
        (
            1,
            1,
            "drill seed 1 events 1 records 2 steps 0 readings 0 unspecified 0 adopted 0 split 0 short 0 false 0\n",
        ),
        (
            7,
            100,
            "drill seed 7 events 100 records 7 steps 0 readings 35 unspecified 0 adopted 3 split 0 short 0 false 0\n",
        ),
        (
            4_294_967_295,
            1000,
            "drill seed 4294967295 events 1000 records 57 steps 2 readings 340 unspecified 0 adopted 30 split 1 short 0 false 15\n",
        ),
    ] {
        judge(&rt, rt.alloc(), seed, events, &[], Ok(()), line)?;
    }
    judge(&rt, rt.alloc(), 1, 1, &[1], Err(DrillStop::Write), "")
}

#[test]
fn a_million_events_give_their_summary(rt: HostRuntime) -> Result<(), Fail> {
    let mut output = MemorySink::new(rt.alloc(), &[])?;
    assert_equal!(rt; drill(rt.alloc(), 7, MAX_EVENTS, &mut output), Ok(()));
    let line =
        "drill seed 7 events 1000000 records 61433 steps 1928 readings 324461 unspecified 0 adopted 35644 split 689 short 0 false 14987\n";
    assert_equal!(rt; output.written(), line.as_bytes());
    Ok(())
}
