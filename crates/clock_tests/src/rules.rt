use assertions::assert_at;
use dts_base::Interval;
use slew_clock::{Rates, read_at, start};
use std::test::Fail;
use sync_rules::*;

// Where the first interval is wrong, or the oscillator drifts by more than it states, a reading can exclude true
// time: such worlds are not honest, and no promise covers them.
#[test]
fn a_reading_excludes_true_time_in_worlds_that_are_not_honest(rt: HostRuntime) -> Result<(), Fail> {
    every_history_is_safe();
    histories_can_be_honest();
    reads_give_readings();
    readings_are_exact();
    let first = Interval {
        lo: 999_000,
        hi: 1_001_000,
    };
    let record = start(0, 1_000_000, Some(first));
    for (osc, true_time, why) in [
        (
            0,
            1_002_002,
            "true time at the start is above the first interval",
        ),
        (
            10_000_000,
            11_012_000,
            "the oscillator lost more than a tenth of a percent",
        ),
    ] {
        let reading = read_at(&Rates::usual(), &record, osc)
            .ok()
            .ok_or("it is live")?;
        let inaccuracy = reading.inaccuracy.ok_or("it is specified")? as i64;
        assert_at!(rt; why,
            reading.value.abs_diff(true_time) > inaccuracy as u64,
        );
    }
    Ok(())
}
