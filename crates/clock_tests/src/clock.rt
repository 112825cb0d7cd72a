ghost use Rattle.std.specs.Prelude.{◌≤◌};
ghost use Rattle.slew_clock.specs.Record.{IsSound};
ghost use Rattle.slew_clock.specs.UsualRates.{usual_rates};

use assertions::{assert_equal, assert_equal_at};
use dts_base::Interval;
use slew_clock::{
    Anchor, ClockRecord, GREATEST_ANCHOR, GREATEST_INACCURACY, GREATEST_OSC, GREATEST_TIME,
    MILLION, PartA, PartB, Range, RateRange, Rates, Regressed, anchored, carried, changed,
    changes_keep_the_line, elapsed_time_has_bounds, inaccuracies_are_tightest, interval_at,
    next_records_count_up, read_at, readings_hold_true_time, readings_never_fall, renewed,
    right_answers_stay_right, slew_has_a_bound, start, stepped,
};
use std::alloc::AllocError;
use std::process::Abort;

#[test]
fn a_reading_follows_the_line_and_past_its_end_stands_still(rt: HostRuntime) {
    let first = Some(Interval {
        lo: 999_000,
        hi: 1_001_000,
    });
    let rec = start(0, 1_000_000, first);
    for (osc, value, inaccuracy) in [
        (0u32, 1_000_000, 1_001),
        (10_000_000, 11_000_000, 2_001),
        (50_000_000, 41_000_000, 10_006_001),
    ] {
        let reading = read_at(&Rates::usual(), &rec, u64::from(osc)).expect(&rt, "not regressed");
        let (said, within) = (reading.value, reading.inaccuracy);
        assert_equal_at!(rt; osc, (said, within), (value, Some(inaccuracy)));
        let (step, number, at) = (reading.step, reading.number, reading.osc);
        assert_equal_at!(rt; osc, (step, number, at), (0, 0, u64::from(osc)));
    }
}

#[test]
fn a_reading_without_an_anchor_is_unspecified(rt: HostRuntime) {
    let rec = start(0, 1_000_000, None);
    let reading = read_at(&Rates::usual(), &rec, 5).expect(&rt, "not regressed");
    assert_equal!(rt; (reading.value, reading.inaccuracy), (1_000_005, None));
    assert_equal!(rt; interval_at(&Rates::usual(), &rec, 5), None);
}

#[test]
fn a_reading_below_the_record_is_regressed(rt: HostRuntime) {
    let rec = start(100, 1_000_000, None);
    let regressed = Regressed {
        floor: 100,
        osc: 99,
        number: 0,
    };
    assert_equal!(rt; read_at(&Rates::usual(), &rec, 99), Err(regressed));
}

// A record of a clock that started a tenth of a second ahead of the middle of its first interval.
fn ahead(number: u64, born: u64, a: PartA, b: PartB) -> ClockRecord {
    ClockRecord {
        number,
        step: 0,
        born,
        anchor: Some(Anchor {
            osc: 0,
            lo: 999_000,
            hi: 1_001_000,
        }),
        a,
        b,
    }
}

fn part_a(from: u64, value: i64, x: i64) -> PartA {
    PartA { from, value, x }
}

fn part_b(from: u64, x: i64) -> PartB {
    PartB { from, x }
}

// A record renewed at an oscillator reading.
fn renewed_at(rt: &impl Abort, rec: &ClockRecord, osc: u64) -> ClockRecord
    requires sound { IsSound usual_rates rec.now }
    requires osc { osc ≤ GREATEST_OSC }
    ensures { IsSound usual_rates result }
{
    assert!(rt; rec.number < 10 && rec.born <= osc);
    renewed(&Rates::usual(), rec, osc).expect(rt, "the second part has begun")
}

#[test]
fn a_clock_that_is_ahead_is_slewed_back_over_its_renewals(rt: HostRuntime) {
    let first = Some(Interval {
        lo: 999_000,
        hi: 1_001_000,
    });
    let start = start(0, 2_000_000, first);
    let first = renewed_at(&rt, &start, 0);
    let b = part_b(40_000_000, -400_000);
    assert_equal!(rt; first, ahead(1, 0, part_a(0, 2_000_000, 0), b));
    let second = renewed_at(&rt, &first, 40_000_000);
    let a = part_a(40_000_000, 42_000_000, -400_000);
    let b = part_b(80_000_000, -400_000);
    assert_equal!(rt; second, ahead(2, 40_000_000, a, b));
    let third = renewed_at(&rt, &second, 80_000_000);
    let a = part_a(80_000_000, 81_600_000, -400_000);
    let b = part_b(120_000_000, -200_000);
    assert_equal!(rt; third, ahead(3, 80_000_000, a, b));
    let reading = read_at(&Rates::usual(), &third, 100_000_000).expect(&rt, "not regressed");
    let (value, inaccuracy) = (reading.value, reading.inaccuracy);
    assert_equal!(rt; (value, inaccuracy), (101_400_000, Some(411_001)));
    assert_equal!(rt; (reading.step, reading.number), (0, 3));
    let fourth = renewed_at(&rt, &third, 120_000_000);
    let a = part_a(120_000_000, 121_200_000, -200_000);
    let b = part_b(160_000_000, 0);
    assert_equal!(rt; fourth, ahead(4, 120_000_000, a, b));
}

#[test]
fn a_renewal_differs_before_its_second_part_and_from_its_end_on(rt: HostRuntime) {
    let start = start(0, 2_000_000, None);
    let first = renewed_at(&rt, &start, 0);
    for (osc, parts) in [
        (39_999_999u32, None),
        (
            40_000_000,
            Some((part_a(40_000_000, 42_000_000, 0), part_b(80_000_000, 0))),
        ),
        (
            79_999_999,
            Some((part_a(40_000_000, 42_000_000, 0), part_b(80_000_000, 0))),
        ),
        (
            80_000_000,
            Some((part_a(80_000_000, 82_000_000, 0), part_b(80_000_000, 0))),
        ),
        (
            80_000_001,
            Some((part_a(80_000_001, 82_000_000, 0), part_b(80_000_001, 0))),
        ),
    ] {
        let osc = u64::from(osc);
        assert!(rt; first.number < 10 && first.born <= osc);
        let next = renewed(&Rates::usual(), &first, osc);
        assert_equal_at!(rt; osc, next.map(|next| (next.a, next.b)), parts);
        let kept = next.map_or((2, osc), |next| (next.number, next.born));
        assert_equal_at!(rt; osc, kept, (2, osc));
    }
}

#[test]
fn an_interval_is_the_anchor_carried_on(rt: HostRuntime) {
    let first = Some(Interval {
        lo: 999_000,
        hi: 1_001_000,
    });
    let rec = start(0, 1_000_000, first);
    let carried = interval_at(&Rates::usual(), &rec, 10_000_000);
    assert_equal!(rt; carried, Some((10_997_999, 11_002_001)));
}

#[test]
fn an_inaccuracy_is_specified_up_to_its_limit(rt: HostRuntime) {
    for (hi, inaccuracy) in [
        (281_474_976_710_653, Some(281_474_976_710_654)),
        (281_474_976_710_654, None),
    ] {
        let rec = start(0, 0, Some(Interval { lo: 0, hi }));
        let reading = read_at(&Rates::usual(), &rec, 0).expect(&rt, "not regressed");
        assert_equal_at!(rt; hi, reading.inaccuracy, inaccuracy);
    }
}

#[test]
fn readings_are_exact_at_the_ends_of_their_ranges(rt: HostRuntime) {
    let late = 1_152_921_504_606_846_976;
    let end = 2_305_843_009_213_693_952;
    let rates = Rates::usual();
    let first = Some(Interval { lo: end, hi: end });
    let reading = read_at(&rates, &start(late, end, first), late).expect(&rt, "not regressed");
    assert_equal!(rt; (reading.value, reading.inaccuracy), (end, Some(1)));
    let rec = start(0, end, first);
    let reading = read_at(&rates, &rec, late).expect(&rt, "not regressed");
    assert_equal!(rt; (reading.value, reading.inaccuracy),
        (end + 40_000_000, None),
    );
    let carried = (3_458_649_221_670_080_242, 3_458_879_805_971_001_614);
    assert_equal!(rt; interval_at(&rates, &rec, late), Some(carried));
}

#[test]
fn rates_are_refused_at_the_first_argument_out_of_its_range(rt: HostRuntime) {
    for (rates, refused) in [
        ((0, 0, 1_000_000, 1, 1), None),
        (
            (
                10_000,
                10_000_000,
                36_000_000_000,
                100_000,
                1_000_000_000_000_000,
            ),
            None,
        ),
        ((10_001, 10_000_001, 0, 0, 0), Some(0)),
        ((10_000, 10_000_001, 0, 0, 0), Some(1)),
        ((10_000, 10_000_000, 999_999, 0, 0), Some(2)),
        ((0, 0, 36_000_000_001, 0, 0), Some(2)),
        ((0, 0, 1_000_000, 0, 0), Some(3)),
        ((0, 0, 1_000_000, 100_001, 0), Some(3)),
        ((0, 0, 1_000_000, 1, 0), Some(4)),
        ((0, 0, 1_000_000, 1, 1_000_000_000_000_001), Some(4)),
    ] {
        let (drift_ppm, resolution, lease, slew_ppm, tolerance) = rates;
        let answer = Rates::new(drift_ppm, resolution, lease, slew_ppm, tolerance);
        assert_equal_at!(rt; rates,
            answer.err(),
            refused.map(|which| RateRange { which }),
        );
    }
}

// The first record of a clock that starts at 50 minutes.
fn at_fifty_minutes() -> ClockRecord
    ensures { IsSound usual_rates result }
{
    let first = Interval {
        lo: 29_999_999_000,
        hi: 30_000_001_000,
    };
    start(0, 30_000_000_000, Some(first))
}

#[test]
fn a_far_answer_is_carried_and_stepped_to(rt: HostRuntime) {
    let rates = Rates::usual();
    let answer = Interval {
        lo: 20_000_000_000,
        hi: 20_000_002_000,
    };
    let osc = 10_000_000;
    let i = carried(&rates, answer, osc, osc, osc);
    assert_equal!(rt; (i.lo, i.hi), (20_000_000_000, 20_000_002_001));
    let rec = at_fifty_minutes();
    assert!(rt; rec.number < 10 && rec.born <= osc);
    let next = changed(&rates, &rec, osc, i).expect(&rt, "in range");
    let expected = ClockRecord {
        number: 1,
        step: 1,
        born: osc,
        anchor: Some(Anchor {
            osc,
            lo: 20_000_000_000,
            hi: 20_000_002_001,
        }),
        a: part_a(osc, 20_000_001_000, 0),
        b: part_b(osc, 0),
    };
    assert_equal!(rt; next, expected);
    let reading = read_at(&rates, &next, osc).expect(&rt, "not regressed");
    let (value, inaccuracy) = (reading.value, reading.inaccuracy);
    assert_equal!(rt; (value, inaccuracy), (20_000_001_000, Some(1_002)));
}

#[test]
fn an_answer_is_carried_from_its_asking_and_its_coming(rt: HostRuntime) {
    let answer = Interval { lo: 10, hi: 20 };
    for (asked, got, now, lo, hi) in [
        (0u32, 0u32, 0u32, 10, 21),
        (0, 10_000_000, 10_000_000, 10, 10_001_021),
        (0, 10_000_000, 20_000_000, 9_999_009, 20_002_021),
    ] {
        assert!(rt; asked <= got && got <= now);
        let (asked, got, now) = (u64::from(asked), u64::from(got), u64::from(now));
        let i = carried(&Rates::usual(), answer, asked, got, now);
        assert_equal_at!(rt; (asked, got, now), (i.lo, i.hi), (lo, hi));
    }
}

#[test]
fn a_record_steps_where_the_middle_is_beyond_the_tolerance(rt: HostRuntime) {
    let rec = at_fifty_minutes();
    for (middle, step) in [
        (23_999_999_999i64, 1),
        (24_000_000_000, 0),
        (36_000_000_000, 0),
        (36_000_000_001, 1),
    ] {
        let i = Interval {
            lo: middle,
            hi: middle,
        };
        assert!(rt; rec.number < 10 && rec.born == 0);
        let next = changed(&Rates::usual(), &rec, 0, i).expect(&rt, "in range");
        assert_equal_at!(rt; middle, (next.number, next.step), (1, step));
        let value = if step == 1 { middle } else { 30_000_000_000 };
        assert_equal_at!(rt; middle,
            (next.a, next.b),
            (part_a(0, value, 0), part_b(0, 0)),
        );
    }
    let unknown = start(0, 30_000_000_000, None);
    let i = Interval {
        lo: 30_000_000_000,
        hi: 30_000_000_001,
    };
    let next = changed(&Rates::usual(), &unknown, 0, i).expect(&rt, "in range");
    assert_equal!(rt; (next.step, next.a.value), (1, 30_000_000_000));
}

#[test]
fn another_anchor_leaves_the_line(rt: HostRuntime) {
    let rec = at_fifty_minutes();
    assert!(rt; rec.number < 10 && rec.born <= 5);
    let i = Interval {
        lo: 30_000_000_000,
        hi: 30_000_000_100,
    };
    let next = anchored(&Rates::usual(), &rec, 5, i).expect(&rt, "in range");
    let anchor = Anchor {
        osc: 5,
        lo: 30_000_000_000,
        hi: 30_000_000_100,
    };
    assert_equal!(rt; (next.number, next.step, next.born), (1, 0, 5));
    assert_equal!(rt; (next.anchor, next.a, next.b),
        (Some(anchor), rec.a, rec.b),
    );
}

#[test]
fn an_interval_out_of_range_is_refused(rt: HostRuntime) {
    let rec = at_fifty_minutes();
    assert!(rt; rec.number < 10 && rec.born == 0);
    let greatest = 4_611_686_018_427_387_904;
    for (lo, hi, fits) in [
        (-1, 0, false),
        (0, 0, true),
        (0, greatest, true),
        (greatest, greatest + 1, false),
        (-1, greatest + 1, false),
    ] {
        assert!(rt; lo <= hi);
        let i = Interval { lo, hi };
        let range = if fits { None } else { Some(Range { lo, hi }) };
        let rates = Rates::usual();
        assert_equal_at!(rt; (lo, hi), anchored(&rates, &rec, 0, i).err(), range);
        assert_equal_at!(rt; (lo, hi), stepped(&rates, &rec, 0, i).err(), range);
        assert_equal_at!(rt; (lo, hi), changed(&rates, &rec, 0, i).err(), range);
    }
}

// A record with the greatest of all its numbers that can be changed.
fn greatest() -> ClockRecord
    ensures { IsSound usual_rates result }
{
    let late = 1_152_921_504_606_846_976;
    let end = 4_611_686_018_427_387_904;
    ClockRecord {
        number: 18_446_744_073_709_551_614,
        step: 18_446_744_073_709_551_614,
        born: late,
        anchor: Some(Anchor {
            osc: late,
            lo: end,
            hi: end,
        }),
        a: PartA {
            from: late,
            value: 6_917_529_027_641_081_856,
            x: 400_000,
        },
        b: PartB {
            from: late,
            x: -400_000,
        },
    }
}

#[test]
fn changes_are_exact_at_the_ends_of_their_ranges(rt: HostRuntime) {
    let late = 1_152_921_504_606_846_976;
    let end = 4_611_686_018_427_387_904;
    let rates = Rates::usual();
    let rec = greatest();
    assert!(rt; rec.number < u64::MAX && rec.born == late);
    let i = Interval { lo: end, hi: end };
    let next = stepped(&rates, &rec, late, i).expect(&rt, "in range");
    assert_equal!(rt; (next.number, next.step), (u64::MAX, u64::MAX));
    assert_equal!(rt; next.a, part_a(late, end, 0));
    let next = renewed(&rates, &rec, late).expect(&rt, "the second part has begun");
    let a = part_a(late, 6_917_529_027_641_081_856, -400_000);
    assert_equal!(rt; (next.a, next.b),
        (a, part_b(late + 40_000_000, -400_000)),
    );
    let last = carried(&rates, Interval { lo: 0, hi: end / 2 }, 0, late, late);
    assert_equal!(rt; (last.lo, last.hi), (0, 3_458_879_805_971_001_614));
}

#[test]
fn usual_rates_and_limits_are_these_numbers(rt: HostRuntime) {
    let rates = Rates::usual();
    assert_equal!(rt; (rates.drift_ppm, rates.resolution), (100, 1));
    assert_equal!(rt; (rates.lease, rates.slew_ppm), (40_000_000, 10_000));
    assert_equal!(rt; rates.tolerance, 6_000_000_000);
    assert_equal!(rt; GREATEST_OSC, 1_152_921_504_606_846_976);
    assert_equal!(rt; GREATEST_TIME, 2_305_843_009_213_693_952);
    assert_equal!(rt; GREATEST_ANCHOR, 4_611_686_018_427_387_904);
    assert_equal!(rt; (GREATEST_INACCURACY, MILLION),
        (281_474_976_710_654, 1_000_000),
    );
}

#[test]
fn the_laws_have_no_effect() {
    elapsed_time_has_bounds();
    right_answers_stay_right();
    inaccuracies_are_tightest();
    readings_hold_true_time();
    next_records_count_up();
    changes_keep_the_line();
    readings_never_fall();
    slew_has_a_bound();
}

#[test]
fn faults_have_their_texts(rt: HostRuntime) -> Result<(), AllocError> {
    let text = format!(in rt.alloc(); "{}", RateRange { which: 2 })?;
    assert_equal!(rt; text.as_str(), "rate 2 is out of its range");
    let regressed = Regressed {
        floor: 100,
        osc: 99,
        number: 3,
    };
    let text = format!(in rt.alloc(); "{regressed}")?;
    assert_equal!(rt; text.as_str(),
        "the oscillator reads 99, below 100, at record 3",
    );
    let range = Range { lo: -1, hi: 5 };
    let text = format!(in rt.alloc(); "{range}")?;
    assert_equal!(rt; text.as_str(),
        "an end of the interval from -1 to 5 is out of range",
    );
    Ok(())
}
