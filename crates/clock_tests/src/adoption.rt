use assertions::{assert_equal, assert_equal_at};
use dts_base::{Interval, NoMemory};
use intersection::{
    Sweep, adopt, false_intervals_lack_true_time, is_false, one_interval_is_adopted,
    points_are_agreed_by_more_than_half, true_time_is_adopted,
};
use std::alloc::{AllocError, Global};

// These intervals, each by its ends.
fn intervals(alloc: Global, ends: &[(i64, i64)]) -> Result<Vec<Interval>, AllocError> {
    let mut s = Vec::new(alloc);
    for (lo, hi) in ends {
        if *lo <= *hi {
            s.push(Interval { lo: *lo, hi: *hi })?;
        }
    }
    Ok(s)
}

// The ends of what both forms of the call adopt.
fn adopted(alloc: Global, s: &[Interval]) -> Result<[Option<(i64, i64)>; 2], NoMemory> {
    let found = adopt(alloc, s)?;
    let mut sweep = Sweep::reserve(alloc, s.len())?;
    let swept = sweep.adopt(s);
    Ok([found, swept].map(|i| i.map(|i| (i.lo, i.hi))))
}

#[test]
fn what_more_than_half_hold_is_adopted(rt: HostRuntime) -> Result<(), NoMemory> {
    for (ends, expected) in [
        (&[(0, 10), (5, 15), (12, 20)][..], Some((5, 15))),
        (&[(0, 10), (0, 10), (20, 30), (20, 30)], None),
        (&[(0, 10), (10, 20)], Some((10, 10))),
        (&[(0, 10)], Some((0, 10))),
        (&[], None),
        (&[(i64::MIN, i64::MAX), (-5, 5)], Some((-5, 5))),
        (&[(0, 1), (4, 5), (0, 5)], Some((0, 5))),
    ] {
        let s = intervals(rt.alloc(), ends)?;
        assert_equal_at!(rt; ends, adopted(rt.alloc(), &s)?, [expected, expected]);
    }
    Ok(())
}

#[test]
fn sixty_five_intervals_are_adopted(rt: HostRuntime) -> Result<(), NoMemory> {
    let mut s = Vec::new(rt.alloc());
    for k in 0..65u8 {
        s.push(Interval {
            lo: i64::from(k),
            hi: 100,
        })?;
    }
    let expected = Some((32, 100));
    assert_equal!(rt; adopted(rt.alloc(), &s)?, [expected, expected]);
    Ok(())
}

// The next number of a generator.
fn next(mut x: u64) -> u64 {
    x ^= x << 13;
    x ^= x >> 7;
    x ^= x << 17;
    x
}

// Up to seven intervals with ends from -6 to 6, and the last number of the generator.
fn drawn(alloc: Global, mut x: u64) -> Result<(Vec<Interval>, u64), AllocError> {
    let mut s = Vec::new(alloc);
    x = next(x);
    for _ in 0..x % 8 {
        x = next(x);
        let a = (x % 13) as i64 - 6;
        let b = (x / 13 % 13) as i64 - 6;
        let i = if a <= b {
            Interval { lo: a, hi: b }
        } else {
            Interval { lo: b, hi: a }
        };
        s.push(i)?;
    }
    Ok((s, x))
}

// The first and the last point from -6 to 6 that all but fewer than half of these intervals hold.
fn by_points(s: &[Interval]) -> Option<(i64, i64)> {
    let mut found = None;
    for k in 0..13u8 {
        let p = i64::from(k) - 6;
        let lacking = s.iter().filter(|i| p < i.lo || i.hi < p).count();
        if lacking < s.len() && lacking < s.len() - lacking {
            found = found.map_or(Some((p, p)), |(lo, _)| Some((lo, p)));
        }
    }
    found
}

#[test]
fn adoption_agrees_with_a_count_over_all_points(rt: HostRuntime) -> Result<(), NoMemory> {
    let mut x = 88_172_645_463_325_252;
    for k in 0..2_000u16 {
        let (s, last) = drawn(rt.alloc(), x)?;
        x = last;
        let expected = by_points(&s);
        let found = adopted(rt.alloc(), &s)?;
        assert_equal_at!(rt; (k, s), found, [expected, expected]);
    }
    Ok(())
}

#[test]
fn intervals_that_touch_the_adopted_one_are_not_false(rt: HostRuntime) {
    let adopted = Interval { lo: 5, hi: 15 };
    for (lo, hi, expected) in [
        (16, 20, true),
        (15, 20, false),
        (0, 5, false),
        (0, 4, true),
        (7, 8, false),
        (0, 30, false),
    ] {
        assert!(rt; lo <= hi);
        let answer = is_false(&Interval { lo, hi }, &adopted);
        assert_equal_at!(rt; (lo, hi), answer, expected);
    }
}

#[test]
fn a_sweep_has_the_room_that_it_was_given(rt: HostRuntime) -> Result<(), NoMemory> {
    assert!(rt; Sweep::reserve(rt.alloc(), 3)?.spare() >= 3);
    Ok(())
}

#[test]
fn the_laws_have_no_effect() {
    true_time_is_adopted();
    false_intervals_lack_true_time();
    points_are_agreed_by_more_than_half();
    one_interval_is_adopted();
}
