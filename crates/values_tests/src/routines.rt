use assertions::{assert_at, assert_equal};
use std::process::Abort;
use utc_routines::*;
use utc_value::{MAX_INACCURACY, Utc};

// A moment, shown in UTC.
fn moment(rt: &impl Abort, time: i64, inaccuracy: Option<u64>) -> Utc {
    Utc::absolute(time, inaccuracy, 0).expect(rt, "in range")
}

// A moment, shown with a time differential factor.
fn shown(rt: &impl Abort, time: i64, inaccuracy: Option<u64>, tdf: i16) -> Utc {
    Utc::absolute(time, inaccuracy, tdf).expect(rt, "in range")
}

// A length of time.
fn length(rt: &impl Abort, time: i64, inaccuracy: Option<u64>) -> Utc {
    Utc::relative(time, inaccuracy).expect(rt, "in range")
}

const HALF: u64 = MAX_INACCURACY / 2;

#[test]
fn kinds_of_sums_and_differences(rt: HostRuntime) {
    let rt = &rt;
    let at = shown(rt, 100, Some(3), 60);
    let other = shown(rt, 40, Some(1), -30);
    let long = length(rt, 7, Some(2));
    assert!(rt; add(at, long) == Ok(shown(rt, 107, Some(5), 60)));
    assert!(rt; add(long, at) == Ok(shown(rt, 107, Some(5), 60)));
    assert!(rt; add(long, long) == Ok(length(rt, 14, Some(4))));
    assert!(rt; add(at, other) == Err(UtcFault::Kinds));
    assert!(rt; sub(at, other) == Ok(length(rt, 60, Some(4))));
    assert!(rt; sub(at, long) == Ok(shown(rt, 93, Some(5), 60)));
    assert!(rt; sub(long, length(rt, 9, None)) == Ok(length(rt, -2, None)));
    assert!(rt; sub(long, at) == Err(UtcFault::Kinds));
}

#[test]
fn kinds_come_before_overflow(rt: HostRuntime) {
    let rt = &rt;
    let last = moment(rt, i64::MAX, None);
    let first = moment(rt, i64::MIN, None);
    assert!(rt; add(last, last) == Err(UtcFault::Kinds));
    assert!(rt; sub(length(rt, i64::MIN, None), last) == Err(UtcFault::Kinds));
    assert!(rt; abs(first) == Err(UtcFault::Kinds));
    assert!(rt; mul(first, 2) == Err(UtcFault::Kinds));
    assert!(rt; with_tdf(length(rt, 0, None), 1440) == Err(UtcFault::Kinds));
    assert!(rt; bound(last, length(rt, i64::MIN, Some(0))) == Err(UtcFault::Kinds));
}

#[test]
fn times_at_the_ends_of_their_type(rt: HostRuntime) {
    let rt = &rt;
    let last = length(rt, i64::MAX, Some(0));
    let first = length(rt, i64::MIN, Some(0));
    let one = length(rt, 1, Some(0));
    let late = length(rt, i64::MAX, Some(2));
    let early = length(rt, i64::MIN, Some(1));
    let overflowing = [
        add(last, one),
        add(first, length(rt, -1, Some(0))),
        sub(first, one),
        sub(length(rt, 0, Some(0)), first),
        abs(first),
        mul(first, -1),
        mul(first, i32::MIN),
        bound(last, late),
        bound(early, first),
    ];
    assert_equal!(rt; overflowing, [Err(UtcFault::Overflow); 9]);
    for (got, wanted) in [
        (add(first, last), length(rt, -1, Some(0))),
        (sub(length(rt, -1, Some(0)), first), last),
        (
            abs(length(rt, -i64::MAX, Some(4))),
            length(rt, i64::MAX, Some(4)),
        ),
        (mul(first, 1), first),
        (span(first, first), first),
        (span(length(rt, i64::MIN, None), last), length(rt, -1, None)),
        (bound(last, last), last),
        (
            with_tdf(moment(rt, i64::MIN, None), 1439),
            shown(rt, i64::MIN, None, 1439),
        ),
    ] {
        assert_equal!(rt; got, Ok(wanted));
    }
    assert_equal!(rt; cmp_interval(first, last), Ok(Order4::LessThan));
    assert_equal!(rt; cmp_mid(last, first), Ok(Order4::GreaterThan));
    let overflowing = [i64::MAX, i64::MIN].map(|time| point(length(rt, time, Some(1))));
    assert_equal!(rt; overflowing, [Err(UtcFault::Overflow); 2]);
    assert_equal!(rt; point(last), Ok((last, last, last)));
}

#[test]
fn inaccuracies_at_their_limit(rt: HostRuntime) {
    let rt = &rt;
    let half = length(rt, 0, Some(HALF));
    let more = length(rt, 0, Some(HALF + 1));
    let widest = length(rt, 0, Some(MAX_INACCURACY));
    let unspecified = length(rt, 0, None);
    for (got, wanted) in [
        (add(half, half), widest),
        (add(half, more), unspecified),
        (sub(half, half), widest),
        (sub(more, half), unspecified),
        (mul(half, -2), widest),
        (mul(more, 2), unspecified),
        (mul(widest, i32::MIN), unspecified),
        (
            span(widest, length(rt, 1, Some(MAX_INACCURACY - 1))),
            widest,
        ),
        (
            span(widest, length(rt, 1, Some(MAX_INACCURACY))),
            unspecified,
        ),
        (bound(widest, widest), widest),
        (
            bound(widest, length(rt, 1, Some(MAX_INACCURACY))),
            unspecified,
        ),
    ] {
        assert_equal!(rt; got, Ok(wanted));
    }
}

#[test]
fn multiples_and_absolute_values(rt: HostRuntime) {
    let rt = &rt;
    assert!(rt; mul(length(rt, -5, Some(2)), -3) == Ok(length(rt, 15, Some(6))));
    assert!(rt; mul(length(rt, -5, None), 0) == Ok(length(rt, 0, None)));
    assert!(rt; abs(length(rt, -5, None)) == Ok(length(rt, 5, None)));
}

#[test]
fn intervals_compare(rt: HostRuntime) {
    let rt = &rt;
    let cases = [
        (5, Some(5), 15, Some(5), Order4::Indeterminate),
        (5, Some(4), 15, Some(5), Order4::LessThan),
        (15, Some(5), 5, Some(4), Order4::GreaterThan),
        (5, Some(0), 5, Some(0), Order4::EqualTo),
        (5, Some(1), 5, Some(0), Order4::Indeterminate),
        (5, Some(1), 9, None, Order4::Indeterminate),
        (5, None, 5, None, Order4::Indeterminate),
    ];
    for (time, inaccuracy, other, wide, order) in cases {
        let a = moment(rt, time, inaccuracy);
        let b = moment(rt, other, wide);
        assert_at!(rt; (time, other), cmp_interval(a, b) == Ok(order));
    }
    let at = moment(rt, 5, None);
    assert!(rt; cmp_interval(at, length(rt, 5, None)) == Err(UtcFault::Kinds));
    assert!(rt; cmp_mid(at, length(rt, 5, None)) == Err(UtcFault::Kinds));
    assert!(rt; cmp_mid(at, moment(rt, 5, Some(9))) == Ok(Order4::EqualTo));
    assert!(rt; cmp_mid(at, moment(rt, 6, Some(9))) == Ok(Order4::LessThan));
}

#[test]
fn points_keep_the_factor(rt: HostRuntime) {
    let rt = &rt;
    let at = shown(rt, 10, Some(4), -90);
    let first = shown(rt, 6, Some(0), -90);
    let middle = shown(rt, 10, Some(0), -90);
    let last = shown(rt, 14, Some(0), -90);
    assert!(rt; point(at) == Ok((first, middle, last)));
    assert!(rt; point(moment(rt, 10, None)) == Err(UtcFault::Unspecified));
}

#[test]
fn spans_and_bounds(rt: HostRuntime) {
    let rt = &rt;
    let a = shown(rt, 5, Some(5), 60);
    let b = shown(rt, 13, Some(2), 30);
    assert!(rt; span(a, b) == Ok(shown(rt, 7, Some(8), 60)));
    assert!(rt; bound(a, b) == Ok(shown(rt, 7, Some(8), 60)));
    assert!(rt; bound(b, a) == Err(UtcFault::OutOfOrder));
    assert!(rt; span(b, a) == Ok(shown(rt, 7, Some(8), 30)));
    let low = moment(rt, -8, Some(0));
    let high = moment(rt, -5, Some(0));
    assert!(rt; span(low, high) == Ok(moment(rt, -7, Some(2))));
    assert!(rt; bound(low, high) == Ok(moment(rt, -7, Some(2))));
    assert!(rt; bound(high, moment(rt, -8, None)) == Ok(moment(rt, -7, None)));
    assert!(rt; span(low, length(rt, 0, None)) == Err(UtcFault::Kinds));
}

#[test]
fn factors_change_alone(rt: HostRuntime) {
    let rt = &rt;
    let at = shown(rt, 5, Some(2), 60);
    assert!(rt; with_tdf(at, -1439) == Ok(shown(rt, 5, Some(2), -1439)));
    assert!(rt; with_tdf(at, 1440) == Err(UtcFault::TdfRange));
    assert!(rt; with_tdf(at, -1440) == Err(UtcFault::TdfRange));
}

#[test]
fn the_laws_have_no_effect() {
    one_result();
    no_operands_are_both();
    one_refusal();
}
