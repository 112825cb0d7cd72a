use assertions::{assert_equal, assert_equal_at};
use std::test::Fail;
use utc_text::*;
use utc_value::Utc;

const EPOCH: i64 = 122_192_928_000_000_000;

// The first midnight of 1582, in UTC.
const FIRST: i64 = -247_968_000_000_000;

// The last unit of 9999, in UTC.
const LAST: i64 = 2_656_215_935_999_999_999;

fn fault(field: TextField, offset: u32) -> TextFault {
    TextFault { field, offset }
}

// The first moment of a date.
fn at(year: i16, month: u8, day: u8) -> Civil {
    Civil {
        year,
        month,
        day,
        hour: 0,
        minute: 0,
        second: 0,
        units: 0,
    }
}

#[test]
fn absolute_texts_are_read(rt: HostRuntime) -> Result<(), Fail> {
    let cases: [(&str, i64, Option<u64>, i16); 17] = [
        (
            "1970-01-01-00:00:00.0000000+00:00I0.0000000",
            EPOCH,
            Some(0),
            0,
        ),
        ("1970-01-01-00:00:00", EPOCH, None, 0),
        ("1970-01-01-00:00:00I-----", EPOCH, None, 0),
        ("1970-01-01-00:00:00Iinf", EPOCH, None, 0),
        ("1970-01-01-00:00:00.I0.", EPOCH, Some(0), 0),
        ("1970-01-01-00:00:00-00:00I0.5", EPOCH, Some(5_000_000), 0),
        ("1970-01-01-01:00:00+01:00I007", EPOCH, Some(70_000_000), 60),
        (
            "1970-01-01-00:00:00I28147497.6710654",
            EPOCH,
            Some(281_474_976_710_654),
            0,
        ),
        ("1582-10-15-00:00:00", 0, None, 0),
        ("1582-10-14-23:59:59.9999999", -1, None, 0),
        ("1582-01-01-00:00:00", FIRST, None, 0),
        (
            "1582-01-01-00:00:00+23:59",
            -248_831_400_000_000,
            None,
            1439,
        ),
        ("9999-12-31-23:59:59.9999999", LAST, None, 0),
        (
            "9999-12-31-23:59:59.9999999-23:59",
            2_656_216_799_399_999_999,
            None,
            -1439,
        ),
        (
            "1600-02-29-12:34:56.789+05:30",
            5_483_198_967_890_000,
            None,
            330,
        ),
        ("2000-02-29-00:00:00", 131_710_752_000_000_000, None, 0),
        (
            "2021-06-30-22:15:09.12-01:30",
            138_443_895_091_200_000,
            None,
            -90,
        ),
    ];
    for (text, time, inaccuracy, tdf) in cases {
        assert_equal_at!(rt; text,
            parse_abs(text.as_bytes())?,
            Utc::absolute(time, inaccuracy, tdf)?,
        );
    }
    Ok(())
}

#[test]
fn the_first_wrong_field_of_an_absolute_text(rt: HostRuntime) {
    let cases: [(&str, TextField, u32); 37] = [
        ("", TextField::Year, 0),
        ("197", TextField::Year, 0),
        ("1581-01-01-00:00:00", TextField::Year, 0),
        ("10000-01-01-00:00:00", TextField::Year, 0),
        ("99990-01-01-00:00:00", TextField::Month, 4),
        ("+1970-01-01-00:00:00", TextField::Year, 0),
        ("1970", TextField::Month, 4),
        ("1970-13-01-00:00:00", TextField::Month, 4),
        ("1970-00-32-24:60:60", TextField::Month, 4),
        ("1970-1-01-00:00:00", TextField::Month, 4),
        ("1970-01", TextField::Day, 7),
        ("1970-01-32-00:00:00", TextField::Day, 7),
        ("1700-02-29-00:00:00", TextField::Day, 7),
        ("2021-02-29-00:00:00", TextField::Day, 7),
        ("1970-01-00-00:00:00", TextField::Day, 7),
        ("1970-01-01", TextField::Hour, 10),
        ("1970-01-01 00:00:00", TextField::Hour, 10),
        ("1970-01-01-24:00:00", TextField::Hour, 10),
        ("1970-01-01-00", TextField::Minute, 13),
        ("1970-01-01-00:60:00", TextField::Minute, 13),
        ("1970-01-01-00:00", TextField::Second, 16),
        ("1970-01-01-00:00:60", TextField::Second, 16),
        ("1970-01-01-00:00:0", TextField::Second, 16),
        ("1970-01-01-00:00:00.12345678", TextField::Fraction, 19),
        ("1970-01-01-00:00:00+24:00", TextField::TdfHour, 19),
        ("1970-01-01-00:00:00.0+1", TextField::TdfHour, 21),
        ("1970-01-01-00:00:00+01", TextField::TdfMinute, 22),
        ("1970-01-01-00:00:00+01:60", TextField::TdfMinute, 22),
        ("1970-01-01-00:00:00I", TextField::Inaccuracy, 19),
        ("1970-01-01-00:00:00I.5", TextField::Inaccuracy, 19),
        ("1970-01-01-00:00:00I----", TextField::Inaccuracy, 19),
        ("1970-01-01-00:00:00I0000000001", TextField::Inaccuracy, 19),
        ("1970-01-01-00:00:00I1.00000000", TextField::Inaccuracy, 19),
        (
            "1970-01-01-00:00:00I28147497.6710655",
            TextField::Inaccuracy,
            19,
        ),
        ("1970-01-01-00:00:00I------", TextField::Tail, 25),
        ("1970-01-01-00:00:00Z", TextField::Tail, 19),
        (
            "1970-01-01-00:00:00.0000000+00:00I0.0000000 ",
            TextField::Tail,
            43,
        ),
    ];
    for (text, field, offset) in cases {
        assert_equal_at!(rt; text,
            parse_abs(text.as_bytes()).err(),
            Some(fault(field, offset)),
        );
    }
}

#[test]
fn relative_texts_are_read(rt: HostRuntime) -> Result<(), Fail> {
    let cases: [(&str, i64, Option<u64>); 7] = [
        ("-00-00:00:01.0000000I-----", -10_000_000, None),
        ("-00-00:00:00I0", 0, Some(0)),
        ("0-00:00:00.5", 5_000_000, None),
        (
            "00000012-23:59:59.9999999I1.5",
            11_231_999_999_999,
            Some(15_000_000),
        ),
        ("1-00:00:00", 864_000_000_000, None),
        ("-10675199-02:48:05.4775808", i64::MIN, None),
        ("10675199-02:48:05.4775807", i64::MAX, None),
    ];
    for (text, time, inaccuracy) in cases {
        assert_equal_at!(rt; text,
            parse_rel(text.as_bytes())?,
            Utc::relative(time, inaccuracy)?,
        );
    }
    Ok(())
}

#[test]
fn the_first_wrong_field_of_a_relative_text(rt: HostRuntime) {
    let cases: [(&str, TextField, u32); 15] = [
        ("", TextField::Days, 0),
        ("-", TextField::Days, 1),
        ("+1-00:00:00", TextField::Days, 0),
        ("000000001-00:00:00", TextField::Days, 0),
        ("10675200-00:00:00", TextField::Days, 0),
        ("-10675199-02:48:05.4775809", TextField::Days, 1),
        ("10675199-02:48:05.4775808Ix", TextField::Days, 0),
        ("10675199-99:48:05.4775808", TextField::Hour, 8),
        ("-01", TextField::Hour, 3),
        ("01-24:00:00", TextField::Hour, 2),
        ("01-00:60:00", TextField::Minute, 5),
        ("01-00:00:60", TextField::Second, 8),
        ("01-00:00:00.00000000", TextField::Fraction, 11),
        ("01-00:00:00I", TextField::Inaccuracy, 11),
        ("01-00:00:00+00:00", TextField::Tail, 11),
    ];
    for (text, field, offset) in cases {
        assert_equal_at!(rt; text,
            parse_rel(text.as_bytes()).err(),
            Some(fault(field, offset)),
        );
    }
}

#[test]
fn absolute_times_are_printed(rt: HostRuntime) -> Result<(), Fail> {
    let cases: [(i64, Option<u64>, i16, &str); 3] = [
        (
            EPOCH,
            Some(0),
            0,
            "1970-01-01-00:00:00.0000000+00:00I0.0000000",
        ),
        (
            EPOCH,
            Some(0),
            60,
            "1970-01-01-01:00:00.0000000+01:00I0.0000000",
        ),
        (
            -1,
            Some(281_474_976_710_654),
            -90,
            "1582-10-14-22:29:59.9999999-01:30I28147497.6710654",
        ),
    ];
    for (time, inaccuracy, tdf, text) in cases {
        let printed = print_any(rt.alloc(), Utc::absolute(time, inaccuracy, 0)?, tdf)?;
        assert_equal_at!(rt; text, printed.as_slice(), text.as_bytes());
    }
    Ok(())
}

#[test]
fn in_utc_the_time_differential_factor_is_0(rt: HostRuntime) -> Result<(), Fail> {
    let printed = print_gmt(rt.alloc(), Utc::absolute(EPOCH, Some(0), 60)?)?;
    let text = "1970-01-01-00:00:00.0000000+00:00I0.0000000";
    assert_equal!(rt; printed.as_slice(), text.as_bytes());
    Ok(())
}

#[test]
fn relative_times_are_printed(rt: HostRuntime) -> Result<(), Fail> {
    let cases: [(i64, Option<u64>, &str); 3] = [
        (-10_000_000, None, "-00-00:00:01.0000000I-----"),
        (
            i64::MIN,
            Some(15_000_000),
            "-10675199-02:48:05.4775808I1.5000000",
        ),
        (0, None, "00-00:00:00.0000000I-----"),
    ];
    for (time, inaccuracy, text) in cases {
        let printed = print_rel(rt.alloc(), Utc::relative(time, inaccuracy)?)?;
        assert_equal_at!(rt; text, printed.as_slice(), text.as_bytes());
    }
    Ok(())
}

#[test]
fn a_year_is_looked_at_behind_the_time_differential_factor(rt: HostRuntime) -> Result<(), Fail> {
    let before = Utc::absolute(FIRST - 1, None, 0)?;
    let last = Utc::absolute(LAST, None, 0)?;
    let text = print_any(rt.alloc(), before, 1)?;
    assert_equal!(rt; text.as_slice(),
        b"1582-01-01-00:00:59.9999999+00:01I-----".as_slice(),
    );
    let refused = [
        print_gmt(rt.alloc(), before).err(),
        print_any(rt.alloc(), last, 1).err(),
        print_any(rt.alloc(), last, 1440).err(),
        print_rel(rt.alloc(), last).err(),
        print_gmt(rt.alloc(), Utc::relative(0, None)?).err(),
    ];
    let year = Some(PrintFault::YearRange);
    let kinds = Some(PrintFault::Kinds);
    assert_equal!(rt; refused, [year, year, Some(PrintFault::TdfRange), kinds, kinds]);
    assert_equal!(rt; civil(last, 1), Err(PrintFault::YearRange));
    Ok(())
}

#[test]
fn civil_times_are_those_of_the_calendar(rt: HostRuntime) -> Result<(), Fail> {
    assert_equal!(rt; civil(Utc::absolute(EPOCH, Some(0), 0)?, 0)?,
        at(1970, 1, 1),
    );
    assert_equal!(rt; civil(Utc::absolute(100_103_040_000_000_000, None, 0)?, 0)?,
        at(1900, 1, 1),
    );
    assert_equal!(rt; from_civil(at(1582, 10, 15), None, 0)?.time(), 0);
    assert_equal!(rt; from_civil(at(2021, 2, 29), None, 0),
        Err(CivilFault::Date),
    );
    assert_equal!(rt; from_civil(at(2021, 2, 28), Some(1 << 48), 1440),
        Err(CivilFault::InaccuracyRange),
    );
    assert_equal!(rt; from_civil(at(2021, 2, 28), None, 1440),
        Err(CivilFault::TdfRange),
    );
    Ok(())
}

#[test]
fn faults_say_what_is_wrong(rt: HostRuntime) -> Result<(), Fail> {
    let text = format!(in rt.alloc(); "{}", PrintFault::YearRange)?;
    assert_equal!(rt; text.as_str(), "a year outside 1582 to 9999");
    Ok(())
}

#[test]
fn the_laws_have_no_effect() -> Result<(), Fail> {
    every_printable_moment_has_a_text(Utc::absolute(EPOCH, None, 0)?, 60);
    every_length_has_a_text();
    one_time_of_a_text();
    a_moment_or_one_fault();
    a_length_or_one_fault();
    one_text_of_a_time();
    Ok(())
}
