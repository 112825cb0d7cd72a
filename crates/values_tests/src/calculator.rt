use assertions::{assert_at, assert_equal, assert_equal_at};
use dts_base::{MemorySink, MemorySource, NoMemory, Text};
use line_filter::{LineFilter, Stop, Unfit};
use std::alloc::Global;
use std::test::Fail;
use utc_calculator::*;
use utc_routines::{Order4, UtcFault};
use utc_text::{PrintFault, TextFault, TextField};
use utc_value::{BytesFault, Utc};

fn text(field: TextField, offset: u32) -> UtcCause {
    UtcCause::Text(TextFault { field, offset })
}

fn at(column: u32, cause: UtcCause) -> UtcRefusal {
    UtcRefusal { column, cause }
}

// Lines and their answers.
const ANSWERED: &str =
    "add 1970-01-01-00:00:00.0I0.5 00-00:00:01.0I0.25 = 1970-01-01-00:00:01.0000000+00:00I0.7500000
add 00-00:00:01 1970-01-01-01:00:00+01:00I0 = 1970-01-01-01:00:01.0000000+01:00I-----
sub 1970-01-01-00:00:01I0.1 1970-01-01-00:00:03I0.2 = -00-00:00:02.0000000I0.3000000
abs -00-00:00:05I2 = 00-00:00:05.0000000I2.0000000
mul -00-00:00:05I2 -3 = 00-00:00:15.0000000I6.0000000
mul 00-00:00:01Iinf -2147483648 = -24855-03:14:08.0000000I-----
mul 00-00:00:01I0 2147483647 = 24855-03:14:07.0000000I0.0000000
mul 00-00:00:01I0.5 0 = 00-00:00:00.0000000I0.0000000
span 00-00:00:05I5 00-00:00:13I2 = 00-00:00:07.5000000I7.5000000
bound 00-00:00:05I5 00-00:00:13I2 = 00-00:00:07.5000000I7.5000000
tdf 1970-01-01-00:00:00I0 60 = 1970-01-01-01:00:00.0000000+01:00I0.0000000
tdf 1970-01-01-00:00:00I0 -1439 = 1969-12-31-00:01:00.0000000-23:59I0.0000000
interval 00-00:00:05I4 00-00:00:15I5 = lessThan
interval 00-00:00:15I5 00-00:00:05I4 = greaterThan
interval 00-00:00:05I0 00-00:00:05I0 = equalTo
interval 00-00:00:05I5 00-00:00:15I5 = indeterminate
mid 00-00:00:05 00-00:00:15 = lessThan
mid 00-00:00:15 00-00:00:05 = greaterThan
point 1970-01-01-00:00:00I1 = 1969-12-31-23:59:59.0000000+00:00I0.0000000 1970-01-01-00:00:00.0000000+00:00I0.0000000 1970-01-01-00:00:01.0000000+00:00I0.0000000
bytes 1970-01-01-00:00:00I0 = 00408113d21db2010000000000000010
text 00408113d21db2010000000000000010 = 1970-01-01-00:00:00.0000000+00:00I0.0000000
text 00408113D21DB2010000000000000010 = 1970-01-01-00:00:00.0000000+00:00I0.0000000";

#[test]
fn each_operation_is_answered(rt: HostRuntime) -> Result<(), Fail> {
    for row in ANSWERED.lines() {
        let (line, want) = row.split_once(" = ").expect(&rt, "a line and its answer");
        match answer(rt.alloc(), line.as_bytes()) {
            Ok(octets) =>
                assert_equal_at!(rt; line, octets.as_slice().strip_suffix(b"\n"), Some(want.as_bytes())),
            Err(fault) => assert_at!(rt; (line, fault), false),
        }
    }
    Ok(())
}

#[test]
fn the_first_cause_is_named_at_its_column(rt: HostRuntime) -> Result<(), Fail> {
    let cases: [(&str, u32, UtcCause); 47] = [
        ("", 1, UtcCause::Word),
        (" ", 1, UtcCause::Word),
        (" abs 00-00:00:01", 1, UtcCause::Word),
        ("#", 1, UtcCause::Word),
        ("Add", 1, UtcCause::Word),
        ("adds x", 1, UtcCause::Word),
        ("abs\t00-00:00:01", 1, UtcCause::Word),
        ("abs\u{e9} x", 1, UtcCause::Word),
        ("foo  x", 1, UtcCause::Word),
        ("add", 4, UtcCause::Missing),
        ("add ", 5, UtcCause::Missing),
        ("add 00-00:00:01", 16, UtcCause::Missing),
        ("add 00-00:00:01 ", 17, UtcCause::Missing),
        ("add  00-00:00:01", 5, UtcCause::Missing),
        ("abs 00-00:00:01 ", 17, UtcCause::Missing),
        ("abs 00-00:00:01  x", 17, UtcCause::Missing),
        ("abs 00-00:00:01 x", 17, UtcCause::Extra),
        ("abs 00-00:00:01 x ", 17, UtcCause::Extra),
        ("mul 00-00:00:01 1 2", 19, UtcCause::Extra),
        ("mul 00-00:00:01 +1", 17, UtcCause::Number),
        ("mul 00-00:00:01 01", 17, UtcCause::Number),
        ("mul 00-00:00:01 -0", 17, UtcCause::Number),
        ("mul 00-00:00:01 -01", 17, UtcCause::Number),
        ("mul 00-00:00:01 -", 17, UtcCause::Number),
        ("mul 00-00:00:01 1x", 17, UtcCause::Number),
        ("mul 00-00:00:01 2147483648", 17, UtcCause::Number),
        ("mul 00-00:00:01 -2147483649", 17, UtcCause::Number),
        ("mul 00-00:00:01 99999999999999999999", 17, UtcCause::Number),
        ("tdf 1970-01-01-00:00:00 32768", 25, UtcCause::Number),
        ("tdf 1970-01-01-00:00:00 -32769", 25, UtcCause::Number),
        ("text 0", 6, UtcCause::Hex),
        ("text 00408113d21db20100000000000000100", 6, UtcCause::Hex),
        ("text 0040 8113d21db2010000000000000010", 6, UtcCause::Hex),
        ("text g0408113d21db2010000000000000010", 6, UtcCause::Hex),
        (
            "text 00000000000000000000000000000030",
            6,
            UtcCause::Bytes(BytesFault::Version { found: 3 }),
        ),
        (
            "text 00000000000000000000000000000120",
            6,
            UtcCause::Bytes(BytesFault::Tdf { found: 1 }),
        ),
        (
            "sub 00-00:00:01 1970-01-01-00:00:00",
            1,
            UtcCause::Routine(UtcFault::Kinds),
        ),
        (
            "abs -10675199-02:48:05.4775808",
            1,
            UtcCause::Routine(UtcFault::Overflow),
        ),
        (
            "bound 00-00:00:13I2 00-00:00:05I5",
            1,
            UtcCause::Routine(UtcFault::OutOfOrder),
        ),
        (
            "point 1970-01-01-00:00:00",
            1,
            UtcCause::Routine(UtcFault::Unspecified),
        ),
        (
            "tdf 1970-01-01-00:00:00 1440",
            1,
            UtcCause::Routine(UtcFault::TdfRange),
        ),
        (
            "add 9999-12-31-23:59:59 00-00:00:01",
            1,
            UtcCause::Print(PrintFault::YearRange),
        ),
        // of two causes in one line the one that is read first, then computing, then printing
        ("mul 1970-01-01-00:00:00 01", 25, UtcCause::Number),
        (
            "text 00000000000000000000000000000030 x",
            39,
            UtcCause::Extra,
        ),
        ("text 0 x", 6, UtcCause::Hex),
        (
            "tdf 9999-12-31-23:59:59 1440",
            1,
            UtcCause::Routine(UtcFault::TdfRange),
        ),
        (
            "tdf 9999-12-31-23:59:59 1439",
            1,
            UtcCause::Print(PrintFault::YearRange),
        ),
    ];
    for (line, column, cause) in cases {
        let got = answer(rt.alloc(), line.as_bytes());
        let want = Some(Unfit::Refused(at(column, cause)));
        assert_equal_at!(rt; line, got.err(), want);
    }
    Ok(())
}

#[test]
fn a_text_that_is_no_time_has_the_fault_of_its_form(rt: HostRuntime) -> Result<(), Fail> {
    let cases: [(&str, u32, TextField, u32); 12] = [
        // a relative form, by its sign or its fifth octet
        ("abs -x", 6, TextField::Days, 1),
        ("abs -000-x", 9, TextField::Hour, 4),
        ("abs x", 5, TextField::Days, 0),
        ("abs 1234", 9, TextField::Hour, 4),
        ("abs 12345", 10, TextField::Hour, 5),
        // an absolute form
        ("abs 1970-13-01-00:00:00", 9, TextField::Month, 4),
        ("abs 0000-00:00:60", 5, TextField::Year, 0),
        // before a later field is looked at
        ("abs x y", 5, TextField::Days, 0),
        ("add 1970-13-01-00:00:00", 9, TextField::Month, 4),
        // a date and a clock as two words
        ("add 1970-01-01 00:00:00", 15, TextField::Hour, 10),
        // in the second operand
        ("add 00-00:00:01 00-00:00:60", 25, TextField::Second, 8),
        (
            "sub 1970-01-01-00:00:00 1970-01-01-00:00:00Z",
            44,
            TextField::Tail,
            19,
        ),
    ];
    for (line, column, field, offset) in cases {
        let got = answer(rt.alloc(), line.as_bytes());
        let want = Some(Unfit::Refused(at(column, text(field, offset))));
        assert_equal_at!(rt; line, got.err(), want);
    }
    Ok(())
}

#[test]
fn operations_are_read_and_computed(rt: HostRuntime) -> Result<(), Fail> {
    let Ok(second) = Utc::relative(10_000_000, Some(0)) else {
        return Ok(assert!(rt; false));
    };
    assert_equal!(rt; parse(b"mul 00-00:00:01I0 7"),
        Ok(Operation::Mul(second, 7)),
    );
    assert_equal!(rt; parse(b"mul"), Err(at(4, UtcCause::Missing)));
    assert_equal!(rt; compute(Operation::Mid(second, second)),
        Ok(Outcome::Order(Order4::EqualTo)),
    );
    Ok(())
}

// How a calculation of these lines ends where these reads and writes fail, and what it has written.
fn calculated(
    alloc: Global,
    lines: &[u8],
    reads: &[u64],
    writes: &[u64],
) -> Result<(Result<(), Stop<UtcRefusal>>, Text), NoMemory> {
    let mut input = MemorySource::new(alloc, lines, reads)?;
    let mut output = MemorySink::new(alloc, writes)?;
    let ended = calculate(alloc, &mut input, &mut output);
    Ok((ended, Text::from_slice(alloc, output.written())?))
}

#[test]
fn lines_are_answered_up_to_the_first_that_is_refused(rt: HostRuntime) -> Result<(), Fail> {
    let stop = |line, cause| Err(Stop::Refused { line, cause });
    for (lines, wanted, text) in [
        ("", Ok(()), ""),
        ("mid 00-00:00:01 00-00:00:01", Ok(()), "equalTo\n"),
        ("mid 00-00:00:01 00-00:00:01\n", Ok(()), "equalTo\n"),
        (
            "mid 00-00:00:01 00-00:00:01\n\nmid 00-00:00:01 00-00:00:01\n",
            stop(2, at(1, UtcCause::Word)),
            "equalTo\n",
        ),
        (
            "mid 00-00:00:01 00-00:00:01\r\n",
            stop(1, at(28, text(TextField::Tail, 11))),
            "",
        ),
    ] {
        let (ended, written) = calculated(rt.alloc(), lines.as_bytes(), &[], &[])?;
        assert_equal_at!(rt; lines, (ended, written.as_slice()), (wanted, text.as_bytes()));
    }
    Ok(())
}

#[test]
fn a_line_has_at_most_16384_octets(rt: HostRuntime) -> Result<(), Fail> {
    for (length, feed, cause) in [
        (16_384, true, at(5, text(TextField::Days, 0))),
        (16_384, false, at(5, text(TextField::Days, 0))),
        (16_385, true, at(16_385, UtcCause::Long)),
        (16_385, false, at(16_385, UtcCause::Long)),
        (200_000, true, at(16_385, UtcCause::Long)),
    ] {
        let mut lines = b"mid 00-00:00:01 00-00:00:01\nabs ".to_vec(rt.alloc())?;
        for _ in 4..length {
            lines.push(b'0')?;
        }
        if feed {
            lines.push(b'\n')?;
        }
        let (ended, written) = calculated(rt.alloc(), lines.as_slice(), &[], &[])?;
        assert_equal_at!(rt; length,
            (ended, written.as_slice()),
            (Err(Stop::Refused { line: 2, cause }), b"equalTo\n".as_slice()),
        );
    }
    Ok(())
}

#[test]
fn too_many_and_too_long_lines_have_their_causes(rt: HostRuntime) {
    assert_equal!(rt; Calculator::too_many(), at(1, UtcCause::Lines));
    assert_equal!(rt; Calculator::too_long(), at(16_385, UtcCause::Long));
}

#[test]
fn faults_are_told_and_what_was_written_stands(rt: HostRuntime) -> Result<(), Fail> {
    let lines =
        b"mid 00-00:00:01 00-00:00:01\nmid 00-00:00:01 00-00:00:02\nmid 00-00:00:02 00-00:00:01\n";
    let all = "equalTo\nlessThan\ngreaterThan\n";
    for (read, write, result, want) in [
        (1, 9, Err(Stop::Read), ""),
        (2, 9, Err(Stop::Read), all),
        (9, 1, Err(Stop::Write), ""),
        (9, 2, Err(Stop::Write), "equalTo\n"),
        (9, 3, Err(Stop::Write), "equalTo\nlessThan\n"),
        (9, 4, Ok(()), all),
    ] {
        let (ended, written) = calculated(rt.alloc(), lines, &[read], &[write])?;
        assert_equal_at!(rt; (read, write), (ended, written.as_slice()), (result, want.as_bytes()));
    }
    Ok(())
}

#[test]
fn causes_have_their_texts(rt: HostRuntime) -> Result<(), Fail> {
    let cases: [(UtcCause, &str); 16] = [
        (UtcCause::Long, "a line has at most 16384 octets"),
        (UtcCause::Lines, "an input has at most 4294967295 lines"),
        (
            UtcCause::Word,
            "no operation stands here; a line begins with add, sub, abs, mul, span, bound, tdf, interval, mid, point, bytes or text, and none is blank or a comment",
        ),
        (
            UtcCause::Missing,
            "an operand is missing here; operands are joined by single spaces",
        ),
        (UtcCause::Extra, "the line should end before this operand"),
        (
            UtcCause::Number,
            "no such number; one in decimal without leading zeros should stand here, behind mul from -2147483648 to 2147483647, behind tdf minutes from -1439 to 1439",
        ),
        (
            UtcCause::Hex,
            "these are no octets of a time; 32 hex digits should stand here",
        ),
        (
            text(TextField::Hour, 10),
            "no time is written so; `-` and an hour from 00 to 23 should stand here. A moment is one word, as 1970-01-01-00:00:00, and so is a length of time, as 00-00:00:01",
        ),
        (
            UtcCause::Bytes(BytesFault::Version { found: 3 }),
            "no time has these octets: version 3 is neither 1 nor 2; that of a moment is 1, and that of a length of time 2",
        ),
        (
            UtcCause::Bytes(BytesFault::Tdf { found: 1440 }),
            "no time has these octets: a time differential factor of 1440 minutes; a moment has -1439 to 1439, and a length of time 0",
        ),
        (
            UtcCause::Routine(UtcFault::Kinds),
            "no result: the kinds of the operands do not allow it; add takes one moment at most, sub no moment from a length of time, abs and mul a length, tdf a moment, and the others two of one kind",
        ),
        (
            UtcCause::Routine(UtcFault::Overflow),
            "no result: the time of the result is out of range; a time is a number of 64 bits, in units of 100 ns",
        ),
        (
            UtcCause::Routine(UtcFault::OutOfOrder),
            "no result: the first operand begins after the second ends; bound takes the earlier one first",
        ),
        (
            UtcCause::Routine(UtcFault::Unspecified),
            "no result: the inaccuracy of the operand is unspecified; point takes a time with `I` and seconds",
        ),
        (
            UtcCause::Routine(UtcFault::TdfRange),
            "no result: the time differential factor is a day or more; it is from -1439 to 1439 minutes",
        ),
        (
            UtcCause::Print(PrintFault::YearRange),
            "the result can't be written: a year outside 1582 to 9999",
        ),
    ];
    for (cause, want) in cases {
        assert_equal!(rt; cause.to_string(rt.alloc())?.as_str(), want);
    }
    let refusal = at(5, UtcCause::Extra);
    assert_equal!(rt; refusal.to_string(rt.alloc())?.as_str(),
        "column 5: the line should end before this operand",
    );
    Ok(())
}

// What should stand at each field, in the order of the fields.
const RIGHT: &str = "`-` or days
days of 1 to 8 digits, 10675199 at most,
a year from 1582 to 9999
`-` and a month from 01 to 12
`-` and a day of the month, as 01,
`-` and an hour from 00 to 23
`:` and a minute from 00 to 59
`:` and a second from 00 to 59
`.` and at most 7 digits
`+` or `-` and hours from 00 to 23
`:` and minutes from 00 to 59
`I` and `-----`, `inf` or at most 28147497.6710654 seconds
the end of the time";

#[test]
fn each_field_of_a_time_has_its_text(rt: HostRuntime) -> Result<(), Fail> {
    let mut rights = RIGHT.lines();
    for field in [
        TextField::Sign,
        TextField::Days,
        TextField::Year,
        TextField::Month,
        TextField::Day,
        TextField::Hour,
        TextField::Minute,
        TextField::Second,
        TextField::Fraction,
        TextField::TdfHour,
        TextField::TdfMinute,
        TextField::Inaccuracy,
        TextField::Tail,
    ] {
        let right = rights.next().unwrap_or("");
        let want = format!(in rt.alloc(); "no time is written so; {right} should stand here. ")?;
        let got = text(field, 0).to_string(rt.alloc())?;
        assert_at!(rt; right, got.as_str().starts_with(want.as_str()));
    }
    assert_equal!(rt; rights.next(), None);
    Ok(())
}

#[test]
fn the_laws_have_no_effect() {
    no_line_is_both();
    one_cause();
    one_answer();
    the_rules_are_exclusive();
    for line in [
        "",
        "abs 00-00:00:01",
        "point 1582-01-01-00:00:00I1",
        "point 00-00:00:01I1",
    ] {
        every_line_is_answered_or_refused(line.as_bytes());
    }
}
