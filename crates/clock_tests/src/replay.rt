use assertions::{assert_equal, assert_equal_at};
use capture_replay::{CaptureFault, replay};
use dts_base::{MemorySink, MemorySource};
use dts_capture::LineCause;
use line_filter::Stop;
use slew_clock::Rates;
use std::alloc::Global;
use std::io::Eprint;
use std::process::Abort;
use std::test::Fail;

type Ended = Result<(), Stop<CaptureFault>>;

fn refused(line: u64, column: u32, cause: LineCause) -> Ended {
    Err(Stop::Refused {
        line,
        cause: CaptureFault { column, cause },
    })
}

// Replays the lines, and compares the end and the log.
fn judge(
    rt: &(impl Abort + Eprint),
    alloc: Global,
    lines: &str,
    ended: Ended,
    log: &str,
) -> Result<(), Fail> {
    let mut input = MemorySource::new(alloc, lines.as_bytes(), &[])?;
    let mut output = MemorySink::new(alloc, &[])?;
    let got = replay(alloc, Rates::usual(), &mut input, &mut output);
    assert_equal_at!(rt; lines, got, ended);
    assert_equal_at!(rt; lines, output.written(), log.as_bytes());
    Ok(())
}

#[test]
fn captures_give_their_logs(rt: HostRuntime) -> Result<(), Fail> {
    let start = "start 0 1 unknown\n";
    let record = "record 0 0 0 - - - 0 1 0 0 0\n";
    let first_word = |line| refused(line, 1, LineCause::Word);
    let no_start = |line| refused(line, 1, LineCause::Start);
    for (lines, ended, log) in [
        (
            "start 0 1000000 999000 1001000\nread 0\nread 10000000\nread 50000000\n",
            Ok(()),
            "record 0 0 0 0 999000 1001000 0 1000000 0 0 0\nreading 0 1000000 1001 0 0\nreading 10000000 11000000 2001 0 0\nreading 50000000 41000000 10006001 0 0\n",
        ),
        (
            "start 0 1000000 999000 1001000\ntick 0 0000000000000001\ntick 100000000 0000000000000001\nread 100000000\n",
            Ok(()),
            "record 0 0 0 0 999000 1001000 0 1000000 0 0 0\nrecord 1 0 0 0 999000 1001000 0 1000000 0 40000000 0\nrecord 2 0 100000000 0 999000 1001000 100000000 81000000 0 100000000 400000\nreading 100000000 81000000 20011001 0 2\n",
        ),
        (
            "\n# a comment\n\nstart 100 1000000 unknown\nread 99\ntick 99 0000000000000000\n",
            Ok(()),
            "record 0 0 100 - - - 100 1000000 0 100 0\nnote 99 - regressed 100\nnote 99 - regressed 100\n",
        ),
        (
            "start 0 1 unknown\nread 7\nread 6\nread 7\nat 0 read 8",
            Ok(()),
            "record 0 0 0 - - - 0 1 0 0 0\nreading 7 8 - 0 0\nnote 6 - regressed 7\nreading 7 8 - 0 0\nreading 8 9 - 0 0\n",
        ),
        ("", no_start(1), ""),
        ("\n#\n", no_start(3), ""),
        ("read 5\n", no_start(1), ""),
        ("starting 0 1 unknown\n", no_start(1), ""),
        ("start 0 1 2\n", refused(1, 12, LineCause::Missing), ""),
        ("start 0 1 unknown\n\nstart x\n", no_start(3), record),
        (
            "start 0 1 unknown\nread x\n",
            refused(2, 6, LineCause::Number),
            record,
        ),
        (
            "start 0 1 unknown\nat 1 read 5\n",
            refused(2, 4, LineCause::At),
            record,
        ),
        (
            "start 0 1 unknown\r\nread 1\n",
            refused(1, 11, LineCause::Number),
            "",
        ),
        (
            "start 0 1000000 999000 1001000\nread 0\ndata 5 0 050",
            refused(3, 10, LineCause::Hex),
            "record 0 0 0 0 999000 1001000 0 1000000 0 0 0\nreading 0 1000000 1001 0 0\n",
        ),
        ("start 0 1 unknown\nlost 1 1\n", first_word(2), record),
        ("start 0 1 unknown\nask 1 1000 00\n", first_word(2), record),
        ("start 0 1 unknown\n\u{e9}\n", first_word(2), record),
    ] {
        judge(&rt, rt.alloc(), lines, ended, log)?;
    }
    let lines = format!(in rt.alloc(); "{start}read 5")?;
    for (read, write, ended, log) in [
        (1, 9, Err(Stop::Read), ""),
        (9, 1, Err(Stop::Write), ""),
        (9, 2, Err(Stop::Write), record),
    ] {
        let mut input = MemorySource::new(rt.alloc(), lines.as_bytes(), &[read])?;
        let mut output = MemorySink::new(rt.alloc(), &[write])?;
        let got = replay(rt.alloc(), Rates::usual(), &mut input, &mut output);
        assert_equal_at!(rt; (read, write), got, ended);
        assert_equal!(rt; output.written(), log.as_bytes());
    }
    Ok(())
}

// The start of a clock without an interval, and the tags that are asked behind it.
const UNKNOWN: &str = "start 0 1000000 unknown\n";

const UNKNOWN_RECORD: &str = "record 0 0 0 - - - 0 1000000 0 0 0\n";

const FOUR_ASKED: &str = "query 0 1\nquery 0 2\nquery 0 3\nquery 0 4\n";

#[test]
fn rounds_give_their_logs(rt: HostRuntime) -> Result<(), Fail> {
    for (asked, lines, log) in [
        // Two halves that do not meet are split.
        (
            FOUR_ASKED,
            "source 0 1 0 10\nsource 0 2 0 10\nsource 0 3 20 30\nsource 0 4 20 30\nadopt 0 1\n",
            "split 0 4\n",
        ),
        // Fewer answers than required are short, and the round is over all the same.
        (
            FOUR_ASKED,
            "source 0 1 0 10\nsource 0 2 0 10\nadopt 0 3\nadopt 0 1\nsource 0 3 0 10\n",
            "short 0 2 3\nshort 0 0 1\nnote 0 - unknown_tag 3\n",
        ),
        // As many as required are enough.
        (
            FOUR_ASKED,
            "source 0 1 0 10\nsource 0 2 0 10\nadopt 0 2\n",
            "adopted 0 2 0 11\nstep 0 1 1000000 5\nrecord 1 1 0 0 0 11 0 5 0 0 0\n",
        ),
        // A source that touches the adopted interval is not false.
        (
            FOUR_ASKED,
            "source 0 1 0 10\nsource 0 2 0 10\nsource 0 3 11 20\nadopt 0 1\n",
            "adopted 0 3 0 11\nstep 0 1 1000000 5\nrecord 1 1 0 0 0 11 0 5 0 0 0\n",
        ),
        // One that lies past it by one is.
        (
            FOUR_ASKED,
            "source 0 1 0 10\nsource 0 2 0 10\nsource 0 3 12 20\nadopt 0 1\n",
            "adopted 0 3 0 11\nfalse 0 3\nstep 0 1 1000000 5\nrecord 1 1 0 0 0 11 0 5 0 0 0\n",
        ),
        // False sources are named in the order of their answers.
        (
            FOUR_ASKED,
            "query 0 5\nsource 0 4 20 30\nsource 0 1 0 10\nsource 0 2 0 10\nsource 0 3 20 30\nsource 0 5 0 10\nadopt 0 1\n",
            "adopted 0 5 0 11\nfalse 0 4\nfalse 0 3\nstep 0 1 1000000 5\nrecord 1 1 0 0 0 11 0 5 0 0 0\n",
        ),
        // Answers are carried on: the low end from when it came, the high end from when it was asked.
        (
            "",
            "query 0 1\nsource 1000000 1 0 10\nadopt 2000000 1\n",
            "adopted 2000000 1 999899 2000211\nstep 2000000 1 3000000 1500055\nrecord 1 1 2000000 2000000 999899 2000211 2000000 1500055 0 2000000 0\n",
        ),
        // A tag is asked and answered once.
        (
            FOUR_ASKED,
            "query 0 3\nsource 0 3 20 30\nquery 0 3\nsource 0 3 0 10\nsource 0 5 0 10\n",
            "note 0 - repeated_tag 3\nnote 0 - repeated_tag 3\nnote 0 - unknown_tag 3\nnote 0 - unknown_tag 5\n",
        ),
        // Where the oscillator went back nothing is asked, answered or forgotten.
        (
            "",
            "query 5 1\nquery 4 2\nsource 4 1 0 10\nadopt 4 1\nquery 5 1\nsource 5 2 0 10\nadopt 5 1\ntick 4 0000000000000001\n",
            "note 4 - regressed 5\nnote 4 - regressed 5\nnote 4 - regressed 5\nnote 5 - repeated_tag 1\nnote 5 - unknown_tag 2\nshort 5 0 1\nnote 4 - regressed 5\n",
        ),
    ] {
        let lines = format!(in rt.alloc(); "{UNKNOWN}{asked}{lines}")?;
        let log = format!(in rt.alloc(); "{UNKNOWN_RECORD}{log}")?;
        judge(&rt, rt.alloc(), lines.as_str(), Ok(()), log.as_str())?;
    }
    Ok(())
}

#[test]
fn a_round_has_at_most_64_tags(rt: HostRuntime) -> Result<(), Fail> {
    let mut lines = String::new(rt.alloc());
    lines.push_str(UNKNOWN)?;
    for tag in 1..=64u32 {
        lines.push_str(format!(in rt.alloc(); "query 0 {tag}\n")?.as_str())?;
    }
    judge(&rt, rt.alloc(), lines.as_str(), Ok(()), UNKNOWN_RECORD)?;
    lines.push_str("query 0 65\nquery 0 64\nsource 0 65 0 10\nadopt 0 1\nquery 0 65\n")?;
    let notes =
        "note 0 - tags_full 64\nnote 0 - repeated_tag 64\nnote 0 - unknown_tag 65\nshort 0 0 1\n";
    let log = format!(in rt.alloc(); "{UNKNOWN_RECORD}{notes}")?;
    judge(&rt, rt.alloc(), lines.as_str(), Ok(()), log.as_str())
}

#[test]
fn adoptions_slew_or_step(rt: HostRuntime) -> Result<(), Fail> {
    let known = "start 0 10000000000 9999999000 10000001000\nquery 0 1\n";
    let record = "record 0 0 0 0 9999999000 10000001000 0 10000000000 0 0 0\n";
    for (lines, log) in [
        // As far as the tolerance the clock is slewed: the line stays, and the next renewal leads to the interval.
        (
            "source 0 1 16000000000 16000000000\nadopt 0 1\ntick 0 0000000000000001\n",
            "adopted 0 1 16000000000 16000000001\nrecord 1 0 0 0 16000000000 16000000001 0 10000000000 0 0 0\nrecord 2 0 0 0 16000000000 16000000001 0 10000000000 0 40000000 400000\n",
        ),
        (
            "source 0 1 4000000000 4000000000\nadopt 0 1\n",
            "adopted 0 1 4000000000 4000000001\nrecord 1 0 0 0 4000000000 4000000001 0 10000000000 0 0 0\n",
        ),
        // Past it the clock steps, and a second time the step has the next number.
        (
            "source 0 1 16000000001 16000000001\nadopt 0 1\nquery 0 1\nsource 0 1 0 0\nadopt 0 1\nread 0\n",
            "adopted 0 1 16000000001 16000000002\nstep 0 1 10000000000 16000000001\nrecord 1 1 0 0 16000000001 16000000002 0 16000000001 0 0 0\nadopted 0 1 0 1\nstep 0 2 16000000001 0\nrecord 2 2 0 0 0 1 0 0 0 0 0\nreading 0 0 2 2 2\n",
        ),
        (
            "source 0 1 3999999999 3999999999\nadopt 0 1\n",
            "adopted 0 1 3999999999 4000000000\nstep 0 1 10000000000 3999999999\nrecord 1 1 0 0 3999999999 4000000000 0 3999999999 0 0 0\n",
        ),
        // No read is served from before the record that is current.
        (
            "read 7\nsource 9 1 0 0\nadopt 9 1\nread 8\nread 9\nat 1 read 10\n",
            "reading 7 10000000007 1002 0 0\nadopted 9 1 0 11\nstep 9 1 10000000009 5\nrecord 1 1 9 9 0 11 9 5 0 9 0\nnote 8 - regressed 9\nreading 9 5 7 1 1\nreading 10 6 8 1 1\n",
        ),
    ] {
        let lines = format!(in rt.alloc(); "{known}{lines}")?;
        let log = format!(in rt.alloc(); "{record}{log}")?;
        judge(&rt, rt.alloc(), lines.as_str(), Ok(()), log.as_str())?;
    }
    judge(
        &rt,
        rt.alloc(),
        "start 0 30000000000 29999999000 30000001000\nquery 10000000 7\nsource 10000000 7 20000000000 20000002000\nadopt 10000000 1\nread 10000000\n",
        Ok(()),
        "record 0 0 0 0 29999999000 30000001000 0 30000000000 0 0 0\nadopted 10000000 1 20000000000 20000002001\nstep 10000000 1 30010000000 20000001000\nrecord 1 1 10000000 10000000 20000000000 20000002001 10000000 20000001000 0 10000000 0\nreading 10000000 20000001000 1002 1 1\n",
    )
}

#[test]
fn ticks_slew_to_the_interval(rt: HostRuntime) -> Result<(), Fail> {
    let start = "start 0 2000000 999000 1001000\n";
    let record = "record 0 0 0 0 999000 1001000 0 2000000 0 0 0\n";
    let first = "record 1 0 0 0 999000 1001000 0 2000000 0 40000000 -400000\n";
    for (lines, log) in [
        // Before its second part begins the line is not renewed, and from there on it is.
        ("tick 39999999 0000000000000001\n", ""),
        (
            "tick 40000000 0000000000000001\ntick 80000000 0000000000000001\nread 100000000\ntick 120000000 0000000000000001\n",
            "record 2 0 40000000 0 999000 1001000 40000000 42000000 -400000 80000000 -400000\nrecord 3 0 80000000 0 999000 1001000 80000000 81600000 -400000 120000000 -200000\nreading 100000000 101400000 411001 0 3\nrecord 4 0 120000000 0 999000 1001000 120000000 121200000 -200000 160000000 0\n",
        ),
    ] {
        let lines = format!(in rt.alloc(); "{start}tick 0 0000000000000001\n{lines}")?;
        let log = format!(in rt.alloc(); "{record}{first}{log}")?;
        judge(&rt, rt.alloc(), lines.as_str(), Ok(()), log.as_str())?;
    }
    Ok(())
}

#[test]
fn a_line_has_at_most_16384_octets(rt: HostRuntime) -> Result<(), Fail> {
    for (length, ended) in [
        (16_384, Ok(())),
        (16_385, refused(2, 16_385, LineCause::Long)),
    ] {
        let mut lines = b"start 0 1 unknown\n".to_vec(rt.alloc())?;
        for _ in 0..length {
            lines.push(b'#')?;
        }
        let mut input = MemorySource::new(rt.alloc(), lines.as_slice(), &[])?;
        let mut output = MemorySink::new(rt.alloc(), &[])?;
        let got = replay(rt.alloc(), Rates::usual(), &mut input, &mut output);
        assert_equal_at!(rt; length, got, ended);
    }
    Ok(())
}

#[test]
fn faults_have_their_texts(rt: HostRuntime) -> Result<(), Fail> {
    let fault = CaptureFault {
        column: 7,
        cause: LineCause::Number,
    };
    let text = "column 7: a decimal number without leading zeros should stand here";
    assert_equal!(rt; format!(in rt.alloc(); "{fault}")?.as_str(), text);
    Ok(())
}
