use assertions::assert_equal;
use dts_base::{Bytes, Field, Interval, Refused, State, WireCause};
use dts_capture::*;
use line_reader::MAX_LINE;
use slew_clock::{Anchor, ClockRecord, PartA, PartB};
use std::io::Eprint;
use std::process::Abort;
use std::test::Fail;

fn expect_line(rt: &(impl Abort + Eprint), alloc: std::alloc::Global, text: &[u8], line: Line) {
    assert_equal!(rt; parse_line(alloc, text), Ok(line));
}

fn event(event: Event) -> Line {
    Line::Event { at: None, event }
}

#[test]
fn lines_of_clocks_have_values(rt: HostRuntime) -> Result<(), Fail> {
    let osc = 1u64 << 60;
    let count = 1i64 << 61;
    expect_line(&rt, rt.alloc(), b"", Line::Blank);
    expect_line(&rt, rt.alloc(), b"# any \xff\0\t\r", Line::Blank);
    expect_line(
        &rt,
        rt.alloc(),
        b"start 1152921504606846976 2305843009213693952 0 2305843009213693952",
        Line::Start {
            osc,
            value: count,
            first: Some(Interval { lo: 0, hi: count }),
        },
    );
    expect_line(
        &rt,
        rt.alloc(),
        b"start 0 0 unknown",
        Line::Start {
            osc: 0,
            value: 0,
            first: None,
        },
    );
    expect_line(
        &rt,
        rt.alloc(),
        b"tick 7 00ffABcd00000001",
        event(Event::Tick {
            osc: 7,
            word: 0x00ff_abcd_0000_0001,
        }),
    );
    expect_line(
        &rt,
        rt.alloc(),
        b"at 18446744073709551615 read 5",
        Line::Event {
            at: Some(u64::MAX),
            event: Event::Read { osc: 5 },
        },
    );
    Ok(())
}

#[test]
fn lines_of_peers_have_values(rt: HostRuntime) -> Result<(), Fail> {
    let bytes = Bytes::from_vec(vec![in rt.alloc(); 0xabu8; 1]?);
    expect_line(
        &rt,
        rt.alloc(),
        b"data 1 4294967295 aB",
        event(Event::Stream {
            osc: 1,
            peer: u32::MAX,
            bytes,
        }),
    );
    expect_line(
        &rt,
        rt.alloc(),
        b"gram 1 2 -",
        event(Event::Gram {
            osc: 1,
            peer: 2,
            bytes: Bytes::from_vec(Vec::new(rt.alloc())),
        }),
    );
    expect_line(
        &rt,
        rt.alloc(),
        b"lost 3 0",
        event(Event::Lost { osc: 3, peer: 0 }),
    );
    expect_line(
        &rt,
        rt.alloc(),
        b"at 0 unsent 3 1000",
        Line::Event {
            at: Some(0),
            event: Event::Unsent { osc: 3, peer: 1000 },
        },
    );
    expect_line(
        &rt,
        rt.alloc(),
        b"query 4 9",
        event(Event::Query { osc: 4, tag: 9 }),
    );
    expect_line(
        &rt,
        rt.alloc(),
        b"source 4 9 5 5",
        event(Event::Source {
            osc: 4,
            tag: 9,
            interval: Interval { lo: 5, hi: 5 },
        }),
    );
    expect_line(
        &rt,
        rt.alloc(),
        b"adopt 4 64",
        event(Event::Adopt {
            osc: 4,
            required: 64,
        }),
    );
    Ok(())
}

#[test]
fn wrong_lines_are_refused_at_their_first_wrong_field(rt: HostRuntime) -> Result<(), Fail> {
    let rows: [(&[u8], u32, LineCause); 41] = [
        (b" ", 1, LineCause::Word),
        (b"reads 1", 1, LineCause::Word),
        (b"read\r 1", 1, LineCause::Word),
        (b"read", 5, LineCause::Missing),
        (b"read ", 6, LineCause::Missing),
        (b"read  1", 6, LineCause::Missing),
        (b"read 1 ", 8, LineCause::Missing),
        (b"read 1 2", 8, LineCause::Extra),
        (b"read 1\r", 6, LineCause::Number),
        (b"read 1\t", 6, LineCause::Number),
        (b"read \xc3\xa4", 6, LineCause::Number),
        (b"read -0", 6, LineCause::Number),
        (b"read 05", 6, LineCause::Number),
        (b"read +5", 6, LineCause::Number),
        (b"read -5", 6, LineCause::Range),
        (b"read 1152921504606846977", 6, LineCause::Range),
        (b"read 100000000000000000000000000000", 6, LineCause::Range),
        (b"start 1 2305843009213693953 0 1", 9, LineCause::Range),
        (b"start 1 unknown 0 1", 9, LineCause::Number),
        (b"start 1 2 unknown 3", 19, LineCause::Extra),
        (b"start 1 2 3 unknown", 13, LineCause::Number),
        (b"start 1 2 4 3", 13, LineCause::Order),
        (b"source x 9 5 4", 8, LineCause::Number),
        (b"source 1 4294967296 5 4", 10, LineCause::Range),
        (b"tick 1 00ffabcd0000000", 8, LineCause::Hex),
        (b"tick 1 00ffabcd00000001f", 8, LineCause::Hex),
        (b"tick 1 00ffabcd0000000g", 8, LineCause::Hex),
        (b"data 1 2 -", 10, LineCause::Hex),
        (b"data 1 2 abc", 10, LineCause::Hex),
        (b"ask 1 999 ab", 7, LineCause::Range),
        (b"adopt 1 0", 9, LineCause::Range),
        (b"adopt 1 65", 9, LineCause::Range),
        (b"at 18446744073709551616 read 1", 4, LineCause::Range),
        (b"at 1 tick x", 6, LineCause::At),
        (b"at 1  1", 6, LineCause::Missing),
        (b"at 1 lost x 999", 11, LineCause::Number),
        (b"at 1 lost 2 999 4", 6, LineCause::At),
        (b"at 1 at 1 read 5", 6, LineCause::At),
        (b"tick -5 xyz", 6, LineCause::Range),
        (b"start 1 2 4 3 ", 13, LineCause::Order),
        (b"ask 05 999 a 1", 5, LineCause::Number),
    ];
    for (line, column, cause) in rows {
        assert_equal!(rt; parse_line(rt.alloc(), line),
            Err(LineFault::Wrong { column, cause }),
        );
    }
    Ok(())
}

#[test]
fn faults_say_what_would_be_right(rt: HostRuntime) -> Result<(), Fail> {
    for (column, cause, text) in [
        (
            6,
            LineCause::Range,
            "column 6: this number is out of its range: OSC is 0 to 2^60, VALUE, LO and HI 0 to 2^61, \
             PEER and TAG 0 to 2^32 - 1, CONN 1000 to 2^32 - 1, REQUIRED 1 to 64, K 0 to 2^64 - 1",
        ),
        (
            4,
            LineCause::At,
            "column 4: at K should name the current record, and read, ask, or lost or unsent of a peer from 1000 \
             should follow it",
        ),
    ] {
        let fault = LineFault::Wrong { column, cause };
        assert_equal!(rt; format!(in rt.alloc(); "{fault}")?.as_str(), text);
    }
    Ok(())
}

#[test]
fn at_names_the_current_record(rt: HostRuntime) -> Result<(), Fail> {
    let read = Line::Event {
        at: Some(3),
        event: Event::Read { osc: 1 },
    };
    assert_equal!(rt; parse_line_at(rt.alloc(), 3, b"at 3 read 1"), Ok(read));
    let fault = LineFault::Wrong {
        column: 4,
        cause: LineCause::At,
    };
    assert_equal!(rt; parse_line_at(rt.alloc(), 3, b"at 4 read x"),
        Err(fault),
    );
    Ok(())
}

#[test]
fn a_line_may_be_of_16384_octets(rt: HostRuntime) -> Result<(), Fail> {
    let long = LineFault::Wrong {
        column: 16_385,
        cause: LineCause::Long,
    };
    let mut comment = vec![in rt.alloc(); b'#'; MAX_LINE]?;
    assert_equal!(rt; parse_line(rt.alloc(), comment.as_slice()),
        Ok(Line::Blank),
    );
    comment.push(b'#')?;
    assert_equal!(rt; parse_line(rt.alloc(), comment.as_slice()), Err(long));
    let mut word = vec![in rt.alloc(); b'a'; MAX_LINE]?;
    let wrong = LineFault::Wrong {
        column: 1,
        cause: LineCause::Word,
    };
    assert_equal!(rt; parse_line(rt.alloc(), word.as_slice()), Err(wrong));
    word.push(b'a')?;
    assert_equal!(rt; parse_line(rt.alloc(), word.as_slice()), Err(long));
    Ok(())
}

#[test]
fn octets_are_printed_as_far_as_a_line_reaches(rt: HostRuntime) -> Result<(), Fail> {
    for (octets, length, fits) in [(8_187, 16_384, true), (8_188, 16_386, false)] {
        let gram = |bytes| event(Event::Gram {
            osc: 1,
            peer: 12,
            bytes,
        });
        let sent = gram(Bytes::from_vec(vec![in rt.alloc(); 0xabu8; octets]?));
        let text = print_line(rt.alloc(), &sent)?;
        assert_equal!(rt; text.as_slice().len(), length);
        assert_equal!(rt; parse_line(rt.alloc(), text.as_slice()) == Ok(sent),
            fits,
        );
    }
    Ok(())
}

#[test]
fn printed_lines_read_back(rt: HostRuntime) -> Result<(), Fail> {
    let rows: [&[u8]; 17] = [
        b"",
        b"start 1 2 3 4",
        b"start 1 2 unknown",
        b"tick 7 00ffabcd00000001",
        b"data 1 4294967295 ab00",
        b"gram 1 2 -",
        b"lost 1 2",
        b"unsent 1 2",
        b"read 1152921504606846976",
        b"ask 1 1000 ff",
        b"query 1 2",
        b"source 1 2 3 2305843009213693952",
        b"adopt 1 64",
        b"at 18446744073709551615 ask 1 1000 ff",
        b"at 0 read 0",
        b"at 10 lost 1 1000",
        b"at 10 unsent 1 1000",
    ];
    for text in rows {
        match parse_line(rt.alloc(), text) {
            Ok(line) => assert_equal!(rt; print_line(rt.alloc(), &line)?.as_slice(), text),
            Err(fault) => panic!(rt; "{fault}"),
        }
    }
    Ok(())
}

fn expect_log(
    rt: &(impl Abort + Eprint),
    alloc: std::alloc::Global,
    action: Action,
    text: &[u8],
) -> Result<(), Fail> {
    assert_equal!(rt; print_action(alloc, &action)?.as_slice(), text);
    Ok(())
}

// The note at oscillator reading 7.
fn note(peer: Option<u32>, kind: NoteKind) -> Action {
    Action::Log(Note { osc: 7, peer, kind })
}

#[test]
fn actions_have_log_lines(rt: HostRuntime) -> Result<(), Fail> {
    let mut rec = ClockRecord {
        number: 1,
        step: 2,
        born: 3,
        anchor: None,
        a: PartA {
            from: 3,
            value: -4,
            x: 5,
        },
        b: PartB { from: 9, x: -6 },
    };
    let rows: [(Action, &[u8]); 4] = [
        (
            Action::Send {
                osc: 7,
                peer: 1000,
                bytes: Bytes::from_vec(vec![in rt.alloc(); 0x0au8; 2]?),
            },
            b"send 7 1000 0a0a\n",
        ),
        (
            Action::Send {
                osc: 7,
                peer: 0,
                bytes: Bytes::from_vec(Vec::new(rt.alloc())),
            },
            b"send 7 0 -\n",
        ),
        (Action::Close { osc: 7, peer: 3 }, b"close 7 3\n"),
        (Action::Publish { rec }, b"record 1 2 3 - - - 3 -4 5 9 -6\n"),
    ];
    for (action, text) in rows {
        expect_log(&rt, rt.alloc(), action, text)?;
    }
    rec.anchor = Some(Anchor {
        osc: 2,
        lo: -1,
        hi: 8,
    });
    expect_log(
        &rt,
        rt.alloc(),
        Action::Publish { rec },
        b"record 1 2 3 2 -1 8 3 -4 5 9 -6\n",
    )
}

#[test]
fn notes_of_the_clock_have_log_lines(rt: HostRuntime) -> Result<(), Fail> {
    let rows: [(NoteKind, &[u8]); 13] = [
        (
            NoteKind::Reading {
                value: -1,
                inaccuracy: None,
                step: 2,
                number: 3,
            },
            b"reading 7 -1 - 2 3\n",
        ),
        (
            NoteKind::Reading {
                value: 1,
                inaccuracy: Some(0),
                step: 2,
                number: 3,
            },
            b"reading 7 1 0 2 3\n",
        ),
        (
            NoteKind::Round {
                number: 1,
                sources: 2,
            },
            b"round 7 1 2\n",
        ),
        (
            NoteKind::Adopted {
                n: 3,
                lo: -1,
                hi: 2,
            },
            b"adopted 7 3 -1 2\n",
        ),
        (NoteKind::False(FalseSource::Peer(4)), b"false 7 4\n"),
        (NoteKind::False(FalseSource::Tag(5)), b"false 7 5\n"),
        (NoteKind::False(FalseSource::Own), b"false 7 own\n"),
        (
            NoteKind::Step {
                step: 1,
                old: -2,
                new: 3,
            },
            b"step 7 1 -2 3\n",
        ),
        (
            NoteKind::Short {
                answered: 1,
                required: 2,
            },
            b"short 7 1 2\n",
        ),
        (NoteKind::Split { n: 3 }, b"split 7 3\n"),
        (
            NoteKind::RepeatedTag { tag: 1 },
            b"note 7 - repeated_tag 1\n",
        ),
        (NoteKind::UnknownTag { tag: 2 }, b"note 7 - unknown_tag 2\n"),
        (NoteKind::TagsFull, b"note 7 - tags_full 64\n"),
    ];
    for (kind, text) in rows {
        expect_log(&rt, rt.alloc(), note(None, kind), text)?;
    }
    Ok(())
}

#[test]
fn notes_of_calls_have_log_lines(rt: HostRuntime) -> Result<(), Fail> {
    let refused = Refused {
        field: Field::FragLength,
        offset: 8,
        cause: WireCause::Long,
    };
    let rows: [(NoteKind, &[u8]); 14] = [
        (
            NoteKind::Refused(refused),
            b"note 7 1000 refused frag_length 8 long\n",
        ),
        (
            NoteKind::UnknownCall { call_id: 1 },
            b"note 7 1000 unknown_call 1\n",
        ),
        (
            NoteKind::Unexpected {
                ptype: 2,
                state: State::Gathering,
            },
            b"note 7 1000 unexpected 2 gathering\n",
        ),
        (
            NoteKind::Fragments {
                have: 65_537,
                limit: 65_536,
            },
            b"note 7 1000 fragments 65537 65536\n",
        ),
        (
            NoteKind::Rejected {
                result: 1,
                reason: 2,
            },
            b"note 7 1000 rejected 1 2\n",
        ),
        (NoteKind::Nak { reason: 3 }, b"note 7 1000 nak 3\n"),
        (
            NoteKind::Fault {
                status: 0x1c01_000b,
            },
            b"note 7 1000 fault 469827595\n",
        ),
        (NoteKind::Shutdown, b"note 7 1000 shutdown\n"),
        (NoteKind::CallsSpent, b"note 7 1000 calls_spent\n"),
        (NoteKind::Stray, b"note 7 1000 stray\n"),
        (NoteKind::Lost, b"note 7 1000 lost\n"),
        (NoteKind::Unsent, b"note 7 1000 unsent\n"),
        (NoteKind::Busy, b"note 7 1000 busy\n"),
        (
            NoteKind::Regressed { floor: 9 },
            b"note 7 1000 regressed 9\n",
        ),
    ];
    for (kind, text) in rows {
        expect_log(&rt, rt.alloc(), note(Some(1000), kind), text)?;
    }
    Ok(())
}

#[test]
fn notes_of_answers_have_log_lines(rt: HostRuntime) -> Result<(), Fail> {
    let rows: [(NoteKind, &[u8]); 14] = [
        (
            NoteKind::Epoch { own: 1, theirs: 2 },
            b"note 7 1000 epoch 1 2\n",
        ),
        (
            NoteKind::UnusedStatus { status: 5 },
            b"note 7 1000 unused status 5\n",
        ),
        (NoteKind::UnusedKind, b"note 7 1000 unused kind\n"),
        (
            NoteKind::UnusedUnspecified,
            b"note 7 1000 unused unspecified\n",
        ),
        (NoteKind::UnusedRange, b"note 7 1000 unused range\n"),
        (NoteKind::NoQuery, b"note 7 1000 no_query\n"),
        (NoteKind::Mode { found: 3 }, b"note 7 1000 mode 3\n"),
        (
            NoteKind::Kiss { code: 0x5241_5445 },
            b"note 7 1000 kiss 52415445\n",
        ),
        (NoteKind::Stratum { found: 16 }, b"note 7 1000 stratum 16\n"),
        (NoteKind::Unsynchronised, b"note 7 1000 unsynchronised\n"),
        (NoteKind::Origin, b"note 7 1000 origin\n"),
        (NoteKind::ZeroStamp, b"note 7 1000 zero_stamp\n"),
        (NoteKind::Order, b"note 7 1000 order\n"),
        (NoteKind::Distance, b"note 7 1000 distance\n"),
    ];
    for (kind, text) in rows {
        expect_log(&rt, rt.alloc(), note(Some(1000), kind), text)?;
    }
    Ok(())
}
