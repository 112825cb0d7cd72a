use assertions::{assert_equal, assert_equal_at};
use dts_base::{Failed, MemorySink, MemorySource, NoMemory, Sink, Text};
use line_filter::*;
use line_reader::MAX_LINE;
use std::alloc::Global;
use std::test::Fail;
use thiserror::Error;

#[derive(Clone, Copy, Debug, PartialEq, Eq, Error)]
enum Wrong {
    #[error("the word no")]
    Word,
    #[error("no line")]
    Nothing,
    #[error("too many lines")]
    Many,
    #[error("too many octets")]
    Long,
}

// Takes each line but `no`, and gives it and a line feed, or nothing where it is empty. There must be a line.
#[derive(Drop)]
struct Copies {
    any: bool,
}

impl LineFilter for Copies {
    ghost use Rattle.std.specs.Prelude.{◌≡◌, ◌≢◌, Bool, true, false, [], ◌∷◌, ◌++◌, length, ◌==◌, if◌then◌else◌, codes};
    ghost use Rattle.outside_tests.specs.declared.filters.Wrong.TheVariants.{Word, Nothing, Many, Long};

    type Cause = Wrong;

    ghost State = { Bool };

    ghost rules = { record {
      Takes = λ state line next text. (line ≢ codes "no") × (next ≡ true) × (text ≡ (if length line == 0 then [] else line ++ 10 ∷ []));
      Refuses = λ state line cause. (line ≡ codes "no") × (cause ≡ Word);
      RefusesEnd = λ state cause. (state ≡ false) × (cause ≡ Nothing);
      too_many = Many;
      too_long = Long;
    } };

    ghost stands = { λ filter n state. filter.any ≡ state };

    fn take(
        &mut self,
        _: Global,
        _: u64,
        line: &[u8],
        text: &mut Vec<u8>,
    ) -> Result<(), Unfit<Wrong>> {
        if line == b"no".as_slice() {
            return Err(Unfit::Refused(Wrong::Word));
        }
        self.any = true;
        if line.is_empty() {
            return Ok(());
        }
        if text.extend_from_slice(line).is_err() || text.push(b'\n').is_err() {
            return Err(Unfit::NoMemory);
        }
        Ok(())
    }

    fn end(&self, _: u64) -> Result<(), Wrong> {
        if self.any {
            Ok(())
        } else {
            Err(Wrong::Nothing)
        }
    }

    fn too_many() -> Wrong {
        Wrong::Many
    }

    fn too_long() -> Wrong {
        Wrong::Long
    }
}

// A sink that counts its calls.
#[derive(Drop)]
struct Counter {
    calls: u64,
}

impl Sink for Counter {
    ghost use Rattle.std.specs.Prelude.{None};

    ghost written = { λ _. None };

    ghost faults = { λ _. 0 };

    fn write(&mut self, piece: &[u8]) -> Result<usize, Failed> {
        self.calls = self.calls.saturating_add(1);
        Ok(piece.len())
    }
}

// How the filter ends over the octets, where these reads and writes fail, and what was written.
fn filtered(
    alloc: Global,
    octets: &[u8],
    reads: &[u64],
    writes: &[u64],
) -> Result<(Result<(), Stop<Wrong>>, Text), NoMemory> {
    let mut input = MemorySource::new(alloc, octets, reads)?;
    let mut output = MemorySink::new(alloc, writes)?;
    let mut filter = Copies { any: false };
    let ended = filter_lines(alloc, &mut filter, &mut input, &mut output);
    Ok((ended, Text::from_slice(alloc, output.written())?))
}

#[test]
fn lines_are_filtered_to_the_end_or_to_a_refused_one(rt: HostRuntime) -> Result<(), Fail> {
    let refused = |line, cause| Err(Stop::Refused { line, cause });
    // no call fails where its number is 0
    for (octets, read, write, wanted, text) in [
        (
            b"one\n\ntwo\n".as_slice(),
            0,
            0,
            Ok(()),
            b"one\ntwo\n".as_slice(),
        ),
        (b"one\ntwo", 0, 0, Ok(()), b"one\ntwo\n"),
        (b"\n", 0, 0, Ok(()), b""),
        (b"", 0, 0, refused(1, Wrong::Nothing), b""),
        (b"one\nno\nno\n", 0, 0, refused(2, Wrong::Word), b"one\n"),
        (b"one\ntwo", 1, 0, Err(Stop::Read), b""),
        (b"one\ntwo", 2, 0, Err(Stop::Read), b"one\n"),
        (b"one\ntwo", 0, 2, Err(Stop::Write), b"one\n"),
        (b"one\nno", 0, 1, Err(Stop::Write), b""),
    ] {
        let (ended, written) = filtered(rt.alloc(), octets, &[read], &[write])?;
        assert_equal_at!(rt; octets, ended, wanted);
        assert_equal_at!(rt; octets, written.as_slice(), text);
    }
    Ok(())
}

#[test]
fn a_text_is_one_piece_and_an_empty_one_is_none(rt: HostRuntime) -> Result<(), Fail> {
    let mut input = MemorySource::new(rt.alloc(), b"one\n\n\ntwo\n", &[])?;
    let mut output = Counter { calls: 0 };
    let mut filter = Copies { any: false };
    let ended = filter_lines(rt.alloc(), &mut filter, &mut input, &mut output);
    assert_equal!(rt; ended, Ok(()));
    assert_equal!(rt; output.calls, 2);
    Ok(())
}

#[test]
fn a_line_has_up_to_16384_octets(rt: HostRuntime) -> Result<(), Fail> {
    let mut octets = vec![in rt.alloc(); b'x'; MAX_LINE]?;
    octets.push(b'\n')?;
    let (ended, written) = filtered(rt.alloc(), octets.as_slice(), &[], &[])?;
    assert_equal!(rt; ended, Ok(()));
    assert_equal!(rt; written.as_slice(), octets.as_slice());
    let longer = vec![in rt.alloc(); b'x'; MAX_LINE + 1]?;
    let (ended, written) = filtered(rt.alloc(), longer.as_slice(), &[], &[])?;
    let long = Stop::Refused {
        line: 1,
        cause: Wrong::Long,
    };
    assert_equal!(rt; ended, Err(long));
    assert_equal!(rt; written.as_slice(), b"".as_slice());
    Ok(())
}

#[test]
fn stops_have_texts(rt: HostRuntime) -> Result<(), Fail> {
    let refused = Stop::Refused {
        line: 7,
        cause: Wrong::Word,
    };
    let rows = [
        (refused, "line 7: the word no"),
        (Stop::Read, "the input can't be read"),
        (Stop::Write, "the output can't be written"),
        (Stop::NoMemory, "out of memory"),
    ];
    for (stop, expected) in rows {
        let text = format!(in rt.alloc(); "{stop}")?;
        assert_equal!(rt; text.as_str(), expected);
    }
    let rows = [
        (Unfit::Refused(Wrong::Nothing), "no line"),
        (Unfit::NoMemory, "out of memory"),
    ];
    for (fault, expected) in rows {
        let text = format!(in rt.alloc(); "{fault}")?;
        assert_equal!(rt; text.as_str(), expected);
    }
    one_way_to_end::<Copies>();
    valid_input_is_not_refused::<Copies>();
    each_input_is_settled::<Copies>();
    too_many_comes_first::<Copies>();
    Ok(())
}
