ghost use Rattle.std.specs.Prelude.{None};

use assertions::{assert_at, assert_equal, assert_equal_at};
use dts_base::{Failed, MemorySource, NoMemory, Source};
use line_reader::*;
use std::alloc::Global;
use std::test::Fail;

// A source that gives at most so many octets at once, and counts its calls.
#[derive(Drop)]
struct Pieces<'a> {
    octets: &'a [u8],
    most: usize,
    calls: u64,
}

impl<'a> Pieces<'a> {
    fn new(octets: &'a [u8], most: usize) -> Self {
        Pieces {
            octets,
            most,
            calls: 0,
        }
    }
}

impl Source for Pieces<'_> {
    ghost left = { λ _. None };

    ghost faults = { λ _. 0 };

    fn read(&mut self, buf: &mut [u8]) -> Result<usize, Failed> {
        self.calls = self.calls.saturating_add(1);
        let count = self.most.min(buf.len()).min(self.octets.len());
        buf[..count].copy_from_slice(&self.octets[..count]);
        self.octets = &self.octets[count..];
        Ok(count)
    }
}

// The reader gives this line of the input next.
fn is_next<I: Source>(reader: &mut LineReader, input: &mut I, line: &[u8]) -> bool {
    reader.advance(input) == Ok(true) && reader.line() == line
}

// The input has ended, and the reader tells that once more.
fn is_at_end<I: Source>(reader: &mut LineReader, input: &mut I) -> bool {
    reader.advance(input) == Ok(false) && reader.advance(input) == Ok(false)
}

// The input has these lines, and then its end.
fn has_lines<I: Source>(alloc: Global, input: &mut I, lines: &[&[u8]]) -> Result<bool, NoMemory> {
    let mut reader = LineReader::new(alloc)?;
    for line in lines {
        if !is_next(&mut reader, input, line) {
            return Ok(false);
        }
    }
    Ok(is_at_end(&mut reader, input))
}

#[test]
fn each_octet_but_the_line_feed_belongs_to_its_line(rt: HostRuntime) -> Result<(), Fail> {
    let mut source = MemorySource::new(rt.alloc(), b"one\r\n\n\0\xff two\xc3\xa4\n\nlast", &[])?;
    let lines: [&[u8]; 5] = [b"one\r", b"", b"\0\xff two\xc3\xa4", b"", b"last"];
    assert!(rt; has_lines(rt.alloc(), &mut source, &lines)?);
    Ok(())
}

#[test]
fn a_line_feed_at_the_end_begins_no_line(rt: HostRuntime) -> Result<(), Fail> {
    for most in 1..5 {
        let mut source = Pieces::new(b"one\n\ntwo\n", most);
        assert_at!(rt; most, has_lines(rt.alloc(), &mut source, &[b"one", b"", b"two"])?);
    }
    Ok(())
}

#[test]
fn an_empty_input_has_no_line(rt: HostRuntime) -> Result<(), Fail> {
    let mut source = MemorySource::new(rt.alloc(), b"", &[])?;
    assert!(rt; has_lines(rt.alloc(), &mut source, &[])?);
    Ok(())
}

#[test]
fn a_line_has_up_to_16384_octets(rt: HostRuntime) -> Result<(), Fail> {
    let line = vec![in rt.alloc(); b'x'; MAX_LINE]?;
    let mut octets = line.as_slice().to_vec(rt.alloc())?;
    octets.extend_from_slice(b"\nnext")?;
    for most in [1, 1000, 65_536] {
        let mut source = Pieces::new(octets.as_slice(), most);
        let lines: [&[u8]; 2] = [line.as_slice(), b"next"];
        assert_at!(rt; most, has_lines(rt.alloc(), &mut source, &lines)?);
    }
    Ok(())
}

#[test]
fn a_longer_line_is_cut(rt: HostRuntime) -> Result<(), Fail> {
    let beginning = vec![in rt.alloc(); b'x'; MAX_LINE + 1]?;
    let mut octets = beginning.as_slice().to_vec(rt.alloc())?;
    octets.extend_from_slice(b"y\nnext")?;
    for most in [1, 1000, 65_536] {
        let mut source = Pieces::new(octets.as_slice(), most);
        let lines: [&[u8]; 3] = [beginning.as_slice(), b"y", b"next"];
        assert_at!(rt; most, has_lines(rt.alloc(), &mut source, &lines)?);
    }
    Ok(())
}

#[test]
fn an_input_may_be_longer_than_the_buffer(rt: HostRuntime) -> Result<(), Fail> {
    let mut octets = Vec::new(rt.alloc());
    for number in 0..10_000 {
        octets.extend_from_slice(format!(in rt.alloc(); "line {number}\n")?.as_bytes())?;
    }
    let mut source = MemorySource::new(rt.alloc(), octets.as_slice(), &[])?;
    let mut reader = LineReader::new(rt.alloc())?;
    for number in 0..10_000 {
        let line = format!(in rt.alloc(); "line {number}")?;
        assert!(rt; is_next(&mut reader, &mut source, line.as_bytes()));
    }
    assert!(rt; is_at_end(&mut reader, &mut source));
    Ok(())
}

#[test]
fn a_failed_read_loses_nothing(rt: HostRuntime) -> Result<(), Fail> {
    let mut source = MemorySource::new(rt.alloc(), b"one\ntwo", &[1, 3])?;
    let mut reader = LineReader::new(rt.alloc())?;
    assert_equal!(rt; reader.advance(&mut source), Err(Failed));
    assert!(rt; is_next(&mut reader, &mut source, b"one"));
    assert_equal_at!(rt; "behind the octets of a line",
        (reader.advance(&mut source), reader.line()),
        (Err(Failed), b"".as_slice()),
    );
    assert!(rt; is_next(&mut reader, &mut source, b"two"));
    assert!(rt; is_at_end(&mut reader, &mut source));
    Ok(())
}

#[test]
fn a_source_that_has_ended_is_read_no_more(rt: HostRuntime) -> Result<(), Fail> {
    let mut source = Pieces::new(b"one\ntwo", 100);
    let mut reader = LineReader::new(rt.alloc())?;
    assert!(rt; is_next(&mut reader, &mut source, b"one"));
    assert!(rt; is_next(&mut reader, &mut source, b"two"));
    assert_equal_at!(rt; "the second gave nothing", source.calls, 2);
    source.octets = b"three\n";
    assert!(rt; is_at_end(&mut reader, &mut source));
    assert_equal!(rt; (source.calls, reader.line()), (2, b"".as_slice()));
    Ok(())
}

#[test]
fn limits_are_these(rt: HostRuntime) -> Result<(), Fail> {
    assert_equal!(rt; MAX_LINE, 16_384);
    assert_equal!(rt; MAX_LINES, 4_294_967_295);
    Ok(())
}

#[test]
fn fields_stand_at_columns(rt: HostRuntime) -> Result<(), Fail> {
    let rows: [(&[u8], &[(&[u8], usize)], usize); 4] = [
        (b"", &[(b"", 1)], 1),
        (b"read 7", &[(b"read", 1), (b"7", 6)], 7),
        (
            b" a  b ",
            &[(b"", 1), (b"a", 2), (b"", 4), (b"b", 5), (b"", 7)],
            7,
        ),
        (b"a\tb\r", &[(b"a\tb\r", 1)], 5),
    ];
    for (line, expected, end) in rows {
        let mut fields = Fields::new(line);
        for (field, column) in expected {
            let found = (fields.next(), fields.column());
            assert_equal!(rt; found, (Some(*field), *column));
        }
        for _ in 0..2 {
            let found = (fields.next(), fields.column());
            assert_equal!(rt; found, (None, end));
        }
    }
    Ok(())
}

#[test]
fn numbers_are_decimal_and_in_their_range(rt: HostRuntime) -> Result<(), Fail> {
    let numbers: [(&[u8], i128); 5] = [
        (b"0", 0),
        (b"7", 7),
        (b"-1", -1),
        (b"-20", -20),
        (b"1000", 1000),
    ];
    for (field, number) in numbers {
        assert_equal!(rt; number_in(field, -20, 1000), Ok(number));
    }
    let out_of_range: [&[u8]; 7] = [
        b"-21",
        b"1001",
        b"170141183460469231731687303715884105727",
        b"170141183460469231731687303715884105728",
        b"-170141183460469231731687303715884105729",
        b"10000000000000000000000000000000000000000000000000000000000000000",
        b"-10000000000000000000000000000000000000000000000000000000000000000",
    ];
    for field in out_of_range {
        assert_equal_at!(rt; field, number_in(field, -20, 1000), Err(NumberFault::Range));
    }
    let of_no_form: [&[u8]; 12] = [
        b"",
        b"-",
        b"+7",
        b"--7",
        b"00",
        b"07",
        b"-0",
        b"-07",
        b"7 ",
        b"0x7",
        b"7\xff",
        b"1000000000000000000000000000000000000000000000000000000000000000x",
    ];
    for field in of_no_form {
        assert_equal_at!(rt; field, number_in(field, -20, 1000), Err(NumberFault::Form));
    }
    let widest: [(&[u8], i128); 2] = [
        (b"-170141183460469231731687303715884105728", i128::MIN),
        (b"170141183460469231731687303715884105727", i128::MAX),
    ];
    for (field, number) in widest {
        assert_equal!(rt; number_in(field, i128::MIN, i128::MAX), Ok(number));
    }
    let texts = format!(in rt.alloc(); "{}, {}", NumberFault::Form, NumberFault::Range)?;
    assert_equal!(rt; texts.as_str(), "no decimal number, a number out of range");
    Ok(())
}
