use assertions::assert_equal;
use dts_base::{MemorySink, MemorySource};
use std::alloc::Global;
use std::io::Eprint;
use std::process::Abort;
use std::test::Fail;
use utc_order::*;
use utc_text::{TextFault, TextField};

// Orders the octets, where these reads and writes fail, and expects this answer and this text.
fn expect_ordered(
    rt: &(impl Abort + Eprint),
    alloc: Global,
    octets: &[u8],
    fails: (&[u64], &[u64]),
    expected: OrderStatus,
    text: &[u8],
) -> Result<(), Fail> {
    let mut input = MemorySource::new(alloc, octets, fails.0)?;
    let mut output = MemorySink::new(alloc, fails.1)?;
    let status = order(alloc, &mut input, &mut output);
    assert_equal!(rt; status, expected);
    assert_equal!(rt; output.written(), text);
    Ok(())
}

// Expects each input's text.
fn expect_texts(
    rt: &(impl Abort + Eprint),
    alloc: Global,
    rows: &[(&[u8], &[u8])],
) -> Result<(), Fail> {
    for (octets, text) in rows {
        expect_ordered(rt, alloc, octets, (&[], &[]), OrderStatus::Done, text)?;
    }
    Ok(())
}

// Expects that each input is refused at this line for this cause, and nothing is written.
fn expect_refusals(
    rt: &(impl Abort + Eprint),
    alloc: Global,
    rows: &[(&[u8], u32, OrderCause)],
) -> Result<(), Fail> {
    for (octets, line, cause) in rows {
        let status = OrderStatus::Refused {
            line: *line,
            cause: *cause,
        };
        expect_ordered(rt, alloc, octets, (&[], &[]), status, b"")?;
    }
    Ok(())
}

#[test]
fn lines_stand_in_their_order_with_their_marks(rt: HostRuntime) -> Result<(), Fail> {
    let rows: [(&[u8], &[u8]); 4] = [
        (
            b"0 1970-01-01-00:00:10I1 a\n1 1970-01-01-00:00:05I0 b\n0 1970-01-01-00:00:12I4 c\n",
            b"< 1 1970-01-01-00:00:05I0 b\n< 0 1970-01-01-00:00:10I1 a\n~ 0 1970-01-01-00:00:12I4 c\n",
        ),
        (b"", b""),
        // An unspecified line of a host that had none before stands first, and none is certainly later than it.
        (
            b"1 1970-01-01-00:00:05I0 b\n0 1970-01-01-00:00:10 a\n0 1970-01-01-00:00:11I1 d\n1 1970-01-01-00:00:12Iinf e",
            b"< 0 1970-01-01-00:00:10 a\n~ 1 1970-01-01-00:00:05I0 b\n~ 1 1970-01-01-00:00:12Iinf e\n~ 0 1970-01-01-00:00:11I1 d\n",
        ),
        // Equal keys stand by host, and then as they were read.
        (
            b"63 1970-01-01-00:00:05I0 \n0 1970-01-01-00:00:07I2 x\n0 1970-01-01-00:00:05I0 y\n",
            b"< 0 1970-01-01-00:00:07I2 x\n~ 0 1970-01-01-00:00:05I0 y\n~ 63 1970-01-01-00:00:05I0 \n",
        ),
    ];
    expect_texts(&rt, rt.alloc(), &rows)
}

#[test]
fn texts_have_any_octets_and_times_their_factors(rt: HostRuntime) -> Result<(), Fail> {
    let rows: [(&[u8], &[u8]); 2] = [
        (
            b"0 1970-01-01-02:00:00+02:00I0  \xff\x00\r \n1 1970-01-01-00:00:00-00:01I0 ",
            b"< 0 1970-01-01-02:00:00+02:00I0  \xff\x00\r \n< 1 1970-01-01-00:00:00-00:01I0 \n",
        ),
        (
            b"2 1970-01-01-00:00:00-01:00I0 w\n1 1970-01-01-01:00:00+01:00I0 e\n",
            b"< 1 1970-01-01-01:00:00+01:00I0 e\n< 2 1970-01-01-00:00:00-01:00I0 w\n",
        ),
    ];
    expect_texts(&rt, rt.alloc(), &rows)
}

#[test]
fn the_first_refused_line_is_told_with_its_first_cause(rt: HostRuntime) -> Result<(), Fail> {
    let time = |field, offset| OrderCause::Time(TextFault { field, offset });
    let rows: [(&[u8], u32, OrderCause); 12] = [
        (b"\n64 x\n", 1, OrderCause::Host),
        (b"64 1970-01-01-00:00:00 x", 1, OrderCause::Host),
        (b"00 1970-01-01-00:00:00 x", 1, OrderCause::Host),
        (b" 1970-01-01-00:00:00 x", 1, OrderCause::Host),
        (b"63", 1, time(TextField::Year, 0)),
        (b"63 \n", 1, time(TextField::Year, 0)),
        (b"0 1970-13-01-00:00:00", 1, time(TextField::Month, 4)),
        (b"0 1970-01-01-00:00:00\tx", 1, time(TextField::Tail, 19)),
        (b"0 1970-01-01-00:00:00", 1, OrderCause::Text),
        (
            b"0 1970-01-01-00:00:10I1 a\n0 1970-01-01-00:00:05I1 d\n",
            2,
            OrderCause::Backward { earlier: 1 },
        ),
        (
            b"1 1970-01-01-00:00:20I0 o\n0 1970-01-01-00:00:04I0 a\n0 1970-01-01-00:00:09I1 b\n0 1970-01-01-00:00:30I0 c\n0 1970-01-01-00:00:07I0 d\n",
            5,
            OrderCause::Backward { earlier: 3 },
        ),
        (
            b"0 1970-01-01-00:00:10I1 a\n0 1970-01-01-00:00:05I1\n",
            2,
            OrderCause::Text,
        ),
    ];
    expect_refusals(&rt, rt.alloc(), &rows)
}

// A line of so many octets, without its line feed.
fn line_of(alloc: Global, length: usize) -> Result<Vec<u8>, Fail> {
    let mut line = b"0 1970-01-01-00:00:00I0 ".to_vec(alloc)?;
    for _ in line.len()..length {
        line.push(b'x')?;
    }
    Ok(line)
}

#[test]
fn a_line_has_at_most_1024_octets(rt: HostRuntime) -> Result<(), Fail> {
    let alloc = rt.alloc();
    let longest = line_of(alloc, MAX_OCTETS)?;
    let mut text = b"< ".to_vec(alloc)?;
    text.extend_from_slice(longest.as_slice())?;
    text.push(b'\n')?;
    expect_texts(&rt, alloc, &[(longest.as_slice(), text.as_slice())])?;
    let longer = line_of(alloc, MAX_OCTETS + 1)?;
    let mut wrong = b"64".to_vec(alloc)?;
    wrong.extend_from_slice(longer.as_slice())?;
    let rows: [(&[u8], u32, OrderCause); 2] = [
        (longer.as_slice(), 1, OrderCause::Long),
        (wrong.as_slice(), 1, OrderCause::Long),
    ];
    expect_refusals(&rt, alloc, &rows)
}

// So many lines of one host and one time.
fn lines_of(alloc: Global, count: usize) -> Result<Vec<u8>, Fail> {
    let mut octets = Vec::new(alloc);
    for _ in 0..count {
        octets.extend_from_slice(b"7 1970-01-01-00:00:00I0 \n")?;
    }
    Ok(octets)
}

#[test]
fn an_input_has_at_most_100000_lines(rt: HostRuntime) -> Result<(), Fail> {
    let alloc = rt.alloc();
    let mut octets = lines_of(alloc, MAX_LINES)?;
    let mut input = MemorySource::new(alloc, octets.as_slice(), &[])?;
    let mut output = MemorySink::new(alloc, &[])?;
    assert_equal!(rt; order(alloc, &mut input, &mut output),
        OrderStatus::Done,
    );
    assert_equal!(rt; output.written().len(), octets.len() + 2 * MAX_LINES);
    octets.push(b'\n')?;
    expect_refusals(
        &rt,
        alloc,
        &[(octets.as_slice(), 100_001, OrderCause::Lines)],
    )
}

#[test]
fn a_fault_is_told_and_what_was_written_stands(rt: HostRuntime) -> Result<(), Fail> {
    let alloc = rt.alloc();
    let octets: &[u8] = b"0 1970-01-01-00:00:10I1 a\n";
    let none: &[u64] = &[];
    let rows: [((&[u64], &[u64]), OrderStatus); 3] = [
        ((&[1], none), OrderStatus::ReadFault),
        ((&[2], none), OrderStatus::ReadFault),
        ((none, &[1]), OrderStatus::WriteFault),
    ];
    for (fails, status) in rows {
        expect_ordered(&rt, alloc, octets, fails, status, b"")?;
    }
    Ok(())
}
