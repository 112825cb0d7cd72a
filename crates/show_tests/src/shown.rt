use crate::examples::{EXAMPLES, Example, HEADER};
use assertions::{assert_at, assert_equal};
use dts_base::{Field, MemorySink, MemorySource, Refused, WireCause};
use std::alloc::Global;
use std::io::Eprint;
use std::process::Abort;
use std::test::Fail;
use wire_show::{MAX_INPUT, ShowEnd, Shown, show};

// A bind, and where octets of it are changed.
const BIND: &str =
    "05000b03100000004800000001000000d016d016000000000100000000000100105a0e6a523c7e4b9d215e8f7c1a2b3001000000045d888aeb1cc9119fe808002b10486002000000";

// How many octets the longest fragment has.
const MOST: usize = 5840;

fn refused(field: Field, offset: u32, cause: WireCause) -> ShowEnd {
    ShowEnd::Refused(Refused {
        field,
        offset,
        cause,
    })
}

// An input is answered so, and this is written.
fn expect_shown(
    rt: &(impl Abort + Eprint),
    alloc: Global,
    kind: Shown,
    octets: &[u8],
    fails: (&[u64], &[u64]),
    end: ShowEnd,
    text: &[u8],
) -> Result<(), Fail> {
    let mut input = MemorySource::new(alloc, octets, fails.0)?;
    let mut output = MemorySink::new(alloc, fails.1)?;
    assert_equal!(rt; show(alloc, kind, &mut input, &mut output), end);
    assert_at!(rt; "other lines", output.written() == text);
    Ok(())
}

// An input is refused, and nothing is written.
fn expect_refused(
    rt: &(impl Abort + Eprint),
    alloc: Global,
    kind: Shown,
    octets: &[u8],
    end: ShowEnd,
) -> Result<(), Fail> {
    expect_shown(rt, alloc, kind, octets, (&[], &[]), end, b"")
}

fn push_line(text: &mut Vec<u8>, line: &str) -> Result<(), Fail> {
    text.extend_from_slice(line.as_bytes())?;
    text.push(b'\n')?;
    Ok(())
}

// An example's octets have its lines.
fn expect_lines(rt: &(impl Abort + Eprint), alloc: Global, example: &Example) -> Result<(), Fail> {
    let (digits, lines) = *example;
    let mut text = Vec::new(alloc);
    for (offset, size, name) in HEADER.iter() {
        let begin = 2 * usize::from(*offset);
        let end = begin + 2 * usize::from(*size);
        let octets = digits.get(begin..end).ok_or("short")?;
        push_line(
            &mut text,
            format!(in alloc; "{offset} {name} {octets}")?.as_str(),
        )?;
    }
    for line in lines {
        push_line(&mut text, line)?;
    }
    let none: &[u64] = &[];
    expect_shown(
        rt,
        alloc,
        Shown::Pdu,
        digits.as_bytes(),
        (none, none),
        ShowEnd::Done,
        text.as_slice(),
    )
}

#[test]
fn each_kind_has_its_lines(rt: HostRuntime) -> Result<(), Fail> {
    for example in EXAMPLES.iter() {
        expect_lines(&rt, rt.alloc(), example)?;
    }
    Ok(())
}

// A bind with two octets changed.
fn bind_with(alloc: Global, tenth: &str, thirtieth: &str) -> Result<Vec<u8>, Fail> {
    let digits = BIND.as_bytes();
    let mut changed = Vec::new(alloc);
    changed.extend_from_slice(&digits[..20])?;
    changed.extend_from_slice(tenth.as_bytes())?;
    changed.extend_from_slice(&digits[22..60])?;
    changed.extend_from_slice(thirtieth.as_bytes())?;
    changed.extend_from_slice(&digits[62..])?;
    Ok(changed)
}

#[test]
fn the_first_wrong_field_is_told(rt: HostRuntime) -> Result<(), Fail> {
    let alloc = rt.alloc();
    let both = bind_with(alloc, "08", "00")?;
    let second = bind_with(alloc, "00", "00")?;
    let rows: [(&[u8], Field, u32, WireCause); 6] = [
        (both.as_slice(), Field::AuthLength, 10, WireCause::Value),
        (second.as_slice(), Field::NTransferSyn, 30, WireCause::Value),
        (
            &BIND.as_bytes()[..142],
            Field::FragLength,
            8,
            WireCause::Value,
        ),
        (b"0500", Field::Ptype, 2, WireCause::Short),
        (b"", Field::RpcVers, 0, WireCause::Short),
        (b"\n", Field::RpcVers, 0, WireCause::Short),
    ];
    for (octets, field, offset, cause) in rows {
        expect_refused(
            &rt,
            alloc,
            Shown::Pdu,
            octets,
            refused(field, offset, cause),
        )?;
    }
    Ok(())
}

#[test]
fn timestamps_have_three_fields(rt: HostRuntime) -> Result<(), Fail> {
    let none: &[u64] = &[];
    let rows: [(&[u8], ShowEnd, &[u8]); 9] = [
        (
            b"004081 13d21db201",
            refused(Field::Input, 3, WireCause::Value),
            b"",
        ),
        (
            b"00408113d21db2010000000000000010",
            ShowEnd::Done,
            b"0 time 00408113d21db201\n8 inaccuracy 000000000000\n14 tdf_version 0010\n",
        ),
        (
            b"6969FFFFFFFFFFFFffffffffffff0020\n",
            ShowEnd::Done,
            b"0 time 6969ffffffffffff\n8 inaccuracy ffffffffffff\n14 tdf_version 0020\n",
        ),
        (
            b"00408113d21db2010000000000000030",
            refused(Field::UtcOctets, 14, WireCause::Value),
            b"",
        ),
        (
            b"00408113d21db2010000000000000120",
            refused(Field::UtcOctets, 14, WireCause::Value),
            b"",
        ),
        (
            b"00408113d21db201000000000000a015",
            refused(Field::UtcOctets, 14, WireCause::Value),
            b"",
        ),
        (b"", refused(Field::UtcOctets, 0, WireCause::Short), b""),
        (
            b"00408113d21db20100000000000000",
            refused(Field::UtcOctets, 15, WireCause::Short),
            b"",
        ),
        (
            b"00408113d21db201000000000000001000",
            refused(Field::UtcOctets, 16, WireCause::Extra),
            b"",
        ),
    ];
    for (octets, end, text) in rows {
        expect_shown(&rt, rt.alloc(), Shown::Utc, octets, (none, none), end, text)?;
    }
    Ok(())
}

// A reply of an NTP server.
const REPLY: &[u8] =
    b"240106ec000000010000001047505300e1b65f40000000000000000000000001e1b65f8000000001e1b65f8000000001";

#[test]
fn packets_of_ntp_are_shown(rt: HostRuntime) -> Result<(), Fail> {
    let none: &[u64] = &[];
    let lines =
        b"0 first 24\n1 stratum 01\n2 poll 06\n3 precision ec\n4 root_delay 00000001\n8 root_dispersion 00000010\n12 reference_id 47505300\n16 reference e1b65f4000000000\n24 origin 0000000000000001\n32 receive e1b65f8000000001\n40 transmit e1b65f8000000001\n";
    let mut short = REPLY.to_vec(rt.alloc())?;
    short.truncate(94);
    let mut long = REPLY.to_vec(rt.alloc())?;
    long.extend_from_slice(b"Ff00\n")?;
    let mut with_tail = lines.to_vec(rt.alloc())?;
    with_tail.extend_from_slice(b"48 tail ff00\n")?;
    let mut unversioned = REPLY.to_vec(rt.alloc())?;
    unversioned[0] = b'0';
    let rows: [(&[u8], ShowEnd, &[u8]); 5] = [
        (REPLY, ShowEnd::Done, lines),
        (&long, ShowEnd::Done, &with_tail),
        (&short, refused(Field::NtpLength, 47, WireCause::Short), b""),
        (
            &unversioned,
            refused(Field::NtpVersion, 0, WireCause::Value),
            b"",
        ),
        (b"", refused(Field::NtpLength, 0, WireCause::Short), b""),
    ];
    for (octets, end, text) in &rows {
        expect_shown(
            &rt,
            rt.alloc(),
            Shown::Ntp,
            octets,
            (none, none),
            *end,
            text,
        )?;
    }
    Ok(())
}

#[test]
fn the_first_wrong_pair_is_told(rt: HostRuntime) -> Result<(), Fail> {
    let rows: [(&[u8], u32); 12] = [
        (b"0", 0),
        (b"050", 1),
        (b"0\n", 0),
        (b"050\n", 1),
        (b"05 0", 1),
        (b"0g", 0),
        (b"g0", 0),
        (b"050x00zz", 1),
        (b"05\r\n", 1),
        (b"05\n\n", 1),
        (b"05\n00", 1),
        (b"\n05", 0),
    ];
    for (octets, offset) in rows {
        let end = refused(Field::Input, offset, WireCause::Value);
        expect_refused(&rt, rt.alloc(), Shown::Pdu, octets, end)?;
        expect_refused(&rt, rt.alloc(), Shown::Utc, octets, end)?;
    }
    Ok(())
}

// The longest request, with other octets behind it.
fn longest_with(alloc: Global, behind: &[u8]) -> Result<Vec<u8>, Fail> {
    let mut digits = Vec::new(alloc);
    digits.extend_from_slice(b"0500000310000000d01600000200000001000000")?;
    for _digit in digits.len()..2 * MOST {
        digits.push(b'0')?;
    }
    digits.extend_from_slice(behind)?;
    Ok(digits)
}

#[test]
fn a_line_has_at_most_11680_digits(rt: HostRuntime) -> Result<(), Fail> {
    let alloc = rt.alloc();
    assert_equal!(rt; MAX_INPUT, 11_681);
    let rows: [(&[u8], WireCause); 10] = [
        (b"0", WireCause::Long),
        (b"00", WireCause::Long),
        (b"F\n", WireCause::Long),
        (b"0x", WireCause::Long),
        (b"x0", WireCause::Value),
        (b"\r", WireCause::Value),
        (b"\r\n", WireCause::Value),
        (b"\n0", WireCause::Value),
        (b"\n\n", WireCause::Value),
        (b" ", WireCause::Value),
    ];
    for (behind, cause) in rows {
        let octets = longest_with(alloc, behind)?;
        expect_refused(
            &rt,
            alloc,
            Shown::Pdu,
            octets.as_slice(),
            refused(Field::Input, 5840, cause),
        )?;
    }
    Ok(())
}

// The longest request is shown, with and without a line feed.
fn expect_longest(rt: &(impl Abort + Eprint), alloc: Global, behind: &[u8]) -> Result<(), Fail> {
    let octets = longest_with(alloc, behind)?;
    let mut input = MemorySource::new(alloc, octets.as_slice(), &[])?;
    let mut output = MemorySink::new(alloc, &[])?;
    let end = show(alloc, Shown::Pdu, &mut input, &mut output);
    assert_equal!(rt; end, ShowEnd::Done);
    let written = output.written();
    assert_equal!(rt; written.len(), 11_850);
    assert_at!(rt; "another first line",
        written.starts_with(b"0 rpc_vers 05\n"),
    );
    assert_at!(rt; "another last line", written.ends_with(b"00000\n"));
    Ok(())
}

#[test]
fn the_longest_line_is_shown(rt: HostRuntime) -> Result<(), Fail> {
    expect_longest(&rt, rt.alloc(), b"")?;
    expect_longest(&rt, rt.alloc(), b"\n")
}

#[test]
fn a_wrong_pair_comes_before_the_length(rt: HostRuntime) -> Result<(), Fail> {
    let alloc = rt.alloc();
    let mut octets = longest_with(alloc, b"00000000")?;
    for _more in 0..20_000 {
        octets.push(b'0')?;
    }
    let long = refused(Field::Input, 5840, WireCause::Long);
    expect_refused(&rt, alloc, Shown::Pdu, octets.as_slice(), long)?;
    if octets.len() > 11_679 {
        octets[11_679] = b'x';
    }
    let last = refused(Field::Input, 5839, WireCause::Value);
    expect_refused(&rt, alloc, Shown::Pdu, octets.as_slice(), last)?;
    if octets.len() > 201 {
        octets[200] = b'\n';
    }
    let early = refused(Field::Input, 100, WireCause::Value);
    expect_refused(&rt, alloc, Shown::Pdu, octets.as_slice(), early)
}

#[test]
fn faults_are_told(rt: HostRuntime) -> Result<(), Fail> {
    let alloc = rt.alloc();
    let lines: &[u8] = b"0 time 00408113d21db201\n8 inaccuracy 000000000000\n14 tdf_version 0010\n";
    let none: &[u8] = b"";
    let time: &[u8] = b"00408113d21db2010000000000000010";
    let rows: [(&[u8], u64, u64, ShowEnd, &[u8]); 6] = [
        (time, 1, 9, ShowEnd::ReadFault, none),
        (time, 2, 9, ShowEnd::ReadFault, none),
        (b"0x", 2, 9, ShowEnd::ReadFault, none),
        (time, 9, 1, ShowEnd::WriteFault, none),
        (
            b"0x",
            9,
            1,
            refused(Field::Input, 0, WireCause::Value),
            none,
        ),
        (time, 3, 2, ShowEnd::Done, lines),
    ];
    for (octets, read, write, end, text) in rows {
        expect_shown(
            &rt,
            alloc,
            Shown::Utc,
            octets,
            (&[read], &[write]),
            end,
            text,
        )?;
    }
    Ok(())
}

#[test]
fn ends_have_their_texts(rt: HostRuntime) -> Result<(), Fail> {
    let rows: [(ShowEnd, &str); 5] = [
        (ShowEnd::Done, "done"),
        (
            refused(Field::AuthLength, 10, WireCause::Value),
            "auth_length at octet 10: value",
        ),
        (ShowEnd::ReadFault, "the input can't be read"),
        (ShowEnd::WriteFault, "the output can't be written"),
        (ShowEnd::NoMemory, "out of memory"),
    ];
    for (end, text) in rows {
        let printed = format!(in rt.alloc(); "{end}")?;
        assert_equal!(rt; printed.as_str(), text);
    }
    Ok(())
}
