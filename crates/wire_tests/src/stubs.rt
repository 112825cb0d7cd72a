use assertions::{assert_equal, assert_equal_at};
use dts_base::{Field, Refused, WireCause};
use ndr::*;
use std::test::Fail;

fn refusal(field: Field, offset: u32, cause: WireCause) -> Refused {
    Refused {
        field,
        offset,
        cause,
    }
}

#[test]
fn an_epoch_and_a_status_are_read(rt: HostRuntime) {
    let mut reader = Reader::new(&[5, 0, 0, 0, 2, 0, 0, 0], Endian::Little);
    assert_equal!(rt; reader.u8(Field::Epoch), Ok(5));
    assert_equal!(rt; reader.u32(Field::Status), Ok(2));
    assert_equal!(rt; reader.finish(), Ok(()));
    let mut reader = Reader::new(&[5, 0, 0, 0, 2], Endian::Little);
    assert_equal!(rt; reader.u8(Field::Epoch), Ok(5));
    let short = refusal(Field::Status, 4, WireCause::Short);
    assert_equal!(rt; reader.u32(Field::Status), Err(short));
    assert_equal_at!(rt; "after a refusal it is as it was",
        reader.u16(Field::Opnum),
        Ok(0),
    );
    let extra = refusal(Field::Tail, 4, WireCause::Extra);
    assert_equal!(rt; reader.finish(), Err(extra));
}

#[test]
fn numbers_and_octets_are_written_and_read_in_both_orders(rt: HostRuntime) -> Result<(), Fail> {
    let orders: [(Endian, &[u8]); 2] = [
        (
            Endian::Big,
            &[
                1, 0, 2, 3, 4, 5, 6, 7, 9, 0, 0, 0, 0, 0, 0, 0, 8, 9, 10, 11, 12, 13, 14, 15,
            ],
        ),
        (
            Endian::Little,
            &[
                1, 0, 3, 2, 7, 6, 5, 4, 9, 0, 0, 0, 0, 0, 0, 0, 15, 14, 13, 12, 11, 10, 9, 8,
            ],
        ),
    ];
    for (order, octets) in orders {
        let mut writer = Writer::new(rt.alloc(), order)?;
        writer.u8(rt.alloc(), 1)?;
        writer.u16(rt.alloc(), 0x0203)?;
        writer.u32(rt.alloc(), 0x0405_0607)?;
        writer.octets(rt.alloc(), &[9])?;
        writer.u64(rt.alloc(), 0x0809_0a0b_0c0d_0e0f)?;
        assert_equal!(rt; writer.done().as_slice(), octets);
        let mut reader = Reader::new(octets, order);
        assert_equal!(rt; reader.u8(Field::Epoch), Ok(1));
        assert_equal!(rt; reader.u16(Field::Opnum), Ok(0x0203));
        assert_equal!(rt; reader.u32(Field::Status), Ok(0x0405_0607));
        assert_equal!(rt; reader.octets(Field::Stub, 1), Ok([9].as_slice()));
        assert_equal!(rt; reader.u64(Field::Number), Ok(0x0809_0a0b_0c0d_0e0f));
        assert_equal!(rt; reader.finish(), Ok(()));
    }
    Ok(())
}

#[test]
fn what_is_not_whole_is_short_behind_its_gap(rt: HostRuntime) {
    let octets = [1, 0, 0, 0, 0, 0, 0, 0, 0, 0, 0, 0, 0, 0, 0, 0];
    // How many octets there are, and the offset of a number of eight behind one.
    for (length, whole) in [(1, false), (7, false), (8, false), (15, false), (16, true)] {
        let mut reader = Reader::new(octets.get(..length).unwrap_or(&[]), Endian::Big);
        assert_equal!(rt; reader.u8(Field::Epoch), Ok(1));
        let short = refusal(Field::Number, 8, WireCause::Short);
        let read = reader.u64(Field::Number);
        assert_equal!(rt; read, if whole { Ok(0) } else { Err(short) });
    }
    let mut reader = Reader::new(&[], Endian::Big);
    let short = refusal(Field::Epoch, 0, WireCause::Short);
    assert_equal!(rt; reader.u8(Field::Epoch), Err(short));
    assert_equal!(rt; reader.octets(Field::Stub, 0), Ok([].as_slice()));
    let short = refusal(Field::Stub, 0, WireCause::Short);
    assert_equal!(rt; reader.octets(Field::Stub, 1), Err(short));
}

// The octets of a string with these counts, little-endian.
fn string(
    counts: [u32; 3],
    octets: &[u8],
    stub: &mut Writer,
    rt: &HostRuntime,
) -> Result<(), Fail> {
    for count in counts {
        stub.u32(rt.alloc(), count)?;
    }
    stub.octets(rt.alloc(), octets)?;
    Ok(())
}

#[test]
fn a_string_is_refused_at_its_first_wrong_part(rt: HostRuntime) -> Result<(), Fail> {
    let value = |field, offset| Err(refusal(field, offset, WireCause::Value));
    let short = |field, offset| Err(refusal(field, offset, WireCause::Short));
    let cases: [([u32; 3], &[u8], Result<&[u8], Refused>); 15] = [
        ([2, 0, 2], b"s\0", Ok(b"s")),
        ([1, 0, 1], b"\0", Ok(b"")),
        ([u32::MAX, 0, 3], b" ~\0", Ok(b" ~")),
        ([0, 0, 0], b"", value(Field::MaxCount, 0)),
        ([2, 1, 2], b"s\0", value(Field::StringOffset, 4)),
        ([2, 0, 0], b"", value(Field::ActualCount, 8)),
        ([2, 0, 3], b"st\0", value(Field::ActualCount, 8)),
        ([2000, 0, 1025], b"", value(Field::ActualCount, 8)),
        ([2000, 0, 1024], b"", short(Field::StringOctets, 12)),
        ([3, 0, 3], b"st", short(Field::StringOctets, 12)),
        ([3, 0, 3], b"sto", value(Field::StringOctets, 12)),
        ([3, 0, 3], b"s\0\0", value(Field::StringOctets, 12)),
        ([2, 0, 2], b"\x1f\0", value(Field::StringOctets, 12)),
        ([2, 0, 2], b"\x7f\0", value(Field::StringOctets, 12)),
        ([2, 0, 2], b"\x80\0", value(Field::StringOctets, 12)),
    ];
    for (counts, octets, outcome) in cases {
        let mut writer = Writer::new(rt.alloc(), Endian::Little)?;
        string(counts, octets, &mut writer, &rt)?;
        let stub = writer.done();
        let mut reader = Reader::new(stub.as_slice(), Endian::Little);
        assert_equal!(rt; reader.string(Field::Number), outcome);
        if outcome.is_err() {
            assert_equal_at!(rt; "it is as it was",
                reader.u32(Field::MaxCount),
                Ok(counts[0]),
            );
        }
    }
    for (length, field, offset) in [
        (3, Field::MaxCount, 0),
        (7, Field::StringOffset, 4),
        (11, Field::ActualCount, 8),
    ] {
        let octets = [1, 0, 0, 0, 0, 0, 0, 0, 1, 0, 0, 0];
        let mut reader = Reader::new(octets.get(..length).unwrap_or(&[]), Endian::Little);
        assert_equal!(rt; reader.string(Field::Number), short(field, offset));
    }
    Ok(())
}

#[test]
fn a_text_is_written_where_a_string_can_hold_it(rt: HostRuntime) -> Result<(), Fail> {
    let mut longest = String::new(rt.alloc());
    for _ in 0..1023 {
        longest.push('~')?;
    }
    let mut too_long = longest.clone()?;
    too_long.push(' ')?;
    let refused = Err(WriteFault::StringValue);
    let cases = [
        (longest.as_str(), Ok(())),
        (too_long.as_str(), refused),
        (" ~", Ok(())),
        ("", Ok(())),
        ("\x1f", refused),
        ("\x7f", refused),
        ("\u{e9}", refused),
    ];
    for (text, outcome) in cases {
        let mut writer = Writer::new(rt.alloc(), Endian::Big)?;
        writer.u8(rt.alloc(), 1)?;
        assert_equal!(rt; writer.string(rt.alloc(), text), outcome);
        writer.u8(rt.alloc(), 2)?;
        let stub = writer.done();
        let mut reader = Reader::new(stub.as_slice(), Endian::Big);
        assert_equal!(rt; reader.u8(Field::Epoch), Ok(1));
        if outcome.is_ok() {
            assert_equal!(rt; reader.string(Field::Number), Ok(text.as_bytes()));
        }
        assert_equal!(rt; reader.u8(Field::Epoch), Ok(2));
        assert_equal!(rt; reader.finish(), Ok(()));
    }
    Ok(())
}

#[test]
fn a_stub_has_at_most_so_many_octets(rt: HostRuntime) -> Result<(), Fail> {
    let most = vec![in rt.alloc(); 0u8; MAX_STUB]?;
    let mut writer = Writer::new(rt.alloc(), Endian::Big)?;
    assert_equal!(rt; writer.octets(rt.alloc(), most.as_slice()), Ok(()));
    assert_equal!(rt; writer.u8(rt.alloc(), 1),
        Err(WriteFault::TooLong { have: 65_537 }),
    );
    assert_equal!(rt; writer.string(rt.alloc(), ""),
        Err(WriteFault::TooLong { have: 65_549 }),
    );
    assert_equal!(rt; writer.string(rt.alloc(), "\n"),
        Err(WriteFault::StringValue),
    );
    assert_equal!(rt; writer.octets(rt.alloc(), &[]), Ok(()));
    assert_equal!(rt; writer.done().as_slice().len(), 65_536);
    let mut writer = Writer::new(rt.alloc(), Endian::Big)?;
    writer.octets(rt.alloc(), most.as_slice().get(1..).unwrap_or(&[]))?;
    assert_equal!(rt; writer.u16(rt.alloc(), 1),
        Err(WriteFault::TooLong { have: 65_538 }),
    );
    assert_equal!(rt; writer.u8(rt.alloc(), 1), Ok(()));
    Ok(())
}

#[test]
fn faults_have_texts(rt: HostRuntime) -> Result<(), Fail> {
    let texts = [
        (
            WriteFault::TooLong { have: 65_537 },
            "a stub of 65537 octets is too long",
        ),
        (WriteFault::StringValue, "the text cannot be a string"),
        (WriteFault::NoMemory, "out of memory"),
    ];
    for (fault, text) in texts {
        assert_equal!(rt; fault.to_string(rt.alloc())?.as_str(), text);
    }
    Ok(())
}

#[test]
fn laws_have_no_effect() {
    written_reads_back();
    one_refusal();
}
