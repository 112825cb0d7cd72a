use assertions::{assert_equal, assert_equal_at};
use dts_base::{Field, Refused, Text, WireCause};
use ndr::{DecodeFault, Endian, WriteFault};
use std::alloc::Global;
use std::process::Abort;
use std::test::Fail;
use time_wire::*;
use utc_value::Utc;

// `show time`, asked with command, little-endian.
const SHOW_TIME: [u8; 22] = [
    10, 0, 0, 0, 0, 0, 0, 0, 10, 0, 0, 0, b's', b'h', b'o', b'w', b' ', b't', b'i', b'm', b'e', 0,
];

// A server with the name `s` whose record and step have the number 0, little-endian.
const SERVER: [u8; 38] = [
    1, 1, 0, 0, 0, 0, 0, 0, 0, 0, 0, 0, 0, 0, 0, 0, 0, 0, 0, 0, 0, 0, 0, 0, 2, 0, 0, 0, 0, 0, 0, 0,
    2, 0, 0, 0, b's', 0,
];

// The moment 5000000000 with an inaccuracy of 1000, with status 3, little-endian.
const REPLY: [u8; 24] = [
    1, 0, 0, 0xf2, 0x05, 0x2a, 0x01, 0, 0, 0, 0xe8, 0x03, 0, 0, 0, 0, 0, 0x10, 0, 0, 3, 0, 0, 0,
];

fn wrong(field: Field, offset: u32, cause: WireCause) -> Option<DecodeFault> {
    let refused = Refused {
        field,
        offset,
        cause,
    };
    Some(DecodeFault::Wrong(refused))
}

#[test]
fn a_command_is_written_and_read(rt: HostRuntime) -> Result<(), Fail> {
    let stub = encode_command(rt.alloc(), "show time", Endian::Little)?;
    assert_equal!(rt; stub.as_slice(), SHOW_TIME.as_slice());
    let text = decode_command(rt.alloc(), &SHOW_TIME, Endian::Little)?;
    assert_equal!(rt; text.as_slice(), b"show time".as_slice());
    let mut longer = stub.into_vec();
    longer.push(0)?;
    let decoded = decode_command(rt.alloc(), longer.as_slice(), Endian::Little);
    assert_equal!(rt; decoded.err(), wrong(Field::Tail, 22, WireCause::Extra));
    Ok(())
}

#[test]
fn a_server_is_written_and_read(rt: HostRuntime) -> Result<(), Fail> {
    let server = InfoReply {
        role: 1,
        courier: 0,
        epoch: 0,
        number: 0,
        step: 0,
        name: Text::from_slice(rt.alloc(), b"s")?,
    };
    let stub = encode_info_reply(rt.alloc(), &server, Endian::Little)?;
    assert_equal!(rt; stub.as_slice(), SERVER.as_slice());
    let decoded = decode_info_reply(rt.alloc(), &SERVER, Endian::Little)?;
    assert!(rt; decoded == server);
    Ok(())
}

#[test]
fn a_timestamp_has_one_order_of_its_octets(rt: HostRuntime) -> Result<(), Fail> {
    let reply = TimeReply {
        version: WIRE_VERSION,
        epoch: 0,
        utc: Utc::absolute(5_000_000_000, Some(1000), 0)?,
        status: 3,
    };
    let mut big = REPLY;
    big[20] = 0;
    big[23] = 3;
    for (order, octets) in [(Endian::Little, REPLY), (Endian::Big, big)] {
        let stub = encode_time_reply(rt.alloc(), &reply, order)?;
        assert_equal!(rt; stub.as_slice(), octets.as_slice());
        assert_equal!(rt; decode_time_reply(rt.alloc(), &octets, order),
            Ok(reply),
        );
    }
    Ok(())
}

// What is refused where one octet is another and so many stand.
#[derive(Drop)]
struct Damage {
    place: usize,
    octet: u8,
    length: usize,
    refused: Option<DecodeFault>,
}

fn changed(place: usize, octet: u8, length: usize, refused: Option<DecodeFault>) -> Damage {
    Damage {
        place,
        octet,
        length,
        refused,
    }
}

// The octets with that damage.
fn damaged(alloc: Global, octets: &[u8], d: &Damage) -> Result<Vec<u8>, Fail> {
    let mut copy = octets.to_vec(alloc)?;
    if let Some(octet) = copy.get_mut(d.place) {
        *octet = d.octet;
    }
    copy.truncate(d.length);
    Ok(copy)
}

#[test]
fn a_reply_is_refused_at_its_first_wrong_field(rt: HostRuntime) -> Result<(), Fail> {
    let cases = [
        changed(18, 0xff, 24, None),
        changed(0, 2, 1, wrong(Field::WireVersion, 0, WireCause::Value)),
        changed(17, 0x30, 18, wrong(Field::UtcOctets, 2, WireCause::Value)),
        changed(17, 0x20, 17, wrong(Field::UtcOctets, 2, WireCause::Short)),
        changed(23, 0, 23, wrong(Field::Status, 20, WireCause::Short)),
    ];
    for case in &cases {
        let stub = damaged(rt.alloc(), &REPLY, case)?;
        let decoded = decode_time_reply(rt.alloc(), stub.as_slice(), Endian::Little);
        assert_equal!(rt; decoded.err(), case.refused);
    }
    Ok(())
}

#[test]
fn a_server_is_refused_at_its_first_wrong_field(rt: HostRuntime) -> Result<(), Fail> {
    let cases = [
        changed(1, 0, 38, None),
        changed(2, 1, 38, None),
        changed(1, 2, 2, wrong(Field::Role, 1, WireCause::Value)),
        changed(2, 2, 38, wrong(Field::Courier, 2, WireCause::Value)),
        changed(8, 9, 15, wrong(Field::Number, 8, WireCause::Short)),
        changed(28, 1, 38, wrong(Field::StringOffset, 28, WireCause::Value)),
        changed(37, 1, 38, wrong(Field::StringOctets, 36, WireCause::Value)),
    ];
    for case in &cases {
        let stub = damaged(rt.alloc(), &SERVER, case)?;
        let decoded = decode_info_reply(rt.alloc(), stub.as_slice(), Endian::Little);
        assert_equal!(rt; decoded.err(), case.refused);
    }
    Ok(())
}

#[test]
fn an_epoch_and_nothing_are_read(rt: HostRuntime) -> Result<(), Fail> {
    let asked = GetTime { epoch: 7 };
    let stub = encode_get_time(rt.alloc(), &asked, Endian::Big)?;
    assert_equal!(rt; stub.as_slice(), [7].as_slice());
    assert_equal!(rt; decode_get_time(rt.alloc(), &[7], Endian::Big),
        Ok(asked),
    );
    let decoded = decode_get_time(rt.alloc(), &[7, 0], Endian::Big);
    assert_equal!(rt; decoded.err(), wrong(Field::Tail, 1, WireCause::Extra));
    assert_equal!(rt; decode_get_info(&[]), Ok(()));
    let extra = Refused {
        field: Field::Tail,
        offset: 0,
        cause: WireCause::Extra,
    };
    assert_equal!(rt; decode_get_info(&[0]), Err(extra));
    Ok(())
}

// How many octets the stub of an answer with this text has.
fn answered(alloc: Global, text: &[u8]) -> Result<usize, WriteFault> {
    let reply = CommandReply {
        text: Text::from_slice(alloc, text)?,
        status: 1,
    };
    let stub = encode_command_reply(alloc, &reply, Endian::Big)?;
    Ok(stub.as_slice().len())
}

#[test]
fn no_stub_is_too_long_and_a_text_may_be(rt: HostRuntime) -> Result<(), Fail> {
    let longest = vec![in rt.alloc(); b'~'; 1023]?;
    let too_long = vec![in rt.alloc(); b'~'; 1024]?;
    let refused = Err(WriteFault::StringValue);
    assert_equal!(rt; answered(rt.alloc(), longest.as_slice()), Ok(1040));
    assert_equal!(rt; answered(rt.alloc(), too_long.as_slice()), refused);
    assert_equal!(rt; answered(rt.alloc(), b"\n"), refused);
    assert_equal_at!(rt; "no UTF-8", answered(rt.alloc(), &[0xff]), refused);
    assert_equal!(rt; answered(rt.alloc(), b""), Ok(20));
    let stub = encode_command(rt.alloc(), "\u{e9}", Endian::Big);
    assert_equal!(rt; stub.err(), Some(WriteFault::StringValue));
    Ok(())
}

#[test]
fn an_answer_is_written_and_read(rt: HostRuntime) -> Result<(), Fail> {
    let reply = CommandReply {
        text: Text::from_slice(rt.alloc(), b"unknown command")?,
        status: 1,
    };
    for order in [Endian::Big, Endian::Little] {
        let stub = encode_command_reply(rt.alloc(), &reply, order)?;
        let decoded = decode_command_reply(rt.alloc(), stub.as_slice(), order)?;
        assert!(rt; decoded == reply);
    }
    Ok(())
}

#[test]
fn laws_have_no_effect() {
    encoded_is_decoded();
    decoded_is_right();
    stubs_have_one_reading();
    refused_at_the_first_wrong_field();
    timestamps_are_those_of_utc_value();
}
