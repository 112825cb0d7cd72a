//! What a server answers to each operation.

ghost use Rattle.std.specs.Prelude.{◌≤◌};

use assertions::{assert_equal, assert_equal_at};
use dts_base::{Field, Refused, WireCause};
use ndr::Endian;
use roster::Roster;
use server_roles::{Answer, COMMAND, Counts, GET_INFO, GET_TIME, answer};
use slew_clock::Reading;
use std::alloc::Global;
use std::test::Fail;
use time_wire::{CommandReply, decode_command_reply, encode_command};

// The two nodes that are asked.
#[derive(Clone, Copy)]
enum Node {
    Server,
    Clerk,
}

fn roster_of(node: Node) -> &'static str {
    match node {
        Node::Server => "[node]\nname = \"s\"\nrole = \"server\"\n",
        Node::Clerk => {
            "[node]\nname = \"desk-7\"\ncourier = true\nepoch = 9\nrequired = 3\ndrift_ppm = 5\nresolution = 2\nlease = 50000000\nslew_ppm = 7000\ntolerance = 8000000000\n"
        }
    }
}

// The server was asked three times, by one connection.
fn counts_of(node: Node) -> Counts {
    match node {
        Node::Server => Counts {
            lane: 0,
            asks: 4,
            refused: 0,
            connections: 1,
        },
        Node::Clerk => Counts {
            lane: 3,
            asks: u64::MAX,
            refused: 7,
            connections: 16,
        },
    }
}

fn reading_of(node: Node) -> Reading {
    match node {
        Node::Server => Reading {
            value: 5_000_000_000,
            inaccuracy: Some(1001),
            step: 0,
            number: 0,
            osc: 0,
        },
        Node::Clerk => Reading {
            value: 1_000_005,
            inaccuracy: None,
            step: 4,
            number: 12,
            osc: 5,
        },
    }
}

fn answered(alloc: Global, node: Node, opnum: u16, stub: &[u8], e: Endian) -> Result<Answer, Fail>
    requires { opnum ≤ COMMAND }
{
    let roster = Roster::read(alloc, roster_of(node).as_bytes())?;
    let counts = counts_of(node);
    let reading = reading_of(node);
    Ok(answer(alloc, &roster, &counts, &reading, opnum, stub, e)?)
}

// The octets of the answer; none where the call is refused.
fn told(alloc: Global, node: Node, opnum: u16, stub: &[u8], e: Endian) -> Result<Vec<u8>, Fail>
    requires { opnum ≤ COMMAND }
{
    match answered(alloc, node, opnum, stub, e)? {
        Answer::Stub(octets) => Ok(octets.into_vec()),
        Answer::Wrong(_) => Ok(Vec::new(alloc)),
    }
}

// The node, the operation, the byte order, the stub of the call, and that of the answer.
static STUBS: [(Node, u16, Endian, &[u8], &[u8]); 9] = [
    (
        Node::Server,
        GET_TIME,
        Endian::Little,
        &[0],
        b"\x01\0\0\xf2\x05\x2a\x01\0\0\0\xe9\x03\0\0\0\0\0\x10\0\0\0\0\0\0",
    ),
    (
        Node::Server,
        GET_TIME,
        Endian::Little,
        &[1],
        b"\x01\0\0\xf2\x05\x2a\x01\0\0\0\xe9\x03\0\0\0\0\0\x10\0\0\x01\0\0\0",
    ),
    (
        Node::Server,
        GET_TIME,
        Endian::Big,
        &[255],
        b"\x01\0\0\xf2\x05\x2a\x01\0\0\0\xe9\x03\0\0\0\0\0\x10\0\0\0\0\0\x01",
    ),
    (
        Node::Clerk,
        GET_TIME,
        Endian::Big,
        &[9],
        b"\x01\x09\x45\x42\x0f\0\0\0\0\0\xff\xff\xff\xff\xff\xff\0\x10\0\0\0\0\0\0",
    ),
    (
        Node::Clerk,
        GET_TIME,
        Endian::Big,
        &[0],
        b"\x01\x09\x45\x42\x0f\0\0\0\0\0\xff\xff\xff\xff\xff\xff\0\x10\0\0\0\0\0\x01",
    ),
    (
        Node::Server,
        GET_INFO,
        Endian::Little,
        &[],
        b"\x01\x01\0\0\0\0\0\0\0\0\0\0\0\0\0\0\0\0\0\0\0\0\0\0\x02\0\0\0\0\0\0\0\x02\0\0\0s\0",
    ),
    (
        Node::Server,
        GET_INFO,
        Endian::Big,
        &[],
        b"\x01\x01\0\0\0\0\0\0\0\0\0\0\0\0\0\0\0\0\0\0\0\0\0\0\0\0\0\x02\0\0\0\0\0\0\0\x02s\0",
    ),
    (
        Node::Clerk,
        GET_INFO,
        Endian::Little,
        &[],
        b"\x01\0\x01\x09\0\0\0\0\x0c\0\0\0\0\0\0\0\x04\0\0\0\0\0\0\0\x07\0\0\0\0\0\0\0\x07\0\0\0desk-7\0",
    ),
    (
        Node::Clerk,
        GET_INFO,
        Endian::Big,
        &[],
        b"\x01\0\x01\x09\0\0\0\0\0\0\0\0\0\0\0\x0c\0\0\0\0\0\0\0\x04\0\0\0\x07\0\0\0\0\0\0\0\x07desk-7\0",
    ),
];

#[test]
fn the_time_and_the_settings_are_told_octet_by_octet(rt: HostRuntime) -> Result<(), Fail> {
    for (node, opnum, e, asked, right) in STUBS {
        let found = told(rt.alloc(), node, opnum.min(COMMAND), asked, e)?;
        assert_equal!(rt; found.as_slice(), right);
    }
    Ok(())
}

// The node, the command, and the text and the status that answer it.
static TEXTS: [(Node, &str, &str, u32); 10] = [
    (Node::Server, "show time", "time 5000000000 1001 0 0", 0),
    (Node::Clerk, "show time", "time 1000005 - 4 12", 0),
    (
        Node::Server,
        "show counts",
        "counts 0 asks 4 refused 0 connections 1",
        0,
    ),
    (
        Node::Clerk,
        "show counts",
        "counts 3 asks 18446744073709551615 refused 7 connections 16",
        0,
    ),
    (
        Node::Server,
        "show settings",
        "settings s server epoch 0 required 1 drift 100 resolution 1 lease 40000000 slew 10000 tolerance 6000000000",
        0,
    ),
    (
        Node::Clerk,
        "show settings",
        "settings desk-7 clerk epoch 9 required 3 drift 5 resolution 2 lease 50000000 slew 7000 tolerance 8000000000",
        0,
    ),
    (Node::Server, "set time", "unknown command", 1),
    (Node::Server, "", "unknown command", 1),
    (Node::Server, "show time ", "unknown command", 1),
    (Node::Clerk, "Show time", "unknown command", 1),
];

fn told_text(alloc: Global, node: Node, command: &str, e: Endian) -> Result<CommandReply, Fail> {
    let asked = encode_command(alloc, command, e)?;
    let stub = told(alloc, node, COMMAND, asked.as_slice(), e)?;
    Ok(decode_command_reply(alloc, &stub, e)?)
}

#[test]
fn commands_are_answered_with_texts(rt: HostRuntime) -> Result<(), Fail> {
    for e in [Endian::Big, Endian::Little] {
        for (node, command, right, status) in TEXTS {
            let reply = told_text(rt.alloc(), node, command, e)?;
            assert_equal!(rt; reply.text.as_slice(), right.as_bytes());
            assert_equal_at!(rt; command, reply.status, status);
        }
    }
    Ok(())
}

// The operation, the byte order, the stub of a call, and its first wrong field with its offset and the cause. The command
// is the text `a`, which has 14 octets: cut, with one more, with another offset, and without its last 0.
static REFUSALS: [(u16, Endian, &[u8], Field, u32, WireCause); 14] = [
    (
        GET_TIME,
        Endian::Little,
        b"",
        Field::Epoch,
        0,
        WireCause::Short,
    ),
    (
        GET_TIME,
        Endian::Big,
        b"\0\0",
        Field::Tail,
        1,
        WireCause::Extra,
    ),
    (
        GET_INFO,
        Endian::Little,
        b"\0",
        Field::Tail,
        0,
        WireCause::Extra,
    ),
    (
        GET_INFO,
        Endian::Big,
        b"\0\0\0",
        Field::Tail,
        0,
        WireCause::Extra,
    ),
    (
        COMMAND,
        Endian::Big,
        b"",
        Field::MaxCount,
        0,
        WireCause::Short,
    ),
    (
        COMMAND,
        Endian::Little,
        b"\x02\0\0",
        Field::MaxCount,
        0,
        WireCause::Short,
    ),
    (
        COMMAND,
        Endian::Little,
        b"\x02\0\0\0",
        Field::StringOffset,
        4,
        WireCause::Short,
    ),
    (
        COMMAND,
        Endian::Big,
        b"\0\0\0\x02\0\0\0\0",
        Field::ActualCount,
        8,
        WireCause::Short,
    ),
    (
        COMMAND,
        Endian::Big,
        b"\0\0\0\x02\0\0\0\x01\0\0\0\x02a\0",
        Field::StringOffset,
        4,
        WireCause::Value,
    ),
    (
        COMMAND,
        Endian::Little,
        b"\x01\0\0\0\0\0\0\0\x02\0\0\0a\0",
        Field::ActualCount,
        8,
        WireCause::Value,
    ),
    (
        COMMAND,
        Endian::Little,
        b"\x02\0\0\0\0\0\0\0\x02\0\0\0a",
        Field::StringOctets,
        12,
        WireCause::Short,
    ),
    (
        COMMAND,
        Endian::Little,
        b"\x02\0\0\0\0\0\0\0\x02\0\0\0ab",
        Field::StringOctets,
        12,
        WireCause::Value,
    ),
    (
        COMMAND,
        Endian::Big,
        b"\0\0\0\x02\0\0\0\0\0\0\0\x02\x7f\0",
        Field::StringOctets,
        12,
        WireCause::Value,
    ),
    (
        COMMAND,
        Endian::Big,
        b"\0\0\0\x02\0\0\0\0\0\0\0\x02a\0\0",
        Field::Tail,
        14,
        WireCause::Extra,
    ),
];

#[test]
fn a_stub_is_refused_at_its_first_wrong_field(rt: HostRuntime) -> Result<(), Fail> {
    for (opnum, e, stub, field, offset, cause) in REFUSALS {
        let found = answered(rt.alloc(), Node::Server, opnum.min(COMMAND), stub, e)?;
        let right = Refused {
            field,
            offset,
            cause,
        };
        assert_equal!(rt; found, Answer::Wrong(right));
    }
    Ok(())
}
