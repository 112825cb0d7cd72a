ghost use Rattle.std.specs.Prelude.{◌<◌};

use assertions::{assert_at, assert_equal};
use dts_base::{Bytes, Field, Refused, WireCause};
use ndr::Endian;
use rpc_pdu::*;
use std::alloc::Global;
use std::io::Eprint;
use std::process::Abort;
use uuid::Uuid;

pub mod examples;
mod plain;

use examples::{BIG, LITTLE};
use plain::{Place, overwrite, whole};

// Where the bind and the shutdown stand among the examples.
const BIND: usize = 4;

const SHUTDOWN: usize = 9;

// The transfer syntax NDR, and the interface of the examples.
const NDR: [u8; 16] = *b"\x8a\x88\x5d\x04\x1c\xeb\x11\xc9\x9f\xe8\x08\x00\x2b\x10\x48\x60";

const INTERFACE: [u8; 16] = *b"\x6a\x0e\x5a\x10\x3c\x52\x4b\x7e\x9d\x21\x5e\x8f\x7c\x1a\x2b\x30";

fn octets_of(rt: &impl Abort, alloc: Global, text: &str) -> Vec<u8> {
    hex::decode(alloc, text).expect(rt, "hex digits")
}

fn copy_of(rt: &impl Abort, alloc: Global, octets: &[u8]) -> Vec<u8> {
    octets.to_vec(alloc).expect(rt, "memory")
}

fn decoded(rt: &impl Abort, alloc: Global, octets: &[u8]) -> Pdu {
    decode(alloc, octets).expect(rt, "octets that are decoded")
}

// Octets are refused at this field.
fn expect_refused(
    rt: &(impl Abort + Eprint),
    alloc: Global,
    octets: &[u8],
    field: Field,
    offset: usize,
    cause: WireCause,
) {
    let offset = whole(offset);
    let refused = Refused {
        field,
        offset,
        cause,
    };
    assert_equal!(rt; decode(alloc, octets).err(),
        Some(DecodeFault::Wrong(refused)),
    );
}

// A value is encoded to these octets.
fn expect_octets(rt: &(impl Abort + Eprint), alloc: Global, value: &Pdu, octets: &[u8]) {
    let encoded = encode(alloc, value).expect(rt, "a value that is encoded");
    assert_at!(rt; "other octets", encoded.as_slice() == octets);
}

// Octets are decoded, and the value is encoded to these.
fn expect_canonical(rt: &(impl Abort + Eprint), alloc: Global, octets: &[u8], canonical: &[u8]) {
    expect_octets(rt, alloc, &decoded(rt, alloc, octets), canonical);
}

fn a_bind_in_both_orders(rt: &(impl Abort + Eprint), alloc: Global) {
    let little = octets_of(rt, alloc, LITTLE[BIND]);
    let big = octets_of(rt, alloc, BIG[BIND]);
    let mut bind = decoded(rt, alloc, little.as_slice());
    assert_equal!(rt; bind.call_id, 1);
    assert_equal!(rt; bind.body.ptype(), Ptype::Bind);
    expect_octets(
        rt,
        alloc,
        &bind_with(rt, alloc, Endian::Little, 1, 1),
        little.as_slice(),
    );
    bind.endian = Endian::Big;
    expect_octets(rt, alloc, &bind, big.as_slice());
}

#[test]
fn a_bind_is_decoded_and_encoded_in_both_orders(rt: HostRuntime) {
    a_bind_in_both_orders(&rt, rt.alloc());
}

// A place for a 0 and one for an 8 in a bind, its length, and where it is refused.
static WRONG_BINDS: [(usize, usize, usize, Field, usize); 3] = [
    (30, 10, 72, Field::AuthLength, 10),
    (30, 72, 72, Field::NTransferSyn, 30),
    (72, 72, 71, Field::FragLength, 8),
];

fn expect_refused_bind(
    rt: &(impl Abort + Eprint),
    alloc: Global,
    row: &(usize, usize, usize, Field, usize),
) {
    let (zero, eight, length, field, offset) = *row;
    let mut octets = octets_of(rt, alloc, LITTLE[BIND]);
    overwrite(&mut octets, Endian::Big, zero, 1, 0);
    overwrite(&mut octets, Endian::Big, eight, 1, 8);
    octets.truncate(length);
    expect_refused(
        rt,
        alloc,
        octets.as_slice(),
        field,
        offset,
        WireCause::Value,
    );
}

#[test]
fn the_first_of_two_wrong_fields_is_named(rt: HostRuntime) {
    for row in WRONG_BINDS.iter() {
        expect_refused_bind(&rt, rt.alloc(), row);
    }
    expect_refused(&rt, rt.alloc(), &[5, 0], Field::Ptype, 2, WireCause::Short);
}

// Wrong values of a field, for a fragment of this kind and length.
fn wrong_values(field: Field, ptype: u8, length: u32) -> Option<[u32; 4]> {
    match field {
        Field::RpcVers => Some([0, 4, 6, 255]),
        Field::RpcVersMinor => Some([2, 3, 254, 255]),
        Field::Ptype => Some([1, 10, 16, 20]),
        Field::DrepOrder => Some([0x01, 0x11, 0x20, 0xff]),
        Field::FragLength => Some([15, length.saturating_sub(1), length.saturating_add(1), 5841]),
        Field::AuthLength => Some([1, 8, 256, 65535]),
        Field::NContext | Field::NResults => Some([0, 17, 18, 255]),
        Field::NTransferSyn => Some([0, 9, 10, 255]),
        Field::Result => Some([3, 4, 256, 65535]),
        Field::Reason if ptype != 13 => Some([4, 5, 256, 65535]),
        _ => None,
    }
}

// A fragment with another number at a place is refused there.
fn expect_wrong_value(
    rt: &(impl Abort + Eprint),
    alloc: Global,
    octets: &[u8],
    endian: Endian,
    place: Place,
    number: u32,
) {
    let mut other = copy_of(rt, alloc, octets);
    overwrite(&mut other, endian, place.offset, place.size, number);
    let other = other.as_slice();
    expect_refused(
        rt,
        alloc,
        other,
        place.field,
        place.offset,
        WireCause::Value,
    );
}

// A fragment that is cut before this field, or within it, is refused at it. Its own length is right up to there, but that no
// length below that of a header is right.
fn expect_cut(
    rt: &(impl Abort + Eprint),
    alloc: Global,
    octets: &[u8],
    endian: Endian,
    place: Place,
    cut: usize,
) {
    let mut other = copy_of(rt, alloc, octets);
    other.truncate(cut);
    overwrite(&mut other, endian, 8, 2, whole(cut));
    let other = other.as_slice();
    if place.offset > 8 && place.offset < 16 {
        expect_refused(rt, alloc, other, Field::FragLength, 8, WireCause::Value);
    } else {
        expect_refused(
            rt,
            alloc,
            other,
            place.field,
            place.offset,
            WireCause::Short,
        );
    }
}

// A right fragment is refused with each wrong value of this field, and where it is cut there.
fn is_refused_at(
    rt: &(impl Abort + Eprint),
    alloc: Global,
    octets: &[u8],
    endian: Endian,
    ptype: u8,
    place: Place,
) {
    if let Some(values) = wrong_values(place.field, ptype, whole(octets.len())) {
        for number in values {
            expect_wrong_value(rt, alloc, octets, endian, place, number);
        }
    }
    if place.size > 0 && place.field != Field::Stub {
        let last = place.offset.saturating_add(place.size).saturating_sub(1);
        expect_cut(rt, alloc, octets, endian, place, place.offset);
        expect_cut(rt, alloc, octets, endian, place, last);
    }
}

fn is_refused_at_each_field(rt: &(impl Abort + Eprint), alloc: Global, example: &str) {
    let octets = octets_of(rt, alloc, example);
    let octets = octets.as_slice();
    expect_canonical(rt, alloc, octets, octets);
    let value = decoded(rt, alloc, octets);
    let ptype = value.body.ptype().number();
    let reading = plain::read(rt, alloc, octets);
    for place in reading.places.as_slice() {
        is_refused_at(rt, alloc, octets, value.endian, ptype, *place);
    }
}

#[test]
fn each_kind_is_refused_at_each_field(rt: HostRuntime) {
    for at in 0..LITTLE.len() {
        is_refused_at_each_field(&rt, rt.alloc(), LITTLE[at]);
        is_refused_at_each_field(&rt, rt.alloc(), BIG[at]);
    }
}

// A shutdown with octets behind its header up to a length.
fn expect_length(
    rt: &(impl Abort + Eprint),
    alloc: Global,
    endian: Endian,
    length: usize,
    right: bool,
) {
    let example = match endian {
        Endian::Little => LITTLE[SHUTDOWN],
        Endian::Big => BIG[SHUTDOWN],
    };
    let shutdown = octets_of(rt, alloc, example);
    let mut octets = copy_of(rt, alloc, shutdown.as_slice());
    octets.resize(length, 0xff).expect(rt, "memory");
    overwrite(&mut octets, endian, 8, 2, whole(length));
    let octets = octets.as_slice();
    if right {
        expect_canonical(rt, alloc, octets, shutdown.as_slice());
    } else {
        expect_refused(rt, alloc, octets, Field::FragLength, 8, WireCause::Value);
    }
}

#[test]
fn a_length_is_right_up_to_its_limits(rt: HostRuntime) {
    for (length, right) in [(15, false), (16, true), (5840, true), (5841, false)] {
        expect_length(&rt, rt.alloc(), Endian::Little, length, right);
        expect_length(&rt, rt.alloc(), Endian::Big, length, right);
    }
}

// A value is refused so, or encoded to octets that are decoded and encoded to the same.
fn expect_encoding(
    rt: &(impl Abort + Eprint),
    alloc: Global,
    value: &Pdu,
    fault: Option<EncodeFault>,
) {
    match encode(alloc, value) {
        Ok(octets) => {
            assert_at!(rt; "encoded", fault.is_none());
            expect_canonical(rt, alloc, octets.as_slice(), octets.as_slice());
        }
        Err(other) => assert_equal!(rt; Some(other), fault),
    }
}

// What comes of a value whose first field that is not right is this.
fn unsound(field: Option<Field>) -> Option<EncodeFault> {
    match field {
        Some(field) => Some(EncodeFault::Unsound { field }),
        None => None,
    }
}

fn pdu_of(endian: Endian, minor: u8, flags: u8, body: Body) -> Pdu {
    Pdu {
        call_id: 1,
        flags,
        minor,
        endian,
        body,
    }
}

// A request with an object or without one, and so many octets of a stub.
fn request(
    rt: &impl Abort,
    alloc: Global,
    minor: u8,
    flags: u8,
    object: Option<Uuid>,
    stub: usize,
) -> Pdu {
    let mut octets = Vec::new(alloc);
    octets.resize(stub, 7).expect(rt, "memory");
    let body = Body::Request {
        hint: 1,
        context: 0,
        opnum: 0,
        object,
        stub: Bytes::from_vec(octets),
    };
    pdu_of(Endian::Little, minor, flags, body)
}

fn expect_request(rt: &(impl Abort + Eprint), alloc: Global, row: &RequestRow) {
    let object = if row.named {
        Some(Uuid::from_bytes(INTERFACE))
    } else {
        None
    };
    let call = request(rt, alloc, row.minor, row.flags, object, row.stub);
    expect_encoding(rt, alloc, &call, row.fault);
}

// A row on a request: with an object or without one, and so many octets of a stub.
struct RequestRow {
    minor: u8,
    flags: u8,
    named: bool,
    stub: usize,
    fault: Option<EncodeFault>,
}

static REQUESTS: [RequestRow; 7] = [
    RequestRow {
        minor: 2,
        flags: 0x83,
        named: false,
        stub: 6000,
        fault: Some(EncodeFault::Unsound {
            field: Field::RpcVersMinor,
        }),
    },
    RequestRow {
        minor: 1,
        flags: 0x83,
        named: false,
        stub: 6000,
        fault: Some(EncodeFault::Unsound {
            field: Field::PfcFlags,
        }),
    },
    RequestRow {
        minor: 0,
        flags: 0x03,
        named: true,
        stub: 0,
        fault: Some(EncodeFault::Unsound {
            field: Field::PfcFlags,
        }),
    },
    RequestRow {
        minor: 0,
        flags: 0x83,
        named: true,
        stub: 5800,
        fault: None,
    },
    RequestRow {
        minor: 0,
        flags: 0x83,
        named: true,
        stub: 5801,
        fault: Some(EncodeFault::TooLong { have: 5841 }),
    },
    RequestRow {
        minor: 1,
        flags: 0x03,
        named: false,
        stub: 5816,
        fault: None,
    },
    RequestRow {
        minor: 0,
        flags: 0x03,
        named: false,
        stub: 5817,
        fault: Some(EncodeFault::TooLong { have: 5841 }),
    },
];

#[test]
fn a_request_is_encoded_up_to_its_limits(rt: HostRuntime) {
    for row in REQUESTS.iter() {
        expect_request(&rt, rt.alloc(), row);
    }
}

fn context_with(rt: &impl Abort, alloc: Global, transfers: usize) -> Context {
    let interface = Uuid::from_bytes(INTERFACE);
    let ndr = Uuid::from_bytes(NDR);
    let mut list = Syntaxes::new(alloc).expect(rt, "memory");
    for _transfer in 0..transfers {
        list.push(
            alloc,
            Syntax {
                uuid: ndr,
                version: 2,
            },
        )
        .expect(rt, "memory");
    }
    Context {
        id: 0,
        abstract_syntax: Syntax {
            uuid: interface,
            version: 1,
        },
        transfers: list,
    }
}

// A bind with so many contexts of so many transfer syntaxes.
fn bind_with(
    rt: &impl Abort,
    alloc: Global,
    endian: Endian,
    count: usize,
    transfers: usize,
) -> Pdu {
    let mut contexts = Contexts::new(alloc).expect(rt, "memory");
    for _context in 0..count {
        contexts
            .push(alloc, context_with(rt, alloc, transfers))
            .expect(rt, "memory");
    }
    let body = Body::Bind(BindBody {
        max_xmit: 5840,
        max_recv: 5840,
        group: 0,
        contexts,
    });
    pdu_of(endian, 0, 3, body)
}

// Counts of contexts and of transfer syntaxes, and the field that is not right.
static BINDS: [(usize, usize, Option<Field>); 8] = [
    (0, 0, Some(Field::NContext)),
    (1, 1, None),
    (1, 8, None),
    (16, 1, None),
    (16, 8, None),
    (17, 0, Some(Field::NContext)),
    (1, 0, Some(Field::NTransferSyn)),
    (16, 9, Some(Field::NTransferSyn)),
];

fn expect_bind(
    rt: &(impl Abort + Eprint),
    alloc: Global,
    endian: Endian,
    row: &(usize, usize, Option<Field>),
) {
    let (count, transfers, field) = *row;
    let bind = bind_with(rt, alloc, endian, count, transfers);
    expect_encoding(rt, alloc, &bind, unsound(field));
}

#[test]
fn a_bind_is_encoded_up_to_its_limits(rt: HostRuntime) {
    for row in BINDS.iter() {
        expect_bind(&rt, rt.alloc(), Endian::Little, row);
        expect_bind(&rt, rt.alloc(), Endian::Big, row);
    }
}

fn context_result(outcome: u16, reason: u16) -> ContextResult {
    let uuid = Uuid::from_bytes(NDR);
    ContextResult {
        result: outcome,
        reason,
        transfer: Syntax { uuid, version: 2 },
    }
}

// An answer with so many results.
fn ack_with(rt: &impl Abort, alloc: Global, count: usize, outcome: u16, reason: u16) -> Pdu {
    let mut results = ContextResults::new(alloc).expect(rt, "memory");
    for _result in 0..count {
        results
            .push(alloc, context_result(outcome, reason))
            .expect(rt, "memory");
    }
    let body = Body::AlterContextResp(AckBody {
        max_xmit: 5840,
        max_recv: 5840,
        group: 1,
        address: Bytes::from_slice(alloc, b"7001\0").expect(rt, "memory"),
        results,
    });
    pdu_of(Endian::Little, 0, 3, body)
}

// A count of results, their result and reason, and the field that is not right.
static ACKS: [(usize, u16, u16, Option<Field>); 6] = [
    (0, 0, 0, Some(Field::NResults)),
    (1, 2, 3, None),
    (16, 2, 3, None),
    (17, 3, 0, Some(Field::NResults)),
    (1, 3, 4, Some(Field::Result)),
    (1, 0, 4, Some(Field::Reason)),
];

fn expect_ack(rt: &(impl Abort + Eprint), alloc: Global, row: &(usize, u16, u16, Option<Field>)) {
    let (count, outcome, reason, field) = *row;
    let answer = ack_with(rt, alloc, count, outcome, reason);
    expect_encoding(rt, alloc, &answer, unsound(field));
}

#[test]
fn results_and_reasons_are_encoded_up_to_their_limits(rt: HostRuntime) {
    for row in ACKS.iter() {
        expect_ack(&rt, rt.alloc(), row);
    }
}

fn expect_nak(rt: &(impl Abort + Eprint), alloc: Global, count: usize, field: Option<Field>) {
    let mut protocols = Protocols::new(alloc).expect(rt, "memory");
    for _pair in 0..count {
        protocols
            .push(alloc, Protocol { major: 5, minor: 0 })
            .expect(rt, "memory");
    }
    let body = Body::BindNak {
        reason: 4,
        protocols,
    };
    expect_encoding(
        rt,
        alloc,
        &pdu_of(Endian::Little, 0, 3, body),
        unsound(field),
    );
}

#[test]
fn a_refused_bind_offers_at_most_255_versions(rt: HostRuntime) {
    expect_nak(&rt, rt.alloc(), 0, None);
    expect_nak(&rt, rt.alloc(), 255, None);
    expect_nak(&rt, rt.alloc(), 256, Some(Field::NProtocols));
}

// A number below a bound, from a word that goes on.
fn draw(word: &mut u64, below: u64) -> u64
    requires { 0 < below }
    ensures { result < below }
{
    *word = word
        .wrapping_mul(6_364_136_223_846_793_005)
        .wrapping_add(1_442_695_040_888_963_407);
    (*word >> 33) % below
}

// Changes an octet, or cuts octets off, or adds one.
fn change(rt: &impl Abort, word: &mut u64, octets: &mut Vec<u8>) {
    let at = draw(word, 80) as usize;
    let octet = draw(word, 256) as u8;
    match draw(word, 4) {
        0 => octets.truncate(at),
        1 => octets.push(octet).expect(rt, "memory"),
        2 => overwrite(octets, Endian::Big, at, 1, u32::from(octet % 20)),
        _ => overwrite(octets, Endian::Big, at, 1, u32::from(octet)),
    }
}

// Decodes octets as the plain reading does.
fn expect_plain(rt: &(impl Abort + Eprint), alloc: Global, octets: &[u8]) {
    let reading = plain::read(rt, alloc, octets);
    match reading.refused {
        Some(refused) => expect_refused(
            rt,
            alloc,
            octets,
            refused.field,
            refused.offset as usize,
            refused.cause,
        ),
        None => expect_canonical(rt, alloc, octets, reading.canonical(rt, alloc).as_slice()),
    }
}

// Compares the readings of an example that was changed at most twice.
fn compare_changed(rt: &(impl Abort + Eprint), alloc: Global, word: &mut u64, example: &[u8]) {
    let mut octets = copy_of(rt, alloc, example);
    for _change in 0..draw(word, 3) {
        change(rt, word, &mut octets);
    }
    if draw(word, 4) != 0 {
        let endian = if octets.get(4) == Some(&0x10) {
            Endian::Little
        } else {
            Endian::Big
        };
        let length = whole(octets.len());
        overwrite(&mut octets, endian, 8, 2, length);
    }
    expect_plain(rt, alloc, octets.as_slice());
}

fn compare_often(rt: &(impl Abort + Eprint), alloc: Global, word: &mut u64, example: &str) {
    let octets = octets_of(rt, alloc, example);
    for _round in 0..850 {
        compare_changed(rt, alloc, word, octets.as_slice());
    }
}

#[test]
fn changed_octets_are_read_as_the_plain_reading_does(rt: HostRuntime) {
    let mut word: u64 = 1;
    for at in 0..LITTLE.len() {
        compare_often(&rt, rt.alloc(), &mut word, LITTLE[at]);
        compare_often(&rt, rt.alloc(), &mut word, BIG[at]);
    }
}
