ghost use Rattle.std.specs.Prelude.{◌<◌};

use crate::pdus::examples::BIG;
use assertions::{assert_at, assert_equal};
use dts_base::{Field, Refused, WireCause};
use ndr::DecodeFault;
use pdu_fields::Pdu;
use rpc_feed::Feed;
use rpc_pdu::{decode, encode};
use std::alloc::Global;
use std::io::Eprint;
use std::process::Abort;

// A bind of call 1, the lowest octet first.
const BIND: &str =
    "05000b03100000004800000001000000d016d016000000000100000000000100105a0e6a523c7e4b9d215e8f7c1a2b3001000000045d888aeb1cc9119fe808002b10486002000000";

fn octets_of(rt: &impl Abort, alloc: Global, text: &str) -> Vec<u8> {
    hex::decode(alloc, text).expect(rt, "hex digits")
}

fn new_feed(rt: &impl Abort, alloc: Global) -> Feed {
    Feed::new(alloc).expect(rt, "memory")
}

fn put(rt: &impl Abort, alloc: Global, feed: &mut Feed, piece: &[u8]) {
    feed.feed(alloc, piece).expect(rt, "memory");
}

fn wrong(field: Field, offset: u32) -> Option<DecodeFault> {
    Some(DecodeFault::Wrong(Refused {
        field,
        offset,
        cause: WireCause::Value,
    }))
}

// Appends what a PDU is encoded to.
fn append(rt: &impl Abort, alloc: Global, pdu: &Pdu, given: &mut Vec<u8>) {
    let octets = encode(alloc, pdu).expect(rt, "a PDU that is encoded");
    given
        .extend_from_slice(octets.as_slice())
        .expect(rt, "memory");
}

// Takes PDUs, at most so many, and appends what they are encoded to. Gives a refusal that ends them.
fn take_out(
    rt: &impl Abort,
    alloc: Global,
    feed: &mut Feed,
    most: u64,
    given: &mut Vec<u8>,
) -> Option<DecodeFault> {
    for _pdu in 0..most {
        match feed.next(alloc) {
            None => return None,
            Some(Ok(pdu)) => append(rt, alloc, &pdu, given),
            Some(Err(fault)) => return Some(fault),
        }
    }
    None
}

// A feed gives PDUs of these octets, then at most one refusal, and then none.
fn expect_given(
    rt: &(impl Abort + Eprint),
    alloc: Global,
    feed: &mut Feed,
    octets: &[u8],
    fault: Option<DecodeFault>,
) {
    let mut given = Vec::new(alloc);
    assert_equal!(rt; take_out(rt, alloc, feed, 2, &mut given), fault);
    assert_at!(rt; "other PDUs", given.as_slice() == octets);
}

// Feeds octets one by one, behind which nothing is given but behind the last.
fn put_each(rt: &(impl Abort + Eprint), alloc: Global, feed: &mut Feed, octets: &[u8]) {
    for octet in octets {
        expect_given(rt, alloc, feed, &[], None);
        put(rt, alloc, feed, &[*octet]);
    }
}

fn a_bind_in_pieces(rt: &(impl Abort + Eprint), alloc: Global) {
    let bind = octets_of(rt, alloc, BIND);
    let mut feed = new_feed(rt, alloc);
    put_each(rt, alloc, &mut feed, bind.as_slice());
    expect_given(rt, alloc, &mut feed, bind.as_slice(), None);
    expect_given(rt, alloc, &mut feed, &[], None);
}

#[test]
fn a_bind_comes_in_pieces_of_one_octet(rt: HostRuntime) {
    a_bind_in_pieces(&rt, rt.alloc());
}

fn a_copied_feed(rt: &(impl Abort + Eprint), alloc: Global) {
    let bind = octets_of(rt, alloc, BIND);
    assert!(rt; bind.len() == 72);
    let (front, rest) = bind.split_at(20);
    let mut feed = new_feed(rt, alloc);
    put(rt, alloc, &mut feed, front);
    let mut copy = feed.copy(alloc).expect(rt, "memory");
    put(rt, alloc, &mut copy, rest);
    expect_given(rt, alloc, &mut copy, bind.as_slice(), None);
    expect_given(rt, alloc, &mut feed, &[], None);
}

#[test]
fn a_copy_goes_its_own_way(rt: HostRuntime) {
    a_copied_feed(&rt, rt.alloc());
}

// A bind with two octets changed is refused as soon as so many octets were fed, and so is a right bind behind it.
fn expect_dead(
    rt: &(impl Abort + Eprint),
    alloc: Global,
    tenth: u8,
    thirtieth: u8,
    enough: usize,
    fault: Option<DecodeFault>,
) {
    let right = octets_of(rt, alloc, BIND);
    let mut octets = right.to_vec(alloc).expect(rt, "memory");
    if octets.len() > 30 {
        octets[10] = tenth;
        octets[30] = thirtieth;
    }
    octets.truncate(enough);
    let mut feed = new_feed(rt, alloc);
    put_each(rt, alloc, &mut feed, octets.as_slice());
    expect_given(rt, alloc, &mut feed, &[], fault);
    put(rt, alloc, &mut feed, right.as_slice());
    expect_given(rt, alloc, &mut feed, &[], fault);
}

#[test]
fn a_wrong_field_is_refused_for_good(rt: HostRuntime) {
    expect_dead(&rt, rt.alloc(), 8, 0, 16, wrong(Field::AuthLength, 10));
    expect_dead(&rt, rt.alloc(), 0, 0, 72, wrong(Field::NTransferSyn, 30));
}

// A number below a bound, from a word that goes on.
fn draw(word: &mut u64, below: u64) -> u64
    requires { 0 < below }
    ensures { result < below }
{
    *word = word
        .wrapping_mul(6_364_136_223_846_793_005)
        .wrapping_add(1_442_695_040_888_963_407);
    (*word >> 33) % below
}

// Appends the PDU at a place of a hundred to a stream; and to other octets what it is encoded to when it is decoded alone,
// or nothing where it is broken or behind the broken one.
fn append_at(
    rt: &impl Abort,
    alloc: Global,
    place: usize,
    broken: usize,
    stream: &mut Vec<u8>,
    alone: &mut Vec<u8>,
) {
    let mut octets = octets_of(rt, alloc, BIG[place % BIG.len()]);
    if place < broken {
        let pdu = decode(alloc, octets.as_slice()).expect(rt, "octets that are decoded");
        append(rt, alloc, &pdu, alone);
    }
    if place == broken && octets.len() > 1 {
        octets[1] = 2;
    }
    stream
        .extend_from_slice(octets.as_slice())
        .expect(rt, "memory");
}

// Feeds a stream in pieces of random lengths, asks for PDUs now and then, and gives the refusal at the end.
fn put_in_pieces(
    rt: &impl Abort,
    alloc: Global,
    word: &mut u64,
    stream: &[u8],
    given: &mut Vec<u8>,
) -> Option<DecodeFault> {
    let mut feed = new_feed(rt, alloc);
    let mut left = stream;
    for _piece in 0..stream.len() {
        let size = (1 + draw(word, 150) as usize).min(left.len());
        let (piece, rest) = left.split_at(size);
        put(rt, alloc, &mut feed, piece);
        left = rest;
        let most = draw(word, 4);
        take_out(rt, alloc, &mut feed, most, given);
    }
    take_out(rt, alloc, &mut feed, 100, given)
}

// A hundred PDUs of all kinds, of which one has a minor version that is not right, are given up to it however they are cut.
fn expect_hundred(
    rt: &(impl Abort + Eprint),
    alloc: Global,
    word: &mut u64,
    broken: usize,
    fault: Option<DecodeFault>,
) {
    let mut stream = Vec::new(alloc);
    let mut alone = Vec::new(alloc);
    for place in 0..100 {
        append_at(rt, alloc, place, broken, &mut stream, &mut alone);
    }
    for _cutting in 0..10 {
        let mut given = Vec::new(alloc);
        let end = put_in_pieces(rt, alloc, word, stream.as_slice(), &mut given);
        assert_equal!(rt; end, fault);
        assert_at!(rt; "other PDUs", given.as_slice() == alone.as_slice());
    }
}

#[test]
fn a_hundred_pdus_come_in_random_pieces(rt: HostRuntime) {
    let mut word: u64 = 1;
    for broken in [0, 1, 50, 99] {
        expect_hundred(
            &rt,
            rt.alloc(),
            &mut word,
            broken,
            wrong(Field::RpcVersMinor, 1),
        );
    }
    expect_hundred(&rt, rt.alloc(), &mut word, 100, None);
}
