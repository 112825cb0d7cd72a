//! Both ends together, and the limits.

ghost use Rattle.std.specs.Prelude.{◌≤◌, length};

use crate::pdus::{ACK, BIND, RESP, frag_length, pdu};
use assertions::assert_at;
use dts_base::Bytes;
use ndr::Endian;
use pdu_fields::{AckBody, BindBody, Body, Context, Contexts, Pdu, Syntax, Syntaxes};
use rpc_session::{
    ClientOut, ClientSession, Out, RequestFault, ServerSession, SessionFault, ndr_syntax,
    time_interface,
};
use std::alloc::Global;
use std::process::Abort;

// The size that a client tells, the greatest fragment that is sent to it, and how many fragments 20,000 octets make.
static SIZES: [(u16, u16, usize); 7] = [
    (0, 1432, 15),
    (1431, 1432, 15),
    (1432, 1432, 15),
    (2024, 2024, 10),
    (5839, 5839, 4),
    (5840, 5840, 4),
    (65_535, 5840, 4),
];

fn octets(rt: &impl Abort, alloc: Global, count: usize) -> Vec<u8> {
    let mut octets = Vec::new(alloc);
    for index in 0..count {
        octets.push((index % 251) as u8).expect(rt, "memory");
    }
    octets
}

// Puts another receive size into a bind or an acknowledgement.
fn resize(p: &mut Pdu, size: u16) {
    match &mut p.body {
        Body::Bind(bind) => bind.max_recv = size,
        Body::BindAck(ack) => ack.max_recv = size,
        _ => {}
    }
}

// Whether these are so many fragments, each but the last of this size.
fn are_cut(rt: &impl Abort, alloc: Global, sent: &[Pdu], size: u16, count: usize) -> bool {
    let mut right = sent.len() == count;
    for (index, part) in sent.iter().enumerate() {
        let length = frag_length(rt, alloc, part);
        let full = length == usize::from(size);
        right = right && (full || (length < usize::from(size) && index + 1 == count));
    }
    right
}

fn transmit_size(outs: &[Out]) -> Option<u16> {
    match outs {
        [
            Out::Send(
                Pdu {
                    body: Body::BindAck(ack),
                    ..
                },
            ),
        ] => Some(ack.max_xmit),
        _ => None,
    }
}

fn bound_server(rt: &impl Abort, alloc: Global) -> ServerSession {
    let mut server = ServerSession::new(alloc, 1000).expect(rt, "memory");
    let bind = pdu(rt, alloc, BIND);
    let answer = server.take(alloc, &bind);
    assert!(rt; answer.is_ok());
    server
}

fn bound_client(rt: &impl Abort, alloc: Global, first: u32, size: u16) -> ClientSession
    requires { 1 ≤ first }
{
    let (mut client, _bind) = ClientSession::start(alloc, first).expect(rt, "memory");
    let mut ack = pdu(rt, alloc, ACK);
    resize(&mut ack, size);
    ack.call_id = first;
    let answer = client.take(alloc, &ack);
    assert!(rt; answer.is_ok());
    client
}

#[test]
fn fragments_are_as_long_as_the_peer_takes(rt: HostRuntime) {
    let alloc = rt.alloc();
    let stub = octets(&rt, alloc, 20_000);
    for row in SIZES.iter() {
        let (size, limit, count) = *row;
        let mut client = bound_client(&rt, alloc, 1, size);
        let sent = client
            .request(alloc, 0, stub.as_slice())
            .expect(&rt, "bound")
            .1;
        let right = are_cut(&rt, alloc, sent.as_slice(), limit, count);
        assert_at!(rt; size, right);
        let mut server = ServerSession::new(alloc, 1000).expect(&rt, "memory");
        let mut bind = pdu(&rt, alloc, BIND);
        resize(&mut bind, size);
        let outs = server.take(alloc, &bind).expect(&rt, "a bind");
        let told = transmit_size(outs.as_slice());
        assert_at!(rt; size, told == Some(limit));
        let endian = Endian::Little;
        let sent = server
            .reply(alloc, 2, 0, endian, &stub[..stub.len().min(20_000)])
            .expect(&rt, "memory");
        let right = are_cut(&rt, alloc, sent.as_slice(), limit, count);
        assert_at!(rt; size, right);
    }
}

#[test]
fn a_stub_has_65_536_octets_at_most(rt: HostRuntime) {
    let alloc = rt.alloc();
    let stub = octets(&rt, alloc, 65_537);
    let mut client = bound_client(&rt, alloc, 1, 5840);
    let long = client.request(alloc, 0, stub.as_slice());
    let refused = matches!(
        &long,
        Err(RequestFault::Fragments {
            have: 65_537,
            limit: 65_536
        })
    );
    assert!(rt; refused);
    let sent = client
        .request(alloc, 0, &stub[..stub.len().min(65_536)])
        .expect(&rt, "bound")
        .1;
    let right = are_cut(&rt, alloc, sent.as_slice(), 5840, 12);
    let last = frag_length(&rt, alloc, sent.as_slice().last().expect(&rt, "a fragment"));
    assert!(rt; right && last == 1584);
}

// An end of a session, which takes what the other one sent.
trait End {
    // The stub that a fragment ends, where it ends one.
    fn hear(&mut self, alloc: Global, part: &Pdu) -> Result<Option<Bytes>, SessionFault>;
}

impl End for ServerSession {
    fn hear(&mut self, alloc: Global, part: &Pdu) -> Result<Option<Bytes>, SessionFault> {
        for out in self.take(alloc, part)? {
            if let Out::Call { stub, .. } = out {
                return Ok(Some(stub));
            }
        }
        Ok(None)
    }
}

impl End for ClientSession {
    fn hear(&mut self, alloc: Global, part: &Pdu) -> Result<Option<Bytes>, SessionFault> {
        match self.take(alloc, part)? {
            ClientOut::Reply { stub, .. } => Ok(Some(stub)),
            _ => Ok(None),
        }
    }
}

// The stub that fragments are of.
fn heard<E: End>(rt: &impl Abort, alloc: Global, end: &mut E, sent: &[Pdu]) -> Option<Bytes> {
    for part in sent {
        let stub = end.hear(alloc, part).expect(rt, "a fragment");
        if stub.is_some() {
            return stub;
        }
    }
    None
}

static LENGTHS: [usize; 5] = [0, 1, 5816, 5817, 65_536];

#[test]
fn what_is_sent_comes_whole(rt: HostRuntime) {
    let alloc = rt.alloc();
    let stub = octets(&rt, alloc, 65_536);
    let mut client = bound_client(&rt, alloc, 1, 5840);
    let mut server = bound_server(&rt, alloc);
    for row in LENGTHS.iter() {
        let length = (*row).min(stub.len()).min(65_536);
        let part = &stub[..length];
        let (call_id, sent) = client.request(alloc, 1, part).expect(&rt, "bound");
        let given = heard(&rt, alloc, &mut server, sent.as_slice()).expect(&rt, "a call");
        assert_at!(rt; length, given.as_slice() == part);
        let sent = server
            .reply(alloc, call_id, 0, Endian::Big, part)
            .expect(&rt, "memory");
        let given = heard(&rt, alloc, &mut client, sent.as_slice()).expect(&rt, "a reply");
        assert_at!(rt; length, given.as_slice() == part);
    }
}

// An end takes these fragments of a stub of 65,536 octets, none of which is the last one, and refuses one more.
fn expect_full<E: End>(rt: &impl Abort, alloc: Global, end: &mut E, sent: Vec<Pdu>, more: &str) {
    for part in sent {
        let mut part = part;
        part.flags &= 1;
        let answer = end.hear(alloc, &part);
        assert!(rt; answer.is_ok());
    }
    let more = pdu(rt, alloc, more);
    let answer = end.hear(alloc, &more);
    let refused = matches!(
        &answer,
        Err(SessionFault::Fragments {
            have: 65_537,
            limit: 65_536
        })
    );
    assert!(rt; refused);
}

#[test]
fn an_octet_too_many_is_refused_by_both(rt: HostRuntime) {
    let alloc = rt.alloc();
    let stub = octets(&rt, alloc, 65_536);
    let mut server = bound_server(&rt, alloc);
    let mut client = bound_client(&rt, alloc, 1, 5840);
    let sent = client
        .request(alloc, 0, stub.as_slice())
        .expect(&rt, "bound")
        .1;
    let more = "0500000010000000190000000200000001000000000000000c";
    expect_full(&rt, alloc, &mut server, sent, more);
    let sent = server
        .reply(alloc, 2, 0, Endian::Little, &stub[..stub.len().min(65_536)])
        .expect(&rt, "memory");
    let more = "0500020010000000190000000200000001000000000000000c";
    expect_full(&rt, alloc, &mut client, sent, more);
}

#[test]
fn calls_end_with_the_last_identifier(rt: HostRuntime) {
    let alloc = rt.alloc();
    let mut client = bound_client(&rt, alloc, 4_294_967_294, 5840);
    let (call_id, _sent) = client.request(alloc, 0, &[]).expect(&rt, "bound");
    assert!(rt; call_id == 4_294_967_295);
    let mut response = pdu(&rt, alloc, RESP);
    response.call_id = call_id;
    let answer = client.take(alloc, &response);
    assert!(rt; answer.is_ok());
    let spent = client.request(alloc, 0, &[]);
    let refused = matches!(&spent, Err(RequestFault::CallsSpent));
    assert!(rt; refused);
}

// Puts a context with this number at the end.
fn propose(
    rt: &impl Abort,
    alloc: Global,
    contexts: &mut Contexts,
    id: u16,
    interface: Syntax,
    transfer: Syntax,
) {
    let mut transfers = Syntaxes::new(alloc).expect(rt, "memory");
    transfers.push(alloc, transfer).expect(rt, "memory");
    let context = Context {
        id,
        abstract_syntax: interface,
        transfers,
    };
    contexts.push(alloc, context).expect(rt, "memory");
}

fn proposal(contexts: Contexts) -> BindBody {
    BindBody {
        max_xmit: 5840,
        max_recv: 5840,
        group: 0,
        contexts,
    }
}

fn proposed(call_id: u32, body: Body) -> Pdu {
    Pdu {
        call_id,
        flags: 3,
        minor: 0,
        endian: Endian::Little,
        body,
    }
}

// Whether the answers to contexts are these results and reasons.
fn are_results(outs: &[Out], wanted: &[(u16, u16)]) -> bool {
    let [
        Out::Send(
            Pdu {
                body: Body::BindAck(ack) | Body::AlterContextResp(ack),
                ..
            },
        ),
    ] = outs
    else {
        return false;
    };
    let results = ack.results.as_slice();
    let mut right = results.len() == wanted.len();
    for (answer, (outcome, reason)) in results.iter().zip(wanted) {
        right = right && answer.result == *outcome && answer.reason == *reason;
    }
    right
}

fn sixteen_contexts(rt: &impl Abort, alloc: Global) -> Contexts {
    let mut contexts = Contexts::new(alloc).expect(rt, "memory");
    for id in 0..16 {
        propose(rt, alloc, &mut contexts, id, time_interface(), ndr_syntax());
    }
    contexts
}

// One more, one that is accepted already, and that and the further one with another interface and another transfer syntax.
fn further_contexts(rt: &impl Abort, alloc: Global) -> Contexts {
    let mut contexts = Contexts::new(alloc).expect(rt, "memory");
    propose(rt, alloc, &mut contexts, 16, time_interface(), ndr_syntax());
    propose(rt, alloc, &mut contexts, 3, time_interface(), ndr_syntax());
    propose(rt, alloc, &mut contexts, 3, ndr_syntax(), ndr_syntax());
    propose(
        rt,
        alloc,
        &mut contexts,
        16,
        time_interface(),
        time_interface(),
    );
    contexts
}

#[test]
fn a_server_accepts_16_contexts(rt: HostRuntime) {
    let alloc = rt.alloc();
    let mut server = ServerSession::new(alloc, 1000).expect(&rt, "memory");
    let bind = proposed(1, Body::Bind(proposal(sixteen_contexts(&rt, alloc))));
    let outs = server.take(alloc, &bind).expect(&rt, "a bind");
    let right = are_results(outs.as_slice(), &[(0, 0); 16]);
    assert_at!(rt; "16 contexts", right);
    let alter = proposed(
        2,
        Body::AlterContext(proposal(further_contexts(&rt, alloc))),
    );
    let outs = server.take(alloc, &alter).expect(&rt, "further contexts");
    let right = are_results(outs.as_slice(), &[(2, 3), (0, 0), (2, 1), (2, 2)]);
    assert_at!(rt; "further contexts", right);
}
