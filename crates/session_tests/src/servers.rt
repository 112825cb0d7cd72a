//! What each PDU is to a server in each state.

use crate::pdus::{
    ACK, ALTER, ALTER_RESP, BIG_BIND, BIND, CO_CANCEL, FAULT, FAULT_ON_1, NAK, ORPHANED,
    ORPHANED_3, REQ, REQ_3, REQ_FIRST, REQ_LAST, REQ_LAST_OF_3, REQ_ON_1, RESP, SHUTDOWN, is_pdu,
    pdu,
};
use assertions::assert_at;
use dts_base::State;
use ndr::Endian;
use rpc_session::{Out, ServerSession, SessionFault};
use std::alloc::Global;
use std::process::Abort;

// Where the server of connection 1000 is.
#[derive(Clone, Copy)]
enum Place {
    New,
    Bound,
    Gathering,
    Dead,
}

// What it answers.
#[derive(Clone, Copy)]
enum Want {
    Nothing,
    Send(&'static str),
    Call(u16, &'static [u8], bool),
    Unexpected(u8, State),
}

// The acknowledgement of the bind, and of the same with the highest octet first and the group 7.
const SERVER_ACK: &str =
    "05000c03100000003800000001000000d016d016e8030000000000000100000000000000045d888aeb1cc9119fe808002b10486002000000";

const BIG_ACK: &str =
    "05000c0300000000003800000000000116d016d0000000070000000001000000000000008a885d041ceb11c99fe808002b10486000000002";

// A place, a PDU, its answer, and the state behind it.
static ROWS: [(Place, &str, Want, State); 33] = [
    (Place::New, BIND, Want::Send(SERVER_ACK), State::Bound),
    (Place::New, BIG_BIND, Want::Send(BIG_ACK), State::Bound),
    (
        Place::New,
        ALTER,
        Want::Unexpected(14, State::New),
        State::Dead,
    ),
    (
        Place::New,
        REQ,
        Want::Unexpected(0, State::New),
        State::Dead,
    ),
    (Place::New, ORPHANED, Want::Nothing, State::New),
    (Place::New, CO_CANCEL, Want::Nothing, State::New),
    (
        Place::New,
        SHUTDOWN,
        Want::Unexpected(17, State::New),
        State::Dead,
    ),
    (
        Place::Bound,
        BIND,
        Want::Unexpected(11, State::Bound),
        State::Dead,
    ),
    (Place::Bound, ALTER, Want::Send(ALTER_RESP), State::Bound),
    (Place::Bound, REQ, Want::Call(0, &[0], false), State::Bound),
    (Place::Bound, REQ_3, Want::Send(FAULT), State::Bound),
    (Place::Bound, REQ_ON_1, Want::Send(FAULT_ON_1), State::Bound),
    (Place::Bound, REQ_FIRST, Want::Nothing, State::Gathering),
    (
        Place::Bound,
        REQ_LAST,
        Want::Unexpected(0, State::Bound),
        State::Dead,
    ),
    (Place::Bound, ORPHANED, Want::Nothing, State::Bound),
    (Place::Bound, CO_CANCEL, Want::Nothing, State::Bound),
    (
        Place::Bound,
        SHUTDOWN,
        Want::Unexpected(17, State::Bound),
        State::Dead,
    ),
    (
        Place::Bound,
        RESP,
        Want::Unexpected(2, State::Bound),
        State::Dead,
    ),
    (
        Place::Bound,
        FAULT,
        Want::Unexpected(3, State::Bound),
        State::Dead,
    ),
    (
        Place::Bound,
        ACK,
        Want::Unexpected(12, State::Bound),
        State::Dead,
    ),
    (
        Place::Bound,
        NAK,
        Want::Unexpected(13, State::Bound),
        State::Dead,
    ),
    (
        Place::Bound,
        ALTER_RESP,
        Want::Unexpected(15, State::Bound),
        State::Dead,
    ),
    (
        Place::Gathering,
        REQ_LAST,
        Want::Call(1, &[0x0a, 0x0b, 0x0c], true),
        State::Bound,
    ),
    (
        Place::Gathering,
        REQ_LAST_OF_3,
        Want::Unexpected(0, State::Gathering),
        State::Dead,
    ),
    (
        Place::Gathering,
        REQ_FIRST,
        Want::Unexpected(0, State::Gathering),
        State::Dead,
    ),
    (
        Place::Gathering,
        ALTER,
        Want::Unexpected(14, State::Gathering),
        State::Dead,
    ),
    (Place::Gathering, ORPHANED, Want::Nothing, State::Bound),
    (
        Place::Gathering,
        ORPHANED_3,
        Want::Nothing,
        State::Gathering,
    ),
    (Place::Gathering, CO_CANCEL, Want::Nothing, State::Gathering),
    (
        Place::Dead,
        BIND,
        Want::Unexpected(11, State::Dead),
        State::Dead,
    ),
    (
        Place::Dead,
        REQ,
        Want::Unexpected(0, State::Dead),
        State::Dead,
    ),
    (Place::Dead, ORPHANED, Want::Nothing, State::Dead),
    (Place::Dead, CO_CANCEL, Want::Nothing, State::Dead),
];

fn put(rt: &impl Abort, alloc: Global, session: &mut ServerSession, digits: &str) {
    let p = pdu(rt, alloc, digits);
    let answer = session.take(alloc, &p);
    assert!(rt; answer.is_ok());
}

fn server_at(rt: &impl Abort, alloc: Global, place: Place) -> ServerSession {
    let mut session = ServerSession::new(alloc, 1000).expect(rt, "memory");
    match place {
        Place::New => {}
        Place::Bound => put(rt, alloc, &mut session, BIND),
        Place::Gathering => {
            put(rt, alloc, &mut session, BIND);
            put(rt, alloc, &mut session, REQ_FIRST);
        }
        Place::Dead => {
            let p = pdu(rt, alloc, SHUTDOWN);
            let answer = session.take(alloc, &p);
            assert!(rt; answer.is_err());
        }
    }
    session
}

// The state of a session: that in which a response is not taken.
fn state_of(rt: &impl Abort, alloc: Global, session: &ServerSession) -> State {
    let mut other = session.copy(alloc).expect(rt, "memory");
    let p = pdu(rt, alloc, RESP);
    match other.take(alloc, &p) {
        Err(SessionFault::Unexpected { state, .. }) => state,
        _ => State::Waiting,
    }
}

fn is_out(rt: &impl Abort, alloc: Global, out: &Out, want: Want) -> bool {
    match (out, want) {
        (Out::Send(p), Want::Send(digits)) => is_pdu(rt, alloc, p, digits),
        (
            Out::Call {
                call_id,
                context,
                opnum,
                stub,
                endian,
                maybe,
            },
            Want::Call(operation, octets, no_answer),
        ) => {
            let head = *call_id == 2 && *context == 0 && *opnum == operation;
            let whole = stub.as_slice() == octets && *endian == Endian::Little;
            head && whole && *maybe == no_answer
        }
        _ => false,
    }
}

fn is_wanted(
    rt: &impl Abort,
    alloc: Global,
    answer: &Result<Vec<Out>, SessionFault>,
    want: Want,
) -> bool {
    match answer {
        Err(fault) => match want {
            Want::Unexpected(ptype, state) => *fault == SessionFault::Unexpected { ptype, state },
            _ => false,
        },
        Ok(outs) => match outs.as_slice() {
            [] => matches!(want, Want::Nothing),
            [out] => is_out(rt, alloc, out, want),
            _ => false,
        },
    }
}

#[test]
fn each_pdu_is_answered_by_the_rules(rt: HostRuntime) {
    let alloc = rt.alloc();
    for (index, row) in ROWS.iter().enumerate() {
        let (place, digits, want, after) = *row;
        let mut session = server_at(&rt, alloc, place);
        let p = pdu(&rt, alloc, digits);
        let answer = session.take(alloc, &p);
        let wanted = is_wanted(&rt, alloc, &answer, want);
        assert_at!(rt; index, wanted);
        let state = state_of(&rt, alloc, &session);
        assert_at!(rt; index, state == after);
    }
}

#[test]
fn the_gathered_call_is_told(rt: HostRuntime) {
    let alloc = rt.alloc();
    let session = server_at(&rt, alloc, Place::Gathering);
    let told = session.gathering();
    let octets = session.gathered();
    assert!(rt; told == Some(2) && octets == 2);
}
