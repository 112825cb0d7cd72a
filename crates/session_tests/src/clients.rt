//! What each PDU is to a client in each state.

use crate::pdus::{
    ACK, ACK_2, ALTER, ALTER_RESP, BIG_RESP, BIND, CO_CANCEL, FAULT, FAULT_1, NAK, NAK_2, ORPHANED,
    REJECTING_ACK, REQ, RESP, RESP_1, RESP_FIRST, RESP_LAST, RESP_MIDDLE, SHUTDOWN, is_pdu, pdu,
};
use assertions::assert_at;
use dts_base::State;
use ndr::Endian;
use rpc_session::{ClientOut, ClientSession, RequestFault, SessionFault};
use std::alloc::Global;
use std::process::Abort;

// Where a client is: its bind has the identifier 1, and its request 2.
#[derive(Clone, Copy)]
enum Place {
    Binding,
    Bound,
    Waiting,
    Gathering,
    Dead,
}

// What a PDU is to it.
#[derive(Clone, Copy)]
enum Want {
    Bound,
    Partial,
    Reply(Endian, &'static [u8]),
    Shutdown,
    Unexpected(u8, State),
    UnknownCall(u32),
    Rejected,
    Nak,
    Fault,
}

// A place, a PDU, what it is, and the state behind it.
static ROWS: [(Place, &str, Want, State); 44] = [
    (Place::Binding, ACK, Want::Bound, State::Bound),
    (Place::Binding, REJECTING_ACK, Want::Rejected, State::Dead),
    (Place::Binding, NAK, Want::Nak, State::Dead),
    (Place::Binding, ACK_2, Want::UnknownCall(2), State::Binding),
    (Place::Binding, NAK_2, Want::UnknownCall(2), State::Binding),
    (Place::Binding, RESP, Want::UnknownCall(2), State::Binding),
    (Place::Binding, FAULT, Want::UnknownCall(2), State::Binding),
    (
        Place::Binding,
        RESP_1,
        Want::Unexpected(2, State::Binding),
        State::Dead,
    ),
    (
        Place::Binding,
        FAULT_1,
        Want::Unexpected(3, State::Binding),
        State::Dead,
    ),
    (Place::Binding, SHUTDOWN, Want::Shutdown, State::Dead),
    (
        Place::Binding,
        CO_CANCEL,
        Want::Unexpected(18, State::Binding),
        State::Dead,
    ),
    (
        Place::Binding,
        ORPHANED,
        Want::Unexpected(19, State::Binding),
        State::Dead,
    ),
    (Place::Bound, ACK, Want::UnknownCall(1), State::Bound),
    (Place::Bound, NAK, Want::UnknownCall(1), State::Bound),
    (Place::Bound, RESP_1, Want::UnknownCall(1), State::Bound),
    (Place::Bound, FAULT_1, Want::UnknownCall(1), State::Bound),
    (Place::Bound, SHUTDOWN, Want::Shutdown, State::Dead),
    (
        Place::Bound,
        ALTER_RESP,
        Want::Unexpected(15, State::Bound),
        State::Dead,
    ),
    (
        Place::Bound,
        CO_CANCEL,
        Want::Unexpected(18, State::Bound),
        State::Dead,
    ),
    (
        Place::Bound,
        ORPHANED,
        Want::Unexpected(19, State::Bound),
        State::Dead,
    ),
    (Place::Waiting, ACK, Want::UnknownCall(1), State::Waiting),
    (
        Place::Waiting,
        ACK_2,
        Want::Unexpected(12, State::Waiting),
        State::Dead,
    ),
    (Place::Waiting, NAK_2, Want::Nak, State::Dead),
    (Place::Waiting, FAULT, Want::Fault, State::Bound),
    (
        Place::Waiting,
        FAULT_1,
        Want::UnknownCall(1),
        State::Waiting,
    ),
    (Place::Waiting, RESP_FIRST, Want::Partial, State::Waiting),
    (
        Place::Waiting,
        RESP_MIDDLE,
        Want::Unexpected(2, State::Waiting),
        State::Dead,
    ),
    (
        Place::Waiting,
        RESP_LAST,
        Want::Unexpected(2, State::Waiting),
        State::Dead,
    ),
    (
        Place::Waiting,
        BIG_RESP,
        Want::Reply(Endian::Big, &[0x0e]),
        State::Bound,
    ),
    (Place::Waiting, SHUTDOWN, Want::Shutdown, State::Dead),
    (
        Place::Waiting,
        BIND,
        Want::Unexpected(11, State::Waiting),
        State::Dead,
    ),
    (
        Place::Waiting,
        REQ,
        Want::Unexpected(0, State::Waiting),
        State::Dead,
    ),
    (
        Place::Waiting,
        ALTER,
        Want::Unexpected(14, State::Waiting),
        State::Dead,
    ),
    (
        Place::Waiting,
        CO_CANCEL,
        Want::Unexpected(18, State::Waiting),
        State::Dead,
    ),
    (
        Place::Waiting,
        ORPHANED,
        Want::Unexpected(19, State::Waiting),
        State::Dead,
    ),
    (Place::Gathering, RESP_MIDDLE, Want::Partial, State::Waiting),
    (
        Place::Gathering,
        RESP_LAST,
        Want::Reply(Endian::Little, &[0x0a, 0x0b, 0x0d]),
        State::Bound,
    ),
    (
        Place::Gathering,
        RESP_FIRST,
        Want::Unexpected(2, State::Waiting),
        State::Dead,
    ),
    (
        Place::Gathering,
        RESP,
        Want::Unexpected(2, State::Waiting),
        State::Dead,
    ),
    (Place::Gathering, FAULT, Want::Fault, State::Bound),
    (
        Place::Gathering,
        RESP_1,
        Want::UnknownCall(1),
        State::Waiting,
    ),
    (
        Place::Dead,
        SHUTDOWN,
        Want::Unexpected(17, State::Dead),
        State::Dead,
    ),
    (
        Place::Dead,
        CO_CANCEL,
        Want::Unexpected(18, State::Dead),
        State::Dead,
    ),
    (
        Place::Dead,
        ORPHANED,
        Want::Unexpected(19, State::Dead),
        State::Dead,
    ),
];

fn put(rt: &impl Abort, alloc: Global, session: &mut ClientSession, digits: &str) {
    let p = pdu(rt, alloc, digits);
    let answer = session.take(alloc, &p);
    assert!(rt; answer.is_ok());
}

fn ask(rt: &impl Abort, alloc: Global, session: &mut ClientSession) {
    let sent = session.request(alloc, 0, &[0]);
    assert!(rt; sent.is_ok());
}

fn client_at(rt: &impl Abort, alloc: Global, place: Place) -> ClientSession {
    let (mut session, _bind) = ClientSession::start(alloc, 1).expect(rt, "memory");
    match place {
        Place::Binding => {}
        Place::Bound => put(rt, alloc, &mut session, ACK),
        Place::Waiting => {
            put(rt, alloc, &mut session, ACK);
            ask(rt, alloc, &mut session);
        }
        Place::Gathering => {
            put(rt, alloc, &mut session, ACK);
            ask(rt, alloc, &mut session);
            put(rt, alloc, &mut session, RESP_FIRST);
        }
        Place::Dead => put(rt, alloc, &mut session, SHUTDOWN),
    }
    session
}

// The state of a session: that of a refused request, or else that in which one is sent.
fn state_of(rt: &impl Abort, alloc: Global, session: &ClientSession) -> State {
    let mut other = session.copy(alloc).expect(rt, "memory");
    match other.request(alloc, 0, &[]) {
        Err(RequestFault::NotBound { state }) => state,
        _ => State::Bound,
    }
}

fn is_wanted(answer: &Result<ClientOut, SessionFault>, want: Want) -> bool {
    match (answer, want) {
        (Ok(ClientOut::Bound), Want::Bound) => true,
        (Ok(ClientOut::Partial), Want::Partial) => true,
        (Ok(ClientOut::Shutdown), Want::Shutdown) => true,
        (
            Ok(
                ClientOut::Reply {
                    call_id,
                    stub,
                    endian,
                },
            ),
            Want::Reply(order, octets),
        ) => *call_id == 2 && *endian == order && stub.as_slice() == octets,
        (Err(fault), Want::Unexpected(ptype, state)) => {
            *fault == SessionFault::Unexpected { ptype, state }
        }
        (Err(fault), Want::UnknownCall(call_id)) => *fault == SessionFault::UnknownCall { call_id },
        (Err(fault), Want::Rejected) => {
            *fault
                == SessionFault::Rejected {
                    result: 2,
                    reason: 1,
                }
        }
        (Err(fault), Want::Nak) => *fault == SessionFault::Nak { reason: 4 },
        (Err(fault), Want::Fault) => {
            *fault
                == SessionFault::Fault {
                    status: 0x1c01_0002,
                }
        }
        _ => false,
    }
}

#[test]
fn each_pdu_is_what_the_rules_name(rt: HostRuntime) {
    let alloc = rt.alloc();
    for (index, row) in ROWS.iter().enumerate() {
        let (place, digits, want, after) = *row;
        let mut session = client_at(&rt, alloc, place);
        let p = pdu(&rt, alloc, digits);
        let answer = session.take(alloc, &p);
        let wanted = is_wanted(&answer, want);
        assert_at!(rt; index, wanted);
        let state = state_of(&rt, alloc, &session);
        assert_at!(rt; index, state == after);
    }
}

#[test]
fn a_client_binds_asks_and_takes_the_response_once(rt: HostRuntime) {
    let alloc = rt.alloc();
    let (mut session, bind) = ClientSession::start(alloc, 1).expect(&rt, "memory");
    let right = is_pdu(&rt, alloc, &bind, BIND);
    assert!(rt; right);
    let early = session.request(alloc, 0, &[0]);
    let refused = matches!(
        &early,
        Err(RequestFault::NotBound {
            state: State::Binding
        })
    );
    assert!(rt; refused);
    put(&rt, alloc, &mut session, ACK);
    let (call_id, sent) = session.request(alloc, 0, &[0]).expect(&rt, "bound");
    let last = session.last_call();
    assert!(rt; call_id == 2 && last == 2 && sent.len() == 1);
    let right = is_pdu(&rt, alloc, &sent[0], REQ);
    assert!(rt; right);
    let p = pdu(&rt, alloc, RESP);
    let answer = session.take(alloc, &p);
    let whole =
        matches!(&answer, Ok(ClientOut::Reply { call_id: 2, stub, .. }) if stub.as_slice().len() == 24);
    assert!(rt; whole);
    let again = session.take(alloc, &p);
    let wanted = is_wanted(&again, Want::UnknownCall(2));
    assert!(rt; wanted);
}
