ghost use Rattle.std.specs.Prelude.{◌≡◌, ◌≤◌, ℕ, [], length, Err, IfOk, IfErr, OnErr};
ghost use Rattle.pdu_fields.specs.Bodies.{kind_of};
ghost use Rattle.pdu_fields.specs.Headers.{number_of};
ghost use Rattle.pdu_fields.specs.declared.pdu.Body.TheVariants as body;
ghost use Rattle.rpc_session.specs.declared.fault.SessionFault.TheVariants as fault;
ghost use Rattle.rpc_session.specs.declared.client.OpenCall.TheVariants as opened;
ghost use Rattle.rpc_session.specs.Client.{ClientHistory, Started, acknowledged, bind_of, client_answer, failed, gathered, gathers, is_open, last_call, live_answer, proposed, refused_in, responded, state_in, stub_of};

use crate::contexts::{ACCEPTANCE, ndr_syntax, time_interface};
use crate::fault::{RequestFault, SessionFault};
use crate::fragments::{
    Direction, FIRST_FRAGMENT, GREATEST_FRAGMENT, LAST_FRAGMENT, MAX_STUB, MINOR, Message,
    SendLimit, has_flag, octets_in,
};
use crate::stub::Gathered;
use dts_base::{Bytes, NoMemory, State};
use ndr::Endian;
use pdu_fields::{AckBody, BindBody, Body, Context, Contexts, Pdu, Syntaxes};
use std::alloc::Global;

/// The number of the one context of a client.
pub const THE_CONTEXT: u16 = 0;

/// What a PDU is to a client.
#[derive(Debug, Drop)]
pub enum ClientOut {
    /// The bind is acknowledged and the context accepted: a request may be sent.
    Bound,
    /// A fragment of the response to the open request, and not the last one.
    Partial,
    /// The last fragment of that response.
    Reply {
        /// The number of the call.
        call_id: u32,
        /// The octets of the stub.
        stub: Bytes,
        /// The byte order of the stub: that of the first fragment.
        endian: Endian,
    },
    /// The server asks for the end of the session. The session is dead.
    Shutdown,
}

/// Which call of a client is open.
#[derive(Clone, Copy, Debug, PartialEq, Eq)]
pub enum OpenCall {
    /// The bind.
    Bind,
    /// None.
    Nothing,
    /// The last request.
    Request {
        /// The byte order of the response, once its first fragment came.
        order: Option<Endian>,
    },
    /// None, and nothing is taken any more.
    Ended,
}

impl OpenCall {
    // The state that a session is in with this open call.
    fn state(self) -> State
        ensures { result ≡ state_in self }
    {
        match self {
            OpenCall::Bind => State::Binding,
            OpenCall::Nothing => State::Bound,
            OpenCall::Request { .. } => State::Waiting,
            OpenCall::Ended => State::Dead,
        }
    }
}

/// The client's end of a connection. It writes the lowest octet first, with minor version 0 and one context, 0. Clauses see
/// it as standing for what was sent and taken so far.
#[derive(Debug, Drop)]
pub struct ClientSession {
    last: u32,
    call: OpenCall,
    gathered: Gathered,
    limit: SendLimit,
}

// The one context: the time interface in NDR.
fn contexts(alloc: Global) -> Result<Contexts, NoMemory>
    ensures { IfOk result (λ cs. cs ≡ proposed) }
{
    let mut transfers = Syntaxes::new(alloc)?;
    transfers.push(alloc, ndr_syntax())?;
    let mut contexts = Contexts::new(alloc)?;
    contexts.push(
        alloc,
        Context {
            id: THE_CONTEXT,
            abstract_syntax: time_interface(),
            transfers,
        },
    )?;
    Ok(contexts)
}

impl ClientSession {
    ghost use Rattle.rpc_session.specs.ClientStanding.{Answers, ClientStands, IsRequest, IsRequestRefused, Takes};

    /// A client that binds, and its bind, whose call identifier is the first. The next requests have the identifiers
    /// behind it.
    pub fn start(alloc: Global, first: u32) -> Result<(ClientSession, Pdu), NoMemory>
        requires first { 1 ≤ first }
        ensures stands { IfOk result (λ started. ClientStands started.0 (Started first)) }
        ensures bind { IfOk result (λ started. started.1 ≡ bind_of first) }
    {
        let contexts = contexts(alloc)?;
        let session = ClientSession {
            last: first,
            call: OpenCall::Bind,
            gathered: Gathered::new(alloc),
            limit: SendLimit::greatest(),
        };
        let bind = Pdu {
            call_id: first,
            flags: FIRST_FRAGMENT | LAST_FRAGMENT,
            minor: MINOR,
            endian: Endian::Little,
            body: Body::Bind(BindBody {
                max_xmit: GREATEST_FRAGMENT,
                max_recv: GREATEST_FRAGMENT,
                group: 0,
                contexts,
            }),
        };
        Ok((session, bind))
    }

    /// The identifier of the last call that was sent.
    pub fn last_call(&self) -> u32
        ensures last { (h : ClientHistory) → ClientStands self.now h → result ≡ last_call h }
    {
        self.last
    }

    /// How many octets are gathered of the response to the open request, at most 65,536.
    pub fn gathered(&self) -> u32
        ensures gathered { (h : ClientHistory) → ClientStands self.now h → result ≡ length (gathered h) }
    {
        self.gathered.len() as u32
    }

    /// A session that means the same.
    pub fn copy(&self, alloc: Global) -> Result<ClientSession, NoMemory>
        ensures same { IfOk result (λ s. s ≡ self.now) }
    {
        Ok(ClientSession {
            last: self.last,
            call: self.call,
            gathered: self.gathered.copy(alloc)?,
            limit: self.limit.copy(),
        })
    }

    // Why no request with so many octets is sent, where none is.
    fn refused(&self, octets: usize) -> Option<RequestFault>
        ensures { result ≡ refused_in self.now.last self.now.call octets }
    {
        if self.call != OpenCall::Nothing {
            return Some(RequestFault::NotBound {
                state: self.call.state(),
            });
        }
        if self.last == u32::MAX {
            return Some(RequestFault::CallsSpent);
        }
        if octets > MAX_STUB {
            return Some(RequestFault::Fragments {
                have: octets_in(octets, 0),
                limit: MAX_STUB as u32,
            });
        }
        None
    }

    /// Sends a request for an operation with these octets of a stub: its call identifier, the next one, and its fragments.
    /// It is NotBound exactly where no context was accepted, a call is open or the session is dead; then CallsSpent exactly
    /// where the last call has the identifier 2^32 − 1; then Fragments exactly past 65,536 octets. Each fragment but the
    /// last is as long as the peer's receive size allows. After a refusal the session is as it was.
    pub fn request(
        &mut self,
        alloc: Global,
        opnum: u16,
        stub: &[u8],
    ) -> Result<(u32, Vec<Pdu>), RequestFault>
        ensures sent { IfOk result (λ sent. IsRequest self.old self.new opnum stub.now sent.0 sent.1.items) }
        ensures refused { IfErr result (IsRequestRefused self.old stub.now) }
        ensures kept { OnErr result (self.new ≡ self.old) }
    {
        if let Some(refused) = self.refused(stub.len()) {
            return Err(refused);
        }
        let call_id = self.last + 1;
        let message = Message {
            call_id,
            context: THE_CONTEXT,
            endian: Endian::Little,
            direction: Direction::Request { opnum },
        };
        let sent = message.fragments(alloc, &self.limit, stub)?;
        self.last = call_id;
        self.turn(alloc, OpenCall::Request { order: None });
        Ok((call_id, sent))
    }

    // Another call is open, or none: nothing is gathered of it.
    fn turn(&mut self, alloc: Global, call: OpenCall)
        ensures { self.new ≡ record self.old { call = call; gathered = [] } }
    {
        self.call = call;
        self.gathered.clear(alloc);
    }

    // Ends the session at a PDU that does not fit.
    fn unexpected(&mut self, alloc: Global, p: &Pdu) -> SessionFault
        ensures fault { result ≡ fault.Unexpected (number_of (kind_of p.now.body)) (state_in self.old.call) }
        ensures ended { self.new ≡ record self.old { call = opened.Ended; gathered = [] } }
    {
        let fault = SessionFault::Unexpected {
            ptype: p.body.ptype().number(),
            state: self.call.state(),
        };
        self.turn(alloc, OpenCall::Ended);
        fault
    }

    // Whether the call with this identifier is the open one.
    fn is_open(&self, call_id: u32) -> bool
        ensures { result ≡ is_open self.now.last self.now.call call_id }
    {
        match self.call {
            OpenCall::Bind | OpenCall::Request { .. } => self.last == call_id,
            OpenCall::Nothing | OpenCall::Ended => false,
        }
    }

    // Takes an acknowledgement with the open identifier.
    fn take_ack(&mut self, alloc: Global, p: &Pdu, ack: &AckBody) -> Result<ClientOut, SessionFault>
        requires body { p.now.body ≡ body.BindAck ack.now }
        ensures { Answers self.old self.new p.now (acknowledged self.old.call p.now ack.now.results) result }
    {
        if self.call != OpenCall::Bind {
            return Err(self.unexpected(alloc, p));
        }
        let Some(first) = ack.results.as_slice().first() else {
            return Err(self.unexpected(alloc, p));
        };
        if first.result != ACCEPTANCE {
            self.turn(alloc, OpenCall::Ended);
            return Err(SessionFault::Rejected {
                result: first.result,
                reason: first.reason,
            });
        }
        self.limit = SendLimit::for_peer(ack.max_recv);
        self.turn(alloc, OpenCall::Nothing);
        Ok(ClientOut::Bound)
    }

    // Takes a fragment whose first flag fits what is gathered.
    fn gather(
        &mut self,
        alloc: Global,
        p: &Pdu,
        order: Option<Endian>,
        stub: &[u8],
    ) -> Result<ClientOut, SessionFault>
        requires call { self.old.call ≡ opened.Request order }
        requires stub { stub_of p.now.body ≡ stub.now }
        ensures { Answers self.old self.new p.now (gathers order self.old.gathered p.now stub.now) result }
    {
        let endian = order.unwrap_or(p.endian);
        let have = octets_in(self.gathered.len(), stub.len());
        if have > MAX_STUB as u32 {
            self.turn(alloc, OpenCall::Ended);
            return Err(SessionFault::Fragments {
                have,
                limit: MAX_STUB as u32,
            });
        }
        if has_flag(p.flags, LAST_FRAGMENT) {
            let stub = self.gathered.joined(alloc, stub)?;
            self.turn(alloc, OpenCall::Nothing);
            return Ok(ClientOut::Reply {
                call_id: p.call_id,
                stub,
                endian,
            });
        }
        self.gathered.append(stub)?;
        self.call = OpenCall::Request {
            order: Some(endian),
        };
        Ok(ClientOut::Partial)
    }

    // Takes a fragment of a response with the open identifier.
    fn take_response(
        &mut self,
        alloc: Global,
        p: &Pdu,
        stub: &[u8],
    ) -> Result<ClientOut, SessionFault>
        requires stub { stub_of p.now.body ≡ stub.now }
        ensures { Answers self.old self.new p.now (responded self.old.call self.old.gathered p.now stub.now) result }
    {
        let OpenCall::Request { order } = self.call else {
            return Err(self.unexpected(alloc, p));
        };
        if has_flag(p.flags, FIRST_FRAGMENT) != order.is_none() {
            return Err(self.unexpected(alloc, p));
        }
        self.gather(alloc, p, order, stub)
    }

    // Takes a fault with the open identifier.
    fn take_fault(&mut self, alloc: Global, p: &Pdu, status: u32) -> Result<ClientOut, SessionFault>
        ensures { Answers self.old self.new p.now (failed self.old.call p.now status) result }
    {
        let OpenCall::Request { .. } = self.call else {
            return Err(self.unexpected(alloc, p));
        };
        self.turn(alloc, OpenCall::Nothing);
        Err(SessionFault::Fault { status })
    }

    // Takes a PDU where the session is alive.
    fn take_live(&mut self, alloc: Global, p: &Pdu) -> Result<ClientOut, SessionFault>
        ensures { Answers self.old self.new p.now (live_answer self.old.last self.old.call self.old.gathered p.now p.now.body) result }
    {
        match &p.body {
            Body::Shutdown => {
                self.turn(alloc, OpenCall::Ended);
                Ok(ClientOut::Shutdown)
            }
            Body::BindAck(ack) if self.is_open(p.call_id) => self.take_ack(alloc, p, ack),
            Body::BindNak { reason, .. } if self.is_open(p.call_id) => {
                self.turn(alloc, OpenCall::Ended);
                Err(SessionFault::Nak { reason: *reason })
            }
            Body::Response { stub, .. } if self.is_open(p.call_id) => {
                self.take_response(alloc, p, stub.as_slice())
            }
            Body::Fault { status, .. } if self.is_open(p.call_id) => {
                self.take_fault(alloc, p, *status)
            }
            Body::BindAck(_) | Body::BindNak { .. } | Body::Response { .. } | Body::Fault { .. } =>
                Err(SessionFault::UnknownCall { call_id: p.call_id }),
            _ => Err(self.unexpected(alloc, p)),
        }
    }

    /// Takes a PDU. The first of these that holds: where the session is dead, it is Unexpected; a shutdown is Shutdown; an
    /// answer with another identifier than the open call's is UnknownCall; an acknowledgement of the bind is Bound, or
    /// Rejected where its first result is not 0; a bind_nak is Nak; a fault of the open request is Fault; a fragment of its
    /// response whose first flag does not fit what is gathered is Unexpected; it is Fragments exactly where the gathered
    /// stub would pass 65,536 octets; else it is Partial, or the Reply at the last one. All else is Unexpected. An
    /// acknowledgement without a result is so too. After UnknownCall and NoMemory the session is as it was.
    pub fn take(&mut self, alloc: Global, p: &Pdu) -> Result<ClientOut, SessionFault>
        ensures taken { Takes self.old self.new p.now result }
        ensures kept { (id : ℕ) → result ≡ Err (fault.UnknownCall id) → self.new ≡ self.old }
    {
        self.answer(alloc, p)
    }

    // Takes a PDU: the session behind it is that behind the answer.
    fn answer(&mut self, alloc: Global, p: &Pdu) -> Result<ClientOut, SessionFault>
        ensures { Answers self.old self.new p.now (client_answer self.old.last self.old.call self.old.gathered p.now) result }
    {
        if self.call == OpenCall::Ended {
            return Err(self.unexpected(alloc, p));
        }
        self.take_live(alloc, p)
    }
}
