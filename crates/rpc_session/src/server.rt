ghost use Rattle.std.specs.Prelude.{◌≡◌, ◌≤◌, [], ◌∷◌, length, Some, IfOk};
ghost use Rattle.rpc_session.specs.declared.fragments.TheConstants.{MAX_STUB};
ghost use Rattle.rpc_session.specs.Contexts.{context_results};
ghost use Rattle.ndr.specs.declared.endian.Endian.{Endian};
ghost use Rattle.pdu_fields.specs.Bodies.{kind_of};
ghost use Rattle.pdu_fields.specs.Headers.{number_of};
ghost use Rattle.pdu_fields.specs.declared.pdu.Body.TheVariants as body;
ghost use Rattle.rpc_session.specs.declared.fault.SessionFault.TheVariants as fault;
ghost use Rattle.rpc_session.specs.declared.server.Phase.TheVariants as phase;
ghost use Rattle.rpc_session.specs.Server.{Opened, ServerHistory, ack_body, alter_answer, answer_pdu, bind_answer, call_of, call_out, fault_pdu, given_up, head_of, octets_unless, phase_state, request_gathers, request_octets, requested, response_sent, server_answer, serving};

use crate::contexts::Accepted;
use crate::fault::SessionFault;
use crate::fragments::{
    DID_NOT_EXECUTE, Direction, FIRST_FRAGMENT, GREATEST_FRAGMENT, LAST_FRAGMENT, MAX_STUB, MAYBE,
    MINOR, Message, SendLimit, has_flag, octets_in,
};
use crate::stub::Gathered;
use dts_base::{Bytes, NoMemory, State};
use ndr::Endian;
use pdu_fields::{AckBody, BindBody, Body, ContextResults, Pdu};
use std::alloc::Global;

/// The status of a fault for a context that was not accepted.
pub const UNKNOWN_CONTEXT: u32 = 0x1c01_0003;

/// The status of a fault for an operation that the interface does not have.
pub const OPERATION_RANGE: u32 = 0x1c01_0002;

/// The last operation of the time interface.
pub const LAST_OPERATION: u16 = 2;

/// What a server gives to a PDU.
#[derive(Debug, Drop)]
pub enum Out {
    /// A PDU to be sent to the client.
    Send(Pdu),
    /// A whole request on an accepted context.
    Call {
        /// The number of the call.
        call_id: u32,
        /// The number of the context.
        context: u16,
        /// The number of the operation, at most 2.
        opnum: u16,
        /// The octets of the stub.
        stub: Bytes,
        /// The byte order of the stub: that of the first fragment.
        endian: Endian,
        /// Whether the client wants no answer.
        maybe: bool,
    },
}

/// What the first fragment of a request says of its call.
#[derive(Clone, Copy, Debug)]
pub struct CallHead {
    /// The number of the call.
    pub call_id: u32,
    /// The number of the context.
    pub context: u16,
    /// The number of the operation.
    pub opnum: u16,
    /// Whether the client wants no answer.
    pub maybe: bool,
    /// The byte order.
    pub endian: Endian,
}

/// How far a server is.
#[derive(Clone, Copy, Debug)]
pub enum Phase {
    /// No bind came.
    New,
    /// A bind was answered, and no call is gathered.
    Bound,
    /// This call is gathered.
    Gathering(CallHead),
    /// Nothing is gathered any more.
    Dead,
}

impl Phase {
    // The state of a session that is so far.
    fn state(self) -> State
        ensures { result ≡ phase_state self }
    {
        match self {
            Phase::New => State::New,
            Phase::Bound => State::Bound,
            Phase::Gathering(_) => State::Gathering,
            Phase::Dead => State::Dead,
        }
    }
}

// What a fragment says of its call.
fn head_of(p: &Pdu, context: u16, opnum: u16) -> CallHead
    ensures { result ≡ head_of p.now context opnum }
{
    CallHead {
        call_id: p.call_id,
        context,
        opnum,
        maybe: has_flag(p.flags, MAYBE),
        endian: p.endian,
    }
}

// A fault of a call that was not begun.
fn fault_pdu(call: &CallHead, status: u32) -> Pdu
    ensures { result ≡ fault_pdu call.now status }
{
    Pdu {
        call_id: call.call_id,
        flags: FIRST_FRAGMENT | LAST_FRAGMENT | DID_NOT_EXECUTE,
        minor: MINOR,
        endian: call.endian,
        body: Body::Fault {
            hint: 0,
            context: call.context,
            cancels: 0,
            status,
        },
    }
}

// A whole PDU that answers another one in its byte order.
fn answer_pdu(p: &Pdu, body: Body) -> Pdu
    ensures { result ≡ answer_pdu p.now body }
{
    Pdu {
        call_id: p.call_id,
        flags: FIRST_FRAGMENT | LAST_FRAGMENT,
        minor: MINOR,
        endian: p.endian,
        body,
    }
}

// One answer.
fn single(alloc: Global, out: Out) -> Result<Vec<Out>, NoMemory>
    ensures { IfOk result (λ outs. outs.items ≡ out ∷ []) }
{
    let mut outs = Vec::new(alloc);
    outs.push(out)?;
    Ok(outs)
}

/// The server's end of a connection. Both of its sizes are 5,840 octets, but for what it sends to a client that takes less.
/// Clauses see it as standing for the PDUs that were taken so far.
#[derive(Debug, Drop)]
pub struct ServerSession {
    conn: u32,
    phase: Phase,
    accepted: Accepted,
    gathered: Gathered,
    limit: SendLimit,
}

impl ServerSession {
    ghost use Rattle.rpc_session.specs.ServerStanding.{Continues, Receives, ServerStands, Serves, gathering_in};

    /// The server's end of a connection with this number, which is the number of its association group where the client
    /// asks for a new one.
    pub fn new(alloc: Global, conn: u32) -> Result<ServerSession, NoMemory>
        ensures stands { IfOk result (λ s. ServerStands s (Opened conn)) }
    {
        Ok(ServerSession {
            conn,
            phase: Phase::New,
            accepted: Accepted::new(alloc),
            gathered: Gathered::new(alloc),
            limit: SendLimit::greatest(),
        })
    }

    /// The identifier of the call that is gathered, where one is.
    pub fn gathering(&self) -> Option<u32>
        ensures gathering { (h : ServerHistory) → ServerStands self.now h → result ≡ gathering_in (serving h) }
    {
        match self.phase {
            Phase::Gathering(call) => Some(call.call_id),
            _ => None,
        }
    }

    /// How many octets are gathered of that call, at most 65,536.
    pub fn gathered(&self) -> u32
        ensures gathered { (h : ServerHistory) → ServerStands self.now h → result ≡ length (request_octets h) }
    {
        self.gathered.len() as u32
    }

    /// A session that means the same.
    pub fn copy(&self, alloc: Global) -> Result<ServerSession, NoMemory>
        ensures same { IfOk result (λ s. s ≡ self.now) }
    {
        Ok(ServerSession {
            conn: self.conn,
            phase: self.phase,
            accepted: self.accepted.copy(alloc)?,
            gathered: self.gathered.copy(alloc)?,
            limit: self.limit.copy(),
        })
    }

    // Ends the session at a fault.
    fn end(&mut self, alloc: Global)
        ensures { self.new ≡ record self.old { phase = phase.Dead; gathered = [] } }
    {
        self.phase = Phase::Dead;
        self.gathered.clear(alloc);
    }

    // Ends the session at a PDU that does not fit.
    fn unexpected(&mut self, alloc: Global, p: &Pdu) -> SessionFault
        ensures fault { result ≡ fault.Unexpected (number_of (kind_of p.now.body)) (phase_state self.old.phase) }
        ensures ended { self.new ≡ record self.old { phase = phase.Dead; gathered = [] } }
    {
        let fault = SessionFault::Unexpected {
            ptype: p.body.ptype().number(),
            state: self.phase.state(),
        };
        self.end(alloc);
        fault
    }

    // The body of an answer to proposed contexts, where fragments of this limit are sent.
    fn ack(
        &self,
        alloc: Global,
        limit: &SendLimit,
        bind: &BindBody,
        results: ContextResults,
    ) -> AckBody
        requires { results ≡ context_results self.now.accepted bind.now.contexts }
        ensures { result ≡ ack_body self.now.conn self.now.accepted limit.now bind.now }
    {
        let group = if bind.group == 0 {
            self.conn
        } else {
            bind.group
        };
        AckBody {
            max_xmit: limit.octets(),
            max_recv: GREATEST_FRAGMENT,
            group,
            address: Bytes::from_vec(Vec::new(alloc)),
            results,
        }
    }

    // Answers a bind.
    fn take_bind(
        &mut self,
        alloc: Global,
        p: &Pdu,
        bind: &BindBody,
    ) -> Result<Vec<Out>, SessionFault>
        requires { p.now.body ≡ body.Bind bind.now }
        ensures { Serves self.old self.new p.now
            (bind_answer self.old.conn self.old.phase self.old.accepted p.now bind.now) result }
    {
        let Phase::New = self.phase else {
            return Err(self.unexpected(alloc, p));
        };
        let mut accepted = self.accepted.copy(alloc)?;
        let results = accepted.answer_all(alloc, bind.contexts.as_slice())?;
        let limit = SendLimit::for_peer(bind.max_recv);
        let ack = Body::BindAck(self.ack(alloc, &limit, bind, results));
        let outs = single(alloc, Out::Send(answer_pdu(p, ack)))?;
        self.accepted = accepted;
        self.limit = limit;
        self.phase = Phase::Bound;
        Ok(outs)
    }

    // Answers an alter_context.
    fn take_alter(
        &mut self,
        alloc: Global,
        p: &Pdu,
        bind: &BindBody,
    ) -> Result<Vec<Out>, SessionFault>
        requires { p.now.body ≡ body.AlterContext bind.now }
        ensures { Serves self.old self.new p.now
            (alter_answer self.old.conn self.old.phase self.old.accepted self.old.limit p.now bind.now) result }
    {
        let Phase::Bound = self.phase else {
            return Err(self.unexpected(alloc, p));
        };
        let mut accepted = self.accepted.copy(alloc)?;
        let results = accepted.answer_all(alloc, bind.contexts.as_slice())?;
        let ack = Body::AlterContextResp(self.ack(alloc, &self.limit, bind, results));
        let outs = single(alloc, Out::Send(answer_pdu(p, ack)))?;
        self.accepted = accepted;
        Ok(outs)
    }

    // The call that a fragment is of.
    fn call_of(&self, p: &Pdu, context: u16, opnum: u16) -> Option<CallHead>
        ensures { result ≡ call_of self.now.phase p.now context opnum }
    {
        let first = has_flag(p.flags, FIRST_FRAGMENT);
        match self.phase {
            Phase::Bound if first => Some(head_of(p, context, opnum)),
            Phase::Gathering(call) if !first && call.call_id == p.call_id => Some(call),
            _ => None,
        }
    }

    // What a whole request gives.
    fn call_out(&self, call: &CallHead, stub: Bytes) -> Out
        ensures { result ≡ call_out self.now.accepted call.now stub }
    {
        if !self.accepted.holds(call.context) {
            return Out::Send(fault_pdu(call, UNKNOWN_CONTEXT));
        }
        if call.opnum > LAST_OPERATION {
            return Out::Send(fault_pdu(call, OPERATION_RANGE));
        }
        Out::Call {
            call_id: call.call_id,
            context: call.context,
            opnum: call.opnum,
            stub,
            endian: call.endian,
            maybe: call.maybe,
        }
    }

    // Takes a fragment of a call.
    fn gather(
        &mut self,
        alloc: Global,
        p: &Pdu,
        call: CallHead,
        stub: &[u8],
    ) -> Result<Vec<Out>, SessionFault>
        ensures { Continues self.old self.new p.now (Some call) stub.now
            (request_gathers self.old.accepted self.old.gathered p.now stub.now call) result }
    {
        let have = octets_in(self.gathered.len(), stub.len());
        if have > MAX_STUB as u32 {
            self.end(alloc);
            return Err(SessionFault::Fragments {
                have,
                limit: MAX_STUB as u32,
            });
        }
        if has_flag(p.flags, LAST_FRAGMENT) {
            let whole = self.gathered.joined(alloc, stub)?;
            let outs = single(alloc, self.call_out(&call, whole))?;
            self.gathered.clear(alloc);
            self.phase = Phase::Bound;
            return Ok(outs);
        }
        self.gathered.append(stub)?;
        self.phase = Phase::Gathering(call);
        Ok(Vec::new(alloc))
    }

    // Takes a fragment of a request.
    fn take_request(
        &mut self,
        alloc: Global,
        p: &Pdu,
        context: u16,
        opnum: u16,
        stub: &[u8],
    ) -> Result<Vec<Out>, SessionFault>
        ensures { Continues self.old self.new p.now (call_of self.old.phase p.now context opnum) stub.now
            (requested self.old.phase self.old.accepted self.old.gathered p.now stub.now
            (call_of self.old.phase p.now context opnum)) result }
    {
        let Some(call) = self.call_of(p, context, opnum) else {
            return Err(self.unexpected(alloc, p));
        };
        self.gather(alloc, p, call, stub)
    }

    // Gives the call with this identifier up, where it is gathered.
    fn give_up(&mut self, alloc: Global, call_id: u32)
        ensures { self.new ≡ record self.old {
          phase = given_up self.old.phase call_id;
          gathered = octets_unless self.old.gathered self.old.phase call_id;
        } }
    {
        if let Phase::Gathering(call) = self.phase {
            if call.call_id == call_id {
                self.gathered.clear(alloc);
                self.phase = Phase::Bound;
            }
        }
    }

    /// Takes a PDU. A bind is answered where none came, by an acknowledgement, and further contexts where no call is gathered.
    /// A request is gathered from its first to its last fragment, and gives a Call, or a fault where its context is not
    /// accepted or its operation is above 2. It is Fragments exactly where the gathered stub would pass 65,536 octets. An
    /// orphaned PDU of the gathered call drops what was gathered; any other one and a co_cancel change nothing, in any state.
    /// All else is Unexpected. After Fragments and Unexpected the session is dead, after NoMemory it is as it was.
    pub fn take(&mut self, alloc: Global, p: &Pdu) -> Result<Vec<Out>, SessionFault>
        ensures taken { Receives self.old self.new p.now result }
    {
        self.serve(alloc, p)
    }

    // Takes a PDU: the session behind it is that behind the answer.
    fn serve(&mut self, alloc: Global, p: &Pdu) -> Result<Vec<Out>, SessionFault>
        ensures { Serves self.old self.new p.now
            (server_answer self.old.conn self.old.phase self.old.accepted self.old.gathered self.old.limit p.now p.now.body) result }
    {
        match &p.body {
            Body::Bind(bind) => self.take_bind(alloc, p, bind),
            Body::AlterContext(bind) => self.take_alter(alloc, p, bind),
            Body::Request {
                context,
                opnum,
                stub,
                ..
            } => self.take_request(alloc, p, *context, *opnum, stub.as_slice()),
            Body::Orphaned => {
                self.give_up(alloc, p.call_id);
                Ok(Vec::new(alloc))
            }
            Body::CoCancel => Ok(Vec::new(alloc)),
            _ => Err(self.unexpected(alloc, p)),
        }
    }

    /// The fragments of a response to a call, with its context, in its byte order. Each but the last is as long as the
    /// client's receive size allows.
    pub fn reply(
        &self,
        alloc: Global,
        call_id: u32,
        context: u16,
        endian: Endian,
        stub: &[u8],
    ) -> Result<Vec<Pdu>, NoMemory>
        requires stub { length stub.now ≤ MAX_STUB }
        ensures response { IfOk result (λ sent. (h : ServerHistory) → ServerStands self.now h
            → sent.items ≡ response_sent h call_id context endian stub.now) }
    {
        let message = Message {
            call_id,
            context,
            endian,
            direction: Direction::Response,
        };
        message.fragments(alloc, &self.limit, stub)
    }
}
