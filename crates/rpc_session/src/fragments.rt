//! The fragments of a message: a request or a response, cut at the greatest fragment that the peer takes.

ghost use Rattle.std.specs.Prelude.{◌≡◌, ◌≤◌, ◌+◌, length, IfOk};
ghost use Rattle.rpc_session.specs.Fragments.{fragment_limit, has_flag, body_of, flags_of, fragment, message, octets_past};

use dts_base::{Bytes, NoMemory};
use ndr::Endian;
use pdu_fields::{Body, Pdu};
use std::alloc::Global;
use std::marker::Model;

/// The flag of the first fragment of a message.
pub const FIRST_FRAGMENT: u8 = 0x01;

/// The flag of the last fragment of a message.
pub const LAST_FRAGMENT: u8 = 0x02;

/// The flag of a fault whose call was not begun.
pub const DID_NOT_EXECUTE: u8 = 0x20;

/// The flag of a request whose client wants no answer.
pub const MAYBE: u8 = 0x40;

/// The greatest fragment that each end takes, and that it ever sends, in octets.
pub const GREATEST_FRAGMENT: u16 = 5840;

/// The least that is taken for the greatest fragment that a peer takes, in octets.
pub const LEAST_RECEIVE: u16 = 1432;

/// The octets of a request or a response before its stub.
pub const STUB_OFFSET: usize = 24;

/// The most octets of a stub that are sent, or gathered.
pub const MAX_STUB: usize = 65_536;

/// The minor version that both ends write.
pub const MINOR: u8 = 0;

/// Whether a flag is set.
pub fn has_flag(flags: u8, flag: u8) -> bool
    ensures { result ≡ has_flag flags flag }
{
    flags & flag != 0
}

/// The greatest fragment that is sent to a peer, in octets, at least 1,432. Clauses see the number.
#[derive(Debug, Drop)]
pub struct SendLimit {
    octets: u16,
}

impl Model for SendLimit {
    ghost use Rattle.std.specs.Prelude.{ℕ, ◌≤◌};
    ghost use Rattle.rpc_session.specs.declared.fragments.TheConstants.{LEAST_RECEIVE};

    ghost Value = { ℕ };

    ghost view = { λ l. l.octets };

    ghost invariant = { λ l. LEAST_RECEIVE ≤ l.octets };
}

impl SendLimit {
    /// The limit before the peer said what it takes.
    pub fn greatest() -> SendLimit
        ensures { result ≡ GREATEST_FRAGMENT }
    {
        SendLimit {
            octets: GREATEST_FRAGMENT,
        }
    }

    /// The limit for a peer that takes so many octets at once.
    pub fn for_peer(max_recv: u16) -> SendLimit
        ensures { result ≡ fragment_limit max_recv }
    {
        SendLimit {
            octets: max_recv.max(LEAST_RECEIVE).min(GREATEST_FRAGMENT),
        }
    }

    /// The number.
    pub fn octets(&self) -> u16
        ensures octets { result ≡ self.now }
        ensures least { LEAST_RECEIVE ≤ result }
    {
        self.octets
    }

    /// The same limit.
    pub fn copy(&self) -> SendLimit
        ensures { result ≡ self.now }
    {
        SendLimit {
            octets: self.octets,
        }
    }
}

/// How many octets two lists have, or the last number of 32 bits.
pub fn octets_in(first: usize, second: usize) -> u32
    ensures { result ≡ octets_past (first + second) }
{
    u32::try_from(first.saturating_add(second)).unwrap_or(u32::MAX)
}

/// Which message of a call it is.
#[derive(Clone, Copy, Debug, PartialEq, Eq)]
pub enum Direction {
    /// The request, for an operation.
    Request {
        /// The number of the operation.
        opnum: u16,
    },
    /// The response.
    Response,
}

/// What all fragments of a message have alike.
#[derive(Clone, Copy, Debug)]
pub struct Message {
    /// The number of the call.
    pub call_id: u32,
    /// The number of the context.
    pub context: u16,
    /// The order of the octets of numbers.
    pub endian: Endian,
    /// Which message it is.
    pub direction: Direction,
}

// The flags of a fragment.
fn flags_of(first: bool, last: bool) -> u8
    ensures { result ≡ flags_of first last }
{
    match (first, last) {
        (false, false) => 0,
        (false, true) => LAST_FRAGMENT,
        (true, false) => FIRST_FRAGMENT,
        (true, true) => FIRST_FRAGMENT | LAST_FRAGMENT,
    }
}

impl Message {
    // The body of a fragment, with the octets of the stub from it on as the hint.
    fn body(&self, hint: u32, stub: Bytes) -> Body
        ensures { result ≡ body_of self.now self.now.direction hint stub }
    {
        match self.direction {
            Direction::Request { opnum } => Body::Request {
                hint,
                context: self.context,
                opnum,
                object: None,
                stub,
            },
            Direction::Response => Body::Response {
                hint,
                context: self.context,
                cancels: 0,
                stub,
            },
        }
    }

    // A fragment with these octets of the stub, of which so many are left.
    fn fragment(&self, alloc: Global, flags: u8, left: usize, piece: &[u8]) -> Result<Pdu, NoMemory>
        requires { left ≤ MAX_STUB }
        ensures { IfOk result (λ p. p ≡ fragment self.now flags left piece.now) }
    {
        let stub = Bytes::from_slice(alloc, piece)?;
        Ok(Pdu {
            call_id: self.call_id,
            flags,
            minor: MINOR,
            endian: self.endian,
            body: self.body(left as u32, stub),
        })
    }

    /// The fragments of the message with this stub, each but the last as long as the limit allows.
    pub fn fragments(
        &self,
        alloc: Global,
        limit: &SendLimit,
        stub: &[u8],
    ) -> Result<Vec<Pdu>, NoMemory>
        requires stub { length stub.now ≤ MAX_STUB }
        ensures { IfOk result (λ sent. sent.items ≡ message self.now limit.now stub.now) }
    {
        let size = usize::from(limit.octets()) - STUB_OFFSET;
        let mut sent = Vec::new(alloc);
        let mut rest = stub;
        let mut first = true;
        while rest.len() > size {
            let part = self.fragment(alloc, flags_of(first, false), rest.len(), &rest[..size])?;
            sent.push(part)?;
            rest = &rest[size..];
            first = false;
        }
        let part = self.fragment(alloc, flags_of(first, true), rest.len(), rest)?;
        sent.push(part)?;
        Ok(sent)
    }
}
