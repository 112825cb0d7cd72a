use crate::{ContextResults, Contexts, Protocols, Ptype, Syntaxes};
use dts_base::Bytes;
use ndr::Endian;
use uuid::Uuid;

/// One fragment of a connection-oriented call: its header, and the body of its kind.
#[derive(Debug, Drop)]
pub struct Pdu {
    /// The number of the call.
    pub call_id: u32,
    /// The flags: first 0x01, last 0x02, pending cancel 0x04, concurrent multiplexing 0x10, did not execute 0x20,
    /// maybe 0x40, object uuid 0x80.
    pub flags: u8,
    /// The minor version, 0 or 1.
    pub minor: u8,
    /// The order of the octets of numbers.
    pub endian: Endian,
    /// What its kind carries.
    pub body: Body,
}

/// What the kinds of PDUs carry.
#[derive(Debug, Drop)]
pub enum Body {
    /// A call, or a part of its arguments.
    Request {
        /// The octets of the whole stub, as a hint.
        hint: u32,
        /// The number of the context.
        context: u16,
        /// The number of the operation.
        opnum: u16,
        /// The object, exactly where the flag 0x80 is set.
        object: Option<Uuid>,
        /// The arguments.
        stub: Bytes,
    },
    /// The answer of a call, or a part of its results.
    Response {
        /// The octets of the whole stub, as a hint.
        hint: u32,
        /// The number of the context.
        context: u16,
        /// How many cancels came.
        cancels: u8,
        /// The results.
        stub: Bytes,
    },
    /// The answer of a call that failed.
    Fault {
        /// The octets of the whole stub, as a hint.
        hint: u32,
        /// The number of the context.
        context: u16,
        /// How many cancels came.
        cancels: u8,
        /// Why it failed.
        status: u32,
    },
    /// A client proposes contexts for a new association.
    Bind(BindBody),
    /// The answer to a bind.
    BindAck(AckBody),
    /// A bind is refused.
    BindNak {
        /// Why.
        reason: u16,
        /// The versions of the protocol that the server offers, at most 255.
        protocols: Protocols,
    },
    /// A client proposes further contexts.
    AlterContext(BindBody),
    /// The answer to further contexts.
    AlterContextResp(AckBody),
    /// A server asks its client to end the association.
    Shutdown,
    /// A client cancels a call.
    CoCancel,
    /// A client gives up a call that it did not send whole.
    Orphaned,
}

impl Body {
    ghost use Rattle.std.specs.Prelude.{◌≡◌};
    ghost use Rattle.pdu_fields.specs.Bodies.{kind_of};

    /// Its kind.
    pub fn ptype(&self) -> Ptype
        ensures { result ≡ kind_of self.now }
    {
        match self {
            Body::Request { .. } => Ptype::Request,
            Body::Response { .. } => Ptype::Response,
            Body::Fault { .. } => Ptype::Fault,
            Body::Bind(_) => Ptype::Bind,
            Body::BindAck(_) => Ptype::BindAck,
            Body::BindNak { .. } => Ptype::BindNak,
            Body::AlterContext(_) => Ptype::AlterContext,
            Body::AlterContextResp(_) => Ptype::AlterContextResp,
            Body::Shutdown => Ptype::Shutdown,
            Body::CoCancel => Ptype::CoCancel,
            Body::Orphaned => Ptype::Orphaned,
        }
    }
}

/// What a client proposes.
#[derive(Debug, Drop)]
pub struct BindBody {
    /// The greatest fragment that it sends, in octets.
    pub max_xmit: u16,
    /// The greatest fragment that it takes, in octets.
    pub max_recv: u16,
    /// The association group, or 0 for a new one.
    pub group: u32,
    /// The contexts, 1 to 16.
    pub contexts: Contexts,
}

/// A context that is proposed: an interface, and the transfer syntaxes in which its calls may be written.
#[derive(Debug, Drop)]
pub struct Context {
    /// Its number.
    pub id: u16,
    /// The interface.
    pub abstract_syntax: Syntax,
    /// The transfer syntaxes, 1 to 8.
    pub transfers: Syntaxes,
}

/// An interface or a transfer syntax: its identifier and its version.
#[derive(Clone, Copy, Debug, PartialEq, Eq)]
pub struct Syntax {
    /// The identifier.
    pub uuid: Uuid,
    /// The version.
    pub version: u32,
}

/// What a server answers to proposed contexts.
#[derive(Debug, Drop)]
pub struct AckBody {
    /// The greatest fragment that it sends, in octets.
    pub max_xmit: u16,
    /// The greatest fragment that it takes, in octets.
    pub max_recv: u16,
    /// The association group.
    pub group: u32,
    /// The secondary address, at most 65,535 octets.
    pub address: Bytes,
    /// An answer for each proposed context, 1 to 16.
    pub results: ContextResults,
}

/// The answer to a proposed context.
#[derive(Clone, Copy, Debug, PartialEq, Eq)]
pub struct ContextResult {
    /// 0 acceptance, 1 user rejection, 2 provider rejection.
    pub result: u16,
    /// 0 not specified, 1 abstract syntax not supported, 2 proposed transfer syntaxes not supported, 3 local limit exceeded.
    pub reason: u16,
    /// The transfer syntax that was chosen.
    pub transfer: Syntax,
}

/// A version of the protocol.
#[derive(Clone, Copy, Debug, PartialEq, Eq)]
pub struct Protocol {
    /// The major number.
    pub major: u8,
    /// The minor number.
    pub minor: u8,
}
