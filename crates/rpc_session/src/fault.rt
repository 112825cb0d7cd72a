ghost use Rattle.std.specs.Prelude.{◌≡◌};

use dts_base::{NoMemory, State};
use thiserror::Error;

/// Why a session does not take a PDU.
#[derive(Clone, Copy, Debug, PartialEq, Eq, Error)]
pub enum SessionFault {
    /// A PDU of this kind does not fit what came before. The session is dead.
    #[error("a PDU of kind {ptype} in state {state}")]
    Unexpected {
        /// The number of its kind.
        ptype: u8,
        /// The state in which it came.
        state: State,
    },
    /// The PDU answers a call that is not open. The session stays as it was.
    #[error("call {call_id} is not open")]
    UnknownCall {
        /// The number of that call.
        call_id: u32,
    },
    /// The fragments of a call would have too many octets. The session is dead.
    #[error("fragments of {have} octets, and at most {limit} are taken")]
    Fragments {
        /// How many they would have, or the last number of its type.
        have: u32,
        /// The most that are taken: 65,536.
        limit: u32,
    },
    /// The server does not accept the context. The session is dead.
    #[error("the context is refused with result {result} and reason {reason}")]
    Rejected {
        /// 1 user rejection, 2 provider rejection.
        result: u16,
        /// The reason that the server gave.
        reason: u16,
    },
    /// The server does not accept the bind. The session is dead.
    #[error("the bind is refused with reason {reason}")]
    Nak {
        /// The reason that the server gave.
        reason: u16,
    },
    /// The server could not do the call. The next request may be sent.
    #[error("the call failed with status {status}")]
    Fault {
        /// The status that the server gave.
        status: u32,
    },
    /// There is no memory. The session stays as it was.
    #[error("out of memory")]
    NoMemory,
}

impl From<NoMemory> for SessionFault {
    ghost use Rattle.rpc_session.specs.declared.fault.SessionFault.TheVariants as fault;

    ghost from_gives = { λ _ f. f ≡ fault.NoMemory };

    fn from(_: NoMemory) -> Self {
        SessionFault::NoMemory
    }
}

/// Why a client does not send a request. The session stays as it was.
#[derive(Clone, Copy, Debug, PartialEq, Eq, Error)]
pub enum RequestFault {
    /// A request is only sent where the context was accepted and no call is open.
    #[error("no request can be sent in state {state}")]
    NotBound {
        /// The state of the session.
        state: State,
    },
    /// The last call had the last identifier.
    #[error("all call identifiers are used")]
    CallsSpent,
    /// The stub is too long.
    #[error("a stub of {have} octets, and at most {limit} are sent")]
    Fragments {
        /// How many octets it has, or the last number of its type.
        have: u32,
        /// The most that are sent: 65,536.
        limit: u32,
    },
    /// There is no memory.
    #[error("out of memory")]
    NoMemory,
}

impl From<NoMemory> for RequestFault {
    ghost use Rattle.rpc_session.specs.declared.fault.RequestFault.TheVariants as fault;

    ghost from_gives = { λ _ f. f ≡ fault.NoMemory };

    fn from(_: NoMemory) -> Self {
        RequestFault::NoMemory
    }
}
