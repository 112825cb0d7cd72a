//! The values that PDUs of connection-oriented remote calls have (C706, chapter 12), a table of fields for each kind, and
//! a cursor that reads octets field by field.
//!
//! Octets are a list of numbers below 256. Which values of a field are right, the limit of 5,840 octets and the refusals
//! are our own choice. Each call that may need memory is passed the allocator.
#![tactic(auto)]

mod cursor;
mod header;
mod kind;
mod laws;
mod lists;
mod pdu;

pub use cursor::Cursor;
pub use header::{
    BIG_ORDER, HEADER_LENGTH, Header, LITTLE_ORDER, MAX_ADDRESS, MAX_CONTEXTS, MAX_FRAGMENT,
    MAX_MINOR, MAX_PROTOCOLS, MAX_REASON, MAX_RESULT, MAX_TRANSFERS, OBJECT_UUID, RPC_VERS,
};
pub use kind::Ptype;
pub use laws::octets_have_one_reading;
pub use lists::{ContextResults, Contexts, Protocols, Syntaxes};
pub use pdu::{AckBody, BindBody, Body, Context, ContextResult, Pdu, Protocol, Syntax};
