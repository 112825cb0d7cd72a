//! The PDUs of connection-oriented remote calls (C706, chapter 12): octets are decoded to the value that they spell or
//! refused at the first field that is short or not right, and values are encoded.
//!
//! Which values of a field are right, the limit of 5,840 octets and the refusals are our own choice. Each call that may
//! need memory is passed the allocator.
#![tactic(auto)]

mod decoding;
mod draft;
mod encoding;
mod fault;
mod laws;
mod soundness;

pub use decoding::decode;
pub use encoding::encode;
pub use fault::EncodeFault;
pub use laws::decode_undoes_encode;
pub use ndr::DecodeFault;
pub use pdu_fields::{
    AckBody, BindBody, Body, Context, ContextResult, ContextResults, Contexts, HEADER_LENGTH,
    MAX_FRAGMENT, Pdu, Protocol, Protocols, Ptype, Syntax, Syntaxes, octets_have_one_reading,
};
