//! Stubs in NDR, the octets that a remote call carries (C706, chapter 14): numbers aligned to their size,
//! octets, and strings, in either byte order. A reader gives the values of any octets or names the first
//! field that is not whole or not right, with its offset; a writer makes the octets of values.
//!
//! Gaps are written as 0 and passed over in reading, and a gap belongs to the field behind it. The bounds on
//! strings and stubs and the refusals are our own choice. Each call that may need memory is passed the
//! allocator.
#![tactic(auto)]

mod endian;
mod fault;
mod laws;
mod reader;
mod writer;

pub use endian::{Endian, FIRST_PRINTED, LAST_PRINTED, MAX_STRING, MAX_STUB};
pub use fault::{DecodeFault, WriteFault};
pub use laws::{one_refusal, written_reads_back};
pub use reader::Reader;
pub use writer::Writer;
