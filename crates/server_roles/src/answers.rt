use dts_base::{Bytes, Refused};

/// The number of the operation get_time.
pub const GET_TIME: u16 = 0;

/// The number of the operation get_info.
pub const GET_INFO: u16 = 1;

/// The number of the operation command, which is the last one.
pub const COMMAND: u16 = 2;

/// The status of an answer that may be used.
pub const RIGHT_STATUS: u32 = 0;

/// The status of a reading where the epochs of the two nodes differ.
pub const OTHER_EPOCH_STATUS: u32 = 1;

/// The status of a command that is not known.
pub const UNKNOWN_STATUS: u32 = 1;

/// What a server answers to a call.
#[derive(Debug, Drop, PartialEq, Eq)]
pub enum Answer {
    /// The stub of the reply.
    Stub(Bytes),
    /// The stub of the call is refused at its first wrong field.
    Wrong(Refused),
}
