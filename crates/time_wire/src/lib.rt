//! The messages of the time operations as values, and their stubs in NDR (C706, chapter 14): what `get_time`,
//! `get_info` and `command` are asked and answered with, after C310. Which fields a stub has, in which order
//! and with which values, is our own choice.
//!
//! Each stub is a list of fields. A call that decodes gives the message that octets spell, or the first field
//! that is not whole or not right, with its offset from 0; a call that encodes gives the one spelling whose
//! gaps are 0. Numbers have the byte order that is passed, and the sixteen octets of a timestamp have their
//! own. Each call that may need memory is passed the allocator; a stub that is not right is refused without it.
#![tactic(auto)]

mod decoding;
mod encoding;
mod laws;
mod message;

pub use decoding::{
    decode_command, decode_command_reply, decode_get_info, decode_get_time, decode_info_reply,
    decode_time_reply,
};
pub use encoding::{
    encode_command, encode_command_reply, encode_get_time, encode_info_reply, encode_time_reply,
};
pub use laws::{
    decoded_is_right, encoded_is_decoded, refused_at_the_first_wrong_field, stubs_have_one_reading,
    timestamps_are_those_of_utc_value,
};
pub use message::{CommandReply, GetTime, InfoReply, TimeReply};

/// The version of the stubs, which begins the replies of get_time and get_info.
pub const WIRE_VERSION: u8 = 1;

/// The greatest role of a node: 0 is a clerk, and 1 is a server.
pub const MAX_ROLE: u8 = 1;

/// The greatest number that tells of a courier: 0 is none, and 1 is one.
pub const MAX_COURIER: u8 = 1;

// How many octets a timestamp has.
const UTC_SIZE: usize = 16;
