//! Shows what stands on the wire: a line of hex digits is read, and each field of its octets is written on a line, with its
//! offset, its name and its octets. A PDU has the fields of the table by which it is decoded (C706, chapter 12), a timestamp
//! its three (C310), and a packet of NTP those of its header (RFC 5905). The form of the input and of the lines, their names and the refusals are our own choice.
#![tactic(auto)]

mod command;
mod digits;
mod end;
mod input;
mod laws;
mod lines;
mod ntp;
mod pdu;
mod utc;

pub use command::show;
pub use end::{ShowEnd, Shown};
pub use input::{MAX_INPUT, PIECE};
pub use laws::{lines_hold_the_octets, lines_read_back, offsets_go_on, one_output};
