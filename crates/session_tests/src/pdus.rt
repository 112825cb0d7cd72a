//! PDUs in hex digits, the lowest octet first unless told otherwise.

use pdu_fields::Pdu;
use rpc_pdu::{decode, encode};
use std::alloc::Global;
use std::process::Abort;

pub const BIND: &str =
    "05000b03100000004800000001000000d016d016000000000100000000000100105a0e6a523c7e4b9d215e8f7c1a2b3001000000045d888aeb1cc9119fe808002b10486002000000";

// The same with the highest octet first, and the association group 7.
pub const BIG_BIND: &str =
    "05000b0300000000004800000000000116d016d00000000701000000000001006a0e5a103c524b7e9d215e8f7c1a2b30000000018a885d041ceb11c99fe808002b10486000000002";

pub const ACK: &str =
    "05000c03100000003800000001000000d016d01601000000000000000100000000000000045d888aeb1cc9119fe808002b10486002000000";

// An acknowledgement of call 2.
pub const ACK_2: &str =
    "05000c03100000003800000002000000d016d01601000000000000000100000000000000045d888aeb1cc9119fe808002b10486002000000";

// The context is refused with result 2 and reason 1.
pub const REJECTING_ACK: &str =
    "05000c03100000003800000001000000d016d016010000000000000001000000020001000000000000000000000000000000000000000000";

pub const NAK: &str = "05000d03100000001300000001000000040000";

pub const NAK_2: &str = "05000d03100000001300000002000000040000";

// A whole request of call 2 for operation 0, of one octet.
pub const REQ: &str = "05000003100000001900000002000000010000000000000000";

// The same for operation 3.
pub const REQ_3: &str = "05000003100000001900000002000000010000000000030000";

// The same on context 1.
pub const REQ_ON_1: &str = "05000003100000001900000002000000010000000100000000";

// The first and the last fragment of a request of call 2 for operation 1 that wants no answer, and the last one of call 3.
pub const REQ_FIRST: &str = "05000041100000001a0000000200000003000000000001000a0b";

pub const REQ_LAST: &str = "0500000210000000190000000200000001000000090009000c";

pub const REQ_LAST_OF_3: &str = "0500000210000000190000000300000001000000090009000c";

// A response of call 2, whole and in three fragments.
pub const RESP: &str =
    "050002031000000030000000020000001800000000000000010000f2052a01000000e803000000000010000000000000";

pub const RESP_FIRST: &str = "05000201100000001a0000000200000004000000000000000a0b";

pub const RESP_MIDDLE: &str = "0500020010000000190000000200000002000000000000000c";

pub const RESP_LAST: &str = "0500020210000000190000000200000001000000000000000d";

// A whole one of call 1, and one with the highest octet first.
pub const RESP_1: &str = "050002031000000018000000010000000000000000000000";

pub const BIG_RESP: &str = "0500020300000000001900000000000200000001000000000e";

// The fault of call 2 with status 0x1c010002, and one of call 1.
pub const FAULT: &str = "0500032310000000200000000200000000000000000000000200011c00000000";

pub const FAULT_1: &str = "0500032310000000200000000100000000000000000000000200011c00000000";

// The fault of call 2 on context 1, with status 0x1c010003.
pub const FAULT_ON_1: &str = "0500032310000000200000000200000000000000010000000300011c00000000";

pub const ALTER: &str =
    "05000e03100000004800000003000000d016d016000000000100000001000100105a0e6a523c7e4b9d215e8f7c1a2b3001000000045d888aeb1cc9119fe808002b10486002000000";

pub const ALTER_RESP: &str =
    "05000f03100000003800000003000000d016d016e8030000000000000100000000000000045d888aeb1cc9119fe808002b10486002000000";

pub const SHUTDOWN: &str = "05001103100000001000000000000000";

pub const CO_CANCEL: &str = "05001203100000001000000002000000";

// Call 2 is given up, and call 3.
pub const ORPHANED: &str = "05001303100000001000000002000000";

pub const ORPHANED_3: &str = "05001303100000001000000003000000";

/// The PDU that these digits spell.
pub fn pdu(rt: &impl Abort, alloc: Global, digits: &str) -> Pdu {
    let octets = hex::decode(alloc, digits).expect(rt, "hex digits");
    decode(alloc, octets.as_slice()).expect(rt, "a right PDU")
}

/// Whether a PDU is what these digits spell.
pub fn is_pdu(rt: &impl Abort, alloc: Global, p: &Pdu, digits: &str) -> bool {
    let octets = hex::decode(alloc, digits).expect(rt, "hex digits");
    let encoded = encode(alloc, p).expect(rt, "a right PDU");
    encoded.as_slice() == octets.as_slice()
}

/// The length of the fragment of a PDU.
pub fn frag_length(rt: &impl Abort, alloc: Global, p: &Pdu) -> usize {
    let encoded = encode(alloc, p).expect(rt, "a right PDU");
    encoded.as_slice().len()
}
