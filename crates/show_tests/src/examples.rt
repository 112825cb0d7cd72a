//! PDUs of each kind after C706, chapter 12, with the lines of their fields.

/// The fields of the header, with which each PDU begins: the offset, how many octets there are, and the name.
pub static HEADER: [(u8, u8, &str); 9] = [
    (0, 1, "rpc_vers"),
    (1, 1, "rpc_vers_minor"),
    (2, 1, "ptype"),
    (3, 1, "pfc_flags"),
    (4, 1, "drep_order"),
    (5, 3, "drep_rest"),
    (8, 2, "frag_length"),
    (10, 2, "auth_length"),
    (12, 4, "call_id"),
];

/// Octets in hex, and their lines behind those of the header without line feeds.
pub type Example = (&'static str, &'static [&'static str]);

/// Each kind with the lowest octet first and other octets than 0 where they are passed over, each with the highest first, two
/// without a stub, and some with a tail.
pub static EXAMPLES: [Example; 31] = [
    // a request of an object, with octets that are passed over
    (
        "0501008310a1a2a32b000000040302010700000001000200105a0e6a523c7e4b9d215e8f7c1a2b30010203",
        &[
            "16 alloc_hint 07000000",
            "20 p_cont_id 0100",
            "22 opnum 0200",
            "24 object_uuid 105a0e6a523c7e4b9d215e8f7c1a2b30",
            "40 stub 010203",
        ],
    ),
    // a request, with octets that are passed over
    (
        "0500000310a1a2a31900000002000000010000000000000000",
        &[
            "16 alloc_hint 01000000",
            "20 p_cont_id 0000",
            "22 opnum 0000",
            "24 stub 00",
        ],
    ),
    // a response, with octets that are passed over
    (
        "0500020310a1a2a31b0000000200000003000000010002a1010203",
        &[
            "16 alloc_hint 03000000",
            "20 p_cont_id 0100",
            "22 cancel_count 02",
            "23 reserved a1",
            "24 stub 010203",
        ],
    ),
    // a fault, with octets that are passed over
    (
        "0500032310a1a2a3200000000700000000000000010002a10200011ca1a2a3a4",
        &[
            "16 alloc_hint 00000000",
            "20 p_cont_id 0100",
            "22 cancel_count 02",
            "23 reserved a1",
            "24 status 0200011c",
            "28 reserved a1a2a3a4",
        ],
    ),
    // a bind, with octets that are passed over
    (
        "05000b0310a1a2a34800000001000000d016d0160000000001a1a2a3000001a1105a0e6a523c7e4b9d215e8f7c1a2b3001000000045d888aeb1cc9119fe808002b10486002000000",
        &[
            "16 max_xmit_frag d016",
            "18 max_recv_frag d016",
            "20 assoc_group_id 00000000",
            "24 n_context_elem 01",
            "25 reserved a1a2a3",
            "28 p_cont_id 0000",
            "30 n_transfer_syn 01",
            "31 reserved a1",
            "32 abstract_uuid 105a0e6a523c7e4b9d215e8f7c1a2b30",
            "48 version 01000000",
            "52 transfer_uuid 045d888aeb1cc9119fe808002b104860",
            "68 version 02000000",
        ],
    ),
    // a bind_ack, with octets that are passed over
    (
        "05000c0310a1a2a33800000001000000d016d016010000000000a1a201a1a2a300000000045d888aeb1cc9119fe808002b10486002000000",
        &[
            "16 max_xmit_frag d016",
            "18 max_recv_frag d016",
            "20 assoc_group_id 01000000",
            "24 sec_length 0000",
            "26 sec_address -",
            "26 padding a1a2",
            "28 n_results 01",
            "29 reserved a1a2a3",
            "32 result 0000",
            "34 reason 0000",
            "36 transfer_uuid 045d888aeb1cc9119fe808002b104860",
            "52 version 02000000",
        ],
    ),
    // a bind_nak, with octets that are passed over
    (
        "05000d0310a1a2a3170000000100000004000205000501",
        &[
            "16 reason 0400",
            "18 n_protocols 02",
            "19 major 05",
            "20 minor 00",
            "21 major 05",
            "22 minor 01",
        ],
    ),
    // an alter_context, with octets that are passed over
    (
        "05000e0310a1a2a38800000001000000d01698050d0c0b0a02a1a2a3000002a1105a0e6a523c7e4b9d215e8f7c1a2b3001000000045d888aeb1cc9119fe808002b10486002000000045d888aeb1cc9119fe808002b10486001000000010001a1105a0e6a523c7e4b9d215e8f7c1a2b3001000000045d888aeb1cc9119fe808002b10486002000000",
        &[
            "16 max_xmit_frag d016",
            "18 max_recv_frag 9805",
            "20 assoc_group_id 0d0c0b0a",
            "24 n_context_elem 02",
            "25 reserved a1a2a3",
            "28 p_cont_id 0000",
            "30 n_transfer_syn 02",
            "31 reserved a1",
            "32 abstract_uuid 105a0e6a523c7e4b9d215e8f7c1a2b30",
            "48 version 01000000",
            "52 transfer_uuid 045d888aeb1cc9119fe808002b104860",
            "68 version 02000000",
            "72 transfer_uuid 045d888aeb1cc9119fe808002b104860",
            "88 version 01000000",
            "92 p_cont_id 0100",
            "94 n_transfer_syn 01",
            "95 reserved a1",
            "96 abstract_uuid 105a0e6a523c7e4b9d215e8f7c1a2b30",
            "112 version 01000000",
            "116 transfer_uuid 045d888aeb1cc9119fe808002b104860",
            "132 version 02000000",
        ],
    ),
    // an alter_context_resp, with octets that are passed over
    (
        "05000f0310a1a2a35400000001000000d016d0160d0c0b0a0300313200a1a2a302a1a2a302000300045d888aeb1cc9119fe808002b1048600200000000000000045d888aeb1cc9119fe808002b10486002000000",
        &[
            "16 max_xmit_frag d016",
            "18 max_recv_frag d016",
            "20 assoc_group_id 0d0c0b0a",
            "24 sec_length 0300",
            "26 sec_address 313200",
            "29 padding a1a2a3",
            "32 n_results 02",
            "33 reserved a1a2a3",
            "36 result 0200",
            "38 reason 0300",
            "40 transfer_uuid 045d888aeb1cc9119fe808002b104860",
            "56 version 02000000",
            "60 result 0000",
            "62 reason 0000",
            "64 transfer_uuid 045d888aeb1cc9119fe808002b104860",
            "80 version 02000000",
        ],
    ),
    // a shutdown, with octets that are passed over
    ("0500110310a1a2a31000000000000000", &[]),
    // a co_cancel, with octets that are passed over
    ("0500120310a1a2a31000000002000000", &[]),
    // an orphaned, with octets that are passed over
    ("0501130310a1a2a31000000002000000", &[]),
    // a request of an object with the highest octet first
    (
        "0501008300000000002b00000102030400000007000100026a0e5a103c524b7e9d215e8f7c1a2b30010203",
        &[
            "16 alloc_hint 00000007",
            "20 p_cont_id 0001",
            "22 opnum 0002",
            "24 object_uuid 6a0e5a103c524b7e9d215e8f7c1a2b30",
            "40 stub 010203",
        ],
    ),
    // a request with the highest octet first
    (
        "05000003000000000019000000000002000000010000000000",
        &[
            "16 alloc_hint 00000001",
            "20 p_cont_id 0000",
            "22 opnum 0000",
            "24 stub 00",
        ],
    ),
    // a response with the highest octet first
    (
        "0500020300000000001b0000000000020000000300010200010203",
        &[
            "16 alloc_hint 00000003",
            "20 p_cont_id 0001",
            "22 cancel_count 02",
            "23 reserved 00",
            "24 stub 010203",
        ],
    ),
    // a fault with the highest octet first
    (
        "0500032300000000002000000000000700000000000102001c01000200000000",
        &[
            "16 alloc_hint 00000000",
            "20 p_cont_id 0001",
            "22 cancel_count 02",
            "23 reserved 00",
            "24 status 1c010002",
            "28 reserved 00000000",
        ],
    ),
    // a bind with the highest octet first
    (
        "05000b0300000000004800000000000116d016d00000000001000000000001006a0e5a103c524b7e9d215e8f7c1a2b30000000018a885d041ceb11c99fe808002b10486000000002",
        &[
            "16 max_xmit_frag 16d0",
            "18 max_recv_frag 16d0",
            "20 assoc_group_id 00000000",
            "24 n_context_elem 01",
            "25 reserved 000000",
            "28 p_cont_id 0000",
            "30 n_transfer_syn 01",
            "31 reserved 00",
            "32 abstract_uuid 6a0e5a103c524b7e9d215e8f7c1a2b30",
            "48 version 00000001",
            "52 transfer_uuid 8a885d041ceb11c99fe808002b104860",
            "68 version 00000002",
        ],
    ),
    // a bind_ack with the highest octet first
    (
        "05000c0300000000003800000000000116d016d0000000010000000001000000000000008a885d041ceb11c99fe808002b10486000000002",
        &[
            "16 max_xmit_frag 16d0",
            "18 max_recv_frag 16d0",
            "20 assoc_group_id 00000001",
            "24 sec_length 0000",
            "26 sec_address -",
            "26 padding 0000",
            "28 n_results 01",
            "29 reserved 000000",
            "32 result 0000",
            "34 reason 0000",
            "36 transfer_uuid 8a885d041ceb11c99fe808002b104860",
            "52 version 00000002",
        ],
    ),
    // a bind_nak with the highest octet first
    (
        "05000d0300000000001700000000000100040205000501",
        &[
            "16 reason 0004",
            "18 n_protocols 02",
            "19 major 05",
            "20 minor 00",
            "21 major 05",
            "22 minor 01",
        ],
    ),
    // an alter_context with the highest octet first
    (
        "05000e0300000000008800000000000116d005980a0b0c0d02000000000002006a0e5a103c524b7e9d215e8f7c1a2b30000000018a885d041ceb11c99fe808002b104860000000028a885d041ceb11c99fe808002b10486000000001000101006a0e5a103c524b7e9d215e8f7c1a2b30000000018a885d041ceb11c99fe808002b10486000000002",
        &[
            "16 max_xmit_frag 16d0",
            "18 max_recv_frag 0598",
            "20 assoc_group_id 0a0b0c0d",
            "24 n_context_elem 02",
            "25 reserved 000000",
            "28 p_cont_id 0000",
            "30 n_transfer_syn 02",
            "31 reserved 00",
            "32 abstract_uuid 6a0e5a103c524b7e9d215e8f7c1a2b30",
            "48 version 00000001",
            "52 transfer_uuid 8a885d041ceb11c99fe808002b104860",
            "68 version 00000002",
            "72 transfer_uuid 8a885d041ceb11c99fe808002b104860",
            "88 version 00000001",
            "92 p_cont_id 0001",
            "94 n_transfer_syn 01",
            "95 reserved 00",
            "96 abstract_uuid 6a0e5a103c524b7e9d215e8f7c1a2b30",
            "112 version 00000001",
            "116 transfer_uuid 8a885d041ceb11c99fe808002b104860",
            "132 version 00000002",
        ],
    ),
    // an alter_context_resp with the highest octet first
    (
        "05000f0300000000005400000000000116d016d00a0b0c0d000331320000000002000000000200038a885d041ceb11c99fe808002b10486000000002000000008a885d041ceb11c99fe808002b10486000000002",
        &[
            "16 max_xmit_frag 16d0",
            "18 max_recv_frag 16d0",
            "20 assoc_group_id 0a0b0c0d",
            "24 sec_length 0003",
            "26 sec_address 313200",
            "29 padding 000000",
            "32 n_results 02",
            "33 reserved 000000",
            "36 result 0002",
            "38 reason 0003",
            "40 transfer_uuid 8a885d041ceb11c99fe808002b104860",
            "56 version 00000002",
            "60 result 0000",
            "62 reason 0000",
            "64 transfer_uuid 8a885d041ceb11c99fe808002b104860",
            "80 version 00000002",
        ],
    ),
    // a shutdown with the highest octet first
    ("05001103000000000010000000000000", &[]),
    // a co_cancel with the highest octet first
    ("05001203000000000010000000000002", &[]),
    // an orphaned with the highest octet first
    ("05011303000000000010000000000002", &[]),
    // a request with an empty stub
    (
        "050000031000000018000000020000000100000000000000",
        &[
            "16 alloc_hint 01000000",
            "20 p_cont_id 0000",
            "22 opnum 0000",
            "24 stub -",
        ],
    ),
    // a response with an empty stub
    (
        "050002031000000018000000020000000300000001000200",
        &[
            "16 alloc_hint 03000000",
            "20 p_cont_id 0100",
            "22 cancel_count 02",
            "23 reserved 00",
            "24 stub -",
        ],
    ),
    // a fault with a tail
    (
        "0500032310000000230000000700000000000000010002000200011c000000000a0b0c",
        &[
            "16 alloc_hint 00000000",
            "20 p_cont_id 0100",
            "22 cancel_count 02",
            "23 reserved 00",
            "24 status 0200011c",
            "28 reserved 00000000",
            "32 tail 0a0b0c",
        ],
    ),
    // a bind with a tail
    (
        "05000b03100000004b00000001000000d016d016000000000100000000000100105a0e6a523c7e4b9d215e8f7c1a2b3001000000045d888aeb1cc9119fe808002b104860020000000a0b0c",
        &[
            "16 max_xmit_frag d016",
            "18 max_recv_frag d016",
            "20 assoc_group_id 00000000",
            "24 n_context_elem 01",
            "25 reserved 000000",
            "28 p_cont_id 0000",
            "30 n_transfer_syn 01",
            "31 reserved 00",
            "32 abstract_uuid 105a0e6a523c7e4b9d215e8f7c1a2b30",
            "48 version 01000000",
            "52 transfer_uuid 045d888aeb1cc9119fe808002b104860",
            "68 version 02000000",
            "72 tail 0a0b0c",
        ],
    ),
    // a bind_ack with a tail
    (
        "05000c03100000003b00000001000000d016d01601000000000000000100000000000000045d888aeb1cc9119fe808002b104860020000000a0b0c",
        &[
            "16 max_xmit_frag d016",
            "18 max_recv_frag d016",
            "20 assoc_group_id 01000000",
            "24 sec_length 0000",
            "26 sec_address -",
            "26 padding 0000",
            "28 n_results 01",
            "29 reserved 000000",
            "32 result 0000",
            "34 reason 0000",
            "36 transfer_uuid 045d888aeb1cc9119fe808002b104860",
            "52 version 02000000",
            "56 tail 0a0b0c",
        ],
    ),
    // a bind_nak with a tail
    (
        "05000d03100000001a00000001000000040002050005010a0b0c",
        &[
            "16 reason 0400",
            "18 n_protocols 02",
            "19 major 05",
            "20 minor 00",
            "21 major 05",
            "22 minor 01",
            "23 tail 0a0b0c",
        ],
    ),
    // a shutdown with a tail
    (
        "050011031000000013000000000000000a0b0c",
        &["16 tail 0a0b0c"],
    ),
];
