use assertions::{assert_equal, assert_equal_at};
use dts_base::*;
use std::alloc::Global;
use std::test::Fail;

const ADDRESS: Address = Address {
    ip: [127, 0, 0, 1],
    port: 7000,
};

#[test]
fn octets_are_kept(rt: HostRuntime) -> Result<(), Fail> {
    let bytes = Bytes::from_slice(rt.alloc(), b"abc")?;
    let copy = Text::from_slice(rt.alloc(), bytes.as_slice())?;
    let bytes = Bytes::from_vec(Text::from_vec(bytes.into_vec()).into_vec());
    let wanted = b"abc".as_slice();
    assert_equal!(rt; (copy.as_slice(), bytes.as_slice()), (wanted, wanted));
    Ok(())
}

// Whether octets are equal as bytes, and whether they are as a text.
fn are_equal(alloc: Global, octets: &[u8], other: &[u8]) -> Result<(bool, bool), NoMemory> {
    let bytes = Bytes::from_slice(alloc, octets)? == Bytes::from_slice(alloc, other)?;
    let texts = Text::from_slice(alloc, octets)? == Text::from_slice(alloc, other)?;
    Ok((bytes, texts))
}

// What a link keeps of octets that were sent to a peer.
fn sent(alloc: Global, peer: u32, octets: &[u8]) -> Result<Sent, NoMemory> {
    let bytes = Bytes::from_slice(alloc, octets)?;
    Ok(Sent { peer, bytes })
}

#[test]
fn octets_are_compared(rt: HostRuntime) -> Result<(), Fail> {
    for (other, equal) in [
        (b"abc".as_slice(), true),
        (b"abd", false),
        (b"ab", false),
        (b"abcd", false),
        (b"", false),
    ] {
        assert_equal_at!(rt; other, are_equal(rt.alloc(), b"abc", other)?, (equal, equal));
    }
    assert_equal!(rt; are_equal(rt.alloc(), b"", b"")?, (true, true));
    assert_equal!(rt; sent(rt.alloc(), 1, b"abc")?, sent(rt.alloc(), 1, b"abc")?);
    Ok(())
}

#[test]
fn a_source_is_read_in_pieces_to_its_end(rt: HostRuntime) -> Result<(), Fail> {
    let mut source = MemorySource::new(rt.alloc(), b"hello", &[2])?;
    let mut buf = [0u8; 3];
    let read = source.read(&mut buf);
    assert_equal!(rt; (read, buf), (Ok(3), *b"hel"));
    // the second call fails, and has read nothing
    let read = [0u8; 3].map(|_| source.read(&mut buf));
    assert_equal!(rt; read, [Err(Failed), Ok(2), Ok(0)]);
    Ok(())
}

#[test]
fn a_failing_sink_keeps_what_was_written(rt: HostRuntime) -> Result<(), Fail> {
    let mut sink = MemorySink::new(rt.alloc(), &[2])?;
    let pieces: [&[u8]; 3] = [b"one", b"two", b"three"];
    let answers = pieces.map(|piece| write_all(&mut sink, piece));
    assert_equal!(rt; answers, [Ok(()), Err(Failed), Ok(())]);
    assert_equal!(rt; (sink.written(), sink.starved()), (b"onethree".as_slice(), 0));
    Ok(())
}

#[test]
fn numbers_of_a_script_are_given_once_and_the_last_again(rt: HostRuntime) -> Result<(), Fail> {
    let script = [0, MAX_OSC, 7];
    let mut osc = MemoryOscillator::new(rt.alloc(), &script)?;
    let mut words = MemoryWords::new(rt.alloc(), &script)?;
    for number in [0, MAX_OSC, 7, 7, 7] {
        let given = (osc.read(), words.next());
        assert_equal!(rt; given, (number, number));
    }
    let mut osc = MemoryOscillator::new(rt.alloc(), &[])?;
    let mut words = MemoryWords::new(rt.alloc(), &[])?;
    assert_equal!(rt; (osc.read(), words.next()), (0, 0));
    assert_equal!(rt; MAX_OSC, 1_152_921_504_606_846_976);
    Ok(())
}

// What a poll answers, and what stands in its buffer of three octets then.
fn polled(link: &mut MemoryLink) -> (Arrival, [u8; 3]) {
    let mut buf = [0u8; 3];
    let arrival = link.poll(&mut buf);
    (arrival, buf)
}

#[test]
fn a_link_gives_its_script(rt: HostRuntime) -> Result<(), Fail> {
    let script = vec![in rt.alloc();
        Scripted::Bytes {
            peer: 1,
            bytes: Bytes::from_slice(rt.alloc(), b"hello")?
        },
        Scripted::Nothing,
        Scripted::Gram {
            peer: 2,
            bytes: Bytes::from_slice(rt.alloc(), b"datagram")?
        },
        Scripted::Gram {
            peer: 2,
            bytes: Bytes::from_slice(rt.alloc(), b"")?
        },
        Scripted::Lost { peer: 1 },
        Scripted::Ended,
    ]?;
    let mut link = MemoryLink::new(rt.alloc(), script, &[], &[])?;
    // what comes past the script is the last row
    for (arrival, octets) in [
        (Arrival::Bytes { peer: 1, len: 3 }, *b"hel"),
        (Arrival::Bytes { peer: 1, len: 2 }, *b"lo\0"),
        (Arrival::Nothing, [0; 3]),
        (Arrival::Gram { peer: 2, len: 3 }, *b"dat"),
        (Arrival::Gram { peer: 2, len: 0 }, [0; 3]),
        (Arrival::Lost { peer: 1 }, [0; 3]),
        (Arrival::Ended, [0; 3]),
        (Arrival::Nothing, [0; 3]),
    ] {
        assert_equal!(rt; polled(&mut link), (arrival, octets));
    }
    Ok(())
}

#[test]
fn a_link_keeps_lists_and_fails_at_the_calls_of_its_lists(rt: HostRuntime) -> Result<(), Fail> {
    let mut link = MemoryLink::new(rt.alloc(), Vec::new(rt.alloc()), &[2], &[1])?;
    link.place(1, PeerKind::Gram, ADDRESS);
    // the calls of each kind are numbered alone
    let answers = [link.send(1, b"lost"), link.send(1, b"query")];
    assert_equal!(rt; answers, [Err(Failed), Ok(())]);
    let answers = [1000, 1001, 1002].map(|first| link.listen(first, ADDRESS));
    assert_equal!(rt; answers, [Ok(()), Err(Failed), Ok(())]);
    link.close(1);
    let place = Place {
        peer: 1,
        kind: PeerKind::Gram,
        address: ADDRESS,
    };
    assert_equal!(rt; link.places(), [place].as_slice());
    let first = Served {
        first: 1000,
        address: ADDRESS,
    };
    let second = Served {
        first: 1002,
        address: ADDRESS,
    };
    assert_equal!(rt; link.served(), [first, second].as_slice());
    assert_equal!(rt; link.sent(), [sent(rt.alloc(), 1, b"query")?].as_slice());
    assert_equal!(rt; link.closed(), [1].as_slice());
    assert_equal!(rt; link.starved(), 0);
    Ok(())
}

#[test]
fn faults_have_texts(rt: HostRuntime) -> Result<(), Fail> {
    let text = format!(in rt.alloc(); "{}, {}", Failed, NoMemory)?;
    assert_equal!(rt; text.as_str(), "the call failed, out of memory");
    Ok(())
}

#[test]
fn an_address_is_read_from_its_text_alone(rt: HostRuntime) {
    let right = [
        ("127.0.0.1:7000", ADDRESS),
        (
            "0.0.0.0:1",
            Address {
                ip: [0, 0, 0, 0],
                port: 1,
            },
        ),
        (
            "255.255.255.255:65535",
            Address {
                ip: [255, 255, 255, 255],
                port: 65535,
            },
        ),
    ];
    for (text, address) in right {
        assert_equal!(rt; Address::parse(text), Some(address));
    }
    let wrong = [
        "",
        "127.0.0.1",
        "127.0.0.1:",
        "127.0.0.1:0",
        "127.0.0.1:65536",
        "127.0.0.1:07000",
        "127.0.0.1:+7000",
        "127.0.0.1:7000 ",
        "127.0.0.1:18446744073709551617",
        "256.0.0.1:7000",
        "127.0.0.256:7000",
        "127.00.0.1:7000",
        "+127.0.0.1:7000",
        "127..0.1:7000",
        "127.0.0:7000",
        "127.0.0.0.1:7000",
        "127.0.0.1:7000:1",
        "localhost:7000",
    ];
    for text in wrong {
        assert_equal!(rt; Address::parse(text), None);
    }
}

// The fields in the order of their names below.
const FIELDS: [Field; 49] = [
    Field::RpcVers,
    Field::RpcVersMinor,
    Field::Ptype,
    Field::PfcFlags,
    Field::DrepOrder,
    Field::DrepRest,
    Field::FragLength,
    Field::AuthLength,
    Field::CallId,
    Field::MaxXmit,
    Field::MaxRecv,
    Field::AssocGroup,
    Field::NContext,
    Field::Reserved,
    Field::ContextId,
    Field::NTransferSyn,
    Field::AbstractUuid,
    Field::Version,
    Field::TransferUuid,
    Field::SecLength,
    Field::SecAddress,
    Field::Padding,
    Field::NResults,
    Field::Result,
    Field::Reason,
    Field::NProtocols,
    Field::Major,
    Field::Minor,
    Field::AllocHint,
    Field::Opnum,
    Field::ObjectUuid,
    Field::Stub,
    Field::CancelCount,
    Field::Status,
    Field::Epoch,
    Field::WireVersion,
    Field::UtcOctets,
    Field::Role,
    Field::Courier,
    Field::Number,
    Field::StepNumber,
    Field::MaxCount,
    Field::StringOffset,
    Field::ActualCount,
    Field::StringOctets,
    Field::Tail,
    Field::NtpLength,
    Field::NtpVersion,
    Field::Input,
];

const FIELD_NAMES: &str =
    "rpc_vers rpc_vers_minor ptype pfc_flags drep_order drep_rest frag_length auth_length call_id max_xmit_frag
max_recv_frag assoc_group_id n_context_elem reserved p_cont_id n_transfer_syn abstract_uuid version
transfer_uuid sec_length sec_address padding n_results result reason n_protocols major minor alloc_hint opnum
object_uuid stub cancel_count status epoch wire_version utc_octets role courier number step_number max_count
string_offset actual_count string_octets tail ntp_length ntp_version input";

#[test]
fn fields_causes_and_states_have_names(rt: HostRuntime) -> Result<(), Fail> {
    let mut names = FIELD_NAMES.split_whitespace();
    for field in FIELDS {
        assert_equal!(rt; Some(field.name()), names.next());
    }
    assert_equal!(rt; names.next(), None);
    for (cause, name) in [
        (WireCause::Short, "short"),
        (WireCause::Value, "value"),
        (WireCause::Extra, "extra"),
        (WireCause::Long, "long"),
    ] {
        assert_equal!(rt; cause.name(), name);
    }
    for (state, name) in [
        (State::New, "new"),
        (State::Binding, "binding"),
        (State::Bound, "bound"),
        (State::Waiting, "waiting"),
        (State::Gathering, "gathering"),
        (State::Dead, "dead"),
    ] {
        assert_equal!(rt; state.name(), name);
        assert_equal!(rt; state.to_string(rt.alloc())?.as_str(), name);
    }
    let refused = Refused {
        field: Field::Status,
        offset: 4,
        cause: WireCause::Short,
    };
    let text = refused.to_string(rt.alloc())?;
    assert_equal!(rt; text.as_str(), "status at octet 4: short");
    Ok(())
}

#[test]
fn laws_have_no_effect() {
    one_address();
    fields_differ_by_name();
}
