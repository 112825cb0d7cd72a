//! The lines of a PDU, by the tables of pdu_fields.

ghost use Rattle.std.specs.Prelude.{◌≡◌, ℕ, Bool, Ok, OnOk, IfOk, MatchResult, length};
ghost use Rattle.std.specs.Option.{unwrap_or};
ghost use Rattle.ndr.specs.declared.endian.Endian.TheVariants.{Big};
ghost use Rattle.pdu_fields.specs.declared.header.Header.{Header};
ghost use Rattle.pdu_fields.specs.Bodies.{ack_part, bind_part, body_of, context_part, fault_table, nak_table, object_part, request_table, response_table};
ghost use Rattle.pdu_fields.specs.Headers.{exactly, header, order_at};
ghost use Rattle.pdu_fields.specs.Tables.{repeated};
ghost use Rattle.wire_show.specs.declared.end.Shown.TheVariants.{Pdu};
ghost use Rattle.wire_show.specs.Output.{lines_as};
ghost use Rattle.wire_show.specs.Showing.{IsFaultOf};
ghost use Rattle.wire_show.specs.Walking.{Walks, WalksOut, WalksHeader, IsHeadOf};

use crate::lines::FieldLines;
use dts_base::{Field, NoMemory};
use ndr::{DecodeFault, Endian};
use pdu_fields::{LITTLE_ORDER, OBJECT_UUID, Ptype};
use rpc_pdu::decode;
use std::alloc::Global;

// What a header begins with, up to the kind, and what follows the byte order.
const VERSIONS: [(Field, usize); 2] = [(Field::RpcVers, 1), (Field::RpcVersMinor, 1)];

const LENGTHS: [(Field, usize); 4] = [
    (Field::DrepRest, 3),
    (Field::FragLength, 2),
    (Field::AuthLength, 2),
    (Field::CallId, 4),
];

// What a bind and its answer begin with.
const ASSOCIATION: [(Field, usize); 3] = [
    (Field::MaxXmit, 2),
    (Field::MaxRecv, 2),
    (Field::AssocGroup, 4),
];

// What a context has between its two counts.
const INTERFACE: [(Field, usize); 3] = [
    (Field::Reserved, 1),
    (Field::AbstractUuid, 16),
    (Field::Version, 4),
];

const TRANSFER: [(Field, usize); 2] = [(Field::TransferUuid, 16), (Field::Version, 4)];

const RESULT: [(Field, usize); 4] = [
    (Field::Result, 2),
    (Field::Reason, 2),
    (Field::TransferUuid, 16),
    (Field::Version, 4),
];

const PROTOCOL: [(Field, usize); 2] = [(Field::Major, 1), (Field::Minor, 1)];

const REQUEST: [(Field, usize); 3] = [
    (Field::AllocHint, 4),
    (Field::ContextId, 2),
    (Field::Opnum, 2),
];

// What a response begins with, and a fault too.
const RESPONSE: [(Field, usize); 4] = [
    (Field::AllocHint, 4),
    (Field::ContextId, 2),
    (Field::CancelCount, 1),
    (Field::Reserved, 1),
];

const FAULT: [(Field, usize); 2] = [(Field::Status, 4), (Field::Reserved, 4)];

// What of a header decides which fields follow it.
#[derive(Clone, Copy, Debug)]
pub(crate) struct Head {
    ptype: Ptype,
    flags: u8,
    endian: Endian,
}

/// The lines of a PDU.
pub(crate) fn pdu_text(alloc: Global, octets: &[u8]) -> Result<Vec<u8>, DecodeFault>
    ensures { MatchResult result (λ text. lines_as Pdu octets.now ≡ Ok text.items) (IsFaultOf (lines_as Pdu octets.now)) }
{
    decode(alloc, octets)?;
    let mut lines = FieldLines::new(alloc, octets);
    let head = lines.header()?;
    lines.body(head)?;
    Ok(lines.end()?)
}

impl<'a> FieldLines<'a> {
    // The lines of the header.
    fn header(&mut self) -> Result<Head, NoMemory>
        ensures { (right : ℕ → Bool) → IfOk result (WalksHeader (header right) self.old self.new) }
    {
        self.fields(&VERSIONS)?;
        let ptype = Ptype::from_number(self.front()).unwrap_or(Ptype::Orphaned);
        self.field(Field::Ptype, 1)?;
        let flags = self.front();
        self.field(Field::PfcFlags, 1)?;
        let endian = order_of(self.front());
        self.field(Field::DrepOrder, 1)?;
        self.fields(&LENGTHS)?;
        Ok(Head {
            ptype,
            flags,
            endian,
        })
    }

    // The lines of what stands behind the header.
    fn body(&mut self, head: Head) -> Result<(), NoMemory>
        ensures { OnOk result ((h : Header) → IsHeadOf h head → WalksOut (body_of h.ptype h) self.old self.new) }
    {
        match head.ptype {
            Ptype::Request => self.request(head.flags),
            Ptype::Response => self.response(),
            Ptype::Fault => self.fault(),
            Ptype::Bind => self.bind(),
            Ptype::BindAck => self.ack(head.endian),
            Ptype::BindNak => self.nak(),
            Ptype::AlterContext => self.bind(),
            Ptype::AlterContextResp => self.ack(head.endian),
            Ptype::Shutdown => Ok(()),
            Ptype::CoCancel => Ok(()),
            Ptype::Orphaned => Ok(()),
        }
    }

    fn request(&mut self, flags: u8) -> Result<(), NoMemory>
        ensures { OnOk result ((h : Header) → h.flags ≡ flags → WalksOut (request_table h) self.old self.new) }
    {
        self.fields(&REQUEST)?;
        if flags & OBJECT_UUID != 0 {
            self.field(Field::ObjectUuid, 16)?;
        }
        self.rest(Field::Stub)
    }

    fn response(&mut self) -> Result<(), NoMemory>
        ensures { OnOk result ((h : Header) → WalksOut (response_table h) self.old self.new) }
    {
        self.fields(&RESPONSE)?;
        self.rest(Field::Stub)
    }

    fn fault(&mut self) -> Result<(), NoMemory>
        ensures { OnOk result ((h : Header) → WalksOut (fault_table h) self.old self.new) }
    {
        self.fields(&RESPONSE)?;
        self.fields(&FAULT)
    }

    fn bind(&mut self) -> Result<(), NoMemory>
        ensures { OnOk result ((e : Endian) → Walks (bind_part e) self.old self.new) }
    {
        self.fields(&ASSOCIATION)?;
        let count = self.front();
        self.field(Field::NContext, 1)?;
        self.field(Field::Reserved, 3)?;
        self.contexts(count)
    }

    fn contexts(&mut self, count: u8) -> Result<(), NoMemory>
        ensures { OnOk result ((e : Endian) → Walks (repeated (context_part e) count) self.old self.new) }
    {
        for _done in 0..count {
            self.context()?;
        }
        Ok(())
    }

    fn context(&mut self) -> Result<(), NoMemory>
        ensures { OnOk result ((e : Endian) → Walks (context_part e) self.old self.new) }
    {
        self.field(Field::ContextId, 2)?;
        let count = self.front();
        self.field(Field::NTransferSyn, 1)?;
        self.fields(&INTERFACE)?;
        self.repeat(&TRANSFER, count)
    }

    fn ack(&mut self, endian: Endian) -> Result<(), NoMemory>
        ensures { OnOk result (Walks (ack_part endian) self.old self.new) }
    {
        self.fields(&ASSOCIATION)?;
        let length = self.front_number(endian);
        self.field(Field::SecLength, 2)?;
        self.field(Field::SecAddress, usize::from(length))?;
        self.field(Field::Padding, self.gap())?;
        let count = self.front();
        self.field(Field::NResults, 1)?;
        self.field(Field::Reserved, 3)?;
        self.repeat(&RESULT, count)
    }

    fn nak(&mut self) -> Result<(), NoMemory>
        ensures { OnOk result ((h : Header) → WalksOut (nak_table h) self.old self.new) }
    {
        self.field(Field::Reason, 2)?;
        let count = self.front();
        self.field(Field::NProtocols, 1)?;
        self.repeat(&PROTOCOL, count)
    }
}

// The byte order of an octet, which is one of the two.
fn order_of(octet: u8) -> Endian
    ensures { result ≡ unwrap_or (order_at octet) Big }
{
    if octet == LITTLE_ORDER {
        Endian::Little
    } else {
        Endian::Big
    }
}
