ghost use Rattle.std.specs.Prelude.{◌≡◌, ◌⊎◌, IfOk, IfErr, Ok, Err, None, length};
ghost use Rattle.dts_base.specs.declared.wire.Field.TheVariants as field;
ghost use Rattle.dts_base.specs.declared.wire.Refused.{Refused};
ghost use Rattle.pdu_fields.specs.declared.pdu.Pdu.{Pdu};
ghost use Rattle.pdu_fields.specs.Bodies.{ack_part, bind_part, body_of, context_part, fault_table, nak_table, object_part, protocol_part, request_table, response_table, result_part, syntax_part};
ghost use Rattle.pdu_fields.specs.Grammar.{FirstWrong, IsFaultOf, Spells, table_of};
ghost use Rattle.pdu_fields.specs.Parsing.{Parses, Reading};
ghost use Rattle.rpc_pdu.specs.Soundness.{unsound};
ghost use Rattle.pdu_fields.specs.Tables.{repeated};

use dts_base::Field;
use ndr::{DecodeFault, Endian};
use pdu_fields::{
    AckBody, BindBody, Body, Context, ContextResult, ContextResults, Contexts, Cursor, Header,
    MAX_CONTEXTS, MAX_REASON, MAX_RESULT, MAX_TRANSFERS, OBJECT_UUID, Pdu, Protocol, Protocols,
    Ptype, Syntax, Syntaxes,
};
use std::alloc::Global;
use uuid::Uuid;

fn read_syntax(cursor: &mut Cursor, name: Field, endian: Endian) -> Result<Syntax, DecodeFault>
    ensures { Reading (syntax_part endian name) cursor.old cursor.new result }
{
    let uuid = cursor.uuid(name, endian)?;
    let version = cursor.u32(Field::Version, endian)?;
    Ok(Syntax { uuid, version })
}

fn read_syntaxes(
    alloc: Global,
    cursor: &mut Cursor,
    endian: Endian,
    count: u8,
) -> Result<Syntaxes, DecodeFault>
    ensures { Reading (repeated (syntax_part endian field.TransferUuid) count) cursor.old cursor.new result }
{
    let mut items = Syntaxes::new(alloc)?;
    for _done in 0..count {
        let item = read_syntax(cursor, Field::TransferUuid, endian)?;
        items.push(alloc, item)?;
    }
    Ok(items)
}

fn read_context(alloc: Global, cursor: &mut Cursor, endian: Endian) -> Result<Context, DecodeFault>
    ensures { Reading (context_part endian) cursor.old cursor.new result }
{
    let id = cursor.u16(Field::ContextId, endian)?;
    let count = cursor.octet_between(Field::NTransferSyn, 1, MAX_TRANSFERS)?;
    cursor.pass(Field::Reserved, 1)?;
    let abstract_syntax = read_syntax(cursor, Field::AbstractUuid, endian)?;
    let transfers = read_syntaxes(alloc, cursor, endian, count)?;
    Ok(Context {
        id,
        abstract_syntax,
        transfers,
    })
}

fn read_contexts(
    alloc: Global,
    cursor: &mut Cursor,
    endian: Endian,
    count: u8,
) -> Result<Contexts, DecodeFault>
    ensures { Reading (repeated (context_part endian) count) cursor.old cursor.new result }
{
    let mut items = Contexts::new(alloc)?;
    for _done in 0..count {
        let item = read_context(alloc, cursor, endian)?;
        items.push(alloc, item)?;
    }
    Ok(items)
}

fn read_bind(alloc: Global, cursor: &mut Cursor, endian: Endian) -> Result<BindBody, DecodeFault>
    ensures { Reading (bind_part endian) cursor.old cursor.new result }
{
    let max_xmit = cursor.u16(Field::MaxXmit, endian)?;
    let max_recv = cursor.u16(Field::MaxRecv, endian)?;
    let group = cursor.u32(Field::AssocGroup, endian)?;
    let count = cursor.octet_between(Field::NContext, 1, MAX_CONTEXTS)?;
    cursor.pass(Field::Reserved, 3)?;
    let contexts = read_contexts(alloc, cursor, endian, count)?;
    Ok(BindBody {
        max_xmit,
        max_recv,
        group,
        contexts,
    })
}

fn read_result(cursor: &mut Cursor, endian: Endian) -> Result<ContextResult, DecodeFault>
    ensures { Reading (result_part endian) cursor.old cursor.new result }
{
    let outcome = cursor.u16_between(Field::Result, endian, 0, MAX_RESULT)?;
    let reason = cursor.u16_between(Field::Reason, endian, 0, MAX_REASON)?;
    let transfer = read_syntax(cursor, Field::TransferUuid, endian)?;
    Ok(ContextResult {
        result: outcome,
        reason,
        transfer,
    })
}

fn read_results(
    alloc: Global,
    cursor: &mut Cursor,
    endian: Endian,
    count: u8,
) -> Result<ContextResults, DecodeFault>
    ensures { Reading (repeated (result_part endian) count) cursor.old cursor.new result }
{
    let mut items = ContextResults::new(alloc)?;
    for _done in 0..count {
        let item = read_result(cursor, endian)?;
        items.push(alloc, item)?;
    }
    Ok(items)
}

fn read_ack(alloc: Global, cursor: &mut Cursor, endian: Endian) -> Result<AckBody, DecodeFault>
    ensures { Reading (ack_part endian) cursor.old cursor.new result }
{
    let max_xmit = cursor.u16(Field::MaxXmit, endian)?;
    let max_recv = cursor.u16(Field::MaxRecv, endian)?;
    let group = cursor.u32(Field::AssocGroup, endian)?;
    let length = cursor.u16(Field::SecLength, endian)?;
    let address = cursor.octets(alloc, Field::SecAddress, usize::from(length))?;
    cursor.pad(Field::Padding)?;
    let count = cursor.octet_between(Field::NResults, 1, MAX_CONTEXTS)?;
    cursor.pass(Field::Reserved, 3)?;
    let results = read_results(alloc, cursor, endian, count)?;
    Ok(AckBody {
        max_xmit,
        max_recv,
        group,
        address,
        results,
    })
}

fn read_protocol(cursor: &mut Cursor) -> Result<Protocol, DecodeFault>
    ensures { Reading protocol_part cursor.old cursor.new result }
{
    let major = cursor.octet(Field::Major)?;
    let minor = cursor.octet(Field::Minor)?;
    Ok(Protocol { major, minor })
}

fn read_protocols(alloc: Global, cursor: &mut Cursor, count: u8) -> Result<Protocols, DecodeFault>
    ensures { Reading (repeated protocol_part count) cursor.old cursor.new result }
{
    let mut items = Protocols::new(alloc)?;
    for _done in 0..count {
        let item = read_protocol(cursor)?;
        items.push(alloc, item)?;
    }
    Ok(items)
}

fn read_nak(alloc: Global, cursor: &mut Cursor, header: Header) -> Result<Pdu, DecodeFault>
    ensures { Parses (nak_table header) cursor.old result }
{
    let reason = cursor.u16(Field::Reason, header.endian)?;
    let count = cursor.octet(Field::NProtocols)?;
    let protocols = read_protocols(alloc, cursor, count)?;
    Ok(header.pdu(Body::BindNak { reason, protocols }))
}

// The identifier of an object, exactly where the flag for it is set.
fn read_object(cursor: &mut Cursor, header: Header) -> Result<Option<Uuid>, DecodeFault>
    ensures { Reading (object_part header) cursor.old cursor.new result }
{
    if header.flags & OBJECT_UUID == 0 {
        return Ok(None);
    }
    let object = cursor.uuid(Field::ObjectUuid, header.endian)?;
    Ok(Some(object))
}

fn read_request(alloc: Global, cursor: &mut Cursor, header: Header) -> Result<Pdu, DecodeFault>
    ensures { Parses (request_table header) cursor.old result }
{
    let hint = cursor.u32(Field::AllocHint, header.endian)?;
    let context = cursor.u16(Field::ContextId, header.endian)?;
    let opnum = cursor.u16(Field::Opnum, header.endian)?;
    let object = read_object(cursor, header)?;
    let stub = cursor.rest(alloc, Field::Stub)?;
    Ok(header.pdu(Body::Request {
        hint,
        context,
        opnum,
        object,
        stub,
    }))
}

fn read_response(alloc: Global, cursor: &mut Cursor, header: Header) -> Result<Pdu, DecodeFault>
    ensures { Parses (response_table header) cursor.old result }
{
    let hint = cursor.u32(Field::AllocHint, header.endian)?;
    let context = cursor.u16(Field::ContextId, header.endian)?;
    let cancels = cursor.octet(Field::CancelCount)?;
    cursor.pass(Field::Reserved, 1)?;
    let stub = cursor.rest(alloc, Field::Stub)?;
    Ok(header.pdu(Body::Response {
        hint,
        context,
        cancels,
        stub,
    }))
}

fn read_fault(cursor: &mut Cursor, header: Header) -> Result<Pdu, DecodeFault>
    ensures { Parses (fault_table header) cursor.old result }
{
    let hint = cursor.u32(Field::AllocHint, header.endian)?;
    let context = cursor.u16(Field::ContextId, header.endian)?;
    let cancels = cursor.octet(Field::CancelCount)?;
    cursor.pass(Field::Reserved, 1)?;
    let status = cursor.u32(Field::Status, header.endian)?;
    cursor.pass(Field::Reserved, 4)?;
    Ok(header.pdu(Body::Fault {
        hint,
        context,
        cancels,
        status,
    }))
}

// What stands behind the header.
fn read_body(alloc: Global, cursor: &mut Cursor, header: Header) -> Result<Pdu, DecodeFault>
    ensures { Parses (body_of header.ptype header) cursor.old result }
{
    match header.ptype {
        Ptype::Request => read_request(alloc, cursor, header),
        Ptype::Response => read_response(alloc, cursor, header),
        Ptype::Fault => read_fault(cursor, header),
        Ptype::Bind => Ok(header.pdu(Body::Bind(read_bind(alloc, cursor, header.endian)?))),
        Ptype::BindAck => Ok(header.pdu(Body::BindAck(read_ack(alloc, cursor, header.endian)?))),
        Ptype::BindNak => read_nak(alloc, cursor, header),
        Ptype::AlterContext => Ok(header.pdu(Body::AlterContext(read_bind(
            alloc,
            cursor,
            header.endian,
        )?))),
        Ptype::AlterContextResp => Ok(header.pdu(Body::AlterContextResp(read_ack(
            alloc,
            cursor,
            header.endian,
        )?))),
        Ptype::Shutdown => Ok(header.pdu(Body::Shutdown)),
        Ptype::CoCancel => Ok(header.pdu(Body::CoCancel)),
        Ptype::Orphaned => Ok(header.pdu(Body::Orphaned)),
    }
}

// One fragment, as far as its table goes.
fn read_fragment(alloc: Global, b: &[u8]) -> Result<Pdu, DecodeFault>
    ensures { Parses (table_of (length b.now)) (record { at = 0; left = b.now }) result }
{
    let mut cursor = Cursor::new(b);
    let header = Header::read(&mut cursor, Some(b.len()))?;
    read_body(alloc, &mut cursor, header)
}

/// Decodes one fragment, which is the whole slice. Its fields are those of the table of its kind, in order, with numbers in
/// the byte order that its header names; octets that are passed over are no part of the value. Any other octets are refused
/// at the first field that is short or not right, with the offset of its first octet. Octets behind the last field of a kind
/// without a stub are passed over.
pub fn decode(alloc: Global, b: &[u8]) -> Result<Pdu, DecodeFault>
    ensures found { IfOk result (λ v. Spells v b.now) }
    ensures first_wrong { IfErr result (IsFaultOf b.now) }

    // What is decoded is right, so that it can be encoded.
    ensures sound { IfOk result (λ v. unsound v ≡ None) }

    // Neither has another answer, but that memory is missing.
    ensures only { (v : Pdu) → Spells v b.now → (result ≡ Ok v) ⊎ (result ≡ Err DecodeFault.NoMemory) }
    ensures only_wrong { (refused : Refused) → FirstWrong b.now refused → (result ≡ Err (DecodeFault.Wrong refused)) ⊎ (result ≡ Err DecodeFault.NoMemory) }
{
    read_fragment(alloc, b)
}
