ghost use Rattle.std.specs.Prelude.{◌≡◌, ◌⊎◌, ◌+◌, ◌≤◌, ◌++◌, [], length, OnOk, Err, None};
ghost use Rattle.rpc_pdu.specs.declared.fault.EncodeFault.TheVariants as fault;
ghost use Rattle.std.specs.List.{flat_map};
ghost use Rattle.rpc_pdu.specs.Soundness.{unsound_ack, unsound_bind, unsound_body, unsound_contexts};
ghost use Rattle.rpc_pdu.specs.Spelling.{ack_octets, address_octets, bind_octets, body_octets, context_octets, encoding, header_octets, object_octets, protocol_octets, result_octets, order_octet, spelling, syntax_octets, unless_long};

use crate::EncodeFault;
use crate::draft::{put_count, put_octet, put_octets, put_passed, put_u16, put_u32, put_uuid};
use crate::soundness::unsound;
use dts_base::{Bytes, NoMemory};
use ndr::Endian;
use pdu_fields::{
    AckBody, BIG_ORDER, BindBody, Body, Context, ContextResult, HEADER_LENGTH, LITTLE_ORDER,
    MAX_FRAGMENT, Pdu, Protocol, RPC_VERS, Syntax,
};
use std::alloc::Global;
use uuid::Uuid;

fn put_syntax(out: &mut Vec<u8>, endian: Endian, syntax: &Syntax) -> Result<(), NoMemory>
    ensures { OnOk result (out.new.items ≡ out.old.items ++ syntax_octets endian syntax.now) }
{
    put_uuid(out, endian, &syntax.uuid)?;
    put_u32(out, endian, syntax.version)
}

fn put_syntaxes(out: &mut Vec<u8>, endian: Endian, syntaxes: &[Syntax]) -> Result<(), NoMemory>
    ensures { OnOk result (out.new.items ≡ out.old.items ++ flat_map (syntax_octets endian) syntaxes.now) }
{
    for item in syntaxes {
        put_syntax(out, endian, item)?;
    }
    Ok(())
}

fn put_context(out: &mut Vec<u8>, endian: Endian, context: &Context) -> Result<(), NoMemory>
    requires { length context.now.transfers ≤ 255 }
    ensures { OnOk result (out.new.items ≡ out.old.items ++ context_octets endian context.now) }
{
    let transfers = context.transfers.as_slice();
    put_u16(out, endian, context.id)?;
    put_count(out, transfers.len() as u8, 1)?;
    put_syntax(out, endian, &context.abstract_syntax)?;
    put_syntaxes(out, endian, transfers)
}

fn put_contexts(out: &mut Vec<u8>, endian: Endian, contexts: &[Context]) -> Result<(), NoMemory>
    requires { unsound_contexts contexts.now ≡ None }
    ensures { OnOk result (out.new.items ≡ out.old.items ++ flat_map (context_octets endian) contexts.now) }
{
    for item in contexts {
        put_context(out, endian, item)?;
    }
    Ok(())
}

fn put_bind(out: &mut Vec<u8>, endian: Endian, bind: &BindBody) -> Result<(), NoMemory>
    requires { unsound_bind bind.now ≡ None }
    ensures { OnOk result (out.new.items ≡ out.old.items ++ bind_octets endian bind.now) }
{
    let contexts = bind.contexts.as_slice();
    put_u16(out, endian, bind.max_xmit)?;
    put_u16(out, endian, bind.max_recv)?;
    put_u32(out, endian, bind.group)?;
    put_count(out, contexts.len() as u8, 3)?;
    put_contexts(out, endian, contexts)
}

fn put_result(out: &mut Vec<u8>, endian: Endian, answer: &ContextResult) -> Result<(), NoMemory>
    ensures { OnOk result (out.new.items ≡ out.old.items ++ result_octets endian answer.now) }
{
    put_u16(out, endian, answer.result)?;
    put_u16(out, endian, answer.reason)?;
    put_syntax(out, endian, &answer.transfer)
}

fn put_results(out: &mut Vec<u8>, endian: Endian, results: &[ContextResult]) -> Result<(), NoMemory>
    ensures { OnOk result (out.new.items ≡ out.old.items ++ flat_map (result_octets endian) results.now) }
{
    for item in results {
        put_result(out, endian, item)?;
    }
    Ok(())
}

fn put_address(out: &mut Vec<u8>, endian: Endian, ack: &AckBody) -> Result<(), NoMemory>
    requires { length ack.now.address ≤ 65535 }
    ensures { OnOk result (out.new.items ≡ out.old.items ++ address_octets endian ack.now) }
{
    let address = ack.address.as_slice();
    put_u16(out, endian, ack.max_xmit)?;
    put_u16(out, endian, ack.max_recv)?;
    put_u32(out, endian, ack.group)?;
    put_u16(out, endian, address.len() as u16)?;
    put_octets(out, address)
}

// Writes the first fields of a body.
fn put_ack(out: &mut Vec<u8>, endian: Endian, ack: &AckBody) -> Result<(), NoMemory>
    requires first { out.old.items ≡ [] }
    requires sound { unsound_ack ack.now ≡ None }
    ensures { OnOk result (out.new.items ≡ ack_octets endian ack.now) }
{
    let results = ack.results.as_slice();
    put_address(out, endian, ack)?;
    put_passed(out, (4 - out.len() % 4) % 4)?;
    put_count(out, results.len() as u8, 3)?;
    put_results(out, endian, results)
}

fn put_protocol(out: &mut Vec<u8>, protocol: &Protocol) -> Result<(), NoMemory>
    ensures { OnOk result (out.new.items ≡ out.old.items ++ protocol_octets protocol.now) }
{
    put_octet(out, protocol.major)?;
    put_octet(out, protocol.minor)
}

fn put_protocols(out: &mut Vec<u8>, protocols: &[Protocol]) -> Result<(), NoMemory>
    ensures { OnOk result (out.new.items ≡ out.old.items ++ flat_map protocol_octets protocols.now) }
{
    for item in protocols {
        put_protocol(out, item)?;
    }
    Ok(())
}

fn put_object(out: &mut Vec<u8>, endian: Endian, object: &Option<Uuid>) -> Result<(), NoMemory>
    ensures { OnOk result (out.new.items ≡ out.old.items ++ object_octets endian object.now) }
{
    match object {
        None => Ok(()),
        Some(object) => put_uuid(out, endian, object),
    }
}

// Writes what stands behind the header, as the first octets.
fn put_body(out: &mut Vec<u8>, p: &Pdu) -> Result<(), NoMemory>
    requires first { out.old.items ≡ [] }
    requires sound { unsound_body p.now.flags p.now.body ≡ None }
    ensures { OnOk result (out.new.items ≡ body_octets p.now.endian p.now.body) }
{
    match &p.body {
        Body::Request {
            hint,
            context,
            opnum,
            object,
            stub,
        } => {
            put_u32(out, p.endian, *hint)?;
            put_u16(out, p.endian, *context)?;
            put_u16(out, p.endian, *opnum)?;
            put_object(out, p.endian, object)?;
            put_octets(out, stub.as_slice())
        }
        Body::Response {
            hint,
            context,
            cancels,
            stub,
        } => {
            put_u32(out, p.endian, *hint)?;
            put_u16(out, p.endian, *context)?;
            put_count(out, *cancels, 1)?;
            put_octets(out, stub.as_slice())
        }
        Body::Fault {
            hint,
            context,
            cancels,
            status,
        } => {
            put_u32(out, p.endian, *hint)?;
            put_u16(out, p.endian, *context)?;
            put_count(out, *cancels, 1)?;
            put_u32(out, p.endian, *status)?;
            put_passed(out, 4)
        }
        Body::Bind(bind) | Body::AlterContext(bind) => put_bind(out, p.endian, bind),
        Body::BindAck(ack) | Body::AlterContextResp(ack) => put_ack(out, p.endian, ack),
        Body::BindNak { reason, protocols } => {
            let protocols = protocols.as_slice();
            put_u16(out, p.endian, *reason)?;
            put_count(out, protocols.len() as u8, 0)?;
            put_protocols(out, protocols)
        }
        Body::Shutdown | Body::CoCancel | Body::Orphaned => Ok(()),
    }
}

fn order_octet(endian: Endian) -> u8
    ensures { result ≡ order_octet endian }
{
    match endian {
        Endian::Big => BIG_ORDER,
        Endian::Little => LITTLE_ORDER,
    }
}

// Writes the header of a fragment of this length, as the first octets.
fn put_header(out: &mut Vec<u8>, p: &Pdu, length: u16) -> Result<(), NoMemory>
    requires first { out.old.items ≡ [] }
    ensures { OnOk result (out.new.items ≡ header_octets p.now length) }
{
    put_octets(
        out,
        &[
            RPC_VERS,
            p.minor,
            p.body.ptype().number(),
            p.flags,
            order_octet(p.endian),
            0,
            0,
            0,
        ],
    )?;
    put_u16(out, p.endian, length)?;
    put_u16(out, p.endian, 0)?;
    put_u32(out, p.endian, p.call_id)
}

// The spelling of a PDU that is right.
fn spell(alloc: Global, p: &Pdu) -> Result<Bytes, EncodeFault>
    requires { unsound_body p.now.flags p.now.body ≡ None }
    ensures { (result ≡ unless_long p.now) ⊎ (result ≡ Err fault.NoMemory) }
{
    let mut body = Vec::new(alloc);
    put_body(&mut body, p)?;
    let have = body.len().saturating_add(HEADER_LENGTH);
    if have > MAX_FRAGMENT {
        let have = u32::try_from(have).unwrap_or(u32::MAX);
        return Err(EncodeFault::TooLong { have });
    }
    let mut out = Vec::new(alloc);
    put_header(&mut out, p, have as u16)?;
    put_octets(&mut out, body.as_slice())?;
    Ok(Bytes::from_vec(out))
}

/// Encodes a PDU: its header and the fields of the table of its kind in its byte order, with 0 in all octets that are passed
/// over and nothing behind them. It is Unsound at the first field whose value is not right, for a list at its count: a minor
/// version above 1; an object without the flag for it, or the flag without an object; a result above 2 or a reason above 3;
/// a count that is not 1 to 16 of contexts and of answers, 1 to 8 of transfer syntaxes, at most 65,535 of an address's octets
/// and at most 255 of versions. A PDU that is right is TooLong exactly past 5,840 octets.
pub fn encode(alloc: Global, p: &Pdu) -> Result<Bytes, EncodeFault>
    ensures { (result ≡ encoding p.now) ⊎ (result ≡ Err fault.NoMemory) }
{
    match unsound(p) {
        Some(field) => Err(EncodeFault::Unsound { field }),
        None => spell(alloc, p),
    }
}
