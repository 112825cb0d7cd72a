//! What a server answers to a call.

ghost use Rattle.std.specs.Prelude.{◌≡◌, ◌≤◌, IfOk, IfErr, IsTrue, Ok, pos};
ghost use Rattle.ndr.specs.declared.fault.WriteFault.TheVariants as unwritten;
ghost use Rattle.roster.specs.Values.{is_name};
ghost use Rattle.utc_value.specs.Stamp.{absolute_stamp};
ghost use Rattle.server_roles.specs.Answering.{shown, answered, time_answer, info_answer, command_answer, time_of, info_of, epoch_status, role_number, flag_number};

use crate::texts::reply_to;
use crate::{Answer, COMMAND, Counts, GET_INFO, GET_TIME, OTHER_EPOCH_STATUS, RIGHT_STATUS};
use dts_base::{Bytes, NoMemory, Text};
use ndr::{DecodeFault, Endian, WriteFault};
use roster::{Role, Roster};
use slew_clock::Reading;
use std::alloc::Global;
use time_wire::{
    InfoReply, TimeReply, WIRE_VERSION, decode_command, decode_get_info, decode_get_time,
    encode_command_reply, encode_info_reply, encode_time_reply,
};
use utc_value::Utc;

/// What a server answers to a call of one of the three operations, over a reading of its clock and the counts of its lane:
/// the stub of the reply, in the byte order of the call, or the first wrong field of the call's stub.
///
/// get_time is answered with the reading and the node's epoch; the status is 1 exactly where the call has another epoch.
/// get_info is answered with what the node is and the numbers of the reading's record and step. command is answered with
/// a text: `show time` with `time VALUE INACC STEP RECORD`, with `-` for an unspecified inaccuracy; `show settings` with
/// `settings NAME ROLE epoch E required R drift D resolution G lease L slew S tolerance T`; `show counts` with
/// `counts LANE asks A refused R connections C`, each with status 0; and any other text with `unknown command` and
/// status 1. Times are in units of 100 ns, and drift and slew in parts per million.
pub fn answer(
    alloc: Global,
    r: &Roster,
    c: &Counts,
    rd: &Reading,
    opnum: u16,
    stub: &[u8],
    e: Endian,
) -> Result<Answer, NoMemory>
    requires opnum { opnum ≤ COMMAND }
    requires named { IsTrue (is_name r.now.settings.name) }
    ensures answered { IfOk result (λ a. a ≡ answered r.now c.now (shown rd.now) opnum stub.now e) }
{
    if opnum == GET_TIME {
        time_answer(alloc, r, rd, stub, e)
    } else if opnum == GET_INFO {
        info_answer(alloc, r, rd, stub, e)
    } else {
        command_answer(alloc, r, c, rd, stub, e)
    }
}

// What get_time is answered with.
fn time_answer(
    alloc: Global,
    r: &Roster,
    rd: &Reading,
    stub: &[u8],
    e: Endian,
) -> Result<Answer, NoMemory>
    ensures { IfOk result (λ a. a ≡ time_answer r.now (shown rd.now) stub.now e) }
{
    let asked = match decode_get_time(alloc, stub, e) {
        Ok(asked) => asked.epoch,
        Err(DecodeFault::Wrong(refused)) => return Ok(Answer::Wrong(refused)),
        Err(DecodeFault::NoMemory) => return Err(NoMemory),
    };
    let reply = time_of(r, rd, asked);
    Ok(Answer::Stub(written(encode_time_reply(alloc, &reply, e))?))
}

// The reading for a node of this epoch.
fn time_of(r: &Roster, rd: &Reading, asked: u8) -> TimeReply
    ensures { result ≡ time_of r.now (shown rd.now) asked }
{
    let epoch = r.settings().epoch;
    TimeReply {
        version: WIRE_VERSION,
        epoch,
        utc: timestamp(rd),
        status: epoch_status(epoch, asked),
    }
}

// The reading as a timestamp without a time differential factor.
fn timestamp(rd: &Reading) -> Utc
    ensures { result ≡ absolute_stamp rd.now.value rd.now.inaccuracy (pos 0) }
{
    Utc::absolute(rd.value, rd.inaccuracy, 0).unwrap()
}

// Whether a node of another epoch asked.
fn epoch_status(own: u8, asked: u8) -> u32
    ensures { result ≡ epoch_status own asked }
{
    if own == asked {
        RIGHT_STATUS
    } else {
        OTHER_EPOCH_STATUS
    }
}

// What get_info is answered with.
fn info_answer(
    alloc: Global,
    r: &Roster,
    rd: &Reading,
    stub: &[u8],
    e: Endian,
) -> Result<Answer, NoMemory>
    requires { IsTrue (is_name r.now.settings.name) }
    ensures { IfOk result (λ a. a ≡ info_answer r.now (shown rd.now) stub.now e) }
{
    if let Err(refused) = decode_get_info(stub) {
        return Ok(Answer::Wrong(refused));
    }
    let reply = info_of(alloc, r, rd)?;
    Ok(Answer::Stub(written(encode_info_reply(alloc, &reply, e))?))
}

// What the node is, and the record of the reading.
fn info_of(alloc: Global, r: &Roster, rd: &Reading) -> Result<InfoReply, NoMemory>
    ensures { IfOk result (λ reply. reply ≡ info_of r.now (shown rd.now)) }
{
    let settings = r.settings();
    Ok(InfoReply {
        role: role_number(settings.role),
        courier: u8::from(settings.courier),
        epoch: settings.epoch,
        number: rd.number,
        step: rd.step,
        name: Text::from_slice(alloc, settings.name.as_slice())?,
    })
}

// The number of a role in a stub.
fn role_number(role: Role) -> u8
    ensures { result ≡ role_number role }
{
    match role {
        Role::Clerk => 0,
        Role::Server => 1,
    }
}

// What command is answered with.
fn command_answer(
    alloc: Global,
    r: &Roster,
    c: &Counts,
    rd: &Reading,
    stub: &[u8],
    e: Endian,
) -> Result<Answer, NoMemory>
    requires { IsTrue (is_name r.now.settings.name) }
    ensures { IfOk result (λ a. a ≡ command_answer r.now c.now (shown rd.now) stub.now e) }
{
    let command = match decode_command(alloc, stub, e) {
        Ok(command) => command,
        Err(DecodeFault::Wrong(refused)) => return Ok(Answer::Wrong(refused)),
        Err(DecodeFault::NoMemory) => return Err(NoMemory),
    };
    let reply = reply_to(alloc, r, c, rd, command.as_slice())?;
    Ok(Answer::Stub(written(encode_command_reply(alloc, &reply, e))?))
}

// The stub that was written, of texts that can be strings.
fn written(stub: Result<Bytes, WriteFault>) -> Result<Bytes, NoMemory>
    requires { IfErr stub (λ fault. fault ≡ unwritten.NoMemory) }
    ensures { IfOk result (λ octets. stub ≡ Ok octets) }
{
    match stub {
        Ok(octets) => Ok(octets),
        Err(WriteFault::NoMemory) => Err(NoMemory),
        Err(WriteFault::TooLong { .. } | WriteFault::StringValue) => unreachable!(),
    }
}
