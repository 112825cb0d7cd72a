ghost use Rattle.std.specs.Prelude.{◌≡◌, ◌+◌, ◌≤◌, ◌≢◌, IfOk, IfErr, Err};
ghost use Rattle.dts_base.specs.declared.wire.Field.TheVariants as field;
ghost use Rattle.dts_base.specs.declared.wire.WireCause.TheVariants as cause;
ghost use Rattle.ndr.specs.declared.endian.Endian.{Endian};
ghost use Rattle.ndr.specs.Stubs.{a_number, some_octets};
ghost use Rattle.utc_value.specs.Octets.{octets_of};
ghost use Rattle.time_wire.specs.Layouts.{octet_between, timestamp, wire_version};
ghost use Rattle.time_wire.specs.Layouts.{get_time, time_reply, get_info, info_reply, command, command_reply};
ghost use Rattle.time_wire.specs.Spelling.{Decodes, Reads};
ghost use Rattle.time_wire.specs.Parts.{Takes, lent_info, lent_command, lent_reply};

use crate::{
    CommandReply, GetTime, InfoReply, MAX_COURIER, MAX_ROLE, TimeReply, UTC_SIZE, WIRE_VERSION,
};
use dts_base::{Field, Refused, Text, WireCause};
use ndr::{DecodeFault, Endian, Reader};
use std::alloc::Global;
use utc_value::Utc;

// Where those fields begin that are not right with every value.
const WIRE_VERSION_PLACE: u32 = 0;

const ROLE_PLACE: u32 = 1;

const COURIER_PLACE: u32 = 2;

const UTC_PLACE: u32 = 2;

/// What get_time is asked with, from its stub. It never needs memory.
pub fn decode_get_time(_alloc: Global, b: &[u8], e: Endian) -> Result<GetTime, DecodeFault>
    ensures decoded { Decodes get_time e b.now result }
    ensures memory { result ≢ Err DecodeFault.NoMemory }
{
    Ok(read_get_time(b, e)?)
}

/// What get_time is answered with, from its stub. A version other than 1 and octets that are no timestamp are a
/// wrong Value. It never needs memory.
pub fn decode_time_reply(_alloc: Global, b: &[u8], e: Endian) -> Result<TimeReply, DecodeFault>
    ensures decoded { Decodes time_reply e b.now result }
    ensures memory { result ≢ Err DecodeFault.NoMemory }
{
    Ok(read_time_reply(b, e)?)
}

/// get_info is asked with nothing: an octet is Extra at Tail, at offset 0.
pub fn decode_get_info(b: &[u8]) -> Result<(), Refused>
    ensures read { (e : Endian) → Reads get_info e b.now result }
    ensures extra { IfErr result (λ refused. refused ≡ record { field = field.Tail; offset = 0; cause = cause.Extra }) }
{
    Reader::new(b, Endian::Little).finish()
}

/// What get_info is answered with, from its stub. A version other than 1, and a role or a courier that is
/// neither 0 nor 1, are a wrong Value. A refusal of the name names the part of the string.
pub fn decode_info_reply(alloc: Global, b: &[u8], e: Endian) -> Result<InfoReply, DecodeFault>
    ensures { Decodes info_reply e b.now result }
{
    let parts = read_info_reply(b, e)?;
    Ok(InfoReply {
        role: parts.role,
        courier: parts.courier,
        epoch: parts.epoch,
        number: parts.number,
        step: parts.step,
        name: Text::from_slice(alloc, parts.name)?,
    })
}

/// The text that command is asked with, from its stub. A refusal names the part of the string.
pub fn decode_command(alloc: Global, b: &[u8], e: Endian) -> Result<Text, DecodeFault>
    ensures { Decodes command e b.now result }
{
    let text = read_command(b, e)?;
    Ok(Text::from_slice(alloc, text)?)
}

/// What command is answered with, from its stub. A refusal of the text names the part of the string.
pub fn decode_command_reply(alloc: Global, b: &[u8], e: Endian) -> Result<CommandReply, DecodeFault>
    ensures { Decodes command_reply e b.now result }
{
    let (text, status) = read_command_reply(b, e)?;
    Ok(CommandReply {
        text: Text::from_slice(alloc, text)?,
        status,
    })
}

// The fields behind the version of what get_info is answered with; the name is lent.
#[derive(Drop)]
struct InfoParts<'a> {
    role: u8,
    courier: u8,
    epoch: u8,
    number: u64,
    step: u64,
    name: &'a [u8],
}

fn read_get_time(b: &[u8], e: Endian) -> Result<GetTime, Refused>
    ensures { Reads get_time e b.now result }
{
    let mut reader = Reader::new(b, e);
    let epoch = reader.u8(Field::Epoch)?;
    reader.finish()?;
    Ok(GetTime { epoch })
}

fn read_time_reply(b: &[u8], e: Endian) -> Result<TimeReply, Refused>
    ensures { Reads time_reply e b.now result }
{
    let mut reader = Reader::new(b, e);
    let version = read_version(&mut reader)?;
    let epoch = reader.u8(Field::Epoch)?;
    let utc = read_timestamp(&mut reader, UTC_PLACE)?;
    let status = reader.u32(Field::Status)?;
    reader.finish()?;
    Ok(TimeReply {
        version,
        epoch,
        utc,
        status,
    })
}

fn read_info_reply<'a>(b: &'a [u8], e: Endian) -> Result<InfoParts<'a>, Refused>
    ensures { Reads lent_info e b.now result }
{
    let mut reader = Reader::new(b, e);
    read_version(&mut reader)?;
    let role = octet_between(&mut reader, Field::Role, ROLE_PLACE, 0, MAX_ROLE)?;
    let courier = octet_between(&mut reader, Field::Courier, COURIER_PLACE, 0, MAX_COURIER)?;
    let epoch = reader.u8(Field::Epoch)?;
    let number = reader.u64(Field::Number)?;
    let step = reader.u64(Field::StepNumber)?;
    let name = reader.string(Field::StringOctets)?;
    reader.finish()?;
    Ok(InfoParts {
        role,
        courier,
        epoch,
        number,
        step,
        name,
    })
}

fn read_command(b: &[u8], e: Endian) -> Result<&[u8], Refused>
    ensures { Reads lent_command e b.now result }
{
    let mut reader = Reader::new(b, e);
    let text = reader.string(Field::StringOctets)?;
    reader.finish()?;
    Ok(text)
}

fn read_command_reply(b: &[u8], e: Endian) -> Result<(&[u8], u32), Refused>
    ensures { Reads lent_reply e b.now result }
{
    let mut reader = Reader::new(b, e);
    let text = reader.string(Field::StringOctets)?;
    let status = reader.u32(Field::Status)?;
    reader.finish()?;
    Ok((text, status))
}

// The version with which a stub begins.
fn read_version(reader: &mut Reader) -> Result<u8, Refused>
    requires { reader.old.at ≡ WIRE_VERSION_PLACE }
    ensures read { Takes wire_version a_number reader.old reader.new result }
    ensures place { IfOk result (λ _. reader.new.at ≡ reader.old.at + 1) }
    ensures right { IfOk result (λ version. version ≡ WIRE_VERSION) }
{
    octet_between(
        reader,
        Field::WireVersion,
        WIRE_VERSION_PLACE,
        WIRE_VERSION,
        WIRE_VERSION,
    )
}

// An octet from the least to the most, where the reader stands at the place.
fn octet_between(
    reader: &mut Reader,
    field: Field,
    place: u32,
    least: u8,
    most: u8,
) -> Result<u8, Refused>
    requires { reader.old.at ≡ place }
    ensures read { Takes (octet_between field least most) a_number reader.old reader.new result }
    ensures place { IfOk result (λ _. reader.new.at ≡ reader.old.at + 1) }
    ensures right { IfOk result (λ octet. (least ≤ octet) × (octet ≤ most)) }
{
    let octet = reader.u8(field)?;
    if octet < least || octet > most {
        return Err(wrong_value(field, place));
    }
    Ok(octet)
}

// A timestamp, where the reader stands at the place.
fn read_timestamp(reader: &mut Reader, place: u32) -> Result<Utc, Refused>
    requires { reader.old.at ≡ place }
    ensures { Takes timestamp (λ utc. some_octets (octets_of utc)) reader.old reader.new result }
{
    let lent = reader.octets(Field::UtcOctets, UTC_SIZE)?;
    let mut octets = [0; UTC_SIZE];
    octets.copy_from_slice(lent);
    match Utc::from_bytes(octets) {
        Ok(utc) => Ok(utc),
        Err(_) => Err(wrong_value(Field::UtcOctets, place)),
    }
}

// A field at a place has a value that is not right.
fn wrong_value(field: Field, place: u32) -> Refused
    ensures { result ≡ record { field = field; offset = place; cause = WireCause.Value } }
{
    Refused {
        field,
        offset: place,
        cause: WireCause::Value,
    }
}
