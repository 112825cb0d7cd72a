ghost use Rattle.std.specs.Prelude.{◌≤◌, true, length};
ghost use Rattle.std.specs.List.{list_all};
ghost use Rattle.ndr.specs.Strings.{is_text};
ghost use Rattle.ndr.specs.Writing.{AppendsText};
ghost use Rattle.ndr.specs.Strings.{string_octets};
ghost use Rattle.time_wire.specs.Layouts.{get_time, time_reply, info_reply, command, command_reply};
ghost use Rattle.time_wire.specs.Spelling.{Writes, spelling};
ghost use Rattle.time_wire.specs.Parts.{is_written, parts_octets, Puts};

use crate::{CommandReply, GetTime, InfoReply, TimeReply, WIRE_VERSION};
use dts_base::Bytes;
use ndr::{Endian, WriteFault, Writer};
use std::alloc::Global;
use utc_value::Utc;

// The most fields of a stub.
const MAX_PARTS: usize = 8;

// A value in a stub.
#[derive(Drop)]
enum Part<'a> {
    Octet(u8),
    Long(u32),
    Hyper(u64),
    Timestamp(Utc),
    String(&'a [u8]),
}

/// The stub with which get_time is asked: an epoch of one octet.
pub fn encode_get_time(alloc: Global, v: &GetTime, e: Endian) -> Result<Bytes, WriteFault>
    ensures { Writes true (spelling get_time e v.now) result }
{
    encoded(alloc, e, &[Part::Octet(v.epoch)])
}

/// The stub with which get_time is answered, of 24 octets. Each value is written: the stub reads back where the
/// version is 1.
pub fn encode_time_reply(alloc: Global, v: &TimeReply, e: Endian) -> Result<Bytes, WriteFault>
    ensures { Writes true (spelling time_reply e v.now) result }
{
    encoded(
        alloc,
        e,
        &[
            Part::Octet(v.version),
            Part::Octet(v.epoch),
            Part::Timestamp(v.utc),
            Part::Long(v.status),
        ],
    )
}

/// The stub with which get_info is answered. It is StringValue exactly where the name has an octet outside 0x20
/// to 0x7E or more than 1,023 octets. Each number is written: the stub reads back where role and courier are 0
/// or 1.
pub fn encode_info_reply(alloc: Global, v: &InfoReply, e: Endian) -> Result<Bytes, WriteFault>
    ensures { Writes (is_text v.now.name) (spelling info_reply e v.now) result }
{
    encoded(
        alloc,
        e,
        &[
            Part::Octet(WIRE_VERSION),
            Part::Octet(v.role),
            Part::Octet(v.courier),
            Part::Octet(v.epoch),
            Part::Hyper(v.number),
            Part::Hyper(v.step),
            Part::String(v.name.as_slice()),
        ],
    )
}

/// The stub with which command is asked: a text. It is StringValue exactly where the text has an octet outside
/// 0x20 to 0x7E or more than 1,023 octets.
pub fn encode_command(alloc: Global, v: &str, e: Endian) -> Result<Bytes, WriteFault>
    ensures { Writes (is_text v.now) (spelling command e v.now) result }
{
    encoded(alloc, e, &[Part::String(v.as_bytes())])
}

/// The stub with which command is answered: a text, which is refused as one of [`encode_command`], and a status
/// of four octets.
pub fn encode_command_reply(alloc: Global, v: &CommandReply, e: Endian) -> Result<Bytes, WriteFault>
    ensures { Writes (is_text v.now.text) (spelling command_reply e v.now) result }
{
    encoded(
        alloc,
        e,
        &[Part::String(v.text.as_slice()), Part::Long(v.status)],
    )
}

// The stub of these values.
fn encoded(alloc: Global, e: Endian, parts: &[Part]) -> Result<Bytes, WriteFault>
    requires { length parts.now ≤ MAX_PARTS }
    ensures { Writes (list_all is_written parts.now) (parts_octets e 0 parts.now) result }
{
    let mut writer = Writer::new(alloc, e)?;
    for part in parts {
        put(alloc, &mut writer, part)?;
    }
    Ok(writer.done())
}

// Appends a value to a stub.
fn put(alloc: Global, writer: &mut Writer, part: &Part) -> Result<(), WriteFault>
    ensures { Puts part.now writer.old writer.new result }
{
    match part {
        Part::Octet(v) => writer.u8(alloc, *v),
        Part::Long(v) => writer.u32(alloc, *v),
        Part::Hyper(v) => writer.u64(alloc, *v),
        Part::Timestamp(v) => writer.octets(alloc, &v.to_bytes()),
        Part::String(v) => put_text(alloc, writer, v),
    }
}

// Appends a string. What is no text in UTF-8 is no string.
fn put_text(alloc: Global, writer: &mut Writer, text: &[u8]) -> Result<(), WriteFault>
    ensures { AppendsText text.now (string_octets writer.old.endian (length writer.old.octets) text.now) writer.old writer.new result }
{
    let Ok(text) = str::from_utf8(text) else {
        return Err(WriteFault::StringValue);
    };
    writer.string(alloc, text)
}
