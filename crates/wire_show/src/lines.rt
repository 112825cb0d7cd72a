//! Writes the lines of fields, one behind the other.

ghost use Rattle.std.specs.Prelude.{◌≡◌, [], ◌++◌, length, OnOk, IfOk, slice_index};
ghost use Rattle.dts_base.specs.Names.{field_name};
ghost use Rattle.ndr.specs.Numbers.{gap, number_in};
ghost use Rattle.wire_show.specs.Fields.{line_of, hex_or_dash};
ghost use Rattle.wire_show.specs.Output.{sized_fields};
ghost use Rattle.wire_show.specs.Walking.{behind, behind_fields, behind_sized, behind_times, ended};

use dts_base::{Field, NoMemory};
use itoa::Buffer;
use ndr::Endian;
use ntp_packet::PacketField;
use std::alloc::Global;
use std::marker::Model;

/// The lines of the fields of some octets, as far as they were written. Clauses see their text, and which octets are left.
#[derive(Drop)]
pub(crate) struct FieldLines<'a> {
    text: Vec<u8>,
    at: usize,
    left: &'a [u8],
}

impl<'a> Model for FieldLines<'a> {
    ghost use Rattle.std.specs.Prelude.{◌+◌, ◌^◌, ◌<◌, length};
    ghost use Rattle.wire_show.specs.Walking.{Walk};

    ghost Value = { Walk };

    ghost view = { λ w. record { text = w.text.items; at = w.at; left = w.left.now } };

    ghost invariant = { λ w. w.at + length w.left.now < 2 ^ 64 };
}

impl<'a> FieldLines<'a> {
    /// No line, and all octets are left.
    pub(crate) fn new(alloc: Global, octets: &'a [u8]) -> FieldLines<'a>
        ensures { result ≡ record { text = []; at = 0; left = octets.now } }
    {
        FieldLines {
            text: Vec::new(alloc),
            at: 0,
            left: octets,
        }
    }

    /// The first octet that is left, or 0 where none is.
    pub(crate) fn front(&self) -> u8
        ensures { result ≡ slice_index self.now.left 0 }
    {
        self.left.first().copied().unwrap_or(0)
    }

    /// The number that the first two octets are that are left.
    pub(crate) fn front_number(&self, endian: Endian) -> u16
        ensures { result ≡ number_in endian 2 self.now.left }
    {
        let first = self.left.first().copied().unwrap_or(0);
        let second = self.left.get(1).copied().unwrap_or(0);
        match endian {
            Endian::Big => u16::from(first) * 256 + u16::from(second),
            Endian::Little => u16::from(second) * 256 + u16::from(first),
        }
    }

    /// How many octets stand up to the next multiple of 4.
    pub(crate) fn gap(&self) -> usize
        ensures { result ≡ gap 4 self.now.at }
    {
        (4 - self.at % 4) % 4
    }

    /// Writes the line of the next octets, under a name.
    pub(crate) fn part(&mut self, name: &str, size: usize) -> Result<(), NoMemory>
        ensures { OnOk result (self.new ≡ behind name.now size self.old) }
    {
        let (octets, left) = self.left.split_at(size.min(self.left.len()));
        push_line(&mut self.text, self.at, name, octets)?;
        self.left = left;
        self.at += octets.len();
        Ok(())
    }

    /// Writes the line of a field.
    pub(crate) fn field(&mut self, name: Field, size: usize) -> Result<(), NoMemory>
        ensures { OnOk result (self.new ≡ behind (field_name name) size self.old) }
    {
        self.part(name.name(), size)
    }

    /// Writes the line of a field that takes all octets that are left.
    pub(crate) fn rest(&mut self, name: Field) -> Result<(), NoMemory>
        ensures { OnOk result (self.new ≡ behind (field_name name) (length self.old.left) self.old) }
    {
        self.field(name, self.left.len())
    }

    /// Writes the lines of fields, one behind the other.
    pub(crate) fn fields(&mut self, fields: &[(Field, usize)]) -> Result<(), NoMemory>
        ensures { OnOk result (self.new ≡ behind_fields fields.now self.old) }
    {
        for (name, size) in fields {
            self.field(*name, *size)?;
        }
        Ok(())
    }

    /// Writes the lines of fields of a packet, one behind the other.
    pub(crate) fn packet_fields(&mut self, fields: &[PacketField]) -> Result<(), NoMemory>
        ensures { OnOk result (self.new ≡ behind_sized (sized_fields fields.now) self.old) }
    {
        for field in fields {
            self.part(field.name(), field.size())?;
        }
        Ok(())
    }

    /// Writes the lines of fields so many times.
    pub(crate) fn repeat(&mut self, fields: &[(Field, usize)], count: u8) -> Result<(), NoMemory>
        ensures { OnOk result (self.new ≡ behind_times count fields.now self.old) }
    {
        for _done in 0..count {
            self.fields(fields)?;
        }
        Ok(())
    }

    /// Writes the line of the octets that are left, where there are any, and gives the text.
    pub(crate) fn end(mut self) -> Result<Vec<u8>, NoMemory>
        ensures { IfOk result (λ text. text.items ≡ ended self.entry) }
    {
        if !self.left.is_empty() {
            self.rest(Field::Tail)?;
        }
        Ok(self.text)
    }
}

// Adds a line: an offset, a name and octets in hex, in lower case, or a dash where there are none.
fn push_line(text: &mut Vec<u8>, at: usize, name: &str, octets: &[u8]) -> Result<(), NoMemory>
    ensures { OnOk result (text.new.items ≡ text.old.items ++ line_of (record { name = name.now; at = at; octets = octets.now })) }
{
    let mut buffer = Buffer::new();
    text.extend_from_slice(buffer.format(at).as_bytes())?;
    text.push(b' ')?;
    text.extend_from_slice(name.as_bytes())?;
    text.push(b' ')?;
    push_octets(text, octets)?;
    text.push(b'\n')?;
    Ok(())
}

// Adds octets in hex, in lower case, or a dash where there are none.
fn push_octets(text: &mut Vec<u8>, octets: &[u8]) -> Result<(), NoMemory>
    ensures { OnOk result (text.new.items ≡ text.old.items ++ hex_or_dash octets.now) }
{
    if octets.is_empty() {
        text.push(b'-')?;
        return Ok(());
    }
    let alloc = *text.allocator();
    let digits = hex::encode(alloc, octets)?;
    text.extend_from_slice(digits.as_bytes())?;
    Ok(())
}
