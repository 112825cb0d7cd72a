ghost use Rattle.std.specs.Prelude.{◌≡◌, ◌^◌, ◌<◌, ◌≤◌, [], length, IfOk};
ghost use Rattle.ndr.specs.Numbers.{IsSize, aligned_octets};
ghost use Rattle.ndr.specs.Strings.{string_octets};
ghost use Rattle.ndr.specs.Writing.{Appends, AppendsText};

use crate::reader::{COUNT_SIZE, gap, is_printed};
use crate::{Endian, MAX_STRING, MAX_STUB, WriteFault};
use dts_base::{Bytes, NoMemory};
use std::alloc::Global;
use std::marker::Model;

// The room of the greatest number and its gap, and that of the counts of a string and their gap.
const NUMBER_ROOM: usize = 16;

const COUNTS_ROOM: usize = 16;

/// Octets of a stub that are written field by field. Clauses see the octets and their byte order. After a
/// fault the writer is as it was.
#[derive(Debug, Drop)]
pub struct Writer {
    octets: Vec<u8>,
    endian: Endian,
}

impl Model for Writer {
    ghost use Rattle.std.specs.Prelude.{◌≤◌, length};
    ghost use Rattle.ndr.specs.declared.endian.TheConstants.{MAX_STUB};
    ghost use Rattle.ndr.specs.Writing.{Draft};

    ghost Value = { Draft };

    ghost view = { λ w. record { endian = w.endian; octets = w.octets.items } };

    ghost invariant = { λ w. length w.octets.items ≤ MAX_STUB };
}

impl Writer {
    /// A writer of an empty stub.
    pub fn new(alloc: Global, e: Endian) -> Result<Writer, NoMemory>
        ensures empty { IfOk result (λ w. w ≡ record { endian = e; octets = [] }) }
    {
        Ok(Writer {
            octets: Vec::new(alloc),
            endian: e,
        })
    }

    /// Appends a number of one octet. Like each call it is TooLong exactly where the stub would pass 65,536
    /// octets.
    pub fn u8(&mut self, _alloc: Global, v: u8) -> Result<(), WriteFault>
        ensures number { Appends (aligned_octets self.old.endian 1 (length self.old.octets) v) self.old self.new result }
    {
        self.number(1, u64::from(v))
    }

    /// Appends a number of two octets, behind a gap of zeros up to a multiple of 2.
    pub fn u16(&mut self, _alloc: Global, v: u16) -> Result<(), WriteFault>
        ensures number { Appends (aligned_octets self.old.endian 2 (length self.old.octets) v) self.old self.new result }
    {
        self.number(2, u64::from(v))
    }

    /// Appends a number of four octets, behind a gap of zeros up to a multiple of 4.
    pub fn u32(&mut self, _alloc: Global, v: u32) -> Result<(), WriteFault>
        ensures number { Appends (aligned_octets self.old.endian 4 (length self.old.octets) v) self.old self.new result }
    {
        self.number(4, u64::from(v))
    }

    /// Appends a number of eight octets, behind a gap of zeros up to a multiple of 8.
    pub fn u64(&mut self, _alloc: Global, v: u64) -> Result<(), WriteFault>
        ensures number { Appends (aligned_octets self.old.endian 8 (length self.old.octets) v) self.old self.new result }
    {
        self.number(8, v)
    }

    /// Appends these octets, without a gap.
    pub fn octets(&mut self, _alloc: Global, v: &[u8]) -> Result<(), WriteFault>
        ensures octets { Appends v.now self.old self.new result }
    {
        self.append(v)
    }

    /// Appends a string: its counts, the octets of the text and a last 0. It is StringValue exactly where the
    /// text has an octet outside 0x20 to 0x7E or more than 1,023 octets, which is tested first.
    pub fn string(&mut self, alloc: Global, v: &str) -> Result<(), WriteFault>
        ensures string { AppendsText v.now (string_octets self.old.endian (length self.old.octets) v.now) self.old self.new result }
    {
        let text = v.as_bytes();
        if text.len() >= MAX_STRING || !is_printed(text) {
            return Err(WriteFault::StringValue);
        }
        let piece = string_piece(alloc, self.endian, self.octets.len(), text)?;
        self.append(piece.as_slice())
    }

    /// Gives the octets up, in the memory that they have.
    pub fn done(self) -> Bytes
        ensures octets { result ≡ self.octets }
    {
        Bytes::from_vec(self.octets)
    }

    // Appends a number of this size behind its gap.
    fn number(&mut self, size: usize, number: u64) -> Result<(), WriteFault>
        requires size { IsSize size }
        requires fits { number < 256 ^ size }
        ensures number { Appends (aligned_octets self.old.endian size (length self.old.octets) number) self.old self.new result }
    {
        let gap = gap(self.octets.len(), size);
        let mut piece = [0; NUMBER_ROOM];
        self.endian.put(&mut piece, gap, number, size);
        self.append(&piece[..gap + size])
    }

    fn append(&mut self, piece: &[u8]) -> Result<(), WriteFault>
        ensures appended { Appends piece.now self.old self.new result }
    {
        let have = self.octets.len().saturating_add(piece.len());
        if have > MAX_STUB {
            let have = u32::try_from(have).unwrap_or(u32::MAX);
            return Err(WriteFault::TooLong { have });
        }
        self.octets.extend_from_slice(piece)?;
        Ok(())
    }
}

// The octets of a string behind a place.
fn string_piece(alloc: Global, endian: Endian, at: usize, text: &[u8]) -> Result<Vec<u8>, NoMemory>
    requires { length text.now < MAX_STRING }
    ensures octets { IfOk result (λ piece. piece.items ≡ string_octets endian at text.now) }
{
    let count = text.len() as u64 + 1;
    let gap = gap(at, COUNT_SIZE);
    let mut counts = [0; COUNTS_ROOM];
    endian.put(&mut counts, gap, count, COUNT_SIZE);
    endian.put(&mut counts, gap + COUNT_SIZE, 0, COUNT_SIZE);
    endian.put(&mut counts, gap + 2 * COUNT_SIZE, count, COUNT_SIZE);
    let mut piece = Vec::new(alloc);
    piece.extend_from_slice(&counts[..gap + 3 * COUNT_SIZE])?;
    piece.extend_from_slice(text)?;
    piece.push(0)?;
    Ok(piece)
}
