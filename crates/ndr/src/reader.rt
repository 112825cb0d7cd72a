ghost use Rattle.std.specs.Prelude.{◌≡◌, ◌^◌, ◌<◌, ◌≤◌, length, Ok, Err, MatchResult};
ghost use Rattle.std.specs.List.{list_all};
ghost use Rattle.ndr.specs.Numbers.{IsSize, gap};
ghost use Rattle.ndr.specs.Strings.{is_printed};
ghost use Rattle.ndr.specs.Reading.{Reads, Lends, read_number, read_octets, read_count, read_text, read_string, finish, refusal};

use crate::{Endian, FIRST_PRINTED, LAST_PRINTED, MAX_STRING};
use dts_base::{Field, Refused, WireCause};
use std::marker::Model;

// The size of the counts of a string.
pub(crate) const COUNT_SIZE: usize = 4;

/// Octets of a stub that are read field by field. Clauses see the whole stub, its byte order and how many
/// octets were read. After a refusal the reader is as it was.
#[derive(Debug, Drop)]
pub struct Reader<'a> {
    stub: &'a [u8],
    at: usize,
    endian: Endian,
}

impl<'a> Model for Reader<'a> {
    ghost use Rattle.std.specs.Prelude.{◌≤◌, length};
    ghost use Rattle.ndr.specs.Reading.{Cursor};

    ghost Value = { Cursor };

    ghost view = { λ r. record { endian = r.endian; stub = r.stub.now; at = r.at } };

    ghost invariant = { λ r. r.at ≤ length r.stub.now };
}

impl<'a> Reader<'a> {
    /// A reader of these octets, which are lent, from the first one on.
    pub fn new(b: &'a [u8], e: Endian) -> Reader<'a>
        ensures first { result ≡ record { endian = e; stub = b.now; at = 0 } }
    {
        Reader {
            stub: b,
            at: 0,
            endian: e,
        }
    }

    /// A number of one octet. It is Short exactly where no octet is left.
    pub fn u8(&mut self, f: Field) -> Result<u8, Refused>
        ensures number { Reads self.old self.new result (read_number f 1 self.old) }
    {
        let (number, end) = self.number(f, 1)?;
        self.at = end;
        Ok(number as u8)
    }

    /// A number of two octets behind a gap up to a multiple of 2. It is Short exactly where it or its gap is
    /// not whole, at the offset behind the gap.
    pub fn u16(&mut self, f: Field) -> Result<u16, Refused>
        ensures number { Reads self.old self.new result (read_number f 2 self.old) }
    {
        let (number, end) = self.number(f, 2)?;
        self.at = end;
        Ok(number as u16)
    }

    /// A number of four octets behind a gap up to a multiple of 4, refused as one of two.
    pub fn u32(&mut self, f: Field) -> Result<u32, Refused>
        ensures number { Reads self.old self.new result (read_number f 4 self.old) }
    {
        let (number, end) = self.number(f, 4)?;
        self.at = end;
        Ok(number as u32)
    }

    /// A number of eight octets behind a gap up to a multiple of 8, refused as one of two.
    pub fn u64(&mut self, f: Field) -> Result<u64, Refused>
        ensures number { Reads self.old self.new result (read_number f 8 self.old) }
    {
        let (number, end) = self.number(f, 8)?;
        self.at = end;
        Ok(number)
    }

    /// Lends the next `n` octets, without a gap. They are Short exactly where fewer are left.
    pub fn octets(&mut self, f: Field, n: usize) -> Result<&'a [u8], Refused>
        ensures octets { Lends self.old self.new result (read_octets f n self.old) }
    {
        let rest = &self.stub[self.at..];
        if n > rest.len() {
            return Err(refused(f, self.at, WireCause::Short));
        }
        self.at += n;
        Ok(&rest[..n])
    }

    /// Lends the octets of a string without its last 0. The counts before them are numbers of four octets. A
    /// refusal names the part of the string, and not the field that is passed, which is the caller's name of
    /// the whole: MaxCount, StringOffset, ActualCount or StringOctets, Short or of a wrong Value.
    pub fn string(&mut self, _f: Field) -> Result<&'a [u8], Refused>
        ensures string { Lends self.old self.new result (read_string self.old) }
    {
        let mut ahead = Reader {
            stub: self.stub,
            at: self.at,
            endian: self.endian,
        };
        let most = ahead.count(Field::MaxCount, 1, u32::MAX)?;
        ahead.count(Field::StringOffset, 0, 0)?;
        let count = ahead.count(Field::ActualCount, 1, most.min(MAX_STRING as u32))?;
        let text = ahead.text(count as usize)?;
        *self = ahead;
        Ok(text)
    }

    /// Ends the reading. A further octet is Extra at Tail.
    pub fn finish(self) -> Result<(), Refused>
        ensures end { result ≡ finish self.entry }
    {
        if self.at < self.stub.len() {
            return Err(refused(Field::Tail, self.at, WireCause::Extra));
        }
        Ok(())
    }

    // The number of this size that stands next, and the place behind it.
    fn number(&self, f: Field, size: usize) -> Result<(u64, usize), Refused>
        requires { IsSize size }
        ensures read { MatchResult result (λ r. read_number f size self.now ≡ Ok (r.0, record self.now { at = r.1 })) (λ e. read_number f size self.now ≡ Err e) }
        ensures fits { MatchResult result (λ r. (r.0 < 256 ^ size) × (r.1 ≤ length self.now.stub)) (λ e. Unit {0}) }
    {
        let gap = gap(self.at, size);
        let rest = &self.stub[self.at..];
        if gap + size > rest.len() {
            return Err(refused(f, self.at.saturating_add(gap), WireCause::Short));
        }
        let number = self.endian.number(&rest[gap..], size);
        Ok((number, self.at + gap + size))
    }

    // A number of four octets that is at least the one and at most the other.
    fn count(&mut self, f: Field, least: u32, most: u32) -> Result<u32, Refused>
        ensures count { Reads self.old self.new result (read_count f least most self.old) }
    {
        let (number, end) = self.number(f, COUNT_SIZE)?;
        let number = number as u32;
        if number < least || number > most {
            return Err(refused(f, end - COUNT_SIZE, WireCause::Value));
        }
        self.at = end;
        Ok(number)
    }

    // The octets of a string, of which there are so many, without the last 0.
    fn text(&mut self, count: usize) -> Result<&'a [u8], Refused>
        requires { 0 < count }
        ensures text { Lends self.old self.new result (read_text count self.old) }
    {
        let start = self.at;
        let mut ahead = Reader {
            stub: self.stub,
            at: self.at,
            endian: self.endian,
        };
        let octets = ahead.octets(Field::StringOctets, count)?;
        let text = &octets[..count - 1];
        if octets[count - 1] != 0 || !is_printed(text) {
            return Err(refused(Field::StringOctets, start, WireCause::Value));
        }
        *self = ahead;
        Ok(text)
    }
}

// How many octets stand between a place and the next multiple of a size.
pub(crate) fn gap(at: usize, size: usize) -> usize
    requires { IsSize size }
    ensures gap { result ≡ gap size at }
    ensures below { result < size }
{
    (size - at % size) % size
}

// The refusal of a field at a place.
fn refused(field: Field, place: usize, cause: WireCause) -> Refused
    ensures refused { result ≡ refusal field place cause }
{
    let offset = u32::try_from(place).unwrap_or(u32::MAX);
    Refused {
        field,
        offset,
        cause,
    }
}

// All octets are printed.
pub(crate) fn is_printed(octets: &[u8]) -> bool
    ensures { result ≡ list_all is_printed octets.now }
{
    octets
        .iter()
        .all(|octet| *octet >= FIRST_PRINTED && *octet <= LAST_PRINTED)
}
