//! Reads the octets of a PDU field by field.

ghost use Rattle.std.specs.Prelude.{◌≡◌, ◌+◌, ◌^◌, ◌<◌, length, IfOk, Ok, Err};
ghost use Rattle.ndr.specs.Numbers.{IsSize};
ghost use Rattle.pdu_fields.specs.Headers.{any, between, fits, order_at, is_length, ptype_part, order_part, length_part};
ghost use Rattle.pdu_fields.specs.Parsing.{Reading, Passing, Finds, Takes, refused_here};
ghost use Rattle.pdu_fields.specs.Tables.{Kept, Passed, Padded, Rest, octet, number, identifier, octets, in_order};

use crate::Ptype;
use crate::header::{BIG_ORDER, HEADER_LENGTH, LITTLE_ORDER, MAX_FRAGMENT};
use dts_base::{Bytes, Field, Refused, WireCause};
use ndr::{DecodeFault, Endian};
use std::alloc::Global;
use std::marker::Model;
use uuid::Uuid;

// How many octets a number of 16 bits, one of 32 bits and a uuid have.
const SHORT_SIZE: usize = 2;

const LONG_SIZE: usize = 4;

const UUID_SIZE: usize = 16;

/// The octets of a PDU that were not read yet, which are lent. Clauses see them, and how many were read.
#[derive(Drop)]
pub struct Cursor<'a> {
    left: &'a [u8],
    at: usize,
}

impl<'a> Model for Cursor<'a> {
    ghost use Rattle.std.specs.Prelude.{◌+◌, ◌^◌, ◌<◌, length};
    ghost use Rattle.pdu_fields.specs.Parsing.{Place};

    ghost Value = { Place };

    ghost view = { λ c. record { at = c.at; left = c.left.now } };

    ghost invariant = { λ c. c.at + length c.left.now < 2 ^ 64 };
}

impl<'a> Cursor<'a> {
    /// All octets, of which none was read.
    pub fn new(octets: &'a [u8]) -> Cursor<'a>
        ensures { result ≡ record { at = 0; left = octets.now } }
    {
        Cursor {
            left: octets,
            at: 0,
        }
    }

    // The field that begins here is refused.
    fn refused(&self, name: Field, cause: WireCause) -> DecodeFault
        ensures { result ≡ refused_here name self.now cause }
    {
        let offset = u32::try_from(self.at).unwrap_or(u32::MAX);
        DecodeFault::Wrong(Refused {
            field: name,
            offset,
            cause,
        })
    }

    // Lends the next octets.
    fn take(&mut self, name: Field, size: usize) -> Result<&'a [u8], DecodeFault>
        ensures { Takes name size self.old self.new result }
    {
        if self.left.len() < size {
            return Err(self.refused(name, WireCause::Short));
        }
        let (lent, rest) = self.left.split_at(size);
        self.left = rest;
        self.at += size;
        Ok(lent)
    }

    // The octet that stands here.
    fn find_octet(&mut self, name: Field) -> Result<u8, DecodeFault>
        ensures { Finds name octet self.old self.new result }
    {
        let lent = self.take(name, 1)?;
        Ok(lent[0])
    }

    // The number of this size that stands here.
    fn find_number(&mut self, name: Field, endian: Endian, size: usize) -> Result<u64, DecodeFault>
        requires { IsSize size }
        ensures found { Finds name (number endian size) self.old self.new result }
        ensures fits { IfOk result (λ n. n < 256 ^ size) }
    {
        let lent = self.take(name, size)?;
        Ok(endian.number(lent, size))
    }

    /// Reads an octet of any value.
    pub fn octet(&mut self, name: Field) -> Result<u8, DecodeFault>
        ensures { Reading (Kept name octet any) self.old self.new result }
    {
        self.find_octet(name)
    }

    /// Reads an octet from the least to the most.
    pub fn octet_between(&mut self, name: Field, least: u8, most: u8) -> Result<u8, DecodeFault>
        ensures read { Reading (Kept name octet (between least most)) self.old self.new result }
    {
        let wrong = self.refused(name, WireCause::Value);
        let octet = self.find_octet(name)?;
        if octet < least || octet > most {
            return Err(wrong);
        }
        Ok(octet)
    }

    /// Reads the kind.
    pub fn ptype(&mut self) -> Result<Ptype, DecodeFault>
        ensures { Reading ptype_part self.old self.new result }
    {
        let wrong = self.refused(Field::Ptype, WireCause::Value);
        let octet = self.find_octet(Field::Ptype)?;
        Ptype::from_number(octet).ok_or(wrong)
    }

    /// Reads the byte order.
    pub fn order(&mut self) -> Result<Endian, DecodeFault>
        ensures { Reading order_part self.old self.new result }
    {
        let wrong = self.refused(Field::DrepOrder, WireCause::Value);
        let octet = self.find_octet(Field::DrepOrder)?;
        order_at(octet).ok_or(wrong)
    }

    /// Reads the length of a fragment, which has so many octets where that is known.
    pub fn length(&mut self, endian: Endian, known: Option<usize>) -> Result<u16, DecodeFault>
        ensures { Reading (length_part (fits known) endian) self.old self.new result }
    {
        let wrong = self.refused(Field::FragLength, WireCause::Value);
        let length = self.find_number(Field::FragLength, endian, SHORT_SIZE)? as u16;
        if !is_length(usize::from(length), known) {
            return Err(wrong);
        }
        Ok(length)
    }

    /// Reads a number of 16 bits.
    pub fn u16(&mut self, name: Field, endian: Endian) -> Result<u16, DecodeFault>
        ensures { Reading (Kept name (number endian 2) any) self.old self.new result }
    {
        Ok(self.find_number(name, endian, SHORT_SIZE)? as u16)
    }

    /// Reads a number of 16 bits from the least to the most.
    pub fn u16_between(
        &mut self,
        name: Field,
        endian: Endian,
        least: u16,
        most: u16,
    ) -> Result<u16, DecodeFault>
        ensures { Reading (Kept name (number endian 2) (between least most)) self.old self.new result }
    {
        let wrong = self.refused(name, WireCause::Value);
        let number = self.find_number(name, endian, SHORT_SIZE)? as u16;
        if number < least || number > most {
            return Err(wrong);
        }
        Ok(number)
    }

    /// Reads a number of 32 bits.
    pub fn u32(&mut self, name: Field, endian: Endian) -> Result<u32, DecodeFault>
        ensures { Reading (Kept name (number endian 4) any) self.old self.new result }
    {
        Ok(self.find_number(name, endian, LONG_SIZE)? as u32)
    }

    /// Reads a uuid.
    pub fn uuid(&mut self, name: Field, endian: Endian) -> Result<Uuid, DecodeFault>
        ensures { Reading (Kept name (identifier endian) any) self.old self.new result }
    {
        let lent = self.take(name, UUID_SIZE)?;
        let mut octets = [0; UUID_SIZE];
        octets.copy_from_slice(lent);
        Ok(uuid_in(endian, octets))
    }

    /// Copies octets.
    pub fn octets(&mut self, alloc: Global, name: Field, count: usize) -> Result<Bytes, DecodeFault>
        ensures { Reading (Kept name (octets count) any) self.old self.new result }
    {
        let lent = self.take(name, count)?;
        Ok(Bytes::from_slice(alloc, lent)?)
    }

    /// Copies the octets that are left.
    pub fn rest(&mut self, alloc: Global, name: Field) -> Result<Bytes, DecodeFault>
        ensures { Reading (Rest name) self.old self.new result }
    {
        let lent = self.take(name, self.left.len())?;
        Ok(Bytes::from_slice(alloc, lent)?)
    }

    /// Passes over octets.
    pub fn pass(&mut self, name: Field, count: usize) -> Result<(), DecodeFault>
        ensures { Passing (Passed name count) self.old self.new result }
    {
        self.take(name, count)?;
        Ok(())
    }

    /// Passes over octets up to the next multiple of 4 from the PDU's start.
    pub fn pad(&mut self, name: Field) -> Result<(), DecodeFault>
        ensures { Passing (Padded name 4) self.old self.new result }
    {
        let gap = (4 - self.at % 4) % 4;
        self.take(name, gap)?;
        Ok(())
    }
}

// The uuid of these octets in a byte order.
fn uuid_in(endian: Endian, octets: [u8; UUID_SIZE]) -> Uuid
    ensures { result ≡ in_order endian octets }
{
    match endian {
        Endian::Big => Uuid::from_bytes(octets),
        Endian::Little => Uuid::from_bytes_le(octets),
    }
}

// The byte order of an octet.
fn order_at(octet: u8) -> Option<Endian>
    ensures { result ≡ order_at octet }
{
    match octet {
        BIG_ORDER => Some(Endian::Big),
        LITTLE_ORDER => Some(Endian::Little),
        _ => None,
    }
}

// A fragment may say that it has this length.
fn is_length(length: usize, known: Option<usize>) -> bool
    ensures { result ≡ is_length (fits known) length }
{
    length >= HEADER_LENGTH && length <= MAX_FRAGMENT && known.is_none_or(|size| length == size)
}
