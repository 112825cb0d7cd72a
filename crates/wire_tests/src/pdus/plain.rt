//! A second reading of the tables, written plainly.

use dts_base::{Field, Refused, WireCause};
use ndr::Endian;
use std::alloc::Global;
use std::process::Abort;

/// What stands next: a field of so many octets, one of as many as its count, one up to the next multiple of 4, the rest, or
/// the parts that a field before it counts or names.
#[derive(Clone, Copy)]
enum Step {
    Field(Field, usize),
    Address,
    Padding,
    Stub,
    Body,
    Times(Part),
}

/// A part of a table that stands as often as the last count says.
#[derive(Clone, Copy)]
enum Part {
    Context,
    Transfer,
    Answer,
    Protocol,
}

use Part::{Answer, Context, Protocol, Transfer};
use Step::{Address, Body, Padding, Stub, Times};

const HEADER: &[Step] = &[
    Step::Field(Field::RpcVers, 1),
    Step::Field(Field::RpcVersMinor, 1),
    Step::Field(Field::Ptype, 1),
    Step::Field(Field::PfcFlags, 1),
    Step::Field(Field::DrepOrder, 1),
    Step::Field(Field::DrepRest, 3),
    Step::Field(Field::FragLength, 2),
    Step::Field(Field::AuthLength, 2),
    Step::Field(Field::CallId, 4),
    Body,
];

const REQUEST: &[Step] = &[
    Step::Field(Field::AllocHint, 4),
    Step::Field(Field::ContextId, 2),
    Step::Field(Field::Opnum, 2),
    Stub,
];

const OBJECT_REQUEST: &[Step] = &[
    Step::Field(Field::AllocHint, 4),
    Step::Field(Field::ContextId, 2),
    Step::Field(Field::Opnum, 2),
    Step::Field(Field::ObjectUuid, 16),
    Stub,
];

const RESPONSE: &[Step] = &[
    Step::Field(Field::AllocHint, 4),
    Step::Field(Field::ContextId, 2),
    Step::Field(Field::CancelCount, 1),
    Step::Field(Field::Reserved, 1),
    Stub,
];

const FAULT: &[Step] = &[
    Step::Field(Field::AllocHint, 4),
    Step::Field(Field::ContextId, 2),
    Step::Field(Field::CancelCount, 1),
    Step::Field(Field::Reserved, 1),
    Step::Field(Field::Status, 4),
    Step::Field(Field::Reserved, 4),
];

const BIND: &[Step] = &[
    Step::Field(Field::MaxXmit, 2),
    Step::Field(Field::MaxRecv, 2),
    Step::Field(Field::AssocGroup, 4),
    Step::Field(Field::NContext, 1),
    Step::Field(Field::Reserved, 3),
    Times(Context),
];

const CONTEXT: &[Step] = &[
    Step::Field(Field::ContextId, 2),
    Step::Field(Field::NTransferSyn, 1),
    Step::Field(Field::Reserved, 1),
    Step::Field(Field::AbstractUuid, 16),
    Step::Field(Field::Version, 4),
    Times(Transfer),
];

const TRANSFER: &[Step] = &[
    Step::Field(Field::TransferUuid, 16),
    Step::Field(Field::Version, 4),
];

const ACK: &[Step] = &[
    Step::Field(Field::MaxXmit, 2),
    Step::Field(Field::MaxRecv, 2),
    Step::Field(Field::AssocGroup, 4),
    Step::Field(Field::SecLength, 2),
    Address,
    Padding,
    Step::Field(Field::NResults, 1),
    Step::Field(Field::Reserved, 3),
    Times(Answer),
];

const ANSWER: &[Step] = &[
    Step::Field(Field::Result, 2),
    Step::Field(Field::Reason, 2),
    Step::Field(Field::TransferUuid, 16),
    Step::Field(Field::Version, 4),
];

const NAK: &[Step] = &[
    Step::Field(Field::Reason, 2),
    Step::Field(Field::NProtocols, 1),
    Times(Protocol),
];

const PROTOCOL: &[Step] = &[Step::Field(Field::Major, 1), Step::Field(Field::Minor, 1)];

const NAK_PTYPE: u32 = 13;

fn body_of(ptype: u32, flags: u32) -> &'static [Step] {
    match ptype {
        0 if flags >= 0x80 => OBJECT_REQUEST,
        0 => REQUEST,
        2 => RESPONSE,
        3 => FAULT,
        11 | 14 => BIND,
        12 | 15 => ACK,
        NAK_PTYPE => NAK,
        _ => &[],
    }
}

fn part_of(part: Part) -> &'static [Step] {
    match part {
        Context => CONTEXT,
        Transfer => TRANSFER,
        Answer => ANSWER,
        Protocol => PROTOCOL,
    }
}

/// Where a field stands.
#[derive(Clone, Copy)]
pub struct Place {
    pub field: Field,
    pub offset: usize,
    pub size: usize,
}

/// What was read: the fields up to the first wrong one, and which that is.
#[derive(Drop)]
pub struct Reading<'a> {
    octets: &'a [u8],
    at: usize,
    endian: Endian,
    ptype: u32,
    flags: u32,
    count: u32,
    pub places: Vec<Place>,
    pub refused: Option<Refused>,
}

// The number that octets are, modulo 2^32.
fn number_of(endian: Endian, octets: &[u8]) -> u32 {
    let mut number: u32 = 0;
    for at in 0..octets.len() {
        let octet = match endian {
            Endian::Big => octets[at],
            Endian::Little => octets[octets.len() - 1 - at],
        };
        number = number.wrapping_mul(256).wrapping_add(u32::from(octet));
    }
    number
}

impl<'a> Reading<'a> {
    // A field has a right value.
    fn is_right(&self, field: Field, number: u32) -> bool {
        match field {
            Field::RpcVers => number == 5,
            Field::RpcVersMinor => number <= 1,
            Field::Ptype => [0, 2, 3, 11, 12, 13, 14, 15, 17, 18, 19].contains(&number),
            Field::DrepOrder => number == 0x00 || number == 0x10,
            Field::FragLength => number >= 16
                && number <= 5840
                && number as usize == self.octets.len(),
            Field::AuthLength => number == 0,
            Field::NContext | Field::NResults => number >= 1 && number <= 16,
            Field::NTransferSyn => number >= 1 && number <= 8,
            Field::Result => number <= 2,
            Field::Reason => number <= 3 || self.ptype == NAK_PTYPE,
            _ => true,
        }
    }

    // Keeps what later fields depend on.
    fn keep(&mut self, field: Field, number: u32) {
        match field {
            Field::Ptype => self.ptype = number,
            Field::PfcFlags => self.flags = number,
            Field::DrepOrder if number == 0x10 => self.endian = Endian::Little,
            Field::NContext | Field::NTransferSyn | Field::NResults => self.count = number,
            Field::NProtocols | Field::SecLength => self.count = number,
            _ => {}
        }
    }

    // Reads a field, or refuses it.
    fn field(&mut self, rt: &impl Abort, field: Field, size: usize) {
        let offset = self.at;
        let end = offset.saturating_add(size);
        let cause = match self.octets.get(offset..end) {
            None => Some(WireCause::Short),
            Some(octets) => {
                let number = number_of(self.endian, octets);
                self.keep(field, number);
                if self.is_right(field, number) {
                    None
                } else {
                    Some(WireCause::Value)
                }
            }
        };
        self.at = end;
        self.refused = cause.map(|cause| Refused {
            field,
            offset: whole(offset),
            cause,
        });
        self.places
            .push(Place {
                field,
                offset,
                size,
            })
            .expect(rt, "memory");
    }

    // Reads what stands next, and gives what stands behind it and how often.
    fn step(&mut self, rt: &impl Abort, step: Step) -> (u32, &'static [Step]) {
        match step {
            Step::Field(field, size) => self.field(rt, field, size),
            Address => self.field(rt, Field::SecAddress, self.count as usize),
            Padding => self.field(rt, Field::Padding, (4 - self.at % 4) % 4),
            Stub => self.field(rt, Field::Stub, self.octets.len().saturating_sub(self.at)),
            Body => return (1, body_of(self.ptype, self.flags)),
            Times(part) => return (self.count, part_of(part)),
        }
        (0, &[])
    }

    /// The octets in their canonical form.
    pub fn canonical(&self, rt: &impl Abort, alloc: Global) -> Vec<u8> {
        let mut octets = self.octets.to_vec(alloc).expect(rt, "memory");
        octets.truncate(self.at);
        for place in self.places.as_slice() {
            match place.field {
                Field::DrepRest | Field::Reserved | Field::Padding => {
                    overwrite(&mut octets, self.endian, place.offset, place.size, 0);
                }
                _ => {}
            }
        }
        overwrite(&mut octets, self.endian, 8, 2, whole(self.at));
        octets
    }
}

/// A count as a number of 32 bits.
pub fn whole(count: usize) -> u32 {
    u32::try_from(count).unwrap_or(u32::MAX)
}

/// Puts a number in the place of octets, if they are all there.
pub fn overwrite(octets: &mut Vec<u8>, endian: Endian, offset: usize, size: usize, number: u32) {
    let end = offset.saturating_add(size);
    if end <= octets.len() {
        let places = &mut octets[offset..end];
        let mut number = number;
        for place in places.iter_mut() {
            *place = (number % 256) as u8;
            number /= 256;
        }
        if endian == Endian::Big {
            places.reverse();
        }
    }
}

// Puts steps so many times in front of those that are to come, which are kept from the last to the next.
fn put_in_front(rt: &impl Abort, steps: &mut Vec<Step>, times: u32, front: &[Step]) {
    for _time in 0..times {
        for step in front.iter().rev() {
            steps.push(*step).expect(rt, "memory");
        }
    }
}

/// Reads a fragment.
pub fn read<'a>(rt: &impl Abort, alloc: Global, octets: &'a [u8]) -> Reading<'a> {
    let mut reading = Reading {
        octets,
        at: 0,
        endian: Endian::Big,
        ptype: 0,
        flags: 0,
        count: 0,
        places: Vec::new(alloc),
        refused: None,
    };
    let mut steps = Vec::new(alloc);
    put_in_front(rt, &mut steps, 1, HEADER);
    for _most in 0..1_000_000 {
        match steps.pop() {
            Some(step) if reading.refused.is_none() => {
                let (times, behind) = reading.step(rt, step);
                put_in_front(rt, &mut steps, times, behind);
            }
            _ => break,
        }
    }
    reading
}
