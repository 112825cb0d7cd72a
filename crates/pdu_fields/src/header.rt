ghost use Rattle.std.specs.Prelude.{Ok};
ghost use Rattle.pdu_fields.specs.Bodies.{ends};
ghost use Rattle.pdu_fields.specs.Headers.{fits, header};
ghost use Rattle.pdu_fields.specs.Parsing.{Place, Parses, Reading};

use crate::{Body, Cursor, Pdu, Ptype};
use dts_base::Field;
use ndr::{DecodeFault, Endian};

/// The least length of a fragment: that of the header.
pub const HEADER_LENGTH: usize = 16;

/// The greatest length of a fragment.
pub const MAX_FRAGMENT: usize = 5840;

/// The version of the protocol.
pub const RPC_VERS: u8 = 5;

/// The greatest minor version.
pub const MAX_MINOR: u8 = 1;

/// The octet of the byte order for the highest octet first. Its low half says that text is in ASCII.
pub const BIG_ORDER: u8 = 0x00;

/// The octet of the byte order for the lowest octet first.
pub const LITTLE_ORDER: u8 = 0x10;

/// The flag of a request that names an object.
pub const OBJECT_UUID: u8 = 0x80;

/// The most contexts of a bind, and the most answers to it.
pub const MAX_CONTEXTS: u8 = 16;

/// The most transfer syntaxes of a context.
pub const MAX_TRANSFERS: u8 = 8;

/// The greatest result of a context.
pub const MAX_RESULT: u16 = 2;

/// The greatest reason of a result.
pub const MAX_REASON: u16 = 3;

/// The greatest length of a secondary address.
pub const MAX_ADDRESS: usize = 65_535;

/// The most versions of the protocol that are offered.
pub const MAX_PROTOCOLS: usize = 255;

/// The common header of all kinds.
#[derive(Clone, Copy, Debug)]
pub struct Header {
    /// The minor version.
    pub minor: u8,
    /// The kind.
    pub ptype: Ptype,
    /// The flags.
    pub flags: u8,
    /// The byte order.
    pub endian: Endian,
    /// The length of the fragment.
    pub length: u16,
    /// The number of the call.
    pub call_id: u32,
}

impl Header {
    /// Reads a header. Where it is known how many octets its fragment has, that is the only right length.
    pub fn read(cursor: &mut Cursor, known: Option<usize>) -> Result<Header, DecodeFault>
        ensures { Reading (header (fits known)) cursor.old cursor.new result }
    {
        cursor.octet_between(Field::RpcVers, RPC_VERS, RPC_VERS)?;
        let minor = cursor.octet_between(Field::RpcVersMinor, 0, MAX_MINOR)?;
        let ptype = cursor.ptype()?;
        let flags = cursor.octet(Field::PfcFlags)?;
        let endian = cursor.order()?;
        cursor.pass(Field::DrepRest, 3)?;
        let length = cursor.length(endian, known)?;
        cursor.u16_between(Field::AuthLength, endian, 0, 0)?;
        let call_id = cursor.u32(Field::CallId, endian)?;
        Ok(Header {
            minor,
            ptype,
            flags,
            endian,
            length,
            call_id,
        })
    }

    /// The PDU of this header and this body.
    pub fn pdu(self, body: Body) -> Pdu
        ensures { (place : Place) → Parses (ends self body) place (Ok result) }
    {
        Pdu {
            call_id: self.call_id,
            flags: self.flags,
            minor: self.minor,
            endian: self.endian,
            body,
        }
    }
}
