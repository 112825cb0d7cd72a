//! Writes the fields of a PDU one behind the other. After a failure the octets are of no use.

ghost use Rattle.std.specs.Prelude.{◌≡◌, ◌^◌, ◌<◌, ◌≤◌, ◌∷◌, [], ◌++◌, OnOk, replicate};
ghost use Rattle.ndr.specs.Numbers.{IsSize, number_octets};
ghost use Rattle.rpc_pdu.specs.Spelling.{count_octets};
ghost use Rattle.pdu_fields.specs.Tables.{in_order};

use dts_base::NoMemory;
use ndr::Endian;
use uuid::Uuid;

// The room of the greatest number.
const NUMBER_ROOM: usize = 8;

// The most octets that are passed over at once.
const MAX_PASSED: usize = 4;

// Appends a number of this size.
fn put_number(out: &mut Vec<u8>, endian: Endian, number: u64, size: usize) -> Result<(), NoMemory>
    requires size { IsSize size }
    requires fits { number < 256 ^ size }
    ensures { OnOk result (out.new.items ≡ out.old.items ++ number_octets endian size number) }
{
    let mut piece = [0; NUMBER_ROOM];
    endian.put(&mut piece, 0, number, size);
    out.extend_from_slice(&piece[..size])?;
    Ok(())
}

/// Appends an octet.
pub fn put_octet(out: &mut Vec<u8>, octet: u8) -> Result<(), NoMemory>
    ensures { OnOk result (out.new.items ≡ out.old.items ++ octet ∷ []) }
{
    out.push(octet)?;
    Ok(())
}

/// Appends a number of 16 bits.
pub fn put_u16(out: &mut Vec<u8>, endian: Endian, number: u16) -> Result<(), NoMemory>
    ensures { OnOk result (out.new.items ≡ out.old.items ++ number_octets endian 2 number) }
{
    put_number(out, endian, u64::from(number), 2)
}

/// Appends a number of 32 bits.
pub fn put_u32(out: &mut Vec<u8>, endian: Endian, number: u32) -> Result<(), NoMemory>
    ensures { OnOk result (out.new.items ≡ out.old.items ++ number_octets endian 4 number) }
{
    put_number(out, endian, u64::from(number), 4)
}

/// Appends a uuid.
pub fn put_uuid(out: &mut Vec<u8>, endian: Endian, uuid: &Uuid) -> Result<(), NoMemory>
    ensures { OnOk result (out.new.items ≡ out.old.items ++ in_order endian uuid.now) }
{
    match endian {
        Endian::Big => out.extend_from_slice(uuid.as_bytes())?,
        Endian::Little => out.extend_from_slice(&uuid.to_bytes_le())?,
    }
    Ok(())
}

/// Appends octets as they stand.
pub fn put_octets(out: &mut Vec<u8>, octets: &[u8]) -> Result<(), NoMemory>
    ensures { OnOk result (out.new.items ≡ out.old.items ++ octets.now) }
{
    out.extend_from_slice(octets)?;
    Ok(())
}

/// Appends octets that are passed over, at most four.
pub fn put_passed(out: &mut Vec<u8>, count: usize) -> Result<(), NoMemory>
    requires { count ≤ 4 }
    ensures { OnOk result (out.new.items ≡ out.old.items ++ replicate count 0) }
{
    let zeros = [0; MAX_PASSED];
    out.extend_from_slice(&zeros[..count])?;
    Ok(())
}

/// Appends a count, and octets that are passed over, at most four.
pub fn put_count(out: &mut Vec<u8>, count: u8, passed: usize) -> Result<(), NoMemory>
    requires { passed ≤ 4 }
    ensures { OnOk result (out.new.items ≡ out.old.items ++ count_octets count passed) }
{
    put_octet(out, count)?;
    put_passed(out, passed)
}
