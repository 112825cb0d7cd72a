//! The lines of a timestamp.

ghost use Rattle.std.specs.Prelude.{◌≡◌, ◌≤◌, Ok, MatchResult};
ghost use Rattle.dts_base.specs.declared.wire.Field.TheVariants as field;
ghost use Rattle.ndr.specs.Reading.{refusal};
ghost use Rattle.wire_show.specs.declared.end.Shown.TheVariants as shown;
ghost use Rattle.wire_show.specs.Fields.{parts_of};
ghost use Rattle.wire_show.specs.Output.{lines_as, utc_fields, utc_parts};
ghost use Rattle.wire_show.specs.Showing.{IsFaultOf};

use crate::lines::FieldLines;
use dts_base::{Field, Refused, WireCause};
use ndr::DecodeFault;
use std::alloc::Global;
use utc_value::Utc;

/// How many octets a timestamp has.
const UTC_SIZE: usize = 16;

/// The offset of its last field, which holds its version and its time differential factor.
const LAST_FIELD: usize = 14;

/// The lines of a timestamp.
pub(crate) fn utc_text(alloc: Global, octets: &[u8]) -> Result<Vec<u8>, DecodeFault>
    ensures { MatchResult result (λ text. lines_as shown.Utc octets.now ≡ Ok text.items) (IsFaultOf (lines_as shown.Utc octets.now)) }
{
    check(octets)?;
    let mut lines = FieldLines::new(alloc, octets);
    lines.part("time", 8)?;
    lines.part("inaccuracy", 6)?;
    lines.part("tdf_version", 2)?;
    Ok(lines.end()?)
}

// Octets that are no timestamp are refused.
fn check(octets: &[u8]) -> Result<(), DecodeFault>
    ensures { MatchResult result (λ _. utc_parts octets.now ≡ Ok (parts_of utc_fields 0 octets.now)) (IsFaultOf (utc_parts octets.now)) }
{
    if octets.len() < UTC_SIZE {
        return Err(refused(octets.len(), WireCause::Short));
    }
    if octets.len() > UTC_SIZE {
        return Err(refused(UTC_SIZE, WireCause::Extra));
    }
    let mut timestamp = [0; UTC_SIZE];
    timestamp.copy_from_slice(octets);
    match Utc::from_bytes(timestamp) {
        Ok(_) => Ok(()),
        Err(_) => Err(refused(LAST_FIELD, WireCause::Value)),
    }
}

// The refusal of a timestamp.
fn refused(offset: usize, cause: WireCause) -> DecodeFault
    requires { offset ≤ UTC_SIZE }
    ensures { result ≡ DecodeFault.Wrong (refusal field.UtcOctets offset cause) }
{
    DecodeFault::Wrong(Refused {
        field: Field::UtcOctets,
        offset: offset as u32,
        cause,
    })
}
