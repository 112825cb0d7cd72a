//! The lines of a packet of NTP.

ghost use Rattle.std.specs.Prelude.{◌≡◌, Ok, MatchResult};
ghost use Rattle.wire_show.specs.declared.end.Shown.TheVariants as shown;
ghost use Rattle.wire_show.specs.Fields.{parts_of};
ghost use Rattle.wire_show.specs.Output.{lines_as, ntp_fields, ntp_parts};
ghost use Rattle.wire_show.specs.Showing.{IsFaultOf};

use crate::lines::FieldLines;
use ndr::DecodeFault;
use ntp_packet::{FIELDS, decode};
use std::alloc::Global;

/// The lines of a packet: those of its header, and the octets behind it as the tail.
pub(crate) fn ntp_text(alloc: Global, octets: &[u8]) -> Result<Vec<u8>, DecodeFault>
    ensures { MatchResult result (λ text. lines_as shown.Ntp octets.now ≡ Ok text.items) (IsFaultOf (lines_as shown.Ntp octets.now)) }
{
    check(octets)?;
    let mut lines = FieldLines::new(alloc, octets);
    lines.packet_fields(&FIELDS)?;
    Ok(lines.end()?)
}

// Octets that are no packet are refused.
fn check(octets: &[u8]) -> Result<(), DecodeFault>
    ensures { MatchResult result (λ _. ntp_parts octets.now ≡ Ok (parts_of ntp_fields 0 octets.now)) (IsFaultOf (ntp_parts octets.now)) }
{
    match decode(octets) {
        Ok(_) => Ok(()),
        Err(refused) => Err(DecodeFault::Wrong(refused)),
    }
}
