//! Shows an input.

ghost use Rattle.std.specs.Prelude.{◌≡◌, ◌⊎◌, ℕ, List, Some, Ok, Err, IfErr, MatchResult};
ghost use Rattle.dts_base.specs.Causes.{Rose};
ghost use Rattle.dts_base.specs.declared.wire.Refused.{Refused};
ghost use Rattle.wire_show.specs.Output.{lines_as, output_of};
ghost use Rattle.wire_show.specs.Ends.{HasShown, HasFaults, IsUnwritten};
ghost use Rattle.wire_show.specs.Showing.{HasMade, HasNotMade, HasWritten, IsFaultOf, IsMakingStop, StopCause};

use crate::digits::octets_of;
use crate::input::read_input;
use crate::ntp::ntp_text;
use crate::pdu::pdu_text;
use crate::utc::utc_text;
use crate::{ShowEnd, Shown};
use dts_base::{Sink, Source, write_all};
use ndr::DecodeFault;
use std::alloc::Global;

/// Reads an input, which is one line of hex digits with or without a line feed, two digits an octet in either case and at
/// most 11,680, and writes a line for each field of its octets: the offset of the field's first octet from 0, its name and
/// its octets in hex, in lower case, or a dash where it has none, joined by single spaces. A PDU's fields are those of its
/// table in their order, those that are passed over among them, and behind the last one the octets that are left as `tail`.
///
/// An input that is no such line is refused first: at the field `input`, `long` at 5,840 where a digit stands behind 11,680
/// others, and else `value` at the first pair that is no two digits, that of a line feed before the end and an odd last
/// digit included. Then its octets are refused: a PDU as `rpc_pdu::decode` does, a packet as `ntp_packet::decode` does, a timestamp at the field `utc_octets`, with
/// `short` or `extra` where it has not sixteen octets, at their number and at 16, and with `value` at 14 where its version
/// or its time differential factor is not right. Nothing is written before all is read and right. It holds at most 15,777
/// octets of an input, also of one that is too long, and the text.
pub fn show<I: Source, O: Sink>(
    alloc: Global,
    kind: Shown,
    input: &mut I,
    output: &mut O,
) -> ShowEnd
    // What the output holds afterwards is what it held before, and then the lines of the input, or their beginning where the
    // output failed. Done comes only where the input was read to its end, and Refused only where the input is refused so.
    ensures shown { (octets : List ℕ) → I.left input.old ≡ Some octets →
        HasShown kind octets (I.left input.new) result (O.written output.old) (O.written output.new) }

    // It answers a fault exactly where the faults of that object rose.
    ensures read_faults { HasFaults ShowEnd.ReadFault (I.faults input.old) (I.faults input.new) result }
    ensures write_faults { HasFaults ShowEnd.WriteFault (O.faults output.old) (O.faults output.new) result }

    // Where the input is refused or failed, or memory was missing, the output is not touched.
    ensures untouched { IsUnwritten result → output.new ≡ output.old }

    // What is refused is told, where no read failed, or memory was missing.
    ensures refused { (octets : List ℕ) (refused : Refused) → I.left input.old ≡ Some octets → output_of kind octets ≡ Err refused →
        (Rose (I.faults input.old) (I.faults input.new) → ⊥) → (result ≡ ShowEnd.Refused refused) ⊎ (result ≡ ShowEnd.NoMemory) }

    // What is not refused is shown, where nothing failed, or memory was missing.
    ensures complete { (octets text : List ℕ) → I.left input.old ≡ Some octets → output_of kind octets ≡ Ok text →
        (Rose (I.faults input.old) (I.faults input.new) → ⊥) → (Rose (O.faults output.old) (O.faults output.new) → ⊥) →
        (result ≡ ShowEnd.Done) ⊎ (result ≡ ShowEnd.NoMemory) }
{
    match make_text(alloc, kind, input) {
        Ok(text) => write_text(output, text.as_slice()),
        Err(end) => end,
    }
}

// Reads the input and makes its lines.
fn make_text<I: Source>(alloc: Global, kind: Shown, input: &mut I) -> Result<Vec<u8>, ShowEnd>
    ensures made { (octets : List ℕ) → I.left input.old ≡ Some octets →
        MatchResult result (λ text. HasMade kind octets (I.left input.new) text.items) (HasNotMade kind octets (I.left input.new)) }
    ensures stops { IfErr result IsMakingStop }
    ensures cause { StopCause ShowEnd.ReadFault (I.faults input.old) (I.faults input.new) result }
{
    let held = read_input(alloc, input)?;
    match text_of(alloc, kind, held.as_slice()) {
        Ok(text) => Ok(text),
        Err(fault) => Err(ShowEnd::from(fault)),
    }
}

// The lines of an input.
fn text_of(alloc: Global, kind: Shown, held: &[u8]) -> Result<Vec<u8>, DecodeFault>
    ensures { MatchResult result (λ text. output_of kind held.now ≡ Ok text.items) (IsFaultOf (output_of kind held.now)) }
{
    let octets = octets_of(alloc, held)?;
    lines_of(alloc, kind, octets.as_slice())
}

// The lines of octets.
fn lines_of(alloc: Global, kind: Shown, octets: &[u8]) -> Result<Vec<u8>, DecodeFault>
    ensures { MatchResult result (λ text. lines_as kind octets.now ≡ Ok text.items) (IsFaultOf (lines_as kind octets.now)) }
{
    match kind {
        Shown::Pdu => pdu_text(alloc, octets),
        Shown::Ntp => ntp_text(alloc, octets),
        Shown::Utc => utc_text(alloc, octets),
    }
}

// Writes the text.
fn write_text<O: Sink>(output: &mut O, text: &[u8]) -> ShowEnd
    ensures wrote { HasWritten text.now result (O.written output.old) (O.written output.new) }
    ensures faults { HasFaults ShowEnd.WriteFault (O.faults output.old) (O.faults output.new) result }
{
    match write_all(output, text) {
        Ok(()) => ShowEnd::Done,
        Err(_) => ShowEnd::WriteFault,
    }
}
