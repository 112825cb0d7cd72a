//! Writes lines in their order.

ghost use Rattle.std.specs.Prelude.{◌≡◌, ◌++◌, ℕ, List, OnOk, IfErr};
ghost use Rattle.dts_base.specs.Told.{Told};
ghost use Rattle.dts_base.specs.Streams.{Wrote, AppendsPart};
ghost use Rattle.utc_order.specs.Lines.{LogLine};
ghost use Rattle.utc_order.specs.Marks.{line_text, text_of};
ghost use Rattle.utc_order.specs.Places.{lines_at};
ghost use Rattle.utc_order.specs.Keeping.{reach_of, StopCause, WroteBeginning};
ghost use Rattle.utc_order.specs.Kept.{line_lent};
ghost use Rattle.utc_order.specs.Printing.{PrintsOn, WritesFront, IsWriteStop};

use crate::OrderStatus;
use crate::limits::PIECE;
use crate::lines::{KeptLine, Lines};
use crate::place::Place;
use crate::reach::Reach;
use dts_base::{Sink, write_all};
use std::alloc::{AllocError, Global};

/// Writes the lines at these places, in pieces of a bounded size.
pub(crate) fn write_lines<O: Sink>(
    alloc: Global,
    lines: &Lines,
    order: &[Place],
    output: &mut O,
) -> Result<(), OrderStatus>
    ensures whole { OnOk result (Wrote (O.written output.old) (O.written output.new) (text_of (lines_at lines.now order.now))) }
    ensures part { IfErr result (λ s. IsWriteStop s × WroteBeginning (O.written output.old) (O.written output.new) (text_of (lines_at lines.now order.now))) }
    ensures cause { StopCause OrderStatus.WriteFault (O.faults output.old) (O.faults output.new) result }
{
    let mut reach = Reach::Nowhere;
    let mut text = Vec::new(alloc);
    for place in order {
        print_place(lines, place, &mut reach, &mut text)?;
        write_full(output, &mut text)?;
    }
    write_text(output, text.as_slice())
}

// Puts the line at a place at the end of the text, where there is one.
fn print_place(
    lines: &Lines,
    place: &Place,
    reach: &mut Reach,
    text: &mut Vec<u8>,
) -> Result<(), OrderStatus>
    ensures printed { OnOk result ((printed : List LogLine) → reach.old ≡ reach_of printed → PrintsOn lines.now place.now printed reach.new text.old.items text.new.items) }
    ensures memory { IfErr result (λ s. s ≡ OrderStatus.NoMemory) }
{
    let Some(line) = lines.get(place.index as usize) else {
        return Ok(());
    };
    match push_line(text, *reach, &line) {
        Ok(()) => {
            *reach = reach.with(line.time);
            Ok(())
        }
        Err(_) => Err(OrderStatus::NoMemory),
    }
}

// Puts a line at the end of the text, with its mark behind lines that reach so far.
fn push_line(text: &mut Vec<u8>, reach: Reach, line: &KeptLine<'_>) -> Result<(), AllocError>
    ensures { OnOk result ((printed : List LogLine) → reach ≡ reach_of printed → text.new.items ≡ text.old.items ++ line_text printed (line_lent line.now)) }
{
    text.push(reach.mark(line.time))?;
    text.push(b' ')?;
    text.extend_from_slice(line.octets)?;
    text.push(b'\n')?;
    Ok(())
}

// Writes the text where it is a piece, and clears it then.
fn write_full<O: Sink>(output: &mut O, text: &mut Vec<u8>) -> Result<(), OrderStatus>
    ensures whole { OnOk result (WritesFront (O.written output.old) (O.written output.new) text.old.items text.new.items) }
    ensures part { IfErr result (λ s. (s ≡ OrderStatus.WriteFault) × Told (O.written output.old) (O.written output.new) (AppendsPart text.old.items)) }
    ensures cause { StopCause OrderStatus.WriteFault (O.faults output.old) (O.faults output.new) result }
{
    if text.len() < PIECE {
        return Ok(());
    }
    write_text(output, text.as_slice())?;
    text.clear();
    Ok(())
}

// Writes the text.
fn write_text<O: Sink>(output: &mut O, text: &[u8]) -> Result<(), OrderStatus>
    ensures whole { OnOk result (Wrote (O.written output.old) (O.written output.new) text.now) }
    ensures part { IfErr result (λ s. (s ≡ OrderStatus.WriteFault) × Told (O.written output.old) (O.written output.new) (AppendsPart text.now)) }
    ensures cause { StopCause OrderStatus.WriteFault (O.faults output.old) (O.faults output.new) result }
{
    match write_all(output, text) {
        Ok(()) => Ok(()),
        Err(_) => Err(OrderStatus::WriteFault),
    }
}
