//! Orders the lines of an input.

ghost use Rattle.std.specs.Prelude.{◌≡◌, ◌⊎◌, ℕ, List, Some, Ok, Err, IfErr};
ghost use Rattle.dts_base.specs.Causes.{Rose};
ghost use Rattle.dts_base.specs.Told.{Told};
ghost use Rattle.line_reader.specs.Lines.{lines_of};
ghost use Rattle.line_reader.specs.Reader.{Advances};
ghost use Rattle.utc_order.specs.Taking.{RefusesAt};
ghost use Rattle.utc_order.specs.Orders.{HasOrdered, HasFaults, IsUnwritten};
ghost use Rattle.utc_order.specs.Keeping.{StopCause, HasRead, HasWritten, IsReadStop};

use crate::log::Log;
use crate::printing::write_lines;
use crate::{OrderCause, OrderStatus};
use dts_base::{Sink, Source};
use line_reader::LineReader;
use std::alloc::Global;

/// Reads the lines of several hosts, at most 100,000 of at most 1,024 octets, and writes them in their order, each with
/// its mark: by the greatest earliest point of the line's host up to it, then by host, then as they were read. Nothing
/// is written before the last line is read and none is refused. Lines of one host keep their order, and no line stands
/// before one that is certainly earlier. It keeps all lines in memory, with about 100 octets more for each.
pub fn order<I: Source, O: Sink>(alloc: Global, input: &mut I, output: &mut O) -> OrderStatus
    // What the output holds afterwards is what it held before, and then the text of the lines in their order, or its
    // beginning where the output failed. Refused is exactly the first line that is refused, for its first cause.
    ensures ordered { (octets : List ℕ) → I.left input.old ≡ Some octets →
        HasOrdered octets (I.left input.new) result (O.written output.old) (O.written output.new) }

    // It answers a fault exactly where the faults of that object rose.
    ensures read_faults { HasFaults OrderStatus.ReadFault (I.faults input.old) (I.faults input.new) result }
    ensures write_faults { HasFaults OrderStatus.WriteFault (O.faults output.old) (O.faults output.new) result }

    // Where a line is refused or a read failed, the output is not touched.
    ensures untouched { IsUnwritten result → output.new ≡ output.old }

    // The first refused line is told, where no read failed, or memory was missing.
    ensures refused { (octets : List ℕ) (n : ℕ) (cause : OrderCause) → I.left input.old ≡ Some octets → RefusesAt (lines_of octets) n cause →
        (Rose (I.faults input.old) (I.faults input.new) → ⊥) → (result ≡ OrderStatus.Refused n cause) ⊎ (result ≡ OrderStatus.NoMemory) }

    // Without a refused line and a fault the lines are written, or memory was missing.
    ensures complete { (octets : List ℕ) → I.left input.old ≡ Some octets →
        ((n : ℕ) (cause : OrderCause) → RefusesAt (lines_of octets) n cause → ⊥) →
        (Rose (I.faults input.old) (I.faults input.new) → ⊥) → (Rose (O.faults output.old) (O.faults output.new) → ⊥) →
        (result ≡ OrderStatus.Done) ⊎ (result ≡ OrderStatus.NoMemory) }
{
    match read_log(alloc, input) {
        Ok(log) => write_log(alloc, log, output),
        Err(status) => status,
    }
}

// Writes the lines in their order.
fn write_log<O: Sink>(alloc: Global, log: Log, output: &mut O) -> OrderStatus
    ensures wrote { HasWritten log result (O.written output.old) (O.written output.new) }
    ensures faults { HasFaults OrderStatus.WriteFault (O.faults output.old) (O.faults output.new) result }
{
    let (lines, places) = log.into_order();
    match write_lines(alloc, &lines, places.as_slice(), output) {
        Ok(()) => OrderStatus::Done,
        Err(status) => status,
    }
}

// Reads all lines.
fn read_log<I: Source>(alloc: Global, input: &mut I) -> Result<Log, OrderStatus>
    ensures read { (octets : List ℕ) → I.left input.old ≡ Some octets → HasRead octets (I.left input.new) result }
    ensures stops { IfErr result IsReadStop }
    ensures cause { StopCause OrderStatus.ReadFault (I.faults input.old) (I.faults input.new) result }
{
    let mut reader = LineReader::new(alloc)?;
    let mut log = Log::new(alloc)?;
    while next_line(&mut reader, input)? {
        log.take(reader.line())?;
    }
    Ok(log)
}

// Goes on to the next line.
fn next_line<I: Source>(reader: &mut LineReader, input: &mut I) -> Result<bool, OrderStatus>
    ensures next { Told (I.left input.old) (I.left input.new) (Advances reader.old reader.new result) }
    ensures fault { IfErr result (λ s. s ≡ OrderStatus.ReadFault) }
    ensures cause { StopCause OrderStatus.ReadFault (I.faults input.old) (I.faults input.new) result }
{
    match reader.advance(input) {
        Ok(there) => Ok(there),
        Err(_) => Err(OrderStatus::ReadFault),
    }
}
