ghost use Rattle.std.specs.Prelude.{◌≡◌, ◌⊎◌, ℕ, List, Some, Ok, Err};
ghost use Rattle.dts_base.specs.Causes.{Rose};
ghost use Rattle.line_filter.specs.Filters.{HasFiltered, IsValid};
ghost use Rattle.line_filter.specs.Progress.{StopCause};
ghost use Rattle.capture_replay.specs.Capture.{capture, unstarted};
ghost use Rattle.capture_replay.specs.SafeLogs.{WroteSafely};

use crate::{CaptureFault, Replay};
use dts_base::{Sink, Source};
use line_filter::{Stop, filter_lines};
use slew_clock::Rates;
use std::alloc::Global;

/// Replays a capture: reads it from the input, and writes the log of its history to the output, the text of each event
/// as one piece and in bounded memory, until the input ends or a line is refused. A line has at most 16,384 octets, and
/// a capture at most 4,294,967,295 lines. So far ticks, direct rounds and reads of the clock are replayed; any other event
/// is refused.
pub fn replay<I: Source, O: Sink>(
    alloc: Global,
    rates: Rates,
    input: &mut I,
    output: &mut O,
) -> Result<(), Stop<CaptureFault>>
    // What the output holds afterwards is what it held before, and then the log of the lines: of all of them, or of those before the first refused one.
    ensures log { (octets : List ℕ) → I.left input.old ≡ Some octets →
        HasFiltered capture (unstarted rates) octets (I.left input.new) result (O.written output.old) (O.written output.new) }

    // What was written is the log of a history that is safe in every honest world, or the beginning of one.
    ensures safe { (octets : List ℕ) → I.left input.old ≡ Some octets → WroteSafely rates result (O.written output.old) (O.written output.new) }

    // It stops for a fault exactly where the faults of that object rose.
    ensures read_cause { StopCause Stop.Read (I.faults input.old) (I.faults input.new) result }
    ensures write_cause { StopCause Stop.Write (O.faults output.old) (O.faults output.new) result }

    // A valid capture is replayed as a whole, where nothing failed and memory was not missing.
    ensures complete { (octets text : List ℕ) → I.left input.old ≡ Some octets → IsValid capture (unstarted rates) octets text →
        (Rose (I.faults input.old) (I.faults input.new) → ⊥) → (Rose (O.faults output.old) (O.faults output.new) → ⊥) → (result ≡ Ok tt) ⊎ (result ≡ Err Stop.NoMemory) }
{
    filter_lines(alloc, &mut Replay::new(rates), input, output)
}
