//! Answers the lines of an input.

ghost use Rattle.std.specs.Prelude.{◌≡◌, ◌⊎◌, ℕ, List, Some, Ok, Err};
ghost use Rattle.dts_base.specs.Causes.{Rose};
ghost use Rattle.line_reader.specs.Lines.{lines_of};
ghost use Rattle.line_filter.specs.Filters.{HasFiltered, IsValid, RefusesAt};
ghost use Rattle.line_filter.specs.Progress.{StopCause};
ghost use Rattle.utc_calculator.specs.Answers.{calculator};

use crate::line::answer;
use crate::{UtcCause, UtcRefusal};
use dts_base::{Sink, Source};
use line_filter::{LineFilter, Stop, Unfit, filter_lines};
use line_reader::MAX_LINE;
use std::alloc::Global;

/// The calculator as a filter of lines: it keeps nothing from one line to the next.
#[derive(Clone, Copy, Debug)]
pub struct Calculator;

impl LineFilter for Calculator {
    type Cause = UtcRefusal;

    ghost State = { Unit {0} };

    ghost rules = { calculator };

    ghost stands = { λ _ _ _. Unit {0} };

    fn take(
        &mut self,
        alloc: Global,
        _before: u64,
        line: &[u8],
        text: &mut Vec<u8>,
    ) -> Result<(), Unfit<UtcRefusal>> {
        *text = answer(alloc, line)?;
        Ok(())
    }

    fn end(&self, _before: u64) -> Result<(), UtcRefusal> {
        Ok(())
    }

    fn too_many() -> UtcRefusal {
        UtcRefusal::whole(UtcCause::Lines)
    }

    fn too_long() -> UtcRefusal {
        UtcRefusal::at(MAX_LINE + 1, UtcCause::Long)
    }
}

/// Reads lines from the input and writes an answer line for each, as [`answer`] gives it, each as one piece and
/// in bounded memory, until the input ends or a line is refused. A line has at most 16,384 octets, and an input
/// at most 4,294,967,295 lines.
pub fn calculate<I: Source, O: Sink>(
    alloc: Global,
    input: &mut I,
    output: &mut O,
) -> Result<(), Stop<UtcRefusal>>
    // What the output holds afterwards is what it held before, and then the answers to the lines: to all of them, or to those before the first refused one.
    ensures answers { (octets : List ℕ) → I.left input.old ≡ Some octets →
        HasFiltered calculator tt octets (I.left input.new) result (O.written output.old) (O.written output.new) }

    // It stops for a fault exactly where the faults of that object rose.
    ensures read_cause { StopCause Stop.Read (I.faults input.old) (I.faults input.new) result }
    ensures write_cause { StopCause Stop.Write (O.faults output.old) (O.faults output.new) result }

    // Where no line is refused and nothing failed, it comes to the end of the input, or memory was missing. Valid input is such.
    ensures complete { (octets text : List ℕ) → I.left input.old ≡ Some octets → IsValid calculator tt octets text →
        (Rose (I.faults input.old) (I.faults input.new) → ⊥) → (Rose (O.faults output.old) (O.faults output.new) → ⊥) → (result ≡ Ok tt) ⊎ (result ≡ Err Stop.NoMemory) }
    ensures unrefused { (octets : List ℕ) → I.left input.old ≡ Some octets →
        ((n : ℕ) (r : UtcRefusal) (text : List ℕ) → RefusesAt calculator tt (lines_of octets) n r text → ⊥) →
        (Rose (I.faults input.old) (I.faults input.new) → ⊥) → (Rose (O.faults output.old) (O.faults output.new) → ⊥) → (result ≡ Ok tt) ⊎ (result ≡ Err Stop.NoMemory) }
{
    filter_lines(alloc, &mut Calculator, input, output)
}
