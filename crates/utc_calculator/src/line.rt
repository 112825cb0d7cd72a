//! Answers lines.

ghost use Rattle.std.specs.Prelude.{◌≡◌, ◌++◌, ◌⊎◌, ◌∷◌, [], List, ℕ, IfOk, IfErr};
ghost use Rattle.line_filter.specs.Progress.{IsUnfit};
ghost use Rattle.utc_calculator.specs.Answers.{Answers, HasOutcome, RefusesComputing, calculator};
ghost use Rattle.utc_calculator.specs.Operations.{RefusesReading};
ghost use Rattle.utc_calculator.specs.Writing.{fault_of};

use crate::reading::parse;
use crate::results::{Unwritten, compute, line_of};
use crate::{Outcome, UtcCause, UtcRefusal};
use line_filter::Unfit;
use std::alloc::Global;
use utc_text::PrintFault;

/// The answer to a line, with its line feed. The line comes without one, and may have any length.
///
/// | Line | Answer |
/// |---|---|
/// | `add A A`, `sub A A`, `abs A`, `mul A K`, `span A A`, `bound A A`, `tdf A T` | the text of the result |
/// | `interval A A`, `mid A A` | `equalTo`, `lessThan`, `greaterThan` or `indeterminate` |
/// | `point A` | the earliest, the middle and the latest, joined by single spaces |
/// | `bytes A` | the sixteen octets as 32 hex digits |
/// | `text HEX` | the text of the sixteen octets |
///
/// A is a time as `parse_abs` or `parse_rel` of utc_text reads it, K a number of 32 bits and T one of 16 bits,
/// in minutes. A moment is written as clocks show it at its own time differential factor.
pub fn answer(alloc: Global, line: &[u8]) -> Result<Vec<u8>, Unfit<UtcRefusal>>
    ensures answers { IfOk result (λ octets. (text : List ℕ) × Answers line.now text × (octets.items ≡ text ++ 10 ∷ [])) }
    ensures refused { IfErr result (IsUnfit calculator tt line.now) }
{
    match outcome_of(line) {
        Ok(outcome) => line_of(alloc, outcome).map_err(fault_of),
        Err(refusal) => Err(Unfit::Refused(refusal)),
    }
}

// Why an outcome is not written, as the answer has it.
fn fault_of(unwritten: Unwritten) -> Unfit<UtcRefusal>
    ensures { result ≡ fault_of unwritten }
{
    match unwritten {
        Unwritten::Year => {
            Unfit::Refused(UtcRefusal::whole(UtcCause::Print(PrintFault::YearRange)))
        }
        Unwritten::NoMemory => Unfit::NoMemory,
    }
}

// What the operation of a line results in.
pub(crate) fn outcome_of(line: &[u8]) -> Result<Outcome, UtcRefusal>
    ensures ok { IfOk result (HasOutcome line.now) }
    ensures err { IfErr result (λ r. RefusesReading line.now r ⊎ RefusesComputing line.now r) }
{
    match compute(parse(line)?) {
        Ok(outcome) => Ok(outcome),
        Err(fault) => Err(UtcRefusal::whole(UtcCause::Routine(fault))),
    }
}
