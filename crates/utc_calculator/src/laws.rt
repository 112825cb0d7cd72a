//! Laws of the lines and their answers.

ghost use Rattle.std.specs.Prelude.{◌≡◌, ◌⊎◌, ℕ, List};
ghost use Rattle.line_filter.specs.Laws.{IsExclusive};
ghost use Rattle.utc_calculator.specs.Answers.{Answers, Refuses, calculator};

use crate::UtcRefusal;
use crate::line::outcome_of;
use crate::results::is_written;

/// No line that has an answer is refused. It does nothing: its contract is the law.
pub fn no_line_is_both()
    ensures { (line text : List ℕ) (refusal : UtcRefusal) → Answers line text → Refuses line refusal → ⊥ }
{}

/// A refused line has one cause, at one place. It does nothing: its contract is the law.
pub fn one_cause()
    ensures { (line : List ℕ) (r s : UtcRefusal) → Refuses line r → Refuses line s → r ≡ s }
{}

/// A line has one answer at most. It does nothing: its contract is the law.
pub fn one_answer()
    ensures { (line text other : List ℕ) → Answers line text → Answers line other → text ≡ other }
{}

/// The rules of the calculator leave one way to end. It does nothing: its contract is the law.
pub fn the_rules_are_exclusive()
    ensures { IsExclusive calculator }
{}

/// Every line has an answer or is refused. What it finds needs no memory, and it keeps none of it: its contract is
/// the law.
pub fn every_line_is_answered_or_refused(line: &[u8])
    ensures { ((text : List ℕ) × Answers line.now text) ⊎ ((refusal : UtcRefusal) × Refuses line.now refusal) }
{
    if let Ok(outcome) = outcome_of(line) {
        let _ = is_written(outcome);
    }
}
