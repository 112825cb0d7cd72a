ghost use Rattle.std.specs.Prelude.{◌≡◌, ℕ, ℤ, ◌<◌, ◌≤◌, List, Option, length};
ghost use Rattle.slew_clock.specs.declared.rates.Rates.{Rates};
ghost use Rattle.clerk.specs.Outcome.{Opened, Short, concluded, outcome, answers_at, unanswered};

/// The node's own interval is no answer: where the answers are fewer than required, nothing is adopted, whatever it is. It
/// does nothing: its contract is the law, as with the next.
pub fn own_interval_is_no_answer()
    ensures { (required : ℕ) (answers : List (ℤ × ℤ)) (own : Option (ℤ × ℤ)) → length answers < required → concluded required answers own ≡ Short (length answers) required }
{}

/// A round does not wait at its deadline, nor where no query may still be answered.
pub fn a_round_at_its_deadline_ends()
    ensures deadline { (r : Rates) (round : Opened) (own : Option (ℤ × ℤ)) (osc : ℕ) → round.deadline ≤ osc
        → outcome r round own osc ≡ concluded round.required (answers_at r osc round.queries) own }
    ensures answered { (r : Rates) (round : Opened) (own : Option (ℤ × ℤ)) (osc : ℕ) → unanswered round.queries ≡ 0
        → outcome r round own osc ≡ concluded round.required (answers_at r osc round.queries) own }
{}
