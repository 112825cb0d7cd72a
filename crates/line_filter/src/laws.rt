//! Laws of filters. These functions do nothing: their contracts are the laws.

ghost use Rattle.std.specs.Prelude.{◌≡◌, ℕ, ◌≤◌, List, [], Err, Result};
ghost use Rattle.line_reader.specs.declared.limits.TheConstants.{MAX_LINES};
ghost use Rattle.line_filter.specs.declared.stop.Stop.{Stop};
ghost use Rattle.line_filter.specs.Filters.{Filters, IsValid, RefusesLine};
ghost use Rattle.line_filter.specs.Laws.{IsExclusive, IsTotal, IsSettled};

use crate::LineFilter;

/// By exclusive rules octets are taken as a whole or refused in one way at most: the answer is one, and so is the text.
pub fn one_way_to_end<F: LineFilter>()
    ensures { IsExclusive F.rules → (from : F.State) (octets left more text other : List ℕ) (result answer : Result (Unit {0}) (Stop F.Cause)) →
        IsSettled result → IsSettled answer → Filters F.rules from octets left result text → Filters F.rules from octets more answer other → (result ≡ answer) × (text ≡ other) }
{}

/// By exclusive rules valid input is not refused.
pub fn valid_input_is_not_refused<F: LineFilter>()
    ensures { IsExclusive F.rules → (from : F.State) (octets left text other : List ℕ) (n : ℕ) (cause : F.Cause) →
        IsValid F.rules from octets text → Filters F.rules from octets left (Err (Stop.Refused n cause)) other → ⊥ }
{}

/// By total rules octets that are read to their end are taken as a whole or refused.
pub fn each_input_is_settled<F: LineFilter>()
    ensures { IsTotal F.rules → (from : F.State) (octets : List ℕ) →
        (result : Result (Unit {0}) (Stop F.Cause)) × (text : List ℕ) × IsSettled result × Filters F.rules from octets [] result text }
{}

/// A line behind as many as an input may have is refused as one too many, also where it is too long.
pub fn too_many_comes_first<F: LineFilter>()
    ensures { (before : ℕ) (state : F.State) (line : List ℕ) (cause : F.Cause) → MAX_LINES ≤ before → RefusesLine F.rules before state line cause → cause ≡ F.rules.too_many }
{}
