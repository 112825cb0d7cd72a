//! Laws of fields and of numbers. These functions do nothing: their contracts are the laws.

ghost use Rattle.std.specs.Prelude.{◌≡◌, ◌↔◌, ◌⊎◌, ℕ, ◌+◌, ◌-◌, ◌^◌, ◌<◌, List, [], ◌∷◌, ◌++◌, length, take, drop, ℤ, unsigned_abs};
ghost use Rattle.std.specs.Fmt.{signed_decimal};
ghost use Rattle.line_reader.specs.Fields.{text_of, fields_of, column_of};
ghost use Rattle.line_reader.specs.Laws.{HaveNoSpace};
ghost use Rattle.line_reader.specs.Numbers.{IsWhole, IsWithin, IsNumberFault};
ghost use Rattle.line_reader.specs.declared.number.NumberFault.{NumberFault};

/// A line is its fields, joined by single spaces, and fields without spaces are those of the line that they make.
pub fn fields_join()
    ensures line { (line : List ℕ) → text_of (fields_of line) ≡ line }
    ensures fields { (first : List ℕ) (others : List (List ℕ)) → HaveNoSpace (first ∷ others) → fields_of (text_of (first ∷ others)) ≡ first ∷ others }
{}

/// A field stands at its column, and the end of a line one past its last octet.
pub fn fields_have_columns()
    ensures field { (line : List ℕ) (before : List (List ℕ)) (field : List ℕ) (behind : List (List ℕ)) → fields_of line ≡ before ++ field ∷ behind →
        take (length field) (drop (column_of line (field ∷ behind) - 1) line) ≡ field }
    ensures end { (line : List ℕ) → column_of line [] ≡ length line + 1 }
{}

/// A field writes one whole number at most, and one of up to 64 bits is written in one way.
pub fn numbers_have_one_text()
    ensures number { (field : List ℕ) (y z : ℤ) → IsWhole field y → IsWhole field z → y ≡ z }
    ensures text { (field : List ℕ) (z : ℤ) → unsigned_abs z < 2 ^ 64 → (IsWhole field z ↔ (field ≡ signed_decimal z)) }
{}

/// A field that writes a number of the range has no fault, and any other has one.
pub fn number_faults_exclude()
    ensures number { (field : List ℕ) (from to z : ℤ) (fault : NumberFault) → IsNumberFault from to field fault → IsWhole field z → IsWithin from to z → ⊥ }
    ensures fault { (field : List ℕ) (from to : ℤ) (fault other : NumberFault) → IsNumberFault from to field fault → IsNumberFault from to field other → fault ≡ other }
    ensures total { (field : List ℕ) (from to : ℤ) → ((z : ℤ) × IsWhole field z × IsWithin from to z) ⊎ ((fault : NumberFault) × IsNumberFault from to field fault) }
{}
