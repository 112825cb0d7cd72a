//! Laws of capture lines. These functions do nothing: their contracts are the laws.

ghost use Rattle.std.specs.Prelude.{◌≡◌, ◌⊎◌, ◌≤◌, ℕ, List, length, Option};
ghost use Rattle.line_reader.specs.declared.limits.TheConstants.{MAX_LINE};
ghost use Rattle.line_reader.specs.Fields.{fields_of};
ghost use Rattle.line_reader.specs.Lines.{IsLine};
ghost use Rattle.dts_capture.specs.declared.event.Event.{Event};
ghost use Rattle.dts_capture.specs.declared.line.Line.{Line};
ghost use Rattle.dts_capture.specs.declared.line.Line.TheVariants as line;
ghost use Rattle.dts_capture.specs.Grammar.{Fault, line_forms};
ghost use Rattle.dts_capture.specs.Spelling.{Spells, IsWrongAt};
ghost use Rattle.dts_capture.specs.Printing.{line_fields, line_text};
ghost use Rattle.dts_capture.specs.Ranges.{IsLineOf, IsLineInRange, IsSpellable, octets_of, most_octets};

/// A text says one line or is wrong in one way, and not both.
pub fn lines_have_one_reading()
    ensures total { (current : Option ℕ) (text : List ℕ) → ((l : Line) × Spells current text l) ⊎ ((fault : Fault) × IsWrongAt current text fault) }
    ensures line { (current : Option ℕ) (text : List ℕ) (l m : Line) → Spells current text l → Spells current text m → l ≡ m }
    ensures excluded { (current : Option ℕ) (text : List ℕ) (l : Line) (fault : Fault) → Spells current text l → IsWrongAt current text fault → ⊥ }
    ensures fault { (current : Option ℕ) (text : List ℕ) (fault other : Fault) → IsWrongAt current text fault → IsWrongAt current text other → fault ≡ other }
{}

/// The printed text of a line spells it where its values are in the ranges of the grammar and the text is not too long,
/// and no text spells any other line. A line with at most 8,162 octets is never too long, and one that names no record is
/// in range whatever record is current.
pub fn lines_can_be_spelled()
    ensures spelled { (current : Option ℕ) (l : Line) → IsSpellable current l → Spells current (line_text l) l }
    ensures only { (current : Option ℕ) (text : List ℕ) (l : Line) → Spells current text l → IsSpellable current l }
    ensures fits { (current : Option ℕ) (l : Line) → IsLineInRange current l → length (octets_of l) ≤ most_octets → length (line_text l) ≤ MAX_LINE }
    ensures any_record { (current other : Option ℕ) (e : Event) → IsLineInRange current (line.Event Option.None e) → IsLineInRange other (line.Event Option.None e) }
    ensures fields { (current : Option ℕ) (l : Line) → IsLineOf (line_forms current) l → fields_of (line_text l) ≡ line_fields l }
    ensures is_line { (current : Option ℕ) (l : Line) → IsSpellable current l → IsLine (line_text l) }
{}
