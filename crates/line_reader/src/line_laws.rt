//! Laws of lines. These functions do nothing: their contracts are the laws.

ghost use Rattle.std.specs.Prelude.{◌≡◌, ◌⊎◌, ℕ, List, [], ◌∷◌, ◌++◌, Option, Some, Ok, Err, true, false};
ghost use Rattle.dts_base.specs.Told.{Told};
ghost use Rattle.dts_base.specs.declared.outcome.Failed.{Failed};
ghost use Rattle.line_reader.specs.Reader.{Reader, Advances};
ghost use Rattle.line_reader.specs.Taken.{HasTaken, HasWhole, IsLong};
ghost use Rattle.line_reader.specs.Lines.{lines_of, whole_lines, IsLine, AreLines, joined, last_line};
ghost use Rattle.line_reader.specs.Laws.{IsJoined};

/// The whole lines are the first lines, and octets are nothing but their lines and line feeds.
pub fn lines_join()
    ensures { (octets : List ℕ) → IsJoined octets }
{}

/// No line has a line feed.
pub fn lines_are_lines()
    ensures { (octets : List ℕ) → AreLines (lines_of octets) }
{}

/// Any lines without line feeds are the lines of some octets, with or without a last line that lacks its line feed.
pub fn lines_of_joined()
    ensures lines { (lines : List (List ℕ)) (rest : List ℕ) → AreLines lines → IsLine rest → lines_of (joined lines ++ rest) ≡ lines ++ last_line rest }
    ensures whole { (lines : List (List ℕ)) (rest : List ℕ) → AreLines lines → IsLine rest → whole_lines (joined lines ++ rest) ≡ lines }
{}

/// A new reader took no line of the octets that a source tells. A reader that goes on to a line took that line too,
/// or it is one that is too long; at the end it took all lines, and none of the octets is left; and where a read failed
/// it took exactly the lines that are whole in what was read.
pub fn lines_are_taken_in_order()
    ensures begins { (octets : List ℕ) → HasTaken octets [] (record { line = []; ahead = []; ended = false }) (Some octets) }
    ensures line { (octets : List ℕ) (taken : List (List ℕ)) (old new : Reader) (left more : Option (List ℕ)) → HasTaken octets taken old left →
        Told left more (Advances {E = Failed} old new (Ok true)) → HasTaken octets (taken ++ new.line ∷ []) new more ⊎ IsLong octets taken new.line }
    ensures end { (octets : List ℕ) (taken : List (List ℕ)) (old new : Reader) (left more : Option (List ℕ)) → HasTaken octets taken old left →
        Told left more (Advances {E = Failed} old new (Ok false)) → (lines_of octets ≡ taken) × (more ≡ Some []) }
    ensures failed { (octets : List ℕ) (taken : List (List ℕ)) (old new : Reader) (left more : Option (List ℕ)) (failed : Failed) → HasTaken octets taken old left →
        Told left more (Advances old new (Err failed)) → HasTaken octets taken new more × HasWhole octets taken more }
{}
