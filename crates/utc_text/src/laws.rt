//! Laws of what texts spell and times show. Each function does nothing: its contract is the law.

ghost use Rattle.std.specs.Prelude.{◌≡◌, ◌⊎◌, ℕ, ℤ, List, Option};
ghost use Rattle.utc_value.specs.Stamp.{Stamp, IsInRange};
ghost use Rattle.utc_text.specs.declared.fault.TextFault.{TextFault};
ghost use Rattle.utc_text.specs.FirstWrong.{IsAbsoluteFault, IsRelativeFault};
ghost use Rattle.utc_text.specs.Texts.{IsPrintable, SpellsAbsolute, SpellsRelative};
ghost use Rattle.utc_text.specs.Printing.{IsShown, IsLengthShown};

use crate::dates::civil;
use utc_value::Utc;

/// A text spells one time at most, and never both a moment and a length.
pub fn one_time_of_a_text()
    ensures moment { (text : List ℕ) (u v : Stamp) → SpellsAbsolute text u → SpellsAbsolute text v → u ≡ v }
    ensures length { (text : List ℕ) (u v : Stamp) → SpellsRelative text u → SpellsRelative text v → u ≡ v }
    ensures apart { (text : List ℕ) (u v : Stamp) → SpellsAbsolute text u → SpellsRelative text v → ⊥ }
{}

/// A text spells a moment or has a fault as one, but not both, and has one fault at most.
pub fn a_moment_or_one_fault()
    ensures either { (text : List ℕ) → ((u : Stamp) × SpellsAbsolute text u) ⊎ ((fault : TextFault) × IsAbsoluteFault text fault) }
    ensures not_both { (text : List ℕ) (u : Stamp) (fault : TextFault) → SpellsAbsolute text u → IsAbsoluteFault text fault → ⊥ }
    ensures one_fault { (text : List ℕ) (x y : TextFault) → IsAbsoluteFault text x → IsAbsoluteFault text y → x ≡ y }
{}

/// A text spells a length or has a fault as one, but not both, and has one fault at most.
pub fn a_length_or_one_fault()
    ensures either { (text : List ℕ) → ((u : Stamp) × SpellsRelative text u) ⊎ ((fault : TextFault) × IsRelativeFault text fault) }
    ensures not_both { (text : List ℕ) (u : Stamp) (fault : TextFault) → SpellsRelative text u → IsRelativeFault text fault → ⊥ }
    ensures one_fault { (text : List ℕ) (x y : TextFault) → IsRelativeFault text x → IsRelativeFault text y → x ≡ y }
{}

/// A time is printed as one text.
pub fn one_text_of_a_time()
    ensures moment { (time tdf : ℤ) (inaccuracy : Option ℕ) (t s : List ℕ) → IsShown time tdf inaccuracy t → IsShown time tdf inaccuracy s → t ≡ s }
    ensures length { (time : ℤ) (inaccuracy : Option ℕ) (t s : List ℕ) → IsLengthShown time inaccuracy t → IsLengthShown time inaccuracy s → t ≡ s }
{}

/// Every moment of the years that are written has a text: that of its civil time, which needs no memory.
pub fn every_printable_moment_has_a_text(u: Utc, tdf: i16)
    ensures { IsPrintable u tdf → (text : List ℕ) × IsShown u.time tdf u.inaccuracy text }
{
    let _kind = u.kind();
    let _ = civil(u, tdf);
}

/// Every length of time has a text.
pub fn every_length_has_a_text()
    ensures { (u : Stamp) → IsInRange u → (text : List ℕ) × IsLengthShown u.time u.inaccuracy text }
{}
