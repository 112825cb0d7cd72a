//! Laws over the definitions: the contracts of calls that do nothing.

ghost use Rattle.std.specs.Prelude.{◌≡◌, ◌⊎◌, ◌≤◌, ℕ, List, Ok, Err, length};
ghost use Rattle.hex.specs.Hex.{IsBytes, encode_lower};
ghost use Rattle.dts_base.specs.declared.wire.Refused.{Refused};
ghost use Rattle.pdu_fields.specs.declared.header.TheConstants.{MAX_FRAGMENT};
ghost use Rattle.wire_show.specs.Fields.{Part};
ghost use Rattle.wire_show.specs.Input.{octets_in};
ghost use Rattle.wire_show.specs.Output.{parts_as, output_of};
ghost use Rattle.wire_show.specs.Laws.{joined, BeginAt};

use crate::Shown;

/// An input has lines or is refused, and not both; these are one text, and that is one refusal.
pub fn one_output()
    ensures some { (kind : Shown) (input : List ℕ) → ((text : List ℕ) × (output_of kind input ≡ Ok text)) ⊎ ((refused : Refused) × (output_of kind input ≡ Err refused)) }
    ensures text { (kind : Shown) (input text other : List ℕ) → output_of kind input ≡ Ok text → output_of kind input ≡ Ok other → text ≡ other }
    ensures refusal { (kind : Shown) (input : List ℕ) (refused other : Refused) → output_of kind input ≡ Err refused → output_of kind input ≡ Err other → refused ≡ other }
    ensures excluded { (kind : Shown) (input text : List ℕ) (refused : Refused) → output_of kind input ≡ Ok text → output_of kind input ≡ Err refused → ⊥ }
{}

/// The octets of all fields, joined, are the octets that are shown: none is left out, and none stands twice.
pub fn lines_hold_the_octets()
    ensures { (kind : Shown) (octets : List ℕ) (parts : List Part) → parts_as kind octets ≡ Ok parts → joined parts ≡ octets }
{}

/// The first field begins at 0, and each other one behind the one before it.
pub fn offsets_go_on()
    ensures { (kind : Shown) (octets : List ℕ) (parts : List Part) → parts_as kind octets ≡ Ok parts → BeginAt 0 parts }
{}

/// The hex of all fields, joined, is an input that spells the octets that are shown, where an input may have so many.
pub fn lines_read_back()
    ensures { (kind : Shown) (octets : List ℕ) (parts : List Part) → IsBytes octets → length octets ≤ MAX_FRAGMENT → parts_as kind octets ≡ Ok parts → octets_in (encode_lower (joined parts)) ≡ Ok octets }
{}
