//! A law over the definitions: the contract of a call that does nothing.

ghost use Rattle.std.specs.Prelude.{◌≡◌, ◌⊎◌, ℕ, List};
ghost use Rattle.dts_base.specs.declared.wire.Refused.{Refused};
ghost use Rattle.pdu_fields.specs.declared.pdu.Pdu.{Pdu};
ghost use Rattle.pdu_fields.specs.Grammar.{FirstWrong, Spells};

/// Octets spell one PDU, or they have one first wrong field, and not both.
pub fn octets_have_one_reading()
    ensures some { (b : List ℕ) → ((v : Pdu) × Spells v b) ⊎ ((refused : Refused) × FirstWrong b refused) }
    ensures value { (b : List ℕ) (v w : Pdu) → Spells v b → Spells w b → v ≡ w }
    ensures refusal { (b : List ℕ) (refused other : Refused) → FirstWrong b refused → FirstWrong b other → refused ≡ other }
    ensures excluded { (b : List ℕ) (v : Pdu) (refused : Refused) → Spells v b → FirstWrong b refused → ⊥ }
{}
