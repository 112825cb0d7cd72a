//! A law over the definitions: the contract of a call that does nothing.

ghost use Rattle.std.specs.Prelude.{◌≡◌, ℕ, List, Ok};
ghost use Rattle.pdu_fields.specs.declared.pdu.Pdu.{Pdu};
ghost use Rattle.pdu_fields.specs.Grammar.{Spells};
ghost use Rattle.rpc_pdu.specs.Spelling.{encoding};
ghost use Rattle.rpc_pdu.specs.Values.{FitsPdu};

/// What a PDU is encoded to spells that PDU.
pub fn decode_undoes_encode()
    ensures { (v : Pdu) (b : List ℕ) → FitsPdu v → encoding v ≡ Ok b → Spells v b }
{}
