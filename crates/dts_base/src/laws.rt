//! Laws over the definitions: each is the contract of a call that does nothing.
ghost use Rattle.std.specs.Prelude.{◌≡◌, List, ℕ};
ghost use Rattle.dts_base.specs.declared.address.Address.{Address};
ghost use Rattle.dts_base.specs.declared.wire.Field.{Field};
ghost use Rattle.dts_base.specs.Addresses.{Spells};
ghost use Rattle.dts_base.specs.Names.{field_name};

/// A text spells one address at most.
pub fn one_address()
    ensures { (text : List ℕ) (a b : Address) → Spells text a → Spells text b → a ≡ b }
{}

/// No two fields have one printed name.
pub fn fields_differ_by_name()
    ensures { (f g : Field) → field_name f ≡ field_name g → f ≡ g }
{}
