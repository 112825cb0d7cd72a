//! Laws over the definitions. Each function does nothing: its contract is the law.

ghost use Rattle.std.specs.Prelude.{◌≡◌, ℕ, ℤ, false, true, List, ◌∷◌, ◌++◌, Err};
ghost use Rattle.time_provider.specs.declared.fault.ProviderFault.TheVariants as fault;
ghost use Rattle.time_provider.specs.Past.{Past, Deed, Answer, Took, and_then, answer_of, is_used, query_of};

/// Once a reply was used, no other of that peer is taken before the next poll.
pub fn replies_are_taken_once()
    ensures { (past : Past) (newer older : List Deed) (peer osc : ℕ) (answer : Answer) (octets : List ℕ) (near : ℤ)
        → is_used answer ≡ true → past.deeds ≡ newer ++ Took peer answer ∷ older
        → answer_of past peer osc octets near ≡ Err fault.NoQuery }
{}

/// A reply that is refused leaves each open query open.
pub fn refused_replies_change_nothing()
    ensures { (past : Past) (peer other : ℕ) (answer : Answer) → is_used answer ≡ false
        → query_of (and_then past (Took peer answer)) other ≡ query_of past other }
{}
