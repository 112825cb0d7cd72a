//! Laws of timestamps. Each function does nothing: its contract is the law.

ghost use Rattle.std.specs.Prelude.{◌≡◌, ◌↔◌, ℕ, ℤ, ◌≤ℤ◌, List, Some};
ghost use Rattle.utc_value.specs.declared.BytesFault.{BytesFault};
ghost use Rattle.utc_value.specs.Stamp.{Stamp, IsInRange};
ghost use Rattle.utc_value.specs.Members.{earliest_of, latest_of, IsMember};
ghost use Rattle.utc_value.specs.Octets.{octets_of, RefusesOctets};

/// Octets are those of one timestamp at most; those of a timestamp are not refused, and others for one fault.
pub fn one_timestamp_of_octets()
    ensures one { (s t : Stamp) → IsInRange s → IsInRange t → octets_of s ≡ octets_of t → s ≡ t }
    ensures not_both { (s : Stamp) (fault : BytesFault) → IsInRange s → RefusesOctets (octets_of s) fault → ⊥ }
    ensures one_fault { (octets : List ℕ) (x y : BytesFault) → RefusesOctets octets x → RefusesOctets octets y → x ≡ y }
{}

/// The members of a timestamp are the whole times from its earliest to its latest.
pub fn members_are_from_the_earliest_to_the_latest()
    ensures { (s : Stamp) (low high x : ℤ) → earliest_of s ≡ Some low → latest_of s ≡ Some high → IsMember s x ↔ ((low ≤ℤ x) × (x ≤ℤ high)) }
{}
