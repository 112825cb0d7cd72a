//! Laws over the definitions. Each function does nothing: its contract is the law.

ghost use Rattle.std.specs.Prelude.{◌≡◌, ◌<◌, ℕ, ℤ, ◌≤ℤ◌, List, ◌++◌, map, sum, Some};
ghost use Rattle.dts_base.specs.declared.wire.Refused.{Refused};
ghost use Rattle.ntp_packet.specs.declared.codec.Packet.{Packet};
ghost use Rattle.ntp_packet.specs.Fields.{offset_of, offsets_from, size_of};
ghost use Rattle.ntp_packet.specs.Packets.{Fits, IsVersion, Spells, first_wrong, octets_of};
ghost use Rattle.ntp_packet.specs.Fractions.{Fraction, IsAtMost, whole, floor_of, ceiling_of};
ghost use Rattle.ntp_packet.specs.Intervals.{IsNearestEra, HeldTrueTime, sent_in, received_in};
ghost use Rattle.ntp_packet.specs.Eras.{era_of, interval_of};

use crate::{FIELDS, PACKET_LENGTH};

/// Each field begins where those before it end, and the last one ends with the packet.
pub fn fields_fill_the_packet()
    ensures begins { map offset_of FIELDS ≡ offsets_from 0 FIELDS }
    ensures ends { sum (map size_of FIELDS) ≡ PACKET_LENGTH }
{}

/// Octets spell one packet, or have one first wrong field, and not both.
pub fn one_packet_of_octets()
    ensures one { (p q : Packet) (octets : List ℕ) → Spells p octets → Spells q octets → p ≡ q }
    ensures not_both { (p : Packet) (octets : List ℕ) (refused : Refused) → Spells p octets → first_wrong octets ≡ Some refused → ⊥ }
{}

/// The octets of a packet whose version is one that is read spell it, also where others follow.
pub fn packets_read_back()
    ensures { (p : Packet) (more : List ℕ) → Fits p → IsVersion p.version → Spells p (octets_of p ++ more) }
{}

/// Fractions are rounded to the nearest whole number below and above.
pub fn fractions_are_rounded()
    ensures floor { (a : Fraction) (z : ℤ) → 0 < a.under → IsAtMost (whole z) a → z ≤ℤ floor_of a }
    ensures below { (a : Fraction) → 0 < a.under → IsAtMost (whole (floor_of a)) a }
    ensures ceiling { (a : Fraction) (z : ℤ) → 0 < a.under → IsAtMost a (whole z) → ceiling_of a ≤ℤ z }
    ensures above { (a : Fraction) → 0 < a.under → IsAtMost a (whole (ceiling_of a)) }
{}

/// Each timestamp has one nearest era near each count: the one that is computed.
pub fn one_era_is_nearest()
    ensures some { (stamp : ℕ) (near : ℤ) → IsNearestEra (era_of stamp near) stamp near }
    ensures one { (era other : ℤ) (stamp : ℕ) (near : ℤ) → IsNearestEra era stamp near → IsNearestEra other stamp near → era ≡ other }
{}

/// Where the server's time, widened by half the root delay plus the root dispersion, held true time when it sent the
/// reply and when it received the query, the low end of the interval is not above true time on sending, and the high
/// end is not below true time on receipt.
pub fn true_time_is_between()
    ensures sending { (p : Packet) (near time : ℤ) → HeldTrueTime p (sent_in (era_of p.transmit near) p) time
        → (interval_of p near).0 ≤ℤ time }
    ensures receipt { (p : Packet) (near time : ℤ) → HeldTrueTime p (received_in (era_of p.transmit near) p) time
        → time ≤ℤ (interval_of p near).1 }
{}
