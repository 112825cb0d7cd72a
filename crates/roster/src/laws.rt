//! Laws over the definitions: each is the contract of a call that does nothing.

ghost use Rattle.std.specs.Prelude.{◌≡◌, ◌<◌, ◌≤◌, ◌⊎◌, ℕ, List, [], None, codes, length};
ghost use Rattle.roster.specs.RosterData.{RosterData};
ghost use Rattle.roster.specs.Wrong.{document_of};
ghost use Rattle.roster.specs.Rosters.{IsRoster, Refuses, GivesSettings, alone};
ghost use Rattle.roster.specs.Limits.{KeepsLimits};

use crate::{MAX_OCTETS, RosterCause, RosterFault};

/// Octets are the file of a roster, or they are refused: one of the two, and never both. They are the file of one roster
/// alone, and where they are refused it is with one path and one cause. Want of memory does not count.
pub fn octets_are_one_roster_or_refused_once()
    ensures either { (octets : List ℕ)
        → ((r : RosterData) × IsRoster octets r)
        ⊎ ((path : List ℕ) × (cause : RosterCause) × Refuses octets (RosterFault.Wrong path cause)) }
    ensures not_both { (octets path : List ℕ) (cause : RosterCause) (r : RosterData)
        → IsRoster octets r → Refuses octets (RosterFault.Wrong path cause) → ⊥ }
    ensures one_roster { (octets : List ℕ) (r s : RosterData) → IsRoster octets r → IsRoster octets s → r ≡ s }
    ensures one_refusal { (octets path other : List ℕ) (cause reason : RosterCause)
        → Refuses octets (RosterFault.Wrong path cause) → Refuses octets (RosterFault.Wrong other reason)
        → (path ≡ other) × (cause ≡ reason) }
{}

/// The whole file is tested before any key: where it has more octets than the most, it is refused as too long, whatever
/// they are, and otherwise, where it is no document, as that.
pub fn whole_file_is_tested_first()
    ensures long { (octets : List ℕ) → MAX_OCTETS < length octets → Refuses octets (RosterFault.Wrong [] RosterCause.Long) }
    ensures document { (octets : List ℕ) → length octets ≤ MAX_OCTETS → document_of octets ≡ None
        → Refuses octets (RosterFault.Wrong [] RosterCause.Document) }
{}

/// A file is never refused for the role of its node: that test is a command's.
pub fn files_are_not_refused_for_the_role()
    ensures { (octets path : List ℕ) → Refuses octets (RosterFault.Wrong path RosterCause.Role) → ⊥ }
{}

/// A roster that was read is within the limits: of the octets, of the servers, of those of NTP, and of each name; and no
/// two of its servers have the same name.
pub fn rosters_keep_the_limits()
    ensures { (octets : List ℕ) (r : RosterData) → IsRoster octets r → KeepsLimits octets r }
{}

/// A name is all that a file needs: the roster of a node alone, with each default and no server, is that of the shortest
/// such file.
pub fn a_name_is_all_that_a_file_needs()
    ensures { (r : RosterData) → GivesSettings alone r.settings → r.entries ≡ [] → IsRoster (codes "[node]\nname = \"node\"\n") r }
{}
