//! What clients ask changes nothing of what a node does with its servers and its clock, as a law over the rules of
//! `node_rules`. No function here does anything: its contract is the law.
#![tactic(auto)]

ghost use Rattle.sync_apart.specs.Apart.{AsksWhatIsSo, GivesEachEvent, ServesApart};

/// Serving changes no action of the sync part, nor the clock: for every list of events, the sync positions have the
/// actions, and the node the current record, that they would have without any event of a lane.
#[tactic(auto, using(crate::proofs::Together::serves_apart))]
pub fn serving_changes_nothing_of_the_sync_part()
    ensures { ServesApart }
{}

/// The positions that the law speaks of are all of the sync part: each of its events has one, in their order.
#[tactic(auto, using(crate::proofs::Places::gives_each_event))]
pub fn each_event_of_the_sync_part_has_its_position()
    ensures { GivesEachEvent }
{}

/// What the law asks is so: the servers of a roster have numbers below those of connections, and the events that a
/// capture can tell of are asks over connections.
#[tactic(auto, using(crate::proofs::Said::asks_what_is_so))]
pub fn the_law_asks_what_is_so()
    ensures { AsksWhatIsSo }
{}
