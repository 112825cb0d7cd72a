//! The rules of a node with peers, as definitions over its history: whom a round asks, what a server's answer is used
//! for, and what a client is answered. The rules are our own choice, after C310. No function here does anything: its
//! contract is the law.
#![tactic(auto)]

ghost use Rattle.node_rules.specs.Laws.{FollowsRulesAlone, ReadsStamps, ServingLeavesTheClock, WhatIsWrongChangesNothing};

/// A node without servers, to which nothing comes from a peer, does what the rules of a node alone say: its history
/// without what was found is that of `sync_rules`, for every list of ticks, reads and events of direct rounds.
#[tactic(auto, using(crate::proofs::Alone::follows_rules_alone))]
pub fn a_node_alone_follows_the_rules_of_replay()
    ensures { FollowsRulesAlone }
{}

/// The timestamp that the rules read of a reply's octets is the one that those octets spell.
#[tactic(auto, using(crate::proofs::Stamps::stamp_is_read))]
pub fn timestamps_are_read_as_they_are_spelled()
    ensures { ReadsStamps }
{}

/// Serving leaves the clock as it was: an event of a lane, whatever clients send, leaves the current record.
#[tactic(auto, using(crate::proofs::Serving::serving_leaves_the_clock))]
pub fn serving_leaves_the_clock()
    ensures { ServingLeavesTheClock }
{}

/// What is wrong changes nothing else: a regressed event, what a server sent and is refused, and an event that gives a note
/// alone leave the current record and every query as they were.
#[tactic(auto, using(crate::proofs::Refusing::what_is_wrong_changes_nothing))]
pub fn what_is_wrong_changes_nothing_else()
    ensures { WhatIsWrongChangesNothing }
{}
