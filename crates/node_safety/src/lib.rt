//! Laws of safety over the rules of a node with peers. The rules are our own choice, after C310. No function here does
//! anything: its contract is the law.
#![tactic(auto)]

ghost use Rattle.sync_rules.specs.Ranges.{IsInRange};
ghost use Rattle.node_rules.specs.History.{NodeHistory, bare};
ghost use Rattle.node_rules.specs.Rules.{IsRuled};
ghost use Rattle.node_safety.specs.Safety.{IsSafe, NamesOnlyFalse, ChangesAreInRange, ServingPublishesNothing};
ghost use Rattle.node_safety.specs.Answers.{HonestServersAnswerRight};
ghost use Rattle.node_safety.specs.Laws.{EventsHaveHistories, ReadsAreAsAlone, ExactWorldsAreHonest, AdoptsHonestly, HalfIsTooMany};

/// Every history that the rules of a node give, with its numbers in their ranges, is safe: in every honest world each
/// reading is unspecified or contains true time, and in every history the readings of a lane never go back but across
/// a step that the log names. So it is for every roster: for clerks, for servers with an interval of their own, and
/// where the sources are servers of NTP.
#[tactic(auto, using(crate::proofs::Safe::safe))]
pub fn every_history_of_a_node_is_safe()
    ensures { (history : NodeHistory) → IsRuled history → IsInRange (bare history) → IsSafe history }
{}

/// A read gives a node with peers what it gives one alone: one reading, that of the current record, or none where it is
/// regressed. So what `sync_rules` says of reads is said of a node's too.
#[tactic(auto, using(crate::proofs::Worlds::reads_are_as_alone))]
pub fn reads_are_as_alone()
    ensures { ReadsAreAsAlone }
{}

/// In every honest world each source that the log names as false gave a false interval, and the node itself is never
/// named.
#[tactic(auto, using(crate::proofs::False::names_only_false))]
pub fn only_false_sources_are_named()
    ensures { (history : NodeHistory) → IsRuled history → IsInRange (bare history) → NamesOnlyFalse history }
{}

/// No change of the clock is out of its range: each record that is published is one that readings can be taken from,
/// and each interval that is adopted is one that a record may be anchored to.
#[tactic(auto, using(crate::proofs::Ranging::changes_are_in_range))]
pub fn changes_stay_in_range()
    ensures { (history : NodeHistory) → IsRuled history → IsInRange (bare history) → ChangesAreInRange history }
{}

/// Serving publishes nothing: among the actions of an event of a lane there is no record, whatever clients send.
pub fn serving_publishes_nothing()
    ensures { ServingPublishesNothing }
{}

/// The premise on a round is one that honest servers meet. An answer is right where its server's interval held true
/// time at some moment between its asking and its coming; that of a server of NTP (RFC 5905), where the server's time,
/// widened by half the root delay plus the root dispersion, held it when the query came and when the reply was sent.
/// And a round of right answers is honest, whatever it adopts.
#[tactic(auto, using(crate::proofs::Answers::honest_servers_answer_right))]
pub fn honest_servers_answer_right()
    ensures { HonestServersAnswerRight }
{}

/// Whatever happens to a node, the rules give its history. The world of an exact oscillator is honest, where the first
/// interval is right and fewer than half of the intervals of each round that adopts are false in it; and there is a
/// history with a round that adopts an interval, and an honest world of it.
#[tactic(auto, using(crate::proofs::Worlds::events_have_histories, crate::proofs::Examples::adopts_honestly))]
pub fn honest_worlds_exist()
    ensures histories { EventsHaveHistories }
    ensures worlds { ExactWorldsAreHonest }
    ensures adopts { AdoptsHonestly }
{}

/// Fewer than half is as many as can be borne: there is a history of a clerk of two servers, and a world in which all
/// is honest but that one of the two intervals is false, and a reading that lacks true time.
#[tactic(auto, using(crate::proofs::Examples::half_is_too_many))]
pub fn half_is_too_many()
    ensures { HalfIsTooMany }
{}
