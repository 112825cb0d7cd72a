//! The rules of synchronisation as definitions over histories, and the laws over them. The rules are our own
//! choice, after C310. No function here does anything: its contract is the law.
#![tactic(auto)]

ghost use Rattle.sync_rules.specs.History.{History};
ghost use Rattle.sync_rules.specs.Rules.{IsRuled};
ghost use Rattle.sync_rules.specs.Ranges.{IsInRange};
ghost use Rattle.sync_rules.specs.Safety.{IsSafe, NamesOnlyFalse};
ghost use Rattle.sync_rules.specs.Laws.{CanBeHonest, StepsAreNamed, ReadsGive, ReadsAreOfOneLane, ContainsUpToInaccuracy, DoesNotFollowOn};

/// Every history that the rules give, with its numbers in their ranges, is safe: in every honest world each
/// reading is unspecified or contains true time, and in every history the readings of a lane never go back but
/// across a step that the log names. After the promise of C310 that an interval contains true time. And in
/// every honest world each source that the log names as false gave a false interval.
pub fn every_history_is_safe()
    ensures safe { (history : History) → IsRuled history → IsInRange history → IsSafe history }
    ensures false_sources { (history : History) → IsRuled history → IsInRange history → NamesOnlyFalse history }
{}

/// The premise of safety is not empty: the world of an exact oscillator is honest from any time at which the
/// first interval is right, where fewer than half of the answers of each round that adopts are false in it.
pub fn histories_can_be_honest()
    ensures { CanBeHonest }
{}

/// A live read gives one reading, that of the current record, and a regressed one none; reads are of one lane;
/// and each step of the clock is named in the log.
pub fn reads_give_readings()
    ensures give { ReadsGive }
    ensures lane { ReadsAreOfOneLane }
    ensures steps { StepsAreNamed }
{}

/// A reading contains the times up to its inaccuracy and none beyond it, and readings that go back without a
/// named step do not follow on.
pub fn readings_are_exact()
    ensures contain { ContainsUpToInaccuracy }
    ensures follow { DoesNotFollowOn }
{}
