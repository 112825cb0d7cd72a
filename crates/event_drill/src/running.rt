ghost use Rattle.std.specs.Prelude.{◌≡◌, ℕ, ◌+◌, ◌<◌, ◌≤◌, IfOk, OnOk};
ghost use Rattle.slew_clock.specs.UsualRates.{usual_rates};
ghost use Rattle.sync_rules.specs.History.{History, Begun};
ghost use Rattle.sync_rules.specs.Rules.{followed_by};
ghost use Rattle.event_drill.specs.declared.limits.TheConstants.{MAX_EVENTS};
ghost use Rattle.event_drill.specs.Made.{seeded, made, first, made_history};
ghost use Rattle.event_drill.specs.Summary.{counts_of, actions_in};
ghost use Rattle.event_drill.specs.Running.{RunStands};

use crate::maker::interval_around;
use crate::{Counts, MAX_EVENTS, Maker, START_ERROR, START_VALUE};
use capture_replay::Node;
use dts_base::NoMemory;
use slew_clock::Rates;
use std::alloc::Global;

/// A drill under way: what makes its events, the node that takes them, and the counts of the log so far.
#[derive(Debug, Drop)]
pub struct Run {
    maker: Maker,
    node: Node,
    counts: Counts,
}

impl Run {
    /// A drill that has started, and has made no event yet.
    pub fn start(alloc: Global, seed: u32) -> Run
        ensures stands { RunStands result 0 (Begun (record { rates = usual_rates }) first) }
        ensures maker { result.maker ≡ seeded seed }
    {
        let (node, action) = Node::start(
            alloc,
            Rates::usual(),
            0,
            START_VALUE as i64,
            Some(interval_around(START_VALUE, START_ERROR)),
        );
        let mut counts = Counts::new();
        counts.count(&action);
        Run {
            maker: Maker::new(seed),
            node,
            counts,
        }
    }

    /// Makes an event, and takes it.
    pub fn step(&mut self, alloc: Global) -> Result<(), NoMemory>
        requires { (n : ℕ) × (history : History) × (n < MAX_EVENTS) × RunStands self.old n history }
        ensures stands { OnOk result ((n : ℕ) (history : History) → n < MAX_EVENTS → RunStands self.old n history →
            RunStands self.new (n + 1) (followed_by history (made self.old.maker).event)) }
        ensures maker { self.new.maker ≡ (made self.old.maker).next }
    {
        let event = self.maker.next_event();
        self.node.step(alloc, event, &mut self.counts)
    }
}

/// Makes so many events from a seed, takes them one after the other, and counts the lines of the log.
pub fn run_events(alloc: Global, seed: u32, events: u32) -> Result<Counts, NoMemory>
    requires { events ≤ MAX_EVENTS }
    ensures { IfOk result (λ counts. counts ≡ counts_of (actions_in (made_history seed events))) }
{
    let mut run = Run::start(alloc, seed);
    for _ in 0..events {
        run.step(alloc)?;
    }
    Ok(run.counts)
}
