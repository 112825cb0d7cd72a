ghost use Rattle.std.specs.Prelude.{flat_map, ◌+◌, ◌<◌, ◌≡◌, ℕ, List, ◌⊎◌, ◌≤◌, ◌≤ℤ◌, pos, true, false, [], ◌∷◌, ◌++◌, length, codes, Option, Some, MatchResult, IfOk, IfErr, OnOk};
ghost use Rattle.std.specs.Bool.{MatchBool};
ghost use Rattle.line_reader.specs.declared.limits.TheConstants.{MAX_LINE};
ghost use Rattle.slew_clock.specs.declared.limits.TheConstants.{GREATEST_OSC};
ghost use Rattle.dts_capture.specs.declared.event.Event.TheVariants as event;
ghost use Rattle.dts_capture.specs.declared.line.LineCause.TheVariants as cause;
ghost use Rattle.dts_capture.specs.Spelling.{Spells, IsFaultOf};
ghost use Rattle.dts_capture.specs.Log.{log_text};
ghost use Rattle.sync_rules.specs.History.{History, Begun, given_at};
ghost use Rattle.sync_rules.specs.Rules.{actions_of, followed_by};
ghost use Rattle.sync_rules.specs.Ranges.{IsEventInRange, StartsInRange};
ghost use Rattle.capture_replay.specs.Standing.{StandsFor};
ghost use Rattle.capture_replay.specs.Unread.{IsUnread};
ghost use Rattle.capture_replay.specs.Capture.{Replayed, unstarted, capture, is_built, SaysStart, IsMisplaced, at_first};

use crate::{ActionTaker, CaptureFault, Node};
use dts_base::Interval;
use dts_capture::{Event, Line, LineCause, LineFault, is_blank, parse_line, parse_line_at};
use line_filter::{LineFilter, Unfit};
use line_reader::{Fields, MAX_LINE};
use slew_clock::Rates;
use std::alloc::Global;

/// A replay of a capture: the rates of its node, and the node from the start line on.
#[derive(Debug, Drop)]
pub struct Replay {
    rates: Rates,
    node: Option<Node>,
}

impl Replay {
    ghost use Rattle.capture_replay.specs.Steps.{StandsAt, NodeStands, number_at, latest};

    /// A replay that took no line yet.
    pub fn new(rates: Rates) -> Replay
        ensures { StandsAt result 0 (unstarted rates) }
    {
        Replay { rates, node: None }
    }

    // Whether the line is out of its place: the first one that is not blank says the start, and no later one does.
    fn is_misplaced(&self, line: &[u8]) -> bool
        ensures { (history : Option History) → NodeStands self.now.node history → MatchBool result (IsMisplaced history line.now) (IsMisplaced history line.now → ⊥) }
    {
        match self.node {
            None => !is_blank(line) && !says_start(line),
            Some(_) => says_start(line),
        }
    }

    // Reads a line.
    fn read_line(&self, alloc: Global, line: &[u8]) -> Result<Line, Unfit<CaptureFault>>
        ensures { MatchResult result (Spells (number_at self.now.node) line.now) (IsUnread (number_at self.now.node) line.now) }
    {
        match &self.node {
            None => parse_line(alloc, line).map_err(unread),
            Some(node) => parse_line_at(alloc, node.current_number(), line).map_err(unread),
        }
    }

    // Starts the node, and puts the text of its first record into the log.
    fn start(
        &mut self,
        alloc: Global,
        osc: u64,
        value: i64,
        first: Option<Interval>,
        log: &mut Vec<u8>,
    ) -> Result<(), Unfit<CaptureFault>>
        requires range { StartsInRange (record { osc = osc; value = value; first = first }) }
        requires empty { log.old.items ≡ [] }
        ensures rates { self.new.rates ≡ self.old.rates }
        ensures number { OnOk result (latest self.new.node ≡ 0) }
        ensures started { OnOk result (NodeStands self.new.node (Some (Begun (record { rates = self.old.rates }) (record { osc = osc; value = value; first = first })))) }
        ensures memory { IfErr result (λ e. e ≡ Unfit.NoMemory) }
        ensures log { OnOk result (log.new.items ≡ flat_map log_text (given_at (Begun (record { rates = self.old.rates }) (record { osc = osc; value = value; first = first })))) }
    {
        let (node, action) = Node::start(alloc, self.rates, osc, value, first);
        let Ok(()) = log.take(alloc, action) else {
            return Err(Unfit::NoMemory);
        };
        self.node = Some(node);
        Ok(())
    }

    // Takes an event behind the start, and puts the text of what it gives into the log.
    fn step(
        &mut self,
        alloc: Global,
        event: Event,
        log: &mut Vec<u8>,
    ) -> Result<(), Unfit<CaptureFault>>
        requires stands { (history : History) × NodeStands self.old.node (Some history) }
        requires range { IsEventInRange event }
        requires number { latest self.old.node < u64.MAX }
        requires empty { log.old.items ≡ [] }
        ensures rates { self.new.rates ≡ self.old.rates }
        ensures number { latest self.new.node ≤ latest self.old.node + 1 }
        ensures built { OnOk result (is_built event ≡ true) }
        ensures stands { OnOk result ((history : History) → NodeStands self.old.node (Some history) → NodeStands self.new.node (Some (followed_by history event))) }
        ensures log { OnOk result ((history : History) → NodeStands self.old.node (Some history) → log.new.items ≡ flat_map log_text (actions_of history event)) }
        ensures unbuilt { IfErr result (λ e. (e ≡ Unfit.NoMemory) ⊎ ((e ≡ Unfit.Refused (at_first cause.Word)) × (is_built event ≡ false))) }
    {
        match &mut self.node {
            Some(node) => take_event(alloc, node, event, log),
            None => Err(Unfit::NoMemory),
        }
    }
}

// A node takes an event, and the text of what it gives goes into the log.
fn take_event(
    alloc: Global,
    node: &mut Node,
    event: Event,
    log: &mut Vec<u8>,
) -> Result<(), Unfit<CaptureFault>>
    requires stands { (history : History) × StandsFor node.old history }
    requires range { IsEventInRange event }
    requires number { node.old.current.number < u64.MAX }
    requires empty { log.old.items ≡ [] }
    ensures number { node.new.current.number ≤ node.old.current.number + 1 }
    ensures built { OnOk result (is_built event ≡ true) }
    ensures stands { OnOk result ((history : History) → StandsFor node.old history → StandsFor node.new (followed_by history event)) }
    ensures log { OnOk result ((history : History) → StandsFor node.old history → log.new.items ≡ flat_map log_text (actions_of history event)) }
    ensures unbuilt { IfErr result (λ e. (e ≡ Unfit.NoMemory) ⊎ ((e ≡ Unfit.Refused (at_first cause.Word)) × (is_built event ≡ false))) }
{
    if !is_built(&event) {
        return Err(Unfit::Refused(CaptureFault::at_first(LineCause::Word)));
    }
    let Ok(()) = node.step(alloc, event, log) else {
        return Err(Unfit::NoMemory);
    };
    Ok(())
}

// Whether events of this kind are replayed.
fn is_built(event: &Event) -> bool
    ensures { result ≡ is_built event.now }
{
    matches!(
        event,
        Event::Tick { .. }
            | Event::Read { .. }
            | Event::Query { .. }
            | Event::Source { .. }
            | Event::Adopt { .. }
    )
}

impl LineFilter for Replay {
    type Cause = CaptureFault;

    ghost use Rattle.capture_replay.specs.Steps.{StandsAt};

    ghost State = { Replayed };

    ghost rules = { capture };

    ghost stands = { λ replay before state. StandsAt replay before state };

    fn take(
        &mut self,
        alloc: Global,
        _before: u64,
        line: &[u8],
        text: &mut Vec<u8>,
    ) -> Result<(), Unfit<CaptureFault>> {
        if self.is_misplaced(line) {
            return Err(Unfit::Refused(CaptureFault::at_first(LineCause::Start)));
        }
        match self.read_line(alloc, line)? {
            Line::Blank => Ok(()),
            Line::Start { osc, value, first } => self.start(alloc, osc, value, first, text),
            Line::Event { event, .. } => self.step(alloc, event, text),
        }
    }

    fn end(&self, _before: u64) -> Result<(), CaptureFault> {
        match self.node {
            Some(_) => Ok(()),
            None => Err(CaptureFault::at_first(LineCause::Start)),
        }
    }

    fn too_many() -> CaptureFault {
        CaptureFault::at_first(LineCause::Lines)
    }

    fn too_long() -> CaptureFault {
        CaptureFault {
            column: MAX_LINE as u32 + 1,
            cause: LineCause::Long,
        }
    }
}

// What a filter tells of a line that is not read.
fn unread(fault: LineFault) -> Unfit<CaptureFault>
    ensures { (current : Option ℕ) (text : List ℕ) → IsFaultOf current text fault → IsUnread current text result }
{
    match fault {
        LineFault::Wrong { column, cause } => Unfit::Refused(CaptureFault { column, cause }),
        LineFault::NoMemory => Unfit::NoMemory,
    }
}

// Whether the first word of the line is `start`.
fn says_start(line: &[u8]) -> bool
    ensures { MatchBool result (SaysStart line.now) (SaysStart line.now → ⊥) }
{
    match Fields::new(line).next() {
        Some(word) => word == b"start".as_slice(),
        None => false,
    }
}
