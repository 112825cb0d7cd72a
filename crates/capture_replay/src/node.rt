ghost use Rattle.std.specs.Prelude.{◌≡◌, ℕ, ◌+◌, ◌<◌, ◌≤◌, true, [], OnOk, OnErr, MatchOption};
ghost use Rattle.slew_clock.specs.declared.limits.TheConstants.{GREATEST_OSC};
ghost use Rattle.slew_clock.specs.Started.{started};
ghost use Rattle.slew_clock.specs.Record.{IsSound};
ghost use Rattle.slew_clock.specs.Line.{line};
ghost use Rattle.slew_clock.specs.Change.{IsInRange};
ghost use Rattle.dts_capture.specs.declared.event.Event.TheVariants as event;
ghost use Rattle.intersection.specs.Adoption.{ends_of};
ghost use Rattle.sync_rules.specs.History.{History, Begun, published};
ghost use Rattle.clerk.specs.Outcome.{Adopted};
ghost use Rattle.sync_rules.specs.Ranges.{IsTime, IsEventInRange, StartsInRange};
ghost use Rattle.capture_replay.specs.Notes.{noted_at};
ghost use Rattle.capture_replay.specs.Taken.{HasTaken, GoesOn};

use crate::ActionTaker;
use crate::notes::note;
use crate::round::{DirectOutcome, DirectRound};
use dts_base::{Interval, NoMemory};
use dts_capture::{Action, Event, NoteKind};
use slew_clock::{ClockRecord, Rates, Reading, changed, read_at, renewed, start};
use std::alloc::Global;

/// The state of a node: the rates and the current record of its clock, the oscillator readings of the last live event
/// of its sync part and of the last read that was served, and the direct round that is under way.
#[derive(Debug, Drop)]
pub struct Node {
    rates: Rates,
    current: ClockRecord,
    sync_osc: u64,
    lane_osc: u64,
    round: DirectRound,
}

// What is noted of a reading.
fn reading_note(reading: &Reading) -> NoteKind
    ensures { result ≡ NoteKind.Reading reading.now.value reading.now.inaccuracy reading.now.step reading.now.number }
{
    NoteKind::Reading {
        value: reading.value,
        inaccuracy: reading.inaccuracy,
        step: reading.step,
        number: reading.number,
    }
}

// The note on an interval that is adopted of so many.
fn adopted_note(osc: u64, n: u32, interval: Interval) -> Action
    ensures { result ≡ noted_at osc (NoteKind.Adopted n interval.lo interval.hi) }
{
    let Interval { lo, hi } = interval;
    note(osc, NoteKind::Adopted { n, lo, hi })
}

impl Node {
    ghost use Rattle.capture_replay.specs.Capture.{is_built};
    ghost use Rattle.capture_replay.specs.Rounds.{AreCarriable, IsAdoptable, outcome_kept};
    ghost use Rattle.capture_replay.specs.Standing.{StandsFor, IsStep, IsKept, concluded};

    /// A node that starts, and the publication of its first record.
    pub fn start(
        alloc: Global,
        rates: Rates,
        osc: u64,
        value: i64,
        first: Option<Interval>,
    ) -> (Node, Action)
        requires { StartsInRange (record { osc = osc; value = value; first = first }) }
        ensures stands { StandsFor result.0 (Begun (record { rates = rates }) (record { osc = osc; value = value; first = first })) }
        ensures number { result.0.current.number ≡ 0 }
        ensures published { result.1 ≡ Action.Publish (started osc value first) }
    {
        let current = start(osc, value, first);
        let node = Node {
            rates,
            current,
            sync_osc: osc,
            lane_osc: 0,
            round: DirectRound::new(alloc),
        };
        (node, Action::Publish { rec: current })
    }

    /// The number of the current record.
    pub fn current_number(&self) -> u64
        ensures { result ≡ self.now.current.number }
    {
        self.current.number
    }

    /// Takes an event, and gives the actions of the rules, in order. After NoMemory the node is as it was.
    pub fn step<T: ActionTaker>(
        &mut self,
        alloc: Global,
        event: Event,
        taker: &mut T,
    ) -> Result<(), NoMemory>
        requires stands { (history : History) × StandsFor self.old history }
        requires range { IsEventInRange event }
        requires built { is_built event ≡ true }
        requires number { self.old.current.number < u64.MAX }
        ensures step { OnOk result (HasTaken T.took taker.old taker.new (IsStep self.old self.new event)) }
        ensures kept { OnErr result (IsKept self.old self.new) }
        ensures number { self.new.current.number ≤ self.old.current.number + 1 }
    {
        match event {
            Event::Tick { osc, .. } => self.take_tick(alloc, osc, taker),
            Event::Read { osc } => self.take_read(alloc, osc, taker),
            Event::Query { osc, tag } => self.take_query(alloc, osc, tag, taker),
            Event::Source { osc, tag, interval } => self.take_source(
                alloc, osc, tag, interval, taker,
            ),
            Event::Adopt { osc, required } => self.take_adopt(alloc, osc, required, taker),
            _ => unreachable!(),
        }
    }

    // Takes a read of the clock at an oscillator reading.
    fn take_read<T: ActionTaker>(
        &mut self,
        alloc: Global,
        osc: u64,
        taker: &mut T,
    ) -> Result<(), NoMemory>
        requires stands { (history : History) × StandsFor self.old history }
        requires osc { osc ≤ GREATEST_OSC }
        ensures step { OnOk result (HasTaken T.took taker.old taker.new (IsStep self.old self.new (event.Read osc))) }
        ensures kept { OnErr result (self.new ≡ self.old) }
        ensures number { self.new.current ≡ self.old.current }
    {
        let floor = self.lane_osc.max(self.current.born);
        if osc < floor {
            return taker.take(alloc, note(osc, NoteKind::Regressed { floor }));
        }
        let Ok(reading) = read_at(&self.rates, &self.current, osc) else {
            unreachable!()
        };
        taker.take(alloc, note(osc, reading_note(&reading)))?;
        self.lane_osc = osc;
        Ok(())
    }

    // The note on an event of the sync part at which the oscillator went back, where it did.
    fn regressed(&self, osc: u64) -> Option<Action>
        ensures { MatchOption result (self.now.sync_osc ≤ osc) (λ action. (osc < self.now.sync_osc) × (action ≡ noted_at osc (NoteKind.Regressed self.now.sync_osc))) }
    {
        if osc < self.sync_osc {
            let floor = self.sync_osc;
            return Some(note(osc, NoteKind::Regressed { floor }));
        }
        None
    }

    // Takes a tick at an oscillator reading: renews the clock where that is due, and publishes the record.
    fn take_tick<T: ActionTaker>(
        &mut self,
        alloc: Global,
        osc: u64,
        taker: &mut T,
    ) -> Result<(), NoMemory>
        requires stands { (history : History) × StandsFor self.old history }
        requires osc { osc ≤ GREATEST_OSC }
        requires number { self.old.current.number < u64.MAX }
        ensures step { OnOk result ((word : ℕ) → HasTaken T.took taker.old taker.new (IsStep self.old self.new (event.Tick osc word))) }
        ensures kept { OnErr result (self.new ≡ self.old) }
        ensures number { self.new.current.number ≤ self.old.current.number + 1 }
    {
        if let Some(back) = self.regressed(osc) {
            return taker.take(alloc, back);
        }
        let Some(rec) = renewed(&self.rates, &self.current, osc) else {
            self.sync_osc = osc;
            return Ok(());
        };
        taker.take(alloc, Action::Publish { rec })?;
        self.sync_osc = osc;
        self.current = rec;
        Ok(())
    }

    // Takes the asking of a tag of a direct round at an oscillator reading.
    fn take_query<T: ActionTaker>(
        &mut self,
        alloc: Global,
        osc: u64,
        tag: u32,
        taker: &mut T,
    ) -> Result<(), NoMemory>
        requires osc { osc ≤ GREATEST_OSC }
        ensures step { OnOk result (HasTaken T.took taker.old taker.new (IsStep self.old self.new (event.Query osc tag))) }
        ensures kept { OnErr result (IsKept self.old self.new) }
        ensures number { self.new.current ≡ self.old.current }
    {
        if let Some(back) = self.regressed(osc) {
            return taker.take(alloc, back);
        }
        self.round.take_query(alloc, osc, tag, taker)?;
        self.sync_osc = osc;
        Ok(())
    }

    // Takes the answer to a tag of a direct round at an oscillator reading.
    fn take_source<T: ActionTaker>(
        &mut self,
        alloc: Global,
        osc: u64,
        tag: u32,
        interval: Interval,
        taker: &mut T,
    ) -> Result<(), NoMemory>
        requires osc { osc ≤ GREATEST_OSC }
        requires ends { IsTime interval.lo × IsTime interval.hi }
        ensures step { OnOk result (HasTaken T.took taker.old taker.new (IsStep self.old self.new (event.Source osc tag interval))) }
        ensures kept { OnErr result (IsKept self.old self.new) }
        ensures number { self.new.current ≡ self.old.current }
    {
        if let Some(back) = self.regressed(osc) {
            return taker.take(alloc, back);
        }
        self.round.take_source(alloc, osc, tag, interval, taker)?;
        self.sync_osc = osc;
        Ok(())
    }

    // Takes the end of a direct round at an oscillator reading, where so many answers are required.
    fn take_adopt<T: ActionTaker>(
        &mut self,
        alloc: Global,
        osc: u64,
        required: u32,
        taker: &mut T,
    ) -> Result<(), NoMemory>
        requires stands { (history : History) × StandsFor self.old history }
        requires osc { osc ≤ GREATEST_OSC }
        requires number { self.old.current.number < u64.MAX }
        ensures step { OnOk result (HasTaken T.took taker.old taker.new (IsStep self.old self.new (event.Adopt osc required))) }
        ensures kept { OnErr result (self.new ≡ self.old) }
        ensures number { self.new.current.number ≤ self.old.current.number + 1 }
    {
        if let Some(back) = self.regressed(osc) {
            return taker.take(alloc, back);
        }
        let outcome = self.round.outcome(alloc, &self.rates, required, osc)?;
        self.conclude(alloc, osc, outcome, taker)?;
        self.round.clear();
        self.sync_osc = osc;
        Ok(())
    }

    // Gives what comes of a round, and changes the clock where an interval is adopted.
    fn conclude<T: ActionTaker>(
        &mut self,
        alloc: Global,
        osc: u64,
        outcome: DirectOutcome,
        taker: &mut T,
    ) -> Result<(), NoMemory>
        requires sound { IsSound self.old.rates self.old.current }
        requires born { self.old.current.born ≤ osc }
        requires osc { osc ≤ GREATEST_OSC }
        requires number { self.old.current.number < u64.MAX }
        requires adoptable { IsAdoptable outcome }
        requires carriable { AreCarriable osc self.old.round }
        ensures state { OnOk result (self.new ≡ record self.old { current = published self.old.current (concluded self.old osc (outcome_kept outcome)) }) }
        ensures actions { OnOk result (GoesOn T.took taker.old taker.new (concluded self.old osc (outcome_kept outcome))) }
        ensures kept { OnErr result (self.new ≡ self.old) }
        ensures number { self.new.current.number ≤ self.old.current.number + 1 }
    {
        match outcome {
            DirectOutcome::Short { answered, required } => {
                taker.take(alloc, note(osc, NoteKind::Short { answered, required }))
            }
            DirectOutcome::Split { n } => taker.take(alloc, note(osc, NoteKind::Split { n })),
            DirectOutcome::Adopted { n, interval } => self.adopt(alloc, osc, n, interval, taker),
        }
    }

    // Anchors the clock to an interval that so many answers gave, or steps to it.
    fn adopt<T: ActionTaker>(
        &mut self,
        alloc: Global,
        osc: u64,
        n: u32,
        interval: Interval,
        taker: &mut T,
    ) -> Result<(), NoMemory>
        requires sound { IsSound self.old.rates self.old.current }
        requires born { self.old.current.born ≤ osc }
        requires osc { osc ≤ GREATEST_OSC }
        requires number { self.old.current.number < u64.MAX }
        requires range { IsInRange (ends_of interval) }
        requires carriable { AreCarriable osc self.old.round }
        ensures kept { OnErr result (self.new ≡ self.old) }
        ensures state { OnOk result (self.new ≡ record self.old { current = published self.old.current (concluded self.old osc (Adopted n (ends_of interval))) }) }
        ensures actions { OnOk result (GoesOn T.took taker.old taker.new (concluded self.old osc (Adopted n (ends_of interval)))) }
        ensures number { self.new.current.number ≤ self.old.current.number + 1 }
    {
        let Ok(next) = changed(&self.rates, &self.current, osc, interval) else {
            unreachable!()
        };
        taker.take(alloc, adopted_note(osc, n, interval))?;
        self.round
            .note_false(alloc, &self.rates, osc, &interval, taker)?;
        if next.step != self.current.step {
            taker.take(alloc, self.step_note(osc, &next))?;
        }
        taker.take(alloc, Action::Publish { rec: next })?;
        self.current = next;
        Ok(())
    }

    // The note on a step to this record.
    fn step_note(&self, osc: u64, next: &ClockRecord) -> Action
        requires sound { IsSound self.now.rates self.now.current }
        requires born { self.now.current.born ≤ osc }
        requires osc { osc ≤ GREATEST_OSC }
        ensures { result ≡ noted_at osc (NoteKind.Step next.now.step (line self.now.rates self.now.current osc) next.now.a.value) }
    {
        let Ok(reading) = read_at(&self.rates, &self.current, osc) else {
            unreachable!()
        };
        note(
            osc,
            NoteKind::Step {
                step: next.step,
                old: reading.value,
                new: next.a.value,
            },
        )
    }
}
