ghost use Rattle.std.specs.Prelude.{◌≡◌, ◌≤◌, ◌==◌, nat_le, [], length, find, map, option_map, IfOk, OnOk, OnErr};
ghost use Rattle.std.specs.List.{list_any};
ghost use Rattle.slew_clock.specs.declared.limits.TheConstants.{GREATEST_OSC};
ghost use Rattle.dts_capture.specs.declared.event.Event.TheVariants as event;
ghost use Rattle.dts_capture.specs.Grammar.{most_tags};
ghost use Rattle.intersection.specs.Adoption.{ends_of};
ghost use Rattle.sync_rules.specs.Rounds.{are_apart, carried_to, outcome};
ghost use Rattle.capture_replay.specs.Taken.{HasTaken, GoesOn};

use crate::ActionTaker;
use crate::notes::note;
use dts_base::{Interval, NoMemory};
use dts_capture::{FalseSource, MAX_TAGS, NoteKind};
use intersection::{adopt, is_false};
use slew_clock::{Rates, carried};
use std::alloc::Global;

/// A tag that was asked in a direct round.
#[derive(Clone, Copy, Debug, PartialEq, Eq)]
pub struct AskedTag {
    /// The tag.
    pub tag: u32,
    /// The oscillator reading at which it was asked.
    pub osc: u64,
}

/// The interval that a tag was answered with.
#[derive(Clone, Copy, Debug, PartialEq, Eq)]
pub struct TagAnswer {
    /// The tag.
    pub tag: u32,
    /// The oscillator reading at which it was asked.
    pub asked: u64,
    /// The oscillator reading at which the answer came.
    pub got: u64,
    /// The answer.
    pub interval: Interval,
}

impl TagAnswer {
    ghost use Rattle.capture_replay.specs.Rounds.{IsCarriable, answer_kept};

    // The answer carried on to an oscillator reading.
    fn carried(&self, rates: &Rates, osc: u64) -> Interval
        requires carriable { IsCarriable osc (answer_kept self.now) }
        requires osc { osc ≤ GREATEST_OSC }
        ensures { ends_of result ≡ carried_to rates.now osc (answer_kept self.now) }
    {
        carried(rates, self.interval, self.asked, self.got, osc)
    }

    // Whether the answer, carried on to an oscillator reading, has no point in common with an interval.
    fn is_false(&self, rates: &Rates, osc: u64, adopted: &Interval) -> bool
        requires carriable { IsCarriable osc (answer_kept self.now) }
        requires osc { osc ≤ GREATEST_OSC }
        ensures { result ≡ are_apart (carried_to rates.now osc (answer_kept self.now)) (ends_of adopted.now) }
    {
        is_false(&self.carried(rates, osc), adopted)
    }
}

/// What comes of a direct round.
#[derive(Clone, Copy, Debug, PartialEq, Eq)]
pub enum DirectOutcome {
    /// Fewer tags were answered than required.
    Short { answered: u32, required: u32 },
    /// Too few of so many intervals agree.
    Split { n: u32 },
    /// Of so many intervals this one is adopted.
    Adopted { n: u32, interval: Interval },
}

/// The direct round that is under way: the tags that were asked and the answers that came since the last
/// adoption, both in order.
#[derive(Debug, Drop)]
pub struct DirectRound {
    asked: Vec<AskedTag>,
    answers: Vec<TagAnswer>,
}

impl DirectRound {
    ghost use Rattle.capture_replay.specs.Rounds.{AreCarriable, IsRoundStep, IsRoundKept, answer_kept, answers_kept, open_since, outcome_kept, false_notes};

    /// A round in which nothing was asked.
    pub fn new(alloc: Global) -> DirectRound
        ensures asked { result.asked.items ≡ [] }
        ensures answers { result.answers.items ≡ [] }
    {
        DirectRound {
            asked: Vec::new(alloc),
            answers: Vec::new(alloc),
        }
    }

    // Whether a tag was asked.
    fn is_asked(&self, tag: u32) -> bool
        ensures { result ≡ list_any (λ t. t.tag == tag) self.now.asked.items }
    {
        self.asked.iter().any(|asked| asked.tag == tag)
    }

    // Whether as many tags were asked as a round may have.
    fn is_full(&self) -> bool
        ensures { result ≡ nat_le most_tags (length self.now.asked.items) }
    {
        MAX_TAGS as usize <= self.asked.len()
    }

    // When an open tag was asked: one that was not answered.
    fn open_since(&self, tag: u32) -> Option<u64>
        ensures { result ≡ open_since self.now tag }
    {
        if self.is_answered(tag) {
            return None;
        }
        self.asked_at(tag)
    }

    // Whether a tag was answered.
    fn is_answered(&self, tag: u32) -> bool
        ensures { result ≡ list_any (λ a. a.tag == tag) self.now.answers.items }
    {
        self.answers.iter().any(|answer| answer.tag == tag)
    }

    // When a tag was asked.
    fn asked_at(&self, tag: u32) -> Option<u64>
        ensures { result ≡ option_map (λ t. t.osc) (find (λ t. t.tag == tag) self.now.asked.items) }
    {
        let asked = self.asked.iter().find(|asked| asked.tag == tag);
        asked.map(|asked| asked.osc)
    }

    /// Takes the asking of a tag at an oscillator reading, and gives the actions of the rules.
    pub fn take_query<T: ActionTaker>(
        &mut self,
        alloc: Global,
        osc: u64,
        tag: u32,
        taker: &mut T,
    ) -> Result<(), NoMemory>
        ensures step { OnOk result (HasTaken T.took taker.old taker.new (IsRoundStep self.old self.new (event.Query osc tag))) }
        ensures kept { OnErr result (IsRoundKept self.old self.new) }
    {
        if self.is_asked(tag) {
            return taker.take(alloc, note(osc, NoteKind::RepeatedTag { tag }));
        }
        if self.is_full() {
            return taker.take(alloc, note(osc, NoteKind::TagsFull));
        }
        self.asked.push(AskedTag { tag, osc })?;
        Ok(())
    }

    /// Takes the answer to a tag at an oscillator reading, and gives the actions of the rules.
    pub fn take_source<T: ActionTaker>(
        &mut self,
        alloc: Global,
        osc: u64,
        tag: u32,
        interval: Interval,
        taker: &mut T,
    ) -> Result<(), NoMemory>
        ensures step { OnOk result (HasTaken T.took taker.old taker.new (IsRoundStep self.old self.new (event.Source osc tag interval))) }
        ensures kept { OnErr result (IsRoundKept self.old self.new) }
    {
        let Some(asked) = self.open_since(tag) else {
            return taker.take(alloc, note(osc, NoteKind::UnknownTag { tag }));
        };
        self.answers.push(TagAnswer {
            tag,
            asked,
            got: osc,
            interval,
        })?;
        Ok(())
    }

    /// What comes of the answers at an oscillator reading, where so many are required.
    pub fn outcome(
        &self,
        alloc: Global,
        rates: &Rates,
        required: u32,
        osc: u64,
    ) -> Result<DirectOutcome, NoMemory>
        requires carriable { AreCarriable osc self.now }
        requires osc { osc ≤ GREATEST_OSC }
        requires few { length self.now.answers.items ≤ most_tags }
        ensures { IfOk result (λ found. outcome_kept found ≡ outcome rates.now (answers_kept self.now) required osc) }
    {
        let n = self.answers.len() as u32;
        if n < required {
            return Ok(DirectOutcome::Short {
                answered: n,
                required,
            });
        }
        let carried = self.carried(alloc, rates, osc)?;
        Ok(match adopt(alloc, &carried)? {
            Some(interval) => DirectOutcome::Adopted { n, interval },
            None => DirectOutcome::Split { n },
        })
    }

    // The answers carried on to an oscillator reading.
    fn carried(&self, alloc: Global, rates: &Rates, osc: u64) -> Result<Vec<Interval>, NoMemory>
        requires carriable { AreCarriable osc self.now }
        requires osc { osc ≤ GREATEST_OSC }
        ensures { IfOk result (λ v. map ends_of v.items ≡ map (λ a. carried_to rates.now osc (answer_kept a)) self.now.answers.items) }
    {
        let mut carried = Vec::with_capacity(alloc, self.answers.len())?;
        for answer in &self.answers {
            carried.push(answer.carried(rates, osc))?;
        }
        Ok(carried)
    }

    /// Gives a note for each answer that, carried on to an oscillator reading, has no point in common with an interval,
    /// in the order of the answers.
    pub fn note_false<T: ActionTaker>(
        &self,
        alloc: Global,
        rates: &Rates,
        osc: u64,
        adopted: &Interval,
        taker: &mut T,
    ) -> Result<(), NoMemory>
        requires carriable { AreCarriable osc self.now }
        requires osc { osc ≤ GREATEST_OSC }
        ensures { OnOk result (GoesOn T.took taker.old taker.new (false_notes rates.now osc (ends_of adopted.now) self.now.answers.items)) }
    {
        for answer in &self.answers {
            if answer.is_false(rates, osc, adopted) {
                taker.take(
                    alloc,
                    note(osc, NoteKind::False(FalseSource::Tag(answer.tag))),
                )?;
            }
        }
        Ok(())
    }

    /// All tags are forgotten.
    pub fn clear(&mut self)
        ensures asked { self.new.asked.items ≡ [] }
        ensures answers { self.new.answers.items ≡ [] }
    {
        self.asked.clear();
        self.answers.clear();
    }
}
