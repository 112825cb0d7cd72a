ghost use Rattle.std.specs.Prelude.{◌≡◌, ◌+◌, ◌<◌, ℕ, Option, ◌∷◌, [], ◌++◌, IfOk, OnOk};
ghost use Rattle.event_drill.specs.Summary.{counts_of, named, summary_text};
ghost use Rattle.event_drill.specs.Counting.{plus, HasRoom, HasCounted};

use capture_replay::ActionTaker;
use dts_base::{NoMemory, Text};
use dts_capture::{Action, NoteKind};
use itoa::Buffer;
use std::alloc::Global;

/// How many lines of each kind a log has.
#[derive(Clone, Copy, Debug, PartialEq, Eq)]
pub struct Counts {
    /// Records.
    pub records: u64,
    /// Steps of the clock.
    pub steps: u64,
    /// Readings.
    pub readings: u64,
    /// Readings whose inaccuracy is unspecified.
    pub unspecified: u64,
    /// Rounds that adopted an interval.
    pub adopted: u64,
    /// Rounds of which too few answers agreed.
    pub split: u64,
    /// Rounds with too few answers.
    pub short: u64,
    /// Sources that gave a false interval.
    pub false_sources: u64,
}

impl Counts {
    /// The counts of an empty log.
    pub fn new() -> Counts
        ensures { result ≡ counts_of [] }
    {
        Counts {
            records: 0,
            steps: 0,
            readings: 0,
            unspecified: 0,
            adopted: 0,
            split: 0,
            short: 0,
            false_sources: 0,
        }
    }

    /// Counts the line of an action.
    pub fn count(&mut self, action: &Action)
        ensures { HasRoom self.old → self.new ≡ plus self.old (counts_of (action.now ∷ [])) }
    {
        match action {
            Action::Publish { .. } => one_more(&mut self.records),
            Action::Log(note) => self.count_note(&note.kind),
            _ => (),
        }
    }

    fn count_note(&mut self, kind: &NoteKind)
        ensures { (osc : ℕ) (peer : Option ℕ) → HasRoom self.old →
            self.new ≡ plus self.old (counts_of (Action.Log (record { osc = osc; peer = peer; kind = kind.now }) ∷ [])) }
    {
        match kind {
            NoteKind::Step { .. } => one_more(&mut self.steps),
            NoteKind::Reading { inaccuracy, .. } => {
                one_more(&mut self.readings);
                if inaccuracy.is_none() {
                    one_more(&mut self.unspecified);
                }
            }
            NoteKind::Adopted { .. } => one_more(&mut self.adopted),
            NoteKind::Split { .. } => one_more(&mut self.split),
            NoteKind::Short { .. } => one_more(&mut self.short),
            NoteKind::False(_) => one_more(&mut self.false_sources),
            _ => (),
        }
    }

    /// The summary of the log of so many events that a seed made: one line, with its line feed.
    pub fn summary(&self, alloc: Global, seed: u32, events: u32) -> Result<Text, NoMemory>
        ensures { IfOk result (λ line. line ≡ summary_text seed events self.now) }
    {
        let mut line = b"drill".to_vec(alloc)?;
        add(&mut line, "seed", u64::from(seed))?;
        add(&mut line, "events", u64::from(events))?;
        add(&mut line, "records", self.records)?;
        add(&mut line, "steps", self.steps)?;
        add(&mut line, "readings", self.readings)?;
        add(&mut line, "unspecified", self.unspecified)?;
        add(&mut line, "adopted", self.adopted)?;
        add(&mut line, "split", self.split)?;
        add(&mut line, "short", self.short)?;
        add(&mut line, "false", self.false_sources)?;
        line.push(b'\n')?;
        Ok(Text::from_vec(line))
    }
}

/// Counts actions, right while they are fewer than 2^64.
impl ActionTaker for Counts {
    ghost took = { HasCounted };

    fn take(&mut self, _alloc: Global, action: Action) -> Result<(), NoMemory> {
        self.count(&action);
        Ok(())
    }
}

// One more is counted. Behind the greatest count comes 0.
fn one_more(count: &mut u64)
    ensures { count.old < u64.MAX → count.new ≡ count.old + 1 }
{
    *count = count.wrapping_add(1);
}

// Adds a name and a number to a line, each behind a space.
fn add(line: &mut Vec<u8>, name: &str, number: u64) -> Result<(), NoMemory>
    ensures { OnOk result (line.new.items ≡ line.old.items ++ named name.now number) }
{
    let mut buffer = Buffer::new();
    line.push(b' ')?;
    line.extend_from_slice(name.as_bytes())?;
    line.push(b' ')?;
    line.extend_from_slice(buffer.format(number).as_bytes())?;
    Ok(())
}
