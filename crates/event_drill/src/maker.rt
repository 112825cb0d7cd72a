ghost use Rattle.std.specs.Prelude.{◌≡◌, ℕ, ◌*◌, ◌<◌, ◌≤◌};
ghost use Rattle.slew_clock.specs.declared.limits.TheConstants.{GREATEST_OSC};
ghost use Rattle.event_drill.specs.declared.limits.TheConstants.{MAX_EVENTS};
ghost use Rattle.event_drill.specs.Draws.{drawn, last_below};
ghost use Rattle.event_drill.specs.Around.{interval_around};
ghost use Rattle.event_drill.specs.Made.{seeded, time_told, queries, sources, adopts, advanced, kind_taken, made};
ghost use Rattle.event_drill.specs.Progress.{HasMade};

use crate::{
    DIVISOR, ERRORS, FALSE_BY, FALSE_ONE_OF, INCREMENT, KINDS, Kind, LEAST_ANSWERED, LEAST_ERROR,
    MOST_ASKED, MULTIPLIER, OSC_STEPS, START_VALUE,
};
use dts_base::Interval;
use dts_capture::Event;

/// Makes the events of a drill, one after the other: the word of its draws, the oscillator reading, the next tag, and
/// how many tags were asked and how many of them answered since the last round ended.
#[derive(Clone, Copy, Debug, PartialEq, Eq)]
pub struct Maker {
    word: u64,
    osc: u64,
    next_tag: u32,
    asked: u32,
    answered: u32,
}

// The interval that reaches so far from a time, either way, in units of 100 ns.
pub(crate) fn interval_around(time: u64, error: u64) -> Interval
    requires time { time ≤ 2 * GREATEST_OSC }
    requires error { error ≤ GREATEST_OSC }
    ensures { result ≡ interval_around time error }
{
    Interval {
        lo: time as i64 - error as i64,
        hi: time as i64 + error as i64,
    }
}

impl Maker {
    /// The maker of a seed, before its first event.
    pub fn new(seed: u32) -> Maker
        ensures { result ≡ seeded seed }
    {
        Maker {
            word: u64::from(seed),
            osc: 0,
            next_tag: 0,
            asked: 0,
            answered: 0,
        }
    }

    // Draws a number below this one.
    fn draw(&mut self, below: u64) -> u64
        requires { 0 < below }
        ensures state { self.new ≡ drawn self.old }
        ensures value { result ≡ last_below self.new below }
        ensures below { result < below }
    {
        self.word = self.word.wrapping_mul(MULTIPLIER).wrapping_add(INCREMENT);
        self.word / DIVISOR % below
    }

    /// Makes the next event. Its oscillator reading is in units of 100 ns.
    pub fn next_event(&mut self) -> Event
        requires { (n : ℕ) × (n < MAX_EVENTS) × HasMade n self.old }
        ensures event { result ≡ (made self.old).event }
        ensures next { self.new ≡ (made self.old).next }
    {
        self.advance();
        match self.draw_kind() {
            Kind::Tick => self.tick(),
            Kind::Read => self.read(),
            Kind::Query => self.query(),
            Kind::Source => self.source(),
            Kind::Adopt => self.adopt(),
        }
    }

    // The oscillator goes on.
    fn advance(&mut self)
        requires { self.old.osc ≤ GREATEST_OSC }
        ensures { self.new ≡ advanced self.old }
    {
        self.osc += self.draw(OSC_STEPS);
    }

    fn draw_kind(&mut self) -> Kind
        ensures state { self.new ≡ drawn self.old }
        ensures kind { result ≡ kind_taken self.new }
    {
        KINDS[self.draw(KINDS.len() as u64) as usize]
    }

    fn tick(&self) -> Event
        ensures { result ≡ Event.Tick self.now.osc self.now.word }
    {
        Event::Tick {
            osc: self.osc,
            word: self.word,
        }
    }

    fn read(&self) -> Event
        ensures { result ≡ Event.Read self.now.osc }
    {
        Event::Read { osc: self.osc }
    }

    // Asks the next tag, or reads where as many are asked as may be.
    fn query(&mut self) -> Event
        requires { self.old.next_tag < MAX_EVENTS }
        ensures event { result ≡ (queries self.old).event }
        ensures next { self.new ≡ (queries self.old).next }
    {
        if self.asked >= MOST_ASKED {
            return self.read();
        }
        let tag = self.next_tag;
        self.next_tag += 1;
        self.asked += 1;
        Event::Query { osc: self.osc, tag }
    }

    // Answers the oldest open tag, or reads where none is open.
    fn source(&mut self) -> Event
        requires osc { self.old.osc ≤ GREATEST_OSC }
        requires asked { self.old.asked ≤ self.old.next_tag }
        ensures event { result ≡ (sources self.old).event }
        ensures next { self.new ≡ (sources self.old).next }
    {
        if self.answered >= self.asked {
            return self.read();
        }
        let tag = self.next_tag - (self.asked - self.answered);
        let error = LEAST_ERROR + self.draw(ERRORS);
        let is_false = self.draw(FALSE_ONE_OF) == 0;
        self.answered += 1;
        Event::Source {
            osc: self.osc,
            tag,
            interval: interval_around(self.time_told(is_false), error),
        }
    }

    // The time that a source tells, in units of 100 ns.
    fn time_told(&self, is_false: bool) -> u64
        requires { self.now.osc ≤ GREATEST_OSC }
        ensures told { result ≡ time_told self.now.osc is_false }
        ensures in_range { result ≤ 2 * GREATEST_OSC }
    {
        let time = START_VALUE + self.osc;
        if is_false { time + FALSE_BY } else { time }
    }

    // Ends the round where enough tags are answered, and forgets all tags; else as for a source.
    fn adopt(&mut self) -> Event
        requires osc { self.old.osc ≤ GREATEST_OSC }
        requires asked { self.old.asked ≤ self.old.next_tag }
        ensures event { result ≡ (adopts self.old).event }
        ensures next { self.new ≡ (adopts self.old).next }
    {
        if self.answered < LEAST_ANSWERED {
            return self.source();
        }
        self.asked = 0;
        self.answered = 0;
        Event::Adopt {
            osc: self.osc,
            required: LEAST_ANSWERED,
        }
    }
}
