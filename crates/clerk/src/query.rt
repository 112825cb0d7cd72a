ghost use Rattle.std.specs.Prelude.{◌≡◌, ◌≤◌, option_map};
ghost use Rattle.slew_clock.specs.declared.limits.TheConstants.{GREATEST_OSC};
ghost use Rattle.intersection.specs.Adoption.{ends_of};

use dts_base::Interval;
use slew_clock::{Rates, carried};

/// Where a query of a round stands. Oscillator readings are in units of 100 ns.
#[derive(Clone, Copy, Debug, PartialEq, Eq)]
pub enum QueryState {
    /// It was not asked yet.
    Pending,
    /// It was asked at this oscillator reading, and may still be answered.
    Asked {
        osc: u64,
    },
    /// It was asked at one oscillator reading, and its answer, which is an interval of time counts, was got at another.
    Answered {
        asked: u64,
        got: u64,
        interval: Interval,
    },
    /// It will not be answered.
    Gone,
}

/// A query of a round.
#[derive(Clone, Copy, Debug, PartialEq, Eq)]
pub struct Query {
    /// The number of the peer that is asked.
    pub peer: u32,
    /// Where it stands.
    pub state: QueryState,
}

impl QueryState {
    ghost use Rattle.clerk.specs.Outcome.{is_open, answer_at};
    ghost use Rattle.clerk.specs.Standing.{IsSound};

    // Whether an answer may still come.
    pub(crate) fn is_open(&self) -> bool
        ensures { result ≡ is_open self.now }
    {
        matches!(self, QueryState::Pending | QueryState::Asked { .. })
    }

    // The answer, where there is one, carried on to an oscillator reading.
    pub(crate) fn answer_at(&self, rates: &Rates, osc: u64) -> Option<Interval>
        requires sound { IsSound osc self.now }
        requires osc { osc ≤ GREATEST_OSC }
        ensures { option_map ends_of result ≡ answer_at rates.now osc self.now }
    {
        match *self {
            QueryState::Answered {
                asked,
                got,
                interval,
            } => Some(carried(rates, interval, asked, got, osc)),
            _ => None,
        }
    }
}

impl Query {
    ghost use Rattle.clerk.specs.Queries.{standing};

    // The query, standing so where it is this peer's.
    pub(crate) fn standing(self, peer: u32, state: QueryState) -> Query
        ensures { result ≡ standing peer state self }
    {
        if self.peer == peer {
            Query { state, ..self }
        } else {
            self
        }
    }
}
