//! How far the lines reach that were printed.

ghost use Rattle.std.specs.Prelude.{◌≡◌, if◌then◌else◌};
ghost use Rattle.utc_value.specs.Members.{earliest_of, latest_of};
ghost use Rattle.utc_order.specs.Keeping.{is_beyond, reach_with};

use crate::limits::{CERTAIN, UNCERTAIN};
use utc_value::Utc;

/// How far the lines reach that were printed: their greatest latest point, in units of 100 ns.
#[derive(Clone, Copy, Debug)]
pub enum Reach {
    /// No line was printed.
    Nowhere,
    /// To this point.
    To(i128),
    /// One of them is unspecified.
    Anywhere,
}

impl Reach {
    // Whether all of them are certainly earlier than a time.
    fn is_below(self, time: Utc) -> bool
        ensures { result ≡ is_beyond self (earliest_of time) }
    {
        match self {
            Reach::Nowhere => true,
            Reach::To(latest) => match time.earliest() {
                Some(earliest) => latest < earliest,
                None => false,
            },
            Reach::Anywhere => false,
        }
    }

    /// The mark of a line with that time behind them.
    pub(crate) fn mark(self, time: Utc) -> u8
        ensures { result ≡ (if is_beyond self (earliest_of time) then CERTAIN else UNCERTAIN) }
    {
        if self.is_below(time) {
            CERTAIN
        } else {
            UNCERTAIN
        }
    }

    /// How far they and one more line reach.
    pub(crate) fn with(self, time: Utc) -> Reach
        ensures { result ≡ reach_with self (latest_of time) }
    {
        let Some(latest) = time.latest() else {
            return Reach::Anywhere;
        };
        match self {
            Reach::Nowhere => Reach::To(latest),
            Reach::To(reached) if latest < reached => Reach::To(reached),
            Reach::To(_) => Reach::To(latest),
            Reach::Anywhere => Reach::Anywhere,
        }
    }
}
