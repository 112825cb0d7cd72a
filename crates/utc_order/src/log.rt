//! Reads lines into memory, with the place of each in the order.

ghost use Rattle.std.specs.Prelude.{◌≡◌, ◌≤◌, ◌<◌, ℕ, ◌++◌, [], ◌∷◌, ◌+◌, List, length, option_map, OnOk, IfOk, IfErr};
ghost use Rattle.utc_order.specs.Lines.{LogLine};
ghost use Rattle.utc_order.specs.Places.{IsOrder};
ghost use Rattle.utc_order.specs.Taking.{Takes, first_contrary};
ghost use Rattle.utc_order.specs.Keeping.{StopsAt};

use crate::heading::Heading;
use crate::limits::HOSTS;
use crate::lines::Lines;
use crate::place::Place;
use crate::points::{greater, is_below};
use crate::{MAX_HOST, MAX_LINES, MAX_OCTETS, OrderCause, OrderStatus};
use dts_base::NoMemory;
use std::alloc::Global;
use std::marker::Model;

/// The lines that were read so far, the place of each, and the greatest earliest point of each host. Clauses see the lines.
#[derive(Drop)]
pub(crate) struct Log {
    lines: Lines,
    places: Vec<Place>,
    highest: Vec<Option<i128>>,
}

impl Model for Log {
    ghost use Rattle.std.specs.Prelude.{List};
    ghost use Rattle.utc_order.specs.Lines.{LogLine};

    ghost Value = { List LogLine };

    ghost use Rattle.utc_order.specs.Placed.{IsPlaced};

    ghost view = { λ l. l.lines };

    ghost invariant = { IsPlaced };
}

impl Log {
    /// No line.
    pub(crate) fn new(alloc: Global) -> Result<Log, NoMemory>
        ensures { IfOk result (λ log. log ≡ []) }
    {
        Ok(Log {
            lines: Lines::new(alloc),
            places: Vec::new(alloc),
            highest: vec![in alloc; None; HOSTS]?,
        })
    }

    /// Takes a further line.
    pub(crate) fn take(&mut self, octets: &[u8]) -> Result<(), OrderStatus>
        ensures taken { OnOk result ((line : LogLine) × Takes self.old octets.now line × (self.new ≡ self.old ++ line ∷ [])) }
        ensures stops { IfErr result (StopsAt self.old octets.now) }
    {
        if self.lines.len() >= MAX_LINES {
            return Err(self.refused(OrderCause::Lines));
        }
        if octets.len() > MAX_OCTETS {
            return Err(self.refused(OrderCause::Long));
        }
        let heading = match Heading::read(octets) {
            Ok(heading) => heading,
            Err(cause) => return Err(self.refused(cause)),
        };
        if let Some(earlier) = self.contrary(&heading) {
            return Err(self.refused(OrderCause::Backward { earlier }));
        }
        match self.push(&heading, octets) {
            Ok(()) => Ok(()),
            Err(_) => Err(OrderStatus::NoMemory),
        }
    }

    /// The lines, and their places in the order.
    pub(crate) fn into_order(self) -> (Lines, Vec<Place>)
        ensures lines { result.0 ≡ self }
        ensures order { IsOrder self result.1.items }
    {
        let Log {
            lines,
            mut places,
            highest: _,
        } = self;
        places.sort_unstable();
        (lines, places)
    }

    // The refusal of the line behind them.
    fn refused(&self, cause: OrderCause) -> OrderStatus
        ensures { result ≡ OrderStatus.Refused (length self.now + 1) cause }
    {
        OrderStatus::Refused {
            line: self.lines.len() as u32 + 1,
            cause,
        }
    }

    // The number of the first line behind which a line with this heading goes back.
    fn contrary(&self, heading: &Heading) -> Option<u32>
        requires { heading.now.host ≤ MAX_HOST }
        ensures { (octets : List ℕ) → result ≡ option_map (λ index. index + 1) (first_contrary self.now (record { host = heading.now.host; time = heading.now.time; octets = octets })) }
    {
        if !is_below(heading.time.latest(), self.highest[heading.host as usize]) {
            return None;
        }
        let index = self.lines.first_contrary(heading)?;
        Some(index as u32 + 1)
    }

    // Keeps a further line.
    fn push(&mut self, heading: &Heading, octets: &[u8]) -> Result<(), NoMemory>
        requires host { heading.now.host ≤ MAX_HOST }
        requires few { length self.old < MAX_LINES }
        ensures { OnOk result (self.new ≡ self.old ++ record { host = heading.now.host; time = heading.now.time; octets = octets.now } ∷ []) }
    {
        let index = self.lines.len() as u32;
        let key = greater(self.highest[heading.host as usize], heading.time.earliest());
        self.places.push(Place {
            key,
            host: heading.host,
            index,
        })?;
        match self.lines.push(heading, octets) {
            Ok(()) => {
                self.highest[heading.host as usize] = key;
                Ok(())
            }
            Err(fault) => {
                self.places.pop();
                Err(fault)
            }
        }
    }
}
