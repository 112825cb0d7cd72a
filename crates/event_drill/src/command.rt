ghost use Rattle.std.specs.Prelude.{◌≡◌, ◌≤◌};
ghost use Rattle.event_drill.specs.declared.limits.TheConstants.{MAX_EVENTS};
ghost use Rattle.event_drill.specs.declared.command.DrillStop.TheVariants as stop;
ghost use Rattle.event_drill.specs.Drilled.{HasDrilled, HasWriteCause};

use crate::MAX_EVENTS;
use crate::running::run_events;
use dts_base::{NoMemory, Sink, write_all};
use std::alloc::Global;
use thiserror::Error;

/// Why a drill writes no summary.
#[derive(Clone, Copy, Debug, PartialEq, Eq, Error)]
pub enum DrillStop {
    /// The output failed. What was written is the beginning of the summary.
    #[error("the output can't be written")]
    Write,
    /// No memory was found. Nothing was written.
    #[error("out of memory")]
    NoMemory,
}

impl From<NoMemory> for DrillStop {
    ghost from_gives = { λ error result. result ≡ stop.NoMemory };

    fn from(_: NoMemory) -> Self {
        DrillStop::NoMemory
    }
}

/// Makes a capture of so many events from a seed, runs it through a node at the usual rates, and writes the summary of
/// its log as one piece: `drill seed SEED events EVENTS records R steps S readings N unspecified U adopted A split P
/// short Q false F` and a line feed. The counts are those of the lines of the log; unspecified readings are readings
/// too. The memory that it takes is bounded: a node, the draws and the counts.
pub fn drill<O: Sink>(
    alloc: Global,
    seed: u32,
    events: u32,
    output: &mut O,
) -> Result<(), DrillStop>
    requires { events ≤ MAX_EVENTS }

    // What the output holds afterwards is what it held before, and then the summary: the whole of it, a beginning where
    // the output failed, or nothing where memory was missing.
    ensures written { HasDrilled seed events result (O.written output.old) (O.written output.new) }

    // It stops for a fault exactly where the faults of the output rose.
    ensures write_cause { HasWriteCause (O.faults output.old) (O.faults output.new) result }
{
    let counts = run_events(alloc, seed, events)?;
    let line = counts.summary(alloc, seed, events)?;
    match write_all(output, line.as_slice()) {
        Ok(()) => Ok(()),
        Err(_) => Err(DrillStop::Write),
    }
}
