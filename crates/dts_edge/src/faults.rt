ghost use Rattle.std.specs.Prelude.{◌≡◌, ◌<◌, ◌↔◌, IsSome, is_some, nat_lt};

use dts_base::Failed;
use std::io::{self, ErrorKind};

// How many calls of an adapter failed, and what was said of the last one that did.
#[derive(Clone, Copy)]
pub(crate) struct Faults {
    count: u64,
    last: Option<ErrorKind>,
    ghost said: { is_some last ≡ nat_lt 0 count },
}

impl Faults {
    ghost use Rattle.dts_base.specs.Causes.{HasCause};
    ghost use Rattle.dts_edge.specs.Outcomes.{Takes};

    // No call failed yet.
    pub(crate) fn none() -> Faults
        ensures { result.count ≡ 0 }
    {
        Faults {
            count: 0,
            last: None,
        }
    }

    // What was said of the last call that failed, where one did.
    pub(crate) fn last(&self) -> Option<ErrorKind>
        ensures last { result ≡ self.now.last }
        ensures some { IsSome result ↔ (0 < self.now.count) }
    {
        self.last
    }

    // Takes the outcome of a call: a failure is counted, and what is said of it is kept.
    pub(crate) fn take(&mut self, outcome: io::Result<usize>) -> Result<usize, Failed>
        ensures taken { Takes self.old self.new outcome result }
        ensures cause { HasCause self.old.count self.new.count result }
    {
        match outcome {
            Ok(count) => Ok(count),
            Err(error) => {
                self.count = self.count.saturating_add(1);
                self.last = Some(error.kind());
                Err(Failed)
            }
        }
    }
}
