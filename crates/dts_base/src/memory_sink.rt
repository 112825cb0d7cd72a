ghost use Rattle.std.specs.Prelude.{◌≡◌, ◌<◌, ◌≤◌, [], length, Some, IfOk, IsErr};
ghost use Rattle.dts_base.specs.Calls.{IsListed, after_call, Starves};
ghost use Rattle.dts_base.specs.Causes.{HasCause};
ghost use Rattle.dts_base.specs.Told.{Told};
ghost use Rattle.dts_base.specs.Streams.{Writes};

use crate::memory_calls::NumberedCalls;
use crate::{Failed, NoMemory, Sink};
use std::alloc::Global;

/// A sink into memory, which tells what was written. Its calls are numbered from 1; those of a list
/// fail, and so does a call that finds no memory: they count a fault and write nothing. Any other
/// call takes the whole piece. Our own choice.
#[derive(Debug, Drop)]
pub struct MemorySink {
    written: Vec<u8>,
    calls: NumberedCalls,
    faults: u64,
    starved: u64,
}

impl MemorySink {
    ghost use Rattle.dts_base.specs.Memory.{sink_written, sink_calls, sink_faults, sink_starved};

    /// An empty sink that fails at the calls of these numbers.
    pub fn new(alloc: Global, fail: &[u64]) -> Result<MemorySink, NoMemory>
        ensures written { IfOk result (λ s. sink_written s ≡ []) }
        ensures calls { IfOk result (λ s. sink_calls s ≡ record { next = 1; fail = fail.now }) }
        ensures faults { IfOk result (λ s. (sink_faults s ≡ 0) × (sink_starved s ≡ 0)) }
    {
        Ok(MemorySink {
            written: Vec::new(alloc),
            calls: NumberedCalls::new(alloc, fail)?,
            faults: 0,
            starved: 0,
        })
    }

    /// Lends what was written.
    pub fn written(&self) -> &[u8]
        ensures written { result.now ≡ sink_written self.now }
    {
        self.written.as_slice()
    }

    /// How often a call failed for want of memory.
    pub fn starved(&self) -> u64
        ensures starved { result ≡ sink_starved self.now }
    {
        self.starved
    }
}

impl Sink for MemorySink {
    ghost use Rattle.dts_base.specs.Memory.{sink_written, sink_calls, sink_faults, sink_starved};

    ghost written = { λ s. Some (sink_written s) };

    ghost faults = { sink_faults };

    fn write(&mut self, piece: &[u8]) -> Result<usize, Failed>
        ensures count { IfOk result (λ n. n ≤ length piece.now) }
        ensures progress { IfOk result (λ n. 0 < length piece.now → 0 < n) }
        ensures told { Told (Some (sink_written self.old)) (Some (sink_written self.new)) (Writes result piece.now) }
        ensures cause { HasCause (sink_faults self.old) (sink_faults self.new) result }

        // It takes the whole piece, or it is one of the calls that are to fail, or memory was missing.
        ensures whole { IfOk result (λ n. n ≡ length piece.now) }
        ensures listed { IsListed (sink_calls self.old) → IsErr result }
        ensures calls { sink_calls self.new ≡ after_call (sink_calls self.old) }
        ensures starved { Starves (sink_calls self.old) result (sink_starved self.old) (sink_starved self.new) }
    {
        if self.calls.count() {
            self.faults = self.faults.saturating_add(1);
            return Err(Failed);
        }
        if self.written.extend_from_slice(piece).is_err() {
            self.faults = self.faults.saturating_add(1);
            self.starved = self.starved.saturating_add(1);
            return Err(Failed);
        }
        Ok(piece.len())
    }
}
