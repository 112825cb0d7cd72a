ghost use Rattle.std.specs.Prelude.{◌≡◌, ◌≤◌, ◌↔◌, length, take, min, Some, IfOk, IsErr};
ghost use Rattle.dts_base.specs.Calls.{IsListed, after_call};
ghost use Rattle.dts_base.specs.Causes.{HasCause};
ghost use Rattle.dts_base.specs.Told.{Told};
ghost use Rattle.dts_base.specs.Streams.{Reads};

use crate::memory_calls::NumberedCalls;
use crate::{Failed, NoMemory, Source};
use std::alloc::Global;

/// A source over octets in memory, which tells what is left. Its calls are numbered from 1; those of
/// a list fail: they count a fault and read nothing. Our own choice.
#[derive(Debug, Drop)]
pub struct MemorySource {
    script: Vec<u8>,
    at: usize,
    calls: NumberedCalls,
    faults: u64,
    ghost in_script: { at ≤ length script.items },
}

impl MemorySource {
    ghost use Rattle.dts_base.specs.Memory.{source_left, source_calls, source_faults};

    /// A source that holds these octets and fails at the calls of these numbers.
    pub fn new(alloc: Global, script: &[u8], fail: &[u64]) -> Result<MemorySource, NoMemory>
        ensures left { IfOk result (λ s. source_left s ≡ script.now) }
        ensures calls { IfOk result (λ s. source_calls s ≡ record { next = 1; fail = fail.now }) }
        ensures faults { IfOk result (λ s. source_faults s ≡ 0) }
    {
        Ok(MemorySource {
            script: script.to_vec(alloc)?,
            at: 0,
            calls: NumberedCalls::new(alloc, fail)?,
            faults: 0,
        })
    }
}

// Copies as many octets from the front as the buffer holds.
pub(crate) fn copy_front(left: &[u8], buf: &mut [u8]) -> usize
    ensures count { result ≡ min (length left.now) (length buf.old) }
    ensures copied { take result buf.new ≡ take result left.now }
{
    let count = left.len().min(buf.len());
    buf[..count].copy_from_slice(&left[..count]);
    count
}

impl Source for MemorySource {
    ghost use Rattle.dts_base.specs.Memory.{source_left, source_calls, source_faults};

    ghost left = { λ s. Some (source_left s) };

    ghost faults = { source_faults };

    fn read(&mut self, buf: &mut [u8]) -> Result<usize, Failed>
        ensures count { IfOk result (λ n. n ≤ length buf.new) }
        ensures told { Told (Some (source_left self.old)) (Some (source_left self.new)) (Reads result buf.new) }
        ensures cause { HasCause (source_faults self.old) (source_faults self.new) result }

        // It fails exactly at the calls of its list.
        ensures failed { IsErr result ↔ IsListed (source_calls self.old) }
        ensures calls { source_calls self.new ≡ after_call (source_calls self.old) }
    {
        if self.calls.count() {
            self.faults = self.faults.saturating_add(1);
            return Err(Failed);
        }
        let count = copy_front(&self.script[self.at..], buf);
        self.at += count;
        Ok(count)
    }
}
