ghost use Rattle.std.specs.Prelude.{ℕ, ◌≤◌, List, Option, IfOk, length};
ghost use Rattle.dts_base.specs.Causes.{HasCause};
ghost use Rattle.dts_base.specs.Told.{Told};
ghost use Rattle.dts_base.specs.Streams.{Reads};

use crate::Failed;

/// A stream of octets that is read.
pub trait Source {
    /// The octets left, where the object tells them.
    ghost left: { Self → Option (List ℕ) };

    /// How often a call failed. It never falls.
    ghost faults: { Self → ℕ };

    /// Reads into the buffer and answers how many octets came. 0 into a buffer with room is the end.
    fn read(&mut self, buf: &mut [u8]) -> Result<usize, Failed>
        ensures count { IfOk result (λ n. n ≤ length buf.new) }
        ensures told { Told (left self.old) (left self.new) (Reads result buf.new) }
        ensures cause { HasCause (faults self.old) (faults self.new) result };
}
