ghost use Rattle.std.specs.Prelude.{ℕ, ◌<◌, ◌≤◌, List, Option, IfOk, OnOk, OnErr, length};
ghost use Rattle.dts_base.specs.Causes.{HasCause};
ghost use Rattle.dts_base.specs.Told.{Told};
ghost use Rattle.dts_base.specs.Streams.{Writes, Wrote, AppendsPart};

use crate::Failed;

/// A stream of octets that is written.
pub trait Sink {
    /// What was written, where the object tells it.
    ghost written: { Self → Option (List ℕ) };

    /// How often a call failed. It never falls.
    ghost faults: { Self → ℕ };

    /// Writes the front of the piece and answers how many octets it took: some, where the piece has any.
    fn write(&mut self, piece: &[u8]) -> Result<usize, Failed>
        ensures count { IfOk result (λ n. n ≤ length piece.now) }
        ensures progress { IfOk result (λ n. 0 < length piece.now → 0 < n) }
        ensures told { Told (written self.old) (written self.new) (Writes result piece.now) }
        ensures cause { HasCause (faults self.old) (faults self.new) result };
}

/// Writes the whole piece. After `Failed` a part of it from its beginning was written.
pub fn write_all<S: Sink>(sink: &mut S, piece: &[u8]) -> Result<(), Failed>
    ensures whole { OnOk result (Wrote (S.written sink.old) (S.written sink.new) piece.now) }
    ensures part { OnErr result (Told (S.written sink.old) (S.written sink.new) (AppendsPart piece.now)) }
    ensures cause { HasCause (S.faults sink.old) (S.faults sink.new) result }
{
    let mut rest = piece;
    while !rest.is_empty() {
        let taken = sink.write(rest)?;
        rest = &rest[taken..];
    }
    Ok(())
}
