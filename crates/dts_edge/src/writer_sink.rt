ghost use Rattle.std.specs.Prelude.{◌≡◌, ◌<◌, ◌↔◌, None, IsSome, IfOk, length};
ghost use Rattle.std.specs.Io.{WritesAtMost};

use crate::faults::Faults;
use crate::interrupted::write_again;
use dts_base::{Failed, Sink};
use std::io::{self, ErrorKind, Write};

/// A sink over a writer, as standard output. It tells nothing of the octets.
#[derive(Drop)]
pub struct WriterSink<W: Write> {
    writer: W,
    faults: Faults,
}

impl<W: Write> WriterSink<W> {
    /// A sink over this writer, whose calls did not fail yet.
    pub fn new(writer: W) -> Self
        ensures faults { result.faults.count ≡ 0 }
    {
        WriterSink {
            writer,
            faults: Faults::none(),
        }
    }

    /// What the system said of the last write that failed, `WriteZero` where that write took nothing of its piece; none
    /// where no write failed yet.
    pub fn fault(&self) -> Option<ErrorKind>
        ensures some { IsSome result ↔ (0 < self.now.faults.count) }
        ensures last { result ≡ self.now.faults.last }
    {
        self.faults.last()
    }
}

impl<W: Write> Sink for WriterSink<W> {
    ghost written = { λ _. None };

    ghost faults = { λ s. s.faults.count };

    fn write(&mut self, piece: &[u8]) -> Result<usize, Failed> {
        self.faults.take(write_some(&mut self.writer, piece))
    }
}

// One write. A writer that takes nothing of a piece has failed.
fn write_some<W: Write>(writer: &mut W, piece: &[u8]) -> io::Result<usize>
    ensures count { WritesAtMost result piece.now }
    ensures some { IfOk result (λ n. 0 < length piece.now → 0 < n) }
{
    match write_again(writer, piece)? {
        0 if !piece.is_empty() => Err(ErrorKind::WriteZero.into()),
        count => Ok(count),
    }
}
