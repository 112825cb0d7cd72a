ghost use Rattle.std.specs.Prelude.{◌≡◌, ◌<◌, ◌↔◌, None, IsSome};

use crate::faults::Faults;
use crate::interrupted::read_again;
use dts_base::{Failed, Source};
use std::io::{ErrorKind, Read};

/// A source over a reader, as standard input. It tells nothing of the octets.
#[derive(Drop)]
pub struct ReaderSource<R: Read> {
    reader: R,
    faults: Faults,
}

impl<R: Read> ReaderSource<R> {
    /// A source over this reader, whose calls did not fail yet.
    pub fn new(reader: R) -> Self
        ensures faults { result.faults.count ≡ 0 }
    {
        ReaderSource {
            reader,
            faults: Faults::none(),
        }
    }

    /// What the system said of the last read that failed; none where no read failed yet.
    pub fn fault(&self) -> Option<ErrorKind>
        ensures some { IsSome result ↔ (0 < self.now.faults.count) }
        ensures last { result ≡ self.now.faults.last }
    {
        self.faults.last()
    }
}

impl<R: Read> Source for ReaderSource<R> {
    ghost left = { λ _. None };

    ghost faults = { λ s. s.faults.count };

    fn read(&mut self, buf: &mut [u8]) -> Result<usize, Failed> {
        self.faults.take(read_again(&mut self.reader, buf))
    }
}
