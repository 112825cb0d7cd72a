ghost use Rattle.std.specs.Prelude.{◌≡◌, ◌<◌, ◌↔◌, None, IsSome};
ghost use Rattle.std.specs.Io.{ReadsAtMost};

use crate::faults::Faults;
use crate::interrupted::read_again;
use dts_base::{Failed, Source};
use std::io::ErrorKind;
use std::rt::Files;
use std::{fs, io};

/// A source over a file, which is opened at its first use. It tells nothing of the octets.
#[derive(Drop)]
pub struct FileSource<'a, R: Files> {
    rt: &'a R,
    path: &'a str,
    file: Option<R::File>,
    faults: Faults,
}

impl<'a, R: Files> FileSource<'a, R> {
    /// A source over the file of this path, which is not opened yet.
    pub fn new(rt: &'a R, path: &'a str) -> Self
        ensures faults { result.faults.count ≡ 0 }
        ensures path { result.path.now ≡ path.now }
    {
        FileSource {
            rt,
            path,
            file: None,
            faults: Faults::none(),
        }
    }

    /// What the system said of the last read that failed, or of opening the file for it; none where no read failed
    /// yet.
    pub fn fault(&self) -> Option<ErrorKind>
        ensures some { IsSome result ↔ (0 < self.now.faults.count) }
        ensures last { result ≡ self.now.faults.last }
    {
        self.faults.last()
    }
}

// Opens the file where it is not open yet, and reads.
fn read_open<R: Files>(
    rt: &R,
    path: &str,
    file: &mut Option<R::File>,
    buf: &mut [u8],
) -> io::Result<usize>
    ensures count { ReadsAtMost result buf.new }
{
    match file {
        Some(file) => read_again(file, buf),
        None => {
            let mut opened = fs::open(rt, path)?;
            let count = read_again(&mut opened, buf)?;
            *file = Some(opened);
            Ok(count)
        }
    }
}

impl<R: Files> Source for FileSource<'_, R> {
    ghost left = { λ _. None };

    ghost faults = { λ s. s.faults.count };

    fn read(&mut self, buf: &mut [u8]) -> Result<usize, Failed> {
        self.faults
            .take(read_open(self.rt, self.path, &mut self.file, buf))
    }
}
