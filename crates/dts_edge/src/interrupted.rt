ghost use Rattle.std.specs.Io.{ReadsAtMost, WritesAtMost};

use std::io::{self, ErrorKind, Read, Write};

// One read. Where the system interrupts it before anything came it is made again.
pub(crate) fn read_again<R: Read>(reader: &mut R, buf: &mut [u8]) -> io::Result<usize>
    ensures count { ReadsAtMost result buf.new }
{
    for _ in 0..u64::MAX {
        match reader.read(buf) {
            Err(error) if error.kind() == ErrorKind::Interrupted => {}
            outcome => return outcome,
        }
    }
    Err(ErrorKind::Interrupted.into())
}

// One write. Where the system interrupts it before anything was taken it is made again.
pub(crate) fn write_again<W: Write>(writer: &mut W, piece: &[u8]) -> io::Result<usize>
    ensures count { WritesAtMost result piece.now }
{
    for _ in 0..u64::MAX {
        match writer.write(piece) {
            Err(error) if error.kind() == ErrorKind::Interrupted => {}
            outcome => return outcome,
        }
    }
    Err(ErrorKind::Interrupted.into())
}
