ghost use Rattle.std.specs.Prelude.{◌≡◌, ◌+◌, ◌-◌, ◌<◌, ◌≤◌, ◌∷◌, ◌++◌, length, take, drop, IfOk, MatchOption};
ghost use Rattle.dts_base.specs.Causes.{HasCause};
ghost use Rattle.dts_base.specs.Told.{Told};
ghost use Rattle.dts_base.specs.Streams.{Reads};
ghost use Rattle.line_reader.specs.Lines.{IsLine};
ghost use Rattle.line_reader.specs.Steps.{HasFeedAt};

use dts_base::{Failed, Source};
use memchr::memchr;

/// The place of the first line feed, where the octets before `searched` have none.
pub fn first_feed(octets: &[u8], searched: usize) -> Option<usize>
    requires searched { searched ≤ length octets.now }
    requires none { IsLine (take searched octets.now) }
    ensures { MatchOption result (IsLine octets.now) (HasFeedAt octets.now) }
{
    let behind = memchr(b'\n', &octets[searched..])?;
    Some(searched + behind)
}

/// Moves the octets from `from` up to `to` to the front of the buffer.
pub fn move_to_front(buffer: &mut [u8], from: usize, to: usize)
    requires order { from ≤ to }
    requires end { to ≤ length buffer.old }
    ensures moved { take (to - from) buffer.new ≡ take (to - from) (drop from buffer.old) }
{
    if from > 0 {
        buffer.copy_within(from..to, 0);
    }
}

/// Reads into the buffer from `to` on, and answers how many octets came. 0 is the end.
pub fn read_behind<I: Source>(buffer: &mut [u8], to: usize, input: &mut I) -> Result<usize, Failed>
    requires { to < length buffer.old }
    ensures count { IfOk result (λ n. to + n ≤ length buffer.new) }
    ensures kept { take to buffer.new ≡ take to buffer.old }
    ensures told { Told (I.left input.old) (I.left input.new) (Reads result (drop to buffer.new)) }
    ensures cause { HasCause (I.faults input.old) (I.faults input.new) result }
{
    input.read(&mut buffer[to..])
}
