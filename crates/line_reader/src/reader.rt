ghost use Rattle.std.specs.Prelude.{◌≡◌, ◌↔◌, ℕ, ◌+◌, ◌<◌, ◌≤◌, [], ◌++◌, length, take, drop, true, false, Ok, IsTrue, IfOk, OnOk, OnErr};
ghost use Rattle.std.specs.Bool.{MatchBool};
ghost use Rattle.dts_base.specs.Causes.{HasCause};
ghost use Rattle.dts_base.specs.Told.{Told};
ghost use Rattle.line_reader.specs.Lines.{IsLine};
ghost use Rattle.line_reader.specs.Reader.{Advances};
ghost use Rattle.line_reader.specs.Steps.{TakesAhead, HasNoLine, ReadsMore};

use crate::buffer::{first_feed, move_to_front, read_behind};
use crate::limits::{MAX_LINE, ROOM};
use dts_base::{Failed, NoMemory, Source};
use std::alloc::Global;
use std::marker::Model;

/// Reads a source line by line, as `lines_of` says: a line feed, octet 10, ends a line, and the last
/// one may lack it. Clauses see the line that was taken last, the octets ahead, which were read
/// behind it, and whether the source has come to its end.
#[derive(Drop)]
pub struct LineReader {
    buffer: Vec<u8>,
    line_from: usize,
    line_to: usize,
    ahead_from: usize,
    ahead_to: usize,
    ended: bool,
}

impl Model for LineReader {
    ghost use Rattle.std.specs.Prelude.{◌≡◌, ◌≤◌, slice_range, vec_len};
    ghost use Rattle.line_reader.specs.Reader.{Reader};

    ghost Value = { Reader };

    ghost view = { λ r. record { line = slice_range r.buffer.items r.line_from r.line_to; ahead = slice_range r.buffer.items r.ahead_from r.ahead_to; ended = r.ended } };

    ghost use Rattle.line_reader.specs.Places.{HasPlaces};

    ghost invariant = { HasPlaces };
}

impl LineReader {
    /// A reader that read nothing yet. It takes memory here, 64 KiB, and nowhere else.
    pub fn new(alloc: Global) -> Result<LineReader, NoMemory>
        ensures empty { IfOk result (λ reader. reader ≡ record { line = []; ahead = []; ended = false }) }
    {
        Ok(LineReader {
            buffer: vec![in alloc; 0u8; ROOM]?,
            line_from: 0,
            line_to: 0,
            ahead_from: 0,
            ahead_to: 0,
            ended: false,
        })
    }

    /// The line that was taken last, without its line feed. Its octets may be of any other value.
    pub fn line(&self) -> &[u8]
        ensures line { result.now ≡ self.now.line }
    {
        &self.buffer[self.line_from..self.line_to]
    }

    // The octets ahead.
    fn ahead(&self) -> &[u8]
        ensures { result.now ≡ self.now.ahead }
    {
        &self.buffer[self.ahead_from..self.ahead_to]
    }

    // Takes as many octets ahead as the line, and `feeds` more that are left out.
    fn take(&mut self, count: usize, feeds: usize)
        requires { count + feeds ≤ length self.old.ahead }
        ensures { self.new ≡ record { line = take count self.old.ahead; ahead = drop (count + feeds) self.old.ahead; ended = self.old.ended } }
    {
        self.line_from = self.ahead_from;
        self.line_to = self.ahead_from + count;
        self.ahead_from = self.line_to + feeds;
    }

    // Takes the next line where its line feed is ahead, or more octets than a line may have. The
    // first octets that were searched have no line feed.
    fn take_line(&mut self, searched: usize) -> bool
        requires going { self.old.ended ≡ false }
        requires searched { searched ≤ length self.old.ahead }
        requires none { IsLine (take searched self.old.ahead) }
        ensures { MatchBool result (TakesAhead self.old self.new) (HasNoLine self.old self.new) }
    {
        let feed = first_feed(self.ahead(), searched);
        let count = feed.unwrap_or(self.ahead().len());
        if count > MAX_LINE {
            self.take(MAX_LINE + 1, 0);
            return true;
        }
        if feed.is_some() {
            self.take(count, 1);
            return true;
        }
        false
    }

    // Takes all octets ahead as the last line, where there are some.
    fn take_rest(&mut self) -> bool
        ensures some { IsTrue result ↔ (0 < length self.old.ahead) }
        ensures taken { self.new ≡ record { line = self.old.ahead; ahead = []; ended = true } }
    {
        self.line_from = self.ahead_from;
        self.line_to = self.ahead_to;
        self.ahead_from = self.ahead_to;
        self.ended = true;
        self.line_from < self.line_to
    }

    // Reads more octets behind those that are ahead, and gives up the line. 0 is the end of the input.
    fn read_more<I: Source>(&mut self, input: &mut I) -> Result<usize, Failed>
        requires going { self.old.ended ≡ false }
        requires few { length self.old.ahead ≤ MAX_LINE }
        ensures going { self.new.ended ≡ false }
        ensures line { self.new.line ≡ [] }
        ensures fits { length self.new.ahead ≤ ROOM }
        ensures count { IfOk result (λ n. length self.new.ahead ≡ length self.old.ahead + n) }
        ensures kept { take (length self.old.ahead) self.new.ahead ≡ self.old.ahead }
        ensures failed { OnErr result (self.new.ahead ≡ self.old.ahead) }
        ensures told { Told (I.left input.old) (I.left input.new) (ReadsMore self.old self.new result) }
        ensures cause { HasCause (I.faults input.old) (I.faults input.new) result }
    {
        move_to_front(self.buffer.as_mut_slice(), self.ahead_from, self.ahead_to);
        self.line_from = 0;
        self.line_to = 0;
        self.ahead_to -= self.ahead_from;
        self.ahead_from = 0;
        let count = read_behind(self.buffer.as_mut_slice(), self.ahead_to, input)?;
        self.ahead_to += count;
        Ok(count)
    }

    /// Goes on to the next line; false at the end of the input, after which the source is read no more. A line of
    /// more than [`MAX_LINE`] octets is answered as soon as so many are there, cut to its first `MAX_LINE + 1`; the
    /// rest of it stays ahead. `Failed` where a read of the source failed: no whole line is ahead then, no octet
    /// is lost, and a later call goes on.
    pub fn advance<I: Source>(&mut self, input: &mut I) -> Result<bool, Failed>
        ensures next { Told (I.left input.old) (I.left input.new) (Advances self.old self.new result) }
        ensures cause { HasCause (I.faults input.old) (I.faults input.new) result }
        ensures ended { self.old.ended ≡ true → (result ≡ Ok false) × (input.new ≡ input.old) }

        // Also over a source that tells nothing: a line has no line feed, and at the end or after `Failed` there is no line.
        ensures feed { OnOk result (IsLine self.new.line) }
        ensures end { IfOk result (λ there. there ≡ false → (self.new.line ≡ []) × (self.new.ended ≡ true)) }
        ensures failed { OnErr result (self.new.line ≡ []) }
    {
        if self.ended {
            self.take(0, 0);
            return Ok(false);
        }
        let mut searched = 0;
        loop {
            if self.take_line(searched) {
                return Ok(true);
            }
            searched = self.ahead().len();
            if self.read_more(input)? == 0 {
                return Ok(self.take_rest());
            }
        }
    }
}
