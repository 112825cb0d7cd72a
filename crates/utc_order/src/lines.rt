//! Keeps lines in memory.

ghost use Rattle.std.specs.Prelude.{◌≡◌, ◌==◌, ◌&&◌, ◌<◌, ℕ, ◌++◌, [], ◌∷◌, List, length, position, slice_get, option_map, OnOk, OnErr, IfSome};
ghost use Rattle.utc_order.specs.declared.lines.Entry.{Entry};
ghost use Rattle.utc_order.specs.Marks.{is_certainly_earlier};
ghost use Rattle.utc_order.specs.Taking.{first_contrary};

use crate::heading::Heading;
use crate::points::is_below;
use dts_base::NoMemory;
use std::alloc::Global;
use std::marker::Model;
use utc_value::Utc;

// A line, by where its octets stand in one buffer.
#[derive(Drop)]
pub(crate) struct Entry {
    host: u8,
    time: Utc,
    from: usize,
    to: usize,
}

/// A line that is kept.
#[derive(Drop)]
pub(crate) struct KeptLine<'a> {
    /// Its host.
    pub(crate) host: u8,
    /// Its moment.
    pub(crate) time: Utc,
    /// Its octets, without a line feed.
    pub(crate) octets: &'a [u8],
}

/// The lines that were read so far. Their octets stand in one buffer. Clauses see them as lines.
#[derive(Drop)]
pub(crate) struct Lines {
    octets: Vec<u8>,
    entries: Vec<Entry>,
}

impl Model for Lines {
    ghost use Rattle.std.specs.Prelude.{List};
    ghost use Rattle.utc_order.specs.Lines.{LogLine};

    ghost Value = { List LogLine };

    ghost use Rattle.utc_order.specs.Kept.{lines_kept, AreWithin};

    ghost view = { lines_kept };

    ghost invariant = { AreWithin };
}

impl Lines {
    ghost use Rattle.utc_order.specs.Kept.{line_lent};

    /// No line.
    pub(crate) fn new(alloc: Global) -> Lines
        ensures { result ≡ [] }
    {
        Lines {
            octets: Vec::new(alloc),
            entries: Vec::new(alloc),
        }
    }

    /// How many they are.
    pub(crate) fn len(&self) -> usize
        ensures { result ≡ length self.now }
    {
        self.entries.len()
    }

    /// Keeps a further line.
    pub(crate) fn push(&mut self, heading: &Heading, octets: &[u8]) -> Result<(), NoMemory>
        ensures pushed { OnOk result (self.new ≡ self.old ++ record { host = heading.now.host; time = heading.now.time; octets = octets.now } ∷ []) }
        ensures kept { OnErr result (self.new ≡ self.old) }
    {
        let from = self.octets.len();
        self.octets.extend_from_slice(octets)?;
        let to = self.octets.len();
        self.entries.push(Entry {
            host: heading.host,
            time: heading.time,
            from,
            to,
        })?;
        Ok(())
    }

    /// How many lines stand before the first of them behind which a line with this heading goes back.
    pub(crate) fn first_contrary(&self, heading: &Heading) -> Option<usize>
        ensures first { (octets : List ℕ) → result ≡ first_contrary self.now (record { host = heading.now.host; time = heading.now.time; octets = octets }) }
        ensures index { IfSome result (λ index. index < length self.now) }
    {
        first_contrary(self.entries.as_slice(), heading)
    }

    /// The line behind so many others.
    pub(crate) fn get(&self, index: usize) -> Option<KeptLine<'_>>
        ensures { option_map line_lent result ≡ slice_get self.now index }
    {
        let entry = self.entries.get(index)?;
        Some(KeptLine {
            host: entry.host,
            time: entry.time,
            octets: &self.octets[entry.from..entry.to],
        })
    }
}

// The index of the first entry behind which a line with this heading goes back.
fn first_contrary(entries: &[Entry], heading: &Heading) -> Option<usize>
    ensures first { result ≡ position (λ (entry : Entry). (entry.host == heading.now.host) && is_certainly_earlier heading.now.time entry.time) entries.now }
    ensures index { IfSome result (λ index. index < length entries.now) }
{
    entries.iter().position(|entry| {
        entry.host == heading.host && is_certainly_earlier(heading.time, entry.time)
    })
}

// Whether a moment is certainly earlier than another.
fn is_certainly_earlier(a: Utc, b: Utc) -> bool
    ensures { result ≡ is_certainly_earlier a b }
{
    is_below(a.latest(), b.earliest())
}
