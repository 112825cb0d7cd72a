ghost use Rattle.std.specs.Prelude.{◌≡◌, ◌∷◌, [], ℕ, List, Option, IfOk, OnOk, codes, decimal};
ghost use Rattle.std.specs.Fmt.{signed_decimal};
ghost use Rattle.dts_capture.specs.Log.{hex_or_dash};
ghost use Rattle.dts_capture.specs.Spelling.{Spells};
ghost use Rattle.dts_capture.specs.Printing.{interval_fields, first_fields, event_word, event_fields, line_text};
ghost use Rattle.dts_capture.specs.Writing.{Adds, Begins};

use crate::writer::LineWriter;
use crate::{Event, Line};
use dts_base::{Interval, NoMemory, Text};
use std::alloc::Global;

/// The text of a capture line, without a line feed: the forms that [`crate::parse_line`] reads, numbers in decimal,
/// octets in hex in lower case. [`Line::Blank`] is an empty line. The only error is that no memory was found.
pub fn print_line(alloc: Global, line: &Line) -> Result<Text, NoMemory>
    ensures text { IfOk result (λ text. text ≡ line_text line.now) }

    // It says the line wherever any text does, so reading it gives the line.
    ensures reads_back { IfOk result (λ text. (current : Option ℕ) (written : List ℕ) → Spells current written line.now → Spells current text line.now) }
{
    Ok(written(alloc, line)?.end())
}

fn written(alloc: Global, line: &Line) -> Result<LineWriter, NoMemory>
    ensures { IfOk result (λ text. text ≡ line_text line.now) }
{
    match line {
        Line::Blank => LineWriter::new(alloc, ""),
        Line::Start { osc, value, first } => start(alloc, *osc, *value, *first),
        Line::Event { at: None, event } => event_line(alloc, event),
        Line::Event {
            at: Some(number),
            event,
        } => served_line(alloc, *number, event),
    }
}

fn start(
    alloc: Global,
    osc: u64,
    value: i64,
    first: Option<Interval>,
) -> Result<LineWriter, NoMemory>
    ensures { IfOk result (λ line. Begins line (codes "start") (decimal osc ∷ signed_decimal value ∷ first_fields first)) }
{
    let mut line = LineWriter::new(alloc, "start")?;
    line.number(osc)?;
    line.number(value)?;
    match first {
        None => line.word("unknown")?,
        Some(first) => ends(&mut line, first)?,
    }
    Ok(line)
}

fn event_line(alloc: Global, event: &Event) -> Result<LineWriter, NoMemory>
    ensures { IfOk result (λ line. Begins line (event_word event.now) (event_fields event.now)) }
{
    let mut line = LineWriter::new(alloc, word_of(event))?;
    fields(&mut line, event)?;
    Ok(line)
}

// The line of an event with the number of the record that it was served from.
fn served_line(alloc: Global, number: u64, event: &Event) -> Result<LineWriter, NoMemory>
    ensures { IfOk result (λ line. Begins line (codes "at") (decimal number ∷ event_word event.now ∷ event_fields event.now)) }
{
    let mut line = LineWriter::new(alloc, "at")?;
    line.number(number)?;
    line.word(word_of(event))?;
    fields(&mut line, event)?;
    Ok(line)
}

// The word that an event's line begins with.
fn word_of(event: &Event) -> &'static str
    ensures { result.now ≡ event_word event.now }
{
    match event {
        Event::Tick { .. } => "tick",
        Event::Stream { .. } => "data",
        Event::Gram { .. } => "gram",
        Event::Lost { .. } => "lost",
        Event::Unsent { .. } => "unsent",
        Event::Read { .. } => "read",
        Event::Ask { .. } => "ask",
        Event::Query { .. } => "query",
        Event::Source { .. } => "source",
        Event::Adopt { .. } => "adopt",
    }
}

// Adds the fields behind the word.
fn fields(line: &mut LineWriter, event: &Event) -> Result<(), NoMemory>
    ensures { OnOk result (Adds line.old line.new (event_fields event.now)) }
{
    match event {
        Event::Tick { osc, word } => word_fields(line, *osc, *word),
        Event::Stream { osc, peer, bytes } | Event::Gram { osc, peer, bytes } => {
            octets(line, *osc, *peer, bytes.as_slice())
        }
        Event::Ask { osc, conn, bytes } => octets(line, *osc, *conn, bytes.as_slice()),
        Event::Lost { osc, peer } | Event::Unsent { osc, peer } => two(line, *osc, *peer),
        Event::Read { osc } => line.number(*osc),
        Event::Query { osc, tag } => two(line, *osc, *tag),
        Event::Source { osc, tag, interval } => source(line, *osc, *tag, *interval),
        Event::Adopt { osc, required } => two(line, *osc, *required),
    }
}

fn word_fields(line: &mut LineWriter, osc: u64, word: u64) -> Result<(), NoMemory>
    ensures { OnOk result (Adds line.old line.new (event_fields (Event.Tick osc word))) }
{
    line.number(osc)?;
    line.hex(&word.to_be_bytes())
}

fn two(line: &mut LineWriter, osc: u64, number: u32) -> Result<(), NoMemory>
    ensures { OnOk result (Adds line.old line.new (decimal osc ∷ decimal number ∷ [])) }
{
    line.number(osc)?;
    line.number(number)
}

fn octets(line: &mut LineWriter, osc: u64, peer: u32, bytes: &[u8]) -> Result<(), NoMemory>
    ensures { OnOk result (Adds line.old line.new (decimal osc ∷ decimal peer ∷ hex_or_dash bytes.now ∷ [])) }
{
    line.number(osc)?;
    line.number(peer)?;
    line.hex_or_dash(bytes)
}

fn source(line: &mut LineWriter, osc: u64, tag: u32, interval: Interval) -> Result<(), NoMemory>
    ensures { OnOk result (Adds line.old line.new (decimal osc ∷ decimal tag ∷ interval_fields interval)) }
{
    line.number(osc)?;
    line.number(tag)?;
    ends(line, interval)
}

// The ends of an interval.
fn ends(line: &mut LineWriter, interval: Interval) -> Result<(), NoMemory>
    ensures { OnOk result (Adds line.old line.new (interval_fields interval)) }
{
    line.number(interval.lo)?;
    line.number(interval.hi)
}
