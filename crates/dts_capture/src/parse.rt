ghost use Rattle.std.specs.Prelude.{◌≡◌, ◌⊎◌, ℕ, Option, Result, Err, MatchResult, IfOk, IfErr, true, false};
ghost use Rattle.dts_capture.specs.declared.event.Event.{Event};
ghost use Rattle.dts_capture.specs.declared.line.Line.{Line};
ghost use Rattle.dts_capture.specs.declared.line.LineFault.{LineFault};
ghost use Rattle.dts_capture.specs.Grammar.{Fault, Form, Field, number32, at_osc, octets_form, peer_form, served_form, read_form, ask_form, start_form, tick_form, query_form, source_form, adopt_form, at_form, serve_forms, direct_forms, peer_forms, line_forms};
ghost use Rattle.dts_capture.specs.Spelling.{is_blank, Spells, IsWrongAt, IsFaultOf};
ghost use Rattle.dts_capture.specs.Parsing.{Parses};

use crate::cursor::Cursor;
use crate::limits::{FIRST_CONNECTION, MAX_TAGS};
use crate::{Event, Line, LineCause, LineFault};
use dts_base::Bytes;
use line_reader::MAX_LINE;
use std::alloc::Global;

/// Reads a line of a capture, without its line feed.
///
/// A line is empty, or a comment that begins with `#`, or its fields joined by single spaces: `start OSC VALUE LO HI`,
/// `start OSC VALUE unknown`, `tick OSC WORD`, `data OSC PEER HEX`, `gram OSC PEER HEX`, `lost OSC PEER`,
/// `unsent OSC PEER`, `read OSC`, `ask OSC CONN HEX`, `query OSC TAG`, `source OSC TAG LO HI`,
/// `adopt OSC REQUIRED`, or `at K` and a line of a serve capture: a `read`, an `ask`, or a `lost` or `unsent` of a peer
/// from 1000. Numbers are in decimal without leading zeros, in units of 100 ns where they are times: OSC is at most
/// 2^60, VALUE, LO and HI are 0 to 2^61 and LO is at most HI, PEER, CONN and TAG have 32 bits, CONN is at least 1000,
/// REQUIRED is 1 to 64, K has 64 bits. WORD is 16 hex digits, HEX an even number of them, at least two, or `-` for an
/// empty datagram. A line has at most 16,384 octets. Any other line is refused at its first wrong field.
pub fn parse_line(alloc: Global, line: &[u8]) -> Result<Line, LineFault>
    ensures found { IfOk result (Spells Option.None line.now) }
    ensures first_wrong { IfErr result (IsFaultOf Option.None line.now) }

    // Neither has another answer, but that memory is missing.
    ensures only { (l : Line) → Spells Option.None line.now l → (result ≡ Ok l) ⊎ (result ≡ Err LineFault.NoMemory) }
    ensures only_wrong { (fault : Fault) → IsWrongAt Option.None line.now fault → (result ≡ Err (LineFault.Wrong fault.column fault.why)) ⊎ (result ≡ Err LineFault.NoMemory) }
{
    parse_for(alloc, None, line)
}

/// Reads a line as [`parse_line`] does; `at K` has to name this record. So a replay reads lines, which has a current record.
pub fn parse_line_at(alloc: Global, current: u64, line: &[u8]) -> Result<Line, LineFault>
    ensures found { IfOk result (Spells (Option.Some current) line.now) }
    ensures first_wrong { IfErr result (IsFaultOf (Option.Some current) line.now) }

    // Neither has another answer, but that memory is missing.
    ensures only { (l : Line) → Spells (Option.Some current) line.now l → (result ≡ Ok l) ⊎ (result ≡ Err LineFault.NoMemory) }
    ensures only_wrong { (fault : Fault) → IsWrongAt (Option.Some current) line.now fault → (result ≡ Err (LineFault.Wrong fault.column fault.why)) ⊎ (result ≡ Err LineFault.NoMemory) }
{
    parse_for(alloc, Some(current), line)
}

// Reads a line, where `at K` has to name this record if one is given.
fn parse_for(alloc: Global, current: Option<u64>, line: &[u8]) -> Result<Line, LineFault>
    ensures found { IfOk result (Spells current line.now) }
    ensures first_wrong { IfErr result (IsFaultOf current line.now) }
{
    if line.len() > MAX_LINE {
        return Err(LineFault::Wrong {
            column: MAX_LINE as u32 + 1,
            cause: LineCause::Long,
        });
    }
    if is_blank(line) {
        return Ok(Line::Blank);
    }
    any_line(alloc, current, &mut Cursor::new(line))
}

/// The line is empty or a comment.
pub fn is_blank(line: &[u8]) -> bool
    ensures { result ≡ is_blank line.now }
{
    match line {
        [] => true,
        [first, ..] => *first == b'#',
    }
}

// Reads a line that is not blank.
fn any_line(alloc: Global, current: Option<u64>, line: &mut Cursor) -> Result<Line, LineFault>
    ensures { Parses (line_forms current) line.old result }
{
    if line.takes("start")? {
        return start(line);
    }
    if line.takes("tick")? {
        return tick(line);
    }
    if line.takes("read")? {
        return read(line, None);
    }
    if line.takes("ask")? {
        return ask(alloc, line, None);
    }
    of_peer(alloc, current, line)
}

// Reads a line on what came of a peer, or another.
fn of_peer(alloc: Global, current: Option<u64>, line: &mut Cursor) -> Result<Line, LineFault>
    ensures { Parses (peer_forms current) line.old result }
{
    if line.takes("data")? {
        return stream(alloc, line);
    }
    if line.takes("gram")? {
        return gram(alloc, line);
    }
    if line.takes("lost")? {
        return lost(line);
    }
    if line.takes("unsent")? {
        return unsent(line);
    }
    direct(alloc, current, line)
}

// Reads a line of a direct round, or one of a serve capture.
fn direct(alloc: Global, current: Option<u64>, line: &mut Cursor) -> Result<Line, LineFault>
    ensures { Parses (direct_forms current) line.old result }
{
    if line.takes("query")? {
        return query(line);
    }
    if line.takes("source")? {
        return source(line);
    }
    if line.takes("adopt")? {
        return adopt(line);
    }
    if line.takes("at")? {
        return at(alloc, current, line);
    }
    Err(line.no_word(LineCause::Word, LineCause::Word))
}

// Reads what follows `at`.
fn at(alloc: Global, current: Option<u64>, line: &mut Cursor) -> Result<Line, LineFault>
    ensures { Parses (at_form current) line.old result }
{
    let number = line.record_number(current)?;
    line.mark_word();
    serve_line(alloc, number, line)
}

// Reads a line of a serve capture, behind the number of its record.
fn serve_line(alloc: Global, number: u64, line: &mut Cursor) -> Result<Line, LineFault>
    ensures { Parses (serve_forms (Option.Some number)) line.old result }
{
    if line.takes("read")? {
        return read(line, Some(number));
    }
    if line.takes("ask")? {
        return ask(alloc, line, Some(number));
    }
    if line.takes("lost")? {
        return served_lost(line, Some(number));
    }
    if line.takes("unsent")? {
        return served_unsent(line, Some(number));
    }
    Err(line.no_word(LineCause::Missing, LineCause::At))
}

fn start(line: &mut Cursor) -> Result<Line, LineFault>
    ensures { Parses start_form line.old result }
{
    let osc = line.osc()?;
    let value = line.count()?;
    let first = line.first()?;
    line.says(Line::Start { osc, value, first })
}

fn tick(line: &mut Cursor) -> Result<Line, LineFault>
    ensures { Parses tick_form line.old result }
{
    let osc = line.osc()?;
    let word = line.word()?;
    line.says(Line::Event {
        at: None,
        event: Event::Tick { osc, word },
    })
}

fn read(line: &mut Cursor, at: Option<u64>) -> Result<Line, LineFault>
    ensures { Parses (read_form at) line.old result }
{
    let osc = line.osc()?;
    line.says(Line::Event {
        at,
        event: Event::Read { osc },
    })
}

fn ask(alloc: Global, line: &mut Cursor, at: Option<u64>) -> Result<Line, LineFault>
    ensures { Parses (ask_form at) line.old result }
{
    let osc = line.osc()?;
    let conn = line.number32(FIRST_CONNECTION)?;
    let bytes = line.octets(alloc, false)?;
    line.says(Line::Event {
        at,
        event: Event::Ask { osc, conn, bytes },
    })
}

fn stream(alloc: Global, line: &mut Cursor) -> Result<Line, LineFault>
    ensures { Parses (octets_form 0 false Event.Stream Option.None) line.old result }
{
    let osc = line.osc()?;
    let peer = line.number32(0)?;
    let bytes = line.octets(alloc, false)?;
    line.says(Line::Event {
        at: None,
        event: Event::Stream { osc, peer, bytes },
    })
}

fn gram(alloc: Global, line: &mut Cursor) -> Result<Line, LineFault>
    ensures { Parses (octets_form 0 true Event.Gram Option.None) line.old result }
{
    let osc = line.osc()?;
    let peer = line.number32(0)?;
    let bytes = line.octets(alloc, true)?;
    line.says(Line::Event {
        at: None,
        event: Event::Gram { osc, peer, bytes },
    })
}

fn lost(line: &mut Cursor) -> Result<Line, LineFault>
    ensures { Parses (peer_form Event.Lost) line.old result }
{
    let osc = line.osc()?;
    let peer = line.number32(0)?;
    line.says(Line::Event {
        at: None,
        event: Event::Lost { osc, peer },
    })
}

fn unsent(line: &mut Cursor) -> Result<Line, LineFault>
    ensures { Parses (peer_form Event.Unsent) line.old result }
{
    let osc = line.osc()?;
    let peer = line.number32(0)?;
    line.says(Line::Event {
        at: None,
        event: Event::Unsent { osc, peer },
    })
}

fn served_lost(line: &mut Cursor, at: Option<u64>) -> Result<Line, LineFault>
    ensures { Parses (served_form Event.Lost at) line.old result }
{
    let osc = line.osc()?;
    let peer = line.number32(0)?;
    line.served(peer)?;
    line.says(Line::Event {
        at,
        event: Event::Lost { osc, peer },
    })
}

fn served_unsent(line: &mut Cursor, at: Option<u64>) -> Result<Line, LineFault>
    ensures { Parses (served_form Event.Unsent at) line.old result }
{
    let osc = line.osc()?;
    let peer = line.number32(0)?;
    line.served(peer)?;
    line.says(Line::Event {
        at,
        event: Event::Unsent { osc, peer },
    })
}

fn query(line: &mut Cursor) -> Result<Line, LineFault>
    ensures { Parses query_form line.old result }
{
    let osc = line.osc()?;
    let tag = line.number32(0)?;
    line.says(Line::Event {
        at: None,
        event: Event::Query { osc, tag },
    })
}

fn source(line: &mut Cursor) -> Result<Line, LineFault>
    ensures { Parses source_form line.old result }
{
    let osc = line.osc()?;
    let tag = line.number32(0)?;
    let interval = line.interval()?;
    line.says(Line::Event {
        at: None,
        event: Event::Source { osc, tag, interval },
    })
}

fn adopt(line: &mut Cursor) -> Result<Line, LineFault>
    ensures { Parses adopt_form line.old result }
{
    let osc = line.osc()?;
    let required = line.natural(1, u64::from(MAX_TAGS))? as u32;
    line.says(Line::Event {
        at: None,
        event: Event::Adopt { osc, required },
    })
}
