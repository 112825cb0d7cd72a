ghost use Rattle.std.specs.Prelude.{◌≡◌, ◌∷◌, [], ◌++◌, IfOk, OnOk, OnErr, codes, decimal};
ghost use Rattle.std.specs.Fmt.{signed_decimal};
ghost use Rattle.line_reader.specs.Fields.{text_of};
ghost use Rattle.dts_capture.specs.Log.{anchor_fields, parts_fields, number_or_dash, hex_or_dash, source_field, note_words, note_fields, log_text};
ghost use Rattle.dts_capture.specs.Writing.{Adds, Begins};

use crate::writer::LineWriter;
use crate::{Action, FalseSource, MAX_TAGS, Note, NoteKind};
use dts_base::{NoMemory, Refused, State, Text};
use itoa::Integer;
use slew_clock::{Anchor, ClockRecord, PartA, PartB};
use std::alloc::Global;

/// The log line of an action, with its line feed.
///
/// A line is its fields joined by single spaces, numbers in decimal, octets in lower-case hex, times and
/// lengths of time in units of 100 ns:
/// `record NUMBER STEP BORN AOSC LO HI AFROM AVALUE AX BFROM BX`, with `- - -` in the place of AOSC, LO and
/// HI where there is no anchor; `reading OSC VALUE INACC STEP NUMBER`, with `-` for an unspecified
/// inaccuracy; `round OSC NUMBER SOURCES`; `adopted OSC N LO HI`; `false OSC SOURCE`; `step OSC STEP OLD NEW`;
/// `short OSC ANSWERED REQUIRED`; `split OSC N`; `send OSC PEER HEX`; `close OSC PEER`; and `note OSC PEER` with
/// the words of any other note, and `-` where there is no peer. The only error is that no memory was found.
pub fn print_action(alloc: Global, action: &Action) -> Result<Text, NoMemory>
    ensures text { IfOk result (λ line. line ≡ log_text action.now) }
{
    let line = match action {
        Action::Send { osc, peer, bytes } => sent(alloc, *osc, *peer, bytes.as_slice())?,
        Action::Close { osc, peer } => two_numbers(alloc, "close", *osc, u64::from(*peer))?,
        Action::Publish { rec } => record(alloc, rec)?,
        Action::Log(note) => note_line(alloc, note)?,
    };
    line.end_of_line()
}

/// Puts the line that `print_action` gives at the end of a log. The only error is that no memory was found, and then
/// the log is as it was.
pub fn append_action(alloc: Global, log: &mut Vec<u8>, action: &Action) -> Result<(), NoMemory>
    ensures text { OnOk result (log.new.items ≡ log.old.items ++ log_text action.now) }
    ensures unchanged { OnErr result (log.new.items ≡ log.old.items) }
{
    let line = print_action(alloc, action)?;
    log.extend_from_slice(line.as_slice())?;
    Ok(())
}

// A word and two numbers.
fn two_numbers<I: Integer, J: Integer>(
    alloc: Global,
    word: &str,
    first: I,
    second: J,
) -> Result<LineWriter, NoMemory>
    ensures { IfOk result (λ line. Begins line word.now (I.text first ∷ J.text second ∷ [])) }
{
    let mut line = LineWriter::new(alloc, word)?;
    line.number(first)?;
    line.number(second)?;
    Ok(line)
}

// A word and three numbers.
fn three_numbers<I: Integer, J: Integer, K: Integer>(
    alloc: Global,
    word: &str,
    first: I,
    second: J,
    third: K,
) -> Result<LineWriter, NoMemory>
    ensures { IfOk result (λ line. Begins line word.now (I.text first ∷ J.text second ∷ K.text third ∷ [])) }
{
    let mut line = two_numbers(alloc, word, first, second)?;
    line.number(third)?;
    Ok(line)
}

// A word and four numbers.
fn four_numbers<I: Integer, J: Integer, K: Integer, L: Integer>(
    alloc: Global,
    word: &str,
    first: I,
    second: J,
    third: K,
    fourth: L,
) -> Result<LineWriter, NoMemory>
    ensures { IfOk result (λ line. Begins line word.now (I.text first ∷ J.text second ∷ K.text third ∷ L.text fourth ∷ [])) }
{
    let mut line = three_numbers(alloc, word, first, second, third)?;
    line.number(fourth)?;
    Ok(line)
}

// What was sent.
fn sent(alloc: Global, osc: u64, peer: u32, bytes: &[u8]) -> Result<LineWriter, NoMemory>
    ensures { IfOk result (λ line. Begins line (codes "send") (decimal osc ∷ decimal peer ∷ hex_or_dash bytes.now ∷ [])) }
{
    let mut line = two_numbers(alloc, "send", osc, peer)?;
    line.hex_or_dash(bytes)?;
    Ok(line)
}

fn record(alloc: Global, rec: &ClockRecord) -> Result<LineWriter, NoMemory>
    ensures { IfOk result (λ line. Begins line (codes "record") (decimal rec.now.number ∷ decimal rec.now.step ∷ decimal rec.now.born ∷ anchor_fields rec.now.anchor ++ parts_fields rec.now.a rec.now.b)) }
{
    let mut line = three_numbers(alloc, "record", rec.number, rec.step, rec.born)?;
    anchor(&mut line, rec.anchor)?;
    parts(&mut line, rec.a, rec.b)?;
    Ok(line)
}

// When the anchor was adopted and its ends, or three dashes where there is none.
fn anchor(line: &mut LineWriter, anchor: Option<Anchor>) -> Result<(), NoMemory>
    ensures { OnOk result (Adds line.old line.new (anchor_fields anchor)) }
{
    match anchor {
        None => {
            line.word("-")?;
            line.word("-")?;
            line.word("-")
        }
        Some(Anchor { osc, lo, hi }) => {
            line.number(osc)?;
            line.number(lo)?;
            line.number(hi)
        }
    }
}

// Where each part of a clock's line begins and how far it slews, the first with its value.
fn parts(line: &mut LineWriter, a: PartA, b: PartB) -> Result<(), NoMemory>
    ensures { OnOk result (Adds line.old line.new (parts_fields a b)) }
{
    line.number(a.from)?;
    line.number(a.value)?;
    line.number(a.x)?;
    line.number(b.from)?;
    line.number(b.x)
}

fn note_line(alloc: Global, note: &Note) -> Result<LineWriter, NoMemory>
    ensures { IfOk result (λ line. line ≡ text_of (note_fields note.now.osc note.now.peer note.now.kind)) }
{
    let osc = note.osc;
    match &note.kind {
        NoteKind::Reading {
            value,
            inaccuracy,
            step,
            number,
        } => reading(alloc, osc, *value, *inaccuracy, *step, *number),
        NoteKind::Round { number, sources } => {
            three_numbers(alloc, "round", osc, *number, *sources)
        }
        NoteKind::Adopted { n, lo, hi } => four_numbers(alloc, "adopted", osc, *n, *lo, *hi),
        NoteKind::False(source) => false_source(alloc, osc, *source),
        NoteKind::Step { step, old, new } => four_numbers(alloc, "step", osc, *step, *old, *new),
        NoteKind::Short { answered, required } => {
            three_numbers(alloc, "short", osc, *answered, *required)
        }
        NoteKind::Split { n } => two_numbers(alloc, "split", osc, *n),
        kind => other_note(alloc, osc, note.peer, kind),
    }
}

fn reading(
    alloc: Global,
    osc: u64,
    value: i64,
    inaccuracy: Option<u64>,
    step: u64,
    number: u64,
) -> Result<LineWriter, NoMemory>
    ensures { IfOk result (λ line. Begins line (codes "reading") (decimal osc ∷ signed_decimal value ∷ number_or_dash inaccuracy ∷ decimal step ∷ decimal number ∷ [])) }
{
    let mut line = two_numbers(alloc, "reading", osc, value)?;
    line.number_or_dash(inaccuracy)?;
    line.number(step)?;
    line.number(number)?;
    Ok(line)
}

fn false_source(alloc: Global, osc: u64, source: FalseSource) -> Result<LineWriter, NoMemory>
    ensures { IfOk result (λ line. Begins line (codes "false") (decimal osc ∷ source_field source ∷ [])) }
{
    let mut line = LineWriter::new(alloc, "false")?;
    line.number(osc)?;
    which(&mut line, source)?;
    Ok(line)
}

// Which source is false.
fn which(line: &mut LineWriter, source: FalseSource) -> Result<(), NoMemory>
    ensures { OnOk result (Adds line.old line.new (source_field source ∷ [])) }
{
    match source {
        FalseSource::Peer(n) => line.number(n),
        FalseSource::Tag(n) => line.number(n),
        FalseSource::Own => line.word("own"),
    }
}

// A note without a line of its own.
fn other_note(
    alloc: Global,
    osc: u64,
    peer: Option<u32>,
    kind: &NoteKind,
) -> Result<LineWriter, NoMemory>
    ensures { IfOk result (λ line. Begins line (codes "note") (decimal osc ∷ number_or_dash peer ∷ note_words kind.now)) }
{
    let mut line = LineWriter::new(alloc, "note")?;
    line.number(osc)?;
    match peer {
        None => line.word("-")?,
        Some(peer) => line.number(peer)?,
    }
    words(&mut line, kind)?;
    Ok(line)
}

// A word and a number.
fn named<I: Integer>(line: &mut LineWriter, name: &str, n: I) -> Result<(), NoMemory>
    ensures { OnOk result (Adds line.old line.new (name.now ∷ I.text n ∷ [])) }
{
    line.word(name)?;
    line.number(n)
}

// A word and two numbers.
fn named_two<I: Integer>(line: &mut LineWriter, name: &str, m: I, n: I) -> Result<(), NoMemory>
    ensures { OnOk result (Adds line.old line.new (name.now ∷ I.text m ∷ I.text n ∷ [])) }
{
    named(line, name, m)?;
    line.number(n)
}

// Why an answer is not used.
fn unused(line: &mut LineWriter, why: &str) -> Result<(), NoMemory>
    ensures { OnOk result (Adds line.old line.new (codes "unused" ∷ why.now ∷ [])) }
{
    line.word("unused")?;
    line.word(why)
}

fn unused_status(line: &mut LineWriter, status: u32) -> Result<(), NoMemory>
    ensures { OnOk result (Adds line.old line.new (codes "unused" ∷ codes "status" ∷ decimal status ∷ [])) }
{
    unused(line, "status")?;
    line.number(status)
}

fn refused(line: &mut LineWriter, refused: Refused) -> Result<(), NoMemory>
    ensures { OnOk result (Adds line.old line.new (note_words (NoteKind.Refused refused))) }
{
    line.word("refused")?;
    named(line, refused.field.name(), refused.offset)?;
    line.word(refused.cause.name())
}

fn unexpected(line: &mut LineWriter, ptype: u8, state: State) -> Result<(), NoMemory>
    ensures { OnOk result (Adds line.old line.new (note_words (NoteKind.Unexpected ptype state))) }
{
    named(line, "unexpected", ptype)?;
    line.word(state.name())
}

fn kiss(line: &mut LineWriter, code: u32) -> Result<(), NoMemory>
    ensures { OnOk result (Adds line.old line.new (note_words (NoteKind.Kiss code))) }
{
    line.word("kiss")?;
    line.hex(&code.to_be_bytes())
}

// The words of a note without a line of its own.
fn words(line: &mut LineWriter, kind: &NoteKind) -> Result<(), NoMemory>
    ensures { OnOk result (Adds line.old line.new (note_words kind.now)) }
{
    match kind {
        NoteKind::Refused(which) => refused(line, *which),
        NoteKind::UnknownCall { call_id } => named(line, "unknown_call", *call_id),
        NoteKind::Unexpected { ptype, state } => unexpected(line, *ptype, *state),
        NoteKind::Fragments { have, limit } => named_two(line, "fragments", *have, *limit),
        NoteKind::Rejected { result, reason } => named_two(line, "rejected", *result, *reason),
        NoteKind::Nak { reason } => named(line, "nak", *reason),
        NoteKind::Fault { status } => named(line, "fault", *status),
        NoteKind::Shutdown => line.word("shutdown"),
        NoteKind::CallsSpent => line.word("calls_spent"),
        NoteKind::Stray => line.word("stray"),
        NoteKind::Lost => line.word("lost"),
        NoteKind::Unsent => line.word("unsent"),
        NoteKind::Busy => line.word("busy"),
        NoteKind::Regressed { floor } => named(line, "regressed", *floor),
        NoteKind::Epoch { own, theirs } => named_two(line, "epoch", *own, *theirs),
        NoteKind::UnusedStatus { status } => unused_status(line, *status),
        NoteKind::UnusedKind => unused(line, "kind"),
        NoteKind::UnusedUnspecified => unused(line, "unspecified"),
        NoteKind::UnusedRange => unused(line, "range"),
        NoteKind::NoQuery => line.word("no_query"),
        NoteKind::Mode { found } => named(line, "mode", *found),
        NoteKind::Kiss { code } => kiss(line, *code),
        NoteKind::Stratum { found } => named(line, "stratum", *found),
        NoteKind::Unsynchronised => line.word("unsynchronised"),
        NoteKind::Origin => line.word("origin"),
        NoteKind::ZeroStamp => line.word("zero_stamp"),
        NoteKind::Order => line.word("order"),
        NoteKind::Distance => line.word("distance"),
        NoteKind::RepeatedTag { tag } => named(line, "repeated_tag", *tag),
        NoteKind::UnknownTag { tag } => named(line, "unknown_tag", *tag),
        NoteKind::TagsFull => named(line, "tags_full", MAX_TAGS),
        _ => Ok(()),
    }
}
