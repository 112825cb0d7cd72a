ghost use Rattle.std.specs.Prelude.{◌≡◌, ◌⊎◌, ℕ, ◌+◌, ◌<◌, ◌≤◌, List, [], Option, Some, Ok, Err, IfOk, IfErr, OnOk, OnErr, MatchResult, length};
ghost use Rattle.dts_base.specs.Causes.{Rose};
ghost use Rattle.dts_base.specs.Told.{Told};
ghost use Rattle.dts_base.specs.Streams.{Wrote, AppendsPart};
ghost use Rattle.line_reader.specs.Reader.{Advances};
ghost use Rattle.line_filter.specs.Filters.{Rules, HasFiltered, IsValid};
ghost use Rattle.line_filter.specs.Laws.{IsExclusive};
ghost use Rattle.line_filter.specs.Progress.{StopCause, IsUnfit, TakesNext};
ghost use Rattle.line_filter.specs.Steps.{Stands, TakesNumbered, StopsAt};

use crate::Stop;
use dts_base::{Sink, Source, write_all};
use line_reader::{LineReader, MAX_LINE, MAX_LINES};
use std::alloc::Global;
use std::fmt::Display;
use thiserror::Error;

/// Why a filter does not take a line.
#[derive(Clone, Copy, Debug, PartialEq, Eq, Error)]
#[error_bound(C: Display)]
pub enum Unfit<C> {
    /// It is refused.
    #[error("{0}")]
    Refused(C),
    /// No memory was found.
    #[error("out of memory")]
    NoMemory,
}

/// What takes lines one after the other and gives a text for each. Its rules speak of states; a value stands for
/// those that the lines taken so far have led to.
pub trait LineFilter {
    /// Why a line is refused.
    type Cause;

    /// What the lines taken so far have led to.
    ghost State: { Type 0 };

    /// What is taken and refused, and what it gives.
    ghost rules: { Rules State Self.Cause };

    /// The states that a value stands for, which took so many lines.
    ghost stands: { Self → ℕ → State → Type 0 };

    /// Takes a line behind so many others, and puts the text that it gives into `text`, which comes empty.
    fn take(
        &mut self,
        alloc: Global,
        before: u64,
        line: &[u8],
        text: &mut Vec<u8>,
    ) -> Result<(), Unfit<Self::Cause>>
        requires stands { (state : State) × stands self.old before state }
        requires few { before < MAX_LINES }
        requires short { length line.now ≤ MAX_LINE }
        requires empty { text.old.items ≡ [] }
        ensures taken { OnOk result ((state : State) → stands self.old before state → TakesNext rules state line.now (stands self.new (before + 1)) text.new.items) }
        ensures unfit { IfErr result (λ fault. (state : State) → stands self.old before state → IsUnfit rules state line.now fault) };

    /// The input has ended behind so many lines.
    fn end(&self, before: u64) -> Result<(), Self::Cause>
        requires stands { (state : State) × stands self.now before state }
        ensures end { (state : State) → stands self.now before state → MatchResult result (λ _. (cause : Self.Cause) → rules.RefusesEnd state cause → ⊥) (rules.RefusesEnd state) };

    /// The cause of a line behind as many as an input may have.
    fn too_many() -> Self::Cause
        ensures cause { result ≡ rules.too_many };

    /// The cause of a line of more octets than a line may have.
    fn too_long() -> Self::Cause
        ensures cause { result ≡ rules.too_long };
}

// Goes on to the next line.
fn next_line<C, I: Source>(reader: &mut LineReader, input: &mut I) -> Result<bool, Stop<C>>
    ensures next { Told (I.left input.old) (I.left input.new) (Advances reader.old reader.new result) }
    ensures fault { IfErr result (λ s. s ≡ Stop.Read) }
    ensures cause { StopCause Stop.Read (I.faults input.old) (I.faults input.new) result }
{
    match reader.advance(input) {
        Ok(there) => Ok(there),
        Err(_) => Err(Stop::Read),
    }
}

// Writes the text as one piece, and nothing where it is empty.
fn write_text<C, O: Sink>(output: &mut O, text: &[u8]) -> Result<(), Stop<C>>
    ensures whole { OnOk result (Wrote (O.written output.old) (O.written output.new) text.now) }
    ensures part { IfErr result (λ s. (s ≡ Stop.Write) × Told (O.written output.old) (O.written output.new) (AppendsPart text.now)) }
    ensures cause { StopCause Stop.Write (O.faults output.old) (O.faults output.new) result }
{
    match write_all(output, text) {
        Ok(()) => Ok(()),
        Err(_) => Err(Stop::Write),
    }
}

// The refusal of the line behind so many others.
fn refused<C>(before: u64, cause: C) -> Stop<C>
    requires { before ≤ MAX_LINES }
    ensures { result ≡ Stop.Refused (before + 1) cause }
{
    Stop::Refused {
        line: before + 1,
        cause,
    }
}

// Takes the line behind so many others, and leaves the text that it gives in `text`.
fn take_line<F: LineFilter>(
    alloc: Global,
    filter: &mut F,
    before: u64,
    line: &[u8],
    text: &mut Vec<u8>,
) -> Result<(), Stop<F::Cause>>
    requires stands { (state : F.State) × F.stands filter.old before state }
    requires few { before ≤ MAX_LINES }
    ensures few { OnOk result (before < MAX_LINES) }
    ensures taken { OnOk result ((state : F.State) → F.stands filter.old before state → TakesNumbered F.rules before state line.now (F.stands filter.new (before + 1)) text.new.items) }
    ensures stops { IfErr result (λ stop. (state : F.State) → F.stands filter.old before state → StopsAt F.rules before state line.now stop) }
    ensures quiet { IfErr result (λ stop. (stop ≡ Stop.Read → ⊥) × (stop ≡ Stop.Write → ⊥)) }
{
    if before >= MAX_LINES {
        return Err(refused(before, F::too_many()));
    }
    if line.len() > MAX_LINE {
        return Err(refused(before, F::too_long()));
    }
    text.clear();
    match filter.take(alloc, before, line, text) {
        Ok(()) => Ok(()),
        Err(Unfit::Refused(cause)) => Err(refused(before, cause)),
        Err(Unfit::NoMemory) => Err(Stop::NoMemory),
    }
}

/// Takes the lines of the input one after the other, and writes the text of each as one piece, none where it is empty,
/// until the input ends or a line is refused. The memory that it takes is bounded: a reader and one text.
pub fn filter_lines<F: LineFilter, I: Source, O: Sink>(
    alloc: Global,
    filter: &mut F,
    input: &mut I,
    output: &mut O,
) -> Result<(), Stop<F::Cause>>
    requires { (state : F.State) × F.stands filter.old 0 state }

    // From each state that the filter stands for, the lines of the octets are taken by the rules, and their text is written.
    ensures filtered { (octets : List ℕ) (from : F.State) → I.left input.old ≡ Some octets → F.stands filter.old 0 from →
        HasFiltered F.rules from octets (I.left input.new) result (O.written output.old) (O.written output.new) }

    // It stops for a fault exactly where the faults of that object rose.
    ensures read_cause { StopCause Stop.Read (I.faults input.old) (I.faults input.new) result }
    ensures write_cause { StopCause Stop.Write (O.faults output.old) (O.faults output.new) result }

    // By exclusive rules valid input is taken as a whole, where nothing failed and memory was not missing.
    ensures complete { IsExclusive F.rules → (octets text : List ℕ) (from : F.State) → I.left input.old ≡ Some octets → F.stands filter.old 0 from → IsValid F.rules from octets text →
        (Rose (I.faults input.old) (I.faults input.new) → ⊥) → (Rose (O.faults output.old) (O.faults output.new) → ⊥) → (result ≡ Ok tt) ⊎ (result ≡ Err Stop.NoMemory) }
{
    match LineReader::new(alloc) {
        Ok(mut reader) => filter_behind(alloc, filter, 0, &mut reader, input, output),
        Err(_) => Err(Stop::NoMemory),
    }
}

// Takes the lines behind so many others, which the reader took, and writes their texts.
fn filter_behind<F: LineFilter, I: Source, O: Sink>(
    alloc: Global,
    filter: &mut F,
    mut before: u64,
    reader: &mut LineReader,
    input: &mut I,
    output: &mut O,
) -> Result<(), Stop<F::Cause>>
    requires few { before ≤ MAX_LINES }
    requires stands { (state : F.State) × F.stands filter.old before state }
    ensures filtered { (octets : List ℕ) (from : F.State) (told : Option (List ℕ)) → Stands F.rules (F.stands filter.old before) from octets before reader.old (I.left input.old) told (O.written output.old) →
        HasFiltered F.rules from octets (I.left input.new) result told (O.written output.new) }
    ensures read_cause { StopCause Stop.Read (I.faults input.old) (I.faults input.new) result }
    ensures write_cause { StopCause Stop.Write (O.faults output.old) (O.faults output.new) result }
{
    let mut text = Vec::new(alloc);
    while next_line(reader, input)? {
        take_line(alloc, filter, before, reader.line(), &mut text)?;
        write_text(output, text.as_slice())?;
        before += 1;
    }
    match filter.end(before) {
        Ok(()) => Ok(()),
        Err(cause) => Err(refused(before, cause)),
    }
}
