ghost use Rattle.std.specs.Prelude.{◌≡◌, ◌⊎◌, ℕ, List, [], map, vec_len, Some, Ok, Err, false};
ghost use Rattle.std.specs.String.{string_bytes};
ghost use Rattle.dts_base.specs.Causes.{Rose};
ghost use Rattle.dts_base.specs.Streams.{Wrote};
ghost use Rattle.line_reader.specs.Lines.{lines_of};
ghost use Rattle.line_filter.specs.Filters.{IsValid, RefusesAt};
ghost use Rattle.utc_calculator.specs.declared.cause.UtcRefusal.{UtcRefusal};
ghost use Rattle.utc_calculator.specs.Answers.{calculator};
ghost use Rattle.slew_clock.specs.UsualRates.{usual_rates};
ghost use Rattle.capture_replay.specs.Capture.{capture, unstarted};
ghost use Rattle.utc_order.specs.Taking.{RefusesAt as RefusesLine};
ghost use Rattle.utc_order.specs.declared.cause.OrderCause.{OrderCause};
ghost use Rattle.dts_program.specs.Commands.{HasAnswered, HasPutInOrder, HasReplayedSafely, HasShownFields, HasSummarised};
ghost use Rattle.dts_program.specs.Statuses.{IsOrderStatus, IsOutputStatus, IsReplayStatus, IsShowStatus, IsUtcStatus, capture_status, utc_status};
ghost use Rattle.command_words.specs.Words.{asks, meaning_of, means};
ghost use Rattle.dts_base.specs.declared.wire.Refused.{Refused};
ghost use Rattle.command_words.specs.declared.command_line.ShowKind.{ShowKind};
ghost use Rattle.wire_show.specs.Output.{output_of};
ghost use Rattle.dts_program.specs.Kinds.{shown_as};
ghost use Rattle.dts_program.specs.Built.{IsRefused, ReadsInput};
ghost use Rattle.dts_program.specs.declared.status.SourceName.{SourceName};
ghost use Rattle.dts_program.specs.declared.status.SinkName.{SinkName};

use crate::command::{drill, order, replay, show, utc};
use crate::status::{SinkName, SourceName, Status};
use clap::Error as ClapError;
use command_words::{CommandLine, NoCommand, read_words};
use dts_base::{Failed, Link, Oscillator, Sink, Source, Words, write_all};
use slew_clock::Rates;
use std::alloc::{AllocError, Global};
use std::sync::Wait;
use std::thread::Threads;

/// What one serve half works over.
#[derive(Drop)]
pub struct ServeSide<C, L, K> {
    /// Its link.
    pub link: L,
    /// Its oscillator.
    pub osc: K,
    /// Its capture.
    pub capture: C,
    /// Its log.
    pub log: C,
}

/// All that the program reaches outside itself.
#[derive(Drop)]
pub struct Outside<I, F, O, C, L, K, W> {
    /// Standard input.
    pub input: I,
    /// The roster file.
    pub roster_file: F,
    /// Standard output.
    pub output: O,
    /// The capture of the sync half.
    pub sync_capture: C,
    /// The link of the sync half.
    pub sync_link: L,
    /// The oscillator of the sync half.
    pub sync_osc: K,
    /// The random words of the sync half.
    pub random: W,
    /// The serve sides, four of them.
    pub serve: Vec<ServeSide<C, L, K>>,
}

/// Runs a command line, the words after the program's name, over the outside that is handed in: `replay`, at the usual
/// rates, `utc`, `order`, `show` or `drill`. The help and the version are written to the output. Each command has clauses of its own, whose
/// premise is that the words mean it.
pub fn run<
    R: Threads + Wait + Sync,
    I: Source,
    F: Source,
    O: Sink + Send,
    C: Sink + Send,
    L: Link + Send,
    K: Oscillator + Send,
    W: Words + Send,
>(_rt: &R, alloc: Global, words: &[String], out: &mut Outside<I, F, O, C, L, K, W>) -> Status
    requires four { vec_len out.old.serve ≡ 4 }

    // Usage comes exactly where the words mean nothing, or a command that is not built, and then nothing is touched. Want
    // of memory may come in its place. Whatever the words are, nothing but the input and the output is touched.
    ensures usage { result ≡ Status.Usage → IsRefused (meaning_of (map string_bytes words.now)) }
    ensures refused { IsRefused (meaning_of (map string_bytes words.now)) → (result ≡ Status.Usage) ⊎ (result ≡ Status.NoMemory) }
    ensures untouched { IsRefused (meaning_of (map string_bytes words.now)) → out.new ≡ out.old }
    ensures others { out.new ≡ record out.old { input = out.new.input; output = out.new.output } }

    // Words that ask for the help or for the version have a text written.
    ensures shown { meaning_of (map string_bytes words.now) ≡ asks → IsOutputStatus result × ((text : List ℕ) × Wrote (O.written out.old.output) (O.written out.new.output) text) }

    // What a command has done that reads the input was read to its end. Other words leave the input as it is.
    ensures unread { (ReadsInput (meaning_of (map string_bytes words.now)) → ⊥) → out.new.input ≡ out.old.input }
    ensures read_to_end { ReadsInput (meaning_of (map string_bytes words.now)) → result ≡ Status.Done → (octets : List ℕ) → I.left out.old.input ≡ Some octets → I.left out.new.input ≡ Some [] }

    // The log of `replay` is exactly what the rules define, of all lines or of those before the first refused one, and nothing else.
    ensures log { meaning_of (map string_bytes words.now) ≡ means (CommandLine.Replay false) → (octets : List ℕ) → I.left out.old.input ≡ Some octets →
        HasAnswered capture (unstarted usual_rates) capture_status octets (I.left out.new.input) result (O.written out.old.output) (O.written out.new.output) }

    // In every honest world each reading that was written contains true time, and readings never go back but across a
    // step that the log names: the log is that of a safe history.
    ensures safe { meaning_of (map string_bytes words.now) ≡ means (CommandLine.Replay false) → (octets : List ℕ) → I.left out.old.input ≡ Some octets →
        HasReplayedSafely usual_rates result (O.written out.old.output) (O.written out.new.output) }

    // A valid capture is never refused.
    ensures complete { meaning_of (map string_bytes words.now) ≡ means (CommandLine.Replay false) → (octets text : List ℕ) → I.left out.old.input ≡ Some octets → IsValid capture (unstarted usual_rates) octets text →
        (Rose (I.faults out.old.input) (I.faults out.new.input) → ⊥) → (Rose (O.faults out.old.output) (O.faults out.new.output) → ⊥) → (result ≡ Status.Done) ⊎ (result ≡ Status.NoMemory) }

    // The answers of `utc` are those that the routines define, to all lines or to those before the first refused one, and nothing else.
    ensures answers { meaning_of (map string_bytes words.now) ≡ means CommandLine.Utc → (octets : List ℕ) → I.left out.old.input ≡ Some octets →
        HasAnswered calculator tt utc_status octets (I.left out.new.input) result (O.written out.old.output) (O.written out.new.output) }

    // No lines of which `utc` refuses none are refused. Valid lines are such.
    ensures utc_complete { meaning_of (map string_bytes words.now) ≡ means CommandLine.Utc → (octets text : List ℕ) → I.left out.old.input ≡ Some octets → IsValid calculator tt octets text →
        (Rose (I.faults out.old.input) (I.faults out.new.input) → ⊥) → (Rose (O.faults out.old.output) (O.faults out.new.output) → ⊥) → (result ≡ Status.Done) ⊎ (result ≡ Status.NoMemory) }
    ensures utc_unrefused { meaning_of (map string_bytes words.now) ≡ means CommandLine.Utc → (octets : List ℕ) → I.left out.old.input ≡ Some octets →
        ((n : ℕ) (cause : UtcRefusal) (text : List ℕ) → RefusesAt calculator tt (lines_of octets) n cause text → ⊥) →
        (Rose (I.faults out.old.input) (I.faults out.new.input) → ⊥) → (Rose (O.faults out.old.output) (O.faults out.new.output) → ⊥) → (result ≡ Status.Done) ⊎ (result ≡ Status.NoMemory) }

    // `order` writes the lines of several hosts in their order, each with its mark, and nothing where a line is refused. Lines of which none is refused are written.
    ensures ordered { meaning_of (map string_bytes words.now) ≡ means CommandLine.Order → (octets : List ℕ) → I.left out.old.input ≡ Some octets →
        HasPutInOrder octets (I.left out.new.input) result (O.written out.old.output) (O.written out.new.output) }
    ensures order_complete { meaning_of (map string_bytes words.now) ≡ means CommandLine.Order → (octets : List ℕ) → I.left out.old.input ≡ Some octets →
        ((n : ℕ) (cause : OrderCause) → RefusesLine (lines_of octets) n cause → ⊥) →
        (Rose (I.faults out.old.input) (I.faults out.new.input) → ⊥) → (Rose (O.faults out.old.output) (O.faults out.new.output) → ⊥) → (result ≡ Status.Done) ⊎ (result ≡ Status.NoMemory) }

    // `show` writes the lines of the fields of the octets, and nothing where they are refused. It refuses exactly those that are wrong at a field.
    ensures fields { (kind : ShowKind) → meaning_of (map string_bytes words.now) ≡ means (CommandLine.Show kind) → (octets : List ℕ) → I.left out.old.input ≡ Some octets →
        HasShownFields (shown_as kind) octets (I.left out.new.input) result (O.written out.old.output) (O.written out.new.output) }
    ensures show_refused { (kind : ShowKind) → meaning_of (map string_bytes words.now) ≡ means (CommandLine.Show kind) → (octets : List ℕ) (refused : Refused) → I.left out.old.input ≡ Some octets →
        output_of (shown_as kind) octets ≡ Err refused →
        (Rose (I.faults out.old.input) (I.faults out.new.input) → ⊥) → (result ≡ Status.PduRefused refused.field refused.offset refused.cause) ⊎ (result ≡ Status.NoMemory) }
    ensures show_complete { (kind : ShowKind) → meaning_of (map string_bytes words.now) ≡ means (CommandLine.Show kind) → (octets text : List ℕ) → I.left out.old.input ≡ Some octets →
        output_of (shown_as kind) octets ≡ Ok text →
        (Rose (I.faults out.old.input) (I.faults out.new.input) → ⊥) → (Rose (O.faults out.old.output) (O.faults out.new.output) → ⊥) → (result ≡ Status.Done) ⊎ (result ≡ Status.NoMemory) }

    // `drill` writes the summary of the log of its made capture, and nothing else.
    ensures drill { (seed events : ℕ) → meaning_of (map string_bytes words.now) ≡ means (CommandLine.Drill seed events) →
        HasSummarised seed events result (O.written out.old.output) (O.written out.new.output) }

    // Each command answers its own statuses.
    ensures replay_statuses { meaning_of (map string_bytes words.now) ≡ means (CommandLine.Replay false) → IsReplayStatus result }
    ensures utc_statuses { meaning_of (map string_bytes words.now) ≡ means CommandLine.Utc → IsUtcStatus result }
    ensures order_statuses { meaning_of (map string_bytes words.now) ≡ means CommandLine.Order → IsOrderStatus result }
    ensures show_statuses { (kind : ShowKind) → meaning_of (map string_bytes words.now) ≡ means (CommandLine.Show kind) → IsShowStatus result }
    ensures drill_statuses { (seed events : ℕ) → meaning_of (map string_bytes words.now) ≡ means (CommandLine.Drill seed events) → IsOutputStatus result }

    // A fault is answered exactly where the faults of that object rose: where none is answered they stayed.
    ensures read_fault { (which : SourceName) → result ≡ Status.ReadFault which → (which ≡ SourceName.Input) × Rose (I.faults out.old.input) (I.faults out.new.input) }
    ensures write_fault { (which : SinkName) → result ≡ Status.WriteFault which → (which ≡ SinkName.Output) × Rose (O.faults out.old.output) (O.faults out.new.output) }
    ensures read_kept { ((which : SourceName) → result ≡ Status.ReadFault which → ⊥) → I.faults out.new.input ≡ I.faults out.old.input }
    ensures write_kept { ((which : SinkName) → result ≡ Status.WriteFault which → ⊥) → O.faults out.new.output ≡ O.faults out.old.output }
{
    match read_words(alloc, words) {
        Ok(CommandLine::Replay { roster: false }) => {
            replay(alloc, Rates::usual(), &mut out.input, &mut out.output)
        }
        Ok(CommandLine::Utc) => utc(alloc, &mut out.input, &mut out.output),
        Ok(CommandLine::Order) => order(alloc, &mut out.input, &mut out.output),
        Ok(CommandLine::Show(kind)) => show(alloc, kind, &mut out.input, &mut out.output),
        Ok(CommandLine::Drill { seed, events }) => drill(alloc, seed, events, &mut out.output),
        Err(NoCommand::Shown(text)) => show_text(alloc, &text, &mut out.output),
        Err(NoCommand::NoMemory) => Status::NoMemory,
        Ok(_unbuilt) => Status::Usage,
        Err(_wrong) => Status::Usage,
    }
}

// The text of the help or the version, which ends with a line feed.
fn whole_lines(alloc: Global, shown: &ClapError) -> Result<String, AllocError> {
    let mut text = format!(in alloc; "{shown}")?;
    if !text.ends_with('\n') {
        text.push('\n')?;
    }
    Ok(text)
}

// Writes the help or the version.
#[tactic(auto, using(crate::proofs::Ending::nothing_wrote, crate::proofs::Ending::part_wrote))]
fn show_text<O: Sink>(alloc: Global, shown: &ClapError, output: &mut O) -> Status
    ensures statuses { IsOutputStatus result }
    ensures wrote { (text : List ℕ) × Wrote (O.written output.old) (O.written output.new) text }
    ensures write_fault { (which : SinkName) → result ≡ Status.WriteFault which → (which ≡ SinkName.Output) × Rose (O.faults output.old) (O.faults output.new) }
    ensures write_kept { ((which : SinkName) → result ≡ Status.WriteFault which → ⊥) → O.faults output.new ≡ O.faults output.old }
{
    let Ok(text) = whole_lines(alloc, shown) else {
        return Status::NoMemory;
    };
    match write_all(output, text.as_bytes()) {
        Ok(()) => Status::Done,
        Err(Failed) => Status::WriteFault {
            which: SinkName::Output,
        },
    }
}
