ghost use Rattle.std.specs.Prelude.{◌≡◌, ◌≤◌, ◌⊎◌, ℕ, List, [], Some, Ok, Err, Result};
ghost use Rattle.dts_base.specs.Causes.{Rose};
ghost use Rattle.line_reader.specs.Lines.{lines_of};
ghost use Rattle.line_filter.specs.Filters.{IsValid, RefusesAt};
ghost use Rattle.utc_calculator.specs.declared.cause.UtcRefusal.{UtcRefusal};
ghost use Rattle.utc_calculator.specs.Answers.{calculator};
ghost use Rattle.capture_replay.specs.Capture.{capture, unstarted};
ghost use Rattle.event_drill.specs.declared.limits.TheConstants.{MAX_EVENTS};
ghost use Rattle.utc_order.specs.Taking.{RefusesAt as RefusesLine};
ghost use Rattle.utc_order.specs.declared.cause.OrderCause.{OrderCause};
ghost use Rattle.dts_base.specs.declared.wire.Refused.{Refused};
ghost use Rattle.wire_show.specs.Output.{output_of};
ghost use Rattle.dts_program.specs.Kinds.{shown_as};
ghost use Rattle.dts_program.specs.Commands.{HasAnswered, HasPutInOrder, HasReplayedSafely, HasShownFields, HasSummarised};
ghost use Rattle.dts_program.specs.Statuses.{IsOrderStatus, IsOutputStatus, IsReplayStatus, IsShowStatus, IsUtcStatus, capture_status, drill_status, order_status, show_status, utc_status};
ghost use Rattle.dts_program.specs.declared.status.SourceName.{SourceName};
ghost use Rattle.dts_program.specs.declared.status.SinkName.{SinkName};

use crate::status::{SinkName, SourceName, Status};
use capture_replay::CaptureFault;
use command_words::ShowKind;
use dts_base::{Sink, Source};
use event_drill::DrillStop;
use line_filter::Stop;
use slew_clock::Rates;
use std::alloc::Global;
use utc_calculator::{UtcRefusal, calculate};
use utc_order::OrderStatus;
use wire_show::{ShowEnd, Shown};

/// Replays a capture at these rates: reads it from the input, and writes the log of its history to the output, the text
/// of each event as one piece, in bounded memory. It ends at the first line that is refused, or at the end of the input.
pub fn replay<I: Source, O: Sink>(
    alloc: Global,
    rates: Rates,
    input: &mut I,
    output: &mut O,
) -> Status
    // What the output holds afterwards is what it held before, and then the log of the lines: of all of them, or of those before the first refused one.
    ensures log { (octets : List ℕ) → I.left input.old ≡ Some octets →
        HasAnswered capture (unstarted rates) capture_status octets (I.left input.new) result (O.written output.old) (O.written output.new) }
    ensures read_to_end { result ≡ Status.Done → (octets : List ℕ) → I.left input.old ≡ Some octets → I.left input.new ≡ Some [] }

    // What was written is the log of a safe history, or the beginning of one.
    ensures safe { (octets : List ℕ) → I.left input.old ≡ Some octets → HasReplayedSafely rates result (O.written output.old) (O.written output.new) }

    // A valid capture is replayed as a whole, where nothing failed and memory was not missing.
    ensures complete { (octets text : List ℕ) → I.left input.old ≡ Some octets → IsValid capture (unstarted rates) octets text →
        (Rose (I.faults input.old) (I.faults input.new) → ⊥) → (Rose (O.faults output.old) (O.faults output.new) → ⊥) → (result ≡ Status.Done) ⊎ (result ≡ Status.NoMemory) }

    // It answers a fault exactly where the faults of that object rose.
    ensures read_fault { (which : SourceName) → result ≡ Status.ReadFault which → (which ≡ SourceName.Input) × Rose (I.faults input.old) (I.faults input.new) }
    ensures write_fault { (which : SinkName) → result ≡ Status.WriteFault which → (which ≡ SinkName.Output) × Rose (O.faults output.old) (O.faults output.new) }
    ensures read_kept { ((which : SourceName) → result ≡ Status.ReadFault which → ⊥) → I.faults input.new ≡ I.faults input.old }
    ensures write_kept { ((which : SinkName) → result ≡ Status.WriteFault which → ⊥) → O.faults output.new ≡ O.faults output.old }
    ensures statuses { IsReplayStatus result }
{
    capture_status(capture_replay::replay(alloc, rates, input, output))
}

// The status of a replay that ended or stopped so.
fn capture_status(end: Result<(), Stop<CaptureFault>>) -> Status
    ensures { result ≡ capture_status end }
{
    match end {
        Ok(()) => Status::Done,
        Err(Stop::Refused { line, cause }) => Status::CaptureRefused {
            line,
            column: cause.column,
            cause: cause.cause,
        },
        Err(Stop::Read) => Status::ReadFault {
            which: SourceName::Input,
        },
        Err(Stop::Write) => Status::WriteFault {
            which: SinkName::Output,
        },
        Err(Stop::NoMemory) => Status::NoMemory,
    }
}

/// Answers lines that ask for operations on timestamps: reads them from the input, and writes an answer line for each
/// to the output, as one piece, in bounded memory. It ends at the first line that is refused, or at the end of the
/// input.
pub fn utc<I: Source, O: Sink>(alloc: Global, input: &mut I, output: &mut O) -> Status
    // What the output holds afterwards is what it held before, and then the answers to the lines: to all of them, or to those before the first refused one.
    ensures answers { (octets : List ℕ) → I.left input.old ≡ Some octets →
        HasAnswered calculator tt utc_status octets (I.left input.new) result (O.written output.old) (O.written output.new) }
    ensures read_to_end { result ≡ Status.Done → (octets : List ℕ) → I.left input.old ≡ Some octets → I.left input.new ≡ Some [] }

    // A refusal has its cause: where nothing failed and no line is refused, the answer is Done, or memory was missing. Valid input is such.
    ensures complete { (octets text : List ℕ) → I.left input.old ≡ Some octets → IsValid calculator tt octets text →
        (Rose (I.faults input.old) (I.faults input.new) → ⊥) → (Rose (O.faults output.old) (O.faults output.new) → ⊥) → (result ≡ Status.Done) ⊎ (result ≡ Status.NoMemory) }
    ensures unrefused { (octets : List ℕ) → I.left input.old ≡ Some octets →
        ((n : ℕ) (cause : UtcRefusal) (text : List ℕ) → RefusesAt calculator tt (lines_of octets) n cause text → ⊥) →
        (Rose (I.faults input.old) (I.faults input.new) → ⊥) → (Rose (O.faults output.old) (O.faults output.new) → ⊥) → (result ≡ Status.Done) ⊎ (result ≡ Status.NoMemory) }

    // It answers a fault exactly where the faults of that object rose.
    ensures read_fault { (which : SourceName) → result ≡ Status.ReadFault which → (which ≡ SourceName.Input) × Rose (I.faults input.old) (I.faults input.new) }
    ensures write_fault { (which : SinkName) → result ≡ Status.WriteFault which → (which ≡ SinkName.Output) × Rose (O.faults output.old) (O.faults output.new) }
    ensures read_kept { ((which : SourceName) → result ≡ Status.ReadFault which → ⊥) → I.faults input.new ≡ I.faults input.old }
    ensures write_kept { ((which : SinkName) → result ≡ Status.WriteFault which → ⊥) → O.faults output.new ≡ O.faults output.old }
    ensures statuses { IsUtcStatus result }
{
    utc_status(calculate(alloc, input, output))
}

// The status of a calculation that ended or stopped so.
fn utc_status(end: Result<(), Stop<UtcRefusal>>) -> Status
    ensures { result ≡ utc_status end }
{
    match end {
        Ok(()) => Status::Done,
        Err(
            Stop::Refused {
                line,
                cause: refusal,
            },
        ) => Status::UtcRefused {
            line,
            column: refusal.column,
            cause: refusal.cause,
        },
        Err(Stop::Read) => Status::ReadFault {
            which: SourceName::Input,
        },
        Err(Stop::Write) => Status::WriteFault {
            which: SinkName::Output,
        },
        Err(Stop::NoMemory) => Status::NoMemory,
    }
}

/// Makes a capture of so many events from a seed, replays it, and writes one line that counts what its log says, in
/// bounded memory.
pub fn drill<O: Sink>(alloc: Global, seed: u32, events: u32, output: &mut O) -> Status
    requires { events ≤ MAX_EVENTS }

    // What the output holds afterwards is what it held before, and then the summary: the whole of it, a beginning where the output failed, or nothing where memory was missing.
    ensures summary { HasSummarised seed events result (O.written output.old) (O.written output.new) }

    // It answers a fault exactly where the faults of the output rose.
    ensures write_fault { (which : SinkName) → result ≡ Status.WriteFault which → (which ≡ SinkName.Output) × Rose (O.faults output.old) (O.faults output.new) }
    ensures write_kept { ((which : SinkName) → result ≡ Status.WriteFault which → ⊥) → O.faults output.new ≡ O.faults output.old }
    ensures statuses { IsOutputStatus result }
{
    drill_status(event_drill::drill(alloc, seed, events, output))
}

// The status of a drill that ended or stopped so.
fn drill_status(end: Result<(), DrillStop>) -> Status
    ensures { result ≡ drill_status end }
{
    match end {
        Ok(()) => Status::Done,
        Err(DrillStop::Write) => Status::WriteFault {
            which: SinkName::Output,
        },
        Err(DrillStop::NoMemory) => Status::NoMemory,
    }
}

/// Orders the lines of several hosts: reads them from the input, and writes them to the output in their order, each with
/// its mark. Nothing is written before all lines are read and none is refused.
pub fn order<I: Source, O: Sink>(alloc: Global, input: &mut I, output: &mut O) -> Status
    // What the output holds afterwards is what it held before, and then the lines in their order, or the beginning of that where the output failed.
    ensures ordered { (octets : List ℕ) → I.left input.old ≡ Some octets →
        HasPutInOrder octets (I.left input.new) result (O.written output.old) (O.written output.new) }
    ensures read_to_end { result ≡ Status.Done → (octets : List ℕ) → I.left input.old ≡ Some octets → I.left input.new ≡ Some [] }

    // Lines of which none is refused are written, where nothing failed and memory was not missing.
    ensures complete { (octets : List ℕ) → I.left input.old ≡ Some octets →
        ((n : ℕ) (cause : OrderCause) → RefusesLine (lines_of octets) n cause → ⊥) →
        (Rose (I.faults input.old) (I.faults input.new) → ⊥) → (Rose (O.faults output.old) (O.faults output.new) → ⊥) → (result ≡ Status.Done) ⊎ (result ≡ Status.NoMemory) }

    // It answers a fault exactly where the faults of that object rose.
    ensures read_fault { (which : SourceName) → result ≡ Status.ReadFault which → (which ≡ SourceName.Input) × Rose (I.faults input.old) (I.faults input.new) }
    ensures write_fault { (which : SinkName) → result ≡ Status.WriteFault which → (which ≡ SinkName.Output) × Rose (O.faults output.old) (O.faults output.new) }
    ensures read_kept { ((which : SourceName) → result ≡ Status.ReadFault which → ⊥) → I.faults input.new ≡ I.faults input.old }
    ensures write_kept { ((which : SinkName) → result ≡ Status.WriteFault which → ⊥) → O.faults output.new ≡ O.faults output.old }
    ensures statuses { IsOrderStatus result }
{
    order_status(utc_order::order(alloc, input, output))
}

// The status of an ordering that ended so.
fn order_status(end: OrderStatus) -> Status
    ensures { result ≡ order_status end }
{
    match end {
        OrderStatus::Done => Status::Done,
        OrderStatus::Refused { line, cause } => Status::OrderRefused { line, cause },
        OrderStatus::ReadFault => Status::ReadFault {
            which: SourceName::Input,
        },
        OrderStatus::WriteFault => Status::WriteFault {
            which: SinkName::Output,
        },
        OrderStatus::NoMemory => Status::NoMemory,
    }
}

/// Shows octets as this: reads one line of hex digits from the input, and writes each field of the octets to the output, as a
/// line of its offset, its name and its octets. Nothing is written before all is read and none is refused.
pub fn show<I: Source, O: Sink>(
    alloc: Global,
    kind: ShowKind,
    input: &mut I,
    output: &mut O,
) -> Status
    // What the output holds afterwards is what it held before, and then the lines of the fields, or the beginning of that where the output failed.
    ensures shown { (octets : List ℕ) → I.left input.old ≡ Some octets →
        HasShownFields (shown_as kind) octets (I.left input.new) result (O.written output.old) (O.written output.new) }
    ensures read_to_end { result ≡ Status.Done → (octets : List ℕ) → I.left input.old ≡ Some octets → I.left input.new ≡ Some [] }

    // What is refused is told, and what is not refused is shown, where nothing failed and memory was not missing.
    ensures refused { (octets : List ℕ) (refused : Refused) → I.left input.old ≡ Some octets → output_of (shown_as kind) octets ≡ Err refused →
        (Rose (I.faults input.old) (I.faults input.new) → ⊥) → (result ≡ Status.PduRefused refused.field refused.offset refused.cause) ⊎ (result ≡ Status.NoMemory) }
    ensures complete { (octets text : List ℕ) → I.left input.old ≡ Some octets → output_of (shown_as kind) octets ≡ Ok text →
        (Rose (I.faults input.old) (I.faults input.new) → ⊥) → (Rose (O.faults output.old) (O.faults output.new) → ⊥) → (result ≡ Status.Done) ⊎ (result ≡ Status.NoMemory) }

    // It answers a fault exactly where the faults of that object rose.
    ensures read_fault { (which : SourceName) → result ≡ Status.ReadFault which → (which ≡ SourceName.Input) × Rose (I.faults input.old) (I.faults input.new) }
    ensures write_fault { (which : SinkName) → result ≡ Status.WriteFault which → (which ≡ SinkName.Output) × Rose (O.faults output.old) (O.faults output.new) }
    ensures read_kept { ((which : SourceName) → result ≡ Status.ReadFault which → ⊥) → I.faults input.new ≡ I.faults input.old }
    ensures write_kept { ((which : SinkName) → result ≡ Status.WriteFault which → ⊥) → O.faults output.new ≡ O.faults output.old }
    ensures statuses { IsShowStatus result }
{
    show_status(wire_show::show(alloc, shown_as(kind), input, output))
}

// What a kind is shown as.
fn shown_as(kind: ShowKind) -> Shown
    ensures { result ≡ shown_as kind }
{
    match kind {
        ShowKind::Pdu => Shown::Pdu,
        ShowKind::Ntp => Shown::Ntp,
        ShowKind::Utc => Shown::Utc,
    }
}

// The status of a showing that ended so.
fn show_status(end: ShowEnd) -> Status
    ensures { result ≡ show_status end }
{
    match end {
        ShowEnd::Done => Status::Done,
        ShowEnd::Refused(refused) => Status::PduRefused {
            field: refused.field,
            offset: refused.offset,
            cause: refused.cause,
        },
        ShowEnd::ReadFault => Status::ReadFault {
            which: SourceName::Input,
        },
        ShowEnd::WriteFault => Status::WriteFault {
            which: SinkName::Output,
        },
        ShowEnd::NoMemory => Status::NoMemory,
    }
}
