use dts_base::{Field, WireCause};
use dts_capture::LineCause;
use thiserror::Error;
use utc_calculator::UtcCause;
use utc_order::OrderCause;

/// The sources of the program.
#[derive(Clone, Copy, Debug, Error)]
pub enum SourceName {
    /// Standard input.
    #[error("the input")]
    Input,
    /// The roster file.
    #[error("the roster file")]
    RosterFile,
}

/// The sinks of the program.
#[derive(Clone, Copy, Debug, Error)]
pub enum SinkName {
    /// Standard output.
    #[error("the output")]
    Output,
    /// The capture of the sync half.
    #[error("the sync capture")]
    SyncCapture,
    /// The capture of a serve half.
    #[error("the serve capture {worker}")]
    ServeCapture {
        /// The number of the half, from 0.
        worker: u32,
    },
    /// The log of a serve half.
    #[error("the serve log {worker}")]
    ServeLog {
        /// The number of the half, from 0.
        worker: u32,
    },
}

/// What a command answers.
#[derive(Debug, Drop, Error)]
pub enum Status {
    /// The input was read to its end.
    #[error("done")]
    Done,
    /// The words are no command line, or mean a command that is not built.
    #[error("no command; try dts --help")]
    Usage,
    /// A line of the capture is refused; the log of the earlier lines stands.
    #[error("line {line}, column {column}: {cause}")]
    CaptureRefused {
        /// Its number, from 1.
        line: u64,
        /// The column of the first wrong field, from 1.
        column: u32,
        /// What is wrong with it.
        cause: LineCause,
    },
    /// A source failed.
    #[error("{which} can't be read")]
    ReadFault {
        /// Which one.
        which: SourceName,
    },
    /// A sink failed; what was written is the beginning of the output.
    #[error("{which} can't be written")]
    WriteFault {
        /// Which one.
        which: SinkName,
    },
    /// No memory was found; what was written is the beginning of the output.
    #[error("out of memory")]
    NoMemory,
    /// A line of the calculator is refused; the answers to the earlier lines stand.
    #[error("line {line}, column {column}: {cause}")]
    UtcRefused {
        /// Its number, from 1.
        line: u64,
        /// The column of what is wrong, from 1.
        column: u32,
        /// What is wrong with it.
        cause: UtcCause,
    },
    /// The octets that were to be shown, or the line that was to spell them, are refused at their first wrong field;
    /// nothing was written.
    #[error("{field} at octet {offset}: {}", told(*cause))]
    PduRefused {
        /// The field.
        field: Field,
        /// The offset of its first octet, from 0.
        offset: u32,
        /// What is wrong with it.
        cause: WireCause,
    },
    /// A line to be ordered is refused; nothing was written.
    #[error("line {line}: {cause}")]
    OrderRefused {
        /// Its number, from 1.
        line: u32,
        /// What is wrong with it.
        cause: OrderCause,
    },
}

impl Status {
    ghost use Rattle.std.specs.Prelude.{◌≡◌};
    ghost use Rattle.dts_program.specs.Numbers.{number_of};

    /// The number that the program ends with.
    pub fn number(&self) -> u8
        ensures number { result ≡ number_of self.now }
    {
        match self {
            Status::Done => 0,
            Status::Usage => 1,
            Status::CaptureRefused { .. } => 2,
            Status::ReadFault { .. } => 4,
            Status::WriteFault { .. } => 5,
            Status::NoMemory => 6,
            Status::UtcRefused { .. } => 7,
            Status::PduRefused { .. } => 8,
            Status::OrderRefused { .. } => 14,
        }
    }
}

// What is wrong with a field, and what would be right.
fn told(cause: WireCause) -> &'static str {
    match cause {
        WireCause::Short => "the octets end before this field does",
        WireCause::Value =>
            "this field can't have this value; docs/formats.md has those that are right",
        WireCause::Extra => "octets stand behind the last field, and none may",
        WireCause::Long => "more than 5840 octets, and a PDU has no more",
    }
}
