use dts_base::Refused;
use ndr::DecodeFault;
use thiserror::Error;

/// What octets are shown as.
#[derive(Clone, Copy, Debug, PartialEq, Eq)]
pub enum Shown {
    /// One fragment of a connection-oriented call (C706).
    Pdu,
    /// One packet of NTP (RFC 5905).
    Ntp,
    /// A timestamp of sixteen octets (C310).
    Utc,
}

/// What comes of showing an input.
#[derive(Clone, Copy, Debug, PartialEq, Eq, Error)]
pub enum ShowEnd {
    /// The whole input is read and all its fields are written.
    #[error("done")]
    Done,
    /// The input spells no octets, or these are refused at their first wrong field. Nothing was written.
    #[error("{0}")]
    Refused(Refused),
    /// The input failed. Nothing was written.
    #[error("the input can't be read")]
    ReadFault,
    /// The output failed. What was written is the beginning of the lines.
    #[error("the output can't be written")]
    WriteFault,
    /// No memory was found. Nothing was written.
    #[error("out of memory")]
    NoMemory,
}

impl From<DecodeFault> for ShowEnd {
    ghost use Rattle.std.specs.Prelude.{◌≡◌};
    ghost use Rattle.wire_show.specs.Showing.{end_of};

    ghost from_gives = { λ fault e. e ≡ end_of fault };

    fn from(fault: DecodeFault) -> Self {
        match fault {
            DecodeFault::Wrong(refused) => ShowEnd::Refused(refused),
            DecodeFault::NoMemory => ShowEnd::NoMemory,
        }
    }
}
