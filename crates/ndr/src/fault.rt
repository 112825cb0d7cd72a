ghost use Rattle.std.specs.Prelude.{◌≡◌};

use dts_base::{NoMemory, Refused};
use std::alloc::AllocError;
use thiserror::Error;

/// Why a value is not written. The stub is then as it was.
#[derive(Clone, Copy, Debug, PartialEq, Eq, Error)]
pub enum WriteFault {
    /// The stub would have so many octets, more than 65,536.
    #[error("a stub of {have} octets is too long")]
    TooLong {
        /// How many it would have, or the last number of its type.
        have: u32,
    },
    /// The text has an octet outside 0x20 to 0x7E, or more than 1,023 octets.
    #[error("the text cannot be a string")]
    StringValue,
    /// There is no memory.
    #[error("out of memory")]
    NoMemory,
}

impl From<AllocError> for WriteFault {
    ghost use Rattle.ndr.specs.declared.fault.WriteFault.TheVariants as fault;

    ghost from_gives = { λ _ f. f ≡ fault.NoMemory };

    fn from(_: AllocError) -> Self {
        WriteFault::NoMemory
    }
}

impl From<NoMemory> for WriteFault {
    ghost use Rattle.ndr.specs.declared.fault.WriteFault.TheVariants as fault;

    ghost from_gives = { λ _ f. f ≡ fault.NoMemory };

    fn from(_: NoMemory) -> Self {
        WriteFault::NoMemory
    }
}

/// Why octets are not decoded.
#[derive(Clone, Copy, Debug, PartialEq, Eq, Error)]
pub enum DecodeFault {
    /// The first field that is short or not right.
    #[error("{0}")]
    Wrong(Refused),
    /// There is no memory.
    #[error("out of memory")]
    NoMemory,
}

impl From<Refused> for DecodeFault {
    ghost use Rattle.ndr.specs.declared.fault.DecodeFault.TheVariants as fault;

    ghost from_gives = { λ refused f. f ≡ fault.Wrong refused };

    fn from(refused: Refused) -> Self {
        DecodeFault::Wrong(refused)
    }
}

impl From<AllocError> for DecodeFault {
    ghost use Rattle.ndr.specs.declared.fault.DecodeFault.TheVariants as fault;

    ghost from_gives = { λ _ f. f ≡ fault.NoMemory };

    fn from(_: AllocError) -> Self {
        DecodeFault::NoMemory
    }
}

impl From<NoMemory> for DecodeFault {
    ghost use Rattle.ndr.specs.declared.fault.DecodeFault.TheVariants as fault;

    ghost from_gives = { λ _ f. f ≡ fault.NoMemory };

    fn from(_: NoMemory) -> Self {
        DecodeFault::NoMemory
    }
}
