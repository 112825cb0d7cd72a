ghost use Rattle.std.specs.Prelude.{◌≡◌};

use dts_base::{Field, NoMemory};
use thiserror::Error;

/// Why a PDU is not encoded.
#[derive(Clone, Copy, Debug, PartialEq, Eq, Error)]
pub enum EncodeFault {
    /// The first field whose value is not right.
    #[error("{field} is not right")]
    Unsound {
        /// The field.
        field: Field,
    },
    /// The fragment would have so many octets, more than 5,840.
    #[error("a fragment of {have} octets is too long")]
    TooLong {
        /// How many it would have, or the last number of its type.
        have: u32,
    },
    /// There is no memory.
    #[error("out of memory")]
    NoMemory,
}

impl From<NoMemory> for EncodeFault {
    ghost use Rattle.rpc_pdu.specs.declared.fault.EncodeFault.TheVariants as fault;

    ghost from_gives = { λ _ f. f ≡ fault.NoMemory };

    fn from(_: NoMemory) -> Self {
        EncodeFault::NoMemory
    }
}
