use dts_base::{NoMemory, Text};
use thiserror::Error;

/// Why a roster is refused.
#[derive(Clone, Copy, Debug, PartialEq, Eq, Error)]
pub enum RosterCause {
    /// The file has more than 65,536 octets.
    #[error("a roster has at most 65536 octets")]
    Long,
    /// The file is no TOML document, as `toml` defines one. An integer past 64 bits is one such cause.
    #[error("the file is no TOML document")]
    Document,
    /// The key is none of a roster.
    #[error("no such key is known")]
    Unknown,
    /// The key is required and absent.
    #[error("the key is required")]
    Missing,
    /// The value is of another kind: a string, a boolean, an integer, a table or an array of tables is wanted.
    #[error("the value is of another kind")]
    Kind,
    /// The value is of the kind, and out of its range.
    #[error("the value is out of its range")]
    Range,
    /// An earlier server has the name.
    #[error("an earlier server has this name")]
    Duplicate,
    /// There are more than 32 servers, or more than 6 of the kind `ntp`.
    #[error("there are too many servers")]
    TooMany,
    /// The role is not the command's. `Roster::read` never gives it.
    #[error("the role is not that of the command")]
    Role,
}

/// What refuses a roster.
#[derive(Debug, Drop, PartialEq, Eq, Error)]
pub enum RosterFault {
    /// A key is wrong, or the whole file is.
    #[error("the roster is refused: {cause}")]
    Wrong {
        /// The path of the key, as `node.period` or `server.0.name`; it is empty for the whole file.
        path: Text,
        /// What is wrong with it.
        cause: RosterCause,
    },
    /// No memory was found.
    #[error("out of memory")]
    NoMemory,
}

impl From<NoMemory> for RosterFault {
    ghost use Rattle.std.specs.Prelude.{◌≡◌};
    ghost use Rattle.roster.specs.declared.cause.RosterFault.TheVariants as fault;

    ghost from_gives = { λ _ e. e ≡ fault.NoMemory };

    fn from(_: NoMemory) -> Self {
        RosterFault::NoMemory
    }
}
