//! The keys of a roster, as the reader walks them.

use crate::{
    GREATEST_EPOCH, GREATEST_HOLD, GREATEST_LISTEN_PORT, GREATEST_MAX_INACCURACY, GREATEST_PERIOD,
    GREATEST_PORT, GREATEST_REQUIRED, GREATEST_TIMEOUT, LEAST_HOLD, LEAST_MAX_INACCURACY,
    LEAST_PERIOD, LEAST_REQUIRED, LEAST_TIMEOUT,
};
use slew_clock::{
    GREATEST_DRIFT_PPM, GREATEST_LEASE, GREATEST_RESOLUTION, GREATEST_SLEW_PPM, GREATEST_TOLERANCE,
    LEAST_LEASE, LEAST_SLEW_PPM, LEAST_TOLERANCE,
};

/// What the value of a key has to be.
#[derive(Clone, Copy)]
pub(crate) enum Right {
    /// A string of 1 to 32 of `a` to `z`, `0` to `9` and `-`.
    Name,
    /// The string of a role.
    Role,
    /// The string of a kind of server.
    ServerKind,
    /// The string of an address whose port is at most this.
    Address(u16),
    /// A boolean.
    Flag,
    /// An integer from the one to the other, both included.
    Number(u64, u64),
}

/// A key of a table.
#[derive(Clone, Copy)]
pub(crate) struct Key {
    /// Its name.
    pub(crate) name: &'static str,
    /// What its value has to be.
    pub(crate) right: Right,
    /// Whether it has to be there.
    pub(crate) required: bool,
}

/// The keys of the table `node`, in order.
pub(crate) const NODE_KEYS: [Key; 15] = [
    Key {
        name: "name",
        right: Right::Name,
        required: true,
    },
    Key {
        name: "role",
        right: Right::Role,
        required: false,
    },
    Key {
        name: "courier",
        right: Right::Flag,
        required: false,
    },
    Key {
        name: "listen",
        right: Right::Address(GREATEST_LISTEN_PORT),
        required: false,
    },
    Key {
        name: "epoch",
        right: Right::Number(0, GREATEST_EPOCH),
        required: false,
    },
    Key {
        name: "required",
        right: Right::Number(LEAST_REQUIRED, GREATEST_REQUIRED),
        required: false,
    },
    Key {
        name: "period",
        right: Right::Number(LEAST_PERIOD, GREATEST_PERIOD),
        required: false,
    },
    Key {
        name: "hold",
        right: Right::Number(LEAST_HOLD, GREATEST_HOLD),
        required: false,
    },
    Key {
        name: "timeout",
        right: Right::Number(LEAST_TIMEOUT, GREATEST_TIMEOUT),
        required: false,
    },
    Key {
        name: "max_inaccuracy",
        right: Right::Number(LEAST_MAX_INACCURACY, GREATEST_MAX_INACCURACY),
        required: false,
    },
    Key {
        name: "drift_ppm",
        right: Right::Number(0, GREATEST_DRIFT_PPM as u64),
        required: false,
    },
    Key {
        name: "resolution",
        right: Right::Number(0, GREATEST_RESOLUTION as u64),
        required: false,
    },
    Key {
        name: "lease",
        right: Right::Number(LEAST_LEASE, GREATEST_LEASE),
        required: false,
    },
    Key {
        name: "slew_ppm",
        right: Right::Number(LEAST_SLEW_PPM as u64, GREATEST_SLEW_PPM as u64),
        required: false,
    },
    Key {
        name: "tolerance",
        right: Right::Number(LEAST_TOLERANCE, GREATEST_TOLERANCE),
        required: false,
    },
];

/// The keys of each table `server`, in order.
pub(crate) const SERVER_KEYS: [Key; 3] = [
    Key {
        name: "name",
        right: Right::Name,
        required: true,
    },
    Key {
        name: "kind",
        right: Right::ServerKind,
        required: true,
    },
    Key {
        name: "address",
        right: Right::Address(GREATEST_PORT),
        required: true,
    },
];
