use dts_base::{Bytes, Interval};

/// What happened to a node. Oscillator readings are at most 2^60, in units of 100 ns. Peers from 1000 are
/// connections that others made.
#[derive(Debug, PartialEq, Eq, Drop)]
pub enum Event {
    /// Time went on; the random word is for the queries of this tick.
    Tick {
        osc: u64,
        word: u64,
    },
    /// Octets came over a stream.
    Stream {
        osc: u64,
        peer: u32,
        bytes: Bytes,
    },
    /// A datagram came.
    Gram {
        osc: u64,
        peer: u32,
        bytes: Bytes,
    },
    /// The connection to a peer was lost.
    Lost {
        osc: u64,
        peer: u32,
    },
    /// What was to be sent to a peer was not sent.
    Unsent {
        osc: u64,
        peer: u32,
    },
    /// A program read the clock.
    Read {
        osc: u64,
    },
    /// Octets came over a connection that a client made: 1000 or above.
    Ask {
        osc: u64,
        conn: u32,
        bytes: Bytes,
    },
    /// A source of a direct round was asked.
    Query {
        osc: u64,
        tag: u32,
    },
    /// A source of a direct round answered with this interval.
    Source {
        osc: u64,
        tag: u32,
        interval: Interval,
    },
    /// A direct round ended: it adopts where so many sources answered, 1 to 64.
    Adopt {
        osc: u64,
        required: u32,
    },
}
