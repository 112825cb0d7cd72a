use dts_base::{Bytes, Refused, State};
use slew_clock::ClockRecord;

/// What a node does at an event.
#[derive(Debug, PartialEq, Eq, Drop)]
pub enum Action {
    /// It sends octets to a peer.
    Send { osc: u64, peer: u32, bytes: Bytes },
    /// It closes the connection to a peer.
    Close { osc: u64, peer: u32 },
    /// It publishes a record of its clock.
    Publish { rec: ClockRecord },
    /// It notes something in its log.
    Log(Note),
}

/// A note of the log.
#[derive(Debug, PartialEq, Eq, Drop)]
pub struct Note {
    /// The oscillator reading of the event.
    pub osc: u64,
    /// The peer that it speaks of, where there is one.
    pub peer: Option<u32>,
    /// What is noted.
    pub kind: NoteKind,
}

/// A source of a round that gave a false interval.
#[derive(Clone, Copy, Debug, PartialEq, Eq)]
pub enum FalseSource {
    /// The server of this number.
    Peer(u32),
    /// The tag of a direct round.
    Tag(u32),
    /// The node itself.
    Own,
}

/// What a note says. Times are counts, and inaccuracies lengths, of units of 100 ns.
#[derive(Debug, PartialEq, Eq, Drop)]
pub enum NoteKind {
    /// A reading of the clock at the event's oscillator reading.
    Reading {
        value: i64,
        inaccuracy: Option<u64>,
        step: u64,
        number: u64,
    },
    /// A round of this number was opened with so many sources.
    Round {
        number: u64,
        sources: u32,
    },
    /// A round adopted this interval from so many.
    Adopted {
        n: u32,
        lo: i64,
        hi: i64,
    },
    /// A source gave a false interval.
    False(FalseSource),
    /// The clock steps: the number of the step, and the clock's value before and after.
    Step {
        step: u64,
        old: i64,
        new: i64,
    },
    /// Fewer sources answered than required.
    Short {
        answered: u32,
        required: u32,
    },
    /// Too few of so many intervals agree.
    Split {
        n: u32,
    },
    /// A PDU, a stub or a packet is refused.
    Refused(Refused),
    /// An answer to no call that is open.
    UnknownCall {
        call_id: u32,
    },
    /// A PDU of a kind that the state does not expect.
    Unexpected {
        ptype: u8,
        state: State,
    },
    /// The fragments of a stub are longer than it may be.
    Fragments {
        have: u32,
        limit: u32,
    },
    /// The peer rejected the context.
    Rejected {
        result: u16,
        reason: u16,
    },
    /// The peer refused to bind.
    Nak {
        reason: u16,
    },
    /// The peer answered a call with a fault.
    Fault {
        status: u32,
    },
    /// The peer shut the connection down.
    Shutdown,
    /// The numbers of calls to the peer are spent.
    CallsSpent,
    /// The event is of no peer that there is.
    Stray,
    /// The connection was lost.
    Lost,
    /// A piece was not sent.
    Unsent,
    /// The lane has as many connections as it may.
    Busy,
    /// The event came with an oscillator reading below this one.
    Regressed {
        floor: u64,
    },
    /// The peer has another epoch.
    Epoch {
        own: u8,
        theirs: u8,
    },
    /// An answer with this status is not used.
    UnusedStatus {
        status: u32,
    },
    /// An answer that is no moment is not used.
    UnusedKind,
    /// An answer without an inaccuracy is not used.
    UnusedUnspecified,
    /// An answer with an end out of range is not used.
    UnusedRange,
    /// A reply to no query that is open.
    NoQuery,
    /// A reply of another mode.
    Mode {
        found: u8,
    },
    /// A kiss-o'-death reply with this code.
    Kiss {
        code: u32,
    },
    /// A reply of a stratum above 15.
    Stratum {
        found: u8,
    },
    /// The server is not synchronised.
    Unsynchronised,
    /// A reply to another query.
    Origin,
    /// A reply with a timestamp of 0.
    ZeroStamp,
    /// A reply that was sent before it was received.
    Order,
    /// The server is too far from its reference.
    Distance,
    /// The tag is open or answered.
    RepeatedTag {
        tag: u32,
    },
    /// The tag is not open.
    UnknownTag {
        tag: u32,
    },
    /// A direct round has as many tags as it may.
    TagsFull,
}
