ghost use Rattle.std.specs.Prelude.{◌≡◌, ◌+◌, ◌<◌, [], ◌∷◌, ◌++◌};
ghost use Rattle.time_provider.specs.Rooms.{listed};

use crate::limits::MAX_PEERS;
use dts_base::Interval;
use ntp_packet::PACKET_LENGTH;
use std::marker::Model;

/// A query to a peer: a packet to be sent to it.
#[derive(Clone, Copy, Debug, PartialEq, Eq)]
pub struct Query {
    /// The number of the peer.
    pub peer: u32,
    /// The packet's 48 octets.
    pub packet: [u8; PACKET_LENGTH],
}

// What stands in the room that is not used.
const NO_QUERY: Query = Query {
    peer: 0,
    packet: [0; PACKET_LENGTH],
};

/// The queries of a poll, one for each peer in order. Clauses list them by `listed`.
#[derive(Clone, Copy, Debug)]
pub struct Queries {
    items: [Query; MAX_PEERS],
    count: usize,
}

impl Model for Queries {
    ghost use Rattle.std.specs.Prelude.{◌≤◌};
    ghost use Rattle.time_provider.specs.declared.limits.TheConstants.{MAX_PEERS};
    ghost use Rattle.time_provider.specs.declared.lists.Query.{Query};
    ghost use Rattle.time_provider.specs.Rooms.{Room};

    ghost Value = { Room Query };

    ghost view = { λ q. record { items = q.items; count = q.count } };

    ghost invariant = { λ q. q.count ≤ MAX_PEERS };

    ghost inverse = { λ q. record { items = q.items; count = q.count } };
}

impl Queries {
    // No queries.
    pub(crate) fn new() -> Queries
        ensures { listed result ≡ [] }
    {
        Queries {
            items: [NO_QUERY; MAX_PEERS],
            count: 0,
        }
    }

    // One query more.
    pub(crate) fn push(&mut self, query: Query)
        requires { self.old.count < MAX_PEERS }
        ensures listed { listed self.new ≡ listed self.old ++ query ∷ [] }
        ensures count { self.new.count ≡ self.old.count + 1 }
    {
        self.items[self.count] = query;
        self.count += 1;
    }

    /// Lends the queries.
    pub fn as_slice(&self) -> &[Query]
        ensures { result.now ≡ listed self.now }
    {
        &self.items[..self.count]
    }
}

/// The time of a peer: an interval that held true time at some moment between two oscillator readings, where the
/// peer's own claim did.
#[derive(Clone, Copy, Debug, PartialEq, Eq)]
pub struct Triple {
    /// The number of the peer.
    pub peer: u32,
    /// The oscillator reading of the poll that asked it.
    pub before: u64,
    /// The interval. Where the low end by the reply is above the high end, it holds the low end alone.
    pub time: Interval,
    /// The oscillator reading at which the reply was taken.
    pub after: u64,
}

// What stands in the room that is not used.
const NO_TRIPLE: Triple = Triple {
    peer: 0,
    before: 0,
    time: Interval { lo: 0, hi: 0 },
    after: 0,
};

/// The times that came in a poll, in the order of arrival. Clauses list them by `listed`.
#[derive(Clone, Copy, Debug)]
pub struct TimeMessage {
    items: [Triple; MAX_PEERS],
    count: usize,
}

impl Model for TimeMessage {
    ghost use Rattle.std.specs.Prelude.{◌≤◌};
    ghost use Rattle.time_provider.specs.declared.limits.TheConstants.{MAX_PEERS};
    ghost use Rattle.time_provider.specs.declared.lists.Triple.{Triple};
    ghost use Rattle.time_provider.specs.Rooms.{Room};

    ghost Value = { Room Triple };

    ghost view = { λ m. record { items = m.items; count = m.count } };

    ghost invariant = { λ m. m.count ≤ MAX_PEERS };

    ghost inverse = { λ m. record { items = m.items; count = m.count } };
}

impl TimeMessage {
    // No times.
    pub(crate) fn new() -> TimeMessage
        ensures { listed result ≡ [] }
    {
        TimeMessage {
            items: [NO_TRIPLE; MAX_PEERS],
            count: 0,
        }
    }

    // One time more.
    pub(crate) fn push(&mut self, triple: Triple)
        requires { self.old.count < MAX_PEERS }
        ensures listed { listed self.new ≡ listed self.old ++ triple ∷ [] }
        ensures count { self.new.count ≡ self.old.count + 1 }
    {
        self.items[self.count] = triple;
        self.count += 1;
    }

    // The same times.
    pub(crate) fn copy(&self) -> TimeMessage
        ensures { result ≡ self.now }
    {
        TimeMessage {
            items: self.items,
            count: self.count,
        }
    }

    /// Lends the times.
    pub fn as_slice(&self) -> &[Triple]
        ensures { result.now ≡ listed self.now }
    {
        &self.items[..self.count]
    }
}
