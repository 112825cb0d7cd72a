ghost use Rattle.std.specs.Prelude.{ℕ, ◌<◌, ◌≤◌, List, Option, OnOk, OnErr, length};
ghost use Rattle.dts_base.specs.declared.link.Scripted.{Scripted};
ghost use Rattle.dts_base.specs.Causes.{HasCause};
ghost use Rattle.dts_base.specs.Told.{Told};
ghost use Rattle.dts_base.specs.Links.{Lists, Kept, IsSame, AddsPlace, AddsServed, AddsSent, AddsClosed, Fits, Polls};

use crate::{Address, Bytes, Failed};

/// How a peer is reached.
#[derive(Clone, Copy, Debug, PartialEq, Eq)]
pub enum PeerKind {
    /// By a stream of octets.
    Stream,
    /// By datagrams.
    Gram,
}

/// What a poll of a link answers.
#[derive(Clone, Copy, Debug, PartialEq, Eq)]
pub enum Arrival {
    /// Nothing came.
    Nothing,
    /// So many octets of a peer's stream stand in the buffer.
    Bytes { peer: u32, len: usize },
    /// A datagram of a peer stands in the buffer, cut to its length.
    Gram { peer: u32, len: usize },
    /// A peer's stream ended.
    Lost { peer: u32 },
    /// Nothing will come any more.
    Ended,
}

/// One arrival of a link's script.
#[derive(Debug, PartialEq, Eq, Drop)]
pub enum Scripted {
    /// Nothing comes.
    Nothing,
    /// These octets of a peer's stream come.
    Bytes { peer: u32, bytes: Bytes },
    /// This datagram of a peer comes.
    Gram { peer: u32, bytes: Bytes },
    /// A peer's stream ends.
    Lost { peer: u32 },
    /// Nothing comes any more.
    Ended,
}

/// A piece that was sent.
#[derive(Debug, PartialEq, Eq, Drop)]
pub struct Sent {
    /// To whom.
    pub peer: u32,
    /// The whole piece.
    pub bytes: Bytes,
}

/// Where a peer was said to be.
#[derive(Clone, Copy, Debug, PartialEq, Eq)]
pub struct Place {
    /// The peer's number.
    pub peer: u32,
    /// How it is reached.
    pub kind: PeerKind,
    /// Its address.
    pub address: Address,
}

/// An address that is served.
#[derive(Clone, Copy, Debug, PartialEq, Eq)]
pub struct Served {
    /// The number of its first connection; the later ones are 4 apart.
    pub first: u32,
    /// The address.
    pub address: Address,
}

/// Connections and datagrams to peers, under their numbers.
pub trait Link {
    /// The arrivals left, where the object tells them.
    ghost script: { Self → Option (List Scripted) };

    /// What was placed, served, sent and closed, where the object tells it.
    ghost lists: { Self → Option Lists };

    /// How often a call failed. It never falls.
    ghost faults: { Self → ℕ };

    /// Says where a peer is.
    fn place(&mut self, peer: u32, kind: PeerKind, address: Address)
        ensures script { Told (script self.old) (script self.new) IsSame }
        ensures lists { Kept (lists self.old) (lists self.new) (AddsPlace peer kind address) }
        ensures later { faults self.old ≤ faults self.new };

    /// Serves an address. Its connections get the numbers first, first + 4 and so on, each once;
    /// where no number below 2^32 is left, no further one is taken.
    fn listen(&mut self, first: u32, address: Address) -> Result<(), Failed>
        ensures script { Told (script self.old) (script self.new) IsSame }
        ensures served { OnOk result (Kept (lists self.old) (lists self.new) (AddsServed first address)) }
        ensures failed { OnErr result (Kept (lists self.old) (lists self.new) IsSame) }
        ensures cause { HasCause (faults self.old) (faults self.new) result };

    /// The next arrival. Of octets that the buffer can't hold the rest comes later, of a datagram never.
    fn poll(&mut self, buf: &mut [u8]) -> Arrival
        requires { 0 < length buf.old }
        ensures fits { Fits result (length buf.new) }
        ensures script { Told (script self.old) (script self.new) (Polls result buf.new) }
        ensures lists { Kept (lists self.old) (lists self.new) IsSame }
        ensures later { faults self.old ≤ faults self.new };

    /// Sends the whole piece to a peer.
    fn send(&mut self, peer: u32, bytes: &[u8]) -> Result<(), Failed>
        ensures script { Told (script self.old) (script self.new) IsSame }
        ensures sent { OnOk result (Kept (lists self.old) (lists self.new) (AddsSent peer bytes.now)) }
        ensures failed { OnErr result (Kept (lists self.old) (lists self.new) IsSame) }
        ensures cause { HasCause (faults self.old) (faults self.new) result };

    /// Ends the connection of a peer.
    fn close(&mut self, peer: u32)
        ensures script { Told (script self.old) (script self.new) IsSame }
        ensures lists { Kept (lists self.old) (lists self.new) (AddsClosed peer) }
        ensures later { faults self.old ≤ faults self.new };
}
