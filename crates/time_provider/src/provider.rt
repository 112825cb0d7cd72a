ghost use Rattle.std.specs.Prelude.{◌≡◌, ◌+◌, ◌<◌, ◌≤◌, false, true, count_by, get_or, slice_set, length, IfSome, map, None, []};
ghost use Rattle.time_provider.specs.Past.{Past, Took, Went, Stopped, and_then, answer_of, is_used, polled_with, times_of};
ghost use Rattle.time_provider.specs.State.{StandsFor, answer_told, place_in, queries_from, told_of};
ghost use Rattle.time_provider.specs.Rooms.{listed};
ghost use Rattle.time_provider.specs.Settling.{Becomes, IsSettled};

use crate::limits::MAX_PEERS;
use crate::matching::{OpenQuery, answer, origin_at, query_octets};
use crate::{ProviderFault, Queries, Query, TimeMessage, Triple};
use std::marker::Model;

/// A provider of times from peers. Clauses see its state, which stands for the calls that were made since its last
/// poll.
#[derive(Clone, Copy, Debug)]
pub struct Provider {
    peers: [u32; MAX_PEERS],
    count: usize,
    pending: [bool; MAX_PEERS],
    osc: u64,
    word: u64,
    message: TimeMessage,
}

impl Model for Provider {
    ghost use Rattle.std.specs.Prelude.{◌+◌, ◌≤◌, count_by};
    ghost use Rattle.time_provider.specs.declared.limits.TheConstants.{MAX_PEERS};
    ghost use Rattle.time_provider.specs.State.{State};

    ghost Value = { State };

    ghost view = { λ p. record { peers = record { items = p.peers; count = p.count }; pending = p.pending; poll = record { osc = p.osc; word = p.word }; message = p.message } };

    ghost invariant = { λ p. (p.count ≤ MAX_PEERS) × (count_by (λ b. b) p.pending + p.message.count ≤ MAX_PEERS) };

    ghost inverse = { λ s. record { peers = s.peers.items; count = s.peers.count; pending = s.pending; osc = s.poll.osc; word = s.poll.word; message = s.message } };
}

impl Provider {
    /// A provider of the times of these peers, which differ, at most `MAX_PEERS`. No query is open before the first
    /// poll.
    pub fn new(peers: &[u32]) -> Provider
        requires { length peers.now ≤ MAX_PEERS }
        ensures { StandsFor (record { peers = peers.now; polled = None; deeds = [] }) result }
    {
        let mut all = [0; MAX_PEERS];
        all[..peers.len()].copy_from_slice(peers);
        Provider {
            peers: all,
            count: peers.len(),
            pending: [false; MAX_PEERS],
            osc: 0,
            word: 0,
            message: TimeMessage::new(),
        }
    }

    /// Opens a query to each peer at an oscillator reading, and forgets the times and the queries of the poll before.
    /// Each packet is a client's of version 4, whose other fields are 0 but the transmit timestamp: the random word
    /// for the first peer, one more for each that follows, wrapped, and 1 in place of 0.
    pub fn poll(&mut self, osc: u64, word: u64) -> Queries
        ensures queries { listed result ≡ queries_from word 0 (listed self.old.peers) }
        ensures stands { (past : Past) → StandsFor past self.old → StandsFor (polled_with past (record { osc = osc; word = word })) self.new }
    {
        self.pending = [true; MAX_PEERS];
        self.osc = osc;
        self.word = word;
        self.message = TimeMessage::new();
        queries_to(&self.peers[..self.count], word)
    }

    /// Takes a packet that came from a peer at an oscillator reading, while the time was near a count. `NoQuery`
    /// exactly where no query to this peer is open; then `Wrong` exactly as `decode` refuses it; then `Judged`
    /// exactly as `judge` refuses it as a reply to this query; then `Range` exactly where an end of its interval is
    /// below 0 or above `GREATEST_TIME`. A time and `Range` close the query; after all else nothing is changed.
    pub fn take(
        &mut self,
        peer: u32,
        osc: u64,
        b: &[u8],
        near: i64,
    ) -> Result<Triple, ProviderFault>
        ensures answered { (past : Past) → StandsFor past self.old → answer_told result ≡ answer_of past peer osc b.now near }
        ensures stands { (past : Past) → StandsFor past self.old → StandsFor (and_then past (Took peer (answer_told result))) self.new }
        ensures unchanged { is_used (answer_told result) ≡ false → self.new ≡ self.old }
    {
        let Some(place) = self.place_of(peer) else {
            return Err(ProviderFault::NoQuery);
        };
        if !self.pending[place] {
            return Err(ProviderFault::NoQuery);
        }
        let query = OpenQuery {
            peer,
            asked: self.osc,
            origin: origin_at(self.word, place),
        };
        let answer = answer(query, osc, b, near);
        self.settle(place, &answer);
        answer
    }

    /// Closes the open query to a peer, if there is one.
    pub fn gone(&mut self, peer: u32)
        ensures { (past : Past) → StandsFor past self.old → StandsFor (and_then past (Went peer)) self.new }
    {
        if let Some(place) = self.place_of(peer) {
            self.close(place);
        }
    }

    /// Closes all open queries.
    pub fn stop(&mut self)
        ensures { (past : Past) → StandsFor past self.old → StandsFor (and_then past Stopped) self.new }
    {
        self.pending = [false; MAX_PEERS];
    }

    /// The times that came since the last poll, in the order of arrival.
    pub fn message(&self) -> TimeMessage
        ensures message { result ≡ self.now.message }
        ensures times { (past : Past) → StandsFor past self.now → map told_of (listed result) ≡ times_of past.deeds }
    {
        self.message.copy()
    }

    // The place of a peer.
    fn place_of(&self, peer: u32) -> Option<usize>
        ensures place { result ≡ place_in (listed self.now.peers) peer }
        ensures within { IfSome result (λ place. place < MAX_PEERS) }
    {
        self.peers[..self.count].iter().position(|p| *p == peer)
    }

    // Closes the query at a place.
    fn close(&mut self, place: usize)
        requires { place < MAX_PEERS }
        ensures closed { Becomes self.old self.new (slice_set self.old.pending place false) (listed self.old.message) }
        ensures room { get_or self.old.pending place false ≡ true → count_by (λ b. b) self.new.pending + self.new.message.count < MAX_PEERS }
    {
        self.pending[place] = false;
    }

    // Closes the open query at a place where an answer uses it up, and keeps the time that came.
    fn settle(&mut self, place: usize, answer: &Result<Triple, ProviderFault>)
        requires place { place < MAX_PEERS }
        requires pending { get_or self.old.pending place false ≡ true }
        ensures { IsSettled self.old place answer.now self.new }
    {
        match answer {
            Ok(triple) => {
                self.close(place);
                self.message.push(*triple);
            }
            Err(ProviderFault::Range { .. }) => self.close(place),
            Err(_) => {}
        }
    }
}

// The queries of a poll to these peers.
fn queries_to(peers: &[u32], word: u64) -> Queries
    requires { length peers.now ≤ MAX_PEERS }
    ensures { listed result ≡ queries_from word 0 peers.now }
{
    let mut queries = Queries::new();
    for (place, peer) in peers.iter().enumerate() {
        queries.push(Query {
            peer: *peer,
            packet: query_octets(origin_at(word, place)),
        });
    }
    queries
}
