ghost use Rattle.std.specs.Prelude.{◌≡◌, ◌<◌, ◌≤◌, List, [], ◌∷◌, ◌++◌, true, drop, length, Some, IfOk, IsErr, OnOk, OnErr, IfSome};
ghost use Rattle.std.specs.List.{AllPass};
ghost use Rattle.dts_base.specs.declared.link.Scripted.{Scripted};
ghost use Rattle.dts_base.specs.Causes.{HasCause};
ghost use Rattle.dts_base.specs.Calls.{IsListed, after_call, Starves};
ghost use Rattle.dts_base.specs.Told.{Told};
ghost use Rattle.dts_base.specs.Links.{Kept, IsSame, AddsPlace, AddsServed, AddsSent, AddsClosed, Fits, Polls};
ghost use Rattle.dts_base.specs.Scripts.{has_more, has_octets, first_has_more, without_given, left_from};

use crate::memory_calls::NumberedCalls;
use crate::memory_source::copy_front;
use crate::{
    Address, Arrival, Bytes, Failed, Link, NoMemory, PeerKind, Place, Scripted, Sent, Served,
};
use std::alloc::Global;

/// A link in memory. It tells the arrivals that are left of its script, and what was placed, served, sent
/// and closed. Past its script nothing comes. Its calls of `listen` and those of `send` are numbered from 1,
/// each kind alone; those of two lists fail, and so does one that finds no memory. After a place or a close
/// that found no memory it tells no lists any more. Our own choice.
#[derive(Debug, Drop)]
pub struct MemoryLink {
    alloc: Global,
    script: Vec<Scripted>,
    at: usize,
    given: usize,
    places: Vec<Place>,
    served: Vec<Served>,
    sent: Vec<Sent>,
    closed: Vec<u32>,
    tells_lists: bool,
    listens: NumberedCalls,
    sends: NumberedCalls,
    faults: u64,
    starved: u64,
    ghost octets: { AllPass has_octets script.items },
    ghost more: { first_has_more given (drop at script.items) ≡ true },
}

impl MemoryLink {
    ghost use Rattle.dts_base.specs.Memory.{link_script, link_lists, link_listens, link_sends, link_faults, link_starved};

    /// A link with this script that fails at the calls of `listen` and of `send` of these numbers. Octets of
    /// a stream are at least one an arrival.
    pub fn new(
        alloc: Global,
        script: Vec<Scripted>,
        fail_listen: &[u64],
        fail_send: &[u64],
    ) -> Result<MemoryLink, NoMemory>
        requires { AllPass has_octets script.items }
        ensures script { IfOk result (λ l. link_script l ≡ script.items) }
        ensures lists { IfOk result (λ l. link_lists l ≡ Some (record { places = []; served = []; sent = []; closed = [] })) }
        ensures listens { IfOk result (λ l. link_listens l ≡ record { next = 1; fail = fail_listen.now }) }
        ensures sends { IfOk result (λ l. link_sends l ≡ record { next = 1; fail = fail_send.now }) }
        ensures faults { IfOk result (λ l. (link_faults l ≡ 0) × (link_starved l ≡ 0)) }
    {
        let listens = NumberedCalls::new(alloc, fail_listen)?;
        let sends = NumberedCalls::new(alloc, fail_send)?;
        Ok(MemoryLink {
            alloc,
            script,
            at: 0,
            given: 0,
            places: Vec::new(alloc),
            served: Vec::new(alloc),
            sent: Vec::new(alloc),
            closed: Vec::new(alloc),
            tells_lists: true,
            listens,
            sends,
            faults: 0,
            starved: 0,
        })
    }

    /// Lends the places that were said.
    pub fn places(&self) -> &[Place]
        ensures places { IfSome (link_lists self.now) (λ lists. result.now ≡ lists.places) }
    {
        self.places.as_slice()
    }

    /// Lends the addresses that are served.
    pub fn served(&self) -> &[Served]
        ensures served { IfSome (link_lists self.now) (λ lists. result.now ≡ lists.served) }
    {
        self.served.as_slice()
    }

    /// Lends the pieces that were sent.
    pub fn sent(&self) -> &[Sent]
        ensures sent { IfSome (link_lists self.now) (λ lists. result.now ≡ lists.sent) }
    {
        self.sent.as_slice()
    }

    /// Lends the peers that were closed.
    pub fn closed(&self) -> &[u32]
        ensures closed { IfSome (link_lists self.now) (λ lists. result.now ≡ lists.closed) }
    {
        self.closed.as_slice()
    }

    /// How often a listen or a send failed for want of memory.
    pub fn starved(&self) -> u64
        ensures starved { result ≡ link_starved self.now }
    {
        self.starved
    }
}

// Adds a piece to a list of those that were sent.
fn add_sent(alloc: Global, sent: &mut Vec<Sent>, peer: u32, bytes: &[u8]) -> Result<(), NoMemory>
    ensures added { OnOk result (sent.new.items ≡ sent.old.items ++ record { peer = peer; bytes = bytes.now } ∷ []) }
    ensures same { OnErr result (sent.new.items ≡ sent.old.items) }
{
    let bytes = Bytes::from_slice(alloc, bytes)?;
    sent.push(Sent { peer, bytes })?;
    Ok(())
}

// What comes first, of which so many octets were given, and how many are given then where more are left.
fn arrive(first: &Scripted, given: usize, buf: &mut [u8]) -> (Arrival, Option<usize>)
    requires more { has_more given first.now ≡ true }
    requires room { 0 < length buf.old }
    ensures fits { Fits result.0 (length buf.new) }
    ensures polls { (rest : List Scripted) → Polls result.0 buf.new (without_given given (first.now ∷ rest)) (left_from result.1 first.now rest) }
    ensures more { IfSome result.1 (λ given. has_more given first.now ≡ true) }
{
    match first {
        Scripted::Nothing => (Arrival::Nothing, None),
        Scripted::Bytes { peer, bytes } => {
            let left = &bytes.as_slice()[given..];
            let len = copy_front(left, buf);
            let more = if len < left.len() {
                Some(given + len)
            } else {
                None
            };
            (Arrival::Bytes { peer: *peer, len }, more)
        }
        Scripted::Gram { peer, bytes } => {
            let len = copy_front(bytes.as_slice(), buf);
            (Arrival::Gram { peer: *peer, len }, None)
        }
        Scripted::Lost { peer } => (Arrival::Lost { peer: *peer }, None),
        Scripted::Ended => (Arrival::Ended, None),
    }
}

impl Link for MemoryLink {
    ghost use Rattle.dts_base.specs.Memory.{link_script, link_lists, link_listens, link_sends, link_faults, link_starved, CountsNone};

    ghost script = { λ l. Some (link_script l) };

    ghost lists = { link_lists };

    ghost faults = { link_faults };

    fn place(&mut self, peer: u32, kind: PeerKind, address: Address)
        ensures script { Told (Some (link_script self.old)) (Some (link_script self.new)) IsSame }
        ensures lists { Kept (link_lists self.old) (link_lists self.new) (AddsPlace peer kind address) }
        ensures later { link_faults self.old ≤ link_faults self.new }
        ensures numbers { CountsNone self.old self.new }
    {
        let place = Place {
            peer,
            kind,
            address,
        };
        if self.places.push(place).is_err() {
            self.tells_lists = false;
        }
    }

    fn listen(&mut self, first: u32, address: Address) -> Result<(), Failed>
        ensures script { Told (Some (link_script self.old)) (Some (link_script self.new)) IsSame }
        ensures served { OnOk result (Kept (link_lists self.old) (link_lists self.new) (AddsServed first address)) }
        ensures failed { OnErr result (Kept (link_lists self.old) (link_lists self.new) IsSame) }
        ensures cause { HasCause (link_faults self.old) (link_faults self.new) result }

        // It is one of the calls that are to fail, or memory was missing, or it serves.
        ensures listed { IsListed (link_listens self.old) → IsErr result }
        ensures listens { link_listens self.new ≡ after_call (link_listens self.old) }
        ensures sends { link_sends self.new ≡ link_sends self.old }
        ensures starved { Starves (link_listens self.old) result (link_starved self.old) (link_starved self.new) }
    {
        if self.listens.count() {
            self.faults = self.faults.saturating_add(1);
            return Err(Failed);
        }
        if self.served.push(Served { first, address }).is_err() {
            self.faults = self.faults.saturating_add(1);
            self.starved = self.starved.saturating_add(1);
            return Err(Failed);
        }
        Ok(())
    }

    fn poll(&mut self, buf: &mut [u8]) -> Arrival
        requires { 0 < length buf.old }
        ensures fits { Fits result (length buf.new) }
        ensures script { Told (Some (link_script self.old)) (Some (link_script self.new)) (Polls result buf.new) }
        ensures lists { Kept (link_lists self.old) (link_lists self.new) IsSame }
        ensures later { link_faults self.old ≤ link_faults self.new }
        ensures numbers { CountsNone self.old self.new }
    {
        let Some(first) = self.script.get(self.at) else {
            return Arrival::Nothing;
        };
        let (arrival, given) = arrive(first, self.given, buf);
        match given {
            Some(given) => self.given = given,
            None => {
                self.given = 0;
                self.at += 1;
            }
        }
        arrival
    }

    fn send(&mut self, peer: u32, bytes: &[u8]) -> Result<(), Failed>
        ensures script { Told (Some (link_script self.old)) (Some (link_script self.new)) IsSame }
        ensures sent { OnOk result (Kept (link_lists self.old) (link_lists self.new) (AddsSent peer bytes.now)) }
        ensures failed { OnErr result (Kept (link_lists self.old) (link_lists self.new) IsSame) }
        ensures cause { HasCause (link_faults self.old) (link_faults self.new) result }

        // It is one of the calls that are to fail, or memory was missing, or it sends.
        ensures listed { IsListed (link_sends self.old) → IsErr result }
        ensures sends { link_sends self.new ≡ after_call (link_sends self.old) }
        ensures listens { link_listens self.new ≡ link_listens self.old }
        ensures starved { Starves (link_sends self.old) result (link_starved self.old) (link_starved self.new) }
    {
        if self.sends.count() {
            self.faults = self.faults.saturating_add(1);
            return Err(Failed);
        }
        if add_sent(self.alloc, &mut self.sent, peer, bytes).is_err() {
            self.faults = self.faults.saturating_add(1);
            self.starved = self.starved.saturating_add(1);
            return Err(Failed);
        }
        Ok(())
    }

    fn close(&mut self, peer: u32)
        ensures script { Told (Some (link_script self.old)) (Some (link_script self.new)) IsSame }
        ensures lists { Kept (link_lists self.old) (link_lists self.new) (AddsClosed peer) }
        ensures later { link_faults self.old ≤ link_faults self.new }
        ensures numbers { CountsNone self.old self.new }
    {
        if self.closed.push(peer).is_err() {
            self.tells_lists = false;
        }
    }
}
