ghost use Rattle.std.specs.Prelude.{◌≡◌, ℕ, ◌+◌, ◌<◌, ◌≤◌, ◌==◌, true, Some, All, map, take, find, length, option_map, IfOk, IfSome, IsTrue, ◌↔◌};
ghost use Rattle.dts_base.specs.declared.interval.Interval.{Interval as IntervalValue};
ghost use Rattle.slew_clock.specs.declared.limits.TheConstants.{GREATEST_OSC};
ghost use Rattle.slew_clock.specs.Elapsed.{carried};
ghost use Rattle.intersection.specs.Adoption.{ends_of, AreApart};
ghost use Rattle.clerk.specs.declared.query.QueryState.TheVariants as state;
ghost use Rattle.clerk.specs.declared.query.QueryState.{QueryState as StateValue};
ghost use Rattle.clerk.specs.Outcome.{answers_at, with_own};
ghost use Rattle.clerk.specs.Standing.{IsSound};
ghost use Rattle.clerk.specs.Queries.{standing};

use crate::{Query, QueryState};
use dts_base::{Interval, NoMemory};
use intersection::{Sweep, is_false};
use slew_clock::Rates;
use std::alloc::Global;
use std::marker::Model;

/// The most queries of a round.
pub const MAX_QUERIES: usize = 64;

// Of so many intervals at most one is adopted: the answers, and the node's own.
const MAX_INTERVALS: usize = MAX_QUERIES + 1;

/// What comes of a round.
#[derive(Clone, Copy, Debug, PartialEq, Eq)]
pub enum Outcome {
    /// So many queries may still be answered, until this oscillator reading, in units of 100 ns.
    Waiting { unanswered: u32, deadline: u64 },
    /// Fewer queries are answered than required.
    Short { answered: u32, required: u32 },
    /// Of so many intervals too few agree.
    Split { n: u32 },
    /// Of so many intervals this one is adopted.
    Adopted { n: u32, interval: Interval },
}

/// A round of queries that is open. Clauses see its number, the oscillator reading at which it opened, its deadline, how many
/// answers it requires, and its queries. All the memory that it needs is reserved when it begins.
#[derive(Drop)]
pub struct Round {
    number: u64,
    opened: u64,
    latest: u64,
    deadline: u64,
    required: u32,
    queries: Vec<Query>,
    sweep: Sweep,
}

impl Model for Round {
    ghost use Rattle.std.specs.Prelude.{◌+◌, ◌≤◌, length, All};
    ghost use Rattle.clerk.specs.declared.round.TheConstants.{MAX_QUERIES};
    ghost use Rattle.clerk.specs.Outcome.{Opened};
    ghost use Rattle.clerk.specs.Standing.{IsSound};

    ghost Value = { Opened };

    ghost view = { λ r. record { number = r.number; opened = r.opened; latest = r.latest; deadline = r.deadline; required = r.required; queries = r.queries.items } };

    // There is room for all answers and the node's own interval.
    ghost invariant = { λ r. (length r.queries.items ≤ MAX_QUERIES) × (length r.queries.items + 1 ≤ r.sweep) × All (λ q. IsSound r.latest q.state) r.queries.items };
}

impl Round {
    ghost use Rattle.clerk.specs.declared.round.TheConstants.{MAX_QUERIES};
    ghost use Rattle.clerk.specs.Outcome.{outcome, concluded, waits, is_open, unanswered};
    ghost use Rattle.clerk.specs.Queries.{pending, state_of, with_state, told_at};
    ghost use Rattle.clerk.specs.Standing.{IsAnswer, IsSound};
    ghost use Rattle.clerk.specs.Told.{told};

    /// A round in which no peer was asked yet, and all the memory that it needs. The deadline is an oscillator reading, in
    /// units of 100 ns.
    pub fn begin(
        alloc: Global,
        number: u64,
        osc: u64,
        deadline: u64,
        required: u32,
        peers: &[u32],
    ) -> Result<Round, NoMemory>
        requires { length peers.now ≤ MAX_QUERIES }
        ensures { IfOk result (λ round. round ≡ record { number = number; opened = osc; latest = osc; deadline = deadline; required = required; queries = map pending peers.now }) }
    {
        let mut queries = Vec::with_capacity(alloc, peers.len())?;
        for peer in peers {
            queries.push(Query {
                peer: *peer,
                state: QueryState::Pending,
            })?;
        }
        let sweep = Sweep::reserve(alloc, peers.len() + 1)?;
        Ok(Round {
            number,
            opened: osc,
            latest: osc,
            deadline,
            required,
            queries,
            sweep,
        })
    }

    /// The number of the round.
    pub fn number(&self) -> u64
        ensures { result ≡ self.now.number }
    {
        self.number
    }

    /// The oscillator reading at which it opened, in units of 100 ns.
    pub fn opened(&self) -> u64
        ensures { result ≡ self.now.opened }
    {
        self.opened
    }

    /// The latest oscillator reading at which it opened, or a query was asked or answered, in units of 100 ns.
    pub fn latest(&self) -> u64
        ensures { result ≡ self.now.latest }
    {
        self.latest
    }

    /// Its queries, in the order of its peers.
    pub fn queries(&self) -> &[Query]
        ensures { result.now ≡ self.now.queries }
    {
        &self.queries
    }

    /// Where the query of a peer stands. None exactly for a peer that is not in the round. An answer was got when it had been
    /// asked, by the latest oscillator reading, and its ends are times.
    pub fn state(&self, peer: u32) -> Option<QueryState>
        ensures state { result ≡ state_of self.now peer }
        ensures sound { IfSome result (IsSound self.now.latest) }
    {
        state_in(&self.queries, peer)
    }

    /// The pending query of a peer is asked at an oscillator reading.
    pub fn asked(&mut self, peer: u32, osc: u64)
        requires { state_of self.old peer ≡ Some state.Pending }
        ensures { self.new ≡ with_state (told_at osc self.old) peer (state.Asked osc) }
    {
        self.tell_at(osc);
        self.set(peer, QueryState::Asked { osc });
    }

    /// The query of a peer that was asked is answered with an interval, at an oscillator reading.
    pub fn answered(&mut self, peer: u32, osc: u64, i: Interval)
        requires asked { (asked : ℕ) × (state_of self.old peer ≡ Some (state.Asked asked)) × (asked ≤ osc) }
        requires answer { IsAnswer i }
        ensures { (asked : ℕ) → state_of self.old peer ≡ Some (state.Asked asked) → self.new ≡ with_state (told_at osc self.old) peer (state.Answered asked osc i) }
    {
        let Some(QueryState::Asked { osc: asked }) = self.state(peer) else {
            unreachable!()
        };
        self.tell_at(osc);
        self.set(
            peer,
            QueryState::Answered {
                asked,
                got: osc,
                interval: i,
            },
        );
    }

    /// The query of a peer that is pending or asked will not be answered.
    pub fn gone(&mut self, peer: u32)
        requires { (state : StateValue) × (state_of self.old peer ≡ Some state) × (is_open state ≡ true) }
        ensures { self.new ≡ with_state self.old peer state.Gone }
    {
        self.set(peer, QueryState::Gone);
    }

    // Something is told at an oscillator reading.
    fn tell_at(&mut self, osc: u64)
        ensures { self.new ≡ told_at osc self.old }
    {
        self.latest = self.latest.max(osc);
    }

    // The query of this peer stands so.
    fn set(&mut self, peer: u32, state: QueryState)
        requires { IsSound self.old.latest state }
        ensures { self.new ≡ with_state self.old peer state }
    {
        stand(&mut self.queries, peer, state);
    }

    // How many queries may still be answered.
    fn unanswered(&self) -> u32
        ensures { result ≡ unanswered self.now.queries }
    {
        self.queries
            .iter()
            .filter(|query| query.state.is_open())
            .count() as u32
    }

    /// What comes of the round at an oscillator reading, with the node's own interval where it has one. It waits exactly below
    /// the deadline while a query may still be answered. Else too few answers are there exactly where they are fewer than
    /// required, for which the own interval is no answer. Else an interval is adopted of the answers, each carried on, and of
    /// the own interval, or they are split.
    pub fn evaluate(&mut self, r: &Rates, osc: u64, own: Option<Interval>) -> Outcome
        requires osc { osc ≤ GREATEST_OSC }
        requires latest { self.old.latest ≤ osc }
        ensures outcome { told result ≡ outcome r.now self.old (option_map ends_of own) osc }
        ensures kept { self.new ≡ self.old }
    {
        if self.waits(osc) {
            return Outcome::Waiting {
                unanswered: self.unanswered(),
                deadline: self.deadline,
            };
        }
        self.conclude(r, osc, own)
    }

    // Whether the round waits at an oscillator reading.
    fn waits(&self, osc: u64) -> bool
        ensures { result ≡ waits self.now osc }
    {
        osc < self.deadline && self.unanswered() > 0
    }

    // What comes of the round where it waits no more.
    fn conclude(&mut self, r: &Rates, osc: u64, own: Option<Interval>) -> Outcome
        requires osc { osc ≤ GREATEST_OSC }
        requires latest { self.old.latest ≤ osc }
        ensures outcome { told result ≡ concluded self.old.required (answers_at r.now osc self.old.queries) (option_map ends_of own) }
        ensures kept { self.new ≡ self.old }
    {
        let mut intervals = [Interval { lo: 0, hi: 0 }; MAX_INTERVALS];
        let answered = carry(r, osc, &self.queries, &mut intervals);
        if (answered as u32) < self.required {
            return Outcome::Short {
                answered: answered as u32,
                required: self.required,
            };
        }
        let n = join(own, answered, &mut intervals);
        match self.sweep.adopt(&intervals[..n]) {
            Some(interval) => Outcome::Adopted {
                n: n as u32,
                interval,
            },
            None => Outcome::Split { n: n as u32 },
        }
    }

    /// Whether the answer to the query of a peer, carried on to an oscillator reading, has no point in common with the interval
    /// that was adopted.
    pub fn false_at(&self, r: &Rates, osc: u64, peer: u32, adopted: &Interval) -> bool
        requires osc { osc ≤ GREATEST_OSC }
        requires latest { self.now.latest ≤ osc }
        requires answered { (asked : ℕ) × (got : ℕ) × (i : IntervalValue) × (state_of self.now peer ≡ Some (state.Answered asked got i)) }
        ensures { (asked got : ℕ) (i : IntervalValue) → state_of self.now peer ≡ Some (state.Answered asked got i)
            → IsTrue result ↔ AreApart (carried r.now i.lo i.hi asked got osc) (ends_of adopted.now) }
    {
        let Some(state) = self.state(peer) else {
            unreachable!()
        };
        let Some(answer) = state.answer_at(r, osc) else {
            unreachable!()
        };
        is_false(&answer, adopted)
    }

    /// A round that means the same.
    pub fn copy(&self, alloc: Global) -> Result<Round, NoMemory>
        ensures { IfOk result (λ round. round ≡ self.now) }
    {
        Ok(Round {
            number: self.number,
            opened: self.opened,
            latest: self.latest,
            deadline: self.deadline,
            required: self.required,
            queries: self.queries.to_vec(alloc)?,
            sweep: Sweep::reserve(alloc, self.queries.len() + 1)?,
        })
    }
}

// Where the query of a peer stands.
fn state_in(queries: &[Query], peer: u32) -> Option<QueryState>
    ensures { result ≡ option_map (λ q. q.state) (find (λ q. q.peer == peer) queries.now) }
{
    let query = queries.iter().find(|query| query.peer == peer);
    query.map(|query| query.state)
}

// The query of a peer stands so from now on.
fn stand(queries: &mut Vec<Query>, peer: u32, state: QueryState)
    ensures { queries.new.items ≡ map (standing peer state) queries.old.items }
{
    for query in queries.iter_mut() {
        *query = query.standing(peer, state);
    }
}

// Puts the answers to queries, carried on to an oscillator reading, at the front of a slice, and tells how many they are.
fn carry(r: &Rates, osc: u64, queries: &[Query], to: &mut [Interval]) -> usize
    requires osc { osc ≤ GREATEST_OSC }
    requires sound { All (λ q. IsSound osc q.state) queries.now }
    requires room { length queries.now ≤ length to.old }
    ensures answers { map ends_of (take result to.new) ≡ answers_at r.now osc queries.now }
    ensures count { result ≤ length queries.now }
    ensures room { length to.new ≡ length to.old }
{
    let mut n = 0;
    for query in queries {
        if let Some(interval) = query.state.answer_at(r, osc) {
            to[n] = interval;
            n += 1;
        }
    }
    n
}

// Puts an interval, where there is one, behind so many at the front of a slice, and tells how many they are then.
fn join(own: Option<Interval>, answered: usize, to: &mut [Interval]) -> usize
    requires { answered < length to.old }
    ensures intervals { map ends_of (take result to.new) ≡ with_own (map ends_of (take answered to.old)) (option_map ends_of own) }
    ensures count { result ≤ answered + 1 }
    ensures room { length to.new ≡ length to.old }
{
    match own {
        Some(interval) => {
            to[answered] = interval;
            answered + 1
        }
        None => answered,
    }
}
