ghost use Rattle.std.specs.Prelude.{◌≡◌, ℕ, ◌↔◌, ◌⊎◌, ◌≤◌, ◌≤ℤ◌, map, length, count_by, IfOk, IsTrue, MatchOption, option_map};
ghost use Rattle.intersection.specs.Adoption.{ends_of, AreApart, holds, IsAgreed, NoneIsAgreed, IsLeastAgreed, IsGreatestAgreed, IsAdopted};
ghost use Rattle.intersection.specs.Adopted.{adopted};

use dts_base::{Interval, NoMemory};
use std::alloc::Global;
use std::marker::Model;

// Whether an interval holds a point. Both ends are compared, whatever the first one says: a jump between them would cost
// more.
fn has_point(i: &Interval, p: i64) -> bool
    ensures { result ≡ holds (ends_of i.now) p }
{
    (i.lo <= p) & (p <= i.hi)
}

// How many intervals hold a point.
fn count(s: &[Interval], p: i64) -> usize
    ensures { result ≡ count_by (λ i. holds (ends_of i) p) s.now }
{
    let mut count = 0;
    for i in s {
        count += usize::from(has_point(i, p));
    }
    count
}

// Whether enough of the intervals hold a point.
fn is_agreed(s: &[Interval], p: i64) -> bool
    ensures { IsTrue result ↔ IsAgreed (map ends_of s.now) p }
{
    count(s, p) > s.len() / 2
}

// A point, or the lesser of it and one that was found before.
fn lesser(found: Option<i64>, p: i64) -> i64
    ensures { MatchOption found (result ≡ p) (λ q. (result ≤ℤ p) × (result ≤ℤ q) × ((result ≡ p) ⊎ (result ≡ q))) }
{
    found.map_or(p, |q| q.min(p))
}

// A point, or the greater of it and one that was found before.
fn greater(found: Option<i64>, p: i64) -> i64
    ensures { MatchOption found (result ≡ p) (λ q. (p ≤ℤ result) × (q ≤ℤ result) × ((result ≡ p) ⊎ (result ≡ q))) }
{
    found.map_or(p, |q| q.max(p))
}

// The least point that enough of the intervals hold: it is the low end of one of them.
fn least_agreed(s: &[Interval]) -> Option<i64>
    ensures { MatchOption result (NoneIsAgreed (map ends_of s.now)) (IsLeastAgreed (map ends_of s.now)) }
{
    let mut least = None;
    for i in s {
        if is_agreed(s, i.lo) {
            least = Some(lesser(least, i.lo));
        }
    }
    least
}

// The greatest point that enough of the intervals hold: it is the high end of one of them.
fn greatest_agreed(s: &[Interval]) -> Option<i64>
    ensures { MatchOption result (NoneIsAgreed (map ends_of s.now)) (IsGreatestAgreed (map ends_of s.now)) }
{
    let mut greatest = None;
    for i in s {
        if is_agreed(s, i.hi) {
            greatest = Some(greater(greatest, i.hi));
        }
    }
    greatest
}

/// Room to find the adopted interval of several without memory. It is seen as the number of intervals for
/// which it has room. Each point is counted in place, so that nothing but this number is kept.
#[derive(Drop)]
pub struct Sweep {
    spare: usize,
}

impl Model for Sweep {
    ghost Value = { ℕ };

    ghost view = { λ sweep. sweep.spare };
}

impl Sweep {
    /// Room for so many intervals.
    pub fn reserve(_alloc: Global, n: usize) -> Result<Sweep, NoMemory>
        ensures room { IfOk result (λ sweep. n ≤ sweep) }
    {
        Ok(Sweep { spare: n })
    }

    /// For how many intervals there is room.
    pub fn spare(&self) -> usize
        ensures { result ≡ self.now }
    {
        self.spare
    }

    /// The adopted interval: from the least to the greatest point that more than half of the intervals
    /// hold. None exactly where no point is held by so many, as of no intervals.
    pub fn adopt(&mut self, s: &[Interval]) -> Option<Interval>
        requires room { length s.now ≤ self.old }
        ensures adopted { MatchOption result (NoneIsAgreed (map ends_of s.now)) (λ i. IsAdopted (map ends_of s.now) (ends_of i)) }
        ensures value { option_map ends_of result ≡ adopted (map ends_of s.now) }
        ensures room { self.new ≡ self.old }
    {
        let lo = least_agreed(s)?;
        let hi = greatest_agreed(s)?;
        Some(Interval { lo, hi })
    }
}

/// The adopted interval: from the least to the greatest point that more than half of the intervals hold.
/// None exactly where no point is held by so many, as of no intervals.
pub fn adopt(alloc: Global, s: &[Interval]) -> Result<Option<Interval>, NoMemory>
    ensures adopted { IfOk result (λ found. MatchOption found (NoneIsAgreed (map ends_of s.now)) (λ i. IsAdopted (map ends_of s.now) (ends_of i))) }
    ensures value { IfOk result (λ found. option_map ends_of found ≡ adopted (map ends_of s.now)) }
{
    let mut sweep = Sweep::reserve(alloc, s.len())?;
    Ok(sweep.adopt(s))
}

/// Whether an interval has no point in common with the adopted one, so that it lacks true time wherever
/// fewer than half of the intervals do.
pub fn is_false(i: &Interval, adopted: &Interval) -> bool
    ensures { IsTrue result ↔ AreApart (ends_of i.now) (ends_of adopted.now) }
{
    i.hi < adopted.lo || adopted.hi < i.lo
}
