//! The octets of a stream that were fed and not yet given.

ghost use Rattle.std.specs.Prelude.{◌≡◌, ◌≤◌, ◌++◌, [], length, drop, if◌then◌else◌, is_ok, IfOk};

use dts_base::NoMemory;
use pdu_fields::MAX_FRAGMENT;
use std::alloc::Global;
use std::marker::Model;

/// Octets of which the first ones are given up. Clauses see those that are not. At most twice as many are kept as clauses
/// see. Less is moved to the front than was given up since the last time, so that all that is moved is less than the stream.
#[derive(Debug, Drop)]
pub struct Held {
    octets: Vec<u8>,
    given: usize,
}

impl Model for Held {
    ghost use Rattle.std.specs.Prelude.{ℕ, ◌+◌, ◌≤◌, List, length, drop};

    ghost Value = { List ℕ };

    ghost view = { λ h. drop h.given h.octets.items };

    ghost invariant = { λ h. h.given + h.given ≤ length h.octets.items };
}

impl Held {
    /// No octets.
    pub fn new(alloc: Global) -> Held
        ensures { result ≡ [] }
    {
        Held {
            octets: Vec::new(alloc),
            given: 0,
        }
    }

    /// Lends the octets.
    pub fn as_slice(&self) -> &[u8]
        ensures { result.now ≡ self.now }
    {
        &self.octets[self.given..]
    }

    /// Appends octets. Without memory all stays as it is.
    pub fn append(&mut self, piece: &[u8]) -> Result<(), NoMemory>
        ensures { self.new ≡ (if is_ok result then self.old ++ piece.now else self.old) }
    {
        self.octets.extend_from_slice(piece)?;
        Ok(())
    }

    /// Gives so many octets up. Memory of more than a fragment that is of no use is given back.
    pub fn give_up(&mut self, count: usize)
        requires { count ≤ length self.old }
        ensures { self.new ≡ drop count self.old }
    {
        self.given += count;
        let left = self.octets.len() - self.given;
        if self.given > left {
            self.octets.copy_within(self.given.., 0);
            self.octets.truncate(left);
            self.octets.shrink_to(MAX_FRAGMENT);
            self.given = 0;
        }
    }

    /// A copy of the octets.
    pub fn copy(&self, alloc: Global) -> Result<Held, NoMemory>
        ensures { IfOk result (λ h. h ≡ self.now) }
    {
        Ok(Held {
            octets: self.as_slice().to_vec(alloc)?,
            given: 0,
        })
    }
}
