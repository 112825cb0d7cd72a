//! The octets that are gathered of a call.

ghost use Rattle.std.specs.Prelude.{◌≡◌, ◌≤◌, ◌+◌, [], ◌++◌, length, if◌then◌else◌, is_ok, IfOk};
ghost use Rattle.rpc_session.specs.declared.fragments.TheConstants.{MAX_STUB};

use dts_base::{Bytes, NoMemory};
use std::alloc::Global;
use std::marker::Model;

/// The octets of the fragments that came of a call, one behind the other. Clauses see the list.
#[derive(Debug, Drop)]
pub struct Gathered {
    octets: Vec<u8>,
}

impl Model for Gathered {
    ghost use Rattle.std.specs.Prelude.{List, ℕ, length, ◌≤◌};
    ghost use Rattle.rpc_session.specs.declared.fragments.TheConstants.{MAX_STUB};

    ghost Value = { List ℕ };

    ghost view = { λ g. g.octets.items };

    ghost invariant = { λ g. length g.octets.items ≤ MAX_STUB };
}

impl Gathered {
    /// No octets.
    pub fn new(alloc: Global) -> Gathered
        ensures { result ≡ [] }
    {
        Gathered {
            octets: Vec::new(alloc),
        }
    }

    /// How many octets there are.
    pub fn len(&self) -> usize
        ensures length { result ≡ length self.now }
        ensures limit { result ≤ MAX_STUB }
    {
        self.octets.len()
    }

    /// Appends octets. Without memory all stays as it is.
    pub fn append(&mut self, piece: &[u8]) -> Result<(), NoMemory>
        requires { length self.old + length piece.now ≤ MAX_STUB }
        ensures { self.new ≡ (if is_ok result then self.old ++ piece.now else self.old) }
    {
        self.octets.extend_from_slice(piece)?;
        Ok(())
    }

    /// These octets and those of a last fragment.
    pub fn joined(&self, alloc: Global, piece: &[u8]) -> Result<Bytes, NoMemory>
        ensures { IfOk result (λ b. b ≡ self.now ++ piece.now) }
    {
        let mut octets = self.octets.as_slice().to_vec(alloc)?;
        octets.extend_from_slice(piece)?;
        Ok(Bytes::from_vec(octets))
    }

    /// Drops the octets, and gives their memory back.
    pub fn clear(&mut self, alloc: Global)
        ensures { self.new ≡ [] }
    {
        self.octets = Vec::new(alloc);
    }

    /// A copy of the octets.
    pub fn copy(&self, alloc: Global) -> Result<Gathered, NoMemory>
        ensures { IfOk result (λ g. g ≡ self.now) }
    {
        Ok(Gathered {
            octets: self.octets.as_slice().to_vec(alloc)?,
        })
    }
}
