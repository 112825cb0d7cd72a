ghost use Rattle.std.specs.Prelude.{◌≡◌, IfOk, bytes_eq};
ghost use Rattle.std.specs.Cmp.{partial_equiv_from_equiv};
ghost use Rattle.std.specs.Cmp.Lexicographic.{nat_list_eq_equiv};

use crate::NoMemory;
use std::alloc::Global;
use std::marker::Model;

/// Octets of a fixed number, in memory of their own. Clauses see the list of octets.
#[derive(Debug, Drop)]
pub struct Bytes {
    octets: Vec<u8>,
}

impl Model for Bytes {
    ghost use Rattle.std.specs.Prelude.{List, ℕ};

    ghost Value = { List ℕ };

    ghost view = { λ b. b.octets.items };
}

impl Bytes {
    /// A copy of these octets.
    pub fn from_slice(alloc: Global, b: &[u8]) -> Result<Bytes, NoMemory>
        ensures octets { IfOk result (λ bytes. bytes ≡ b.now) }
    {
        Ok(Bytes {
            octets: b.to_vec(alloc)?,
        })
    }

    /// These octets, in the memory that they have.
    pub fn from_vec(octets: Vec<u8>) -> Bytes
        ensures octets { result ≡ octets.items }
    {
        Bytes { octets }
    }

    /// Gives the octets up, in the memory that they have.
    pub fn into_vec(self) -> Vec<u8>
        ensures octets { result.items ≡ self }
    {
        self.octets
    }

    /// Lends the octets.
    pub fn as_slice(&self) -> &[u8]
        ensures octets { result.now ≡ self.now }
    {
        self.octets.as_slice()
    }
}

impl PartialEq for Bytes {
    ghost eq = { bytes_eq };

    ghost laws = { partial_equiv_from_equiv nat_list_eq_equiv };

    fn eq(&self, other: &Self) -> bool {
        self.as_slice() == other.as_slice()
    }
}

impl Eq for Bytes {
    ghost laws = { nat_list_eq_equiv };
}

/// Octets of a text, in memory of their own. Clauses see the list of octets.
#[derive(Debug, Drop)]
pub struct Text {
    octets: Bytes,
}

impl Model for Text {
    ghost use Rattle.std.specs.Prelude.{List, ℕ};

    ghost Value = { List ℕ };

    ghost view = { λ t. t.octets };
}

impl Text {
    /// A copy of these octets.
    pub fn from_slice(alloc: Global, b: &[u8]) -> Result<Text, NoMemory>
        ensures octets { IfOk result (λ text. text ≡ b.now) }
    {
        Ok(Text {
            octets: Bytes::from_slice(alloc, b)?,
        })
    }

    /// These octets, in the memory that they have.
    pub fn from_vec(octets: Vec<u8>) -> Text
        ensures octets { result ≡ octets.items }
    {
        Text {
            octets: Bytes::from_vec(octets),
        }
    }

    /// Gives the octets up, in the memory that they have.
    pub fn into_vec(self) -> Vec<u8>
        ensures octets { result.items ≡ self }
    {
        self.octets.into_vec()
    }

    /// Lends the octets.
    pub fn as_slice(&self) -> &[u8]
        ensures octets { result.now ≡ self.now }
    {
        self.octets.as_slice()
    }
}

impl PartialEq for Text {
    ghost eq = { bytes_eq };

    ghost laws = { partial_equiv_from_equiv nat_list_eq_equiv };

    fn eq(&self, other: &Self) -> bool {
        self.as_slice() == other.as_slice()
    }
}

impl Eq for Text {
    ghost laws = { nat_list_eq_equiv };
}
