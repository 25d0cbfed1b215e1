//! Bytes.
ghost use Rattle.std.specs.Prelude.{◌≡◌, ◌==◌, length, IfOk};
ghost use Rattle.spiffe_doc.specs.Key.{AreBytes};

use crate::Memory;
use std::marker::Model;

/// Bytes, which contracts see as a list. Equal as lists.
#[derive(Drop)]
pub struct Octets {
    bytes: Vec<u8>,
}

impl Model for Octets {
    ghost use Rattle.std.specs.Prelude.{List, ℕ};
    ghost use Rattle.spiffe_doc.specs.Key.{AreBytes};

    ghost Value = { List ℕ };

    ghost view = { λ octets. octets.bytes.items };

    ghost invariant = { λ octets. AreBytes octets.bytes.items };
}

impl Octets {
    /// These bytes.
    pub fn new(bytes: Vec<u8>) -> Octets
        ensures { result ≡ bytes.items }
    {
        Octets { bytes }
    }

    /// The bytes.
    pub fn as_slice(&self) -> &[u8]
        ensures { result.now ≡ self.now }
    {
        self.bytes.as_slice()
    }

    /// How many there are.
    pub fn len(&self) -> usize
        ensures { result ≡ length self.now }
    {
        self.bytes.len()
    }

    // Only for the prover: recalls that each is a byte.
    pub(crate) fn recall_valid(&self)
        ensures { AreBytes self.now }
    {
        let _bytes = &self.bytes;
    }

    /// Whether there are no bytes.
    pub fn is_empty(&self) -> bool
        ensures { result ≡ (length self.now == 0) }
    {
        self.bytes.is_empty()
    }

    /// The same bytes, in memory of their own.
    pub fn copy(&self) -> Result<Octets, Memory>
        ensures { IfOk result (λ copy. copy ≡ self.now) }
    {
        Ok(Octets {
            bytes: self.bytes.clone()?,
        })
    }
}

impl PartialEq for Octets {
    ghost use Rattle.std.specs.Prelude.{bytes_eq};
    ghost use Rattle.std.specs.Cmp.{partial_equiv_from_equiv};
    ghost use Rattle.std.specs.Cmp.Lexicographic.{nat_list_eq_equiv};

    ghost eq = { bytes_eq };

    ghost laws = { partial_equiv_from_equiv nat_list_eq_equiv };

    fn eq(&self, other: &Octets) -> bool {
        self.as_slice() == other.as_slice()
    }
}
