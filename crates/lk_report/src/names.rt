//! Texts as bytes: paths, symbol names, section names, and whole files. Contracts see both types as
//! the list of their bytes, so two of them are equal exactly where their bytes are.

ghost use Rattle.std.specs.Prelude.{◌≡◌, ℕ, List, [], IfOk};
ghost use Rattle.std.specs.Str.{bytes_eq};
ghost use Rattle.std.specs.Cmp.{partial_equiv_from_equiv};
ghost use Rattle.std.specs.Cmp.Lexicographic.{nat_list_eq_equiv};
ghost use Rattle.std.specs.Cmp.Rules.{hashing};
ghost use Rattle.std.specs.Hash as fed;
ghost use Rattle.std.proofs.Common.{rules};

use crate::memory::{NoMemory, TryCopy};
use bytes::Bytes as Shared;
use std::alloc::Global;
use std::hash::{Hash, Hasher};
use std::marker::Model;

/// A name or a path: bytes without a closing zero. Any bytes are a `Name`; whether they are a good
/// path or symbol is checked where they are used.
#[derive(Drop, Debug)]
pub struct Name {
    pub(crate) bytes: Shared,
}

impl Model for Name {
    ghost Value = { List ℕ };

    ghost view = { λ n. n.bytes };
}

impl Name {
    /// The name of no bytes. Takes no memory.
    pub fn empty() -> Self
        ensures { result ≡ [] }
    {
        Name {
            bytes: Shared::new(),
        }
    }

    /// The name of bytes that are there for good. Takes no memory.
    pub fn from_static(bytes: &'static [u8]) -> Self
        ensures { result ≡ bytes.now }
    {
        Name {
            bytes: Shared::from_static(bytes),
        }
    }

    /// The name of these bytes, which are not copied.
    pub fn from_vec(bytes: Vec<u8>) -> Result<Self, NoMemory>
        ensures { IfOk result (λ n. n ≡ bytes.items) }
    {
        match Shared::from_vec(bytes) {
            Ok(bytes) => Ok(Name { bytes }),
            Err(_) => Err(NoMemory),
        }
    }

    /// The name of a copy of these bytes.
    pub fn from_slice(alloc: Global, bytes: &[u8]) -> Result<Self, NoMemory>
        ensures { IfOk result (λ n. n ≡ bytes.now) }
    {
        match Shared::copy_from_slice(alloc, bytes) {
            Ok(bytes) => Ok(Name { bytes }),
            Err(_) => Err(NoMemory),
        }
    }

    /// The bytes.
    pub fn as_slice(&self) -> &[u8]
        ensures { result.now ≡ self.now }
    {
        self.bytes.as_slice()
    }

    /// An equal name, which shares its bytes with this one: none is copied.
    pub fn copy(&self, _alloc: Global) -> Result<Self, NoMemory>
        ensures { IfOk result (λ n. n ≡ self.now) }
    {
        match self.bytes.clone() {
            Ok(bytes) => Ok(Name { bytes }),
            Err(_) => Err(NoMemory),
        }
    }
}

impl TryCopy for Name {
    fn try_copy(&self, alloc: Global) -> Result<Self, NoMemory> {
        self.copy(alloc)
    }
}

impl PartialEq for Name {
    ghost eq = { bytes_eq };

    ghost laws = { partial_equiv_from_equiv nat_list_eq_equiv };

    fn eq(&self, other: &Self) -> bool {
        self.as_slice() == other.as_slice()
    }
}

impl Eq for Name {
    ghost laws = { nat_list_eq_equiv };
}

impl Hash for Name {
    ghost hash_input = { fed.slice fed.u8 };

    ghost respects_eq = { Prim.search (hashing, rules) };

    fn hash<H: Hasher>(&self, state: &mut H) {
        self.bytes.as_slice().hash(state);
    }
}
