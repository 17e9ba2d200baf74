//! Whole files and parts of them, as bytes. Contracts see `Bytes` as the list of its bytes.

ghost use Rattle.std.specs.Prelude.{◌≡◌, ◌≤◌, ℕ, List, [], length, slice_range, IfOk};
ghost use Rattle.std.specs.Str.{bytes_eq};
ghost use Rattle.std.specs.Cmp.{partial_equiv_from_equiv};
ghost use Rattle.std.specs.Cmp.Lexicographic.{nat_list_eq_equiv};

use crate::memory::{NoMemory, TryCopy};
use crate::names::Name;
use bytes::Bytes as Shared;
use std::alloc::Global;
use std::marker::Model;

/// The bytes of a file, or of a part of one. Any bytes are `Bytes`.
#[derive(Drop, Debug)]
pub struct Bytes {
    bytes: Shared,
}

impl Model for Bytes {
    ghost Value = { List ℕ };

    ghost view = { λ b. b.bytes };
}

impl Bytes {
    /// The value of no bytes. Takes no memory.
    pub fn empty() -> Self
        ensures { result ≡ [] }
    {
        Bytes {
            bytes: Shared::new(),
        }
    }

    /// The value of these bytes, which are not copied.
    pub fn from_vec(bytes: Vec<u8>) -> Result<Self, NoMemory>
        ensures { IfOk result (λ b. b ≡ bytes.items) }
    {
        match Shared::from_vec(bytes) {
            Ok(bytes) => Ok(Bytes { bytes }),
            Err(_) => Err(NoMemory),
        }
    }

    /// The value of a copy of these bytes.
    pub fn from_slice(alloc: Global, bytes: &[u8]) -> Result<Self, NoMemory>
        ensures { IfOk result (λ b. b ≡ bytes.now) }
    {
        match Shared::copy_from_slice(alloc, bytes) {
            Ok(bytes) => Ok(Bytes { bytes }),
            Err(_) => Err(NoMemory),
        }
    }

    /// The bytes.
    pub fn as_slice(&self) -> &[u8]
        ensures { result.now ≡ self.now }
    {
        self.bytes.as_slice()
    }

    /// An equal value, which shares its bytes with this one: none is copied.
    pub fn copy(&self, _alloc: Global) -> Result<Self, NoMemory>
        ensures { IfOk result (λ b. b ≡ self.now) }
    {
        match self.bytes.clone() {
            Ok(bytes) => Ok(Bytes { bytes }),
            Err(_) => Err(NoMemory),
        }
    }

    /// The bytes from `start` to before `end` as a name, which shares them: none is copied.
    pub fn name(&self, start: usize, end: usize) -> Result<Name, NoMemory>
        requires order { start ≤ end }
        requires inside { end ≤ length self.now }
        ensures { IfOk result (λ n. n ≡ slice_range self.now start end) }
    {
        match self.bytes.slice(start..end) {
            Ok(bytes) => Ok(Name { bytes }),
            Err(_) => Err(NoMemory),
        }
    }
}

impl TryCopy for Bytes {
    fn try_copy(&self, alloc: Global) -> Result<Self, NoMemory> {
        self.copy(alloc)
    }
}

impl PartialEq for Bytes {
    ghost eq = { bytes_eq };

    ghost laws = { partial_equiv_from_equiv nat_list_eq_equiv };

    fn eq(&self, other: &Self) -> bool {
        self.as_slice() == other.as_slice()
    }
}

impl Eq for Bytes {
    ghost laws = { nat_list_eq_equiv };
}
