//! The table of the groups that are kept: a map from each signature that was claimed to the input that
//! claimed it first, looked up by hash. A signature is copied where it is new, and never again.

ghost use Rattle.std.specs.Prelude.{◌≡◌, [], length, take};
ghost use Rattle.lk_comdat.specs.Claims.{holder_of, ClaimGives};

use crate::claiming::Claim;
use indexmap::IndexMap;
use lk_report::{Name, NoMemory};
use std::alloc::Global;
use std::marker::Model;

/// The groups that are kept so far. Contracts see it as the list of their signatures, each with its first
/// claimer, in the order of the claims.
#[derive(Drop)]
pub struct Groups {
    alloc: Global,
    holders: IndexMap<Name, u32>,
}

impl Model for Groups {
    ghost use Rattle.std.specs.Prelude.{ℕ, List};

    ghost Value = { List (List ℕ × ℕ) };

    ghost view = { λ g. g.holders.entries };
}

impl Groups {
    /// No signature is claimed. What is claimed later is copied by this allocator.
    pub fn new(alloc: Global) -> Self
        ensures { result ≡ [] }
    {
        Groups {
            alloc,
            holders: IndexMap::new(alloc),
        }
    }

    /// Claims a signature for an input: the first claim of it is recorded, and a later one returns the input that
    /// has it.
    ///
    /// # Errors
    /// Out of memory, which only a new signature can meet. The claim is then not recorded.
    #[tactic(auto, using(crate::proofs::ClaimsFound::recorded))]
    pub fn claim(&mut self, signature: &Name, input: u32) -> Result<Claim, NoMemory>
        ensures { ClaimGives self.old signature.now input result self.new }
    {
        if let Some(holder) = self.holder(signature) {
            return Ok(Claim::Dropped(holder));
        }
        let Ok(copied) = signature.copy(self.alloc) else {
            return Err(NoMemory);
        };
        let Ok(_) = self.holders.insert(copied, input) else {
            return Err(NoMemory);
        };
        Ok(Claim::First)
    }

    /// How many signatures are claimed.
    pub fn len(&self) -> usize
        ensures { result ≡ length self.now }
    {
        self.holders.len()
    }

    /// Forgets all claims after the first ones, as many as the number says.
    pub fn forget_after(&mut self, count: usize)
        ensures { self.new ≡ take count self.old }
    {
        self.holders.truncate(count);
    }

    /// The input that claimed a signature first.
    fn holder(&self, signature: &Name) -> Option<u32>
        ensures { result ≡ holder_of self.now signature.now }
    {
        match self.holders.get(signature) {
            Some(holder) => Some(*holder),
            None => None,
        }
    }
}
