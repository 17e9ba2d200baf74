//! Blockers and locks, by number.

ghost use Rattle.std.specs.Prelude.{◌≡◌, ◌+◌, ◌-◌, ◌^◌, ◌<◌, ◌↔◌, IsTrue, false, length, replicate, true, IfOk};
ghost use Rattle.lk_token.specs.TokenStates.{count_of, is_locked, with_count, with_lock};

use lk_report::NoMemory;
use std::alloc::Global;
use std::marker::Model;

/// Blocker tokens with their counts, and lock tokens, each with at most one task as its holder. Contracts see it as the list of
/// the counts and the list that says which locks are locked.
#[derive(Drop)]
pub struct Tokens {
    counts: Vec<u32>,
    locked: Vec<bool>,
}

impl Model for Tokens {
    ghost use Rattle.lk_token.specs.TokenStates.{TokenState};

    ghost Value = { TokenState };

    ghost view = { λ t. record { counts = t.counts.items; locked = t.locked.items } };
}

impl Tokens {
    /// So many blockers, each with the count 0, and so many locks, each unlocked, numbered from 0.
    ///
    /// # Errors
    /// Out of memory alone.
    pub fn new(alloc: Global, blockers: u32, locks: u32) -> Result<Tokens, NoMemory>
        ensures { IfOk result (λ t. t ≡ record { counts = replicate blockers 0; locked = replicate locks false }) }
    {
        let Ok(counts) = Vec::from_elem(alloc, 0u32, blockers as usize) else {
            return Err(NoMemory);
        };
        let Ok(locked) = Vec::from_elem(alloc, false, locks as usize) else {
            return Err(NoMemory);
        };
        Ok(Tokens { counts, locked })
    }

    /// Adds 1 to the count of a blocker.
    pub fn add_blocker(&mut self, token: u32)
        requires there { token < length self.old.counts }
        requires room { count_of self.old token < 2 ^ 32 - 1 }
        ensures { self.new ≡ with_count self.old token (count_of self.old token + 1) }
    {
        self.counts[token as usize] += 1;
    }

    /// Takes 1 from the count of a blocker.
    pub fn unblock(&mut self, token: u32)
        requires there { token < length self.old.counts }
        requires counted { 0 < count_of self.old token }
        ensures { self.new ≡ with_count self.old token (count_of self.old token - 1) }
    {
        self.counts[token as usize] -= 1;
    }

    /// Whether the count of a blocker is above 0.
    pub fn is_blocked(&self, token: u32) -> bool
        requires { token < length self.now.counts }
        ensures { IsTrue result ↔ (0 < count_of self.now token) }
    {
        self.counts[token as usize] > 0
    }

    /// Locks a lock. False exactly where it is locked already.
    pub fn lock(&mut self, token: u32) -> bool
        requires { token < length self.old.locked }
        ensures free { IsTrue result ↔ (is_locked self.old token ≡ false) }
        ensures locked { self.new ≡ with_lock self.old token true }
    {
        let is_free = !self.locked[token as usize];
        self.locked[token as usize] = true;
        is_free
    }

    /// Unlocks a lock.
    pub fn unlock(&mut self, token: u32)
        requires there { token < length self.old.locked }
        requires locked { is_locked self.old token ≡ true }
        ensures { self.new ≡ with_lock self.old token false }
    {
        self.locked[token as usize] = false;
    }

    /// Whether a lock is locked.
    pub fn is_locked(&self, token: u32) -> bool
        requires { token < length self.now.locked }
        ensures { result ≡ is_locked self.now token }
    {
        self.locked[token as usize]
    }
}
