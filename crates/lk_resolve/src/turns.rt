//! Whose turn it is: the places of the members that are to be asked, going round them in order.

ghost use Rattle.std.specs.Prelude.{◌≡◌, ◌+◌, ◌||◌, ℕ, true, false, nat_eq, not, ◌&&◌, IsTrue, IfOk, IfSome, IfNone, OnOk, OnErr};
ghost use Rattle.std.specs.BTreeSet.{btree_set_len, contains};
ghost use Rattle.std.specs.Ordering.{nat_cmp};
ghost use Rattle.lk_resolve.specs.Turns.{is_due, is_passed};

use lk_report::NoMemory;
use std::alloc::Global;
use std::collections::BTreeSet;

/// The places that are to be asked, and the one that was asked last.
#[derive(Drop)]
pub struct Turns {
    due: BTreeSet<usize>,
    place: usize,
}

impl Turns {
    /// No place is to be asked.
    pub fn new(alloc: Global) -> Turns
        ensures { result.place ≡ 0 }
    {
        Turns {
            due: BTreeSet::new(alloc),
            place: 0,
        }
    }

    /// Gives a place its turn, in this round where it is not passed yet, else in the next.
    pub fn give(&mut self, place: usize) -> Result<(), NoMemory>
        ensures given { OnOk result ((i : ℕ) → is_due self.new i ≡ (nat_eq i place || is_due self.old i)) }
        ensures place { self.new.place ≡ self.old.place }
    {
        match self.due.insert(place) {
            Ok(_) => Ok(()),
            Err(_) => Err(NoMemory),
        }
    }

    /// The next place that is to be asked, which then is not.
    pub fn take(&mut self) -> Option<usize>
        ensures none { IfNone result ((i : ℕ) → is_due self.old i ≡ false) }
        ensures passed { IfSome result (λ k. (i : ℕ) → is_passed self.old.place k i ≡ true → is_due self.old i ≡ false) }
        ensures taken { IfSome result (λ k. (i : ℕ) → is_due self.new i ≡ (not (nat_eq i k) && is_due self.old i)) }
        ensures place { IfSome result (λ k. self.new.place ≡ k) }
        ensures fewer { IfSome result (λ k. btree_set_len self.new.due + 1 ≡ btree_set_len self.old.due) }
    {
        let place = self.next()?;
        self.due.remove(&place);
        self.place = place;
        Some(place)
    }

    /// The next place that is to be asked: from the last one on, else from the first.
    fn next(&self) -> Option<usize>
        ensures none { IfNone result ((i : ℕ) → is_due self.now i ≡ false) }
        ensures due { IfSome result (λ k. is_due self.now k ≡ true) }
        ensures passed { IfSome result (λ k. (i : ℕ) → is_passed self.now.place k i ≡ true → is_due self.now i ≡ false) }
    {
        if let Some(place) = self.due.range(self.place..).next() {
            return Some(*place);
        }
        match self.due.first() {
            Some(place) => Some(*place),
            None => None,
        }
    }
}
