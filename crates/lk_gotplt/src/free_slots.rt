//! The free slots, of which the lowest is taken first.

ghost use Rattle.std.specs.Prelude.{◌≡◌, ◌+◌, ◌<◌, ◌≤◌, [], ◌∷◌, ◌++◌, ℕ, length, List, IfOk, IfSome, MatchOption, Option};
ghost use Rattle.lk_model.specs.declared.layouts.GotKey.{GotKey};
ghost use Rattle.std.specs.BinaryHeap.{heap_capacity, heap_items, heap_len};
ghost use Rattle.lk_gotplt.specs.FreeSlots.{AreFree, IsQueue, count_of, one_at};

use lk_model::layouts::GotKey;
use lk_report::NoMemory;
use std::alloc::Global;
use std::cmp::Reverse;
use std::collections::BinaryHeap;

/// The numbers of free slots; the lowest one comes out first.
pub(crate) type FreeSlots = BinaryHeap<Reverse<usize>>;

/// Takes the lowest free slot out, where there is one.
pub(crate) fn take_lowest(free: &mut FreeSlots) -> Option<usize>
    requires { IsQueue (heap_items free.old) }
    ensures queue { IsQueue (heap_items free.new) }
    ensures lowest { IfSome result (λ slot. (n : ℕ) → n < slot → count_of n (heap_items free.old) ≡ 0) }
    ensures taken { IfSome result (λ slot. (n : ℕ) → count_of n (heap_items free.old) ≡ one_at slot n + count_of n (heap_items free.new)) }
    ensures count { MatchOption result ((heap_len free.old ≡ 0) × (heap_items free.new ≡ heap_items free.old)) (λ slot. heap_len free.old ≡ heap_len free.new + 1) }
    ensures capacity { heap_capacity free.new ≡ heap_capacity free.old }
{
    match free.pop() {
        Some(Reverse(slot)) => Some(slot),
        None => None,
    }
}

/// Puts the number of a slot that has become free in. It takes no memory.
pub(crate) fn put_free(free: &mut FreeSlots, slot: usize)
    requires queue { IsQueue (heap_items free.old) }
    requires room { heap_len free.old < heap_capacity free.old }
    ensures queue { IsQueue (heap_items free.new) }
    ensures put { (n : ℕ) → count_of n (heap_items free.new) ≡ one_at slot n + count_of n (heap_items free.old) }
    ensures count { heap_len free.new ≡ heap_len free.old + 1 }
    ensures capacity { heap_capacity free.old ≤ heap_capacity free.new }
{
    let _done = free.push(Reverse(slot));
}

/// Puts the number of the slot behind these in, where that slot is free.
fn put_if_free(free: &mut FreeSlots, number: usize, slot: Option<GotKey>)
    requires queue { IsQueue (heap_items free.old) }
    requires room { heap_len free.old < heap_capacity free.old }
    ensures queue { IsQueue (heap_items free.new) }
    ensures put { (slots : List (Option GotKey)) → number ≡ length slots → AreFree (heap_items free.old) slots → AreFree (heap_items free.new) (slots ++ slot ∷ []) }
    ensures capacity { heap_capacity free.old ≤ heap_capacity free.new }
{
    if slot.is_none() {
        put_free(free, number);
    }
}

/// The free slots among these, with room for the number of each.
pub(crate) fn free_among(alloc: Global, slots: &[Option<GotKey>]) -> Result<FreeSlots, NoMemory>
    ensures queue { IfOk result (λ free. IsQueue (heap_items free)) }
    ensures free { IfOk result (λ free. AreFree (heap_items free) slots.now) }
    ensures room { IfOk result (λ free. length slots.now ≤ heap_capacity free) }
{
    let Ok(mut free) = BinaryHeap::with_capacity(alloc, slots.len()) else {
        return Err(NoMemory);
    };
    for number in 0..slots.len() {
        put_if_free(&mut free, number, slots[number]);
    }
    Ok(free)
}
