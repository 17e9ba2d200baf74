//! Values move out of slots to a task and back.

ghost use Rattle.std.specs.Prelude.{◌≡◌, ◌+◌, ◌<◌, ◌≤◌, ◌++◌, [], List, length, nat_eq, slice_set, map, Some, MatchOption};
ghost use Rattle.std.specs.Bool.{OnTrue};
ghost use Rattle.lk_queue.specs.Machines.{ArePresent};
ghost use Rattle.std.specs.List.{IsDistinct};
ghost use Rattle.std.specs.Option.{option_to_list};
ghost use Rattle.std.specs.Vec.{vec_capacity, vec_len};
ghost use Rattle.lk_task_runs.specs.Runs as runs;

use crate::work::{Share, Work};
use lk_report::List;
use std::mem;

/// Takes out what is in a slot. A slot past the last has nothing.
fn take_slot<S: Drop>(store: &mut Vec<Option<S>>, number: usize) -> Option<S>
    ensures value { result ≡ runs.slot store.old.items number }
    ensures left { store.new.items ≡ slice_set store.old.items number None }
{
    if number < store.len() {
        return mem::replace(&mut store[number], None);
    }
    None
}

/// Puts a value that there may be at the end of a list that has room for it.
fn push_some<S: Drop>(into: &mut Vec<S>, value: Option<S>)
    requires { vec_len into.old < vec_capacity into.old }
    ensures items { into.new.items ≡ into.old.items ++ option_to_list value }
    ensures len { vec_len into.new ≤ vec_len into.old + 1 }
    ensures room { vec_capacity into.old ≤ vec_capacity into.new }
{
    if let Some(value) = value {
        let _done = into.push(value);
    }
}

/// Moves out what is in slots, to the end of a list that has room for it.
pub fn take_out<S: Drop>(store: &mut Vec<Option<S>>, slots: &[u32], into: &mut Vec<S>)
    requires room { vec_len into.old + length slots.now ≤ vec_capacity into.old }
    requires once { IsDistinct nat_eq slots.now }
    ensures left { store.new.items ≡ runs.blank slots.now store.old.items }
    ensures taken { into.new.items ≡ into.old.items ++ runs.values store.old.items slots.now }
{
    for number in slots {
        let value = take_slot(store, *number as usize);
        push_some(into, value);
    }
}

/// Puts a value into a slot. A slot past the last takes none.
fn put_slot<S: Drop>(store: &mut Vec<Option<S>>, number: u32, value: S)
    ensures { store.new.items ≡ slice_set store.old.items number (Some value) }
{
    if (number as usize) < store.len() {
        store[number as usize] = Some(value);
    }
}

/// Puts values into slots, in turn. Where there are fewer values than slots, the last slots stay as they are.
pub fn put_back<S: Drop>(store: &mut Vec<Option<S>>, slots: &[u32], values: List<S>)
    ensures { store.new.items ≡ runs.put slots.now values store.old.items }
{
    let mut left = values.into_vec();
    left.reverse();
    for number in slots {
        match left.pop() {
            Some(value) => put_slot(store, *number, value),
            None => return,
        }
    }
}

/// Shares what is in a slot, at the end of a list that has room for it. False where it was not shared.
fn share_slot<W: Work>(store: &Vec<Option<W::Slot>>, number: u32, into: &mut Vec<W::Slot>) -> bool
    requires { vec_len into.old < vec_capacity into.old }
    ensures items { OnTrue result (into.new.items ≡ into.old.items ++ option_to_list (runs.slot store.now.items number)) }
    ensures len { vec_len into.new ≤ vec_len into.old + 1 }
    ensures room { vec_capacity into.old ≤ vec_capacity into.new }
{
    if (number as usize) < store.len() {
        if let Some(slot) = &store[number as usize] {
            match W::share(slot) {
                Share::Same(value) => {
                    let _done = into.push(value);
                }
                Share::Owned => return false,
                Share::NoMemory => return false,
            }
        }
    }
    true
}

/// Shares what is in slots, in an empty list that has room for it. None where a value was not shared.
pub fn share_all<W: Work>(
    store: &Vec<Option<W::Slot>>,
    slots: &[u32],
    room: Vec<W::Slot>,
) -> Option<List<W::Slot>>
    requires empty { room.items ≡ [] }
    requires room { length slots.now ≤ vec_capacity room }
    ensures { MatchOption result (Unit {0}) (λ r. r ≡ runs.values store.now.items slots.now) }
{
    let mut into = room;
    for number in slots {
        if !share_slot::<W>(store, *number, &mut into) {
            return None;
        }
    }
    Some(List::from_vec(into))
}

/// The values of slots that all have one, in an empty list that has room for them.
pub fn all_present<S: Drop>(store: Vec<Option<S>>, room: Vec<S>) -> List<S>
    requires there { ArePresent store.items }
    requires empty { room.items ≡ [] }
    requires room { length store.items ≤ vec_capacity room }
    ensures { map Some result ≡ store.items }
{
    let mut store = store;
    let mut into = room;
    for number in 0..store.len() {
        let value = take_slot(&mut store, number);
        push_some(&mut into, value);
    }
    List::from_vec(into)
}
