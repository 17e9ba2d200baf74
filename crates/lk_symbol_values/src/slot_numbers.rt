//! The numbers of GOT slots and of PLT entries, looked up by hash.

ghost use Rattle.std.specs.Prelude.{◌≡◌, ◌==◌, ℕ, cond, Some, IfOk, OnOk};
ghost use Rattle.lk_model.specs.Keys.{same_truth};
ghost use Rattle.lk_symbol_values.specs.SlotNumbers.{entry_of, is_slot_with, key_of, number_of, same_key, FindsEntries, FindsSlots};
ghost use Rattle.lk_symbol_values.specs.declared.slot_numbers.OwnerKey.{OwnerKey};

use indexmap::IndexMap;
use lk_model::layouts::{GotKey, GotOwner};
use lk_report::NoMemory;
use std::alloc::Global;

/// Whose value or thread offset a GOT slot holds, as a key of a table.
#[derive(Clone, Copy, PartialEq, Eq, Hash, Debug)]
pub(crate) enum OwnerKey {
    /// A name.
    Name { name: u32 },
    /// A LOCAL symbol of an input.
    Local { input: u32, symbol: u32 },
}

/// The numbers of GOT slots, from 0, by their owners.
pub(crate) type SlotNumbers = IndexMap<OwnerKey, usize>;

/// The numbers of the PLT entries of names, from 0.
pub(crate) type EntryNumbers = IndexMap<u32, usize>;

/// The key of an owner.
fn key_of(owner: GotOwner) -> OwnerKey
    ensures { result ≡ key_of owner }
{
    match owner {
        GotOwner::Global(name) => OwnerKey::Name { name },
        GotOwner::Local { input, symbol } => OwnerKey::Local { input, symbol },
    }
}

/// Whether both hold or neither.
fn same_truth(a: bool, b: bool) -> bool
    ensures { result ≡ same_truth a b }
{
    if a { b } else { !b }
}

/// Notes the number of the slot of an owner, in place of what was noted before of it.
fn note_owner(numbers: &mut SlotNumbers, owner: OwnerKey, number: usize) -> Result<(), NoMemory>
    ensures { OnOk result ((k : OwnerKey) → number_of numbers.new.entries k ≡ cond (same_key owner k) (Some number) (number_of numbers.old.entries k)) }
{
    match numbers.insert(owner, number) {
        Ok(_) => Ok(()),
        Err(_) => Err(NoMemory),
    }
}

/// Notes the number of a slot that holds a thread offset, or one that does not, in place of what was noted before of
/// its owner.
fn note_slot(
    numbers: &mut SlotNumbers,
    thread: bool,
    slot: Option<GotKey>,
    number: usize,
) -> Result<(), NoMemory>
    ensures { OnOk result ((k : OwnerKey) → number_of numbers.new.entries k ≡ cond (is_slot_with thread k slot) (Some number) (number_of numbers.old.entries k)) }
{
    let Some(key) = slot else {
        return Ok(());
    };
    if same_truth(key.thread, thread) {
        note_owner(numbers, key_of(key.owner), number)?;
    }
    Ok(())
}

/// The numbers of those of these slots that hold thread offsets, or of the others; of an owner that has
/// several slots that of the first.
pub(crate) fn slot_numbers(
    alloc: Global,
    thread: bool,
    slots: &[Option<GotKey>],
) -> Result<SlotNumbers, NoMemory>
    ensures { IfOk result (λ numbers. FindsSlots thread numbers.entries slots.now) }
{
    let mut numbers = IndexMap::new(alloc);
    for number in (0..slots.len()).rev() {
        note_slot(&mut numbers, thread, slots[number], number)?;
    }
    Ok(numbers)
}

/// The number of the slot of an owner.
pub(crate) fn number_of(numbers: &SlotNumbers, owner: GotOwner) -> Option<usize>
    ensures { result ≡ number_of numbers.now.entries (key_of owner) }
{
    numbers.get(&key_of(owner)).copied()
}

/// Notes the number of the PLT entry of a name, in place of what was noted before of it.
fn note_entry(numbers: &mut EntryNumbers, name: u32, number: usize) -> Result<(), NoMemory>
    ensures { OnOk result ((n : ℕ) → entry_of numbers.new.entries n ≡ cond (name == n) (Some number) (entry_of numbers.old.entries n)) }
{
    match numbers.insert(name, number) {
        Ok(_) => Ok(()),
        Err(_) => Err(NoMemory),
    }
}

/// The numbers of the PLT entries of these names; of a name that has several entries that of the first.
pub(crate) fn entry_numbers(alloc: Global, names: &[u32]) -> Result<EntryNumbers, NoMemory>
    ensures { IfOk result (λ numbers. FindsEntries numbers.entries names.now) }
{
    let mut numbers = IndexMap::new(alloc);
    for number in (0..names.len()).rev() {
        note_entry(&mut numbers, names[number], number)?;
    }
    Ok(numbers)
}

/// The number of the PLT entry of a name.
pub(crate) fn entry_of(numbers: &EntryNumbers, name: u32) -> Option<usize>
    ensures { result ≡ entry_of numbers.now.entries name }
{
    numbers.get(&name).copied()
}
