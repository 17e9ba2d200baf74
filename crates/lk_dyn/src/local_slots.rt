//! The values of the GOT slots of LOCAL symbols, looked up by hash (psABI x86-64 "Global Offset Table").

ghost use Rattle.std.specs.Prelude.{◌≡◌, cond, Some, IfOk, OnOk};
ghost use Rattle.lk_dyn.specs.LocalSlots.{FindsValues, has_key, key_of, local_key, or_zero, same_key, value_of};
ghost use Rattle.lk_dyn.specs.declared.local_slots.LocalKey.{LocalKey};

use indexmap::IndexMap;
use lk_model::layouts::{GotKey, GotOwner};
use lk_report::{List, NoMemory};
use std::alloc::Global;

/// A GOT slot of a LOCAL symbol, and what it holds (psABI x86-64 "Global Offset Table").
#[derive(Clone, Copy, PartialEq, Eq, Debug)]
pub struct LocalSlot {
    pub key: GotKey,
    /// The symbol's value, or its offset from the end of the thread-local block.
    pub value: u64,
}

/// Slots in any order.
pub type LocalSlotList = List<LocalSlot>;

/// A slot of a LOCAL symbol of an input, as a key of a table.
#[derive(Clone, Copy, PartialEq, Eq, Hash, Debug)]
pub(crate) enum LocalKey {
    /// A slot that holds a value.
    Value { input: u32, symbol: u32 },
    /// A slot that holds a thread offset.
    Thread { input: u32, symbol: u32 },
}

/// The values of slots of LOCAL symbols.
pub(crate) type LocalValues = IndexMap<LocalKey, u64>;

/// The key of a slot of a LOCAL symbol.
pub(crate) fn local_key(thread: bool, input: u32, symbol: u32) -> LocalKey
    ensures { result ≡ local_key thread input symbol }
{
    if thread {
        LocalKey::Thread { input, symbol }
    } else {
        LocalKey::Value { input, symbol }
    }
}

/// The key of a slot; that of a name has none.
fn key_of(key: GotKey) -> Option<LocalKey>
    ensures { result ≡ key_of key }
{
    match key.owner {
        GotOwner::Global(_) => None,
        GotOwner::Local { input, symbol } => Some(local_key(key.thread, input, symbol)),
    }
}

/// Notes the value of a slot, in place of what was noted before of it.
fn note_value(values: &mut LocalValues, key: LocalKey, value: u64) -> Result<(), NoMemory>
    ensures { OnOk result ((k : LocalKey) → value_of values.new.entries k ≡ cond (same_key key k) (Some value) (value_of values.old.entries k)) }
{
    match values.insert(key, value) {
        Ok(_) => Ok(()),
        Err(_) => Err(NoMemory),
    }
}

/// Notes the value in a row, where it is one of a LOCAL symbol.
fn note_row(values: &mut LocalValues, row: LocalSlot) -> Result<(), NoMemory>
    ensures { OnOk result ((k : LocalKey) → value_of values.new.entries k ≡ cond (has_key (key_of row.key) k) (Some row.value) (value_of values.old.entries k)) }
{
    match key_of(row.key) {
        None => Ok(()),
        Some(key) => note_value(values, key, row.value),
    }
}

/// The values in these rows; of a slot that has several rows that in the first.
pub(crate) fn local_values(alloc: Global, rows: &[LocalSlot]) -> Result<LocalValues, NoMemory>
    ensures { IfOk result (λ values. FindsValues values.entries rows.now) }
{
    let mut values = IndexMap::new(alloc);
    for number in (0..rows.len()).rev() {
        note_row(&mut values, rows[number])?;
    }
    Ok(values)
}

/// The value of a slot; 0 without one.
pub(crate) fn local_value(values: &LocalValues, key: LocalKey) -> u64
    ensures { result ≡ or_zero (value_of values.now.entries key) }
{
    match values.get(&key) {
        None => 0,
        Some(value) => *value,
    }
}
