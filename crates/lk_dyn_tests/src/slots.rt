//! A slot that is given up and taken again by another key, and an entry that is given up in the middle.

use lk_gotplt::Slots;
use lk_model::layouts::{GotKey, GotOwner, GotSlotList, SlotTable};
use lk_model::summaries::NumberList;
use lk_report::NoMemory;
use std::alloc::Global;

/// The key of a name's value.
fn key(name: u32) -> GotKey {
    GotKey {
        owner: GotOwner::Global(name),
        thread: false,
    }
}

/// Three slots, and entries of the names 4, 5 and 6.
fn three_of_each(alloc: Global) -> Result<SlotTable, NoMemory> {
    let mut got = GotSlotList::new(alloc);
    let mut plt = NumberList::new(alloc);
    for name in [4, 5, 6].as_slice() {
        got.push(Some(key(*name)))?;
        plt.push(*name)?;
    }
    Ok(SlotTable { got, plt })
}

/// Gives up a slot of a table, where it has it, and gives a key one; the number of that, and the table then.
fn given_again(
    alloc: Global,
    table: &SlotTable,
    slot: u32,
    key: GotKey,
) -> Result<(u32, SlotTable), NoMemory> {
    let mut slots = Slots::of(alloc, table)?;
    slots.reserve(1)?;
    let count = table.got.as_slice().len();
    let mut number = 0;
    if (slot as usize) < count && count < 100 {
        slots.release_got(slot);
        number = slots.add_got(key);
    }
    Ok((number, slots.table()?))
}

#[test]
fn a_slot_is_taken_again(rt: HostRuntime) -> Result<(), NoMemory> {
    let table = three_of_each(rt.alloc())?;
    let (number, after) = given_again(rt.alloc(), &table, 1, key(9))?;
    assert_eq!(rt; number, 1);
    assert_eq!(rt;
        after.got.as_slice(),
        [Some(key(4)), Some(key(9)), Some(key(6))].as_slice()
    );
    assert!(rt; after.plt.as_slice() == table.plt.as_slice());
    Ok(())
}

/// Gives up an entry of a table, where it has it; the name that moves, and the table then.
fn entry_given_up(
    alloc: Global,
    table: &SlotTable,
    number: u32,
) -> Result<(Option<u32>, SlotTable), NoMemory> {
    let mut slots = Slots::of(alloc, table)?;
    let mut moved = None;
    if (number as usize) < table.plt.as_slice().len() {
        moved = slots.release_plt(number);
    }
    Ok((moved, slots.table()?))
}

#[test]
fn the_last_entry_moves(rt: HostRuntime) -> Result<(), NoMemory> {
    let table = three_of_each(rt.alloc())?;
    let (moved, after) = entry_given_up(rt.alloc(), &table, 0)?;
    assert_eq!(rt; moved, Some(6));
    assert_eq!(rt; after.plt.as_slice(), [6, 5].as_slice());
    Ok(())
}

#[test]
fn no_entry_moves_for_the_last(rt: HostRuntime) -> Result<(), NoMemory> {
    let table = three_of_each(rt.alloc())?;
    let (moved, after) = entry_given_up(rt.alloc(), &table, 2)?;
    assert_eq!(rt; moved, None);
    assert_eq!(rt; after.plt.as_slice(), [4, 5].as_slice());
    Ok(())
}
