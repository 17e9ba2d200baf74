//! The slot table of a link while it is made or kept up to date.

ghost use Rattle.std.specs.Prelude.{◌≡◌, ◌+◌, ◌-◌, ◌^◌, ◌<◌, ◌≤◌, [], ◌∷◌, ◌++◌, length, IfOk, IsOk, OnErr, OnOk};
ghost use Rattle.lk_gotplt.specs.SlotsGiven.{lowest_free, moved_entry, with_entry, with_slot, without_entry, without_slot};

use crate::free_slots::{FreeSlots, free_among, put_free, take_lowest};
use crate::room::reserve_each;
use lk_model::layouts::{GotKey, SlotTable};
use lk_report::{List, NoMemory};
use std::alloc::Global;
use std::collections::BinaryHeap;
use std::marker::Model;

/// The GOT slots and PLT entries of a link. Contracts see them as the slot table, and for how many calls
/// that give a slot or an entry there is room.
#[derive(Drop)]
pub struct Slots {
    alloc: Global,
    got: Vec<Option<GotKey>>,
    free: FreeSlots,
    plt: Vec<u32>,
    spare: usize,
}

impl Model for Slots {
    ghost use Rattle.std.specs.BinaryHeap.{heap_capacity, heap_items};
    ghost use Rattle.std.specs.Vec.{vec_capacity, vec_len};
    ghost use Rattle.lk_gotplt.specs.FreeSlots.{AreFree, HasRoom, IsQueue};
    ghost use Rattle.lk_gotplt.specs.SlotsGiven.{Given};

    ghost Value = { Given };

    ghost view = { λ s. record { table = record { got = s.got.items; plt = s.plt.items }; spare = s.spare } };

    ghost invariant = { λ s. AreFree (heap_items s.free) s.got.items × IsQueue (heap_items s.free) × HasRoom s.spare (vec_len s.got) (vec_capacity s.got) (heap_capacity s.free) (vec_len s.plt) (vec_capacity s.plt) };
}

impl Slots {
    /// No slot and no entry. What is added later takes memory of this allocator.
    pub fn new(alloc: Global) -> Self
        ensures got { result.table.got ≡ [] }
        ensures plt { result.table.plt ≡ [] }
    {
        Slots {
            alloc,
            got: Vec::new(alloc),
            free: BinaryHeap::new(alloc),
            plt: Vec::new(alloc),
            spare: 0,
        }
    }

    /// The slots and entries of a table.
    ///
    /// # Errors
    /// Out of memory.
    pub fn of(alloc: Global, table: &SlotTable) -> Result<Self, NoMemory>
        ensures { IfOk result (λ slots. slots.table ≡ table.now) }
    {
        let free = free_among(alloc, table.got.as_slice())?;
        let Ok(got) = Vec::from_slice(alloc, table.got.as_slice()) else {
            return Err(NoMemory);
        };
        let Ok(plt) = Vec::from_slice(alloc, table.plt.as_slice()) else {
            return Err(NoMemory);
        };
        Ok(Slots {
            alloc,
            got,
            free,
            plt,
            spare: 0,
        })
    }

    /// Makes room for `more` calls that give a slot or an entry.
    ///
    /// # Errors
    /// Out of memory; nothing changes then. Where there is room already, there is none of it.
    pub fn reserve(&mut self, more: usize) -> Result<(), NoMemory>
        ensures room { OnOk result (more ≤ self.new.spare) }
        ensures more { self.old.spare ≤ self.new.spare }
        ensures table { self.new.table ≡ self.old.table }
        ensures unchanged { OnErr result (self.new ≡ self.old) }
        ensures enough { more ≤ self.old.spare → IsOk result }
    {
        if more > self.spare {
            reserve_each(&mut self.got, &mut self.free, &mut self.plt, more)?;
            self.spare = more;
        }
        Ok(())
    }

    /// Gives a key the lowest free GOT slot, or one behind all where none is free, and returns its number.
    pub fn add_got(&mut self, key: GotKey) -> u32
        requires few { length self.old.table.got < 2 ^ 32 - 1 }
        requires room { 0 < self.old.spare }
        ensures number { result ≡ lowest_free self.old.table }
        ensures table { self.new.table ≡ with_slot self.old.table key }
        ensures spare { self.old.spare ≤ self.new.spare + 1 }
    {
        match take_lowest(&mut self.free) {
            Some(slot) => {
                self.got[slot] = Some(key);
                slot as u32
            }
            None => {
                let slot = self.got.len();
                let _done = self.got.push(Some(key));
                self.spare -= 1;
                slot as u32
            }
        }
    }

    /// Gives a name the PLT entry behind all, and returns its number.
    pub fn add_plt(&mut self, name: u32) -> u32
        requires few { length self.old.table.plt < 2 ^ 32 - 1 }
        requires room { 0 < self.old.spare }
        ensures number { result ≡ length self.old.table.plt }
        ensures table { self.new.table ≡ with_entry self.old.table name }
        ensures spare { self.old.spare ≤ self.new.spare + 1 }
    {
        let number = self.plt.len();
        let _done = self.plt.push(name);
        self.spare -= 1;
        number as u32
    }

    /// Gives up the GOT slot with a number, which is free then.
    pub fn release_got(&mut self, slot: u32)
        requires { slot < length self.old.table.got }
        ensures table { self.new.table ≡ without_slot self.old.table slot }
        ensures spare { self.new.spare ≡ self.old.spare }
    {
        let slot = slot as usize;
        if self.got[slot].is_some() {
            self.got[slot] = None;
            put_free(&mut self.free, slot);
        }
    }

    /// Gives up the PLT entry with a number. The last entry moves into its place, and its name is returned;
    /// none where the entry was the last.
    pub fn release_plt(&mut self, number: u32) -> Option<u32>
        requires { number < length self.old.table.plt }
        ensures moved { result ≡ moved_entry self.old.table number }
        ensures table { self.new.table ≡ without_entry self.old.table number }
        ensures spare { self.new.spare ≡ self.old.spare }
    {
        let number = number as usize;
        self.plt.swap_remove(number);
        self.plt.get(number).copied()
    }

    /// The slot table.
    ///
    /// # Errors
    /// Out of memory.
    pub fn table(&self) -> Result<SlotTable, NoMemory>
        ensures { IfOk result (λ table. table ≡ self.now.table) }
    {
        let Ok(got) = Vec::from_slice(self.alloc, self.got.as_slice()) else {
            return Err(NoMemory);
        };
        let Ok(plt) = Vec::from_slice(self.alloc, self.plt.as_slice()) else {
            return Err(NoMemory);
        };
        Ok(SlotTable {
            got: List::from_vec(got),
            plt: List::from_vec(plt),
        })
    }
}
