//! The procedure linkage table and its slots (psABI x86-64 "Procedure Linkage Table", "Global Offset Table").

ghost use Rattle.std.specs.Prelude.{◌≡◌, ◌+◌, ◌++◌, [], ◌∷◌, ℕ, List, IfOk, OnOk, length};
ghost use Rattle.lk_elf.specs.Fields.{bytes_of};
ghost use Rattle.lk_model.specs.PltEntries.{displacement, first_entry_bytes, jump_slot_address, plt_bytes, plt_entry_address, plt_entry_bytes};
ghost use Rattle.lk_model.specs.Tables.{got_plt_bytes};
ghost use Rattle.lk_model.specs.Views.{Resolved};
ghost use Rattle.lk_dyn.specs.LowBits.{low_64};

use crate::appending::{put_bytes, put_long, put_word};
use crate::low_bits::{distance, low_64};
use crate::sections::section_start;
use lk_model::layouts::{Class, Placement};
use lk_report::{Bytes, NoMemory};
use std::alloc::Global;

/// The address of the slot through which an entry jumps, by the entry's number and the address of the GOT;
/// three words before the first are the dynamic linker's.
pub(crate) fn jump_slot(got: u64, number: usize) -> u64
    ensures { result ≡ low_64 (jump_slot_address got number) }
{
    low_64(u128::from(got) + 8 * (3 + number as u128))
}

/// An address in an entry, so many bytes from its start, by the entry's number and the address of the table.
fn in_entry(plt: u64, number: usize, offset: u8) -> u64
    ensures { result ≡ low_64 (plt_entry_address plt number + offset) }
{
    low_64(u128::from(plt) + 16 * (1 + number as u128) + u128::from(offset))
}

/// Puts a displacement to a target at the end, from the end of its instruction. The addresses are by their
/// low bits.
fn put_displacement(out: &mut Vec<u8>, target: u64, next: u64) -> Result<(), NoMemory>
    ensures { OnOk result (out.new.items ≡ out.old.items ++ displacement target next) }
{
    put_word(out, distance(target, next))
}

/// Puts the entry that calls the dynamic linker at the end: `push GOT+8(%rip)`, `jmp *GOT+16(%rip)`, and a
/// `nop`.
fn put_first_entry(out: &mut Vec<u8>, plt: u64, got: u64) -> Result<(), NoMemory>
    ensures { OnOk result (out.new.items ≡ out.old.items ++ first_entry_bytes plt got) }
{
    put_bytes(out, &[0xff, 0x35])?;
    put_displacement(
        out,
        low_64(u128::from(got) + 8),
        low_64(u128::from(plt) + 6),
    )?;
    put_bytes(out, &[0xff, 0x25])?;
    put_displacement(
        out,
        low_64(u128::from(got) + 16),
        low_64(u128::from(plt) + 12),
    )?;
    put_bytes(out, &[0x0f, 0x1f, 0x40, 0x00])
}

/// Puts the entry with a number at the end: `jmp *slot(%rip)`, `push $number`, `jmp` to the entry that calls
/// the dynamic linker.
fn put_entry(out: &mut Vec<u8>, plt: u64, got: u64, number: usize) -> Result<(), NoMemory>
    ensures { OnOk result (out.new.items ≡ out.old.items ++ plt_entry_bytes plt got number) }
{
    put_bytes(out, &[0xff, 0x25])?;
    put_displacement(out, jump_slot(got, number), in_entry(plt, number, 6))?;
    put_bytes(out, &[0x68])?;
    put_word(out, number as u64)?;
    put_bytes(out, &[0xe9])?;
    put_displacement(out, plt, in_entry(plt, number, 16))
}

/// The bytes of `.plt`, the procedure linkage table (psABI x86-64): the entry that calls the dynamic linker,
/// then those of the slot table's names.
///
/// # Errors
/// Out of memory.
#[tactic(auto, unfolding(lk_model::specs::PltEntries::plt_bytes))]
pub fn plt_table(alloc: Global, place: &Placement) -> Result<Bytes, NoMemory>
    ensures { (r : Resolved) → IfOk result (λ table. table ≡ plt_bytes r place.now) }
{
    let plt = section_start(place, b".plt", Class::X);
    let got = section_start(place, b".got.plt", Class::W);
    let mut out = Vec::new(alloc);
    put_first_entry(&mut out, plt, got)?;
    for number in 0..place.slots.plt.as_slice().len() {
        put_entry(&mut out, plt, got, number)?;
    }
    Bytes::from_vec(out)
}

/// Puts the three words that are the dynamic linker's at the end: the address of `.dynamic`, and two zeros.
fn put_linker_words(out: &mut Vec<u8>, dynamic: u64) -> Result<(), NoMemory>
    ensures { OnOk result (out.new.items ≡ out.old.items ++ bytes_of 8 dynamic ++ bytes_of 8 0 ++ bytes_of 8 0) }
{
    put_long(out, dynamic)?;
    put_long(out, 0)?;
    put_long(out, 0)
}

/// The bytes of `.got.plt` (psABI x86-64 "Global Offset Table"): three words that are the dynamic linker's,
/// then for each entry of `.plt` the address of its second instruction.
///
/// # Errors
/// Out of memory.
pub fn got_plt_table(alloc: Global, place: &Placement) -> Result<Bytes, NoMemory>
    ensures { IfOk result (λ table. table ≡ got_plt_bytes place.now) }
{
    let plt = section_start(place, b".plt", Class::X);
    let dynamic = section_start(place, b".dynamic", Class::W);
    let mut out = Vec::new(alloc);
    put_linker_words(&mut out, dynamic)?;
    for number in 0..place.slots.plt.as_slice().len() {
        put_long(&mut out, in_entry(plt, number, 6))?;
    }
    Bytes::from_vec(out)
}
