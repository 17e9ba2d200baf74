//! The relocations that the dynamic linker does (gABI "Relocation"; psABI x86-64 "Relocation Types").

ghost use Rattle.std.specs.Prelude.{◌≡◌, ◌++◌, ℕ, List, IfOk, OnOk, flat_map};
ghost use Rattle.std.specs.List.{enumerate_from};
ghost use Rattle.lk_elf.specs.Records.{rela_bytes};
ghost use Rattle.lk_model.specs.DynamicNames.{dynamic_names};
ghost use Rattle.lk_model.specs.DynamicRelocations.{dynamic_relocation, rela_plt_bytes};
ghost use Rattle.lk_model.specs.Views.{Resolved};
ghost use Rattle.lk_dyn.specs.LowBits.{low_64};
ghost use Rattle.lk_dyn.specs.JumpSlots.{jump_entry_bytes};

use crate::appending::put_rela;
use crate::calls::jump_slot;
use crate::low_bits::low_64;
use crate::name_places::NamePlaces;
use crate::sections::section_start;
use lk_elf::Rela;
use lk_model::layouts::{Class, Placement};
use lk_report::{Bytes, NoMemory};
use std::alloc::Global;

/// How far the number of the symbol is shifted in `r_info`.
const SYMBOL_UNIT: u128 = 0x1_0000_0000;

/// The slot of a PLT entry is filled with the address of a function.
const R_X86_64_JUMP_SLOT: u32 = 7;

/// Puts a relocation of the word at an address, of this type, by the symbol of a dynamic name, with addend 0.
/// The address is by its low bits.
pub(crate) fn put_relocation(
    out: &mut Vec<u8>,
    numbers: &NamePlaces<'_>,
    address: u64,
    code: u32,
    name: u32,
) -> Result<(), NoMemory>
    ensures { OnOk result ((whole : ℕ) → address ≡ low_64 whole → out.new.items ≡ out.old.items ++ rela_bytes (dynamic_relocation numbers.now whole code name)) }
{
    let info = numbers.number(name) * SYMBOL_UNIT + u128::from(code);
    let rela = Rela {
        r_offset: address,
        r_info: low_64(info),
        r_addend: 0,
    };
    put_rela(out, &rela)
}

/// Puts the relocations of the slots of PLT entries at the end, by the address of the GOT.
fn put_jumps(
    out: &mut Vec<u8>,
    numbers: &NamePlaces<'_>,
    got: u64,
    plt: &[u32],
) -> Result<(), NoMemory>
    ensures { OnOk result (out.new.items ≡ out.old.items ++ flat_map (jump_entry_bytes numbers.now got) (enumerate_from 0 plt.now)) }
{
    for number in 0..plt.len() {
        put_relocation(
            out,
            numbers,
            jump_slot(got, number),
            R_X86_64_JUMP_SLOT,
            plt[number],
        )?;
    }
    Ok(())
}

/// The bytes of `.rela.plt` (psABI x86-64 "Procedure Linkage Table"): in the order of the PLT entries, the
/// relocation by which the dynamic linker fills the slot of each.
///
/// # Errors
/// Out of memory.
pub fn rela_plt_table(
    alloc: Global,
    numbers: &NamePlaces<'_>,
    place: &Placement,
) -> Result<Bytes, NoMemory>
    ensures { (r : Resolved) → dynamic_names r ≡ numbers.now → IfOk result (λ table. table ≡ rela_plt_bytes r place.now) }
{
    let got = section_start(place, b".got.plt", Class::W);
    let mut out = Vec::new(alloc);
    put_jumps(&mut out, numbers, got, place.slots.plt.as_slice())?;
    Bytes::from_vec(out)
}
