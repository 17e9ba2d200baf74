//! The relocations that the dynamic linker does before the program begins (gABI "Relocation"; psABI x86-64
//! "Relocation Types").

ghost use Rattle.std.specs.Prelude.{◌≡◌, ◌++◌, ℕ, List, IfOk, OnOk, flat_map};
ghost use Rattle.lk_model.specs.DynamicNames.{dynamic_names};
ghost use Rattle.lk_model.specs.DynamicRelocations.{rela_dyn_bytes};
ghost use Rattle.lk_model.specs.DynamicSlots as slots;
ghost use Rattle.lk_model.specs.Views.{Resolved};
ghost use Rattle.lk_dyn_sizes.specs.Fills.{as_fills};
ghost use Rattle.lk_dyn.specs.StartRelocations.{copy_entry_at, copy_of, or_zero, slot_entry_bytes};

use crate::copy_addresses::{CopyAddresses, address_of, copy_addresses};
use crate::low_bits::low_64;
use crate::name_places::NamePlaces;
use crate::relocations::put_relocation;
use crate::sections::section_start;
use lk_dyn_sizes::SlotFill;
use lk_model::layouts::{Class, Placement};
use lk_report::{Bytes, NoMemory};
use std::alloc::Global;

/// The copy of an import is filled with the bytes of the object.
const R_X86_64_COPY: u32 = 5;

/// Puts the relocation that fills a GOT slot at the end, by the address of `.got`.
fn put_slot(
    out: &mut Vec<u8>,
    numbers: &NamePlaces<'_>,
    got: u64,
    fill: SlotFill,
) -> Result<(), NoMemory>
    ensures { OnOk result (out.new.items ≡ out.old.items ++ slot_entry_bytes numbers.now got fill) }
{
    let address = low_64(u128::from(got) + 8 * u128::from(fill.slot));
    put_relocation(out, numbers, address, fill.code, fill.name)
}

/// Puts the relocations that fill GOT slots at the end, by the address of `.got`.
fn put_slots(
    out: &mut Vec<u8>,
    numbers: &NamePlaces<'_>,
    got: u64,
    fills: &[SlotFill],
) -> Result<(), NoMemory>
    ensures { OnOk result (out.new.items ≡ out.old.items ++ flat_map (slot_entry_bytes numbers.now got) fills.now) }
{
    for fill in fills {
        put_slot(out, numbers, got, *fill)?;
    }
    Ok(())
}

/// Puts the relocation that fills the copy of a name at the end.
fn put_copy(
    out: &mut Vec<u8>,
    numbers: &NamePlaces<'_>,
    addresses: &CopyAddresses,
    name: u32,
) -> Result<(), NoMemory>
    ensures { OnOk result (out.new.items ≡ out.old.items ++ copy_entry_at numbers.now (or_zero (copy_of addresses.now.entries name)) name) }
{
    let address = low_64(u128::from(address_of(addresses, name)));
    put_relocation(out, numbers, address, R_X86_64_COPY, name)
}

/// Puts the relocations that fill copies at the end.
fn put_copies(
    out: &mut Vec<u8>,
    numbers: &NamePlaces<'_>,
    addresses: &CopyAddresses,
    names: &[u32],
) -> Result<(), NoMemory>
    ensures { OnOk result (out.new.items ≡ out.old.items ++ flat_map (λ n. copy_entry_at numbers.now (or_zero (copy_of addresses.now.entries n)) n) names.now) }
{
    for name in names {
        put_copy(out, numbers, addresses, *name)?;
    }
    Ok(())
}

/// The bytes of `.rela.dyn` (psABI x86-64 "Relocation Types"): the relocations by which the dynamic linker fills
/// GOT slots, in slot order, then those of the copies, in order of names. `fills` has the slots of `slot_fills`,
/// `copies` the names of `copied_names`.
///
/// # Errors
/// Out of memory.
pub fn rela_dyn_table(
    alloc: Global,
    numbers: &NamePlaces<'_>,
    fills: &[SlotFill],
    copies: &[u32],
    place: &Placement,
) -> Result<Bytes, NoMemory>
    ensures { (r : Resolved) → dynamic_names r ≡ numbers.now → slots.slot_fills r place.now.slots ≡ as_fills fills.now → slots.copied_names r ≡ copies.now → IfOk result (λ table. table ≡ rela_dyn_bytes r place.now) }
{
    let got = section_start(place, b".got", Class::W);
    let addresses = copy_addresses(alloc, place.pieces.as_slice())?;
    let mut out = Vec::new(alloc);
    put_slots(&mut out, numbers, got, fills)?;
    put_copies(&mut out, numbers, &addresses, copies)?;
    Bytes::from_vec(out)
}
