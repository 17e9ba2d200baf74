//! The relocations of each section of an object (gABI "Relocation", sh_info), in one list for each section
//! number.
//!
//! Problem: relocations are by the section that holds them, and are asked for by the section that they
//! change; several sections may hold relocations of one target. Steps: an empty list for each section; then,
//! by rising number, the entries of each section of relocations go to the end of its target's list. Cost: one
//! look at each section header, and one reading of each entry; a target of one section of relocations, as
//! nearly all are, takes its list as it was read.

ghost use Rattle.std.specs.Prelude.{◌≡◌, ◌<◌, ℕ, [], length, replicate, slice_index_or, vec_len, IfOk, OnOk};
ghost use Rattle.lk_model.specs.Objects.{relocations_in};
ghost use Rattle.lk_model.specs.Views.{Elf};
ghost use Rattle.lk_obj_read.specs.RelocationLists.{with_relas};

use crate::rela_lists::RelaList;
use lk_elf::Shdr;
use lk_elf::numbers::SHT_RELA;
use lk_obj_parts::entry_count;
use lk_report::{Bytes, NoMemory};
use std::alloc::Global;

/// So many empty lists.
#[tactic(auto, using(crate::proofs::RelocationLists::empty_more))]
fn no_lists(alloc: Global, count: usize) -> Result<Vec<RelaList>, NoMemory>
    ensures items { IfOk result (λ v. v.items ≡ replicate count []) }
    ensures count { IfOk result (λ v. vec_len v ≡ count) }
{
    let Ok(mut lists) = Vec::with_capacity(alloc, count) else {
        return Err(NoMemory);
    };
    while lists.len() < count {
        if lists.push(RelaList::none()).is_err() {
            return Err(NoMemory);
        }
    }
    Ok(lists)
}

/// Puts the entries of a section at the end of the list of its target, where it holds relocations.
fn put_relas(
    alloc: Global,
    lists: &mut [RelaList],
    file: &Bytes,
    section: &Shdr,
) -> Result<(), NoMemory>
    ensures { OnOk result ((t : ℕ) → t < length lists.old → slice_index_or lists.new t [] ≡ with_relas file.now t (slice_index_or lists.old t []) section.now) }
{
    if section.sh_type != SHT_RELA {
        return Ok(());
    }
    let target = section.sh_info as usize;
    if target >= lists.len() {
        return Ok(());
    }
    let count = entry_count(file.as_slice(), section);
    lists[target].add(alloc, file, section.sh_offset as usize, count)
}

/// For each section, by its number, its relocations by section and entry.
///
/// # Errors
/// Out of memory alone.
#[tactic(auto, using(crate::proofs::RelocationLists::relas_put, crate::proofs::RelocationLists::all_relas_put, crate::proofs::RelocationLists::none_yet, crate::proofs::RelocationLists::relocations_reported))]
pub(crate) fn relocations_by_target(
    alloc: Global,
    file: &Bytes,
    sections: &[Shdr],
) -> Result<Vec<RelaList>, NoMemory>
    ensures lists { (elf : Elf) → elf.bytes ≡ file.now → elf.sections ≡ sections.now → IfOk result (λ v. (t : ℕ) → t < length sections.now → slice_index_or v.items t [] ≡ relocations_in elf t) }
    ensures count { IfOk result (λ v. vec_len v ≡ length sections.now) }
{
    let mut lists = no_lists(alloc, sections.len())?;
    for i in 1..sections.len() {
        put_relas(alloc, &mut lists, file, &sections[i])?;
    }
    Ok(lists)
}
