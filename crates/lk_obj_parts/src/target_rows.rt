//! The sections of relocations on each piece (gABI "Relocation"), gathered once: an object of many
//! sections is not gone over again for each of them. Where each target has one such section at most, those of
//! fields that rise are left out, since their fields share no byte.

ghost use Rattle.std.specs.Prelude.{◌≡◌, ◌&&◌, ◌^◌, ◌<◌, ℕ, [], length, replicate, slice_index_or, vec_len, IfOk, OnOk};
ghost use Rattle.lk_obj_parts.specs.ElfViews.{elf_from};
ghost use Rattle.lk_obj_parts.specs.RisingFields.{fields_rise};
ghost use Rattle.lk_obj_parts.specs.TargetRows.{is_marked_row, marked_rows, with_row};

use crate::relocation_checks::is_piece_in;
use crate::rising_fields::fields_rise;
use lk_elf::numbers::SHT_RELA;
use lk_elf::{Ehdr, Shdr};
use lk_report::{List, NoMemory};
use std::alloc::Global;

/// The sections of relocations on a section, with their numbers.
pub(crate) type RowList = List<(u32, Shdr)>;

/// So many empty lists.
#[tactic(auto, using(crate::proofs::RowsGathered::empty_more))]
fn no_rows(alloc: Global, count: usize) -> Result<Vec<RowList>, NoMemory>
    ensures items { IfOk result (λ v. v.items ≡ replicate count []) }
    ensures count { IfOk result (λ v. vec_len v ≡ count) }
{
    let Ok(mut lists) = Vec::with_capacity(alloc, count) else {
        return Err(NoMemory);
    };
    while lists.len() < count {
        if lists.push(List::new(alloc)).is_err() {
            return Err(NoMemory);
        }
    }
    Ok(lists)
}

/// Whether the fields of a section of relocations are known to share no byte: `rise` says whether the targets
/// rise, so that each has one such section at most.
fn needs_no_marks(bytes: &[u8], rise: bool, section: &Shdr) -> bool
    ensures { result ≡ (rise && fields_rise bytes.now section.now) }
{
    rise && fields_rise(bytes, section)
}

/// Puts a section at the end of the list of its target, where it holds relocations on a piece that are to be
/// marked.
fn put_row(
    lists: &mut [RowList],
    bytes: &[u8],
    header: &Ehdr,
    sections: &[Shdr],
    rise: bool,
    n: u32,
    section: &Shdr,
) -> Result<(), NoMemory>
    ensures { OnOk result ((t : ℕ) → t < length lists.old → slice_index_or lists.new t [] ≡ with_row (is_marked_row (elf_from bytes.now header.now sections.now []) rise t (n, section.now)) (slice_index_or lists.old t []) (n, section.now)) }
{
    if section.sh_type != SHT_RELA {
        return Ok(());
    }
    let target = section.sh_info as usize;
    if target >= lists.len() {
        return Ok(());
    }
    if needs_no_marks(bytes, rise, section) {
        return Ok(());
    }
    if !is_piece_in(bytes, header, sections, section.sh_info) {
        return Ok(());
    }
    lists[target].push((n, *section))
}

/// For each section, by its number, the sections of relocations on it that are to be marked, where it is a
/// piece. `rise` says whether the targets rise.
#[tactic(auto, using(crate::proofs::RowsGathered::row_put, crate::proofs::RowsGathered::all_put, crate::proofs::RowsGathered::none_yet))]
pub(crate) fn rows_by_target(
    alloc: Global,
    bytes: &[u8],
    header: &Ehdr,
    sections: &[Shdr],
    rise: bool,
) -> Result<Vec<RowList>, NoMemory>
    requires few { length sections.now < 2 ^ 32 }
    ensures rows { IfOk result (λ v. (t : ℕ) → t < length sections.now → slice_index_or v.items t [] ≡ marked_rows (elf_from bytes.now header.now sections.now []) rise t) }
    ensures count { IfOk result (λ v. vec_len v ≡ length sections.now) }
{
    let mut lists = no_rows(alloc, sections.len())?;
    for i in 1..sections.len() {
        put_row(
            &mut lists,
            bytes,
            header,
            sections,
            rise,
            i as u32,
            &sections[i],
        )?;
    }
    Ok(lists)
}
