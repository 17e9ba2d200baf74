//! That no two fields of relocations share a byte (gABI "Relocation"), seen with a mark for each byte of
//! their target, and not by each field against each.
//!
//! Fields that rise are seen to share none without any memory (rising_fields.rt); so are those of most objects.
//! Else the fields of a target are taken in turn, by section and entry. One that meets a mark shares a byte
//! with an earlier field, and is reported; else its own bytes are marked. At the end the same fields are taken
//! again, and their bytes are cleared, so that one row of marks serves all targets: the cost is two times
//! eight steps a relocation, and once the size of the longest target.

ghost use Rattle.std.specs.Prelude.{◌≡◌, ◌+◌, ◌-◌, ◌*◌, ◌^◌, ◌<◌, ◌≤◌, ℕ, Bool, true, false, List, [], drop, flat_map, length, replicate, slice_index_or, None, IfOk};
ghost use Rattle.lk_elf.specs.declared.section_header.Shdr.{Shdr};
ghost use Rattle.lk_elf.specs.declared.symbol.Sym.{Sym};
ghost use Rattle.lk_model.specs.Checks.{first_fault};
ghost use Rattle.lk_model.specs.Elf.{numbered};
ghost use Rattle.lk_model.specs.ObjectChecks.{overlap_checks, overlap_checks_after};
ghost use Rattle.lk_model.specs.Objects.{is_piece_in};
ghost use Rattle.lk_obj_parts.specs.ElfViews.{elf_from};
ghost use Rattle.lk_obj_parts.specs.FieldMarks.{FieldsFit, RowsFit, fields_painted, is_free, overlap_marked, painted, sites_of, sites_of_row};
ghost use Rattle.lk_obj_parts.specs.RelocationParts.{rows_fault};
ghost use Rattle.lk_obj_parts.specs.TargetRows.{TargetsFit, list_checks, room_with};

use crate::relocations::{entry_at, entry_count};
use crate::rising_fields::{rows_rise, targets_rise};
use crate::target_rows::{RowList, rows_by_target};
use lk_elf::numbers::SHT_NOBITS;
use lk_elf::{Ehdr, Shdr};
use lk_reloc::width_of;
use lk_report::{InputFault, NoMemory};
use std::alloc::Global;

/// Whether none of these bytes is marked.
#[tactic(auto, using(crate::proofs::MarkSteps::free_next, crate::proofs::MarkSteps::free_stop))]
fn is_free(marks: &[bool], at: usize, width: usize) -> bool
    requires { at + width ≤ length marks.now }
    ensures { result ≡ is_free marks.now at width }
{
    for k in at..at + width {
        if marks[k] {
            return false;
        }
    }
    true
}

/// Gives these bytes this mark, and leaves every other as it is.
#[tactic(auto, using(crate::proofs::MarkSteps::painted_next, crate::proofs::MarkSteps::painted_all))]
fn paint(marks: &mut [bool], mark: bool, at: usize, width: usize)
    requires { at + width ≤ length marks.old }
    ensures { marks.new ≡ painted mark marks.old at width }
{
    for k in at..at + width {
        marks[k] = mark;
    }
}

/// Marks the fields of the relocations of section n, up to the first that meets a mark, and reports that one.
#[tactic(auto, using(crate::proofs::MarkSteps::site_here, crate::proofs::MarkSteps::no_site_here, crate::proofs::MarkSteps::no_site_left, crate::proofs::MarkSteps::site_painted, crate::proofs::MarkSteps::all_painted))]
fn mark_fields(marks: &mut [bool], bytes: &[u8], n: u32, section: &Shdr) -> Option<InputFault>
    requires few { length bytes.now ≤ 24 * 2 ^ 32 }
    requires fit { FieldsFit (length marks.old) bytes.now section.now }
    ensures fault { result ≡ overlap_marked marks.old (sites_of_row bytes.now (n, section.now)) }
    ensures marked { result ≡ None → marks.new ≡ fields_painted true marks.old (sites_of_row bytes.now (n, section.now)) }
{
    let entries = entry_count(bytes, section);
    for k in 0..entries {
        let rela = entry_at(bytes, section, k);
        let at = rela.r_offset as usize;
        let width = width_of(rela.r_type()) as usize;
        if !is_free(marks, at, width) {
            return Some(InputFault::BadRela(n, k as u32));
        }
        paint(marks, true, at, width);
    }
    None
}

/// Clears the fields of the relocations of section n.
#[tactic(auto, using(crate::proofs::MarkSteps::site_painted, crate::proofs::MarkSteps::all_painted))]
fn clear_fields(marks: &mut [bool], bytes: &[u8], n: u32, section: &Shdr)
    requires fit { FieldsFit (length marks.old) bytes.now section.now }
    ensures { marks.new ≡ fields_painted false marks.old (sites_of_row bytes.now (n, section.now)) }
{
    let entries = entry_count(bytes, section);
    for k in 0..entries {
        let rela = entry_at(bytes, section, k);
        let at = rela.r_offset as usize;
        let width = width_of(rela.r_type()) as usize;
        paint(marks, false, at, width);
    }
}

/// Marks the fields of these sections of relocations, one after another, up to the first that meets a
/// mark, which is reported.
#[tactic(auto, using(crate::proofs::MarkSteps::row_here, crate::proofs::MarkSteps::no_row_here, crate::proofs::MarkSteps::no_row_left, crate::proofs::MarkSteps::row_painted, crate::proofs::MarkSteps::rows_painted, crate::proofs::MarkSteps::row_fits))]
fn mark_rows(marks: &mut [bool], bytes: &[u8], rows: &[(u32, Shdr)]) -> Option<InputFault>
    requires few { length bytes.now ≤ 24 * 2 ^ 32 }
    requires fit { RowsFit (length marks.old) bytes.now rows.now }
    ensures fault { result ≡ overlap_marked marks.old (sites_of bytes.now rows.now) }
    ensures marked { result ≡ None → marks.new ≡ fields_painted true marks.old (sites_of bytes.now rows.now) }
{
    for row in rows {
        if let Some(fault) = mark_fields(marks, bytes, row.0, &row.1) {
            return Some(fault);
        }
    }
    None
}

/// Clears the fields of these sections of relocations.
#[tactic(auto, using(crate::proofs::MarkSteps::row_painted, crate::proofs::MarkSteps::rows_painted, crate::proofs::MarkSteps::row_fits))]
fn clear_rows(marks: &mut [bool], bytes: &[u8], rows: &[(u32, Shdr)])
    requires fit { RowsFit (length marks.old) bytes.now rows.now }
    ensures { marks.new ≡ fields_painted false marks.old (sites_of bytes.now rows.now) }
{
    for row in rows {
        clear_fields(marks, bytes, row.0, &row.1);
    }
}

/// The first field of a target that shares a byte with an earlier one, where these are the sections of
/// its relocations, and no byte is marked; where there is none, no byte is marked afterwards.
#[tactic(auto, using(crate::proofs::MarkedFields::overlaps_reported, crate::proofs::MarkedFields::cleared_again))]
fn target_overlap(marks: &mut [bool], bytes: &[u8], rows: &[(u32, Shdr)]) -> Option<InputFault>
    requires few { length bytes.now ≤ 24 * 2 ^ 32 }
    requires fit { RowsFit (length marks.old) bytes.now rows.now }
    requires clear { marks.old ≡ replicate (length marks.old) false }
    ensures fault { result ≡ first_fault (overlap_checks_after [] (sites_of bytes.now rows.now)) }
    ensures clear { result ≡ None → marks.new ≡ marks.old }
{
    if let Some(fault) = mark_rows(marks, bytes, rows) {
        return Some(fault);
    }
    clear_rows(marks, bytes, rows);
    None
}

/// How many bytes fields need of a target with these sections of relocations.
fn room_with(section: &Shdr, rows: &[(u32, Shdr)]) -> u64
    ensures { result ≡ room_with section.now rows.now }
{
    if rows.is_empty() || section.sh_type == SHT_NOBITS {
        0
    } else {
        section.sh_size
    }
}

/// How many bytes fields need of the longest target, where these are the lists of the sections of
/// relocations on each section.
fn longest_target(sections: &[Shdr], lists: &[RowList]) -> usize
    requires { length lists.now ≡ length sections.now }
    ensures { (t : ℕ) (d : Shdr) → t < length sections.now → room_with (slice_index_or sections.now t d) (slice_index_or lists.now t []) ≤ result }
{
    let mut size = 0;
    for t in 0..sections.len() {
        let room = room_with(&sections[t], lists[t].as_slice()) as usize;
        if size < room {
            size = room;
        }
    }
    size
}

/// The first field that shares a byte with an earlier one of its target, by the targets' numbers, where
/// these are the lists of the sections of relocations on each, and no byte is marked.
#[tactic(auto, using(crate::proofs::RowFaults::row_here, crate::proofs::RowFaults::no_row_here, crate::proofs::RowFaults::no_row_left))]
fn targets_fault(marks: &mut [bool], bytes: &[u8], lists: &[RowList]) -> Option<InputFault>
    requires few { length bytes.now ≤ 24 * 2 ^ 32 }
    requires fit { (t : ℕ) → 0 < t → t < length lists.now → RowsFit (length marks.old) bytes.now (slice_index_or lists.now t []) }
    requires clear { marks.old ≡ replicate (length marks.old) false }
    ensures { result ≡ rows_fault (list_checks bytes.now) 1 (drop 1 lists.now) }
{
    for t in 1..lists.len() {
        if let Some(fault) = target_overlap(marks, bytes, lists[t].as_slice()) {
            return Some(fault);
        }
    }
    None
}

/// The first field of a piece that shares a byte with an earlier one, by target, section and entry, seen with
/// marks.
#[tactic(auto, using(crate::proofs::OverlapsReported::lists_fit, crate::proofs::OverlapsReported::overlaps_reported))]
fn marked_overlap(
    alloc: Global,
    bytes: &[u8],
    header: &Ehdr,
    sections: &[Shdr],
) -> Result<Option<InputFault>, NoMemory>
    requires few_entries { length bytes.now ≤ 24 * 2 ^ 32 }
    requires few_sections { length sections.now < 2 ^ 32 }
    requires fit { TargetsFit (elf_from bytes.now header.now sections.now []) }
    ensures { (symbols : List Sym) → IfOk result (λ r. r ≡ (let elf = elf_from bytes.now header.now sections.now symbols in first_fault (flat_map (λ (row : ℕ × Shdr). overlap_checks elf (is_piece_in elf row.0) row.0) (numbered sections.now)))) }
{
    let rise = targets_rise(sections);
    let lists = rows_by_target(alloc, bytes, header, sections, rise)?;
    let size = longest_target(sections, &lists);
    let Ok(mut marks) = Vec::from_elem(alloc, false, size) else {
        return Err(NoMemory);
    };
    Ok(targets_fault(&mut marks, bytes, &lists))
}

/// The first field of a piece that shares a byte with an earlier one, by target, section and entry, in a
/// file whose sections of relocations have no fault of their own.
pub fn overlap_fault(
    alloc: Global,
    bytes: &[u8],
    header: &Ehdr,
    sections: &[Shdr],
) -> Result<Option<InputFault>, NoMemory>
    requires few_entries { length bytes.now ≤ 24 * 2 ^ 32 }
    requires few_sections { length sections.now < 2 ^ 32 }
    requires fit { TargetsFit (elf_from bytes.now header.now sections.now []) }
    ensures { (symbols : List Sym) → IfOk result (λ r. r ≡ (let elf = elf_from bytes.now header.now sections.now symbols in first_fault (flat_map (λ (row : ℕ × Shdr). overlap_checks elf (is_piece_in elf row.0) row.0) (numbered sections.now)))) }
{
    if rows_rise(bytes, sections) {
        return Ok(None);
    }
    marked_overlap(alloc, bytes, header, sections)
}
