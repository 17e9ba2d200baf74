//! Which sections have relocations (gABI "Relocation"): one mark for each section.
//!
//! Problem: a terminator of frames is a section without relocations, and an object may hold tens of
//! thousands of them; to look for the relocations of each would be a search for each. Steps: one mark for
//! each section, none set; each section of relocations with an entry marks its target. Cost: one look at
//! each section header, and one byte for each section.

ghost use Rattle.std.specs.Prelude.{◌≡◌, ◌<◌, ◌^◌, [], length, drop, slice_get, Some, IfOk, ℕ, List};
ghost use Rattle.lk_elf.specs.declared.file_header.Ehdr.{Ehdr};
ghost use Rattle.lk_elf.specs.declared.symbol.Sym.{Sym};
ghost use Rattle.lk_marks.specs.Marked.{is_marked, marks_of};
ghost use Rattle.lk_obj_parts.specs.ElfViews.{elf_from};
ghost use Rattle.lk_obj_read.specs.RelocatedSections.{entries_in, has_entries, is_relocated, marked_after, marked_by};

use lk_elf::Shdr;
use lk_elf::numbers::{RELA_SIZE, SHT_RELA};
use lk_marks::Marks;
use lk_report::NoMemory;
use std::alloc::Global;

/// How many entries of relocations a section has in the file.
fn entries_in(bytes: &[u8], section: &Shdr) -> u64
    ensures { result ≡ entries_in bytes.now section.now }
{
    let room = bytes.len() as u64;
    if section.sh_size <= room && section.sh_offset <= room - section.sh_size {
        section.sh_size / RELA_SIZE as u64
    } else {
        0
    }
}

/// Whether a section holds relocations, at least one of them in the file.
fn has_entries(bytes: &[u8], section: &Shdr) -> bool
    ensures { result ≡ has_entries bytes.now section.now }
{
    section.sh_type == SHT_RELA && entries_in(bytes, section) != 0
}

/// Marks the target of a section that has entries.
fn mark_target(bytes: &[u8], marks: &mut Marks, section: &Shdr)
    ensures { marks.new ≡ marked_after bytes.now marks.old section.now }
{
    if has_entries(bytes, section) {
        marks.mark_within(section.sh_info);
    }
}

/// Marks the targets of all sections that have entries.
#[tactic(auto, using(crate::proofs::RelocatedSections::next_target, crate::proofs::RelocatedSections::no_target_left))]
fn mark_targets(bytes: &[u8], sections: &[Shdr], marks: &mut Marks)
    ensures { marks.new ≡ marked_by bytes.now marks.old (drop 1 sections.now) }
{
    for i in 1..sections.len() {
        mark_target(bytes, marks, &sections[i]);
    }
}

/// For each section, by its number, whether it has relocations: at least one entry, in the file, of a section
/// that names it as its target. By the law `reported` of proofs/RelocatedSections each mark says whether lk_model's
/// list of the section's relocations has an entry.
///
/// # Errors
/// Out of memory alone.
pub fn relocated_sections(alloc: Global, bytes: &[u8], sections: &[Shdr]) -> Result<Marks, NoMemory>
    ensures { IfOk result (λ marks. marks ≡ marked_by bytes.now (marks_of [] (length sections.now)) (drop 1 sections.now)) }
{
    let mut marks = Marks::of(alloc, sections.len(), &[])?;
    mark_targets(bytes, sections, &mut marks);
    Ok(marks)
}
