//! The names of the files that a shared object needs (gABI "Dynamic Section", DT_NEEDED).

ghost use Rattle.std.specs.Prelude.{◌≡◌, ◌≤◌, ◌++◌, length, IfOk, OnOk};
ghost use Rattle.lk_model.specs.Elf.{elf_of};
ghost use Rattle.lk_so_read.specs.Needs.{need_of, needs_in, needs_under};

use crate::dynamic_entries::{entry_at, entry_count};
use crate::section_tables::first_of_type;
use crate::string_texts::text_at;
use lk_elf::numbers::{DT_NEEDED, DT_NULL, DYN_SIZE, SHT_DYNAMIC};
use lk_elf::{Dyn, Ehdr, Shdr};
use lk_obj_parts::read_sections;
use lk_report::{List, Name, NameList, NoMemory};
use std::alloc::Global;

/// Puts the text of an entry at the end, where it is NEEDED and has one.
fn put_need(
    alloc: Global,
    needs: &mut NameList,
    bytes: &[u8],
    sections: &[Shdr],
    strings: u32,
    entry: &Dyn,
) -> Result<(), NoMemory>
    requires read { sections.now ≡ (elf_of bytes.now).sections }
    ensures { OnOk result (needs.new ≡ needs.old ++ need_of (elf_of bytes.now) strings entry.now) }
{
    if entry.d_tag != DT_NEEDED {
        return Ok(());
    }
    match text_at(bytes, sections, strings, entry.d_un) {
        None => Ok(()),
        Some(text) => needs.push(Name::from_slice(alloc, text)?),
    }
}

/// The texts of the NEEDED entries of a dynamic section before its first NULL.
#[tactic(auto, using(crate::proofs::NeedsFound::need_here, crate::proofs::NeedsFound::found_at_end))]
fn needs_under(
    alloc: Global,
    bytes: &[u8],
    sections: &[Shdr],
    dynamic: &Shdr,
) -> Result<NameList, NoMemory>
    requires read { sections.now ≡ (elf_of bytes.now).sections }
    ensures { IfOk result (λ needs. needs ≡ needs_under (elf_of bytes.now) dynamic.now) }
{
    let mut needs = List::new(alloc);
    let count = entry_count(bytes, dynamic);
    for k in 0..count {
        let entry = entry_at(bytes, dynamic.sh_offset as usize + DYN_SIZE * k);
        if entry.d_tag == DT_NULL {
            return Ok(needs);
        }
        put_need(alloc, &mut needs, bytes, sections, dynamic.sh_link, &entry)?;
    }
    Ok(needs)
}

/// The names of the files that a shared object needs: the texts of the NEEDED entries of its dynamic section, in
/// their order. An entry without a text adds none, and a file without a dynamic section needs none.
///
/// # Errors
/// Out of memory alone.
#[tactic(auto, using(crate::proofs::FileParts::header_of_file, crate::proofs::FileParts::sections_of_file, crate::proofs::NeedsFound::needs_of_section, crate::proofs::NeedsFound::needs_of_none))]
pub fn needs_of(alloc: Global, bytes: &[u8]) -> Result<NameList, NoMemory>
    requires headed { 64 ≤ length bytes.now }
    ensures { IfOk result (λ needs. needs ≡ needs_in (elf_of bytes.now)) }
{
    let Ok(header) = Ehdr::read_at(bytes, 0) else {
        unreachable!()
    };
    let sections = read_sections(alloc, bytes, &header)?;
    match first_of_type(&sections, SHT_DYNAMIC) {
        None => Ok(List::new(alloc)),
        Some((_, dynamic)) => needs_under(alloc, bytes, &sections, &dynamic),
    }
}
