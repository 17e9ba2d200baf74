//! The section table of a shared object (gABI "ELF Header", "Sections"): its checks, and the first section of
//! a type.

ghost use Rattle.std.specs.Prelude.{◌≡◌, ◌<◌, ◌^◌, length};
ghost use Rattle.lk_model.specs.Checks.{first_fault};
ghost use Rattle.lk_model.specs.Elf.{elf_of, first_of_type};
ghost use Rattle.lk_model.specs.SharedChecks.{shared_header_checks};

use lk_elf::numbers::{ET_DYN, SHDR_SIZE, SHT_STRTAB};
use lk_elf::{Ehdr, Shdr};
use lk_obj_parts::{is_of_type, lies_in};
use lk_report::InputFault;

/// The number and the header of the first section of a type.
#[tactic(auto, using(lk_obj_parts::proofs::Rows::rows_next, lk_obj_parts::proofs::Rows::rows_done))]
pub(crate) fn first_of_type(sections: &[Shdr], code: u32) -> Option<(u32, Shdr)>
    requires few { length sections.now < 2 ^ 32 }
    ensures { result ≡ first_of_type code sections.now }
{
    for n in 1..sections.len() {
        if sections[n].sh_type == code {
            return Some((n as u32, sections[n]));
        }
    }
    None
}

/// The first fault of the section table.
#[tactic(auto, using(lk_obj_parts::proofs::Headers::section_reported, crate::proofs::FileParts::bytes_of_file), unfolding(lk_model::specs::SharedChecks::shared_header_checks))]
pub(crate) fn header_fault(bytes: &[u8], header: &Ehdr, sections: &[Shdr]) -> Option<InputFault>
    requires headed { header.now ≡ (elf_of bytes.now).header }
    requires read { sections.now ≡ (elf_of bytes.now).sections }
    ensures { result ≡ first_fault (shared_header_checks (elf_of bytes.now)) }
{
    if header.e_type != ET_DYN {
        return Some(InputFault::WrongType);
    }
    if usize::from(header.e_shentsize) != SHDR_SIZE {
        return Some(InputFault::BadTable(0));
    }
    if header.e_shnum == 0 {
        return Some(InputFault::BadTable(0));
    }
    let size = SHDR_SIZE as u64 * u64::from(header.e_shnum);
    if !lies_in(bytes, header.e_shoff, size) {
        return Some(InputFault::BadTable(0));
    }
    if !is_of_type(sections, SHT_STRTAB, u32::from(header.e_shstrndx)) {
        return Some(InputFault::BadTable(0));
    }
    None
}
