//! The checks of the section table and of its sections (gABI "ELF Header", "Sections"), in their order: the
//! first that fails is reported, with the section's number.

ghost use Rattle.std.specs.Prelude.{◌≡◌, ◌^◌, ◌<◌, [], flat_map, length, nat_eq};
ghost use Rattle.std.specs.List.{list_any};
ghost use Rattle.std.specs.Option.{option_copied};
ghost use Rattle.lk_model.specs.Amounts.{is_small_power};
ghost use Rattle.lk_model.specs.Checks.{first_fault};
ghost use Rattle.lk_model.specs.Elf.{numbered};
ghost use Rattle.lk_model.specs.ObjectChecks.{is_alignment, is_compressed, is_unknown_alloc, is_unsupported, loaded_types, section_checks, table_checks};
ghost use Rattle.lk_obj_parts.specs.ElfViews.{elf_from, is_of_type_in};
ghost use Rattle.lk_obj_parts.specs.SectionParts.{is_cut_off_in, named_checks, name_checks, place_checks};

use crate::file_table::lies_in;
use crate::texts::{header_at, section_name};
use lk_elf::numbers::{
    ET_REL, SHDR_SIZE, SHF_ALLOC, SHF_COMPRESSED, SHT_FINI_ARRAY, SHT_INIT_ARRAY, SHT_NOBITS,
    SHT_NOTE, SHT_NULL, SHT_PREINIT_ARRAY, SHT_PROGBITS, SHT_REL, SHT_STRTAB, SHT_SYMTAB_SHNDX,
    SHT_X86_64_UNWIND,
};
use lk_elf::{Ehdr, Shdr};
use lk_outsec::{has_flag, is_piece, is_table_name, is_tail_name};
use lk_report::InputFault;

/// The powers of two up to 2^20, which alignments of input sections are.
const SMALL_POWERS: [u64; 21] = [
    1, 2, 4, 8, 16, 32, 64, 128, 256, 512, 1024, 2048, 4096, 8192, 16384, 32768, 65536, 131_072,
    262_144, 524_288, 1_048_576,
];

/// Whether a section, by number, is of a type.
pub fn is_of_type(sections: &[Shdr], code: u32, n: u32) -> bool
    ensures { result ≡ is_of_type_in sections.now code n }
{
    match header_at(sections, n) {
        None => false,
        Some(found) => found.sh_type == code,
    }
}

/// The first fault of the section table.
#[tactic(auto, using(crate::proofs::Headers::section_reported), unfolding(lk_model::specs::ObjectChecks::table_checks))]
pub fn table_fault(bytes: &[u8], header: &Ehdr, sections: &[Shdr]) -> Option<InputFault>
    ensures { result ≡ first_fault (table_checks (elf_from bytes.now header.now sections.now [])) }
{
    if header.e_type != ET_REL {
        return Some(InputFault::WrongType);
    }
    if usize::from(header.e_shentsize) != SHDR_SIZE {
        return Some(InputFault::BadTable(0));
    }
    if header.e_shnum == 0 {
        return Some(InputFault::BadTable(0));
    }
    let size = SHDR_SIZE as u64 * u64::from(header.e_shnum);
    if !lies_in(bytes, header.e_shoff, size) {
        return Some(InputFault::BadTable(0));
    }
    if !is_of_type(sections, SHT_STRTAB, u32::from(header.e_shstrndx)) {
        return Some(InputFault::BadTable(0));
    }
    None
}

/// Whether the file does not hold a section's bytes.
pub fn is_cut_off(bytes: &[u8], section: &Shdr) -> bool
    ensures { result ≡ is_cut_off_in bytes.now section.now }
{
    section.sh_type != SHT_NULL
        && section.sh_type != SHT_NOBITS
        && !lies_in(bytes, section.sh_offset, section.sh_size)
}

pub(crate) fn is_small_power(n: u64) -> bool
    ensures { result ≡ is_small_power n }
{
    SMALL_POWERS.iter().any(|p| n == *p)
}

/// Whether sections may have this alignment.
fn is_alignment(n: u64) -> bool
    ensures { result ≡ is_alignment n }
{
    n == 0 || is_small_power(n)
}

/// The first fault of where a section's bytes are.
#[tactic(auto, unfolding(crate::specs::SectionParts::place_checks))]
fn place_fault(bytes: &[u8], n: u32, section: &Shdr) -> Option<InputFault>
    ensures { result ≡ first_fault (place_checks bytes.now n section.now) }
{
    if is_cut_off(bytes, section) {
        return Some(InputFault::BadTable(n));
    }
    if !is_alignment(section.sh_addralign) {
        return Some(InputFault::BadTable(n));
    }
    None
}

/// Whether a section is stored compressed.
fn is_compressed(section: &Shdr, name: &[u8]) -> bool
    ensures { result ≡ is_compressed section.now name.now }
{
    has_flag(section.sh_flags, SHF_COMPRESSED) || name.starts_with(b".zdebug_")
}

/// Whether a section is refused: of a refused type, or a piece with a name that the linker keeps for
/// itself.
fn is_unsupported(section: &Shdr, name: &[u8]) -> bool
    ensures { result ≡ is_unsupported section.now name.now }
{
    section.sh_type == SHT_REL
        || section.sh_type == SHT_SYMTAB_SHNDX
        || (is_piece(name, section.sh_type, section.sh_flags)
            && (is_table_name(name) || is_tail_name(name)))
}

/// Whether loaded sections may have this type.
fn is_loaded_type(code: u32) -> bool
    ensures { result ≡ list_any (nat_eq code) loaded_types }
{
    code == SHT_PROGBITS
        || code == SHT_NOBITS
        || code == SHT_NOTE
        || code == SHT_INIT_ARRAY
        || code == SHT_FINI_ARRAY
        || code == SHT_PREINIT_ARRAY
        || code == SHT_X86_64_UNWIND
}

/// Whether a section is loaded and of a type that loaded sections do not have.
fn is_unknown_alloc(section: &Shdr) -> bool
    ensures { result ≡ is_unknown_alloc section.now }
{
    has_flag(section.sh_flags, SHF_ALLOC) && !is_loaded_type(section.sh_type)
}

/// The first fault of what a section with this name is.
#[tactic(auto, unfolding(crate::specs::SectionParts::named_checks))]
fn named_fault(n: u32, section: &Shdr, name: &[u8]) -> Option<InputFault>
    ensures { result ≡ first_fault (named_checks n section.now name.now) }
{
    if is_compressed(section, name) {
        return Some(InputFault::Compressed(n));
    }
    if is_unsupported(section, name) {
        return Some(InputFault::UnsupportedSection(n));
    }
    if is_unknown_alloc(section) {
        return Some(InputFault::UnknownAlloc(n));
    }
    None
}

/// The first fault of what a section is, by its name.
#[tactic(auto, unfolding(crate::specs::SectionParts::name_checks, crate::specs::SectionParts::named_checks))]
fn name_fault(n: u32, section: &Shdr, name: Option<&[u8]>) -> Option<InputFault>
    ensures { result ≡ first_fault (name_checks n section.now (option_copied name.entry)) }
{
    match name {
        None => Some(InputFault::BadName(n)),
        Some(name) => named_fault(n, section, name),
    }
}

/// The first fault of a section.
#[tactic(auto, using(crate::proofs::FaultsFirst::place_reported, crate::proofs::FaultsFirst::name_reported))]
fn section_fault(
    bytes: &[u8],
    header: &Ehdr,
    sections: &[Shdr],
    n: u32,
    section: &Shdr,
) -> Option<InputFault>
    ensures { result ≡ first_fault (section_checks (elf_from bytes.now header.now sections.now []) (n, section.now)) }
{
    if let Some(fault) = place_fault(bytes, n, section) {
        return Some(fault);
    }
    name_fault(n, section, section_name(bytes, header, sections, n))
}

/// The first fault of the sections, by rising number.
#[tactic(auto, using(crate::proofs::FaultsFirst::fault_here, crate::proofs::FaultsFirst::no_fault_here, crate::proofs::FaultsFirst::no_section_left))]
pub fn sections_fault(bytes: &[u8], header: &Ehdr, sections: &[Shdr]) -> Option<InputFault>
    requires few { length sections.now < 2 ^ 32 }
    ensures { result ≡ first_fault (flat_map (section_checks (elf_from bytes.now header.now sections.now [])) (numbered sections.now)) }
{
    for i in 1..sections.len() {
        if let Some(fault) = section_fault(bytes, header, sections, i as u32, &sections[i]) {
            return Some(fault);
        }
    }
    None
}
