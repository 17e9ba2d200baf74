//! The headers and symbols that tests make theirs of, and what a check reports.

use lk_elf::numbers::{ET_REL, SHN_UNDEF, SHT_NULL};
use lk_elf::{Ehdr, Shdr, Sym};
use lk_report::{InputFault, NoMemory};

/// The first fault, or none, where there was memory to look for it.
pub type Answer = Result<Option<InputFault>, NoMemory>;

/// The header of a relocatable object without sections.
pub const NO_SECTIONS: Ehdr = Ehdr {
    e_ident: [0x7f, b'E', b'L', b'F', 2, 1, 1, 0, 0, 0, 0, 0, 0, 0, 0, 0],
    e_type: ET_REL,
    e_machine: 62,
    e_version: 1,
    e_entry: 0,
    e_phoff: 0,
    e_shoff: 0,
    e_flags: 0,
    e_ehsize: 64,
    e_phentsize: 0,
    e_phnum: 0,
    e_shentsize: 64,
    e_shnum: 0,
    e_shstrndx: 0,
};

/// The null section.
pub const NO_SECTION: Shdr = Shdr {
    sh_name: 0,
    sh_type: SHT_NULL,
    sh_flags: 0,
    sh_addr: 0,
    sh_offset: 0,
    sh_size: 0,
    sh_link: 0,
    sh_info: 0,
    sh_addralign: 0,
    sh_entsize: 0,
};

/// The null symbol.
pub const NO_SYMBOL: Sym = Sym {
    st_name: 0,
    st_info: 0,
    st_other: 0,
    st_shndx: SHN_UNDEF,
    st_value: 0,
    st_size: 0,
};

/// Whether a text was found, and is this one.
pub fn is_text(found: Option<&[u8]>, wanted: &[u8]) -> bool {
    match found {
        None => false,
        Some(found) => found == wanted,
    }
}
