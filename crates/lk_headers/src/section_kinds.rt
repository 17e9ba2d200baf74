//! The fields of a section header by the name and the class of the section (gABI "Sections", "Special Sections").

ghost use Rattle.std.specs.Prelude.{◌≡◌};
ghost use Rattle.lk_model.specs.SectionKeys.{header_flags, header_type, typed_keys};
ghost use Rattle.lk_model.specs.Tail.{entry_size_of, info_of, is_symtab_part, part_type};
ghost use Rattle.lk_headers.specs.SectionKinds.{table_types, type_among};
ghost use Rattle.lk_headers.specs.SectionTable.{part_entry_size, part_info};

use crate::shown::{is_key, is_name, is_note};
use lk_elf::numbers::{
    DYN_SIZE, RELA_SIZE, SHF_ALLOC, SHF_EXECINSTR, SHF_TLS, SHF_WRITE, SHT_DYNAMIC, SHT_DYNSYM,
    SHT_FINI_ARRAY, SHT_HASH, SHT_INIT_ARRAY, SHT_NOBITS, SHT_NOTE, SHT_PREINIT_ARRAY,
    SHT_PROGBITS, SHT_RELA, SHT_STRTAB, SHT_SYMTAB, SYM_SIZE,
};
use lk_model::classes::in_file;
use lk_model::layouts::{Class, SectionKey};

/// The `sh_type` of a table of a dynamic link; PROGBITS for any other section.
#[tactic(auto, unfolding(crate::specs::SectionKinds::table_types))]
fn table_type(key: &SectionKey) -> u32
    ensures { result ≡ type_among table_types key.now }
{
    if is_key(key, b".hash", Class::R) {
        SHT_HASH
    } else if is_key(key, b".dynsym", Class::R) {
        SHT_DYNSYM
    } else if is_key(key, b".dynstr", Class::R) {
        SHT_STRTAB
    } else if is_key(key, b".rela.dyn", Class::R) || is_key(key, b".rela.plt", Class::R) {
        SHT_RELA
    } else if is_key(key, b".dynamic", Class::W) {
        SHT_DYNAMIC
    } else {
        SHT_PROGBITS
    }
}

/// The `sh_type` of an array of functions, and of any other section that takes bytes of the file.
#[tactic(auto, unfolding(crate::specs::SectionKinds::table_types))]
fn stored_type(key: &SectionKey) -> u32
    ensures { result ≡ type_among typed_keys key.now }
{
    if is_key(key, b".init_array", Class::W) {
        SHT_INIT_ARRAY
    } else if is_key(key, b".fini_array", Class::W) {
        SHT_FINI_ARRAY
    } else if is_key(key, b".preinit_array", Class::W) {
        SHT_PREINIT_ARRAY
    } else {
        table_type(key)
    }
}

/// The `sh_type` of a section.
#[tactic(auto, unfolding(lk_model::specs::SectionKeys::header_type))]
pub(crate) fn header_type(key: &SectionKey) -> u32
    ensures { result ≡ header_type key.now }
{
    if !in_file(key.class) {
        SHT_NOBITS
    } else if is_note(key) {
        SHT_NOTE
    } else {
        stored_type(key)
    }
}

/// The `sh_flags` of the sections of a class.
pub(crate) fn header_flags(class: Class) -> u64
    ensures { result ≡ header_flags class }
{
    match class {
        Class::R => SHF_ALLOC,
        Class::X => SHF_ALLOC + SHF_EXECINSTR,
        Class::W => SHF_ALLOC + SHF_WRITE,
        Class::WX => SHF_ALLOC + SHF_WRITE + SHF_EXECINSTR,
        Class::Tdata => SHF_ALLOC + SHF_WRITE + SHF_TLS,
        Class::Tbss => SHF_ALLOC + SHF_WRITE + SHF_TLS,
        Class::Bss => SHF_ALLOC + SHF_WRITE,
        Class::N => 0,
    }
}

/// The `sh_info` of a section: of a symbol table the number of its first symbol that is not LOCAL, else 0.
pub(crate) fn info_of(key: &SectionKey) -> u32
    ensures { result ≡ info_of key.now }
{
    if is_key(key, b".dynsym", Class::R) {
        1
    } else {
        0
    }
}

/// The `sh_entsize` of a section: the size in bytes of an entry of a table, else 0.
pub(crate) fn entry_size_of(key: &SectionKey) -> u64
    ensures { result ≡ entry_size_of key.now }
{
    if is_key(key, b".dynsym", Class::R) {
        SYM_SIZE as u64
    } else if is_key(key, b".rela.dyn", Class::R) {
        RELA_SIZE as u64
    } else if is_key(key, b".rela.plt", Class::R) {
        RELA_SIZE as u64
    } else if is_key(key, b".dynamic", Class::W) {
        DYN_SIZE as u64
    } else if is_key(key, b".hash", Class::R) {
        4
    } else {
        0
    }
}

/// Whether a part of the tail is the table of symbols.
pub(crate) fn is_symtab_part(name: &[u8]) -> bool
    ensures { result ≡ is_symtab_part name.now }
{
    is_name(name, b".symtab")
}

/// The `sh_type` of a part of the tail.
pub(crate) fn part_type(name: &[u8]) -> u32
    ensures { result ≡ part_type name.now }
{
    if is_symtab_part(name) {
        SHT_SYMTAB
    } else if is_name(name, b".strtab") || is_name(name, b".shstrtab") {
        SHT_STRTAB
    } else {
        SHT_PROGBITS
    }
}

/// The `sh_info` of a part: the number of its first symbol that is not LOCAL, 0 without symbols.
pub(crate) fn part_info(name: &[u8]) -> u32
    ensures { result ≡ part_info name.now }
{
    if is_symtab_part(name) { 1 } else { 0 }
}

/// The `sh_entsize` of a part: the size in bytes of a symbol, 0 without symbols.
pub(crate) fn part_entry_size(name: &[u8]) -> u64
    ensures { result ≡ part_entry_size name.now }
{
    if is_symtab_part(name) {
        SYM_SIZE as u64
    } else {
        0
    }
}
