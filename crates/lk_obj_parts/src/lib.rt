//! Objects are read part by part (gABI "Object Files"): any bytes come in, and out comes a part of the
//! relocatable object, or the first fault of that part with its place.
//!
//! The parts: the section table (`read_sections`, `table_fault`, `sections_fault`), the symbols
//! (`read_symbols`, `symbol_table_fault`, `symbols_fault`, `globals_of`, `local_of`), the relocations
//! (`entry_count`, `rela_at`, `rela_faults`, `overlap_fault`), the groups (`groups_fault`, `groups_of`). Which
//! sections are pieces lk_outsec says, and how wide a field is lk_reloc.
//! Each contract cites the definition of that name in lk_model (Elf, Pieces, Objects, ObjectChecks), at
//! the file that `elf_from` in specs/ElfViews makes of the bytes and of what was read from them.
//!
//! Callers rely on one law: what is answered is the definition's value, on any bytes. Out of memory
//! alone is tied to no cause; it is answered only by the calls that take an allocator.
#![tactic(auto)]

mod file_table;
mod group_checks;
mod groups;
mod overlaps;
mod relocation_checks;
mod relocations;
mod rising_fields;
mod section_checks;
mod signatures;
mod symbol_checks;
mod symbol_tables;
mod symbols;
mod target_rows;
mod texts;

pub use file_table::{lies_in, read_sections};
pub use group_checks::groups_fault;
pub use groups::{groups_of, word_under};
pub use overlaps::overlap_fault;
pub use relocation_checks::rela_faults;
pub use relocations::{entry_count, rela_at};
pub use section_checks::{is_cut_off, is_of_type, sections_fault, table_fault};
pub use signatures::signature_of;
pub use symbol_checks::{symbol_table_fault, symbols_fault};
pub use symbols::{globals_of, local_of, read_symbols, symbol_at, symbol_table};
pub use texts::{
    header_at, name_at, rest_from, section_bytes, section_name, shared_name, shared_section_name,
    text_in,
};
