//! The symbols of dynamic linking and the dynamic section (gABI "Symbol Table", "Dynamic Section"): where
//! they are, and their checks before their entries are looked at.

ghost use Rattle.std.specs.Prelude.{◌≡◌, ◌<◌, ◌^◌, length};
ghost use Rattle.lk_model.specs.Checks.{first_fault};
ghost use Rattle.lk_model.specs.Elf.{elf_of};
ghost use Rattle.lk_model.specs.SharedChecks.{has_cut_off_strings, two_table_checks};
ghost use Rattle.lk_so_read.specs.SharedParts.{TablesGive, fit_checks, form_checks};

use crate::section_tables::{first_of_type, header_fault};
use lk_elf::numbers::{DYN_SIZE, SHT_DYNAMIC, SHT_DYNSYM, SHT_STRTAB, SYM_SIZE};
use lk_elf::{Ehdr, Shdr};
use lk_obj_parts::{header_at, is_cut_off, is_of_type};
use lk_report::InputFault;

/// The two tables of a shared object, each with its section's number.
#[derive(Clone, Copy)]
pub(crate) struct DynamicTables {
    /// The symbols of dynamic linking: the first section of type DYNSYM.
    pub(crate) symbols: (u32, Shdr),
    /// The dynamic section: the first section of type DYNAMIC.
    pub(crate) dynamic: (u32, Shdr),
}

/// Whether the string section that a table names is there, and the file does not hold it.
#[tactic(auto, using(lk_obj_parts::proofs::Headers::section_reported, crate::proofs::FileParts::bytes_of_file))]
fn has_cut_off_strings(bytes: &[u8], sections: &[Shdr], table: &Shdr) -> bool
    requires read { sections.now ≡ (elf_of bytes.now).sections }
    ensures { result ≡ has_cut_off_strings (elf_of bytes.now) table.now }
{
    match header_at(sections, table.sh_link) {
        None => false,
        Some(strings) => strings.sh_type == SHT_STRTAB && is_cut_off(bytes, strings),
    }
}

/// The first table or string section that the file does not hold.
#[tactic(auto, using(crate::proofs::FileParts::bytes_of_file), unfolding(crate::specs::SharedParts::fit_checks))]
fn fit_fault(
    bytes: &[u8],
    sections: &[Shdr],
    symbols: &(u32, Shdr),
    dynamic: &(u32, Shdr),
) -> Option<InputFault>
    requires read { sections.now ≡ (elf_of bytes.now).sections }
    ensures { result ≡ first_fault (fit_checks (elf_of bytes.now) symbols.now dynamic.now) }
{
    if is_cut_off(bytes, &symbols.1) {
        return Some(InputFault::BadTable(symbols.0));
    }
    if is_cut_off(bytes, &dynamic.1) {
        return Some(InputFault::BadTable(dynamic.0));
    }
    if has_cut_off_strings(bytes, sections, &symbols.1) {
        return Some(InputFault::BadTable(symbols.1.sh_link));
    }
    if has_cut_off_strings(bytes, sections, &dynamic.1) {
        return Some(InputFault::BadTable(dynamic.1.sh_link));
    }
    None
}

/// The first fault of the sizes of the two tables, and of the string sections that they name.
#[tactic(auto, using(lk_obj_parts::proofs::Headers::section_reported), unfolding(crate::specs::SharedParts::form_checks))]
fn form_fault(
    bytes: &[u8],
    sections: &[Shdr],
    symbols: &(u32, Shdr),
    dynamic: &(u32, Shdr),
) -> Option<InputFault>
    requires read { sections.now ≡ (elf_of bytes.now).sections }
    ensures { result ≡ first_fault (form_checks (elf_of bytes.now) symbols.now dynamic.now) }
{
    if symbols.1.sh_size % SYM_SIZE as u64 != 0 {
        return Some(InputFault::BadTable(symbols.0));
    }
    if dynamic.1.sh_size % DYN_SIZE as u64 != 0 {
        return Some(InputFault::BadTable(dynamic.0));
    }
    if !is_of_type(sections, SHT_STRTAB, symbols.1.sh_link) {
        return Some(InputFault::BadTable(symbols.0));
    }
    if !is_of_type(sections, SHT_STRTAB, dynamic.1.sh_link) {
        return Some(InputFault::BadTable(dynamic.0));
    }
    None
}

/// The first fault of the two tables.
#[tactic(auto, using(crate::proofs::SharedFaults::fit_stops, crate::proofs::SharedFaults::form_ends))]
fn tables_fault(
    bytes: &[u8],
    sections: &[Shdr],
    symbols: &(u32, Shdr),
    dynamic: &(u32, Shdr),
) -> Option<InputFault>
    requires read { sections.now ≡ (elf_of bytes.now).sections }
    ensures { result ≡ first_fault (two_table_checks (elf_of bytes.now) (Some symbols.now) (Some dynamic.now)) }
{
    if let Some(fault) = fit_fault(bytes, sections, symbols, dynamic) {
        return Some(fault);
    }
    form_fault(bytes, sections, symbols, dynamic)
}

/// The two tables of a shared object.
///
/// # Errors
/// The first fault of the section table; that one of the two is missing; the first fault of the two.
#[tactic(auto, using(crate::proofs::SharedFaults::header_stops, crate::proofs::SharedFaults::no_symbols, crate::proofs::SharedFaults::no_dynamic, crate::proofs::SharedFaults::tables_end))]
pub(crate) fn sound_tables(
    bytes: &[u8],
    header: &Ehdr,
    sections: &[Shdr],
) -> Result<DynamicTables, InputFault>
    requires headed { header.now ≡ (elf_of bytes.now).header }
    requires read { sections.now ≡ (elf_of bytes.now).sections }
    requires few { length sections.now < 2 ^ 32 }
    ensures { TablesGive (elf_of bytes.now) result }
{
    if let Some(fault) = header_fault(bytes, header, sections) {
        return Err(fault);
    }
    let Some(symbols) = first_of_type(sections, SHT_DYNSYM) else {
        return Err(InputFault::NoDynamic);
    };
    let Some(dynamic) = first_of_type(sections, SHT_DYNAMIC) else {
        return Err(InputFault::NoDynamic);
    };
    match tables_fault(bytes, sections, &symbols, &dynamic) {
        Some(fault) => Err(fault),
        None => Ok(DynamicTables { symbols, dynamic }),
    }
}
