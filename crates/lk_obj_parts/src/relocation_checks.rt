//! The checks of the sections of relocations and of their entries (gABI "Relocation"), in their order: the
//! first that fails is reported, with the numbers of its section and entry. Entries are read one by one, and
//! no memory is taken. Whether a target is a piece, which its name decides, is asked of a faulty entry alone.

ghost use Rattle.std.specs.Prelude.{◌≡◌, ◌==◌, ◌+◌, ◌*◌, ◌^◌, ◌<◌, ◌≤◌, List, [], None, drop, flat_map, length};
ghost use Rattle.lk_elf.specs.declared.symbol.Sym.{Sym};
ghost use Rattle.lk_model.specs.Checks.{first_fault, is_some_with};
ghost use Rattle.lk_model.specs.ObjectChecks.{is_outside, rela_section_checks, rela_sections};
ghost use Rattle.lk_model.specs.Objects.{is_piece_in};
ghost use Rattle.lk_obj_parts.specs.ElfViews.{elf_from};
ghost use Rattle.lk_obj_parts.specs.RelocationEntries.{entry_count};
ghost use Rattle.lk_obj_parts.specs.RelocationParts.{entry_checks_among, entry_faults, head_checks, rela_row_checks, table_number};
ghost use Rattle.lk_obj_parts.specs.TargetRows.{TargetsFit};

use crate::relocations::{entry_at, entry_count};
use crate::texts::{header_at, section_name};
use lk_elf::numbers::{RELA_SIZE, SHT_NOBITS, SHT_RELA, SHT_SYMTAB};
use lk_elf::{Ehdr, Rela, Shdr, Sym};
use lk_outsec::{is_piece, may_be_piece};
use lk_reloc::width_of;
use lk_report::InputFault;

/// Whether a section, by its number, is a piece.
#[tactic(auto, using(crate::proofs::RelocationTargets::piece_reported, crate::proofs::RelocationTargets::none_named))]
pub(crate) fn is_piece_in(bytes: &[u8], header: &Ehdr, sections: &[Shdr], n: u32) -> bool
    ensures { (symbols : List Sym) → result ≡ is_piece_in (elf_from bytes.now header.now sections.now symbols) n }
{
    let Some(found) = header_at(sections, n) else {
        return false;
    };
    if !may_be_piece(found.sh_type, found.sh_flags) {
        return false;
    }
    match section_name(bytes, header, sections, n) {
        None => false,
        Some(name) => is_piece(name, found.sh_type, found.sh_flags),
    }
}

/// The number of the symbol table; none where the file has none.
#[tactic(auto, using(crate::proofs::RelocationTargets::table_here, crate::proofs::RelocationTargets::no_table_here, crate::proofs::RelocationTargets::no_table_left))]
fn table_number(sections: &[Shdr]) -> Option<u32>
    requires few { length sections.now < 2 ^ 32 }
    ensures { result ≡ table_number 1 (drop 1 sections.now) }
{
    for i in 1..sections.len() {
        if sections[i].sh_type == SHT_SYMTAB {
            return Some(i as u32);
        }
    }
    None
}

/// Whether the field of a relocation does not fit in a target of this size.
fn is_outside(size: u64, rela: &Rela) -> bool
    ensures { result ≡ is_outside size rela.now }
{
    let width = width_of(rela.r_type());
    size < width || size - width < rela.r_offset
}

/// The first fault of a relocation on this target, in a file of so many symbols.
#[tactic(auto, unfolding(crate::specs::RelocationParts::entry_checks_among))]
fn entry_fault(count: usize, n: u32, target: &Shdr, k: u32, rela: &Rela) -> Option<InputFault>
    ensures { result ≡ first_fault (entry_checks_among count n target.now (k, rela.now)) }
{
    if rela.r_symbol() as usize >= count {
        return Some(InputFault::BadRela(n, k));
    }
    if is_outside(target.sh_size, rela) {
        return Some(InputFault::BadRela(n, k));
    }
    if target.sh_type == SHT_NOBITS {
        return Some(InputFault::BadRela(n, k));
    }
    None
}

/// The first fault of the entries of a section of relocations on this target.
#[tactic(auto, using(crate::proofs::EntryFaults::entry_here, crate::proofs::EntryFaults::no_entry_here, crate::proofs::EntryFaults::no_entry_left))]
fn entries_fault(
    bytes: &[u8],
    count: usize,
    n: u32,
    section: &Shdr,
    target: &Shdr,
) -> Option<InputFault>
    requires few { length bytes.now ≤ 24 * 2 ^ 32 }
    ensures { result ≡ entry_faults bytes.now section.now count n target.now 0 (entry_count bytes.now section.now) }
{
    let entries = entry_count(bytes, section);
    for k in 0..entries {
        let rela = entry_at(bytes, section, k);
        if let Some(fault) = entry_fault(count, n, target, k as u32, &rela) {
            return Some(fault);
        }
    }
    None
}

fn is_number(number: Option<u32>, n: u32) -> bool
    ensures { result ≡ is_some_with (λ k. k == n) number }
{
    match number {
        None => false,
        Some(k) => k == n,
    }
}

/// The first fault of what a section of relocations says of itself, where the symbol table has this
/// number.
#[tactic(auto, using(crate::proofs::Headers::section_reported, crate::proofs::RelocationTargets::is_table_reported), unfolding(crate::specs::RelocationParts::head_checks))]
fn head_fault(
    bytes: &[u8],
    header: &Ehdr,
    sections: &[Shdr],
    symbols: &[Sym],
    table: Option<u32>,
    n: u32,
    section: &Shdr,
) -> Option<InputFault>
    requires table { table ≡ table_number 1 (drop 1 sections.now) }
    ensures { result ≡ first_fault (head_checks (elf_from bytes.now header.now sections.now symbols.now) n section.now) }
{
    if section.sh_entsize != RELA_SIZE as u64 {
        return Some(InputFault::BadTable(n));
    }
    if section.sh_size % RELA_SIZE as u64 != 0 {
        return Some(InputFault::BadTable(n));
    }
    if !is_number(table, section.sh_link) {
        return Some(InputFault::BadTable(n));
    }
    if header_at(sections, section.sh_info).is_none() {
        return Some(InputFault::BadTable(n));
    }
    None
}

/// The first fault of a section of relocations, where the symbol table has this number.
#[tactic(auto, using(crate::proofs::Headers::section_reported, crate::proofs::EntryFaults::head_reported, crate::proofs::EntryFaults::no_target, crate::proofs::EntryFaults::no_piece))]
fn rela_section_fault(
    bytes: &[u8],
    header: &Ehdr,
    sections: &[Shdr],
    symbols: &[Sym],
    table: Option<u32>,
    n: u32,
    section: &Shdr,
) -> Option<InputFault>
    requires few { length bytes.now ≤ 24 * 2 ^ 32 }
    requires table { table ≡ table_number 1 (drop 1 sections.now) }
    ensures { result ≡ first_fault (rela_section_checks (elf_from bytes.now header.now sections.now symbols.now) (n, section.now)) }
{
    if let Some(fault) = head_fault(bytes, header, sections, symbols, table, n, section) {
        return Some(fault);
    }
    let Some(target) = header_at(sections, section.sh_info) else {
        return None;
    };
    let Some(fault) = entries_fault(bytes, symbols.len(), n, section, target) else {
        return None;
    };
    if !is_piece_in(bytes, header, sections, section.sh_info) {
        return None;
    }
    Some(fault)
}

/// The first fault of a section, where it holds relocations.
fn row_fault(
    bytes: &[u8],
    header: &Ehdr,
    sections: &[Shdr],
    symbols: &[Sym],
    table: Option<u32>,
    n: u32,
    section: &Shdr,
) -> Option<InputFault>
    requires few { length bytes.now ≤ 24 * 2 ^ 32 }
    requires table { table ≡ table_number 1 (drop 1 sections.now) }
    ensures { result ≡ first_fault (rela_row_checks (elf_from bytes.now header.now sections.now symbols.now) (n, section.now)) }
{
    if section.sh_type == SHT_RELA {
        rela_section_fault(bytes, header, sections, symbols, table, n, section)
    } else {
        None
    }
}

/// The first fault of the sections of relocations, by rising number, in a file with these symbols.
#[tactic(auto, using(crate::proofs::RowFaults::no_row_left, crate::proofs::RowFaults::rela_rows, crate::proofs::FieldsWithin::targets_fit))]
pub fn rela_faults(
    bytes: &[u8],
    header: &Ehdr,
    sections: &[Shdr],
    symbols: &[Sym],
) -> Option<InputFault>
    requires few_entries { length bytes.now ≤ 24 * 2 ^ 32 }
    requires few_sections { length sections.now < 2 ^ 32 }
    ensures fault { result ≡ (let elf = elf_from bytes.now header.now sections.now symbols.now in first_fault (flat_map (rela_section_checks elf) (rela_sections elf))) }
    ensures fit { result ≡ None → TargetsFit (elf_from bytes.now header.now sections.now []) }
{
    let table = table_number(sections);
    for i in 1..sections.len() {
        if let Some(fault) = row_fault(
            bytes,
            header,
            sections,
            symbols,
            table,
            i as u32,
            &sections[i],
        ) {
            return Some(fault);
        }
    }
    None
}
