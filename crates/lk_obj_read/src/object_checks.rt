//! Whether bytes are an object that can be linked (gABI "Object Files"): all checks in their order, and
//! the first fault with its place.

ghost use Rattle.std.specs.Prelude.{◌≡◌, ◌≤◌, ◌<◌, ◌*◌, ◌^◌, length, IfOk};
ghost use Rattle.lk_elf.specs.Records.{ehdr_at};
ghost use Rattle.lk_elf.specs.Numbers.{sht_symtab};
ghost use Rattle.lk_model.specs.Checks.{first_fault};
ghost use Rattle.lk_model.specs.Elf.{elf_of, first_of_type, section_headers_of, symbols_of};
ghost use Rattle.lk_model.specs.Kinds.{kind_checks};
ghost use Rattle.lk_model.specs.ObjectChecks.{object_checks, object_fault};
ghost use Rattle.lk_obj_parts.specs.ElfViews.{elf_from};
ghost use Rattle.lk_obj_read.specs.ObjectParts.{reference_half, table_half};
ghost use Rattle.lk_obj_read.specs.ReadObjects.{ArePartsOf};
ghost use Rattle.lk_summary.specs.Readings.{ReadGives};

use crate::file_parts::FileParts;
use lk_elf::{Ehdr, Shdr, Sym};
use lk_obj_parts::{
    groups_fault, overlap_fault, read_sections, read_symbols, rela_faults, sections_fault,
    symbol_table_fault, symbols_fault, table_fault,
};
use lk_report::{InputFault, NoMemory};
use lk_summary::{ReadFailure, kind_of};
use std::alloc::Global;

/// The first fault of the tables of sections and symbols.
#[tactic(auto, using(crate::proofs::ObjectFaults::table_stops, crate::proofs::ObjectFaults::sections_stop, crate::proofs::ObjectFaults::symtab_stops, crate::proofs::ObjectFaults::symbols_end))]
fn tables_fault(
    bytes: &[u8],
    header: &Ehdr,
    sections: &[Shdr],
    symbols: &[Sym],
) -> Option<InputFault>
    requires few_sections { length sections.now < 2 ^ 32 }
    requires few_symbols { length symbols.now < 2 ^ 32 }
    ensures { result ≡ first_fault (table_half (elf_from bytes.now header.now sections.now symbols.now)) }
{
    if let Some(fault) = table_fault(bytes, header, sections) {
        return Some(fault);
    }
    if let Some(fault) = sections_fault(bytes, header, sections) {
        return Some(fault);
    }
    if let Some(fault) = symbol_table_fault(sections, symbols) {
        return Some(fault);
    }
    symbols_fault(bytes, sections, symbols)
}

/// The first fault of what refers to them: relocations and groups.
#[tactic(auto, using(crate::proofs::ObjectFaults::relas_stop, crate::proofs::ObjectFaults::overlaps_stop, crate::proofs::ObjectFaults::groups_end))]
fn references_fault(
    alloc: Global,
    bytes: &[u8],
    header: &Ehdr,
    sections: &[Shdr],
    symbols: &[Sym],
) -> Result<Option<InputFault>, NoMemory>
    requires few_entries { length bytes.now ≤ 24 * 2 ^ 32 }
    requires few_sections { length sections.now < 2 ^ 32 }
    ensures { IfOk result (λ fault. fault ≡ first_fault (reference_half (elf_from bytes.now header.now sections.now symbols.now))) }
{
    if let Some(fault) = rela_faults(bytes, header, sections, symbols) {
        return Ok(Some(fault));
    }
    if let Some(fault) = overlap_fault(alloc, bytes, header, sections)? {
        return Ok(Some(fault));
    }
    groups_fault(alloc, bytes, header, sections, symbols)
}

/// The first fault of a file of these parts.
#[tactic(auto, using(crate::proofs::ObjectFaults::tables_reported, crate::proofs::ObjectFaults::references_reported))]
fn parts_fault(
    alloc: Global,
    bytes: &[u8],
    header: &Ehdr,
    sections: &[Shdr],
    symbols: &[Sym],
) -> Result<Option<InputFault>, NoMemory>
    requires few_entries { length bytes.now ≤ 24 * 2 ^ 32 }
    requires few_sections { length sections.now < 2 ^ 32 }
    requires few_symbols { length symbols.now < 2 ^ 32 }
    ensures { IfOk result (λ fault. fault ≡ first_fault (object_checks (elf_from bytes.now header.now sections.now symbols.now))) }
{
    if let Some(fault) = tables_fault(bytes, header, sections, symbols) {
        return Ok(Some(fault));
    }
    references_fault(alloc, bytes, header, sections, symbols)
}

/// The parts of a file with this header.
fn read_parts(alloc: Global, bytes: &[u8], header: Ehdr) -> Result<FileParts, NoMemory>
    requires its_own { header ≡ ehdr_at bytes.now 0 }
    ensures { IfOk result (ArePartsOf bytes.now) }
{
    let sections = read_sections(alloc, bytes, &header)?;
    let symbols = read_symbols(alloc, bytes, &sections)?;
    Ok(FileParts {
        header,
        sections,
        symbols,
    })
}

/// The parts of a file with this header, which is one of ELF64 for this machine, or the first fault of its
/// checks.
fn checked_parts(alloc: Global, bytes: &[u8], header: Ehdr) -> Result<FileParts, ReadFailure>
    requires few_entries { length bytes.now ≤ 24 * 2 ^ 32 }
    requires its_own { header ≡ ehdr_at bytes.now 0 }
    ensures { ReadGives (first_fault (object_checks (elf_of bytes.now))) (ArePartsOf bytes.now) result }
{
    let parts = read_parts(alloc, bytes, header)?;
    match parts_fault(alloc, bytes, &parts.header, &parts.sections, &parts.symbols)? {
        Some(fault) => Err(ReadFailure::Input(fault)),
        None => Ok(parts),
    }
}

/// The parts of a file that can be linked as an object, or its first fault.
#[tactic(auto, using(crate::proofs::ObjectFaults::kind_reported, lk_summary::proofs::KindsKnown::no_header, crate::proofs::ObjectFaults::checks_reported))]
pub(crate) fn sound_parts(alloc: Global, bytes: &[u8]) -> Result<FileParts, ReadFailure>
    requires few_entries { length bytes.now ≤ 24 * 2 ^ 32 }
    ensures { ReadGives (object_fault bytes.now) (ArePartsOf bytes.now) result }
{
    if let Err(fault) = kind_of(bytes) {
        return Err(ReadFailure::Input(fault));
    }
    match Ehdr::read_at(bytes, 0) {
        Ok(header) => checked_parts(alloc, bytes, header),
        Err(_) => Err(ReadFailure::Input(InputFault::NotElf)),
    }
}

/// The first fault of a file that is read as an object; none where it is one. At most 96 GiB.
///
/// # Errors
/// Out of memory alone.
pub fn object_fault(alloc: Global, bytes: &[u8]) -> Result<Option<InputFault>, NoMemory>
    requires few_entries { length bytes.now ≤ 24 * 2 ^ 32 }
    ensures { IfOk result (λ fault. fault ≡ object_fault bytes.now) }
{
    match sound_parts(alloc, bytes) {
        Ok(_) => Ok(None),
        Err(ReadFailure::Input(fault)) => Ok(Some(fault)),
        Err(ReadFailure::NoMemory) => Err(NoMemory),
    }
}
