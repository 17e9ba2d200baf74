//! From the bytes of a file to what a link keeps of it as a shared object, or its first fault.

ghost use Rattle.std.specs.Prelude.{◌≡◌, ◌<◌, ◌^◌, Ok, length};
ghost use Rattle.lk_elf.specs.Records.{ehdr_at};
ghost use Rattle.lk_model.specs.Checks.{first_fault};
ghost use Rattle.lk_model.specs.Elf.{elf_of};
ghost use Rattle.lk_model.specs.SharedChecks.{shared_checks, shared_fault};
ghost use Rattle.lk_model.specs.SharedObjects.{shared_summary_in};
ghost use Rattle.lk_so_read.specs.SharedParts.{TablesGive, summary_with};
ghost use Rattle.lk_summary.specs.Readings.{ReadGives};

use crate::dynamic_tables::{DynamicTables, sound_tables};
use crate::sonames::soname;
use crate::symbol_reading::offered_symbols;
use lk_elf::{Ehdr, Shdr};
use lk_model::summaries::{GlobalList, InputSummary, Kind};
use lk_obj_parts::read_sections;
use lk_report::{Bytes, InputFault, List, Name};
use lk_summary::{ReadFailure, kind_of};
use std::alloc::Global;

/// What a link keeps of a shared object with these symbols and this name.
#[tactic(auto, unfolding(crate::specs::SharedParts::summary_with))]
fn shared_summary(alloc: Global, soname: Name, globals: GlobalList) -> InputSummary
    ensures { result ≡ summary_with soname globals }
{
    InputSummary {
        kind: Kind::Shared,
        soname,
        exec_stack: false,
        pieces: List::new(alloc),
        globals,
        groups: List::new(alloc),
    }
}

/// What a link keeps of a shared object of these two tables, which have no fault before their entries.
#[tactic(auto, using(crate::proofs::SharedFaults::names_stop, crate::proofs::SharedFaults::soname_ends, crate::proofs::SharedSummaries::summary_read))]
fn summary_of_tables(
    alloc: Global,
    file: &Bytes,
    sections: &[Shdr],
    tables: &DynamicTables,
    path: &Name,
) -> Result<InputSummary, ReadFailure>
    requires read { sections.now ≡ (elf_of file.now).sections }
    requires sound { TablesGive (elf_of file.now) (Ok tables.now) }
    ensures { ReadGives (first_fault (shared_checks (elf_of file.now))) (λ summary. summary ≡ shared_summary_in path.now (elf_of file.now)) result }
{
    let globals = offered_symbols(alloc, file, sections, &tables.symbols)?;
    let soname = soname(alloc, file.as_slice(), sections, &tables.dynamic, path)?;
    Ok(shared_summary(alloc, soname, globals))
}

/// The two tables of a file with this header, or its first fault before their entries.
fn tables_of(file: &Bytes, header: &Ehdr, sections: &[Shdr]) -> Result<DynamicTables, InputFault>
    requires headed { header.now ≡ (elf_of file.now).header }
    requires read { sections.now ≡ (elf_of file.now).sections }
    requires few { length sections.now < 2 ^ 32 }
    ensures { TablesGive (elf_of file.now) result }
{
    sound_tables(file.as_slice(), header, sections)
}

/// What a link keeps of a file with this header, which is one of ELF64 for this machine.
#[tactic(auto, using(crate::proofs::FileParts::header_of_file, crate::proofs::FileParts::sections_of_file, crate::proofs::SharedFaults::front_stops))]
fn summary_under(
    alloc: Global,
    file: &Bytes,
    header: &Ehdr,
    path: &Name,
) -> Result<InputSummary, ReadFailure>
    requires headed { header.now ≡ ehdr_at file.now 0 }
    ensures { ReadGives (first_fault (shared_checks (elf_of file.now))) (λ summary. summary ≡ shared_summary_in path.now (elf_of file.now)) result }
{
    let sections = read_sections(alloc, file.as_slice(), header)?;
    match tables_of(file, header, &sections) {
        Ok(tables) => summary_of_tables(alloc, file, &sections, &tables, path),
        Err(fault) => Err(ReadFailure::Input(fault)),
    }
}

/// Reads what a link keeps of a file that is read as a shared object (gABI "Symbol Table", "Dynamic Section"):
/// the symbols that other files may mean, and the name by which an image needs it, which is its SONAME, else
/// the last part of its path. Beside the summary it takes less than 60 bytes a symbol while it reads.
///
/// # Errors
/// The file's first fault, or out of memory, which is tied to no cause.
#[tactic(auto, using(crate::proofs::SharedFaults::kind_reported, crate::proofs::SharedFaults::checks_reported, lk_summary::proofs::KindsKnown::no_header))]
pub fn read_shared(alloc: Global, file: &Bytes, path: &Name) -> Result<InputSummary, ReadFailure>
    ensures { ReadGives (shared_fault file.now) (λ summary. summary ≡ shared_summary_in path.now (elf_of file.now)) result }
{
    if let Err(fault) = kind_of(file.as_slice()) {
        return Err(ReadFailure::Input(fault));
    }
    match Ehdr::read_at(file.as_slice(), 0) {
        Ok(header) => summary_under(alloc, file, &header, path),
        Err(_) => Err(ReadFailure::Input(InputFault::NotElf)),
    }
}
