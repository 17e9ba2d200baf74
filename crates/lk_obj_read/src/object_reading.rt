//! From the bytes of a file to an object: its parts are read once, checked, and kept with what is read of
//! them. Of a file that was summarized before, only what the summary does not hold is read.

ghost use Rattle.std.specs.Prelude.{◌≡◌, ◌≤◌, ◌<◌, ◌*◌, ◌^◌, None, length, vec_len, IfOk};
ghost use Rattle.lk_elf.specs.Records.{ehdr_at};
ghost use Rattle.lk_model.specs.Elf.{elf_of};
ghost use Rattle.lk_model.specs.ObjectChecks.{object_fault};
ghost use Rattle.lk_model.specs.Objects.{summary_in};
ghost use Rattle.lk_summary.specs.Readings.{ReadGives};

use crate::local_symbols::place_of_symbols;
use crate::object_checks::sound_parts;
use crate::objects::Object;
use crate::relocation_lists::relocations_by_target;
use crate::summaries::read_summary;
use lk_elf::{Ehdr, Shdr};
use lk_model::summaries::InputSummary;
use lk_obj_parts::read_sections;
use lk_report::{Bytes, NoMemory};
use lk_summary::ReadFailure;
use std::alloc::Global;

/// The object of a file that has no fault, with its sections and its summary.
fn object_with(
    alloc: Global,
    bytes: Bytes,
    sections: Vec<Shdr>,
    summary: InputSummary,
) -> Result<Object, NoMemory>
    requires sound { object_fault bytes ≡ None }
    requires sections { sections.items ≡ (elf_of bytes).sections }
    requires few { length sections.items < 2 ^ 32 }
    requires summary { summary ≡ summary_in (elf_of bytes) }
    ensures { IfOk result (λ object. object ≡ bytes) }
{
    let relocations = relocations_by_target(alloc, &bytes, &sections)?;
    let file = bytes.as_slice();
    let symbols = place_of_symbols(file, &sections);
    Ok(Object {
        bytes,
        sections,
        symbols,
        summary,
        relocations,
    })
}

/// Reads a file as an object (gABI "Object Files"). The object takes the bytes, and copies none of them;
/// beside them it takes about 120 bytes a section, and its summary. At most 96 GiB.
///
/// # Errors
/// The file's first fault, or out of memory, which is tied to no cause. The bytes are then dropped.
pub fn read_object(alloc: Global, bytes: Bytes) -> Result<Object, ReadFailure>
    requires { length bytes ≤ 24 * 2 ^ 32 }
    ensures { ReadGives (object_fault bytes) (λ object. object ≡ bytes) result }
{
    let file = bytes.as_slice();
    let parts = sound_parts(alloc, file)?;
    let summary = read_summary(
        alloc,
        &bytes,
        &parts.header,
        &parts.sections,
        &parts.symbols,
    )?;
    Ok(object_with(alloc, bytes, parts.sections, summary)?)
}

/// The header of a file that has no fault (gABI "ELF Header").
#[tactic(auto, using(crate::proofs::ObjectFaults::header_there))]
fn header_of(bytes: &[u8]) -> Ehdr
    requires { object_fault bytes.now ≡ None }
    ensures { result ≡ ehdr_at bytes.now 0 }
{
    match Ehdr::read_at(bytes, 0) {
        Ok(header) => header,
        Err(_) => unreachable!(),
    }
}

/// The section headers of a file that has no fault.
#[tactic(auto, unfolding(lk_model::specs::Elf::elf_of, lk_model::specs::Elf::elf_under, lk_model::specs::Elf::elf_with))]
fn sections_of(alloc: Global, bytes: &[u8]) -> Result<Vec<Shdr>, NoMemory>
    requires { object_fault bytes.now ≡ None }
    ensures items { IfOk result (λ v. v.items ≡ (elf_of bytes.now).sections) }
    ensures few { IfOk result (λ v. vec_len v < 2 ^ 16) }
{
    let header = header_of(bytes);
    read_sections(alloc, bytes, &header)
}

/// The object of a file that has no fault, and whose summary this is, as `summarize` gave it: nothing is checked
/// anew, and no name is read. The object takes the bytes and the summary, and copies neither; beside them it takes
/// about 120 bytes a section.
///
/// # Errors
/// Out of memory alone. The bytes are then dropped.
pub fn object_of(alloc: Global, bytes: Bytes, summary: InputSummary) -> Result<Object, NoMemory>
    requires sound { object_fault bytes ≡ None }
    requires summary { summary ≡ summary_in (elf_of bytes) }
    ensures { IfOk result (λ object. object ≡ bytes) }
{
    let sections = sections_of(alloc, bytes.as_slice())?;
    object_with(alloc, bytes, sections, summary)
}

/// Reads what a link keeps of a file that is read as an object, and nothing else of it. At most 96 GiB.
///
/// # Errors
/// The file's first fault, or out of memory, which is tied to no cause.
pub fn summarize(alloc: Global, file: &Bytes) -> Result<InputSummary, ReadFailure>
    requires { length file.now ≤ 24 * 2 ^ 32 }
    ensures { ReadGives (object_fault file.now) (λ summary. summary ≡ summary_in (elf_of file.now)) result }
{
    let parts = sound_parts(alloc, file.as_slice())?;
    Ok(read_summary(alloc, file, &parts.header, &parts.sections, &parts.symbols)?)
}
