//! What a link keeps of an object, read from its bytes: pieces, symbols, groups, and whether it asks for an
//! executable stack.

ghost use Rattle.std.specs.Prelude.{◌≡◌, ◌<◌, ◌^◌, length, IfOk};
ghost use Rattle.lk_model.specs.Objects.{summary_in};
ghost use Rattle.lk_obj_parts.specs.ElfViews.{elf_from};

use crate::pieces::pieces_of;
use crate::stack_requests::asks_exec_stack;
use lk_elf::{Ehdr, Shdr, Sym};
use lk_model::summaries::{InputSummary, Kind};
use lk_obj_parts::{globals_of, groups_of};
use lk_report::{Bytes, Name, NoMemory};
use std::alloc::Global;

/// What a link keeps of an object of these parts, whether or not it has faults.
///
/// Numbers of sections and of symbols are numbers of 32 bits.
///
/// # Errors
/// Out of memory alone.
#[tactic(auto, unfolding(lk_model::specs::Objects::summary_in))]
pub fn read_summary(
    alloc: Global,
    file: &Bytes,
    header: &Ehdr,
    sections: &[Shdr],
    symbols: &[Sym],
) -> Result<InputSummary, NoMemory>
    requires few_sections { length sections.now < 2 ^ 32 }
    requires few_symbols { length symbols.now < 2 ^ 32 }
    ensures { IfOk result (λ summary. summary ≡ summary_in (elf_from file.now header.now sections.now symbols.now)) }
{
    let bytes = file.as_slice();
    let exec_stack = asks_exec_stack(bytes, header, sections);
    let pieces = pieces_of(alloc, file, header, sections)?;
    let globals = globals_of(alloc, file, sections, symbols)?;
    let groups = groups_of(alloc, bytes, header, sections, symbols)?;
    Ok(InputSummary {
        kind: Kind::Object,
        soname: Name::empty(),
        exec_stack,
        pieces,
        globals,
        groups,
    })
}
