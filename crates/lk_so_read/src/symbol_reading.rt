//! The symbols of a shared object in one pass (gABI "Symbol Table"): each entry is read where it lies in the
//! file, its name is looked at, and it is kept if other files may mean it.

ghost use Rattle.std.specs.Prelude.{◌≡◌, ◌+◌, ◌*◌, ◌<◌, ◌≤◌, ◌^◌, Some, length, IfOk};
ghost use Rattle.lk_elf.specs.Records.{sym_at};
ghost use Rattle.lk_model.specs.Checks.{first_fault};
ghost use Rattle.lk_model.specs.Elf.{elf_of};
ghost use Rattle.lk_model.specs.SharedChecks.{shared_name_checks};
ghost use Rattle.lk_model.specs.SharedObjects.{offered_under, without_repeated};
ghost use Rattle.lk_so_read.specs.SymbolRows.{symbol_count};
ghost use Rattle.lk_summary.specs.Readings.{ReadGives};

use crate::offered_symbols::Offered;
use crate::string_texts::SymbolNames;
use lk_elf::numbers::SYM_SIZE;
use lk_elf::{Shdr, Sym};
use lk_model::summaries::GlobalList;
use lk_obj_parts::{lies_in, symbol_at};
use lk_report::{Bytes, InputFault, NoMemory};
use lk_summary::ReadFailure;
use std::alloc::Global;

/// How many symbols a table has in the file; none where its bytes do not lie in it.
///
/// # Errors
/// Out of memory, for 2^32 symbols or more, which numbers of 32 bits do not distinguish.
fn symbol_count(file: &Bytes, table: &Shdr) -> Result<usize, NoMemory>
    ensures value { IfOk result (λ count. count ≡ symbol_count file.now table.now) }
    ensures few { IfOk result (λ count. count < 2 ^ 32) }
    ensures numbers { IfOk result (λ count. 0 < count → table.now.sh_offset + 24 * count ≤ length file.now) }
    ensures fits { IfOk result (λ count. 0 < count → table.now.sh_offset + 24 * count < 2 ^ 64) }
{
    if !lies_in(file.as_slice(), table.sh_offset, table.sh_size) {
        return Ok(0);
    }
    let count = table.sh_size as usize / SYM_SIZE;
    if count > u32::MAX as usize {
        return Err(NoMemory);
    }
    Ok(count)
}

/// The symbol at an offset of the file.
fn symbol_in(file: &Bytes, at: usize) -> Sym
    requires { at + 24 ≤ length file.now }
    ensures { result ≡ sym_at file.now at }
{
    symbol_at(file.as_slice(), at)
}

/// The symbols of a table that other files may mean: references, and the first definition of each name.
///
/// # Errors
/// A symbol from entry 1 on without a name; out of memory.
pub(crate) fn offered_symbols(
    alloc: Global,
    file: &Bytes,
    sections: &[Shdr],
    table: &(u32, Shdr),
) -> Result<GlobalList, ReadFailure>
    requires read { sections.now ≡ (elf_of file.now).sections }
    ensures { ReadGives (first_fault (shared_name_checks (elf_of file.now) (Some table.now))) (λ globals. globals ≡ without_repeated (offered_under (elf_of file.now) table.now)) result }
{
    let at = table.1.sh_offset as usize;
    let names = SymbolNames {
        file,
        sections,
        strings: table.1.sh_link,
    };
    let count = symbol_count(file, &table.1)?;
    let mut offered = Offered::with_capacity(alloc, count)?;
    for k in 1..count {
        let symbol = symbol_in(file, at + SYM_SIZE * k);
        let text = names.text(symbol.st_name);
        let Some(text) = text else {
            return Err(ReadFailure::Input(InputFault::BadName(table.0)));
        };
        offered.add(k as u32, &symbol, text, &names)?;
    }
    Ok(offered.into_list())
}
