//! LOCAL symbols (gABI "Symbol Table"), read from the bytes of the file where they are asked for: an object
//! keeps no second copy of its symbols.

ghost use Rattle.std.specs.Prelude.{◌≡◌, ◌+◌, ◌*◌, ◌^◌, ◌<◌, ◌≤◌, length};
ghost use Rattle.lk_elf.specs.Numbers.{sht_symtab};
ghost use Rattle.lk_elf.specs.Records.{sym_at};
ghost use Rattle.lk_model.specs.Elf.{first_of_type, symbols_of};
ghost use Rattle.lk_model.specs.Objects.{local_with, null_symbol};
ghost use Rattle.lk_obj_parts.specs.SymbolParts.{local_among};
ghost use Rattle.lk_obj_read.specs.ReadObjects.{AreAt, symbols_at};

use crate::symbol_places::SymbolPlace;
use lk_elf::numbers::SYM_SIZE;
use lk_elf::{Shdr, Sym};
use lk_model::summaries::Local;
use lk_obj_parts::{local_of, symbol_table};

/// Where the symbols of a file with these sections are; none where it has no symbol table, or where the
/// table does not lie in the file.
#[tactic(auto, unfolding(lk_model::specs::Elf::symbols_of))]
pub(crate) fn place_of_symbols(bytes: &[u8], sections: &[Shdr]) -> SymbolPlace
    requires few { length sections.now < 2 ^ 32 }
    ensures { AreAt bytes.now (symbols_of bytes.now (first_of_type sht_symtab sections.now)) result }
{
    let nowhere = SymbolPlace { at: 0, count: 0 };
    let Some((_, table)) = symbol_table(sections) else {
        return nowhere;
    };
    let room = bytes.len() as u64;
    if table.sh_size <= room && table.sh_offset <= room - table.sh_size {
        SymbolPlace {
            at: table.sh_offset as usize,
            count: table.sh_size as usize / SYM_SIZE,
        }
    } else {
        nowhere
    }
}

fn symbol_at(bytes: &[u8], at: usize) -> Sym
    requires { at + 24 ≤ length bytes.now }
    ensures { result ≡ sym_at bytes.now at }
{
    match Sym::read_at(bytes, at) {
        Ok(symbol) => symbol,
        Err(_) => unreachable!(),
    }
}

/// The null symbol.
fn null_local() -> Local
    ensures { result ≡ null_symbol }
{
    local_of(&[], 0)
}

/// A symbol as a LOCAL one.
fn local_with(symbol: Sym) -> Local
    ensures { result ≡ local_with symbol }
{
    // entry 0 of a table is not looked at
    local_of(&[symbol, symbol], 1)
}

/// A LOCAL symbol by its number; the null symbol for number 0, and for a number that no symbol has.
#[tactic(auto, using(crate::proofs::LocalsRead::local_zero, crate::proofs::LocalsRead::local_past, crate::proofs::LocalsRead::local_there))]
pub(crate) fn local_at(bytes: &[u8], place: SymbolPlace, k: u32) -> Local
    requires { place.at + 24 * place.count ≤ length bytes.now }
    ensures { result ≡ local_among (symbols_at bytes.now place) k }
{
    if k == 0 {
        return null_local();
    }
    if k as usize >= place.count {
        return null_local();
    }
    local_with(symbol_at(bytes, place.at + SYM_SIZE * k as usize))
}
