//! What the tables that DYNAMIC names say (gABI "Symbol Table", "Relocation", "Dynamic Section": NEEDED).

ghost use Rattle.std.specs.Prelude.{◌≡◌, ◌+◌, ◌≤◌, ◌++◌, length, map, option_map, IfOk, OnOk};
ghost use Rattle.std.specs.Option.{option_copied};
ghost use Rattle.lk_elf.specs.Numbers.{dt_needed};
ghost use Rattle.lk_elf.specs.Records.{rela_at, sym_at};
ghost use Rattle.lk_model.specs.DynamicEntries.{all_with_tag};
ghost use Rattle.lk_model.specs.Loads.{all_of, loaded_relas, loaded_symbol, loaded_symbols, text_of_table};
ghost use Rattle.lk_loader.specs.LoadedImages.{load_symbol};

use crate::loads::{LoadSymbol, LoadSymbolList};
use crate::texts::text_at;
use lk_elf::numbers::{DT_NEEDED, RELA_SIZE, SHN_UNDEF, SYM_SIZE};
use lk_elf::{Dyn, Rela, Sym};
use lk_report::{List, Name, NameList, NoMemory};
use std::alloc::Global;

/// The text at an offset of a string table as a name; none where it does not end in the table.
fn name_at(alloc: Global, strings: &[u8], offset: u64) -> Result<Option<Name>, NoMemory>
    ensures { IfOk result (λ name. name ≡ text_of_table strings.now offset) }
{
    match text_at(strings, offset) {
        None => Ok(None),
        Some(text) => Ok(Some(Name::from_slice(alloc, text)?)),
    }
}

/// The names of the shared objects that are needed, in order; none where one does not end in the string
/// table.
pub(crate) fn needed_names(
    alloc: Global,
    strings: &[u8],
    entries: &[Dyn],
) -> Result<Option<NameList>, NoMemory>
    ensures { IfOk result (λ names. names ≡ all_of (map (text_of_table strings.now) (all_with_tag dt_needed entries.now))) }
{
    let mut names = Vec::new(alloc);
    for entry in entries {
        if entry.d_tag == DT_NEEDED {
            let Some(name) = name_at(alloc, strings, entry.d_un)? else {
                return Ok(None);
            };
            if names.push(name).is_err() {
                return Err(NoMemory);
            }
        }
    }
    Ok(Some(List::from_vec(names)))
}

fn symbol_at(bytes: &[u8], at: usize) -> Sym
    requires { at + 24 ≤ length bytes.now }
    ensures { result ≡ sym_at bytes.now at }
{
    match Sym::read_at(bytes, at) {
        Ok(symbol) => symbol,
        Err(_) => unreachable!(),
    }
}

/// A symbol with its name; none where the name does not end in the string table.
fn loaded_symbol(
    alloc: Global,
    strings: &[u8],
    symbol: &Sym,
) -> Result<Option<LoadSymbol>, NoMemory>
    ensures { IfOk result (λ found. found ≡ option_map load_symbol (loaded_symbol strings.now symbol.now)) }
{
    let Some(name) = name_at(alloc, strings, u64::from(symbol.st_name))? else {
        return Ok(None);
    };
    Ok(Some(LoadSymbol {
        name,
        value: symbol.st_value,
        size: symbol.st_size,
        info: u32::from(symbol.st_info),
        defined: symbol.st_shndx != SHN_UNDEF,
    }))
}

/// All records of a symbol table, number k at place k; none where a name does not end in the string table.
#[tactic(auto, using(crate::proofs::AllOf::symbol_next, crate::proofs::AllOf::symbol_missing, crate::proofs::AllOf::no_symbol_left))]
pub(crate) fn loaded_symbols(
    alloc: Global,
    strings: &[u8],
    records: &[u8],
) -> Result<Option<LoadSymbolList>, NoMemory>
    ensures { IfOk result (λ found. found ≡ option_map (map load_symbol) (loaded_symbols strings.now records.now)) }
{
    let count = records.len() / SYM_SIZE;
    let Ok(mut symbols) = Vec::with_capacity(alloc, count) else {
        return Err(NoMemory);
    };
    for k in 0..count {
        let symbol = symbol_at(records, SYM_SIZE * k);
        let Some(found) = loaded_symbol(alloc, strings, &symbol)? else {
            return Ok(None);
        };
        if symbols.push(found).is_err() {
            return Err(NoMemory);
        }
    }
    Ok(Some(List::from_vec(symbols)))
}

fn rela_at(bytes: &[u8], at: usize) -> Rela
    requires { at + 24 ≤ length bytes.now }
    ensures { result ≡ rela_at bytes.now at }
{
    match Rela::read_at(bytes, at) {
        Ok(rela) => rela,
        Err(_) => unreachable!(),
    }
}

/// Puts the whole records of a table of relocations at the end of a list.
#[tactic(auto, using(crate::proofs::AllOf::rela_more))]
pub(crate) fn append_relas(relas: &mut Vec<Rela>, bytes: &[u8]) -> Result<(), NoMemory>
    ensures { OnOk result (relas.new.items ≡ relas.old.items ++ loaded_relas bytes.now) }
{
    let count = bytes.len() / RELA_SIZE;
    for k in 0..count {
        if relas.push(rela_at(bytes, RELA_SIZE * k)).is_err() {
            return Err(NoMemory);
        }
    }
    Ok(())
}
