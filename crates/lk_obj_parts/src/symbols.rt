//! The symbols of a file (gABI "Symbol Table"): the entries of its first symbol table in one list, number k
//! at place k, their names, and what a link knows of them.
//!
//! The table is read in one go where it lies in the file whole. A symbol's name is found from its offset
//! in the string section that the table names, and no other symbol is looked at for it.

ghost use Rattle.std.specs.Prelude.{◌≡◌, ◌+◌, ◌*◌, ◌/◌, ◌^◌, ◌<◌, ◌≤◌, ◌==◌, ◌++◌, [], find, filter, length, map, not, option_to_list, vec_len, IfOk, OnOk};
ghost use Rattle.std.specs.List.{enumerate_from, range_with_len};
ghost use Rattle.std.specs.Option.{option_copied};
ghost use Rattle.lk_elf.specs.Numbers.{sht_symtab};
ghost use Rattle.lk_elf.specs.Records.{sym_at};
ghost use Rattle.lk_elf.specs.declared.file_header.Ehdr.{Ehdr};
ghost use Rattle.lk_model.specs.Elf.{first_of_type, name_at, numbered, symbol_table, symbols_of};
ghost use Rattle.lk_model.specs.Objects.{binding_of, global_with, globals_in, home_of, is_local, local_in, local_with, type_of};
ghost use Rattle.lk_model.specs.Views.{Elf};
ghost use Rattle.lk_obj_parts.specs.ElfViews.{elf_from};
ghost use Rattle.lk_obj_parts.specs.SymbolParts.{global_at, local_among, name_in, strings_named};

use crate::file_table::lies_in;
use crate::texts::{name_at, shared_name};
use lk_elf::numbers::{
    SHN_ABS, SHN_COMMON, SHN_UNDEF, SHT_SYMTAB, STB_LOCAL, STT_NOTYPE, SYM_SIZE,
};
use lk_elf::{Shdr, Sym};
use lk_model::summaries::{Global as Symbol, GlobalList, Home, Local};
use lk_report::{Bytes, Name, NoMemory};
use std::alloc::Global;

/// The number and the header of the first symbol table.
#[tactic(auto, using(crate::proofs::Rows::rows_next, crate::proofs::Rows::rows_done))]
pub fn symbol_table(sections: &[Shdr]) -> Option<(u32, Shdr)>
    requires few { length sections.now < 2 ^ 32 }
    ensures { result ≡ first_of_type sht_symtab sections.now }
{
    for n in 1..sections.len() {
        if sections[n].sh_type == SHT_SYMTAB {
            return Some((n as u32, sections[n]));
        }
    }
    None
}

/// The symbol at this place.
pub fn symbol_at(bytes: &[u8], at: usize) -> Sym
    requires { at + 24 ≤ length bytes.now }
    ensures { result ≡ sym_at bytes.now at }
{
    match Sym::read_at(bytes, at) {
        Ok(symbol) => symbol,
        Err(_) => unreachable!(),
    }
}

/// The symbols of a table of this many that lies in the file.
#[tactic(auto, using(crate::proofs::Tables::table_more))]
fn symbols_at(alloc: Global, bytes: &[u8], at: usize, count: usize) -> Result<Vec<Sym>, NoMemory>
    requires { at + 24 * count ≤ length bytes.now }
    ensures items { IfOk result (λ v. v.items ≡ map (λ k. sym_at bytes.now (at + 24 * k)) (range_with_len 0 count)) }
    ensures count { IfOk result (λ v. vec_len v ≡ count) }
{
    let Ok(mut symbols) = Vec::with_capacity(alloc, count) else {
        return Err(NoMemory);
    };
    for k in 0..count {
        if symbols.push(symbol_at(bytes, at + SYM_SIZE * k)).is_err() {
            return Err(NoMemory);
        }
    }
    Ok(symbols)
}

/// The symbols of a file with these sections; none where it has no symbol table, or where the table does
/// not lie in the file.
///
/// # Errors
/// Out of memory; for 2^32 symbols or more, which numbers of 32 bits do not distinguish, there is none.
#[tactic(auto, unfolding(lk_model::specs::Elf::symbols_of))]
pub fn read_symbols(alloc: Global, bytes: &[u8], sections: &[Shdr]) -> Result<Vec<Sym>, NoMemory>
    requires few { length sections.now < 2 ^ 32 }
    ensures items { IfOk result (λ v. v.items ≡ symbols_of bytes.now (first_of_type sht_symtab sections.now)) }
    ensures few { IfOk result (λ v. vec_len v < 2 ^ 32) }
{
    let Some((_, table)) = symbol_table(sections) else {
        return symbols_at(alloc, bytes, 0, 0);
    };
    if !lies_in(bytes, table.sh_offset, table.sh_size) {
        return symbols_at(alloc, bytes, 0, 0);
    }
    let count = table.sh_size as usize / SYM_SIZE;
    if count > u32::MAX as usize {
        return Err(NoMemory);
    }
    symbols_at(alloc, bytes, table.sh_offset as usize, count)
}

/// The string section with the names of symbols; number 0, which no section has, where there is no symbol
/// table.
pub(crate) fn strings_of(sections: &[Shdr]) -> u32
    requires few { length sections.now < 2 ^ 32 }
    ensures { result ≡ strings_named (first_of_type sht_symtab sections.now) }
{
    match symbol_table(sections) {
        None => 0,
        Some((_, table)) => table.sh_link,
    }
}

/// The name at an offset of a string section; none where there is none.
#[tactic(auto, using(crate::proofs::SymbolRows::name_reported))]
pub(crate) fn name_in<'a>(
    bytes: &'a [u8],
    sections: &[Shdr],
    strings: u32,
    offset: u32,
) -> Option<&'a [u8]>
    ensures { option_copied result ≡ name_in bytes.now sections.now strings offset }
{
    name_at(bytes, sections, strings, offset)
}

/// Whether a symbol is LOCAL.
pub(crate) fn is_local(symbol: &Sym) -> bool
    ensures { result ≡ is_local symbol.now }
{
    symbol.st_info / 16 == STB_LOCAL
}

/// Where a symbol is defined, by its section number.
pub(crate) fn home_of(number: u16) -> Home
    ensures { result ≡ home_of number }
{
    if number == SHN_UNDEF {
        Home::Undefined
    } else if number == SHN_ABS {
        Home::Absolute
    } else if number == SHN_COMMON {
        Home::Common
    } else {
        Home::Section(u32::from(number))
    }
}

#[tactic(auto, unfolding(lk_model::specs::Objects::global_with))]
fn global_with(k: u32, symbol: &Sym, name: Name) -> Symbol
    ensures { result ≡ global_with k symbol.now name }
{
    Symbol {
        symbol: k,
        name,
        binding: u32::from(symbol.st_info / 16),
        code: u32::from(symbol.st_info % 16),
        visibility: u32::from(symbol.st_other % 4),
        home: home_of(symbol.st_shndx),
        value: symbol.st_value,
        size: symbol.st_size,
    }
}

/// How many symbols are not LOCAL.
fn count_globals(symbols: &[Sym]) -> usize
    ensures { result ≡ length (filter (λ symbol. not (is_local symbol)) symbols.now) }
{
    symbols.iter().filter(|symbol| !is_local(symbol)).count()
}

/// A symbol that is not LOCAL and has a name; none of another.
#[tactic(auto, unfolding(crate::specs::SymbolParts::global_at))]
fn global_at(
    file: &Bytes,
    sections: &[Shdr],
    strings: u32,
    k: u32,
    symbol: &Sym,
) -> Result<Option<Symbol>, NoMemory>
    ensures { IfOk result (λ global. global ≡ global_at file.now sections.now strings k symbol.now) }
{
    if is_local(symbol) {
        return Ok(None);
    }
    match shared_name(file, sections, strings, symbol.st_name)? {
        None => Ok(None),
        Some(name) => Ok(Some(global_with(k, symbol, name))),
    }
}

/// Puts a symbol at the end, where there is one.
fn keep(globals: &mut Vec<Symbol>, global: Option<Symbol>) -> Result<(), NoMemory>
    ensures { OnOk result (globals.new.items ≡ globals.old.items ++ option_to_list global) }
{
    match global {
        None => Ok(()),
        Some(global) => match globals.push(global) {
            Ok(()) => Ok(()),
            Err(_) => Err(NoMemory),
        },
    }
}

/// The symbols that are not LOCAL and have a name, by rising number. Their names share the bytes of the file.
#[tactic(auto, using(crate::proofs::SymbolRows::next_global, crate::proofs::SymbolRows::no_global_left), unfolding(lk_model::specs::Objects::globals_in))]
pub fn globals_of(
    alloc: Global,
    file: &Bytes,
    sections: &[Shdr],
    symbols: &[Sym],
) -> Result<GlobalList, NoMemory>
    requires few_sections { length sections.now < 2 ^ 32 }
    requires few_symbols { length symbols.now < 2 ^ 32 }
    ensures { (header : Ehdr) → IfOk result (λ globals. globals ≡ globals_in (elf_from file.now header sections.now symbols.now)) }
{
    let strings = strings_of(sections);
    let Ok(mut globals) = Vec::with_capacity(alloc, count_globals(symbols)) else {
        return Err(NoMemory);
    };
    for k in 1..symbols.len() {
        let global = global_at(file, sections, strings, k as u32, &symbols[k])?;
        keep(&mut globals, global)?;
    }
    Ok(GlobalList::from_vec(globals))
}

/// A symbol as a LOCAL one.
fn local_with(symbol: &Sym) -> Local
    ensures { result ≡ local_with symbol.now }
{
    Local {
        home: home_of(symbol.st_shndx),
        value: symbol.st_value,
        size: symbol.st_size,
        code: u32::from(symbol.st_info % 16),
    }
}

/// A LOCAL symbol of these, by its number.
fn local_among(symbols: &[Sym], k: u32) -> Local
    ensures { result ≡ local_among symbols.now k }
{
    let null = Local {
        home: Home::Undefined,
        value: 0,
        size: 0,
        code: u32::from(STT_NOTYPE),
    };
    if k == 0 {
        return null;
    }
    match symbols.get(k as usize) {
        None => null,
        Some(symbol) => local_with(symbol),
    }
}

/// A LOCAL symbol by its number in a file with these symbols; the null symbol for number 0, and where
/// there is no such symbol.
#[tactic(auto, using(crate::proofs::SymbolRows::local_reported))]
pub fn local_of(symbols: &[Sym], k: u32) -> Local
    ensures { (elf : Elf) → elf.symbols ≡ symbols.now → result ≡ local_in elf k }
{
    local_among(symbols, k)
}
