//! The checks of the symbol table and of its symbols (gABI "Symbol Table"), in their order: the first that
//! fails is reported, with the number of the table's section or of the symbol.

ghost use Rattle.std.specs.Prelude.{◌≡◌, ◌^◌, ◌<◌, ◌==◌, ℕ, List, drop, false, length, Some};
ghost use Rattle.std.specs.Option.{option_copied};
ghost use Rattle.lk_elf.specs.Numbers.{sht_strtab, sht_symtab};
ghost use Rattle.lk_elf.specs.declared.file_header.Ehdr.{Ehdr};
ghost use Rattle.lk_model.specs.Amounts.{is_small_power};
ghost use Rattle.lk_model.specs.Checks.{first_fault, is_some_with};
ghost use Rattle.lk_model.specs.Elf.{first_of_type, numbered, symbol_table};
ghost use Rattle.lk_model.specs.ObjectChecks.{is_common, is_misplaced, is_tls, is_unsupported_symbol, symbol_checks, symbol_table_checks};
ghost use Rattle.lk_obj_parts.specs.ElfViews.{elf_from, is_of_type_in};
ghost use Rattle.lk_obj_parts.specs.SymbolParts.{checks_in, entry_checks, faults_from, form_checks, is_stray_tls_in, is_symbol_section_in, is_tls_section_in, name_in, refused_fault, refused_tables, side_checks, sort_checks, strings_named};

use crate::section_checks::{is_of_type, is_small_power};
use crate::symbols::{is_local, name_in, symbol_table};
use crate::texts::header_at;
use lk_elf::numbers::{
    SHF_TLS, SHN_ABS, SHN_COMMON, SHN_UNDEF, SHN_XINDEX, SHT_STRTAB, SHT_SYMTAB, STB_WEAK,
    STT_GNU_IFUNC, STT_TLS, SYM_SIZE,
};
use lk_elf::{Shdr, Sym};
use lk_outsec::has_flag;
use lk_report::InputFault;

/// The fault of a symbol table after the first.
#[tactic(auto, using(crate::proofs::SymbolFaults::other_section, crate::proofs::SymbolFaults::first_table, crate::proofs::SymbolFaults::second_table, crate::proofs::SymbolFaults::no_table_left))]
fn second_fault(sections: &[Shdr]) -> Option<InputFault>
    requires few { length sections.now < 2 ^ 32 }
    ensures { result ≡ refused_fault (refused_tables false (numbered sections.now)) }
{
    let mut seen = false;
    for n in 1..sections.len() {
        if sections[n].sh_type == SHT_SYMTAB {
            if seen {
                return Some(InputFault::BadTable(n as u32));
            }
            seen = true;
        }
    }
    None
}

/// The first fault of what the header of the symbol table says.
#[tactic(auto, unfolding(crate::specs::SymbolParts::form_checks))]
fn form_fault(sections: &[Shdr], count: usize, n: u32, table: &Shdr) -> Option<InputFault>
    ensures { result ≡ first_fault (form_checks sections.now count n table.now) }
{
    if table.sh_entsize != SYM_SIZE as u64 {
        return Some(InputFault::BadTable(n));
    }
    if table.sh_size % SYM_SIZE as u64 != 0 {
        return Some(InputFault::BadTable(n));
    }
    if table.sh_size == 0 {
        return Some(InputFault::BadTable(n));
    }
    if !is_of_type(sections, SHT_STRTAB, table.sh_link) {
        return Some(InputFault::BadTable(n));
    }
    if count < table.sh_info as usize {
        return Some(InputFault::BadTable(n));
    }
    None
}

/// The first fault of this symbol table, which is the first.
#[tactic(auto, using(crate::proofs::SymbolFaults::second_reported, crate::proofs::SymbolFaults::form_reported))]
fn fault_of_table(sections: &[Shdr], symbols: &[Sym], n: u32, table: &Shdr) -> Option<InputFault>
    requires few { length sections.now < 2 ^ 32 }
    ensures { (bytes : List ℕ) (header : Ehdr) → result ≡ first_fault (symbol_table_checks (elf_from bytes header sections.now symbols.now) (Some (n, table.now))) }
{
    if let Some(fault) = second_fault(sections) {
        return Some(fault);
    }
    form_fault(sections, symbols.len(), n, table)
}

/// The first fault of the symbol table; none where there is no table.
#[tactic(auto, using(crate::proofs::SymbolFaults::no_form))]
pub fn symbol_table_fault(sections: &[Shdr], symbols: &[Sym]) -> Option<InputFault>
    requires few { length sections.now < 2 ^ 32 }
    ensures { (bytes : List ℕ) (header : Ehdr) → result ≡ first_fault (symbol_table_checks (elf_from bytes header sections.now symbols.now) (symbol_table (elf_from bytes header sections.now symbols.now))) }
{
    match symbol_table(sections) {
        None => None,
        Some((n, table)) => fault_of_table(sections, symbols, n, &table),
    }
}

/// Whether a symbol may have this section number.
fn is_symbol_section(sections: &[Shdr], n: u16) -> bool
    ensures { result ≡ is_symbol_section_in sections.now n }
{
    n == SHN_UNDEF || n == SHN_ABS || n == SHN_COMMON || header_at(sections, u32::from(n)).is_some()
}

/// The first fault of a symbol's name and section.
#[tactic(auto, unfolding(crate::specs::SymbolParts::entry_checks))]
fn entry_fault(sections: &[Shdr], k: u32, symbol: &Sym, name: Option<&[u8]>) -> Option<InputFault>
    ensures { result ≡ first_fault (entry_checks sections.now k symbol.now (option_copied name.entry)) }
{
    if name.is_none() {
        return Some(InputFault::BadSymbol(k));
    }
    if symbol.st_shndx == SHN_XINDEX {
        return Some(InputFault::UnsupportedSymbol(k));
    }
    if !is_symbol_section(sections, symbol.st_shndx) {
        return Some(InputFault::BadSymbol(k));
    }
    None
}

/// Whether a symbol depends on the wrong side of the first that is not LOCAL.
fn is_misplaced(first: u32, k: u32, symbol: &Sym) -> bool
    ensures { result ≡ is_misplaced first k symbol.now }
{
    if first <= k {
        is_local(symbol)
    } else {
        !is_local(symbol)
    }
}

/// Whether there is a name, and it is empty.
fn is_empty_name(name: Option<&[u8]>) -> bool
    ensures { result ≡ is_some_with (λ text. length text == 0) (option_copied name.entry) }
{
    match name {
        None => false,
        Some(text) => text.is_empty(),
    }
}

/// The first fault of a symbol's binding by its number.
#[tactic(auto, unfolding(crate::specs::SymbolParts::side_checks))]
fn side_fault(first: u32, k: u32, symbol: &Sym, name: Option<&[u8]>) -> Option<InputFault>
    ensures { result ≡ first_fault (side_checks first k symbol.now (option_copied name.entry)) }
{
    if is_misplaced(first, k, symbol) {
        return Some(InputFault::BadSymbol(k));
    }
    if first <= k && is_empty_name(name) {
        return Some(InputFault::BadSymbol(k));
    }
    None
}

/// Whether a symbol is a common block, whatever its binding.
fn is_common(symbol: &Sym) -> bool
    ensures { result ≡ is_common symbol.now }
{
    symbol.st_shndx == SHN_COMMON
}

/// Whether a symbol is thread-local.
fn is_tls(symbol: &Sym) -> bool
    ensures { result ≡ is_tls symbol.now }
{
    symbol.st_info % 16 == STT_TLS
}

/// Whether a symbol is of a kind that is refused.
fn is_unsupported_symbol(symbol: &Sym) -> bool
    ensures { result ≡ is_unsupported_symbol symbol.now }
{
    symbol.st_info / 16 > STB_WEAK
        || symbol.st_info % 16 == STT_GNU_IFUNC
        || (is_common(symbol) && (is_local(symbol) || is_tls(symbol)))
}

/// Whether a section, by number, has the flag TLS.
fn is_tls_section(sections: &[Shdr], n: u16) -> bool
    ensures { result ≡ is_tls_section_in sections.now n }
{
    match header_at(sections, u32::from(n)) {
        None => false,
        Some(found) => has_flag(found.sh_flags, SHF_TLS),
    }
}

/// Whether a thread-local symbol is to be in a thread-local section, and is not.
fn is_stray_tls(sections: &[Shdr], symbol: &Sym) -> bool
    ensures { result ≡ is_stray_tls_in sections.now symbol.now }
{
    is_tls(symbol)
        && (is_local(symbol) || symbol.st_shndx != SHN_UNDEF)
        && (symbol.st_shndx == SHN_ABS || !is_tls_section(sections, symbol.st_shndx))
}

/// The first fault of what a symbol is.
#[tactic(auto, unfolding(crate::specs::SymbolParts::sort_checks))]
fn sort_fault(sections: &[Shdr], k: u32, symbol: &Sym) -> Option<InputFault>
    ensures { result ≡ first_fault (sort_checks sections.now k symbol.now) }
{
    if is_unsupported_symbol(symbol) {
        return Some(InputFault::UnsupportedSymbol(k));
    }
    if is_common(symbol) && !is_small_power(symbol.st_value) {
        return Some(InputFault::BadSymbol(k));
    }
    if is_stray_tls(sections, symbol) {
        return Some(InputFault::BadSymbol(k));
    }
    None
}

/// The first fault of a symbol with this name.
#[tactic(auto, using(crate::proofs::SymbolFaults::entry_reported, crate::proofs::SymbolFaults::side_reported, crate::proofs::SymbolFaults::sort_reported))]
fn named_fault(
    sections: &[Shdr],
    first: u32,
    k: u32,
    symbol: &Sym,
    name: Option<&[u8]>,
) -> Option<InputFault>
    ensures { result ≡ first_fault (checks_in sections.now first k symbol.now (option_copied name.entry)) }
{
    if let Some(fault) = entry_fault(sections, k, symbol, name) {
        return Some(fault);
    }
    if let Some(fault) = side_fault(first, k, symbol, name) {
        return Some(fault);
    }
    sort_fault(sections, k, symbol)
}

/// The first fault of a symbol whose name is in this string section.
fn symbol_fault(
    bytes: &[u8],
    sections: &[Shdr],
    strings: u32,
    first: u32,
    k: u32,
    symbol: &Sym,
) -> Option<InputFault>
    ensures { result ≡ first_fault (checks_in sections.now first k symbol.now (name_in bytes.now sections.now strings symbol.now.st_name)) }
{
    let name = name_in(bytes, sections, strings, symbol.st_name);
    named_fault(sections, first, k, symbol, name)
}

/// The first fault of the symbols from number 1 on, whose names are in this string section.
#[tactic(auto, using(crate::proofs::SymbolFaults::fault_here, crate::proofs::SymbolFaults::no_fault_here, crate::proofs::SymbolFaults::no_symbol_left))]
fn fault_of_symbols(
    bytes: &[u8],
    sections: &[Shdr],
    symbols: &[Sym],
    strings: u32,
    first: u32,
) -> Option<InputFault>
    requires few { length symbols.now < 2 ^ 32 }
    requires named { strings ≡ strings_named (first_of_type sht_symtab sections.now) }
    ensures { (header : Ehdr) → result ≡ faults_from (elf_from bytes.now header sections.now symbols.now) first 1 (drop 1 symbols.now) }
{
    for k in 1..symbols.len() {
        let symbol = &symbols[k];
        if let Some(fault) = symbol_fault(bytes, sections, strings, first, k as u32, symbol) {
            return Some(fault);
        }
    }
    None
}

/// The first fault of the symbols from number 1 on, by rising number; none where there is no table.
#[tactic(auto, unfolding(crate::specs::SymbolParts::faults_from))]
pub fn symbols_fault(bytes: &[u8], sections: &[Shdr], symbols: &[Sym]) -> Option<InputFault>
    requires few_sections { length sections.now < 2 ^ 32 }
    requires few_symbols { length symbols.now < 2 ^ 32 }
    ensures { (header : Ehdr) → result ≡ first_fault (symbol_checks (elf_from bytes.now header sections.now symbols.now) (symbol_table (elf_from bytes.now header sections.now symbols.now))) }
{
    match symbol_table(sections) {
        None => None,
        Some((_, table)) => fault_of_symbols(
            bytes,
            sections,
            symbols,
            table.sh_link,
            table.sh_info,
        ),
    }
}
