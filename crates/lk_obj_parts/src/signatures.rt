//! The signature of a group (gABI "Section Groups"): the name of a symbol, or where that is empty the name
//! of the section in which the symbol is defined, as assemblers write a section's own symbol.
//!
//! Many groups ask for the symbol table, so it is looked for once and handed on.

ghost use Rattle.std.specs.Prelude.{◌≡◌, ◌^◌, ◌<◌, List, length, option_and_then, slice_get};
ghost use Rattle.std.specs.Option.{option_copied};
ghost use Rattle.lk_elf.specs.declared.file_header.Ehdr.{Ehdr};
ghost use Rattle.lk_elf.specs.declared.symbol.Sym.{Sym};
ghost use Rattle.lk_model.specs.Elf.{name_of_symbol, symbol_name};
ghost use Rattle.lk_model.specs.Objects.{name_or_section, section_name_of, signature_of};
ghost use Rattle.lk_obj_parts.specs.ElfViews.{elf_from};
ghost use Rattle.lk_obj_parts.specs.SymbolTables.{symbols_at};

use crate::symbol_tables::SymbolsAt;
use crate::symbols::home_of;
use crate::texts::{name_at, section_name};
use lk_elf::numbers::SHT_SYMTAB;
use lk_elf::{Ehdr, Shdr, Sym};
use lk_model::summaries::Home;

/// Where the symbol table is; none where the file has none.
#[tactic(auto, using(crate::proofs::NamedGroups::table_here, crate::proofs::NamedGroups::no_table_here, crate::proofs::NamedGroups::no_table_left))]
pub(crate) fn find_symbols(sections: &[Shdr]) -> Option<SymbolsAt>
    requires few { length sections.now < 2 ^ 32 }
    ensures { result ≡ symbols_at sections.now }
{
    for i in 1..sections.len() {
        if sections[i].sh_type == SHT_SYMTAB {
            return Some(SymbolsAt {
                section: i as u32,
                strings: sections[i].sh_link,
            });
        }
    }
    None
}

/// The name of a symbol in this string section; none where there is no such symbol, or no name of it.
#[tactic(auto, using(crate::proofs::SymbolsUnread::name_unread))]
fn entry_name<'a>(
    bytes: &'a [u8],
    sections: &[Shdr],
    symbols: &[Sym],
    strings: u32,
    k: u32,
) -> Option<&'a [u8]>
    ensures { (header : Ehdr) → option_copied result ≡ option_and_then (name_of_symbol (elf_from bytes.now header sections.now symbols.now) strings) (slice_get symbols.now k) }
{
    match symbols.get(k as usize) {
        None => None,
        Some(symbol) => name_at(bytes, sections, strings, symbol.st_name),
    }
}

/// The name of a symbol; none where there is no such symbol, or no name of it.
#[tactic(auto, using(crate::proofs::NamedGroups::name_reported, crate::proofs::NamedGroups::no_name))]
fn symbol_name<'a>(
    bytes: &'a [u8],
    sections: &[Shdr],
    symbols: &[Sym],
    table: Option<SymbolsAt>,
    k: u32,
) -> Option<&'a [u8]>
    requires found { table ≡ symbols_at sections.now }
    ensures { (header : Ehdr) → option_copied result ≡ symbol_name (elf_from bytes.now header sections.now symbols.now) k }
{
    match table {
        None => None,
        Some(table) => entry_name(bytes, sections, symbols, table.strings, k),
    }
}

/// The name of the section in which a symbol is defined.
#[tactic(auto, using(crate::proofs::SymbolsUnread::section_name_unread))]
fn section_name_of<'a>(
    bytes: &'a [u8],
    header: &Ehdr,
    sections: &[Shdr],
    home: Home,
) -> Option<&'a [u8]>
    ensures { (symbols : List Sym) → option_copied result ≡ section_name_of (elf_from bytes.now header.now sections.now symbols) home }
{
    match home {
        Home::Section(n) => section_name(bytes, header, sections, n),
        Home::Undefined | Home::Absolute | Home::Common | Home::Shared => None,
    }
}

/// A name, or where it is empty the name of the section in which its symbol is defined.
#[tactic(auto, using(crate::proofs::NamedGroups::named_by_itself))]
fn name_or_section<'a>(
    bytes: &'a [u8],
    header: &Ehdr,
    sections: &[Shdr],
    home: Home,
    name: &'a [u8],
) -> Option<&'a [u8]>
    ensures { (symbols : List Sym) → option_copied result ≡ name_or_section (elf_from bytes.now header.now sections.now symbols) home name.now }
{
    if name.is_empty() {
        section_name_of(bytes, header, sections, home)
    } else {
        Some(name)
    }
}

/// The signature of a group with this symbol, where the symbol table is known.
#[tactic(auto, using(crate::proofs::NamedGroups::signature_reported), unfolding(lk_model::specs::Objects::signature_of))]
pub(crate) fn signature_under<'a>(
    bytes: &'a [u8],
    header: &Ehdr,
    sections: &[Shdr],
    symbols: &[Sym],
    table: Option<SymbolsAt>,
    k: u32,
) -> Option<&'a [u8]>
    requires found { table ≡ symbols_at sections.now }
    ensures { option_copied result ≡ signature_of (elf_from bytes.now header.now sections.now symbols.now) k }
{
    if k == 0 {
        return None;
    }
    match symbols.get(k as usize) {
        None => None,
        Some(symbol) => match symbol_name(bytes, sections, symbols, table, k) {
            None => None,
            Some(name) => {
                name_or_section(bytes, header, sections, home_of(symbol.st_shndx), name)
            }
        },
    }
}

/// The signature of a group with this symbol; none for symbol 0, and where the symbol has no name.
pub fn signature_of<'a>(
    bytes: &'a [u8],
    header: &Ehdr,
    sections: &[Shdr],
    symbols: &[Sym],
    k: u32,
) -> Option<&'a [u8]>
    requires few { length sections.now < 2 ^ 32 }
    ensures { option_copied result ≡ signature_of (elf_from bytes.now header.now sections.now symbols.now) k }
{
    signature_under(bytes, header, sections, symbols, find_symbols(sections), k)
}
