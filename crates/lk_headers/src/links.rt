//! The sections that other sections link to (gABI "Section Header", `sh_link`).

ghost use Rattle.std.specs.Prelude.{◌≡◌, bytes_eq, position};
ghost use Rattle.lk_model.specs.SectionKeys.{named, same_key};
ghost use Rattle.lk_model.specs.Tail.{header_number, names_symbols, names_texts};
ghost use Rattle.lk_model.specs.declared.layouts.SectionRow.{SectionRow};
ghost use Rattle.lk_headers.specs.SectionTable.{linked, linked_part, links_of, tail_number};

use crate::section_kinds::is_symtab_part;
use crate::shown::{is_key, is_name};
use lk_model::layouts::{Class, Placement, SectionKey, SectionRow, SectionRowList};

/// The header numbers of the sections that others link to; 0 for one that the image does not have.
#[derive(Clone, Copy)]
pub(crate) struct Links {
    /// The dynamic symbol table, `.dynsym`.
    pub(crate) symbols: usize,
    /// The string table of the dynamic symbols, `.dynstr`.
    pub(crate) texts: usize,
    /// The string table of the symbols in the tail, `.strtab`.
    pub(crate) tail_texts: usize,
}

/// The index of the row of a key among rows.
fn place_of_key(rows: &[SectionRow], name: &[u8], class: Class) -> Option<usize>
    ensures { result ≡ position (λ (row : SectionRow). same_key row.key (named name.now class)) rows.now }
{
    rows.iter().position(|row| is_key(&row.key, name, class))
}

/// The index of the row of a name among the parts of the tail.
fn place_of_name(tail: &[SectionRow], name: &[u8]) -> Option<usize>
    ensures { result ≡ position (λ (row : SectionRow). bytes_eq row.key.name name.now) tail.now }
{
    tail.iter()
        .position(|row| is_name(row.key.name.as_slice(), name))
}

/// The number of the header of an output section.
fn header_number(place: &Placement, name: &[u8], class: Class) -> usize
    ensures { result ≡ header_number place.now (named name.now class) }
{
    match place_of_key(place.sections.as_slice(), name, class) {
        None => 0,
        Some(n) => n + 1,
    }
}

/// The number of the header of a part of the tail.
fn tail_number(place: &Placement, tail: &SectionRowList, name: &[u8]) -> usize
    ensures { result ≡ tail_number place.now tail.now name.now }
{
    match place_of_name(tail.as_slice(), name) {
        None => 0,
        Some(n) => place.sections.as_slice().len() + n + 1,
    }
}

/// The sections of an image that others link to.
#[tactic(auto, unfolding(crate::specs::SectionTable::links_of))]
pub(crate) fn links_of(place: &Placement, tail: &SectionRowList) -> Links
    ensures { result ≡ links_of place.now tail.now }
{
    Links {
        symbols: header_number(place, b".dynsym", Class::R),
        texts: header_number(place, b".dynstr", Class::R),
        tail_texts: tail_number(place, tail, b".strtab"),
    }
}

/// Whether a section's entries refer to dynamic symbols.
fn names_symbols(key: &SectionKey) -> bool
    ensures { result ≡ names_symbols key.now }
{
    is_key(key, b".hash", Class::R)
        || is_key(key, b".rela.dyn", Class::R)
        || is_key(key, b".rela.plt", Class::R)
}

/// Whether a section's entries refer to texts of the dynamic string table.
fn names_texts(key: &SectionKey) -> bool
    ensures { result ≡ names_texts key.now }
{
    is_key(key, b".dynsym", Class::R) || is_key(key, b".dynamic", Class::W)
}

/// The section that an output section links to: the dynamic symbols or their string table; 0 for none.
pub(crate) fn linked(links: &Links, key: &SectionKey) -> usize
    ensures { result ≡ linked links.now key.now }
{
    if names_symbols(key) {
        links.symbols
    } else if names_texts(key) {
        links.texts
    } else {
        0
    }
}

/// The part of the tail that a part links to: the string table of its symbols; 0 for none.
pub(crate) fn linked_part(links: &Links, name: &[u8]) -> usize
    ensures { result ≡ linked_part links.now name.now }
{
    if is_symtab_part(name) {
        links.tail_texts
    } else {
        0
    }
}
