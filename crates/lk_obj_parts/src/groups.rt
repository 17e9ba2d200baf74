//! Groups (gABI "Section Groups"): their words one by one, and the list of the COMDAT groups of an object.

ghost use Rattle.std.specs.Prelude.{◌≡◌, ◌+◌, ◌*◌, ◌^◌, ◌<◌, ◌≤◌, ◌++◌, List, length, slice_get, option_to_list, IfOk, OnOk};
ghost use Rattle.lk_elf.specs.Fields.{num};
ghost use Rattle.lk_elf.specs.declared.file_header.Ehdr.{Ehdr};
ghost use Rattle.lk_elf.specs.declared.section_header.Shdr.{Shdr};
ghost use Rattle.lk_elf.specs.declared.symbol.Sym.{Sym};
ghost use Rattle.lk_model.specs.Objects.{groups_in, words_under};
ghost use Rattle.lk_obj_parts.specs.ElfViews.{elf_from};
ghost use Rattle.lk_obj_parts.specs.GroupLists.{group_in, is_comdat_in};
ghost use Rattle.lk_obj_parts.specs.GroupParts.{members_in, word_in, words_in};
ghost use Rattle.lk_obj_parts.specs.SymbolTables.{symbols_at};

use crate::file_table::lies_in;
use crate::signatures::{find_symbols, signature_under};
use crate::symbol_tables::SymbolsAt;
use lk_elf::numbers::SHT_GROUP;
use lk_elf::{Ehdr, Shdr, Sym};
use lk_model::summaries::{Group, GroupList, NumberList};
use lk_report::{Name, NoMemory};
use std::alloc::Global;

/// The number in four bytes, the lowest first.
#[tactic(auto, using(crate::proofs::GroupWords::four_bytes))]
fn number_at(bytes: &[u8], at: usize) -> u32
    requires { at + 4 ≤ length bytes.now }
    ensures { result ≡ num bytes.now at 4 }
{
    u32::from_le_bytes([bytes[at], bytes[at + 1], bytes[at + 2], bytes[at + 3]])
}

/// How many words a section has in the file.
#[tactic(auto, using(crate::proofs::GroupWords::words_count))]
pub(crate) fn word_count(bytes: &[u8], section: &Shdr) -> usize
    ensures value { result ≡ length (words_in bytes.now section.now) }
    ensures room { 0 < result → section.now.sh_offset + 4 * result ≤ length bytes.now }
{
    if lies_in(bytes, section.sh_offset, section.sh_size) {
        section.sh_size as usize / 4
    } else {
        0
    }
}

/// A word of a section that the file holds.
#[tactic(auto, unfolding(crate::specs::GroupParts::word_in))]
pub(crate) fn word(bytes: &[u8], section: &Shdr, k: usize) -> u32
    requires { section.now.sh_offset + 4 * k + 4 ≤ length bytes.now }
    ensures { result ≡ word_in bytes.now section.now k }
{
    number_at(bytes, section.sh_offset as usize + 4 * k)
}

/// A word of a section by its place; none past the last.
#[tactic(auto, using(crate::proofs::GroupWords::word_there, crate::proofs::GroupWords::no_word), unfolding(crate::specs::GroupParts::words_in, crate::specs::GroupParts::word_in, lk_model::specs::Objects::words_under))]
pub fn word_under(bytes: &[u8], section: &Shdr, k: usize) -> Option<u32>
    ensures { (header : Ehdr) (sections : List Shdr) (symbols : List Sym) → result ≡ slice_get (words_under (elf_from bytes.now header sections symbols) section.now) k }
{
    if k < word_count(bytes, section) {
        Some(word(bytes, section, k))
    } else {
        None
    }
}

/// Whether the flag word of a group says COMDAT.
#[tactic(auto, using(crate::proofs::GroupLists::comdat_first, crate::proofs::GroupLists::no_comdat))]
fn is_comdat(bytes: &[u8], section: &Shdr) -> bool
    ensures { result ≡ is_comdat_in bytes.now section.now }
{
    if word_count(bytes, section) == 0 {
        return false;
    }
    word(bytes, section, 0) == 1
}

/// The members of a group in their order.
#[tactic(auto, using(crate::proofs::GroupLists::member_pushed, crate::proofs::GroupLists::members_left))]
fn members_of(alloc: Global, bytes: &[u8], section: &Shdr) -> Result<NumberList, NoMemory>
    ensures { IfOk result (λ members. members ≡ members_in bytes.now section.now) }
{
    let mut members = NumberList::new(alloc);
    for k in 1..word_count(bytes, section) {
        members.push(word(bytes, section, k))?;
    }
    Ok(members)
}

/// The COMDAT group that a section is; none where it is no group, no COMDAT one, or has no signature.
#[tactic(auto, unfolding(crate::specs::GroupLists::group_in))]
fn group_of(
    alloc: Global,
    bytes: &[u8],
    header: &Ehdr,
    sections: &[Shdr],
    symbols: &[Sym],
    table: Option<SymbolsAt>,
    section: &Shdr,
) -> Result<Option<Group>, NoMemory>
    requires found { table ≡ symbols_at sections.now }
    ensures { IfOk result (λ group. group ≡ group_in (elf_from bytes.now header.now sections.now symbols.now) section.now) }
{
    if section.sh_type != SHT_GROUP || !is_comdat(bytes, section) {
        return Ok(None);
    }
    match signature_under(bytes, header, sections, symbols, table, section.sh_info) {
        None => Ok(None),
        Some(signature) => {
            let signature = Name::from_slice(alloc, signature)?;
            let members = members_of(alloc, bytes, section)?;
            Ok(Some(Group { signature, members }))
        }
    }
}

/// Puts the COMDAT group that a section is at the end of a list.
fn put_group(groups: &mut GroupList, group: Option<Group>) -> Result<(), NoMemory>
    ensures { OnOk result (groups.new ≡ groups.old ++ option_to_list group) }
{
    match group {
        None => Ok(()),
        Some(group) => groups.push(group),
    }
}

/// The COMDAT groups of an object, by rising section number.
#[tactic(auto, using(crate::proofs::GroupLists::group_put, crate::proofs::GroupLists::groups_reported, crate::proofs::GroupLists::no_groups_left))]
pub fn groups_of(
    alloc: Global,
    bytes: &[u8],
    header: &Ehdr,
    sections: &[Shdr],
    symbols: &[Sym],
) -> Result<GroupList, NoMemory>
    requires few { length sections.now < 2 ^ 32 }
    ensures { IfOk result (λ groups. groups ≡ groups_in (elf_from bytes.now header.now sections.now symbols.now)) }
{
    let table = find_symbols(sections);
    let mut groups = GroupList::new(alloc);
    for i in 1..sections.len() {
        let group = group_of(alloc, bytes, header, sections, symbols, table, &sections[i])?;
        put_group(&mut groups, group)?;
    }
    Ok(groups)
}
