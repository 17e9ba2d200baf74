//! The checks of groups (gABI "Section Groups"): each group by itself, and that no section is a member of
//! two.
//!
//! Problem: tens of thousands of groups, none of which may name a section that an earlier one names. With a
//! list of what was claimed each group would be compared with each other. Steps: one mark for each section, none
//! set; group after group, by rising section number, is checked against the marks, and then its members are
//! marked. A member twice in one group is no fault: its group marks once it has been checked. Cost: one
//! look at each word of each group, and one byte for each section.

ghost use Rattle.std.specs.Prelude.{◌≡◌, ◌+◌, ◌^◌, ◌<◌, ◌==◌, ◌||◌, ℕ, List, [], drop, fold, length, not, is_none, is_some, IfOk, None};
ghost use Rattle.std.specs.List.{list_all, list_any};
ghost use Rattle.lk_elf.specs.declared.symbol.Sym.{Sym};
ghost use Rattle.lk_marks.specs.Marked.{is_marked, marks_of, with_mark};
ghost use Rattle.lk_model.specs.Checks.{first_fault};
ghost use Rattle.lk_model.specs.ObjectChecks.{group_checks, group_checks_after, has_group_flag, is_group_size};
ghost use Rattle.lk_model.specs.Objects.{group_sections, members_under, signature_of};
ghost use Rattle.lk_obj_parts.specs.ElfViews.{elf_from};
ghost use Rattle.lk_obj_parts.specs.GroupMarks.{are_bad_members, fault_if_group, is_bad_head, is_group, is_section_in, is_table_at, marked_fault, marked_faults, marks_after};
ghost use Rattle.lk_obj_parts.specs.GroupParts.{members_in, words_in};
ghost use Rattle.lk_obj_parts.specs.SymbolTables.{symbols_at};

use crate::groups::{word, word_count};
use crate::signatures::{find_symbols, signature_under};
use crate::symbol_tables::SymbolsAt;
use crate::texts::header_at;
use lk_elf::numbers::SHT_GROUP;
use lk_elf::{Ehdr, Shdr, Sym};
use lk_marks::Marks;
use lk_report::{InputFault, NoMemory};
use std::alloc::Global;

/// Whether a group may have this size: a flag word and whole member words.
fn is_group_size(size: u64) -> bool
    ensures { result ≡ is_group_size size }
{
    size >= 4 && size % 4 == 0
}

/// Whether the symbol table has this section number.
fn is_symbol_table(table: Option<SymbolsAt>, n: u32) -> bool
    ensures { result ≡ is_table_at table n }
{
    match table {
        None => false,
        Some(table) => table.section == n,
    }
}

/// Whether the flag word of a group is there and is 0 or 1.
#[tactic(auto, using(crate::proofs::GroupWords::flag_first, crate::proofs::GroupWords::no_flag))]
fn has_group_flag(bytes: &[u8], section: &Shdr) -> bool
    ensures { result ≡ has_group_flag (words_in bytes.now section.now) }
{
    if word_count(bytes, section) == 0 {
        return false;
    }
    let flag = word(bytes, section, 0);
    flag == 0 || flag == 1
}

/// Whether a group with this symbol has a signature.
fn has_signature(
    bytes: &[u8],
    header: &Ehdr,
    sections: &[Shdr],
    symbols: &[Sym],
    table: Option<SymbolsAt>,
    k: u32,
) -> bool
    requires found { table ≡ symbols_at sections.now }
    ensures { result ≡ not (is_none (signature_of (elf_from bytes.now header.now sections.now symbols.now) k)) }
{
    match signature_under(bytes, header, sections, symbols, table, k) {
        None => false,
        Some(_) => true,
    }
}

/// Whether a group is refused for its size, its symbol table, its signature or its flag word.
fn is_bad_head(
    bytes: &[u8],
    header: &Ehdr,
    sections: &[Shdr],
    symbols: &[Sym],
    table: Option<SymbolsAt>,
    section: &Shdr,
) -> bool
    requires found { table ≡ symbols_at sections.now }
    ensures { result ≡ is_bad_head (elf_from bytes.now header.now sections.now symbols.now) section.now }
{
    if !is_group_size(section.sh_size) {
        return true;
    }
    if !is_symbol_table(table, section.sh_link) {
        return true;
    }
    if !has_signature(bytes, header, sections, symbols, table, section.sh_info) {
        return true;
    }
    !has_group_flag(bytes, section)
}

/// Whether a section of this number is there.
fn is_section(sections: &[Shdr], n: u32) -> bool
    ensures { result ≡ is_section_in sections.now n }
{
    header_at(sections, n).is_some()
}

/// Whether all members of a group are sections.
#[tactic(auto, using(crate::proofs::GroupWords::all_here, crate::proofs::GroupWords::not_all_here, crate::proofs::GroupWords::all_left))]
fn are_sections(bytes: &[u8], sections: &[Shdr], section: &Shdr) -> bool
    ensures { result ≡ list_all (is_section_in sections.now) (members_in bytes.now section.now) }
{
    for k in 1..word_count(bytes, section) {
        if !is_section(sections, word(bytes, section, k)) {
            return false;
        }
    }
    true
}

/// Whether a member of a group is marked.
#[tactic(auto, using(crate::proofs::GroupWords::any_here, crate::proofs::GroupWords::none_here, crate::proofs::GroupWords::none_left))]
fn is_any_marked(bytes: &[u8], marks: &Marks, section: &Shdr) -> bool
    ensures { result ≡ list_any (is_marked marks.now) (members_in bytes.now section.now) }
{
    for k in 1..word_count(bytes, section) {
        if marks.is_marked(word(bytes, section, k)) {
            return true;
        }
    }
    false
}

/// Whether a member of a group is no section, or is marked.
fn are_bad_members(bytes: &[u8], sections: &[Shdr], marks: &Marks, section: &Shdr) -> bool
    ensures { result ≡ are_bad_members sections.now marks.now (members_in bytes.now section.now) }
{
    !are_sections(bytes, sections, section) || is_any_marked(bytes, marks, section)
}

/// The fault of a group, where the members of the groups before it are marked.
#[tactic(auto, unfolding(crate::specs::GroupMarks::marked_fault))]
fn marked_fault(
    bytes: &[u8],
    header: &Ehdr,
    sections: &[Shdr],
    symbols: &[Sym],
    table: Option<SymbolsAt>,
    marks: &Marks,
    n: u32,
    section: &Shdr,
) -> Option<InputFault>
    requires found { table ≡ symbols_at sections.now }
    ensures { result ≡ marked_fault (elf_from bytes.now header.now sections.now symbols.now) marks.now n section.now }
{
    if is_bad_head(bytes, header, sections, symbols, table, section)
        || are_bad_members(bytes, sections, marks, section)
    {
        Some(InputFault::BadGroup(n))
    } else {
        None
    }
}

/// The fault of a group, whatever list of members of groups before it the marks are of.
fn group_fault(
    bytes: &[u8],
    header: &Ehdr,
    sections: &[Shdr],
    symbols: &[Sym],
    table: Option<SymbolsAt>,
    marks: &Marks,
    n: u32,
    section: &Shdr,
) -> Option<InputFault>
    requires found { table ≡ symbols_at sections.now }
    ensures marked { result ≡ marked_fault (elf_from bytes.now header.now sections.now symbols.now) marks.now n section.now }
    ensures claimed { (claimed : List ℕ) → marks.now ≡ marks_of claimed (length sections.now) → result ≡ first_fault (group_checks (elf_from bytes.now header.now sections.now symbols.now) claimed n section.now (members_under (elf_from bytes.now header.now sections.now symbols.now) section.now)) }
{
    marked_fault(bytes, header, sections, symbols, table, marks, n, section)
}

/// Marks the members of a group.
#[tactic(auto, using(crate::proofs::GroupWords::fold_here, crate::proofs::GroupWords::fold_left))]
fn mark_members(bytes: &[u8], marks: &mut Marks, section: &Shdr)
    ensures { marks.new ≡ fold with_mark marks.old (members_in bytes.now section.now) }
{
    for k in 1..word_count(bytes, section) {
        marks.mark_within(word(bytes, section, k));
    }
}

/// The fault of a section that may be a group; where it has none, its members are marked.
#[tactic(auto, unfolding(crate::specs::GroupMarks::fault_if_group, crate::specs::GroupMarks::marks_after))]
fn claim(
    bytes: &[u8],
    header: &Ehdr,
    sections: &[Shdr],
    symbols: &[Sym],
    table: Option<SymbolsAt>,
    marks: &mut Marks,
    n: u32,
    section: &Shdr,
) -> Option<InputFault>
    requires found { table ≡ symbols_at sections.now }
    ensures fault { result ≡ fault_if_group (elf_from bytes.now header.now sections.now symbols.now) marks.old n section.now }
    ensures marks { result ≡ None → marks.new ≡ marks_after (elf_from bytes.now header.now sections.now symbols.now) marks.old section.now }
{
    if section.sh_type != SHT_GROUP {
        return None;
    }
    if let Some(fault) = group_fault(bytes, header, sections, symbols, table, marks, n, section) {
        return Some(fault);
    }
    mark_members(bytes, marks, section);
    None
}

/// The first fault of the groups, by rising section number, where nothing but this is marked before.
#[tactic(auto, using(crate::proofs::GroupsMarked::fault_here, crate::proofs::GroupsMarked::no_fault_here, crate::proofs::GroupsMarked::no_group_left))]
fn marked_faults(
    bytes: &[u8],
    header: &Ehdr,
    sections: &[Shdr],
    symbols: &[Sym],
    marks: &mut Marks,
) -> Option<InputFault>
    requires few { length sections.now < 2 ^ 32 }
    ensures { result ≡ marked_faults (elf_from bytes.now header.now sections.now symbols.now) marks.old 1 (drop 1 sections.now) }
{
    let table = find_symbols(sections);
    for i in 1..sections.len() {
        if let Some(fault) = claim(
            bytes,
            header,
            sections,
            symbols,
            table,
            marks,
            i as u32,
            &sections[i],
        ) {
            return Some(fault);
        }
    }
    None
}

fn is_group(section: &Shdr) -> bool
    ensures { result ≡ is_group section.now }
{
    section.sh_type == SHT_GROUP
}

/// Whether an object has a group.
fn has_group(sections: &[Shdr]) -> bool
    ensures { result ≡ list_any is_group sections.now }
{
    sections.iter().any(|section| is_group(section))
}

/// The first fault of the groups of an object, by rising section number. Where it has none, no memory is taken.
#[tactic(auto, using(crate::proofs::GroupsMarked::faults_reported, crate::proofs::NoGroups::no_fault_reported))]
pub fn groups_fault(
    alloc: Global,
    bytes: &[u8],
    header: &Ehdr,
    sections: &[Shdr],
    symbols: &[Sym],
) -> Result<Option<InputFault>, NoMemory>
    requires few { length sections.now < 2 ^ 32 }
    ensures { IfOk result (λ fault. fault ≡ first_fault (group_checks_after (elf_from bytes.now header.now sections.now symbols.now) [] (group_sections (elf_from bytes.now header.now sections.now symbols.now)))) }
{
    if !has_group(sections) {
        return Ok(None);
    }
    let mut marks = Marks::of(alloc, sections.len(), &[])?;
    Ok(marked_faults(bytes, header, sections, symbols, &mut marks))
}
