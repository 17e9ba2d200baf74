//! The rank of an output section in the image, from 0 to 30 (this project's own order; the names are
//! those of gABI "Special Sections").

ghost use Rattle.std.specs.Prelude.{◌≡◌, ◌+◌, bytes_eq};
ghost use Rattle.std.specs.List.{list_any};
ghost use Rattle.lk_model.specs.SectionKeys.{is_note, named};
ghost use Rattle.lk_model.specs.SectionOrder.{executable_names, first_rank, names_after_notes, names_after_others, names_before_others, place_in, rank_in, section_rank, writable_rank};
ghost use Rattle.lk_model.specs.declared.layouts.Class.{Class};

use crate::kinds::is_name;
use lk_model::layouts::{Class, SectionKey};

/// Whether a read only section of this name is a note (gABI "Note Section").
#[tactic(auto, unfolding(lk_model::specs::SectionKeys::is_note))]
fn is_note_name(name: &[u8]) -> bool
    ensures { result ≡ is_note (named name.now Class.R) }
{
    is_name(name, b".note") || name.starts_with(b".note.")
}

/// The place after the notes of a read only section.
fn place_after_notes(name: &[u8]) -> u8
    ensures { result ≡ place_in names_after_notes name.now }
{
    if is_name(name, b".hash") {
        0
    } else if is_name(name, b".dynsym") {
        1
    } else if is_name(name, b".dynstr") {
        2
    } else if is_name(name, b".rela.dyn") {
        3
    } else if is_name(name, b".rela.plt") {
        4
    } else if is_name(name, b".rodata") {
        5
    } else if is_name(name, b".gcc_except_table") {
        6
    } else if is_name(name, b".eh_frame") {
        7
    } else {
        8
    }
}

/// The rank of a read only section.
fn read_only_rank(name: &[u8]) -> u8
    ensures { result ≡ first_rank (named name.now Class.R) }
{
    if is_name(name, b".interp") {
        0
    } else if is_note_name(name) {
        1
    } else {
        2 + place_after_notes(name)
    }
}

/// The place of a section among those that may be executed.
fn executable_place(name: &[u8]) -> u8
    ensures { result ≡ place_in executable_names name.now }
{
    if is_name(name, b".init") {
        0
    } else if is_name(name, b".plt") {
        1
    } else if is_name(name, b".text") {
        2
    } else if is_name(name, b".fini") {
        3
    } else {
        4
    }
}

/// The rank of a section that may be written.
fn writable_rank(name: &[u8]) -> u8
    ensures { result ≡ writable_rank name.now }
{
    if is_name(name, b".dynamic") {
        24
    } else if is_name(name, b".got") {
        25
    } else if is_name(name, b".got.plt") {
        26
    } else if is_name(name, b".data") {
        27
    } else {
        early_rank(name)
    }
}

/// The rank of a section that may be written, where it is none of the last ones.
fn early_rank(name: &[u8]) -> u8
    ensures { result ≡ 18 + place_in names_before_others name.now }
{
    if is_name(name, b".preinit_array") {
        18
    } else if is_name(name, b".init_array") {
        19
    } else if is_name(name, b".fini_array") {
        20
    } else if is_name(name, b".ctors") {
        21
    } else if is_name(name, b".dtors") {
        22
    } else {
        23
    }
}

/// The rank of the section of a class and a name.
fn rank_in(class: Class, name: &[u8]) -> u8
    ensures { result ≡ rank_in class (named name.now class) }
{
    match class {
        Class::R => read_only_rank(name),
        Class::X => 11 + executable_place(name),
        Class::Tdata => 16,
        Class::Tbss => 17,
        Class::W => writable_rank(name),
        Class::WX => 23,
        Class::Bss if is_name(name, b".bss") => 28,
        Class::Bss => 29,
        Class::N => 30,
    }
}

/// The rank of a section.
#[tactic(auto, unfolding(lk_model::specs::SectionOrder::section_rank))]
pub(crate) fn section_rank(key: &SectionKey) -> u8
    ensures { result ≡ section_rank key.now }
{
    rank_in(key.class, key.name.as_slice())
}
