//! The pieces of an object: the sections that may be linked, each with its output section (gABI "Sections").
//!
//! A terminator of frames is four zero bytes without relocations. Where a section holds four zero bytes, which
//! sections have relocations is found for all of them at once, so that no list of relocations is looked for; in
//! most objects none does, and no mark is made. Cost: one look at each section header, one at the name of each
//! section that can be a piece by its type and flags. No name is copied: those of pieces share the bytes of the
//! file, and those of output sections share them too, or are there for good.

ghost use Rattle.std.specs.Prelude.{◌≡◌, ◌<◌, ◌^◌, ◌++◌, List, [], bytes_eq, drop, length, option_and_then, option_to_list, take, IfOk, OnOk};
ghost use Rattle.std.specs.List.{list_any};
ghost use Rattle.std.specs.Option.{option_copied};
ghost use Rattle.lk_elf.specs.declared.symbol.Sym.{Sym};
ghost use Rattle.lk_marks.specs.Marked.{is_marked};
ghost use Rattle.lk_model.specs.Elf.{section_name};
ghost use Rattle.lk_model.specs.Objects.{alignment_of, is_frames, piece_with, pieces_in};
ghost use Rattle.lk_obj_parts.specs.ElfViews.{elf_from};
ghost use Rattle.lk_obj_read.specs.PieceParts.{MarksServe, stored_bytes, is_four_zeros, is_terminator_reported, piece_reported};

use crate::relocation_marks::relocated_sections;
use lk_elf::numbers::SHT_NOBITS;
use lk_elf::{Ehdr, Shdr};
use lk_marks::Marks;
use lk_model::layouts::{Class, SectionKey};
use lk_model::summaries::{PieceInfo, PieceInfoList};
use lk_obj_parts::shared_section_name;
use lk_outsec::{key_for, may_be_piece};
use lk_report::{Bytes, Name, NoMemory};
use std::alloc::Global;

/// What is from `at` on; nothing past the end.
fn rest_from(bytes: &[u8], at: usize) -> &[u8]
    ensures { result.now ≡ drop at bytes.now }
{
    if at < bytes.len() { &bytes[at..] } else { &[] }
}

/// At most the first `size` bytes.
fn front_of(bytes: &[u8], size: usize) -> &[u8]
    ensures { result.now ≡ take size bytes.now }
{
    if size < bytes.len() {
        &bytes[..size]
    } else {
        bytes
    }
}

/// The bytes of a section, as far as the file has them; none of a NOBITS section.
pub(crate) fn stored_bytes<'a>(bytes: &'a [u8], section: &Shdr) -> &'a [u8]
    ensures { result.now ≡ stored_bytes bytes.now section.now }
{
    if section.sh_type == SHT_NOBITS {
        &[]
    } else {
        front_of(
            rest_from(bytes, section.sh_offset as usize),
            section.sh_size as usize,
        )
    }
}

/// Whether a section holds exactly four zero bytes in the file.
fn is_four_zeros(bytes: &[u8], section: &Shdr) -> bool
    ensures { result ≡ is_four_zeros bytes.now section.now }
{
    stored_bytes(bytes, section) == [0, 0, 0, 0].as_slice()
}

/// Whether a section of an object holds exactly four zero bytes, so that it may be a terminator.
fn may_end_frames(bytes: &[u8], sections: &[Shdr]) -> bool
    ensures { result ≡ list_any (is_four_zeros bytes.now) sections.now }
{
    sections.iter().any(|section| is_four_zeros(bytes, section))
}

/// Whether an output section is that of frames.
fn is_frames(key: &SectionKey) -> bool
    ensures { result ≡ is_frames key.now }
{
    match key.class {
        Class::R => key.name.as_slice() == b".eh_frame".as_slice(),
        Class::X | Class::W | Class::WX | Class::Tdata | Class::Tbss | Class::Bss | Class::N => {
            false
        }
    }
}

/// Whether a section of frames is a terminator, where it is known whether it has relocations.
fn is_terminator(bytes: &[u8], relocated: bool, section: &Shdr, key: &SectionKey) -> bool
    ensures { result ≡ is_terminator_reported bytes.now relocated section.now key.now }
{
    is_frames(key) && is_four_zeros(bytes, section) && !relocated
}

/// The alignment of a section; 0 means 1.
fn alignment_of(section: &Shdr) -> u64
    ensures { result ≡ alignment_of section.now }
{
    if section.sh_addralign == 0 {
        1
    } else {
        section.sh_addralign
    }
}

#[tactic(auto, unfolding(lk_model::specs::Objects::piece_with))]
fn piece_with(n: u32, section: &Shdr, name: Name, terminator: bool, key: SectionKey) -> PieceInfo
    ensures { result ≡ piece_with n section.now name terminator key }
{
    PieceInfo {
        section: n,
        name,
        key,
        size: if terminator { 0 } else { section.sh_size },
        align: alignment_of(section),
        terminator,
    }
}

/// A section as a piece, by its name; none where it is no piece.
#[tactic(auto, unfolding(crate::specs::PieceParts::piece_reported))]
fn piece_named(
    alloc: Global,
    bytes: &[u8],
    relocated: bool,
    n: u32,
    section: &Shdr,
    name: Name,
) -> Result<Option<PieceInfo>, NoMemory>
    ensures { IfOk result (λ piece. piece ≡ piece_reported bytes.now relocated n section.now name) }
{
    let Some(key) = key_for(alloc, &name, section.sh_type, section.sh_flags)? else {
        return Ok(None);
    };
    let terminator = is_terminator(bytes, relocated, section, &key);
    Ok(Some(piece_with(n, section, name, terminator, key)))
}

/// A section as a piece; none where it is no piece, or has no name.
#[tactic(auto, using(crate::proofs::PiecesReported::no_piece))]
fn piece_at(
    alloc: Global,
    file: &Bytes,
    header: &Ehdr,
    sections: &[Shdr],
    relocated: bool,
    n: u32,
    section: &Shdr,
) -> Result<Option<PieceInfo>, NoMemory>
    ensures { IfOk result (λ piece. piece ≡ option_and_then (piece_reported file.now relocated n section.now) (section_name (elf_from file.now header.now sections.now []) n)) }
{
    if !may_be_piece(section.sh_type, section.sh_flags) {
        return Ok(None);
    }
    match shared_section_name(file, header, sections, n)? {
        None => Ok(None),
        Some(name) => piece_named(alloc, file.as_slice(), relocated, n, section, name),
    }
}

/// For each section, by its number, whether it has relocations, where a section may be a terminator; else no
/// mark at all.
fn needed_marks(alloc: Global, bytes: &[u8], sections: &[Shdr]) -> Result<Marks, NoMemory>
    ensures { IfOk result (λ marks. MarksServe bytes.now sections.now marks) }
{
    if !may_end_frames(bytes, sections) {
        return Ok(Marks::new(alloc));
    }
    relocated_sections(alloc, bytes, sections)
}

/// Puts a piece at the end, where there is one.
fn put_piece(pieces: &mut PieceInfoList, piece: Option<PieceInfo>) -> Result<(), NoMemory>
    ensures { OnOk result (pieces.new ≡ pieces.old ++ option_to_list piece) }
{
    match piece {
        None => Ok(()),
        Some(piece) => pieces.push(piece),
    }
}

/// The sections of an object that may be linked, by rising section number.
///
/// A section number as a number of 32 bits.
///
/// # Errors
/// Out of memory alone.
#[tactic(auto, using(crate::proofs::PiecesReported::piece_put))]
pub fn pieces_of(
    alloc: Global,
    file: &Bytes,
    header: &Ehdr,
    sections: &[Shdr],
) -> Result<PieceInfoList, NoMemory>
    requires few { length sections.now < 2 ^ 32 }
    ensures { (symbols : List Sym) → IfOk result (λ pieces. pieces ≡ pieces_in (elf_from file.now header.now sections.now symbols)) }
{
    let marks = needed_marks(alloc, file.as_slice(), sections)?;
    let mut pieces = PieceInfoList::new(alloc);
    for i in 1..sections.len() {
        let relocated = marks.is_marked(i as u32);
        let piece = piece_at(
            alloc,
            file,
            header,
            sections,
            relocated,
            i as u32,
            &sections[i],
        )?;
        put_piece(&mut pieces, piece)?;
    }
    Ok(pieces)
}
