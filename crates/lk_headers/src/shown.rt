//! The sections that have a program header of their own (gABI "Program Header").

ghost use Rattle.std.specs.Prelude.{◌≡◌, bytes_eq, count_by};
ghost use Rattle.lk_model.specs.SectionKeys.{is_note, named, same_key};
ghost use Rattle.lk_model.specs.Segments.{section_header_of};
ghost use Rattle.lk_headers.specs.Shown.{is_shown, shown_flags, shown_type};

use lk_elf::Phdr;
use lk_elf::numbers::{PF_R, PF_W, PT_DYNAMIC, PT_INTERP, PT_NOTE};
use lk_model::classes::same_class;
use lk_model::layouts::{Class, SectionKey, SectionRow};

/// The kind of such a section.
#[derive(Clone, Copy)]
pub(crate) enum Shown {
    /// The path of the dynamic linker (PT_INTERP).
    Interpreter,
    /// The dynamic section (PT_DYNAMIC).
    Dynamic,
    /// Notes (PT_NOTE).
    Note,
}

fn shown_type(kind: Shown) -> u32
    ensures { result ≡ shown_type kind }
{
    match kind {
        Shown::Interpreter => PT_INTERP,
        Shown::Dynamic => PT_DYNAMIC,
        Shown::Note => PT_NOTE,
    }
}

fn shown_flags(kind: Shown) -> u32
    ensures { result ≡ shown_flags kind }
{
    match kind {
        Shown::Interpreter => PF_R,
        Shown::Dynamic => PF_R + PF_W,
        Shown::Note => PF_R,
    }
}

/// Whether a name is this one.
pub(crate) fn is_name(name: &[u8], other: &[u8]) -> bool
    ensures { result ≡ bytes_eq name.now other.now }
{
    name == other
}

/// Whether a key is that of a name and a class.
pub(crate) fn is_key(key: &SectionKey, name: &[u8], class: Class) -> bool
    ensures { result ≡ same_key key.now (named name.now class) }
{
    same_class(key.class, class) && is_name(key.name.as_slice(), name)
}

/// Whether a section holds notes.
pub(crate) fn is_note(key: &SectionKey) -> bool
    ensures { result ≡ is_note key.now }
{
    let name = key.name.as_slice();
    same_class(key.class, Class::R) && (is_name(name, b".note") || name.starts_with(b".note."))
}

/// Whether a section has a header of this kind.
pub(crate) fn is_shown(kind: Shown, row: &SectionRow) -> bool
    ensures { result ≡ is_shown kind row.now }
{
    match kind {
        Shown::Interpreter => is_key(&row.key, b".interp", Class::R),
        Shown::Dynamic => is_key(&row.key, b".dynamic", Class::W),
        Shown::Note => is_note(&row.key),
    }
}

/// How many sections have a header of this kind.
pub(crate) fn shown_count(kind: Shown, rows: &[SectionRow]) -> usize
    ensures { result ≡ count_by (is_shown kind) rows.now }
{
    rows.iter().filter(|row| is_shown(kind, row)).count()
}

/// The program header of a section, with its bytes in the file and in memory.
pub(crate) fn header_of(kind: Shown, row: &SectionRow) -> Phdr
    ensures { result ≡ section_header_of (shown_type kind) (shown_flags kind) row.now }
{
    Phdr {
        p_type: shown_type(kind),
        p_flags: shown_flags(kind),
        p_offset: row.offset,
        p_vaddr: row.addr,
        p_paddr: row.addr,
        p_filesz: row.size,
        p_memsz: row.size,
        p_align: row.align,
    }
}
