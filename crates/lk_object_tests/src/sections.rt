//! Section tables and their answers by the rules: each check once, beside it its neighbour just inside the
//! limit, and which of two faults is reported.

ghost use Rattle.std.specs.Prelude.{◌+◌, ◌≤◌};

use crate::headers::{Answer, NO_SECTION, NO_SECTIONS, is_text};
use lk_elf::numbers::{
    ET_DYN, SHF_ALLOC, SHF_COMPRESSED, SHF_EXECINSTR, SHF_TLS, SHF_WRITE, SHT_HASH, SHT_NOBITS,
    SHT_PROGBITS, SHT_REL, SHT_STRTAB, SHT_SYMTAB_SHNDX, SHT_X86_64_UNWIND,
};
use lk_elf::{Ehdr, Shdr};
use lk_model::layouts::{Class, SectionKey};
use lk_obj_parts::{name_at, read_sections, section_name, sections_fault, table_fault};
use lk_outsec::key_for;
use lk_report::{InputFault, Name, NoMemory};
use std::alloc::Global;

/// The names of sections; the last has no closing zero.
const NAMES: [u8; 78] =
    *b"\0.text\0.shstrtab\0.zdebug_a\0.zdebug\0.got\0.got.x\0.symtab\0.note.gnu.property\0open";

const TEXT_NAME: u32 = 1;

const TITLES_NAME: u32 = 7;

const ZDEBUG_A_NAME: u32 = 17;

const ZDEBUG_NAME: u32 = 27;

const GOT_NAME: u32 = 35;

const GOT_X_NAME: u32 = 40;

const SYMTAB_NAME: u32 = 47;

const EMPTY_NAME: u32 = 73;

const OPEN_NAME: u32 = 74;

const PAST_NAME: u32 = 78;

/// The size of the file: its header, the names and two zeros, three section headers.
const SIZE: usize = 336;

/// The flags of code that is stored compressed.
const COMPRESSED: u64 = SHF_ALLOC + SHF_EXECINSTR + SHF_COMPRESSED;

const HEADER: Ehdr = Ehdr {
    e_shoff: 144,
    e_shnum: 3,
    e_shstrndx: 2,
    ..NO_SECTIONS
};

const TEXT: Shdr = Shdr {
    sh_name: TEXT_NAME,
    sh_type: SHT_PROGBITS,
    sh_flags: SHF_ALLOC + SHF_EXECINSTR,
    sh_offset: 64,
    sh_size: 8,
    sh_addralign: 16,
    ..NO_SECTION
};

const TITLES: Shdr = Shdr {
    sh_name: TITLES_NAME,
    sh_type: SHT_STRTAB,
    sh_offset: 64,
    sh_size: 78,
    sh_addralign: 1,
    ..NO_SECTION
};

fn put_section(bytes: &mut [u8; SIZE], at: usize, section: &Shdr)
    requires { at + 64 ≤ 336 }
{
    section.write_at(bytes, at);
}

/// A file with this header and these sections 1 and 2.
fn file(header: &Ehdr, text: &Shdr, titles: &Shdr) -> [u8; SIZE] {
    let mut bytes = [0u8; SIZE];
    header.write_at(&mut bytes, 0);
    put_section(&mut bytes, 208, text);
    put_section(&mut bytes, 272, titles);
    bytes[64..142].copy_from_slice(&NAMES);
    bytes
}

/// The first fault of a file with this header and these sections.
fn reported(alloc: Global, header: &Ehdr, text: &Shdr, titles: &Shdr) -> Answer {
    let bytes = file(header, text, titles);
    let sections = read_sections(alloc, &bytes, header)?;
    match table_fault(&bytes, header, &sections) {
        Some(fault) => Ok(Some(fault)),
        None => Ok(sections_fault(&bytes, header, &sections)),
    }
}

/// The fault of a file with this header.
fn header_reported(alloc: Global, header: Ehdr) -> Answer {
    reported(alloc, &header, &TEXT, &TITLES)
}

/// The fault of a file with this section 1.
fn text_reported(alloc: Global, text: Shdr) -> Answer {
    reported(alloc, &HEADER, &text, &TITLES)
}

/// The fault of a file with this section 2.
fn titles_reported(alloc: Global, text: Shdr, titles: Shdr) -> Answer {
    reported(alloc, &HEADER, &text, &titles)
}

fn table(e_shoff: u64, e_shnum: u16) -> Ehdr {
    Ehdr {
        e_shoff,
        e_shnum,
        ..HEADER
    }
}

fn entries_of(e_shentsize: u16) -> Ehdr {
    Ehdr {
        e_shentsize,
        ..HEADER
    }
}

fn titles_at(e_shstrndx: u16) -> Ehdr {
    Ehdr {
        e_shstrndx,
        ..HEADER
    }
}

fn placed(sh_type: u32, sh_offset: u64, sh_size: u64) -> Shdr {
    Shdr {
        sh_type,
        sh_offset,
        sh_size,
        ..TEXT
    }
}

fn aligned(sh_addralign: u64) -> Shdr {
    Shdr {
        sh_addralign,
        ..TEXT
    }
}

fn named(sh_name: u32) -> Shdr {
    Shdr { sh_name, ..TEXT }
}

fn kind(sh_name: u32, sh_type: u32, sh_flags: u64) -> Shdr {
    Shdr {
        sh_name,
        sh_type,
        sh_flags,
        ..TEXT
    }
}

#[test]
fn a_table_is_reported(rt: HostRuntime) {
    let bad = Some(InputFault::BadTable(0));
    let shared = Ehdr {
        e_type: ET_DYN,
        ..table(144, 0)
    };
    let cases = [
        (HEADER, None),
        (shared, Some(InputFault::WrongType)),
        (entries_of(63), bad),
        (entries_of(65), bad),
        (table(144, 0), bad),
        (table(144, 4), bad),
        (table(144, u16::MAX), bad),
        (table(145, 3), bad),
        (table(u64::MAX, 3), bad),
        (titles_at(0), bad),
        (titles_at(1), bad),
        (titles_at(3), bad),
    ];
    for (header, wanted) in cases {
        assert_eq!(rt; header_reported(rt.alloc(), header), Ok(wanted));
    }
}

#[test]
fn a_place_is_reported(rt: HostRuntime) {
    let bad = Some(InputFault::BadTable(1));
    let cases = [
        (placed(SHT_PROGBITS, 64, 272), None),
        (placed(SHT_PROGBITS, 64, 273), bad),
        (placed(SHT_PROGBITS, 336, 0), None),
        (placed(SHT_PROGBITS, 337, 0), bad),
        (placed(SHT_PROGBITS, u64::MAX, 1), bad),
        (placed(SHT_NOBITS, 64, u64::MAX), None),
    ];
    for (text, wanted) in cases {
        assert_eq!(rt; text_reported(rt.alloc(), text), Ok(wanted));
    }
}

#[test]
fn an_alignment_is_reported(rt: HostRuntime) {
    let bad = Some(InputFault::BadTable(1));
    for (alignment, wanted) in [(0, None), (3, bad), (1 << 20, None), (1 << 21, bad)] {
        assert_eq!(rt; text_reported(rt.alloc(), aligned(alignment)), Ok(wanted));
    }
}

#[test]
fn a_name_is_reported(rt: HostRuntime) {
    let bad = Some(InputFault::BadName(1));
    let compressed = Some(InputFault::Compressed(1));
    let cases = [
        (OPEN_NAME, bad),
        (PAST_NAME, bad),
        (u32::MAX, bad),
        (EMPTY_NAME, None),
        (ZDEBUG_A_NAME, compressed),
        (ZDEBUG_NAME, None),
    ];
    for (name, wanted) in cases {
        assert_eq!(rt; text_reported(rt.alloc(), named(name)), Ok(wanted));
    }
}

#[test]
fn a_name_may_be_closed_behind_its_table(rt: HostRuntime) {
    let longer = Shdr {
        sh_size: 79,
        ..TITLES
    };
    assert_eq!(rt;
        titles_reported(rt.alloc(), named(OPEN_NAME), longer),
        Ok(None)
    );
}

#[test]
fn a_kind_is_reported(rt: HostRuntime) {
    let refused = Some(InputFault::UnsupportedSection(1));
    let unknown = Some(InputFault::UnknownAlloc(1));
    let cases = [
        (
            kind(TEXT_NAME, SHT_PROGBITS, COMPRESSED),
            Some(InputFault::Compressed(1)),
        ),
        (kind(TEXT_NAME, SHT_REL, 0), refused),
        (kind(TEXT_NAME, SHT_SYMTAB_SHNDX, 0), refused),
        (named(GOT_NAME), refused),
        (named(GOT_X_NAME), None),
        (kind(SYMTAB_NAME, SHT_PROGBITS, 0), refused),
        (kind(SYMTAB_NAME, SHT_STRTAB, 0), None),
        (kind(TEXT_NAME, SHT_HASH, SHF_ALLOC), unknown),
        (kind(TEXT_NAME, SHT_HASH, 0), None),
        (kind(TEXT_NAME, SHT_X86_64_UNWIND, SHF_ALLOC), None),
    ];
    for (text, wanted) in cases {
        assert_eq!(rt; text_reported(rt.alloc(), text), Ok(wanted));
    }
}

#[test]
fn the_earlier_fault_of_a_section_is_reported(rt: HostRuntime) {
    let cut = Shdr {
        sh_size: 337,
        ..named(OPEN_NAME)
    };
    let cases = [
        (cut, InputFault::BadTable(1)),
        (kind(OPEN_NAME, SHT_REL, COMPRESSED), InputFault::BadName(1)),
        (
            kind(TEXT_NAME, SHT_REL, COMPRESSED),
            InputFault::Compressed(1),
        ),
        (
            kind(TEXT_NAME, SHT_REL, SHF_ALLOC),
            InputFault::UnsupportedSection(1),
        ),
    ];
    for (text, fault) in cases {
        assert_eq!(rt; text_reported(rt.alloc(), text), Ok(Some(fault)));
    }
}

#[test]
fn the_fault_of_the_earlier_section_is_reported(rt: HostRuntime) {
    let tilted = Shdr {
        sh_addralign: 3,
        ..TITLES
    };
    let cases = [
        (TEXT, InputFault::BadTable(2)),
        (kind(OPEN_NAME, SHT_REL, COMPRESSED), InputFault::BadName(1)),
    ];
    for (text, fault) in cases {
        assert_eq!(rt; titles_reported(rt.alloc(), text, tilted), Ok(Some(fault)));
    }
}

#[test]
fn names_are_read(rt: HostRuntime) -> Result<(), NoMemory> {
    let bytes = file(&HEADER, &TEXT, &TITLES);
    let sections = read_sections(rt.alloc(), &bytes, &HEADER)?;
    assert_eq!(rt; sections.len(), 3);
    assert!(rt; is_text(section_name(&bytes, &HEADER, &sections, 1), b".text"));
    assert!(rt; is_text(name_at(&bytes, &sections, 2, 9), b"hstrtab"));
    assert!(rt; section_name(&bytes, &HEADER, &sections, 0).is_none());
    assert!(rt; section_name(&bytes, &HEADER, &sections, 3).is_none());
    assert!(rt; name_at(&bytes, &sections, 2, OPEN_NAME).is_none());
    Ok(())
}

/// Whether the output section of a section is the one of this name and class.
fn goes_to(found: Result<Option<SectionKey>, NoMemory>, name: &[u8], class: Class) -> bool {
    match found {
        Ok(Some(key)) => key.name.as_slice() == name && key.class == class,
        Ok(None) | Err(_) => false,
    }
}

/// Whether a section is not linked.
fn goes_nowhere(found: Result<Option<SectionKey>, NoMemory>) -> bool {
    match found {
        Ok(found) => found.is_none(),
        Err(_) => false,
    }
}

const CODE: u64 = SHF_ALLOC + SHF_EXECINSTR;

const DATA: u64 = SHF_ALLOC + SHF_WRITE;

const THREAD: u64 = SHF_ALLOC + SHF_WRITE + SHF_TLS;

/// The name, type and flags of a section, and the name and class of its output section.
type Going = (&'static [u8], u32, u64, &'static [u8], Class);

const GOINGS: [Going; 9] = [
    (b".text.f", SHT_PROGBITS, CODE, b".text", Class::X),
    (b".text.", SHT_PROGBITS, CODE, b".text.", Class::X),
    (
        b".texts",
        SHT_PROGBITS,
        CODE + SHF_WRITE,
        b".texts",
        Class::WX,
    ),
    (
        b".rodata.a.b",
        SHT_PROGBITS,
        SHF_ALLOC,
        b".rodata",
        Class::R,
    ),
    (b".data", SHT_PROGBITS, DATA, b".data", Class::W),
    (b".bss.x", SHT_NOBITS, DATA, b".bss", Class::Bss),
    (b".x", SHT_PROGBITS, THREAD, b".tdata", Class::Tdata),
    (b".x", SHT_NOBITS, THREAD, b".tbss", Class::Tbss),
    (b".text.f", SHT_PROGBITS, 0, b".text.f", Class::N),
];

#[test]
fn pieces_go_to_output_sections(rt: HostRuntime) {
    for (name, code, flags, wanted, class) in GOINGS {
        assert!(rt;
            goes_to(
                key_for(rt.alloc(), &Name::from_static(name), code, flags),
                wanted,
                class
            )
        );
    }
}

/// The name, type and flags of sections that are not linked.
const NOT_LINKED: [(&'static [u8], u32, u64); 4] = [
    (b".note.GNU-stack", SHT_PROGBITS, 0),
    (b".note.gnu.property", SHT_PROGBITS, SHF_ALLOC),
    (b".text", SHT_STRTAB, SHF_ALLOC),
    (b".comment", SHT_HASH, 0),
];

#[test]
fn other_sections_go_nowhere(rt: HostRuntime) {
    for (name, code, flags) in NOT_LINKED {
        assert!(rt; goes_nowhere(key_for(rt.alloc(), &Name::from_static(name), code, flags)));
    }
}
