//! What a link keeps of an object whose parts are written out: one of each kind.

use crate::headers::{NO_SECTION, NO_SECTIONS, NO_SYMBOL};
use lk_elf::numbers::{
    SHF_ALLOC, SHF_EXECINSTR, SHF_WRITE, SHT_GROUP, SHT_NOBITS, SHT_PROGBITS, SHT_RELA, SHT_STRTAB,
    SHT_SYMTAB,
};
use lk_elf::{Ehdr, Shdr, Sym};
use lk_model::layouts::{Class, SectionKey};
use lk_model::summaries::{Global as Symbol, Home, InputSummary, Kind, PieceInfo, PieceInfoList};
use lk_obj_read::{asks_exec_stack, pieces_of, read_summary};
use lk_report::{Bytes, Name, NoMemory};
use std::alloc::Global;

/// Four zeros, the two words of a group, and names from 12 on.
const FILE: [u8; 48] = *b"\0\0\0\0\x01\0\0\0\x05\0\0\0\0.eh_frame\0.note.GNU-stack\0.bss\0sig\0";

const FRAMES_NAME: u32 = 1;

const STACK_NAME: u32 = 11;

const BSS_NAME: u32 = 27;

const SIGNATURE_NAME: u32 = 32;

const HEADER: Ehdr = Ehdr {
    e_shnum: 11,
    e_shstrndx: 8,
    ..NO_SECTIONS
};

/// Frames of this size at this place, aligned to 8 bytes.
const fn frames(sh_offset: u64, sh_size: u64) -> Shdr {
    Shdr {
        sh_name: FRAMES_NAME,
        sh_type: SHT_PROGBITS,
        sh_flags: SHF_ALLOC,
        sh_offset,
        sh_size,
        sh_addralign: 8,
        ..NO_SECTION
    }
}

const RELOCATIONS: Shdr = Shdr {
    sh_type: SHT_RELA,
    sh_size: 24,
    sh_info: 2,
    ..NO_SECTION
};

const BSS: Shdr = Shdr {
    sh_name: BSS_NAME,
    sh_type: SHT_NOBITS,
    sh_flags: SHF_ALLOC | SHF_WRITE,
    sh_size: 4,
    ..NO_SECTION
};

const GROUP: Shdr = Shdr {
    sh_type: SHT_GROUP,
    sh_offset: 4,
    sh_size: 8,
    sh_link: 7,
    sh_info: 2,
    ..NO_SECTION
};

const SYMBOLS: Shdr = Shdr {
    sh_type: SHT_SYMTAB,
    sh_link: 8,
    ..NO_SECTION
};

const STRINGS: Shdr = Shdr {
    sh_type: SHT_STRTAB,
    sh_offset: 12,
    sh_size: 36,
    ..NO_SECTION
};

/// The section that asks for a kind of stack, with these flags.
const fn stack(sh_flags: u64) -> Shdr {
    Shdr {
        sh_name: STACK_NAME,
        sh_type: SHT_PROGBITS,
        sh_flags,
        ..NO_SECTION
    }
}

/// Frames: a terminator, four zeros with relocations, a byte too many, and one that the file cuts off.
fn sections() -> [Shdr; 11] {
    [
        NO_SECTION,
        frames(0, 4),
        frames(0, 4),
        RELOCATIONS,
        frames(0, 5),
        BSS,
        GROUP,
        SYMBOLS,
        STRINGS,
        stack(SHF_EXECINSTR),
        frames(47, 4),
    ]
}

/// The symbols: the null one, a LOCAL one, a WEAK hidden function in section 4.
const TABLE: [Sym; 3] = [
    NO_SYMBOL,
    Sym {
        st_info: 3,
        st_shndx: 4,
        ..NO_SYMBOL
    },
    Sym {
        st_name: SIGNATURE_NAME,
        st_info: 0x22,
        st_other: 2,
        st_shndx: 4,
        st_value: 1,
        st_size: 3,
    },
];

/// The summary of the object.
fn summary(alloc: Global) -> Result<InputSummary, NoMemory> {
    let file = Bytes::from_slice(alloc, &FILE)?;
    read_summary(alloc, &file, &HEADER, &sections(), &TABLE)
}

/// A piece: its section, name, class, alignment and size; its output section has its own name.
type Asked = (u32, &'static [u8], Class, u64, u64);

/// The pieces; one of size 0 is a terminator.
const PIECES: [Asked; 5] = [
    (1, b".eh_frame", Class::R, 8, 0),
    (2, b".eh_frame", Class::R, 8, 4),
    (4, b".eh_frame", Class::R, 8, 5),
    (5, b".bss", Class::Bss, 1, 4),
    (10, b".eh_frame", Class::R, 8, 4),
];

fn piece(alloc: Global, asked: &Asked) -> Result<PieceInfo, NoMemory> {
    let (section, text, class, align, size) = *asked;
    let name = Name::from_slice(alloc, text)?;
    let key = SectionKey {
        name: Name::from_slice(alloc, text)?,
        class,
    };
    Ok(PieceInfo {
        section,
        name,
        key,
        size,
        align,
        terminator: size == 0,
    })
}

fn pieces(alloc: Global) -> Result<PieceInfoList, NoMemory> {
    let mut pieces = PieceInfoList::new(alloc);
    for asked in &PIECES {
        pieces.push(piece(alloc, asked)?)?;
    }
    Ok(pieces)
}

#[test]
fn pieces_are_reported(rt: HostRuntime) -> Result<(), NoMemory> {
    let file = Bytes::from_slice(rt.alloc(), &FILE)?;
    let reported = pieces_of(rt.alloc(), &file, &HEADER, &sections())?;
    assert_eq!(rt; reported, pieces(rt.alloc())?);
    Ok(())
}

#[test]
fn a_summary_says_what_the_file_is(rt: HostRuntime) -> Result<(), NoMemory> {
    let reported = summary(rt.alloc())?;
    assert_eq!(rt; reported.kind, Kind::Object);
    assert!(rt; reported.soname.as_slice().is_empty());
    assert!(rt; reported.exec_stack);
    assert_eq!(rt; reported.pieces.as_slice().len(), 5);
    Ok(())
}

/// What symbol 2 is.
fn second(alloc: Global) -> Result<Symbol, NoMemory> {
    Ok(Symbol {
        symbol: 2,
        name: Name::from_slice(alloc, b"sig")?,
        binding: 2,
        code: 2,
        visibility: 2,
        home: Home::Section(4),
        value: 1,
        size: 3,
    })
}

#[test]
fn a_summary_has_the_symbols(rt: HostRuntime) -> Result<(), NoMemory> {
    let reported = summary(rt.alloc())?;
    let wanted = [second(rt.alloc())?];
    assert_eq!(rt; reported.globals.as_slice(), wanted.as_slice());
    Ok(())
}

#[test]
fn a_summary_has_the_groups(rt: HostRuntime) -> Result<(), NoMemory> {
    let reported = summary(rt.alloc())?;
    let groups = reported.groups.as_slice();
    assert_eq!(rt; groups.len(), 1);
    assert!(rt; groups[0].signature.as_slice() == b"sig".as_slice());
    assert!(rt; groups[0].members.as_slice() == [5u32].as_slice());
    Ok(())
}

#[test]
fn the_flag_asks_for_the_stack(rt: HostRuntime) {
    assert!(rt; asks_exec_stack(&FILE, &HEADER, &sections()));
    let mut plain = sections();
    plain[9] = stack(SHF_ALLOC | SHF_WRITE);
    assert!(rt; !asks_exec_stack(&FILE, &HEADER, &plain));
}
