//! Groups and their answers by the rules: each check once, beside it its neighbour just inside the limit,
//! and which of two groups is reported.

ghost use Rattle.std.specs.Prelude.{◌+◌, ◌≤◌};

use crate::headers::{Answer, NO_SECTION, NO_SECTIONS, NO_SYMBOL, is_text};
use lk_elf::numbers::{SHF_ALLOC, SHN_ABS, SHT_GROUP, SHT_PROGBITS, SHT_STRTAB, SHT_SYMTAB};
use lk_elf::{Ehdr, Shdr, Sym};
use lk_model::summaries::{Group, GroupList};
use lk_obj_parts::{groups_fault, groups_of, signature_of, word_under};
use lk_report::{InputFault, NoMemory};
use std::alloc::Global;

/// The names of sections and of symbols.
const NAMES: [u8; 11] = *b"\0.text\0sig\0";

const TEXT_NAME: u32 = 1;

const SIGNATURE_NAME: u32 = 7;

/// The size of the file: its header, the names, the words of two groups.
const SIZE: usize = 104;

const HEADER: Ehdr = Ehdr {
    e_shnum: 6,
    e_shstrndx: 5,
    ..NO_SECTIONS
};

/// A group of three words at 80, whose symbol is 2.
const FIRST: Shdr = Shdr {
    sh_type: SHT_GROUP,
    sh_offset: 80,
    sh_size: 12,
    sh_link: 4,
    sh_info: 2,
    sh_addralign: 4,
    sh_entsize: 4,
    ..NO_SECTION
};

/// A group of three words at 92, whose symbol is 1, that of section 3.
const SECOND: Shdr = Shdr {
    sh_offset: 92,
    sh_info: 1,
    ..FIRST
};

const TEXT: Shdr = Shdr {
    sh_name: TEXT_NAME,
    sh_type: SHT_PROGBITS,
    sh_flags: SHF_ALLOC,
    sh_offset: 64,
    ..NO_SECTION
};

const SYMBOLS: Shdr = Shdr {
    sh_type: SHT_SYMTAB,
    sh_link: 5,
    ..NO_SECTION
};

const STRINGS: Shdr = Shdr {
    sh_type: SHT_STRTAB,
    sh_offset: 64,
    sh_size: 11,
    ..NO_SECTION
};

/// The sections of the file.
const SECTIONS: [Shdr; 6] = [NO_SECTION, FIRST, SECOND, TEXT, SYMBOLS, STRINGS];

/// The symbol of section 3, which has no name of its own.
const OF_TEXT: Sym = Sym {
    st_info: 3,
    st_shndx: 3,
    ..NO_SYMBOL
};

const SIGNATURE: Sym = Sym {
    st_name: SIGNATURE_NAME,
    ..NO_SYMBOL
};

/// The symbols of the file.
const TABLE: [Sym; 3] = [NO_SYMBOL, OF_TEXT, SIGNATURE];

/// Two groups: the first of sections 3 and 3, the second of sections 5 and 4.
const WORDS: [u32; 6] = [1, 3, 3, 1, 5, 4];

fn put_word(bytes: &mut [u8; SIZE], at: usize, word: u32)
    requires { at + 4 ≤ 104 }
{
    bytes[at..at + 4].copy_from_slice(&word.to_le_bytes());
}

/// A file with these words of two groups.
fn file(words: [u32; 6]) -> [u8; SIZE] {
    let mut bytes = [0u8; SIZE];
    bytes[64..75].copy_from_slice(&NAMES);
    put_word(&mut bytes, 80, words[0]);
    put_word(&mut bytes, 84, words[1]);
    put_word(&mut bytes, 88, words[2]);
    put_word(&mut bytes, 92, words[3]);
    put_word(&mut bytes, 96, words[4]);
    put_word(&mut bytes, 100, words[5]);
    bytes
}

/// The first fault of two groups, of which the first has this header, with these words and this symbol 1.
fn reported(alloc: Global, words: [u32; 6], first: Shdr, of_text: Sym) -> Answer {
    let bytes = file(words);
    let sections = [NO_SECTION, first, SECOND, TEXT, SYMBOLS, STRINGS];
    let symbols = [NO_SYMBOL, of_text, SIGNATURE];
    groups_fault(alloc, &bytes, &HEADER, &sections, &symbols)
}

/// The fault of groups with these words.
fn words_reported(alloc: Global, words: [u32; 6]) -> Answer {
    reported(alloc, words, FIRST, OF_TEXT)
}

/// The fault of groups of which this is the first.
fn first_reported(alloc: Global, first: Shdr) -> Answer {
    reported(alloc, WORDS, first, OF_TEXT)
}

fn sized(sh_size: u64) -> Shdr {
    Shdr { sh_size, ..FIRST }
}

fn linked(sh_link: u32) -> Shdr {
    Shdr { sh_link, ..FIRST }
}

fn signed(sh_info: u32) -> Shdr {
    Shdr { sh_info, ..FIRST }
}

fn placed(sh_offset: u64) -> Shdr {
    Shdr { sh_offset, ..FIRST }
}

#[test]
fn a_size_is_reported(rt: HostRuntime) {
    let bad = Some(InputFault::BadGroup(1));
    for (size, wanted) in [(0, bad), (3, bad), (4, None), (6, bad), (12, None)] {
        assert_eq!(rt; first_reported(rt.alloc(), sized(size)), Ok(wanted));
    }
}

#[test]
fn a_link_is_reported(rt: HostRuntime) {
    let bad = Some(InputFault::BadGroup(1));
    for (link, wanted) in [(5, bad), (0, bad), (4, None)] {
        assert_eq!(rt; first_reported(rt.alloc(), linked(link)), Ok(wanted));
    }
}

#[test]
fn a_signature_is_reported(rt: HostRuntime) {
    let bad = Some(InputFault::BadGroup(1));
    for (symbol, wanted) in [(0, bad), (1, None), (2, None), (3, bad)] {
        assert_eq!(rt; first_reported(rt.alloc(), signed(symbol)), Ok(wanted));
    }
}

#[test]
fn a_signature_without_a_section_is_reported(rt: HostRuntime) {
    let absolute = Sym {
        st_shndx: SHN_ABS,
        ..OF_TEXT
    };
    let second = Some(InputFault::BadGroup(2));
    assert_eq!(rt; reported(rt.alloc(), WORDS, FIRST, absolute), Ok(second));
}

#[test]
fn a_place_is_reported(rt: HostRuntime) {
    let first = Some(InputFault::BadGroup(1));
    let second = Some(InputFault::BadGroup(2));
    for (place, wanted) in [(80, None), (92, second), (93, first)] {
        assert_eq!(rt; first_reported(rt.alloc(), placed(place)), Ok(wanted));
    }
}

#[test]
fn a_flag_is_reported(rt: HostRuntime) {
    let bad = Some(InputFault::BadGroup(1));
    for (flag, wanted) in [(0, None), (1, None), (2, bad)] {
        assert_eq!(rt;
            words_reported(rt.alloc(), [flag, 3, 3, 1, 5, 4]),
            Ok(wanted)
        );
    }
}

#[test]
fn a_member_is_reported(rt: HostRuntime) {
    let first = Some(InputFault::BadGroup(1));
    let second = Some(InputFault::BadGroup(2));
    let cases = [
        ([1, 3, 0, 1, 5, 4], first),
        ([1, 3, 6, 1, 5, 4], first),
        ([1, 3, u32::MAX, 1, 5, 4], first),
        ([1, 3, 4, 1, 5, 5], None),
        ([1, 3, 4, 1, 5, 4], second),
        ([0, 3, 4, 0, 3, 5], second),
        ([1, 3, 4, 1, 4, 0], second),
        ([1, 3, 6, 1, 3, 3], first),
    ];
    for (words, wanted) in cases {
        assert_eq!(rt; words_reported(rt.alloc(), words), Ok(wanted));
    }
}

/// Whether a group has this signature and these members.
fn is_group(group: &Group, signature: &[u8], members: &[u32]) -> bool {
    group.signature.as_slice() == signature && group.members.as_slice() == members
}

/// The groups of a file with these words.
fn groups(alloc: Global, words: [u32; 6]) -> Result<GroupList, NoMemory> {
    groups_of(alloc, &file(words), &HEADER, &SECTIONS, &TABLE)
}

#[test]
fn groups_are_read(rt: HostRuntime) -> Result<(), NoMemory> {
    let both = groups(rt.alloc(), WORDS)?;
    let both = both.as_slice();
    assert_eq!(rt; both.len(), 2);
    assert!(rt; is_group(&both[0], b"sig", &[3, 3]));
    assert!(rt; is_group(&both[1], b".text", &[5, 4]));
    Ok(())
}

#[test]
fn a_group_without_the_flag_is_none(rt: HostRuntime) -> Result<(), NoMemory> {
    let one = groups(rt.alloc(), [0, 3, 3, 1, 5, 4])?;
    assert_eq!(rt; one.as_slice().len(), 1);
    Ok(())
}

#[test]
fn signatures_and_words_are_read(rt: HostRuntime) {
    let bytes = file(WORDS);
    let signature = signature_of(&bytes, &HEADER, &SECTIONS, &TABLE, 1);
    assert!(rt; is_text(signature, b".text"));
    assert!(rt; signature_of(&bytes, &HEADER, &SECTIONS, &TABLE, 0).is_none());
    assert_eq!(rt; word_under(&bytes, &SECOND, 2), Some(4));
    assert_eq!(rt; word_under(&bytes, &SECOND, 3), None);
}
