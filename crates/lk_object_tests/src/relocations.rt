//! Relocations and their answers by the rules: each check beside its neighbour just inside the limit, and
//! fields that share a byte and that do not.

ghost use Rattle.std.specs.Prelude.{◌^◌, ◌<◌, ◌≤◌, length};

use crate::headers::{Answer, NO_SECTION, NO_SECTIONS, NO_SYMBOL};
use lk_elf::numbers::{
    SHF_ALLOC, SHF_EXECINSTR, SHF_WRITE, SHT_NOBITS, SHT_PROGBITS, SHT_RELA, SHT_STRTAB, SHT_SYMTAB,
};
use lk_elf::{Ehdr, Rela, Shdr};
use lk_obj_parts::{entry_count, overlap_fault, rela_at, rela_faults};
use lk_reloc::width_of;
use lk_report::InputFault;
use std::alloc::Global;

/// Names, 16 bytes of code, and four relocations.
const SIZE: usize = 128;

const NAMES: [u8; 16] = *b"\0.text\0.data\0...";

const HEADER: Ehdr = Ehdr {
    e_shnum: 7,
    e_shstrndx: 2,
    ..NO_SECTIONS
};

const TEXT: Shdr = Shdr {
    sh_name: 1,
    sh_type: SHT_PROGBITS,
    sh_flags: SHF_ALLOC + SHF_EXECINSTR,
    sh_offset: 16,
    sh_size: 16,
    ..NO_SECTION
};

const TITLES: Shdr = Shdr {
    sh_type: SHT_STRTAB,
    sh_size: 16,
    ..NO_SECTION
};

const SYMBOLS: Shdr = Shdr {
    sh_type: SHT_SYMTAB,
    sh_link: 2,
    sh_entsize: 24,
    ..NO_SECTION
};

/// Two relocations of the code.
const FIRST: Shdr = Shdr {
    sh_type: SHT_RELA,
    sh_offset: 32,
    sh_size: 48,
    sh_link: 3,
    sh_info: 1,
    sh_entsize: 24,
    ..NO_SECTION
};

/// Two more.
const SECOND: Shdr = Shdr {
    sh_offset: 80,
    ..FIRST
};

const DATA: Shdr = Shdr {
    sh_name: 7,
    sh_type: SHT_PROGBITS,
    sh_flags: SHF_ALLOC + SHF_WRITE,
    sh_offset: 16,
    sh_size: 16,
    ..NO_SECTION
};

/// A relocation of this type through symbol 1.
fn rela(at: u64, code: u64) -> Rela
    requires { code < 2 ^ 32 }
{
    Rela {
        r_offset: at,
        r_info: 0x1_0000_0000 + code,
        r_addend: 0,
    }
}

/// A relocation that has no field.
fn none(at: u64) -> Rela {
    rela(at, 0)
}

/// A relocation with a field of four bytes.
fn four(at: u64) -> Rela {
    rela(at, 2)
}

fn file(a: Rela, b: Rela, c: Rela, d: Rela) -> [u8; SIZE] {
    let mut bytes = [0u8; SIZE];
    bytes[..16].copy_from_slice(&NAMES);
    a.write_at(&mut bytes, 32);
    b.write_at(&mut bytes, 56);
    c.write_at(&mut bytes, 80);
    d.write_at(&mut bytes, 104);
    bytes
}

/// The first fault of the relocations of a file with these sections 1, 4 and 5, in which section 6 is
/// data; it has two symbols.
fn reported(alloc: Global, bytes: &[u8], text: Shdr, first: Shdr, second: Shdr) -> Answer
    requires { length bytes.now ≤ 1000 }
{
    let sections = [NO_SECTION, text, TITLES, SYMBOLS, first, second, DATA];
    match rela_faults(bytes, &HEADER, &sections, &[NO_SYMBOL, NO_SYMBOL]) {
        Some(fault) => Ok(Some(fault)),
        None => overlap_fault(alloc, bytes, &HEADER, &sections),
    }
}

/// The fault of four relocations of the code, two in each section.
fn four_reported(alloc: Global, a: Rela, b: Rela, c: Rela, d: Rela) -> Answer {
    reported(alloc, &file(a, b, c, d), TEXT, FIRST, SECOND)
}

/// The fault where the last of three fields apart is this one.
fn last_reported(alloc: Global, d: Rela) -> Answer {
    four_reported(alloc, four(0), none(16), four(8), d)
}

/// The fault where section 4 has this header, and fields are apart.
fn first_reported(alloc: Global, first: Shdr) -> Answer {
    reported(
        alloc,
        &file(four(0), four(4), four(8), four(12)),
        TEXT,
        first,
        SECOND,
    )
}

#[test]
fn fields_share_a_byte(rt: HostRuntime) {
    let second = Some(InputFault::BadRela(4, 1));
    let cases = [
        (four(0), four(4), None),
        (four(0), four(3), second),
        (four(4), four(1), second),
        (rela(0, 1), rela(7, 14), second),
        (rela(0, 1), rela(8, 14), None),
        (none(0), none(0), None),
    ];
    for (a, b, wanted) in cases {
        assert_eq!(rt;
            four_reported(rt.alloc(), a, b, none(0), none(0)),
            Ok(wanted)
        );
    }
}

#[test]
fn fields_of_two_sections_share_a_byte(rt: HostRuntime) {
    let last = Some(InputFault::BadRela(5, 1));
    let cases = [
        (four(0), last),
        (four(3), last),
        (four(4), None),
        (four(5), last),
        (four(11), last),
        (four(12), None),
        (none(1), None),
    ];
    for (d, wanted) in cases {
        assert_eq!(rt; last_reported(rt.alloc(), d), Ok(wanted));
    }
}

#[test]
fn each_target_has_its_own_fields(rt: HostRuntime) {
    let data = Shdr {
        sh_info: 6,
        ..SECOND
    };
    let symbols = Shdr {
        sh_info: 3,
        ..SECOND
    };
    let apart = four(4);
    let shared = four(2);
    let cases = [
        (apart, SECOND, Some(InputFault::BadRela(5, 0))),
        (apart, data, None),
        (shared, data, Some(InputFault::BadRela(5, 1))),
        (shared, symbols, None),
    ];
    for (d, second, wanted) in cases {
        let bytes = file(four(0), four(4), four(0), d);
        assert_eq!(rt;
            reported(rt.alloc(), &bytes, TEXT, FIRST, second),
            Ok(wanted)
        );
    }
}

/// A relocation without a field through symbol 2, which is not there.
fn past() -> Rela {
    Rela {
        r_info: 0x2_0000_0000,
        ..none(0)
    }
}

#[test]
fn an_entry_is_reported(rt: HostRuntime) {
    let last = Some(InputFault::BadRela(5, 1));
    let cases = [
        (past(), last),
        (four(13), last),
        (none(16), None),
        (none(17), last),
        (four(u64::MAX), last),
    ];
    for (d, wanted) in cases {
        assert_eq!(rt; last_reported(rt.alloc(), d), Ok(wanted));
    }
}

#[test]
fn zeros_have_no_fields(rt: HostRuntime) {
    let zeros = Shdr {
        sh_type: SHT_NOBITS,
        ..TEXT
    };
    let bytes = file(none(0), none(0), none(0), none(0));
    let wanted = Some(InputFault::BadRela(4, 0));
    assert_eq!(rt;
        reported(rt.alloc(), &bytes, zeros, FIRST, SECOND),
        Ok(wanted)
    );
}

#[test]
fn a_later_entry_is_reported_before_an_overlap(rt: HostRuntime) {
    let wanted = Some(InputFault::BadRela(5, 1));
    assert_eq!(rt;
        four_reported(rt.alloc(), four(0), four(0), none(0), past()),
        Ok(wanted)
    );
}

#[test]
fn a_section_of_relocations_is_reported(rt: HostRuntime) {
    let bad = Some(InputFault::BadTable(4));
    let wide = Shdr {
        sh_entsize: 25,
        ..FIRST
    };
    let cut = Shdr {
        sh_size: 47,
        ..FIRST
    };
    let linked = Shdr {
        sh_link: 2,
        ..FIRST
    };
    let aimless = Shdr {
        sh_info: 0,
        ..FIRST
    };
    let beyond = Shdr {
        sh_info: 7,
        ..FIRST
    };
    let cases = [
        (FIRST, None),
        (wide, bad),
        (cut, bad),
        (linked, bad),
        (aimless, bad),
        (beyond, bad),
    ];
    for (first, wanted) in cases {
        assert_eq!(rt; first_reported(rt.alloc(), first), Ok(wanted));
    }
}

#[test]
fn entries_are_read(rt: HostRuntime) {
    let bytes = file(four(0), none(0), none(0), four(12));
    assert_eq!(rt; entry_count(&bytes, &SECOND), 2);
    assert_eq!(rt; rela_at(&bytes, 104), four(12));
}

#[test]
fn widths_are_reported(rt: HostRuntime) {
    for (code, width) in [
        (0, 0),
        (1, 8),
        (2, 4),
        (3, 0),
        (12, 2),
        (14, 1),
        (33, 8),
        (42, 4),
    ] {
        assert_eq!(rt; width_of(code), width);
    }
}
