//! Each record read from bytes of an object and of a shared object that a C compiler made, against the
//! values that `readelf` shows, written back, and refused where a byte is missing.

use lk_elf::numbers::{
    DT_SONAME, EM_X86_64, ET_REL, PF_R, PF_W, PT_DYNAMIC, SHF_INFO_LINK, SHT_RELA,
};
use lk_elf::{Dyn, Ehdr, Phdr, Rela, Shdr, Short, Sym};

/// The header of an object with twelve sections, whose headers are at 632.
const HEADER: [u8; 64] = [
    0x7f, 0x45, 0x4c, 0x46, 0x02, 0x01, 0x01, 0x00, 0x00, 0x00, 0x00, 0x00, 0x00, 0x00, 0x00, 0x00,
    0x01, 0x00, 0x3e, 0x00, 0x01, 0x00, 0x00, 0x00, 0x00, 0x00, 0x00, 0x00, 0x00, 0x00, 0x00, 0x00,
    0x00, 0x00, 0x00, 0x00, 0x00, 0x00, 0x00, 0x00, 0x78, 0x02, 0x00, 0x00, 0x00, 0x00, 0x00, 0x00,
    0x00, 0x00, 0x00, 0x00, 0x40, 0x00, 0x00, 0x00, 0x00, 0x00, 0x40, 0x00, 0x0c, 0x00, 0x0b, 0x00,
];

/// The header of `.rela.text`: 0x60 bytes at 0x1a0, of section 1, with the symbols of section 9.
const RELA_SECTION: [u8; 64] = [
    0x1b, 0x00, 0x00, 0x00, 0x04, 0x00, 0x00, 0x00, 0x40, 0x00, 0x00, 0x00, 0x00, 0x00, 0x00, 0x00,
    0x00, 0x00, 0x00, 0x00, 0x00, 0x00, 0x00, 0x00, 0xa0, 0x01, 0x00, 0x00, 0x00, 0x00, 0x00, 0x00,
    0x60, 0x00, 0x00, 0x00, 0x00, 0x00, 0x00, 0x00, 0x09, 0x00, 0x00, 0x00, 0x01, 0x00, 0x00, 0x00,
    0x08, 0x00, 0x00, 0x00, 0x00, 0x00, 0x00, 0x00, 0x18, 0x00, 0x00, 0x00, 0x00, 0x00, 0x00, 0x00,
];

/// The program header of the dynamic section: 0x190 bytes at 0x2e30, loaded at 0x3e30.
const DYNAMIC_SEGMENT: [u8; 56] = [
    0x02, 0x00, 0x00, 0x00, 0x06, 0x00, 0x00, 0x00, 0x30, 0x2e, 0x00, 0x00, 0x00, 0x00, 0x00, 0x00,
    0x30, 0x3e, 0x00, 0x00, 0x00, 0x00, 0x00, 0x00, 0x30, 0x3e, 0x00, 0x00, 0x00, 0x00, 0x00, 0x00,
    0x90, 0x01, 0x00, 0x00, 0x00, 0x00, 0x00, 0x00, 0x90, 0x01, 0x00, 0x00, 0x00, 0x00, 0x00, 0x00,
    0x08, 0x00, 0x00, 0x00, 0x00, 0x00, 0x00, 0x00,
];

/// The symbol `main`: a global function of 38 bytes at the start of section 1.
const MAIN: [u8; 24] = [
    0x09, 0x00, 0x00, 0x00, 0x12, 0x00, 0x01, 0x00, 0x00, 0x00, 0x00, 0x00, 0x00, 0x00, 0x00, 0x00,
    0x26, 0x00, 0x00, 0x00, 0x00, 0x00, 0x00, 0x00,
];

/// A relocation of type 2 against symbol 5 at 6, with the addend -4.
const REFERENCE: [u8; 24] = [
    0x06, 0x00, 0x00, 0x00, 0x00, 0x00, 0x00, 0x00, 0x02, 0x00, 0x00, 0x00, 0x05, 0x00, 0x00, 0x00,
    0xfc, 0xff, 0xff, 0xff, 0xff, 0xff, 0xff, 0xff,
];

/// The entry that names the shared object, at 94 in its string table.
const SONAME: [u8; 16] = [
    0x0e, 0x00, 0x00, 0x00, 0x00, 0x00, 0x00, 0x00, 0x5e, 0x00, 0x00, 0x00, 0x00, 0x00, 0x00, 0x00,
];

#[test]
fn reads_and_writes_a_header(rt: HostRuntime) {
    let wanted = Ehdr {
        e_ident: [0x7f, b'E', b'L', b'F', 2, 1, 1, 0, 0, 0, 0, 0, 0, 0, 0, 0],
        e_type: ET_REL,
        e_machine: EM_X86_64,
        e_version: 1,
        e_entry: 0,
        e_phoff: 0,
        e_shoff: 632,
        e_flags: 0,
        e_ehsize: 64,
        e_phentsize: 0,
        e_phnum: 0,
        e_shentsize: 64,
        e_shnum: 12,
        e_shstrndx: 11,
    };
    assert_eq!(rt; Ehdr::read_at(&HEADER, 0), Ok(wanted));
    let mut bytes = [0xaau8; 69];
    wanted.write_at(&mut bytes, 3);
    let mut written = [0xaau8; 69];
    written[3..67].copy_from_slice(&HEADER);
    assert_eq!(rt; bytes, written);
    assert_eq!(rt; Ehdr::read_at(&bytes, 3), Ok(wanted));
    assert_eq!(rt; Ehdr::read_at(&bytes, 6), Err(Short { at: 6, need: 64 }));
}

#[test]
fn reads_and_writes_a_section_header(rt: HostRuntime) {
    let wanted = Shdr {
        sh_name: 27,
        sh_type: SHT_RELA,
        sh_flags: SHF_INFO_LINK,
        sh_addr: 0,
        sh_offset: 0x1a0,
        sh_size: 0x60,
        sh_link: 9,
        sh_info: 1,
        sh_addralign: 8,
        sh_entsize: 24,
    };
    assert_eq!(rt; Shdr::read_at(&RELA_SECTION, 0), Ok(wanted));
    let mut bytes = [0xaau8; 69];
    wanted.write_at(&mut bytes, 3);
    let mut written = [0xaau8; 69];
    written[3..67].copy_from_slice(&RELA_SECTION);
    assert_eq!(rt; bytes, written);
    assert_eq!(rt; Shdr::read_at(&bytes, 3), Ok(wanted));
    assert_eq!(rt; Shdr::read_at(&bytes, 6), Err(Short { at: 6, need: 64 }));
}

#[test]
fn reads_and_writes_a_program_header(rt: HostRuntime) {
    let wanted = Phdr {
        p_type: PT_DYNAMIC,
        p_flags: PF_R | PF_W,
        p_offset: 0x2e30,
        p_vaddr: 0x3e30,
        p_paddr: 0x3e30,
        p_filesz: 0x190,
        p_memsz: 0x190,
        p_align: 8,
    };
    assert_eq!(rt; Phdr::read_at(&DYNAMIC_SEGMENT, 0), Ok(wanted));
    let mut bytes = [0xaau8; 61];
    wanted.write_at(&mut bytes, 3);
    let mut written = [0xaau8; 61];
    written[3..59].copy_from_slice(&DYNAMIC_SEGMENT);
    assert_eq!(rt; bytes, written);
    assert_eq!(rt; Phdr::read_at(&bytes, 3), Ok(wanted));
    assert_eq!(rt; Phdr::read_at(&bytes, 6), Err(Short { at: 6, need: 56 }));
}

#[test]
fn reads_and_writes_a_symbol(rt: HostRuntime) {
    let wanted = Sym {
        st_name: 9,
        st_info: 0x12,
        st_other: 0,
        st_shndx: 1,
        st_value: 0,
        st_size: 38,
    };
    assert_eq!(rt; Sym::read_at(&MAIN, 0), Ok(wanted));
    let mut bytes = [0xaau8; 29];
    wanted.write_at(&mut bytes, 3);
    let mut written = [0xaau8; 29];
    written[3..27].copy_from_slice(&MAIN);
    assert_eq!(rt; bytes, written);
    assert_eq!(rt; Sym::read_at(&bytes, 3), Ok(wanted));
    assert_eq!(rt; Sym::read_at(&bytes, 6), Err(Short { at: 6, need: 24 }));
}

#[test]
fn reads_and_writes_a_relocation(rt: HostRuntime) {
    let wanted = Rela {
        r_offset: 6,
        r_info: 0x5_0000_0002,
        r_addend: -4,
    };
    assert_eq!(rt; Rela::read_at(&REFERENCE, 0), Ok(wanted));
    let mut bytes = [0xaau8; 29];
    wanted.write_at(&mut bytes, 3);
    let mut written = [0xaau8; 29];
    written[3..27].copy_from_slice(&REFERENCE);
    assert_eq!(rt; bytes, written);
    assert_eq!(rt; Rela::read_at(&bytes, 3), Ok(wanted));
    assert_eq!(rt; Rela::read_at(&bytes, 6), Err(Short { at: 6, need: 24 }));
}

#[test]
fn reads_and_writes_a_dynamic_entry(rt: HostRuntime) {
    let wanted = Dyn {
        d_tag: DT_SONAME,
        d_un: 94,
    };
    assert_eq!(rt; Dyn::read_at(&SONAME, 0), Ok(wanted));
    let mut bytes = [0xaau8; 21];
    wanted.write_at(&mut bytes, 3);
    let mut written = [0xaau8; 21];
    written[3..19].copy_from_slice(&SONAME);
    assert_eq!(rt; bytes, written);
    assert_eq!(rt; Dyn::read_at(&bytes, 3), Ok(wanted));
    assert_eq!(rt; Dyn::read_at(&bytes, 6), Err(Short { at: 6, need: 16 }));
}

#[test]
fn reports_missing_bytes_at_the_end_of_memory(rt: HostRuntime) {
    let last = usize::MAX;
    assert_eq!(rt;
        Ehdr::read_at(&HEADER, last),
        Err(Short { at: last, need: 64 })
    );
    assert_eq!(rt;
        Shdr::read_at(&HEADER, last - 63),
        Err(Short {
            at: last - 63,
            need: 64
        })
    );
    assert_eq!(rt;
        Phdr::read_at(&HEADER, last - 55),
        Err(Short {
            at: last - 55,
            need: 56
        })
    );
    assert_eq!(rt;
        Sym::read_at(&HEADER, last - 23),
        Err(Short {
            at: last - 23,
            need: 24
        })
    );
    assert_eq!(rt;
        Rela::read_at(&HEADER, last),
        Err(Short { at: last, need: 24 })
    );
    assert_eq!(rt; Dyn::read_at(&[], 0), Err(Short { at: 0, need: 16 }));
}
