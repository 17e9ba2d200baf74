//! Which sections have relocations, and in which order those of several sections are.

use crate::objects::{OBJECT, RELOCATIONS, failure, read};
use lk_elf::numbers::{SHF_ALLOC, SHF_EXECINSTR, SHT_NULL, SHT_PROGBITS, SHT_RELA};
use lk_elf::{Rela, Shdr};
use lk_obj_read::{ReadFailure, relocated_sections};
use lk_report::{InputFault, NoMemory};

/// A section of this type with this target and these bytes of the file.
fn section(sh_type: u32, sh_info: u32, sh_offset: u64, sh_size: u64) -> Shdr {
    Shdr {
        sh_name: 0,
        sh_type,
        sh_flags: 0,
        sh_addr: 0,
        sh_offset,
        sh_size,
        sh_link: 0,
        sh_info,
        sh_addralign: 1,
        sh_entsize: 24,
    }
}

#[test]
fn targets_with_entries_are_marked(rt: HostRuntime) -> Result<(), NoMemory> {
    let sections = [
        section(SHT_NULL, 0, 0, 0),
        section(SHT_PROGBITS, 6, 0, 48),
        section(SHT_RELA, 1, 0, 24),
        // too short for an entry
        section(SHT_RELA, 4, 0, 23),
        // past the file
        section(SHT_RELA, 5, 25, 24),
        // no such target
        section(SHT_RELA, 7, 0, 24),
        section(SHT_RELA, 0, 24, 24),
    ];
    let marks = relocated_sections(rt.alloc(), &[0; 48], &sections)?;
    let wanted = [true, true, false, false, false, false, false];
    assert_eq!(rt; marks.as_slice(), wanted.as_slice());
    Ok(())
}

/// How many sections an object has; the place of its section 2, which has the relocations of the code.
const SECTION_COUNT: usize = 60;

const RELOCATIONS_PLACE: usize = 408;

/// A relocation without a field.
const fn none(r_offset: u64) -> Rela {
    Rela {
        r_offset,
        r_info: 0x2_0000_0000,
        r_addend: 0,
    }
}

/// The object with the entries 8 and 9 of section 2 at the file's end, those that it had in section 6, which
/// are for this target, and code without relocations in section 7.
fn two_lists(target: u32) -> [u8; 816] {
    let mut bytes = [0u8; 816];
    bytes[..640].copy_from_slice(&OBJECT);
    bytes[SECTION_COUNT] = 8;
    bytes[RELOCATIONS_PLACE..RELOCATIONS_PLACE + 8].copy_from_slice(&768u64.to_le_bytes());
    let list = Shdr {
        sh_link: 3,
        ..section(SHT_RELA, target, 80, 48)
    };
    list.write_at(&mut bytes, 640);
    let code = Shdr {
        sh_flags: SHF_ALLOC + SHF_EXECINSTR,
        ..section(SHT_PROGBITS, 0, 64, 16)
    };
    code.write_at(&mut bytes, 704);
    none(8).write_at(&mut bytes, 768);
    none(9).write_at(&mut bytes, 792);
    bytes
}

#[test]
fn entries_are_at_by_section_and_entry(rt: HostRuntime) -> Result<(), ReadFailure> {
    let object = read(rt.alloc(), &two_lists(1))?;
    let listed = [none(8), none(9), RELOCATIONS[0], RELOCATIONS[1]];
    let pieces = object.summary().pieces.as_slice();
    assert_eq!(rt; pieces.len(), 2);
    for piece in pieces {
        let wanted: &[Rela] = if piece.section == 1 { &listed } else { &[] };
        let relocations = object.relocations(piece.section);
        assert_eq!(rt; relocations.len(), wanted.len());
        for k in 0..relocations.len() {
            assert_eq!(rt; Some(relocations.at(k)), wanted.get(k).copied());
        }
    }
    Ok(())
}

#[test]
fn entries_without_a_target_are_reported(rt: HostRuntime) {
    let fault = InputFault::BadTable(6);
    assert_eq!(rt;
        failure(rt.alloc(), &two_lists(8)),
        Some(ReadFailure::Input(fault))
    );
}
