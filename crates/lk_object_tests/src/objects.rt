//! Whole files and their answers by the rules: an object that passes, files that differ from it in one place or
//! in two, and what an object that is read gives.

ghost use Rattle.std.specs.Prelude.{◌≤◌, ◌*◌, ◌^◌, length};

use crate::headers::Answer;
use lk_elf::Rela;
use lk_model::layouts::Class;
use lk_model::summaries::{Home, Kind, Local};
use lk_obj_read::{Object, ReadFailure, object_fault, read_object};
use lk_report::{Bytes, InputFault};
use std::alloc::Global;

/// An object with 16 bytes of code, a symbol in it and an undefined one, and two relocations.
pub const OBJECT: [u8; 640] = [
    0x7f, 0x45, 0x4c, 0x46, 2, 1, 1, 0, 0, 0, 0, 0, 0, 0, 0, 0, 1, 0, 0x3e, 0, 1, 0, 0, 0, 0, 0, 0,
    0, 0, 0, 0, 0, 0, 0, 0, 0, 0, 0, 0, 0, 0, 1, 0, 0, 0, 0, 0, 0, 0, 0, 0, 0, 0x40, 0, 0, 0, 0, 0,
    0x40, 0, 6, 0, 5, 0, 0x90, 0x90, 0x90, 0x90, 0x90, 0x90, 0x90, 0x90, 0x90, 0x90, 0x90, 0x90,
    0x90, 0x90, 0x90, 0x90, 1, 0, 0, 0, 0, 0, 0, 0, 4, 0, 0, 0, 2, 0, 0, 0, 0xfc, 0xff, 0xff, 0xff,
    0xff, 0xff, 0xff, 0xff, 8, 0, 0, 0, 0, 0, 0, 0, 2, 0, 0, 0, 2, 0, 0, 0, 0xfc, 0xff, 0xff, 0xff,
    0xff, 0xff, 0xff, 0xff, 0, 0, 0, 0, 0, 0, 0, 0, 0, 0, 0, 0, 0, 0, 0, 0, 0, 0, 0, 0, 0, 0, 0, 0,
    1, 0, 0, 0, 0x12, 0, 1, 0, 0, 0, 0, 0, 0, 0, 0, 0, 0x10, 0, 0, 0, 0, 0, 0, 0, 8, 0, 0, 0, 0x10,
    0, 0, 0, 0, 0, 0, 0, 0, 0, 0, 0, 0, 0, 0, 0, 0, 0, 0, 0, 0, 0x5f, 0x73, 0x74, 0x61, 0x72, 0x74,
    0, 0x66, 0, 0, 0x2e, 0x74, 0x65, 0x78, 0x74, 0, 0x2e, 0x72, 0x65, 0x6c, 0x61, 0x2e, 0x74, 0x65,
    0x78, 0x74, 0, 0x2e, 0x73, 0x79, 0x6d, 0x74, 0x61, 0x62, 0, 0x2e, 0x73, 0x74, 0x72, 0x74, 0x61,
    0x62, 0, 0x2e, 0x73, 0x68, 0x73, 0x74, 0x72, 0x74, 0x61, 0x62, 0, 0, 0, 0, 0, 0, 0, 0, 0, 0, 0,
    0, 0, 0, 0, 0, 0, 0, 0, 0, 0, 0, 0, 0, 0, 0, 0, 0, 0, 0, 0, 0, 0, 0, 0, 0, 0, 0, 0, 0, 0, 0, 0,
    0, 0, 0, 0, 0, 0, 0, 0, 0, 0, 0, 0, 0, 0, 0, 0, 0, 0, 0, 0, 0, 0, 0, 0, 1, 0, 0, 0, 1, 0, 0, 0,
    6, 0, 0, 0, 0, 0, 0, 0, 0, 0, 0, 0, 0, 0, 0, 0, 0x40, 0, 0, 0, 0, 0, 0, 0, 0x10, 0, 0, 0, 0, 0,
    0, 0, 0, 0, 0, 0, 0, 0, 0, 0, 0x10, 0, 0, 0, 0, 0, 0, 0, 0, 0, 0, 0, 0, 0, 0, 0, 7, 0, 0, 0, 4,
    0, 0, 0, 0x40, 0, 0, 0, 0, 0, 0, 0, 0, 0, 0, 0, 0, 0, 0, 0, 0x50, 0, 0, 0, 0, 0, 0, 0, 0x30, 0,
    0, 0, 0, 0, 0, 0, 3, 0, 0, 0, 1, 0, 0, 0, 8, 0, 0, 0, 0, 0, 0, 0, 0x18, 0, 0, 0, 0, 0, 0, 0,
    0x12, 0, 0, 0, 2, 0, 0, 0, 0, 0, 0, 0, 0, 0, 0, 0, 0, 0, 0, 0, 0, 0, 0, 0, 0x80, 0, 0, 0, 0, 0,
    0, 0, 0x48, 0, 0, 0, 0, 0, 0, 0, 4, 0, 0, 0, 1, 0, 0, 0, 8, 0, 0, 0, 0, 0, 0, 0, 0x18, 0, 0, 0,
    0, 0, 0, 0, 0x1a, 0, 0, 0, 3, 0, 0, 0, 0, 0, 0, 0, 0, 0, 0, 0, 0, 0, 0, 0, 0, 0, 0, 0, 0xc8, 0,
    0, 0, 0, 0, 0, 0, 0x0a, 0, 0, 0, 0, 0, 0, 0, 0, 0, 0, 0, 0, 0, 0, 0, 1, 0, 0, 0, 0, 0, 0, 0, 0,
    0, 0, 0, 0, 0, 0, 0, 0x22, 0, 0, 0, 3, 0, 0, 0, 0, 0, 0, 0, 0, 0, 0, 0, 0, 0, 0, 0, 0, 0, 0, 0,
    0xd2, 0, 0, 0, 0, 0, 0, 0, 0x2c, 0, 0, 0, 0, 0, 0, 0, 0, 0, 0, 0, 0, 0, 0, 0, 1, 0, 0, 0, 0, 0,
    0, 0, 0, 0, 0, 0, 0, 0, 0, 0,
];

/// Places in it: a header field of the file, of section 1, of symbol 1, of both relocations.
const CLASS: usize = 4;

const TYPE: usize = 16;

const MACHINE: usize = 18;

const ENTRY_SIZE: usize = 58;

const TEXT_ALIGNMENT: usize = 368;

const SYMBOL_INFO: usize = 156;

const SYMBOL_SECTION: usize = 158;

const FIRST_OFFSET: usize = 80;

const FIRST_SYMBOL: usize = 92;

const SECOND_OFFSET: usize = 104;

/// The first number of a symbol table that is not LOCAL, in the header of section 3.
const FIRST_GLOBAL: usize = 492;

/// The object with another byte at a place.
fn changed(at: usize, byte: u8) -> [u8; 640] {
    let mut bytes = OBJECT;
    if at < bytes.len() {
        bytes[at] = byte;
    }
    bytes
}

fn reported(alloc: Global, bytes: &[u8]) -> Answer
    requires { length bytes.now ≤ 24 * 2 ^ 32 }
{
    object_fault(alloc, bytes)
}

#[test]
fn whole_files_are_reported(rt: HostRuntime) {
    let cases: [(&[u8], Option<InputFault>); 4] = [
        (&OBJECT, None),
        (&[], Some(InputFault::NotElf)),
        (&OBJECT[..63], Some(InputFault::NotElf)),
        (&OBJECT[..639], Some(InputFault::BadTable(0))),
    ];
    for (bytes, wanted) in cases {
        assert_eq!(rt; reported(rt.alloc(), bytes), Ok(wanted));
    }
}

#[test]
fn each_part_is_looked_at(rt: HostRuntime) {
    let cases = [
        (CLASS, 1, Some(InputFault::WrongClass)),
        (MACHINE, 3, Some(InputFault::WrongMachine)),
        (TYPE, 2, Some(InputFault::WrongType)),
        (TYPE, 3, Some(InputFault::WrongType)),
        (ENTRY_SIZE, 63, Some(InputFault::BadTable(0))),
        (TEXT_ALIGNMENT, 24, Some(InputFault::BadTable(1))),
        (SYMBOL_INFO, 0x32, Some(InputFault::UnsupportedSymbol(1))),
        (SYMBOL_SECTION, 6, Some(InputFault::BadSymbol(1))),
        (FIRST_OFFSET, 12, None),
        (FIRST_OFFSET, 13, Some(InputFault::BadRela(2, 0))),
        (FIRST_SYMBOL, 3, Some(InputFault::BadRela(2, 0))),
        (SECOND_OFFSET, 5, None),
        (SECOND_OFFSET, 4, Some(InputFault::BadRela(2, 1))),
    ];
    for (at, byte, wanted) in cases {
        assert_eq!(rt; reported(rt.alloc(), &changed(at, byte)), Ok(wanted));
    }
}

#[test]
fn the_first_of_two_faults_is_reported(rt: HostRuntime) {
    let mut bytes = changed(SECOND_OFFSET, 4);
    bytes[SYMBOL_INFO] = 0x32;
    let wanted = Some(InputFault::UnsupportedSymbol(1));
    assert_eq!(rt; reported(rt.alloc(), &bytes), Ok(wanted));
}

/// The object that these bytes are.
pub fn read(alloc: Global, bytes: &[u8]) -> Result<Object, ReadFailure>
    requires { length bytes.now ≤ 24 * 2 ^ 32 }
{
    read_object(alloc, Bytes::from_slice(alloc, bytes)?)
}

#[test]
fn an_object_is_read(rt: HostRuntime) -> Result<(), ReadFailure> {
    let object = read(rt.alloc(), &OBJECT)?;
    let summary = object.summary();
    assert_eq!(rt; summary.kind, Kind::Object);
    assert_eq!(rt; summary.exec_stack, false);
    assert_eq!(rt; summary.globals.as_slice().len(), 2);
    assert_eq!(rt; summary.groups.as_slice().len(), 0);
    Ok(())
}

#[test]
fn an_object_has_its_piece(rt: HostRuntime) -> Result<(), ReadFailure> {
    let object = read(rt.alloc(), &OBJECT)?;
    let pieces = object.summary().pieces.as_slice();
    assert_eq!(rt; pieces.len(), 1);
    assert_eq!(rt; pieces[0].section, 1);
    assert_eq!(rt; pieces[0].key.class, Class::X);
    assert_eq!(rt; pieces[0].size, 16);
    assert_eq!(rt; pieces[0].align, 16);
    Ok(())
}

/// The relocations of the code.
pub const RELOCATIONS: [Rela; 2] = [
    Rela {
        r_offset: 1,
        r_info: 0x2_0000_0004,
        r_addend: -4,
    },
    Rela {
        r_offset: 8,
        r_info: 0x2_0000_0002,
        r_addend: -4,
    },
];

#[test]
fn a_piece_has_its_bytes_and_relocations(rt: HostRuntime) -> Result<(), ReadFailure> {
    let object = read(rt.alloc(), &OBJECT)?;
    for piece in object.summary().pieces.as_slice() {
        let relocations = object.relocations(piece.section);
        assert_eq!(rt; object.piece_bytes(piece.section), [0x90; 16].as_slice());
        assert_eq!(rt; relocations.len(), RELOCATIONS.len());
        for k in 0..relocations.len() {
            assert_eq!(rt; Some(relocations.at(k)), RELOCATIONS.get(k).copied());
        }
    }
    Ok(())
}

#[test]
fn local_symbols_are_reported_by_number(rt: HostRuntime) -> Result<(), ReadFailure> {
    let mut bytes = changed(SYMBOL_INFO, 0x02);
    bytes[FIRST_GLOBAL] = 2;
    let object = read(rt.alloc(), &bytes)?;
    let null = Local {
        home: Home::Undefined,
        value: 0,
        size: 0,
        code: 0,
    };
    let start = Local {
        home: Home::Section(1),
        value: 0,
        size: 16,
        code: 2,
    };
    assert_eq!(rt; object.local(0), null);
    assert_eq!(rt; object.local(1), start);
    assert_eq!(rt; object.local(3), null);
    Ok(())
}

/// Why these bytes give no object, where they give none.
pub fn failure(alloc: Global, bytes: &[u8]) -> Option<ReadFailure>
    requires { length bytes.now ≤ 24 * 2 ^ 32 }
{
    match read(alloc, bytes) {
        Ok(_) => None,
        Err(failure) => Some(failure),
    }
}

#[test]
fn a_file_with_a_fault_gives_no_object(rt: HostRuntime) {
    let cases: [(&[u8], InputFault); 4] = [
        (&[], InputFault::NotElf),
        (&OBJECT[..639], InputFault::BadTable(0)),
        (&changed(TEXT_ALIGNMENT, 24), InputFault::BadTable(1)),
        (&changed(FIRST_OFFSET, 13), InputFault::BadRela(2, 0)),
    ];
    for (bytes, fault) in cases {
        assert_eq!(rt; failure(rt.alloc(), bytes), Some(ReadFailure::Input(fault)));
    }
}
