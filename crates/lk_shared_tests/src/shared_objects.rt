//! A small shared object with a symbol of each kind, and what is read of it: the symbols that are kept, the name, the
//! needs, and the faults of files that differ from it in one place.

use lk_model::summaries::{Home, InputSummary, Kind};
use lk_report::{Bytes, InputFault, Name, NoMemory};
use lk_so_read::{ReadFailure, needs_of, read_shared};
use std::alloc::Global;

/// A shared object whose symbols are, from number 1: a function `call`, a weak object `call`, a reference to `call`,
/// a unique object `once`, an indirect function `pick`, a hidden function `hid`, and a LOCAL function `loc`. Its
/// dynamic section is a SONAME `s.so`, a NULL, and a SONAME `call`.
pub const SHARED: [u8; 592] = [
    0x7f, 0x45, 0x4c, 0x46, 2, 1, 1, 0, 0, 0, 0, 0, 0, 0, 0, 0, 3, 0, 0x3e, 0, 1, 0, 0, 0, 0, 0, 0,
    0, 0, 0, 0, 0, 0, 0, 0, 0, 0, 0, 0, 0, 0x50, 1, 0, 0, 0, 0, 0, 0, 0, 0, 0, 0, 0x40, 0, 0, 0, 0,
    0, 0x40, 0, 4, 0, 2, 0, 0, 0, 0, 0, 0, 0, 0, 0, 0, 0, 0, 0, 0, 0, 0, 0, 0, 0, 0, 0, 0, 0, 0, 0,
    1, 0, 0, 0, 0x12, 0, 1, 0, 0x10, 0, 0, 0, 0, 0, 0, 0, 4, 0, 0, 0, 0, 0, 0, 0, 1, 0, 0, 0, 0x21,
    0, 1, 0, 0x20, 0, 0, 0, 0, 0, 0, 0, 8, 0, 0, 0, 0, 0, 0, 0, 1, 0, 0, 0, 0x10, 0, 0, 0, 0, 0, 0,
    0, 0, 0, 0, 0, 0, 0, 0, 0, 0, 0, 0, 0, 6, 0, 0, 0, 0xa1, 0, 1, 0, 0x28, 0, 0, 0, 0, 0, 0, 0, 8,
    0, 0, 0, 0, 0, 0, 0, 0xb, 0, 0, 0, 0x1a, 3, 1, 0, 0x30, 0, 0, 0, 0, 0, 0, 0, 4, 0, 0, 0, 0, 0,
    0, 0, 0x10, 0, 0, 0, 0x12, 2, 1, 0, 0x34, 0, 0, 0, 0, 0, 0, 0, 4, 0, 0, 0, 0, 0, 0, 0, 0x14, 0,
    0, 0, 2, 0, 1, 0, 0x38, 0, 0, 0, 0, 0, 0, 0, 4, 0, 0, 0, 0, 0, 0, 0, 0, 0x63, 0x61, 0x6c, 0x6c,
    0, 0x6f, 0x6e, 0x63, 0x65, 0, 0x70, 0x69, 0x63, 0x6b, 0, 0x68, 0x69, 0x64, 0, 0x6c, 0x6f, 0x63,
    0, 0x73, 0x2e, 0x73, 0x6f, 0, 0, 0, 0, 0xe, 0, 0, 0, 0, 0, 0, 0, 0x18, 0, 0, 0, 0, 0, 0, 0, 0,
    0, 0, 0, 0, 0, 0, 0, 0, 0, 0, 0, 0, 0, 0, 0, 0xe, 0, 0, 0, 0, 0, 0, 0, 1, 0, 0, 0, 0, 0, 0, 0,
    0, 0, 0, 0, 0, 0, 0, 0, 0, 0, 0, 0, 0, 0, 0, 0, 0, 0, 0, 0, 0, 0, 0, 0, 0, 0, 0, 0, 0, 0, 0, 0,
    0, 0, 0, 0, 0, 0, 0, 0, 0, 0, 0, 0, 0, 0, 0, 0, 0, 0, 0, 0, 0, 0, 0, 0, 0, 0, 0, 0, 0, 0, 0, 0,
    0, 0, 0, 0, 0xb, 0, 0, 0, 2, 0, 0, 0, 0, 0, 0, 0, 0, 0, 0, 0, 0, 0, 0, 0, 0x40, 0, 0, 0, 0, 0,
    0, 0, 0xc0, 0, 0, 0, 0, 0, 0, 0, 2, 0, 0, 0, 0, 0, 0, 0, 1, 0, 0, 0, 0, 0, 0, 0, 0, 0, 0, 0, 0,
    0, 0, 0, 0, 0, 0, 0, 3, 0, 0, 0, 2, 0, 0, 0, 0, 0, 0, 0, 0, 0, 0, 0, 0, 0, 0, 0, 0, 1, 0, 0, 0,
    0, 0, 0, 0x1d, 0, 0, 0, 0, 0, 0, 0, 0, 0, 0, 0, 0, 0, 0, 0, 1, 0, 0, 0, 0, 0, 0, 0, 0, 0, 0, 0,
    0, 0, 0, 0, 0, 0, 0, 0, 6, 0, 0, 0, 2, 0, 0, 0, 0, 0, 0, 0, 0, 0, 0, 0, 0, 0, 0, 0, 0x20, 1, 0,
    0, 0, 0, 0, 0, 0x30, 0, 0, 0, 0, 0, 0, 0, 2, 0, 0, 0, 0, 0, 0, 0, 1, 0, 0, 0, 0, 0, 0, 0, 0, 0,
    0, 0, 0, 0, 0, 0,
];

/// The place of its class.
const CLASS: usize = 4;

/// The place of the type of the file.
const FILE_TYPE: usize = 16;

/// The place of the name of its LOCAL symbol.
const LOCAL_NAME: usize = 232;

/// The places of the tags of its dynamic entries: the SONAME, the NULL, and the SONAME after it.
const FIRST_TAG: usize = 288;

const NULL_TAG: usize = 304;

const LAST_TAG: usize = 320;

/// The places of the type of its symbol table, and of the sizes of its string section and its dynamic section.
const SYMBOLS_TYPE: usize = 404;

const STRINGS_SIZE: usize = 496;

const DYNAMIC_SIZE: usize = 560;

/// The shared object with another byte at a place.
fn changed(at: usize, byte: u8) -> [u8; 592] {
    let mut bytes = SHARED;
    if at < bytes.len() {
        bytes[at] = byte;
    }
    bytes
}

/// What is kept of a file at a path.
pub fn read(alloc: Global, bytes: &[u8], path: &[u8]) -> Result<InputSummary, ReadFailure> {
    let file = Bytes::from_slice(alloc, bytes)?;
    let path = Name::from_slice(alloc, path)?;
    read_shared(alloc, &file, &path)
}

#[test]
fn the_first_definition_of_a_name_and_each_reference_are_kept(
    rt: HostRuntime,
) -> Result<(), ReadFailure> {
    let summary = read(rt.alloc(), &SHARED, b"y.so")?;
    let kept = summary.globals.as_slice();
    // the symbol, its binding, its type, its visibility and where it is defined
    let wanted = [
        (1, 1, 2, 0, Home::Shared),
        (3, 1, 0, 0, Home::Undefined),
        (4, 1, 1, 0, Home::Shared),
        (5, 1, 2, 3, Home::Shared),
    ];
    assert_eq!(rt; summary.kind, Kind::Shared);
    assert_eq!(rt; kept.len(), wanted.len());
    for (symbol, row) in kept.iter().zip(wanted) {
        let got = (
            symbol.symbol,
            symbol.binding,
            symbol.code,
            symbol.visibility,
            symbol.home,
        );
        assert_eq!(rt; got, row);
    }
    Ok(())
}

/// The name that is read of a file at a path.
pub fn soname(alloc: Global, bytes: &[u8], path: &[u8]) -> Result<Name, ReadFailure> {
    let summary = read(alloc, bytes, path)?;
    Ok(summary.soname)
}

#[test]
fn the_soname_counts_and_else_the_end_of_the_path(rt: HostRuntime) -> Result<(), ReadFailure> {
    // the tag of the first entry; an entry after the NULL does not count
    let cases: [(u8, &[u8], &[u8]); 4] = [
        (14, b"/lib/y.so", b"s.so"),
        (1, b"/lib/y.so", b"y.so"),
        (1, b"y.so", b"y.so"),
        (1, b"lib/", b""),
    ];
    for (tag, path, wanted) in cases {
        let name = soname(rt.alloc(), &changed(FIRST_TAG, tag), path)?;
        assert_eq!(rt; name.as_slice(), wanted);
    }
    Ok(())
}

#[test]
fn the_needs_are_the_entries_before_the_first_null(rt: HostRuntime) -> Result<(), NoMemory> {
    // the tag that becomes NEEDED, how many names are needed then, and the name of each
    let cases: [(usize, usize, &[u8]); 3] = [
        (FIRST_TAG, 1, b"s.so"),
        (NULL_TAG, 1, b""),
        (LAST_TAG, 0, b""),
    ];
    for (at, count, wanted) in cases {
        let needs = needs_of(rt.alloc(), &changed(at, 1))?;
        assert_eq!(rt; needs.as_slice().len(), count);
        for name in needs.as_slice() {
            assert_eq!(rt; name.as_slice(), wanted);
        }
    }
    Ok(())
}

/// Why these bytes are refused, where they are.
pub fn failure(alloc: Global, bytes: &[u8]) -> Option<ReadFailure> {
    match read(alloc, bytes, b"y.so") {
        Ok(_) => None,
        Err(failure) => Some(failure),
    }
}

#[test]
fn each_part_is_looked_at(rt: HostRuntime) {
    let cases = [
        (CLASS, 1, InputFault::WrongClass),
        (FILE_TYPE, 1, InputFault::WrongType),
        (SYMBOLS_TYPE, 1, InputFault::NoDynamic),
        (DYNAMIC_SIZE, 47, InputFault::BadTable(3)),
        (LOCAL_NAME, 31, InputFault::BadName(1)),
        (STRINGS_SIZE, 28, InputFault::BadName(3)),
    ];
    for (at, byte, fault) in cases {
        let wanted = Some(ReadFailure::Input(fault));
        assert_eq!(rt; failure(rt.alloc(), &changed(at, byte)), wanted);
    }
}
