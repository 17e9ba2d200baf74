//! Links that are refused: what is reported of them, and that the output stays as it was.

use crate::making::{
    ABSOLUTE, Part, Relocation, Symbol, caller, changed, code, cut, function, leaf, object,
    undefined, zeros,
};
use crate::running::{Ended, alone, link, one_file, two_files};
use lk_report::Bytes;
use std::alloc::Global;
use std::test::Fail;

/// Sixteen bytes of code.
const CODE: &[u8] = b"0123456789abcdef";

/// The place of the low byte of a file's type (gABI "ELF Header"), and the type of a shared object.
const TYPE: usize = 16;

const SHARED: u8 = 3;

/// The type R_X86_64_GOTPCREL (psABI "Relocation Types").
const GOTPCREL: u64 = 9;

/// What a link of two files did.
fn together(alloc: Global, a: Bytes, b: Bytes) -> Result<Ended, Fail> {
    let mut files = two_files(alloc, a, b)?;
    link(alloc, "a.o b.o", &mut files)
}

#[test]
fn two_strong_definitions_are_reported(rt: HostRuntime) -> Result<(), Fail> {
    let both = [function(b"_start"), function(b"f")];
    let a = object(rt.alloc(), &[code(CODE)], &both, &[])?;
    let b = leaf(rt.alloc(), CODE, b"f")?;
    let ended = together(rt.alloc(), a, b)?;
    assert!(rt; ended.refused(1, b"error: multiple definition of f: a.o, b.o\n"));
    Ok(())
}

#[test]
fn an_undefined_name_is_reported_with_its_place(rt: HostRuntime) -> Result<(), Fail> {
    let file = caller(rt.alloc(), CODE, b"_start", undefined(b"g"))?;
    let ended = alone(rt.alloc(), file)?;
    assert!(rt; ended.refused(1, b"error: undefined g at a.o:1+0x5\n"));
    Ok(())
}

#[test]
fn an_entry_that_is_not_defined_is_reported(rt: HostRuntime) -> Result<(), Fail> {
    let file = leaf(rt.alloc(), CODE, b"f")?;
    let ended = alone(rt.alloc(), file)?;
    assert!(rt; ended.refused(1, b"error: no entry _start\n"));
    Ok(())
}

#[test]
fn a_value_that_does_not_fit_is_reported(rt: HostRuntime) -> Result<(), Fail> {
    let far = Symbol {
        section: ABSOLUTE,
        value: 0x1_0000_0000,
        ..function(b"far")
    };
    let ended = alone(rt.alloc(), caller(rt.alloc(), CODE, b"_start", far)?)?;
    assert!(rt; ended.refused(1, b"error: overflow at a.o:1+0x5: 0xffbfeff7\n"));
    Ok(())
}

#[test]
fn zeros_that_no_memory_holds_are_reported_with_their_number(rt: HostRuntime) -> Result<(), Fail> {
    let parts = [code(b""), zeros(0x8000_0000_0000_0000)];
    let file = object(rt.alloc(), &parts, &[function(b"_start")], &[])?;
    let ended = alone(rt.alloc(), file)?;
    assert!(rt; ended.refused(6, b"error: limit Memory: 10145709240540261760\n"));
    Ok(())
}

/// An object that wants a slot of the global offset table.
fn wants_a_slot(alloc: Global) -> Result<Bytes, Fail> {
    let slot = Relocation {
        offset: 5,
        code: GOTPCREL,
        symbol: 1,
        addend: -4,
    };
    object(alloc, &[code(CODE)], &[function(b"f")], &[slot])
}

#[test]
fn a_slot_waits_with_the_path_of_the_first_input(rt: HostRuntime) -> Result<(), Fail> {
    let a = leaf(rt.alloc(), CODE, b"_start")?;
    let ended = together(rt.alloc(), a, wants_a_slot(rt.alloc())?)?;
    assert!(rt; ended.refused(8, b"not built yet: a.o\n"));
    Ok(())
}

#[test]
fn a_shared_object_waits(rt: HostRuntime) -> Result<(), Fail> {
    let a = leaf(rt.alloc(), CODE, b"_start")?;
    let shared = changed(rt.alloc(), &a, TYPE, SHARED)?;
    let ended = together(rt.alloc(), a, shared)?;
    assert!(rt; ended.refused(8, b"not built yet: b.o\n"));
    Ok(())
}

#[test]
fn a_missing_input_is_reported_and_none_is_read(rt: HostRuntime) -> Result<(), Fail> {
    let a = leaf(rt.alloc(), CODE, b"_start")?;
    let mut files = one_file(rt.alloc(), a)?;
    let ended = link(rt.alloc(), "a.o b.o c.o", &mut files)?;
    assert!(rt; ended.refused(1, b"error: missing b.o\nerror: missing c.o\n"));
    assert_eq!(rt; files.reads(), 0);
    Ok(())
}

#[test]
fn files_of_another_kind_are_reported(rt: HostRuntime) -> Result<(), Fail> {
    let kinds: [(&[u8], &[u8]); 3] = [
        (b"", b"error: a.o: NotElf\n"),
        (b"!<arch>\n", b"error: a.o: Archive\n"),
        (b"INPUT(b.o)\n", b"error: a.o: Script\n"),
    ];
    for (bytes, text) in kinds {
        let ended = alone(rt.alloc(), Bytes::from_slice(rt.alloc(), bytes)?)?;
        assert!(rt; ended.refused(1, text));
    }
    Ok(())
}

#[test]
fn a_section_table_that_ends_behind_the_file_is_reported(rt: HostRuntime) -> Result<(), Fail> {
    let whole = leaf(rt.alloc(), CODE, b"_start")?;
    let ended = alone(rt.alloc(), cut(rt.alloc(), &whole)?)?;
    assert!(rt; ended.refused(1, b"error: a.o: BadTable 0\n"));
    Ok(())
}

#[test]
fn all_faulty_inputs_are_reported(rt: HostRuntime) -> Result<(), Fail> {
    let empty = Bytes::from_slice(rt.alloc(), b"")?;
    let whole = leaf(rt.alloc(), CODE, b"_start")?;
    let ended = together(rt.alloc(), empty, cut(rt.alloc(), &whole)?)?;
    assert!(rt; ended.refused(1, b"error: a.o: NotElf\nerror: b.o: BadTable 0\n"));
    Ok(())
}

/// A section of this name and type that is loaded.
fn loaded(name: &'static [u8], kind: u64) -> Part {
    Part {
        name,
        kind,
        flags: 2,
        ..code(CODE)
    }
}

#[test]
fn sections_that_the_linker_makes_are_refused(rt: HostRuntime) -> Result<(), Fail> {
    let parts = [code(CODE), loaded(b".got", 1)];
    let file = object(rt.alloc(), &parts, &[function(b"_start")], &[])?;
    let ended = alone(rt.alloc(), file)?;
    assert!(rt; ended.refused(1, b"error: a.o: UnsupportedSection 2\n"));
    Ok(())
}
