//! Links that are done, and their images.

use crate::making::{
    ABS64, Relocation, Symbol, WEAK, caller, code, common, function, leaf, object, undefined,
};
use crate::running::{Ended, link, one_file, two_files, with};
use lk_driver::run_alone;
use lk_outside::{FreeTurnstile, MemoryFiles, SureDevice, SureFiles, SureSink};
use lk_report::{Bytes, Name, NameList};
use std::alloc::Global;
use std::test::Fail;

/// Code that calls a function at its byte 5.
const CALL: &[u8] = b"\x90\x90\x90\x90\xe8\0\0\0\0\x90\x90\x90\x90\x90\x90\xc3";

/// Code that returns.
const RETURN: &[u8] = b"\xc3\x90\x90\x90\x90\x90\x90\x90\x90\x90\x90\x90\x90\x90\x90\x90";

/// Where the entry is in the file's header, where the first section and the piece behind it are in the file.
const ENTRY: usize = 24;

const FIRST: usize = 0x1000;

const SECOND: usize = 0x1010;

const THIRD: usize = 0x1020;

/// The address of the first section.
const START: &[u8] = b"\x00\x10\x40\0\0\0\0\0";

/// `a.o` calls `f` of `b.o`.
fn two_objects(alloc: Global) -> Result<MemoryFiles, Fail> {
    let a = caller(alloc, CALL, b"_start", undefined(b"f"))?;
    let b = leaf(alloc, RETURN, b"f")?;
    two_files(alloc, a, b)
}

#[test]
fn a_function_of_another_object_is_called(rt: HostRuntime) -> Result<(), Fail> {
    let mut files = two_objects(rt.alloc())?;
    let ended = link(rt.alloc(), "--incremental-full -o out a.o b.o", &mut files)?;
    assert!(rt; ended.is_done());
    assert!(rt; ended.holds(FIRST, b"\x90\x90\x90\x90\xe8\x07\0\0\0\x90"));
    assert!(rt; ended.holds(SECOND, RETURN));
    assert!(rt; ended.holds(ENTRY, START));
    assert_eq!(rt; files.reads(), 2);
    Ok(())
}

#[test]
fn an_object_without_code_makes_the_smallest_image(rt: HostRuntime) -> Result<(), Fail> {
    let a = leaf(rt.alloc(), b"", b"_start")?;
    let mut files = one_file(rt.alloc(), a)?;
    let ended = link(rt.alloc(), "a.o", &mut files)?;
    assert!(rt; ended.is_done());
    assert_eq!(rt; ended.out.bytes().len(), 9192);
    assert!(rt; ended.holds(ENTRY, START));
    assert!(rt; ended.holds(4088, b"LKSEAL01"));
    Ok(())
}

/// `m.o` wants `gy`, which `y.o` has; that wants `gx` of `x.o`, which wants `gy` again.
fn lib_members(alloc: Global, wanted: Symbol) -> Result<MemoryFiles, Fail> {
    let m = caller(alloc, b"mmmmm0000mmmmmmm", b"_start", wanted)?;
    let x = caller(alloc, b"xxxxx0000xxxxxxx", b"gx", undefined(b"gy"))?;
    let y = caller(alloc, b"yyyyy0000yyyyyyy", b"gy", undefined(b"gx"))?;
    let files = with(MemoryFiles::new(alloc), "m.o", m)?;
    with(with(files, "x.o", x)?, "y.o", y)
}

/// What the link with the group of `x.o` and `y.o` did.
fn with_group(alloc: Global, wanted: Symbol) -> Result<Ended, Fail> {
    let mut files = lib_members(alloc, wanted)?;
    link(alloc, "m.o --start-lib x.o y.o --end-lib", &mut files)
}

#[test]
fn members_are_added_when_they_are_wanted(rt: HostRuntime) -> Result<(), Fail> {
    let ended = with_group(rt.alloc(), undefined(b"gy"))?;
    assert!(rt; ended.is_done());
    assert!(rt; ended.holds(FIRST, b"mmmmm\x07\0\0\0m"));
    assert!(rt; ended.holds(SECOND, b"yyyyy\x07\0\0\0y"));
    assert!(rt; ended.holds(THIRD, b"xxxxx\xe7\xff\xff\xffx"));
    Ok(())
}

#[test]
fn a_weak_reference_adds_no_member(rt: HostRuntime) -> Result<(), Fail> {
    let weak = Symbol {
        info: WEAK,
        ..undefined(b"gy")
    };
    let ended = with_group(rt.alloc(), weak)?;
    assert!(rt; ended.is_done());
    assert!(rt; ended.holds(FIRST, b"mmmmm\xf7\xef\xbf\xffm"));
    assert!(rt; ended.holds(SECOND, b"\xcc\xcc\xcc\xcc"));
    Ok(())
}

/// An object that holds the addresses of `f` and of `g`.
fn two_addresses(alloc: Global) -> Result<Bytes, Fail> {
    let mut relocations = [Relocation {
        offset: 0,
        code: ABS64,
        symbol: 2,
        addend: 0,
    }; 2];
    relocations[1].offset = 8;
    relocations[1].symbol = 3;
    let symbols = [function(b"_start"), undefined(b"f"), undefined(b"g")];
    object(alloc, &[code(RETURN)], &symbols, &relocations)
}

/// An object with a weak `f`.
fn weak_function(alloc: Global) -> Result<Bytes, Fail> {
    let weak = Symbol {
        info: WEAK,
        ..function(b"f")
    };
    object(alloc, &[code(RETURN)], &[weak], &[])
}

/// These files, and two in which `f` is a common block, of 4 and of 8 bytes; `g` is behind the second.
fn with_blocks(alloc: Global, files: MemoryFiles) -> Result<MemoryFiles, Fail> {
    let four = object(alloc, &[], &[common(b"f", 4, 4)], &[])?;
    let eight = object(alloc, &[], &[common(b"f", 4, 8), common(b"g", 1, 1)], &[])?;
    with(with(files, "4.o", four)?, "8.o", eight)
}

/// `f` is weak in one object, and a common block in two others.
fn blocks(alloc: Global) -> Result<MemoryFiles, Fail> {
    let a = two_addresses(alloc)?;
    let weak = weak_function(alloc)?;
    with_blocks(alloc, two_files(alloc, a, weak)?)
}

#[test]
fn the_greatest_common_block_is_at_before_a_weak_definition(rt: HostRuntime) -> Result<(), Fail> {
    let mut files = blocks(rt.alloc())?;
    let ended = link(rt.alloc(), "a.o b.o 4.o 8.o", &mut files)?;
    assert!(rt; ended.is_done());
    assert!(rt; ended.holds(FIRST, b"\x80\x20\x40\0\0\0\0\0\x88\x20\x40\0\0\0\0\0"));
    Ok(())
}

/// The same two objects, in files that do not fail.
fn sure_objects(alloc: Global) -> Result<SureFiles, Fail> {
    let mut files = SureFiles::new(alloc);
    files.put(
        "a.o",
        caller(alloc, CALL, b"_start", undefined(b"f"))?,
        None,
    )?;
    files.put("b.o", leaf(alloc, RETURN, b"f")?, None)?;
    Ok(files)
}

/// The words `a.o` and `b.o`.
fn two_words(alloc: Global) -> Result<NameList, Fail> {
    let mut words = NameList::new(alloc);
    words.push(Name::from_slice(alloc, b"a.o")?)?;
    words.push(Name::from_slice(alloc, b"b.o")?)?;
    Ok(words)
}

#[test]
fn an_outside_that_does_not_fail_serves_too(rt: HostRuntime) -> Result<(), Fail> {
    let words = two_words(rt.alloc())?;
    let mut files = sure_objects(rt.alloc())?;
    let mut out = SureDevice::of(rt.alloc(), &Bytes::from_slice(rt.alloc(), b"old")?)?;
    let mut says = SureSink::new(rt.alloc());
    let status = run_alone(
        rt.alloc(),
        &words,
        &mut files,
        &mut out,
        &mut says,
        &FreeTurnstile,
    );
    assert_eq!(rt; status.exit_code(), 0);
    assert!(rt; says.bytes() == b"full link\n".as_slice());
    assert!(rt; out.bytes().starts_with(b"\x7fELF".as_slice()));
    Ok(())
}
