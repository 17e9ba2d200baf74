//! Fields of four bytes at the limits of what they hold: offsets in the thread-local block, and signed values.

use crate::making::{ABSOLUTE, Part, Relocation, Symbol, code, function, object, undefined};
use crate::running::{Ended, alone};
use lk_report::Bytes;
use std::alloc::Global;
use std::test::Fail;

/// Sixteen bytes of code, or of data; the field is its bytes 5 to 8.
const CODE: &[u8] = b"0123456789abcdef";

/// Where the first section is in the file.
const FIRST: usize = 0x1000;

/// The types R_X86_64_32S and R_X86_64_TPOFF32 (psABI "Relocation Types").
const ABS32S: u64 = 11;

const TPOFF32: u64 = 23;

/// An object whose field is of this type and refers to this symbol.
fn with_field(alloc: Global, parts: &[Part], code: u64, wanted: Symbol) -> Result<Bytes, Fail> {
    let field = Relocation {
        offset: 5,
        code,
        symbol: 2,
        addend: 0,
    };
    object(alloc, parts, &[function(b"_start"), wanted], &[field])
}

/// Thread-local data of 16 bytes, aligned to 128 (gABI "Special Sections").
fn thread_data() -> Part {
    Part {
        name: b".tdata",
        flags: 0x403,
        align: 128,
        ..code(CODE)
    }
}

/// A thread-local variable in the second half of part 2.
fn thread_variable() -> Symbol {
    Symbol {
        info: 0x16,
        section: 2,
        value: 8,
        size: 8,
        ..undefined(b"v")
    }
}

#[test]
fn a_thread_local_variable_is_counted_from_the_end_of_the_block(
    rt: HostRuntime,
) -> Result<(), Fail> {
    let parts = [code(CODE), thread_data()];
    let a = with_field(rt.alloc(), &parts, TPOFF32, thread_variable())?;
    let ended = alone(rt.alloc(), a)?;
    assert!(rt; ended.is_done());
    assert!(rt; ended.holds(FIRST, b"01234\x88\xff\xff\xff9"));
    Ok(())
}

/// What the link does where a signed field is to hold an absolute value.
fn with_signed(alloc: Global, value: u64) -> Result<Ended, Fail> {
    let number = Symbol {
        section: ABSOLUTE,
        value,
        ..function(b"n")
    };
    alone(alloc, with_field(alloc, &[code(CODE)], ABS32S, number)?)
}

#[test]
fn a_signed_field_takes_its_least_value_and_none_past_its_greatest(
    rt: HostRuntime,
) -> Result<(), Fail> {
    let least = with_signed(rt.alloc(), 0xffff_ffff_8000_0000)?;
    assert!(rt; least.is_done());
    assert!(rt; least.holds(FIRST, b"01234\0\0\0\x809"));
    let past = with_signed(rt.alloc(), 0x8000_0000)?;
    assert!(rt; past.refused(1, b"error: overflow at a.o:1+0x5: 0x80000000\n"));
    Ok(())
}
