//! What is in an image where no piece does.

use crate::making::{Part, code, function, leaf, object};
use crate::running::alone;
use lk_report::Bytes;
use std::alloc::Global;
use std::test::Fail;

/// Sixteen bytes of code.
const CODE: &[u8] = b"0123456789abcdef";

/// Frames of 36 bytes, and what follows them: an entry of 24 bytes that describes nothing (DWARF "Call Frame
/// Information"), and the zeros that end the section.
const FRAMES: &[u8] = b"ffffffffffffffffffffffffffffffffffff";

const BEHIND_FRAMES: &[u8] = b"\x14\0\0\0\0\0\0\0\x01\0\x01\x78\x10\0\0\0\0\0\0\0\0\0\0\0\0\0\0\0";

/// A debug unit of 48 bytes, and what follows it: a unit of 16 bytes without an entry (DWARF "Compilation Unit
/// Headers").
const UNIT: &[u8] = b"uuuuuuuuuuuuuuuuuuuuuuuuuuuuuuuuuuuuuuuuuuuuuuuu";

const BEHIND_UNIT: &[u8] = b"\x0c\0\0\0\x04\0\0\0\0\0\x08\0\0\0\0\0";

/// The place of the number of program headers in a file's header (gABI "ELF Header").
const PROGRAM_HEADERS: usize = 56;

/// Where the first section is in the file, the code on the page behind frames, and the debug unit behind the two
/// tables of addresses, which have rooms of 64 bytes on the page behind the code.
const FIRST: usize = 0x1000;

const CODE_BEHIND: usize = 0x2000;

const UNIT_BEHIND: usize = 0x3080;

#[test]
fn a_room_of_code_without_a_piece_is_all_interrupts(rt: HostRuntime) -> Result<(), Fail> {
    let ended = alone(rt.alloc(), leaf(rt.alloc(), b"", b"_start")?)?;
    assert!(rt; ended.is_done());
    assert!(rt; ended.holds(PROGRAM_HEADERS, b"\x04\0"));
    assert!(rt; ended.holds(FIRST, [0xcc; 64].as_slice()));
    Ok(())
}

/// A section of this name, these flags and bytes.
fn part(name: &'static [u8], flags: u64, bytes: &'static [u8]) -> Part {
    Part {
        name,
        flags,
        align: 8,
        ..code(bytes)
    }
}

/// An object with code, frames and a debug unit.
fn with_frames(alloc: Global) -> Result<Bytes, Fail> {
    let frames = part(b".eh_frame", 2, FRAMES);
    let unit = part(b".debug_info", 0, UNIT);
    object(
        alloc,
        &[code(CODE), frames, unit],
        &[function(b"_start")],
        &[],
    )
}

#[test]
fn holes_behind_frames_and_debug_units_describe_nothing(rt: HostRuntime) -> Result<(), Fail> {
    let ended = alone(rt.alloc(), with_frames(rt.alloc())?)?;
    assert!(rt; ended.is_done());
    assert!(rt; ended.holds(FIRST + FRAMES.len(), BEHIND_FRAMES));
    assert!(rt; ended.holds(CODE_BEHIND, CODE));
    assert!(rt; ended.holds(UNIT_BEHIND, UNIT));
    assert!(rt; ended.holds(UNIT_BEHIND + UNIT.len(), BEHIND_UNIT));
    Ok(())
}
