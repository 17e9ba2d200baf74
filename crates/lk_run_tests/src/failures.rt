//! Links in which a call of the outside fails.

use crate::making::{caller, leaf, undefined};
use crate::running::{Ended, link, link_onto, link_saying, old_output, two_files, with};
use lk_outside::{MemoryFiles, MemorySink};
use std::alloc::Global;
use std::test::Fail;

/// Sixteen bytes of code.
const CODE: &[u8] = b"0123456789abcdef";

/// The words of a link of three objects.
const THREE: &str = "-o out a.o b.o c.o";

/// Three objects, of which each but the last calls the next.
fn three_objects(alloc: Global) -> Result<MemoryFiles, Fail> {
    let a = caller(alloc, CODE, b"_start", undefined(b"f"))?;
    let b = caller(alloc, CODE, b"f", undefined(b"g"))?;
    let c = leaf(alloc, CODE, b"g")?;
    with(two_files(alloc, a, b)?, "c.o", c)
}

/// What their link does where the files fail at a call.
fn with_failing_files(alloc: Global, n: u64) -> Result<Ended, Fail> {
    let mut files = three_objects(alloc)?;
    files.fail_call(n);
    link(alloc, THREE, &mut files)
}

#[test]
fn a_file_that_cannot_be_read_is_reported(rt: HostRuntime) -> Result<(), Fail> {
    let a = b"error: cannot read a.o\n".as_slice();
    let b = b"error: cannot read b.o\n".as_slice();
    let c = b"error: cannot read c.o\n".as_slice();
    for (n, text) in [(1, a), (2, b), (3, c), (4, a), (5, b), (6, c)] {
        let ended = with_failing_files(rt.alloc(), n)?;
        assert!(rt; ended.refused(3, text));
    }
    let ended = with_failing_files(rt.alloc(), 7)?;
    assert!(rt; ended.is_done());
    Ok(())
}

/// What their link does where the device fails at a call.
fn with_failing_device(alloc: Global, n: u64) -> Result<Ended, Fail> {
    let mut files = three_objects(alloc)?;
    let out = old_output(alloc, Some(n))?;
    link_onto(alloc, THREE, &mut files, out)
}

#[test]
fn a_device_that_fails_is_reported(rt: HostRuntime) -> Result<(), Fail> {
    for n in 1..12 {
        let ended = with_failing_device(rt.alloc(), n)?;
        assert!(rt; ended.says(4, b"error: output device failed\n"), "call {n}");
    }
    let ended = with_failing_device(rt.alloc(), 12)?;
    assert!(rt; ended.is_done());
    Ok(())
}

/// What their link does where the sink fails at a call.
fn with_failing_sink(alloc: Global, n: u64) -> Result<Ended, Fail> {
    let mut files = three_objects(alloc)?;
    let out = old_output(alloc, None)?;
    let mut says = MemorySink::new(alloc);
    says.fail_call(n);
    link_saying(alloc, THREE, &mut files, out, says)
}

#[test]
fn a_text_that_cannot_be_said_changes_no_answer(rt: HostRuntime) -> Result<(), Fail> {
    let ended = with_failing_sink(rt.alloc(), 1)?;
    assert_eq!(rt; ended.status, 0);
    assert!(rt; ended.says.bytes().is_empty());
    assert!(rt; ended.out.bytes().starts_with(b"\x7fELF".as_slice()));
    Ok(())
}
