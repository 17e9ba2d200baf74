//! Links onto a file that was there before: the image takes its place whole, and nothing of it stays.

use crate::making::{caller, leaf, undefined};
use crate::running::{Ended, link, link_onto, one_file, two_files};
use lk_outside::MemoryDevice;
use lk_report::Bytes;
use std::alloc::Global;
use std::test::Fail;

/// How long the image of an object without code is (docs/IMAGE.md).
const SMALLEST: usize = 9192;

/// Sixteen bytes of code.
const CODE: &[u8] = b"0123456789abcdef";

/// A file of so many bytes, which are all alike.
fn file_of(alloc: Global, length: usize, byte: u8) -> Result<MemoryDevice, Fail> {
    let mut bytes = Vec::new(alloc);
    bytes.resize(length, byte)?;
    Ok(MemoryDevice::of(alloc, &Bytes::from_vec(bytes)?)?)
}

/// What the link of an object without code does onto a file.
fn smallest_onto(alloc: Global, out: MemoryDevice) -> Result<Ended, Fail> {
    let mut files = one_file(alloc, leaf(alloc, b"", b"_start")?)?;
    link_onto(alloc, "a.o", &mut files, out)
}

/// The output of an earlier link, of two objects.
fn earlier_output(alloc: Global) -> Result<MemoryDevice, Fail> {
    let a = caller(alloc, CODE, b"_start", undefined(b"f"))?;
    let b = leaf(alloc, CODE, b"f")?;
    let mut files = two_files(alloc, a, b)?;
    let ended = link(alloc, "a.o b.o", &mut files)?;
    Ok(ended.out)
}

/// Whether the link of an object without code leaves on a file what it leaves on an empty one.
fn is_replaced(alloc: Global, out: MemoryDevice) -> Result<bool, Fail> {
    let ended = smallest_onto(alloc, out)?;
    let anew = smallest_onto(alloc, file_of(alloc, 0, 0)?)?;
    Ok(ended.is_done() && ended.out.bytes() == anew.out.bytes())
}

#[test]
fn an_earlier_and_longer_output_is_replaced(rt: HostRuntime) -> Result<(), Fail> {
    let earlier = earlier_output(rt.alloc())?;
    assert!(rt; earlier.bytes().len() > SMALLEST);
    assert!(rt; is_replaced(rt.alloc(), earlier)?);
    Ok(())
}

#[test]
fn a_foreign_file_is_replaced(rt: HostRuntime) -> Result<(), Fail> {
    let foreign = file_of(rt.alloc(), 20_000, 0x5a)?;
    let ended = smallest_onto(rt.alloc(), foreign)?;
    assert_eq!(rt; ended.out.bytes().len(), SMALLEST);
    assert!(rt; is_replaced(rt.alloc(), file_of(rt.alloc(), 20_000, 0x5a)?)?);
    Ok(())
}

/// The output of an earlier link, on a device that stops after so many calls.
fn stopping(alloc: Global, calls: u64) -> Result<MemoryDevice, Fail> {
    let earlier = earlier_output(alloc)?;
    let mut out = MemoryDevice::of(alloc, &Bytes::from_slice(alloc, earlier.bytes())?)?;
    out.stop_after(calls);
    Ok(out)
}

/// What a link over it leaves that is stopped after so many calls.
fn left_after(alloc: Global, calls: u64) -> Result<MemoryDevice, Fail> {
    let stopped = smallest_onto(alloc, stopping(alloc, calls)?)?;
    Ok(MemoryDevice::of(alloc, &Bytes::from_slice(alloc, stopped.out.bytes())?)?)
}

#[test]
fn a_link_replaces_what_a_stopped_one_left(rt: HostRuntime) -> Result<(), Fail> {
    for calls in 0..14 {
        let left = left_after(rt.alloc(), calls)?;
        assert!(rt; is_replaced(rt.alloc(), left)?, "{calls} calls");
    }
    Ok(())
}
