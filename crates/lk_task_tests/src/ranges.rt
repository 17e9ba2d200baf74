//! Ranges of a file of ten bytes, which are written, split and handed back in another order than that of their
//! places.

ghost use Rattle.std.specs.Prelude.{◌≤◌, IfOk};
ghost use Rattle.lk_ranges.specs.Stretches.{IsParted, end_of};

use lk_ranges::{Range, Ranges};
use lk_report::NoMemory;
use std::alloc::Global;

/// The parts of a range before an offset and from it on, where memory serves.
fn parts(alloc: Global, range: Range, at: u64) -> Result<(Range, Range), NoMemory>
    requires from { range.start ≤ at }
    requires to { at ≤ end_of range }
    ensures { IfOk result (λ parts. IsParted range at parts.0 parts.1) }
{
    match range.split(alloc, at) {
        Ok(parts) => Ok(parts),
        Err(_) => Err(NoMemory),
    }
}

#[test]
fn a_range_keeps_its_start_and_its_bytes(rt: HostRuntime) -> Result<(), NoMemory> {
    let mut range = Range::from_slice(rt.alloc(), 4096, &[1, 2, 3, 4])?;
    range.write(4097, &[7, 8]);
    assert_eq!(rt; range.start(), 4096);
    assert_eq!(rt; range.bytes(), [1, 7, 8, 4].as_slice());
    Ok(())
}

#[test]
fn a_split_range_has_each_byte_at_its_offset(rt: HostRuntime) -> Result<(), NoMemory> {
    let range = Range::from_slice(rt.alloc(), 2, &[1, 2, 3, 4])?;
    let (front, back) = parts(rt.alloc(), range, 5)?;
    assert_eq!(rt; front.start(), 2);
    assert_eq!(rt; front.bytes(), [1, 2, 3].as_slice());
    assert_eq!(rt; back.start(), 5);
    assert_eq!(rt; back.bytes(), [4].as_slice());
    Ok(())
}

#[test]
fn gathered_bytes_are_in_the_order_of_the_file(rt: HostRuntime) -> Result<(), NoMemory> {
    let mut ranges = Ranges::reserve(rt.alloc(), 2)?;
    let late = Range::from_slice(rt.alloc(), 7, &[5, 6])?;
    let early = Range::from_slice(rt.alloc(), 1, &[9])?;
    ranges.hand_back(late);
    ranges.hand_back(early);
    assert_eq!(rt; ranges.list().len(), 2);
    let bytes = ranges.as_bytes(rt.alloc(), 10)?;
    assert_eq!(rt; bytes.as_slice(), [0, 9, 0, 0, 0, 0, 0, 5, 6, 0].as_slice());
    Ok(())
}
