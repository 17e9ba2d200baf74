//! Free lists of small rooms, places at the ends of holes and of the numbers, and the bytes of holes whole
//! and cut at every place.

ghost use Rattle.std.specs.Prelude.{◌≡◌, ◌+◌, ◌^◌, ◌<◌, ◌≤◌, ◌||◌, length, nat_le};
ghost use Rattle.std.specs.List.{list_all};
ghost use Rattle.lk_model.specs.declared.layouts.Hole.{Hole};
ghost use Rattle.lk_freelist.specs.Filling.{least_for};
ghost use Rattle.lk_freelist.specs.FreeBytes.{end_of};

use lk_freelist::{FreeList, fill};
use lk_model::layouts::{FillKind, Hole, HoleList};
use lk_report::NoMemory;
use std::process::Abort;

/// Each part of a hole's bytes is what is written of it alone.
fn each_part_is_written(rt: &impl Abort, kind: FillKind, hole: &[u8])
    requires enough { least_for kind ≤ length hole.now }
    requires few { length hole.now ≤ 64 }
{
    for from in 0..hole.len() {
        for end in from..=hole.len() {
            let mut room = [0xee; 64];
            fill(
                kind,
                hole.len() as u64,
                from as u64,
                &mut room[..end - from],
            );
            assert!(rt; room[..end - from] == hole[from..end]);
        }
    }
}

#[test]
fn the_bytes_of_holes(rt: HostRuntime) {
    let mut frame = [0xee; 24];
    fill(FillKind::Frame, 24, 0, &mut frame);
    assert_eq!(rt;
        frame,
        [
            0x14, 0, 0, 0, 0, 0, 0, 0, 1, 0, 1, 0x78, 0x10, 0, 0, 0, 0, 0, 0, 0, 0, 0, 0, 0
        ]
    );
    each_part_is_written(&rt, FillKind::Frame, &frame);
    let mut unit = [0xee; 16];
    fill(FillKind::Unit, 16, 0, &mut unit);
    assert_eq!(rt; unit, [0x0c, 0, 0, 0, 4, 0, 0, 0, 0, 0, 8, 0, 0, 0, 0, 0]);
    each_part_is_written(&rt, FillKind::Unit, &unit);
    let mut trap = [0xee; 3];
    fill(FillKind::Trap, 3, 0, &mut trap);
    assert_eq!(rt; trap, [0xcc, 0xcc, 0xcc]);
    each_part_is_written(&rt, FillKind::Trap, &trap);
    let mut zero = [0xee; 1];
    fill(FillKind::Zero, 1, 0, &mut zero);
    assert_eq!(rt; zero, [0]);
}

/// The hole of these numbers.
fn hole(start: u64, length: u64) -> Hole
    ensures { result ≡ record { start = start; length = length } }
{
    Hole { start, length }
}

#[test]
fn a_place_that_leaves_too_little_is_passed_over(rt: HostRuntime) -> Result<(), NoMemory> {
    let mut rows = HoleList::new(rt.alloc());
    rows.push(hole(0x100, 0x20))?;
    rows.push(hole(0x200, 0x40))?;
    let mut list = FreeList::of_holes(rt.alloc(), 16, &rows)?;
    list.reserve(2)?;
    assert_eq!(rt; list.place(0x18, 16), Some(0x200));
    let left = [hole(0x100, 0x20), hole(0x218, 0x28)];
    assert_eq!(rt; list.holes(), left.as_slice());
    assert_eq!(rt; list.place(0x60, 16), None);
    assert_eq!(rt; list.into_holes().as_slice(), left.as_slice());
    Ok(())
}

/// Whether a hole has no byte of a range.
fn is_apart(hole: Hole, start: u64, size: u64) -> bool
    requires { start + size < 2 ^ 64 }
    ensures { result ≡ (nat_le (end_of hole) start || nat_le (start + size) hole.start) }
{
    hole.start <= start && hole.length <= start - hole.start || start + size <= hole.start
}

/// Whether no hole has a byte of a range.
fn are_apart(holes: &[Hole], start: u64, size: u64) -> bool
    requires { start + size < 2 ^ 64 }
    ensures { result ≡ list_all (λ (hole : Hole). nat_le (end_of hole) start || nat_le (start + size) hole.start) holes.now }
{
    holes.iter().all(|hole| is_apart(*hole, start, size))
}

/// Takes bytes back, none of which is free.
fn give_back(rt: &impl Abort, list: &mut FreeList, start: u64, size: u64)
    requires within { start + size < 2 ^ 64 }
    requires room { 0 < list.old.spare }
    ensures { list.old.spare ≤ list.new.spare + 1 }
{
    let apart = are_apart(list.holes(), start, size);
    assert!(rt; apart);
    if apart {
        list.take_back(start, size);
    }
}

#[test]
fn pieces_fill_a_room(rt: HostRuntime) -> Result<(), NoMemory> {
    let mut list = FreeList::new(rt.alloc(), 1, 0x40)?;
    list.reserve(4)?;
    assert_eq!(rt; list.place(3, 1), Some(0));
    assert_eq!(rt; list.place(8, 8), Some(8));
    assert_eq!(rt; list.place(5, 4), Some(0x10));
    assert_eq!(rt; list.holes(), [hole(3, 5), hole(0x15, 0x2b)].as_slice());
    assert_eq!(rt; list.place(5, 1), Some(3));
    assert_eq!(rt; list.holes(), [hole(0x15, 0x2b)].as_slice());
    Ok(())
}

#[test]
fn bytes_are_given_back(rt: HostRuntime) -> Result<(), NoMemory> {
    let mut list = FreeList::new(rt.alloc(), 1, 0x40)?;
    list.reserve(8)?;
    assert_eq!(rt; list.place(0x15, 1), Some(0));
    give_back(&rt, &mut list, 8, 8);
    assert_eq!(rt; list.holes(), [hole(8, 8), hole(0x15, 0x2b)].as_slice());
    give_back(&rt, &mut list, 3, 5);
    give_back(&rt, &mut list, 0, 0);
    assert_eq!(rt; list.holes(), [hole(3, 13), hole(0x15, 0x2b)].as_slice());
    give_back(&rt, &mut list, 0x10, 2);
    give_back(&rt, &mut list, 0x12, 3);
    give_back(&rt, &mut list, 0, 1);
    assert_eq!(rt; list.holes(), [hole(0, 1), hole(3, 0x3d)].as_slice());
    give_back(&rt, &mut list, 1, 2);
    assert_eq!(rt; list.holes(), [hole(0, 0x40)].as_slice());
    Ok(())
}

#[test]
fn the_second_place_ends_with_the_hole(rt: HostRuntime) -> Result<(), NoMemory> {
    let mut rows = HoleList::new(rt.alloc());
    rows.push(hole(0x104, 0x1c))?;
    let mut list = FreeList::of_holes(rt.alloc(), 16, &rows)?;
    list.reserve(2)?;
    assert_eq!(rt; list.place(8, 8), Some(0x118));
    assert_eq!(rt; list.holes(), [hole(0x104, 0x14)].as_slice());
    assert_eq!(rt; list.place(0x14, 4), Some(0x104));
    assert!(rt; list.holes().is_empty());
    Ok(())
}

#[test]
fn the_address_is_aligned(rt: HostRuntime) -> Result<(), NoMemory> {
    let mut rows = HoleList::new(rt.alloc());
    rows.push(hole(0x108, 0x40))?;
    let mut list = FreeList::of_holes(rt.alloc(), 16, &rows)?;
    list.reserve(1)?;
    assert_eq!(rt; list.place(0x10, 16), Some(0x120));
    assert_eq!(rt;
        list.holes(),
        [hole(0x108, 0x18), hole(0x130, 0x18)].as_slice()
    );
    Ok(())
}

#[test]
fn places_near_the_last_number(rt: HostRuntime) -> Result<(), NoMemory> {
    let mut list = FreeList::new(rt.alloc(), 1, u64::MAX)?;
    list.reserve(6)?;
    assert_eq!(rt; list.place(u64::MAX, u64::MAX), Some(0));
    assert!(rt; list.holes().is_empty());
    give_back(&rt, &mut list, u64::MAX - 5, 5);
    assert_eq!(rt; list.place(1, 1 << 63), None);
    assert_eq!(rt; list.place(u64::MAX, 1), None);
    assert_eq!(rt; list.place(1, 4), Some(u64::MAX - 3));
    assert_eq!(rt;
        list.holes(),
        [hole(u64::MAX - 5, 2), hole(u64::MAX - 2, 2)].as_slice()
    );
    let none = FreeList::new(rt.alloc(), 1, 0)?;
    assert!(rt; none.holes().is_empty());
    Ok(())
}

/// Frees 8 bytes of every 16, so many times, of a room without a free byte.
fn free_many(rt: &impl Abort, list: &mut FreeList, count: u64) -> Result<(), NoMemory>
    requires { count ≤ 10000 }
{
    for i in 0..count {
        list.reserve(1)?;
        give_back(rt, list, 16 * i, 8);
    }
    Ok(())
}

/// Places so many pieces of 16 bytes, which are one behind another from a place on.
fn place_many(rt: &impl Abort, list: &mut FreeList, count: u64, from: u64) -> Result<(), NoMemory>
    requires few { count ≤ 10000 }
    requires near { from ≤ 160000 }
{
    for i in 0..count {
        list.reserve(1)?;
        assert_eq!(rt; list.place(16, 1), Some(from + 16 * i));
    }
    Ok(())
}

#[test]
fn the_last_of_ten_thousand_holes_takes_ten_thousand_pieces(
    rt: HostRuntime,
) -> Result<(), NoMemory> {
    let mut list = FreeList::new(rt.alloc(), 1, 320_000)?;
    list.reserve(1)?;
    assert_eq!(rt; list.place(320_000, 1), Some(0));
    free_many(&rt, &mut list, 9_999)?;
    list.reserve(1)?;
    give_back(&rt, &mut list, 160_000, 160_000);
    assert_eq!(rt; list.holes().len(), 10_000);
    place_many(&rt, &mut list, 10_000, 160_000)?;
    assert_eq!(rt; list.holes().len(), 9_999);
    Ok(())
}
