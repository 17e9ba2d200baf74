//! The holes of rooms: the gaps between what covers their bytes.

ghost use Rattle.std.specs.Prelude.{◌≡◌, ◌++◌, IfOk, OnOk, Some};
ghost use Rattle.std.specs.List.{slice_get};
ghost use Rattle.lk_model.specs.Holes.{hole_between, holes_of};
ghost use Rattle.lk_fill.specs.Covering.{gaps_from, IsCovering};
ghost use Rattle.lk_fill.specs.Filled.{all_holes};

use crate::covering::{Covered, covering, ranges_in};
use lk_model::layouts::{Hole, HoleList, Placement, SectionRow};
use lk_report::{List, NoMemory};
use std::alloc::Global;

/// Puts the hole from one place to another behind the others, where there is a byte between.
fn push_between(holes: &mut HoleList, start: u64, end: u64) -> Result<(), NoMemory>
    ensures { OnOk result (holes.new ≡ holes.old ++ hole_between start end) }
{
    if start < end {
        holes.push(Hole {
            start,
            length: end - start,
        })?;
    }
    Ok(())
}

/// The holes of a room of `room` bytes, between ranges that rise by where they start.
fn gaps(alloc: Global, ranges: &[Covered], room: u64) -> Result<HoleList, NoMemory>
    ensures { IfOk result (λ holes. holes ≡ gaps_from 0 ranges.now room) }
{
    let mut holes = List::new(alloc);
    let mut at = 0;
    for range in ranges {
        push_between(&mut holes, at, range.start.min(room))?;
        at = at.max(range.end);
    }
    push_between(&mut holes, at, room)?;
    Ok(holes)
}

/// The holes of the row with a number.
fn row_holes(
    alloc: Global,
    placement: &Placement,
    ranges: &[Covered],
    number: usize,
    row: &SectionRow,
) -> Result<HoleList, NoMemory>
    requires covering { IsCovering placement.now ranges.now }
    requires there { slice_get placement.now.sections number ≡ Some row.now }
    ensures { IfOk result (λ holes. holes ≡ holes_of placement.now number) }
{
    let room = row.room;
    gaps(alloc, ranges_in(ranges, number), room)
}

/// The holes of each section of a placement, in the order of its rows: the longest runs of bytes of its
/// room that no piece, table or reserved end covers, by rising start. The placement need not be lawful.
/// Takes n log n steps for n pieces.
///
/// # Errors
/// Out of memory.
pub fn holes(alloc: Global, placement: &Placement) -> Result<List<HoleList>, NoMemory>
    ensures { IfOk result (λ found. found ≡ all_holes placement.now) }
{
    let ranges = covering(alloc, placement)?;
    let rows = placement.sections.as_slice();
    let mut found = List::new(alloc);
    for (number, row) in rows.iter().enumerate() {
        found.push(row_holes(alloc, placement, &ranges, number, row)?)?;
    }
    Ok(found)
}
