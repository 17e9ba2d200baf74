//! The holes of a placement, filled in an image.

ghost use Rattle.std.specs.Prelude.{◌≡◌, ◌+◌, ◌<◌, IsTrue, OnErr, OnOk, length, map, Some};
ghost use Rattle.std.specs.List.{AllByRecursion, slice_get};
ghost use Rattle.lk_model.specs.Holes.{hole_bytes};
ghost use Rattle.lk_model.specs.Images.{hole_stretch};
ghost use Rattle.lk_model.specs.LinkedBytes.{patch};
ghost use Rattle.lk_model.specs.SectionKeys.{in_file};
ghost use Rattle.lk_fill.specs.Filled.{all_holes, fill_stretches, fill_with, written, CanBeFilled, IsWritable};

use crate::gaps::holes;
use crate::hole_bytes::fill_hole;
use lk_model::classes::in_file;
use lk_model::layouts::{Hole, HoleList, Placement, SectionRow};
use lk_report::NoMemory;
use std::alloc::Global;

/// Fills a hole of a row. Where it does not lie in the image nothing is written.
fn write_hole(image: &mut [u8], row: &SectionRow, hole: Hole)
    ensures { IsWritable row.now (length image.old) hole → image.new ≡ patch image.old (row.now.offset + hole.start) (hole_bytes row.now hole) }
{
    let Some(start) = row.offset.checked_add(hole.start) else {
        return;
    };
    let Some(end) = start.checked_add(hole.length) else {
        return;
    };
    if end > image.len() as u64 {
        return;
    }
    fill_hole(row, hole.start, &mut image[start as usize..end as usize]);
}

/// Fills holes of a row.
fn write_holes(image: &mut [u8], row: &SectionRow, holes: &[Hole])
    ensures { AllByRecursion (IsWritable row.now (length image.old)) holes.now → image.new ≡ written image.old (map (hole_stretch row.now) holes.now) }
{
    for hole in holes {
        write_hole(image, row, *hole);
    }
}

/// Fills holes of a row where the file holds it.
fn write_row(image: &mut [u8], row: &SectionRow, holes: &[Hole])
    ensures { (IsTrue (in_file row.now.key.class) → AllByRecursion (IsWritable row.now (length image.old)) holes.now)
        → image.new ≡ written image.old (fill_with row.now holes.now) }
{
    if in_file(row.key.class) {
        write_holes(image, row, holes);
    }
}

/// Fills the holes of all rows, which these are.
fn write_rows(image: &mut [u8], placement: &Placement, found: &[HoleList])
    requires { found.now ≡ all_holes placement.now }
    ensures { CanBeFilled placement.now (length image.old) → image.new ≡ written image.old (fill_stretches placement.now) }
{
    let rows = placement.sections.as_slice();
    for (number, row) in rows.iter().enumerate() {
        let holes = &found[number];
        write_row(image, row, holes.as_slice());
    }
}

/// Fills the holes of a placement in an image, which are in the rooms of its sections that the file
/// holds. Every other byte stays. A hole that does not lie in the image, or can not be filled, stays too;
/// in a lawful placement there is none. Takes n log n steps for n pieces, beside the bytes written.
///
/// # Errors
/// Out of memory. Every byte is then as before.
pub fn fill_holes(alloc: Global, placement: &Placement, image: &mut [u8]) -> Result<(), NoMemory>
    ensures filled { CanBeFilled placement.now (length image.old) → OnOk result (image.new ≡ written image.old (fill_stretches placement.now)) }
    ensures unchanged { OnErr result (image.new ≡ image.old) }
{
    let found = holes(alloc, placement)?;
    write_rows(image, placement, found.as_slice());
    Ok(())
}
