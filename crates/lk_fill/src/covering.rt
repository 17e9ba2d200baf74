//! What covers bytes of the rooms of a placement: its pieces, its tables, and the end of the frame table.

ghost use Rattle.std.specs.Prelude.{◌≡◌, ◌++◌, IfOk, OnOk};
ghost use Rattle.std.specs.List.{enumerate_from, flat_map, slice_get};
ghost use Rattle.std.specs.List.Sorted.{IsSortedBy};
ghost use Rattle.std.specs.Option.{option_copied};
ghost use Rattle.lk_fill.specs.Covering.{comes_before, covers, piece_covers, ranges_in, row_covers, IsCovering};

use crate::keys::{is_table, reserved_of};
use lk_model::layouts::{PieceRow, Placement, SectionRow};
use lk_report::NoMemory;
use std::alloc::Global;

/// Bytes of a room that something covers. There is at least one.
#[derive(Clone, Copy)]
pub(crate) struct Covered {
    /// The number of the room's row among the section rows, from 0.
    pub(crate) section: usize,
    /// Where they begin, in bytes from the room's start.
    pub(crate) start: u64,
    /// Where they end, in bytes from the room's start.
    pub(crate) end: u64,
}

/// Puts `size` bytes from `start` on behind the others, where there is one.
fn cover(ranges: &mut Vec<Covered>, section: usize, start: u64, size: u64) -> Result<(), NoMemory>
    ensures { OnOk result (ranges.new.items ≡ ranges.old.items ++ covers section start size) }
{
    let end = start.saturating_add(size);
    if start < end {
        let range = Covered {
            section,
            start,
            end,
        };
        if ranges.push(range).is_err() {
            return Err(NoMemory);
        }
    }
    Ok(())
}

/// The row with a number; none where there is no such row.
fn row_at(rows: &[SectionRow], number: u32) -> Option<&SectionRow>
    ensures { option_copied result ≡ slice_get rows.now number }
{
    rows.get(number as usize)
}

/// Puts what a piece covers of its row behind the others.
fn cover_piece(
    ranges: &mut Vec<Covered>,
    rows: &[SectionRow],
    piece: PieceRow,
) -> Result<(), NoMemory>
    ensures { OnOk result (ranges.new.items ≡ ranges.old.items ++ piece_covers rows.now piece) }
{
    match row_at(rows, piece.section) {
        Some(row) => cover(
            ranges,
            piece.section as usize,
            piece.addr.saturating_sub(row.addr),
            piece.size,
        ),
        None => Ok(()),
    }
}

/// Puts what the pieces cover behind the others.
fn cover_pieces(
    ranges: &mut Vec<Covered>,
    rows: &[SectionRow],
    pieces: &[PieceRow],
) -> Result<(), NoMemory>
    ensures { OnOk result (ranges.new.items ≡ ranges.old.items ++ flat_map (piece_covers rows.now) pieces.now) }
{
    for piece in pieces {
        cover_piece(ranges, rows, *piece)?;
    }
    Ok(())
}

/// Puts what covers bytes of a row beside its pieces behind the others.
fn cover_row(ranges: &mut Vec<Covered>, number: usize, row: &SectionRow) -> Result<(), NoMemory>
    ensures { OnOk result (ranges.new.items ≡ ranges.old.items ++ row_covers (number, row.now)) }
{
    let reserved = reserved_of(&row.key);
    cover(ranges, number, row.room.saturating_sub(reserved), reserved)?;
    if is_table(&row.key) {
        cover(ranges, number, 0, row.size)?;
    }
    Ok(())
}

/// Puts what covers bytes of rows beside their pieces behind the others.
fn cover_rows(ranges: &mut Vec<Covered>, rows: &[SectionRow]) -> Result<(), NoMemory>
    ensures { OnOk result (ranges.new.items ≡ ranges.old.items ++ flat_map row_covers (enumerate_from 0 rows.now)) }
{
    for (number, row) in rows.iter().enumerate() {
        cover_row(ranges, number, row)?;
    }
    Ok(())
}

/// All ranges of a placement, row by row, and in each row by where they start. A piece without a row covers
/// nothing.
pub(crate) fn covering(alloc: Global, placement: &Placement) -> Result<Vec<Covered>, NoMemory>
    ensures { IfOk result (λ ranges. IsCovering placement.now ranges.items) }
{
    let rows = placement.sections.as_slice();
    let mut ranges = Vec::new(alloc);
    cover_pieces(&mut ranges, rows, placement.pieces.as_slice())?;
    cover_rows(&mut ranges, rows)?;
    ranges.sort_unstable_by_key(|range| (range.section, range.start));
    Ok(ranges)
}

/// The ranges of a row among those of all rows, which rise.
pub(crate) fn ranges_in(ranges: &[Covered], section: usize) -> &[Covered]
    requires { IsSortedBy comes_before ranges.now }
    ensures { result.now ≡ ranges_in section ranges.now }
{
    let first = ranges.partition_point(|range| range.section < section);
    let (_, rest) = ranges.split_at(first);
    let count = rest.partition_point(|range| range.section <= section);
    let (found, _) = rest.split_at(count);
    found
}
