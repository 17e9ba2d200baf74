//! The rows of kept pieces, in their order: each piece is the next one of its output section.

ghost use Rattle.std.specs.Prelude.{◌≡◌, ◌+◌, ◌++◌, List, [], length, map, replicate, slice_index_or, slice_set, IfOk, OnOk};
ghost use Rattle.std.specs.List.{cons_option};
ghost use Rattle.lk_model.specs.FullPlace.{piece_rows};
ghost use Rattle.lk_model.specs.Views.{KeptPiece};
ghost use Rattle.lk_layout.specs.Grouping.{groups_of};
ghost use Rattle.lk_layout.specs.PieceRows.{row_at, row_in, row_under, rows_by};
ghost use Rattle.lk_layout.specs.Walked.{walked};

use crate::amounts::{narrow, plus};
use crate::grouping::Grouped;
use crate::kept::Kept;
use crate::row_places::{RowPlace, group_row_places};
use crate::walks::Walk;
use lk_model::layouts::{PieceRow, PieceRowList, SectionRow};
use lk_report::{List, NoMemory};
use std::alloc::Global;

/// The row of a piece, whose offset in its section is this where it is no terminator: that is in the last
/// four bytes of its room. An address that no field holds is answered as out of memory.
fn row_under(
    row_place: RowPlace,
    walk: &Walk,
    piece: &Kept<'_>,
    offset: u128,
) -> Result<PieceRow, NoMemory>
    ensures { IfOk result (λ row. row ≡ row_under row_place walk.now piece.now offset) }
{
    let place = if walk.is_patched() && piece.is_terminator() {
        u128::from(row_place.room.saturating_sub(4))
    } else {
        offset
    };
    let addr = narrow(plus(u128::from(row_place.addr), place)?)?;
    Ok(PieceRow {
        piece: piece.piece(),
        section: row_place.number,
        addr,
        size: piece.size(),
        align: piece.align(),
    })
}

/// The row of the piece with a number among those of a section; none where there is none.
fn row_at(
    row_place: Option<RowPlace>,
    walk: &Walk,
    pieces: &[Kept<'_>],
    n: usize,
) -> Result<Option<PieceRow>, NoMemory>
    ensures { IfOk result (λ row. row ≡ row_at row_place walk.now pieces.now n) }
{
    let Some(row_place) = row_place else {
        return Ok(None);
    };
    let Some(piece) = pieces.get(n) else {
        return Ok(None);
    };
    let Some(offset) = walk.offset(n) else {
        return Ok(None);
    };
    let row = row_under(row_place, walk, piece, offset)?;
    Ok(Some(row))
}

/// The row of the piece with a number in the group with a number; none where there is none.
fn row_in(
    kept: &Grouped<'_>,
    walks: &[Walk],
    row_places: &[Option<RowPlace>],
    number: usize,
    n: usize,
) -> Result<Option<PieceRow>, NoMemory>
    ensures { IfOk result (λ row. row ≡ row_in kept.now.sections walks.now row_places.now number n) }
{
    if kept.len() <= number {
        return Ok(None);
    }
    let Some(walk) = walks.get(number) else {
        return Ok(None);
    };
    let Some(row_place) = row_places.get(number) else {
        return Ok(None);
    };
    let (_, pieces) = kept.group(number);
    let row = row_at(*row_place, walk, pieces, n)?;
    Ok(row)
}

/// How many pieces of the group with a number came before; then one more did.
fn take_next(seen: &mut Vec<usize>, number: usize) -> Result<usize, NoMemory>
    ensures taken { IfOk result (λ n. n ≡ slice_index_or seen.old.items number 0) }
    ensures counted { OnOk result (seen.new.items ≡ slice_set seen.old.items number (slice_index_or seen.old.items number 0 + 1)) }
{
    if seen.len() <= number {
        return Ok(0);
    }
    let n = seen[number];
    let Some(next) = n.checked_add(1) else {
        return Err(NoMemory);
    };
    seen[number] = next;
    Ok(n)
}

/// Puts a row at the end, where there is one.
fn push_some(rows: &mut PieceRowList, row: Option<PieceRow>) -> Result<(), NoMemory>
    ensures { OnOk result (rows.new ≡ rows.old ++ cons_option row []) }
{
    if let Some(row) = row {
        rows.push(row)?;
    }
    Ok(())
}

/// No piece of any of so many groups came yet.
fn none_seen(alloc: Global, groups: usize) -> Result<Vec<usize>, NoMemory>
    ensures { IfOk result (λ seen. seen.items ≡ replicate groups 0) }
{
    match vec![in alloc; 0usize; groups] {
        Ok(seen) => Ok(seen),
        Err(_) => Err(NoMemory),
    }
}

/// The rows of pieces in the order of all, each the next one of its group.
fn rows_in_order(
    alloc: Global,
    kept: &Grouped<'_>,
    walks: &[Walk],
    row_places: &[Option<RowPlace>],
) -> Result<PieceRowList, NoMemory>
    ensures { IfOk result (λ rows. rows ≡ rows_by (row_in kept.now.sections walks.now row_places.now) (replicate (length kept.now.sections) 0) kept.now.order) }
{
    let mut seen = none_seen(alloc, kept.len())?;
    let mut rows = List::new(alloc);
    for number in kept.order() {
        let n = take_next(&mut seen, *number)?;
        let row = row_in(kept, walks, row_places, *number, n)?;
        push_some(&mut rows, row)?;
    }
    Ok(rows)
}

/// The rows of kept pieces, in their order, among rows of sections.
pub(crate) fn piece_rows(
    alloc: Global,
    rows: &[SectionRow],
    kept: &Grouped<'_>,
    walks: &[Walk],
) -> Result<PieceRowList, NoMemory>
    requires { walks.now ≡ map walked kept.now.sections }
    ensures { (all : List KeptPiece) → kept.now ≡ groups_of all → IfOk result (λ placed. placed ≡ piece_rows rows.now all) }
{
    let row_places = group_row_places(alloc, rows, kept)?;
    let placed = rows_in_order(alloc, kept, walks, row_places.as_slice())?;
    Ok(placed)
}
