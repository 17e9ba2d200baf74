//! How many sections each input has, up to the last one that is placed.

ghost use Rattle.std.specs.Prelude.{◌≡◌, ℕ, ◌<◌, get_or, length, max, set, IfOk, OnOk};
ghost use Rattle.lk_piece_rows.specs.RowNumbers.{section_count, sections_with};

use lk_marks::make_room;
use lk_model::layouts::{PieceId, PieceRow};
use lk_report::NoMemory;
use std::alloc::Global;

/// Raises the count of an input to this one, if it is lower.
fn raise_count(counts: &mut [usize], input: usize, count: usize)
    requires { input < length counts.old }
    ensures { counts.new ≡ set counts.old input (max (get_or counts.old input 0) count) }
{
    counts[input] = counts[input].max(count);
}

/// Counts the section that a piece is; commons and copies are none.
fn count_piece(counts: &mut Vec<usize>, piece: PieceId) -> Result<(), NoMemory>
    ensures { OnOk result ((n : ℕ) → get_or counts.new.items n 0 ≡ max (get_or counts.old.items n 0) (sections_with piece n)) }
{
    let PieceId::Section { input, section } = piece else {
        return Ok(());
    };
    make_room(counts, input, 0)?;
    raise_count(counts, input as usize, section as usize + 1);
    Ok(())
}

/// How many sections each input has, up to the last one that these rows place; an input past the end of the list
/// has none.
pub(crate) fn section_counts(alloc: Global, rows: &[PieceRow]) -> Result<Vec<usize>, NoMemory>
    ensures { IfOk result (λ counts. (n : ℕ) → get_or counts.items n 0 ≡ section_count rows.now n) }
{
    let mut counts = Vec::new(alloc);
    for row in rows {
        count_piece(&mut counts, row.piece)?;
    }
    Ok(counts)
}
