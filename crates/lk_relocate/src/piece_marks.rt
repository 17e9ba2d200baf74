//! Which sections of an object are its pieces, by marks, one for each section header index.

ghost use Rattle.std.specs.Prelude.{OnOk};
ghost use Rattle.lk_relocate.specs.PieceLists.{AreMarksOf};

use lk_marks::Marks;
use lk_model::summaries::PieceInfo;
use lk_report::NoMemory;

/// Marks the sections of these pieces, and no other ones.
pub(crate) fn mark_pieces(marks: &mut Marks, pieces: &[PieceInfo]) -> Result<(), NoMemory>
    ensures { OnOk result (AreMarksOf marks.new pieces.now) }
{
    marks.clear();
    for piece in pieces {
        marks.mark(piece.section)?;
    }
    Ok(())
}
