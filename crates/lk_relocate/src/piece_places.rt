//! The place of the bytes of a piece in the file (gABI "Section Header", sh_offset).

ghost use Rattle.std.specs.Prelude.{◌≡◌};
ghost use Rattle.lk_relocate.specs.Places.{place_in, place_with};

use lk_model::classes::in_file;
use lk_model::layouts::{PieceRow, Placement, SectionRow};

/// The place in a file of `size` bytes at which `count` bytes of a piece of a row begin; none if they are more than the
/// piece has, or do not lie in the file.
fn place_with(size: usize, row: &SectionRow, piece: &PieceRow, count: usize) -> Option<usize>
    ensures { result ≡ place_with size row.now piece.now count }
{
    if count as u64 > piece.size {
        return None;
    }
    let offset = piece.addr.checked_sub(row.addr)?;
    let at = row.offset.checked_add(offset)?;
    let end = at.checked_add(count as u64)?;
    if end <= size as u64 {
        Some(at as usize)
    } else {
        None
    }
}

/// The place in a file of `size` bytes at which `count` bytes of a piece begin; none if the file has no bytes of the
/// piece's output section, or if they are more than the piece has or do not lie in the file.
pub(crate) fn place_in(
    placement: &Placement,
    size: usize,
    piece: &PieceRow,
    count: usize,
) -> Option<usize>
    ensures { result ≡ place_in placement.now size piece.now count }
{
    match placement.sections.as_slice().get(piece.section as usize) {
        None => None,
        Some(row) => {
            if in_file(row.key.class) {
                place_with(size, row, piece, count)
            } else {
                None
            }
        }
    }
}
