//! The kept sections of the added inputs, in adding order and by section.

ghost use Rattle.std.specs.Prelude.{◌≡◌, fold, OnOk};
ghost use Rattle.lk_layout.specs.Grouping.{with_piece};
ghost use Rattle.lk_layout.specs.KeptIn.{kept_among, pieces_at, sections_in};

use crate::grouping::Grouped;
use crate::kept::Kept;
use lk_model::summaries::{InputSummary, PieceInfo};
use lk_report::NoMemory;
use lk_resolve::Resolution;

/// Keeps the pieces of an input whose sections are kept.
fn keep_pieces<'p>(
    kept: &mut Grouped<'p>,
    resolution: &Resolution,
    input: u32,
    pieces: &'p [PieceInfo],
) -> Result<(), NoMemory>
    ensures { OnOk result (kept.new ≡ fold with_piece kept.old (kept_among resolution.now.kept input pieces.now)) }
{
    for piece in pieces {
        if resolution.is_kept(input, piece.section) {
            kept.push(Kept::section(input, piece))?;
        }
    }
    Ok(())
}

/// The pieces of an input; none where there is no such input.
fn pieces_of(inputs: &[InputSummary], input: u32) -> &[PieceInfo]
    ensures { result.now ≡ pieces_at inputs.now input }
{
    match inputs.get(input as usize) {
        Some(summary) => summary.pieces.as_slice(),
        None => &[],
    }
}

/// Keeps the kept sections of the added inputs.
pub(crate) fn keep_sections<'p>(
    kept: &mut Grouped<'p>,
    resolution: &Resolution,
    inputs: &'p [InputSummary],
) -> Result<(), NoMemory>
    ensures { OnOk result (kept.new ≡ fold with_piece kept.old (sections_in resolution.now.kept inputs.now resolution.now.added)) }
{
    for input in resolution.added().as_slice() {
        keep_pieces(kept, resolution, *input, pieces_of(inputs, *input))?;
    }
    Ok(())
}
