//! Pieces one behind the other: where each is in its output section, and where the last ends.

ghost use Rattle.std.specs.Prelude.{◌≡◌, ◌++◌, ◌∷◌, [], IfOk, OnOk};
ghost use Rattle.lk_model.specs.FullPlace.{align_of};
ghost use Rattle.lk_model.specs.Rooms.{patched_end, patched_next, patched_offset, sequence_end, sequence_offset};
ghost use Rattle.lk_layout.specs.Walked.{patched_offsets, sequence_next, sequence_offsets};

use crate::amounts::{plus, round_up};
use crate::kept::Kept;
use crate::rooms::step_to;
use lk_report::NoMemory;
use std::alloc::Global;

/// The offsets of pieces in bytes, in their order, and where the last ends.
#[derive(Drop)]
pub(crate) struct Stretch {
    pub(crate) offsets: Vec<u128>,
    pub(crate) end: u128,
}

/// Where a piece is, and the cursor after it.
#[derive(Clone, Copy)]
pub(crate) struct Step {
    pub(crate) at: u128,
    pub(crate) next: u128,
}

/// The step of a piece of a patched section: an empty piece is at the start and moves nothing.
pub(crate) fn patched_step(least: u64, cursor: u128, piece: &Kept<'_>) -> Result<Step, NoMemory>
    ensures at { IfOk result (λ step. step.at ≡ patched_offset least cursor piece.now) }
    ensures next { IfOk result (λ step. step.next ≡ patched_next least cursor piece.now) }
{
    let size = piece.size();
    if size == 0 {
        return Ok(Step {
            at: 0,
            next: cursor,
        });
    }
    let at = step_to(least, cursor, piece.align())?;
    let next = plus(at, u128::from(size))?;
    Ok(Step { at, next })
}

/// The step of a piece of a sequence.
pub(crate) fn sequence_step(cursor: u128, piece: &Kept<'_>) -> Result<Step, NoMemory>
    ensures at { IfOk result (λ step. step.at ≡ sequence_offset cursor piece.now) }
    ensures next { IfOk result (λ step. step.next ≡ sequence_next cursor piece.now) }
{
    let at = round_up(cursor, u128::from(piece.align()))?;
    let next = plus(at, u128::from(piece.size()))?;
    Ok(Step { at, next })
}

/// Puts an offset at the end.
pub(crate) fn push_offset(offsets: &mut Vec<u128>, at: u128) -> Result<(), NoMemory>
    ensures { OnOk result (offsets.new.items ≡ offsets.old.items ++ at ∷ []) }
{
    if offsets.push(at).is_err() {
        return Err(NoMemory);
    }
    Ok(())
}

/// The pieces of a patched section, each at the least place behind those before it that leaves a hole which
/// can be filled.
pub(crate) fn patched_stretch(
    alloc: Global,
    least: u64,
    pieces: &[Kept<'_>],
) -> Result<Stretch, NoMemory>
    ensures offsets { IfOk result (λ s. s.offsets.items ≡ patched_offsets least 0 pieces.now) }
    ensures end { IfOk result (λ s. s.end ≡ patched_end least pieces.now) }
{
    let mut offsets = Vec::new(alloc);
    let mut end = 0;
    for piece in pieces {
        let step = patched_step(least, end, piece)?;
        push_offset(&mut offsets, step.at)?;
        end = step.next;
    }
    Ok(Stretch { offsets, end })
}

/// The pieces of a sequence in their order, each at the next multiple of its alignment.
pub(crate) fn sequence_stretch(alloc: Global, pieces: &[Kept<'_>]) -> Result<Stretch, NoMemory>
    ensures offsets { IfOk result (λ s. s.offsets.items ≡ sequence_offsets 0 pieces.now) }
    ensures end { IfOk result (λ s. s.end ≡ sequence_end pieces.now) }
{
    let mut offsets = Vec::new(alloc);
    let mut end = 0;
    for piece in pieces {
        let step = sequence_step(end, piece)?;
        push_offset(&mut offsets, step.at)?;
        end = step.next;
    }
    Ok(Stretch { offsets, end })
}

/// The greatest alignment of the pieces, and at least 16.
pub(crate) fn align_of(pieces: &[Kept<'_>]) -> u64
    ensures { result ≡ align_of pieces.now }
{
    let mut align = 16;
    for piece in pieces {
        align = align.max(piece.align());
    }
    align
}
