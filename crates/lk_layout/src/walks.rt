//! The walk of an output section's pieces: where each is in it, and where they end.

ghost use Rattle.std.specs.Prelude.{◌≡◌, [], slice_get, IfOk};
ghost use Rattle.lk_model.specs.SectionKeys.{is_patched as is_patched_key};
ghost use Rattle.lk_layout.specs.Walked.{end_of, offsets_after, walked};

use crate::arrays::array_stretch;
use crate::kept::Kept;
use crate::key_kinds::{is_numbered_array, least_of};
use crate::stretches::{Stretch, align_of, patched_stretch, sequence_stretch};
use lk_model::layouts::SectionKey;
use lk_outsec::is_patched;
use lk_report::NoMemory;
use std::alloc::Global;
use std::marker::Model;

/// The offsets of a section's pieces in their order and where they end, in bytes, the greatest of their
/// alignments, and whether they may be anywhere in it.
#[derive(Drop)]
pub(crate) struct Walk {
    stretch: Stretch,
    align: u64,
    is_patched: bool,
}

impl Model for Walk {
    ghost use Rattle.lk_layout.specs.Walked.{Walked};

    ghost Value = { Walked };

    ghost view = { λ w. record { offsets = w.stretch.offsets.items; end = w.stretch.end; align = w.align; patched = w.is_patched } };
}

impl Walk {
    /// The offset of the piece with a number; none where there is no such piece.
    pub(crate) fn offset(&self, number: usize) -> Option<u128>
        ensures { result ≡ slice_get self.now.offsets number }
    {
        self.stretch.offsets.get(number).copied()
    }

    /// Where the pieces end.
    pub(crate) fn end(&self) -> u128
        ensures { result ≡ self.now.end }
    {
        self.stretch.end
    }

    /// The greatest alignment of the pieces, and at least 16.
    pub(crate) fn align(&self) -> u64
        ensures { result ≡ self.now.align }
    {
        self.align
    }

    /// Whether the pieces may be anywhere in the section.
    pub(crate) fn is_patched(&self) -> bool
        ensures { result ≡ self.now.patched }
    {
        self.is_patched
    }
}

/// The pieces of a section, each where it is.
#[tactic(auto, using(crate::proofs::OffsetsReported::patched_reported, crate::proofs::OffsetsReported::array_reported, crate::proofs::OffsetsReported::sequence_reported))]
fn stretch_of(
    alloc: Global,
    key: &SectionKey,
    is_patched: bool,
    pieces: &[Kept<'_>],
) -> Result<Stretch, NoMemory>
    requires { is_patched ≡ is_patched_key key.now }
    ensures offsets { IfOk result (λ s. s.offsets.items ≡ offsets_after key.now pieces.now [] pieces.now) }
    ensures end { IfOk result (λ s. s.end ≡ end_of key.now pieces.now) }
{
    if is_patched {
        let stretch = patched_stretch(alloc, least_of(key), pieces)?;
        return Ok(stretch);
    }
    if is_numbered_array(key) {
        let stretch = array_stretch(alloc, pieces)?;
        return Ok(stretch);
    }
    let stretch = sequence_stretch(alloc, pieces)?;
    Ok(stretch)
}

/// The walk of a section's pieces.
#[tactic(auto, unfolding(crate::specs::Walked::walked))]
pub(crate) fn walk_pieces(
    alloc: Global,
    key: &SectionKey,
    pieces: &[Kept<'_>],
) -> Result<Walk, NoMemory>
    ensures { IfOk result (λ w. w ≡ walked (key.now, pieces.now)) }
{
    let is_patched = is_patched(key);
    let stretch = stretch_of(alloc, key, is_patched, pieces)?;
    Ok(Walk {
        stretch,
        align: align_of(pieces),
        is_patched,
    })
}
