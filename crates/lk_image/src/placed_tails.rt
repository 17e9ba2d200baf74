//! The tail of an image: its parts at their places, and the section headers, which end the image (gABI
//! "Sections").

ghost use Rattle.std.specs.Prelude.{◌≡◌, IfOk};
ghost use Rattle.lk_image.specs.Tails.{placed_tail};

use crate::tail_rows::{TailRows, file_end, next_multiple, place_after, rows_from};
use lk_headers::section_headers;
use lk_incr::Tail;
use lk_model::layouts::{Placement, SectionRowList};
use lk_report::{Bytes, NoMemory};
use std::alloc::Global;

/// The tail of an image. Places are in bytes of the file.
#[derive(Drop)]
pub(crate) struct PlacedTail {
    /// Its place: the end of the last room that has bytes in the file.
    pub(crate) start: u64,
    /// Its parts, each at the next multiple of 8.
    pub(crate) parts: Tail,
    /// The row of each part: its name, its place and its size.
    pub(crate) rows: SectionRowList,
    /// The place of the section headers (gABI "ELF Header", e_shoff).
    pub(crate) headers_at: u64,
    /// The section headers, with which the image ends.
    pub(crate) headers: Bytes,
    /// The length of the image.
    pub(crate) length: u64,
}

/// The tail of an image with these parts, behind the sections of a placement.
///
/// # Errors
/// Out of memory, also for an image whose length does not fit 64 bits.
#[tactic(auto, using(crate::proofs::TailsPlaced::tail_placed))]
pub(crate) fn place_tail(
    alloc: Global,
    placement: &Placement,
    parts: Tail,
) -> Result<PlacedTail, NoMemory>
    ensures { IfOk result (λ tail. tail ≡ placed_tail placement.now parts) }
{
    let start = file_end(placement.sections.as_slice())?;
    let TailRows { rows, end } = rows_from(alloc, start, parts.as_slice())?;
    let headers = section_headers(alloc, placement, &rows)?;
    let headers_at = next_multiple(end)?;
    let length = place_after(headers_at, headers.as_slice().len() as u64)?;
    Ok(PlacedTail {
        start,
        parts,
        rows,
        headers_at,
        headers,
        length,
    })
}
