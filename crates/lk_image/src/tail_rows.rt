//! Where the parts of a tail are: each at the next multiple of 8 (this project's own).

ghost use Rattle.std.specs.Prelude.{◌≡◌, ◌+◌, map, IfOk};
ghost use Rattle.lk_model.specs.Amounts.{round_up};
ghost use Rattle.lk_model.specs.FullPlace.{file_end};
ghost use Rattle.lk_model.specs.Tail.{part_row, parts_end, parts_from};

use lk_incr::TailPart;
use lk_model::classes::in_file;
use lk_model::layouts::{Class, SectionKey, SectionRow, SectionRowList};
use lk_report::{List, Name, NoMemory};
use std::alloc::Global;

/// The rows of the parts of a tail, and the end of the last one, in bytes of the file.
#[derive(Drop)]
pub(crate) struct TailRows {
    pub(crate) rows: SectionRowList,
    pub(crate) end: u64,
}

/// The place `size` bytes after another one; out of memory for one that does not fit 64 bits, since no memory holds
/// such a file.
pub(crate) fn place_after(at: u64, size: u64) -> Result<u64, NoMemory>
    ensures { IfOk result (λ place. place ≡ at + size) }
{
    match at.checked_add(size) {
        Some(place) => Ok(place),
        None => Err(NoMemory),
    }
}

/// The least multiple of 8 that is not below a place.
pub(crate) fn next_multiple(at: u64) -> Result<u64, NoMemory>
    ensures { IfOk result (λ next. next ≡ round_up at 8) }
{
    let last = place_after(at, 7)?;
    Ok(last / 8 * 8)
}

/// The end of the last room that has bytes in the file; 0 without one.
pub(crate) fn file_end(rows: &[SectionRow]) -> Result<u64, NoMemory>
    ensures { IfOk result (λ end. end ≡ file_end rows.now) }
{
    let mut most = 0;
    for row in rows {
        if in_file(row.key.class) {
            most = most.max(place_after(row.offset, row.room)?);
        }
    }
    Ok(most)
}

/// The row of a part that begins at a place.
fn part_row(alloc: Global, part: &TailPart, offset: u64) -> Result<SectionRow, NoMemory>
    ensures { IfOk result (λ row. row ≡ part_row (record { part = part.now; offset = offset })) }
{
    let name = Name::from_slice(alloc, part.name())?;
    let size = part.bytes().len() as u64;
    Ok(SectionRow {
        key: SectionKey {
            name,
            class: Class::N,
        },
        addr: 0,
        offset,
        size,
        room: size,
        align: 8,
    })
}

/// The rows of parts that are one after another from a place on.
#[tactic(auto, using(crate::proofs::TailsPlaced::rows_more))]
pub(crate) fn rows_from(alloc: Global, start: u64, parts: &[TailPart]) -> Result<TailRows, NoMemory>
    ensures rows { IfOk result (λ tail. tail.rows ≡ map part_row (parts_from start parts.now)) }
    ensures end { IfOk result (λ tail. tail.end ≡ parts_end start parts.now) }
{
    let mut rows = List::new(alloc);
    let mut end = start;
    for part in parts {
        let offset = next_multiple(end)?;
        rows.push(part_row(alloc, part, offset)?)?;
        end = place_after(offset, part.bytes().len() as u64)?;
    }
    Ok(TailRows { rows, end })
}
