//! The rows of all sections in their order: those that are loaded, and behind them in the file those that are
//! not.

ghost use Rattle.std.specs.Prelude.{◌≡◌, ◌++◌, IfOk, OnOk};
ghost use Rattle.lk_model.specs.FullPlace.{file_end, rows_of, unloaded_rows};
ghost use Rattle.lk_layout.specs.Rows.{memory_end, memory_in, unloaded_among};

use crate::amounts::{above, plus, round_up};
use crate::extents::WideExtent;
use crate::loaded_rows::{loaded_rows, push_row};
use crate::wide_rows::WideRow;
use lk_model::classes::{in_file, is_alloc};
use lk_model::images::LOAD_BASE;
use lk_model::layouts::SectionRowList;
use lk_report::{List, NoMemory};
use std::alloc::Global;

/// Where the last room ends that the file holds.
fn file_end(rows: &[WideRow<'_>]) -> Result<u128, NoMemory>
    ensures { IfOk result (λ end. end ≡ file_end rows.now) }
{
    let mut end = 0;
    for row in rows {
        if in_file(row.class()) {
            end = plus(row.offset(), row.room())?.max(end);
        }
    }
    Ok(end)
}

/// Puts the rows of the sections that are not loaded behind others, from an offset in the file on.
fn push_unloaded<'k>(
    rows: &mut Vec<WideRow<'k>>,
    at: u128,
    extents: &[WideExtent<'k>],
) -> Result<(), NoMemory>
    ensures { OnOk result (rows.new.items ≡ rows.old.items ++ unloaded_rows at (unloaded_among extents.now)) }
{
    let mut at = at;
    for extent in extents {
        if !is_alloc(extent.class()) {
            let offset = round_up(at, u128::from(extent.align()))?;
            push_row(rows, WideRow::unloaded(offset, extent))?;
            at = plus(offset, extent.room())?;
        }
    }
    Ok(())
}

/// The rows of sections in their order.
#[tactic(auto, unfolding(lk_model::specs::FullPlace::rows_of))]
pub(crate) fn rows_of<'k>(
    alloc: Global,
    extents: &[WideExtent<'k>],
) -> Result<Vec<WideRow<'k>>, NoMemory>
    ensures { IfOk result (λ rows. rows.items ≡ rows_of extents.now) }
{
    let mut rows = loaded_rows(alloc, extents)?;
    let end = file_end(rows.as_slice())?;
    push_unloaded(&mut rows, end, extents)?;
    Ok(rows)
}

/// Where the last room of a loaded section ends in memory.
fn memory_end(rows: &[WideRow<'_>]) -> Result<u128, NoMemory>
    ensures { IfOk result (λ end. end ≡ memory_end rows.now) }
{
    let mut end = 0;
    for row in rows {
        if is_alloc(row.class()) {
            end = plus(row.addr(), row.room())?.max(end);
        }
    }
    Ok(end)
}

/// The memory that rows take, from the load base to the greatest end of a loaded room; what is greater than a
/// field holds is written as the greatest that it holds.
pub(crate) fn memory_of(rows: &[WideRow<'_>]) -> Result<u64, NoMemory>
    ensures { IfOk result (λ memory. memory ≡ memory_in rows.now) }
{
    let memory = above(memory_end(rows)?, u128::from(LOAD_BASE));
    let reported = memory.min(u128::from(u64::MAX));
    Ok(reported as u64)
}

/// The rows in fields of 64 bits.
pub(crate) fn narrowed_rows(alloc: Global, rows: &[WideRow<'_>]) -> Result<SectionRowList, NoMemory>
    ensures { IfOk result (λ narrow. narrow ≡ rows.now) }
{
    let mut narrowed = List::new(alloc);
    for row in rows {
        narrowed.push(row.narrowed(alloc)?)?;
    }
    Ok(narrowed)
}
