//! The placement of kept pieces: the limits are looked at first, then everything is placed.

ghost use Rattle.std.specs.Prelude.{◌≡◌, List, map, IfOk};
ghost use Rattle.lk_model.specs.FullPlace.{rows_of};
ghost use Rattle.lk_model.specs.Views.{KeptPiece};
ghost use Rattle.lk_layout.specs.Extents.{extent_under};
ghost use Rattle.lk_layout.specs.Grouping.{groups_of};
ghost use Rattle.lk_layout.specs.Layouts.{PlaceGives, place_in, placement_of};
ghost use Rattle.lk_dyn_sizes.specs.SizeRows.{as_pairs};
ghost use Rattle.lk_layout.specs.Walked.{walked};

use crate::grouping::Grouped;
use crate::piece_rows::piece_rows;
use crate::section_rows::{memory_of, narrowed_rows, rows_of};
use crate::sections::{extents_of, ordered_keys, walk_groups};
use crate::walks::Walk;
use crate::wide_rows::WideRow;
use lk_dyn_sizes::TableSize;
use lk_model::layouts::{LayoutFault, Placement, SectionKey, SlotTable};
use lk_model::limits::{MOST_MEMORY, MOST_SECTIONS};
use lk_report::{LimitFault, LimitKind, NoMemory};
use std::alloc::Global;

/// What is placed: the output sections in their order, and the walks of those that have pieces.
#[derive(Drop)]
struct Measured<'k> {
    rows: Vec<WideRow<'k>>,
    walks: Vec<Walk>,
}

/// The rows of sections, and the walks of the groups.
fn measure<'k>(
    alloc: Global,
    patch: u32,
    tables: &[TableSize],
    kept: &Grouped<'_>,
    keys: &'k [SectionKey],
) -> Result<Measured<'k>, NoMemory>
    ensures rows { IfOk result (λ m. m.rows.items ≡ rows_of (map (extent_under patch (as_pairs tables.now) kept.now.sections) keys.now)) }
    ensures walks { IfOk result (λ m. m.walks.items ≡ map walked kept.now.sections) }
{
    let walks = walk_groups(alloc, kept)?;
    let extents = extents_of(alloc, patch, tables, kept, walks.as_slice(), keys)?;
    let rows = rows_of(alloc, extents.as_slice())?;
    Ok(Measured { rows, walks })
}

/// Places the pieces in what was measured.
fn place_pieces(
    alloc: Global,
    kept: &Grouped<'_>,
    measured: &Measured<'_>,
    slots: SlotTable,
) -> Result<Placement, NoMemory>
    requires { measured.now.walks.items ≡ map walked kept.now.sections }
    ensures { (all : List KeptPiece) → kept.now ≡ groups_of all → IfOk result (λ place. place ≡ place_in measured.now.rows.items all slots) }
{
    let sections = narrowed_rows(alloc, measured.rows.as_slice())?;
    let pieces = piece_rows(alloc, sections.as_slice(), kept, measured.walks.as_slice())?;
    Ok(Placement {
        sections,
        pieces,
        slots,
    })
}

/// A number that exceeds its limit.
fn limit(which: LimitKind, number: u64) -> LayoutFault
    ensures { result ≡ LayoutFault.Limit (record { which = which; number = number }) }
{
    LayoutFault::Limit(LimitFault { which, number })
}

/// The placement of kept pieces and of tables with their sizes, with room for growth of so many percent; or
/// the first limit that it exceeds: the number of output sections, then memory.
pub(crate) fn place_kept(
    alloc: Global,
    patch: u32,
    tables: &[TableSize],
    kept: &Grouped<'_>,
    slots: SlotTable,
) -> Result<Placement, LayoutFault>
    ensures { (all : List KeptPiece) → kept.now ≡ groups_of all → PlaceGives (placement_of patch all (as_pairs tables.now) slots) result }
{
    let Ok(keys) = ordered_keys(alloc, tables, kept) else {
        return Err(LayoutFault::NoMemory);
    };
    let keys = keys.as_slice();
    if keys.len() as u64 > MOST_SECTIONS {
        return Err(limit(LimitKind::Sections, keys.len() as u64));
    }
    let Ok(measured) = measure(alloc, patch, tables, kept, keys) else {
        return Err(LayoutFault::NoMemory);
    };
    let Ok(memory) = memory_of(measured.rows.as_slice()) else {
        return Err(LayoutFault::NoMemory);
    };
    if memory > MOST_MEMORY {
        return Err(limit(LimitKind::Memory, memory));
    }
    match place_pieces(alloc, kept, &measured, slots) {
        Ok(place) => Ok(place),
        Err(NoMemory) => Err(LayoutFault::NoMemory),
    }
}
