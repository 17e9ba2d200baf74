//! Where the pieces of an output section go: the number, the address and the room of its row.

ghost use Rattle.std.specs.Prelude.{◌≡◌, map, IfOk, OnOk};
ghost use Rattle.indexmap.specs.IndexMap.{get};
ghost use Rattle.lk_model.specs.SectionKeys.{same_key};
ghost use Rattle.lk_model.specs.declared.layouts.SectionKey.{SectionKey};
ghost use Rattle.lk_layout.specs.PieceRows.{group_row_place};
ghost use Rattle.lk_layout.specs.RowNumbers.{row_place_from, row_place_noted};

use crate::grouping::Grouped;
use crate::key_refs::KeyRef;
use indexmap::IndexMap;
use lk_model::layouts::{SectionKey, SectionRow};
use lk_report::NoMemory;
use std::alloc::Global;

/// The number of a section's row, and its address and its room in bytes.
#[derive(Clone, Copy)]
pub(crate) struct RowPlace {
    pub(crate) number: u32,
    pub(crate) addr: u64,
    pub(crate) room: u64,
}

/// The places of sections by their keys.
type RowPlaces<'r> = IndexMap<KeyRef<'r>, RowPlace>;

/// Notes the row of a key, where none is noted yet.
fn note_row_place<'r>(
    row_places: &mut RowPlaces<'r>,
    key: &'r SectionKey,
    row_place: RowPlace,
) -> Result<(), NoMemory>
    ensures { OnOk result ((k : SectionKey) → get same_key row_places.new k ≡ row_place_noted (get same_key row_places.old k) key.now row_place k) }
{
    if row_places.contains_key(&KeyRef { key }) {
        return Ok(());
    }
    if row_places.insert(KeyRef { key }, row_place).is_err() {
        return Err(NoMemory);
    }
    Ok(())
}

/// The place of each key of rows: that of its first row.
fn row_places_of<'r>(alloc: Global, rows: &'r [SectionRow]) -> Result<RowPlaces<'r>, NoMemory>
    ensures { IfOk result (λ row_places. (k : SectionKey) → get same_key row_places k ≡ row_place_from 0 rows.now k) }
{
    let mut row_places = IndexMap::new(alloc);
    for (number, row) in rows.iter().enumerate() {
        if number > u32::MAX as usize {
            return Err(NoMemory);
        }
        let row_place = RowPlace {
            number: number as u32,
            addr: row.addr,
            room: row.room,
        };
        note_row_place(&mut row_places, &row.key, row_place)?;
    }
    Ok(row_places)
}

/// The place of a key.
fn row_place_at(row_places: &RowPlaces<'_>, key: &SectionKey) -> Option<RowPlace>
    ensures { result ≡ get same_key row_places.now key.now }
{
    row_places.get(&KeyRef { key }).copied()
}

/// The places of the groups' sections, by their numbers; none where a section has no row.
pub(crate) fn group_row_places(
    alloc: Global,
    rows: &[SectionRow],
    kept: &Grouped<'_>,
) -> Result<Vec<Option<RowPlace>>, NoMemory>
    ensures { IfOk result (λ row_places. row_places.items ≡ map (group_row_place rows.now) kept.now.sections) }
{
    let by_key = row_places_of(alloc, rows)?;
    let mut row_places = Vec::new(alloc);
    for number in 0..kept.len() {
        let (key, _) = kept.group(number);
        let row_place = row_place_at(&by_key, key);
        let Ok(()) = row_places.push(row_place) else {
            return Err(NoMemory);
        };
    }
    Ok(row_places)
}
