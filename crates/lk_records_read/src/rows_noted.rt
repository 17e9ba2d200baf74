//! What no two output sections share: their keys, the addresses of their rooms and the bytes of the file in them.

ghost use Rattle.std.specs.Prelude.{◌≡◌, List, [], IfOk};
ghost use Rattle.lk_model.specs.RecordRefusals.{has_own_addresses};
ghost use Rattle.lk_model.specs.declared.layouts.SectionRow.{SectionRow};
ghost use Rattle.lk_records_read.specs.RowsNoted.{AreRowsNoted, IsKeyNoted, RowNoted};

use crate::section_keys::{KnownKey, is_key};
use crate::taken_ranges::{TakenRanges, take_where};
use indexmap::IndexSet;
use lk_model::classes::{in_file, is_alloc};
use lk_model::layouts::{Class, SectionKey, SectionRow};
use lk_report::NoMemory;
use std::alloc::Global;

/// The output sections that are read, by what no two of them share.
#[derive(Drop)]
pub(crate) struct RowsNoted {
    pub(crate) keys: IndexSet<KnownKey>,
    pub(crate) addresses: TakenRanges,
    pub(crate) offsets: TakenRanges,
}

/// No output section is noted.
#[tactic(auto, using(crate::proofs::RowsBeside::none_noted))]
pub(crate) fn no_rows(alloc: Global) -> RowsNoted
    ensures { AreRowsNoted result.keys.keys result.addresses result.offsets [] }
{
    RowsNoted {
        keys: IndexSet::new(alloc),
        addresses: TakenRanges::new(alloc),
        offsets: TakenRanges::new(alloc),
    }
}

/// Whether the addresses of a row's room are its own: it is loaded, and not the thread-local zeros.
pub(crate) fn has_own_addresses(row: &SectionRow) -> bool
    ensures { result ≡ has_own_addresses row.now }
{
    is_alloc(row.key.class) && !is_key(&row.key, b".tbss", Class::Tbss)
}

/// Notes a key: whether it is there for the first time.
///
/// # Errors
/// Out of memory.
fn note_key(
    alloc: Global,
    keys: &mut IndexSet<KnownKey>,
    key: &SectionKey,
) -> Result<bool, NoMemory>
    ensures { IfOk result (λ is_first. IsKeyNoted keys.old.keys key.now is_first keys.new.keys) }
{
    let key = key.copy(alloc)?;
    let Ok(is_first) = keys.insert(KnownKey { key }) else {
        return Err(NoMemory);
    };
    Ok(is_first)
}

/// Notes an output section: whether it shares nothing with those that were noted before.
///
/// # Errors
/// Out of memory.
pub(crate) fn note_row(
    alloc: Global,
    noted: &mut RowsNoted,
    row: &SectionRow,
) -> Result<bool, NoMemory>
    ensures { (before : List SectionRow) → AreRowsNoted noted.old.keys.keys noted.old.addresses noted.old.offsets before → RowNoted before row.now result noted.new.keys.keys noted.new.addresses noted.new.offsets }
{
    if !note_key(alloc, &mut noted.keys, &row.key)? {
        return Ok(false);
    }
    if !take_where(
        has_own_addresses(row),
        &mut noted.addresses,
        row.addr,
        row.room,
    )? {
        return Ok(false);
    }
    take_where(
        in_file(row.key.class),
        &mut noted.offsets,
        row.offset,
        row.room,
    )
}
