//! The rows of commons and copies, looked up by hash.

ghost use Rattle.std.specs.Prelude.{◌≡◌, cond, Some, IfOk, OnOk};
ghost use Rattle.lk_dyn_tables.specs.NamedRows.{FindsRows, has_key, key_of, row_at, same_key};
ghost use Rattle.lk_dyn_tables.specs.declared.named_rows.NamedPiece.{NamedPiece};

use indexmap::IndexMap;
use lk_model::layouts::{PieceId, PieceRow};
use lk_report::NoMemory;
use std::alloc::Global;

/// A piece that is placed for a name, as a key of a table.
#[derive(Clone, Copy, PartialEq, Eq, Hash, Debug)]
pub(crate) enum NamedPiece {
    /// The common block of a name.
    Common { name: u32 },
    /// The copy of an imported object.
    Copy { name: u32 },
}

/// The rows of commons and copies.
pub(crate) type NamedRows = IndexMap<NamedPiece, PieceRow>;

/// The key of a common or a copy; an input section has none.
fn key_of(piece: PieceId) -> Option<NamedPiece>
    ensures { result ≡ key_of piece }
{
    match piece {
        PieceId::Section { .. } => None,
        PieceId::Common { name } => Some(NamedPiece::Common { name }),
        PieceId::Copy { name } => Some(NamedPiece::Copy { name }),
    }
}

/// Notes the row of a common or a copy, in place of what was noted before of it.
fn note_key(rows: &mut NamedRows, key: NamedPiece, row: PieceRow) -> Result<(), NoMemory>
    ensures { OnOk result ((k : NamedPiece) → row_at rows.new.entries k ≡ cond (same_key key k) (Some row) (row_at rows.old.entries k)) }
{
    match rows.insert(key, row) {
        Ok(_) => Ok(()),
        Err(_) => Err(NoMemory),
    }
}

/// Notes the row of a piece, if it is a common or a copy.
fn note_row(rows: &mut NamedRows, row: PieceRow) -> Result<(), NoMemory>
    ensures { OnOk result ((k : NamedPiece) → row_at rows.new.entries k ≡ cond (has_key (key_of row.piece) k) (Some row) (row_at rows.old.entries k)) }
{
    match key_of(row.piece) {
        None => Ok(()),
        Some(key) => note_key(rows, key, row),
    }
}

/// The rows of the commons and copies among these; of one that has several rows the first.
pub(crate) fn named_rows(alloc: Global, rows: &[PieceRow]) -> Result<NamedRows, NoMemory>
    ensures { IfOk result (λ named. FindsRows named.entries rows.now) }
{
    let mut named = IndexMap::new(alloc);
    for number in (0..rows.len()).rev() {
        note_row(&mut named, rows[number])?;
    }
    Ok(named)
}

/// The row of a common or a copy.
pub(crate) fn row_at(rows: &NamedRows, key: NamedPiece) -> Option<PieceRow>
    ensures { result ≡ row_at rows.now.entries key }
{
    rows.get(&key).copied()
}
