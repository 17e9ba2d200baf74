//! The addresses of commons and copies, looked up by hash.

ghost use Rattle.std.specs.Prelude.{◌≡◌, cond, Some, IfOk, OnOk};
ghost use Rattle.lk_symbol_values.specs.PieceAddresses.{address_of, has_key, key_of, same_key, FindsPieces};
ghost use Rattle.lk_symbol_values.specs.declared.piece_addresses.PieceKey.{PieceKey};

use indexmap::IndexMap;
use lk_model::layouts::{PieceId, PieceRow};
use lk_report::NoMemory;
use std::alloc::Global;

/// A piece that is placed for a name, as a key of a table.
#[derive(Clone, Copy, PartialEq, Eq, Hash, Debug)]
pub(crate) enum PieceKey {
    /// The common block of a name.
    Common { name: u32 },
    /// The copy of an imported object.
    Copy { name: u32 },
}

/// The addresses of commons and copies.
pub(crate) type PieceAddresses = IndexMap<PieceKey, u64>;

/// The key of a common or a copy; an input section has none.
fn key_of(piece: PieceId) -> Option<PieceKey>
    ensures { result ≡ key_of piece }
{
    match piece {
        PieceId::Section { .. } => None,
        PieceId::Common { name } => Some(PieceKey::Common { name }),
        PieceId::Copy { name } => Some(PieceKey::Copy { name }),
    }
}

/// Notes the address of a common or a copy, in place of what was noted before of it.
fn note_key(addresses: &mut PieceAddresses, key: PieceKey, address: u64) -> Result<(), NoMemory>
    ensures { OnOk result ((k : PieceKey) → address_of addresses.new.entries k ≡ cond (same_key key k) (Some address) (address_of addresses.old.entries k)) }
{
    match addresses.insert(key, address) {
        Ok(_) => Ok(()),
        Err(_) => Err(NoMemory),
    }
}

/// Notes the address of a piece, if it is a common or a copy.
fn note_piece(addresses: &mut PieceAddresses, row: PieceRow) -> Result<(), NoMemory>
    ensures { OnOk result ((k : PieceKey) → address_of addresses.new.entries k ≡ cond (has_key (key_of row.piece) k) (Some row.addr) (address_of addresses.old.entries k)) }
{
    match key_of(row.piece) {
        None => Ok(()),
        Some(key) => note_key(addresses, key, row.addr),
    }
}

/// The addresses of the commons and copies among these pieces; of one that has several rows that in the first.
pub(crate) fn piece_addresses(alloc: Global, rows: &[PieceRow]) -> Result<PieceAddresses, NoMemory>
    ensures { IfOk result (λ addresses. FindsPieces addresses.entries rows.now) }
{
    let mut addresses = IndexMap::new(alloc);
    for number in (0..rows.len()).rev() {
        note_piece(&mut addresses, rows[number])?;
    }
    Ok(addresses)
}

/// The address of a common or a copy.
pub(crate) fn address_of(addresses: &PieceAddresses, key: PieceKey) -> Option<u64>
    ensures { result ≡ address_of addresses.now.entries key }
{
    addresses.get(&key).copied()
}
