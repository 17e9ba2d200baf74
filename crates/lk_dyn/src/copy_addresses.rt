//! The addresses of copies of imports, looked up by hash (psABI x86-64 "Relocation Types", R_X86_64_COPY).

ghost use Rattle.std.specs.Prelude.{◌≡◌, ◌==◌, ℕ, cond, Some, IfOk, OnOk};
ghost use Rattle.lk_dyn.specs.StartRelocations.{FindsCopies, copy_of, copy_or, or_zero};

use indexmap::IndexMap;
use lk_model::layouts::{PieceId, PieceRow};
use lk_report::NoMemory;
use std::alloc::Global;

/// The addresses of copies, by the numbers of their names.
pub(crate) type CopyAddresses = IndexMap<u32, u64>;

/// Notes the address of a copy, in place of what was noted before of it.
fn note_address(addresses: &mut CopyAddresses, name: u32, address: u64) -> Result<(), NoMemory>
    ensures { OnOk result ((n : ℕ) → copy_of addresses.new.entries n ≡ cond (name == n) (Some address) (copy_of addresses.old.entries n)) }
{
    match addresses.insert(name, address) {
        Ok(_) => Ok(()),
        Err(_) => Err(NoMemory),
    }
}

/// Notes the address of a piece, where it is a copy.
fn note_copy(addresses: &mut CopyAddresses, row: PieceRow) -> Result<(), NoMemory>
    ensures { OnOk result ((n : ℕ) → copy_of addresses.new.entries n ≡ copy_or row.piece row.addr n (copy_of addresses.old.entries n)) }
{
    match row.piece {
        PieceId::Copy { name } => note_address(addresses, name, row.addr),
        PieceId::Section { .. } | PieceId::Common { .. } => Ok(()),
    }
}

/// The addresses of the copies among these pieces; of a copy that has several rows that in the first.
pub(crate) fn copy_addresses(alloc: Global, rows: &[PieceRow]) -> Result<CopyAddresses, NoMemory>
    ensures { IfOk result (λ addresses. FindsCopies addresses.entries rows.now) }
{
    let mut addresses = IndexMap::new(alloc);
    for number in (0..rows.len()).rev() {
        note_copy(&mut addresses, rows[number])?;
    }
    Ok(addresses)
}

/// The address of the copy of a name; 0 without one.
pub(crate) fn address_of(addresses: &CopyAddresses, name: u32) -> u64
    ensures { result ≡ or_zero (copy_of addresses.now.entries name) }
{
    match addresses.get(&name) {
        None => 0,
        Some(address) => *address,
    }
}
