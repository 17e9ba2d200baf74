//! How many bytes an output section takes, and at which alignment.

ghost use Rattle.std.specs.Prelude.{◌≡◌, [], IfOk};
ghost use Rattle.lk_model.specs.FullPlace.{Extent, size_among, table_extent};
ghost use Rattle.lk_model.specs.Rooms.{patched_room, room_of};
ghost use Rattle.lk_model.specs.SectionKeys.{least_of, reserved_of};
ghost use Rattle.lk_layout.specs.Extents.{extent_from, extent_reported};
ghost use Rattle.lk_dyn_sizes.specs.SizeRows.{as_pairs};

use crate::key_kinds::{least_of, reserved_of, same_key};
use crate::rooms::{patched_room, room_of};
use crate::walks::Walk;
use lk_dyn_sizes::TableSize;
use lk_model::layouts::{Class, SectionKey};
use lk_report::NoMemory;
use std::marker::Model;

/// A section's size and room in bytes, and its alignment. Contracts see it as an `Extent` of lk_model.
#[derive(Drop)]
pub(crate) struct WideExtent<'k> {
    key: &'k SectionKey,
    size: u128,
    room: u128,
    align: u64,
}

impl<'k> Model for WideExtent<'k> {
    ghost use Rattle.lk_model.specs.FullPlace.{Extent};

    ghost Value = { Extent };

    ghost view = { λ s. record { key = s.key.now; size = s.size; room = s.room; align = s.align } };
}

impl<'k> WideExtent<'k> {
    /// Which section it is.
    pub(crate) fn key(&self) -> &'k SectionKey
        ensures { result.now ≡ self.now.key }
    {
        self.key
    }

    /// Its class.
    pub(crate) fn class(&self) -> Class
        ensures { result ≡ self.now.key.class }
    {
        self.key.class
    }

    /// The size that its header has, in bytes.
    pub(crate) fn size(&self) -> u128
        ensures { result ≡ self.now.size }
    {
        self.size
    }

    /// The bytes that are reserved.
    pub(crate) fn room(&self) -> u128
        ensures { result ≡ self.now.room }
    {
        self.room
    }

    /// The alignment.
    pub(crate) fn align(&self) -> u64
        ensures { result ≡ self.now.align }
    {
        self.align
    }
}

/// The extent of a table of so many bytes.
fn table_extent<'k>(patch: u32, key: &'k SectionKey, size: u64) -> Result<WideExtent<'k>, NoMemory>
    ensures { IfOk result (λ e. e ≡ table_extent patch key.now size) }
{
    let size = u128::from(size);
    let room = room_of(patch, size)?;
    Ok(WideExtent {
        key,
        size,
        room,
        align: 16,
    })
}

/// The extent of a section whose pieces were walked: all the room of a patched one counts as its size, and a
/// sequence ends with its last piece.
fn walked_extent<'k>(
    patch: u32,
    key: &'k SectionKey,
    walk: &Walk,
) -> Result<WideExtent<'k>, NoMemory>
    ensures { IfOk result (λ e. e ≡ extent_from patch key.now walk.now) }
{
    let align = walk.align();
    if walk.is_patched() {
        let room = patched_room(patch, least_of(key), reserved_of(key), walk.end())?;
        return Ok(WideExtent {
            key,
            size: room,
            room,
            align,
        });
    }
    let size = walk.end();
    let room = room_of(patch, size)?;
    Ok(WideExtent {
        key,
        size,
        room,
        align,
    })
}

/// The size of the table that a section is, where it is one.
fn size_among(tables: &[TableSize], key: &SectionKey) -> Option<u64>
    ensures { result ≡ size_among (as_pairs tables.now) key.now }
{
    for table in tables {
        if same_key(key, &table.key) {
            return Some(table.size);
        }
    }
    None
}

/// The extent of a section: that of its table, or else of its pieces.
pub(crate) fn extent_of<'k>(
    patch: u32,
    tables: &[TableSize],
    key: &'k SectionKey,
    walk: &Walk,
) -> Result<WideExtent<'k>, NoMemory>
    ensures { IfOk result (λ e. e ≡ extent_reported patch (size_among (as_pairs tables.now) key.now) key.now walk.now) }
{
    match size_among(tables, key) {
        Some(size) => table_extent(patch, key, size),
        None => walked_extent(patch, key, walk),
    }
}
