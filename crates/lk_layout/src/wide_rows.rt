//! Rows of sections whose addresses and offsets may be greater than a field holds.

ghost use Rattle.std.specs.Prelude.{◌≡◌, IfOk};
ghost use Rattle.lk_model.specs.FullPlace.{loaded_row};
ghost use Rattle.lk_layout.specs.Rows.{unloaded_row};

use crate::amounts::{above, narrow};
use crate::extents::WideExtent;
use lk_model::images::LOAD_BASE;
use lk_model::layouts::{Class, SectionKey, SectionRow};
use lk_report::NoMemory;
use std::alloc::Global;
use std::marker::Model;

/// A section's row, in bytes. Contracts see it as a `SectionRow` of lk_model.
#[derive(Drop)]
pub(crate) struct WideRow<'k> {
    key: &'k SectionKey,
    addr: u128,
    offset: u128,
    size: u128,
    room: u128,
    align: u64,
}

impl<'k> Model for WideRow<'k> {
    ghost use Rattle.lk_model.specs.declared.layouts.SectionRow.{SectionRow};

    ghost Value = { SectionRow };

    ghost view = { λ r. record { key = r.key.now; addr = r.addr; offset = r.offset; size = r.size; room = r.room; align = r.align } };
}

impl<'k> WideRow<'k> {
    /// The row of a section that is loaded at an address.
    pub(crate) fn loaded(address: u128, extent: &WideExtent<'k>) -> Self
        ensures { result ≡ loaded_row address extent.now }
    {
        WideRow {
            key: extent.key(),
            addr: address,
            offset: above(address, u128::from(LOAD_BASE)),
            size: extent.size(),
            room: extent.room(),
            align: extent.align(),
        }
    }

    /// The row of a section that is not loaded and is at an offset in the file.
    pub(crate) fn unloaded(offset: u128, extent: &WideExtent<'k>) -> Self
        ensures { result ≡ unloaded_row offset extent.now }
    {
        WideRow {
            key: extent.key(),
            addr: 0,
            offset,
            size: extent.size(),
            room: extent.room(),
            align: extent.align(),
        }
    }

    /// Its class.
    pub(crate) fn class(&self) -> Class
        ensures { result ≡ self.now.key.class }
    {
        self.key.class
    }

    /// The address.
    pub(crate) fn addr(&self) -> u128
        ensures { result ≡ self.now.addr }
    {
        self.addr
    }

    /// The offset in the file.
    pub(crate) fn offset(&self) -> u128
        ensures { result ≡ self.now.offset }
    {
        self.offset
    }

    /// The bytes that are reserved.
    pub(crate) fn room(&self) -> u128
        ensures { result ≡ self.now.room }
    {
        self.room
    }

    /// The row in fields of 64 bits; one that they do not hold is answered as out of memory.
    pub(crate) fn narrowed(&self, alloc: Global) -> Result<SectionRow, NoMemory>
        ensures { IfOk result (λ row. row ≡ self.now) }
    {
        Ok(SectionRow {
            key: self.key.copy(alloc)?,
            addr: narrow(self.addr)?,
            offset: narrow(self.offset)?,
            size: narrow(self.size)?,
            room: narrow(self.room)?,
            align: self.align,
        })
    }
}
