//! A placement with its rows by number and its slots by hash: where pieces, PLT entries and GOT slots are.

ghost use Rattle.std.specs.Prelude.{◌≡◌, IfOk};
ghost use Rattle.std.specs.Option.{option_map};
ghost use Rattle.lk_model.specs.Keys.{piece_row_of, slot_number};
ghost use Rattle.lk_model.specs.Segments.{tls_end, tls_start};
ghost use Rattle.lk_model.specs.declared.layouts.PieceId.{PieceId};
ghost use Rattle.lk_model.specs.SymbolValues.{got_address, home_value, import_value, is_placed_home, placed_address, plt_address, section_address, slot_address};
ghost use Rattle.lk_symbol_values.specs.Addresses.{address_of_piece, entry_address, or_zero, slot_at, tables_of};
ghost use Rattle.lk_symbol_values.specs.PieceAddresses.{piece_of};
ghost use Rattle.lk_symbol_values.specs.Sections.{low_64};

use crate::piece_addresses::{PieceAddresses, PieceKey, address_of, piece_addresses};
use crate::sections::{low_64, section_start};
use crate::slot_numbers::{
    EntryNumbers, SlotNumbers, entry_numbers, entry_of, number_of, slot_numbers,
};
use lk_headers::{tls_end, tls_start};
use lk_model::layouts::{Class, GotKey, Placement};
use lk_model::summaries::Home;
use lk_piece_rows::PieceRows;
use lk_report::NoMemory;
use std::alloc::Global;
use std::marker::Model;

/// Where the tables are that references go through, and the thread-local block.
#[derive(Clone, Copy)]
pub(crate) struct Tables {
    /// The address of `.got`, if the link has one.
    got: Option<u64>,
    /// The address of `.got.plt`; 0 without one.
    got_plt: u64,
    /// The address of `.plt`, if the link has one.
    plt: Option<u64>,
    /// The address at which the thread-local block begins.
    tls_start: u64,
    /// The low bits of the address at which it ends.
    tls_end: u64,
}

/// A placement whose input sections are found by number, and its other pieces, slots and entries by hash. Contracts
/// see it as the placement.
#[derive(Drop)]
pub(crate) struct Addresses<'a> {
    rows: PieceRows<'a>,
    /// The commons and copies.
    pieces: PieceAddresses,
    /// The slots that hold values.
    values: SlotNumbers,
    /// The slots that hold thread offsets.
    threads: SlotNumbers,
    entries: EntryNumbers,
    tables: Tables,
}

impl<'a> Model for Addresses<'a> {
    ghost use Rattle.lk_model.specs.declared.layouts.Placement.{Placement};
    ghost use Rattle.lk_symbol_values.specs.Addresses.{IsIndexed};

    ghost Value = { Placement };

    ghost view = { λ a. a.rows };

    ghost invariant = { λ a. IsIndexed a.pieces.entries a.values.entries a.threads.entries a.entries.entries a.tables a.rows };
}

/// The address of a section; 0 without one.
fn or_zero(address: Option<u64>) -> u64
    ensures { result ≡ or_zero address }
{
    match address {
        None => 0,
        Some(address) => address,
    }
}

/// Where the tables of a placement are.
fn tables_of(place: &Placement) -> Tables
    ensures { result ≡ tables_of place.now }
{
    Tables {
        got: section_start(place, b".got", Class::W),
        got_plt: or_zero(section_start(place, b".got.plt", Class::W)),
        plt: section_start(place, b".plt", Class::X),
        tls_start: tls_start(place),
        tls_end: low_64(tls_end(place)),
    }
}

impl<'a> Addresses<'a> {
    /// The tables of a placement.
    ///
    /// # Errors
    /// Out of memory.
    pub(crate) fn new(alloc: Global, place: &'a Placement) -> Result<Self, NoMemory>
        ensures { IfOk result (λ addresses. addresses ≡ place.now) }
    {
        let rows = PieceRows::of(alloc, place)?;
        let pieces = piece_addresses(alloc, place.pieces.as_slice())?;
        let values = slot_numbers(alloc, false, place.slots.got.as_slice())?;
        let threads = slot_numbers(alloc, true, place.slots.got.as_slice())?;
        let entries = entry_numbers(alloc, place.slots.plt.as_slice())?;
        let tables = tables_of(place);
        Ok(Addresses {
            rows,
            pieces,
            values,
            threads,
            entries,
            tables,
        })
    }

    /// The placement.
    pub(crate) fn placement(&self) -> &Placement
        ensures { result.now ≡ self.now }
    {
        self.rows.placement()
    }

    /// The address of a section of an input; none for one that is not placed.
    pub(crate) fn section(&self, input: u32, section: u32) -> Option<u64>
        ensures { result ≡ option_map address_of_piece (piece_row_of self.now (PieceId.Section input section)) }
    {
        match self.rows.row(u64::from(input), section) {
            None => None,
            Some(row) => Some(row.addr),
        }
    }

    /// The address of a common block or of a copy; none for one that is not placed.
    fn named(&self, key: PieceKey) -> Option<u64>
        ensures { result ≡ option_map address_of_piece (piece_row_of self.now (piece_of key)) }
    {
        address_of(&self.pieces, key)
    }

    /// The address of a common block or of a copy; 0 where it is not placed.
    pub(crate) fn placed_address(&self, key: PieceKey) -> u64
        ensures { result ≡ placed_address self.now (piece_of key) }
    {
        or_zero(self.named(key))
    }

    /// The address of an offset in a section of an input; 0 where the section is no kept piece.
    pub(crate) fn section_address(&self, input: u32, section: u32, offset: u64) -> u64
        ensures { result ≡ section_address self.now input section offset }
    {
        match self.section(input, section) {
            None => 0,
            Some(address) => address.wrapping_add(offset),
        }
    }

    /// The value of a definition: an address in its section, or an absolute value.
    pub(crate) fn home_value(&self, input: u32, home: Home, value: u64) -> u64
        ensures { result ≡ home_value self.now input home value }
    {
        match home {
            Home::Section(section) => self.section_address(input, section, value),
            Home::Absolute => value,
            Home::Undefined | Home::Common | Home::Shared => 0,
        }
    }

    /// Whether a definition has a place in the image.
    pub(crate) fn is_placed_home(&self, input: u32, home: Home) -> bool
        ensures { result ≡ is_placed_home self.now input home }
    {
        match home {
            Home::Section(section) => self.section(input, section).is_some(),
            Home::Undefined | Home::Absolute | Home::Common | Home::Shared => false,
        }
    }

    /// The low bits of the address of the PLT entry of a name, where it has one.
    pub(crate) fn plt_address(&self, name: u32) -> Option<u64>
        ensures { result ≡ option_map low_64 (plt_address self.now name) }
    {
        entry_address(self.tables.plt, entry_of(&self.entries, name))
    }

    /// The low bits of the value of an import: its copy, else its PLT entry, else 0.
    pub(crate) fn import_value(&self, name: u32) -> u64
        ensures { result ≡ low_64 (import_value self.now name) }
    {
        match self.named(PieceKey::Copy { name }) {
            Some(address) => address,
            None => or_zero(self.plt_address(name)),
        }
    }

    /// The number of the GOT slot of a key.
    fn slot_number(&self, key: GotKey) -> Option<usize>
        ensures { result ≡ slot_number self.now key }
    {
        if key.thread {
            number_of(&self.threads, key.owner)
        } else {
            number_of(&self.values, key.owner)
        }
    }

    /// The low bits of the address of a GOT slot; 0 without one.
    pub(crate) fn slot_address(&self, key: GotKey) -> u64
        ensures { result ≡ low_64 (slot_address self.now key) }
    {
        slot_at(self.tables.got, self.slot_number(key))
    }

    /// The address of the GOT, which is that of `.got.plt`.
    pub(crate) fn got_address(&self) -> u64
        ensures { result ≡ got_address self.now }
    {
        self.tables.got_plt
    }

    /// Where the thread-local block begins.
    pub(crate) fn tls_start(&self) -> u64
        ensures { result ≡ tls_start self.now }
    {
        self.tables.tls_start
    }

    /// The low bits of where the thread-local block ends.
    pub(crate) fn tls_end(&self) -> u64
        ensures { result ≡ low_64 (tls_end self.now) }
    {
        self.tables.tls_end
    }
}

/// The low bits of the address of a PLT entry by its number, the first of which follows the entry that calls
/// the loader (psABI "Procedure Linkage Table").
fn entry_address(plt: Option<u64>, number: Option<usize>) -> Option<u64>
    ensures { result ≡ entry_address plt number }
{
    match number {
        None => None,
        Some(number) => match plt {
            None => None,
            Some(plt) => Some(low_64(u128::from(plt) + 16 * (number as u128 + 1))),
        },
    }
}

/// The low bits of the address of a GOT slot by its number.
fn slot_at(got: Option<u64>, number: Option<usize>) -> u64
    ensures { result ≡ slot_at got number }
{
    match number {
        None => 0,
        Some(number) => match got {
            None => 0,
            Some(got) => low_64(u128::from(got) + 8 * number as u128),
        },
    }
}
