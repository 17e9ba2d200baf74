//! A placement with what the entries of symbol tables say of it: the sections and addresses of pieces, the addresses
//! of PLT entries, and where the thread-local block begins.

ghost use Rattle.std.specs.Prelude.{◌≡◌, IfOk, unwrap_or};
ghost use Rattle.std.specs.Option.{option_map};
ghost use Rattle.lk_model.specs.Keys.{piece_row_of, row_of};
ghost use Rattle.lk_model.specs.SymbolEntries.{home_header_number, piece_header_number, tabled_value};
ghost use Rattle.lk_model.specs.SymbolValues.{placed_address, plt_address};
ghost use Rattle.lk_dyn.specs.LowBits.{low_64};
ghost use Rattle.lk_dyn_tables.specs.NamedRows.{piece_of};
ghost use Rattle.lk_dyn_tables.specs.SymbolPlaces.{address_of_piece, address_of_section, entry_address, number_of_header};

use crate::named_rows::{NamedPiece, NamedRows, named_rows, row_at};
use lk_dyn::{NamePlaces, low_64, row_of};
use lk_elf::numbers::{SHN_ABS, SHN_UNDEF, STT_TLS};
use lk_headers::tls_start;
use lk_model::layouts::{Class, PieceId, PieceRow, Placement};
use lk_model::summaries::Home;
use lk_piece_rows::PieceRows;
use lk_report::NoMemory;
use std::alloc::Global;
use std::marker::Model;

/// A placement whose input sections are found by number, and its commons, copies and PLT entries by hash. Contracts
/// see it as the placement.
#[derive(Drop)]
pub(crate) struct SymbolPlaces<'a> {
    rows: PieceRows<'a>,
    /// The commons and copies.
    named: NamedRows,
    /// The names of the PLT entries.
    entries: NamePlaces<'a>,
    /// The address of `.plt`, if the link has one.
    plt: Option<u64>,
    /// The address at which the thread-local block begins.
    tls_start: u64,
}

impl<'a> Model for SymbolPlaces<'a> {
    ghost use Rattle.lk_model.specs.declared.layouts.Placement.{Placement};
    ghost use Rattle.lk_dyn_tables.specs.SymbolPlaces.{IsIndexed};

    ghost Value = { Placement };

    ghost view = { λ p. p.rows };

    ghost invariant = { λ p. IsIndexed p.named.entries p.entries p.plt p.tls_start p.rows };
}

/// The address of the section with a name and a class, if the placement has one.
fn section_address(place: &Placement, name: &[u8], class: Class) -> Option<u64>
    ensures { result ≡ option_map address_of_section (row_of place.now (record { name = name.now; class = class })) }
{
    match row_of(place, name, class) {
        None => None,
        Some(row) => Some(row.addr),
    }
}

/// The number of the section header of a piece with this row; header 0 is the null one.
fn number_of_header(row: Option<PieceRow>) -> u64
    ensures { result ≡ number_of_header row }
{
    match row {
        None => u64::from(SHN_UNDEF),
        Some(row) => u64::from(row.section) + 1,
    }
}

/// The address of a piece with this row; 0 without one.
fn address_of_piece(row: Option<PieceRow>) -> u64
    ensures { result ≡ address_of_piece row }
{
    match row {
        None => 0,
        Some(row) => row.addr,
    }
}

/// The low bits of the address of a PLT entry by its number, the first of which follows the entry that calls the
/// loader (psABI x86-64 "Procedure Linkage Table"); 0 without one.
fn entry_address(plt: Option<u64>, number: Option<usize>) -> u64
    ensures { result ≡ low_64 (entry_address plt number) }
{
    match number {
        None => 0,
        Some(number) => match plt {
            None => 0,
            Some(plt) => low_64(u128::from(plt) + 16 * (number as u128 + 1)),
        },
    }
}

impl<'a> SymbolPlaces<'a> {
    /// The tables of a placement.
    ///
    /// # Errors
    /// Out of memory.
    pub(crate) fn new(alloc: Global, place: &'a Placement) -> Result<Self, NoMemory>
        ensures { IfOk result (λ places. places ≡ place.now) }
    {
        let rows = PieceRows::of(alloc, place)?;
        let named = named_rows(alloc, place.pieces.as_slice())?;
        let entries = NamePlaces::new(alloc, place.slots.plt.as_slice())?;
        let plt = section_address(place, b".plt", Class::X);
        let tls_start = tls_start(place);
        Ok(SymbolPlaces {
            rows,
            named,
            entries,
            plt,
            tls_start,
        })
    }

    /// The row of a common or a copy.
    fn named_row(&self, key: NamedPiece) -> Option<PieceRow>
        ensures { result ≡ piece_row_of self.now (piece_of key) }
    {
        row_at(&self.named, key)
    }

    /// The row of a piece.
    fn row(&self, piece: PieceId) -> Option<PieceRow>
        ensures { result ≡ piece_row_of self.now piece }
    {
        match piece {
            PieceId::Section { input, section } => self.rows.row(u64::from(input), section),
            PieceId::Common { name } => self.named_row(NamedPiece::Common { name }),
            PieceId::Copy { name } => self.named_row(NamedPiece::Copy { name }),
        }
    }

    /// The number of the section header of a piece's output section (gABI "Symbol Table", st_shndx).
    pub(crate) fn header_number(&self, piece: PieceId) -> u64
        ensures { result ≡ piece_header_number self.now piece }
    {
        number_of_header(self.row(piece))
    }

    /// The address of a piece; 0 for one that is not placed.
    pub(crate) fn address(&self, piece: PieceId) -> u64
        ensures { result ≡ placed_address self.now piece }
    {
        address_of_piece(self.row(piece))
    }

    /// The section number of a definition of an input (gABI "Symbol Table", st_shndx).
    pub(crate) fn home_number(&self, input: u32, home: Home) -> u64
        ensures { result ≡ home_header_number self.now input home }
    {
        match home {
            Home::Section(section) => self.header_number(PieceId::Section { input, section }),
            Home::Absolute => u64::from(SHN_ABS),
            Home::Undefined | Home::Common | Home::Shared => u64::from(SHN_UNDEF),
        }
    }

    /// The value in an entry of a symbol of this type and address: that of a thread-local symbol counts from the
    /// beginning of its block (gABI "Thread-Local Storage").
    pub(crate) fn tabled_value(&self, code: u32, address: u64) -> u64
        ensures { result ≡ tabled_value self.now code address }
    {
        if code == u32::from(STT_TLS) {
            address.wrapping_sub(self.tls_start)
        } else {
            address
        }
    }

    /// The low bits of the address of the PLT entry of a name; 0 for a name without one.
    pub(crate) fn plt_address(&self, name: u32) -> u64
        ensures { result ≡ low_64 (unwrap_or (plt_address self.now name) 0) }
    {
        entry_address(self.plt, self.entries.place(name))
    }
}
