//! A placement with the rows of its input sections by number.

ghost use Rattle.std.specs.Prelude.{◌≡◌, ℕ, IfOk};
ghost use Rattle.lk_model.specs.Keys.{piece_row_of};
ghost use Rattle.lk_piece_rows.specs.RowNumbers.{Fit, number_at, number_in, row_among, row_numbered};

use crate::numbering::row_numbers;
use crate::section_counts::section_counts;
use crate::section_ranges::{SectionRange, SectionRanges, index_in, section_ranges};
use lk_model::layouts::{PieceId, PieceRow, Placement};
use lk_report::NoMemory;
use std::alloc::Global;
use std::marker::Model;

/// A placement whose input sections are found by number. Contracts see it as the placement.
#[derive(Drop)]
pub struct PieceRows<'a> {
    placement: &'a Placement,
    /// The sections of each input in the dense list.
    ranges: Vec<SectionRange>,
    /// The number of the row of each section, counted from 1; 0 for a section without a row.
    numbers: Vec<usize>,
}

impl<'a> Model for PieceRows<'a> {
    ghost use Rattle.lk_model.specs.declared.layouts.Placement.{Placement};
    ghost use Rattle.lk_piece_rows.specs.RowNumbers.{AreRowsOf};

    ghost Value = { Placement };

    ghost view = { λ r. r.placement.now };

    ghost invariant = { λ r. AreRowsOf r.ranges.items r.numbers.items r.placement.now };
}

/// The number at an index; 0 without an index.
fn number_at(numbers: &[usize], index: Option<usize>) -> usize
    ensures { result ≡ number_at numbers.now index }
{
    match index {
        None => 0,
        Some(index) => numbers.get(index).copied().unwrap_or(0),
    }
}

/// The row with a number, counted from 1; none for 0.
fn row_numbered(rows: &[PieceRow], number: usize) -> Option<PieceRow>
    ensures { result ≡ row_numbered rows.now number }
{
    if number == 0 {
        return None;
    }
    rows.get(number - 1).copied()
}

/// The dense list of the sections that rows place.
#[derive(Drop)]
struct SectionTable {
    ranges: Vec<SectionRange>,
    numbers: Vec<usize>,
}

/// The dense list of the sections that these rows place.
fn section_table(alloc: Global, rows: &[PieceRow]) -> Result<SectionTable, NoMemory>
    ensures fit { IfOk result (λ table. Fit table.ranges.items) }
    ensures found { IfOk result (λ table. (input section : ℕ) → row_numbered rows.now (number_in table.ranges.items table.numbers.items input section) ≡ row_among rows.now input section) }
{
    let counts = section_counts(alloc, rows)?;
    let SectionRanges { ranges, end } = section_ranges(alloc, &counts)?;
    let numbers = row_numbers(alloc, &ranges, end, rows)?;
    Ok(SectionTable { ranges, numbers })
}

impl<'a> PieceRows<'a> {
    /// A placement with its input sections by number.
    ///
    /// # Errors
    /// Out of memory.
    pub fn of(alloc: Global, placement: &'a Placement) -> Result<Self, NoMemory>
        ensures { IfOk result (λ rows. rows ≡ placement.now) }
    {
        let SectionTable { ranges, numbers } = section_table(alloc, placement.pieces.as_slice())?;
        Ok(PieceRows {
            placement,
            ranges,
            numbers,
        })
    }

    /// The placement.
    pub fn placement(&self) -> &'a Placement
        ensures { result.now ≡ self.now }
    {
        self.placement
    }

    /// The row of a section of an input; none for a section that is not placed.
    pub fn row(&self, input: u64, section: u32) -> Option<PieceRow>
        ensures { result ≡ piece_row_of self.now (PieceId.Section input section) }
    {
        let index = index_in(&self.ranges, input, section);
        let number = number_at(&self.numbers, index);
        row_numbered(self.placement.pieces.as_slice(), number)
    }
}
