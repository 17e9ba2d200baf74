//! The number of the row of each placed section, by the section's index in the dense list.

ghost use Rattle.std.specs.Prelude.{◌≡◌, ℕ, ◌+◌, ◌≤◌, cond, length, set, IfOk};
ghost use Rattle.lk_model.specs.Keys.{same_piece};
ghost use Rattle.lk_model.specs.declared.layouts.PieceId.{PieceId};
ghost use Rattle.lk_piece_rows.specs.RowNumbers.{AreConsecutive, Fit, Reach, count_in, number_in, row_among, row_numbered, sections_with};

use crate::section_ranges::{SectionRange, index_in};
use lk_model::layouts::{PieceId, PieceRow};
use lk_report::NoMemory;
use std::alloc::Global;

/// Puts a number at an index, where the list has it.
#[tactic(auto, using(std::proofs::lemmas::List::set_past))]
fn set_number(numbers: &mut [usize], index: usize, number: usize)
    ensures { numbers.new ≡ set numbers.old index number }
{
    if index < numbers.len() {
        numbers[index] = number;
    }
}

/// Puts the number of the row of a piece, counted from 1, at the index of the section that the piece is; commons and
/// copies have none.
fn note_row(numbers: &mut [usize], ranges: &[SectionRange], number: usize, piece: PieceId)
    requires fit { Fit ranges.now }
    requires laid { AreConsecutive 0 ranges.now (length numbers.old) }
    requires counted { (n : ℕ) → sections_with piece n ≤ count_in ranges.now n }
    ensures numbers { (input section : ℕ) → number_in ranges.now numbers.new input section ≡ cond (same_piece piece (PieceId.Section input section)) number (number_in ranges.now numbers.old input section) }
    ensures length { length numbers.new ≡ length numbers.old }
{
    let PieceId::Section { input, section } = piece else {
        return;
    };
    if let Some(index) = index_in(ranges, input as u64, section) {
        set_number(numbers, index, number);
    }
}

/// Puts the number of each of these rows at the index of its section, from the last row on, so that the first row of a
/// section stays.
fn note_rows(numbers: &mut [usize], ranges: &[SectionRange], rows: &[PieceRow])
    requires fit { Fit ranges.now }
    requires laid { AreConsecutive 0 ranges.now (length numbers.old) }
    requires counted { Reach ranges.now rows.now }
    requires none { (input section : ℕ) → number_in ranges.now numbers.old input section ≡ 0 }
    ensures { (input section : ℕ) → row_numbered rows.now (number_in ranges.now numbers.new input section) ≡ row_among rows.now input section }
{
    for number in (0..rows.len()).rev() {
        note_row(numbers, ranges, number + 1, rows[number].piece);
    }
}

/// The number of the row of each section, counted from 1, by the section's index; 0 for a section without a row. Of
/// several rows of one section the first counts.
pub(crate) fn row_numbers(
    alloc: Global,
    ranges: &[SectionRange],
    end: usize,
    rows: &[PieceRow],
) -> Result<Vec<usize>, NoMemory>
    requires fit { Fit ranges.now }
    requires laid { AreConsecutive 0 ranges.now end }
    requires counted { Reach ranges.now rows.now }
    ensures { IfOk result (λ numbers. (input section : ℕ) → row_numbered rows.now (number_in ranges.now numbers.items input section) ≡ row_among rows.now input section) }
{
    let Ok(mut numbers) = Vec::from_elem(alloc, 0, end) else {
        return Err(NoMemory);
    };
    note_rows(&mut numbers, ranges, rows);
    Ok(numbers)
}
