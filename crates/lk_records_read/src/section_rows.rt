//! The output sections of an image (`.gnu_incremental_inputs`; gABI "Sections").

ghost use Rattle.std.specs.Prelude.{◌≡◌, ◌≤◌, List, [], length, IfOk};
ghost use Rattle.lk_elf.specs.Fields.{num};
ghost use Rattle.lk_model.specs.InputsReading.{class_of_number};
ghost use Rattle.lk_model.specs.RecordReaders.{read_among};
ghost use Rattle.lk_model.specs.RecordRefusals.{ends_in_bounds, has_place_in_file};
ghost use Rattle.lk_model.specs.declared.layouts.SectionRow.{SectionRow};
ghost use Rattle.lk_records_read.specs.ReadAnswers.{ReadGives};
ghost use Rattle.lk_records_read.specs.RowsNoted.{AreRowsNoted, RowPassed, RowRead, is_row, read_row, row_in, row_named};

use crate::counts::SECTION_SIZE;
use crate::cursors::Cursor;
use crate::fields::{u32_at, u64_at};
use crate::lists::with_room;
use crate::powers::is_field_power;
use crate::refusals::Refusal;
use crate::rows_noted::{RowsNoted, no_rows, note_row};
use crate::section_keys::reserved_of;
use crate::texts::text_at;
use lk_model::classes::in_file;
use lk_model::layouts::{Class, SectionKey, SectionRow, SectionRowList};
use lk_report::{Bytes, Name, NoMemory};
use std::alloc::Global;

/// The first place in the file where a room may be: what is before it are the headers and the seal.
const FIRST_OFFSET: u64 = 4096;

/// A class by its number; none for a number of no class.
#[tactic(auto, using(std::proofs::lemmas::Option::slice_get_past))]
pub(crate) fn class_of_number(n: u32) -> Option<Class>
    ensures { result ≡ class_of_number n }
{
    match n {
        0 => Some(Class::R),
        1 => Some(Class::X),
        2 => Some(Class::W),
        3 => Some(Class::WX),
        4 => Some(Class::Tdata),
        5 => Some(Class::Tbss),
        6 => Some(Class::Bss),
        7 => Some(Class::N),
        _ => None,
    }
}

/// Whether the end of a room is a number that a field holds.
fn ends_in_bounds(start: u64, room: u64) -> bool
    ensures { result ≡ ends_in_bounds start room }
{
    start.checked_add(room).is_some()
}

/// Whether a row's room has a place in the file, where it has one at all.
fn has_place_in_file(row: &SectionRow) -> bool
    ensures { result ≡ has_place_in_file row.now }
{
    !in_file(row.key.class) || (FIRST_OFFSET <= row.offset && ends_in_bounds(row.offset, row.room))
}

/// Whether an output section may be at all, beside others or not.
#[tactic(auto, unfolding(crate::specs::RowsNoted::is_row))]
fn is_row(row: &SectionRow) -> bool
    ensures { result ≡ is_row row.now }
{
    is_field_power(row.align)
        && row.size <= row.room
        && reserved_of(&row.key) <= row.room
        && ends_in_bounds(row.addr, row.room)
        && has_place_in_file(row)
}

/// A row by its name and its record; none where its class is none.
fn row_named(name: Name, bytes: &[u8]) -> Option<SectionRow>
    requires { 48 ≤ length bytes.now }
    ensures { result ≡ row_named name bytes.now }
{
    match class_of_number(u32_at(bytes, 4)) {
        None => None,
        Some(class) => Some(SectionRow {
            key: SectionKey { name, class },
            addr: u64_at(bytes, 8),
            offset: u64_at(bytes, 16),
            size: u64_at(bytes, 24),
            room: u64_at(bytes, 32),
            align: u64_at(bytes, 40),
        }),
    }
}

/// A row by its record; none where its name is no text or its class is none.
///
/// # Errors
/// Out of memory.
#[tactic(auto, using(crate::proofs::RowsRead::row_unnamed, crate::proofs::RowsRead::row_with_name))]
fn row_in(strtab: &Bytes, bytes: &[u8]) -> Result<Option<SectionRow>, NoMemory>
    requires { 48 ≤ length bytes.now }
    ensures { IfOk result (λ row. row ≡ row_in strtab.now bytes.now) }
{
    let found = text_at(strtab, u32_at(bytes, 0))?;
    match found {
        None => Ok(None),
        Some(name) => Ok(row_named(name, bytes)),
    }
}

/// Whether a row may follow those that are noted; it is noted then.
///
/// # Errors
/// Out of memory.
fn pass_row(alloc: Global, noted: &mut RowsNoted, row: &SectionRow) -> Result<bool, NoMemory>
    ensures { (before : List SectionRow) → AreRowsNoted noted.old.keys.keys noted.old.addresses noted.old.offsets before → RowPassed before row.now result noted.new.keys.keys noted.new.addresses noted.new.offsets }
{
    if !is_row(row) {
        return Ok(false);
    }
    note_row(alloc, noted, row)
}

/// The next row, after those that are noted.
///
/// # Errors
/// A refused record, or a row that may not follow these; out of memory.
fn read_row(
    alloc: Global,
    noted: &mut RowsNoted,
    strtab: &Bytes,
    cursor: &mut Cursor<'_>,
) -> Result<SectionRow, Refusal>
    ensures { (before : List SectionRow) → AreRowsNoted noted.old.keys.keys noted.old.addresses noted.old.offsets before → ReadGives (read_row strtab.now before cursor.old) result cursor.new × RowRead before result noted.new.keys.keys noted.new.addresses noted.new.offsets }
{
    let bytes = cursor.take(SECTION_SIZE)?;
    let found = row_in(strtab, bytes)?;
    let Some(row) = found else {
        return Err(Refusal::Bad { left: bytes.len() });
    };
    if !pass_row(alloc, noted, &row)? {
        return Err(Refusal::Bad { left: bytes.len() });
    }
    Ok(row)
}

/// So many rows.
///
/// # Errors
/// The first that is refused; out of memory.
pub(crate) fn rows_of(
    alloc: Global,
    strtab: &Bytes,
    cursor: &mut Cursor<'_>,
    count: usize,
) -> Result<SectionRowList, Refusal>
    ensures { ReadGives (read_among (read_row strtab.now) [] count cursor.old) result cursor.new }
{
    let mut noted = no_rows(alloc);
    let mut rows = with_room(alloc, count)?;
    for k in 0..count {
        let row = read_row(alloc, &mut noted, strtab, cursor)?;
        rows.push(row)?;
    }
    Ok(rows)
}
