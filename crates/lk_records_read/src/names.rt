//! The names of an image (`.gnu_incremental_symtab`): each with its first reference, the kind of its winner and
//! the winner's input.

ghost use Rattle.std.specs.Prelude.{◌≡◌, ◌≤◌, [], length, IfOk};
ghost use Rattle.lk_elf.specs.Fields.{num};
ghost use Rattle.lk_model.specs.NamesReading.{is_of_input, name_with, names_read, winner_input_with};
ghost use Rattle.lk_model.specs.RecordsReading.{in_section};
ghost use Rattle.lk_records_read.specs.NameRecords.{name_in, names_among, read_name};
ghost use Rattle.lk_records_read.specs.ReadAnswers.{ReadGives, ReadGivesWhole, RecordsGive};

use crate::cursors::Cursor;
use crate::fields::u32_at;
use crate::lists::with_room;
use crate::refusals::Refusal;
use crate::section_faults::fault_in;
use crate::texts::text_at;
use lk_model::records::{NameRow, NameRowList, RecordFault};
use lk_report::{Bytes, Name, NoMemory};
use std::alloc::Global;

/// The width of a name's record, in bytes.
const NAME_SIZE: usize = 16;
/// The section's number among the five.
const SYMTAB: u32 = 1;
/// The greatest kind of a winner: an import.
const LAST_WINNER: u32 = 5;

/// How many inputs and references the names of an image may speak of.
#[derive(Clone, Copy)]
pub struct NameCounts {
    pub inputs: usize,
    pub references: usize,
}

/// Whether a winner of this kind is a symbol of an input: a strong or a weak definition, or an import.
fn is_of_input(winner: u32) -> bool
    ensures { result ≡ is_of_input winner }
{
    winner == 1 || winner == 3 || winner == 5
}

/// The winner's input by its number plus 1, which is 0 where the kind of winner has none; none where it is refused.
#[tactic(auto, using(crate::proofs::NameRows::input_absent, crate::proofs::NameRows::input_past, crate::proofs::NameRows::input_there))]
fn winner_input(inputs: usize, winner: u32, recorded: u32) -> Option<Option<u32>>
    ensures { result ≡ winner_input_with inputs winner recorded }
{
    if !is_of_input(winner) {
        return if recorded == 0 { Some(None) } else { None };
    }
    if recorded == 0 {
        return None;
    }
    if recorded as usize > inputs {
        return None;
    }
    Some(Some(recorded - 1))
}

/// A name by its text and its record; none where a number of it is refused.
fn name_with(counts: &NameCounts, name: Name, bytes: &[u8]) -> Option<NameRow>
    requires { 16 ≤ length bytes.now }
    ensures { result ≡ name_with counts.now.inputs counts.now.references (name, (num bytes.now 4 4, (num bytes.now 8 4, (num bytes.now 12 4, tt)))) }
{
    let winner = u32_at(bytes, 8);
    if winner > LAST_WINNER {
        return None;
    }
    if u32_at(bytes, 4) as usize > counts.references {
        return None;
    }
    match winner_input(counts.inputs, winner, u32_at(bytes, 12)) {
        None => None,
        Some(input) => Some(NameRow {
            name,
            winner,
            input,
        }),
    }
}

/// A name by its record; none where it is refused.
///
/// # Errors
/// Out of memory.
#[tactic(auto, using(crate::proofs::NameRows::name_unnamed, crate::proofs::NameRows::name_named))]
fn name_in(counts: &NameCounts, strtab: &Bytes, bytes: &[u8]) -> Result<Option<NameRow>, NoMemory>
    requires { 16 ≤ length bytes.now }
    ensures { IfOk result (λ row. row ≡ name_in strtab.now counts.now.inputs counts.now.references bytes.now) }
{
    let found = text_at(strtab, u32_at(bytes, 0))?;
    match found {
        None => Ok(None),
        Some(name) => Ok(name_with(counts, name, bytes)),
    }
}

/// The next name.
///
/// # Errors
/// A refused record; out of memory.
#[tactic(auto, using(crate::proofs::NameRows::name_short, crate::proofs::NameRows::name_bad, crate::proofs::NameRows::name_good))]
fn read_name(
    counts: &NameCounts,
    strtab: &Bytes,
    cursor: &mut Cursor<'_>,
) -> Result<NameRow, Refusal>
    ensures { ReadGives (read_name strtab.now counts.now.inputs counts.now.references cursor.old) result cursor.new }
{
    let bytes = cursor.take(NAME_SIZE)?;
    let found = name_in(counts, strtab, bytes)?;
    match found {
        None => Err(Refusal::Bad { left: bytes.len() }),
        Some(row) => Ok(row),
    }
}

/// So many names.
///
/// # Errors
/// The first refused record; out of memory.
#[tactic(auto, using(crate::proofs::NameRows::names_next, crate::proofs::NameRows::names_done))]
fn names_of(
    alloc: Global,
    counts: &NameCounts,
    strtab: &Bytes,
    cursor: &mut Cursor<'_>,
    count: usize,
) -> Result<NameRowList, Refusal>
    ensures { ReadGives (names_among strtab.now counts.now.inputs counts.now.references [] count cursor.old) result cursor.new }
{
    let mut names = with_room(alloc, count)?;
    for k in 0..count {
        let row = read_name(counts, strtab, cursor)?;
        names.push(row)?;
    }
    Ok(names)
}

/// The names of a section, as many as it has whole records.
///
/// # Errors
/// The first bad place, by the number of bytes that are left; out of memory.
#[tactic(auto, using(crate::proofs::NameRows::names_stop, crate::proofs::NameRows::names_left, crate::proofs::NameRows::names_whole))]
fn names_in(
    alloc: Global,
    counts: &NameCounts,
    strtab: &Bytes,
    symtab: &[u8],
) -> Result<NameRowList, Refusal>
    ensures { ReadGivesWhole (names_read strtab.now counts.now.inputs counts.now.references symtab.now) result }
{
    let mut cursor = Cursor::new(symtab);
    let names = names_of(alloc, counts, strtab, &mut cursor, symtab.len() / NAME_SIZE)?;
    cursor.finish()?;
    Ok(names)
}

/// The names of an image with so many inputs and references (`.gnu_incremental_symtab`), whose texts are in this
/// section of texts, which they share. Time is linear.
///
/// # Errors
/// The first record that is refused, or the first byte left over, as a bad place of section 1; out of memory.
pub fn read_names(
    alloc: Global,
    counts: &NameCounts,
    strtab: &Bytes,
    symtab: &[u8],
) -> Result<NameRowList, RecordFault>
    ensures { RecordsGive (in_section 1 symtab.now (names_read strtab.now counts.now.inputs counts.now.references symtab.now)) result }
{
    match names_in(alloc, counts, strtab, symtab) {
        Ok(names) => Ok(names),
        Err(refusal) => Err(fault_in(SYMTAB, symtab, refusal)),
    }
}
