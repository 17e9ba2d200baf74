//! The text of where a link puts everything.

ghost use Rattle.std.specs.Prelude.{◌≡◌, ◌++◌, IfOk, OnOk, Some};
ghost use Rattle.lk_report.specs.FileMap.{FileMap};
ghost use Rattle.lk_inputs.specs.FileAnswers.{StatusCounts, known_map};
ghost use Rattle.lk_probe.specs.Rows.{ReportsPlaces, class_text, field_text, fields_text, key_text, placement_text, row_line};
ghost use Rattle.std.specs.Prelude.{flat_map};

use crate::laying::lay_out;
use crate::writing::{put, put_hex, put_number};
use lk_model::layouts::{Class, Placement, SectionKey, SectionRow};
use lk_outside::Files;
use lk_report::{Bytes, NameList, NoMemory, Status};
use std::alloc::Global;

/// How a class is said.
fn class_text(class: Class) -> &'static [u8]
    ensures { result.now ≡ class_text class }
{
    match class {
        Class::R => b"R",
        Class::X => b"X",
        Class::W => b"W",
        Class::WX => b"WX",
        Class::Tdata => b"Tdata",
        Class::Tbss => b"Tbss",
        Class::Bss => b"Bss",
        Class::N => b"N",
    }
}

/// Puts the name and the class of an output section.
fn put_key(text: &mut Vec<u8>, key: &SectionKey) -> Result<(), NoMemory>
    ensures { OnOk result (text.new.items ≡ text.old.items ++ key_text key.now) }
{
    put(text, key.name.as_slice())?;
    put(text, b" ")?;
    put(text, class_text(key.class))
}

/// Puts a number after a space.
pub fn put_field(alloc: Global, text: &mut Vec<u8>, number: u64) -> Result<(), NoMemory>
    ensures { OnOk result (text.new.items ≡ text.old.items ++ field_text number) }
{
    put(text, b" ")?;
    put_hex(alloc, text, number)
}

/// Puts its address, offset, size, room and alignment.
fn put_fields(alloc: Global, text: &mut Vec<u8>, row: &SectionRow) -> Result<(), NoMemory>
    ensures { OnOk result (text.new.items ≡ text.old.items ++ fields_text row.now) }
{
    put_field(alloc, text, row.addr)?;
    put_field(alloc, text, row.offset)?;
    put_field(alloc, text, row.size)?;
    put_field(alloc, text, row.room)?;
    put_field(alloc, text, row.align)
}

/// Puts the line of an output section.
fn put_row(alloc: Global, text: &mut Vec<u8>, row: &SectionRow) -> Result<(), NoMemory>
    ensures { OnOk result (text.new.items ≡ text.old.items ++ row_line row.now) }
{
    put_key(text, &row.key)?;
    put_fields(alloc, text, row)?;
    put(text, b"\n")
}

/// Puts the lines of output sections, in order.
fn put_rows(alloc: Global, text: &mut Vec<u8>, rows: &[SectionRow]) -> Result<(), NoMemory>
    ensures { OnOk result (text.new.items ≡ text.old.items ++ flat_map row_line rows.now) }
{
    for row in rows {
        put_row(alloc, text, row)?;
    }
    Ok(())
}

/// What is said of a placement: a line for each output section, then the numbers of output sections and pieces.
fn text_of(alloc: Global, placement: &Placement) -> Result<Bytes, NoMemory>
    ensures { IfOk result (λ text. text ≡ placement_text placement.now) }
{
    let mut text = Vec::new(alloc);
    put_rows(alloc, &mut text, placement.sections.as_slice())?;
    put_number(alloc, &mut text, placement.sections.as_slice().len())?;
    put(&mut text, b" sections, ")?;
    put_number(alloc, &mut text, placement.pieces.as_slice().len())?;
    put(&mut text, b" pieces\n")?;
    Bytes::from_vec(text)
}

/// What is said of where a link of these words puts everything, or the status that is reported in its place.
///
/// # Errors
/// Those of `lay_out`.
pub fn places_reported<F: Files>(
    alloc: Global,
    words: &NameList,
    files: &mut F,
) -> Result<Bytes, Status>
    ensures reported { (there : FileMap) → known_map (F.state files.old) ≡ Some there → ReportsPlaces words.now there result }
    ensures faults { StatusCounts (F.state files.old) result (F.state files.new) }
{
    let placement = lay_out(alloc, words, files)?;
    match text_of(alloc, &placement) {
        Ok(text) => Ok(text),
        Err(NoMemory) => Err(Status::NoMemory),
    }
}
