//! The section headers that end an image.

ghost use Rattle.std.specs.Prelude.{◌≡◌, ◌++◌, fold, map, IfOk, OnOk};
ghost use Rattle.lk_model.specs.Tail.{row_name};
ghost use Rattle.lk_model.specs.Texts.{with_text};
ghost use Rattle.lk_headers.specs.SectionTable.{names_of, section_table_bytes};

use crate::appending::put_section_header;
use crate::links::links_of;
use crate::section_rows::{null_header, put_parts, put_rows};
use lk_elf::numbers::SHDR_SIZE;
use lk_model::layouts::{Placement, SectionRow, SectionRowList};
use lk_report::{Bytes, NoMemory};
use lk_string_table::StringTable;
use std::alloc::Global;

/// Notes the names of rows.
fn note_names<'a>(names: &mut StringTable<'a>, rows: &'a [SectionRow]) -> Result<(), NoMemory>
    ensures { OnOk result (names.new ≡ fold with_text names.old (map row_name rows.now)) }
{
    for row in rows {
        names.note(row.key.name.as_slice())?;
    }
    Ok(())
}

/// The string table of the names of all sections, in header order.
#[tactic(auto, using(crate::proofs::SectionsPut::both_noted))]
fn names_of<'a>(
    alloc: Global,
    place: &'a Placement,
    tail: &'a SectionRowList,
) -> Result<StringTable<'a>, NoMemory>
    ensures { IfOk result (λ names. names ≡ names_of place.now tail.now) }
{
    let rows = place.sections.as_slice();
    let parts = tail.as_slice();
    let mut names = StringTable::new(alloc, rows.len() + parts.len())?;
    note_names(&mut names, rows)?;
    note_names(&mut names, parts)?;
    Ok(names)
}

/// Puts the section headers at the end.
#[tactic(auto, using(crate::proofs::SectionsPut::table_put))]
fn put_table(
    out: &mut Vec<u8>,
    names: &StringTable,
    place: &Placement,
    tail: &SectionRowList,
) -> Result<(), NoMemory>
    requires { names.now ≡ names_of place.now tail.now }
    ensures { OnOk result (out.new.items ≡ out.old.items ++ section_table_bytes place.now tail.now) }
{
    let links = links_of(place, tail);
    put_section_header(out, &null_header())?;
    put_rows(out, names, &links, place.sections.as_slice())?;
    put_parts(out, names, &links, tail.as_slice())?;
    Ok(())
}

/// The section headers that end an image (gABI "Sections", "Section Header"): the null header, those of the
/// output sections in their order, and those of the tail's parts.
///
/// `tail` has the parts of the tail in their order, each with its name, its file offset and its size
/// in bytes. `sh_name` is the offset of the name in the string table of the names in header order. Of a number
/// that is greater than its field the low bytes are written.
///
/// # Errors
/// Out of memory.
pub fn section_headers(
    alloc: Global,
    placement: &Placement,
    tail: &SectionRowList,
) -> Result<Bytes, NoMemory>
    ensures { IfOk result (λ bytes. bytes ≡ section_table_bytes placement.now tail.now) }
{
    let names = names_of(alloc, placement, tail)?;
    let count = placement.sections.as_slice().len() + tail.as_slice().len() + 1;
    let Ok(mut out) = Vec::with_capacity(alloc, SHDR_SIZE * count) else {
        return Err(NoMemory);
    };
    put_table(&mut out, &names, placement, tail)?;
    Bytes::from_vec(out)
}
