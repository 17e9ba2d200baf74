//! The parts of the tail of an image, which no loader looks at: the record sections, and the names of all
//! sections (gABI "Sections", "String Table").

ghost use Rattle.std.specs.Prelude.{◌≡◌, [], ◌∷◌, IfOk};
ghost use Rattle.lk_model.specs.RecordsOf.{records_of};
ghost use Rattle.lk_model.specs.Tail.{header_names, record_parts, tail_parts};
ghost use Rattle.lk_model.specs.Texts.{table_bytes, table_of};
ghost use Rattle.lk_model.specs.Views.{Resolved};
ghost use Rattle.lk_model.specs.declared.layouts.Placement.{Placement as Place};
ghost use Rattle.lk_model.specs.declared.records.Records.{Records};
ghost use Rattle.lk_incr.specs.RecordParts.{parts_of};
ghost use Rattle.lk_incr.specs.TailParts.{part_with, tail_of, tail_with};

use crate::inputs_section::{InputsAndTexts, write_inputs};
use crate::noting::note_sections;
use crate::record_parts::RecordParts;
use lk_model::layouts::Placement;
use lk_report::{Bytes, List, Name, NoMemory};
use lk_string_table::StringTable;
use std::alloc::Global;
use std::marker::Model;

/// A section of the tail: its name and its bytes. Contracts see it as lk_model's `Part`.
#[derive(Debug, Drop)]
pub struct TailPart {
    name: Name,
    bytes: Bytes,
}

impl Model for TailPart {
    ghost use Rattle.lk_model.specs.Tail.{Part};

    ghost Value = { Part };

    ghost view = { λ p. record { name = p.name; bytes = p.bytes } };
}

impl TailPart {
    /// The section with a copy of this name and these bytes.
    fn of(alloc: Global, name: &[u8], bytes: Bytes) -> Result<Self, NoMemory>
        ensures { IfOk result (λ part. part ≡ part_with name.now bytes) }
    {
        let name = Name::from_slice(alloc, name)?;
        Ok(TailPart { name, bytes })
    }

    /// The section's name.
    pub fn name(&self) -> &[u8]
        ensures { result.now ≡ self.now.name }
    {
        self.name.as_slice()
    }

    /// The section's bytes.
    pub fn bytes(&self) -> &[u8]
        ensures { result.now ≡ self.now.bytes }
    {
        self.bytes.as_slice()
    }
}

/// The parts of a tail in their order.
pub type Tail = List<TailPart>;

/// The names of the sections of an image in header order: the output sections, then the tail.
fn names_of<'a>(alloc: Global, placement: &'a Placement) -> Result<StringTable<'a>, NoMemory>
    ensures { (records : Records) → IfOk result (λ names. names ≡ table_of (header_names placement.now (record_parts records))) }
{
    let rows = placement.sections.as_slice();
    let mut names = StringTable::new(alloc, rows.len() + 3)?;
    note_sections(&mut names, rows)?;
    names.note(b".gnu_incremental_inputs")?;
    names.note(b".gnu_incremental_strtab")?;
    names.note(b".shstrtab")?;
    Ok(names)
}

/// The bytes of `.shstrtab` (gABI "String Table"): the empty text, then each distinct name of a section
/// once, in header order. The parts of the tail are those of any records.
///
/// # Errors
/// Out of memory.
pub fn section_names(alloc: Global, placement: &Placement) -> Result<Bytes, NoMemory>
    ensures { (records : Records) → IfOk result (λ bytes. bytes ≡ table_bytes (table_of (header_names placement.now (record_parts records)))) }
{
    names_of(alloc, placement)?.bytes(alloc)
}

/// The parts with these bytes.
fn parts_with(alloc: Global, inputs: Bytes, texts: Bytes, names: Bytes) -> Result<Tail, NoMemory>
    ensures { IfOk result (λ parts. parts ≡ tail_with inputs texts names) }
{
    let mut parts = List::new(alloc);
    parts.push(TailPart::of(alloc, b".gnu_incremental_inputs", inputs)?)?;
    parts.push(TailPart::of(alloc, b".gnu_incremental_strtab", texts)?)?;
    parts.push(TailPart::of(alloc, b".shstrtab", names)?)?;
    Ok(parts)
}

/// The parts of an image's tail in their order: the inputs, the texts, the names of the sections. They are those of
/// any records with these parts.
///
/// # Errors
/// Out of memory.
pub fn tail(alloc: Global, parts: &RecordParts<'_>) -> Result<Tail, NoMemory>
    ensures any { (records : Records) → parts.now ≡ parts_of records → IfOk result (λ made. made ≡ tail_of records) }
    ensures of_link { (r : Resolved) (place : Place) → parts.now ≡ parts_of (records_of r place) → IfOk result (λ made. made ≡ tail_parts r place) }
{
    let InputsAndTexts { inputs, texts } = write_inputs(alloc, parts)?;
    let names = section_names(alloc, parts.placement)?;
    let made = parts_with(alloc, inputs, texts, names)?;
    Ok(made)
}
