//! The record sections that an image has today: the inputs, and the texts that they name.

ghost use Rattle.std.specs.Prelude.{◌≡◌, IfOk};
ghost use Rattle.lk_model.specs.InputsSection.{inputs_fields};
ghost use Rattle.lk_model.specs.RecordFields.{spelled, texts_of};
ghost use Rattle.lk_model.specs.Tail.{record_parts};
ghost use Rattle.lk_model.specs.Texts.{offset_in, table_of};
ghost use Rattle.lk_model.specs.declared.records.Records.{Records};
ghost use Rattle.lk_incr.specs.RecordParts.{nameless, parts_of};
ghost use Rattle.lk_incr.specs.TailParts.{records_with};

use crate::noting::note_inputs_section;
use crate::putting::put_inputs_section;
use crate::record_parts::RecordParts;
use lk_piece_rows::PieceRows;
use lk_report::{Bytes, NoMemory};
use lk_string_table::StringTable;
use std::alloc::Global;

/// The bytes of two record sections.
#[derive(PartialEq, Eq, Debug, Drop)]
pub struct InputsAndTexts {
    /// `.gnu_incremental_inputs`: the options, the output sections, and the inputs with their pieces,
    /// symbols and groups.
    pub inputs: Bytes,
    /// `.gnu_incremental_strtab`: the texts that the other one names.
    pub texts: Bytes,
}

/// The string table of records: their texts, in order of first use.
fn texts_of_records<'a>(alloc: Global, parts: &RecordParts<'a>) -> Result<StringTable<'a>, NoMemory>
    ensures { IfOk result (λ table. table ≡ table_of (texts_of (inputs_fields (nameless parts.now)))) }
{
    let sections = parts.placement.sections.as_slice().len();
    let inputs = parts.inputs.as_slice().len();
    let mut table = StringTable::new(alloc, sections + inputs)?;
    note_inputs_section(&mut table, parts)?;
    Ok(table)
}

/// The inputs section of records, over their string table.
fn inputs_of_records(
    alloc: Global,
    table: &StringTable<'_>,
    parts: &RecordParts<'_>,
) -> Result<Bytes, NoMemory>
    ensures { IfOk result (λ bytes. bytes ≡ spelled (offset_in table.now) (inputs_fields (nameless parts.now))) }
{
    let placed = PieceRows::of(alloc, parts.placement)?;
    let mut out = Vec::new(alloc);
    put_inputs_section(&mut out, table, &placed, parts)?;
    Bytes::from_vec(out)
}

/// The two record sections of an image, in their first form (this project's own): the inputs and the texts, of any
/// records with these parts.
///
/// Of a number that is greater than its field, also a text's offset, the low bytes are written. Of several rows of
/// one piece the first counts. The string table has each text once, in order of first use, after the empty one.
///
/// # Errors
/// Out of memory.
pub fn write_inputs(alloc: Global, parts: &RecordParts<'_>) -> Result<InputsAndTexts, NoMemory>
    ensures { (records : Records) → parts.now ≡ parts_of records → IfOk result (λ made. records_with made.inputs made.texts ≡ record_parts records) }
{
    let table = texts_of_records(alloc, parts)?;
    let inputs = inputs_of_records(alloc, &table, parts)?;
    let texts = table.bytes(alloc)?;
    Ok(InputsAndTexts { inputs, texts })
}
