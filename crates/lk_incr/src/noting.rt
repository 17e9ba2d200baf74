//! The first walk over the records: their string table, in order of first use.

ghost use Rattle.std.specs.Prelude.{◌≡◌, [], fold, map, OnOk};
ghost use Rattle.std.specs.List.{flat_map};
ghost use Rattle.lk_model.specs.InputsSection.{inputs_fields};
ghost use Rattle.lk_model.specs.RecordFields.{texts_of};
ghost use Rattle.lk_model.specs.Tail.{row_name};
ghost use Rattle.lk_model.specs.Texts.{with_text};
ghost use Rattle.lk_incr.specs.NotedTexts.{global_name, group_name, head_texts, input_texts, piece_name};
ghost use Rattle.lk_incr.specs.RecordParts.{nameless};

use crate::record_parts::{RecordParts, RecordedInput};
use lk_model::layouts::SectionRow;
use lk_model::summaries::{Global, Group, PieceInfo};
use lk_report::{NoMemory, OptionRecord};
use lk_string_table::StringTable;

/// Notes the texts of the options.
fn note_head<'a>(table: &mut StringTable<'a>, options: &'a OptionRecord) -> Result<(), NoMemory>
    ensures { OnOk result (table.new ≡ fold with_text table.old (head_texts options.now)) }
{
    table.note(options.entry.as_slice())?;
    table.note(options.interp.as_slice())?;
    table.note(options.runpath.as_slice())
}

/// Notes the names of output sections.
pub(crate) fn note_sections<'a>(
    table: &mut StringTable<'a>,
    rows: &'a [SectionRow],
) -> Result<(), NoMemory>
    ensures { OnOk result (table.new ≡ fold with_text table.old (map row_name rows.now)) }
{
    for row in rows {
        table.note(row.key.name.as_slice())?;
    }
    Ok(())
}

/// Notes the names of pieces.
fn note_pieces<'a>(table: &mut StringTable<'a>, pieces: &'a [PieceInfo]) -> Result<(), NoMemory>
    ensures { OnOk result (table.new ≡ fold with_text table.old (map piece_name pieces.now)) }
{
    for piece in pieces {
        table.note(piece.name.as_slice())?;
    }
    Ok(())
}

/// Notes the names of symbols.
fn note_globals<'a>(table: &mut StringTable<'a>, globals: &'a [Global]) -> Result<(), NoMemory>
    ensures { OnOk result (table.new ≡ fold with_text table.old (map global_name globals.now)) }
{
    for global in globals {
        table.note(global.name.as_slice())?;
    }
    Ok(())
}

/// Notes the signatures of groups.
fn note_groups<'a>(table: &mut StringTable<'a>, groups: &'a [Group]) -> Result<(), NoMemory>
    ensures { OnOk result (table.new ≡ fold with_text table.old (map group_name groups.now)) }
{
    for group in groups {
        table.note(group.signature.as_slice())?;
    }
    Ok(())
}

/// Notes the texts of an input.
fn note_input<'a>(table: &mut StringTable<'a>, input: &RecordedInput<'a>) -> Result<(), NoMemory>
    ensures { OnOk result (table.new ≡ fold with_text table.old (input_texts input.now)) }
{
    let summary = input.summary;
    table.note(input.name.path.as_slice())?;
    table.note(summary.soname.as_slice())?;
    note_pieces(table, summary.pieces.as_slice())?;
    note_globals(table, summary.globals.as_slice())?;
    note_groups(table, summary.groups.as_slice())
}

/// Notes the texts of inputs.
fn note_inputs<'a>(
    table: &mut StringTable<'a>,
    inputs: &[RecordedInput<'a>],
) -> Result<(), NoMemory>
    ensures { OnOk result (table.new ≡ fold with_text table.old (flat_map input_texts inputs.now)) }
{
    for input in inputs {
        note_input(table, input)?;
    }
    Ok(())
}

/// Notes the texts of the inputs section.
#[tactic(auto, using(crate::proofs::TextsNoted::section_noted))]
pub(crate) fn note_inputs_section<'a>(
    table: &mut StringTable<'a>,
    parts: &RecordParts<'a>,
) -> Result<(), NoMemory>
    ensures { OnOk result (table.new ≡ fold with_text table.old (texts_of (inputs_fields (nameless parts.now)))) }
{
    note_head(table, parts.options)?;
    note_sections(table, parts.placement.sections.as_slice())?;
    note_inputs(table, parts.inputs.as_slice())
}
