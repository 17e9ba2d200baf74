//! The second walk over the records: the bytes of the inputs section, record by record, with each text by
//! its offset in the string table.

ghost use Rattle.std.specs.Prelude.{◌≡◌, ◌++◌, OnOk};
ghost use Rattle.std.specs.List.{enumerate_from, flat_map};
ghost use Rattle.lk_elf.specs.Fields.{bytes_of};
ghost use Rattle.lk_model.specs.InputsSection.{global_fields, group_fields, input_fields, inputs_fields, piece_fields, section_fields};
ghost use Rattle.lk_model.specs.RecordFields.{spelled};
ghost use Rattle.lk_model.specs.Texts.{offset_in};
ghost use Rattle.lk_incr.specs.RecordParts.{nameless};

use crate::appending::put_short;
use crate::heads::{put_head, put_section};
use crate::input_heads::put_input_head;
use crate::pieces::put_piece;
use crate::record_parts::{RecordParts, RecordedInput};
use crate::summaries::{put_global, put_group_head};
use lk_model::layouts::SectionRow;
use lk_model::summaries::{Global, Group, PieceInfo};
use lk_piece_rows::PieceRows;
use lk_report::NoMemory;
use lk_string_table::StringTable;

/// Puts output sections at the end.
#[tactic(auto, unfolding(lk_model::specs::RecordFields::spelled))]
fn put_sections(
    out: &mut Vec<u8>,
    table: &StringTable<'_>,
    rows: &[SectionRow],
) -> Result<(), NoMemory>
    ensures { OnOk result (out.new.items ≡ out.old.items ++ spelled (offset_in table.now) (flat_map section_fields rows.now)) }
{
    for row in rows {
        put_section(out, table, row)?;
    }
    Ok(())
}

/// Puts pieces of the input with this number at the end.
#[tactic(auto, unfolding(lk_model::specs::RecordFields::spelled))]
fn put_pieces(
    out: &mut Vec<u8>,
    table: &StringTable<'_>,
    placed: &PieceRows<'_>,
    input: u64,
    pieces: &[PieceInfo],
) -> Result<(), NoMemory>
    ensures { OnOk result (out.new.items ≡ out.old.items ++ spelled (offset_in table.now) (flat_map (piece_fields placed.now input) pieces.now)) }
{
    for piece in pieces {
        put_piece(out, table, placed, input, piece)?;
    }
    Ok(())
}

/// Puts symbols at the end.
#[tactic(auto, unfolding(lk_model::specs::RecordFields::spelled))]
fn put_globals(
    out: &mut Vec<u8>,
    table: &StringTable<'_>,
    globals: &[Global],
) -> Result<(), NoMemory>
    ensures { OnOk result (out.new.items ≡ out.old.items ++ spelled (offset_in table.now) (flat_map global_fields globals.now)) }
{
    for global in globals {
        put_global(out, table, global)?;
    }
    Ok(())
}

/// Puts the members of a group at the end.
fn put_members(out: &mut Vec<u8>, members: &[u32]) -> Result<(), NoMemory>
    ensures { OnOk result (out.new.items ≡ out.old.items ++ flat_map (bytes_of 4) members.now) }
{
    for member in members {
        put_short(out, *member as u64)?;
    }
    Ok(())
}

/// Puts a group at the end.
fn put_group(out: &mut Vec<u8>, table: &StringTable<'_>, group: &Group) -> Result<(), NoMemory>
    ensures { OnOk result (out.new.items ≡ out.old.items ++ spelled (offset_in table.now) (group_fields group.now)) }
{
    put_group_head(out, table, group)?;
    put_members(out, group.members.as_slice())?;
    Ok(())
}

/// Puts groups at the end.
#[tactic(auto, unfolding(lk_model::specs::RecordFields::spelled))]
fn put_groups(out: &mut Vec<u8>, table: &StringTable<'_>, groups: &[Group]) -> Result<(), NoMemory>
    ensures { OnOk result (out.new.items ≡ out.old.items ++ spelled (offset_in table.now) (flat_map group_fields groups.now)) }
{
    for group in groups {
        put_group(out, table, group)?;
    }
    Ok(())
}

/// Puts the input with this number at the end: its head, its pieces, its symbols and its groups.
fn put_input(
    out: &mut Vec<u8>,
    table: &StringTable<'_>,
    placed: &PieceRows<'_>,
    number: u64,
    input: &RecordedInput<'_>,
) -> Result<(), NoMemory>
    ensures { OnOk result (out.new.items ≡ out.old.items ++ spelled (offset_in table.now) (input_fields placed.now (number, input.now))) }
{
    let summary = input.summary;
    put_input_head(out, table, input)?;
    put_pieces(out, table, placed, number, summary.pieces.as_slice())?;
    put_globals(out, table, summary.globals.as_slice())?;
    put_groups(out, table, summary.groups.as_slice())?;
    Ok(())
}

/// Puts all inputs at the end, in their order.
fn put_inputs(
    out: &mut Vec<u8>,
    table: &StringTable<'_>,
    placed: &PieceRows<'_>,
    inputs: &[RecordedInput<'_>],
) -> Result<(), NoMemory>
    ensures { OnOk result (out.new.items ≡ out.old.items ++ spelled (offset_in table.now) (flat_map (input_fields placed.now) (enumerate_from 0 inputs.now))) }
{
    for (number, input) in inputs.iter().enumerate() {
        put_input(out, table, placed, number as u64, input)?;
    }
    Ok(())
}

/// Puts the inputs section at the end: the head, the output sections, the inputs.
pub(crate) fn put_inputs_section(
    out: &mut Vec<u8>,
    table: &StringTable<'_>,
    placed: &PieceRows<'_>,
    parts: &RecordParts<'_>,
) -> Result<(), NoMemory>
    requires { placed.now ≡ parts.now.placement }
    ensures { OnOk result (out.new.items ≡ out.old.items ++ spelled (offset_in table.now) (inputs_fields (nameless parts.now))) }
{
    put_head(out, table, parts)?;
    put_sections(out, table, parts.placement.sections.as_slice())?;
    put_inputs(out, table, placed, parts.inputs.as_slice())?;
    Ok(())
}
