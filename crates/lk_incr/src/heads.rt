//! The head of the inputs section, and the record of an output section.

ghost use Rattle.std.specs.Prelude.{◌≡◌, ◌≤◌, ◌++◌, OnOk};
ghost use Rattle.lk_model.specs.InputsSection.{bit, head_fields, option_flags, section_fields};
ghost use Rattle.lk_model.specs.RecordFields.{spelled};
ghost use Rattle.lk_model.specs.SectionKeys.{class_number};
ghost use Rattle.lk_model.specs.Texts.{offset_in};
ghost use Rattle.lk_incr.specs.RecordParts.{nameless};
ghost use Rattle.lk_incr.specs.Words.{words_of};

use crate::record_parts::RecordParts;
use crate::words::{Word, long, pair, put_words};
use lk_model::classes::class_number;
use lk_model::layouts::SectionRow;
use lk_report::{NoMemory, OptionRecord};
use lk_string_table::StringTable;

/// The head, 32 bytes: the version, the options, and how many inputs and output sections follow.
fn head_words(table: &StringTable<'_>, parts: &RecordParts<'_>) -> [Word; 4]
    ensures { result ≡ words_of (offset_in table.now) (head_fields (nameless parts.now)) }
{
    let options = parts.options;
    let entry = table.offset(options.entry.as_slice());
    let interp = table.offset(options.interp.as_slice());
    let runpath = table.offset(options.runpath.as_slice());
    let inputs = parts.inputs.as_slice().len() as u64;
    let sections = parts.placement.sections.as_slice().len() as u64;
    [
        pair(parts.version as u64, option_flags(options, parts.dynamic)),
        pair(entry, interp),
        pair(runpath, options.patch as u64),
        pair(inputs, sections),
    ]
}

/// Puts the head at the end.
pub(crate) fn put_head(
    out: &mut Vec<u8>,
    table: &StringTable<'_>,
    parts: &RecordParts<'_>,
) -> Result<(), NoMemory>
    ensures { OnOk result (out.new.items ≡ out.old.items ++ spelled (offset_in table.now) (head_fields (nameless parts.now))) }
{
    put_words(out, &head_words(table, parts))?;
    Ok(())
}

/// An output section, 48 bytes: its name and class, and its address, file offset, size, room and
/// alignment.
fn section_words(table: &StringTable<'_>, row: &SectionRow) -> [Word; 6]
    ensures { result ≡ words_of (offset_in table.now) (section_fields row.now) }
{
    let name = table.offset(row.key.name.as_slice());
    [
        pair(name, u64::from(class_number(row.key.class))),
        long(row.addr),
        long(row.offset),
        long(row.size),
        long(row.room),
        long(row.align),
    ]
}

/// Puts an output section at the end.
pub(crate) fn put_section(
    out: &mut Vec<u8>,
    table: &StringTable<'_>,
    row: &SectionRow,
) -> Result<(), NoMemory>
    ensures { OnOk result (out.new.items ≡ out.old.items ++ spelled (offset_in table.now) (section_fields row.now)) }
{
    put_words(out, &section_words(table, row))?;
    Ok(())
}

/// The options of a link as flags: 1 where it is dynamic, 2 where every definition is exported.
fn option_flags(options: &OptionRecord, dynamic: bool) -> u64
    ensures { result ≡ option_flags (record options.now { dynamic = dynamic }) }
{
    bit(dynamic) + 2 * bit(options.export_dynamic)
}

/// 1 for true, 0 for false.
pub(crate) fn bit(truth: bool) -> u64
    ensures value { result ≡ bit truth }
    ensures small { result ≤ 1 }
{
    if truth { 1 } else { 0 }
}
