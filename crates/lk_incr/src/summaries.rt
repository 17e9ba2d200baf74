//! The record of a symbol of an input, and that of a COMDAT group before its members.

ghost use Rattle.std.specs.Prelude.{◌≡◌, ◌+◌, ◌*◌, ◌++◌, OnOk};
ghost use Rattle.lk_model.specs.InputsSection.{global_fields, home_number, home_section};
ghost use Rattle.lk_model.specs.RecordFields.{spelled};
ghost use Rattle.lk_model.specs.Texts.{offset_in};
ghost use Rattle.lk_incr.specs.Words.{group_head, words_of};

use crate::words::{Word, long, pair, put_words};
use lk_model::summaries::{Global, Group, Home};
use lk_report::NoMemory;
use lk_string_table::StringTable;

/// A symbol that is not LOCAL, 40 bytes: its name, binding, type and visibility, where it is defined, its
/// value and size, and its number.
fn global_words(table: &StringTable<'_>, global: &Global) -> [Word; 5]
    ensures { result ≡ words_of (offset_in table.now) (global_fields global.now) }
{
    let name = table.offset(global.name.as_slice());
    [
        pair(
            name,
            properties(global.binding, global.code, global.visibility),
        ),
        pair(home_number(global.home), home_section(global.home)),
        long(global.value),
        long(global.size),
        pair(global.symbol as u64, 0),
    ]
}

/// Puts a symbol at the end.
pub(crate) fn put_global(
    out: &mut Vec<u8>,
    table: &StringTable<'_>,
    global: &Global,
) -> Result<(), NoMemory>
    ensures { OnOk result (out.new.items ≡ out.old.items ++ spelled (offset_in table.now) (global_fields global.now)) }
{
    put_words(out, &global_words(table, global))?;
    Ok(())
}

/// The binding, the type and the visibility of a symbol in one number.
fn properties(binding: u32, code: u32, visibility: u32) -> u64
    ensures { result ≡ binding + 256 * code + 65536 * visibility }
{
    binding as u64 + 256 * (code as u64) + 65536 * (visibility as u64)
}

/// The number that records where a symbol is defined.
fn home_number(home: Home) -> u64
    ensures { result ≡ home_number home }
{
    match home {
        Home::Undefined => 0,
        Home::Section(_) => 1,
        Home::Absolute => 2,
        Home::Common => 3,
        Home::Shared => 4,
    }
}

/// The number of the section that defines a symbol, or 0.
fn home_section(home: Home) -> u64
    ensures { result ≡ home_section home }
{
    match home {
        Home::Section(section) => section as u64,
        _ => 0,
    }
}

/// A group before its members, 8 bytes: its signature, and how many members follow.
fn group_words(table: &StringTable<'_>, group: &Group) -> [Word; 1]
    ensures { result ≡ words_of (offset_in table.now) (group_head group.now) }
{
    let signature = table.offset(group.signature.as_slice());
    [pair(signature, group.members.as_slice().len() as u64)]
}

/// Puts a group before its members at the end.
pub(crate) fn put_group_head(
    out: &mut Vec<u8>,
    table: &StringTable<'_>,
    group: &Group,
) -> Result<(), NoMemory>
    ensures { OnOk result (out.new.items ≡ out.old.items ++ spelled (offset_in table.now) (group_head group.now)) }
{
    put_words(out, &group_words(table, group))?;
    Ok(())
}
