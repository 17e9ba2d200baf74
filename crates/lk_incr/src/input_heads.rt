//! The head of an input.

ghost use Rattle.std.specs.Prelude.{◌≡◌, ◌++◌, OnOk};
ghost use Rattle.lk_elf.specs.Fields.{unsigned64};
ghost use Rattle.lk_model.specs.InputsSection.{input_head, input_kind, stamp_flag, stamp_length, stamp_time};
ghost use Rattle.lk_model.specs.RecordFields.{spelled};
ghost use Rattle.lk_model.specs.Texts.{offset_in};
ghost use Rattle.lk_incr.specs.Words.{words_of};

use crate::heads::bit;
use crate::record_parts::RecordedInput;
use crate::words::{Word, long, pair, put_words};
use lk_model::summaries::Kind;
use lk_report::{NoMemory, Stamp};
use lk_string_table::StringTable;

/// The head of an input, 56 bytes: what it is, its stamp, and how many pieces, symbols and groups follow.
fn input_words(table: &StringTable<'_>, input: &RecordedInput<'_>) -> [Word; 7]
    ensures { result ≡ words_of (offset_in table.now) (input_head input.now) }
{
    let name = input.name;
    let summary = input.summary;
    let path = table.offset(name.path.as_slice());
    let soname = table.offset(summary.soname.as_slice());
    let pieces = summary.pieces.as_slice().len() as u64;
    let globals = summary.globals.as_slice().len() as u64;
    let groups = summary.groups.as_slice().len() as u64;
    [
        pair(path, input.occurrence as u64),
        pair(input_kind(input), name.lib as u64),
        pair(stamp_flag(name.stamp), soname),
        long(stamp_length(name.stamp)),
        long(stamp_time(name.stamp)),
        pair(pieces, globals),
        pair(groups, bit(summary.exec_stack)),
    ]
}

/// Puts the head of an input at the end.
pub(crate) fn put_input_head(
    out: &mut Vec<u8>,
    table: &StringTable<'_>,
    input: &RecordedInput<'_>,
) -> Result<(), NoMemory>
    ensures { OnOk result (out.new.items ≡ out.old.items ++ spelled (offset_in table.now) (input_head input.now)) }
{
    put_words(out, &input_words(table, input))?;
    Ok(())
}

/// The kind of an input: 1 an object outside a lib group, 2 a lib member that was added, 3 one that was
/// not, 4 a shared input.
fn input_kind(input: &RecordedInput<'_>) -> u64
    ensures { result ≡ input_kind input.now }
{
    match input.summary.kind {
        Kind::Shared => 4,
        Kind::Object if input.name.lib == 0 => 1,
        Kind::Object if input.added => 2,
        Kind::Object => 3,
    }
}

/// 1 where there is a stamp, else 0.
fn stamp_flag(stamp: Option<Stamp>) -> u64
    ensures { result ≡ stamp_flag stamp }
{
    match stamp {
        Some(_) => 1,
        None => 0,
    }
}

/// The length in a stamp, in bytes; 0 without a stamp.
fn stamp_length(stamp: Option<Stamp>) -> u64
    ensures { result ≡ stamp_length stamp }
{
    match stamp {
        Some(stamp) => stamp.length,
        None => 0,
    }
}

/// The time in a stamp, in nanoseconds as two's complement; 0 without a stamp.
fn stamp_time(stamp: Option<Stamp>) -> u64
    ensures { result ≡ stamp_time stamp }
{
    match stamp {
        Some(stamp) => unsigned_of(stamp.modified),
        None => 0,
    }
}

/// A time as two's complement.
fn unsigned_of(time: i64) -> u64
    ensures { result ≡ unsigned64 time }
{
    time.cast_unsigned()
}
