//! The record of a piece of an input.

ghost use Rattle.std.specs.Prelude.{◌≡◌, ◌++◌, OnOk};
ghost use Rattle.lk_model.specs.InputsSection.{piece_address, piece_fields, piece_flags, piece_section};
ghost use Rattle.lk_model.specs.RecordFields.{spelled};
ghost use Rattle.lk_model.specs.Texts.{offset_in};
ghost use Rattle.lk_incr.specs.Words.{words_of};

use crate::heads::bit;
use crate::words::{Word, long, pair, put_words};
use lk_model::classes::class_number;
use lk_model::layouts::PieceRow;
use lk_model::summaries::PieceInfo;
use lk_piece_rows::PieceRows;
use lk_report::NoMemory;
use lk_string_table::StringTable;

/// The number in place of an output section for a piece that is not kept.
const NO_SECTION: u64 = 0xffff_ffff;

/// A piece of the input with this number, 40 bytes: its section, its output section and address where it
/// is kept, its size, alignment and name, and its flags.
fn piece_words(
    table: &StringTable<'_>,
    placed: &PieceRows<'_>,
    input: u64,
    piece: &PieceInfo,
) -> [Word; 5]
    ensures { result ≡ words_of (offset_in table.now) (piece_fields placed.now input piece.now) }
{
    let row = placed.row(input, piece.section);
    let name = table.offset(piece.name.as_slice());
    [
        pair(piece.section as u64, piece_section(row)),
        long(piece_address(row)),
        long(piece.size),
        long(piece.align),
        pair(name, piece_flags(piece, row)),
    ]
}

/// Puts a piece of the input with this number at the end.
pub(crate) fn put_piece(
    out: &mut Vec<u8>,
    table: &StringTable<'_>,
    placed: &PieceRows<'_>,
    input: u64,
    piece: &PieceInfo,
) -> Result<(), NoMemory>
    ensures { OnOk result (out.new.items ≡ out.old.items ++ spelled (offset_in table.now) (piece_fields placed.now input piece.now)) }
{
    put_words(out, &piece_words(table, placed, input, piece))?;
    Ok(())
}

/// The number of a piece's output section.
fn piece_section(row: Option<PieceRow>) -> u64
    ensures { result ≡ piece_section row }
{
    match row {
        Some(row) => row.section as u64,
        None => NO_SECTION,
    }
}

/// The address of a piece, 0 where it is not kept.
fn piece_address(row: Option<PieceRow>) -> u64
    ensures { result ≡ piece_address row }
{
    match row {
        Some(row) => row.addr,
        None => 0,
    }
}

/// The flags of a piece: 1 where it is kept, 2 for a terminator, and 256 times its class where it is not
/// kept.
fn piece_flags(piece: &PieceInfo, row: Option<PieceRow>) -> u64
    ensures { result ≡ piece_flags piece.now row }
{
    match row {
        Some(_) => 1 + 2 * bit(piece.terminator),
        None => 2 * bit(piece.terminator) + 256 * u64::from(class_number(piece.key.class)),
    }
}
