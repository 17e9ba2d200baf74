//! Where pieces are placed: in the room of an output section, and apart from the pieces before them.

ghost use Rattle.std.specs.Prelude.{◌≡◌, ◌+◌, ◌&&◌, List, nat_le, slice_get};
ghost use Rattle.lk_model.specs.Checks.{is_some_with};
ghost use Rattle.lk_model.specs.RecordRefusals.{lies_in_room};
ghost use Rattle.lk_model.specs.declared.layouts.PieceRow.{PieceRow};
ghost use Rattle.lk_records_read.specs.PlacesNoted.{ArePlacesNoted, PlaceNoted, PlaceTaken};

use crate::section_keys::reserved_of;
use crate::taken_ranges::TakenRanges;
use lk_model::layouts::{PieceRow, SectionRow};
use lk_report::NoMemory;

/// How many numbers each output section has on the line of all bytes: more than the sum of two fields of eight bytes.
const STRIDE: u128 = 73_786_976_294_838_206_464;

/// Takes so many bytes of an output section: whether they are apart from those that were taken before.
///
/// # Errors
/// Out of memory.
fn take_place(
    places: &mut TakenRanges,
    section: u32,
    addr: u64,
    size: u64,
) -> Result<bool, NoMemory>
    ensures { PlaceTaken places.old section addr size result places.new }
{
    places.take(u128::from(section) * STRIDE + u128::from(addr), size)
}

/// Whether so many bytes and a reserved end are in a room.
fn are_in_room(start: u64, room: u64, addr: u64, size: u64, reserved: u64) -> bool
    ensures { result ≡ (nat_le start addr && nat_le (addr + size + reserved) (start + room)) }
{
    let end = u128::from(addr) + u128::from(size) + u128::from(reserved);
    start <= addr && end <= u128::from(start) + u128::from(room)
}

/// Whether a piece lies in the room of its output section.
fn is_in_room(rows: &[SectionRow], piece: &PieceRow) -> bool
    ensures { result ≡ is_some_with (lies_in_room piece.now) (slice_get rows.now piece.now.section) }
{
    match rows.get(piece.section as usize) {
        None => false,
        Some(row) => are_in_room(
            row.addr,
            row.room,
            piece.addr,
            piece.size,
            reserved_of(&row.key),
        ),
    }
}

/// Notes a piece: whether it may be placed beside those that were noted before.
///
/// # Errors
/// Out of memory.
pub(crate) fn note_place(
    places: &mut TakenRanges,
    rows: &[SectionRow],
    piece: &PieceRow,
) -> Result<bool, NoMemory>
    ensures { (before : List PieceRow) → ArePlacesNoted places.old before → PlaceNoted rows.now before piece.now result places.new }
{
    if !is_in_room(rows, piece) {
        return Ok(false);
    }
    take_place(places, piece.section, piece.addr, piece.size)
}
