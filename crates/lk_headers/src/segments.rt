//! Where the loaded segments end and begin (gABI "Program Header", "Program Loading"). Ends are sums of
//! two fields and may be greater than a field holds, so they are numbers of 128 bits.

ghost use Rattle.std.specs.Prelude.{◌≡◌, ◌≤◌, ◌^◌, ◌<◌};
ghost use Rattle.lk_headers.specs.Ends.{is_in_segment, rows_in, counts_for, room_end, end_on};

use lk_model::classes::{in_file, same_class};
use lk_model::layouts::{Class, Placement, SectionRow};

/// A loaded segment, in the order of the file.
#[derive(Clone, Copy)]
pub(crate) enum Loaded {
    /// Sections that are only read (R).
    First,
    /// Sections that are executed (RX).
    Second,
    /// Sections that are written (RW, or RWX where one is executed too).
    Third,
}

/// Which end of a segment is meant.
#[derive(Clone, Copy)]
pub(crate) enum Side {
    /// The end in the file.
    File,
    /// The end in memory.
    Memory,
}

/// Whether an output section is in a segment.
pub(crate) fn is_in_segment(segment: Loaded, row: &SectionRow) -> bool
    ensures { result ≡ is_in_segment segment row.now }
{
    match row.key.class {
        Class::R => match segment {
            Loaded::First => true,
            _ => false,
        },
        Class::X => match segment {
            Loaded::Second => true,
            _ => false,
        },
        Class::N => false,
        _ => match segment {
            Loaded::Third => true,
            _ => false,
        },
    }
}

/// Whether an output section's room counts for this end: sections without bytes in the file do not count for
/// the end in the file, nor `.tbss` for the end in memory.
fn counts_for(side: Side, row: &SectionRow) -> bool
    ensures { result ≡ counts_for side row.now }
{
    match side {
        Side::File => in_file(row.key.class),
        Side::Memory => !same_class(row.key.class, Class::Tbss),
    }
}

/// The address at which the room of an output section ends.
pub(crate) fn room_end(row: &SectionRow) -> u128
    ensures value { result ≡ room_end row.now }
    ensures bound { result < 2 ^ 65 }
{
    u128::from(row.addr) + u128::from(row.room)
}

/// Where the last room of a segment ends that counts, or 0.
fn end_on(side: Side, segment: Loaded, rows: &[SectionRow]) -> u128
    ensures value { result ≡ end_on side (rows_in segment rows.now) }
    ensures bound { result < 2 ^ 65 }
{
    let mut most = 0;
    for row in rows {
        if is_in_segment(segment, row) && counts_for(side, row) {
            most = most.max(room_end(row));
        }
    }
    most
}

/// Where the last room of a placement's segment ends that counts, or 0.
pub(crate) fn end_in(side: Side, segment: Loaded, place: &Placement) -> u128
    ensures value { result ≡ end_on side (rows_in segment place.now.sections) }
    ensures bound { result < 2 ^ 65 }
{
    end_on(side, segment, place.sections.as_slice())
}
