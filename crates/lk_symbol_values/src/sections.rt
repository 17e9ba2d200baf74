//! The rows of a placement's output sections: by their keys, and where the segments end.

ghost use Rattle.std.specs.Prelude.{◌≡◌, ◌+◌, ◌<◌, ◌^◌, bytes_eq, find};
ghost use Rattle.std.specs.Option.{option_copied, option_map};
ghost use Rattle.lk_model.specs.Keys.{row_of};
ghost use Rattle.lk_model.specs.MadeSymbols.{end_of, start_of};
ghost use Rattle.lk_model.specs.SectionKeys.{named, same_key};
ghost use Rattle.lk_model.specs.Segments.{second_segment_end, third_segment_end};
ghost use Rattle.lk_symbol_values.specs.Sections.{address_of_row, low_64, memory_end_in, segment_named};

use lk_model::classes::same_class;
use lk_model::images::FIRST_ADDRESS;
use lk_model::layouts::{Class, Placement, SectionKey, SectionRow};

/// The first number that a field of eight bytes cannot hold.
const FIELD_END: u128 = 0x1_0000_0000_0000_0000;
/// A loaded segment that has an end of its own.
#[derive(Clone, Copy)]
pub(crate) enum Loaded {
    /// What is executed.
    Second,
    /// What is written.
    Third,
}

/// What a field of eight bytes holds of a number.
pub(crate) fn low_64(n: u128) -> u64
    ensures { result ≡ low_64 n }
{
    (n % FIELD_END) as u64
}

/// A number that a field of eight bytes holds, which its low bits are.
pub(crate) fn exact(n: u64) -> u64
    ensures low { result ≡ low_64 n }
    ensures same { result ≡ n }
{
    n
}

/// Whether a name is this one.
pub(crate) fn is_name(name: &[u8], other: &[u8]) -> bool
    ensures { result ≡ bytes_eq name.now other.now }
{
    name == other
}

/// Whether a key is that of a name and a class.
fn is_key(key: &SectionKey, name: &[u8], class: Class) -> bool
    ensures { result ≡ same_key key.now (named name.now class) }
{
    same_class(key.class, class) && is_name(key.name.as_slice(), name)
}

/// The row of the section with a name and a class.
fn row_of<'a>(place: &'a Placement, name: &[u8], class: Class) -> Option<&'a SectionRow>
    ensures { option_copied result ≡ row_of place.now (named name.now class) }
{
    place
        .sections
        .as_slice()
        .iter()
        .find(|row| is_key(&row.key, name, class))
}

/// The address of the section with a name and a class, if the placement has one.
pub(crate) fn section_start(place: &Placement, name: &[u8], class: Class) -> Option<u64>
    ensures { result ≡ option_map address_of_row (row_of place.now (named name.now class)) }
{
    match row_of(place, name, class) {
        None => None,
        Some(row) => Some(row.addr),
    }
}

/// The address of the section with a name and a class; 0 without one.
pub(crate) fn section_start_or_zero(place: &Placement, name: &[u8], class: Class) -> u64
    ensures { result ≡ low_64 (start_of (row_of place.now (named name.now class))) }
{
    match row_of(place, name, class) {
        None => 0,
        Some(row) => exact(row.addr),
    }
}

/// The low bits of the end of the section with a name and a class; 0 without one.
pub(crate) fn section_end(place: &Placement, name: &[u8], class: Class) -> u64
    ensures { result ≡ low_64 (end_of (row_of place.now (named name.now class))) }
{
    match row_of(place, name, class) {
        None => 0,
        Some(row) => row.addr.wrapping_add(row.size),
    }
}

/// Whether a row is one of a segment's.
fn is_in_segment(segment: Loaded, row: &SectionRow) -> bool
    ensures { result ≡ segment_named segment row.now }
{
    match row.key.class {
        Class::R => false,
        Class::X => match segment {
            Loaded::Second => true,
            Loaded::Third => false,
        },
        Class::N => false,
        _ => match segment {
            Loaded::Second => false,
            Loaded::Third => true,
        },
    }
}

/// Where a room ends in memory.
fn room_end(row: &SectionRow) -> u128
    ensures value { result ≡ row.now.addr + row.now.room }
    ensures bound { result < 2 ^ 65 }
{
    u128::from(row.addr) + u128::from(row.room)
}

/// Where the last room of a segment ends that takes addresses, or 0.
fn memory_end(segment: Loaded, rows: &[SectionRow]) -> u128
    ensures value { result ≡ memory_end_in segment rows.now }
    ensures bound { result < 2 ^ 65 }
{
    let mut most = 0;
    for row in rows {
        if is_in_segment(segment, row) && !same_class(row.key.class, Class::Tbss) {
            most = most.max(room_end(row));
        }
    }
    most
}

/// The low bits of where the second segment ends.
pub(crate) fn second_segment_end(place: &Placement) -> u64
    ensures { result ≡ low_64 (second_segment_end place.now) }
{
    low_64(u128::from(FIRST_ADDRESS).max(memory_end(Loaded::Second, place.sections.as_slice())))
}

/// The low bits of where the third segment ends.
pub(crate) fn third_segment_end(place: &Placement) -> u64
    ensures { result ≡ low_64 (third_segment_end place.now) }
{
    low_64(memory_end(Loaded::Third, place.sections.as_slice()))
}
