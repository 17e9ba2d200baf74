//! The thread-local segment in whole numbers (gABI "Thread-Local Storage"), and where the thread-local block
//! that it describes begins and ends (psABI x86-64 "Thread-Local Storage").

ghost use Rattle.std.specs.Prelude.{◌≡◌, ◌+◌, ◌-◌, ◌<◌, ◌^◌, find, max};
ghost use Rattle.std.specs.Option.{option_copied};
ghost use Rattle.lk_model.specs.Amounts.{round_up};
ghost use Rattle.lk_model.specs.SectionKeys.{same_class};
ghost use Rattle.lk_model.specs.Segments.{thread_segment, tls_end, tls_segment, tls_start};
ghost use Rattle.lk_model.specs.declared.layouts.SectionRow.{SectionRow};

use crate::low_bits::above;
use crate::segments::room_end;
use lk_model::classes::same_class;
use lk_model::layouts::{Class, Placement, SectionRow};
use std::marker::Model;

/// The thread-local segment. Contracts see it as lk_model's.
#[derive(Drop)]
pub(crate) struct ThreadSegment {
    /// The address at which it begins.
    pub(crate) addr: u64,
    /// Its bytes in the file.
    pub(crate) file: u64,
    /// Its bytes in memory, which may be more than 64 bits can count.
    pub(crate) memory: u128,
    /// Its alignment in bytes.
    pub(crate) align: u64,
}

impl Model for ThreadSegment {
    ghost use Rattle.std.specs.Prelude.{◌<◌, ◌^◌};
    ghost use Rattle.lk_model.specs.declared.layouts.TlsSegment.{TlsSegment};

    ghost Value = { TlsSegment };

    ghost view = { λ s. record { addr = s.addr; file = s.file; memory = s.memory; align = s.align } };

    ghost invariant = { λ s. s.memory < 2 ^ 65 };
}

/// The first row of a class.
fn row_of_class(class: Class, rows: &[SectionRow]) -> Option<&SectionRow>
    ensures { option_copied result ≡ find (λ (row : SectionRow). same_class row.key.class class) rows.now }
{
    rows.iter().find(|row| same_class(row.key.class, class))
}

/// The segment of one section, with its bytes in the file.
fn segment_of(row: &SectionRow, file: u64) -> ThreadSegment
    ensures { result ≡ record { addr = row.now.addr; file = file; memory = row.now.room; align = row.now.align } }
{
    ThreadSegment {
        addr: row.addr,
        file,
        memory: u128::from(row.room),
        align: row.align,
    }
}

/// The segment of data and the zeros after it.
fn joint_segment(stored: &SectionRow, zeros: &SectionRow) -> ThreadSegment
    ensures { result ≡ record { addr = stored.now.addr; file = stored.now.room; memory = zeros.now.addr + zeros.now.room - stored.now.addr; align = max stored.now.align zeros.now.align } }
{
    ThreadSegment {
        addr: stored.addr,
        file: stored.room,
        memory: above(room_end(zeros), u128::from(stored.addr)),
        align: stored.align.max(zeros.align),
    }
}

/// The segment of the two sections that it may have: data, and zeros after it.
fn segment_over(stored: Option<&SectionRow>, zeros: Option<&SectionRow>) -> Option<ThreadSegment>
    ensures { result ≡ thread_segment (option_copied stored.entry) (option_copied zeros.entry) }
{
    match stored {
        None => match zeros {
            None => None,
            Some(zeros) => Some(segment_of(zeros, 0)),
        },
        Some(stored) => match zeros {
            None => Some(segment_of(stored, stored.room)),
            Some(zeros) => Some(joint_segment(stored, zeros)),
        },
    }
}

/// The thread-local segment of a placement, if there is one.
pub(crate) fn thread_segment(place: &Placement) -> Option<ThreadSegment>
    ensures { result ≡ tls_segment place.now }
{
    let rows = place.sections.as_slice();
    segment_over(
        row_of_class(Class::Tdata, rows),
        row_of_class(Class::Tbss, rows),
    )
}

/// The next multiple of an alignment from a number of bytes on, and 0 where the alignment is 0.
fn round_up(n: u128, align: u64) -> u128
    requires { n < 2 ^ 65 }
    ensures value { result ≡ round_up n align }
    ensures bound { result < 2 ^ 66 }
{
    if align == 0 {
        return 0;
    }
    let align = u128::from(align);
    (n + (align - 1)) / align * align
}

/// Where a segment ends, its bytes in memory rounded up to its alignment.
fn segment_end(segment: &ThreadSegment) -> u128
    ensures { result ≡ segment.now.addr + round_up segment.now.memory segment.now.align }
{
    u128::from(segment.addr) + round_up(segment.memory, segment.align)
}

/// The address at which the thread-local block of a placement begins, and 0 where no section is
/// thread-local (gABI "Thread-Local Storage").
pub fn tls_start(place: &Placement) -> u64
    ensures { result ≡ tls_start place.now }
{
    match thread_segment(place) {
        None => 0,
        Some(segment) => segment.addr,
    }
}

/// The address at which the thread-local block of a placement ends, its bytes rounded up to its alignment,
/// and 0 where no section is thread-local. The thread pointer is this address (psABI x86-64
/// "Thread-Local Storage"). A sum of fields, it may be greater than 64 bits can count.
pub fn tls_end(place: &Placement) -> u128
    ensures { result ≡ tls_end place.now }
{
    match thread_segment(place) {
        None => 0,
        Some(segment) => segment_end(&segment),
    }
}
