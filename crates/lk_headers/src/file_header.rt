//! The file header (gABI "ELF Header"): where the headers are, how many there are, where the program
//! begins.

ghost use Rattle.std.specs.Prelude.{◌≡◌, ◌+◌, ◌<◌, ◌^◌, Bool, length};
ghost use Rattle.lk_elf.specs.Records.{ehdr_bytes};
ghost use Rattle.lk_model.specs.FullPlace.{file_end};
ghost use Rattle.lk_model.specs.Segments.{program_headers};
ghost use Rattle.lk_headers.specs.Front.{front_header};
ghost use Rattle.lk_headers.specs.TailRows.{headers_at, last_end};

use crate::low_bits::{low_16, low_64};
use lk_elf::Ehdr;
use lk_elf::numbers::{EM_X86_64, ET_EXEC};
use lk_model::classes::in_file;
use lk_model::layouts::{Placement, SectionRow, SectionRowList};

/// The file offset at which the room of an output section ends.
fn end_in_file(row: &SectionRow) -> u128
    ensures value { result ≡ row.now.offset + row.now.room }
    ensures bound { result < 2 ^ 65 }
{
    u128::from(row.offset) + u128::from(row.room)
}

/// The file offset at which the last room ends that takes bytes of the file, or 0.
fn file_end(rows: &[SectionRow]) -> u128
    ensures value { result ≡ file_end rows.now }
    ensures bound { result < 2 ^ 65 }
{
    let mut most = 0;
    for row in rows {
        if in_file(row.key.class) {
            most = most.max(end_in_file(row));
        }
    }
    most
}

/// The file offset at which a part of the tail ends.
fn part_end(row: &SectionRow) -> u128
    ensures value { result ≡ row.now.offset + row.now.size }
    ensures bound { result < 2 ^ 65 }
{
    u128::from(row.offset) + u128::from(row.size)
}

/// The file offset at which the last part of the tail ends; without a part, where the tail begins.
#[tactic(auto, using(crate::proofs::TailEnds::at_last, crate::proofs::TailEnds::at_none))]
fn tail_end(rows: &[SectionRow], tail: &[SectionRow]) -> u128
    ensures value { result ≡ last_end (file_end rows.now) tail.now }
    ensures bound { result < 2 ^ 65 }
{
    match tail.last() {
        Some(row) => part_end(row),
        None => file_end(rows),
    }
}

/// The file offset of the section headers (`e_shoff`).
fn headers_at(place: &Placement, tail: &SectionRowList) -> u128
    ensures { result ≡ headers_at place.now tail.now }
{
    (tail_end(place.sections.as_slice(), tail.as_slice()) + 7) / 8 * 8
}

/// The file header of an image with these rows and so many program headers.
#[tactic(auto, using(crate::proofs::FieldBytes::ehdr_reported), unfolding(crate::specs::Front::front_header))]
pub(crate) fn file_header(place: &Placement, tail: &SectionRowList, entry: u64, count: u16) -> Ehdr
    requires { (exec_stack : Bool) → count ≡ length (program_headers place.now exec_stack) }
    ensures { (exec_stack : Bool) → ehdr_bytes result ≡ ehdr_bytes (front_header place.now tail.now entry exec_stack) }
{
    let last = place.sections.as_slice().len() + tail.as_slice().len();
    Ehdr {
        e_ident: [0x7f, b'E', b'L', b'F', 2, 1, 1, 0, 0, 0, 0, 0, 0, 0, 0, 0],
        e_type: ET_EXEC,
        e_machine: EM_X86_64,
        e_version: 1,
        e_entry: entry,
        e_phoff: 64,
        e_shoff: low_64(headers_at(place, tail)),
        e_flags: 0,
        e_ehsize: 64,
        e_phentsize: 56,
        e_phnum: count,
        e_shentsize: 64,
        e_shnum: low_16(last + 1),
        e_shstrndx: low_16(last),
    }
}
