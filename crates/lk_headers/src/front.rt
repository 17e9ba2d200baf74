//! The bytes before the seal of an image: the file header, the program headers, zeros.

ghost use Rattle.std.specs.Prelude.{◌≡◌, ◌≤◌, ◌++◌, Bool, length, IfOk, OnOk};
ghost use Rattle.lk_model.specs.Segments.{program_headers};
ghost use Rattle.lk_headers.specs.Front.{front_bytes, FrontGives, most_headers, up_to_seal};

use crate::appending::{put_file_header, put_zeros_to};
use crate::counting::header_count;
use crate::file_header::file_header;
use crate::program_headers::put_program_headers;
use lk_model::images::SEAL_OFFSET;
use lk_model::layouts::{LayoutFault, Placement, SectionRowList};
use lk_model::limits::MOST_HEADERS;
use lk_report::{Bytes, LimitFault, LimitKind, NoMemory};
use std::alloc::Global;

/// Puts the file header and the program headers at the end.
#[tactic(auto, using(crate::proofs::FrontLengths::front_put), unfolding(crate::specs::Front::front_bytes))]
fn put_front(
    out: &mut Vec<u8>,
    placement: &Placement,
    tail: &SectionRowList,
    entry: u64,
    exec_stack: bool,
    count: u16,
) -> Result<(), NoMemory>
    requires { (exec_stack : Bool) → count ≡ length (program_headers placement.now exec_stack) }
    ensures { OnOk result (out.new.items ≡ out.old.items ++ front_bytes placement.now tail.now entry exec_stack) }
{
    put_file_header(out, &file_header(placement, tail, entry, count))?;
    put_program_headers(out, placement, exec_stack, count)
}

/// The bytes before the seal of an image with so many program headers.
#[tactic(auto, using(crate::proofs::FrontLengths::front_fits, crate::proofs::FrontLengths::front_padded))]
fn front_bytes(
    alloc: Global,
    placement: &Placement,
    tail: &SectionRowList,
    entry: u64,
    exec_stack: bool,
    count: u16,
) -> Result<Bytes, NoMemory>
    requires many { (exec_stack : Bool) → count ≡ length (program_headers placement.now exec_stack) }
    requires few { count ≤ most_headers }
    ensures { IfOk result (λ bytes. bytes ≡ up_to_seal (front_bytes placement.now tail.now entry exec_stack)) }
{
    let Ok(mut out) = Vec::with_capacity(alloc, SEAL_OFFSET) else {
        return Err(NoMemory);
    };
    put_front(&mut out, placement, tail, entry, exec_stack, count)?;
    put_zeros_to(&mut out, SEAL_OFFSET)?;
    Bytes::from_vec(out)
}

/// The first 4,088 bytes of an image, up to its seal (gABI "ELF Header", "Program Header"; the seal is this
/// project's own): the file header, the program headers, and zeros.
///
/// `tail` has the parts of the tail in their order, each with its name, its file offset and its size
/// in bytes; `entry` is the address of the entry (`e_entry`); `exec_stack` says whether the stack is
/// executable. A number that is greater than its field is written by its low bytes.
///
/// # Errors
/// `Limit` exactly where the placement has more than 64 program headers, with their number; `NoMemory` when
/// out of memory.
pub fn headers(
    alloc: Global,
    placement: &Placement,
    tail: &SectionRowList,
    entry: u64,
    exec_stack: bool,
) -> Result<Bytes, LayoutFault>
    ensures { FrontGives placement.now tail.now entry exec_stack result }
{
    let count = header_count(placement);
    if count > MOST_HEADERS {
        return Err(LayoutFault::Limit(LimitFault {
            which: LimitKind::Headers,
            number: count,
        }));
    }
    match front_bytes(alloc, placement, tail, entry, exec_stack, count as u16) {
        Ok(bytes) => Ok(bytes),
        Err(NoMemory) => Err(LayoutFault::NoMemory),
    }
}
