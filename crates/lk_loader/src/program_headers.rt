//! The program headers of an executable, and their checks (gABI "Program Header", "Program Loading").

ghost use Rattle.std.specs.Prelude.{◌≡◌, ◌==◌, ◌&&◌, ◌||◌, ◌+◌, ◌*◌, ◌^◌, ◌<◌, ◌≤◌, Some, None, find, length, map, nat_lt, IfOk, MatchOption};
ghost use Rattle.std.specs.Bool.{OnTrue};
ghost use Rattle.std.specs.List.{range_with_len};
ghost use Rattle.lk_elf.specs.Records.{phdr_at};
ghost use Rattle.lk_elf.specs.declared.program_header.Phdr.{Phdr};
ghost use Rattle.lk_model.specs.Checks.{first_fault};
ghost use Rattle.lk_model.specs.Elf.{lies_in};
ghost use Rattle.lk_model.specs.Loads.{LoadRefusal};
ghost use Rattle.lk_loader.specs.HeaderRows.{end_with, header_at, overlap_from, row_refusals, rows_refusal};
ghost use Rattle.lk_loader.specs.LoadFaults.{Gives};
ghost use Rattle.lk_loader.specs.Runs.{is_load};

use crate::loads::LoadFault;
use lk_elf::Phdr;
use lk_elf::numbers::{PHDR_SIZE, PT_LOAD};
use lk_report::List;
use std::alloc::Global;

/// Program headers in order.
pub(crate) type PhdrList = List<Phdr>;

/// Whether so many bytes at this place lie in the file.
fn lies_in(image: &[u8], at: u64, size: u64) -> bool
    ensures value { result ≡ lies_in image.now at size }
    ensures numbers { OnTrue result (at + size ≤ length image.now) }
{
    let room = image.len() as u64;
    size <= room && at <= room - size
}

/// A program header at its place, which lies in the file.
fn header_in(image: &[u8], at: usize) -> Phdr
    requires { at + 56 ≤ length image.now }
    ensures { result ≡ phdr_at image.now at }
{
    match Phdr::read_at(image, at) {
        Ok(header) => header,
        Err(_) => unreachable!(),
    }
}

/// Whether the range of the file that a header names lies in it; a range without a byte is anywhere.
fn is_in_file(image: &[u8], header: &Phdr) -> bool
    ensures { result ≡ (header.now.p_filesz == 0 || lies_in image.now header.now.p_offset header.now.p_filesz) }
{
    header.p_filesz == 0 || lies_in(image, header.p_offset, header.p_filesz)
}

/// A program header by its number, where the table begins here; none where the header or the range of the
/// file that it names does not lie in the file.
#[tactic(auto, using(crate::proofs::HeaderRefusals::same_end), unfolding(crate::specs::HeaderRows::row_refusals))]
fn checked_header(image: &[u8], table: u64, n: u16) -> Option<Phdr>
    ensures { MatchOption result
        (first_fault (row_refusals image.now table (n, header_at image.now table n)) ≡ Some (LoadRefusal.BadTable n))
        (λ h. (h ≡ header_at image.now table n) × (first_fault (row_refusals image.now table (n, header_at image.now table n)) ≡ None)) }
{
    let end = PHDR_SIZE as u64 * (u64::from(n) + 1);
    if !lies_in(image, table, end) {
        return None;
    }
    let header = header_in(image, table as usize + PHDR_SIZE * usize::from(n));
    if is_in_file(image, &header) {
        Some(header)
    } else {
        None
    }
}

/// The program headers of a table of this many that begins here.
///
/// # Errors
/// BadTable for the first header that does not lie in the file, or whose range does not; out of memory.
#[tactic(auto, using(crate::proofs::HeaderRefusals::row_refused, crate::proofs::HeaderRefusals::row_passes, crate::proofs::HeaderRefusals::rows_done, crate::proofs::Ranges::table_more))]
pub(crate) fn read_headers(
    alloc: Global,
    image: &[u8],
    table: u64,
    count: u16,
) -> Result<PhdrList, LoadFault>
    ensures value { Gives (rows_refusal image.now table 0 count) (map (header_at image.now table) (range_with_len 0 count)) result }
    ensures few { IfOk result (λ headers. length headers < 2 ^ 16) }
{
    let Ok(mut headers) = Vec::with_capacity(alloc, usize::from(count)) else {
        return Err(LoadFault::NoMemory);
    };
    for n in 0..count {
        let Some(header) = checked_header(image, table, n) else {
            return Err(LoadFault::BadTable(u32::from(n)));
        };
        if headers.push(header).is_err() {
            return Err(LoadFault::NoMemory);
        }
    }
    Ok(List::from_vec(headers))
}

/// Where the LOADs up to a header end, those before it ending here.
fn end_with(end: u128, header: &Phdr) -> u128
    ensures { result ≡ end_with end header.now }
{
    if header.p_type == PT_LOAD {
        u128::from(header.p_vaddr) + u128::from(header.p_memsz)
    } else {
        end
    }
}

/// Whether a header is a LOAD that begins below this end.
fn begins_below(header: &Phdr, end: u128) -> bool
    ensures { result ≡ (is_load header.now && nat_lt header.now.p_vaddr end) }
{
    header.p_type == PT_LOAD && u128::from(header.p_vaddr) < end
}

/// The number of the first LOAD that begins below the end of an earlier one.
pub(crate) fn find_overlap(headers: &[Phdr]) -> Option<u32>
    requires few { length headers.now < 2 ^ 32 }
    ensures { result ≡ overlap_from 0 0 headers.now }
{
    let mut end = 0u128;
    for n in 0..headers.len() {
        if begins_below(&headers[n], end) {
            return Some(n as u32);
        }
        end = end_with(end, &headers[n]);
    }
    None
}

/// The first header of a type.
pub(crate) fn find_header(headers: &[Phdr], code: u32) -> Option<Phdr>
    ensures { result ≡ find (λ (h : Phdr). h.p_type == code) headers.now }
{
    for header in headers {
        if header.p_type == code {
            return Some(*header);
        }
    }
    None
}
