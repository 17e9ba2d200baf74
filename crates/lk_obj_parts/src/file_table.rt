//! The section table of a file (gABI "ELF Header", "Sections"): its headers in one list, number n at
//! place n, read in one go where the whole table lies in the file.

ghost use Rattle.std.specs.Prelude.{◌≡◌, ◌+◌, ◌*◌, ◌^◌, ◌<◌, ◌≤◌, length, map, vec_len, IfOk};
ghost use Rattle.std.specs.Bool.{OnTrue};
ghost use Rattle.std.specs.List.{range_with_len};
ghost use Rattle.lk_elf.specs.Records.{shdr_at};
ghost use Rattle.lk_model.specs.Elf.{lies_in, section_headers_of};

use lk_elf::numbers::SHDR_SIZE;
use lk_elf::{Ehdr, Shdr};
use lk_report::NoMemory;
use std::alloc::Global;

/// Whether so many bytes at this place lie in the file.
pub fn lies_in(bytes: &[u8], at: u64, size: u64) -> bool
    ensures value { result ≡ lies_in bytes.now at size }
    ensures numbers { OnTrue result (at + size ≤ length bytes.now) }
{
    let room = bytes.len() as u64;
    size <= room && at <= room - size
}

fn section_at(bytes: &[u8], at: usize) -> Shdr
    requires { at + 64 ≤ length bytes.now }
    ensures { result ≡ shdr_at bytes.now at }
{
    match Shdr::read_at(bytes, at) {
        Ok(header) => header,
        Err(_) => unreachable!(),
    }
}

/// The headers of a table of this many sections that lies in the file.
#[tactic(auto, using(crate::proofs::Tables::table_more))]
fn headers_at(alloc: Global, bytes: &[u8], at: usize, count: usize) -> Result<Vec<Shdr>, NoMemory>
    requires { at + 64 * count ≤ length bytes.now }
    ensures items { IfOk result (λ v. v.items ≡ map (λ n. shdr_at bytes.now (at + 64 * n)) (range_with_len 0 count)) }
    ensures count { IfOk result (λ v. vec_len v ≡ count) }
{
    let Ok(mut sections) = Vec::with_capacity(alloc, count) else {
        return Err(NoMemory);
    };
    for n in 0..count {
        if sections
            .push(section_at(bytes, at + SHDR_SIZE * n))
            .is_err()
        {
            return Err(NoMemory);
        }
    }
    Ok(sections)
}

/// The section headers of a file with this header; none where the table does not lie in the file.
#[tactic(auto, unfolding(lk_model::specs::Elf::section_headers_of))]
pub fn read_sections(alloc: Global, bytes: &[u8], header: &Ehdr) -> Result<Vec<Shdr>, NoMemory>
    ensures items { IfOk result (λ v. v.items ≡ section_headers_of bytes.now header.now) }
    ensures few { IfOk result (λ v. vec_len v < 2 ^ 16) }
{
    let count = header.e_shnum;
    if lies_in(bytes, header.e_shoff, SHDR_SIZE as u64 * u64::from(count)) {
        headers_at(alloc, bytes, header.e_shoff as usize, usize::from(count))
    } else {
        Ok(Vec::new(alloc))
    }
}
