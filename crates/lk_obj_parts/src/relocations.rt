//! The entries of a section of relocations (gABI "Relocation"), each read where it is in the file.

ghost use Rattle.std.specs.Prelude.{◌≡◌, ◌+◌, ◌*◌, ◌<◌, ◌≤◌, length};
ghost use Rattle.lk_elf.specs.Records.{rela_at};
ghost use Rattle.lk_obj_parts.specs.RelocationEntries.{entry_at, entry_count};

use crate::file_table::lies_in;
use lk_elf::numbers::RELA_SIZE;
use lk_elf::{Rela, Shdr};

/// How many entries of 24 bytes a section of relocations has in the file (gABI "Relocation"); none where its bytes do
/// not lie in it. Takes no memory.
pub fn entry_count(bytes: &[u8], header: &Shdr) -> usize
    ensures value { result ≡ entry_count bytes.now header.now }
    ensures numbers { 0 < result → header.now.sh_offset + 24 * result ≤ length bytes.now }
{
    if lies_in(bytes, header.sh_offset, header.sh_size) {
        header.sh_size as usize / RELA_SIZE
    } else {
        0
    }
}

/// The relocation in the 24 bytes at `at` (gABI "Relocation", Elf64_Rela). Takes no memory.
pub fn rela_at(bytes: &[u8], at: usize) -> Rela
    requires { at + 24 ≤ length bytes.now }
    ensures { result ≡ rela_at bytes.now at }
{
    match Rela::read_at(bytes, at) {
        Ok(rela) => rela,
        Err(_) => unreachable!(),
    }
}

/// An entry of a section of relocations, by its number.
pub(crate) fn entry_at(bytes: &[u8], header: &Shdr, k: usize) -> Rela
    requires { header.now.sh_offset + 24 * (k + 1) ≤ length bytes.now }
    ensures { result ≡ entry_at bytes.now header.now k }
{
    rela_at(bytes, header.sh_offset as usize + RELA_SIZE * k)
}
