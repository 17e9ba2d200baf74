//! The entries of a dynamic section (gABI "Dynamic Section"): those before its first NULL count.

ghost use Rattle.std.specs.Prelude.{◌≡◌, ◌+◌, ◌*◌, ◌<◌, ◌≤◌, length};
ghost use Rattle.lk_elf.specs.Records.{dyn_at};
ghost use Rattle.lk_elf.specs.Numbers.{dt_soname};
ghost use Rattle.lk_model.specs.DynamicEntries.{first_with_tag};
ghost use Rattle.lk_model.specs.Elf.{elf_of};
ghost use Rattle.lk_model.specs.SharedObjects.{entries_under};
ghost use Rattle.lk_so_read.specs.DynamicParts.{entry_count};

use lk_elf::numbers::{DT_NULL, DT_SONAME, DYN_SIZE};
use lk_elf::{Dyn, Shdr};
use lk_obj_parts::lies_in;

/// How many whole entries a dynamic section has in the file; none where its bytes do not lie in it.
pub(crate) fn entry_count(bytes: &[u8], dynamic: &Shdr) -> usize
    ensures value { result ≡ entry_count bytes.now dynamic.now }
    ensures numbers { 0 < result → dynamic.now.sh_offset + 16 * result ≤ length bytes.now }
{
    if lies_in(bytes, dynamic.sh_offset, dynamic.sh_size) {
        dynamic.sh_size as usize / DYN_SIZE
    } else {
        0
    }
}

pub(crate) fn entry_at(bytes: &[u8], at: usize) -> Dyn
    requires { at + 16 ≤ length bytes.now }
    ensures { result ≡ dyn_at bytes.now at }
{
    match Dyn::read_at(bytes, at) {
        Ok(entry) => entry,
        Err(_) => unreachable!(),
    }
}

/// The offset of the file's name in the strings of its dynamic section: what the first SONAME says before the
/// first NULL.
#[tactic(auto, using(crate::proofs::EntriesFound::soname_here, crate::proofs::EntriesFound::null_here, crate::proofs::EntriesFound::other_here, crate::proofs::EntriesFound::none_left, crate::proofs::EntriesFound::soname_read))]
pub(crate) fn soname_offset(bytes: &[u8], dynamic: &Shdr) -> Option<u64>
    ensures { result ≡ first_with_tag dt_soname (entries_under (elf_of bytes.now) dynamic.now) }
{
    let count = entry_count(bytes, dynamic);
    for k in 0..count {
        let entry = entry_at(bytes, dynamic.sh_offset as usize + DYN_SIZE * k);
        if entry.d_tag == DT_NULL {
            return None;
        }
        if entry.d_tag == DT_SONAME {
            return Some(entry.d_un);
        }
    }
    None
}
