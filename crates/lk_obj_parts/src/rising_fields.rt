//! Whether the fields of relocations rise (gABI "Relocation"), as assemblers mostly write them: each section of
//! relocations is on a later section than the one before it, and each of its fields begins where the one before
//! it ends, or later. By the law `rising_reported` of proofs/OverlapsTold no two fields of a target share a byte then.
//! An assembler that finds out late how long its jumps are may put their relocations behind the others of their
//! section: then that section alone does not rise. Cost: one look at each section header and at each entry, and
//! no memory.

ghost use Rattle.std.specs.Prelude.{◌≡◌, ◌+◌, drop, nat_le};
ghost use Rattle.std.specs.List.{list_all};
ghost use Rattle.lk_obj_parts.specs.RisingFields.{fields_rise, is_apart, least_after, rows_rise, targets_rise};

use crate::relocations::{entry_at, entry_count};
use lk_elf::Shdr;
use lk_elf::numbers::SHT_RELA;
use lk_reloc::width_of;

/// Whether a field at `at` begins where an earlier one of this width ends, or later.
fn is_behind(earlier: u64, width: u64, at: u64) -> bool
    ensures { result ≡ nat_le (earlier + width) at }
{
    if at < earlier {
        return false;
    }
    width <= at - earlier
}

/// Whether the fields of a section of relocations rise.
#[tactic(auto, using(crate::proofs::RisingFields::entry_rises, crate::proofs::RisingFields::entry_falls, crate::proofs::RisingFields::no_entry_left))]
pub(crate) fn fields_rise(bytes: &[u8], section: &Shdr) -> bool
    ensures { result ≡ fields_rise bytes.now section.now }
{
    let entries = entry_count(bytes, section);
    let mut earlier = 0;
    let mut width = 0;
    for k in 0..entries {
        let rela = entry_at(bytes, section, k);
        if !is_behind(earlier, width, rela.r_offset) {
            return false;
        }
        earlier = rela.r_offset;
        width = width_of(rela.r_type());
    }
    true
}

/// The least number of the next target after a section, where its own is to be at least `least`; none where
/// it is not.
fn least_after(least: u64, section: &Shdr) -> Option<u64>
    ensures { result ≡ least_after least section.now }
{
    if section.sh_type != SHT_RELA {
        return Some(least);
    }
    let target = u64::from(section.sh_info);
    if target < least {
        return None;
    }
    Some(target + 1)
}

/// Whether the targets of the sections of relocations rise; then each has one such section at most.
#[tactic(auto, using(crate::proofs::RisingFields::target_rises, crate::proofs::RisingFields::target_falls, crate::proofs::RisingFields::no_target_left))]
pub(crate) fn targets_rise(sections: &[Shdr]) -> bool
    ensures { result ≡ targets_rise 0 (drop 1 sections.now) }
{
    let mut least = 0;
    for i in 1..sections.len() {
        match least_after(least, &sections[i]) {
            None => return false,
            Some(next) => least = next,
        }
    }
    true
}

/// Whether a section has no relocations, or fields that rise.
fn is_apart(bytes: &[u8], section: &Shdr) -> bool
    ensures { result ≡ is_apart bytes.now section.now }
{
    section.sh_type != SHT_RELA || fields_rise(bytes, section)
}

fn all_apart(bytes: &[u8], sections: &[Shdr]) -> bool
    ensures { result ≡ list_all (is_apart bytes.now) sections.now }
{
    sections.iter().all(|section| is_apart(bytes, section))
}

/// Whether the targets of the sections of relocations rise, and the fields of each.
pub(crate) fn rows_rise(bytes: &[u8], sections: &[Shdr]) -> bool
    ensures { result ≡ rows_rise bytes.now sections.now }
{
    targets_rise(sections) && all_apart(bytes, sections)
}
