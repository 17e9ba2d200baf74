//! The entries of the dynamic section (gABI "Dynamic Section"): those before the first NULL, and what they
//! say by their tags.

ghost use Rattle.std.specs.Prelude.{◌≡◌, ◌+◌, ◌≤◌, length, ℕ, IfOk, pos};
ghost use Rattle.lk_elf.specs.Records.{dyn_at};
ghost use Rattle.lk_model.specs.DynamicEntries.{counted_entries, first_with_tag};
ghost use Rattle.lk_model.specs.Loads.{named_size};

use lk_elf::Dyn;
use lk_elf::numbers::{DT_NULL, DYN_SIZE};
use lk_report::{List, NoMemory};
use std::alloc::Global;

/// Entries of the dynamic section in order.
pub(crate) type DynList = List<Dyn>;

fn entry_at(bytes: &[u8], at: usize) -> Dyn
    requires { at + 16 ≤ length bytes.now }
    ensures { result ≡ dyn_at bytes.now at }
{
    match Dyn::read_at(bytes, at) {
        Ok(entry) => entry,
        Err(_) => unreachable!(),
    }
}

/// The entries of a dynamic section with these bytes: those before the first NULL, and all where there is none.
#[tactic(auto, using(crate::proofs::EntriesCounted::entry_counted, crate::proofs::EntriesCounted::null_ends, crate::proofs::EntriesCounted::no_entry_left), unfolding(lk_model::specs::DynamicEntries::counted_entries))]
pub(crate) fn counted_entries(alloc: Global, bytes: &[u8]) -> Result<DynList, NoMemory>
    ensures { IfOk result (λ entries. entries ≡ counted_entries bytes.now 0 (length bytes.now)) }
{
    let mut entries = Vec::new(alloc);
    for k in 0..bytes.len() / DYN_SIZE {
        let entry = entry_at(bytes, DYN_SIZE * k);
        if entry.d_tag == DT_NULL {
            return Ok(List::from_vec(entries));
        }
        if entries.push(entry).is_err() {
            return Err(NoMemory);
        }
    }
    Ok(List::from_vec(entries))
}

/// What the first entry with a tag says.
pub(crate) fn first_with_tag(entries: &[Dyn], tag: i64) -> Option<u64>
    ensures { (code : ℕ) → tag ≡ pos code → result ≡ first_with_tag code entries.now }
{
    for entry in entries {
        if entry.d_tag == tag {
            return Some(entry.d_un);
        }
    }
    None
}

/// The size that the first entry with a tag says; 0 without one.
pub(crate) fn named_size(entries: &[Dyn], tag: i64) -> u64
    ensures { (code : ℕ) → tag ≡ pos code → result ≡ named_size code entries.now }
{
    match first_with_tag(entries, tag) {
        None => 0,
        Some(size) => size,
    }
}
