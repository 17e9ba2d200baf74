//! Output sections in the order of the image.

ghost use Rattle.std.specs.Prelude.{◌≡◌, IfOk, OnOk};
ghost use Rattle.lk_model.specs.SectionOrder.{in_order};

use crate::ranks::section_rank;
use lk_model::layouts::{SectionKey, SectionKeyList};
use lk_report::{List, NoMemory};
use std::alloc::Global;

/// Puts keys in the order of the image. The sort is stable, and finds each rank once.
fn sort_by_rank(keys: &mut Vec<SectionKey>) -> Result<(), NoMemory>
    ensures { OnOk result (keys.new.items ≡ in_order keys.old.items) }
{
    match keys.sort_by_cached_key(|key| section_rank(key)) {
        Ok(()) => Ok(()),
        Err(_) => Err(NoMemory),
    }
}

/// The keys in the order of the image: by rising rank, and those of one rank in the order in which they
/// came. Takes n log n steps for n keys.
///
/// # Errors
/// Out of memory.
pub fn in_order(alloc: Global, keys: &SectionKeyList) -> Result<SectionKeyList, NoMemory>
    ensures { IfOk result (λ ordered. ordered ≡ in_order keys.now) }
{
    let mut ordered = keys.copy(alloc)?.into_vec();
    sort_by_rank(&mut ordered)?;
    Ok(List::from_vec(ordered))
}
