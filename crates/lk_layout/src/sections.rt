//! The output sections of a link, and how many bytes each takes.

ghost use Rattle.std.specs.Prelude.{◌≡◌, map, IfOk};
ghost use Rattle.lk_layout.specs.Extents.{extent_under, ordered_keys as keys_in_order};
ghost use Rattle.lk_layout.specs.Grouping.{keys_in};
ghost use Rattle.lk_dyn_sizes.specs.SizeRows.{as_pairs};
ghost use Rattle.lk_layout.specs.Walked.{walked};

use crate::extents::{WideExtent, extent_of};
use crate::grouping::Grouped;
use crate::walks::{Walk, walk_pieces};
use lk_dyn_sizes::TableSize;
use lk_model::layouts::{SectionKey, SectionKeyList};
use lk_report::{List, NoMemory};
use std::alloc::Global;

/// The walks of all groups, by their numbers.
pub(crate) fn walk_groups(alloc: Global, kept: &Grouped<'_>) -> Result<Vec<Walk>, NoMemory>
    ensures { IfOk result (λ walks. walks.items ≡ map walked kept.now.sections) }
{
    let mut walks = Vec::new(alloc);
    for number in 0..kept.len() {
        let (key, pieces) = kept.group(number);
        let walk = walk_pieces(alloc, key, pieces)?;
        let Ok(()) = walks.push(walk) else {
            return Err(NoMemory);
        };
    }
    Ok(walks)
}

/// The output sections that kept pieces go to, in order of the first piece.
pub(crate) fn group_keys(alloc: Global, kept: &Grouped<'_>) -> Result<SectionKeyList, NoMemory>
    ensures { IfOk result (λ keys. keys ≡ keys_in kept.now.sections) }
{
    let mut keys = List::new(alloc);
    for number in 0..kept.len() {
        let (key, _) = kept.group(number);
        keys.push(key.copy(alloc)?)?;
    }
    Ok(keys)
}

/// The output sections that exist, in their order: those of the groups, and the tables.
pub(crate) fn ordered_keys(
    alloc: Global,
    tables: &[TableSize],
    kept: &Grouped<'_>,
) -> Result<SectionKeyList, NoMemory>
    ensures { IfOk result (λ keys. keys ≡ keys_in_order (as_pairs tables.now) kept.now.sections) }
{
    let mut keys = group_keys(alloc, kept)?;
    for table in tables {
        keys.push(table.key.copy(alloc)?)?;
    }
    lk_outsec::in_order(alloc, &keys)
}

/// How many bytes a section takes, among groups that were walked.
#[tactic(auto, using(crate::proofs::ExtentsReported::found_extent, crate::proofs::ExtentsReported::missing_extent))]
fn extent_at<'k>(
    alloc: Global,
    patch: u32,
    tables: &[TableSize],
    kept: &Grouped<'_>,
    walks: &[Walk],
    key: &'k SectionKey,
) -> Result<WideExtent<'k>, NoMemory>
    requires { walks.now ≡ map walked kept.now.sections }
    ensures { IfOk result (λ e. e ≡ extent_under patch (as_pairs tables.now) kept.now.sections key.now) }
{
    match kept.find(key) {
        Some(number) => {
            let extent = extent_of(patch, tables, key, &walks[number])?;
            Ok(extent)
        }
        None => {
            let walk = walk_pieces(alloc, key, &[])?;
            let extent = extent_of(patch, tables, key, &walk)?;
            Ok(extent)
        }
    }
}

/// How many bytes sections take, in their order.
pub(crate) fn extents_of<'k>(
    alloc: Global,
    patch: u32,
    tables: &[TableSize],
    kept: &Grouped<'_>,
    walks: &[Walk],
    keys: &'k [SectionKey],
) -> Result<Vec<WideExtent<'k>>, NoMemory>
    requires { walks.now ≡ map walked kept.now.sections }
    ensures { IfOk result (λ es. es.items ≡ map (extent_under patch (as_pairs tables.now) kept.now.sections) keys.now) }
{
    let mut extents = Vec::new(alloc);
    for key in keys {
        let extent = extent_at(alloc, patch, tables, kept, walks, key)?;
        if extents.push(extent).is_err() {
            return Err(NoMemory);
        }
    }
    Ok(extents)
}
