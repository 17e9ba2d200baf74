//! Where a link that is made anew puts everything.

ghost use Rattle.std.specs.Prelude.{◌≡◌, List, IfOk};
ghost use Rattle.lk_model.specs.Lawful.{Lawful};
ghost use Rattle.lk_model.specs.Resolving.{resolve};
ghost use Rattle.lk_model.specs.SectionOrder.{slots_of, table_sizes};
ghost use Rattle.lk_model.specs.Views.{Input};
ghost use Rattle.lk_resolve.specs.Given.{IsGiven};
ghost use Rattle.lk_law_placement.specs.SoundInputs.{SoundInputs};
ghost use Rattle.lk_layout.specs.Grouping.{groups_of};
ghost use Rattle.lk_layout.specs.KeptIn.{kept_in};
ghost use Rattle.lk_layout.specs.Layouts.{LayoutGives};
ghost use Rattle.lk_dyn_sizes.specs.SizeRows.{as_pairs};

use crate::grouping::Grouped;
use crate::kept::Nameless;
use crate::kept_pieces::{bss_key, kept_pieces};
use crate::placing::place_kept;
use crate::sections::group_keys;
use crate::slots::slots_of;
use lk_dyn_sizes::{TableSizeList, table_sizes};
use lk_law_placement::full_placement_is_lawful;
use lk_model::layouts::{LayoutFault, Needs, Placement};
use lk_model::summaries::SummaryList;
use lk_report::{Name, NoMemory, OptionRecord};
use lk_resolve::Resolution;
use std::alloc::Global;

/// The tables of a link with their sizes, where its kept pieces go to these output sections.
fn tables_of(
    alloc: Global,
    resolution: &Resolution,
    inputs: &SummaryList,
    needs: &Needs,
    options: &OptionRecord,
    kept: &Grouped<'_>,
) -> Result<TableSizeList, NoMemory>
    ensures { (xs : List Input) → IsGiven resolution.now inputs.now needs.now options.now xs → kept.now ≡ groups_of (resolve options.now xs).kept → IfOk result (λ tables. as_pairs tables ≡ table_sizes (resolve options.now xs) (slots_of needs.now)) }
{
    let keys = group_keys(alloc, kept)?;
    let tables = table_sizes(alloc, resolution, inputs, needs, options, &keys)?;
    Ok(tables)
}

/// The placement of a link that is made anew, or the first limit that it exceeds.
fn laid_out(
    alloc: Global,
    resolution: &Resolution,
    inputs: &SummaryList,
    needs: &Needs,
    options: &OptionRecord,
) -> Result<Placement, LayoutFault>
    ensures placed { (xs : List Input) → IsGiven resolution.now inputs.now needs.now options.now xs → LayoutGives (resolve options.now xs) result }
{
    let Ok(key) = bss_key(alloc) else {
        return Err(LayoutFault::NoMemory);
    };
    let name = Name::empty();
    let nameless = Nameless {
        key: &key,
        name: &name,
    };
    let Ok(kept) = kept_pieces(alloc, resolution, inputs, needs, &nameless) else {
        return Err(LayoutFault::NoMemory);
    };
    let Ok(tables) = tables_of(alloc, resolution, inputs, needs, options, &kept) else {
        return Err(LayoutFault::NoMemory);
    };
    let Ok(slots) = slots_of(alloc, needs) else {
        return Err(LayoutFault::NoMemory);
    };
    place_kept(alloc, options.patch, tables.as_slice(), &kept, slots)
}

/// The placement of a link that is made anew: its output sections, the pieces that it keeps, its slots; or the
/// first limit that it exceeds: more than 60,000 output sections, then more than 2 GiB of memory from the load
/// base to the greatest end of a loaded room. Both are reported with the whole number.
///
/// `resolution` is what the inputs decide, `inputs` has the summary of each by its number, and `needs`
/// what the references of kept pieces need. The options give the room for growth, in percent. Addresses,
/// offsets, sizes and alignments are in bytes.
///
/// A placement of inputs without a fault is lawful, so that it can be updated in place later.
///
/// # Errors
/// A limit; out of memory. An offset that no field holds is answered so too: the bytes of sections that are
/// not loaded are in the inputs, so that no memory holds them.
pub fn full_layout(
    alloc: Global,
    resolution: &Resolution,
    inputs: &SummaryList,
    needs: &Needs,
    options: &OptionRecord,
) -> Result<Placement, LayoutFault>
    ensures placed { (xs : List Input) → IsGiven resolution.now inputs.now needs.now options.now xs → LayoutGives (resolve options.now xs) result }
    ensures lawful { (xs : List Input) → IsGiven resolution.now inputs.now needs.now options.now xs → SoundInputs xs → IfOk result (λ place. Lawful (resolve options.now xs) place) }
{
    full_placement_is_lawful();
    laid_out(alloc, resolution, inputs, needs, options)
}
