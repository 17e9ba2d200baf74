//! The tail of the image of a link: its records are put together and spelled, and get their places.

ghost use Rattle.std.specs.Prelude.{◌≡◌, List, length, map, IfOk};
ghost use Rattle.lk_model.specs.Resolving.{resolve};
ghost use Rattle.lk_model.specs.Views.{Input};
ghost use Rattle.lk_model.specs.InputNames.{name_of};
ghost use Rattle.lk_model.specs.InputNames.{input_summary};
ghost use Rattle.lk_resolve.specs.Given.{found_in};
ghost use Rattle.lk_image.specs.Tails.{tail_of_link};
ghost use Rattle.lk_records.specs.Occurrences.{OccurrencesAreRight};
ghost use Rattle.lk_resolve.specs.Settling.{IsFound};

use crate::placed_tails::{PlacedTail, place_tail};
use lk_incr::tail;
use lk_model::input_names::InputName;
use lk_model::layouts::Placement;
use lk_model::summaries::InputSummary;
use lk_records::link_records;
use lk_report::{NoMemory, OptionRecord};
use lk_resolve::Resolution;
use std::alloc::Global;

/// The tail of the image of a link. Its records borrow the names, the summaries and the placement.
///
/// # Errors
/// Out of memory.
pub(crate) fn describe(
    alloc: Global,
    options: &OptionRecord,
    names: &[InputName],
    summaries: &[InputSummary],
    resolution: &Resolution,
    placement: &Placement,
) -> Result<PlacedTail, NoMemory>
    requires { length names.now ≡ length summaries.now }
    ensures { (xs : List Input) → names.now ≡ map name_of xs → summaries.now ≡ map input_summary xs → OccurrencesAreRight xs → IsFound resolution.now (found_in options.now.entry xs) → IfOk result (λ tail. tail ≡ tail_of_link (resolve options.now xs) placement.now) }
{
    let records = link_records(alloc, options, names, summaries, resolution, placement)?;
    let parts = tail(alloc, &records)?;
    let placed = place_tail(alloc, placement, parts)?;
    Ok(placed)
}
