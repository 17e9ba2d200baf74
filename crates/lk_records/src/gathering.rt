//! What an image records of a link: its options, inputs and placement.

ghost use Rattle.std.specs.Prelude.{◌≡◌, List, length, map, IfOk};
ghost use Rattle.lk_model.specs.InputNames.{input_summary, name_of};
ghost use Rattle.lk_model.specs.RecordsOf.{records_of};
ghost use Rattle.lk_model.specs.Resolving.{resolve};
ghost use Rattle.lk_model.specs.Views.{Input};
ghost use Rattle.lk_incr.specs.RecordParts.{parts_of};
ghost use Rattle.lk_resolve.specs.Given.{found_in};
ghost use Rattle.lk_resolve.specs.Settling.{IsFound};
ghost use Rattle.lk_records.specs.Gathered.{gathered};
ghost use Rattle.lk_records.specs.Occurrences.{OccurrencesAreRight};

use crate::input_records::input_records;
use lk_incr::RecordParts;
use lk_model::input_names::InputName;
use lk_model::layouts::Placement;
use lk_model::summaries::InputSummary;
use lk_report::{NoMemory, OptionRecord};
use lk_resolve::Resolution;
use std::alloc::Global;

/// The version of the records that this linker writes.
const RECORDS_VERSION: u32 = 1;

/// What is recorded of these inputs and what they were resolved to.
#[tactic(auto, unfolding(crate::specs::Gathered::gathered))]
fn gather<'a>(
    alloc: Global,
    options: &'a OptionRecord,
    names: &'a [InputName],
    summaries: &'a [InputSummary],
    resolution: &Resolution,
    placement: &'a Placement,
) -> Result<RecordParts<'a>, NoMemory>
    requires { length names.now ≡ length summaries.now }
    ensures { IfOk result (λ parts. parts ≡ gathered options.now names.now summaries.now resolution.now placement.now) }
{
    let inputs = input_records(alloc, names, summaries, resolution.added().as_slice())?;
    Ok(RecordParts::of(
        RECORDS_VERSION,
        options,
        resolution.dynamic(),
        inputs,
        placement,
    ))
}

/// What an image records of a link: the parts of the records (lk_model's `records_of`) of the inputs that have these
/// names and summaries, by number, which were resolved to this, and of where everything is. All of it is borrowed.
///
/// # Errors
/// Out of memory, which also answers more inputs of one path than have numbers of 32 bits.
pub fn link_records<'a>(
    alloc: Global,
    options: &'a OptionRecord,
    names: &'a [InputName],
    summaries: &'a [InputSummary],
    resolution: &Resolution,
    placement: &'a Placement,
) -> Result<RecordParts<'a>, NoMemory>
    requires { length names.now ≡ length summaries.now }
    ensures { (xs : List Input) → names.now ≡ map name_of xs → summaries.now ≡ map input_summary xs → OccurrencesAreRight xs → IsFound resolution.now (found_in options.now.entry xs) → IfOk result (λ parts. parts ≡ parts_of (records_of (resolve options.now xs) placement.now)) }
{
    gather(alloc, options, names, summaries, resolution, placement)
}
