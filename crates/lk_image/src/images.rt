//! The image of a link, from its placement to its bytes.

ghost use Rattle.std.specs.Prelude.{◌≡◌, List, length, map, replicate, IfOk};
ghost use Rattle.lk_model.specs.Answers.{length_with};
ghost use Rattle.lk_model.specs.References.{recorded_of};
ghost use Rattle.lk_model.specs.Resolving.{resolve};
ghost use Rattle.lk_model.specs.Tail.{Part};
ghost use Rattle.lk_model.specs.Views.{Input, Resolved};
ghost use Rattle.lk_model.specs.InputNames.{name_of};
ghost use Rattle.lk_image.specs.ImageAnswers.{FillAnswers, ImageAnswers};
ghost use Rattle.lk_image.specs.PlacedLinks.{IsFramed, IsPlacedLink};
ghost use Rattle.lk_image.specs.Tails.{placed_tail};
ghost use Rattle.lk_records.specs.Occurrences.{OccurrencesAreRight};

use crate::described::describe;
use crate::limits::check_length;
use crate::placed_tails::PlacedTail;
use crate::writing::{put_front, put_tail};
use lk_fill::fill_holes;
use lk_headers::headers;
use lk_model::input_names::InputName;
use lk_model::layouts::Placement;
use lk_model::records::ReferenceList;
use lk_model::summaries::SummaryList;
use lk_obj_read::Object;
use lk_records::exec_stack;
use lk_relocate::link_pieces;
use lk_report::{Bytes, NoMemory, OptionRecord, Status};
use lk_resolve::Resolution;
use lk_symbol_values::Values;
use std::alloc::Global;

/// A file of `count` zeros.
fn zeros(alloc: Global, count: usize) -> Result<Vec<u8>, NoMemory>
    ensures { IfOk result (λ bytes. bytes.items ≡ replicate count 0) }
{
    let mut bytes = Vec::new(alloc);
    match bytes.resize(count, 0) {
        Ok(()) => Ok(bytes),
        Err(_) => Err(NoMemory),
    }
}

/// Writes an image from front to back into a file of zeros: the headers and the seal, the linked bytes of the pieces,
/// the fill of the holes between them, the tail.
fn fill_image(
    alloc: Global,
    objects: &[Option<Object>],
    values: &Values<'_>,
    front: &[u8],
    tail: &PlacedTail,
    image: &mut [u8],
) -> Result<(), Status>
    ensures { (r : Resolved) (parts : List Part) → tail.now ≡ placed_tail values.now.place parts → IsFramed values.now objects.now r parts front.now → image.old ≡ replicate (length_with values.now.place parts) 0 → FillAnswers r values.now.place parts image.new result }
{
    put_front(image, front);
    let faults = link_pieces(alloc, objects, values, image)?;
    if faults.as_slice().len() > 0 {
        return Err(Status::LinkError(faults));
    }
    fill_holes(alloc, values.placement(), image)?;
    put_tail(image, tail);
    Ok(())
}

/// The image of a static link without tables, at a placement that it may have (gABI "Object Files"): headers, seal,
/// the linked bytes of its pieces, the fill of its holes, the tail with the records of the link, section headers.
///
/// `names` and `summaries` are those of each input by its number, `objects` has the object of each added one, and
/// `references` are those that an image records, which are dropped first: the record sections of today have none.
///
/// # Errors
/// `Limit` if the placement asks for more than 64 program headers, else if the image would be longer than 512 MiB,
/// with the whole number; `LinkError` with all values that do not fit their fields; `NoMemory`.
pub fn link_image(
    alloc: Global,
    options: &OptionRecord,
    names: &[InputName],
    summaries: &SummaryList,
    resolution: &Resolution,
    objects: &[Option<Object>],
    references: ReferenceList,
    placement: &Placement,
) -> Result<Bytes, Status>
    requires { length names.now ≡ length summaries.now }
    ensures { (xs : List Input) → IsPlacedLink resolution.now summaries.now objects.now options.now xs placement.now → names.now ≡ map name_of xs → OccurrencesAreRight xs → references ≡ recorded_of (resolve options.now xs).references → ImageAnswers (resolve options.now xs) placement.now result }
{
    drop(references);
    let read = summaries.as_slice();
    let stack = exec_stack(read, resolution);
    let tail = describe(alloc, options, names, read, resolution, placement)?;
    let values = Values::new(alloc, resolution, summaries, placement)?;
    let entry = values.entry(&options.entry);
    let front = headers(alloc, placement, &tail.rows, entry, stack)?;
    check_length(tail.length)?;
    let mut image = zeros(alloc, tail.length as usize)?;
    fill_image(alloc, objects, &values, front.as_slice(), &tail, &mut image)?;
    let bytes = Bytes::from_vec(image)?;
    Ok(bytes)
}
