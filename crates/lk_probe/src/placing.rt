//! Where a link of inputs that were read, made anew, puts everything.

ghost use Rattle.std.specs.Prelude.{◌≡◌, List, length};
ghost use Rattle.lk_model.specs.Resolving.{resolve};
ghost use Rattle.lk_model.specs.Views.{Input};
ghost use Rattle.lk_scan_inputs.specs.Objects.{AreObjects};
ghost use Rattle.lk_inputs.specs.Asked.{AreSound};
ghost use Rattle.lk_inputs.specs.Refusals.{AreInputs};
ghost use Rattle.lk_probe.specs.Laying.{InputsLaid, IsOfLayout};

use lk_inputs::{Inputs, resolve_inputs};
use lk_layout::full_layout;
use lk_model::commands::Command;
use lk_model::layouts::Placement;
use lk_report::Status;
use lk_scan_inputs::scan_inputs;
use std::alloc::Global;

/// Where a link of inputs that were read, made anew, puts everything: the files are added and resolved, the
/// added ones become objects and are scanned, and what they keep is laid out. No input is shared or has a fault.
///
/// # Errors
/// More names than 2^20; the faults of the names; those of the references; more output sections or memory than
/// a link may have; out of memory.
pub fn place_inputs(alloc: Global, command: &Command, inputs: Inputs) -> Result<Placement, Status>
    requires alike { length inputs.files ≡ length inputs.summaries }
    requires sound { AreSound inputs }
    ensures laid { (xs : List Input) → AreInputs xs inputs → AreObjects xs → InputsLaid (resolve command.now.options xs) result }
    ensures kinds { IsOfLayout result }
{
    let options = &command.options;
    let resolution = resolve_inputs(alloc, &options.entry, &inputs)?;
    let Inputs { files, summaries } = inputs;
    let scanned = scan_inputs(alloc, files, summaries.as_slice(), &resolution)?;
    let placement = full_layout(alloc, &resolution, &summaries, &scanned.needs, options)?;
    Ok(placement)
}
