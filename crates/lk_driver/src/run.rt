//! The top call, and the passes of a link: words, command, inputs, resolution, scan, needs, placement, image, commit,
//! status.

ghost use Rattle.std.specs.Prelude.{◌≡◌};
ghost use Rattle.lk_report.specs.Spoken.{Says};
ghost use Rattle.lk_report.specs.Texts.{text_of};
ghost use Rattle.lk_driver.specs.Committing.{IsCommitted, IsSealedImage};
ghost use Rattle.lk_driver.specs.ImageGiven.{ImageGiven};
ghost use Rattle.lk_driver.specs.Outer.{IsDue, DoneLeaves, StopLeaves, ReadFaultReported, DeviceFaultReported, MissingReported, DeviceKept, FilesKept, WordsFirst, words_answer};

use crate::link_needs::check_needs;
use crate::words::accepted_command;
use lk_commit::commit_full;
use lk_image::link_image;
use lk_inputs::{Inputs, read_command, resolve_inputs};
use lk_layout::full_layout;
use lk_outside::{Answer, Device, Files, Turnstile};
use lk_report::{Bytes, NameList, Outcome, Sink, Status, say};
use lk_scan_inputs::{ScannedInputs, scan_inputs};
use std::alloc::Global;
use std::mem;

/// Links what the words ask for and says the status; always returns.
///
/// The gate is not entered yet, since nothing is a task. The first refusal of this order is the answer: the words;
/// those that are not built yet; too many inputs; a failed look-up; all missing inputs; a failed read, or a limit on
/// sizes, as soon as it is met; a shared input, which is not built yet; all faults of inputs; too many names, or the
/// faults of names; the faults of references; needs, which are not built yet; a limit on sections, memory, program
/// headers or the image; values that do not fit; a failed device. Out of memory at any place before the device is
/// touched.
pub fn run_alone<F: Files, D: Device, S: Sink, G: Turnstile>(
    alloc: Global,
    words: &NameList,
    files: &mut F,
    out: &mut D,
    says: &mut S,
    _gate: &G,
) -> Status
    ensures words_first { WordsFirst (words_answer words.now) (F.state files.old) (D.disk out.old) result (F.state files.new) (D.disk out.new) }
    ensures answer { IsDue words.now (F.state files.old) result }
    ensures done { DoneLeaves words.now (F.state files.old) result (D.disk out.new) }
    ensures stopped { StopLeaves words.now (F.state files.old) (D.disk out.old) result (D.disk out.new) }
    ensures read_fault { ReadFaultReported words.now (F.state files.old) result (F.state files.new) }
    ensures device_fault { DeviceFaultReported (D.disk out.old) result (D.disk out.new) }
    ensures missing { MissingReported (F.state files.old) result (F.state files.new) }
    ensures untouched { DeviceKept (D.disk out.old) result (D.disk out.new) }
    ensures files_kept { FilesKept (words_answer words.now) words.now (F.state files.old) result (F.state files.new) }
    ensures said { Says (S.spoken says.old) (S.spoken says.new) (text_of result) }
{
    match image_of_words(alloc, words, files) {
        Ok(image) => say_status(commit_image(out, &image), says),
        Err(status) => say_status(status, says),
    }
}

/// The image of the link that the words ask for: its passes, one after another.
///
/// What a link knows of its inputs is not given back once the image is made: the process ends soon, and giving it back
/// would take a tenth of the time of a link of many names.
///
/// # Errors
/// The first refusal of a pass, in the order of the passes; out of memory at any of them.
fn image_of_words<F: Files>(alloc: Global, words: &NameList, files: &mut F) -> Result<Bytes, Status>
    ensures { ImageGiven words.now (F.state files.old) result (F.state files.new) }
{
    let command = accepted_command(alloc, words)?;
    let options = &command.options;
    let inputs = read_command(alloc, &command, files)?;
    let resolution = resolve_inputs(alloc, &options.entry, &inputs)?;
    let Inputs {
        files: read,
        summaries,
    } = inputs;
    let scanned = scan_inputs(alloc, read, summaries.as_slice(), &resolution)?;
    let ScannedInputs {
        names,
        objects,
        needs,
        references,
    } = scanned;
    let known = names.as_slice();
    let made = objects.as_slice();
    check_needs(alloc, &needs, known)?;
    let placement = full_layout(alloc, &resolution, &summaries, &needs, options)?;
    let image = link_image(
        alloc,
        options,
        known,
        &summaries,
        &resolution,
        made,
        references,
        &placement,
    );
    mem::forget((names, objects, summaries, resolution, placement));
    image
}

/// Puts an image on the output device, so that a stop at any moment leaves the old file, the image, or no base.
fn commit_image<D: Device>(out: &mut D, image: &Bytes) -> Status
    requires { IsSealedImage image.now }
    ensures { IsCommitted (D.disk out.old) image.now result (D.disk out.new) }
{
    match commit_full(out, image.as_slice()) {
        Answer::Done => Status::Done(Outcome::Full(None)),
        Answer::Failed => Status::DeviceFault,
    }
}

/// Says a status, and returns it.
fn say_status<S: Sink>(status: Status, says: &mut S) -> Status
    ensures same { result ≡ status }
    ensures said { Says (S.spoken says.old) (S.spoken says.new) (text_of status) }
{
    say(&status, says);
    status
}
