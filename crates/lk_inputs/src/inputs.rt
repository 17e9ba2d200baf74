//! The inputs of a command: they are looked up, read and summarized.

ghost use Rattle.std.specs.Prelude.{◌≤◌, ◌^◌, length, All};
ghost use Rattle.lk_inputs.specs.Asked.{IsOfObjects};
ghost use Rattle.lk_inputs.specs.FilesRead.{ObjectsGive, WaitGives};
ghost use Rattle.lk_inputs.specs.InputsReading.{InputsRead, NamedRead};

use crate::input_files::{InputFile, InputFileList};
use crate::reading::read_inputs;
use crate::shared_inputs::first_shared;
use crate::summaries::read_summaries;
use crate::word_look_ups::look_up_inputs;
use lk_model::commands::Command;
use lk_model::input_names::InputNameList;
use lk_model::summaries::SummaryList;
use lk_outside::Files;
use lk_report::{NoMemory, Status, Waiting};
use std::alloc::Global;

/// The inputs of a command, by number: their files, and the summary of each.
#[derive(Drop)]
pub struct Inputs {
    pub files: InputFileList,
    pub summaries: SummaryList,
}

/// Whether no input is a shared object, which links do not read yet.
///
/// # Errors
/// `NotYet` with the path of the first shared object; out of memory.
fn shared_wait(alloc: Global, files: &[InputFile]) -> Result<(), Status>
    ensures { WaitGives files.now result }
{
    match first_shared(alloc, files) {
        Ok(None) => Ok(()),
        Ok(Some(path)) => Err(Status::NotYet(Waiting::Form { path })),
        Err(NoMemory) => Err(Status::NoMemory),
    }
}

/// The summaries of files, none of which may be a shared object.
///
/// # Errors
/// The first shared object; else all faults of the files; out of memory.
#[tactic(auto, using(crate::proofs::KindsReported::objects_kinds))]
fn objects_of(alloc: Global, files: &[InputFile]) -> Result<SummaryList, Status>
    requires { All (λ file. length file.bytes ≤ 2 ^ 26) files.now }
    ensures reported { ObjectsGive files.now result }
    ensures kinds { IsOfObjects result }
{
    shared_wait(alloc, files)?;
    read_summaries(alloc, files)
}

/// The inputs of these names, whose files are there, each read once.
///
/// # Errors
/// As soon as it is met: a read that failed, a file that went away, a limit on sizes; then a shared input; then
/// all faults of inputs. Out of memory at any place.
fn read_named<F: Files>(
    alloc: Global,
    names: InputNameList,
    files: &mut F,
) -> Result<Inputs, Status>
    ensures { NamedRead names (F.state files.old) result (F.state files.new) }
{
    let inputs = read_inputs(alloc, names, files)?;
    let summaries = objects_of(alloc, inputs.as_slice())?;
    Ok(Inputs {
        files: inputs,
        summaries,
    })
}

/// The inputs of a command, each looked up and then read once.
///
/// # Errors
/// The first of these: more inputs than 4,096; a look-up that failed; all inputs that are not there; a read
/// that failed, a file that went away, or a limit on sizes, as soon as it is met; a shared input, which
/// links do not read yet; all faults of inputs, in command order. Out of memory at any place.
pub fn read_command<F: Files>(
    alloc: Global,
    command: &Command,
    files: &mut F,
) -> Result<Inputs, Status>
    ensures { InputsRead command.now (F.state files.old) result (F.state files.new) }
{
    let names = look_up_inputs(alloc, command, files)?;
    read_named(alloc, names, files)
}
