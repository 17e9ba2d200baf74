//! The summaries of the files of a link's inputs, or all their faults.

ghost use Rattle.std.specs.Prelude.{◌≡◌, ◌≤◌, ◌^◌, nat_lt, length, All, IfOk};
ghost use Rattle.lk_inputs.specs.FilesRead.{AreJudged, SummariesGive};

use crate::input_files::InputFile;
use lk_model::summaries::SummaryList;
use lk_obj_read::{ReadFailure, summarize};
use lk_report::{Fault, FaultList, InputFault, List, NoMemory, Status};
use std::alloc::Global;

/// Files read as objects: their summaries and their faults.
#[derive(Drop)]
pub struct Judged {
    /// The summaries of those without a fault.
    pub summaries: SummaryList,
    /// The first fault of each of the others, with its path.
    pub faults: FaultList,
}

/// The fault of a file, with its path.
fn fault_of(alloc: Global, file: &InputFile, fault: InputFault) -> Result<Fault, NoMemory>
    ensures { IfOk result (λ reported. reported ≡ Fault.Input file.now.name.path fault) }
{
    let path = file.name.path.copy(alloc)?;
    Ok(Fault::Input { path, fault })
}

/// Reads files as objects.
fn judge(alloc: Global, files: &[InputFile]) -> Result<Judged, NoMemory>
    requires { All (λ file. length file.bytes ≤ 2 ^ 26) files.now }
    ensures { IfOk result (AreJudged files.now) }
{
    let mut summaries = List::new(alloc);
    let mut faults = List::new(alloc);
    for file in files {
        match summarize(alloc, &file.bytes) {
            Ok(summary) => summaries.push(summary)?,
            Err(ReadFailure::Input(fault)) => faults.push(fault_of(alloc, file, fault)?)?,
            Err(ReadFailure::NoMemory) => return Err(NoMemory),
        }
    }
    Ok(Judged { summaries, faults })
}

/// Whether there is a fault.
fn has_faults(faults: &FaultList) -> bool
    ensures { result ≡ nat_lt 0 (length faults.now) }
{
    faults.as_slice().len() > 0
}

/// The summaries of files that are read as objects, in their order.
///
/// # Errors
/// The faults of all files that have one, in order; out of memory.
pub fn read_summaries(alloc: Global, files: &[InputFile]) -> Result<SummaryList, Status>
    requires { All (λ file. length file.bytes ≤ 2 ^ 26) files.now }
    ensures { SummariesGive files.now result }
{
    let Ok(judged) = judge(alloc, files) else {
        return Err(Status::NoMemory);
    };
    let Judged { summaries, faults } = judged;
    if has_faults(&faults) {
        return Err(Status::LinkError(faults));
    }
    Ok(summaries)
}
