//! The scan of the inputs of a link, from their files.

ghost use Rattle.std.specs.Prelude.{◌≡◌, ◌≤◌, List, [], filter_map, length, map, IfOk};
ghost use Rattle.lk_report.specs.declared.causes.OptionRecord.{OptionRecord};
ghost use Rattle.lk_model.specs.Resolving.{resolve};
ghost use Rattle.lk_model.specs.Views.{Input};
ghost use Rattle.lk_resolve.specs.Given.{found_in};
ghost use Rattle.lk_inputs.specs.FilesRead.{fault_in, summary_of};
ghost use Rattle.lk_inputs.specs.Named.{files_of};
ghost use Rattle.lk_resolve.specs.Settling.{IsFound};
ghost use Rattle.lk_scan_inputs.specs.Objects.{AreObjects};
ghost use Rattle.lk_scan_inputs.specs.Scans.{InputsScanned};

use crate::object_reading::{ObjectList, read_objects};
use crate::object_scans::scan_objects;
use lk_inputs::InputFileList;
use lk_model::input_names::InputNameList;
use lk_model::layouts::Needs;
use lk_model::records::ReferenceList;
use lk_model::summaries::InputSummary;
use lk_resolve::Resolution;
use lk_scan::ScanFailure;
use std::alloc::Global;

/// The inputs of a link with the objects of those that are added, and what the references of these need.
#[derive(Drop)]
pub struct ScannedInputs {
    /// What is known of each input, by its number.
    pub names: InputNameList,
    /// The object of each input that is added, by its number; none of another.
    pub objects: ObjectList,
    /// Each slot, entry and copy once, in order of the first reference that needs it.
    pub needs: Needs,
    /// The references through names, in adding order, by piece and relocation.
    pub references: ReferenceList,
}

/// Makes objects of the added inputs of a link, and scans these in adding order: what their references need, and
/// what an image records of them (psABI x86-64, "Relocation Types"). The files are given away, so that objects own
/// their bytes, and none are copied. No file has a fault, and these are the summaries of the files, by number, so
/// that no file is checked or summarized here.
///
/// # Errors
/// All faults of the references, in adding order, by piece and relocation; out of memory.
pub fn scan_inputs(
    alloc: Global,
    files: InputFileList,
    summaries: &[InputSummary],
    resolution: &Resolution,
) -> Result<ScannedInputs, ScanFailure>
    requires sound { filter_map fault_in files ≡ [] }
    requires summaries { summaries.now ≡ map summary_of files }
    requires numbered { length files ≤ length resolution.now.paths }
    ensures scanned { (options : OptionRecord) (xs : List Input) → files ≡ files_of xs → AreObjects xs → IsFound resolution.now (found_in options.entry xs) → InputsScanned (resolve options xs) files result }
    ensures count { IfOk result (λ scanned. length scanned.names ≡ length files) }
{
    let Ok(read) = read_objects(alloc, files, summaries, resolution) else {
        return Err(ScanFailure::NoMemory);
    };
    let scanned = scan_objects(alloc, read.objects.as_slice(), resolution)?;
    Ok(ScannedInputs {
        names: read.names,
        objects: read.objects,
        needs: scanned.needs,
        references: scanned.references,
    })
}
