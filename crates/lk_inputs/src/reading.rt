//! Reading the files of inputs, each once and whole, up to the limits on their sizes.

ghost use Rattle.std.specs.Prelude.{◌≡◌, ◌<◌, ◌≤◌, ◌^◌, ◌+◌, ◌∷◌, [], length, All, Some, IfErr, IfOk, OnOk};
ghost use Rattle.lk_report.specs.FileMap.{FileMap};
ghost use Rattle.lk_inputs.specs.Asked.{AskedInTurn, IsOfReads, ReadAsked, ReadLast, ReadMisses, StatusLast, StatusMisses, StatusNamed, known_stats};
ghost use Rattle.lk_inputs.specs.FilesRead.{ContentReported, IsGone, SizeGives};
ghost use Rattle.lk_inputs.specs.FileNumbers.{NameFits};
ghost use Rattle.lk_inputs.specs.InputsReading.{InputFilesRead};
ghost use Rattle.lk_inputs.specs.FileAnswers.{ReadCounts, ReadNoted, ReadReported, StatusCounts, known_map, known_reads, reads_with};

use crate::input_files::{InputFile, InputFileList};
use crate::look_ups::failed_at;
use crate::unread::status_of;
use lk_model::input_names::{InputName, InputNameList};
use lk_model::limits::{MOST_INPUT_BYTES, MOST_TOTAL_BYTES};
use lk_outside::{Files, ReadAnswer};
use lk_report::{Bytes, Fault, FaultList, LimitFault, LimitKind, List, Name, NoMemory, Status};
use std::alloc::Global;

/// How many bytes of files are read with this one.
///
/// # Errors
/// The limit that is exceeded.
fn total_with(before: u64, file: &[u8]) -> Result<u64, LimitFault>
    requires { before ≤ 2 ^ 30 }
    ensures total { SizeGives before (length file.now) result }
    ensures short { IfOk result (λ total. total ≤ 2 ^ 30) }
    ensures each { OnOk result (length file.now ≤ 2 ^ 26) }
    ensures bytes { All (λ b. b < 256) file.now }
    ensures sizes { IfErr result (λ l. l.which ≡ LimitKind.Inputs → ⊥) }
{
    let length = file.len() as u64;
    if length > MOST_INPUT_BYTES {
        return Err(LimitFault {
            which: LimitKind::InputSize,
            number: length,
        });
    }
    let total = before + length;
    if total > MOST_TOTAL_BYTES {
        return Err(LimitFault {
            which: LimitKind::InputTotal,
            number: total,
        });
    }
    Ok(total)
}

/// The one fault of a file that went away.
fn gone(alloc: Global, path: &Name) -> Result<FaultList, NoMemory>
    ensures { IfOk result (λ faults. faults ≡ Fault.Missing path.now ∷ []) }
{
    let path = path.copy(alloc)?;
    let mut faults = List::new(alloc);
    faults.push(Fault::Missing { path })?;
    Ok(faults)
}

/// The status where a file went away.
fn gone_status(alloc: Global, path: &Name) -> Status
    ensures { IsGone path.now result }
{
    match gone(alloc, path) {
        Ok(faults) => Status::LinkError(faults),
        Err(NoMemory) => Status::NoMemory,
    }
}

/// Reads the file of a path.
#[tactic(auto, using(crate::proofs::CallsReported::read_keeps, crate::proofs::CallsReported::read_noted_as, crate::proofs::CallsReported::read_reports, crate::proofs::CallsReported::read_counts, crate::proofs::CallsAsked::read_asked, crate::proofs::CallsAsked::read_unlooked, crate::proofs::CallsAsked::read_last, crate::proofs::CallsAsked::read_misses))]
fn read<F: Files>(files: &mut F, path: &Name) -> ReadAnswer
    ensures kept { known_map (F.state files.new) ≡ known_map (F.state files.old) }
    ensures noted { ReadNoted (F.state files.old) path.now result (F.state files.new) }
    ensures reported { (there : FileMap) → known_map (F.state files.old) ≡ Some there → ReadReported there path.now result }
    ensures faults { ReadCounts (F.state files.old) path.now result (F.state files.new) }
    ensures asked { ReadAsked (known_reads (F.state files.old)) path.now result (known_reads (F.state files.new)) }
    ensures unlooked { known_stats (F.state files.new) ≡ known_stats (F.state files.old) }
    ensures last { ReadLast (F.state files.old) result (F.state files.new) }
    ensures misses { ReadMisses (F.state files.old) result (F.state files.new) }
{
    files.read(path)
}

/// The bytes of the file of a path.
///
/// # Errors
/// A read that failed; a file that went away since it was looked up; out of memory.
fn read_file<F: Files>(alloc: Global, path: &Name, files: &mut F) -> Result<Bytes, Status>
    ensures kept { known_map (F.state files.new) ≡ known_map (F.state files.old) }
    ensures noted { OnOk result (known_reads (F.state files.new) ≡ reads_with (path.now ∷ []) (known_reads (F.state files.old))) }
    ensures reported { (there : FileMap) → known_map (F.state files.old) ≡ Some there → ContentReported there path.now result }
    ensures faults { StatusCounts (F.state files.old) result (F.state files.new) }
    ensures asked { AskedInTurn (known_reads (F.state files.old)) (path.now ∷ []) result (known_reads (F.state files.new)) }
    ensures unlooked { known_stats (F.state files.new) ≡ known_stats (F.state files.old) }
    ensures last { StatusLast (F.state files.old) result (F.state files.new) }
    ensures misses { StatusMisses (F.state files.old) result (F.state files.new) }
    ensures named { StatusNamed (path.now ∷ []) result }
    ensures kinds { IsOfReads result }
{
    match read(files, path) {
        ReadAnswer::Got(bytes) => Ok(bytes),
        ReadAnswer::Absent => Err(gone_status(alloc, path)),
        ReadAnswer::Failed => Err(status_of(failed_at(alloc, path))),
        ReadAnswer::NoMemory => Err(Status::NoMemory),
    }
}

/// An input with the content of its file.
fn input_of(name: InputName, bytes: Bytes) -> InputFile
    ensures is { result ≡ record { name = name; bytes = bytes } }
    ensures fits { NameFits name }
{
    InputFile { name, bytes }
}

/// Reads the files of inputs in command order, each once.
///
/// # Errors
/// As soon as it is met: a read that failed; a file that went away since it was looked up; a file of more
/// than 64 MiB, or files of more than 1 GiB together; out of memory.
#[tactic(auto, using(crate::proofs::CallsReported::reads_none, crate::proofs::CallsReported::reads_more))]
pub fn read_inputs<F: Files>(
    alloc: Global,
    names: InputNameList,
    files: &mut F,
) -> Result<InputFileList, Status>
    ensures { InputFilesRead names (F.state files.old) result (F.state files.new) }
{
    let mut inputs = List::new(alloc);
    let mut total = 0;
    for name in names.into_vec() {
        let bytes = read_file(alloc, &name.path, files)?;
        total = match total_with(total, bytes.as_slice()) {
            Ok(total) => total,
            Err(limit) => return Err(Status::Limit(limit)),
        };
        if inputs.push(input_of(name, bytes)).is_err() {
            return Err(Status::NoMemory);
        }
    }
    Ok(inputs)
}
