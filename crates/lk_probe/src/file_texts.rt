//! The text of what the file of a path is.

ghost use Rattle.std.specs.Prelude.{◌≡◌, IfOk, Some};
ghost use Rattle.lk_report.specs.FileMap.{FileMap};
ghost use Rattle.lk_inputs.specs.FileAnswers.{StatusCounts, known_map};
ghost use Rattle.lk_probe.specs.FileTexts.{IsOneFault, IsText, ReportsBytes, ReportsFile, object_text};
ghost use Rattle.lk_probe.specs.SharedFacts.{shared_text};

use crate::reading::{Verdict, judged};
use crate::shared_facts::SharedFacts;
use crate::shared_texts::shared_text;
use crate::writing::{put, put_number};
use lk_outside::{Files, ReadAnswer};
use lk_report::{Bytes, Fault, List, Name, NoMemory, Status};
use std::alloc::Global;

/// What is said of an object with so many section headers and entries of its symbol table.
fn object_text(alloc: Global, sections: usize, symbols: usize) -> Result<Bytes, NoMemory>
    ensures { IfOk result (λ text. text ≡ object_text sections symbols) }
{
    let mut text = Vec::new(alloc);
    put(&mut text, b"object: ")?;
    put_number(alloc, &mut text, sections)?;
    put(&mut text, b" sections, ")?;
    put_number(alloc, &mut text, symbols)?;
    put(&mut text, b" symbols\n")?;
    Bytes::from_vec(text)
}

/// The same, or out of memory as a status.
fn object_reported(alloc: Global, sections: usize, symbols: usize) -> Result<Bytes, Status>
    ensures { IsText (object_text sections symbols) result }
{
    match object_text(alloc, sections, symbols) {
        Ok(text) => Ok(text),
        Err(NoMemory) => Err(Status::NoMemory),
    }
}

/// What is said of a shared object with these facts, or out of memory as a status.
fn shared_reported(alloc: Global, facts: &SharedFacts) -> Result<Bytes, Status>
    ensures { IsText (shared_text facts.now) result }
{
    match shared_text(alloc, facts) {
        Ok(text) => Ok(text),
        Err(NoMemory) => Err(Status::NoMemory),
    }
}

/// The status of one fault.
pub fn one_fault(alloc: Global, fault: Fault) -> Status
    ensures { IsOneFault fault result }
{
    let mut faults = List::new(alloc);
    match faults.push(fault) {
        Ok(()) => Status::LinkError(faults),
        Err(NoMemory) => Status::NoMemory,
    }
}

/// What is said of a file of these bytes, or the status that is reported in its place.
fn bytes_reported(alloc: Global, path: Name, file: &Bytes) -> Result<Bytes, Status>
    ensures { ReportsBytes path file.now result }
{
    match judged(alloc, file, &path) {
        Verdict::Object { sections, symbols } => object_reported(alloc, sections, symbols),
        Verdict::Shared(facts) => shared_reported(alloc, &facts),
        Verdict::Faulty(fault) => Err(one_fault(alloc, Fault::Input { path, fault })),
        Verdict::TooLong(limit) => Err(Status::Limit(limit)),
        Verdict::NoMemory => Err(Status::NoMemory),
    }
}

/// What is said of the file of a path, or the status that is reported in its place.
///
/// # Errors
/// A file that is not there; a read that failed; a file that is longer than an input may be; its first fault;
/// out of memory.
#[tactic(auto, using(lk_inputs::proofs::CallsReported::read_reports, lk_inputs::proofs::CallsReported::read_counts))]
pub fn file_reported<F: Files>(alloc: Global, path: Name, files: &mut F) -> Result<Bytes, Status>
    ensures reported { (there : FileMap) → known_map (F.state files.old) ≡ Some there → ReportsFile path there result }
    ensures faults { StatusCounts (F.state files.old) result (F.state files.new) }
{
    match files.read(&path) {
        ReadAnswer::Got(bytes) => bytes_reported(alloc, path, &bytes),
        ReadAnswer::Absent => Err(one_fault(alloc, Fault::Missing { path })),
        ReadAnswer::Failed => Err(Status::ReadFault(path)),
        ReadAnswer::NoMemory => Err(Status::NoMemory),
    }
}
