//! What the bytes of a file are.

ghost use Rattle.std.specs.Prelude.{◌≡◌, ◌≤◌, ◌<◌, ◌^◌, ℕ, List, length, IfOk, Some, None, Ok};
ghost use Rattle.lk_model.specs.Kinds.{kind_of};
ghost use Rattle.lk_model.specs.ObjectChecks.{object_fault};
ghost use Rattle.lk_probe.specs.Judging.{AreCounts, IsJudged};

use crate::shared_facts::{SharedFacts, facts_of};
use lk_elf::Ehdr;
use lk_model::limits::MOST_INPUT_BYTES;
use lk_model::summaries::Kind;
use lk_obj_parts::{read_sections, read_symbols};
use lk_obj_read::object_fault;
use lk_report::{Bytes, InputFault, LimitFault, LimitKind, Name, NoMemory};
use lk_summary::{ReadFailure, kind_of};
use std::alloc::Global;

/// What a file is.
#[derive(Drop)]
pub enum Verdict {
    /// An object that can be linked, with so many section headers and entries of its symbol table.
    Object { sections: usize, symbols: usize },
    /// A shared object with its name, its needs and the numbers of its symbols.
    Shared(SharedFacts),
    /// A file with this first fault.
    Faulty(InputFault),
    /// A file that is longer than an input may be.
    TooLong(LimitFault),
    /// There was no memory for the answer.
    NoMemory,
}

/// What the bytes of a file at a path are.
pub fn judged(alloc: Global, file: &Bytes, path: &Name) -> Verdict
    ensures { IsJudged path.now file.now result }
{
    if file.as_slice().len() as u64 > MOST_INPUT_BYTES {
        return Verdict::TooLong(LimitFault {
            which: LimitKind::InputSize,
            number: file.as_slice().len() as u64,
        });
    }
    match kind_of(file.as_slice()) {
        Ok(Kind::Object) => judged_object(alloc, file),
        Ok(Kind::Shared) => judged_shared(alloc, file, path),
        Err(fault) => Verdict::Faulty(fault),
    }
}

/// What the bytes of a relocatable object are.
#[tactic(auto, using(crate::proofs::FirstHeaders::has_header))]
fn judged_object(alloc: Global, file: &Bytes) -> Verdict
    requires short { length file.now ≤ 2 ^ 26 }
    requires relocatable { kind_of file.now ≡ Ok Kind.Object }
    ensures { (path : List ℕ) → IsJudged path file.now result }
{
    match object_fault(alloc, file.as_slice()) {
        Ok(None) => counted(alloc, file),
        Ok(Some(fault)) => Verdict::Faulty(fault),
        Err(NoMemory) => Verdict::NoMemory,
    }
}

/// What the bytes of a shared object at a path are.
#[tactic(auto, using(lk_summary::proofs::KindsKnown::no_header))]
fn judged_shared(alloc: Global, file: &Bytes, path: &Name) -> Verdict
    requires short { length file.now ≤ 2 ^ 26 }
    requires shared { kind_of file.now ≡ Ok Kind.Shared }
    ensures { IsJudged path.now file.now result }
{
    match facts_of(alloc, file, path) {
        Ok(facts) => Verdict::Shared(facts),
        Err(ReadFailure::Input(fault)) => Verdict::Faulty(fault),
        Err(ReadFailure::NoMemory) => Verdict::NoMemory,
    }
}

/// An object with its counts.
fn counted(alloc: Global, file: &Bytes) -> Verdict
    requires sound { object_fault file.now ≡ None }
    requires relocatable { kind_of file.now ≡ Ok Kind.Object }
    requires short { length file.now ≤ 2 ^ 26 }
    requires headed { 64 ≤ length file.now }
    ensures { (path : List ℕ) → IsJudged path file.now result }
{
    match counts(alloc, file) {
        Ok((sections, symbols)) => Verdict::Object { sections, symbols },
        Err(NoMemory) => Verdict::NoMemory,
    }
}

/// The numbers of section headers and of entries of the symbol table.
fn counts(alloc: Global, file: &Bytes) -> Result<(usize, usize), NoMemory>
    requires headed { 64 ≤ length file.now }
    ensures { IfOk result (AreCounts file.now) }
{
    let bytes = file.as_slice();
    let Ok(header) = Ehdr::read_at(bytes, 0) else {
        return Ok((0, 0));
    };
    let sections = read_sections(alloc, bytes, &header)?;
    let symbols = read_symbols(alloc, bytes, &sections)?;
    Ok((sections.len(), symbols.len()))
}
