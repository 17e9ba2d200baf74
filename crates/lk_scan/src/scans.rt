//! The scan of an object: what the references of its kept pieces need, what an image records of them, and
//! their faults.

ghost use Rattle.std.specs.Prelude.{◌≡◌, ◌<◌, IfOk, nat_lt, length};
ghost use Rattle.lk_model.specs.Elf.{elf_of};
ghost use Rattle.lk_model.specs.Finding.{Found};
ghost use Rattle.lk_model.specs.Objects.{summary_in};
ghost use Rattle.lk_resolve.specs.NamedSymbols.{AreNamed};
ghost use Rattle.lk_resolve.specs.Settling.{IsFound};
ghost use Rattle.lk_scan.specs.Noted.{nothing_noted, with_pieces};
ghost use Rattle.lk_scan.specs.Scans.{object_references, Answers, ScanGives};

use crate::noting::{Scan, new_scan, note_pieces};
use crate::target_lists::target_list;
use lk_model::layouts::Needs;
use lk_model::records::ReferenceList;
use lk_obj_read::Object;
use lk_report::{FaultList, NoMemory};
use lk_resolve::Resolution;
use std::alloc::Global;

/// What the references of an object need, and what an image records of them.
#[derive(Drop)]
pub struct Scanned {
    /// Each slot, entry and copy once, in order of the first reference that needs it.
    pub needs: Needs,
    /// The references through names, by piece and relocation.
    pub references: ReferenceList,
}

/// What a scan answers in place of that.
#[derive(PartialEq, Eq, Debug, Drop)]
pub enum ScanFailure {
    /// The faults of the references, in order.
    Faults(FaultList),
    /// Out of memory.
    NoMemory,
}

/// Whether there is a fault.
fn has_faults(faults: &FaultList) -> bool
    ensures { result ≡ nat_lt 0 (length faults.now) }
{
    faults.as_slice().len() > 0
}

/// Looks at all references of the kept pieces of an object.
fn note_all(
    alloc: Global,
    object: &Object,
    input: u32,
    resolution: &Resolution,
) -> Result<Scan, NoMemory>
    requires { input < length resolution.now.paths }
    ensures { IfOk result (λ scan. scan ≡ with_pieces resolution.now (elf_of object.now) (summary_in (elf_of object.now)) input nothing_noted (summary_in (elf_of object.now)).pieces) }
{
    let targets = target_list(alloc, resolution, None, object, input)?;
    let mut scan = new_scan(alloc);
    note_pieces(&mut scan, &targets, resolution, object, input)?;
    Ok(scan)
}

/// What is answered once all references were looked at.
#[tactic(auto, using(crate::proofs::NoFaults::none_where_empty))]
pub fn answer(alloc: Global, scan: Scan) -> Result<Scanned, ScanFailure>
    ensures { Answers scan result }
{
    let Scan {
        needs,
        reported,
        references,
    } = scan;
    let faults = reported.into_faults();
    if has_faults(&faults) {
        return Err(ScanFailure::Faults(faults));
    }
    let Ok(needs) = needs.to_needs(alloc) else {
        return Err(ScanFailure::NoMemory);
    };
    Ok(Scanned { needs, references })
}

/// Scans an object, which is the input with this number: the relocations of those of its pieces that are
/// kept, in order (psABI x86-64, "Relocation Types"). Each is looked at once, and each of the object's
/// symbols that are not LOCAL is looked up once, by its number: they are named where the object is the one that was
/// added as this input.
///
/// # Errors
/// All faults of the references, by piece and relocation, several of one reference in the order in which
/// `Fault` has them, an undefined name and the empty copy of a name once; or out of memory.
#[tactic(auto, using(crate::proofs::PiecesNoted::scan_answers))]
pub fn scan(
    alloc: Global,
    object: &Object,
    input: u32,
    resolution: &Resolution,
) -> Result<Scanned, ScanFailure>
    requires { input < length resolution.now.paths }
    ensures { (found : Found) → IsFound resolution.now found → AreNamed found.names input (summary_in (elf_of object.now)).globals → ScanGives found (elf_of object.now) (object_references found (elf_of object.now) input) result }
{
    let Ok(scan) = note_all(alloc, object, input, resolution) else {
        return Err(ScanFailure::NoMemory);
    };
    answer(alloc, scan)
}
