//! The objects of a link are scanned one after another, in adding order.

ghost use Rattle.std.specs.Prelude.{◌≡◌, ◌≤◌, Some, length, IfOk, OnOk};
ghost use Rattle.std.specs.Option.{option_copied, option_map};
ghost use Rattle.lk_model.specs.Finding.{Found};
ghost use Rattle.lk_resolve.specs.Settling.{IsFound};
ghost use Rattle.lk_scan.specs.Scans.{Answers};
ghost use Rattle.lk_scan.specs.Targets.{meanings_of};
ghost use Rattle.lk_scan.specs.declared.noting.Scan.{Scan};
ghost use Rattle.lk_scan_inputs.specs.Scans.{AreNamedObjects, object_in, scan_with, scans_of};

use lk_obj_read::Object;
use lk_report::NoMemory;
use lk_resolve::Resolution;
use lk_scan::{LinkScan, NameMeanings, ScanFailure, Scanned};
use std::alloc::Global;

/// The object of an input.
fn object_in(objects: &[Option<Object>], input: u32) -> Option<&Object>
    ensures { option_copied result ≡ object_in objects.now input }
{
    match objects.get(input as usize) {
        Some(object) => object.as_ref(),
        None => None,
    }
}

/// Scans an input, where it has an object, after those that were scanned before.
fn add_object(
    scan: &mut LinkScan,
    objects: &[Option<Object>],
    input: u32,
    resolution: &Resolution,
    meanings: &NameMeanings,
) -> Result<(), NoMemory>
    requires numbered { length objects.now ≤ length resolution.now.paths }
    requires meanings { meanings.now ≡ meanings_of resolution.now.rows }
    ensures { (found : Found) (before : Scan) → IsFound resolution.now found → AreNamedObjects found objects.now → scan.old ≡ Some before → OnOk result (scan.new ≡ Some (scan_with found objects.now before input)) }
{
    match object_in(objects, input) {
        Some(object) => scan.add(object, input, resolution, meanings),
        None => Ok(()),
    }
}

/// Scans the inputs that are added, in adding order.
fn scan_added(
    alloc: Global,
    objects: &[Option<Object>],
    resolution: &Resolution,
) -> Result<LinkScan, NoMemory>
    requires { length objects.now ≤ length resolution.now.paths }
    ensures { (found : Found) → IsFound resolution.now found → AreNamedObjects found objects.now → IfOk result (λ scan. scan ≡ Some (scans_of found objects.now resolution.now.added)) }
{
    let meanings = NameMeanings::of(alloc, resolution.names())?;
    let mut scan = LinkScan::new(alloc);
    for input in resolution.added().as_slice() {
        add_object(&mut scan, objects, *input, resolution, &meanings)?;
    }
    Ok(scan)
}

/// What the added objects of a link need, and what an image records of their references.
///
/// # Errors
/// All faults of their references; out of memory.
pub fn scan_objects(
    alloc: Global,
    objects: &[Option<Object>],
    resolution: &Resolution,
) -> Result<Scanned, ScanFailure>
    requires { length objects.now ≤ length resolution.now.paths }
    ensures { (found : Found) → IsFound resolution.now found → AreNamedObjects found objects.now → Answers (scans_of found objects.now resolution.now.added) result }
{
    match scan_added(alloc, objects, resolution) {
        Ok(scan) => scan.finish(),
        Err(NoMemory) => Err(ScanFailure::NoMemory),
    }
}
