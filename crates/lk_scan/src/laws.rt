//! What the scans of the objects of a link have to do with lk_model's whole link, as the contract of a
//! function that does nothing.

ghost use Rattle.lk_scan.specs.LinkScans.{ObjectsAreScanned, ReferencesByInput, ScansAreTheLinks, SharedAreEmpty};

/// Of any inputs of a command: the references of the link are those of its added inputs, in adding order;
/// the scans of these, put together one after another (`joined`), are what the link needs, its faults, each
/// reported once that is reported once per name, and what an image records of its references. The scan of an object
/// is what `scan` answers of it, and of a shared input there is nothing to scan.
pub fn scans_are_the_links()
    ensures references { ReferencesByInput }
    ensures scans { ScansAreTheLinks }
    ensures objects { ObjectsAreScanned }
    ensures shared { SharedAreEmpty }
{}
