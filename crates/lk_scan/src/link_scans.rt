//! The scan of a whole link: its objects are scanned one after another, in adding order, and what they need
//! and the faults that they have are put together.

ghost use Rattle.std.specs.Prelude.{◌≡◌, ◌<◌, None, Some, Err, IsErr, OnErr, OnOk, length};
ghost use Rattle.lk_model.specs.Elf.{elf_of};
ghost use Rattle.lk_model.specs.Finding.{Found};
ghost use Rattle.lk_resolve.specs.NamedSymbols.{AreNamed};
ghost use Rattle.lk_resolve.specs.Settling.{IsFound};
ghost use Rattle.lk_scan.specs.declared.noting.Scan.{Scan};
ghost use Rattle.lk_scan.specs.LinkScans.{joined, scan_of};
ghost use Rattle.lk_model.specs.Objects.{summary_in};
ghost use Rattle.lk_scan.specs.Noted.{nothing_noted, with_pieces};
ghost use Rattle.lk_scan.specs.Scans.{Answers, object_references};
ghost use Rattle.lk_scan.specs.Targets.{meanings_of};

use crate::name_meanings::NameMeanings;
use crate::noting::{Scan, new_scan, note_pieces};
use crate::scans::{ScanFailure, Scanned, answer};
use crate::target_lists::target_list;
use lk_obj_read::Object;
use lk_report::NoMemory;
use lk_resolve::Resolution;
use std::alloc::Global;
use std::marker::Model;

/// What the objects of a link so far need, and their faults. Contracts see it as what is noted of their
/// references, or as none once it ran out of memory: it answers so from then on.
#[derive(Drop)]
pub struct LinkScan {
    alloc: Global,
    scan: Scan,
    is_spent: bool,
}

impl Model for LinkScan {
    ghost use Rattle.std.specs.Prelude.{Option, Some, None, cond};
    ghost use Rattle.lk_scan.specs.declared.noting.Scan.{Scan};

    ghost Value = { Option Scan };

    ghost view = { λ s. cond s.is_spent None (Some s.scan) };
}

/// Looks at the references of an object's kept pieces, after those that were looked at before.
fn note_object(
    alloc: Global,
    scan: &mut Scan,
    meanings: &NameMeanings,
    resolution: &Resolution,
    object: &Object,
    input: u32,
) -> Result<(), NoMemory>
    requires meanings { meanings.now ≡ meanings_of resolution.now.rows }
    requires input { input < length resolution.now.paths }
    ensures { OnOk result (scan.new ≡ with_pieces resolution.now (elf_of object.now) (summary_in (elf_of object.now)) input scan.old (summary_in (elf_of object.now)).pieces) }
{
    let targets = target_list(alloc, resolution, Some(meanings), object, input)?;
    note_pieces(scan, &targets, resolution, object, input)
}

impl LinkScan {
    /// No object is scanned.
    pub fn new(alloc: Global) -> Self
        ensures { result ≡ Some nothing_noted }
    {
        LinkScan {
            alloc,
            scan: new_scan(alloc),
            is_spent: false,
        }
    }

    /// Scans an object, which is the input with this number, as `scan` does, after those that were scanned
    /// before it: what both need is needed once, and a fault that is reported once per name is reported once.
    /// `meanings` says what the names of the resolution mean.
    ///
    /// # Errors
    /// Out of memory, now or before. The scan answers it from then on.
    pub fn add(
        &mut self,
        object: &Object,
        input: u32,
        resolution: &Resolution,
        meanings: &NameMeanings,
    ) -> Result<(), NoMemory>
        requires input { input < length resolution.now.paths }
        requires meanings { meanings.now ≡ meanings_of resolution.now.rows }
        ensures added { (found : Found) (before : Scan) → IsFound resolution.now found → AreNamed found.names input (summary_in (elf_of object.now)).globals → self.old ≡ Some before → OnOk result (self.new ≡ Some (joined before (scan_of found (elf_of object.now) (object_references found (elf_of object.now) input)))) }
        ensures wanting { OnErr result (self.new ≡ None) }
        ensures spent { self.old ≡ None → IsErr result }
    {
        if self.is_spent {
            return Err(NoMemory);
        }
        self.is_spent = true;
        note_object(
            self.alloc,
            &mut self.scan,
            meanings,
            resolution,
            object,
            input,
        )?;
        self.is_spent = false;
        Ok(())
    }

    /// What the scanned objects need together, and what an image records of their references.
    ///
    /// # Errors
    /// All faults of the objects, in the order in which they were scanned; or out of memory, now or before.
    pub fn finish(self) -> Result<Scanned, ScanFailure>
        ensures answered { (scan : Scan) → self ≡ Some scan → Answers scan result }
        ensures spent { self ≡ None → result ≡ Err ScanFailure.NoMemory }
    {
        let LinkScan {
            alloc,
            scan,
            is_spent,
        } = self;
        if is_spent {
            return Err(ScanFailure::NoMemory);
        }
        answer(alloc, scan)
    }
}
