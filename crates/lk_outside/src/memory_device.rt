//! The output file kept in memory.

ghost use Rattle.std.specs.Prelude.{◌≡◌, ◌≤◌, ◌+◌, Some, IfOk, OnOk, OnErr, length as list_length};
ghost use Rattle.lk_outside.specs.Counts.{no_calls};
ghost use Rattle.lk_outside.specs.Disk.{RangeLiesIn, IsAtMostEnd, LengthGives, ReadAtGives, WriteAtGives, CutGives, SyncGives, patched, stored_cut, stored_patched, stored_synced, stored_whole};
ghost use Rattle.lk_outside.specs.DeviceInMemory.{disk_of, LengthInMemory, ReadAtInMemory, WriteAtInMemory, CutInMemory, SyncInMemory};

use crate::calls::Calls;
use crate::devices::{Device, LengthAnswer};
use crate::file_changes::FileChange;
use lk_report::{Answer, Bytes, NoMemory};
use std::alloc::Global;
use std::marker::Model;

/// An output file that is kept in memory, and can be set to fail at a call.
///
/// It keeps its writes, cuts and syncs on record, so that contracts can say what a crash at any moment may leave.
#[derive(Drop, Debug)]
pub struct MemoryDevice {
    alloc: Global,
    bytes: Vec<u8>,
    begun: Bytes,
    changes: Vec<FileChange>,
    calls: Calls,
}

impl Model for MemoryDevice {
    ghost use Rattle.std.specs.Prelude.{◌≡◌};
    ghost use Rattle.lk_outside.specs.DeviceInMemory.{DeviceInMemory, stored_after};

    ghost Value = { DeviceInMemory };

    ghost view = { λ m. record { stored = stored_after m.begun m.changes.items; calls = m.calls } };

    ghost invariant = { λ m. m.bytes.items ≡ (stored_after m.begun m.changes.items).bytes };
}

impl MemoryDevice {
    /// A file of a copy of these bytes, which may be shared; no range of it was written, a crash leaves it as it is, and
    /// no call is to fail.
    ///
    /// # Errors
    /// Out of memory.
    #[tactic(auto, using(crate::proofs::ChangesKept::after_none))]
    pub fn of(alloc: Global, bytes: &Bytes) -> Result<Self, NoMemory>
        ensures { IfOk result (λ device. device ≡ record { stored = stored_whole bytes.now; calls = no_calls }) }
    {
        let begun = bytes.copy(alloc)?;
        let Ok(bytes) = Vec::from_slice(alloc, bytes.as_slice()) else {
            return Err(NoMemory);
        };
        Ok(MemoryDevice {
            alloc,
            bytes,
            begun,
            changes: Vec::new(alloc),
            calls: Calls::none(),
        })
    }

    /// Lets the n-th call fail, counted from 1 since the device was made, in place of an earlier
    /// choice. A call already made stays as it was.
    pub fn fail_call(&mut self, n: u64)
        ensures { self.new ≡ record self.old { calls = record self.old.calls { failing = Some n } } }
    {
        self.calls.failing = Some(n);
    }

    /// Lets every call after the n-th fail, counted from 1 since the device was made, in place of an earlier choice. A
    /// call already made stays as it was.
    pub fn stop_after(&mut self, n: u64)
        ensures { self.new ≡ record self.old { calls = record self.old.calls { stopping = Some n } } }
    {
        self.calls.stopping = Some(n);
    }

    /// The file's bytes.
    pub fn bytes(&self) -> &[u8]
        ensures { result.now ≡ self.now.stored.bytes }
    {
        self.bytes.as_slice()
    }
}

/// Replaces the bytes from this place on, past the end too. Unchanged after out of memory.
fn patch(file: &mut Vec<u8>, at: usize, bytes: &[u8]) -> Result<(), NoMemory>
    requires { at ≤ list_length file.old.items }
    ensures patched { OnOk result (file.new.items ≡ patched at bytes.now file.old.items) }
    ensures unchanged { OnErr result (file.new.items ≡ file.old.items) }
{
    let inside = bytes.len().min(file.len() - at);
    let (over, past) = bytes.split_at(inside);
    if file.extend_from_slice(past).is_err() {
        return Err(NoMemory);
    }
    file.as_mut_slice()[at..at + inside].copy_from_slice(over);
    Ok(())
}

impl Device for MemoryDevice {
    ghost disk = { disk_of };

    fn length(&mut self) -> LengthAnswer
        ensures meets { LengthGives (disk_of self.old) result (disk_of self.new) }
        ensures exactly { LengthInMemory self.old result self.new }
    {
        if self.calls.next_fails() {
            self.calls.count_fault();
            return LengthAnswer::Failed;
        }
        LengthAnswer::Known(self.bytes.len() as u64)
    }

    fn read_at(&mut self, at: u64, into: &mut [u8]) -> Answer
        requires { at + list_length into.old ≤ list_length self.old.stored.bytes }
        ensures meets { ReadAtGives (disk_of self.old) at into.old into.new result (disk_of self.new) }
        ensures exactly { ReadAtInMemory self.old at into.old into.new result self.new }
    {
        if self.calls.next_fails() {
            self.calls.count_fault();
            return Answer::Failed;
        }
        let start = at as usize;
        let end = start + into.len();
        into.copy_from_slice(&self.bytes.as_slice()[start..end]);
        Answer::Done
    }

    fn write_at(&mut self, at: u64, bytes: &[u8]) -> Answer
        requires { at ≤ list_length self.old.stored.bytes }
        ensures meets { WriteAtGives (disk_of self.old) at bytes.now result (disk_of self.new) }
        ensures exactly { WriteAtInMemory self.old at bytes.now result self.new }
    {
        let fails = self.calls.next_fails();
        if fails || self.write(at, bytes).is_err() {
            self.calls.count_fault();
            return Answer::Failed;
        }
        Answer::Done
    }

    fn cut(&mut self, length: u64) -> Answer
        requires { length ≤ list_length self.old.stored.bytes }
        ensures meets { CutGives (disk_of self.old) length result (disk_of self.new) }
        ensures exactly { CutInMemory self.old length result self.new }
    {
        let fails = self.calls.next_fails();
        if fails || self.cut_to(length).is_err() {
            self.calls.count_fault();
            return Answer::Failed;
        }
        Answer::Done
    }

    fn sync(&mut self) -> Answer
        ensures meets { SyncGives (disk_of self.old) result (disk_of self.new) }
        ensures exactly { SyncInMemory self.old result self.new }
    {
        let fails = self.calls.next_fails();
        if fails || self.note_sync().is_err() {
            self.calls.count_fault();
            return Answer::Failed;
        }
        Answer::Done
    }
}

impl MemoryDevice {
    /// Writes the bytes and notes the range. Unchanged after out of memory.
    #[tactic(auto, using(crate::proofs::ChangesKept::after_one_more))]
    fn write(&mut self, at: u64, bytes: &[u8]) -> Result<(), NoMemory>
        requires { at ≤ list_length self.old.stored.bytes }
        ensures written { OnOk result (self.new ≡ record self.old { stored = stored_patched at bytes.now self.old.stored }) }
        ensures unchanged { OnErr result (self.new ≡ self.old) }
    {
        let copy = Bytes::from_slice(self.alloc, bytes)?;
        if self.changes.reserve(1).is_err() {
            return Err(NoMemory);
        }
        patch(&mut self.bytes, at as usize, bytes)?;
        self.changes
            .push_reserved(FileChange::Wrote { at, bytes: copy });
        Ok(())
    }

    /// Cuts the file and notes the length. Unchanged after out of memory.
    #[tactic(auto, using(crate::proofs::ChangesKept::after_one_more))]
    fn cut_to(&mut self, length: u64) -> Result<(), NoMemory>
        requires { length ≤ list_length self.old.stored.bytes }
        ensures cut { OnOk result (self.new ≡ record self.old { stored = stored_cut length self.old.stored }) }
        ensures unchanged { OnErr result (self.new ≡ self.old) }
    {
        if self.changes.reserve(1).is_err() {
            return Err(NoMemory);
        }
        self.bytes.truncate(length as usize);
        self.changes.push_reserved(FileChange::Cut { length });
        Ok(())
    }

    /// Notes that a crash leaves the file as it is. Unchanged after out of memory.
    #[tactic(auto, using(crate::proofs::ChangesKept::after_one_more))]
    fn note_sync(&mut self) -> Result<(), NoMemory>
        ensures synced { OnOk result (self.new ≡ record self.old { stored = stored_synced self.old.stored }) }
        ensures unchanged { OnErr result (self.new ≡ self.old) }
    {
        if self.changes.reserve(1).is_err() {
            return Err(NoMemory);
        }
        self.changes.push_reserved(FileChange::Synced);
        Ok(())
    }
}
