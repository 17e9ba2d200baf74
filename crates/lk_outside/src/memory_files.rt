//! Input files kept in memory.
//!
//! The files are in one vector, and a path is looked for from its start: the time of a call grows
//! with the number of files. These are for tests and examples; the host's files are looked up by
//! the system.

ghost use Rattle.std.specs.Prelude.{◌≡◌, ◌++◌, ◌∷◌, [], ◌^◌, ◌-◌, None, Some, OnOk, OnErr, length, min, position};
ghost use Rattle.std.specs.Option.{option_copied};
ghost use Rattle.std.specs.Str.{bytes_eq};
ghost use Rattle.lk_outside.specs.Counts.{counted, no_calls};
ghost use Rattle.lk_outside.specs.FilesState.{StatGives, ReadGives};
ghost use Rattle.lk_outside.specs.FilesInMemory.{row_of, entry_at, slot_content_of, StatInMemory, ReadInMemory, SetsRow};

use crate::calls::Calls;
use crate::file_entries::FileEntry;
use crate::files::{Files, ReadAnswer, StatAnswer};
use lk_report::{Bytes, List, Name, NameList, NoMemory, Stamp};
use std::alloc::Global;
use std::marker::Model;

/// Files that are kept in memory, and can be set to fail at a call.
#[derive(Drop, Debug)]
pub struct MemoryFiles {
    alloc: Global,
    entries: Vec<FileEntry>,
    stats: List<Name>,
    reads: List<Name>,
    failed: Option<Name>,
    calls: Calls,
    misses: u64,
}

impl Model for MemoryFiles {
    ghost use Rattle.lk_outside.specs.FilesInMemory.{FilesInMemory};

    ghost Value = { FilesInMemory };

    ghost view = { λ m. record {
      entries = m.entries.items;
      stats = m.stats;
      reads = m.reads;
      failed = m.failed;
      calls = m.calls;
      misses = m.misses;
    } };
}

impl MemoryFiles {
    /// No path has a file, and no call is to fail.
    pub fn new(alloc: Global) -> Self
        ensures { result ≡ record {
          entries = [];
          stats = [];
          reads = [];
          failed = None;
          calls = no_calls;
          misses = 0;
        } }
    {
        MemoryFiles {
            alloc,
            entries: Vec::new(alloc),
            stats: List::new(alloc),
            reads: List::new(alloc),
            failed: None,
            calls: Calls::none(),
            misses: 0,
        }
    }

    /// Lets the n-th call fail, counted from 1 since the files were made, in place of an earlier
    /// choice. A call already made stays as it was.
    pub fn fail_call(&mut self, n: u64)
        ensures { self.new ≡ record self.old { calls = record self.old.calls { failing = Some n } } }
    {
        self.calls.failing = Some(n);
    }

    /// Sets a path's bytes and stamp, in place of an earlier file of this path. Unchanged after
    /// out of memory.
    pub fn put(&mut self, path: &str, bytes: Bytes, stamp: Option<Stamp>) -> Result<(), NoMemory>
        ensures set { OnOk result (SetsRow self.old.entries self.new.entries path.now
            (record { bytes = bytes; stamp = stamp })) }
        ensures rest { self.new ≡ record self.old { entries = self.new.entries } }
        ensures unchanged { OnErr result (self.new ≡ self.old) }
    {
        let path = Name::from_slice(self.alloc, path.as_bytes())?;
        put_entry(&mut self.entries, FileEntry { path, bytes, stamp })
    }

    /// The number of paths given to `read`, at most 2^32 - 1.
    pub fn reads(&self) -> u32
        ensures { result ≡ min (length self.now.reads) (2 ^ 32 - 1) }
    {
        u32::try_from(self.reads.as_slice().len()).unwrap_or(u32::MAX)
    }
}

/// The first file of this path.
fn entry_of<'a>(entries: &'a [FileEntry], path: &Name) -> Option<&'a FileEntry>
    ensures { option_copied result ≡ entry_at path.now entries.now }
{
    entries.iter().find(|entry| entry.path == *path)
}

/// Puts a file in the place of one of the same path, else at the end. Unchanged after out
/// of memory.
fn put_entry(entries: &mut Vec<FileEntry>, entry: FileEntry) -> Result<(), NoMemory>
    ensures set { OnOk result (SetsRow entries.old.items entries.new.items entry.path (row_of entry)) }
    ensures unchanged { OnErr result (entries.new.items ≡ entries.old.items) }
{
    match place_of(entries, &entry.path) {
        Some(place) => {
            entries[place] = entry;
            Ok(())
        }
        None => append_entry(entries, entry),
    }
}

/// Puts a file at the end. Unchanged after out of memory.
fn append_entry(entries: &mut Vec<FileEntry>, entry: FileEntry) -> Result<(), NoMemory>
    ensures appended { OnOk result (entries.new.items ≡ entries.old.items ++ entry ∷ []) }
    ensures unchanged { OnErr result (entries.new.items ≡ entries.old.items) }
{
    match entries.push(entry) {
        Ok(()) => Ok(()),
        Err(_) => Err(NoMemory),
    }
}

/// Where the file of this path is.
fn place_of(entries: &Vec<FileEntry>, path: &Name) -> Option<usize>
    ensures { result ≡ position (λ e. bytes_eq e.path path.now) entries.now.items }
{
    entries.iter().position(|entry| entry.path == *path)
}

/// Puts a copy of the path at the end of the list. Unchanged after out of memory.
fn note(list: &mut NameList, alloc: Global, path: &Name) -> Result<(), NoMemory>
    ensures noted { OnOk result (list.new ≡ list.old ++ path.now ∷ []) }
    ensures unchanged { OnErr result (list.new ≡ list.old) }
{
    list.push(path.copy(alloc)?)
}

impl MemoryFiles {
    /// Notes that the call of this path failed, and counts it. Unchanged after out of memory.
    fn note_failure(&mut self, path: &Name) -> Result<(), NoMemory>
        ensures noted { OnOk result (self.new ≡ record self.old {
          failed = Some path.now;
          calls = record self.old.calls { faults = counted self.old.calls.faults };
        }) }
        ensures unchanged { OnErr result (self.new ≡ self.old) }
    {
        self.failed = Some(path.copy(self.alloc)?);
        self.calls.count_fault();
        Ok(())
    }
}

impl Files for MemoryFiles {
    ghost state = { slot_content_of };

    fn stat(&mut self, path: &Name) -> StatAnswer
        ensures meets { StatGives (slot_content_of self.old) path.now result (slot_content_of self.new) }
        ensures exactly { StatInMemory self.old path.now result self.new }
    {
        let fails = self.calls.next_fails();
        if note(&mut self.stats, self.alloc, path).is_err() {
            return StatAnswer::NoMemory;
        }
        if fails {
            return match self.note_failure(path) {
                Ok(()) => StatAnswer::Failed,
                Err(NoMemory) => StatAnswer::NoMemory,
            };
        }
        match entry_of(self.entries.as_slice(), path) {
            Some(entry) => StatAnswer::Found(entry.stamp),
            None => {
                self.misses = self.misses.saturating_add(1);
                StatAnswer::Absent
            }
        }
    }

    fn read(&mut self, path: &Name) -> ReadAnswer
        ensures meets { ReadGives (slot_content_of self.old) path.now result (slot_content_of self.new) }
        ensures exactly { ReadInMemory self.old path.now result self.new }
    {
        let fails = self.calls.next_fails();
        if note(&mut self.reads, self.alloc, path).is_err() {
            return ReadAnswer::NoMemory;
        }
        if fails {
            return match self.note_failure(path) {
                Ok(()) => ReadAnswer::Failed,
                Err(NoMemory) => ReadAnswer::NoMemory,
            };
        }
        match entry_of(self.entries.as_slice(), path) {
            Some(entry) => match entry.bytes.copy(self.alloc) {
                Ok(bytes) => ReadAnswer::Got(bytes),
                Err(NoMemory) => ReadAnswer::NoMemory,
            },
            None => {
                self.misses = self.misses.saturating_add(1);
                ReadAnswer::Absent
            }
        }
    }
}
