//! Input files kept in memory, which never fail.

ghost use Rattle.std.specs.Prelude.{◌≡◌, [], ◌^◌, ◌-◌, OnOk, OnErr, length, min};
ghost use Rattle.lk_outside.specs.FilesState.{StatGives, ReadGives};
ghost use Rattle.lk_outside.specs.FilesInMemory.{sure_state_of, SureStat, SureRead, SetsRow};

use crate::files::{Files, ReadAnswer, StatAnswer};
use crate::memory_files::MemoryFiles;
use lk_report::{Bytes, Name, NoMemory, Stamp};
use std::alloc::Global;
use std::marker::Model;

/// Files that are kept in memory. No call fails; a call may find no memory for its answer.
#[derive(Drop, Debug)]
pub struct SureFiles {
    files: MemoryFiles,
}

impl Model for SureFiles {
    ghost use Rattle.std.specs.Prelude.{◌≡◌, None};
    ghost use Rattle.lk_outside.specs.FilesInMemory.{SureFilesInMemory};

    ghost Value = { SureFilesInMemory };

    ghost view = { λ s. record {
      entries = s.files.entries;
      stats = s.files.stats;
      reads = s.files.reads;
      misses = s.files.misses;
    } };

    ghost invariant = { λ s. (s.files.calls.failing ≡ None) × (s.files.calls.stopping ≡ None) };
}

impl SureFiles {
    /// No path has a file.
    pub fn new(alloc: Global) -> Self
        ensures { result ≡ record { entries = []; stats = []; reads = []; misses = 0 } }
    {
        SureFiles {
            files: MemoryFiles::new(alloc),
        }
    }

    /// Sets a path's bytes and stamp, in place of an earlier file of this path. Unchanged after
    /// out of memory.
    pub fn put(&mut self, path: &str, bytes: Bytes, stamp: Option<Stamp>) -> Result<(), NoMemory>
        ensures set { OnOk result (SetsRow self.old.entries self.new.entries path.now
            (record { bytes = bytes; stamp = stamp })) }
        ensures rest { self.new ≡ record self.old { entries = self.new.entries } }
        ensures unchanged { OnErr result (self.new ≡ self.old) }
    {
        self.files.put(path, bytes, stamp)
    }

    /// The number of paths given to `read`, at most 2^32 - 1.
    pub fn reads(&self) -> u32
        ensures { result ≡ min (length self.now.reads) (2 ^ 32 - 1) }
    {
        self.files.reads()
    }
}

impl Files for SureFiles {
    ghost state = { sure_state_of };

    fn stat(&mut self, path: &Name) -> StatAnswer
        ensures meets { StatGives (sure_state_of self.old) path.now result (sure_state_of self.new) }
        ensures exactly { SureStat self.old path.now result self.new }
    {
        self.files.stat(path)
    }

    fn read(&mut self, path: &Name) -> ReadAnswer
        ensures meets { ReadGives (sure_state_of self.old) path.now result (sure_state_of self.new) }
        ensures exactly { SureRead self.old path.now result self.new }
    {
        self.files.read(path)
    }
}
