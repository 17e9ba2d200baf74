//! The output file kept in memory, which fails by out of memory alone.

ghost use Rattle.std.specs.Prelude.{◌≡◌, ◌≤◌, ◌+◌, IfOk, length as list_length};
ghost use Rattle.lk_outside.specs.Disk.{LengthGives, ReadAtGives, WriteAtGives, CutGives, SyncGives, stored_whole};
ghost use Rattle.lk_outside.specs.DeviceInMemory.{sure_disk_of, SureLength, SureReadAt, SureWriteAt, SureCut, SureSync};

use crate::devices::{Device, LengthAnswer};
use crate::memory_device::MemoryDevice;
use lk_report::{Answer, Bytes, NoMemory};
use std::alloc::Global;
use std::marker::Model;

/// An output file that is kept in memory. A write, a cut and a sync fail only where there is no memory for what they
/// add or keep on record; no other call fails.
#[derive(Drop, Debug)]
pub struct SureDevice {
    device: MemoryDevice,
}

impl Model for SureDevice {
    ghost use Rattle.std.specs.Prelude.{◌≡◌, None};
    ghost use Rattle.lk_outside.specs.DeviceInMemory.{SureDeviceInMemory};

    ghost Value = { SureDeviceInMemory };

    ghost view = { λ s. record { stored = s.device.stored; faults = s.device.calls.faults } };

    ghost invariant = { λ s. (s.device.calls.failing ≡ None) × (s.device.calls.stopping ≡ None) };
}

impl SureDevice {
    /// A file of a copy of these bytes, of which no range was written, and which a crash leaves as it is.
    ///
    /// # Errors
    /// Out of memory.
    pub fn of(alloc: Global, bytes: &Bytes) -> Result<Self, NoMemory>
        ensures { IfOk result (λ device. device ≡ record { stored = stored_whole bytes.now; faults = 0 }) }
    {
        Ok(SureDevice {
            device: MemoryDevice::of(alloc, bytes)?,
        })
    }

    /// The file's bytes.
    pub fn bytes(&self) -> &[u8]
        ensures { result.now ≡ self.now.stored.bytes }
    {
        self.device.bytes()
    }
}

impl Device for SureDevice {
    ghost disk = { sure_disk_of };

    fn length(&mut self) -> LengthAnswer
        ensures meets { LengthGives (sure_disk_of self.old) result (sure_disk_of self.new) }
        ensures exactly { SureLength self.old result self.new }
    {
        self.device.length()
    }

    fn read_at(&mut self, at: u64, into: &mut [u8]) -> Answer
        requires { at + list_length into.old ≤ list_length self.old.stored.bytes }
        ensures meets { ReadAtGives (sure_disk_of self.old) at into.old into.new result (sure_disk_of self.new) }
        ensures exactly { SureReadAt self.old at into.old into.new result self.new }
    {
        self.device.read_at(at, into)
    }

    fn write_at(&mut self, at: u64, bytes: &[u8]) -> Answer
        requires { at ≤ list_length self.old.stored.bytes }
        ensures meets { WriteAtGives (sure_disk_of self.old) at bytes.now result (sure_disk_of self.new) }
        ensures exactly { SureWriteAt self.old at bytes.now result self.new }
    {
        self.device.write_at(at, bytes)
    }

    fn cut(&mut self, length: u64) -> Answer
        requires { length ≤ list_length self.old.stored.bytes }
        ensures meets { CutGives (sure_disk_of self.old) length result (sure_disk_of self.new) }
        ensures exactly { SureCut self.old length result self.new }
    {
        self.device.cut(length)
    }

    fn sync(&mut self) -> Answer
        ensures meets { SyncGives (sure_disk_of self.old) result (sure_disk_of self.new) }
        ensures exactly { SureSync self.old result self.new }
    {
        self.device.sync()
    }
}
