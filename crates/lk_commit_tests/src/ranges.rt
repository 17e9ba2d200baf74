//! Ranges are committed into a file.

ghost use Rattle.std.specs.Prelude.{◌<◌, length};

use crate::whole_images::{is_open, old_device, sealed_file};
use lk_commit::commit_update;
use lk_outside::{Answer, MemoryDevice};
use lk_ranges::Range;
use lk_report::NoMemory;
use std::alloc::Global;

/// Writes four bytes `n` at the file's start and 100 behind the seal, and cuts the file to 4,500 bytes.
fn update(alloc: Global, device: &mut MemoryDevice) -> Result<Answer, NoMemory>
    requires { 4096 < length device.old.stored.bytes }
{
    let first = Range::from_slice(alloc, 0, &[b'n'; 4])?;
    let second = Range::from_slice(alloc, 4096, &[b'n'; 100])?;
    Ok(commit_update(device, &[first, second], 4500))
}

/// The file that this makes of 5,000 bytes `o`.
fn updated_file(alloc: Global) -> Result<Vec<u8>, NoMemory> {
    let mut file = sealed_file(alloc, 4500, b'o')?;
    file.as_mut_slice()[..4].fill(b'n');
    file.as_mut_slice()[4096..4196].fill(b'n');
    Ok(file)
}

/// Whether an update that stops after a call leaves the old file, the new one or an open one, and is done only where
/// it leaves the new one.
fn is_safe(alloc: Global, last: u64) -> Result<bool, NoMemory> {
    let mut device = old_device(alloc, 5000)?;
    device.stop_after(last);
    let answer = update(alloc, &mut device)?;
    let old = sealed_file(alloc, 5000, b'o')?;
    let new = updated_file(alloc)?;
    let file = device.bytes();
    let is_new = file == new.as_slice();
    let is_left = is_new || file == old.as_slice() || is_open(file);
    Ok(is_left && (answer == Answer::Failed || is_new))
}

/// Over a sealed file the calls are sync, length, reading the seal, breaking it, sync, two ranges, length, cut, sync,
/// the seal and sync.
#[test]
fn an_update_that_stops_after_a_call_leaves_a_whole_file_or_an_open_one(
    rt: HostRuntime,
) -> Result<(), NoMemory> {
    for last in 0..14 {
        assert!(rt; is_safe(rt.alloc(), last)?, "{last} calls");
    }
    Ok(())
}

#[test]
fn an_update_writes_its_ranges(rt: HostRuntime) -> Result<(), NoMemory> {
    let mut device = old_device(rt.alloc(), 5000)?;
    assert_eq!(rt; update(rt.alloc(), &mut device)?, Answer::Done);
    let new = updated_file(rt.alloc())?;
    assert_eq!(rt; device.bytes(), new.as_slice());
    Ok(())
}
