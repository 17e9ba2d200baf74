//! A whole image is committed over other files.

ghost use Rattle.std.specs.Prelude.{◌≡◌, length as list_length};
ghost use Rattle.std.specs.Result.{IfOk};

use lk_commit::commit_full;
use lk_outside::{Answer, MemoryDevice, SureDevice};
use lk_report::{Bytes, NoMemory};
use std::alloc::Global;

const SEAL: &[u8] = b"LKSEAL01";

const SEAL_OFFSET: usize = 4088;

/// A file of so many bytes of one kind, with the seal at its place where it is longer than the headers.
pub fn sealed_file(alloc: Global, length: usize, byte: u8) -> Result<Vec<u8>, NoMemory>
    ensures { IfOk result (λ file. list_length file.items ≡ length) }
{
    let Ok(mut file) = Vec::from_elem(alloc, byte, length) else {
        return Err(NoMemory);
    };
    if file.len() > 4096 {
        file.as_mut_slice()[SEAL_OFFSET..SEAL_OFFSET + 8].copy_from_slice(SEAL);
    }
    Ok(file)
}

/// Commits a file of 5,000 bytes `n` onto a device.
fn commit<D: lk_outside::Device>(alloc: Global, device: &mut D) -> Result<Answer, NoMemory> {
    let Ok(image) = Vec::from_elem(alloc, b'n', 5000) else {
        return Err(NoMemory);
    };
    Ok(commit_full(device, image.as_slice()))
}

/// A device whose file is sealed and has so many bytes `o`.
pub fn old_device(alloc: Global, length: usize) -> Result<MemoryDevice, NoMemory>
    ensures { IfOk result (λ device. list_length device.stored.bytes ≡ length) }
{
    let old = Bytes::from_vec(sealed_file(alloc, length, b'o')?)?;
    MemoryDevice::of(alloc, &old)
}

/// Whether a file is open: too short for a base, or without the seal.
pub fn is_open(file: &[u8]) -> bool {
    file.len() <= 4096 || &file[SEAL_OFFSET..SEAL_OFFSET + 8] != SEAL
}

/// Whether the new file is what a device has after a commit onto so many old bytes.
fn is_replaced(alloc: Global, length: usize) -> Result<bool, NoMemory> {
    let mut device = old_device(alloc, length)?;
    let answer = commit(alloc, &mut device)?;
    let new = sealed_file(alloc, 5000, b'n')?;
    Ok(answer == Answer::Done && device.bytes() == new.as_slice())
}

#[test]
fn a_commit_replaces_files_of_all_lengths(rt: HostRuntime) -> Result<(), NoMemory> {
    for length in [0, 100, 4095, 4096, 4097, 4999, 5000, 5001, 9000] {
        assert!(rt; is_replaced(rt.alloc(), length)?, "{length} bytes");
    }
    Ok(())
}

#[test]
fn a_sure_device_takes_a_commit(rt: HostRuntime) -> Result<(), NoMemory> {
    let none = Bytes::empty();
    let mut device = SureDevice::of(rt.alloc(), &none)?;
    assert_eq!(rt; commit(rt.alloc(), &mut device)?, Answer::Done);
    let new = sealed_file(rt.alloc(), 5000, b'n')?;
    assert_eq!(rt; device.bytes(), new.as_slice());
    Ok(())
}

/// What the commit answers whose call of this number fails, and whether its file is then 4,096 zeros.
fn failed_over_100(alloc: Global, call: u64) -> Result<(Answer, bool), NoMemory> {
    let mut device = old_device(alloc, 100)?;
    device.fail_call(call);
    let answer = commit(alloc, &mut device)?;
    Ok((answer, device.bytes() == [0u8; 4096].as_slice()))
}

/// Over a short file the calls are sync, length, cut, the zeros, sync, and then the second write.
#[test]
fn a_second_write_that_fails_leaves_zeros(rt: HostRuntime) -> Result<(), NoMemory> {
    assert_eq!(rt; failed_over_100(rt.alloc(), 6)?, (Answer::Failed, true));
    Ok(())
}

/// Whether a commit over a file of so many bytes that stops after a call leaves the old file, the new one or an open
/// one, and is done only where it leaves the new one.
fn is_safe(alloc: Global, length: usize, last: u64) -> Result<bool, NoMemory> {
    let mut device = old_device(alloc, length)?;
    device.stop_after(last);
    let answer = commit(alloc, &mut device)?;
    let old = sealed_file(alloc, length, b'o')?;
    let new = sealed_file(alloc, 5000, b'n')?;
    let file = device.bytes();
    let is_new = file == new.as_slice();
    let is_left = is_new || file == old.as_slice() || is_open(file);
    Ok(is_left && (answer == Answer::Failed || is_new))
}

#[test]
fn a_commit_that_stops_after_a_call_leaves_a_whole_file_or_an_open_one(
    rt: HostRuntime,
) -> Result<(), NoMemory> {
    for length in [0, 100, 4096, 4097, 5000, 9000] {
        for last in 0..14 {
            assert!(rt;
                is_safe(rt.alloc(), length, last)?,
                "{length} bytes, {last} calls"
            );
        }
    }
    Ok(())
}
