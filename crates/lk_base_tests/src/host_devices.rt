//! The host's output file, in the folder that the test is given.

use crate::host_files::{
    is_folder_made, is_folder_removed, is_kind, is_permitted, is_removed, is_written,
};
use lk_outside::{Answer, Device, HostDevice, LengthAnswer};
use lk_report::{Name, NoMemory};
use std::alloc::Global;
use std::fs;
use std::io::ErrorKind;
use std::os::unix::fs::PermissionsExt;

/// Whether the file of this path has these bytes.
fn has_bytes(rt: HostRuntime, path: &str, bytes: &[u8]) -> bool {
    match fs::read(&rt, path) {
        Ok(read) => read.as_slice() == bytes,
        Err(_) => false,
    }
}

/// Whether no file is at the path.
fn is_absent(rt: HostRuntime, path: &str) -> bool {
    matches!(fs::exists(&rt, path), Ok(false))
}

/// The permissions of the file among those of this mask.
fn mode_under(rt: HostRuntime, path: &str, mask: u32) -> Option<u32> {
    match fs::metadata(&rt, path) {
        Ok(metadata) => Some(metadata.permissions().mode() & mask),
        Err(_) => None,
    }
}

/// Whether an absent file has length 0, takes a sync and a cut to 0, and no write behind its end.
fn acts_as_absent(device: &mut HostDevice) -> bool {
    let length = device.length() == LengthAnswer::Known(0);
    let kept = device.sync() == Answer::Done && device.cut(0) == Answer::Done;
    length && kept && device.write_at(1, b"x") == Answer::Failed
}

/// Whether all that lies outside a file of three bytes fails.
fn refuses_outside(device: &mut HostDevice) -> bool {
    let mut into = [9u8; 2];
    let reads = device.read_at(2, &mut into) == Answer::Failed
        && device.read_at(u64::MAX, &mut into) == Answer::Failed;
    let changes = device.write_at(4, b"x") == Answer::Failed && device.cut(4) == Answer::Failed;
    reads && changes && is_kind(device.last_error(), ErrorKind::InvalidInput)
}

/// The three bytes from this place on, where they were read.
fn three_bytes_at(device: &mut HostDevice, at: u64) -> Option<[u8; 3]> {
    let mut into = [0u8; 3];
    match device.read_at(at, &mut into) {
        Answer::Done => Some(into),
        Answer::Failed => None,
    }
}

#[test]
fn a_host_device_makes_a_file(rt: HostRuntime) -> Result<(), NoMemory> {
    let mut device = HostDevice::at(rt, Name::from_slice(rt.alloc(), b"image")?);
    assert!(rt; acts_as_absent(&mut device));
    assert!(rt; is_absent(rt, "image"));
    assert_eq!(rt; device.write_at(0, b"abcdef"), Answer::Done);
    assert_eq!(rt; device.write_at(4, b"EFGH"), Answer::Done);
    assert_eq!(rt; three_bytes_at(&mut device, 3), Some([100, 69, 70]));
    assert_eq!(rt; mode_under(rt, "image", 0o700), Some(0o700));
    assert!(rt; is_removed(rt, "image"));
    Ok(())
}

#[test]
fn a_host_device_keeps_what_it_does_not_change(rt: HostRuntime) -> Result<(), NoMemory> {
    let mut device = HostDevice::at(rt, Name::from_slice(rt.alloc(), b"kept")?);
    assert!(rt; is_written(rt, "kept", b"abcdef") && is_permitted(rt, "kept", 0o640));
    assert_eq!(rt; device.write_at(1, b"XY"), Answer::Done);
    assert_eq!(rt; device.cut(3), Answer::Done);
    assert_eq!(rt; device.sync(), Answer::Done);
    assert!(rt; refuses_outside(&mut device));
    assert!(rt; has_bytes(rt, "kept", b"aXY"));
    assert_eq!(rt; mode_under(rt, "kept", 0o777), Some(0o640));
    assert!(rt; is_removed(rt, "kept"));
    Ok(())
}

/// Whether a write to the path fails, with an error that is kept.
fn fails_to_write(rt: HostRuntime, alloc: Global, path: &[u8]) -> Result<bool, NoMemory> {
    let mut device = HostDevice::at(rt, Name::from_slice(alloc, path)?);
    let failed = device.write_at(0, b"x") == Answer::Failed;
    Ok(failed && device.last_error().is_some())
}

#[test]
fn a_host_device_that_is_no_file_fails(rt: HostRuntime) -> Result<(), NoMemory> {
    assert!(rt; is_folder_made(rt, "place"));
    for path in [
        b"place".as_slice(),
        b"\xff".as_slice(),
        b"absent/image".as_slice(),
    ] {
        assert!(rt; fails_to_write(rt, rt.alloc(), path)?);
    }
    assert!(rt; is_folder_removed(rt, "place"));
    Ok(())
}
