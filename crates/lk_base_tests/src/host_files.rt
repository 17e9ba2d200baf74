//! The host's input files and its sink, in the folder that the test is given.

use crate::in_memory::is_got;
use lk_outside::{Answer, Files, HostFiles, HostSink, ReadAnswer, Sink, Stamp, StatAnswer};
use lk_report::{Name, NoMemory};
use std::alloc::Global;
use std::fs::{File, FileTimes, OpenOptions, Permissions};
use std::io::ErrorKind;
use std::os::unix::fs::PermissionsExt;
use std::time::{Duration, SystemTime, UNIX_EPOCH};
use std::{fs, io};

/// Whether the last error is of this kind.
pub fn is_kind(error: Option<io::Error>, kind: ErrorKind) -> bool {
    match error {
        Some(error) => error.kind() == kind,
        None => false,
    }
}

/// Whether a file of these bytes was written.
pub fn is_written(rt: HostRuntime, path: &str, bytes: &[u8]) -> bool {
    fs::write(&rt, path, bytes).is_ok()
}

/// Whether the file was there and is removed.
pub fn is_removed(rt: HostRuntime, path: &str) -> bool {
    fs::remove_file(&rt, path).is_ok()
}

/// Whether the folder is made.
pub fn is_folder_made(rt: HostRuntime, path: &str) -> bool {
    fs::create_dir(&rt, path).is_ok()
}

/// Whether the empty folder was there and is removed.
pub fn is_folder_removed(rt: HostRuntime, path: &str) -> bool {
    fs::remove_dir(&rt, path).is_ok()
}

/// Whether the file has these permissions now.
pub fn is_permitted(rt: HostRuntime, path: &str, mode: u32) -> bool {
    fs::set_permissions(&rt, path, Permissions::from_mode(mode)).is_ok()
}

/// Sets when the file was changed.
fn set_time(rt: HostRuntime, path: &str, time: SystemTime) -> io::Result<()> {
    let file = OpenOptions::new().write(true).open(&rt, path)?;
    file.set_times(FileTimes::new().set_modified(time))
}

/// Whether the file is found with this stamp, and read with the bytes `bytes`.
fn is_input(files: &mut HostFiles, path: &Name, stamp: Stamp) -> bool {
    let found = files.stat(path) == StatAnswer::Found(Some(stamp));
    found && is_got(&files.read(path), b"bytes")
}

/// Whether no file is found and none is read.
fn is_missing(files: &mut HostFiles, path: &Name) -> bool {
    let missed = files.stat(path) == StatAnswer::Absent;
    missed && matches!(files.read(path), ReadAnswer::Absent)
}

#[test]
fn host_files_are_found_and_read(rt: HostRuntime) -> Result<(), NoMemory> {
    let path = Name::from_slice(rt.alloc(), b"input.o")?;
    assert!(rt; is_written(rt, "input.o", b"bytes"));
    assert!(rt; set_time(rt, "input.o", UNIX_EPOCH + Duration::new(5, 7)).is_ok());
    let mut files = HostFiles::new(rt);
    let stamp = Stamp {
        length: 5,
        modified: 5_000_000_007,
    };
    assert!(rt; is_input(&mut files, &path, stamp));
    assert!(rt; is_removed(rt, "input.o"));
    assert!(rt; is_missing(&mut files, &path));
    assert!(rt; files.last_error().is_none());
    Ok(())
}

/// Whether the look-up and the read of a path fail, with errors of this kind.
fn fails(files: &mut HostFiles, path: &Name, kind: ErrorKind) -> bool {
    let stat = files.stat(path) == StatAnswer::Failed && is_kind(files.last_error(), kind);
    let read = matches!(files.read(path), ReadAnswer::Failed);
    stat && read && is_kind(files.last_error(), kind)
}

/// The same of a path that is given by its bytes.
fn fails_at(files: &mut HostFiles, alloc: Global, path: &[u8], kind: ErrorKind) -> bool {
    match Name::from_slice(alloc, path) {
        Ok(path) => fails(files, &path, kind),
        Err(_) => false,
    }
}

#[test]
fn host_files_that_cannot_be_read_fail(rt: HostRuntime) {
    assert!(rt; is_folder_made(rt, "folder"));
    assert!(rt; is_written(rt, "plain", b"bytes"));
    let mut files = HostFiles::new(rt);
    for (path, kind) in [
        (b"folder".as_slice(), ErrorKind::IsADirectory),
        (b"plain/part".as_slice(), ErrorKind::NotADirectory),
        (b"not\xffutf8".as_slice(), ErrorKind::InvalidInput),
        (b"a\0zero".as_slice(), ErrorKind::InvalidInput),
    ] {
        assert!(rt; fails_at(&mut files, rt.alloc(), path, kind));
    }
    assert!(rt; is_removed(rt, "plain"));
    assert!(rt; is_folder_removed(rt, "folder"));
}

/// Whether the read of the path fails.
fn is_unread(rt: HostRuntime, path: &Name) -> bool {
    let mut files = HostFiles::new(rt);
    matches!(files.read(path), ReadAnswer::Failed)
}

#[test]
fn a_host_file_without_permission_fails(rt: HostRuntime) -> Result<(), NoMemory> {
    let path = Name::from_slice(rt.alloc(), b"closed")?;
    assert!(rt; is_written(rt, "closed", b"bytes"));
    assert!(rt; is_permitted(rt, "closed", 0));
    // The system's superuser may read it.
    let may_read = File::open(&rt, "closed").is_ok();
    assert!(rt; is_unread(rt, &path) != may_read);
    assert!(rt; is_removed(rt, "closed"));
    Ok(())
}

/// Whether the file system keeps the time, to the nanosecond, at the file of this path.
fn is_kept(rt: HostRuntime, path: &str, time: SystemTime) -> bool {
    let set = set_time(rt, path, time).is_ok();
    match fs::metadata(&rt, path) {
        Ok(metadata) => set && metadata.modified().is_ok_and(|kept| kept == time),
        Err(_) => false,
    }
}

/// The time of the file's stamp.
fn reported_time(files: &mut HostFiles, path: &Name) -> Option<i64> {
    match files.stat(path) {
        StatAnswer::Found(Some(stamp)) => Some(stamp.modified),
        _ => None,
    }
}

#[test]
fn times_of_files_are_nanoseconds(rt: HostRuntime) -> Result<(), NoMemory> {
    let path = Name::from_slice(rt.alloc(), b"timed")?;
    assert!(rt; is_written(rt, "timed", b""));
    let mut files = HostFiles::new(rt);
    for (time, reported) in [
        (UNIX_EPOCH.checked_sub(Duration::new(0, 1)), Some(-1)),
        (
            UNIX_EPOCH.checked_add(Duration::new(9_223_372_036, 854_775_807)),
            Some(i64::MAX),
        ),
        (
            UNIX_EPOCH.checked_add(Duration::new(9_223_372_036, 854_775_808)),
            None,
        ),
        (
            UNIX_EPOCH.checked_sub(Duration::new(9_223_372_036, 854_775_808)),
            Some(i64::MIN),
        ),
        (
            UNIX_EPOCH.checked_add(Duration::new(i64::MAX as u64, 0)),
            None,
        ),
    ] {
        // A file system keeps times of some centuries alone.
        if time.is_some_and(|time| is_kept(rt, "timed", time)) {
            assert_eq!(rt; reported_time(&mut files, &path), reported);
        }
    }
    assert!(rt; is_removed(rt, "timed"));
    Ok(())
}

#[test]
fn a_host_sink_puts_to_the_standard_output(rt: HostRuntime) {
    let mut sink = HostSink::new(rt);
    assert_eq!(rt; sink.put(b"put by the host's sink\n"), Answer::Done);
    assert!(rt; sink.last_error().is_none());
}
