//! The host's input files: a thin edge over std's files, which is trusted and tested alone.

ghost use Rattle.std.specs.Prelude.{◌≡◌, ◌≤◌, None, length, IfOk};
ghost use Rattle.lk_outside.specs.Host.{unknown_state};

use crate::files::{Files, ReadAnswer, StatAnswer};
use crate::host_times::nanoseconds_of;
use lk_report::{Bytes, Name, Stamp};
use std::fs::{File, Metadata};
use std::io::{ErrorKind, Read};
use std::os::unix::fs::MetadataExt;
use std::{fs, io, str};

/// The files of the host. It reports nothing of them, and counts its failures and misses.
///
/// A path without a file is Absent. A folder, a missing permission, a path with a part that is no folder
/// and a path that is no UTF-8 text are failures.
#[derive(Drop, Debug)]
pub struct HostFiles {
    rt: HostRuntime,
    faults: u64,
    misses: u64,
    last_error: Option<io::Error>,
}

impl HostFiles {
    /// The files that this runtime reaches. Touches no file.
    pub fn new(rt: HostRuntime) -> Self
        ensures { result ≡ record { rt = rt; faults = 0; misses = 0; last_error = None } }
    {
        HostFiles {
            rt,
            faults: 0,
            misses: 0,
            last_error: None,
        }
    }

    /// What the system said at the last failure, if there was one.
    pub fn last_error(&self) -> Option<io::Error>
        ensures { result ≡ self.now.last_error }
    {
        self.last_error
    }
}

/// The path as text.
pub(crate) fn path_text(path: &Name) -> io::Result<&str> {
    match str::from_utf8(path.as_slice()) {
        Ok(text) => Ok(text),
        Err(_) => Err(io::Error::new(ErrorKind::InvalidInput, "the path is not UTF-8 text")),
    }
}

/// Whether the error is this process's own out of memory, and not an answer of the system.
fn is_out_of_memory(error: &io::Error) -> bool {
    error.kind() == ErrorKind::OutOfMemory && error.raw_os_error().is_none()
}

/// The stamp of a file that is no folder.
fn stamp_at(rt: &HostRuntime, path: &Name) -> io::Result<Option<Stamp>> {
    let metadata = fs::metadata(rt, path_text(path)?)?;
    if metadata.is_dir() {
        return Err(io::Error::from(ErrorKind::IsADirectory));
    }
    Ok(stamp_of(&metadata))
}

/// The stamp that the system's answer has, where its time fits.
fn stamp_of(metadata: &Metadata) -> Option<Stamp> {
    let modified = nanoseconds_of(metadata.mtime(), metadata.mtime_nsec())?;
    Some(Stamp {
        length: metadata.len(),
        modified,
    })
}

/// Reads into a buffer once: the number of bytes, 0 at the end of the file and where a signal came first.
fn read_once(file: &mut File, into: &mut [u8]) -> io::Result<usize>
    ensures { IfOk result (λ count. count ≤ length into.new) }
{
    match file.read(into) {
        Err(error) if error.kind() == ErrorKind::Interrupted => Ok(0),
        answer => answer,
    }
}

/// All bytes of a file. There is room for one byte more than its length: where one read gives as many bytes as the
/// file is long, and not that one, the end of the file was met, and nothing is asked again.
fn bytes_at(rt: &HostRuntime, path: &Name) -> io::Result<Bytes> {
    let mut file = File::open(rt, path_text(path)?)?;
    let length = file.metadata()?.len();
    let mut bytes = Vec::new(rt.alloc());
    bytes.resize(length.saturating_add(1) as usize, 0)?;
    let count = read_once(&mut file, &mut bytes)?;
    bytes.truncate(count);
    if count == 0 || count as u64 != length {
        file.read_to_end(&mut bytes)?;
    }
    match Bytes::from_vec(bytes) {
        Ok(bytes) => Ok(bytes),
        Err(_) => Err(io::Error::from(ErrorKind::OutOfMemory)),
    }
}

impl Files for HostFiles {
    ghost state = { λ h. unknown_state h.faults h.misses };

    fn stat(&mut self, path: &Name) -> StatAnswer {
        match stamp_at(&self.rt, path) {
            Ok(stamp) => StatAnswer::Found(stamp),
            Err(error) if error.kind() == ErrorKind::NotFound => {
                self.misses = self.misses.saturating_add(1);
                StatAnswer::Absent
            }
            Err(error) => {
                self.last_error = Some(error);
                self.faults = self.faults.saturating_add(1);
                StatAnswer::Failed
            }
        }
    }

    fn read(&mut self, path: &Name) -> ReadAnswer {
        match bytes_at(&self.rt, path) {
            Ok(bytes) => ReadAnswer::Got(bytes),
            Err(error) if error.kind() == ErrorKind::NotFound => {
                self.misses = self.misses.saturating_add(1);
                ReadAnswer::Absent
            }
            Err(error) if is_out_of_memory(&error) => ReadAnswer::NoMemory,
            Err(error) => {
                self.last_error = Some(error);
                self.faults = self.faults.saturating_add(1);
                ReadAnswer::Failed
            }
        }
    }
}
