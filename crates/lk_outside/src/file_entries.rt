//! One file that is kept in memory.

use lk_report::{Bytes, Name, Stamp};

/// A file's path, bytes and stamp.
#[derive(Drop, Debug)]
pub struct FileEntry {
    /// The file's path.
    pub path: Name,
    /// The file's bytes.
    pub bytes: Bytes,
    /// The file's stamp, where it has one.
    pub stamp: Option<Stamp>,
}
