//! The calls that changed an output file in memory, or what a crash may leave of it.

use lk_report::Bytes;

/// One call of an output device that was done and is kept on record. Places and lengths are in bytes.
#[derive(Drop, Debug)]
pub enum FileChange {
    /// These bytes were written from this place on.
    Wrote {
        /// Where the first byte was written.
        at: u64,
        /// The bytes that were written.
        bytes: Bytes,
    },
    /// The file was cut to this length.
    Cut {
        /// The length in bytes.
        length: u64,
    },
    /// What was written and cut before was kept.
    Synced,
}
