//! Ranges of a file's bytes, each owned by one task at a time.
//!
//! The bytes of a stretch of the file and its start come in (`Range::from_slice`); a task that has the range writes
//! into it, and a range can be split in two. What comes back is gathered (`Ranges`) and put together to the bytes of
//! a file. The contracts see a range as its start and its bytes (`Stretch` in specs/Stretches.antt), and the gathered
//! ranges as their list, by rising start. Callers rely on one law: `as_bytes` has each range's bytes at its start, and
//! 0 elsewhere.
#![tactic(auto)]

mod gathering;
mod laws;
mod range;

pub use gathering::Ranges;
pub use laws::gathered_bytes_are_the_ranges;
pub use range::Range;
