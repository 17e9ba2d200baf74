//! The commit of an image to the output device: a stop of the machine at any moment leaves the old file, the new one,
//! or one that no link takes as a base.
//!
//! What comes in is the device and the bytes to write; what comes out is whether all of it was done. The seal of the
//! old image is broken and that is kept before any other byte changes, and the new seal is written after all other
//! bytes are kept. The contracts say what a crash at each moment may leave (specs/CrashStates.antt). No call takes
//! memory.
#![tactic(auto)]

mod contents;
mod full;
mod laws;
mod opening;
mod sealing;
mod updates;

pub use full::commit_full;
pub use laws::open_files_are_no_base;
pub use updates::commit_update;
