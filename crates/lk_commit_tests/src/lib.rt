//! Tests of the commit: what it leaves of a file in memory, done, failed at a call, and stopped after a call.
//!
//! `whole_images` commits images of 5,000 bytes over files of several lengths, with the seal and without; `ranges` commits
//! two ranges into a file of 5,000 bytes.
#![tactic(auto)]

#[cfg(test)]
mod ranges;
#[cfg(test)]
mod whole_images;
