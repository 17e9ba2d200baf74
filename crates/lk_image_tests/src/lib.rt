//! Tests of the parts of an image: its headers and its records, of a small static link and of one of many kinds.
//!
//! They are in a crate of their own above the crates that they call, since a crate with tests is proved
//! twice. `headers` shows the bytes of headers, and where thread-local blocks are (lk_headers); `records`
//! the record sections and the tail (lk_incr); `placements` makes what both place. What is called here is
//! public, and each public call of these crates that takes memory is run by a test that succeeds.
#![tactic(auto)]

#[cfg(test)]
mod headers;
#[cfg(test)]
mod placements;
#[cfg(test)]
mod records;
