//! Tests of the passes of a link, by small links that are made by hand and whose numbers are known from
//! outside.
//!
//! They are in a crate of their own above the crates that they call, since a crate with tests is proved
//! twice. `layouts` shows where output sections and pieces are (lk_layout); `scans` shows what references
//! need, and their faults (lk_scan). What is called here is public, and each public call of these crates that
//! takes memory is run by a test that succeeds.
#![tactic(auto)]

#[cfg(test)]
mod layouts;
#[cfg(test)]
mod scans;
