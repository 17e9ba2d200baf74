//! Tests of the resolution of inputs, and of the sizes of the tables of a link, by small links whose numbers are
//! counted by hand.
//!
//! They are in a crate of their own above the crates that they call, since a crate with tests is proved
//! twice. `making` makes what both use; `resolutions` shows which inputs are added, which sections are kept and
//! what names mean (lk_resolve), `tables` the tables of a static and of a dynamic link (lk_dyn_sizes).
//! What is called here is public, and each public call of these crates that takes memory is run by a test that
//! succeeds, here or in a crate above.
#![tactic(auto)]

#[cfg(test)]
mod making;
#[cfg(test)]
mod resolutions;
#[cfg(test)]
mod tables;
