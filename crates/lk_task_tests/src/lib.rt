//! Tests of the tokens by which tasks wait and of the ranges that they write (lk_token, lk_ranges).
//!
//! They are in a crate of their own above the crates that they call, since a crate with tests is proved twice.
//! Each public call of these crates that takes memory is run by a test that succeeds.
#![tactic(auto)]

#[cfg(test)]
mod ranges;
#[cfg(test)]
mod tokens;
