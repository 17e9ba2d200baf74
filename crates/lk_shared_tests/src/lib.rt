//! Tests of shared objects (lk_so_read), by a small file whose symbols and name are known by the rules.
//!
//! They are in a crate of their own above the crate that they call, since a crate with tests is proved twice.
//! What is called here is public.
#![tactic(auto)]

#[cfg(test)]
mod shared_objects;
