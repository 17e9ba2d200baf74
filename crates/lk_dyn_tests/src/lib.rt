//! Tests of the tables of a dynamic link, and of the slots and entries that they hold.
//!
//! They are in a crate of their own above the crates that they call, since a crate with tests is proved
//! twice. `calls` shows the procedure linkage table, its slots and their relocations, `symbols` the hash table and
//! the path of the dynamic linker (lk_dyn), `slots` slots and entries that are given up and given again
//! (lk_gotplt).
#![tactic(auto)]

#[cfg(test)]
mod calls;
#[cfg(test)]
mod slots;
#[cfg(test)]
mod symbols;
