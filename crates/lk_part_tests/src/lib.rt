//! Tests of the parts that a link is put together from: words, names, groups, output sections, relocations and
//! free lists.
//!
//! They are in a crate of their own above the crates that they call, since a crate with tests is proved
//! twice. `words` shows commands and their faults (lk_command), `names` which definition wins (lk_symtab),
//! `claims` which group is kept (lk_comdat), `keys` output sections and their order (lk_outsec), `fields` the
//! values of relocations (lk_reloc), `rooms` free bytes and what fills them (lk_freelist). What is called here
//! is public, and each public call of these crates that takes memory is run by a test that succeeds.
#![tactic(auto)]

#[cfg(test)]
mod claims;
#[cfg(test)]
mod fields;
#[cfg(test)]
mod keys;
#[cfg(test)]
mod names;
#[cfg(test)]
mod rooms;
#[cfg(test)]
mod words;
