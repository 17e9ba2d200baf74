//! Tests of objects, part by part and as a whole, by small files whose faults and parts are known by the rules.
//!
//! They are in a crate of their own above the crates that they call, since a crate with tests is proved
//! twice. `sections`, `symbols`, `relocations` and `groups` show the parts of objects (lk_obj_parts); `objects`
//! whole files and the objects that they are, `summaries` what a link keeps of them, `relocated` which
//! relocations a section has (lk_obj_read). `headers` has the empty headers that these are made of. What is
//! called here is public, and each public call of these crates that takes memory is run by a test that
//! succeeds, here or in a crate above.
#![tactic(auto)]

#[cfg(test)]
mod groups;
#[cfg(test)]
mod headers;
#[cfg(test)]
mod objects;
#[cfg(test)]
mod relocated;
#[cfg(test)]
mod relocations;
#[cfg(test)]
mod sections;
#[cfg(test)]
mod summaries;
#[cfg(test)]
mod symbols;
