//! Which object keeps a COMDAT group (gABI "Section Groups").
//!
//! The groups of the added inputs come in, in adding order, each as its signature and the number of its
//! input; out comes whether the group is the first of its signature, and is kept, or whose group was.
//! `Groups::claim` answers by the definition `ClaimGives` of specs/Claims.antt, over the list of the
//! signatures with their first claimers. Callers rely on `claims_are_the_models`: lk_model's `dropped_by`
//! drops, group by group, exactly the groups whose signature has a holder here, and after any claims the
//! holder is the first that asked for the signature.
#![tactic(auto)]

mod claiming;
mod group_table;
mod laws;

pub use claiming::Claim;
pub use group_table::Groups;
pub use laws::claims_are_the_models;
