//! The GOT slots and PLT entries of a link, as they are given and given up (psABI x86-64 "Global Offset
//! Table", "Procedure Linkage Table").
//!
//! The slot table of an earlier image, or none, comes in; out comes the table after any calls. A new key
//! takes the lowest free slot, a new name the entry after the last. A slot that is given up is free; the
//! last entry moves into the place of one that is given up, so that entries have no gaps. Contracts are said
//! in lk_model's `with_key` and `with_entries`, by which an update's table is defined. Once `reserve` has made
//! room, no call takes memory, and none walks the table.
#![tactic(auto)]

mod free_slots;
mod room;
mod slots;

pub use slots::Slots;
