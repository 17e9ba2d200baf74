//! The free bytes of an output section's room: where a new piece goes, how the bytes of an old one become
//! free again, and what is in the holes.
//!
//! A room, or its holes, come in; out come the places of pieces, one after another, and the holes that are
//! left. `FreeList::place` answers lk_model's `first_fit` and leaves lk_model's `without`,
//! `FreeList::take_back` frees bytes and joins the holes that touch, and `fill` writes any part of
//! lk_model's `fill_bytes`. Once `reserve` has made room, none of them takes memory.
//!
//! Callers rely on one law: holes are determined by their free bytes (`free_bytes_are_the_models`), so that
//! what a free list holds after any calls is what lk_model finds anew from the pieces that are.
#![tactic(auto)]

mod filling;
mod free_list;
mod laws;
mod placing;
mod taking_back;

pub use filling::fill;
pub use free_list::FreeList;
pub use laws::free_bytes_are_the_models;
