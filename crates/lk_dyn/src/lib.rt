//! The bytes of the tables of a dynamic link (gABI "Dynamic Linking"; psABI x86-64 "Dynamic Linking").
//!
//! What is resolved comes in by the names of a link and the numbers of its dynamic ones, with a placement,
//! which may be that of an update; out come the bytes of each table. Contracts are said in lk_model's
//! definitions of the tables. Each name, slot and entry is looked at a fixed number of times.
//!
//! Callers rely on three laws: the look-up of the gABI finds each dynamic name in `.hash`, and no other
//! (`look_ups_find_each_name`); each entry of `.plt` jumps by its slot in `.got.plt`, which leads back to the
//! entry (`entries_jump_by_their_slots`); each relocation of `.rela.plt` and `.rela.dyn` fills a slot or a copy by
//! the name that this is of (`relocations_name_what_they_fill`).
#![tactic(auto)]

mod appending;
mod calls;
mod copy_addresses;
mod defined_names;
mod dynamic_section;
mod got_contents;
mod hash_tables;
mod hashing;
mod interpreters;
mod laws;
mod local_slots;
mod low_bits;
mod name_places;
mod relocations;
mod sections;
mod start_relocations;

pub use appending::put_symbol;
pub use calls::{got_plt_table, plt_table};
pub use dynamic_section::dynamic_table;
pub use got_contents::got_table;
pub use hash_tables::hash_table;
pub use hashing::sysv_hash;
pub use interpreters::interp_table;
pub use laws::{
    entries_jump_by_their_slots, look_ups_find_each_name, relocations_name_what_they_fill,
};
pub use local_slots::{LocalSlot, LocalSlotList};
pub use low_bits::low_64;
pub use name_places::NamePlaces;
pub use relocations::rela_plt_table;
pub use sections::{is_key, row_of};
pub use start_relocations::rela_dyn_table;
