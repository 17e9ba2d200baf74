//! The symbol tables of a link, and all the tables that it makes (gABI "Symbol Table", "String Table", "Dynamic
//! Linking").
//!
//! What is resolved comes in by a `Resolution` with the summaries of the inputs, the needs and the options, with a
//! placement, which may be that of an update; out come the bytes of `.dynsym` (`dynsym_table`), of `.symtab` and
//! `.strtab` (`symtab_table`, `symbol_texts`). Contracts are said in lk_model's
//! definitions of the tables. Each name, slot and entry is looked at a fixed number of times.
#![tactic(auto)]

mod bindings;
mod named_rows;
mod number_sets;
mod symbol_entries;
mod symbol_places;
mod symbol_tables;
mod symbols;
mod winning_names;

pub use symbol_tables::{dynsym_table, symtab_table};
pub use symbols::Symbols;
pub use winning_names::{symbol_texts, winner_names};
