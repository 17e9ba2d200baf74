//! The symbols of a link by name (gABI "Symbol Table"), and which definition a name means.
//!
//! The symbols of the added inputs come in, in adding order, each under its name; out come the names'
//! numbers, in order of their first symbol, all symbols of a name, and its winner and visibility.
//! `SymTab::add` answers by the definition `AddGives` of specs/NameRows.antt, over the list of the rows;
//! `winner` is lk_model's `winner_of`, and `visibility` its `visibility_of`, of the name's list. Names are
//! found by hash, and the winner is picked from the best that each row keeps beside its list. Callers rely
//! on `symbols_are_the_models`: the table of all symbols in a row has lk_model's `contributions_of` as
//! its rows.
#![tactic(auto)]

mod bests;
mod laws;
mod name_table;
mod names_by_symbol;
mod rows;
mod symbol_kinds;
mod symbol_table;

pub use laws::symbols_are_the_models;
pub use symbol_kinds::{is_of_object, is_strong_definition};
pub use symbol_table::SymTab;
