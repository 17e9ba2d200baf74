//! The values of symbols at a placement, and the numbers of a relocation (gABI "Symbol Table", "Relocation";
//! psABI x86-64 "Relocation Types", "Thread-Local Storage").
//!
//! The resolution of a link comes in (`Resolution`), with the summaries of the inputs and a placement, which may be
//! a full one or that of an update. `Values::new` visits each name, piece and slot once, and keeps the resolution and
//! the placement, so that a caller passes the values alone. Then each question is answered by a look-up by number or
//! by hash: the address of a section of an input (`piece_start`), the numbers that a name or a LOCAL symbol gives to
//! the relocations through it (`name_numbers`, `local_numbers`), the content of a GOT slot (`name_slot`,
//! `local_slot`), and the entry address (`entry`). The first is asked once for each section, the second once for each
//! symbol of an object; the numbers of a relocation (`place_at`, `numbers`) follow from these without a look-up.
//!
//! The contracts cite lk_model's definitions over what it resolves of the inputs of a command, wherever the
//! resolution and the summaries are those of the same inputs (`IsGiven` of lk_resolve) and the placement is lawful
//! (`Lawful`). A sum that a field does not hold is given by its low 64 bits (`low_numbers` of
//! specs/SymbolNumbering.antt), as fields are written; a relocation has the same value by these
//! (`low_numbers_serve`).
#![tactic(auto)]

mod addresses;
mod input_symbols;
mod laws;
mod made_places;
mod made_values;
mod name_values;
mod piece_addresses;
mod sections;
mod slot_numbers;
mod values;

pub use laws::{low_numbers_serve, places_are_exact};
pub use values::{Relocation, SymbolNumbers, Values, place_at};
