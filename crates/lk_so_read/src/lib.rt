//! Shared objects are read as a whole: any bytes come in, and out comes what a link keeps of a shared object
//! as the gABI means it, or the first of the named faults with its place.
//!
//! `read_shared` goes from the identification to the section table (section_tables.rt), finds the symbols of
//! dynamic linking and the dynamic section and looks at both (dynamic_tables.rt), reads the symbols that other
//! files may mean in one pass (symbol_reading.rt, by the choice of offered_symbols.rt), and the name by which
//! an image needs the file (sonames.rt, by the entries of dynamic_entries.rt). Its contract cites lk_model's
//! `shared_fault` (SharedChecks) and `shared_summary_in` (SharedObjects). `needs_of` reads the names of the
//! files that a shared object needs (needs.rt; `needs_in` in specs/Needs).
//!
//! Callers rely on one law: what is answered is the definition's value, on any bytes. Out of memory alone
//! is tied to no cause.
#![tactic(auto)]

mod dynamic_entries;
mod dynamic_tables;
mod needs;
mod offered_symbols;
mod section_tables;
mod shared_reading;
mod sonames;
mod string_texts;
mod symbol_reading;

pub use lk_summary::ReadFailure;
pub use needs::needs_of;
pub use shared_reading::read_shared;
