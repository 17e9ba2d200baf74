//! Objects are read as a whole: any bytes come in, and out comes an object that can be linked as the gABI
//! means it, or the first of the named faults with its place.
//!
//! `object_fault` is the first fault of a file by all checks in their order, or none: a validating reader.
//! `read_object` reports the same fault, or gives the object, which contracts see as its bytes: its summary,
//! the bytes and the relocations of its pieces, its LOCAL symbols. `summarize` reports the same fault, or gives
//! the summary alone; `object_of` makes the object of a file that was so summarized, and checks nothing anew
//! (`copy_summary` gives it a summary of its own). `read_summary` is what a link keeps of an object of any parts: pieces (`pieces_of`),
//! symbols, groups, and whether it asks for an executable stack (`asks_exec_stack`); `relocated_sections`
//! says which sections have relocations. Each contract cites the
//! definition of that name in lk_model (ObjectChecks, Objects); the passes that checks go through, and what
//! they read, are in lk_obj_parts.
//!
//! Callers rely on one law: what is answered is the definition's value, on any bytes. Out of memory alone
//! is tied to no cause.
#![tactic(auto)]

mod file_parts;
mod local_symbols;
mod object_checks;
mod object_reading;
mod objects;
mod pieces;
mod rela_lists;
mod relocation_lists;
mod relocation_marks;
mod stack_requests;
mod summaries;
mod summary_copies;
mod symbol_places;

pub use lk_summary::ReadFailure;
pub use object_checks::object_fault;
pub use object_reading::{object_of, read_object, summarize};
pub use objects::Object;
pub use pieces::pieces_of;
pub use rela_lists::RelaList;
pub use relocation_marks::relocated_sections;
pub use stack_requests::asks_exec_stack;
pub use summaries::read_summary;
pub use summary_copies::copy_summary;
