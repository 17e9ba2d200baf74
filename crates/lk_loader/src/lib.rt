//! What a loader makes of an image (gABI "Program Loading", "Dynamic Section").
//!
//! The bytes of a file come in. Out comes what a loader maps and takes of it (`load`): runs of bytes with
//! their rights, the entry, the thread-local segment, and what DYNAMIC names: needs, symbols, relocations. Or
//! the fault for which a loader takes no such file.
//!
//! The contract cites lk_model's `load_refusal` and `loaded_image` (specs/LoadedImages.antt), which is made of
//! lk_model's definitions. Callers rely on it both ways: an image is taken exactly where there is no refusal,
//! and else the first refusal is reported. The runs map the same bytes with the same rights as lk_model's
//! `loaded`, address by address.
//!
//! A run is the memory of one LOAD header: its bytes of the file, then zeros. LOADs that pass the checks
//! rise, so the runs do, and a table is gathered from them in one pass over the runs; no address is looked
//! up by itself. All is linear in headers, entries, symbols, relocations and bytes.
#![tactic(auto)]

mod dynamic_entries;
mod file_headers;
mod gathering;
mod loading;
mod loads;
mod parts;
mod program_headers;
mod records;
mod runs;
mod tables;
mod texts;

pub use lk_model::layouts::TlsSegment;
pub use loading::load;
pub use loads::{LoadFault, LoadSymbol, LoadSymbolList, Loaded, RelaList, Run, RunList};
