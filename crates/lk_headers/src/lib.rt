//! The headers of an image: those before its seal, and the section headers at its end.
//!
//! A placement comes in, with the rows of the tail's parts (name, file offset, size), the address of the entry
//! and whether the stack is executable. Out come the first 4,088 bytes of the image (`headers`: the file
//! header, the program headers, zeros), or the limit where the placement has more than 64 program
//! headers; the bytes of the section headers (`section_headers`); and where the placement's thread-local
//! block begins and ends (`tls_start`, `tls_end`).
//!
//! The contracts cite `FrontGives` (specs/Front.antt) and `section_table_bytes` (specs/SectionTable.antt),
//! on any placement and any rows: of a number greater than its field the low bytes are written. Those of the
//! thread-local block cite the definitions of these names in lk_model. Callers rely on
//! `headers_are_the_models`: over the rows of the parts of a tail these are lk_model's `header_bytes` and
//! `section_headers`. Both are linear in the rows; a name is looked up by hash in a string table
//! (lk_string_table).
#![tactic(auto)]

mod appending;
mod counting;
mod file_header;
mod front;
mod laws;
mod links;
mod loads;
mod low_bits;
mod program_headers;
mod section_kinds;
mod section_rows;
mod section_table;
mod segments;
mod shown;
mod thread;
mod thread_block;

pub use front::headers;
pub use laws::headers_are_the_models;
pub use section_table::section_headers;
pub use thread_block::{tls_end, tls_start};
