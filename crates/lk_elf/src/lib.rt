// The records of ELF64: the header of a file, section headers, program headers, symbols, relocations
// with addends and entries of the dynamic section, each a plain struct with the fields of the gABI.
//
// Bytes come in and a record goes out (`read_at`), or a record goes into bytes (`write_at`). No call
// takes memory. The contracts cite the definitions of `specs/Fields.antt` and `specs/Records.antt`:
// a field is the little-endian number of its bytes, and a record is the tuple of its fields.
//
// What callers rely on: `read_at` gives the record exactly where its bytes are all there; `write_at`
// changes the record's bytes alone, and what it wrote is read back.
#![tactic(auto)]

mod dynamic_entry;
mod fields;
mod file_header;
mod missing;
pub mod numbers;
mod program_header;
mod relocation;
mod section_header;
mod symbol;

pub use dynamic_entry::Dyn;
pub use file_header::Ehdr;
pub use missing::Short;
pub use program_header::Phdr;
pub use relocation::{Rela, r_info};
pub use section_header::Shdr;
pub use symbol::Sym;
