//! The records of an image: what a link writes so that a later link can update it.
//!
//! The records of a link come in as borrowed parts (`RecordParts`: its options, all inputs with their pieces,
//! symbols and groups, and where everything is). Out come the two record sections that an image has today,
//! `.gnu_incremental_inputs` and `.gnu_incremental_strtab` (`write_inputs`), the names of the sections
//! (`section_names`), and the three as the parts of the image's tail in their order (`tail`).
//!
//! The contracts cite lk_model's `record_parts`, of any records with these parts (specs/RecordParts.antt): these
//! sections depend on no name and no reference. A section is the bytes of its fields one after another, a text is in
//! it by its offset in the string table, and this table has each text once, in order of first use. The parts may be
//! any: of a number that is greater than its field the low bytes are written, as in the definitions. Callers rely on
//! the clause of `tail`: for the records of a link the parts are lk_model's `tail_parts`.
//!
//! The parts are read twice: the first walk (`noting`) fills the string table (lk_string_table), the second
//! (`putting`) writes the records, each as words of eight bytes (`words`) with one test for room. A text's
//! offset is looked up by hash and a piece's row by number (lk_piece_rows), so both walks are linear.
#![tactic(auto)]

mod appending;
mod heads;
mod input_heads;
mod inputs_section;
mod noting;
mod pieces;
mod putting;
mod record_parts;
mod summaries;
mod tail_parts;
mod words;

pub use inputs_section::{InputsAndTexts, write_inputs};
pub use record_parts::{RecordParts, RecordedInput, RecordedInputs};
pub use tail_parts::{Tail, TailPart, section_names, tail};
