//! The linked bytes of pieces: each kept section is copied from its object to its place in the file, and the value
//! of each of its relocations is written into its field (gABI "Relocation"; psABI x86-64 "Relocation Types").
//!
//! The objects of a link come in, the values of its symbols (`Values`, which have its resolution and its placement,
//! a full one or that of an update), and the bytes of the file. `link_pieces` goes over the placed pieces once, in
//! their order, and reports every value that does not fit its field: piece, section, field.
//!
//! The contract cites lk_model, wherever the arguments are those of a link (`IsLinked` of specs/Links.antt): the
//! faults are those that `overflow_faults` lists, and without faults the stretches of the kept pieces
//! (`piece_stretches` of specs/Written.antt) are written into the file, one after another. Callers rely on one law:
//! a file without faults has the linked bytes of every piece, and no other byte is changed. The address of a section
//! is looked up once for the section, the numbers of a symbol once for the object, on its first use; a relocation
//! that fits takes no look-up by hash and no memory.
#![tactic(auto)]

mod field_filling;
mod linking;
mod numbers_of_symbols;
mod object_sections;
mod object_tables;
mod piece_marks;
mod piece_places;
mod section_linking;

pub use linking::link_pieces;
