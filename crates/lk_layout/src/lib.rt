//! Where a link made anew puts everything: its output sections, the pieces that it keeps, its slots.
//!
//! What resolution found comes in (`Resolution`), with the summaries of the inputs, the needs of their
//! references and the options. Out comes, by `full_layout`, a `Placement`, or the first limit that it exceeds.
//! The contract cites lk_model's `full_place` of what is resolved of the inputs of a command, wherever the
//! arguments are given by the same inputs (`LayoutGives` of specs/Layouts.antt over lk_dyn_sizes' `IsGiven`).
//! Callers rely on one law besides: of inputs without a fault the placement is lawful, so that a later link can
//! patch it in place.
//!
//! Kept pieces are grouped by output section, found by hash; each group is walked once, and gives the room and
//! the offsets of its pieces. Sums are made in 128 bits, so that a limit is reported with its whole number, and
//! are put into fields of 64 bits once they are known to fit. So n pieces cost n steps, and n log n where they
//! are sorted.
#![tactic(auto)]

mod amounts;
mod arrays;
mod classes;
mod extents;
mod grouping;
mod kept;
mod kept_pieces;
mod kept_sections;
mod key_kinds;
mod key_refs;
mod layouts;
mod loaded_rows;
mod name_pieces;
mod piece_rows;
mod placing;
mod ranks;
mod rooms;
mod row_places;
mod section_rows;
mod sections;
mod slots;
mod stretches;
mod walks;
mod wide_rows;

pub use layouts::full_layout;
