//! The law of full placements: where a link made anew puts everything is a placement that a link may have.
//!
//! There is no code here. lk_model says where everything goes (`full_place`) and what a lawful placement is
//! (`Lawful`: pieces in their sections' rooms at multiples of their alignments, no two on one byte, holes
//! that can be filled, sections in order with the sizes and the room that they have). The contract of
//! `full_placement_is_lawful` says that the first is the second, for all links, static and dynamic, of
//! inputs in which no fault is found. So a layout that is proved to make the full placement has made a lawful
//! one, and an update can begin with one.
//!
//! What is known of kept pieces is in specs/SoundPieces.antt, and of inputs in specs/SoundInputs.antt:
//! alignments are powers of two, a terminator is empty and goes to the frames, and no piece goes to a table.
#![tactic(auto)]

mod laws;

pub use laws::full_placement_is_lawful;
