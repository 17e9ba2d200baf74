//! Marks by number: which of the numbers 0, 1, 2 .. are marked, as the inputs of a link that are added, or the
//! sections of an object that are its pieces.
//!
//! Numbers come in, all at once (`Marks::of`) or one after another (`Marks::mark`). Out comes whether a number is
//! marked. Each call takes one look-up by number, with one byte for each number up to the greatest one.
//!
//! The contracts cite `marks_of` and `is_marked` of specs/Marked.antt. A number past the last mark is not marked.
//! Lists of other items by number grow by `make_room`, as marks do.
#![tactic(auto)]

mod growing;
mod marking;

pub use growing::make_room;
pub use marking::Marks;
