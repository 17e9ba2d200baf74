//! The rows of the placed input sections of a link, by input and section.
//!
//! A placement comes in; out comes the row of a section of an input, by two look-ups by number and no hash
//! (`PieceRows::row`). The sections of all inputs are in one dense list, one input after another, each with the
//! number of its row; an input has as many as its last placed section has a number, and one more for number 0.
//!
//! The contract cites lk_model's `piece_row_of`, at any placement: the row of a section is the first one that the
//! placement has for it, and a section that is not placed has none.
#![tactic(auto)]

mod numbering;
mod piece_rows;
mod section_counts;
mod section_ranges;

pub use piece_rows::PieceRows;
