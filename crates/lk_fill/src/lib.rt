//! The fill of an image: in the rooms of output sections that the file holds, every byte that no piece and
//! no table covers.
//!
//! A placement comes in; out go the holes of each of its sections (`holes`), and an image in which each hole
//! has its bytes (`fill_holes`): traps in code, an empty entry in the frame table, an empty unit among the
//! debug units, zeros in other patched sections; in a sequence or a table one byte up to its end and another
//! past it.
//!
//! The contracts cite lk_model: `holes` gives `holes_of` of specs/Holes for each row of any placement, and
//! `fill_holes` leaves the image with the stretches `hole_stretch` (specs/Images) of all holes written into
//! it (`fill_stretches`, specs/Filled.antt), wherever these can be filled (`CanBeFilled`); lawful placements
//! can. Both take n log n steps for n pieces, and ask for memory before a byte is written.
//!
//! Callers rely on one law: holes are determined by their free bytes, so that the gaps between the ranges
//! of a row, sorted, are what lk_model finds by taking one range after another from the room.
#![tactic(auto)]

mod covering;
mod gaps;
mod hole_bytes;
mod keys;
mod laws;
mod writing;

pub use gaps::holes;
pub use laws::lawful_placements_can_be_filled;
pub use writing::fill_holes;
