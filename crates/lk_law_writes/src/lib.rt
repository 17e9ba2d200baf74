//! The law of writes: an image that is written stretch by stretch is laid out.
//!
//! There is no code here. lk_model says what an image holds: stretches, each at its place, and zeros elsewhere
//! (`IsLaidOut`), in an order of its own, with tables that hold zeros and ends of rooms. Code makes an image of
//! zeros and writes into it, one after another, in an order that suits it: headers, seal, pieces in kept order,
//! the fill of holes row by row, the parts of the tail, section headers (`written`, specs/Written.antt). The
//! contracts here lead from the one to the other. Callers rely on `GroupsAreWritten`, a clause of
//! `link_is_written`: zeros with these six groups written into them, in any order, are the image of the link.
//!
//! How it is shown: writes that share no byte keep one another, so all of them are in the end, and no other
//! byte was touched. That the stretches of a link share none: headers and seal end where the first row begins;
//! the rooms of rows are apart (`Lawful`); in a room the pieces are apart, each hole is what pieces, table and
//! reserved end leave, and its fill is as long as the hole; each part of the tail is behind the one before.
#![tactic(auto)]

mod laws;

pub use laws::{command_is_written, link_is_written, stretches_are_laid, writes_are_laid_out};
