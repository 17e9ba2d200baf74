//! The image of a link at a placement (gABI "Object Files"): from the addresses of everything to the bytes of the file.
//!
//! The parts of a link come in: its options, the names and summaries of its inputs, their resolution (`Resolution`),
//! their objects, the references that an image records, and a placement, which may be a full one or that of an update.
//! `link_image` makes the records of the link and the tail of its image, finds the values of symbols, puts the headers
//! before the seal, links the pieces, fills the holes, and puts the tail behind them. Out comes the image; or the
//! limit, or the values that do not fit their fields, for which a link has no image.
//!
//! The contract cites lk_model (`ImageAnswers`, specs/ImageAnswers.antt): an image is laid out (`IsLaidOut`) of
//! `stretches_of` the link at the placement, and a refusal is the first of the last two limits of `placement_limit`
//! and of `overflow_faults`. Callers rely on one law: zeros with the stretches of a link written into them are its
//! image (lk_law_writes), so each step writes its own stretches and depends on no other.
#![tactic(auto)]

mod described;
mod images;
mod limits;
mod placed_tails;
mod tail_rows;
mod writing;

pub use images::link_image;
