//! The records of an image are read: the bytes of its five record sections come in, and out comes what they
//! record, or the first bad place.
#![tactic(auto)]

mod counts;
mod cursors;
mod distinct_texts;
mod fields;
mod globals;
mod groups;
mod heads;
mod lists;
mod names;
mod places;
mod powers;
mod refusals;
mod rows_noted;
mod section_faults;
mod section_keys;
mod section_rows;
mod taken_ranges;
mod texts;

pub use distinct_texts::check_texts;
pub use names::{NameCounts, read_names};
