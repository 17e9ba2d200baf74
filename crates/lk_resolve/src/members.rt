//! A member of a lib group that waits to be added.

use lk_model::summaries::InputSummary;

/// A member and its number as an input.
#[derive(Clone, Copy)]
pub struct Member<'m> {
    pub number: u32,
    pub summary: &'m InputSummary,
}
