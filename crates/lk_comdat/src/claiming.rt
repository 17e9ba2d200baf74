//! What a claim of a group's signature answers.

/// Whether a group is kept.
#[derive(Clone, Copy, PartialEq, Eq, Debug)]
pub enum Claim {
    /// It is the first of its signature, and is kept.
    First,
    /// Another group of its signature is kept, and this one is dropped; the input that has the other.
    Dropped(u32),
}
