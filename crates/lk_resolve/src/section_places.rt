//! Where a section of a link is: its input and its number there.

/// A section of an input.
#[derive(Clone, Copy, PartialEq, Eq, Hash, Debug)]
pub struct SectionPlace {
    /// The input's number.
    pub input: u32,
    /// The section's number in its object.
    pub section: u32,
}
