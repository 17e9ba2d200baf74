//! Phrases: a word by itself, or an option with its value.

use crate::meanings::{Flag, Valued};

/// A part of a command that has a meaning of its own. A word is named by its number, from 1.
#[derive(Clone, Copy)]
pub(crate) enum Phrase<'a> {
    /// The number of a word that means nothing.
    Wrong(u32),
    /// An input's path.
    Named(&'a [u8]),
    /// A word that is alone, with its number.
    Flagged(u32, Flag),
    /// An option with its value.
    Given(Given<'a>),
}

/// An option with its value.
#[derive(Clone, Copy)]
pub(crate) struct Given<'a> {
    /// The number of the option's word.
    pub number: u32,
    pub option: Valued,
    /// The number of the word that has the value.
    pub at: u32,
    /// `None` where no word is left for it.
    pub value: Option<&'a [u8]>,
}
