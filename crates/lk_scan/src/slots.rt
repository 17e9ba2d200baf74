//! The slots of the GOT that references need (psABI x86-64, "Global Offset Table"), as they are looked up
//! by hash.

/// A slot: whose it is, and whether it holds a thread offset.
#[derive(Clone, Copy, PartialEq, Eq, Hash)]
pub enum Slot {
    /// The slot of a name, by its number.
    OfName {
        number: u32,
        thread: bool,
    },
    /// The slot of a LOCAL symbol of an input.
    OfLocal {
        input: u32,
        symbol: u32,
        thread: bool,
    },
}
