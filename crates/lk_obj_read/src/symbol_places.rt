//! Where the symbols of a file are in it.

/// The symbols of a file: so many entries of 24 bytes, one after another from this byte on.
#[derive(Clone, Copy)]
pub(crate) struct SymbolPlace {
    pub(crate) at: usize,
    pub(crate) count: usize,
}
