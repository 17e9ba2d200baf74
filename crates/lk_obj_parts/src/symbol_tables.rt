//! Where the symbol table of a file is (gABI "Symbol Table").

/// The section of the symbol table, and the string section that it names.
#[derive(Clone, Copy)]
pub struct SymbolsAt {
    pub section: u32,
    pub strings: u32,
}
