//! What DYNAMIC names (gABI "Dynamic Section"), as it is read: the bytes of the tables, and what they say.

use crate::loads::{LoadSymbolList, RelaList};
use lk_report::{Bytes, NameList};

/// The bytes of the tables that DYNAMIC names.
#[derive(Debug, Drop)]
pub struct Tables {
    /// The symbol table (gABI "Symbol Table").
    pub records: Bytes,
    /// The string table (gABI "String Table").
    pub strings: Bytes,
    /// The relocations of RELA (gABI "Relocation").
    pub relas: Bytes,
    /// The relocations of JMPREL.
    pub jumps: Bytes,
}

/// What DYNAMIC names: the shared objects that are needed, the symbols, the relocations.
#[derive(Debug, Drop)]
pub struct Named {
    pub needed: NameList,
    pub symbols: LoadSymbolList,
    pub relocations: RelaList,
}
