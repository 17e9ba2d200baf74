//! Tables with their sizes.

use lk_model::layouts::SectionKey;
use lk_report::List;

/// A table that a link makes, with its size.
#[derive(PartialEq, Eq, Debug, Drop)]
pub struct TableSize {
    /// The output section that the table is.
    pub key: SectionKey,
    /// The size in bytes.
    pub size: u64,
}

/// Tables with their sizes, in order.
pub type TableSizeList = List<TableSize>;

/// The counts that decide the sizes of the tables of a dynamic link.
#[derive(Clone, Copy)]
pub struct DynamicCounts {
    /// The bytes of the path of the dynamic linker, with its closing zero.
    pub interp: u64,
    /// The entries of the table of dynamic symbols.
    pub symbols: u64,
    /// The bytes of the string table.
    pub strings: u64,
    /// The slots and copies that the dynamic linker fills at the start.
    pub fills: u64,
    /// The entries of the procedure linkage table, except the first, which the others share.
    pub calls: u64,
    /// The entries of the dynamic section.
    pub entries: u64,
}

/// The sizes of the tables of a dynamic link, in bytes.
#[derive(Clone, Copy)]
pub struct DynamicSizes {
    /// `.interp`
    pub interp: u64,
    /// `.hash`
    pub hash: u64,
    /// `.dynsym`
    pub dynsym: u64,
    /// `.dynstr`
    pub dynstr: u64,
    /// `.rela.dyn`
    pub rela_dyn: u64,
    /// `.rela.plt`
    pub rela_plt: u64,
    /// `.plt`
    pub plt: u64,
    /// `.dynamic`
    pub dynamic: u64,
}
