//! What a loader makes of an image, and why it takes none (gABI "Program Loading", "Dynamic Section").

use lk_elf::Rela;
use lk_model::layouts::TlsSegment;
use lk_report::{Bytes, List, Name, NameList, NoMemory};

/// The bytes of a segment in memory (gABI "Program Loading"): those of the file, then zeros.
#[derive(PartialEq, Eq, Debug, Drop)]
pub struct Run {
    /// The address of the first byte.
    pub addr: u64,
    /// The rights of all of them (gABI "Program Header", p_flags).
    pub flags: u32,
    pub bytes: Bytes,
}

/// A symbol by which an image and its shared objects find each other (gABI "Symbol Table").
#[derive(PartialEq, Eq, Debug, Drop)]
pub struct LoadSymbol {
    pub name: Name,
    /// The symbol value (gABI "Symbol Table", st_value).
    pub value: u64,
    /// The size in bytes.
    pub size: u64,
    /// The binding in the high four bits, the type in the low four (gABI "Symbol Table", st_info).
    pub info: u32,
    /// Whether the image defines it.
    pub defined: bool,
}

/// What a loader makes of an image (gABI "Program Loading", "Dynamic Section").
#[derive(PartialEq, Eq, Debug, Drop)]
pub struct Loaded {
    /// The runs of bytes, one for each LOAD header in their order, by rising address.
    pub runs: RunList,
    /// The shared objects that the image needs, in the order of its NEEDED entries.
    pub needs: NameList,
    /// The dynamic symbols, number k at place k; the null symbol is the first.
    pub symbols: LoadSymbolList,
    /// The relocations of RELA, then those of JMPREL.
    pub relocations: RelaList,
    /// The thread-local segment, where there is one (gABI "Thread-Local Storage").
    pub tls: Option<TlsSegment>,
    /// The address where the program begins (gABI "ELF Header", e_entry).
    pub entry: u64,
}

/// Why a loader takes no image (gABI "ELF Header", "Program Header", "Dynamic Section"). They are looked
/// for in this order.
#[derive(Clone, Copy, PartialEq, Eq, Debug)]
pub enum LoadFault {
    /// The file is no ELF64 executable in little-endian byte order.
    NotElf,
    /// This program header, or the range of the file that it names, does not lie in the file.
    BadTable(u32),
    /// The LOAD at this program header begins below the end of an earlier one.
    Overlap(u32),
    /// What DYNAMIC names is not loaded, or a text of it does not end in the string table.
    BadDynamic,
    NoMemory,
}

/// Runs of bytes in order.
pub type RunList = List<Run>;
/// Symbols in order.
pub type LoadSymbolList = List<LoadSymbol>;
/// Relocations in order.
pub type RelaList = List<Rela>;

impl From<NoMemory> for LoadFault {
    ghost use Rattle.std.specs.Prelude.{◌≡◌};
    ghost use Rattle.lk_loader.specs.declared.loads.LoadFault.TheVariants as faults;

    ghost from_gives = { λ _ fault. fault ≡ faults.NoMemory };

    fn from(_none: NoMemory) -> LoadFault {
        LoadFault::NoMemory
    }
}
