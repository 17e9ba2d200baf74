//! What a link knows of an input once it was read: its pieces, symbols and groups.

ghost use Rattle.std.specs.Prelude.{◌≡◌, IfOk};

use crate::layouts::SectionKey;
use lk_report::{List, Name, NoMemory, TryCopy};

/// What a link keeps of an input, and records in its image.
#[derive(PartialEq, Eq, Debug, Drop)]
pub struct InputSummary {
    pub kind: Kind,
    /// The name by which an image needs a shared input; empty for an object.
    pub soname: Name,
    /// Whether the object asks for an executable stack.
    pub exec_stack: bool,
    /// The sections that may be linked, by rising number.
    pub pieces: PieceInfoList,
    /// The symbols that are not LOCAL, by rising number.
    pub globals: GlobalList,
    /// The COMDAT groups, by rising section number.
    pub groups: GroupList,
}

/// What an input is.
#[derive(Clone, Copy, PartialEq, Eq, Debug)]
pub enum Kind {
    /// A relocatable object (ET_REL).
    Object,
    /// A shared object (ET_DYN).
    Shared,
}

/// An input section that may be linked.
#[derive(PartialEq, Eq, Debug, Drop)]
pub struct PieceInfo {
    /// The section's number in its object.
    pub section: u32,
    /// The section's name.
    pub name: Name,
    /// The output section that it goes to.
    pub key: SectionKey,
    /// The size in bytes; 0 for a terminator.
    pub size: u64,
    /// The alignment, a power of two, at least 1.
    pub align: u64,
    /// Whether it is a terminator of `.eh_frame`: four zero bytes without relocations.
    pub terminator: bool,
}

impl PieceInfo {
    /// An equal piece.
    pub fn copy(&self, alloc: std::alloc::Global) -> Result<Self, NoMemory>
        ensures { IfOk result (λ c. c ≡ self.now) }
    {
        Ok(PieceInfo {
            section: self.section,
            name: self.name.copy(alloc)?,
            key: self.key.copy(alloc)?,
            size: self.size,
            align: self.align,
            terminator: self.terminator,
        })
    }
}

impl TryCopy for PieceInfo {
    fn try_copy(&self, alloc: std::alloc::Global) -> Result<Self, NoMemory> {
        self.copy(alloc)
    }
}

/// A symbol that is not LOCAL, as its input has it (gABI, "Symbol Table").
#[derive(PartialEq, Eq, Debug, Drop)]
pub struct Global {
    /// The symbol's number in its table.
    pub symbol: u32,
    pub name: Name,
    /// STB_GLOBAL or STB_WEAK.
    pub binding: u32,
    /// The symbol's type.
    pub code: u32,
    pub visibility: u32,
    pub home: Home,
    /// `st_value`: an offset in its section, a value, or a common's alignment.
    pub value: u64,
    /// `st_size`, in bytes.
    pub size: u64,
}

impl Global {
    /// An equal symbol.
    pub fn copy(&self, alloc: std::alloc::Global) -> Result<Self, NoMemory>
        ensures { IfOk result (λ c. c ≡ self.now) }
    {
        Ok(Global {
            symbol: self.symbol,
            name: self.name.copy(alloc)?,
            binding: self.binding,
            code: self.code,
            visibility: self.visibility,
            home: self.home,
            value: self.value,
            size: self.size,
        })
    }
}

impl TryCopy for Global {
    fn try_copy(&self, alloc: std::alloc::Global) -> Result<Self, NoMemory> {
        self.copy(alloc)
    }
}

/// Where a symbol is defined.
#[derive(Clone, Copy, PartialEq, Eq, Debug)]
pub enum Home {
    /// Nowhere: a reference.
    Undefined,
    /// In a section of its object.
    Section(u32),
    /// An absolute value.
    Absolute,
    /// A common block.
    Common,
    /// In a shared input.
    Shared,
}

/// A COMDAT group: its signature and its members' section numbers in the table's order.
#[derive(PartialEq, Eq, Debug, Drop)]
pub struct Group {
    pub signature: Name,
    pub members: NumberList,
}

/// A LOCAL symbol of an object, or the null symbol.
#[derive(Clone, Copy, PartialEq, Eq, Debug)]
pub struct Local {
    pub home: Home,
    pub value: u64,
    pub size: u64,
    /// The symbol's type.
    pub code: u32,
}

/// A symbol of one input for a name: what resolution looks at.
#[derive(PartialEq, Eq, Debug, Drop)]
pub struct Contribution {
    /// The input's number.
    pub input: u32,
    /// What the input is.
    pub kind: Kind,
    pub global: Global,
}

impl Contribution {
    /// An equal contribution.
    pub fn copy(&self, alloc: std::alloc::Global) -> Result<Self, NoMemory>
        ensures { IfOk result (λ c. c ≡ self.now) }
    {
        Ok(Contribution {
            input: self.input,
            kind: self.kind,
            global: self.global.copy(alloc)?,
        })
    }
}

impl TryCopy for Contribution {
    fn try_copy(&self, alloc: std::alloc::Global) -> Result<Self, NoMemory> {
        self.copy(alloc)
    }
}

/// All symbols of one name, in adding order and symbol order.
#[derive(PartialEq, Eq, Debug, Drop)]
pub struct Contributions {
    pub name: Name,
    pub list: ContributionList,
}

/// The definition that a name means.
#[derive(Clone, Copy, PartialEq, Eq, Debug)]
pub enum Winner {
    /// No input defines it, nor does the linker.
    Nothing,
    /// A strong definition in an object.
    Strong { input: u32, symbol: u32 },
    /// The merged common block: greatest size, greatest alignment.
    Common { size: u64, align: u64 },
    /// The first weak definition in an object.
    Weak { input: u32, symbol: u32 },
    /// A symbol that the linker makes.
    Made,
    /// The first definition in a shared input.
    Import { input: u32, symbol: u32 },
}

/// Numbers in order.
pub type NumberList = List<u32>;
/// Pieces by rising section number.
pub type PieceInfoList = List<PieceInfo>;
/// Symbols by rising number.
pub type GlobalList = List<Global>;
/// COMDAT groups by rising section number.
pub type GroupList = List<Group>;
/// Contributions in adding order and symbol order.
pub type ContributionList = List<Contribution>;
/// Summaries by input.
pub type SummaryList = List<InputSummary>;
